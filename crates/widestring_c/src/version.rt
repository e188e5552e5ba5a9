//! The version of the library.
ghost use Rattle.std.specs.Prelude.{◌≡◌, ◌+◌, ◌*◌};

/// Returns the version of the library that the program runs with: 65,536 times the major number, plus 256 times the
/// minor number, plus the patch number. The header that the program was compiled with has its own version in
/// `WIDESTRING_VERSION_NUMBER`.
#[unsafe(no_mangle)]
pub extern "C" fn wide_version() -> u32
    ensures { result ≡ 65536 * 0 + 256 * 2 + 0 }
{
    0x00_0200
}
