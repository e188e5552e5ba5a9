//! Tests whether a text is ASCII.
ghost use Rattle.std.specs.Prelude.{◌≡◌, ◌≤◌, ◌↔◌, IsAscii};

use wide_ascii::is_ascii;

/// Returns 1 if all units of UTF-16 are ASCII, at most 7F, and otherwise 0.
#[unsafe(no_mangle)]
pub extern "C" fn wide_utf16_is_ascii(units: &[u16]) -> u32
    ensures ascii { (result ≡ 1) ↔ IsAscii units.now }
    ensures flag { result ≤ 1 }
{
    u32::from(is_ascii(units))
}

/// Returns 1 if all units of UTF-32 are ASCII, at most 7F, and otherwise 0.
#[unsafe(no_mangle)]
pub extern "C" fn wide_utf32_is_ascii(units: &[u32]) -> u32
    ensures ascii { (result ≡ 1) ↔ IsAscii units.now }
    ensures flag { result ≤ 1 }
{
    u32::from(is_ascii(units))
}

/// Returns 1 if all bytes are ASCII, at most 7F, and otherwise 0.
#[unsafe(no_mangle)]
pub extern "C" fn wide_utf8_is_ascii(text: &[u8]) -> u32
    ensures ascii { (result ≡ 1) ↔ IsAscii text.now }
    ensures flag { result ≤ 1 }
{
    u32::from(text.is_ascii())
}
