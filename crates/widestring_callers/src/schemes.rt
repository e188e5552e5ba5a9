//! Texts that are stored in other encoding schemes, and read back.
ghost use Rattle.std.specs.Prelude.{◌≡◌, ◌↔◌, IfOk, IsTrue, List, None, ℕ, false, length};
ghost use Rattle.std.specs.Str.{IsUtf8};
ghost use Rattle.widestring.specs.ConvertedBytes.{EndsConverted};
ghost use Rattle.widestring.specs.ConvertedStreams.{fails_to_read, fails_to_write};
ghost use Rattle.widestring.specs.Run.{Moves};
ghost use Rattle.widestring.specs.Wtf8.{IsWtf8, wtf8};
ghost use Rattle.wide_schemes.specs.declared.scheme.Scheme.TheVariants.{Utf16, Utf8};

use std::alloc::Allocator;
use widestring::bytes::{ByteSink, ByteSource};
use widestring::convert::{ConvertError, Scheme, convert};
use widestring::wtf8::{FromWtf8Error, check_wtf8, from_wtf8, laws, to_wtf8};
use widestring::{U16String, Utf16Str};

/// Stores units as bytes, and reads them back. Every unit survives, even half of a pair.
pub fn stored_and_read<A: Allocator + Copy>(
    alloc: A,
    units: &[u16],
) -> Result<U16String<A>, FromWtf8Error>
    ensures { IfOk result (λ string. string.units ≡ units.now) }
{
    let text = to_wtf8(alloc, units)?;
    let string = from_wtf8(alloc, &text)?;
    laws::same_units(string.as_slice(), units);
    Ok(string)
}

/// Returns whether the text of units is UTF-8, as programs that know nothing of halves of pairs need it.
pub fn is_portable(units: &[u16]) -> bool
    ensures { IsTrue result ↔ IsUtf8 (wtf8 units.now) }
{
    laws::text_is_utf8(units);
    Utf16Str::from_slice(units).is_ok()
}

/// Returns how many bytes at the beginning are WTF-8: all of them, or those before the first fault.
pub fn valid_len(bytes: &[u8]) -> usize
    ensures { IsWtf8 bytes.now → result ≡ length bytes.now }
{
    match check_wtf8(bytes) {
        Ok(()) => bytes.len(),
        Err(fault) => fault.index,
    }
}

/// Writes UTF-16 as UTF-8 without a BOM.
pub fn write_text<S: ByteSource, K: ByteSink>(
    source: &mut S,
    sink: &mut K,
) -> Result<u64, ConvertError>
    requires source_unfailed { S.has_failed source.old ≡ false }
    requires source_open { S.has_ended source.old ≡ false }
    requires sink_unfailed { K.has_failed sink.old ≡ false }
    ensures run { (bytes written : List ℕ)
        × Moves (S.left source.old) (S.left source.new) (K.held sink.old) (K.held sink.new) bytes written
        × EndsConverted Utf16 Utf8 None false result (S.has_ended source.new) bytes written }
    ensures sink_failed { K.has_failed sink.new ≡ fails_to_write result }
{
    convert(source, sink, Scheme::Utf16, Scheme::Utf8, None, false)
}
