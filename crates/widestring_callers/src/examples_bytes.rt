//! Units of concrete bytes of UTF-16.
ghost use Rattle.std.specs.Prelude.{◌≡◌, Some, None};

use widestring::bytes::utf16_of_bytes;

/// Reads bytes that end in a zero unit, and loses nothing.
pub fn units_with_a_last_zero() -> (Option<u16>, Option<u16>, Option<u16>)
    ensures { result ≡ (Some 0x61, Some 0, None) }
{
    let mut units = utf16_of_bytes(&[0xFF, 0xFE, 0x61, 0, 0, 0]).units;
    (units.next(), units.next(), units.next())
}

/// Reads a zero unit between two others.
pub fn units_around_a_zero() -> (Option<u16>, Option<u16>, Option<u16>)
    ensures { result ≡ (Some 0x61, Some 0, Some 0x62) }
{
    let mut units = utf16_of_bytes(&[0xFF, 0xFE, 0x61, 0, 0, 0, 0x62, 0]).units;
    (units.next(), units.next(), units.next())
}
