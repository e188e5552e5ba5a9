//! Lengths of text in another encoding form, and counts of characters. No buffer is needed.
ghost use Rattle.std.specs.Prelude.{◌≡◌, ◌<◌, ◌-◌, ◌^◌, length, min, nat_le};
ghost use Rattle.std.specs.List.{count_by};
ghost use Rattle.std.specs.Str.{IsUtf8, chars as str_chars};
ghost use Rattle.wide_forms.specs.EncodingForm.{Utf16, Utf32, encode};
ghost use Rattle.wide_forms.specs.Items.{IsWellFormed, chars};
ghost use Rattle.wide_forms.specs.Utf8.{utf8};

use std::str;
use wide_conversions::is_utf8;
use wide_from_units::utf8_len;
use wide_unit::{Unit, find_fault, length_as_utf16, length_as_utf32};

/// Returns the length in bytes of well-formed UTF-16 (Unicode Standard, D91) in UTF-8 (D92), or `usize::MAX` if the
/// units are ill-formed. It is vectorized.
#[unsafe(no_mangle)]
pub extern "C" fn wide_utf16_utf8_length(units: &[u16]) -> usize
    ensures len { IsWellFormed Utf16 units.now → result ≡ length (utf8 (chars Utf16 units.now)) }
    ensures fault { (IsWellFormed Utf16 units.now → ⊥) → result ≡ 2 ^ 64 - 1 }
    ensures no_fault { IsWellFormed Utf16 units.now → result < 2 ^ 64 - 1 }
{
    match find_fault(units) {
        None => utf8_len(units),
        Some(_fault) => usize::MAX,
    }
}

/// Returns the length in bytes of well-formed UTF-32 (Unicode Standard, D90) in UTF-8 (D92), or `usize::MAX` if the
/// units are ill-formed.
#[unsafe(no_mangle)]
pub extern "C" fn wide_utf32_utf8_length(units: &[u32]) -> usize
    ensures len { IsWellFormed Utf32 units.now → result ≡ length (utf8 (chars Utf32 units.now)) }
    ensures fault { (IsWellFormed Utf32 units.now → ⊥) → result ≡ 2 ^ 64 - 1 }
    ensures no_fault { IsWellFormed Utf32 units.now → result < 2 ^ 64 - 1 }
{
    match find_fault(units) {
        None => utf8_len(units),
        Some(_fault) => usize::MAX,
    }
}

/// Returns the length in units of well-formed UTF-8 in UTF-16, or `usize::MAX` if the bytes are ill-formed. It is
/// vectorized.
#[unsafe(no_mangle)]
pub extern "C" fn wide_utf8_utf16_length(text: &[u8]) -> usize
    ensures len { IsUtf8 text.now → result ≡ length (encode Utf16 (str_chars text.now)) }
    ensures fault { (IsUtf8 text.now → ⊥) → result ≡ 2 ^ 64 - 1 }
    ensures no_fault { IsUtf8 text.now → result < 2 ^ 64 - 1 }
{
    if !is_utf8(text) {
        return usize::MAX;
    }
    // `is_utf8` above has found the bytes well formed.
    length_as_utf16(unsafe { str::from_utf8_unchecked(text) })
}

/// Returns how many characters well-formed UTF-8 has, or `usize::MAX` if the bytes are ill-formed. This is also the
/// length in UTF-32.
#[unsafe(no_mangle)]
pub extern "C" fn wide_utf8_char_count(text: &[u8]) -> usize
    ensures len { IsUtf8 text.now → result ≡ length (str_chars text.now) }
    ensures fault { (IsUtf8 text.now → ⊥) → result ≡ 2 ^ 64 - 1 }
    ensures no_fault { IsUtf8 text.now → result < 2 ^ 64 - 1 }
{
    if !is_utf8(text) {
        return usize::MAX;
    }
    // `is_utf8` above has found the bytes well formed.
    length_as_utf32(unsafe { str::from_utf8_unchecked(text) })
}

/// Returns the length in units of well-formed UTF-8 in UTF-32, which is one unit for each character, or `usize::MAX` if
/// the bytes are ill-formed.
#[unsafe(no_mangle)]
pub extern "C" fn wide_utf8_utf32_length(text: &[u8]) -> usize
    ensures len { IsUtf8 text.now → result ≡ length (str_chars text.now) }
    ensures fault { (IsUtf8 text.now → ⊥) → result ≡ 2 ^ 64 - 1 }
    ensures no_fault { IsUtf8 text.now → result < 2 ^ 64 - 1 }
{
    wide_utf8_char_count(text)
}

/// Returns how many characters well-formed UTF-16 has, or `usize::MAX` if the units are ill-formed. This is also the
/// length in UTF-32.
#[unsafe(no_mangle)]
pub extern "C" fn wide_utf16_char_count(units: &[u16]) -> usize
    ensures len { IsWellFormed Utf16 units.now → result ≡ length (chars Utf16 units.now) }
    ensures fault { (IsWellFormed Utf16 units.now → ⊥) → result ≡ 2 ^ 64 - 1 }
    ensures no_fault { IsWellFormed Utf16 units.now → result < 2 ^ 64 - 1 }
{
    match find_fault(units) {
        None => u16::char_count(units),
        Some(_fault) => usize::MAX,
    }
}

/// Returns how many characters well-formed UTF-32 has, or `usize::MAX` if the units are ill-formed. Each unit is a
/// character.
#[unsafe(no_mangle)]
pub extern "C" fn wide_utf32_char_count(units: &[u32]) -> usize
    ensures len { IsWellFormed Utf32 units.now → result ≡ length (chars Utf32 units.now) }
    ensures fault { (IsWellFormed Utf32 units.now → ⊥) → result ≡ 2 ^ 64 - 1 }
    ensures no_fault { IsWellFormed Utf32 units.now → result < 2 ^ 64 - 1 }
{
    match find_fault(units) {
        None => u32::char_count(units),
        Some(_fault) => usize::MAX,
    }
}

/// Returns the length in units of well-formed UTF-16 in UTF-32, which is one unit for each character, or `usize::MAX`
/// if the units are ill-formed.
#[unsafe(no_mangle)]
pub extern "C" fn wide_utf16_utf32_length(units: &[u16]) -> usize
    ensures len { IsWellFormed Utf16 units.now → result ≡ length (chars Utf16 units.now) }
    ensures fault { (IsWellFormed Utf16 units.now → ⊥) → result ≡ 2 ^ 64 - 1 }
    ensures no_fault { IsWellFormed Utf16 units.now → result < 2 ^ 64 - 1 }
{
    wide_utf16_char_count(units)
}

// Returns how many of the scalar values take two units of UTF-16.
fn count_pairs(scalars: &[u32]) -> usize
    ensures { result ≡ count_by (nat_le 0x1_0000) scalars.now }
{
    let mut count = 0;
    for scalar in scalars {
        count += usize::from(0x1_0000 <= *scalar);
    }
    count
}

/// Returns the length in units of well-formed UTF-32 (Unicode Standard, D90) in UTF-16 (D91), or `usize::MAX` if the
/// units are ill-formed.
#[unsafe(no_mangle)]
pub extern "C" fn wide_utf32_utf16_length(units: &[u32]) -> usize
    ensures len { IsWellFormed Utf32 units.now → result ≡ length (encode Utf16 (chars Utf32 units.now)) }
    ensures fault { (IsWellFormed Utf32 units.now → ⊥) → result ≡ 2 ^ 64 - 1 }
    ensures no_fault { IsWellFormed Utf32 units.now → result < 2 ^ 64 - 1 }
{
    match find_fault(units) {
        None => units.len() + count_pairs(units),
        Some(_fault) => usize::MAX,
    }
}
