//! Searches in C strings and in text without regard to the case of ASCII letters, at concrete units of either width,
//! and callers that cut at the offsets that such searches return.
ghost use Rattle.std.specs.Prelude.{◌≡◌, ◌≤◌, ◌∷◌, [], false};
ghost use Rattle.widestring.specs.CStringView.{contents_seen};
ghost use Rattle.widestring.specs.Lowercased.{lowercased};
ghost use Rattle.widestring.specs.Occurrences.{OccursAt};
ghost use Rattle.widestring.specs.View.{units_seen, numbers_seen};

use widestring::unit::Unit;
use widestring::utfstr::UtfStr;
use widestring::{U16CStr, U16Str, U32CStr, Utf16Str, Utf32Str};

/// Finds a letter in the other case in a C string of 16-bit units.
///
/// # Requires
///
/// The C string is `aR`, and the needle `r`.
pub fn letter_in_a_c_string_16(name: U16CStr<'_>, letter: U16CStr<'_>) -> usize
    requires name { contents_seen name ≡ 0x61 ∷ 0x52 ∷ [] }
    requires letter { contents_seen letter ≡ 0x72 ∷ [] }
    ensures { result ≡ 1 }
{
    match name.find_ignore_ascii_case(letter) {
        Some(at) => at,
        None => unreachable!(),
    }
}

/// Finds no letter past ASCII in the other case in a C string of 16-bit units, which does not begin or end with it.
///
/// # Requires
///
/// The C string is `Ä`, and the needle `ä`.
pub fn letter_past_ascii_in_a_c_string_16(
    name: U16CStr<'_>,
    letter: U16CStr<'_>,
) -> (bool, bool, bool)
    requires name { contents_seen name ≡ 0xC4 ∷ [] }
    requires letter { contents_seen letter ≡ 0xE4 ∷ [] }
    ensures { result ≡ (false, false, false) }
{
    (
        name.contains_ignore_ascii_case(letter),
        name.starts_with_ignore_ascii_case(letter),
        name.ends_with_ignore_ascii_case(letter),
    )
}

/// Finds a letter in the other case in a C string of 32-bit units.
///
/// # Requires
///
/// The C string is `aR`, and the needle `r`.
pub fn letter_in_a_c_string_32(name: U32CStr<'_>, letter: U32CStr<'_>) -> usize
    requires name { contents_seen name ≡ 0x61 ∷ 0x52 ∷ [] }
    requires letter { contents_seen letter ≡ 0x72 ∷ [] }
    ensures { result ≡ 1 }
{
    match name.find_ignore_ascii_case(letter) {
        Some(at) => at,
        None => unreachable!(),
    }
}

/// Finds no letter past ASCII in the other case in a C string of 32-bit units, which does not begin or end with it.
///
/// # Requires
///
/// The C string is `Ä`, and the needle `ä`.
pub fn letter_past_ascii_in_a_c_string_32(
    name: U32CStr<'_>,
    letter: U32CStr<'_>,
) -> (bool, bool, bool)
    requires name { contents_seen name ≡ 0xC4 ∷ [] }
    requires letter { contents_seen letter ≡ 0xE4 ∷ [] }
    ensures { result ≡ (false, false, false) }
{
    (
        name.contains_ignore_ascii_case(letter),
        name.starts_with_ignore_ascii_case(letter),
        name.ends_with_ignore_ascii_case(letter),
    )
}

/// Finds a needle in a text of 16-bit units, in any case, at or before an offset at which the caller knows that it
/// occurs.
///
/// # Requires
///
/// The needle occurs at the offset, in lower case.
pub fn found_in_a_text_by_16(text: Utf16Str<'_>, part: Utf16Str<'_>, offset: usize) -> usize
    requires { OccursAt (lowercased (numbers_seen (λ u. u) part)) (lowercased (numbers_seen (λ u. u) text)) offset }
    ensures here { OccursAt (lowercased (numbers_seen (λ u. u) part.entry)) (lowercased (numbers_seen (λ u. u) text.entry)) result }
    ensures first { result ≤ offset }
{
    match text.find_ignore_ascii_case(part) {
        Some(at) => at,
        None => unreachable!(),
    }
}

/// Finds no letter past ASCII in the other case in a text of 16-bit units, which does not begin or end with it.
///
/// # Requires
///
/// The text is `Ä`, and the needle `ä`.
pub fn letter_past_ascii_in_a_text_16(
    name: Utf16Str<'_>,
    letter: Utf16Str<'_>,
) -> (bool, bool, bool)
    requires name { units_seen name ≡ 0xC4 ∷ [] }
    requires letter { units_seen letter ≡ 0xE4 ∷ [] }
    ensures { result ≡ (false, false, false) }
{
    (
        name.contains_ignore_ascii_case(letter),
        name.starts_with_ignore_ascii_case(letter),
        name.ends_with_ignore_ascii_case(letter),
    )
}

/// Finds a needle in a text of 32-bit units, in any case, at or before an offset at which the caller knows that it
/// occurs.
///
/// # Requires
///
/// The needle occurs at the offset, in lower case.
pub fn found_in_a_text_by_32(text: Utf32Str<'_>, part: Utf32Str<'_>, offset: usize) -> usize
    requires { OccursAt (lowercased (numbers_seen (λ u. u) part)) (lowercased (numbers_seen (λ u. u) text)) offset }
    ensures here { OccursAt (lowercased (numbers_seen (λ u. u) part.entry)) (lowercased (numbers_seen (λ u. u) text.entry)) result }
    ensures first { result ≤ offset }
{
    match text.find_ignore_ascii_case(part) {
        Some(at) => at,
        None => unreachable!(),
    }
}

/// Finds no letter past ASCII in the other case in a text of 32-bit units, which does not begin or end with it.
///
/// # Requires
///
/// The text is `Ä`, and the needle `ä`.
pub fn letter_past_ascii_in_a_text_32(
    name: Utf32Str<'_>,
    letter: Utf32Str<'_>,
) -> (bool, bool, bool)
    requires name { units_seen name ≡ 0xC4 ∷ [] }
    requires letter { units_seen letter ≡ 0xE4 ∷ [] }
    ensures { result ≡ (false, false, false) }
{
    (
        name.contains_ignore_ascii_case(letter),
        name.starts_with_ignore_ascii_case(letter),
        name.ends_with_ignore_ascii_case(letter),
    )
}

/// Returns the text before the first occurrence of a needle in any case, and the text after it, at any width.
pub fn around_in_any_case<'a, C: Unit>(
    text: UtfStr<'a, C>,
    part: UtfStr<'_, C>,
) -> Option<(UtfStr<'a, C>, UtfStr<'a, C>)> {
    let at = text.find_ignore_ascii_case(part)?;
    let (prefix, _) = text.split_at(at);
    let (_, rest) = text.split_at(at + part.len());
    Some((prefix, rest))
}

/// Returns the units from the first occurrence of a needle in any case on.
pub fn from_in_any_case<'a>(units: U16Str<'a>, part: U16Str<'_>) -> Option<U16Str<'a>> {
    let at = units.find_ignore_ascii_case(part)?;
    Some(units.slice(at..))
}

/// Returns the text without an extension in any case, if it ends with it.
pub fn without_extension<'a>(file: Utf16Str<'a>, extension: Utf16Str<'_>) -> Option<Utf16Str<'a>> {
    let at = file.find_ignore_ascii_case(extension)?;
    if at + extension.len() < file.len() {
        return None;
    }
    Some(file.slice(..at))
}
