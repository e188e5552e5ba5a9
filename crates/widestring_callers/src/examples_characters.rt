//! Characters at the ends of views, searches from an offset on, comparisons with a `str`, and strings extended by parts
//! of themselves, at concrete units.
ghost use Rattle.std.specs.Prelude.{◌≡◌, ◌≤◌, ◌++◌, ◌∷◌, [], Some, None, true, false, IfSome, OnOk};
ghost use Rattle.std.specs.Str.{chars};
ghost use Rattle.std.specs.declared.cmp.Ordering.TheVariants.{Greater};
ghost use Rattle.widestring.specs.CStringView.{contents_seen};
ghost use Rattle.widestring.specs.Occurrences.{OccursAt};
ghost use Rattle.widestring.specs.UnitView.{units_seen};
ghost use Rattle.widestring.specs.View.{units_seen as text_units, text_seen};

use std::cmp::Ordering;
use widestring::error::OutOfMemory;
use widestring::search::laws;
use widestring::unit::Unit;
use widestring::ustr::UStr;
use widestring::utfstr::UtfStr;
use widestring::{U16CStr, U16Str, U16String, U32Str, Utf16Str, Utf16String};

/// Finds an emoji at the beginning of units, at both widths.
pub fn begins_with_an_emoji() -> (bool, bool)
    ensures { result ≡ (true, true) }
{
    laws::worked_occurrences();
    (
        U16Str::from_slice(&[0xD83D, 0xDE00, 0x21]).starts_with_char('😀'),
        U32Str::from_slice(&[0x1_F600, 0x21]).starts_with_char('😀'),
    )
}

/// Finds an emoji at the end of units, at both widths.
pub fn ends_with_an_emoji() -> (bool, bool)
    ensures { result ≡ (true, true) }
{
    laws::worked_occurrences();
    (
        U16Str::from_slice(&[0x21, 0xD83D, 0xDE00]).ends_with_char('😀'),
        U32Str::from_slice(&[0x21, 0x1_F600]).ends_with_char('😀'),
    )
}

/// Finds no emoji where only half of its pair is at the beginning, or at the end.
pub fn half_of_a_pair() -> (bool, bool)
    ensures { result ≡ (false, false) }
{
    (
        U16Str::from_slice(&[0xD83D, 0x21]).starts_with_char('😀'),
        U16Str::from_slice(&[0x21, 0xDE00]).ends_with_char('😀'),
    )
}

/// Returns what is left after an emoji that a view begins with.
///
/// # Requires
///
/// The units are a pair and `!`.
pub fn after_an_emoji(units: U16Str<'_>) -> Option<U16Str<'_>>
    requires { units_seen units ≡ 0xD83D ∷ 0xDE00 ∷ 0x21 ∷ [] }
    ensures { IfSome result (λ rest. units_seen rest ≡ 0x21 ∷ []) }
{
    units.strip_prefix_char('😀')
}

/// Returns what is left of a C string after an emoji that it begins with, without the NUL.
///
/// # Requires
///
/// The contents are a pair and `!`.
pub fn contents_after_an_emoji(string: U16CStr<'_>) -> Option<U16Str<'_>>
    requires { contents_seen string ≡ 0xD83D ∷ 0xDE00 ∷ 0x21 ∷ [] }
    ensures { IfSome result (λ rest. units_seen rest ≡ 0x21 ∷ []) }
{
    string.strip_prefix_char('😀')
}

/// Returns what is left of a text after an emoji that it begins with.
///
/// # Requires
///
/// The text is a pair and `!`.
pub fn text_after_an_emoji(text: Utf16Str<'_>) -> Option<Utf16Str<'_>>
    requires { text_units text ≡ 0xD83D ∷ 0xDE00 ∷ 0x21 ∷ [] }
    ensures { IfSome result (λ rest. text_units rest ≡ 0x21 ∷ []) }
{
    text.strip_prefix_char('😀')
}

/// Returns what is left before an emoji that a view ends with.
pub fn before_an_emoji(units: U16Str<'_>) -> Option<U16Str<'_>>
    ensures { IfSome result (λ prefix. units_seen units.entry ≡ units_seen prefix ++ (0xD83D ∷ 0xDE00 ∷ [])) }
{
    units.strip_suffix_char('😀')
}

/// Returns nothing where a text ends with another character than the one that is to be left out.
///
/// # Requires
///
/// The text is `a!`.
pub fn before_another_character(text: Utf16Str<'_>) -> bool
    requires { text_units text ≡ 0x61 ∷ 0x21 ∷ [] }
    ensures { result ≡ false }
{
    text.strip_suffix_char('a').is_some()
}

/// Finds the second of two backslashes from an offset between them on, at both widths.
pub fn second_backslash() -> (Option<usize>, Option<usize>)
    ensures { result ≡ (Some 3, Some 3) }
{
    laws::worked_occurrences();
    (
        U16Str::from_slice(&[0x61, 0x5C, 0x62, 0x5C]).find_char_from('\\', 2),
        U32Str::from_slice(&[0x61, 0x5C, 0x62, 0x5C]).find_char_from('\\', 2),
    )
}

/// Finds no backslash from the end of a text on, after its last one.
///
/// # Requires
///
/// The text is `a\b\`.
pub fn no_backslash_from_the_end(text: Utf16Str<'_>) -> Option<usize>
    requires { text_units text ≡ 0x61 ∷ 0x5C ∷ 0x62 ∷ 0x5C ∷ [] }
    ensures { result ≡ None }
{
    text.find_char_from('\\', 4)
}

/// Finds no needle past the end of a C string, not even an empty one.
///
/// # Requires
///
/// The contents are `a\`.
pub fn nothing_past_the_end(string: U16CStr<'_>, part: U16CStr<'_>) -> Option<usize>
    requires { contents_seen string ≡ 0x61 ∷ 0x5C ∷ [] }
    ensures { result ≡ None }
{
    string.find_from(part, 3)
}

/// Finds a needle between an offset and a later one at which the caller knows that it occurs, at any width.
///
/// # Requires
///
/// The needle occurs at the later offset.
pub fn found_between<C: Unit>(
    units: UStr<'_, C>,
    part: UStr<'_, C>,
    from: usize,
    offset: usize,
) -> usize
    requires from { from ≤ offset }
    requires occurs { OccursAt (units_seen part) (units_seen units) offset }
    ensures here { OccursAt (units_seen part.entry) (units_seen units.entry) result }
    ensures after { from ≤ result }
    ensures first { result ≤ offset }
{
    match units.find_from(part, from) {
        Some(at) => at,
        None => unreachable!(),
    }
}

/// Returns the text before the second occurrence of a needle and the text after it. The search for the second one
/// begins at the end of the first one.
pub fn around_second<'a>(
    text: Utf16Str<'a>,
    part: Utf16Str<'_>,
) -> Option<(Utf16Str<'a>, Utf16Str<'a>)> {
    let first = text.find(part)?;
    let second = text.find_from(part, first + part.len())?;
    let (prefix, _) = text.split_at(second);
    let (_, rest) = text.split_at(second + part.len());
    Some((prefix, rest))
}

/// Returns the text after the second occurrence of a character, at any width.
pub fn after_second_char<C: Unit>(text: UtfStr<'_, C>, c: char) -> Option<UtfStr<'_, C>> {
    let first = text.find_char(c)?;
    let second = text.find_char_from(c, first + C::char_len(c))?;
    let (_, rest) = text.split_at(second + C::char_len(c));
    Some(rest)
}

/// Returns the units from the second occurrence of a character on, of units that may be ill-formed.
pub fn from_second_char(units: U16Str<'_>, c: char) -> Option<U16Str<'_>> {
    let first = units.find_char(c)?;
    let second = units.find_char_from(c, first + u16::char_len(c))?;
    let (_, rest) = units.split_at(second);
    Some(rest)
}

/// Orders a text after a `str` by code points, where its units are before those of the `str`.
///
/// # Requires
///
/// The text is U+1F600, and the other is U+FF21.
pub fn order_after_a_str(text: Utf16Str<'_>, other: &str) -> Ordering
    requires text { text_seen text ≡ 0x1_F600 ∷ [] }
    requires other { chars other.now ≡ 0xFF21 ∷ [] }
    ensures { result ≡ Greater }
{
    text.cmp_str(other)
}

/// Compares texts that differ in the case of ASCII letters, and texts that differ in the case of another letter.
///
/// # Requires
///
/// The texts are `aé` and `aÉ`, and the others are `Aé`.
pub fn alike_in_ascii(lower: Utf16Str<'_>, upper: Utf16Str<'_>, other: &str) -> (bool, bool)
    requires lower { text_seen lower ≡ 0x61 ∷ 0xE9 ∷ [] }
    requires upper { text_seen upper ≡ 0x61 ∷ 0xC9 ∷ [] }
    requires other { chars other.now ≡ 0x41 ∷ 0xE9 ∷ [] }
    ensures { result ≡ (true, false) }
{
    (
        lower.eq_str_ignore_ascii_case(other),
        upper.eq_str_ignore_ascii_case(other),
    )
}

/// Appends the first two of three units to a string of units, the second of which is half of a pair.
///
/// # Requires
///
/// The units are `a` and a pair.
pub fn repeated_beginning(string: &mut U16String) -> Result<(), OutOfMemory>
    requires { string.old.units ≡ 0x61 ∷ 0xD83D ∷ 0xDE00 ∷ [] }
    ensures { OnOk result (string.new.units ≡ 0x61 ∷ 0xD83D ∷ 0xDE00 ∷ 0x61 ∷ 0xD83D ∷ []) }
{
    string.extend_from_within(..2)
}

/// Appends the pair that a text begins with.
///
/// # Requires
///
/// The text is a pair and `a`.
pub fn repeated_pair(text: &mut Utf16String) -> Result<(), OutOfMemory>
    requires { text.old.units ≡ 0xD83D ∷ 0xDE00 ∷ 0x61 ∷ [] }
    ensures { OnOk result (text.new.units ≡ 0xD83D ∷ 0xDE00 ∷ 0x61 ∷ 0xD83D ∷ 0xDE00 ∷ []) }
{
    text.extend_from_within(..2)
}

/// Appends a copy of the text from the first occurrence of a character on.
pub fn repeat_from(text: &mut Utf16String, c: char) -> Result<(), OutOfMemory> {
    match text.as_utfstr().find_char(c) {
        Some(at) => text.extend_from_within(at..),
        None => Ok(()),
    }
}
