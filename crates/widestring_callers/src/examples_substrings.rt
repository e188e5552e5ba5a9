//! Subslices of units, and their offsets.
ghost use Rattle.std.specs.Prelude.{◌≡◌, ◌≤◌, ◌↔◌, ◌∷◌, [], Some, None, true, false, length, take, IsSome, IfSome};
ghost use Rattle.widestring.specs.EncodingForm.{Utf16, encode};
ghost use Rattle.widestring.specs.Occurrences.{OccursAt, OccursNowhere};
ghost use Rattle.widestring.specs.UnitView.{units_seen};
ghost use Rattle.widestring.specs.View.{text_seen};

use widestring::unit::{
    Unit, common_prefix, first_no_scalar, first_nul, first_of, first_surrogate, laws,
};
use widestring::ustr::UStr;
use widestring::{U16Str, U32Str, Utf16Str};

/// Finds a needle at or before an offset at which the caller knows that it occurs.
///
/// # Requires
///
/// The needle occurs at the offset.
pub fn found_by(units: U16Str<'_>, part: U16Str<'_>, offset: usize) -> usize
    requires { OccursAt (units_seen part) (units_seen units) offset }
    ensures here { OccursAt (units_seen part.entry) (units_seen units.entry) result }
    ensures first { result ≤ offset }
{
    match units.find(part) {
        Some(at) => at,
        None => unreachable!(),
    }
}

/// Counts the units before the first difference of two slices.
pub fn units_before_a_difference() -> usize
    ensures { result ≡ 2 }
{
    common_prefix(&[0x61u16, 0x62, 0x63], &[0x61, 0x62, 0x64, 0x65])
}

/// Rejects a range past the end.
pub fn part_past_the_end() -> bool
    ensures { result ≡ false }
{
    U16Str::from_slice(&[0x61, 0x62]).get(1..3).is_some()
}

/// Finds the second character after a pair, which has two units.
pub fn offset_after_a_pair() -> Option<usize>
    ensures { result ≡ Some 2 }
{
    laws::worked_items();
    match Utf16Str::from_slice(&[0xD83D, 0xDE00]) {
        Ok(text) => text.unit_offset(1),
        Err(_) => None,
    }
}

/// Returns the text of a pair, and no substring that ends within the pair.
pub fn parts_of_a_pair() -> (bool, bool)
    ensures { result ≡ (true, false) }
{
    laws::worked_items();
    match Utf16Str::from_slice(&[0xD83D, 0xDE00]) {
        Ok(text) => (text.get(0..2).is_some(), text.get(0..1).is_some()),
        Err(_) => (false, false),
    }
}

/// Reports no bounds for lines that are not read yet.
pub fn bounds_of_lines() -> (usize, Option<usize>)
    ensures { result ≡ (0, None) }
{
    U16Str::from_slice(&[0xA, 0xA]).lines_lossy().size_hint()
}

/// Reads a line that ends in two carriage returns and a line feed, of which it removes one, and no line after it.
pub fn line_of_two_returns() -> (Option<usize>, bool)
    ensures { result ≡ (Some 2, false) }
{
    laws::units_of_utf32();
    laws::lines_of_units();
    let mut lines = U32Str::from_slice(&[0x61, 0xD, 0xD, 0xA]).lines_lossy();
    let first = lines.next().map(|line| line.len());
    (first, lines.next().is_some())
}

/// Finds a needle at or after an offset at which the caller knows that it occurs, from the back.
///
/// # Requires
///
/// The needle occurs at the offset.
pub fn found_last_by(units: U16Str<'_>, part: U16Str<'_>, offset: usize) -> usize
    requires { OccursAt (units_seen part) (units_seen units) offset }
    ensures here { OccursAt (units_seen part.entry) (units_seen units.entry) result }
    ensures last { offset ≤ result }
{
    match units.rfind(part) {
        Some(at) => at,
        None => unreachable!(),
    }
}

/// Finds no offset of a needle that occurs nowhere, from the front or from the back.
///
/// # Requires
///
/// The needle occurs nowhere.
pub fn found_nowhere(units: U16Str<'_>, part: U16Str<'_>) -> (Option<usize>, Option<usize>)
    requires { OccursNowhere (units_seen part) (units_seen units) }
    ensures { result ≡ (None, None) }
{
    (units.find(part), units.rfind(part))
}

/// Finds a unit at or before an offset at which the caller knows that it is, at any width.
///
/// # Requires
///
/// The unit is at the offset.
pub fn unit_found_by<C: Unit>(units: UStr<'_, C>, unit: C, offset: usize) -> usize
    requires { OccursAt (unit ∷ []) (units_seen units) offset }
    ensures here { OccursAt (unit ∷ []) (units_seen units.entry) result }
    ensures first { result ≤ offset }
{
    match units.find_unit(unit) {
        Some(at) => at,
        None => unreachable!(),
    }
}

/// Finds the first unit of a number, at both widths.
pub fn first_unit() -> (Option<usize>, Option<usize>)
    ensures { result ≡ (Some 1, Some 1) }
{
    (
        first_of(&[0x61u16, 0x62, 0x62], 0x62),
        first_of(&[0x61u32, 0x62, 0x62], 0x62),
    )
}

/// Finds the first NUL, the first surrogate and the first unit that is no scalar value.
pub fn first_of_a_kind() -> (Option<usize>, usize, usize)
    ensures { result ≡ (Some 1, 1, 1) }
{
    (
        first_nul(&[0x61u16, 0, 0]),
        first_surrogate(&[0x61, 0xD800, 0xD800]),
        first_no_scalar(&[0x61, 0x11_0000, 0x11_0000]),
    )
}

/// Counts at least as many units as the caller knows to be the same at the beginning of two slices.
///
/// # Requires
///
/// The first units of the slices are the same, as many as `count`.
pub fn same_at_least(left: &[u16], right: &[u16], count: usize) -> usize
    requires left { count ≤ length left.now }
    requires right { count ≤ length right.now }
    requires same { take count left.now ≡ take count right.now }
    ensures same { take result left.now ≡ take result right.now }
    ensures least { count ≤ result }
{
    common_prefix(left, right)
}

/// Returns the offset at which the character at an index begins, after the units of the characters before it.
pub fn offset_of_index(text: Utf16Str<'_>, index: usize) -> Option<usize>
    ensures some { IsSome result ↔ (index ≤ length (text_seen text.entry)) }
    ensures offset { IfSome result (λ at. at ≡ length (encode Utf16 (take index (text_seen text.entry)))) }
{
    text.unit_offset(index)
}
