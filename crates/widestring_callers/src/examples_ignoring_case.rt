//! Searches in views of units without regard to the case of ASCII letters: where the needle is known to occur, and at
//! concrete units of either width.
ghost use Rattle.std.specs.Prelude.{◌≡◌, ◌≤◌, Some, None, true, false};
ghost use Rattle.widestring.specs.Lowercased.{lowercased};
ghost use Rattle.widestring.specs.Occurrences.{OccursAt, BeginsWith, EndsWith};
ghost use Rattle.widestring.specs.UnitView.{numbers_seen};

use widestring::unit::Unit;
use widestring::ustr::UStr;
use widestring::{U16Str, U32Str};

/// Returns the offset at which a needle occurs first, in any case of its letters.
///
/// # Requires
///
/// The needle occurs at the offset, without regard to the case of ASCII letters.
pub fn found_in_any_case<C: Unit>(units: UStr<'_, C>, part: UStr<'_, C>, offset: usize) -> usize
    requires { OccursAt (lowercased (numbers_seen C.number part)) (lowercased (numbers_seen C.number units)) offset }
    ensures here { OccursAt (lowercased (numbers_seen C.number part.entry)) (lowercased (numbers_seen C.number units.entry)) result }
    ensures first { result ≤ offset }
{
    match units.find_ignore_ascii_case(part) {
        Some(at) => at,
        None => unreachable!(),
    }
}

/// Finds that units begin with a needle in any case of its letters.
///
/// # Requires
///
/// They do.
pub fn begins_in_any_case<C: Unit>(units: UStr<'_, C>, part: UStr<'_, C>) -> bool
    requires { BeginsWith (lowercased (numbers_seen C.number part)) (lowercased (numbers_seen C.number units)) }
    ensures { result ≡ true }
{
    units.starts_with_ignore_ascii_case(part)
}

/// Finds that units end with a needle in any case of its letters.
///
/// # Requires
///
/// They do.
pub fn ends_in_any_case<C: Unit>(units: UStr<'_, C>, part: UStr<'_, C>) -> bool
    requires { EndsWith (lowercased (numbers_seen C.number part)) (lowercased (numbers_seen C.number units)) }
    ensures { result ≡ true }
{
    units.ends_with_ignore_ascii_case(part)
}

/// Finds an empty needle at the start, in units of 16 bits. The units begin and end with it.
pub fn empty_needle_16() -> (Option<usize>, bool, bool, bool)
    ensures { result ≡ (Some 0, true, true, true) }
{
    let text = U16Str::from_slice(&[0x61]);
    let nothing = U16Str::from_slice(&[]);
    (
        text.find_ignore_ascii_case(nothing),
        text.contains_ignore_ascii_case(nothing),
        text.starts_with_ignore_ascii_case(nothing),
        text.ends_with_ignore_ascii_case(nothing),
    )
}

/// Finds no needle that is longer than the text, in units of 16 bits.
pub fn needle_longer_than_the_text_16() -> (Option<usize>, bool, bool, bool)
    ensures { result ≡ (None, false, false, false) }
{
    let text = U16Str::from_slice(&[0x41]);
    let needle = U16Str::from_slice(&[0x61, 0x61]);
    (
        text.find_ignore_ascii_case(needle),
        text.contains_ignore_ascii_case(needle),
        text.starts_with_ignore_ascii_case(needle),
        text.ends_with_ignore_ascii_case(needle),
    )
}

/// Finds no letter past ASCII in the other case, in units of 16 bits: `Ä` in `ä`, and `ä` in `Ä`.
pub fn letters_past_ascii_16() -> (bool, bool)
    ensures { result ≡ (false, false) }
{
    let upper = U16Str::from_slice(&[0xC4]);
    let lower = U16Str::from_slice(&[0xE4]);
    (
        lower.contains_ignore_ascii_case(upper),
        upper.contains_ignore_ascii_case(lower),
    )
}

/// Finds no Kelvin sign, U+212A, as the letter `k`, in units of 16 bits.
pub fn kelvin_sign_16() -> (bool, bool)
    ensures { result ≡ (false, false) }
{
    let sign = U16Str::from_slice(&[0x212A]);
    let letter = U16Str::from_slice(&[0x6B]);
    (
        sign.contains_ignore_ascii_case(letter),
        letter.contains_ignore_ascii_case(sign),
    )
}

/// Finds none of the neighbours of the letters for another one, in units of 16 bits: `[` and `{`, and `@` and the grave
/// accent.
pub fn neighbours_of_letters_16() -> (bool, bool, bool, bool)
    ensures { result ≡ (false, false, false, false) }
{
    let bracket = U16Str::from_slice(&[0x5B]);
    let brace = U16Str::from_slice(&[0x7B]);
    let at_sign = U16Str::from_slice(&[0x40]);
    let grave = U16Str::from_slice(&[0x60]);
    (
        bracket.contains_ignore_ascii_case(brace),
        brace.contains_ignore_ascii_case(bracket),
        at_sign.contains_ignore_ascii_case(grave),
        grave.contains_ignore_ascii_case(at_sign),
    )
}

/// Compares a whole name with letters in the other case, in units of 16 bits.
pub fn whole_name_16() -> (bool, bool)
    ensures { result ≡ (true, true) }
{
    let name = U16Str::from_slice(&[0x52, 0x75]);
    let other = U16Str::from_slice(&[0x72, 0x55]);
    (
        name.starts_with_ignore_ascii_case(other),
        name.ends_with_ignore_ascii_case(other),
    )
}

/// Finds an empty needle at the start, in units of 32 bits. The units begin and end with it.
pub fn empty_needle_32() -> (Option<usize>, bool, bool, bool)
    ensures { result ≡ (Some 0, true, true, true) }
{
    let text = U32Str::from_slice(&[0x61]);
    let nothing = U32Str::from_slice(&[]);
    (
        text.find_ignore_ascii_case(nothing),
        text.contains_ignore_ascii_case(nothing),
        text.starts_with_ignore_ascii_case(nothing),
        text.ends_with_ignore_ascii_case(nothing),
    )
}

/// Finds no needle that is longer than the text, in units of 32 bits.
pub fn needle_longer_than_the_text_32() -> (Option<usize>, bool, bool, bool)
    ensures { result ≡ (None, false, false, false) }
{
    let text = U32Str::from_slice(&[0x41]);
    let needle = U32Str::from_slice(&[0x61, 0x61]);
    (
        text.find_ignore_ascii_case(needle),
        text.contains_ignore_ascii_case(needle),
        text.starts_with_ignore_ascii_case(needle),
        text.ends_with_ignore_ascii_case(needle),
    )
}

/// Finds no letter past ASCII in the other case, in units of 32 bits: `Ä` in `ä`, and `ä` in `Ä`.
pub fn letters_past_ascii_32() -> (bool, bool)
    ensures { result ≡ (false, false) }
{
    let upper = U32Str::from_slice(&[0xC4]);
    let lower = U32Str::from_slice(&[0xE4]);
    (
        lower.contains_ignore_ascii_case(upper),
        upper.contains_ignore_ascii_case(lower),
    )
}

/// Finds no Kelvin sign, U+212A, as the letter `k`, in units of 32 bits.
pub fn kelvin_sign_32() -> (bool, bool)
    ensures { result ≡ (false, false) }
{
    let sign = U32Str::from_slice(&[0x212A]);
    let letter = U32Str::from_slice(&[0x6B]);
    (
        sign.contains_ignore_ascii_case(letter),
        letter.contains_ignore_ascii_case(sign),
    )
}

/// Finds none of the neighbours of the letters for another one, in units of 32 bits: `[` and `{`, and `@` and the grave
/// accent.
pub fn neighbours_of_letters_32() -> (bool, bool, bool, bool)
    ensures { result ≡ (false, false, false, false) }
{
    let bracket = U32Str::from_slice(&[0x5B]);
    let brace = U32Str::from_slice(&[0x7B]);
    let at_sign = U32Str::from_slice(&[0x40]);
    let grave = U32Str::from_slice(&[0x60]);
    (
        bracket.contains_ignore_ascii_case(brace),
        brace.contains_ignore_ascii_case(bracket),
        at_sign.contains_ignore_ascii_case(grave),
        grave.contains_ignore_ascii_case(at_sign),
    )
}

/// Compares a whole name with letters in the other case, in units of 32 bits.
pub fn whole_name_32() -> (bool, bool)
    ensures { result ≡ (true, true) }
{
    let name = U32Str::from_slice(&[0x52, 0x75]);
    let other = U32Str::from_slice(&[0x72, 0x55]);
    (
        name.starts_with_ignore_ascii_case(other),
        name.ends_with_ignore_ascii_case(other),
    )
}
