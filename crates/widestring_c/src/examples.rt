//! Worked examples of calls of the C functions: their contracts state the results for given units and bytes.
ghost use Rattle.std.specs.Prelude.{◌≡◌, ◌-◌, ◌^◌, ◌∷◌, [], ◌≤◌, pos, negsuc, length, take};
ghost use Rattle.std.specs.Str.{chars as str_chars};
ghost use Rattle.std.specs.Str.Lossy.{utf8_lossy};
ghost use Rattle.wide_forms.specs.Utf8.{utf8};
ghost use Rattle.wide_search.specs.Lowercased.{lowercased};
ghost use Rattle.wide_search.specs.Occurrences.{OccursAt};
ghost use Rattle.wide_bytes.specs.Bytes.{units_in};
ghost use Rattle.wide_bytes.specs.declared.order.BoM.TheVariants.{Little};

use crate::{
    wide_utf8_to_utf16_lossy, wide_utf16_bytes_to_utf8_lossy_with, wide_utf16_compare_code_points,
    wide_utf16_eq_ignore_ascii_case, wide_utf16_find_ignore_ascii_case, wide_utf16_rfind,
    wide_utf16_to_ascii_lowercase, wide_utf16_to_ascii_uppercase, wide_utf16_to_utf8,
    wide_utf32_compare_code_points, wide_utf32_eq_ignore_ascii_case, wide_utf32_to_ascii_lowercase,
    wide_utf32_to_ascii_uppercase,
};
use wide_unit::laws;

/// Rejects a surrogate pair followed by an unpaired high surrogate, and leaves the buffer unchanged.
pub fn no_text_of_a_fault(text: &mut [u8]) -> usize
    ensures result { result ≡ 2 ^ 64 - 1 }
    ensures unchanged { text.new ≡ text.old }
{
    laws::worked_fault();
    laws::first_faults();
    wide_utf16_to_utf8(&[0xD83D, 0xDE00, 0xD800], text)
}

/// Writes one U+FFFD for two surrogates in the wrong order, under the policy that writes one for each run.
pub fn one_replacement_of_a_run(bytes: &[u8], text: &mut [u8]) -> usize
    requires bytes { units_in Little bytes.now ≡ 0xDE00 ∷ 0xD83D ∷ [] }
    requires capacity { length (utf8 (0xFFFD ∷ [])) ≤ length text.old }
    ensures len { result ≡ length (utf8 (0xFFFD ∷ [])) }
    ensures text { take result text.new ≡ utf8 (0xFFFD ∷ []) }
{
    laws::worked_items();
    wide_utf16_bytes_to_utf8_lossy_with(bytes, 0, 1, 0, text)
}

/// Writes nothing for two surrogates in the wrong order after an ill-formed unit: they continue its run.
pub fn run_that_goes_on(bytes: &[u8], text: &mut [u8]) -> usize
    requires { units_in Little bytes.now ≡ 0xDE00 ∷ 0xD83D ∷ [] }
    ensures { result ≡ 0 }
{
    laws::worked_items();
    wide_utf16_bytes_to_utf8_lossy_with(bytes, 0, 1, 1, text)
}

/// Counts one UTF-16 unit for bytes whose lossy text is one U+FFFD, however many bytes there are.
pub fn one_replacement_of_a_part(bytes: &[u8], units: &mut [u16]) -> usize
    requires { str_chars (utf8_lossy bytes.now) ≡ 0xFFFD ∷ [] }
    ensures { result ≡ 1 }
{
    wide_utf8_to_utf16_lossy(bytes, units)
}

/// Finds a needle at or after an offset at which the caller knows that it occurs, from the back.
///
/// # Requires
///
/// The needle occurs at the offset.
pub fn found_last(units: &[u16], part: &[u16], offset: usize) -> usize
    requires { OccursAt part.now units.now offset }
    ensures here { OccursAt part.now units.now result }
    ensures last { offset ≤ result }
{
    match wide_utf16_rfind(units, part) {
        usize::MAX => unreachable!(),
        at => at,
    }
}

/// Finds a needle at or before an offset at which the caller knows that it occurs in some case of its letters.
///
/// # Requires
///
/// The needle occurs at the offset, without regard to the case of ASCII letters.
pub fn found_in_any_case(units: &[u16], part: &[u16], offset: usize) -> usize
    requires { OccursAt (lowercased part.now) (lowercased units.now) offset }
    ensures here { OccursAt (lowercased part.now) (lowercased units.now) result }
    ensures first { result ≤ offset }
{
    match wide_utf16_find_ignore_ascii_case(units, part) {
        usize::MAX => unreachable!(),
        at => at,
    }
}

/// Compares letters in different cases, of which those past ASCII are not the same.
pub fn letters_in_either_case() -> (u32, u32, u32)
    ensures { result ≡ (1, 0, 1) }
{
    (
        wide_utf16_eq_ignore_ascii_case(&[0x4B, 0xE4], &[0x6B, 0xE4]),
        wide_utf16_eq_ignore_ascii_case(&[0xC4], &[0xE4]),
        wide_utf32_eq_ignore_ascii_case(&[0x4B, 0x1_F600], &[0x6B, 0x1_F600]),
    )
}

/// Orders a surrogate pair after surrogates in the wrong order, although its first unit is less than theirs.
pub fn pair_after_surrogates() -> (i32, i32, i32)
    ensures { result ≡ (pos 1, negsuc 0, pos 0) }
{
    laws::worked_items();
    (
        wide_utf16_compare_code_points(&[0xD83D, 0xDE00], &[0xDE00, 0xD83D]),
        wide_utf16_compare_code_points(&[0xDE00, 0xD83D], &[0xD83D, 0xDE00]),
        wide_utf16_compare_code_points(&[0xD83D, 0xDE00], &[0xD83D, 0xDE00]),
    )
}

/// Orders 32-bit units by their numbers, also those that are no scalar values.
pub fn numbers_in_order() -> (i32, i32, i32)
    ensures { result ≡ (negsuc 0, pos 1, pos 0) }
{
    (
        wide_utf32_compare_code_points(&[0x61, 0xD83D], &[0x61, 0x1_F600]),
        wide_utf32_compare_code_points(&[0x11_0000], &[0x10_FFFF, 0x61]),
        wide_utf32_compare_code_points(&[0xDE00], &[0xDE00]),
    )
}

/// Writes the ASCII letter of two letters in lower case.
pub fn lower_case(lower: &mut [u16], wide: &mut [u32]) -> (usize, usize)
    requires units { 2 ≤ length lower.old }
    requires wide { 2 ≤ length wide.old }
    ensures len { result ≡ (2, 2) }
    ensures units { take 2 lower.new ≡ 0x6B ∷ 0xC4 ∷ [] }
    ensures wide { take 2 wide.new ≡ 0x6B ∷ 0x1_F600 ∷ [] }
{
    (
        wide_utf16_to_ascii_lowercase(&[0x4B, 0xC4], lower),
        wide_utf32_to_ascii_lowercase(&[0x4B, 0x1_F600], wide),
    )
}

/// Writes the ASCII letter of two letters in upper case.
pub fn upper_case(upper: &mut [u16], wide: &mut [u32]) -> (usize, usize)
    requires units { 2 ≤ length upper.old }
    requires wide { 2 ≤ length wide.old }
    ensures len { result ≡ (2, 2) }
    ensures units { take 2 upper.new ≡ 0x4B ∷ 0xE4 ∷ [] }
    ensures wide { take 2 wide.new ≡ 0x4B ∷ 0x1_F600 ∷ [] }
{
    (
        wide_utf16_to_ascii_uppercase(&[0x6B, 0xE4], upper),
        wide_utf32_to_ascii_uppercase(&[0x6B, 0x1_F600], wide),
    )
}
