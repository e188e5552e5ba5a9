//! Views split at the characters of a set: from the back, after each of them, and into at most a number of substrings.
ghost use Rattle.std.specs.Prelude.{◌≡◌, ◌∷◌, ◌++◌, [], IfSome};
ghost use Rattle.std.specs.Char.{is_whitespace, is_ascii_whitespace};
ghost use Rattle.widestring.specs.CStringView.{contents_seen};
ghost use Rattle.widestring.specs.EncodingForm.{Utf16, Utf32};
ghost use Rattle.widestring.specs.Kept.{joined, substrings_ended};
ghost use Rattle.widestring.specs.Sets.{is_among, substrings_between};
ghost use Rattle.widestring.specs.SplitMore.{terminated};
ghost use Rattle.widestring.specs.TextSetSplits.{any_rsplit_left as text_rsplit_left, any_inclusive_left as text_inclusive_left, any_terminated_left as text_terminated_left};
ghost use Rattle.widestring.specs.UnitSetSplits.{rsplit_between, any_splitn_left, any_rsplit_left, any_rsplitn_left, any_inclusive_left, any_terminated_left};
ghost use Rattle.widestring.specs.UnitView.{units_seen, numbers_seen};
ghost use Rattle.widestring.specs.View.{units_seen as text_units, numbers_seen as text_numbers};

use widestring::search::{AsciiWhiteSpace, WhiteSpace, laws};
use widestring::ustr::{AnyOf, RSplit, RSplitN, SplitInclusive, SplitN, SplitTerminator};
use widestring::{U16CStr, U16Str, U32Str, Utf16Str, unit};

/// Splits a line with three separators into at most two substrings, the last of which has two separators.
///
/// # Requires
///
/// The units are a space, a surrogate that belongs to no pair, U+3000, `a` and a space.
pub fn first_word_and_rest(line: U16Str<'_>) -> SplitN<U16Str<'_>, AnyOf<WhiteSpace>>
    requires { units_seen line ≡ 0x20 ∷ 0xD800 ∷ 0x3000 ∷ 0x61 ∷ 0x20 ∷ [] }
    ensures { any_splitn_left Utf16 (λ u. u) (λ _. is_whitespace) result ≡ [] ∷ (0xD800 ∷ 0x3000 ∷ 0x61 ∷ 0x20 ∷ []) ∷ [] }
{
    laws::worked_line();
    line.splitn_any(2, WhiteSpace)
}

/// Splits a line into the substrings that are there, where more are asked for.
///
/// # Requires
///
/// The units are a space, a surrogate that belongs to no pair, U+3000, `a` and a space.
pub fn parts_that_are_there(line: U16Str<'_>) -> SplitN<U16Str<'_>, AnyOf<AsciiWhiteSpace>>
    requires { units_seen line ≡ 0x20 ∷ 0xD800 ∷ 0x3000 ∷ 0x61 ∷ 0x20 ∷ [] }
    ensures { any_splitn_left Utf16 (λ u. u) (λ _. is_ascii_whitespace) result ≡ [] ∷ (0xD800 ∷ 0x3000 ∷ 0x61 ∷ []) ∷ [] ∷ [] }
{
    laws::worked_line();
    line.splitn_any(9, AsciiWhiteSpace)
}

/// Splits units into no substring.
pub fn no_part(line: U16Str<'_>) -> SplitN<U16Str<'_>, AnyOf<WhiteSpace>>
    ensures { any_splitn_left Utf16 (λ u. u) (λ _. is_whitespace) result ≡ [] }
{
    line.splitn_any(0, WhiteSpace)
}

/// Splits a C string into at most one substring, which is its contents.
pub fn whole_line<'a>(
    line: U16CStr<'a>,
    separators: &'a [char],
) -> RSplitN<U16Str<'a>, AnyOf<&'a [char]>>
    ensures { any_rsplitn_left Utf16 (λ u. u) (λ some. is_among some.now) result ≡ contents_seen line.entry ∷ [] }
{
    line.rsplitn_any(1, separators)
}

/// Splits the last substring of a line, which is empty, from all that is before it.
///
/// # Requires
///
/// The units are a space, a surrogate that belongs to no pair, U+3000, `a` and a space.
pub fn last_part_and_rest(line: U16Str<'_>) -> RSplitN<U16Str<'_>, AnyOf<WhiteSpace>>
    requires { units_seen line ≡ 0x20 ∷ 0xD800 ∷ 0x3000 ∷ 0x61 ∷ 0x20 ∷ [] }
    ensures { any_rsplitn_left Utf16 (λ u. u) (λ _. is_whitespace) result ≡ [] ∷ (0x20 ∷ 0xD800 ∷ 0x3000 ∷ 0x61 ∷ []) ∷ [] }
{
    laws::worked_line();
    line.rsplitn_any(2, WhiteSpace)
}

/// Splits a line from the back at letters and spaces. Two of them side by side have an empty substring between them.
///
/// # Requires
///
/// The units are a space, a surrogate that belongs to no pair, U+3000, `a` and a space, and the letters `a` and a space.
pub fn parts_from_back<'a>(
    line: U16Str<'a>,
    letters: &'a [char],
) -> RSplit<U16Str<'a>, AnyOf<&'a [char]>>
    requires line { units_seen line ≡ 0x20 ∷ 0xD800 ∷ 0x3000 ∷ 0x61 ∷ 0x20 ∷ [] }
    requires letters { letters.now ≡ 0x61 ∷ 0x20 ∷ [] }
    ensures { any_rsplit_left Utf16 (λ u. u) (λ some. is_among some.now) result ≡ [] ∷ [] ∷ (0xD800 ∷ 0x3000 ∷ []) ∷ [] ∷ [] }
{
    laws::worked_line();
    line.rsplit_any(letters)
}

/// Splits a line that ends in a space, without an empty substring after it.
///
/// # Requires
///
/// The units are a space, a surrogate that belongs to no pair, U+3000, `a` and a space.
pub fn ended_by_spaces(line: U16Str<'_>) -> SplitTerminator<U16Str<'_>, AnyOf<char>>
    requires { units_seen line ≡ 0x20 ∷ 0xD800 ∷ 0x3000 ∷ 0x61 ∷ 0x20 ∷ [] }
    ensures { any_terminated_left Utf16 (λ u. u) (λ one. is_among (one ∷ [])) result ≡ [] ∷ (0xD800 ∷ 0x3000 ∷ 0x61 ∷ []) ∷ [] }
{
    laws::worked_line();
    line.split_terminator_any(' ')
}

/// Splits a line after each white space. Nothing follows the last one.
///
/// # Requires
///
/// The units are a space, a surrogate that belongs to no pair, U+3000, `a` and a space.
pub fn parts_with_spaces(line: U16Str<'_>) -> SplitInclusive<U16Str<'_>, AnyOf<WhiteSpace>>
    requires { units_seen line ≡ 0x20 ∷ 0xD800 ∷ 0x3000 ∷ 0x61 ∷ 0x20 ∷ [] }
    ensures { any_inclusive_left Utf16 (λ u. u) (λ _. is_whitespace) result ≡ (0x20 ∷ []) ∷ (0xD800 ∷ 0x3000 ∷ []) ∷ (0x61 ∷ 0x20 ∷ []) ∷ [] }
{
    laws::worked_line();
    line.split_inclusive_any(WhiteSpace)
}

/// Splits two surrogates in the wrong order at the character that they encode in the right one, which isn't there.
///
/// # Requires
///
/// The units are the halves of 😀, the second one first.
pub fn halves_from_back(halves: U16Str<'_>) -> RSplit<U16Str<'_>, AnyOf<char>>
    requires { units_seen halves ≡ 0xDE00 ∷ 0xD83D ∷ [] }
    ensures { any_rsplit_left Utf16 (λ u. u) (λ one. is_among (one ∷ [])) result ≡ (0xDE00 ∷ 0xD83D ∷ []) ∷ [] }
{
    unit::laws::worked_items();
    halves.rsplit_any('😀')
}

/// Splits a pair after it, and not within it.
///
/// # Requires
///
/// The text is 😀.
pub fn after_a_pair(text: Utf16Str<'_>) -> SplitInclusive<Utf16Str<'_>, AnyOf<char>>
    requires { text_units text ≡ 0xD83D ∷ 0xDE00 ∷ [] }
    ensures { text_inclusive_left Utf16 (λ u. u) (λ one. is_among (one ∷ [])) result ≡ (0xD83D ∷ 0xDE00 ∷ []) ∷ [] }
{
    unit::laws::worked_items();
    text.split_inclusive_any('😀')
}

/// Splits 32-bit units that are no characters, but for the last one, at which they are split.
///
/// # Requires
///
/// The units are D800, DC00, 110000 and 10FFFF.
pub fn ended_by_last_character(units: U32Str<'_>) -> SplitTerminator<U32Str<'_>, AnyOf<char>>
    requires { units_seen units ≡ 0xD800 ∷ 0xDC00 ∷ 0x11_0000 ∷ 0x10_FFFF ∷ [] }
    ensures { any_terminated_left Utf32 (λ u. u) (λ one. is_among (one ∷ [])) result ≡ (0xD800 ∷ 0xDC00 ∷ 0x11_0000 ∷ []) ∷ [] }
{
    unit::laws::worked_items();
    units.split_terminator_any('\u{10FFFF}')
}

/// Splits units after each of some separators. The substrings, one after the other, are the units again.
pub fn nothing_lost<'a>(
    units: U16Str<'a>,
    separators: &'a [char],
) -> SplitInclusive<U16Str<'a>, AnyOf<&'a [char]>>
    ensures { joined (any_inclusive_left Utf16 (λ u. u) (λ some. is_among some.now) result) ≡ numbers_seen (λ u. u) units.entry }
{
    units.split_inclusive_any(separators)
}

/// Takes the last line, with what ends it, and leaves the lines before it.
pub fn last_line_with_end<'a>(
    lines: U32Str<'a>,
) -> (
    Option<U32Str<'a>>,
    SplitInclusive<U32Str<'a>, AnyOf<WhiteSpace>>,
)
    ensures { IfSome result.0 (λ line. terminated (substrings_ended Utf32 is_whitespace (numbers_seen (λ u. u) lines.entry)) ≡ any_inclusive_left Utf32 (λ u. u) (λ _. is_whitespace) result.1 ++ numbers_seen (λ u. u) line ∷ []) }
{
    let mut parts = lines.split_inclusive_any(WhiteSpace);
    let line = parts.next_back();
    (line, parts)
}

/// Takes the last entry of a list whose entries each end with white space, and leaves the entries before it.
pub fn last_entry<'a>(
    list: Utf16Str<'a>,
) -> (
    Option<Utf16Str<'a>>,
    SplitTerminator<Utf16Str<'a>, AnyOf<WhiteSpace>>,
)
    ensures { IfSome result.0 (λ entry. terminated (substrings_between Utf16 is_whitespace (text_numbers (λ u. u) list.entry)) ≡ text_terminated_left Utf16 (λ u. u) (λ _. is_whitespace) result.1 ++ text_numbers (λ u. u) entry ∷ []) }
{
    let mut entries = list.split_terminator_any(WhiteSpace);
    let entry = entries.next_back();
    (entry, entries)
}

/// Takes the last part of a text, after its last white space, and leaves the parts before it, the last one first.
pub fn last_part_first<'a>(
    text: Utf16Str<'a>,
) -> (
    Option<Utf16Str<'a>>,
    RSplit<Utf16Str<'a>, AnyOf<WhiteSpace>>,
)
    ensures { IfSome result.0 (λ part. rsplit_between Utf16 is_whitespace (text_numbers (λ u. u) text.entry) ≡ text_numbers (λ u. u) part ∷ text_rsplit_left Utf16 (λ u. u) (λ _. is_whitespace) result.1) }
{
    let mut parts = text.rsplit_any(WhiteSpace);
    let part = parts.next();
    (part, parts)
}

/// Returns the extension of a file's name: what is after its last dot, if no separator of folders is after that.
pub fn extension_of_path(path: Utf16Str<'_>) -> Option<Utf16Str<'_>> {
    let separators: &[char] = &['/', '\\'];
    let file = path.rsplitn_any(2, separators).next()?;
    let mut parts = file.rsplitn_any(2, '.');
    let last = parts.next()?;
    let _ = parts.next()?;
    Some(last)
}

/// Returns the first field, without the white space at its ends, in which there is something else.
pub fn first_filled_field(row: U16Str<'_>) -> Option<U16Str<'_>> {
    let ends: &[char] = &[',', ';'];
    for field in row.split_terminator_any(ends) {
        let field = field.trim();
        if !field.is_empty() {
            return Some(field);
        }
    }
    None
}

/// Returns the index of the first field from the back that equals `wanted`.
pub fn number_from_back(row: U16Str<'_>, wanted: U16Str<'_>) -> Option<usize> {
    let separators: &[char] = &[',', ';'];
    for (number, field) in row.rsplit_any(separators).enumerate() {
        if field == wanted {
            return Some(number);
        }
    }
    None
}
