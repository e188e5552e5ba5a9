//! Matches of a needle, at concrete units, and passed to other calls.
ghost use Rattle.std.specs.Prelude.{◌≡◌, ◌∷◌, []};
ghost use Rattle.widestring.specs.MatchesLeft.{matches_left, found_left};
ghost use Rattle.widestring.specs.UnitView.{units_seen};
ghost use Rattle.widestring.specs.View.{units_seen as text_units};

use widestring::search::laws;
use widestring::ustr::{MatchIndices, Matches};
use widestring::{U16Str, U32Str, Utf16Str};

/// Finds a needle that overlaps itself: no match begins within the one before.
///
/// # Requires
///
/// The units are `aaa`, and the needle is `aa`.
pub fn overlapping<'a>(
    units: U16Str<'a>,
    needle: U16Str<'a>,
) -> MatchIndices<U16Str<'a>, U16Str<'a>>
    requires units { units_seen units ≡ 0x61 ∷ 0x61 ∷ 0x61 ∷ [] }
    requires needle { units_seen needle ≡ 0x61 ∷ 0x61 ∷ [] }
    ensures { matches_left result ≡ (0, 0x61 ∷ 0x61 ∷ []) ∷ [] }
{
    laws::worked_substrings();
    units.match_indices(needle)
}

/// Finds a character of text, the second time at the end.
///
/// # Requires
///
/// The text is `a;b;`.
pub fn at_the_end(text: Utf16Str<'_>) -> MatchIndices<Utf16Str<'_>, char>
    requires { text_units text ≡ 0x61 ∷ 0x3B ∷ 0x62 ∷ 0x3B ∷ [] }
    ensures { matches_left result ≡ (1, 0x3B ∷ []) ∷ (3, 0x3B ∷ []) ∷ [] }
{
    laws::worked_substrings();
    text.match_indices_char(';')
}

/// Finds a character twice.
///
/// # Requires
///
/// The units are `a;b;`.
pub fn found_twice(list: U32Str<'_>) -> Matches<U32Str<'_>, char>
    requires { units_seen list ≡ 0x61 ∷ 0x3B ∷ 0x62 ∷ 0x3B ∷ [] }
    ensures { found_left result ≡ (0x3B ∷ []) ∷ (0x3B ∷ []) ∷ [] }
{
    laws::worked_substrings();
    list.matches_char(';')
}

/// An empty needle has no match.
pub fn nothing<'a>(units: U16Str<'a>, needle: U16Str<'a>) -> MatchIndices<U16Str<'a>, U16Str<'a>>
    requires { units_seen needle ≡ [] }
    ensures { matches_left result ≡ [] }
{
    units.match_indices(needle)
}

/// Returns the text after each occurrence of `word`, up to the end, as long as one of these equals `wanted`.
pub fn text_after<'a>(
    text: Utf16Str<'a>,
    word: Utf16Str<'_>,
    wanted: Utf16Str<'_>,
) -> Option<Utf16Str<'a>> {
    for (at, _) in text.match_indices(word) {
        let (_, rest) = text.split_at(at + word.len());
        if rest == wanted {
            return Some(rest);
        }
    }
    None
}

/// Returns the units before the first occurrence of `needle` that is not at the start.
pub fn units_before<'a>(units: U16Str<'a>, needle: U16Str<'_>) -> Option<U16Str<'a>> {
    for (at, _) in units.match_indices(needle) {
        if at > 0 {
            let (before, _) = units.split_at(at);
            return Some(before);
        }
    }
    None
}

/// Returns how often a word occurs without overlapping.
pub fn occurrences(text: Utf16Str<'_>, word: Utf16Str<'_>) -> usize {
    text.matches(word).count()
}
