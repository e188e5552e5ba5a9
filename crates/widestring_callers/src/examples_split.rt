//! Views split at units and at characters, and into at most a number of substrings, at concrete units.
ghost use Rattle.std.specs.Prelude.{◌≡◌, ◌∷◌, []};
ghost use Rattle.widestring.specs.EncodingForm.{Utf16};
ghost use Rattle.widestring.specs.CStringView.{contents_seen};
ghost use Rattle.widestring.specs.Split.{one_substrings_left};
ghost use Rattle.widestring.specs.SplitN.{unit_splitn_left, one_splitn_left, char_splitn_left};
ghost use Rattle.widestring.specs.TextSplit.{char_splitn_left as text_splitn_left};
ghost use Rattle.widestring.specs.UnitView.{units_seen};
ghost use Rattle.widestring.specs.View.{units_seen as text_units};

use widestring::search::laws;
use widestring::ustr::{OneUnit, Split, SplitN};
use widestring::{U16CStr, U16Str, Utf16Str};

/// Splits a pair within it, at its low surrogate.
///
/// # Requires
///
/// The units are a surrogate pair.
pub fn split_within_a_pair(pair: U16Str<'_>) -> Split<U16Str<'_>, OneUnit<u16>>
    requires { units_seen pair ≡ 0xD83D ∷ 0xDE00 ∷ [] }
    ensures { one_substrings_left (λ u. u) result ≡ (0xD83D ∷ []) ∷ [] ∷ [] }
{
    laws::worked_substrings();
    pair.split_unit(0xDE00)
}

/// Splits units into at most two substrings, the last of which ends in a separator.
///
/// # Requires
///
/// The units are `a;b;`.
pub fn two_fields(row: U16Str<'_>) -> SplitN<U16Str<'_>, OneUnit<u16>>
    requires { units_seen row ≡ 0x61 ∷ 0x3B ∷ 0x62 ∷ 0x3B ∷ [] }
    ensures { one_splitn_left (λ u. u) result ≡ (0x61 ∷ []) ∷ (0x62 ∷ 0x3B ∷ []) ∷ [] }
{
    laws::worked_substrings();
    row.splitn_unit(2, 0x3B)
}

/// Splits units into at most three substrings, the last of which is empty, after a separator.
///
/// # Requires
///
/// The units are `a;b;`, and the separator is `;`.
pub fn three_fields<'a>(row: U16Str<'a>, separator: U16Str<'a>) -> SplitN<U16Str<'a>, U16Str<'a>>
    requires row { units_seen row ≡ 0x61 ∷ 0x3B ∷ 0x62 ∷ 0x3B ∷ [] }
    requires separator { units_seen separator ≡ 0x3B ∷ [] }
    ensures { unit_splitn_left (λ u. u) result ≡ (0x61 ∷ []) ∷ (0x62 ∷ []) ∷ [] ∷ [] }
{
    laws::worked_substrings();
    row.splitn(3, separator)
}

/// Splits units into the substrings that are there, where more are asked for.
///
/// # Requires
///
/// The units are `a;b;`.
pub fn fields_that_are_there(row: U16Str<'_>) -> SplitN<U16Str<'_>, char>
    requires { units_seen row ≡ 0x61 ∷ 0x3B ∷ 0x62 ∷ 0x3B ∷ [] }
    ensures { char_splitn_left Utf16 (λ u. u) result ≡ (0x61 ∷ []) ∷ (0x62 ∷ []) ∷ [] ∷ [] }
{
    laws::worked_substrings();
    row.splitn_char(9, ';')
}

/// Splits units into no substring.
pub fn no_field(row: U16Str<'_>) -> SplitN<U16Str<'_>, OneUnit<u16>>
    ensures { one_splitn_left (λ u. u) result ≡ [] }
{
    row.splitn_unit(0, 0x3B)
}

/// Splits a C string into at most one substring, which is its contents.
pub fn whole_contents(row: U16CStr<'_>) -> SplitN<U16Str<'_>, OneUnit<u16>>
    ensures { one_splitn_left (λ u. u) result ≡ contents_seen row.entry ∷ [] }
{
    row.splitn_unit(1, 0x3B)
}

/// Splits text into at most two substrings, the last of which ends in a separator.
///
/// # Requires
///
/// The text is `a;b;`.
pub fn two_fields_of_text(row: Utf16Str<'_>) -> SplitN<Utf16Str<'_>, char>
    requires { text_units row ≡ 0x61 ∷ 0x3B ∷ 0x62 ∷ 0x3B ∷ [] }
    ensures { text_splitn_left Utf16 (λ u. u) result ≡ (0x61 ∷ []) ∷ (0x62 ∷ 0x3B ∷ []) ∷ [] }
{
    laws::worked_substrings();
    row.splitn_char(2, ';')
}

/// Returns the index of the first of at most `count` fields that equals `wanted`.
pub fn number_of_few_fields(
    row: Utf16Str<'_>,
    count: usize,
    wanted: Utf16Str<'_>,
) -> Option<usize> {
    for (number, field) in row.splitn_char(count, ',').enumerate() {
        if field == wanted {
            return Some(number);
        }
    }
    None
}
