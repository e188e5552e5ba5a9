//! Views split from the back, and after separators, at concrete units.
ghost use Rattle.std.specs.Prelude.{◌≡◌, ◌∷◌, []};
ghost use Rattle.widestring.specs.EncodingForm.{Utf16, Utf32};
ghost use Rattle.widestring.specs.SplitBack.{unit_rsplit_left, char_rsplitn_left};
ghost use Rattle.widestring.specs.SplitInclusive.{char_inclusive_left};
ghost use Rattle.widestring.specs.TextSplit.{char_rsplit_left as text_rsplit_left, char_inclusive_left as text_inclusive_left};
ghost use Rattle.widestring.specs.UnitView.{units_seen};
ghost use Rattle.widestring.specs.View.{units_seen as text_units};

use widestring::search::laws;
use widestring::ustr::{RSplit, RSplitN, SplitInclusive};
use widestring::{U16Str, U32Str, Utf16Str};

/// Splits units from the back at a separator that overlaps itself: the last occurrence is found first.
///
/// # Requires
///
/// The units are `aaa`, and the separator is `aa`.
pub fn overlapping_from_back<'a>(
    units: U16Str<'a>,
    separator: U16Str<'a>,
) -> RSplit<U16Str<'a>, U16Str<'a>>
    requires units { units_seen units ≡ 0x61 ∷ 0x61 ∷ 0x61 ∷ [] }
    requires separator { units_seen separator ≡ 0x61 ∷ 0x61 ∷ [] }
    ensures { unit_rsplit_left (λ u. u) result ≡ [] ∷ (0x61 ∷ []) ∷ [] }
{
    laws::worked_substrings();
    units.rsplit(separator)
}

/// Splits the last field, which is empty, from the rest of a row.
///
/// # Requires
///
/// The units are `;b;a`, read backwards `a;b;`.
pub fn last_of_fields(row: U16Str<'_>) -> RSplitN<U16Str<'_>, char>
    requires { units_seen row ≡ 0x3B ∷ 0x62 ∷ 0x3B ∷ 0x61 ∷ [] }
    ensures { char_rsplitn_left Utf16 (λ u. u) result ≡ (0x61 ∷ []) ∷ (0x3B ∷ 0x62 ∷ []) ∷ [] }
{
    laws::worked_substrings();
    row.rsplitn_char(2, ';')
}

/// Splits text from the back at a separator with which it begins.
///
/// # Requires
///
/// The text is `;b;a`.
pub fn fields_from_back(row: Utf16Str<'_>) -> RSplit<Utf16Str<'_>, char>
    requires { text_units row ≡ 0x3B ∷ 0x62 ∷ 0x3B ∷ 0x61 ∷ [] }
    ensures { text_rsplit_left Utf16 (λ u. u) result ≡ (0x61 ∷ []) ∷ (0x62 ∷ []) ∷ [] ∷ [] }
{
    laws::worked_substrings();
    row.rsplit_char(';')
}

/// Splits a list after each separator, the last of which is at the end.
///
/// # Requires
///
/// The units are `a;b;`.
pub fn fields_with_separators(list: U32Str<'_>) -> SplitInclusive<U32Str<'_>, char>
    requires { units_seen list ≡ 0x61 ∷ 0x3B ∷ 0x62 ∷ 0x3B ∷ [] }
    ensures { char_inclusive_left Utf32 (λ u. u) result ≡ (0x61 ∷ 0x3B ∷ []) ∷ (0x62 ∷ 0x3B ∷ []) ∷ [] }
{
    laws::worked_substrings();
    list.split_inclusive_char(';')
}

/// Splits text that is a separator alone after it: nothing follows.
///
/// # Requires
///
/// The text is `;`.
pub fn separator_alone(text: Utf16Str<'_>) -> SplitInclusive<Utf16Str<'_>, char>
    requires { text_units text ≡ 0x3B ∷ [] }
    ensures { text_inclusive_left Utf16 (λ u. u) result ≡ (0x3B ∷ []) ∷ [] }
{
    laws::worked_substrings();
    text.split_inclusive_char(';')
}

/// Returns the extension of a file's name: what is after its last dot.
pub fn extension(name: Utf16Str<'_>) -> Option<Utf16Str<'_>> {
    let mut parts = name.rsplitn_char(2, '.');
    let last = parts.next()?;
    let _ = parts.next()?;
    Some(last)
}

/// Returns how many lines a text has, each with its line feed.
pub fn lines_with_ends(text: Utf16Str<'_>) -> usize {
    text.split_inclusive_char('\n').count()
}

/// Returns the index of the first field from the back that equals `wanted`.
pub fn number_from_back(row: U16Str<'_>, wanted: U16Str<'_>) -> Option<usize> {
    for (number, field) in row.rsplit_char(',').enumerate() {
        if field == wanted {
            return Some(number);
        }
    }
    None
}
