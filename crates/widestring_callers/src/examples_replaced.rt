//! Texts with occurrences replaced, ASCII letters in the other case, and the order by code points, at concrete units.
ghost use Rattle.std.specs.Prelude.{◌≡◌, ◌∷◌, [], true, false, IfOk};
ghost use Rattle.std.specs.declared.cmp.Ordering.TheVariants.{Greater};
ghost use Rattle.widestring.specs.View.{units_seen, text_seen};

use std::alloc::Global;
use std::cmp::Ordering;
use widestring::error::OutOfMemory;
use widestring::replace::{UStrReplace, UtfStrReplace};
use widestring::search::laws;
use widestring::unit::cmp_code_points;
use widestring::ustring::UStrInUstring;
use widestring::{U16Str, U16String, Utf16Str, Utf16String};

/// Replaces a needle that overlaps itself: its second occurrence would begin within its first one.
pub fn overlapping_needle(alloc: Global) -> Result<U16String, OutOfMemory>
    ensures { IfOk result (λ s. s.units ≡ 0x62 ∷ 0x61 ∷ []) }
{
    laws::worked_substrings();
    let text = U16Str::from_slice(&[0x61, 0x61, 0x61]);
    text.replace(
        alloc,
        U16Str::from_slice(&[0x61, 0x61]),
        U16Str::from_slice(&[0x62]),
    )
}

/// Replaces half of a surrogate pair.
pub fn half_of_a_pair(alloc: Global) -> Result<U16String, OutOfMemory>
    ensures { IfOk result (λ s. s.units ≡ 0xD83D ∷ 0x2E ∷ []) }
{
    laws::worked_substrings();
    let pair = U16Str::from_slice(&[0xD83D, 0xDE00]);
    pair.replace(
        alloc,
        U16Str::from_slice(&[0xDE00]),
        U16Str::from_slice(&[0x2E]),
    )
}

/// Replaces an empty needle nowhere.
pub fn empty_needle(alloc: Global) -> Result<U16String, OutOfMemory>
    ensures { IfOk result (λ s. s.units ≡ 0x61 ∷ 0x62 ∷ []) }
{
    laws::one_list_of_substrings();
    let text = U16Str::from_slice(&[0x61, 0x62]);
    text.replace(alloc, U16Str::from_slice(&[]), U16Str::from_slice(&[0x2E]))
}

/// Replaces none of two occurrences.
pub fn no_occurrence(alloc: Global) -> Result<U16String, OutOfMemory>
    ensures { IfOk result (λ s. s.units ≡ 0x61 ∷ 0x3B ∷ 0x62 ∷ 0x3B ∷ []) }
{
    laws::worked_substrings();
    let row = U16Str::from_slice(&[0x61, 0x3B, 0x62, 0x3B]);
    row.replacen(
        alloc,
        U16Str::from_slice(&[0x3B]),
        U16Str::from_slice(&[0x2C, 0x20]),
        0,
    )
}

/// Replaces the first one of two occurrences.
pub fn one_occurrence(alloc: Global) -> Result<U16String, OutOfMemory>
    ensures { IfOk result (λ s. s.units ≡ 0x61 ∷ 0x2C ∷ 0x20 ∷ 0x62 ∷ 0x3B ∷ []) }
{
    laws::worked_substrings();
    let row = U16Str::from_slice(&[0x61, 0x3B, 0x62, 0x3B]);
    row.replacen(
        alloc,
        U16Str::from_slice(&[0x3B]),
        U16Str::from_slice(&[0x2C, 0x20]),
        1,
    )
}

/// Replaces the only unit of a text by nothing, without allocating.
pub fn replaced_by_nothing(alloc: Global) -> bool
    ensures { result ≡ true }
{
    laws::worked_substrings();
    let nothing = U16Str::from_slice(&[]);
    let semicolon = U16Str::from_slice(&[0x3B]);
    semicolon.replace(alloc, semicolon, nothing).is_ok()
}

/// Replaces a character in well-formed text.
///
/// # Requires
///
/// The text is `a;b;`, and what replaces the semicolon is a comma.
pub fn replaced_char(
    alloc: Global,
    row: Utf16Str<'_>,
    comma: Utf16Str<'_>,
) -> Result<Utf16String, OutOfMemory>
    requires row { units_seen row ≡ 0x61 ∷ 0x3B ∷ 0x62 ∷ 0x3B ∷ [] }
    requires comma { units_seen comma ≡ 0x2C ∷ [] }
    ensures { IfOk result (λ s. s.units ≡ 0x61 ∷ 0x2C ∷ 0x62 ∷ 0x2C ∷ []) }
{
    laws::worked_substrings();
    row.replace(alloc, ';', comma)
}

/// Replaces the first one of two characters in well-formed text.
///
/// # Requires
///
/// The text is `a;b;`, and what replaces the semicolon is a comma.
pub fn replaced_first_char(
    alloc: Global,
    row: Utf16Str<'_>,
    comma: Utf16Str<'_>,
) -> Result<Utf16String, OutOfMemory>
    requires row { units_seen row ≡ 0x61 ∷ 0x3B ∷ 0x62 ∷ 0x3B ∷ [] }
    requires comma { units_seen comma ≡ 0x2C ∷ [] }
    ensures { IfOk result (λ s. s.units ≡ 0x61 ∷ 0x2C ∷ 0x62 ∷ 0x3B ∷ []) }
{
    laws::worked_substrings();
    row.replacen(alloc, ';', comma, 1)
}

/// Replaces a needle that overlaps itself, in place.
///
/// # Requires
///
/// The units are `aaa`.
pub fn overlapping_in_place(string: &mut U16String)
    requires { string.old.units ≡ 0x61 ∷ 0x61 ∷ 0x61 ∷ [] }
    ensures { string.new.units ≡ 0x62 ∷ 0x63 ∷ 0x61 ∷ [] }
{
    laws::worked_substrings();
    string.replace_with(
        U16Str::from_slice(&[0x61, 0x61]),
        U16Str::from_slice(&[0x62, 0x63]),
    );
}

/// Replaces each separator of text in place, also the one at the end.
///
/// # Requires
///
/// The text is `a;b;`, the separator a semicolon, and what replaces it a comma.
pub fn commas(row: &mut Utf16String, separator: Utf16Str<'_>, comma: Utf16Str<'_>)
    requires row { row.old.units ≡ 0x61 ∷ 0x3B ∷ 0x62 ∷ 0x3B ∷ [] }
    requires separator { units_seen separator ≡ 0x3B ∷ [] }
    requires comma { units_seen comma ≡ 0x2C ∷ [] }
    ensures { row.new.units ≡ 0x61 ∷ 0x2C ∷ 0x62 ∷ 0x2C ∷ [] }
{
    laws::worked_substrings();
    row.replace_with(separator, comma);
}

/// Replaces each occurrence of a word in place, if the other one is as long.
pub fn replaced_in_text(text: &mut Utf16String, word: Utf16Str<'_>, other: Utf16Str<'_>) -> bool {
    if word.len() != other.len() {
        return false;
    }
    text.replace_with(word, other);
    true
}

/// Orders a character past U+FFFF, whose first unit is a surrogate, after U+FF21.
///
/// # Requires
///
/// The texts are U+1F600 and U+FF21.
pub fn order_of_code_points(emoji: Utf16Str<'_>, letter: Utf16Str<'_>) -> Ordering
    requires emoji { text_seen emoji ≡ 0x1_F600 ∷ [] }
    requires letter { text_seen letter ≡ 0xFF21 ∷ [] }
    ensures { result ≡ Greater }
{
    emoji.cmp_code_points(letter)
}

/// Returns whether units come first by code points, which need not be well formed.
pub fn is_before(units: U16Str<'_>, other: U16Str<'_>) -> bool {
    units.cmp_code_points(other) == Ordering::Less
}

/// Returns whether slices of units are in order by code points.
pub fn are_in_order(units: &[u16], other: &[u16]) -> bool {
    cmp_code_points(units, other) != Ordering::Greater
}

/// Compares two names that differ in the case of their letters.
pub fn names_of_one_key() -> bool
    ensures { result ≡ true }
{
    let key = U16Str::from_slice(&[0x52, 0x75, 0x6E]);
    key.eq_ignore_ascii_case(U16Str::from_slice(&[0x72, 0x55, 0x4E]))
}

/// Compares letters past ASCII, of which none is the other one in the other case.
pub fn letters_past_ascii() -> (bool, bool)
    ensures { result ≡ (false, false) }
{
    let lower = U16Str::from_slice(&[0xE9]);
    (
        lower.eq_ignore_ascii_case(U16Str::from_slice(&[0xC9])),
        lower.is_ascii(),
    )
}

/// Writes a name in lower case, of which only the ASCII letters change.
pub fn lower_case(alloc: Global) -> Result<U16String, OutOfMemory>
    ensures { IfOk result (λ s. s.units ≡ 0x63 ∷ 0xC9 ∷ 0x5B ∷ []) }
{
    U16Str::from_slice(&[0x43, 0xC9, 0x5B]).to_ascii_lowercase(alloc)
}

/// Writes a string in upper case, in place.
///
/// # Requires
///
/// The string is 61, 7B and DE00.
pub fn upper_case(name: &mut U16String)
    requires { name.old.units ≡ 0x61 ∷ 0x7B ∷ 0xDE00 ∷ [] }
    ensures { name.new.units ≡ 0x41 ∷ 0x7B ∷ 0xDE00 ∷ [] }
{
    name.make_ascii_uppercase();
}

/// Writes no units in lower case, without allocating.
pub fn lower_case_of_nothing(alloc: Global) -> bool
    ensures { result ≡ true }
{
    U16Str::from_slice(&[]).to_ascii_lowercase(alloc).is_ok()
}
