//! Characters of a set in views: views split at them, trimmed of them, and a set of one's own.
ghost use Rattle.std.specs.Prelude.{◌≡◌, ◌∷◌, [], ◌==◌, ◌||◌, map, None};
ghost use Rattle.widestring.specs.EncodingForm.{Utf16};
ghost use Rattle.widestring.specs.Items.{chars};
ghost use Rattle.widestring.specs.Sets.{between, is_among};
ghost use Rattle.widestring.specs.SplitMore.{char_terminated_left};
ghost use Rattle.widestring.specs.TextSets.{any_substrings_left as text_substrings_left};
ghost use Rattle.widestring.specs.UnitSets.{any_substrings_left, any_filled_left};
ghost use Rattle.widestring.specs.UnitView.{units_seen};
ghost use Rattle.widestring.specs.View.{text_seen, units_seen as text_units};
ghost use Rattle.std.specs.Char.{is_whitespace, is_ascii_whitespace};

use widestring::search::{AsciiWhiteSpace, CharSet, WhiteSpace, laws};
use widestring::ustr::{AnyOf, Split, SplitFilled, SplitTerminator};
use widestring::{U16Str, Utf16Str};

/// Splits a line into words at white space of ASCII and past it.
///
/// # Requires
///
/// The units are a space, a surrogate that belongs to no pair, U+3000, `a` and a space.
pub fn words(line: U16Str<'_>) -> SplitFilled<U16Str<'_>, AnyOf<WhiteSpace>>
    requires { units_seen line ≡ 0x20 ∷ 0xD800 ∷ 0x3000 ∷ 0x61 ∷ 0x20 ∷ [] }
    ensures { any_filled_left Utf16 (λ u. u) (λ _. is_whitespace) result ≡ (0xD800 ∷ []) ∷ (0x61 ∷ []) ∷ [] }
{
    laws::worked_line();
    line.split_whitespace()
}

/// Splits a line into words at white space of ASCII alone.
///
/// # Requires
///
/// The units are a space, a surrogate that belongs to no pair, U+3000, `a` and a space.
pub fn ascii_words(line: U16Str<'_>) -> SplitFilled<U16Str<'_>, AnyOf<AsciiWhiteSpace>>
    requires { units_seen line ≡ 0x20 ∷ 0xD800 ∷ 0x3000 ∷ 0x61 ∷ 0x20 ∷ [] }
    ensures { any_filled_left Utf16 (λ u. u) (λ _. is_ascii_whitespace) result ≡ (0xD800 ∷ 0x3000 ∷ 0x61 ∷ []) ∷ [] }
{
    laws::worked_line();
    line.split_ascii_whitespace()
}

/// Splits a line at spaces. The substrings at its ends are empty.
///
/// # Requires
///
/// The units are a space, a surrogate that belongs to no pair, U+3000, `a` and a space.
pub fn between_spaces(line: U16Str<'_>) -> Split<U16Str<'_>, AnyOf<char>>
    requires { units_seen line ≡ 0x20 ∷ 0xD800 ∷ 0x3000 ∷ 0x61 ∷ 0x20 ∷ [] }
    ensures { any_substrings_left Utf16 (λ u. u) (λ one. is_among (one ∷ [])) result ≡ [] ∷ (0xD800 ∷ 0x3000 ∷ 0x61 ∷ []) ∷ [] ∷ [] }
{
    laws::worked_line();
    line.split_any(' ')
}

/// Removes the white space at the ends of a line. What is between other items stays.
///
/// # Requires
///
/// The units are a space, a surrogate that belongs to no pair, U+3000, `a` and a space.
pub fn trimmed(line: U16Str<'_>) -> U16Str<'_>
    requires { units_seen line ≡ 0x20 ∷ 0xD800 ∷ 0x3000 ∷ 0x61 ∷ 0x20 ∷ [] }
    ensures { units_seen result ≡ 0xD800 ∷ 0x3000 ∷ 0x61 ∷ [] }
{
    laws::worked_line();
    line.trim()
}

/// Removes the white space at the beginning of a line alone.
///
/// # Requires
///
/// The units are a space, a surrogate that belongs to no pair, U+3000, `a` and a space.
pub fn trimmed_at_start(line: U16Str<'_>) -> U16Str<'_>
    requires { units_seen line ≡ 0x20 ∷ 0xD800 ∷ 0x3000 ∷ 0x61 ∷ 0x20 ∷ [] }
    ensures { units_seen result ≡ 0xD800 ∷ 0x3000 ∷ 0x61 ∷ 0x20 ∷ [] }
{
    laws::worked_line();
    line.trim_start()
}

/// Removes what is `a` or a space at the end of a line.
///
/// # Requires
///
/// The units are a space, a surrogate that belongs to no pair, U+3000, `a` and a space.
pub fn trimmed_of_letters<'a>(line: U16Str<'a>, letters: &[char]) -> U16Str<'a>
    requires line { units_seen line ≡ 0x20 ∷ 0xD800 ∷ 0x3000 ∷ 0x61 ∷ 0x20 ∷ [] }
    requires letters { letters.now ≡ 0x61 ∷ 0x20 ∷ [] }
    ensures { units_seen result ≡ 0x20 ∷ 0xD800 ∷ 0x3000 ∷ [] }
{
    laws::worked_line();
    line.trim_end_matches(letters)
}

/// Splits a list whose last field ends in a separator, without an empty field after it.
///
/// # Requires
///
/// The units are `a;b;`.
pub fn terminated_fields(list: U16Str<'_>) -> SplitTerminator<U16Str<'_>, char>
    requires { units_seen list ≡ 0x61 ∷ 0x3B ∷ 0x62 ∷ 0x3B ∷ [] }
    ensures { char_terminated_left Utf16 (λ u. u) result ≡ (0x61 ∷ []) ∷ (0x62 ∷ []) ∷ [] }
{
    laws::worked_substrings();
    list.split_terminator_char(';')
}

/// The signs that separate a name from its value.
#[derive(Clone, Copy)]
pub struct ValueSign;

impl CharSet for ValueSign {
    ghost has = { λ _ c. (c == 0x3D) || (c == 0x3A) };

    fn contains_char(self, c: char) -> bool {
        c == '=' || c == ':'
    }
}

/// Returns an iterator over what the characters of a set of one's own separate.
pub fn around_signs(setting: Utf16Str<'_>) -> Split<Utf16Str<'_>, AnyOf<ValueSign>>
    ensures { map (chars Utf16) (text_substrings_left Utf16 (λ u. u) (λ _ c. (c == 0x3D) || (c == 0x3A)) result) ≡ between (λ c. (c == 0x3D) || (c == 0x3A)) (text_seen setting.entry) }
{
    setting.split_any(ValueSign)
}

/// Splits a setting where its value begins: at the first sign, which belongs to the value.
pub fn from_sign(setting: Utf16Str<'_>) -> (Utf16Str<'_>, Utf16Str<'_>) {
    match setting.find_any(ValueSign) {
        None => setting.split_at(setting.len()),
        Some(at) => setting.split_at(at),
    }
}
