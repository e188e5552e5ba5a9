//! Views split from both ends: what a substring from the back leaves.
ghost use Rattle.std.specs.Prelude.{◌≡◌, ◌∷◌, ◌++◌, [], IfSome};
ghost use Rattle.std.specs.Char.{is_whitespace};
ghost use Rattle.widestring.specs.EncodingForm.{Utf16, Utf32};
ghost use Rattle.widestring.specs.SearchCut.{substrings};
ghost use Rattle.widestring.specs.Sets.{substrings_between};
ghost use Rattle.widestring.specs.Split.{one_substrings_left};
ghost use Rattle.widestring.specs.SplitMore.{filled, terminated};
ghost use Rattle.widestring.specs.TextSplit.{char_substrings_left, char_terminated_left};
ghost use Rattle.widestring.specs.UnitSets.{any_filled_left};
ghost use Rattle.widestring.specs.UnitView.{numbers_seen};
ghost use Rattle.widestring.specs.View.{numbers_seen as text_numbers};

use widestring::search::WhiteSpace;
use widestring::ustr::{AnyOf, OneUnit, Split, SplitFilled, SplitTerminator};
use widestring::{U16Str, U32Str, Utf16Str};

/// Splits the file off a path, whose folders are left.
pub fn file_and_folders<'a>(path: Utf16Str<'a>) -> (Option<Utf16Str<'a>>, Split<Utf16Str<'a>, char>)
    ensures { IfSome result.0 (λ file. substrings (0x2F ∷ []) (text_numbers (λ u. u) path.entry) ≡ char_substrings_left Utf16 (λ u. u) result.1 ++ text_numbers (λ u. u) file ∷ []) }
{
    let mut parts = path.split_char('/');
    let file = parts.next_back();
    (file, parts)
}

/// Takes the last field of units, which may be half of a surrogate pair, and leaves the others.
pub fn last_field<'a>(
    row: U16Str<'a>,
    separator: u16,
) -> (Option<U16Str<'a>>, Split<U16Str<'a>, OneUnit<u16>>)
    ensures { IfSome result.0 (λ field. substrings (separator ∷ []) (numbers_seen (λ u. u) row.entry) ≡ one_substrings_left (λ u. u) result.1 ++ numbers_seen (λ u. u) field ∷ []) }
{
    let mut fields = row.split_unit(separator);
    let field = fields.next_back();
    (field, fields)
}

/// Takes the last word of a line, and leaves the words before it.
pub fn last_word<'a>(
    line: U32Str<'a>,
) -> (
    Option<U32Str<'a>>,
    SplitFilled<U32Str<'a>, AnyOf<WhiteSpace>>,
)
    ensures { IfSome result.0 (λ word. filled (substrings_between Utf32 is_whitespace (numbers_seen (λ u. u) line.entry)) ≡ any_filled_left Utf32 (λ u. u) (λ _. is_whitespace) result.1 ++ numbers_seen (λ u. u) word ∷ []) }
{
    let mut words = line.split_whitespace();
    let word = words.next_back();
    (word, words)
}

/// Takes the last entry of a list whose entries each end with a semicolon, and leaves the entries before it.
pub fn last_entry<'a>(
    list: Utf16Str<'a>,
) -> (Option<Utf16Str<'a>>, SplitTerminator<Utf16Str<'a>, char>)
    ensures { IfSome result.0 (λ entry. terminated (substrings (0x3B ∷ []) (text_numbers (λ u. u) list.entry)) ≡ char_terminated_left Utf16 (λ u. u) result.1 ++ text_numbers (λ u. u) entry ∷ []) }
{
    let mut entries = list.split_terminator_char(';');
    let entry = entries.next_back();
    (entry, entries)
}
