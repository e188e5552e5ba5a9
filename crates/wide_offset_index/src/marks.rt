//! The offset index of a UTF-16 text, with an entry for every 64th character, and the search for a character from the
//! last entry before it. So at most 63 characters are read after an entry, which have at most 126 units.
//!
//! Each unit that is read is counted once.
ghost use Rattle.std.specs.Prelude.{◌≡◌, ◌+◌, ◌-◌, ◌*◌, ◌/◌, ◌≤◌, length, take, drop, vec_capacity};
ghost use Rattle.wide_forms.specs.EncodingForm.{Utf16, encode};
ghost use Rattle.wide_forms.specs.Items.{chars};
ghost use Rattle.wide_utfstr.specs.View.{units_seen};
ghost use Rattle.wide_utfstr.specs.Iter.{chars_left};
ghost use Rattle.wide_steps.specs.Counted.{counted, AddsAtMost};
ghost use Rattle.wide_offset_index.specs.Found.{IsFoundAt};
ghost use Rattle.wide_offset_index.specs.Marks.{index_entry, index_entries};

use wide_steps::{Steps, tick};
use wide_unit::Unit;
use wide_utfstr::{CharsUtf16, Utf16Str};

// Returns the unit offset of entry number `number`, or 0 for number 0, and the characters from there on. The given
// entries are the first ones of the text's index.
fn seek<'a>(text: Utf16Str<'a>, marks: &[usize], number: usize) -> (usize, CharsUtf16<'a>)
    requires some { marks.now ≡ take (length marks.now) (index_entries (chars Utf16 (units_seen text))) }
    requires within { number ≤ length marks.now }
    ensures at { result.0 ≡ index_entry (chars Utf16 (units_seen text.entry)) number }
    ensures rest { chars_left Utf16 (λ u. u) result.1 ≡ drop (64 * number) (chars Utf16 (units_seen text.entry)) }
{
    if number == 0 {
        return (0, text.chars());
    }
    let at = marks[number - 1];
    let (_front, beyond) = text.split_at(at);
    (at, beyond.chars())
}

/// Appends the missing entries to an index. It reads the units from the last entry on, and counts them.
///
/// # Requires
///
/// The entries are the first ones of the text's index, and there is capacity for all.
pub fn append_missing(text: Utf16Str<'_>, marks: &mut Vec<usize>, steps: &mut Steps)
    requires some { marks.old.items ≡ take (length marks.old.items) (index_entries (chars Utf16 (units_seen text))) }
    requires space { length (chars Utf16 (units_seen text)) / 64 ≤ vec_capacity marks.old }
    ensures marks { marks.new.items ≡ index_entries (chars Utf16 (units_seen text.entry)) }
    ensures space { vec_capacity marks.new ≡ vec_capacity marks.old }
    ensures grows { counted steps.old ≤ counted steps.new }
    ensures steps { counted steps.new + index_entry (chars Utf16 (units_seen text.entry)) (length marks.old.items) ≡ counted steps.old + length (units_seen text.entry) }
{
    // This call reads no unit. Its contract gives the proof that the units are well formed.
    let _units = text.len();
    let (mut at, mut rest) = seek(text, marks.as_slice(), marks.len());
    let mut gone = 0usize;
    while let Some(c) = rest.next() {
        let len = u16::char_len(c);
        tick(steps, len);
        at += len;
        if gone < 63 {
            gone += 1;
            continue;
        }
        marks.push_reserved(at);
        gone = 0;
    }
}

/// Returns the offset, in units, of the character at an index, or `None` if the index is past the end. It reads from
/// the last entry that is not past the character, at most 63 characters, and counts their units.
///
/// # Requires
///
/// The entries are those of the text.
pub fn find_from(
    text: Utf16Str<'_>,
    marks: &[usize],
    index: usize,
    steps: &mut Steps,
) -> Option<usize>
    requires { marks.now ≡ index_entries (chars Utf16 (units_seen text)) }
    ensures found { IsFoundAt Utf16 (units_seen text.entry) index result }
    ensures steps { AddsAtMost steps.old steps.new 126 }
{
    // This call reads no unit. Its contract gives the proof that the units are well formed.
    let _units = text.len();
    let first = (index / 64).min(marks.len());
    let (mut at, mut rest) = seek(text, marks, first);
    for number in 64 * first..index {
        let c = rest.next()?;
        let len = u16::char_len(c);
        tick(steps, len);
        at += len;
    }
    Some(at)
}

/// Returns the number of characters. It reads those after the last entry, at most 63, and counts their units.
///
/// # Requires
///
/// The entries are those of the text.
pub fn count_from(text: Utf16Str<'_>, marks: &[usize], steps: &mut Steps) -> usize
    requires { marks.now ≡ index_entries (chars Utf16 (units_seen text)) }
    ensures count { result ≡ length (chars Utf16 (units_seen text.entry)) }
    ensures steps { AddsAtMost steps.old steps.new 126 }
{
    // This call reads no unit. Its contract gives the proof that the units are well formed.
    let _units = text.len();
    let (_at, mut rest) = seek(text, marks, marks.len());
    let mut count = 64 * marks.len();
    while let Some(c) = rest.next() {
        tick(steps, u16::char_len(c));
        count += 1;
    }
    count
}

/// Returns the number of units after an entry. It reads none of them.
///
/// # Requires
///
/// The entries are those of the text, and there are at least `number`.
pub fn units_from(text: Utf16Str<'_>, marks: &[usize], number: usize) -> usize
    requires some { marks.now ≡ index_entries (chars Utf16 (units_seen text)) }
    requires within { number ≤ length marks.now }
    ensures { result ≡ length (encode Utf16 (chars Utf16 (units_seen text.entry))) - index_entry (chars Utf16 (units_seen text.entry)) number }
{
    let (at, _rest) = seek(text, marks, number);
    text.len() - at
}
