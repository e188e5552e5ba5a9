//! The offset index, which holds the offset in units of every 64th character, an entry each, after an edit that
//! replaces few characters by few: the entries after them are moved, and not computed again.
ghost use Rattle.std.specs.Prelude.{◌≡◌, ◌+◌, ◌-◌, ◌*◌, ◌/◌, ◌<◌, ◌≤◌, ◌↔◌, length, take, map, max, slice_index, vec_capacity, IsSome, IfSome};
ghost use Rattle.std.specs.List.{range_with_len};
ghost use Rattle.wide_forms.specs.EncodingForm.{Utf16};
ghost use Rattle.wide_forms.specs.Items.{chars};
ghost use Rattle.wide_utfstr.specs.View.{units_seen};
ghost use Rattle.wide_steps.specs.Counted.{counted, AddsAtMost};
ghost use Rattle.wide_offset_index.specs.Marks.{offset, index_entry, index_entries, IsEdited, AreMoved};
ghost use Rattle.wide_offset_index.specs.Passed.{units_put, IsShort, IsFew, entries_left, AddsMoved};

use crate::passing::{between, pass_back, pass_on};
use wide_steps::{Steps, tick};
use wide_utfstr::Utf16Str;

// If an edit removes or adds more characters than this, the entries after them are computed again. An entry moves by at
// most as many characters as an edit removes or adds: by less than half of the 64 from one entry to the next, so that
// moving it reads fewer units than counting again.
const FEW: usize = 31;

/// A range of characters, and where it is in the units.
#[derive(Clone, Copy)]
pub struct Range16 {
    /// The index of the first character.
    pub from: usize,
    /// The index of the first character after the range.
    pub to: usize,
    /// The offset, in units, of the character at index `from`.
    pub start: usize,
    /// The offset, in units, of the character at index `to`.
    pub end: usize,
}

/// Returns the number of characters of a text in which few characters were replaced by few, and otherwise `None`. The
/// text had `count` characters and `units` units before. It adds to `steps` one for each unit of the new characters
/// that it reads, and reads none if more than 31 characters were removed, or if the new ones have more than 62 units.
///
/// # Requires
///
/// The range was one of the text before. The characters before it and after it are those of the text now.
pub fn count_if_few(
    text: Utf16Str<'_>,
    range: Range16,
    count: usize,
    units: usize,
    steps: &mut Steps,
) -> Option<usize>
    requires edited { IsEdited (chars Utf16 (units_seen text)) count units range.from range.to range.start range.end }
    ensures count { IfSome result (λ total. total ≡ length (chars Utf16 (units_seen text.entry))) }
    ensures few { IfSome result (λ total. (range.to ≤ range.from + 31) × (total ≤ count + 31)) }
    ensures some { IsSome result ↔ IsFew (units_seen text.entry) count units range }
    ensures read { IsShort (units_seen text.entry) units range → counted steps.new ≡ counted steps.old + units_put (units_seen text.entry) units range }
    ensures many_removed { range.from + 31 < range.to → counted steps.new ≡ counted steps.old }
    ensures many_put { 62 < units_put (units_seen text.entry) units range → counted steps.new ≡ counted steps.old }
    ensures steps { AddsAtMost steps.old steps.new 62 }
{
    let stop = text.len() - (units - range.end);
    let removed = range.to - range.from;
    let more = stop - range.start;
    if removed > FEW || more > 2 * FEW {
        return None;
    }
    tick(steps, more);
    let added = text.slice(range.start..stop).char_count();
    if added > FEW {
        return None;
    }
    Some(count - removed + added)
}

// Returns where the character of old entry number `number + 1` is now, as its index and its offset, or the end of the
// text if there is no such entry.
fn known_from(
    text: Utf16Str<'_>,
    entries: &[usize],
    number: usize,
    count: usize,
    units: usize,
    total: usize,
) -> (usize, usize)
    requires within { number ≤ length entries.now }
    requires total { total ≡ length (chars Utf16 (units_seen text)) }
    requires less { count ≤ total + 31 }
    requires old { 64 * length entries.now ≤ count }
    requires new { 64 * length entries.now ≤ total }
    requires moved { AreMoved (chars Utf16 (units_seen text)) count units (64 * (number + 1)) entries.now }
    ensures offset { result.1 ≡ offset (chars Utf16 (units_seen text.entry)) result.0 }
    ensures index { number < length entries.now → result.0 + count ≡ total + 64 * (number + 1) }
    ensures end { length entries.now ≤ number → result.0 ≡ total }
    ensures least { 64 * number ≤ result.0 }
    ensures most { result.0 ≤ total }
{
    let len = text.len();
    if number < entries.len() {
        let index = total - (count - 64 * (number + 1));
        return (index, len - (units - entries[number]));
    }
    (total, len)
}

// Returns the new entry number `number + 1`, given the new entry before it, and the old entries from it on.
fn moved_entry(
    text: Utf16Str<'_>,
    entries: &[usize],
    number: usize,
    count: usize,
    units: usize,
    total: usize,
    steps: &mut Steps,
) -> usize
    requires within { number < length entries.now }
    requires some { 0 < number }
    requires total { total ≡ length (chars Utf16 (units_seen text)) }
    requires more { total ≤ count + 31 }
    requires less { count ≤ total + 31 }
    requires old { 64 * length entries.now ≤ count }
    requires new { 64 * length entries.now ≤ total }
    requires before { slice_index entries.now (number - 1) ≡ index_entry (chars Utf16 (units_seen text)) number }
    requires moved { AreMoved (chars Utf16 (units_seen text)) count units (64 * (number + 1)) entries.now }
    ensures entry { result ≡ index_entry (chars Utf16 (units_seen text.entry)) (number + 1) }
    ensures passes { AddsMoved (chars Utf16 (units_seen text.entry)) steps.old steps.new (length entries.now) number count total }
    ensures steps { AddsAtMost steps.old steps.new 62 }
{
    let to = 64 * (number + 1);
    let known = known_from(text, entries, number, count, units, total);
    // If there are at least as many characters as before, the new entry is at or before the offset to which the old
    // entry moved, and after the new entry before it. If there are fewer, it is at or after that offset, and at or
    // before the one to which the next old entry moved, or the end of the text if there is no next one.
    if count <= total {
        return between(text, (to - 64, entries[number - 1]), known, to, steps);
    }
    let next = known_from(text, entries, number + 1, count, units, total);
    between(text, known, next, to, steps)
}

// Returns the new entry number `number + 1`. The first entry past the beginning of the range is found by reading from
// that beginning. Each later one is found from the offset to which the old entry moved, or from the end of the text.
fn next_entry(
    text: Utf16Str<'_>,
    entries: &[usize],
    number: usize,
    range: Range16,
    count: usize,
    units: usize,
    total: usize,
    steps: &mut Steps,
) -> usize
    requires edited { IsEdited (chars Utf16 (units_seen text)) count units range.from range.to range.start range.end }
    requires unchanged { range.from / 64 ≤ number }
    requires within { number < length entries.now }
    requires total { total ≡ length (chars Utf16 (units_seen text)) }
    requires more { total ≤ count + 31 }
    requires less { count ≤ total + 31 }
    requires old { 64 * length entries.now ≤ count }
    requires new { 64 * length entries.now ≤ total }
    requires before { 0 < number → slice_index entries.now (number - 1) ≡ index_entry (chars Utf16 (units_seen text)) number }
    requires moved { range.from / 64 < number → AreMoved (chars Utf16 (units_seen text)) count units (64 * (number + 1)) entries.now }
    ensures entry { result ≡ index_entry (chars Utf16 (units_seen text.entry)) (number + 1) }
    ensures grows { counted steps.old ≤ counted steps.new }
    ensures first { number ≡ range.from / 64 → counted steps.new + range.start ≡ counted steps.old + result }
    ensures passes { range.from / 64 < number → AddsMoved (chars Utf16 (units_seen text.entry)) steps.old steps.new (length entries.now) number count total }
    ensures later { range.from / 64 < number → counted steps.new ≤ counted steps.old + 62 }
{
    if number == range.from / 64 {
        return pass_on(text, range.from, range.start, 64 * (number + 1), steps);
    }
    moved_entry(text, entries, number, count, units, total, steps)
}

// Updates the entries past the beginning of the range to the edited text. It counts a step for each of them, and for
// each unit that it reads.
fn move_entries(
    text: Utf16Str<'_>,
    entries: &mut [usize],
    range: Range16,
    count: usize,
    units: usize,
    total: usize,
    steps: &mut Steps,
)
    requires edited { IsEdited (chars Utf16 (units_seen text)) count units range.from range.to range.start range.end }
    requires few { range.to ≤ range.from + 31 }
    requires total { total ≡ length (chars Utf16 (units_seen text)) }
    requires more { total ≤ count + 31 }
    requires less { count ≤ total + 31 }
    requires old { 64 * length entries.old ≤ count }
    requires new { 64 * length entries.old ≤ total }
    requires unchanged { range.from / 64 ≤ length entries.old }
    requires some { take (range.from / 64) entries.old ≡ map (index_entry (chars Utf16 (units_seen text))) (range_with_len 1 (range.from / 64)) }
    requires moved { AreMoved (chars Utf16 (units_seen text)) count units range.to entries.old }
    ensures entries { entries.new ≡ map (index_entry (chars Utf16 (units_seen text.entry))) (range_with_len 1 (length entries.old)) }
    ensures grows { counted steps.old ≤ counted steps.new }
    ensures none { length entries.old ≤ range.from / 64 → counted steps.new ≡ counted steps.old }
    ensures least { range.from / 64 < length entries.old → counted steps.old + (length entries.old - range.from / 64) + index_entry (chars Utf16 (units_seen text.entry)) (range.from / 64 + 1) ≤ counted steps.new + range.start }
    ensures steps { counted steps.new + range.start ≤ counted steps.old + 1 + max range.start (index_entry (chars Utf16 (units_seen text.entry)) (length entries.old)) }
{
    // This call reads no unit. Its contract gives the proof that the units are well formed.
    let _units = text.len();
    for number in range.from / 64..entries.len() {
        tick(steps, 1);
        let entry = next_entry(text, entries, number, range, count, units, total, steps);
        entries[number] = entry;
    }
}

// Appends the last entry if it is missing. It is found by reading back from the end of a text of `total` characters.
fn push_last(text: Utf16Str<'_>, marks: &mut Vec<usize>, total: usize, steps: &mut Steps)
    requires total { total ≡ length (chars Utf16 (units_seen text)) }
    requires some { marks.old.items ≡ map (index_entry (chars Utf16 (units_seen text))) (range_with_len 1 (length marks.old.items)) }
    requires within { length marks.old.items ≤ total / 64 }
    requires long { total / 64 ≤ length marks.old.items + 1 }
    requires space { total / 64 ≤ vec_capacity marks.old }
    ensures marks { marks.new.items ≡ index_entries (chars Utf16 (units_seen text.entry)) }
    ensures space { vec_capacity marks.new ≡ vec_capacity marks.old }
    ensures missing { length marks.old.items < total / 64 → counted steps.new + index_entry (chars Utf16 (units_seen text.entry)) (length marks.old.items + 1) ≡ counted steps.old + length (units_seen text.entry) }
    ensures whole { total / 64 ≤ length marks.old.items → counted steps.new ≡ counted steps.old }
{
    let len = text.len();
    let number = marks.len() + 1;
    if number <= total / 64 {
        let at = pass_back(text, total, len, 64 * number, steps);
        marks.push_reserved(at);
    }
}

/// Updates the entries to a text in which few characters were replaced by few. The text had `count` characters and
/// `units` units before, and has `total` characters now. It counts a step for each entry that it moves, and for each
/// unit that it reads.
///
/// # Requires
///
/// The entries are those of the text before, and there is capacity for those of the text now. The characters before and
/// after the range are unchanged. The range had at most 31 characters, and the text has at most 31 characters more than
/// before.
pub fn shift(
    text: Utf16Str<'_>,
    marks: &mut Vec<usize>,
    range: Range16,
    count: usize,
    units: usize,
    total: usize,
    steps: &mut Steps,
)
    requires edited { IsEdited (chars Utf16 (units_seen text)) count units range.from range.to range.start range.end }
    requires few { range.to ≤ range.from + 31 }
    requires total { total ≡ length (chars Utf16 (units_seen text)) }
    requires more { total ≤ count + 31 }
    requires long { length marks.old.items ≡ count / 64 }
    requires some { take (range.from / 64) marks.old.items ≡ take (range.from / 64) (index_entries (chars Utf16 (units_seen text))) }
    requires moved { AreMoved (chars Utf16 (units_seen text)) count units range.to marks.old.items }
    requires space { length (chars Utf16 (units_seen text)) / 64 ≤ vec_capacity marks.old }
    ensures marks { marks.new.items ≡ index_entries (chars Utf16 (units_seen text.entry)) }
    ensures space { vec_capacity marks.new ≡ vec_capacity marks.old }
    ensures grows { counted steps.old ≤ counted steps.new }
    ensures least { range.from / 64 < entries_left count total → counted steps.old + (entries_left count total - range.from / 64) + index_entry (chars Utf16 (units_seen text.entry)) (range.from / 64 + 1) ≤ counted steps.new + range.start }
    ensures missing { count / 64 < total / 64 → counted steps.old + (count / 64 - range.from / 64) + length (units_seen text.entry) ≤ counted steps.new + index_entry (chars Utf16 (units_seen text.entry)) (count / 64 + 1) }
    ensures steps { counted steps.new + range.start ≤ counted steps.old + 1 + length (units_seen text.entry) }
{
    // This call reads no unit. Its contract gives the proof that the units are well formed.
    let _units = text.len();
    marks.truncate(total / 64);
    move_entries(
        text,
        marks.as_mut_slice(),
        range,
        count,
        units,
        total,
        steps,
    );
    push_last(text, marks, total, steps);
}
