//! A UTF-16 string with an offset index, as a text that can be edited.
ghost use Rattle.std.specs.Prelude.{◌≡◌, ◌+◌, ◌-◌, ◌*◌, ◌/◌, ◌<◌, ◌≤◌, ◌↔◌, length, take, IsSome, IfSome, IsOk, OnOk, IfOk, IfErr, vec_capacity};
ghost use Rattle.wide_forms.specs.EncodingForm.{Utf16, encode};
ghost use Rattle.wide_forms.specs.Items.{chars};
ghost use Rattle.wide_forms.specs.Offsets.{IsOffsetOf, IsCharBoundary};
ghost use Rattle.wide_utfstr.specs.View.{units_seen};
ghost use Rattle.wide_edit.specs.Step.{step, reply_data};
ghost use Rattle.wide_editable.specs.Edited.{CanHold, IsMade, HasReplySpace};
ghost use Rattle.wide_editable.specs.Indices.{first_index, second_index};
ghost use Rattle.wide_offset_index.specs.Found.{IsFoundAt};
ghost use Rattle.wide_steps.specs.Counted.{counted, AddsAtMost};
ghost use Rattle.wide_offset_index.specs.Marks.{index_entry, index_entries, IsEdited, AreMoved};
ghost use Rattle.wide_editable.specs.Marked.{first_changed, units_after, units_split_off, marked_capacity, marked_units, marked_text, IsMarkedReady};
ghost use Rattle.wide_offset_index.specs.Passed.{units_put, IsShort, IsFew, entries_left};

use crate::lookup::{indices_of, string_facts};
use crate::memory::prepare_at;
use crate::operations::apply_at;
use crate::ranges::replaced_range;
use crate::text_edit::TextEdit;
use std::alloc::Global;
use std::marker::Model;
use wide_edit::{Edit, Reply};
use wide_error::OutOfMemory;
use wide_offset_index::{
    Range16, append_missing, count_from, count_if_few, find_from, shift, units_from,
};
use wide_steps::{Steps, tick};
use wide_utfstr::Utf16Str;
use wide_utfstring::Utf16String;

/// A UTF-16 string with an offset index. Its entries are the offsets, in units, of the characters at indices 64, 128
/// and so on, and of the end if the number of characters is a positive multiple of 64.
///
/// A character is found by its index from the last entry that is not past it, so that fewer than 64 characters are
/// read. An edit leaves the entries that are not past its first character unchanged. If it replaces at most 31
/// characters by at most 31, it moves the later entries. Otherwise it computes them again, from the last unchanged entry
/// on.
///
/// # Example
///
/// ```
/// let text = Utf16String::from_str(rt.alloc(), "a😀b")?;
/// let Ok(mut marked) = Marked16::new(rt.alloc(), text) else {
///     return Err(OutOfMemory.into());
/// };
/// let mut replies = Vec::new(rt.alloc());
/// run(rt.alloc(), &mut marked, &[Edit::Remove(1)], &mut replies)?;
/// assert!(rt; marked.as_utfstr().eq_str("ab"));
/// ```
#[derive(Drop)]
pub struct Marked16 {
    string: Utf16String,
    marks: Vec<usize>,
}

impl Model for Marked16 {
    ghost use Rattle.std.specs.Prelude.{◌≡◌, vec_capacity};
    ghost use Rattle.wide_forms.specs.EncodingForm.{Utf16};
    ghost use Rattle.wide_forms.specs.Items.{chars};
    ghost use Rattle.wide_editable.specs.Marked.{Marked, marked_code};
    ghost use Rattle.wide_offset_index.specs.Marks.{index_entries};

    ghost Value = { Marked };

    ghost coded = { marked_code };

    ghost view = { λ m. record { string = m.string; index_capacity = vec_capacity m.marks } };

    ghost invariant = { λ m. m.marks.items ≡ index_entries (chars Utf16 m.string.units) };
}

// Returns the index of the first character that an edit can change, in a text of `count` characters. The characters
// before it are unchanged.
fn first_changed(edit: Edit<'_>, count: usize) -> usize
    ensures { result ≡ first_changed count edit.entry }
{
    match edit {
        Edit::Push(_) => count,
        Edit::PushStr(_) => count,
        Edit::Pop => count.saturating_sub(1),
        Edit::Truncate(len) => len.min(count),
        Edit::Insert(index, _) => index.min(count),
        Edit::InsertStr(index, _) => index.min(count),
        Edit::Remove(index) => index.min(count),
        Edit::Retain(_) => 0,
        Edit::Drain(from, _) => from.min(count),
        Edit::Replace(from, _, _) => from.min(count),
        Edit::SplitOff(index) => index.min(count),
        Edit::Clear => 0,
    }
}

// Allocates all memory that an edit needs in a UTF-16 string. `start` and `end` are the offsets of the characters at
// the edit's indices, or `None` past the end. It is a function of its own, so that its contract is about the units
// themselves, and not about numbers of units of any width.
fn prepare16(
    string: &mut Utf16String,
    alloc: Global,
    edit: Edit<'_>,
    start: Option<usize>,
    end: Option<usize>,
) -> Result<Vec<char>, OutOfMemory>
    requires start { IsFoundAt Utf16 string.old.units (first_index edit) start }
    requires end { IsFoundAt Utf16 string.old.units (second_index edit) end }
    ensures ready { OnOk result (CanHold Utf16 string.new (step (chars Utf16 string.new.units) edit.entry).0) }
    ensures space { IfOk result (λ space. HasReplySpace (chars Utf16 string.new.units) edit.entry space) }
    ensures units { string.new.units ≡ string.old.units }
    ensures capacity { string.old.capacity ≤ string.new.capacity }
{
    prepare_at(string, alloc, edit, start, end)
}

// Returns how many units are read to count the characters of an edit's reply: those from the offset of a `SplitOff` on.
fn units_counted(string: &Utf16String, edit: Edit<'_>, start: Option<usize>) -> usize
    requires { IsFoundAt Utf16 string.now.units (first_index edit) start }
    ensures { result ≡ units_split_off (chars Utf16 string.now.units) edit.entry }
{
    string_facts(string);
    let len = string.unit_count();
    match edit {
        Edit::SplitOff(_) => match start {
            Some(at) => len - at,
            None => 0,
        },
        _ => 0,
    }
}

// Makes the edit of a UTF-16 string. `start` and `end` are the offsets of the characters at the edit's indices, or
// `None` past the end. It is a function of its own, so that its contract is about the units themselves, and not about
// numbers of units of any width.
fn apply16(
    string: &mut Utf16String,
    edit: Edit<'_>,
    start: Option<usize>,
    end: Option<usize>,
    space: Vec<char>,
) -> Reply
    requires start { IsFoundAt Utf16 string.old.units (first_index edit) start }
    requires end { IsFoundAt Utf16 string.old.units (second_index edit) end }
    requires ready { CanHold Utf16 string.old (step (chars Utf16 string.old.units) edit).0 }
    requires space { HasReplySpace (chars Utf16 string.old.units) edit space }
    ensures made { IsMade (chars Utf16 string.old.units) edit.entry (chars Utf16 string.new.units) result }
    ensures capacity { string.old.capacity ≤ string.new.capacity }
{
    apply_at(string, edit, start, end, space)
}

// Computes the index entries again, except the first `unchanged` ones.
fn recount(text: Utf16Str<'_>, marks: &mut Vec<usize>, unchanged: usize, steps: &mut Steps)
    requires within { unchanged ≤ length marks.old.items }
    requires some { take unchanged marks.old.items ≡ take unchanged (index_entries (chars Utf16 (units_seen text))) }
    requires space { length (chars Utf16 (units_seen text)) / 64 ≤ vec_capacity marks.old }
    ensures marks { marks.new.items ≡ index_entries (chars Utf16 (units_seen text.entry)) }
    ensures space { vec_capacity marks.new ≡ vec_capacity marks.old }
    ensures grows { counted steps.old ≤ counted steps.new }
    ensures steps { counted steps.new + index_entry (chars Utf16 (units_seen text.entry)) unchanged ≡ counted steps.old + length (units_seen text.entry) }
{
    marks.truncate(unchanged);
    append_missing(text, marks, steps);
}

// Updates the entries to a text whose characters in a range were replaced. The text had `count` characters and `units`
// units before. If at most 31 characters were replaced by at most 31, the entries after them are moved. Otherwise the
// first `unchanged` entries are left, and the others are computed again.
fn update(
    text: Utf16Str<'_>,
    marks: &mut Vec<usize>,
    range: Range16,
    unchanged: usize,
    count: usize,
    units: usize,
    steps: &mut Steps,
)
    requires edited { IsEdited (chars Utf16 (units_seen text)) count units range.from range.to range.start range.end }
    requires long { length marks.old.items ≡ count / 64 }
    requires some { take (range.from / 64) marks.old.items ≡ take (range.from / 64) (index_entries (chars Utf16 (units_seen text))) }
    requires unchanged { unchanged ≤ range.from / 64 }
    requires moved { AreMoved (chars Utf16 (units_seen text)) count units range.to marks.old.items }
    requires space { length (chars Utf16 (units_seen text)) / 64 ≤ vec_capacity marks.old }
    ensures marks { marks.new.items ≡ index_entries (chars Utf16 (units_seen text.entry)) }
    ensures space { vec_capacity marks.new ≡ vec_capacity marks.old }
    ensures grows { counted steps.old ≤ counted steps.new }
    ensures read { IsShort (units_seen text.entry) units range → counted steps.old + units_put (units_seen text.entry) units range ≤ counted steps.new }
    ensures moved { IsFew (units_seen text.entry) count units range → counted steps.old + units_put (units_seen text.entry) units range + (entries_left count (length (chars Utf16 (units_seen text.entry))) - range.from / 64) ≤ counted steps.new }
    ensures many_removed { range.from + 31 < range.to → counted steps.new + index_entry (chars Utf16 (units_seen text.entry)) unchanged ≡ counted steps.old + length (units_seen text.entry) }
    ensures many_put { 62 < units_put (units_seen text.entry) units range → counted steps.new + index_entry (chars Utf16 (units_seen text.entry)) unchanged ≡ counted steps.old + length (units_seen text.entry) }
    ensures steps { counted steps.new + index_entry (chars Utf16 (units_seen text.entry)) unchanged ≤ counted steps.old + 63 + length (units_seen text.entry) }
{
    match count_if_few(text, range, count, units, steps) {
        Some(total) => shift(text, marks, range, count, units, total, steps),
        None => recount(text, marks, unchanged, steps),
    }
}

// Makes an edit of `string`, and updates the index entries past the first character that the edit can change.
fn apply_to(
    string: &mut Utf16String,
    marks: &mut Vec<usize>,
    edit: Edit<'_>,
    space: Vec<char>,
    steps: &mut Steps,
) -> Reply
    requires marks { marks.old.items ≡ index_entries (chars Utf16 string.old.units) }
    requires ready { CanHold Utf16 string.old (step (chars Utf16 string.old.units) edit).0 }
    requires index_ready { length (step (chars Utf16 string.old.units) edit).0 / 64 ≤ vec_capacity marks.old }
    requires space { HasReplySpace (chars Utf16 string.old.units) edit space }
    ensures made { IsMade (chars Utf16 string.old.units) edit.entry (chars Utf16 string.new.units) result }
    ensures marks { marks.new.items ≡ index_entries (chars Utf16 string.new.units) }
    ensures capacity { string.old.capacity ≤ string.new.capacity }
    ensures index_capacity { vec_capacity marks.new ≡ vec_capacity marks.old }
    ensures steps { AddsAtMost steps.old steps.new (512 + units_after (chars Utf16 string.old.units) (chars Utf16 string.new.units) edit.entry) }
{
    let (first, second) = indices_of(edit);
    let start = find_from(string.as_utfstr(), marks.as_slice(), first, steps);
    let end = find_from(string.as_utfstr(), marks.as_slice(), second, steps);
    let count = count_from(string.as_utfstr(), marks.as_slice(), steps);
    let unchanged = first_changed(edit, count) / 64;
    // The edit may read the units after the last entry that is retained, and no others.
    tick(
        steps,
        units_from(string.as_utfstr(), marks.as_slice(), unchanged),
    );
    let range = replaced_range(string, edit, count, start, end, steps);
    let units = string.len();
    let reply = apply16(string, edit, start, end, space);
    match range {
        Some(range) => update(
            string.as_utfstr(),
            marks,
            range,
            unchanged,
            count,
            units,
            steps,
        ),
        None => recount(string.as_utfstr(), marks, unchanged, steps),
    }
    reply
}

impl Marked16 {
    /// Builds the offset index of a string.
    ///
    /// # Errors
    ///
    /// The string, unchanged, if the allocation for the index fails. It never fails if the string has fewer than 64
    /// characters.
    pub fn new(alloc: Global, string: Utf16String) -> Result<Self, Utf16String>
        ensures ok { IfOk result (λ m. m.string ≡ string) }
        ensures err { IfErr result (λ s. s ≡ string) }
        ensures succeeds { length (chars Utf16 string.units) < 64 → IsOk result }
    {
        let count = string.as_utfstr().char_count();
        match Vec::with_capacity(alloc, count / 64) {
            Ok(mut marks) => {
                append_missing(string.as_utfstr(), &mut marks, &mut Steps::new());
                Ok(Marked16 { string, marks })
            }
            Err(_error) => Err(string),
        }
    }

    /// Returns the entries of the offset index: for each `k` from 1 on, as long as there are `64 * k` characters, the
    /// length in units of the first `64 * k` characters (Unicode Standard, D79 and D91).
    pub fn marks(&self) -> &[usize]
        ensures { result.now ≡ index_entries (marked_text self.now) }
    {
        self.marks.as_slice()
    }

    /// Returns a view of the text.
    pub fn as_utfstr(&self) -> Utf16Str<'_>
        ensures units { units_seen result ≡ marked_units self.now }
        ensures encoded { units_seen result ≡ encode Utf16 (marked_text self.now) }
    {
        let _units = self.string.unit_count();
        self.string.as_utfstr()
    }

    /// Returns the string, without its offset index.
    pub fn into_utfstring(self) -> Utf16String
        ensures string { result ≡ self.string }
        ensures encoded { result.units ≡ encode Utf16 (marked_text self) }
    {
        let Marked16 { string, marks: _ } = self;
        let _units = string.unit_count();
        string
    }

    /// Returns the offset, in units, at which the character at an index begins, which is the length in units of the
    /// first `index` characters. If the index is the number of characters, returns the offset of the end. If it is
    /// greater, returns `None`. It reads the characters from the last index entry that is not past it, which are fewer
    /// than 64 and so at most 126 units, and counts these units. Pass `&mut Steps::new()` if the count does not matter.
    pub fn unit_offset(&self, index: usize, steps: &mut Steps) -> Option<usize>
        ensures some { IsSome result ↔ (index ≤ length (marked_text self.now)) }
        ensures offset { IfSome result (IsOffsetOf Utf16 (marked_units self.now) index) }
        ensures char_boundary { IfSome result (IsCharBoundary Utf16 (marked_units self.now)) }
        ensures steps { AddsAtMost steps.old steps.new 126 }
    {
        find_from(self.string.as_utfstr(), self.marks.as_slice(), index, steps)
    }

    /// Allocates all memory that an edit needs, like [`TextEdit::prepare`], and returns an empty vector with capacity
    /// for the characters of its reply. It counts a step for each unit that is read to find the edit's indices, at most
    /// 252, and for a `SplitOff` a step for each unit from its offset on, whose characters it counts.
    ///
    /// # Errors
    ///
    /// [`OutOfMemory`] if an allocation fails. The text keeps its units, and its capacity does not shrink.
    pub fn prepare_counted(
        &mut self,
        alloc: Global,
        edit: Edit<'_>,
        steps: &mut Steps,
    ) -> Result<Vec<char>, OutOfMemory>
        ensures ready { OnOk result (IsMarkedReady self.new edit.entry) }
        ensures space { IfOk result (λ space. HasReplySpace (marked_text self.new) edit.entry space) }
        ensures units { marked_units self.new ≡ marked_units self.old }
        ensures capacity { marked_capacity self.old ≤ marked_capacity self.new }
        ensures index_capacity { self.old.index_capacity ≤ self.new.index_capacity }
        ensures steps { AddsAtMost steps.old steps.new (252 + units_split_off (marked_text self.old) edit.entry) }
    {
        let (first, second) = indices_of(edit);
        let start = find_from(self.string.as_utfstr(), self.marks.as_slice(), first, steps);
        let end = find_from(
            self.string.as_utfstr(),
            self.marks.as_slice(),
            second,
            steps,
        );
        tick(steps, units_counted(&self.string, edit, start));
        let space = prepare16(&mut self.string, alloc, edit, start, end)?;
        // No text has more characters than units.
        let most = self.string.capacity() / 64;
        self.marks.reserve(most.saturating_sub(self.marks.len()))?;
        Ok(space)
    }

    /// Makes an edit in memory that was allocated for it, like [`TextEdit::apply`]. It counts a step for each unit that
    /// may be read and for each index entry that is moved: at most 512, and all units of the old and of the new text
    /// after the last index entry that is not past the edit's first character, read or not.
    ///
    /// # Requires
    ///
    /// The text and its offset index have the capacity that the edit needs, and the vector is empty and has capacity
    /// for the characters of the reply, as after [`Marked16::prepare_counted`] for this edit.
    pub fn apply_counted(&mut self, edit: Edit<'_>, space: Vec<char>, steps: &mut Steps) -> Reply
        requires ready { IsMarkedReady self.old edit }
        requires space { HasReplySpace (marked_text self.old) edit space }
        ensures text { marked_text self.new ≡ (step (marked_text self.old) edit.entry).0 }
        ensures reply { reply_data result ≡ (step (marked_text self.old) edit.entry).1 }
        ensures capacity { marked_capacity self.old ≤ marked_capacity self.new }
        ensures index_capacity { self.new.index_capacity ≡ self.old.index_capacity }
        ensures steps { AddsAtMost steps.old steps.new (512 + units_after (marked_text self.old) (marked_text self.new) edit.entry) }
    {
        apply_to(&mut self.string, &mut self.marks, edit, space, steps)
    }
}

impl TextEdit for Marked16 {
    ghost use Rattle.wide_forms.specs.EncodingForm.{Utf16};
    ghost use Rattle.wide_editable.specs.Marked.{marked_capacity, marked_units, marked_text, IsMarkedReady};

    ghost text = { marked_text };

    ghost units = { marked_units };

    ghost form = { Utf16 };

    ghost capacity = { marked_capacity };

    ghost is_ready = { IsMarkedReady };

    fn char_count(&self) -> usize {
        count_from(
            self.string.as_utfstr(),
            self.marks.as_slice(),
            &mut Steps::new(),
        )
    }

    fn unit_count(&self) -> usize {
        self.string.unit_count()
    }

    fn prepare(&mut self, alloc: Global, edit: Edit<'_>) -> Result<Vec<char>, OutOfMemory> {
        self.prepare_counted(alloc, edit, &mut Steps::new())
    }

    fn apply(&mut self, edit: Edit<'_>, space: Vec<char>) -> Reply {
        self.apply_counted(edit, space, &mut Steps::new())
    }
}
