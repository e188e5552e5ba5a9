//! The twelve edits of a well-formed string, each made in units at the offsets of its indices, in memory that was
//! allocated before.
//!
//! If a search found no offset, the index is past the end. The results of calls that could fail to allocate are not
//! read, because the capacity was reserved before. `string_facts` changes nothing: its contract gives the proofs the
//! facts that are true of every string.
ghost use Rattle.std.specs.Prelude.{◌≡◌, ◌≤◌, [], length, map, vec_capacity};
ghost use Rattle.wide_forms.specs.Offsets.{text_of};
ghost use Rattle.wide_utfstr.specs.View.{text_seen};
ghost use Rattle.wide_edit.specs.Step.{changed};
ghost use Rattle.wide_editable.specs.Edited.{CanHold, IsMade, HasReplySpace};
ghost use Rattle.wide_editable.specs.Indices.{first_index, second_index};
ghost use Rattle.wide_offset_index.specs.Found.{IsFoundAt};
ghost use Rattle.wide_edit.specs.declared.edits.Edit.TheVariants as edit_of;

use crate::lookup::{range_at, string_facts};
use wide_edit::{Edit, Reply};
use wide_utferror::FaultUnit;
use wide_utfstr::UtfStr;
use wide_utfstring::UtfString;

// Returns the characters of a view, in an empty vector with capacity for them.
fn copy<C: FaultUnit>(text: UtfStr<'_, C>, mut space: Vec<char>) -> Vec<char>
    requires empty { space.items ≡ [] }
    requires fits { length (text_seen text) ≤ vec_capacity space }
    ensures { result.items ≡ text_seen text.entry }
{
    let mut rest = text.chars();
    while let Some(c) = rest.next() {
        space.push_reserved(c);
    }
    space
}

// Appends the character.
fn push<C: FaultUnit>(s: &mut UtfString<C>, c: char) -> Reply
    requires { CanHold C.form s.old (changed (text_of C.form C.number s.old.units) (edit_of.Push c)) }
    ensures made { IsMade (text_of C.form C.number s.old.units) (edit_of.Push c) (text_of C.form C.number s.new.units) result }
    ensures capacity { s.old.capacity ≤ s.new.capacity }
{
    string_facts(s);
    let _fits = s.push(c);
    Reply::Done
}

// Appends the text.
fn push_str<C: FaultUnit>(s: &mut UtfString<C>, text: &str) -> Reply
    requires { CanHold C.form s.old (changed (text_of C.form C.number s.old.units) (edit_of.PushStr text)) }
    ensures made { IsMade (text_of C.form C.number s.old.units) (edit_of.PushStr text.entry) (text_of C.form C.number s.new.units) result }
    ensures capacity { s.old.capacity ≤ s.new.capacity }
{
    string_facts(s);
    let _fits = s.push_str(text);
    Reply::Done
}

// Removes the last character, if there is one.
fn pop<C: FaultUnit>(s: &mut UtfString<C>) -> Reply
    ensures made { IsMade (text_of C.form C.number s.old.units) edit_of.Pop (text_of C.form C.number s.new.units) result }
    ensures capacity { s.old.capacity ≤ s.new.capacity }
{
    match s.pop() {
        Some(c) => Reply::Char(c),
        None => Reply::NoChar,
    }
}

// Removes the characters from index `len` on. A length past the end is no error, as for std's strings: nothing changes.
fn truncate<C: FaultUnit>(s: &mut UtfString<C>, len: usize, found: Option<usize>) -> Reply
    requires { IsFoundAt C.form (map C.number s.old.units) len found }
    ensures made { IsMade (text_of C.form C.number s.old.units) (edit_of.Truncate len) (text_of C.form C.number s.new.units) result }
    ensures capacity { s.old.capacity ≤ s.new.capacity }
{
    string_facts(s);
    match found {
        Some(at) => {
            s.truncate(at);
            Reply::Done
        }
        None => Reply::Done,
    }
}

// Inserts the character at an index, which may be the end.
fn insert<C: FaultUnit>(s: &mut UtfString<C>, index: usize, found: Option<usize>, c: char) -> Reply
    requires found { IsFoundAt C.form (map C.number s.old.units) index found }
    requires ready { CanHold C.form s.old (changed (text_of C.form C.number s.old.units) (edit_of.Insert index c)) }
    ensures made { IsMade (text_of C.form C.number s.old.units) (edit_of.Insert index c) (text_of C.form C.number s.new.units) result }
    ensures capacity { s.old.capacity ≤ s.new.capacity }
{
    string_facts(s);
    match found {
        Some(at) => {
            let _fits = s.insert(at, c);
            Reply::Done
        }
        None => Reply::BadPlace,
    }
}

// Inserts the text at an index, which may be the end.
fn insert_str<C: FaultUnit>(
    s: &mut UtfString<C>,
    index: usize,
    found: Option<usize>,
    text: &str,
) -> Reply
    requires found { IsFoundAt C.form (map C.number s.old.units) index found }
    requires ready { CanHold C.form s.old (changed (text_of C.form C.number s.old.units) (edit_of.InsertStr index text)) }
    ensures made { IsMade (text_of C.form C.number s.old.units) (edit_of.InsertStr index text.entry) (text_of C.form C.number s.new.units) result }
    ensures capacity { s.old.capacity ≤ s.new.capacity }
{
    string_facts(s);
    match found {
        Some(at) => {
            let _fits = s.splice_str(at, at, text);
            Reply::Done
        }
        None => Reply::BadPlace,
    }
}

// Removes the character at an index. There is none at the end.
fn remove<C: FaultUnit>(s: &mut UtfString<C>, index: usize, found: Option<usize>) -> Reply
    requires { IsFoundAt C.form (map C.number s.old.units) index found }
    ensures made { IsMade (text_of C.form C.number s.old.units) (edit_of.Remove index) (text_of C.form C.number s.new.units) result }
    ensures capacity { s.old.capacity ≤ s.new.capacity }
{
    string_facts(s);
    match found {
        Some(at) => {
            if at == s.len() {
                return Reply::BadPlace;
            }
            Reply::Char(s.remove(at))
        }
        None => Reply::BadPlace,
    }
}

// Retains the characters that occur in the list.
fn retain<C: FaultUnit>(s: &mut UtfString<C>, keep: &[char]) -> Reply
    ensures made { IsMade (text_of C.form C.number s.old.units) (edit_of.Retain keep.entry) (text_of C.form C.number s.new.units) result }
    ensures capacity { s.old.capacity ≤ s.new.capacity }
{
    s.retain(|c| keep.contains(&c));
    Reply::Done
}

// Removes a range of characters, and returns them.
fn drain<C: FaultUnit>(
    s: &mut UtfString<C>,
    from: usize,
    to: usize,
    start: Option<usize>,
    end: Option<usize>,
    space: Vec<char>,
) -> Reply
    requires start { IsFoundAt C.form (map C.number s.old.units) from start }
    requires end { IsFoundAt C.form (map C.number s.old.units) to end }
    requires space { HasReplySpace (text_of C.form C.number s.old.units) (edit_of.Drain from to) space }
    ensures made { IsMade (text_of C.form C.number s.old.units) (edit_of.Drain from to) (text_of C.form C.number s.new.units) result }
    ensures capacity { s.old.capacity ≤ s.new.capacity }
{
    string_facts(s);
    match range_at(s, from, to, start, end) {
        Some(range) => {
            let taken = copy(s.as_utfstr().slice(range.start..range.end), space);
            let _fits = s.replace_range(range.start..range.end, UtfStr::default());
            Reply::Chars(taken)
        }
        None => Reply::BadRange,
    }
}

// Replaces a range of characters by the text.
fn replace<C: FaultUnit>(
    s: &mut UtfString<C>,
    from: usize,
    to: usize,
    start: Option<usize>,
    end: Option<usize>,
    text: &str,
) -> Reply
    requires start { IsFoundAt C.form (map C.number s.old.units) from start }
    requires end { IsFoundAt C.form (map C.number s.old.units) to end }
    requires ready { CanHold C.form s.old (changed (text_of C.form C.number s.old.units) (edit_of.Replace from to text)) }
    ensures made { IsMade (text_of C.form C.number s.old.units) (edit_of.Replace from to text.entry) (text_of C.form C.number s.new.units) result }
    ensures capacity { s.old.capacity ≤ s.new.capacity }
{
    string_facts(s);
    match range_at(s, from, to, start, end) {
        Some(range) => {
            let _fits = s.splice_str(range.start, range.end, text);
            Reply::Done
        }
        None => Reply::BadRange,
    }
}

// Removes the characters from an index on, which may be the end, and returns them.
fn split_off<C: FaultUnit>(
    s: &mut UtfString<C>,
    index: usize,
    found: Option<usize>,
    space: Vec<char>,
) -> Reply
    requires found { IsFoundAt C.form (map C.number s.old.units) index found }
    requires space { HasReplySpace (text_of C.form C.number s.old.units) (edit_of.SplitOff index) space }
    ensures made { IsMade (text_of C.form C.number s.old.units) (edit_of.SplitOff index) (text_of C.form C.number s.new.units) result }
    ensures capacity { s.old.capacity ≤ s.new.capacity }
{
    match found {
        Some(at) => {
            let (_prefix, suffix) = s.as_utfstr().split_at(at);
            let taken = copy(suffix, space);
            s.truncate(at);
            Reply::Chars(taken)
        }
        None => Reply::BadPlace,
    }
}

// Removes all characters.
fn clear<C: FaultUnit>(s: &mut UtfString<C>) -> Reply
    ensures made { IsMade (text_of C.form C.number s.old.units) edit_of.Clear (text_of C.form C.number s.new.units) result }
    ensures capacity { s.old.capacity ≤ s.new.capacity }
{
    s.clear();
    Reply::Done
}

// Makes the edit in memory that was allocated for it. `start` and `end` are the offsets of the characters at its indices,
// or `None` past the end.
pub(crate) fn apply_at<C: FaultUnit>(
    s: &mut UtfString<C>,
    edit: Edit<'_>,
    start: Option<usize>,
    end: Option<usize>,
    space: Vec<char>,
) -> Reply
    requires start { IsFoundAt C.form (map C.number s.old.units) (first_index edit) start }
    requires end { IsFoundAt C.form (map C.number s.old.units) (second_index edit) end }
    requires ready { CanHold C.form s.old (changed (text_of C.form C.number s.old.units) edit) }
    requires space { HasReplySpace (text_of C.form C.number s.old.units) edit space }
    ensures made { IsMade (text_of C.form C.number s.old.units) edit.entry (text_of C.form C.number s.new.units) result }
    ensures capacity { s.old.capacity ≤ s.new.capacity }
{
    match edit {
        Edit::Push(c) => push(s, c),
        Edit::PushStr(text) => push_str(s, text),
        Edit::Pop => pop(s),
        Edit::Truncate(len) => truncate(s, len, start),
        Edit::Insert(index, c) => insert(s, index, start, c),
        Edit::InsertStr(index, text) => insert_str(s, index, start, text),
        Edit::Remove(index) => remove(s, index, start),
        Edit::Retain(keep) => retain(s, keep),
        Edit::Drain(from, to) => drain(s, from, to, start, end, space),
        Edit::Replace(from, to, text) => replace(s, from, to, start, end, text),
        Edit::SplitOff(index) => split_off(s, index, start, space),
        Edit::Clear => clear(s),
    }
}
