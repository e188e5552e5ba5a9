//! The memory that an edit needs: in a well-formed string, and for the characters of its reply.
ghost use Rattle.std.specs.Prelude.{◌≡◌, ◌≤◌, ◌-◌, length, map, IsOk, OnOk, IfOk};
ghost use Rattle.wide_forms.specs.EncodingForm.{encode};
ghost use Rattle.wide_forms.specs.Offsets.{text_of};
ghost use Rattle.wide_ustring.specs.Units.{ustring_len};
ghost use Rattle.wide_edit.specs.Step.{changed, reply_to, step, chars_in};
ghost use Rattle.wide_editable.specs.Edited.{CanHold, HasReplySpace};
ghost use Rattle.wide_editable.specs.Indices.{first_index, second_index};
ghost use Rattle.wide_offset_index.specs.Found.{IsFoundAt};

use crate::lookup::{range_at, string_facts};
use std::alloc::Global;
use wide_edit::Edit;
use wide_error::OutOfMemory;
use wide_utferror::FaultUnit;
use wide_utfstring::UtfString;

// Returns how many units the string grows by the edit, or 0 if it does not grow.
pub(crate) fn growth<C: FaultUnit>(
    s: &UtfString<C>,
    edit: Edit<'_>,
    start: Option<usize>,
    end: Option<usize>,
) -> usize
    requires start { IsFoundAt C.form (map C.number s.now.units) (first_index edit) start }
    requires end { IsFoundAt C.form (map C.number s.now.units) (second_index edit) end }
    ensures { result ≡ length (encode C.form (changed (text_of C.form C.number s.now.units) edit.entry)) - ustring_len s.now }
{
    string_facts(s);
    match edit {
        Edit::Push(c) => C::char_len(c),
        Edit::PushStr(text) => C::text_len(text),
        Edit::Insert(_, c) => match start {
            Some(_at) => C::char_len(c),
            None => 0,
        },
        Edit::InsertStr(_, text) => match start {
            Some(_at) => C::text_len(text),
            None => 0,
        },
        Edit::Replace(from, to, text) => match range_at(s, from, to, start, end) {
            Some(range) => C::text_len(text).saturating_sub(range.end - range.start),
            None => 0,
        },
        _ => 0,
    }
}

// Returns how many characters the reply holds in a list. It reads the units after the offset of a `SplitOff`, and no
// others.
pub(crate) fn reply_len<C: FaultUnit>(
    s: &UtfString<C>,
    edit: Edit<'_>,
    start: Option<usize>,
    end: Option<usize>,
) -> usize
    requires start { IsFoundAt C.form (map C.number s.now.units) (first_index edit) start }
    requires end { IsFoundAt C.form (map C.number s.now.units) (second_index edit) end }
    ensures { result ≡ chars_in (reply_to (text_of C.form C.number s.now.units) edit.entry) }
{
    match edit {
        Edit::Drain(from, to) => match range_at(s, from, to, start, end) {
            Some(_range) => to - from,
            None => 0,
        },
        Edit::SplitOff(_) => match start {
            Some(at) => s.as_utfstr().split_at(at).1.char_count(),
            None => 0,
        },
        _ => 0,
    }
}

// Allocates all memory of an edit, given the offsets of its indices.
pub(crate) fn prepare_at<C: FaultUnit>(
    s: &mut UtfString<C>,
    alloc: Global,
    edit: Edit<'_>,
    start: Option<usize>,
    end: Option<usize>,
) -> Result<Vec<char>, OutOfMemory>
    requires start { IsFoundAt C.form (map C.number s.old.units) (first_index edit) start }
    requires end { IsFoundAt C.form (map C.number s.old.units) (second_index edit) end }
    ensures ready { OnOk result (CanHold C.form s.new (step (text_of C.form C.number s.new.units) edit.entry).0) }
    ensures space { IfOk result (λ space. HasReplySpace (text_of C.form C.number s.new.units) edit.entry space) }
    ensures units { s.new.units ≡ s.old.units }
    ensures capacity { s.old.capacity ≤ s.new.capacity }
    ensures succeeds { CanHold C.form s.old (step (text_of C.form C.number s.old.units) edit.entry).0 → chars_in (step (text_of C.form C.number s.old.units) edit.entry).1 ≡ 0 → IsOk result }
{
    string_facts(s);
    s.reserve(growth(s, edit, start, end))?;
    Ok(Vec::with_capacity(alloc, reply_len(s, edit, start, end))?)
}
