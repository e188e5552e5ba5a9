//! The indices of characters that an edit states, and their offsets in the units of a well-formed string.
ghost use Rattle.std.specs.Prelude.{◌≡◌, ◌≤◌, false, length, map, IfNone, IfSome};
ghost use Rattle.wide_forms.specs.EncodingForm.{encode};
ghost use Rattle.wide_forms.specs.Items.{IsWellFormed};
ghost use Rattle.wide_forms.specs.Offsets.{text_of};
ghost use Rattle.wide_ustring.specs.Units.{ustring_len};
ghost use Rattle.wide_edit.specs.Step.{is_range};
ghost use Rattle.wide_editable.specs.Indices.{first_index, second_index};
ghost use Rattle.wide_offset_index.specs.Found.{IsFoundAt, IsFoundRange};

use std::ops::Range;
use wide_edit::Edit;
use wide_utferror::FaultUnit;
use wide_utfstring::UtfString;

// Returns the two indices of an edit, and 0 for one that it does not have: a search for character 0 reads nothing.
pub(crate) fn indices_of(edit: Edit<'_>) -> (usize, usize)
    ensures first { result.0 ≡ first_index edit.entry }
    ensures second { result.1 ≡ second_index edit.entry }
{
    match edit {
        Edit::Push(_) => (0, 0),
        Edit::PushStr(_) => (0, 0),
        Edit::Pop => (0, 0),
        Edit::Truncate(len) => (len, 0),
        Edit::Insert(index, _) => (index, 0),
        Edit::InsertStr(index, _) => (index, 0),
        Edit::Remove(index) => (index, 0),
        Edit::Retain(_) => (0, 0),
        Edit::Drain(from, to) => (from, to),
        Edit::Replace(from, to, _) => (from, to),
        Edit::SplitOff(index) => (index, 0),
        Edit::Clear => (0, 0),
    }
}

// Changes nothing, and reads no unit. Its contract gives the caller's proof the facts that are true of every string.
pub(crate) fn string_facts<C: FaultUnit>(s: &UtfString<C>)
    ensures well_formed { IsWellFormed C.form (map C.number s.now.units) }
    ensures encoded { map C.number s.now.units ≡ encode C.form (text_of C.form C.number s.now.units) }
    ensures count { length (encode C.form (text_of C.form C.number s.now.units)) ≡ ustring_len s.now }
    ensures within { ustring_len s.now ≤ s.now.capacity }
{
    let _units = s.as_slice();
    let _capacity = s.capacity();
}

// Returns the offset, in units, of the character at an index, or `None` if the index is past the end. In UTF-16 it
// reads the units before it once.
pub(crate) fn find<C: FaultUnit>(s: &UtfString<C>, index: usize) -> Option<usize>
    ensures { IsFoundAt C.form (map C.number s.now.units) index result }
{
    s.as_utfstr().unit_offset(index)
}

// Returns the offset, in units, of the character at index `to`, or `None` if the index is past the end. `start` is the
// offset of the character at index `from`, or `None` if that is past the end. In UTF-16 it reads the units from `start`
// on, or from the beginning if `to` is less than `from`.
pub(crate) fn find_second<C: FaultUnit>(
    s: &UtfString<C>,
    from: usize,
    start: Option<usize>,
    to: usize,
) -> Option<usize>
    requires { IsFoundAt C.form (map C.number s.now.units) from start }
    ensures { IsFoundAt C.form (map C.number s.now.units) to result }
{
    if to < from {
        return find(s, to);
    }
    string_facts(s);
    let at = start?;
    let (_prefix, back) = s.as_utfstr().split_at(at);
    let ahead = back.unit_offset(to - from)?;
    Some(at + ahead)
}

// Returns the range, in units, of the characters from index `from` up to index `to`, given the unit offsets of both.
// Returns `None` if they are not a range of the text.
pub(crate) fn range_at<C: FaultUnit>(
    s: &UtfString<C>,
    from: usize,
    to: usize,
    start: Option<usize>,
    end: Option<usize>,
) -> Option<Range<usize>>
    requires start { IsFoundAt C.form (map C.number s.now.units) from start }
    requires end { IsFoundAt C.form (map C.number s.now.units) to end }
    ensures none { IfNone result (is_range from to (length (text_of C.form C.number s.now.units)) ≡ false) }
    ensures some { IfSome result (λ r. IsFoundRange C.form (map C.number s.now.units) from to r.start r.end) }
{
    string_facts(s);
    if to < from {
        return None;
    }
    Some(start?..end?)
}
