//! The range of characters that an edit replaces.
ghost use Rattle.std.specs.Prelude.{◌≡◌, ◌+◌, ◌≤◌, ◌⊎◌, false, length, IfSome};
ghost use Rattle.wide_forms.specs.EncodingForm.{Utf16};
ghost use Rattle.wide_forms.specs.Items.{chars};
ghost use Rattle.wide_edit.specs.Step.{step, is_range};
ghost use Rattle.wide_steps.specs.Counted.{counted, AddsAtMost};
ghost use Rattle.wide_offset_index.specs.Found.{IsFoundAt, IsFoundRange};
ghost use Rattle.wide_editable.specs.Marked.{first_changed};
ghost use Rattle.wide_editable.specs.Indices.{first_index, second_index};
ghost use Rattle.wide_editable.specs.Replaced.{Replaces, units_at, units_removed};

use crate::lookup::{range_at, string_facts};
use wide_edit::Edit;
use wide_offset_index::{Range16, pass_on};
use wide_steps::Steps;
use wide_utfstring::Utf16String;

// Returns the empty range at the end of a text of `count` characters.
fn range_at_end(string: &Utf16String, count: usize) -> Range16
    requires { count ≡ length (chars Utf16 string.now.units) }
    ensures found { IsFoundRange Utf16 string.now.units result.from result.to result.start result.end }
    ensures from { result.from ≡ count }
    ensures to { result.to ≡ count }
{
    string_facts(string);
    let len = string.len();
    Range16 {
        from: count,
        to: count,
        start: len,
        end: len,
    }
}

// Returns the range of characters that an edit states, or the empty range at the end if it is not a range of the text.
fn range_or_end(
    string: &Utf16String,
    count: usize,
    from: usize,
    to: usize,
    start: Option<usize>,
    end: Option<usize>,
) -> Range16
    requires count { count ≡ length (chars Utf16 string.now.units) }
    requires start { IsFoundAt Utf16 string.now.units from start }
    requires end { IsFoundAt Utf16 string.now.units to end }
    ensures found { IsFoundRange Utf16 string.now.units result.from result.to result.start result.end }
    ensures numbers { ((result.from ≡ from) × (result.to ≡ to)) ⊎ ((is_range from to count ≡ false) × (result.from ≡ count) × (result.to ≡ count)) }
{
    match range_at(string, from, to, start, end) {
        Some(range) => Range16 {
            from,
            to,
            start: range.start,
            end: range.end,
        },
        None => range_at_end(string, count),
    }
}

// Returns the range of the character at an index, whose offset was found, or the empty one at the end of the text if
// there is none. It reads that character.
fn char_or_end(
    string: &Utf16String,
    count: usize,
    index: usize,
    start: Option<usize>,
    steps: &mut Steps,
) -> Range16
    requires count { count ≡ length (chars Utf16 string.now.units) }
    requires start { IsFoundAt Utf16 string.now.units index start }
    ensures found { IsFoundRange Utf16 string.now.units result.from result.to result.start result.end }
    ensures numbers { ((result.from ≡ index) × (result.to ≡ index + 1)) ⊎ ((count ≤ index) × (result.from ≡ count) × (result.to ≡ count)) }
    ensures read { counted steps.new ≡ counted steps.old + units_at (chars Utf16 string.now.units) index }
    ensures steps { AddsAtMost steps.old steps.new 2 }
{
    string_facts(string);
    match start {
        Some(start) if index < count => Range16 {
            from: index,
            to: index + 1,
            start,
            end: pass_on(string.as_utfstr(), index, start, index + 1, steps),
        },
        _ => range_at_end(string, count),
    }
}

// Returns the range of the characters that an edit replaces by others, which is empty and at the end of the text if the
// edit is rejected. Returns `None` for an edit that leaves no characters after those that it changes, and for `Retain`.
pub(crate) fn replaced_range(
    string: &Utf16String,
    edit: Edit<'_>,
    count: usize,
    start: Option<usize>,
    end: Option<usize>,
    steps: &mut Steps,
) -> Option<Range16>
    requires count { count ≡ length (chars Utf16 string.now.units) }
    requires start { IsFoundAt Utf16 string.now.units (first_index edit) start }
    requires end { IsFoundAt Utf16 string.now.units (second_index edit) end }
    ensures found { IfSome result (λ r. IsFoundRange Utf16 string.now.units r.from r.to r.start r.end) }
    ensures replaces { IfSome result (λ r. Replaces (chars Utf16 string.now.units) (step (chars Utf16 string.now.units) edit.entry).0 r.from r.to) }
    ensures unchanged { IfSome result (λ r. first_changed count edit.entry ≤ r.from) }
    ensures read { counted steps.new ≡ counted steps.old + units_removed (chars Utf16 string.now.units) edit.entry }
    ensures steps { AddsAtMost steps.old steps.new 2 }
{
    match edit {
        Edit::Push(_) => Some(range_at_end(string, count)),
        Edit::PushStr(_) => Some(range_at_end(string, count)),
        Edit::Insert(at, _) => Some(range_or_end(string, count, at, at, start, start)),
        Edit::InsertStr(at, _) => Some(range_or_end(string, count, at, at, start, start)),
        Edit::Remove(at) => Some(char_or_end(string, count, at, start, steps)),
        Edit::Drain(from, to) => Some(range_or_end(string, count, from, to, start, end)),
        Edit::Replace(from, to, _) => Some(range_or_end(string, count, from, to, start, end)),
        _ => None,
    }
}
