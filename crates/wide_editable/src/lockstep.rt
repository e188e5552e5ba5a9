//! Application of lists of edits to one text, or to two.
ghost use Rattle.std.specs.Prelude.{◌≡◌, ◌<◌, ◌≤◌, length, take, IfErr, OnOk, OnErr};
ghost use Rattle.wide_forms.specs.EncodingForm.{encode};
ghost use Rattle.wide_editable.specs.Edited.{HasStepped, HasRun};

use crate::text_edit::TextEdit;
use std::alloc::Global;
use wide_edit::{Edit, Reply, Stopped};
use wide_error::OutOfMemory;

// Makes one edit and appends its reply. If an allocation fails, neither the text nor the list of replies changes.
fn make<T: TextEdit>(
    alloc: Global,
    text: &mut T,
    edit: Edit<'_>,
    replies: &mut Vec<Reply>,
) -> Result<(), OutOfMemory>
    ensures ok { OnOk result (HasStepped (T.text text.old) edit.entry (T.text text.new) replies.old.items replies.new.items) }
    ensures err_text { OnErr result (T.text text.new ≡ T.text text.old) }
    ensures err_replies { OnErr result (replies.new.items ≡ replies.old.items) }
    ensures capacity { T.capacity text.old ≤ T.capacity text.new }
{
    replies.reserve(1)?;
    let space = text.prepare(alloc, edit)?;
    replies.push_reserved(text.apply(edit, space));
    Ok(())
}

// Makes the edits in order, until an allocation fails.
fn make_all<T: TextEdit>(
    alloc: Global,
    text: &mut T,
    edits: &[Edit<'_>],
    replies: &mut Vec<Reply>,
) -> Result<(), Stopped>
    ensures ok { OnOk result (HasRun (T.text text.old) edits.now (T.text text.new) replies.old.items replies.new.items) }
    ensures fewer { IfErr result (λ stopped. stopped.done < length edits.now) }
    ensures err { IfErr result (λ stopped. HasRun (T.text text.old) (take stopped.done edits.now) (T.text text.new) replies.old.items replies.new.items) }
    ensures capacity { T.capacity text.old ≤ T.capacity text.new }
{
    let mut done = 0;
    for edit in edits {
        match make(alloc, text, *edit, replies) {
            Ok(()) => {}
            Err(_error) => return Err(Stopped { done }),
        }
        done += 1;
    }
    Ok(())
}

/// Makes the edits of a text in order, and appends a reply for each. An edit that is rejected changes nothing, and the
/// run continues. The capacity of the text does not shrink.
///
/// `alloc` allocates the vectors of characters that replies hold. The text and the list of replies grow by allocators
/// of their own. An edit by index counts characters of a [`Utf16String`](wide_utfstring::Utf16String) from the start of
/// the text, and of a [`Marked16`](crate::Marked16) from the last entry of its index, as [`TextEdit::prepare`] says.
///
/// # Errors
///
/// [`Stopped`] if an allocation fails for an edit. The edits before it are made and have their replies. It has changed
/// no character and has no reply, but the capacities of the text and of the list of replies may have grown.
pub fn run<T: TextEdit>(
    alloc: Global,
    text: &mut T,
    edits: &[Edit<'_>],
    replies: &mut Vec<Reply>,
) -> Result<(), Stopped>
    ensures ok { OnOk result (HasRun (T.text text.old) edits.now (T.text text.new) replies.old.items replies.new.items) }
    ensures fewer { IfErr result (λ stopped. stopped.done < length edits.now) }
    ensures err { IfErr result (λ stopped. HasRun (T.text text.old) (take stopped.done edits.now) (T.text text.new) replies.old.items replies.new.items) }
    ensures encoded { T.units text.new ≡ encode T.form (T.text text.new) }
    ensures capacity { T.capacity text.old ≤ T.capacity text.new }
{
    let ran = make_all(alloc, text, edits, replies);
    // This call changes nothing. Its contract gives the proof that the units are the encoding of the characters.
    let _units = text.unit_count();
    ran
}

// Makes one edit of both texts and appends both replies. If an allocation fails, neither text changes, and no reply is
// appended.
fn make_both<T: TextEdit, U: TextEdit>(
    alloc: Global,
    first: &mut T,
    second: &mut U,
    edit: Edit<'_>,
    first_replies: &mut Vec<Reply>,
    second_replies: &mut Vec<Reply>,
) -> Result<(), OutOfMemory>
    ensures ok_first { OnOk result (HasStepped (T.text first.old) edit.entry (T.text first.new) first_replies.old.items first_replies.new.items) }
    ensures ok_second { OnOk result (HasStepped (U.text second.old) edit.entry (U.text second.new) second_replies.old.items second_replies.new.items) }
    ensures err_first { OnErr result (T.text first.new ≡ T.text first.old) }
    ensures err_second { OnErr result (U.text second.new ≡ U.text second.old) }
    ensures err_first_replies { OnErr result (first_replies.new.items ≡ first_replies.old.items) }
    ensures err_second_replies { OnErr result (second_replies.new.items ≡ second_replies.old.items) }
    ensures capacity_first { T.capacity first.old ≤ T.capacity first.new }
    ensures capacity_second { U.capacity second.old ≤ U.capacity second.new }
{
    first_replies.reserve(1)?;
    second_replies.reserve(1)?;
    let first_space = first.prepare(alloc, edit)?;
    let second_space = second.prepare(alloc, edit)?;
    first_replies.push_reserved(first.apply(edit, first_space));
    second_replies.push_reserved(second.apply(edit, second_space));
    Ok(())
}

// Makes the edits of both texts in order, until an allocation fails.
fn make_all_both<T: TextEdit, U: TextEdit>(
    alloc: Global,
    first: &mut T,
    second: &mut U,
    edits: &[Edit<'_>],
    first_replies: &mut Vec<Reply>,
    second_replies: &mut Vec<Reply>,
) -> Result<(), Stopped>
    ensures ok_first { OnOk result (HasRun (T.text first.old) edits.now (T.text first.new) first_replies.old.items first_replies.new.items) }
    ensures ok_second { OnOk result (HasRun (U.text second.old) edits.now (U.text second.new) second_replies.old.items second_replies.new.items) }
    ensures fewer { IfErr result (λ stopped. stopped.done < length edits.now) }
    ensures err_first { IfErr result (λ stopped. HasRun (T.text first.old) (take stopped.done edits.now) (T.text first.new) first_replies.old.items first_replies.new.items) }
    ensures err_second { IfErr result (λ stopped. HasRun (U.text second.old) (take stopped.done edits.now) (U.text second.new) second_replies.old.items second_replies.new.items) }
    ensures capacity_first { T.capacity first.old ≤ T.capacity first.new }
    ensures capacity_second { U.capacity second.old ≤ U.capacity second.new }
{
    let mut done = 0;
    for edit in edits {
        match make_both(alloc, first, second, *edit, first_replies, second_replies) {
            Ok(()) => {}
            Err(_error) => return Err(Stopped { done }),
        }
        done += 1;
    }
    Ok(())
}

/// Makes the edits of two texts in order, and appends a reply for each to both lists. Texts that have the same
/// characters before have the same characters and equal replies after, whatever their encoding forms are. The memory
/// that an edit needs in both texts and for both replies is allocated before either text changes. The capacities of the
/// texts do not shrink.
///
/// `alloc` allocates the vectors of characters that replies hold. The texts and the lists of replies grow by allocators
/// of their own. What an edit by index costs in each text is as for [`run`].
///
/// # Errors
///
/// [`Stopped`] if an allocation fails for an edit. In both texts the edits before it are made and have their replies.
/// It has changed no character of either and has no reply, but the capacities of the texts and of the lists of replies
/// may have grown.
pub fn run_both<T: TextEdit, U: TextEdit>(
    alloc: Global,
    first: &mut T,
    second: &mut U,
    edits: &[Edit<'_>],
    first_replies: &mut Vec<Reply>,
    second_replies: &mut Vec<Reply>,
) -> Result<(), Stopped>
    ensures ok_first { OnOk result (HasRun (T.text first.old) edits.now (T.text first.new) first_replies.old.items first_replies.new.items) }
    ensures ok_second { OnOk result (HasRun (U.text second.old) edits.now (U.text second.new) second_replies.old.items second_replies.new.items) }
    ensures fewer { IfErr result (λ stopped. stopped.done < length edits.now) }
    ensures err_first { IfErr result (λ stopped. HasRun (T.text first.old) (take stopped.done edits.now) (T.text first.new) first_replies.old.items first_replies.new.items) }
    ensures err_second { IfErr result (λ stopped. HasRun (U.text second.old) (take stopped.done edits.now) (U.text second.new) second_replies.old.items second_replies.new.items) }
    ensures encoded_first { T.units first.new ≡ encode T.form (T.text first.new) }
    ensures encoded_second { U.units second.new ≡ encode U.form (U.text second.new) }
    ensures capacity_first { T.capacity first.old ≤ T.capacity first.new }
    ensures capacity_second { U.capacity second.old ≤ U.capacity second.new }
{
    let ran = make_all_both(alloc, first, second, edits, first_replies, second_replies);
    // The two calls of `unit_count` change nothing. Their contracts give the proof that the units are the encoding of
    // the characters.
    let _first_units = first.unit_count();
    let _second_units = second.unit_count();
    ran
}
