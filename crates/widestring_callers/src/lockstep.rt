//! Edits as data: of one text, of two with the same characters in two encodings, and of a text with an offset index.
ghost use Rattle.std.specs.Prelude.{◌≡◌, ◌<◌, ◌≤◌, ◌+◌, ◌↔◌, [], ◌∷◌, length, take, map, IsSome, IfSome, IfOk, IfErr, OnOk, OnErr};
ghost use Rattle.std.specs.Str.{chars as str_chars};
ghost use Rattle.widestring.specs.EncodingForm.{Utf16, Utf32, encode};
ghost use Rattle.widestring.specs.Items.{chars};
ghost use Rattle.widestring.specs.Step.{step, meaning, reply_data, Done, Char, BadPlace};
ghost use Rattle.widestring.specs.Counted.{AddsAtMost};
ghost use Rattle.widestring.specs.Marked.{marked_text, units_after};
ghost use Rattle.widestring.specs.Marks.{index_entries};

use std::alloc::Global;
use widestring::edit::{Edit, Marked16, Reply, Steps, Stopped, TextEdit, run, run_both};
use widestring::error::OutOfMemory;
use widestring::{Utf16String, Utf32String};

/// Makes five edits of `a😀b` in both encodings. The last one replaces two characters by one.
pub fn edit_both(
    alloc: Global,
    first: &mut Utf16String,
    second: &mut Utf32String,
    put: &str,
    first_replies: &mut Vec<Reply>,
    second_replies: &mut Vec<Reply>,
) -> Result<(), Stopped>
    requires first { chars Utf16 first.old.units ≡ 0x61 ∷ 0x1F600 ∷ 0x62 ∷ [] }
    requires second { chars Utf32 second.old.units ≡ 0x61 ∷ 0x1F600 ∷ 0x62 ∷ [] }
    requires put { str_chars put.now ≡ 0x24B62 ∷ [] }
    requires first_replies { first_replies.old.items ≡ [] }
    requires second_replies { second_replies.old.items ≡ [] }
    ensures first { OnOk result (chars Utf16 first.new.units ≡ 0x24B62 ∷ 0x62 ∷ []) }
    ensures second { OnOk result (chars Utf32 second.new.units ≡ 0x24B62 ∷ 0x62 ∷ []) }
    ensures units16 { OnOk result (first.new.units ≡ 0xD852 ∷ 0xDF62 ∷ 0x62 ∷ []) }
    ensures units32 { OnOk result (second.new.units ≡ 0x24B62 ∷ 0x62 ∷ []) }
    ensures first_answers { OnOk result (map reply_data first_replies.new.items ≡ Done ∷ Char 0x1F600 ∷ Done ∷ BadPlace ∷ Done ∷ []) }
    ensures second_answers { OnOk result (map reply_data second_replies.new.items ≡ Done ∷ Char 0x1F600 ∷ Done ∷ BadPlace ∷ Done ∷ []) }
    ensures stopped { IfErr result (λ stopped. stopped.done < 5) }
{
    let edits = [
        Edit::Insert(2, 'é'),
        Edit::Remove(1),
        Edit::Truncate(9),
        Edit::Insert(7, 'x'),
        Edit::Replace(0, 2, put),
    ];
    run_both(alloc, first, second, &edits, first_replies, second_replies)
}

/// Makes five edits of `a😀b`, in one text of any kind. The last one replaces two characters by one.
pub fn edit_one<T: TextEdit>(
    alloc: Global,
    text: &mut T,
    put: &str,
    replies: &mut Vec<Reply>,
) -> Result<(), Stopped>
    requires text { T.text text.old ≡ 0x61 ∷ 0x1F600 ∷ 0x62 ∷ [] }
    requires put { str_chars put.now ≡ 0x24B62 ∷ [] }
    requires replies { replies.old.items ≡ [] }
    ensures text { OnOk result (T.text text.new ≡ 0x24B62 ∷ 0x62 ∷ []) }
    ensures answers { OnOk result (map reply_data replies.new.items ≡ Done ∷ Char 0x1F600 ∷ Done ∷ BadPlace ∷ Done ∷ []) }
    ensures stopped { IfErr result (λ stopped. stopped.done < 5) }
{
    let edits = [
        Edit::Insert(2, 'é'),
        Edit::Remove(1),
        Edit::Truncate(9),
        Edit::Insert(7, 'x'),
        Edit::Replace(0, 2, put),
    ];
    run(alloc, text, &edits, replies)
}

/// Makes one edit, and allocates its memory before.
///
/// # Errors
///
/// [`OutOfMemory`] if the allocation fails; the text is unchanged.
pub fn edit_now<T: TextEdit>(
    alloc: Global,
    text: &mut T,
    edit: Edit<'_>,
) -> Result<Reply, OutOfMemory>
    ensures text { OnOk result (T.text text.new ≡ (step (T.text text.old) edit.entry).0) }
    ensures reply { IfOk result (λ reply. reply_data reply ≡ (step (T.text text.old) edit.entry).1) }
    ensures err { OnErr result (T.text text.new ≡ T.text text.old) }
{
    let space = text.prepare(alloc, edit)?;
    Ok(text.apply(edit, space))
}

/// Makes any edits of two texts with the same characters, which have the same characters afterwards.
pub fn edits_keep_alike(
    alloc: Global,
    first: &mut Utf16String,
    second: &mut Utf32String,
    edits: &[Edit<'_>],
    first_replies: &mut Vec<Reply>,
    second_replies: &mut Vec<Reply>,
) -> Result<(), Stopped>
    requires alike { chars Utf16 first.old.units ≡ chars Utf32 second.old.units }
    requires first_replies { first_replies.old.items ≡ [] }
    requires second_replies { second_replies.old.items ≡ [] }
    ensures alike { chars Utf16 first.new.units ≡ chars Utf32 second.new.units }
    ensures answers { map reply_data first_replies.new.items ≡ map reply_data second_replies.new.items }
{
    run_both(alloc, first, second, edits, first_replies, second_replies)
}

/// Returns the text that edits make of a text, in UTF-16.
pub fn edited(alloc: Global, text: &str, edits: &[Edit<'_>]) -> Result<Utf16String, OutOfMemory>
    ensures { IfOk result (λ string. string.units ≡ encode Utf16 (meaning (str_chars text.now) edits.now).0) }
{
    let mut string = Utf16String::from_str(alloc, text)?;
    let mut replies = Vec::new(alloc);
    match run(alloc, &mut string, edits, &mut replies) {
        Ok(()) => Ok(string),
        Err(_stopped) => Err(OutOfMemory),
    }
}

/// Returns the string that edits make of a string, with an offset index meanwhile.
pub fn edited_with_marks(
    alloc: Global,
    string: Utf16String,
    edits: &[Edit<'_>],
) -> Result<Utf16String, OutOfMemory>
    ensures { IfOk result (λ edited. edited.units ≡ encode Utf16 (meaning (chars Utf16 string.units) edits.now).0) }
{
    let mut replies = Vec::new(alloc);
    match Marked16::new(alloc, string) {
        Ok(mut marked) => match run(alloc, &mut marked, edits, &mut replies) {
            Ok(()) => Ok(marked.into_utfstring()),
            Err(_stopped) => Err(OutOfMemory),
        },
        Err(_string) => Err(OutOfMemory),
    }
}

/// Returns the offset at which a character begins after edits. However long the text is, at most 126 units are read to
/// find it.
pub fn find_edited(
    alloc: Global,
    string: Utf16String,
    edits: &[Edit<'_>],
    index: usize,
    steps: &mut Steps,
) -> Result<Option<usize>, OutOfMemory>
    ensures found { IfOk result (λ found. IsSome found ↔ (index ≤ length (meaning (chars Utf16 string.units) edits.now).0)) }
    ensures steps { AddsAtMost steps.old steps.new 126 }
{
    let mut replies = Vec::new(alloc);
    match Marked16::new(alloc, string) {
        Ok(mut marked) => match run(alloc, &mut marked, edits, &mut replies) {
            Ok(()) => Ok(marked.unit_offset(index, steps)),
            Err(_stopped) => Err(OutOfMemory),
        },
        Err(_string) => Err(OutOfMemory),
    }
}

/// Returns the units before a character of a text with an offset index.
pub fn prefix_of<'a>(marked: &'a Marked16, index: usize, steps: &mut Steps) -> Option<&'a [u16]>
    ensures prefix { IfSome result (λ prefix. chars Utf16 prefix.now ≡ take index (marked_text marked.now)) }
    ensures steps { AddsAtMost steps.old steps.new 126 }
{
    let at = marked.unit_offset(index, steps)?;
    Some(marked.as_utfstr().slice(..at).as_slice())
}

/// Makes one edit of a string with an offset index, and returns the entries of the index, which are those of the new
/// text.
///
/// # Errors
///
/// [`OutOfMemory`] if the allocation fails.
pub fn entries_after<'a>(
    alloc: Global,
    marked: &'a mut Marked16,
    edit: Edit<'_>,
) -> Result<&'a [usize], OutOfMemory>
    ensures { IfOk result (λ entries. entries.now ≡ index_entries (step (marked_text marked.old) edit.entry).0) }
{
    let space = marked.prepare(alloc, edit)?;
    marked.apply(edit, space);
    Ok(marked.marks())
}

/// Makes one edit of a string with an offset index, and counts its steps: at most 512, and the units after the last
/// index entry that is not past the edit.
///
/// # Errors
///
/// [`OutOfMemory`] if an allocation fails. The text is unchanged, and no step is counted.
pub fn edit_counted(
    alloc: Global,
    marked: &mut Marked16,
    edit: Edit<'_>,
    steps: &mut Steps,
) -> Result<Reply, OutOfMemory>
    ensures text { OnOk result (marked_text marked.new ≡ (step (marked_text marked.old) edit.entry).0) }
    ensures reply { IfOk result (λ reply. reply_data reply ≡ (step (marked_text marked.old) edit.entry).1) }
    ensures err { OnErr result (marked_text marked.new ≡ marked_text marked.old) }
    ensures err_steps { OnErr result (steps.new ≡ steps.old) }
    ensures steps { OnOk result (AddsAtMost steps.old steps.new (512 + units_after (marked_text marked.old) (marked_text marked.new) edit.entry)) }
{
    let space = marked.prepare(alloc, edit)?;
    Ok(marked.apply_counted(edit, space, steps))
}
