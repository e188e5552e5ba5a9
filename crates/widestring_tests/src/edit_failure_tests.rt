//! Tests of edits of one string and of two that an allocation failure stops.
use crate::edit_script_tests::{hold, hold_marked};
use crate::plain::edit_list;
use std::alloc::Global;
use widestring::edit::{Edit, Marked16, Reply, Stopped, TextEdit, run, run_both};
use widestring::{Utf16String, Utf32String};

// Long enough for an entry of the offset index.
const TEXT: &str =
    "a\u{1f600}b0123456789012345678901234567890123456789012345678901234567890123456789";

const EDITS: [Edit<'static>; 8] = [
    Edit::Insert(2, '\u{e9}'),
    Edit::Remove(1),
    Edit::Truncate(99),
    Edit::Insert(77, 'x'),
    Edit::Replace(0, 2, "\u{24b62}"),
    Edit::PushStr("\u{1f600}cd\u{1f600}"),
    Edit::Drain(1, 3),
    Edit::SplitOff(1),
];

// Makes the first `done` edits of the text as a list, and appends their replies. Returns `None` if an allocation fails:
// a run fails at one allocation, and that was not one of the edits.
fn edit_plain(
    alloc: Global,
    list: &mut Vec<char>,
    replies: &mut Vec<Reply>,
    done: usize,
) -> Option<()> {
    list.extend(TEXT.chars()).ok()?;
    for edit in EDITS.iter().take(done) {
        replies.push(edit_list(alloc, list, *edit).ok()?).ok()?;
    }
    Some(())
}

// Returns whether the replies of two texts to the first `done` edits are those of the list, which is then edited.
// Returns `None` if the list's allocation fails.
fn plain(
    alloc: Global,
    list: &mut Vec<char>,
    done: usize,
    replies: &[Reply],
    same_replies: &[Reply],
) -> Option<bool> {
    let mut wanted = Vec::new(alloc);
    match edit_plain(alloc, list, &mut wanted, done) {
        Some(()) => Some((replies == wanted.as_slice()) & (same_replies == wanted.as_slice())),
        None => None,
    }
}

// Returns a string of the text with an offset index. If the allocation of the index fails, the string must be returned
// unchanged; the error is false if it was not.
fn marked(alloc: Global) -> Result<Marked16, bool> {
    let Ok(string) = Utf16String::from_str(alloc, TEXT) else {
        return Err(true);
    };
    match Marked16::new(alloc, string) {
        Ok(marked) => Ok(marked),
        Err(string) => Err(string.as_utfstr().eq_str(TEXT)),
    }
}

// Edits both strings in lockstep until an allocation fails. Returns whether they hold what the plain list does.
fn stop_alike(alloc: Global, first: &mut Marked16, second: &mut Utf32String) -> bool {
    let (mut replies, mut same) = (Vec::new(alloc), Vec::new(alloc));
    let mut list = Vec::new(alloc);
    let done = match run_both(alloc, first, second, &EDITS, &mut replies, &mut same) {
        Ok(()) => EDITS.len(),
        Err(Stopped { done }) => done,
    };
    match plain(alloc, &mut list, done, &replies, &same) {
        Some(well) => well & hold_marked(list.as_slice(), first, second),
        None => true,
    }
}

// Returns whether a string with an offset index and one in UTF-32, edited in lockstep until an allocation fails, hold
// what the plain list does. If the strings themselves can't be allocated, there are no edits.
fn stops_alike(alloc: Global) -> bool {
    match (marked(alloc), Utf32String::from_str(alloc, TEXT)) {
        (Ok(mut first), Ok(mut second)) => stop_alike(alloc, &mut first, &mut second),
        (Ok(_), Err(_)) => true,
        (Err(is_right), _) => is_right,
    }
}

// Edits one string until an allocation fails, and makes as many edits of a string in UTF-32 and of the plain list.
// Returns whether their replies are those of the list. Returns `None` if the others can't be allocated.
fn run_one<T: TextEdit>(
    alloc: Global,
    first: &mut T,
    second: &mut Utf32String,
    list: &mut Vec<char>,
) -> Option<bool> {
    let (mut replies, mut same) = (Vec::new(alloc), Vec::new(alloc));
    let done = match run(alloc, first, &EDITS, &mut replies) {
        Ok(()) => EDITS.len(),
        Err(Stopped { done }) => done,
    };
    match run(alloc, second, &EDITS[..done], &mut same) {
        Ok(()) => plain(alloc, list, done, &replies, &same),
        Err(_) => None,
    }
}

// Returns whether a string without an offset index holds what the plain list does.
fn stops(alloc: Global) -> bool {
    let mut list = Vec::new(alloc);
    match (
        Utf16String::from_str(alloc, TEXT),
        Utf32String::from_str(alloc, TEXT),
    ) {
        (Ok(mut first), Ok(mut second)) => {
            match run_one(alloc, &mut first, &mut second, &mut list) {
                Some(well) => well & hold(list.as_slice(), &first, &second),
                None => true,
            }
        }
        _ => true,
    }
}

// Returns whether a single string with an offset index holds what the plain list does, and has the right index.
fn stops_marked(alloc: Global) -> bool {
    let mut list = Vec::new(alloc);
    match (marked(alloc), Utf32String::from_str(alloc, TEXT)) {
        (Ok(mut first), Ok(mut second)) => {
            match run_one(alloc, &mut first, &mut second, &mut list) {
                Some(well) => well & hold_marked(list.as_slice(), &first, &second),
                None => true,
            }
        }
        (Ok(_), Err(_)) => true,
        (Err(is_right), _) => is_right,
    }
}

// Returns whether the plain list replies so to an edit, or an allocation of it fails.
fn replies_so(alloc: Global, edit: Edit<'_>, reply: &Reply) -> bool {
    let mut list = Vec::new(alloc);
    if list.extend(TEXT.chars()).is_err() {
        return true;
    }
    match edit_list(alloc, &mut list, edit) {
        Ok(wanted) => *reply == wanted,
        Err(_) => true,
    }
}

// Returns whether an edit that fails to allocate leaves the text and the offset index unchanged, and one that succeeds
// has the same reply as for the plain list.
fn is_prepared_for(alloc: Global, text: &mut Marked16, edit: Edit<'_>) -> bool {
    match text.prepare(alloc, edit) {
        Ok(space) => replies_so(alloc, edit, &text.apply(edit, space)),
        Err(_) => text.as_utfstr().eq_str(TEXT) & (text.marks() == [65].as_slice()),
    }
}

// Returns whether an edit of a new string that fails to allocate changes nothing, and one that succeeds has the reply
// of the plain list. If the string can't be allocated, there is no edit.
fn is_prepared(alloc: Global, edit: Edit<'_>) -> bool {
    match marked(alloc) {
        Ok(mut text) => is_prepared_for(alloc, &mut text, edit),
        Err(is_right) => is_right,
    }
}

#[test]
fn runs_stopped(rt: HostRuntime) {
    assert!(rt; stops(rt.alloc()) & stops_marked(rt.alloc()) & stops_alike(rt.alloc()));
}

#[test]
fn edits_prepared(rt: HostRuntime) {
    let mut well = true;
    for edit in EDITS {
        well &= is_prepared(rt.alloc(), edit);
    }
    assert!(rt; well);
}
