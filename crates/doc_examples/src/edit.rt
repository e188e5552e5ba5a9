//! The examples of `widestring::edit`.
use crate::holds;
use std::test::Fail;
use widestring::Utf16String;
use widestring::edit::{Edit, Marked16, Reply, Steps, Stopped, TextEdit, run};
use widestring::error::OutOfMemory;

fn example_of_edit(rt: &HostRuntime) -> Result<bool, Fail> {
    let mut text = Utf16String::from_str(rt.alloc(), "a😀b")?;
    let edits = [Edit::Remove(1), Edit::Insert(1, 'é'), Edit::PushStr("!")];
    run(rt.alloc(), &mut text, &edits, &mut Vec::new(rt.alloc()))?;
    Ok(text.as_utfstr().eq_str("aéb!"))
}

fn example_of_reply(rt: &HostRuntime) -> Result<bool, Fail> {
    let mut text = Utf16String::from_str(rt.alloc(), "a😀")?;
    let edits = [Edit::Remove(1), Edit::Remove(7)];
    let mut replies = Vec::new(rt.alloc());
    run(rt.alloc(), &mut text, &edits, &mut replies)?;
    Ok(replies.as_slice() == [Reply::Char('😀'), Reply::BadPlace].as_slice())
}

fn example_of_stopped(rt: &HostRuntime) -> Result<bool, Fail> {
    let mut text = Utf16String::from_str(rt.alloc(), "Hi")?;
    let edits = [Edit::Push('!'), Edit::PushStr("😀")];
    let done = match run(rt.alloc(), &mut text, &edits, &mut Vec::new(rt.alloc())) {
        Ok(()) => edits.len(),
        Err(Stopped { done }) => done,
    };
    Ok(done == 2)
}

fn example_of_textedit(rt: &HostRuntime) -> Result<bool, Fail> {
    let mut text = Utf16String::from_str(rt.alloc(), "Hi")?;
    let edit = Edit::Push('😀');
    let space = text.prepare(rt.alloc(), edit)?;
    let mut holds = text.apply(edit, space) == Reply::Done;
    holds &= (text.char_count(), text.unit_count()) == (3, 4);
    Ok(holds)
}

fn example_of_marked16(rt: &HostRuntime) -> Result<bool, Fail> {
    let text = Utf16String::from_str(rt.alloc(), "a😀b")?;
    let Ok(mut marked) = Marked16::new(rt.alloc(), text) else {
        return Err(OutOfMemory.into());
    };
    let mut replies = Vec::new(rt.alloc());
    run(rt.alloc(), &mut marked, &[Edit::Remove(1)], &mut replies)?;
    Ok(marked.as_utfstr().eq_str("ab"))
}

fn example_of_steps(rt: &HostRuntime) -> Result<bool, Fail> {
    let text = Utf16String::from_str(rt.alloc(), "a😀b")?;
    let Ok(marked) = Marked16::new(rt.alloc(), text) else {
        return Err(OutOfMemory.into());
    };
    let mut steps = Steps::new();
    Ok(marked.unit_offset(2, &mut steps) == Some(3))
}

// Returns whether the examples of this module hold.
pub(crate) fn hold(rt: &HostRuntime) -> bool {
    let mut all = holds(rt, "Edit", example_of_edit(rt));
    all &= holds(rt, "Reply", example_of_reply(rt));
    all &= holds(rt, "Stopped", example_of_stopped(rt));
    all &= holds(rt, "TextEdit", example_of_textedit(rt));
    all &= holds(rt, "Marked16", example_of_marked16(rt));
    all &= holds(rt, "Steps", example_of_steps(rt));
    all
}
