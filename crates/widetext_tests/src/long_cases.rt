//! Tests of long runs of the subcommands `ends` and `edit`, against models that use calls of std.

use crate::driver::{Program, run, whole};
use std::alloc::{AllocError, Global};
use std::fmt::Write;
use widestring_testing::SlowSource;

/// How many items or edits there are, and how many bytes the sink takes at most in a call.
type LongCase = (usize, usize);

// The lines of the last cases are more than 4,096 bytes.
static LONG_CASES: [LongCase; 6] = [
    (61, 4096),
    (62, 1),
    (127, 7),
    (600, usize::MAX),
    (601, 4096),
    (602, 0),
];

// Returns whether a run with these arguments writes these lines into a sink that takes at most this many bytes in a
// call, and no message.
fn writes(alloc: Global, words: &[&str], lines: &str, step: usize) -> Result<bool, AllocError> {
    let source = SlowSource::new(b"a\x00", 4096);
    let sink = whole(alloc, step);
    let ran = run(alloc, Program::Whole, words, source, sink, whole(alloc, 5))?;
    Ok(ran.is(0, lines.as_bytes(), b"") & (ran.source.calls == 0))
}

// Appends the units of an item of a text, and returns the line of that item: a letter, a pair, or half of one.
fn push_item(alloc: Global, units: &mut String, index: usize) -> Result<String, AllocError> {
    if index > 0 {
        units.push(',')?;
    }
    let low = index % 1000;
    match index % 4 {
        0 => {
            write!(units, "{low:x}")?;
            format!(in alloc; "U+{low:04X}\n")
        }
        1 => {
            write!(units, "D83D,{:X}", 0xDC00 + low)?;
            format!(in alloc; "U+{:X}\n", 0x1F400 + low)
        }
        2 => {
            write!(units, "{:x}", 0xDC00 + low)?;
            format!(in alloc; "fault {:x}\n", 0xDC00 + low)
        }
        _ => {
            write!(units, "D8{:02X}", low % 256)?;
            format!(in alloc; "fault d8{:02x}\n", low % 256)
        }
    }
}

// Appends the letters of calls, two at the front after each one at the back, and the lines of their results. The last
// calls find nothing left.
fn push_calls(calls: &mut String, lines: &mut String, items: &[String]) -> Result<(), AllocError> {
    let mut left = items;
    for call in 0..items.len().saturating_add(9) {
        let at_back = call % 3 == 0;
        calls.push(if at_back { 'B' } else { 'F' })?;
        let answered = if at_back {
            left.split_last()
        } else {
            left.split_first()
        };
        match answered {
            Some((line, others)) => {
                lines.push_str(line.as_str())?;
                left = others;
            }
            None => lines.push_str("none\n")?,
        }
    }
    Ok(())
}

// Returns whether `ends` of this many items writes the lines of the model.
fn ends_hold(alloc: Global, count: usize, step: usize) -> Result<bool, AllocError> {
    let mut units = String::new(alloc);
    let mut items = Vec::new(alloc);
    for index in 0..count {
        items.push(push_item(alloc, &mut units, index)?)?;
    }
    let mut calls = String::new(alloc);
    let mut lines = String::new(alloc);
    push_calls(&mut calls, &mut lines, &items)?;
    writes(
        alloc,
        &["ends", units.as_str(), calls.as_str()],
        lines.as_str(),
        step,
    )
}

// Returns the index of the first case that fails.
fn first_wrong_ends(alloc: Global) -> Option<usize> {
    for index in 0..LONG_CASES.len() {
        let (count, step) = LONG_CASES[index];
        if ends_hold(alloc, count, step) != Ok(true) {
            return Some(index);
        }
    }
    None
}

#[test]
fn long_ends(rt: HostRuntime) {
    assert_eq!(rt; first_wrong_ends(rt.alloc()), None);
}

// Makes edit number `index` of a list, returns its argument, and appends its line.
fn push_edit(
    alloc: Global,
    index: usize,
    text: &mut Vec<char>,
    lines: &mut String,
) -> Result<String, AllocError> {
    let (word, line) = match index % 6 {
        0 => {
            text.push('x')?;
            ("push=x", "done\n")
        }
        1 => {
            text.insert(0, '\u{1f600}')?;
            ("insert=0,\u{1f600}", "done\n")
        }
        2 => match text.pop() {
            Some('x') => ("pop", "char x\n"),
            Some(_) => ("pop", "char \\u{e9}\n"),
            None => ("pop", "nochar\n"),
        },
        3 => {
            text.extend_from_slice(&['\n', '\u{e9}'])?;
            ("pushstr=\n\u{e9}", "done\n")
        }
        4 => ("drain=1,0", "badrange\n"),
        _ => {
            text.truncate(90);
            ("truncate=90", "done\n")
        }
    };
    lines.push_str(line)?;
    String::from_str(alloc, word)
}

// Appends the lines of a text.
fn push_text(alloc: Global, lines: &mut String, text: &[char]) -> Result<(), AllocError> {
    let mut string = String::new(alloc);
    lines.push_str("text ")?;
    for c in text {
        string.push(*c)?;
        write!(lines, "{}", c.escape_default())?;
    }
    lines.push_str("\nutf16")?;
    for unit in string.encode_utf16() {
        write!(lines, " {unit:04X}")?;
    }
    lines.push_str("\nutf32")?;
    for c in text {
        write!(lines, " {:08X}", u32::from(*c))?;
    }
    lines.push('\n')
}

// Returns whether `edit` of this many edits writes the lines of the model.
fn edits_hold(alloc: Global, count: usize, step: usize) -> Result<bool, AllocError> {
    let mut text = Vec::new(alloc);
    let mut lines = String::new(alloc);
    let mut edits = Vec::new(alloc);
    for index in 0..count {
        edits.push(push_edit(alloc, index, &mut text, &mut lines)?)?;
    }
    push_text(alloc, &mut lines, &text)?;
    let mut words = Vec::new(alloc);
    words.push("edit")?;
    words.push("")?;
    for edit in &edits {
        words.push(edit.as_str())?;
    }
    writes(alloc, &words, lines.as_str(), step)
}

// Returns the index of the first case that fails.
fn first_wrong_edits(alloc: Global) -> Option<usize> {
    for index in 0..LONG_CASES.len() {
        let (count, step) = LONG_CASES[index];
        if edits_hold(alloc, count, step) != Ok(true) {
            return Some(index);
        }
    }
    None
}

#[test]
fn long_edits(rt: HostRuntime) {
    assert_eq!(rt; first_wrong_edits(rt.alloc()), None);
}
