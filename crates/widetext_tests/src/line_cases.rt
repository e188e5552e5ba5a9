//! Tests of the subcommands `ends` and `edit`, which make all lines before they write any, and of usage errors: which
//! devices are called. The cases of the programs, `cases.jsonl`, have the output of these subcommands.

use crate::driver::{Program, run, whole};
use std::alloc::{AllocError, Global};
use widestring_testing::{SlowSink, SlowSource};

const USAGE_LINE: &[u8] =
    b"usage: widetext utf8 [--lossy[=each|run|skip]] | ends UNITS CALLS | edit TEXT EDIT..\n";

// Returns whether arguments are a usage error, and no device is called.
fn are_wrong(alloc: Global, program: Program, words: &[&str]) -> Result<bool, AllocError> {
    let source = SlowSource::new(b"a\x00", 4096);
    let sink = whole(alloc, 4096);
    let said = whole(alloc, 4096);
    let ran = run(alloc, program, words, source, sink, said)?;
    let is_asked = ran.source.calls > 0 || ran.sink.calls > 0;
    Ok(ran.is(2, b"", USAGE_LINE) && !is_asked)
}

#[test]
fn wrong_words(rt: HostRuntime) {
    let alloc = rt.alloc();
    let cases = [
        are_wrong(alloc, Program::Whole, &[]) == Ok(true),
        are_wrong(alloc, Program::Whole, &["utf8", "--lossy=runs"]) == Ok(true),
        are_wrong(
            alloc,
            Program::Whole,
            &["edit", "a", "clear", "pop", "drain=0,x"],
        ) == Ok(true),
        are_wrong(alloc, Program::Whole, &["ends", "0041,,42", "F"]) == Ok(true),
        are_wrong(alloc, Program::Utf8Alone, &[]) == Ok(true),
        are_wrong(alloc, Program::Utf8Alone, &["utf8", "--lossy=runs"]) == Ok(true),
        are_wrong(alloc, Program::Utf8Alone, &["edit", "a"]) == Ok(true),
        are_wrong(alloc, Program::Utf8Alone, &["ends", "-", "F"]) == Ok(true),
    ];
    assert!(rt; cases == [true; 8], "{cases:?}");
}

// Tests the escapes of `char::escape_default`, since the arguments of a case in `cases.jsonl` have no line ends.
fn are_escaped(alloc: Global) -> Result<bool, AllocError> {
    let words = ["edit", "\t\n\"\\", "pop", "push='", "drain=0,2"];
    let lines =
        "char \\\\\ndone\nchars \\t\\n\ntext \\\"\\'\nutf16 0022 0027\nutf32 00000022 00000027\n";
    let source = SlowSource::new(b"a\x00", 4096);
    let sink = whole(alloc, 5);
    let ran = run(alloc, Program::Whole, &words, source, sink, whole(alloc, 5))?;
    Ok(ran.is(0, lines.as_bytes(), b"") && ran.source.calls == 0)
}

#[test]
fn escapes(rt: HostRuntime) {
    assert_eq!(rt; are_escaped(rt.alloc()), Ok(true));
}

// Returns whether `ends` fails with a sink that fails once it has this many bytes.
fn ends_failed(alloc: Global, capacity: usize) -> Result<bool, AllocError> {
    let words = ["ends", "D83D,DE00", "BF"];
    let source = SlowSource::new(b"", 4096);
    let sink = SlowSink::new(alloc, 1, Some(capacity), false);
    let ran = run(alloc, Program::Whole, &words, source, sink, whole(alloc, 9))?;
    Ok(ran.has_failed(b"write fault\n", b"U+1F600\nnone\n") & (ran.sink.bytes.len() == capacity))
}

// Returns the first number of bytes with which it does not fail.
fn first_not_failed(alloc: Global) -> Option<usize> {
    for capacity in 0..8 {
        if ends_failed(alloc, capacity) != Ok(true) {
            return Some(capacity);
        }
    }
    None
}

#[test]
fn ends_into_a_failing_sink(rt: HostRuntime) {
    assert_eq!(rt; first_not_failed(rt.alloc()), None);
}
