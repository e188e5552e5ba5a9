//! Tests of runs with a failing allocation; the test runner makes each allocation fail in turn. The only message must
//! be that memory ran out.

use crate::driver::{Program, run};
use std::alloc::{AllocError, Global};
use std::test::Fail;
use widestring_testing::{SlowSink, SlowSource};

// Returns whether all of the text is written, or memory ran out, with its message and no output.
fn is_whole_or_failed(
    alloc: Global,
    program: Program,
    words: &[&str],
    input: &[u8],
    text: &[u8],
) -> Result<bool, AllocError> {
    let mut sink = SlowSink::new(alloc, 4096, None, false);
    sink.bytes = Vec::with_capacity(alloc, 64)?;
    let mut said = SlowSink::new(alloc, 4096, None, false);
    said.bytes = Vec::with_capacity(alloc, 64)?;
    let ran = run(alloc, program, words, SlowSource::new(input, 3), sink, said)?;
    Ok(ran.is(0, text, b"") | ran.is(1, b"", b"out of memory\n"))
}

#[test]
fn failed_allocations(rt: HostRuntime) -> Result<(), Fail> {
    let input = b"\x3d\xd8\x00\xde";
    let text = b"\xf0\x9f\x98\x80";
    let mut well = is_whole_or_failed(rt.alloc(), Program::Whole, &["utf8"], input, text)?;
    well &= is_whole_or_failed(rt.alloc(), Program::Utf8Alone, &["utf8"], input, text)?;
    assert!(rt; well);
    Ok(())
}

#[test]
fn failed_allocations_of_ends(rt: HostRuntime) -> Result<(), Fail> {
    let words = ["ends", "D83D,DE00", "BF"];
    let lines = b"U+1F600\nnone\n";
    assert!(rt; is_whole_or_failed(rt.alloc(), Program::Whole, &words, b"", lines)?);
    Ok(())
}

#[test]
fn failed_allocations_of_edits(rt: HostRuntime) -> Result<(), Fail> {
    let words = ["edit", "a", "push=b", "splitoff=0"];
    let lines = b"done\nchars ab\ntext \nutf16\nutf32\n";
    assert!(rt; is_whole_or_failed(rt.alloc(), Program::Whole, &words, b"", lines)?);
    Ok(())
}
