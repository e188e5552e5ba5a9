//! Tests of the subcommand `utf8`, by both programs.

use crate::driver::{Program, command, run, strings, whole};
use std::alloc::{AllocError, Global};
use wide_bytes::{FromRead, FromWrite};
use widestring_testing::{SlowSink, SlowSource};

const UTF8: &[&str] = &["utf8"];

const LOSSY: &[&str] = &["utf8", "--lossy"];

const EACH: &[&str] = &["utf8", "--lossy=each"];

const RUN: &[&str] = &["utf8", "--lossy=run"];

const SKIP: &[&str] = &["utf8", "--lossy=skip"];

/// Arguments, input, text, line on the fault stream, status.
type Row = (
    &'static [&'static str],
    &'static [u8],
    &'static [u8],
    &'static str,
    u8,
);

const NONE: &str = "";

const ODD: &str = "file not encoded as UTF-16\n";

static ROWS: [Row; 27] = [
    (
        UTF8,
        b"\xff\xfe\x3d\xd8\x00\xde\x41\x00",
        b"\xf0\x9f\x98\x80\x41",
        NONE,
        0,
    ),
    (UTF8, b"", b"", NONE, 0),
    (UTF8, b"\xff\xfe\x00\x00", b"", NONE, 0),
    (UTF8, b"\xfe\xff\x00\x61\x00\x00", b"a", NONE, 0),
    (UTF8, b"\x61\x00\x62", b"a", ODD, 1),
    (UTF8, b"\xff\xfe\xff\xfe", b"\xef\xbb\xbf", NONE, 0),
    (UTF8, b"\x00\x00\x00\x00", b"\x00", NONE, 0),
    (UTF8, b"\x61\x00\x00\x00\x62", b"\x61\x00", ODD, 1),
    (
        UTF8,
        b"\x3d\xd8\x00",
        b"",
        "unpaired UTF-16 surrogate d83d at index 0 (item 0)\n",
        1,
    ),
    (UTF8, b"\x41", b"", ODD, 1),
    (
        UTF8,
        b"\x00\xd8\x41\x00",
        b"",
        "unpaired UTF-16 surrogate d800 at index 0 (item 0)\n",
        1,
    ),
    // The index counts units after the BOM, two for the pair, and the item number counts characters.
    (
        UTF8,
        b"\xfe\xff\xd8\x3d\xde\x00\x00\x41\xdc\x00",
        b"\xf0\x9f\x98\x80\x41",
        "unpaired UTF-16 surrogate dc00 at index 3 (item 2)\n",
        1,
    ),
    (
        UTF8,
        b"\xff\xfe\x3d\xd8\x00\xde\x00\xdc",
        b"\xf0\x9f\x98\x80",
        "unpaired UTF-16 surrogate dc00 at index 2 (item 1)\n",
        1,
    ),
    (
        LOSSY,
        b"\xff\xfe\x3d\xd8\x00\xde\x41\x00",
        b"\xf0\x9f\x98\x80\x41",
        NONE,
        0,
    ),
    (LOSSY, b"\x00\xd8\x41\x00", b"\xef\xbf\xbd\x41", NONE, 0),
    (LOSSY, b"\x3d\xd8\x00", b"\xef\xbf\xbd", ODD, 1),
    (LOSSY, b"\x61\x00\x62", b"a", ODD, 1),
    // One for each fault, also for adjacent faults.
    (
        LOSSY,
        b"\x00\xdc\x00\xd8\x00\xd8",
        b"\xef\xbf\xbd\xef\xbf\xbd\xef\xbf\xbd",
        NONE,
        0,
    ),
    (
        LOSSY,
        b"\xfe\xff\xd8\x3d\xde\x00\xdc\x00\x00\x00",
        b"\xf0\x9f\x98\x80\xef\xbf\xbd",
        NONE,
        0,
    ),
    (LOSSY, b"\xff\xfe", b"", NONE, 0),
    (
        LOSSY,
        b"\xfd\xff\x00\xd8",
        b"\xef\xbf\xbd\xef\xbf\xbd",
        NONE,
        0,
    ),
    // A run of faults under each policy.
    (
        LOSSY,
        CASE_AND_LETTER,
        b"\xef\xbf\xbd\xef\xbf\xbd\x41",
        NONE,
        0,
    ),
    (
        EACH,
        CASE_AND_LETTER,
        b"\xef\xbf\xbd\xef\xbf\xbd\x41",
        NONE,
        0,
    ),
    (RUN, CASE_AND_LETTER, b"\xef\xbf\xbd\x41", NONE, 0),
    (SKIP, CASE_AND_LETTER, b"\x41", NONE, 0),
    // U+FFFD in the input is not a fault, and the last surrogate and half a unit follow a fault.
    (
        RUN,
        b"\x00\xdc\xfd\xff\x00\xd8\x00\xd8\x41",
        b"\xef\xbf\xbd\xef\xbf\xbd\xef\xbf\xbd",
        ODD,
        1,
    ),
    (
        SKIP,
        b"\x00\xdc\xfd\xff\x00\xd8\x00\xd8\x41",
        b"\xef\xbf\xbd",
        ODD,
        1,
    ),
];

const CASE_AND_LETTER: &[u8] = b"\x00\xd8\x00\xd8\x41\x00";

// Returns whether a case holds over std's devices in memory.
fn holds_whole(alloc: Global, program: Program, case: Row) -> Result<bool, AllocError> {
    let (words, input, text, fault, status) = case;
    let words = strings(alloc, words)?;
    let mut source = FromRead::new(input);
    let mut sink = FromWrite::new(Vec::new(alloc));
    let mut said = FromWrite::new(Vec::new(alloc));
    let ended = command(alloc, program, &words, &mut source, &mut sink, &mut said);
    let mut well = ended == status;
    well &= sink.into_inner().as_slice() == text;
    well &= said.into_inner().as_slice() == fault.as_bytes();
    Ok(well)
}

// Returns whether a case holds over devices that move this many bytes in a call.
fn holds_by_steps(
    alloc: Global,
    program: Program,
    case: Row,
    step: usize,
) -> Result<bool, AllocError> {
    let (words, input, text, fault, status) = case;
    let sink = whole(alloc, step);
    let said = whole(alloc, step);
    let ran = run(
        alloc,
        program,
        words,
        SlowSource::new(input, step),
        sink,
        said,
    )?;
    Ok(ran.is(status, text, fault.as_bytes()))
}

// Returns whether a case holds over devices of several steps.
fn holds_by_each_step(alloc: Global, program: Program, case: Row) -> Result<bool, AllocError> {
    let mut well = true;
    for step in [1, 2, 3, 4096] {
        well &= holds_by_steps(alloc, program, case, step)?;
    }
    Ok(well)
}

// Returns how many calls a case makes of a source that gives one byte in a call.
fn takes_of(alloc: Global, program: Program, case: Row) -> Result<usize, AllocError> {
    let (words, input, ..) = case;
    let ran = run(
        alloc,
        program,
        words,
        SlowSource::new(input, 1),
        whole(alloc, 1),
        whole(alloc, 9),
    )?;
    Ok(ran.source.calls)
}

// Returns whether a source that fails at this call ends the run, and is not called again.
fn ends_at_source(
    alloc: Global,
    program: Program,
    case: Row,
    fails_at: usize,
) -> Result<bool, AllocError> {
    let (words, input, text, _, _) = case;
    let source = SlowSource::failing_at(input, 1, fails_at);
    let ran = run(
        alloc,
        program,
        words,
        source,
        whole(alloc, 1),
        whole(alloc, 9),
    )?;
    Ok(ran.has_failed(b"read fault\n", text) & (ran.source.calls == fails_at))
}

// Returns whether the run ends at each failing call of the source. There is one call for each byte and one that reports
// the end, but none after the bytes that make a fault certain.
fn ends_at_each_take(alloc: Global, program: Program, case: Row) -> Result<bool, AllocError> {
    let takes = takes_of(alloc, program, case)?;
    let all = case.1.len().saturating_add(1);
    let mut well = takes == all || takes < all && case.3.starts_with("unpaired");
    for before in 0..takes {
        well &= ends_at_source(alloc, program, case, before.saturating_add(1))?;
    }
    Ok(well)
}

// Returns whether a sink that fails once it has this many bytes ends the run, and is not called again.
fn ends_at_sink(
    alloc: Global,
    program: Program,
    case: Row,
    written: usize,
    takes_none: bool,
) -> Result<bool, AllocError> {
    let (words, input, text, _, _) = case;
    let sink = SlowSink::new(alloc, 1, Some(written), takes_none);
    let source = SlowSource::new(input, 4096);
    let ran = run(alloc, program, words, source, sink, whole(alloc, 9))?;
    let mut well = ran.has_failed(b"write fault\n", text);
    well &= ran.sink.bytes.len() == written;
    well &= ran.sink.calls == written.saturating_add(1);
    Ok(well)
}

// Returns whether the run ends at each byte of the text at which the sink fails, by an error and by taking none.
fn ends_at_each_put(alloc: Global, program: Program, case: Row) -> Result<bool, AllocError> {
    let (_, _, text, _, _) = case;
    let mut well = true;
    for written in 0..text.len() {
        well &= ends_at_sink(alloc, program, case, written, false)?;
        well &= ends_at_sink(alloc, program, case, written, true)?;
    }
    Ok(well)
}

// Returns whether a failing fault stream changes neither the text nor the status.
fn holds_without_fault_stream(
    alloc: Global,
    program: Program,
    case: Row,
) -> Result<bool, AllocError> {
    let (words, input, text, _, status) = case;
    let said = SlowSink::new(alloc, 1, Some(2), false);
    let source = SlowSource::new(input, 4096);
    let ran = run(alloc, program, words, source, whole(alloc, 4096), said)?;
    Ok((ran.status == status) & (ran.sink.bytes.as_slice() == text))
}

// How a case is run.
#[derive(Clone, Copy, Drop)]
enum Way {
    Whole,
    SlowSink,
    FailingSource,
    FailingSink,
    FailingFaultStream,
}

fn holds(alloc: Global, way: Way, program: Program, case: Row) -> Result<bool, AllocError> {
    match way {
        Way::Whole => holds_whole(alloc, program, case),
        Way::SlowSink => holds_by_each_step(alloc, program, case),
        Way::FailingSource => ends_at_each_take(alloc, program, case),
        Way::FailingSink => ends_at_each_put(alloc, program, case),
        Way::FailingFaultStream => holds_without_fault_stream(alloc, program, case),
    }
}

// Returns the index of the first case that fails if the program runs it this way.
fn first_wrong(alloc: Global, way: Way, program: Program) -> Option<usize> {
    for index in 0..ROWS.len() {
        if holds(alloc, way, program, ROWS[index]) != Ok(true) {
            return Some(index);
        }
    }
    None
}

// Returns the index of the first case that fails if both programs run it this way.
fn first_wrong_of_both(alloc: Global, way: Way) -> Option<usize> {
    let of_whole = first_wrong(alloc, way, Program::Whole);
    of_whole.or(first_wrong(alloc, way, Program::Utf8Alone))
}

#[test]
fn cases(rt: HostRuntime) {
    assert_eq!(rt; first_wrong_of_both(rt.alloc(), Way::Whole), None);
}

#[test]
fn slow_devices(rt: HostRuntime) {
    assert_eq!(rt; first_wrong_of_both(rt.alloc(), Way::SlowSink), None);
}

#[test]
fn failing_source(rt: HostRuntime) {
    let wrong = first_wrong_of_both(rt.alloc(), Way::FailingSource);
    assert_eq!(rt; wrong, None);
}

#[test]
fn failing_sink(rt: HostRuntime) {
    assert_eq!(rt; first_wrong_of_both(rt.alloc(), Way::FailingSink), None);
}

#[test]
fn failing_fault_stream(rt: HostRuntime) {
    let wrong = first_wrong_of_both(rt.alloc(), Way::FailingFaultStream);
    assert_eq!(rt; wrong, None);
}
