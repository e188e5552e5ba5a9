//! Tests of messages: a message is written in one call, and if that fails, status and output are the same.

use crate::driver::{Program, run, whole};
use std::alloc::{AllocError, Global};
use std::io;
use std::io::Write;
use std::test::Fail;
use widestring_testing::{SlowSink, SlowSource};
use widetext_base::{FAILED, SUCCESS, WRONG_USAGE, finish};

// A failing run: its arguments, its input, how much of its output is taken, its status and its message.
struct FailedRun {
    words: &'static [&'static str],
    input: &'static [u8],
    space: Option<usize>,
    status: u8,
    said: &'static [u8],
}

static FAILED_RUNS: [FailedRun; 5] = [
    FailedRun {
        words: &["utf8"],
        input: b"a\x00\x00\xd8",
        space: None,
        status: 1,
        said: b"unpaired UTF-16 surrogate d800 at index 1 (item 1)\n",
    },
    FailedRun {
        words: &["utf8"],
        input: b"a\x00",
        space: Some(0),
        status: 1,
        said: b"write fault\n",
    },
    FailedRun {
        words: &["ends", "D83D,DE00", "BF"],
        input: b"",
        space: Some(0),
        status: 1,
        said: b"write fault\n",
    },
    FailedRun {
        words: &["edit", "a", "push=b"],
        input: b"",
        space: Some(0),
        status: 1,
        said: b"write fault\n",
    },
    FailedRun {
        words: &["edit", "a", "push=xy"],
        input: b"",
        space: None,
        status: 2,
        said: b"usage: widetext utf8 [--lossy[=each|run|skip]] | ends UNITS CALLS | edit TEXT EDIT..\n",
    },
];

// Returns whether the message is written in one call if that takes all of it, and whether there is no second call if
// the first one fails, with the same status and output.
fn is_said_once(alloc: Global, program: Program, case: &FailedRun) -> Result<bool, AllocError> {
    let sink = SlowSink::new(alloc, 4096, case.space, false);
    let source = SlowSource::new(case.input, 4096);
    let reported = run(alloc, program, case.words, source, sink, whole(alloc, 4096))?;
    let mut well = reported.status == case.status;
    well &= reported.said.calls == 1;
    well &= reported.said.bytes.as_slice() == case.said;
    let sink = SlowSink::new(alloc, 4096, case.space, false);
    let source = SlowSource::new(case.input, 4096);
    let deaf = SlowSink::new(alloc, 4096, Some(0), false);
    let lost = run(alloc, program, case.words, source, sink, deaf)?;
    well &= lost.status == case.status;
    well &= lost.said.calls == 1;
    well &= lost.sink.bytes == reported.sink.bytes;
    Ok(well)
}

// Returns the index of the first case that fails.
fn first_wrong(
    alloc: Global,
    program: Program,
    cases: &[FailedRun],
) -> Result<Option<usize>, AllocError> {
    for (number, case) in cases.iter().enumerate() {
        if !is_said_once(alloc, program, case)? {
            return Ok(Some(number));
        }
    }
    Ok(None)
}

#[test]
fn faults_are_put_once(rt: HostRuntime) -> Result<(), Fail> {
    assert_eq!(rt;
        first_wrong(rt.alloc(), Program::Whole, &FAILED_RUNS)?,
        None
    );
    assert_eq!(rt;
        first_wrong(rt.alloc(), Program::Utf8Alone, &FAILED_RUNS[..2])?,
        None
    );
    Ok(())
}

// An output whose flush may fail.
#[derive(Drop)]
struct Output {
    fails: bool,
}

impl Write for Output {
    fn write(&mut self, bytes: &[u8]) -> io::Result<usize> {
        Ok(bytes.len())
    }

    fn flush(&mut self) -> io::Result<()> {
        if self.fails {
            return Err(io::Error::other("a fault"));
        }
        Ok(())
    }
}

// Returns whether a run that returns `status` ends with the status `last`, and writes the lines `said` in one call.
fn ends_with(alloc: Global, fails: bool, status: u8, last: u8, said: &[u8]) -> bool {
    let mut faults = whole(alloc, 4096);
    let mut well = finish(&mut Output { fails }, &mut faults, status) == last;
    well &= faults.calls == usize::from(!said.is_empty());
    well &= faults.bytes.as_slice() == said;
    well
}

#[test]
fn last_flushes(rt: HostRuntime) -> Result<(), Fail> {
    let alloc = rt.alloc();
    let mut well = ends_with(alloc, false, SUCCESS, SUCCESS, b"");
    well &= ends_with(alloc, true, SUCCESS, FAILED, b"write fault\n");
    well &= ends_with(alloc, true, FAILED, FAILED, b"");
    well &= ends_with(alloc, true, WRONG_USAGE, WRONG_USAGE, b"");
    assert!(rt; well);
    Ok(())
}
