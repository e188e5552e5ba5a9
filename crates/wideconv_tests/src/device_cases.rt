//! Tests of runs between devices in memory that move few bytes in a call, or fail at each call in turn.
ghost use Rattle.std.specs.Prelude.{◌≡◌, false};

use std::alloc::AllocError;
use std::test::Fail;
use wideconv_command::{Input, Output, run};
use widestring_testing::{SlowSink, SlowSource};

// A run: its arguments, its input, its output and its status.
struct Case {
    words: &'static [&'static str],
    input: &'static [u8],
    output: &'static [u8],
    status: u8,
}

static CASES: [Case; 6] = [
    Case {
        words: &["-t", "UTF-8"],
        input: b"\xff\xfeH\0\xe9\0\x3d\xd8\x00\xde",
        output: b"H\xc3\xa9\xf0\x9f\x98\x80",
        status: 0,
    },
    Case {
        words: &["-t", "UTF-16BE", "--bom"],
        input: b"\xef\xbb\xbfH\xc3\xa9\xf0\x9f\x98\x80",
        output: b"\xfe\xff\0H\0\xe9\xd8\x3d\xde\0",
        status: 0,
    },
    Case {
        words: &["-f", "UTF-8", "-t", "UTF-32LE", "--lossy"],
        input: b"\xe2\x82\xf0\x9f\x98\x80",
        output: b"\xfd\xff\0\0\x00\xf6\x01\0",
        status: 0,
    },
    Case {
        words: &["-t", "UTF-8", "-", "-"],
        input: b"\0\0\xfe\xff\0\0\0H",
        output: b"H",
        status: 0,
    },
    Case {
        words: &["-f", "UTF-8", "--stats"],
        input: b"H\xc3\xa9\n",
        output: b"standard input: units 4, characters 3, lines 1, faults 0, plane 0: 3\n",
        status: 0,
    },
    Case {
        words: &["--version"],
        input: b"",
        output: b"wideconv 0.2.0\n",
        status: 0,
    },
];

// How a run ended: its status, what it wrote, and its message.
#[derive(Drop)]
struct Ended {
    status: u8,
    written: Vec<u8>,
    said: Vec<u8>,
    calls: usize,
}

// Runs the program over these devices.
fn run_case(
    rt: &HostRuntime,
    case: &Case,
    source: SlowSource<'_>,
    sink: SlowSink,
    said: SlowSink,
) -> Result<Ended, AllocError>
    requires source_unfailed { source.failed ≡ false }
    requires source_open { source.ended ≡ false }
    requires sink_unfailed { sink.failed ≡ false }
{
    let mut words = Vec::new(rt.alloc());
    for word in case.words {
        words.push(String::from_str(rt.alloc(), word)?)?;
    }
    let mut said = said;
    let mut input = Input::new(source);
    let mut output = Output::new(sink, None::<SlowSink>);
    let status = run(rt, &words, &mut input, &mut output, &mut said);
    let sink = output.into_inner();
    Ok(Ended {
        status,
        written: sink.bytes,
        said: said.bytes,
        calls: sink.calls,
    })
}

// Returns whether a case does the same with devices that move `step` bytes in a call, or random numbers of them if it is
// 0.
fn is_same_by(rt: &HostRuntime, case: &Case, step: usize) -> Result<bool, AllocError> {
    let source = SlowSource::new(case.input, step);
    let sink = SlowSink::new(rt.alloc(), step, None, false);
    let said = SlowSink::new(rt.alloc(), step, None, false);
    let end = run_case(rt, case, source, sink, said)?;
    let mut well = end.status == case.status;
    well &= end.written.as_slice() == case.output;
    well &= end.said.is_empty();
    Ok(well)
}

// Returns whether a failed run wrote a prefix of the text, has status 1, and said this.
fn has_failed(case: &Case, end: &Ended, said: &[u8]) -> bool {
    let mut well = end.status == 1;
    well &= case.output.starts_with(end.written.as_slice());
    well &= end.said.as_slice() == said;
    well
}

// Returns whether a case is reported if the read with this number fails, which is one of those that it makes.
fn tells_read(rt: &HostRuntime, case: &Case, number: usize) -> Result<bool, AllocError> {
    let source = SlowSource::failing_at(case.input, 1, number);
    let sink = SlowSink::new(rt.alloc(), 1, None, false);
    let said = SlowSink::new(rt.alloc(), 4096, None, false);
    let end = run_case(rt, case, source, sink, said)?;
    Ok(has_failed(case, &end, b"wideconv: standard input: read fault\n"))
}

// Returns whether a case is reported if its output takes only so many bytes, by an error or by taking none.
fn tells_write(
    rt: &HostRuntime,
    case: &Case,
    space: usize,
    takes_none: bool,
) -> Result<bool, AllocError> {
    let source = SlowSource::new(case.input, 1);
    let sink = SlowSink::new(rt.alloc(), 1, Some(space), takes_none);
    let said = SlowSink::new(rt.alloc(), 4096, None, false);
    let end = run_case(rt, case, source, sink, said)?;
    let mut well = has_failed(case, &end, b"wideconv: standard output: write fault\n");
    // A write that failed is not repeated.
    well &= end.written.len() == space;
    well &= end.calls == space.saturating_add(1);
    Ok(well)
}

// Returns whether a message that can't be written changes neither the output nor the status.
fn is_same_if_deaf(rt: &HostRuntime, case: &Case) -> Result<bool, AllocError> {
    let source = SlowSource::failing_after(case.input, 4096);
    let sink = SlowSink::new(rt.alloc(), 4096, None, false);
    let said = SlowSink::new(rt.alloc(), 4096, Some(0), false);
    let end = run_case(rt, case, source, sink, said)?;
    let mut well = end.status == 1 || case.input.is_empty();
    well &= end.said.is_empty();
    Ok(well)
}

#[test]
fn slow_devices_change_nothing(rt: HostRuntime) -> Result<(), Fail> {
    let mut well = true;
    for case in &CASES {
        for step in 0..6 {
            well &= is_same_by(&rt, case, step)?;
        }
        well &= is_same_if_deaf(&rt, case)?;
    }
    assert!(rt; well);
    Ok(())
}

#[test]
fn each_read_that_fails_is_told(rt: HostRuntime) -> Result<(), Fail> {
    let mut well = true;
    for case in &CASES[..5] {
        // The last read finds the end.
        for number in 1..=case.input.len() + 1 {
            well &= tells_read(&rt, case, number)?;
        }
    }
    assert!(rt; well);
    Ok(())
}

#[test]
fn each_write_that_fails_is_told(rt: HostRuntime) -> Result<(), Fail> {
    let mut well = true;
    for case in &CASES {
        for space in 0..case.output.len() {
            well &= tells_write(&rt, case, space, false)?;
            well &= tells_write(&rt, case, space, true)?;
        }
    }
    assert!(rt; well);
    Ok(())
}
