//! Tests of the arguments of a run, as a program gathers them.

use crate::driver::whole;
use std::alloc::{AllocError, Global};
use std::env::FillError;
use std::rt::Env;
use widestring_testing::SlowSink;
use widetext_base::{USAGE, WRONG_USAGE, gather};

// The arguments of a run, with the program's name first, as the system gives them: in bytes.
#[derive(Drop)]
struct Arguments<'a> {
    all: &'a [&'a [u8]],
}

impl Env for Arguments<'_> {
    fn arg(&self, i: usize, buf: &mut [u8]) -> Result<usize, FillError> {
        let Some(argument) = self.all.get(i) else {
            return Err(FillError::NotPresent);
        };
        let len = argument.len();
        if len > buf.len() {
            return Err(FillError::TooLong);
        }
        buf[..len].copy_from_slice(argument);
        Ok(len)
    }

    fn var(&self, _name: &str, _buf: &mut [u8]) -> Result<usize, FillError> {
        Err(FillError::NotPresent)
    }

    fn var_at(&self, _i: usize, _buf: &mut [u8]) -> Result<usize, FillError> {
        Err(FillError::NotPresent)
    }
}

// Returns whether the arguments are these, in order.
fn are_words(words: &[String], expected: &[&str]) -> bool {
    let mut well = words.len() == expected.len();
    for (word, text) in words.iter().zip(expected) {
        well &= word.as_str() == *text;
    }
    well
}

// Returns whether these arguments are gathered as these strings, and no message is written.
fn gathers(alloc: Global, all: &[&[u8]], expected: &[&str]) -> bool {
    let mut faults = whole(alloc, 4096);
    match gather(&(Arguments { all }, alloc), &mut faults) {
        Ok(words) => are_words(&words, expected) && faults.calls == 0,
        Err(_) => false,
    }
}

static LONG: &str =
    "aaaaaaaaaaaaaaaaaaaaaaaaaaaaaaaaaaaaaaaaaaaaaaaaaaaaaaaaaaaaaaaaaaaaaaaaaaaaaaaaaaaaaaaaaaaaaaaaaaaaaaaaaaaaaaaaaaaaaaaaaaaaaaaaaaaaaaaaaaaaaaaaaaaaaaaaaaaaaaaaaaaaaaaaaaaaaaaaaaaaaaaaaaaaaaaaaaaaaaaaaaaaaaaaaaaaaaaaaaaaaaaaaaaaaaaaaaaaaaaaaaaaaaaaaaaaaaaaaaaaaaaaaaaaaaaaaaaaaaaaaaaaaaaaa";

#[test]
fn gathered_arguments(rt: HostRuntime) {
    let alloc = rt.alloc();
    let mut well = gathers(alloc, &[], &[]);
    well &= gathers(alloc, &[b"widetext"], &[]);
    well &= gathers(
        alloc,
        &[b"widetext", b"utf8", b"--lossy"],
        &["utf8", "--lossy"],
    );
    well &= gathers(
        alloc,
        &[b"widetext", b"", b"a b", b"\xc3\xa9\xf0\x9f\x98\x80", b""],
        &["", "a b", "\u{e9}\u{1f600}", ""],
    );
    well &= gathers(alloc, &[b"widetext", LONG.as_bytes(), b"b"], &[LONG, "b"]);
    assert!(rt; well);
}

// Returns whether arguments are a usage error, whose message is written once and in one line.
fn is_usage_error(alloc: Global, all: &[&[u8]]) -> Result<bool, AllocError> {
    let mut faults: SlowSink = whole(alloc, 4096);
    let gathered = gather(&(Arguments { all }, alloc), &mut faults);
    let mut line = String::from_str(alloc, USAGE)?;
    line.push('\n')?;
    let mut well = gathered == Err(WRONG_USAGE);
    well &= faults.calls == 1;
    well &= faults.bytes.as_slice() == line.as_bytes();
    Ok(well)
}

#[test]
fn arguments_that_are_no_utf8(rt: HostRuntime) {
    let alloc = rt.alloc();
    let mut well = is_usage_error(alloc, &[b"widetext", b"\xff"]) == Ok(true);
    well &= is_usage_error(alloc, &[b"widetext", b"utf8", b"--lossy\xff"]) == Ok(true);
    well &= is_usage_error(alloc, &[b"widetext", b"edit", b"\xed\xa0\x80", b"pop"]) == Ok(true);
    well &= is_usage_error(alloc, &[b"widetext", b"\xc3", b"\xa9"]) == Ok(true);
    assert!(rt; well);
}
