//! The program `wideconv`: converts texts between encoding schemes at the command line.
#![tactic(auto)]

use std::io::{ErrorKind, Write};
use std::process::ExitCode;
use std::rt::{Env, Files};
use std::{env, fs, io};
use wide_bytes::{FromRead, FromWrite};
use wideconv_command::{FAILED, Input, Output, SUCCESS, USAGE, WRONG_USAGE, report, run};

// Returns the arguments after the program's name.
fn arguments<R: Env + AllocGlobal>(rt: &R) -> io::Result<Vec<String>> {
    let mut words = Vec::new(rt.alloc());
    for word in env::args(rt)?.skip(1) {
        words.push(word)?;
    }
    Ok(words)
}

// Returns whether standard error is a terminal.
fn is_terminal<R: Files + AllocGlobal>(rt: &R) -> bool {
    match fs::read_link(rt, "/proc/self/fd/2") {
        Ok(path) => {
            let path = path.as_path().as_str();
            path.starts_with("/dev/pts/") || path.starts_with("/dev/tty")
        }
        Err(_) => false,
    }
}

// Runs the command on the standard streams, and returns its exit status.
fn run_streams(rt: &HostRuntime) -> u8 {
    let mut faults = FromWrite::new(rt.stderr());
    let words = match arguments(rt) {
        Ok(words) => words,
        Err(error) if error.kind() == ErrorKind::InvalidData => {
            report(&mut faults, "", &USAGE);
            return WRONG_USAGE;
        }
        Err(error) => {
            report(&mut faults, "", &error);
            return FAILED;
        }
    };
    let mut input = Input::new(FromRead::new(rt.stdin()));
    let progress = if is_terminal(rt) {
        Some(FromWrite::new(rt.stderr()))
    } else {
        None
    };
    let mut sink = Output::new(FromWrite::new(rt.stdout()), progress);
    let status = run(rt, &words, &mut input, &mut sink, &mut faults);
    if let Err(error) = rt.stdout().flush() {
        if status == SUCCESS {
            report(&mut faults, "standard output", &error);
            return FAILED;
        }
    }
    status
}

fn main(rt: HostRuntime) -> ExitCode {
    ExitCode::from(run_streams(&rt))
}
