//! The program `widetext`: UTF-16 text at the command line.
#![tactic(auto)]

use std::process::ExitCode;
use wide_bytes::{FromRead, FromWrite};
use widetext_base::{finish, gather};
use widetext_command::command;

// Runs the command on the standard streams, and returns its exit status.
fn run(rt: &HostRuntime) -> u8 {
    let mut faults = FromWrite::new(rt.stderr());
    let words = match gather(rt, &mut faults) {
        Ok(words) => words,
        Err(status) => return status,
    };
    let mut source = FromRead::new(rt.stdin());
    let mut sink = FromWrite::new(rt.stdout());
    let status = command(rt.alloc(), &words, &mut source, &mut sink, &mut faults);
    finish(&mut rt.stdout(), &mut faults, status)
}

fn main(rt: HostRuntime) -> ExitCode {
    ExitCode::from(run(&rt))
}
