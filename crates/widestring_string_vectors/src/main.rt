//! Runs the test vectors of owned strings, which are in `data/`. README.md of `widestring_replay` explains a line of
//! each group.
#![tactic(auto)]

mod groups;

use groups::StringSuite;
use std::process::ExitCode;

fn main(rt: HostRuntime) -> ExitCode {
    widestring_replay::run::<StringSuite>(&rt)
}
