//! Runs the test vectors of views, their iterators, conversions and devices, which are in `data/`. README.md of
//! `widestring_replay` explains a line of each group.
#![tactic(auto)]

mod groups;

use groups::ViewSuite;
use std::process::ExitCode;

fn main(rt: HostRuntime) -> ExitCode {
    widestring_replay::run::<ViewSuite>(&rt)
}
