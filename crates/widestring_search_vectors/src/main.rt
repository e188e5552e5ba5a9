//! Runs the test vectors of searches, splits, sets of characters, replacements and ASCII case, which are in `data/`.
//! README.md of `widestring_replay` explains a line of each group.
#![tactic(auto)]

mod groups;

use groups::SearchSuite;
use std::process::ExitCode;

fn main(rt: HostRuntime) -> ExitCode {
    widestring_replay::run::<SearchSuite>(&rt)
}
