//! Runs test vectors: results of the Rust crate `widestring`, and results worked out from the definitions. A program
//! gives its groups of cases and the calls that each makes, as a `Suite`, and the cases in its `data/`. README.md
//! explains a line of each group.
//!
//! A file of `data/` is a group of cases. A line is a list of units or characters in hexadecimal, and then cases, each
//! after a `|`: a question, a `=` and the answer. If the crate's own answer is wrong, the answer is the corrected one,
//! and the fault's name and the crate's own answer follow it, each after a `~`.
#![tactic(auto)]

pub mod made;
pub mod parse;
mod replay;
pub mod show;

use parse::Memory;
pub use replay::run;
use show::Answer;

/// The groups of cases of a program, and the calls of the library that each makes.
pub trait Suite {
    /// Returns the names of all groups, in the order in which they are printed. The file of a group has its name, and
    /// then `.txt`.
    fn groups() -> &'static [&'static str];

    /// Returns the groups that have corrected answers, each with the name of the crate's fault that it is about.
    fn faults() -> &'static [(&'static str, &'static str)];

    /// Adds the library's answer to a question about a list, in the form of the data.
    fn answer(memory: Memory<'_>, answer: &mut Answer, group: &str, list: &str, question: &str);
}

/// Makes a call of an iterator, from an end. `End` has to be in scope.
#[macro_export]
macro_rules! asked {
    ($iterator:expr, $end:expr) => {
        match $end {
            End::Front => $iterator.next(),
            End::Back => $iterator.next_back(),
        }
    };
}
