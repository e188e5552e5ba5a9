//! Counts the characters of UTF-16, repairs units of either width, and makes their lossy text under a policy (Unicode
//! Standard, section 3.9, "U+FFFD Substitution of Maximal Subparts"). This crate is separate from `wide_unit`, which
//! depends on it, so that the command `utf8` does not need `wide_unit`. The loops are vectorized, but for lossy UTF-32.
#![tactic(auto)]

mod compression;
mod count;
mod lossy;
mod repair;
mod retention;

pub use compression::compress;
pub use count::char_count;
pub use lossy::{ends_in_fault, lossy_prefix_16, lossy_prefix_32};
pub use repair::{repair_16, repair_32};
