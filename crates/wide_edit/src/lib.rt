//! Edits as data, whose offsets are counted in characters. `specs/Step` defines what they mean.
#![tactic(auto)]

mod edits;

pub use edits::{Edit, Reply, Stopped};
