//! The command of the program `widetext`, over any devices.
#![tactic(auto)]

mod edit_lines;
pub mod examples;
mod program;

pub use program::command;
