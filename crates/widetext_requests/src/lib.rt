//! What the arguments of the program `widetext` name, and the lines of its results, as far as they need no strings.
#![tactic(auto)]

mod arguments;
mod edit_arguments;
mod ends;
mod lines;

pub use arguments::{Request, parse_arguments};
pub use edit_arguments::{EditArgument, edits_of};
pub use ends::write_results;
pub use lines::{push_replies, push_units16, push_units32};
