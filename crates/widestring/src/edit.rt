//! Edits as data, whose offsets are counted in characters, and the texts to which they are applied.

pub use wide_edit::{Edit, Reply, Stopped};
pub use wide_editable::{Marked16, TextEdit, run, run_both};
pub use wide_steps::Steps;
