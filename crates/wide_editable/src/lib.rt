//! Texts that can be edited: well-formed strings, and UTF-16 strings with an offset index. Lists of edits of one text,
//! or of two in lockstep.
#![tactic(auto)]

mod lockstep;
mod lookup;
mod marked;
mod memory;
mod operations;
mod ranges;
mod text_edit;
mod utf;

pub use lockstep::{run, run_both};
pub use marked::Marked16;
pub use text_edit::TextEdit;
