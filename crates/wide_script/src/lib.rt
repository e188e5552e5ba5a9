//! The calls that scripts make of a string of any units: a line of text is a call, whose words are parsed and which is
//! made of a [`Session`]'s string.
#![tactic(auto)]

mod calls;
mod session;
mod strings;
mod words;

pub use calls::{Call, call_of};
pub use session::Session;
pub use strings::{
    code_point_at, edit_both, index_of, is_well_formed, offset_from, slice, to_well_formed,
};
pub use words::{Damage, Words};
