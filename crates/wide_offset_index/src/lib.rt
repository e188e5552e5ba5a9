//! The offset index of a UTF-16 text: the offsets of every 64th character, searches from them, and what an edit of the
//! text makes of them.
//!
//! The crate `widestring` re-exports none of these calls, which are those of a string that has such an index.
#![tactic(auto)]

mod marks;
mod passing;
mod shifting;

pub use marks::{append_missing, count_from, find_from, units_from};
pub use passing::pass_on;
pub use shifting::{Range16, count_if_few, shift};
