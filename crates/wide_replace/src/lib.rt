//! Texts with the occurrences of a needle replaced, in a new string. One loop serves any units and well-formed text
//! (`replaced.rt`).
#![tactic(auto)]

mod c_strings;
mod kinds;
mod replaced;
mod text;
mod units;

pub use c_strings::UCStrReplace;
pub use text::UtfStrReplace;
pub use units::UStrReplace;
