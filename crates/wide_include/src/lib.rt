//! Converts UTF-16 files to strings.
//!
//! This is separate from the other code for UTF-16 in bytes, which does not depend on strings.
#![tactic(auto)]

mod include;

pub use include::include_utf16str;
