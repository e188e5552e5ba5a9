//! ASCII in units of UTF-16 and UTF-32, well formed or not: whether all units are ASCII, comparison without regard to
//! the case of ASCII letters, and ASCII letters in the other case. A unit past 7F is unchanged, so each surrogate pair
//! stays one. No call allocates or fails. The Rust crate has none of these calls. `str` has calls of the same names.
#![tactic(auto)]

mod case;

pub use case::{eq_ignore_ascii_case, is_ascii, make_ascii_lowercase, make_ascii_uppercase};
