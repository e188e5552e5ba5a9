//! Converts bytes to units with a policy for ill-formed UTF-8, and finds the first ill-formed sequence of bytes
//! (Unicode Standard, section 3.9, D86 and D90 to D92). Vectorized: sixteen bytes in one step, in SIMD lanes.
#![tactic(auto)]

mod from_utf8_lossy;
mod utf8_validation;

pub use from_utf8_lossy::from_utf8_lossy_prefix;
pub use utf8_validation::{Utf8Chunk, Utf8End, first_utf8_chunk, is_utf8};
