//! Converts text in UTF-8 to units of UTF-16 or UTF-32 (Unicode Standard, section 3.9, D90 to D92). Vectorized: sixteen
//! bytes in one step, in SIMD lanes.
#![tactic(auto)]

mod compressed_units;
mod from_utf8;
mod from_utf8_ascii;
mod from_utf8_mixed;
mod from_utf8_runs;

pub use from_utf8::from_utf8_prefix;
pub use from_utf8_ascii::{low_len, put_bytes};
