//! Converts UTF-16 to UTF-8 (Unicode Standard, section 3.9, D91 and D92).
//! Vectorized: sixteen units in one step in SIMD lanes, with look-up tables of shuffles.
#![tactic(auto)]

mod lead_bytes;
mod one_unit;
mod paired_text;
mod three_bytes;
mod three_bytes_rows;
mod to_utf8;
mod two_bytes;
mod two_bytes_rows;

pub use one_unit::{put_u32_le, put_unit};
pub use three_bytes::put_three_bytes;
pub use to_utf8::{checked_utf16_to_utf8, put_ascii, utf16_to_utf8_until_fault};
pub use two_bytes::put_two_bytes;
