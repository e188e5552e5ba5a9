//! Converts units of UTF-16 or UTF-32 to UTF-8, to units of the other width and to bytes (Unicode Standard, section
//! 3.9, D90 to D92, and section 3.10). Vectorized: sixteen units in one step, in SIMD lanes.
#![tactic(auto)]

pub mod array_sizes;
mod between_forms;
mod lossy;
mod strings;
mod to_utf8;
mod unit_bytes;
mod utf8_length;

pub use between_forms::between_forms_prefix;
pub use lossy::{LossyPrefix, is_after_fault, lossy_prefix};
pub use strings::{lossy_utf8_string, push_utf8, utf8_string};
pub use to_utf8::to_utf8_prefix;
pub use unit_bytes::{byte_len, byte_width, put_be_bom, put_be_bytes, put_le_bom, put_le_bytes};
pub use utf8_length::utf8_len;
