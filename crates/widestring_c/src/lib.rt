//! The C interface of the library, built as a static library. The rules of each function are in `include/widestring.h`.
//!
//! The functions trust their caller: each pointer and length describe memory that may be read, or written if the
//! pointer is not to `const`, and memory that is written does not overlap any other memory that is passed. A pointer to
//! no elements may be NULL.
#![tactic(auto)]

mod ascii;
mod between;
mod between_lossy;
mod boundaries;
#[cfg(test)]
mod buffer_cases;
mod byte_chunks;
mod bytes;
#[cfg(test)]
mod bytes_cases;
mod caller_buffer;
mod case;
mod compare;
#[cfg(test)]
mod compare_cases;
pub mod examples;
mod fault_counts;
mod from_utf8;
pub mod laws;
#[cfg(test)]
mod length_cases;
mod lengths;
mod parts;
#[cfg(test)]
mod piece_cases;
mod policies;
mod repair;
mod search;
#[cfg(test)]
mod search_cases;
mod state;
mod streams;
mod to_utf8;
mod unit_bytes;
mod version;
mod wtf8;

pub use ascii::{wide_utf8_is_ascii, wide_utf16_is_ascii, wide_utf32_is_ascii};
pub use between::{wide_utf16_to_utf32, wide_utf32_to_utf16};
pub use between_lossy::{
    wide_utf16_to_utf32_lossy, wide_utf16_to_utf32_lossy_with, wide_utf32_to_utf16_lossy,
    wide_utf32_to_utf16_lossy_with,
};
pub use boundaries::wide_utf16_floor_char_boundary;
pub use bytes::{
    wide_utf16_bytes_complete, wide_utf16_bytes_end_in_fault, wide_utf16_bytes_first_fault,
    wide_utf16_bytes_order, wide_utf16_bytes_to_utf8, wide_utf16_bytes_to_utf8_lossy_with,
};
pub use case::{
    wide_utf16_to_ascii_lowercase, wide_utf16_to_ascii_uppercase, wide_utf32_to_ascii_lowercase,
    wide_utf32_to_ascii_uppercase,
};
pub use compare::{
    wide_utf16_compare_code_points, wide_utf16_eq_ignore_ascii_case,
    wide_utf32_compare_code_points, wide_utf32_eq_ignore_ascii_case,
};
pub use fault_counts::{wide_utf8_fault_count, wide_utf16_fault_count, wide_utf32_fault_count};
pub use from_utf8::{
    wide_utf8_first_fault, wide_utf8_to_utf16, wide_utf8_to_utf16_lossy,
    wide_utf8_to_utf16_lossy_with, wide_utf8_to_utf32, wide_utf8_to_utf32_lossy,
    wide_utf8_to_utf32_lossy_with,
};
pub use lengths::{
    wide_utf8_char_count, wide_utf8_utf16_length, wide_utf8_utf32_length, wide_utf16_char_count,
    wide_utf16_utf8_length, wide_utf16_utf32_length, wide_utf32_char_count, wide_utf32_utf8_length,
    wide_utf32_utf16_length,
};
pub use parts::{
    wide_utf8_to_utf16_part, wide_utf8_to_utf32_part, wide_utf16_to_utf8_part,
    wide_utf16_to_utf32_part, wide_utf32_to_utf8_part, wide_utf32_to_utf16_part,
};
pub use repair::{
    wide_utf16_repair, wide_utf16_repair_in_place, wide_utf32_repair, wide_utf32_repair_in_place,
};
pub use search::{
    wide_utf16_find, wide_utf16_find_ignore_ascii_case, wide_utf16_find_unit,
    wide_utf16_first_fault, wide_utf16_first_fault_item, wide_utf16_first_nul, wide_utf16_rfind,
    wide_utf32_find, wide_utf32_find_ignore_ascii_case, wide_utf32_find_unit,
    wide_utf32_first_fault, wide_utf32_first_fault_item, wide_utf32_first_nul, wide_utf32_rfind,
};
pub use state::WideConverter;
pub use streams::{wide_convert_push, wide_convert_start};
pub use to_utf8::{
    wide_utf16_to_utf8, wide_utf16_to_utf8_lossy, wide_utf16_to_utf8_lossy_with,
    wide_utf32_to_utf8, wide_utf32_to_utf8_lossy, wide_utf32_to_utf8_lossy_with,
};
pub use unit_bytes::{
    wide_utf16_from_bytes, wide_utf16_swap_bytes, wide_utf16_to_bytes, wide_utf32_from_bytes,
    wide_utf32_swap_bytes, wide_utf32_to_bytes,
};
pub use version::wide_version;
pub use wtf8::{
    wide_utf16_to_wtf8, wide_utf16_wtf8_length, wide_wtf8_first_fault, wide_wtf8_to_utf16,
    wide_wtf8_utf16_length,
};
