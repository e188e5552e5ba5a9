//! Code units of UTF-16 and UTF-32: the trait `Unit`, and what works on a slice of units of either width, whatever they
//! hold. The contracts of the functions in [`laws`] are the laws of the definitions in `specs/` of `wide_forms`.
#![tactic(auto)]

mod any_units;
mod case;
mod chars;
mod compare;
mod first;
mod lanes;
pub mod laws;
mod line;
mod nul;
mod order;
mod print;
mod range;
mod same_blocks;
mod split;
mod unit;
mod utf8;
mod validation;

pub use any_units::AnyUnits;
pub use case::{ascii_lowercase, ascii_uppercase, common_prefix_ignore_ascii_case};
pub use chars::{char_of, put_char};
pub use compare::{common_prefix, order_of_units, same_units};
pub use first::first_of;
pub use lanes::{first_no_scalar, first_surrogate};
pub use line::split_line;
pub use nul::first_nul;
pub use order::cmp_code_points;
pub use print::write_escape;
pub use range::range_check;
pub use split::{split_first, split_last};
pub use unit::Unit;
pub use utf8::{length_as_utf16, length_as_utf32, next_code_point};
pub use validation::{FirstFault, check, find_fault, valid_len};
pub use wide_forms::{LossyProgress, Policy};
