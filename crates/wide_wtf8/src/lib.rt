//! WTF-8: units of 16 bits, well formed or not, as bytes, in which nothing is lost. It is UTF-8 (Unicode Standard, D92)
//! where the units are well formed, and a surrogate that belongs to no pair has the three bytes of its code point. So
//! bytes are WTF-8 if they are UTF-8 with such surrogates, but no two that are the halves of a pair.
//!
//! [`ToWtf8`] makes the text of a view, and [`FromWtf8`] an owned string of a text. The functions do so for slices, and
//! [`check_wtf8`] checks bytes. The functions of `laws` state what is known of such texts.
#![tactic(auto)]

mod appending;
mod decoding;
mod encoding;
mod fault;
pub mod laws;
mod length;
mod reading;
mod strings;
mod views;

pub use appending::append_wtf8;
pub use decoding::{check_wtf8, wtf8_units_len};
pub use encoding::{to_wtf8, write_wtf8};
pub use fault::{FromWtf8Error, Wtf8Fault};
pub use length::wtf8_len;
pub use reading::{from_wtf8, write_from_wtf8};
pub use strings::FromWtf8;
pub use views::ToWtf8;
