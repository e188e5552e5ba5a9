//! Wide strings: text in units of 16 or 32 bits, UTF-16 and UTF-32, well formed or not.
//!
//! It is a port of the Rust crate of this name, with the same paths. Each module re-exports a separate crate, or the
//! items of several crates. This crate has no code.
#![tactic(auto)]

pub mod bytes;
pub mod convert;
pub mod edit;
pub mod error;
pub mod utfstring;

pub use wide_forms::Policy;
pub use wide_iter as iter;
pub use wide_iter::{
    decode_utf16, decode_utf16_lossy, decode_utf16_lossy_with, decode_utf32, decode_utf32_lossy,
    decode_utf32_lossy_with, encode_utf8, encode_utf16, encode_utf32,
};
pub use wide_replace as replace;
pub use wide_search as search;
pub use wide_ucstr as ucstr;
pub use wide_ucstr::{U16CStr, U32CStr, WideCStr};
pub use wide_ucstring as ucstring;
pub use wide_ucstring::{U16CString, U32CString, WideCString};
pub use wide_unit as unit;
pub use wide_ustr as ustr;
pub use wide_ustr::{U16Str, U32Str, WideChar, WideStr};
pub use wide_ustring as ustring;
pub use wide_ustring::{U16String, U32String, WideString};
pub use wide_utfstr as utfstr;
pub use wide_utfstr::{Utf16Str, Utf32Str, WideUtfStr};
pub use wide_utfstring::{Utf16String, Utf32String, WideUtfString};
pub use wide_wtf8 as wtf8;
