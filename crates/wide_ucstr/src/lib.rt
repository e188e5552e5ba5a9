//! Views of wide C strings: units of 16 or 32 bits that end in their only NUL.
//!
//! `specs/` defines what a C string is. The contracts of the functions of [`laws`] state the laws of C strings.
#![tactic(auto)]

mod ascii;
mod characters;
mod compare;
mod display;
pub mod laws;
mod matches;
mod order;
mod search;
mod set_splits;
mod sets;
mod split_more;
mod text;
mod view;

pub use compare::{UStrInUcstr, UStrInUcstr as U16StrInUcstr, UStrInUcstr as U32StrInUcstr};
pub use view::{U16CStr, U32CStr, UCStr, WideCStr};
pub use wide_ustr::{
    CharIndices, CharIndicesLossy, CharIndicesLossyUtf16, CharIndicesLossyUtf32, CharIndicesUtf16,
    CharIndicesUtf32, Chars, CharsLossy, CharsLossyUtf16, CharsLossyUtf32, CharsLossyWith,
    CharsUtf16, CharsUtf32, Display, DisplaySkipping, Split, SplitView,
};
