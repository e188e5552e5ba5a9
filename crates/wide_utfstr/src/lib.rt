//! Views of well-formed text, UTF-16 or UTF-32, in units of 16 or 32 bits.
#![tactic(auto)]

mod ascii;
mod boundaries;
mod characters;
mod compare;
mod compared_units;
mod display;
mod escapes;
mod iter;
mod lines;
mod matches;
mod order;
mod search;
mod set_splits;
mod sets;
mod split;
mod split_ends;
mod split_more;
mod text;
mod trim;
mod view;

pub use compared_units::{
    UCStrInUtfstr, UCStrInUtfstr as U16CStrInUtfstr, UCStrInUtfstr as U32CStrInUtfstr,
    UStrInUtfstr, UStrInUtfstr as U16StrInUtfstr, UStrInUtfstr as U32StrInUtfstr,
};
pub use escapes::{EscapeDebug, EscapeDefault, EscapeUnicode};
pub use iter::{
    CharIndices, CharIndicesUtf16, CharIndicesUtf32, Chars, CharsUtf16, CharsUtf32, CodeUnits,
};
pub use view::{Utf16Str, Utf32Str, UtfStr, WideUtfStr};
pub use wide_unit::{FirstFault, check};
pub use wide_ustr::{LineIndices, Lines, Split, SplitView};
