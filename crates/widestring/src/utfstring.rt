//! Owned strings of well-formed text, and operations of strings of any units on them.

pub use wide_utfextend::{
    OfText, U16StringInUtfstring, U16StringOverUtfstrs, U32StringInUtfstring, U32StringOverUtfstrs,
    UStringInUtfstring, UStringOverUtfstrs,
};
pub use wide_utfstring::{
    BoxedUtf16Str, BoxedUtf32Str, BoxedUtfStr, CowUtf16Str, CowUtf32Str, CowUtfStr, DrainUtf,
    DrainUtf16, DrainUtf32, Utf16StrInUtfstring, Utf16String, Utf32StrInUtfstring, Utf32String,
    UtfStrInUtfstring, UtfString, WideUtfString,
};
