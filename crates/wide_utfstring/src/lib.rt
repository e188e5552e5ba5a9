//! Owned strings of well-formed text, UTF-16 or UTF-32, in units of 16 or 32 bits. Also text that is borrowed or owned,
//! and text in an allocation of exactly its length.
#![tactic(auto)]

mod ascii;
mod boxed;
mod case;
mod compare;
mod convert;
mod cow;
mod display;
mod extend;
mod iter;
mod lossy;
mod overwriting;
mod utfstring;
mod view;
mod within;

pub use boxed::{BoxedUtf16Str, BoxedUtf32Str, BoxedUtfStr};
pub use cow::{CowUtf16Str, CowUtf32Str, CowUtfStr};
pub use iter::{DrainUtf, DrainUtf16, DrainUtf32};
pub use utfstring::{Utf16String, Utf32String, UtfString, WideUtfString};
pub use view::{
    UtfStrInUtfstring, UtfStrInUtfstring as Utf16StrInUtfstring,
    UtfStrInUtfstring as Utf32StrInUtfstring,
};
