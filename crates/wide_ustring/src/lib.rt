//! Owned strings of units of 16 or 32 bits, which may be well formed or ill-formed.
#![tactic(auto)]

mod ascii;
mod boxed;
mod compare;
mod cow;
mod display;
pub mod extend;
mod iter;
mod moves;
mod overwriting;
mod space;
mod ustring;
mod view;
mod within;

pub use boxed::{BoxedU16Str, BoxedU32Str, BoxedUStr};
pub use cow::{CowU16Str, CowU32Str, CowUStr};
pub use iter::Drain;
pub use ustring::{U16String, U32String, UString, WideString};
pub use view::{UStrInUstring, UStrInUstring as U16StrInUstring, UStrInUstring as U32StrInUstring};
