//! Owned wide C strings: units of 16 or 32 bits that end in their only NUL.
#![tactic(auto)]

mod ascii;
mod boxed;
mod compare;
mod cow;
mod display;
mod extend;
mod overwriting;
mod ucstring;
mod view;

pub use boxed::{BoxedU16CStr, BoxedU32CStr, BoxedUCStr};
pub use cow::{CowU16CStr, CowU32CStr, CowUCStr};
pub use extend::{
    OfCStrings, UStringInUcstring, UStringInUcstring as U16StringInUcstring,
    UStringInUcstring as U32StringInUcstring, UStringOverUcstrs,
    UStringOverUcstrs as U16StringOverUcstrs, UStringOverUcstrs as U32StringOverUcstrs,
};
pub use ucstring::{U16CString, U32CString, UCString, WideCString};
pub use view::{
    UCStrInUcstring, UCStrInUcstring as U16CStrInUcstring, UCStrInUcstring as U32CStrInUcstring,
};
