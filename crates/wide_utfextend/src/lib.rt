//! Strings of any units that are collected from well-formed text, or extended by it.
#![tactic(auto)]

mod extend;

pub use extend::{
    OfText, UStringInUtfstring, UStringInUtfstring as U16StringInUtfstring,
    UStringInUtfstring as U32StringInUtfstring, UStringOverUtfstrs,
    UStringOverUtfstrs as U16StringOverUtfstrs, UStringOverUtfstrs as U32StringOverUtfstrs,
};
