//! The errors of ill-formed units, of NULs and of conversions, and the fault that a decoder reports for a unit.
//!
//! They are in a separate crate because decoders and `transcode` need none of them, and so need not wait for their
//! proofs. A [`NulError`] says why units are no C string, and a [`UCStringError`] why no owned C string was made of
//! them.
#![tactic(auto)]

pub mod convert;
pub mod error;
pub mod nul;

pub use convert::{Utf16BytesError, Utf16ConvertError, Utf32ConvertError};
pub use error::{FaultUnit, Utf16Error, Utf32Error, UtfError};
pub use nul::{ContainsNul, MissingNulTerminator, NulError, UCStringError};
