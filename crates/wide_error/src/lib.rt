//! The errors of the wide string crates, and the text that each of them prints.
//!
//! A decoder reports a [`DecodeUtf16Error`] for an unpaired surrogate, and a [`DecodeUtf32Error`] for a number that is
//! no Unicode scalar value. [`OutOfMemory`] is the error of calls that fail only if an allocation fails. A
//! [`TranscodeError`] says why UTF-16 was not transcoded to UTF-8.
#![tactic(auto)]

pub mod error;

pub use error::{DecodeUtf16Error, DecodeUtf32Error, OutOfMemory, TranscodeError};
