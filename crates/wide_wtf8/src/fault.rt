//! Errors of bytes that are not WTF-8: what they hold, print, and are converted from.
ghost use Rattle.std.specs.Prelude.{◌≡◌};

use std::alloc::{AllocError, AllocFailed};
use std::error::Error;
use std::fmt;
use wide_error::OutOfMemory;

/// The first fault of bytes that are not WTF-8: an ill-formed sequence of UTF-8 that is no surrogate (Unicode Standard,
/// section 3.9, D84 and "U+FFFD Substitution of Maximal Subparts"), or the second half of a surrogate pair whose halves
/// are written apart, since a pair has the four bytes of its character.
///
/// # Example
///
/// ```
/// use widestring::wtf8::{Wtf8Fault, check_wtf8};
///
/// let fault = check_wtf8(&[0x41, 0xed, 0xa0, 0xbd, 0xed, 0xb8, 0x80]).err();
/// assert!(rt; fault == Some(Wtf8Fault { index: 4, len: 3 }));
/// ```
#[derive(Clone, Copy, Debug, PartialEq, Eq)]
pub struct Wtf8Fault {
    /// How many bytes precede the fault. These are WTF-8, and no longer prefix is.
    pub index: usize,
    /// How many bytes the fault has: 3 if it is the second half of a pair.
    pub len: usize,
}

impl fmt::Display for Wtf8Fault {
    ghost use Rattle.std.specs.Prelude.{Some};
    ghost use Rattle.wide_wtf8.specs.Texts.{wtf8_fault_text};

    ghost output = { λ fault. Some (wtf8_fault_text fault.index) };

    fn fmt<W: fmt::Write>(&self, f: &mut fmt::Formatter<W>) -> fmt::Result {
        write!(f, "ill-formed WTF-8 at byte {}", self.index)
    }
}

impl Error for Wtf8Fault {}

/// Why no string was made of bytes: they are not WTF-8, or the allocation failed.
///
/// # Example
///
/// ```
/// use widestring::wtf8::{FromWtf8, FromWtf8Error};
///
/// let error = U16String::from_wtf8(rt.alloc(), &[0x41, 0x80]).err();
/// assert!(rt; matches!(error, Some(FromWtf8Error::Fault(fault)) if fault.index == 1));
/// ```
#[derive(Clone, Copy, Debug, PartialEq, Eq)]
pub enum FromWtf8Error {
    /// The bytes are not WTF-8. This is their first fault.
    Fault(Wtf8Fault),
    /// The bytes are WTF-8, and the allocation failed.
    OutOfMemory,
}

impl fmt::Display for FromWtf8Error {
    ghost use Rattle.std.specs.Prelude.{Some};
    ghost use Rattle.wide_wtf8.specs.Texts.{from_wtf8_error_text};

    ghost output = { λ error. Some (from_wtf8_error_text error) };

    fn fmt<W: fmt::Write>(&self, f: &mut fmt::Formatter<W>) -> fmt::Result {
        match self {
            FromWtf8Error::Fault(fault) => fmt::Display::fmt(fault, f),
            FromWtf8Error::OutOfMemory => fmt::Display::fmt(&OutOfMemory, f),
        }
    }
}

impl Error for FromWtf8Error {}

impl From<Wtf8Fault> for FromWtf8Error {
    ghost use Rattle.wide_wtf8.specs.declared.fault.FromWtf8Error.TheVariants.{Fault};

    ghost from_gives = { λ fault error. error ≡ Fault fault };

    fn from(fault: Wtf8Fault) -> FromWtf8Error {
        FromWtf8Error::Fault(fault)
    }
}

impl From<OutOfMemory> for FromWtf8Error {
    ghost use Rattle.wide_wtf8.specs.declared.fault.FromWtf8Error.TheVariants.{OutOfMemory};

    ghost from_gives = { λ _ error. error ≡ OutOfMemory };

    fn from(_error: OutOfMemory) -> FromWtf8Error {
        FromWtf8Error::OutOfMemory
    }
}

impl From<AllocError> for FromWtf8Error {
    ghost use Rattle.wide_wtf8.specs.declared.fault.FromWtf8Error.TheVariants.{OutOfMemory};

    ghost from_gives = { λ _ error. error ≡ OutOfMemory };

    fn from(_error: AllocError) -> FromWtf8Error {
        FromWtf8Error::OutOfMemory
    }
}

impl<T: Drop> From<AllocFailed<T>> for FromWtf8Error {
    ghost use Rattle.wide_wtf8.specs.declared.fault.FromWtf8Error.TheVariants.{OutOfMemory};

    ghost from_gives = { λ _ error. error ≡ OutOfMemory };

    fn from(_error: AllocFailed<T>) -> FromWtf8Error {
        FromWtf8Error::OutOfMemory
    }
}
