//! Errors of converting units, or bytes of units.

ghost use Rattle.std.specs.Prelude.{◌≡◌};

use crate::error::{Utf16Error, Utf32Error};
use std::alloc::{AllocError, AllocFailed, Allocator, Global};
use std::error::Error;
use std::fmt;
use wide_error::OutOfMemory;

/// The error of converting UTF-16: the units are ill-formed, or an allocation failed.
///
/// It prints what the error of the units prints, or that memory is out.
///
/// # Example
///
/// ```
/// let text = U16Str::from_slice(&[0x48, 0xdc00]).to_string(rt.alloc());
/// let Err(Utf16ConvertError::Utf16(fault)) = text else {
///     panic!(rt; "an unpaired surrogate is at index 1")
/// };
/// assert!(rt; fault.index() == 1);
/// ```
#[derive(Drop)]
pub enum Utf16ConvertError<A: Allocator = Global> {
    /// The units are ill-formed (Unicode Standard, D84).
    Utf16(Utf16Error<A>),
    /// An allocation failed.
    OutOfMemory,
}

impl<A: Allocator> fmt::Display for Utf16ConvertError<A> {
    ghost use Rattle.std.specs.Prelude.{Some};
    ghost use Rattle.wide_utferror.specs.Converted.{utf16_convert_error_text};

    ghost output = { λ e. Some (utf16_convert_error_text e) };

    fn fmt<W: fmt::Write>(&self, f: &mut fmt::Formatter<W>) -> fmt::Result {
        match self {
            Utf16ConvertError::Utf16(e) => fmt::Display::fmt(e, f),
            Utf16ConvertError::OutOfMemory => fmt::Display::fmt(&OutOfMemory, f),
        }
    }
}

impl<A: Allocator> fmt::Debug for Utf16ConvertError<A> {
    fn fmt<W: fmt::Write>(&self, f: &mut fmt::Formatter<W>) -> fmt::Result {
        match self {
            Utf16ConvertError::Utf16(e) => fmt::Debug::fmt(e, f),
            Utf16ConvertError::OutOfMemory => fmt::Debug::fmt(&OutOfMemory, f),
        }
    }
}

impl<A: Allocator + Drop> Error for Utf16ConvertError<A> {}

impl<A: Allocator> From<Utf16Error<A>> for Utf16ConvertError<A> {
    ghost use Rattle.wide_utferror.specs.declared.convert.Utf16ConvertError.TheVariants.{Utf16};

    ghost from_gives = { λ fault e. e ≡ Utf16 fault };

    fn from(fault: Utf16Error<A>) -> Utf16ConvertError<A> {
        Utf16ConvertError::Utf16(fault)
    }
}

impl<A: Allocator> From<OutOfMemory> for Utf16ConvertError<A> {
    ghost use Rattle.wide_utferror.specs.declared.convert.Utf16ConvertError.TheVariants.{OutOfMemory};

    ghost from_gives = { λ _ e. e ≡ OutOfMemory };

    fn from(_error: OutOfMemory) -> Utf16ConvertError<A> {
        Utf16ConvertError::OutOfMemory
    }
}

impl<A: Allocator> From<AllocError> for Utf16ConvertError<A> {
    ghost use Rattle.wide_utferror.specs.declared.convert.Utf16ConvertError.TheVariants.{OutOfMemory};

    ghost from_gives = { λ _ e. e ≡ OutOfMemory };

    fn from(_error: AllocError) -> Utf16ConvertError<A> {
        Utf16ConvertError::OutOfMemory
    }
}

impl<A: Allocator, T: Drop> From<AllocFailed<T>> for Utf16ConvertError<A> {
    ghost use Rattle.wide_utferror.specs.declared.convert.Utf16ConvertError.TheVariants.{OutOfMemory};

    ghost from_gives = { λ _ e. e ≡ OutOfMemory };

    fn from(_error: AllocFailed<T>) -> Utf16ConvertError<A> {
        Utf16ConvertError::OutOfMemory
    }
}

/// The error of converting UTF-32: the units are ill-formed, or an allocation failed.
///
/// It prints what the error of the units prints, or that memory is out.
///
/// # Example
///
/// ```
/// let view = U32Str::from_slice(&[0xe9, 0xd83d, 0xde00]);
/// let Err(Utf32ConvertError::Utf32(fault)) = view.to_string(rt.alloc()) else {
///     panic!(rt; "a surrogate is at index 1")
/// };
/// let printed = fault.to_string(rt.alloc())?;
/// assert!(rt; printed.as_str() == "invalid UTF-32 value d83d at index 1 (item 1)");
/// ```
#[derive(Drop)]
pub enum Utf32ConvertError<A: Allocator = Global> {
    /// The units are ill-formed (Unicode Standard, D84).
    Utf32(Utf32Error<A>),
    /// An allocation failed.
    OutOfMemory,
}

impl<A: Allocator> fmt::Display for Utf32ConvertError<A> {
    ghost use Rattle.std.specs.Prelude.{Some};
    ghost use Rattle.wide_utferror.specs.Converted.{utf32_convert_error_text};

    ghost output = { λ e. Some (utf32_convert_error_text e) };

    fn fmt<W: fmt::Write>(&self, f: &mut fmt::Formatter<W>) -> fmt::Result {
        match self {
            Utf32ConvertError::Utf32(e) => fmt::Display::fmt(e, f),
            Utf32ConvertError::OutOfMemory => fmt::Display::fmt(&OutOfMemory, f),
        }
    }
}

impl<A: Allocator> fmt::Debug for Utf32ConvertError<A> {
    fn fmt<W: fmt::Write>(&self, f: &mut fmt::Formatter<W>) -> fmt::Result {
        match self {
            Utf32ConvertError::Utf32(e) => fmt::Debug::fmt(e, f),
            Utf32ConvertError::OutOfMemory => fmt::Debug::fmt(&OutOfMemory, f),
        }
    }
}

impl<A: Allocator + Drop> Error for Utf32ConvertError<A> {}

impl<A: Allocator> From<Utf32Error<A>> for Utf32ConvertError<A> {
    ghost use Rattle.wide_utferror.specs.declared.convert.Utf32ConvertError.TheVariants.{Utf32};

    ghost from_gives = { λ fault e. e ≡ Utf32 fault };

    fn from(fault: Utf32Error<A>) -> Utf32ConvertError<A> {
        Utf32ConvertError::Utf32(fault)
    }
}

impl<A: Allocator> From<OutOfMemory> for Utf32ConvertError<A> {
    ghost use Rattle.wide_utferror.specs.declared.convert.Utf32ConvertError.TheVariants.{OutOfMemory};

    ghost from_gives = { λ _ e. e ≡ OutOfMemory };

    fn from(_error: OutOfMemory) -> Utf32ConvertError<A> {
        Utf32ConvertError::OutOfMemory
    }
}

impl<A: Allocator> From<AllocError> for Utf32ConvertError<A> {
    ghost use Rattle.wide_utferror.specs.declared.convert.Utf32ConvertError.TheVariants.{OutOfMemory};

    ghost from_gives = { λ _ e. e ≡ OutOfMemory };

    fn from(_error: AllocError) -> Utf32ConvertError<A> {
        Utf32ConvertError::OutOfMemory
    }
}

impl<A: Allocator, T: Drop> From<AllocFailed<T>> for Utf32ConvertError<A> {
    ghost use Rattle.wide_utferror.specs.declared.convert.Utf32ConvertError.TheVariants.{OutOfMemory};

    ghost from_gives = { λ _ e. e ≡ OutOfMemory };

    fn from(_error: AllocFailed<T>) -> Utf32ConvertError<A> {
        Utf32ConvertError::OutOfMemory
    }
}

/// The error of converting bytes of UTF-16: their number is odd, the units are ill-formed, or an allocation failed.
///
/// It prints what the error of the units prints, or why else there is no text.
///
/// # Example
///
/// ```
/// let text = include_utf16str(rt.alloc(), b"\xff\xfeH\0i");
/// assert!(rt; matches!(text, Err(Utf16BytesError::OddLength)));
/// ```
#[derive(Drop)]
pub enum Utf16BytesError<A: Allocator = Global> {
    /// The number of bytes is odd: the last byte is half of a unit.
    OddLength,
    /// The units of the bytes are ill-formed (Unicode Standard, D84).
    Utf16(Utf16Error<A>),
    /// An allocation failed.
    OutOfMemory,
}

impl<A: Allocator> fmt::Display for Utf16BytesError<A> {
    ghost use Rattle.std.specs.Prelude.{Some};
    ghost use Rattle.wide_utferror.specs.Converted.{utf16_bytes_error_text};

    ghost output = { λ e. Some (utf16_bytes_error_text e) };

    fn fmt<W: fmt::Write>(&self, f: &mut fmt::Formatter<W>) -> fmt::Result {
        match self {
            Utf16BytesError::OddLength => f.write_str("file not encoded as UTF-16"),
            Utf16BytesError::Utf16(e) => fmt::Display::fmt(e, f),
            Utf16BytesError::OutOfMemory => fmt::Display::fmt(&OutOfMemory, f),
        }
    }
}

impl<A: Allocator> fmt::Debug for Utf16BytesError<A> {
    fn fmt<W: fmt::Write>(&self, f: &mut fmt::Formatter<W>) -> fmt::Result {
        match self {
            Utf16BytesError::OddLength => f.write_str("OddLength"),
            Utf16BytesError::Utf16(e) => fmt::Debug::fmt(e, f),
            Utf16BytesError::OutOfMemory => fmt::Debug::fmt(&OutOfMemory, f),
        }
    }
}

impl<A: Allocator + Drop> Error for Utf16BytesError<A> {}

impl<A: Allocator> From<Utf16Error<A>> for Utf16BytesError<A> {
    ghost use Rattle.wide_utferror.specs.declared.convert.Utf16BytesError.TheVariants.{Utf16};

    ghost from_gives = { λ fault e. e ≡ Utf16 fault };

    fn from(fault: Utf16Error<A>) -> Utf16BytesError<A> {
        Utf16BytesError::Utf16(fault)
    }
}

impl<A: Allocator> From<OutOfMemory> for Utf16BytesError<A> {
    ghost use Rattle.wide_utferror.specs.declared.convert.Utf16BytesError.TheVariants.{OutOfMemory};

    ghost from_gives = { λ _ e. e ≡ OutOfMemory };

    fn from(_error: OutOfMemory) -> Utf16BytesError<A> {
        Utf16BytesError::OutOfMemory
    }
}

impl<A: Allocator> From<AllocError> for Utf16BytesError<A> {
    ghost use Rattle.wide_utferror.specs.declared.convert.Utf16BytesError.TheVariants.{OutOfMemory};

    ghost from_gives = { λ _ e. e ≡ OutOfMemory };

    fn from(_error: AllocError) -> Utf16BytesError<A> {
        Utf16BytesError::OutOfMemory
    }
}

impl<A: Allocator, T: Drop> From<AllocFailed<T>> for Utf16BytesError<A> {
    ghost use Rattle.wide_utferror.specs.declared.convert.Utf16BytesError.TheVariants.{OutOfMemory};

    ghost from_gives = { λ _ e. e ≡ OutOfMemory };

    fn from(_error: AllocFailed<T>) -> Utf16BytesError<A> {
        Utf16BytesError::OutOfMemory
    }
}
