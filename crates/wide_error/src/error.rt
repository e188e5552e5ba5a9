//! Errors of decoding, allocation and transcoding: what they hold, print, and are converted from.

ghost use Rattle.std.specs.Prelude.{◌≡◌};

use std::alloc::{AllocError, AllocFailed};
use std::error::Error;
use std::marker::Model;
use std::{fmt, io};

/// An unpaired surrogate in UTF-16.
///
/// # Example
///
/// ```
/// let mut decoder = decode_utf16([0xd83d, 0x48]);
/// assert!(rt; decoder.next() == Some(Err(DecodeUtf16Error::new(0xd83d))));
/// assert!(rt; decoder.next() == Some(Ok('H')));
/// ```
#[derive(Clone, Copy, Debug, PartialEq, Eq)]
pub struct DecodeUtf16Error {
    unit: u16,
}

impl Model for DecodeUtf16Error {
    ghost use Rattle.std.specs.Prelude.{ℕ};

    ghost Value = { ℕ };

    ghost view = { λ e. e.unit };

    ghost inverse = { λ n. record { unit = n } };
}

impl DecodeUtf16Error {
    /// Creates the error for `unit`.
    pub fn new(unit: u16) -> Self
        ensures { result ≡ unit }
    {
        DecodeUtf16Error { unit }
    }

    /// Returns the unpaired surrogate.
    ///
    /// # Example
    ///
    /// ```
    /// let fault = Utf16Str::from_slice(&[0x48, 0x69, 0xd83d]).err();
    /// assert!(rt; fault.map(|fault| fault.cause().unpaired_surrogate()) == Some(0xd83d));
    /// ```
    pub fn unpaired_surrogate(&self) -> u16
        ensures { result ≡ self.now }
    {
        self.unit
    }
}

impl fmt::Display for DecodeUtf16Error {
    ghost use Rattle.std.specs.Prelude.{Some};
    ghost use Rattle.wide_error.specs.Texts.{unpaired_surrogate_text};

    ghost output = { λ unit. Some (unpaired_surrogate_text unit) };

    fn fmt<W: fmt::Write>(&self, f: &mut fmt::Formatter<W>) -> fmt::Result {
        write!(
            f,
            "unpaired surrogate found: {:x}",
            self.unpaired_surrogate()
        )
    }
}

impl Error for DecodeUtf16Error {}

/// A unit of UTF-32 that is no Unicode scalar value.
///
/// # Example
///
/// ```
/// let mut decoder = decode_utf32([0x1_f600, 0x11_0000]);
/// assert!(rt; decoder.next() == Some(Ok('😀')));
/// assert!(rt; decoder.next() == Some(Err(DecodeUtf32Error::new(0x11_0000))));
/// ```
#[derive(Clone, Copy, Debug, PartialEq, Eq)]
pub struct DecodeUtf32Error {
    code: u32,
}

impl Model for DecodeUtf32Error {
    ghost use Rattle.std.specs.Prelude.{ℕ};

    ghost Value = { ℕ };

    ghost view = { λ e. e.code };

    ghost inverse = { λ n. record { code = n } };
}

impl DecodeUtf32Error {
    /// Creates the error for `code`.
    pub fn new(code: u32) -> Self
        ensures { result ≡ code }
    {
        DecodeUtf32Error { code }
    }

    /// Returns the number that is no scalar value.
    ///
    /// # Example
    ///
    /// ```
    /// let fault = Utf32Str::from_slice(&[0x48, 0x69, 0xd83d, 0xde00]).err();
    /// assert!(rt; fault.map(|fault| fault.cause().invalid_code_point()) == Some(0xd83d));
    /// ```
    pub fn invalid_code_point(&self) -> u32
        ensures { result ≡ self.now }
    {
        self.code
    }
}

impl fmt::Display for DecodeUtf32Error {
    ghost use Rattle.std.specs.Prelude.{Some};
    ghost use Rattle.wide_error.specs.Texts.{invalid_code_point_text};

    ghost output = { λ code. Some (invalid_code_point_text code) };

    fn fmt<W: fmt::Write>(&self, f: &mut fmt::Formatter<W>) -> fmt::Result {
        write!(
            f,
            "invalid UTF-32 code point: {:x}",
            self.invalid_code_point()
        )
    }
}

impl Error for DecodeUtf32Error {}

/// An allocation failed.
///
/// # Example
///
/// ```
/// use widestring::ustring::UStrInUstring;
///
/// let view = U16Str::from_slice(&[0x48, 0x69]);
/// let repeated = view.repeat(rt.alloc(), usize::MAX);
/// assert!(rt; repeated.err() == Some(OutOfMemory));
/// ```
#[derive(Clone, Copy, Debug, PartialEq, Eq, Hash)]
pub struct OutOfMemory;

impl fmt::Display for OutOfMemory {
    ghost use Rattle.std.specs.Prelude.{Some};
    ghost use Rattle.wide_error.specs.Texts.{out_of_memory_text};

    ghost output = { λ _. Some out_of_memory_text };

    fn fmt<W: fmt::Write>(&self, f: &mut fmt::Formatter<W>) -> fmt::Result {
        f.write_str("out of memory")
    }
}

impl Error for OutOfMemory {}

impl From<AllocError> for OutOfMemory {
    ghost from_gives = { λ _ e. e ≡ record {} };

    fn from(_error: AllocError) -> OutOfMemory {
        OutOfMemory
    }
}

impl<T: Drop> From<AllocFailed<T>> for OutOfMemory {
    ghost from_gives = { λ _ e. e ≡ record {} };

    fn from(_error: AllocFailed<T>) -> OutOfMemory {
        OutOfMemory
    }
}

/// Converts an allocation failure to an `io::Error` of the kind `OutOfMemory`, as `?` does in `main`.
impl From<OutOfMemory> for io::Error {
    ghost use Rattle.std.specs.IoError.{error_kind};
    ghost use Rattle.std.specs.declared.io.ErrorKind.TheVariants.{OutOfMemory};

    ghost from_gives = { λ _ e. error_kind e ≡ OutOfMemory };

    fn from(_error: OutOfMemory) -> io::Error {
        io::Error::from(io::ErrorKind::OutOfMemory)
    }
}

/// The error of transcoding UTF-16 to UTF-8.
///
/// # Example
///
/// ```
/// let mut source = FromRead::new(b"H\0i\0\x3d\xd8".as_slice());
/// let mut sink = FromWrite::new(Vec::new(rt.alloc()));
/// let fault = transcode(&mut source, &mut sink, Mode::Strict).err();
/// let (index, item, unit) = (2, 2, 0xd83d);
/// assert!(rt; fault == Some(TranscodeError::Utf16 { index, item, unit }));
/// assert!(rt; sink.into_inner().as_slice() == "Hi".as_bytes());
/// ```
#[derive(Clone, Copy, Debug, PartialEq, Eq)]
pub enum TranscodeError {
    /// The unit at `index`, counted from 0, is an unpaired surrogate.
    Utf16 {
        /// The number of units before the surrogate.
        index: usize,
        /// The number of characters before the surrogate.
        item: usize,
        /// The unpaired surrogate.
        unit: u16,
    },
    /// An allocation failed, or an index of a unit does not fit into a `usize`.
    OutOfMemory,
    /// The number of bytes is odd: the last byte is half of a unit.
    OddLength,
    /// The input could not be read.
    Read,
    /// The output could not be written.
    Write,
}

impl fmt::Display for TranscodeError {
    ghost use Rattle.std.specs.Prelude.{Some};
    ghost use Rattle.wide_error.specs.Texts.{transcode_error_text};

    ghost output = { λ e. Some (transcode_error_text e) };

    fn fmt<W: fmt::Write>(&self, f: &mut fmt::Formatter<W>) -> fmt::Result {
        match self {
            TranscodeError::Utf16 { index, item, unit } => {
                write!(
                    f,
                    "unpaired UTF-16 surrogate {unit:x} at index {index} (item {item})"
                )
            }
            TranscodeError::OutOfMemory => fmt::Display::fmt(&OutOfMemory, f),
            TranscodeError::OddLength => f.write_str("file not encoded as UTF-16"),
            TranscodeError::Read => f.write_str("read fault"),
            TranscodeError::Write => f.write_str("write fault"),
        }
    }
}

impl Error for TranscodeError {}

impl From<OutOfMemory> for TranscodeError {
    ghost use Rattle.wide_error.specs.declared.error.TranscodeError.TheVariants.{OutOfMemory};

    ghost from_gives = { λ _ e. e ≡ OutOfMemory };

    fn from(_error: OutOfMemory) -> TranscodeError {
        TranscodeError::OutOfMemory
    }
}

impl From<AllocError> for TranscodeError {
    ghost use Rattle.wide_error.specs.declared.error.TranscodeError.TheVariants.{OutOfMemory};

    ghost from_gives = { λ _ e. e ≡ OutOfMemory };

    fn from(_error: AllocError) -> TranscodeError {
        TranscodeError::OutOfMemory
    }
}

impl<T: Drop> From<AllocFailed<T>> for TranscodeError {
    ghost use Rattle.wide_error.specs.declared.error.TranscodeError.TheVariants.{OutOfMemory};

    ghost from_gives = { λ _ e. e ≡ OutOfMemory };

    fn from(_error: AllocFailed<T>) -> TranscodeError {
        TranscodeError::OutOfMemory
    }
}
