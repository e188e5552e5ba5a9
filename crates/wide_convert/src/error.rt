//! Why a conversion between devices stopped, and what that prints.

ghost use Rattle.std.specs.Prelude.{◌≡◌};

use crate::converter::TextFault;
use std::error::Error;
use std::fmt;

impl fmt::Display for TextFault {
    ghost use Rattle.std.specs.Prelude.{Some};
    ghost use Rattle.wide_convert.specs.Printed.{text_fault_text};

    ghost output = { λ fault. Some (text_fault_text fault) };

    fn fmt<W: fmt::Write>(&self, f: &mut fmt::Formatter<W>) -> fmt::Result {
        write!(
            f,
            "ill-formed unit {:x} at byte {} (item {})",
            self.unit, self.offset, self.item
        )
    }
}

impl Error for TextFault {}

/// Why a conversion between devices stopped before the end of the text.
///
/// # Example
///
/// ```
/// use widestring::convert::{ConvertError, Scheme, convert};
///
/// let mut source = FromRead::new(b"H\0\x3d\xd8i\0".as_slice());
/// let mut sink = FromWrite::new(Vec::new(rt.alloc()));
/// let (from, to) = (Scheme::Utf16Le, Scheme::Utf8);
/// let error = convert(&mut source, &mut sink, from, to, None, false).err();
/// assert!(rt; matches!(error, Some(ConvertError::Fault(fault)) if fault.offset == 2));
/// ```
#[derive(Clone, Copy, Debug, PartialEq, Eq)]
pub enum ConvertError {
    /// A fault, for which there is no policy. The text before it was written.
    Fault(TextFault),
    /// Bytes at the end of the text are part of a unit. The text of the whole units was written.
    PartOfUnit,
    /// At least 2^64 bytes were read and written. A prefix of the text was written.
    TooLong,
    /// The source failed.
    Read,
    /// The sink failed.
    Write,
}

impl fmt::Display for ConvertError {
    ghost use Rattle.std.specs.Prelude.{Some};
    ghost use Rattle.wide_convert.specs.Printed.{convert_error_text};

    ghost output = { λ error. Some (convert_error_text error) };

    fn fmt<W: fmt::Write>(&self, f: &mut fmt::Formatter<W>) -> fmt::Result {
        match self {
            ConvertError::Fault(fault) => fmt::Display::fmt(fault, f),
            ConvertError::PartOfUnit => f.write_str("the text ends within a unit"),
            ConvertError::TooLong => f.write_str("the text is too long"),
            ConvertError::Read => f.write_str("read fault"),
            ConvertError::Write => f.write_str("write fault"),
        }
    }
}

impl Error for ConvertError {}
