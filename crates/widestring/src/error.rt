//! All errors of the library, and the text that each of them prints.

pub use wide_error::{DecodeUtf16Error, DecodeUtf32Error, OutOfMemory, TranscodeError};
pub use wide_unit::FirstFault;
pub use wide_utferror::{
    ContainsNul, FaultUnit, MissingNulTerminator, NulError, UCStringError, Utf16BytesError,
    Utf16ConvertError, Utf16Error, Utf32ConvertError, Utf32Error, UtfError,
};
