//! Encoding schemes, and texts that are converted from one to another: from a device to a device, or piece by piece.

pub use wide_convert::{
    ConvertError, ConvertProgress, Converter, Position, ProgressEnd, Reading, TextFault, convert,
    laws,
};
pub use wide_schemes::{Layout, Scheme};
