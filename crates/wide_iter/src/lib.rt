//! Decoders of UTF-16 and UTF-32 over any source of units, from both ends, and encoders to UTF-8, UTF-16 and UTF-32.
#![tactic(auto)]

mod decode16;
mod decode32;
mod encode16;
mod encode32;
mod encode8;
mod ends;
mod hints;
mod lossy;
mod lossy_decoders;
mod lossy_ends;
mod lossy_with;
mod source;

pub use decode16::{DecodeUtf16, decode_utf16};
pub use decode32::{DecodeUtf32, decode_utf32};
pub use encode8::{EncodeUtf8, encode_utf8};
pub use encode16::{EncodeUtf16, encode_utf16};
pub use encode32::{EncodeUtf32, encode_utf32};
pub use ends::{End, read_ends16, read_ends32};
pub use lossy::{DecodeUtf16Lossy, DecodeUtf32Lossy, decode_utf16_lossy, decode_utf32_lossy};
pub use lossy_decoders::{
    DecodeUtf16LossyWith, DecodeUtf32LossyWith, decode_utf16_lossy_with, decode_utf32_lossy_with,
};
pub use lossy_ends::{read_lossy_ends16, read_lossy_ends32};
