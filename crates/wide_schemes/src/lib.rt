//! What bytes mean in the encoding schemes of Unicode, and in WTF-8, which holds units of 16 bits that may be ill-formed
//! (Unicode Standard, sections 3.9 and 3.10, D92 to D101): a chunk of bytes as units, and units as bytes. Vectorized, by
//! the conversions between forms.
#![tactic(auto)]

mod bytes;
mod decoding;
mod layout;
mod progress;
mod scheme;
mod text;
mod utf16;
mod utf32;
mod utf8;
mod wtf8;

pub use bytes::{encode, put_wtf8};
pub use decoding::decode;
pub use layout::Layout;
pub use progress::{DecodeStop, Decoding};
pub use scheme::{Scheme, keeps_halves, layout_from, layout_to, start_len};
pub use utf8::decode_utf8;
pub use utf16::decode_utf16;
pub use utf32::{decode_utf32, fill_units_32};
pub use wtf8::decode_wtf8;
