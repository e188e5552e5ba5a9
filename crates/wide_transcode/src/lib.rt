//! Transcodes UTF-16 in bytes to UTF-8 (Unicode Standard, section 3.9, D91 and D92, and section 3.10, D98):
//! [`transcode`] writes the UTF-8 of a source of UTF-16 into a sink, chunk by chunk. Encoding is vectorized.
#![tactic(auto)]

mod chunk_encoding;
mod chunks;
mod lossy;
mod mode;
mod transcoding;

pub use mode::Mode;
pub use transcoding::{transcode, transcode_with};
