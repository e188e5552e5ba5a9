//! How far decoding came.

/// How far decoding a chunk of bytes came.
#[derive(Clone, Copy, Debug, PartialEq, Eq)]
pub struct Decoding {
    /// How many bytes were read.
    pub read: usize,
    /// How many units were written.
    pub written: usize,
    /// Whether the last code point is the first half of a surrogate pair. Only WTF-8 keeps this from chunk to chunk.
    pub after_high: bool,
    /// Why it stopped.
    pub stop: DecodeStop,
}

/// Why decoding stopped after the bytes that were read.
#[derive(Clone, Copy, Debug, PartialEq, Eq)]
pub enum DecodeStop {
    /// No byte is left.
    AtEnd,
    /// Bytes are left, and fewer than two units of space.
    NoSpace,
    /// The bytes that are left, at most three, are the beginning of a unit or of a character.
    Incomplete,
    /// The bytes that are left begin with a fault.
    Fault {
        /// The ill-formed unit, or, if units are bytes, the first byte or the surrogate.
        unit: u32,
        /// How many bytes the fault has.
        len: usize,
    },
}
