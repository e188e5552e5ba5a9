//! How much of a text was read.

ghost use Rattle.std.specs.Prelude.{◌≡◌};
ghost use Rattle.wide_convert.specs.Positions.{IsPosition, counted};

/// A position in a text that is read: what precedes it. Each number stays at 2^64 - 1 if it would be greater.
///
/// # Example
///
/// ```
/// use widestring::Policy;
/// use widestring::convert::{Converter, Position, Scheme};
///
/// let mut text = [0; 16];
/// let mut converter = Converter::new(Scheme::Utf8, Scheme::Utf16Le, Some(Policy::Each), false);
/// let _progress = converter.push_last(b"a\xff\xffb", &mut text);
/// let end = Position {
///     bytes: 4,
///     items: 4,
///     faults: 2,
/// };
/// assert!(rt; converter.position() == end);
/// ```
#[derive(Clone, Copy, Debug, PartialEq, Eq)]
pub struct Position {
    /// How many bytes precede it, those of a BOM included.
    pub bytes: u64,
    /// How many items, characters and faults, precede it, without a BOM.
    pub items: u64,
    /// How many of these items are faults.
    pub faults: u64,
}

impl Position {
    // Returns the position of the beginning.
    pub(crate) fn start() -> Position
        ensures { result ≡ record { bytes = 0; items = 0; faults = 0 } }
    {
        Position {
            bytes: 0,
            items: 0,
            faults: 0,
        }
    }

    // Returns the position after so many more bytes, items and faults.
    pub(crate) fn after(self, bytes: usize, items: usize, faults: usize) -> Position
        ensures bytes { result.bytes ≡ counted self.bytes bytes }
        ensures items { result.items ≡ counted self.items items }
        ensures faults { result.faults ≡ counted self.faults faults }
    {
        Position {
            bytes: self.bytes.saturating_add(bytes as u64),
            items: self.items.saturating_add(items as u64),
            faults: self.faults.saturating_add(faults as u64),
        }
    }
}

// States that the numbers of a position have 64 bits.
pub(crate) fn position_fits(bytes: u64, items: u64, faults: u64)
    ensures { IsPosition (record { bytes = bytes; items = items; faults = faults }) }
{}
