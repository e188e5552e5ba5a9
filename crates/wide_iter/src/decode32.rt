//! The decoder of UTF-32.
ghost use Rattle.std.specs.Prelude.{◌≡◌, ◌∷◌, [], ℕ, false, List, Some};
ghost use Rattle.std.specs.Iterator.{size};
ghost use Rattle.wide_forms.specs.EncodingForm.{Utf32, IsCodeUnit};
ghost use Rattle.wide_forms.specs.Items.{items};
ghost use Rattle.wide_unit.specs.Unit.{reported_item};
ghost use Rattle.wide_iter.specs.Over.{FirstOver, LastOver};
ghost use Rattle.wide_iter.specs.Source.{has_ended, inner_of};
ghost use Rattle.wide_iter.specs.Decoder32.{source32_of, items32_left, CanDecode32, decoder32_count};

use crate::source::Source;
use std::iter::FusedIterator;
use wide_error::DecodeUtf32Error;
use wide_unit::Unit;

/// An iterator over the characters of UTF-32 units, and over the units that are no character (Unicode Standard, D90).
///
/// It yields each unit of the source that is a scalar value as `Ok`, and each other unit as an `Err` that holds its
/// number: two surrogates are two faults, never a pair. It iterates from both ends if the source does, and is an
/// `ExactSizeIterator` if the source is one. It is fused, and does not call a source again after its end. It does not
/// allocate. [`decode_utf32`] creates it.
///
/// # Example
///
/// ```
/// let mut decoder = decode_utf32([0x1_f600, 0xd83d, 0xde00]);
/// assert!(rt; decoder.len() == 3);
/// assert!(rt; decoder.next() == Some(Ok('😀')));
/// assert!(rt; decoder.next() == Some(Err(DecodeUtf32Error::new(0xd83d))));
/// ```
#[derive(Debug, Drop)]
pub struct DecodeUtf32<I> {
    source: Source<I>,
}

/// Creates a decoder of the units that `units` yields.
pub fn decode_utf32<U: IntoIterator<Item = u32>>(units: U) -> DecodeUtf32<U::IntoIter>
    ensures source { U.into_iter_gives units (inner_of (source32_of result)) }
    ensures new { has_ended (source32_of result) ≡ false }
    ensures items { (rest : U.IntoIter → List ℕ) → items32_left rest result ≡ items Utf32 (rest (inner_of (source32_of result))) }
{
    DecodeUtf32 {
        source: Source {
            inner: units.into_iter(),
            ended: false,
        },
    }
}

// Decodes one unit, whatever its neighbours.
fn decode_unit(unit: u32) -> Result<char, DecodeUtf32Error>
    ensures { items Utf32 (unit ∷ []) ≡ reported_item result ∷ [] }
{
    match unit.as_scalar() {
        Some(c) => Ok(c),
        None => Err(DecodeUtf32Error::new(unit)),
    }
}

impl<I: Iterator<Item = u32>> Iterator for DecodeUtf32<I> {
    type Item = Result<char, DecodeUtf32Error>;

    ghost can_next = { CanDecode32 I.can_next };

    ghost next_gives = { FirstOver (IsCodeUnit Utf32) I.next_gives reported_item items32_left };

    ghost remaining = { decoder32_count I.remaining };

    #[inline]
    fn next(&mut self) -> Option<Result<char, DecodeUtf32Error>> {
        let unit = self.source.next()?;
        Some(decode_unit(unit))
    }

    fn size_hint(&self) -> (usize, Option<usize>) {
        self.source.size_hint()
    }
}

impl<I: DoubleEndedIterator<Item = u32>> DoubleEndedIterator for DecodeUtf32<I> {
    ghost can_next_back = { CanDecode32 I.can_next_back };

    ghost next_back_gives = { LastOver (IsCodeUnit Utf32) I.next_back_gives reported_item items32_left };

    #[inline]
    fn next_back(&mut self) -> Option<Result<char, DecodeUtf32Error>> {
        let unit = self.source.next_back()?;
        Some(decode_unit(unit))
    }
}

impl<I: ExactSizeIterator<Item = u32>> ExactSizeIterator for DecodeUtf32<I> {
    fn len(&self) -> usize {
        self.source.len()
    }
}

impl<I: ExactSizeIterator<Item = u32>> DecodeUtf32<I> {
    /// Returns the number of items as both bounds, if the source knows how many units are left.
    pub fn size_hint(&self) -> (usize, Option<usize>)
        ensures lower { result.0 ≡ size (decoder32_count I.remaining self.now) }
        ensures upper { result.1 ≡ Some (size (decoder32_count I.remaining self.now)) }
    {
        let left = self.source.len();
        (left, Some(left))
    }
}

impl<I: Iterator<Item = u32>> FusedIterator for DecodeUtf32<I> {}
