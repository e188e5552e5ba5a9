//! The encoder to UTF-32.
ghost use Rattle.std.specs.Prelude.{◌≡◌, ℕ, List, length, Some};
ghost use Rattle.std.specs.Char.{IsScalar};
ghost use Rattle.wide_forms.specs.EncodingForm.{Utf32, encode};
ghost use Rattle.wide_iter.specs.Over.{FirstOver, LastOver};
ghost use Rattle.wide_iter.specs.Source.{inner_of, left_in_source};
ghost use Rattle.wide_iter.specs.Sources.{copied_rest};
ghost use Rattle.wide_iter.specs.Encoder32.{source_of, units_left, CanEncode, encoder_count, IsNew};

use crate::source::Source;
use std::iter::{Copied, FusedIterator};
use std::slice::Iter;

/// An iterator over the UTF-32 units of characters, one for each (Unicode Standard, D90).
///
/// It yields the unit of each character of the source. It iterates from both ends if the source does, and is an
/// `ExactSizeIterator` if the source is one. It is fused, and does not call a source again after its end. It does not
/// allocate. [`encode_utf32`] creates it.
///
/// # Example
///
/// ```
/// let units = encode_utf32("é😀".chars());
/// assert!(rt; units.eq([0xe9, 0x1_f600]));
/// ```
#[derive(Debug, Drop)]
pub struct EncodeUtf32<I> {
    source: Source<I>,
}

/// Creates an encoder to UTF-32 of the characters that `chars` yields.
pub fn encode_utf32<C: IntoIterator<Item = char>>(chars: C) -> EncodeUtf32<C::IntoIter>
    ensures source { C.into_iter_gives chars (inner_of (source_of result)) }
    ensures new { IsNew result }
    ensures units { (rest : C.IntoIter → List ℕ) → units_left rest result ≡ encode Utf32 (rest (inner_of (source_of result))) }
{
    EncodeUtf32 {
        source: Source {
            inner: chars.into_iter(),
            ended: false,
        },
    }
}

impl<I: Iterator<Item = char>> Iterator for EncodeUtf32<I> {
    type Item = u32;

    ghost can_next = { CanEncode I.can_next };

    ghost next_gives = { FirstOver IsScalar I.next_gives (λ u. u) units_left };

    ghost remaining = { encoder_count I.remaining };

    #[inline]
    fn next(&mut self) -> Option<u32> {
        let c = self.source.next()?;
        Some(u32::from(c))
    }

    fn size_hint(&self) -> (usize, Option<usize>) {
        self.source.size_hint()
    }
}

impl<I: DoubleEndedIterator<Item = char>> DoubleEndedIterator for EncodeUtf32<I> {
    ghost can_next_back = { CanEncode I.can_next_back };

    ghost next_back_gives = { LastOver IsScalar I.next_back_gives (λ u. u) units_left };

    #[inline]
    fn next_back(&mut self) -> Option<u32> {
        let c = self.source.next_back()?;
        Some(u32::from(c))
    }
}

impl<I: ExactSizeIterator<Item = char>> ExactSizeIterator for EncodeUtf32<I> {
    fn len(&self) -> usize {
        self.source.len()
    }
}

impl EncodeUtf32<Copied<Iter<'_, char>>> {
    /// Returns the number of units as both bounds, over the characters of a slice: one for each character that was not
    /// read yet.
    pub fn size_hint(&self) -> (usize, Option<usize>)
        ensures lower { result.0 ≡ length (left_in_source copied_rest (source_of self.now)) }
        ensures upper { result.1 ≡ Some (length (left_in_source copied_rest (source_of self.now))) }
    {
        let left = self.source.len();
        (left, Some(left))
    }
}

impl<I: Iterator<Item = char>> FusedIterator for EncodeUtf32<I> {}
