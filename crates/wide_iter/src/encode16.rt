//! The encoder to UTF-16.
ghost use Rattle.std.specs.Prelude.{◌≡◌, ℕ, List, length, IfSome, Some};
ghost use Rattle.std.specs.Option.{option_len};
ghost use Rattle.std.specs.Iterator.{UpTo};
ghost use Rattle.std.specs.Iterator.SizeHint.{IsWithinCount};
ghost use Rattle.std.specs.Char.{IsScalar};
ghost use Rattle.wide_forms.specs.EncodingForm.{Utf16, encode};
ghost use Rattle.wide_iter.specs.Over.{FirstOver};
ghost use Rattle.wide_iter.specs.Hints.{upper_times};
ghost use Rattle.wide_iter.specs.Source.{inner_of, source_count, left_in_source};
ghost use Rattle.wide_iter.specs.Sources.{copied_rest};
ghost use Rattle.wide_iter.specs.Encoder16.{source_of, unit_in_lookahead, units_left, CanEncode, encoder_count, IsNew};

use crate::hints::encoded_hint;
use crate::source::Source;
use std::iter::{Copied, FusedIterator};
use std::slice::Iter;
use wide_unit::Unit;

/// An iterator over the UTF-16 units of characters (Unicode Standard, D91, Table 3-5).
///
/// It yields the one or two units of each character of the source, in order, from the front only. It is fused, and does
/// not call a source again after its end. It does not allocate. [`encode_utf16`] creates it.
///
/// # Example
///
/// ```
/// let mut units = encode_utf16("😀".chars());
/// assert!(rt; units.next() == Some(0xd83d));
/// assert!(rt; units.next() == Some(0xde00));
/// assert!(rt; units.next().is_none());
/// ```
#[derive(Debug, Drop)]
pub struct EncodeUtf16<I> {
    source: Source<I>,
    // The pending unit: the second of a pair whose first unit was yielded.
    second: Option<u16>,
}

/// Creates an encoder to UTF-16 of the characters that `chars` yields.
///
/// # Example
///
/// ```
/// let units: Vec<u16> = encode_utf16("Hé😀".chars()).collect(rt.alloc())?;
/// assert!(rt; units.as_slice() == [0x48, 0xe9, 0xd83d, 0xde00].as_slice());
/// ```
pub fn encode_utf16<C: IntoIterator<Item = char>>(chars: C) -> EncodeUtf16<C::IntoIter>
    ensures source { C.into_iter_gives chars (inner_of (source_of result)) }
    ensures new { IsNew result }
    ensures units { (rest : C.IntoIter → List ℕ) → units_left rest result ≡ encode Utf16 (rest (inner_of (source_of result))) }
{
    EncodeUtf16 {
        source: Source {
            inner: chars.into_iter(),
            ended: false,
        },
        second: None,
    }
}

impl<I: Iterator<Item = char>> Iterator for EncodeUtf16<I> {
    type Item = u16;

    ghost can_next = { CanEncode I.can_next };

    ghost next_gives = { FirstOver IsScalar I.next_gives (λ u. u) units_left };

    ghost remaining = { encoder_count I.remaining };

    #[inline]
    fn next(&mut self) -> Option<u16> {
        if let Some(unit) = self.second.take() {
            return Some(unit);
        }
        let (first, second) = u16::encode_char(self.source.next()?);
        self.second = second;
        Some(first)
    }

    fn size_hint(&self) -> (usize, Option<usize>)
        ensures lower { IsWithinCount result.0 (encoder_count I.remaining self.now) }
        ensures upper { IfSome result.1 (UpTo (encoder_count I.remaining self.now)) }
        ensures least { IsWithinCount result.0 (source_count I.remaining (source_of self.now)) }
    {
        encoded_hint(
            self.source.size_hint(),
            2,
            usize::from(self.second.is_some()),
        )
    }
}

impl EncodeUtf16<Copied<Iter<'_, char>>> {
    /// Returns bounds on the number of units, from the length of the slice: at least one for each character that was
    /// not read yet, and at most two for each of these and one for a pending unit. Generic code uses the trait's
    /// `size_hint`, whose contract says less.
    pub fn size_hint(&self) -> (usize, Option<usize>)
        ensures lower { result.0 ≡ length (left_in_source copied_rest (source_of self.now)) }
        ensures upper { result.1 ≡ upper_times (Some (length (left_in_source copied_rest (source_of self.now)))) 2 (option_len (unit_in_lookahead self.now)) }
    {
        let left = self.source.len();
        encoded_hint((left, Some(left)), 2, usize::from(self.second.is_some()))
    }
}

impl<I: Iterator<Item = char>> FusedIterator for EncodeUtf16<I> {}
