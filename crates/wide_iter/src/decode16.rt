//! The decoder of UTF-16.
ghost use Rattle.std.specs.Prelude.{◌≡◌, ◌≤◌, ◌/◌, ◌*◌, ℕ, List, length, IfNone, IfSome, None, Some};
ghost use Rattle.std.specs.Iterator.{MakesProgress, UpTo};
ghost use Rattle.std.specs.Iterator.SizeHint.{IsWithinCount};
ghost use Rattle.wide_forms.specs.EncodingForm.{Utf16, IsCodeUnit};
ghost use Rattle.wide_forms.specs.Items.{items};
ghost use Rattle.wide_unit.specs.Unit.{reported_item};
ghost use Rattle.wide_iter.specs.Over.{FirstOver, LastOver};
ghost use Rattle.wide_iter.specs.Source.{inner_of, left_in_source, source_count};
ghost use Rattle.wide_iter.specs.Sources.{copied_rest};
ghost use Rattle.wide_iter.specs.Decoder16.{source_of, front_lookahead, back_lookahead, units_left, items_left, CanDecode, decoder_count, IsSpent, IsNew, pending, upper_with};

use crate::source::Source;
use std::iter::{Copied, FusedIterator};
use std::slice::Iter;
use wide_error::DecodeUtf16Error;
use wide_unit::Unit;

/// An iterator over the characters of UTF-16 units, and over the units that belong to no character (Unicode Standard,
/// D91).
///
/// It yields each character of the source as `Ok`, and each unpaired surrogate as an `Err` that holds the unit. It
/// iterates from both ends if the source does. It is fused, and does not call a source again after its end. It does not
/// allocate. [`decode_utf16`] creates it.
///
/// # Example
///
/// ```
/// let mut decoder = decode_utf16([0x48, 0xd83d, 0xde00]);
/// assert!(rt; decoder.next_back() == Some(Ok('😀')));
/// assert!(rt; decoder.next() == Some(Ok('H')));
/// assert!(rt; decoder.next().is_none());
/// ```
#[derive(Debug, Drop)]
pub struct DecodeUtf16<I> {
    source: Source<I>,
    // The lookahead at the front: a unit that was read past an unpaired surrogate and is not yet decoded.
    front: Option<u16>,
    // The lookahead at the back: a unit that was read before an unpaired surrogate and is not yet decoded.
    back: Option<u16>,
}

/// Creates a decoder of the units that `units` yields.
///
/// # Example
///
/// ```
/// let mut decoder = decode_utf16([0xe9, 0xd83d, 0xde00, 0xdc00]);
/// assert!(rt; decoder.next() == Some(Ok('é')));
/// assert!(rt; decoder.next() == Some(Ok('😀')));
/// assert!(rt; decoder.next() == Some(Err(DecodeUtf16Error::new(0xdc00))));
/// ```
pub fn decode_utf16<U: IntoIterator<Item = u16>>(units: U) -> DecodeUtf16<U::IntoIter>
    ensures source { U.into_iter_gives units (inner_of (source_of result)) }
    ensures new { IsNew result }
    ensures items { (rest : U.IntoIter → List ℕ) → items_left rest result ≡ items Utf16 (rest (inner_of (source_of result))) }
{
    DecodeUtf16 {
        source: Source {
            inner: units.into_iter(),
            ended: false,
        },
        front: None,
        back: None,
    }
}

// Returns the size hint of a decoder of UTF-16, from the hint of its source and the number of units in the lookahead:
// at least one item for two units of the source, and at most one for each unit, if that number does not overflow.
fn decoded_hint(source: (usize, Option<usize>), pending: usize) -> (usize, Option<usize>)
    ensures lower { result.0 ≡ source.0 / 2 }
    ensures upper { result.1 ≡ upper_with source.1 pending }
{
    let upper = match source.1 {
        Some(upper) => upper.checked_add(pending),
        None => None,
    };
    (source.0 / 2, upper)
}

impl<I> DecodeUtf16<I> {
    // Returns the number of units in the lookahead.
    fn pending(&self) -> usize
        ensures value { result ≡ pending self.now }
        ensures bound { result ≤ 2 }
    {
        usize::from(self.front.is_some()) + usize::from(self.back.is_some())
    }
}

impl<I: Iterator<Item = u16>> DecodeUtf16<I> {
    // Returns the next unit: from the lookahead at the front, from the source, or from the lookahead at the back.
    fn take_front(&mut self) -> Option<u16>
        requires { CanDecode I.can_next self.old }
        ensures steps { FirstOver (IsCodeUnit Utf16) I.next_gives (λ u. u) units_left self.old result self.new }
        ensures goes { MakesProgress (CanDecode I.can_next) (decoder_count I.remaining) self.old result self.new }
        ensures lookahead { front_lookahead self.new ≡ None }
        ensures ends { IfNone result (IsSpent self.new) }
        ensures stays { IsSpent self.old → (result ≡ None) × IsSpent self.new }
    {
        if let Some(unit) = self.front.take() {
            return Some(unit);
        }
        if let Some(unit) = self.source.next() {
            return Some(unit);
        }
        self.back.take()
    }
}

impl<I: DoubleEndedIterator<Item = u16>> DecodeUtf16<I> {
    // Returns the last unit: from the lookahead at the back, from the source, or from the lookahead at the front.
    fn take_back(&mut self) -> Option<u16>
        requires { CanDecode I.can_next_back self.old }
        ensures steps { LastOver (IsCodeUnit Utf16) I.next_back_gives (λ u. u) units_left self.old result self.new }
        ensures goes { MakesProgress (CanDecode I.can_next_back) (decoder_count I.remaining) self.old result self.new }
        ensures lookahead { back_lookahead self.new ≡ None }
        ensures ends { IfNone result (IsSpent self.new) }
        ensures stays { IsSpent self.old → (result ≡ None) × IsSpent self.new }
    {
        if let Some(unit) = self.back.take() {
            return Some(unit);
        }
        if let Some(unit) = self.source.next_back() {
            return Some(unit);
        }
        self.front.take()
    }
}

impl<I: Iterator<Item = u16>> Iterator for DecodeUtf16<I> {
    type Item = Result<char, DecodeUtf16Error>;

    ghost can_next = { CanDecode I.can_next };

    ghost next_gives = { FirstOver (IsCodeUnit Utf16) I.next_gives reported_item items_left };

    ghost remaining = { decoder_count I.remaining };

    #[inline]
    fn next(&mut self) -> Option<Result<char, DecodeUtf16Error>> {
        let first = self.take_front()?;
        if let Some(c) = first.as_scalar() {
            return Some(Ok(c));
        }
        // A low surrogate is a fault whatever follows it.
        if !first.is_high() {
            return Some(Err(DecodeUtf16Error::new(first)));
        }
        let Some(second) = self.take_front() else {
            return Some(Err(DecodeUtf16Error::new(first)));
        };
        if let Some(c) = first.pair_scalar(second) {
            return Some(Ok(c));
        }
        self.front = Some(second);
        Some(Err(DecodeUtf16Error::new(first)))
    }

    fn size_hint(&self) -> (usize, Option<usize>)
        ensures lower { IsWithinCount result.0 (decoder_count I.remaining self.now) }
        ensures upper { IfSome result.1 (UpTo (decoder_count I.remaining self.now)) }
        ensures least { IsWithinCount (result.0 * 2) (source_count I.remaining (source_of self.now)) }
    {
        decoded_hint(self.source.size_hint(), self.pending())
    }
}

impl<I: DoubleEndedIterator<Item = u16>> DoubleEndedIterator for DecodeUtf16<I> {
    ghost can_next_back = { CanDecode I.can_next_back };

    ghost next_back_gives = { LastOver (IsCodeUnit Utf16) I.next_back_gives reported_item items_left };

    #[inline]
    fn next_back(&mut self) -> Option<Result<char, DecodeUtf16Error>> {
        let last = self.take_back()?;
        if let Some(c) = last.as_scalar() {
            return Some(Ok(c));
        }
        // A high surrogate is a fault whatever precedes it.
        if !last.is_low() {
            return Some(Err(DecodeUtf16Error::new(last)));
        }
        let Some(before) = self.take_back() else {
            return Some(Err(DecodeUtf16Error::new(last)));
        };
        if let Some(c) = before.pair_scalar(last) {
            return Some(Ok(c));
        }
        self.back = Some(before);
        Some(Err(DecodeUtf16Error::new(last)))
    }
}

impl DecodeUtf16<Copied<Iter<'_, u16>>> {
    /// Returns bounds on the number of items, from the length of the slice: at least one for two units that were not
    /// read yet, and at most one for each of these and each in the lookahead. Generic code uses the trait's
    /// `size_hint`, whose contract says less.
    pub fn size_hint(&self) -> (usize, Option<usize>)
        ensures lower { result.0 ≡ length (left_in_source copied_rest (source_of self.now)) / 2 }
        ensures upper { result.1 ≡ upper_with (Some (length (left_in_source copied_rest (source_of self.now)))) (pending self.now) }
    {
        let left = self.source.len();
        decoded_hint((left, Some(left)), self.pending())
    }
}

impl<I: Iterator<Item = u16>> FusedIterator for DecodeUtf16<I> {}
