//! Iterators over the characters of a view, from both ends.
ghost use Rattle.std.specs.Prelude.{◌≡◌, ◌+◌, ◌/◌, length, Some, IfSome, ⊤};
ghost use Rattle.std.specs.Iterator.{YieldsFirst, YieldsFirstBy, YieldsLast, YieldsLastBy, at_most, UpTo};
ghost use Rattle.std.specs.Iterator.SizeHint.{IsWithinCount};
ghost use Rattle.wide_unit.specs.Unit.{item_of};
ghost use Rattle.wide_ustr.specs.Indexed.{indexed_item, taken_length};

use crate::offsets::Offsets;
use std::alloc::AllocError;
use std::iter::FusedIterator;
use wide_forms::or_replacement;
use wide_unit::{Unit, split_first, split_last};
use wide_utferror::FaultUnit;

// Returns the item with the error that a strict iterator yields for a fault.
fn reported<C: FaultUnit>(item: Result<char, C>) -> Result<char, C::Fault>
    ensures { item_of C.reported result ≡ item_of C.number item }
{
    match item {
        Ok(c) => Ok(c),
        Err(unit) => Err(unit.fault()),
    }
}

// Returns bounds on the number of characters of units that were not read yet: at least their number divided by the most
// units that a character takes, and at most their number.
fn unit_hint<C: Unit>(units: &[C]) -> (usize, Option<usize>)
    ensures least { result.0 ≡ length units.now / C.MAX_CHAR_LEN }
    ensures most { result.1 ≡ Some (length units.now) }
{
    (units.len() / C::MAX_CHAR_LEN, Some(units.len()))
}

/// An iterator over the characters of a view, which yields an error for each unit that belongs to none. Made by
/// [`UStr::chars`](crate::UStr::chars).
///
/// `{:?}` prints the units that were not read yet between quotes, as [`char::escape_debug`] escapes them. A unit that
/// belongs to no character is printed as `\<H>`, where `H` is its number in upper-case hexadecimal, without leading
/// zeros.
///
/// # Example
///
/// ```
/// let mut items = U16Str::from_slice(&[0x48, 0xd83d, 0xde00, 0xdc00]).chars();
/// assert!(rt; items.next() == Some(Ok('H')));
/// assert!(rt; items.next_back() == Some(Err(DecodeUtf16Error::new(0xdc00))));
/// assert!(rt; items.next_back() == Some(Ok('😀')));
/// ```
#[derive(Clone, Drop)]
pub struct Chars<'a, C> {
    pub(crate) rest: &'a [C],
}

/// An iterator over the characters of a view of 16-bit units.
pub type CharsUtf16<'a> = Chars<'a, u16>;

/// An iterator over the characters of a view of 32-bit units.
pub type CharsUtf32<'a> = Chars<'a, u32>;

impl<C: FaultUnit> Iterator for Chars<'_, C> {
    ghost use Rattle.wide_ustr.specs.Iter.{items_left, chars_rest};

    type Item = Result<char, C::Fault>;

    ghost next_gives = { YieldsFirstBy (item_of C.reported) (items_left C.form C.number) };

    ghost remaining = { λ s. at_most (length (chars_rest s)) };

    #[inline]
    fn next(&mut self) -> Option<Result<char, C::Fault>> {
        let (item, rest) = split_first(self.rest)?;
        self.rest = rest;
        Some(reported(item))
    }

    fn size_hint(&self) -> (usize, Option<usize>)
        ensures lower { IsWithinCount result.0 (at_most (length (chars_rest self.now))) }
        ensures upper { IfSome result.1 (UpTo (at_most (length (chars_rest self.now)))) }
        ensures least { result.0 ≡ length (chars_rest self.now) / C.MAX_CHAR_LEN }
        ensures most { result.1 ≡ Some (length (chars_rest self.now)) }
    {
        unit_hint(self.rest)
    }
}

impl<C: FaultUnit> DoubleEndedIterator for Chars<'_, C> {
    ghost use Rattle.wide_ustr.specs.Iter.{items_left};

    ghost next_back_gives = { YieldsLastBy (item_of C.reported) (items_left C.form C.number) };

    #[inline]
    fn next_back(&mut self) -> Option<Result<char, C::Fault>> {
        let (rest, item) = split_last(self.rest)?;
        self.rest = rest;
        Some(reported(item))
    }
}

impl ExactSizeIterator for Chars<'_, u32> {
    fn len(&self) -> usize {
        self.rest.len()
    }
}

impl<C: FaultUnit> FusedIterator for Chars<'_, C> {}

/// An iterator over the characters of a view, with one U+FFFD for each unit that belongs to none. Made by
/// [`UStr::chars_lossy`](crate::UStr::chars_lossy).
///
/// `{:?}` prints the characters that were not read yet between quotes, as [`char::escape_debug`] escapes them. A fault
/// is printed as the escape of U+FFFD.
///
/// # Example
///
/// ```
/// let mut characters = U16Str::from_slice(&[0xdc00, 0x48, 0xd83d, 0xde00]).chars_lossy();
/// assert!(rt; characters.next() == Some('\u{fffd}'));
/// assert!(rt; characters.next_back() == Some('😀'));
/// ```
#[derive(Clone, Drop)]
pub struct CharsLossy<'a, C> {
    pub(crate) rest: &'a [C],
}

/// An iterator over the lossy characters of a view of 16-bit units.
pub type CharsLossyUtf16<'a> = CharsLossy<'a, u16>;

/// An iterator over the lossy characters of a view of 32-bit units.
pub type CharsLossyUtf32<'a> = CharsLossy<'a, u32>;

impl<C: Unit> Iterator for CharsLossy<'_, C> {
    ghost use Rattle.wide_ustr.specs.Iter.{lossy_left, chars_lossy_rest};

    type Item = char;

    ghost next_gives = { YieldsFirst (lossy_left C.form C.number) };

    ghost remaining = { λ s. at_most (length (chars_lossy_rest s)) };

    #[inline]
    fn next(&mut self) -> Option<char> {
        let (item, rest) = split_first(self.rest)?;
        self.rest = rest;
        Some(or_replacement(item))
    }

    fn size_hint(&self) -> (usize, Option<usize>)
        ensures lower { IsWithinCount result.0 (at_most (length (chars_lossy_rest self.now))) }
        ensures upper { IfSome result.1 (UpTo (at_most (length (chars_lossy_rest self.now)))) }
        ensures least { result.0 ≡ length (chars_lossy_rest self.now) / C.MAX_CHAR_LEN }
        ensures most { result.1 ≡ Some (length (chars_lossy_rest self.now)) }
    {
        unit_hint(self.rest)
    }
}

impl<C: Unit> DoubleEndedIterator for CharsLossy<'_, C> {
    ghost use Rattle.wide_ustr.specs.Iter.{lossy_left};

    ghost next_back_gives = { YieldsLast (lossy_left C.form C.number) };

    #[inline]
    fn next_back(&mut self) -> Option<char> {
        let (rest, item) = split_last(self.rest)?;
        self.rest = rest;
        Some(or_replacement(item))
    }
}

impl ExactSizeIterator for CharsLossy<'_, u32> {
    fn len(&self) -> usize {
        self.rest.len()
    }
}

impl<C: Unit> FusedIterator for CharsLossy<'_, C> {}

/// An iterator over the characters of a view and the units that belong to none, each with the offset, in units, at
/// which it begins. Made by [`UStr::char_indices`](crate::UStr::char_indices).
///
/// # Example
///
/// ```
/// let mut items = U16Str::from_slice(&[0xd83d, 0xde00, 0xdc00]).char_indices();
/// assert!(rt; items.next() == Some((0, Ok('😀'))));
/// assert!(rt; items.offset() == 2);
/// assert!(rt; items.next() == Some((2, Err(DecodeUtf16Error::new(0xdc00)))));
/// ```
#[derive(Debug, Drop)]
pub struct CharIndices<'a, C> {
    offsets: Offsets<'a, C>,
}

/// An iterator over the characters of a view of 16-bit units, with their offsets in units.
pub type CharIndicesUtf16<'a> = CharIndices<'a, u16>;

/// An iterator over the characters of a view of 32-bit units, with their offsets in units.
pub type CharIndicesUtf32<'a> = CharIndices<'a, u32>;

impl<'a, C: FaultUnit> CharIndices<'a, C> {
    ghost use Rattle.wide_ustr.specs.Iter.{indices_rest, offset_of};

    pub(crate) fn new(units: &'a [C]) -> Self
        ensures rest { indices_rest result ≡ units.now }
        ensures offset { offset_of result ≡ 0 }
    {
        CharIndices {
            offsets: Offsets {
                rest: units,
                offset: 0,
            },
        }
    }

    /// Returns the offset, in units, of the next item from the front, which is how many units were read from the front.
    pub fn offset(&self) -> usize
        ensures { result ≡ offset_of self.now }
    {
        self.offsets.offset
    }
}

impl<C: Copy> Clone for CharIndices<'_, C> {
    ghost is_clone = { λ s r. r ≡ s };

    ghost is_infallible = { λ _. ⊤ };

    /// Returns a copy that yields the same items and offsets.
    fn clone(&self) -> Result<Self, AllocError> {
        Ok(CharIndices {
            offsets: self.offsets,
        })
    }
}

impl<C: FaultUnit> Iterator for CharIndices<'_, C> {
    ghost use Rattle.wide_ustr.specs.Iter.{indices_left, indices_rest, offset_of};

    type Item = (usize, Result<char, C::Fault>);

    ghost next_gives = { λ s r t. YieldsFirstBy (indexed_item C.reported) (indices_left C.form C.number) s r t × (offset_of t ≡ offset_of s + taken_length C.reported C.form r) };

    ghost remaining = { λ s. at_most (length (indices_rest s)) };

    #[inline]
    fn next(&mut self) -> Option<(usize, Result<char, C::Fault>)> {
        let (offset, item) = self.offsets.first()?;
        Some((offset, reported(item)))
    }

    fn size_hint(&self) -> (usize, Option<usize>)
        ensures lower { IsWithinCount result.0 (at_most (length (indices_rest self.now))) }
        ensures upper { IfSome result.1 (UpTo (at_most (length (indices_rest self.now)))) }
        ensures least { result.0 ≡ length (indices_rest self.now) / C.MAX_CHAR_LEN }
        ensures most { result.1 ≡ Some (length (indices_rest self.now)) }
    {
        unit_hint(self.offsets.rest)
    }
}

impl<C: FaultUnit> DoubleEndedIterator for CharIndices<'_, C> {
    ghost use Rattle.wide_ustr.specs.Iter.{indices_left, offset_of};

    ghost next_back_gives = { λ s r t. YieldsLastBy (indexed_item C.reported) (indices_left C.form C.number) s r t × (offset_of t ≡ offset_of s) };

    #[inline]
    fn next_back(&mut self) -> Option<(usize, Result<char, C::Fault>)> {
        let (offset, item) = self.offsets.last()?;
        Some((offset, reported(item)))
    }
}

impl ExactSizeIterator for CharIndices<'_, u32> {
    fn len(&self) -> usize {
        self.offsets.rest.len()
    }
}

impl<C: FaultUnit> FusedIterator for CharIndices<'_, C> {}

/// An iterator over the characters of a view, with one U+FFFD for each unit that belongs to none, each with the offset,
/// in units, at which it begins. Made by [`UStr::char_indices_lossy`](crate::UStr::char_indices_lossy).
///
/// # Example
///
/// ```
/// let mut characters = U16Str::from_slice(&[0xd83d, 0xde00, 0xdc00]).char_indices_lossy();
/// assert!(rt; characters.next_back() == Some((2, '\u{fffd}')));
/// assert!(rt; characters.next() == Some((0, '😀')));
/// assert!(rt; characters.offset() == 2);
/// ```
#[derive(Debug, Drop)]
pub struct CharIndicesLossy<'a, C> {
    offsets: Offsets<'a, C>,
}

/// An iterator over the lossy characters of a view of 16-bit units, with their offsets in units.
pub type CharIndicesLossyUtf16<'a> = CharIndicesLossy<'a, u16>;

/// An iterator over the lossy characters of a view of 32-bit units, with their offsets in units.
pub type CharIndicesLossyUtf32<'a> = CharIndicesLossy<'a, u32>;

impl<'a, C: Unit> CharIndicesLossy<'a, C> {
    ghost use Rattle.wide_ustr.specs.Iter.{indices_lossy_rest, lossy_offset_of};

    pub(crate) fn new(units: &'a [C]) -> Self
        ensures rest { indices_lossy_rest result ≡ units.now }
        ensures offset { lossy_offset_of result ≡ 0 }
    {
        CharIndicesLossy {
            offsets: Offsets {
                rest: units,
                offset: 0,
            },
        }
    }

    /// Returns the offset, in units, of the next character from the front, which is how many units were read from the
    /// front.
    pub fn offset(&self) -> usize
        ensures { result ≡ lossy_offset_of self.now }
    {
        self.offsets.offset
    }
}

impl<C: Copy> Clone for CharIndicesLossy<'_, C> {
    ghost is_clone = { λ s r. r ≡ s };

    ghost is_infallible = { λ _. ⊤ };

    /// Returns a copy that yields the same characters and offsets.
    fn clone(&self) -> Result<Self, AllocError> {
        Ok(CharIndicesLossy {
            offsets: self.offsets,
        })
    }
}

impl<C: Unit> Iterator for CharIndicesLossy<'_, C> {
    ghost use Rattle.wide_ustr.specs.Iter.{indices_lossy_left, indices_lossy_rest, lossy_offset_of, given_length};

    type Item = (usize, char);

    ghost next_gives = { λ s r t. YieldsFirst (indices_lossy_left C.form C.number) s r t × (lossy_offset_of t ≡ lossy_offset_of s + given_length C.form r) };

    ghost remaining = { λ s. at_most (length (indices_lossy_rest s)) };

    #[inline]
    fn next(&mut self) -> Option<(usize, char)> {
        let (offset, item) = self.offsets.first()?;
        Some((offset, or_replacement(item)))
    }

    fn size_hint(&self) -> (usize, Option<usize>)
        ensures lower { IsWithinCount result.0 (at_most (length (indices_lossy_rest self.now))) }
        ensures upper { IfSome result.1 (UpTo (at_most (length (indices_lossy_rest self.now)))) }
        ensures least { result.0 ≡ length (indices_lossy_rest self.now) / C.MAX_CHAR_LEN }
        ensures most { result.1 ≡ Some (length (indices_lossy_rest self.now)) }
    {
        unit_hint(self.offsets.rest)
    }
}

impl<C: Unit> DoubleEndedIterator for CharIndicesLossy<'_, C> {
    ghost use Rattle.wide_ustr.specs.Iter.{indices_lossy_left, lossy_offset_of};

    ghost next_back_gives = { λ s r t. YieldsLast (indices_lossy_left C.form C.number) s r t × (lossy_offset_of t ≡ lossy_offset_of s) };

    #[inline]
    fn next_back(&mut self) -> Option<(usize, char)> {
        let (offset, item) = self.offsets.last()?;
        Some((offset, or_replacement(item)))
    }
}

impl ExactSizeIterator for CharIndicesLossy<'_, u32> {
    fn len(&self) -> usize {
        self.offsets.rest.len()
    }
}

impl<C: Unit> FusedIterator for CharIndicesLossy<'_, C> {}
