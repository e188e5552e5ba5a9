//! Iterators over well-formed text.
ghost use Rattle.std.specs.Prelude.{◌≡◌, ◌+◌, ◌/◌, ◌<◌, ◌≤◌, ◌^◌, length, map, Some, IfSome, ⊤};
ghost use Rattle.std.specs.Iterator.{YieldsFirst, YieldsLast, at_most, UpTo};
ghost use Rattle.std.specs.Iterator.SizeHint.{IsWithinCount};
ghost use Rattle.wide_forms.specs.Items.{chars};
ghost use Rattle.wide_utfstr.specs.View.{units_seen, text_seen};

use crate::view::UtfStr;
use std::alloc::AllocError;
use std::iter::FusedIterator;
use wide_unit::Unit;

// Returns bounds on the number of characters of a text: at least its length divided by the most units that a character
// takes, and at most its length in units.
fn hint_of<C: Unit>(text: UtfStr<'_, C>) -> (usize, Option<usize>)
    ensures least { result.0 ≡ length (units_seen text.entry) / C.MAX_CHAR_LEN }
    ensures most { result.1 ≡ Some (length (units_seen text.entry)) }
    ensures lower { result.0 ≤ length (text_seen text.entry) }
    ensures upper { length (text_seen text.entry) ≤ length (units_seen text.entry) }
{
    // This call is for its contract: no character takes more units than `MAX_CHAR_LEN`.
    let _longest = C::char_len('\u{10000}');
    (text.len() / C::MAX_CHAR_LEN, Some(text.len()))
}

/// An iterator over the characters of a well-formed view. Made by [`UtfStr::chars`](crate::UtfStr::chars).
///
/// `{}` and `{:?}` print the characters that were not read yet, as they print a view of them.
///
/// # Example
///
/// ```
/// let mut rest = Utf16Str::from_slice(&[0x48, 0x69, 0xd83d, 0xde00])?.chars();
/// assert!(rt; rest.next() == Some('H'));
/// let text = rest.to_string(rt.alloc())?;
/// assert!(rt; text.as_str() == "i😀");
/// ```
#[derive(Drop)]
pub struct Chars<'a, C: Unit> {
    pub(crate) text: UtfStr<'a, C>,
}

/// An iterator over the characters of well-formed UTF-16.
pub type CharsUtf16<'a> = Chars<'a, u16>;

/// An iterator over the characters of well-formed UTF-32.
pub type CharsUtf32<'a> = Chars<'a, u32>;

impl<C: Unit> Clone for Chars<'_, C> {
    ghost is_clone = { λ s r. r ≡ s };

    ghost is_infallible = { λ _. ⊤ };

    /// Returns a copy that yields the same characters.
    fn clone(&self) -> Result<Self, AllocError> {
        Ok(Chars { text: self.text })
    }
}

impl<C: Unit> Iterator for Chars<'_, C> {
    ghost use Rattle.wide_utfstr.specs.Iter.{chars_left, chars_rest};

    type Item = char;

    ghost next_gives = { YieldsFirst (chars_left C.form C.number) };

    ghost remaining = { λ s. at_most (length (chars_rest s)) };

    #[inline]
    fn next(&mut self) -> Option<char> {
        let (first, others) = self.text.split_first_char()?;
        self.text = others;
        Some(first)
    }

    fn size_hint(&self) -> (usize, Option<usize>)
        ensures lower { IsWithinCount result.0 (at_most (length (chars_rest self.now))) }
        ensures upper { IfSome result.1 (UpTo (at_most (length (chars_rest self.now)))) }
        ensures least { result.0 ≡ length (chars_rest self.now) / C.MAX_CHAR_LEN }
        ensures most { result.1 ≡ Some (length (chars_rest self.now)) }
        ensures fewest { result.0 ≤ length (chars_left C.form C.number self.now) }
        ensures greatest { length (chars_left C.form C.number self.now) ≤ length (chars_rest self.now) }
    {
        hint_of(self.text)
    }
}

impl<C: Unit> DoubleEndedIterator for Chars<'_, C> {
    ghost use Rattle.wide_utfstr.specs.Iter.{chars_left};

    ghost next_back_gives = { YieldsLast (chars_left C.form C.number) };

    #[inline]
    fn next_back(&mut self) -> Option<char> {
        let (others, last) = self.text.split_last_char()?;
        self.text = others;
        Some(last)
    }
}

impl ExactSizeIterator for Chars<'_, u32> {
    fn len(&self) -> usize {
        self.text.len()
    }
}

impl<C: Unit> FusedIterator for Chars<'_, C> {}

/// An iterator over the characters of a well-formed view, each with the offset, in units, at which it begins. Made by
/// [`UtfStr::char_indices`](crate::UtfStr::char_indices).
///
/// # Example
///
/// ```
/// let mut characters = Utf16Str::from_slice(&[0xd83d, 0xde00, 0x48, 0x69])?.char_indices();
/// assert!(rt; characters.next() == Some((0, '😀')));
/// assert!(rt; characters.offset() == 2);
/// assert!(rt; characters.next_back() == Some((3, 'i')));
/// ```
#[derive(Debug, Drop)]
pub struct CharIndices<'a, C: Unit> {
    text: UtfStr<'a, C>,
    offset: usize,
    ghost fits: { offset + length (units_seen text) < 2 ^ 64 },
}

/// An iterator over the characters of well-formed UTF-16, with their offsets in units.
pub type CharIndicesUtf16<'a> = CharIndices<'a, u16>;

/// An iterator over the characters of well-formed UTF-32, with their offsets in units.
pub type CharIndicesUtf32<'a> = CharIndices<'a, u32>;

impl<'a, C: Unit> CharIndices<'a, C> {
    ghost use Rattle.wide_utfstr.specs.Iter.{indices_rest, offset_of};

    pub(crate) fn new(text: UtfStr<'a, C>) -> Self
        ensures rest { indices_rest result ≡ units_seen text.entry }
        ensures offset { offset_of result ≡ 0 }
    {
        let _units = text.len();
        CharIndices { text, offset: 0 }
    }

    /// Returns the offset, in units, of the next character from the front: how many units were read from there.
    pub fn offset(&self) -> usize
        ensures { result ≡ offset_of self.now }
    {
        self.offset
    }
}

impl<C: Unit> Clone for CharIndices<'_, C> {
    ghost is_clone = { λ s r. r ≡ s };

    ghost is_infallible = { λ _. ⊤ };

    /// Returns a copy that yields the same characters and offsets.
    fn clone(&self) -> Result<Self, AllocError> {
        Ok(CharIndices {
            text: self.text,
            offset: self.offset,
        })
    }
}

impl<C: Unit> Iterator for CharIndices<'_, C> {
    ghost use Rattle.wide_utfstr.specs.Iter.{indices_rest, IndicesGive};

    type Item = (usize, char);

    ghost next_gives = { IndicesGive };

    ghost remaining = { λ s. at_most (length (indices_rest s)) };

    #[inline]
    fn next(&mut self) -> Option<(usize, char)> {
        let (c, others) = self.text.split_first_char()?;
        let offset = self.offset;
        let taken = self.text.len() - others.len();
        self.text = others;
        self.offset = offset + taken;
        Some((offset, c))
    }

    fn size_hint(&self) -> (usize, Option<usize>)
        ensures lower { IsWithinCount result.0 (at_most (length (indices_rest self.now))) }
        ensures upper { IfSome result.1 (UpTo (at_most (length (indices_rest self.now)))) }
        ensures least { result.0 ≡ length (indices_rest self.now) / C.MAX_CHAR_LEN }
        ensures most { result.1 ≡ Some (length (indices_rest self.now)) }
    {
        hint_of(self.text)
    }
}

impl<C: Unit> DoubleEndedIterator for CharIndices<'_, C> {
    ghost use Rattle.wide_utfstr.specs.Iter.{IndicesGiveBack};

    ghost next_back_gives = { IndicesGiveBack };

    #[inline]
    fn next_back(&mut self) -> Option<(usize, char)> {
        let (others, c) = self.text.split_last_char()?;
        self.text = others;
        Some((self.offset + others.len(), c))
    }
}

impl ExactSizeIterator for CharIndices<'_, u32> {
    fn len(&self) -> usize {
        self.text.len()
    }
}

impl<C: Unit> FusedIterator for CharIndices<'_, C> {}

/// An iterator over the units of well-formed UTF-16. Made by [`UtfStr::code_units`](crate::UtfStr::code_units).
///
/// # Example
///
/// ```
/// let mut units = Utf16Str::from_slice(&[0x48, 0xd83d, 0xde00])?.code_units();
/// assert!(rt; units.len() == 3);
/// assert!(rt; units.next_back() == Some(0xde00));
/// ```
#[derive(Clone, Debug, Drop)]
pub struct CodeUnits<'a> {
    pub(crate) rest: &'a [u16],
}

impl Iterator for CodeUnits<'_> {
    ghost use Rattle.wide_utfstr.specs.Iter.{code_units_rest};

    type Item = u16;

    ghost next_gives = { YieldsFirst code_units_rest };

    ghost remaining = { λ s. at_most (length (code_units_rest s)) };

    #[inline]
    fn next(&mut self) -> Option<u16> {
        let (first, others) = self.rest.split_first()?;
        self.rest = others;
        Some(*first)
    }

    fn size_hint(&self) -> (usize, Option<usize>)
        ensures lower { IsWithinCount result.0 (at_most (length (code_units_rest self.now))) }
        ensures upper { IfSome result.1 (UpTo (at_most (length (code_units_rest self.now)))) }
        ensures least { result.0 ≡ length (code_units_rest self.now) }
        ensures most { result.1 ≡ Some (length (code_units_rest self.now)) }
    {
        (self.rest.len(), Some(self.rest.len()))
    }
}

impl DoubleEndedIterator for CodeUnits<'_> {
    ghost use Rattle.wide_utfstr.specs.Iter.{code_units_rest};

    ghost next_back_gives = { YieldsLast code_units_rest };

    #[inline]
    fn next_back(&mut self) -> Option<u16> {
        let (last, others) = self.rest.split_last()?;
        self.rest = others;
        Some(*last)
    }
}

impl ExactSizeIterator for CodeUnits<'_> {
    fn len(&self) -> usize {
        self.rest.len()
    }
}

impl FusedIterator for CodeUnits<'_> {}
