//! Iterators that drain an owned string.
ghost use Rattle.std.specs.Prelude.{◌≡◌, ◌≤◌, ◌/◌, [], length, map, slice_range, Some, IfSome};
ghost use Rattle.std.specs.Iterator.{at_most, UpTo};
ghost use Rattle.std.specs.Iterator.SizeHint.{IsWithinCount};
ghost use Rattle.std.specs.List.{splice};
ghost use Rattle.wide_forms.specs.Items.{chars, IsWellFormed};
ghost use Rattle.wide_utfstr.specs.View.{units_seen, text_seen};

use crate::UtfString;
use std::alloc::{Allocator, Global};
use std::iter::FusedIterator;
use wide_utferror::FaultUnit;
use wide_utfstr::UtfStr;

/// An iterator over the characters of a range, from both ends. When it is dropped, the whole range is removed from the
/// string, even if it was not read to the end. Made by [`UtfString::drain`].
///
/// `{}` prints the characters that were not read yet. `{:?}` prints them between quotes, as [`char::escape_debug`]
/// escapes them.
///
/// # Example
///
/// ```
/// let mut text = Utf16String::from_str(rt.alloc(), "H😀i")?;
/// let mut drain = text.drain(..);
/// assert!(rt; drain.next_back() == Some('i'));
/// assert!(rt; drain.as_utfstr().eq_str("H😀"));
/// ```
// Once a range that is not empty is removed, the string is shorter than `total`, and the offsets may no longer be
// character boundaries.
pub struct DrainUtf<'a, C: FaultUnit, A: Allocator = Global> {
    pub(crate) string: &'a mut UtfString<C, A>,
    pub(crate) total: usize,
    pub(crate) start: usize,
    pub(crate) front: usize,
    pub(crate) back: usize,
    pub(crate) end: usize,
    ghost ordered: { (start ≤ front) × (front ≤ back) × (back ≤ end) × (end ≤ total) },
    ghost part: { length string.now.units ≡ total → IsWellFormed C.form (map C.number (slice_range string.now.units front back)) },
    ghost others: { length string.now.units ≡ total → IsWellFormed C.form (map C.number (splice string.now.units start end [])) },
}

/// An iterator over the characters of a range of UTF-16.
pub type DrainUtf16<'a, A = Global> = DrainUtf<'a, u16, A>;

/// An iterator over the characters of a range of UTF-32.
pub type DrainUtf32<'a, A = Global> = DrainUtf<'a, u32, A>;

impl<C: FaultUnit, A: Allocator> Drop for DrainUtf<'_, C, A> {
    ghost use Rattle.wide_utfstring.specs.Drain.{drain_leaves, drain_capacity};

    fn drop(self)
        ensures units { self.exit.0.now.units ≡ drain_leaves self.entry }
        ensures capacity { self.exit.0.now.capacity ≡ drain_capacity self.entry }
    {
        let DrainUtf {
            string,
            total,
            start,
            front: _,
            back: _,
            end,
        } = self;
        if string.len() == total {
            string.remove_part(start, end);
        }
    }
}

impl<C: FaultUnit, A: Allocator> DrainUtf<'_, C, A> {
    ghost use Rattle.wide_utfstring.specs.Drain.{drain_rest, drain_units};

    /// Returns a view of the text that was not read yet.
    pub fn as_utfstr(&self) -> UtfStr<'_, C>
        ensures characters { text_seen result ≡ drain_rest self.now }
        ensures units { units_seen result ≡ drain_units self.now }
    {
        let string = &*self.string;
        let units = string.as_slice();
        if units.len() != self.total {
            return UtfStr::default();
        }
        UtfStr::from_slice_unchecked(&units[self.front..self.back])
    }
}

impl<C: FaultUnit, A: Allocator> Iterator for DrainUtf<'_, C, A> {
    ghost use Rattle.wide_utfstring.specs.Drain.{drain_rest, drain_units, DrainGives};

    type Item = char;

    ghost next_gives = { DrainGives };

    ghost remaining = { λ d. at_most (length (drain_rest d)) };

    fn next(&mut self) -> Option<char> {
        let c = self.as_utfstr().chars().next()?;
        self.front += C::char_len(c);
        Some(c)
    }

    fn size_hint(&self) -> (usize, Option<usize>)
        ensures lower { IsWithinCount result.0 (at_most (length (drain_rest self.now))) }
        ensures upper { IfSome result.1 (UpTo (at_most (length (drain_rest self.now)))) }
        ensures least { result.0 ≡ length (drain_units self.now) / C.MAX_CHAR_LEN }
        ensures most { result.1 ≡ Some (length (drain_units self.now)) }
    {
        self.as_utfstr().chars().size_hint()
    }
}

impl<C: FaultUnit, A: Allocator> DoubleEndedIterator for DrainUtf<'_, C, A> {
    ghost use Rattle.wide_utfstring.specs.Drain.{DrainGivesBack};

    ghost next_back_gives = { DrainGivesBack };

    fn next_back(&mut self) -> Option<char> {
        let c = self.as_utfstr().chars().next_back()?;
        self.back -= C::char_len(c);
        Some(c)
    }
}

impl<A: Allocator> ExactSizeIterator for DrainUtf<'_, u32, A> {
    fn len(&self) -> usize {
        self.as_utfstr().len()
    }
}

impl<C: FaultUnit, A: Allocator> FusedIterator for DrainUtf<'_, C, A> {}
