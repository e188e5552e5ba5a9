//! The iterator that drains an owned string.
ghost use Rattle.std.specs.Prelude.{◌≡◌, ◌+◌, ◌-◌, ◌≤◌, ◌<◌, length, Some, slice_range, IfSome};
ghost use Rattle.std.specs.Iterator.{at_most, UpTo};
ghost use Rattle.std.specs.Iterator.SizeHint.{IsWithinCount};

use crate::UString;
use crate::space::cut;
use std::alloc::{Allocator, Global};
use std::iter::FusedIterator;

/// An iterator over the units of a range, from both ends. When it is dropped, the whole range is removed from the
/// string, even if it was not read to the end. Made by [`UString::drain`].
///
/// # Example
///
/// ```
/// let mut string = U16String::from_vec([0x48, 0x69, 0x21].to_vec(rt.alloc())?);
/// let first = string.drain(1..).next();
/// assert!(rt; first == Some(0x69));
/// assert!(rt; string.as_slice() == [0x48].as_slice());
/// ```
// The offsets are clamped to the string's length, so that the proof needs to know nothing about the borrowed string.
pub struct Drain<'a, C: Copy, A: Allocator = Global> {
    pub(crate) string: &'a mut UString<C, A>,
    pub(crate) start: usize,
    pub(crate) front: usize,
    pub(crate) back: usize,
    pub(crate) end: usize,
    ghost ordered: { (start ≤ front) × (front ≤ back) × (back ≤ end) },
}

impl<C: Copy, A: Allocator> Drop for Drain<'_, C, A> {
    ghost use Rattle.wide_ustring.specs.Drain.{drain_leaves, drain_capacity};

    fn drop(self)
        ensures units { self.exit.0.now.units ≡ drain_leaves self.entry }
        ensures capacity { self.exit.0.now.capacity ≡ drain_capacity self.entry }
    {
        let Drain {
            string,
            start,
            front: _,
            back: _,
            end,
        } = self;
        let end = end.min(string.units.len());
        cut(&mut string.units, start.min(end), end);
    }
}

impl<C: Copy, A: Allocator> Drain<'_, C, A> {
    ghost use Rattle.wide_ustring.specs.Drain.{drain_rest};

    /// Returns the units that were not read yet.
    pub fn as_slice(&self) -> &[C]
        ensures { result.now ≡ drain_rest self.now }
    {
        let string = &*self.string;
        let units = string.units.as_slice();
        let back = self.back.min(units.len());
        &units[self.front.min(back)..back]
    }
}

impl<C: Copy, A: Allocator> Iterator for Drain<'_, C, A> {
    ghost use Rattle.wide_ustring.specs.Drain.{drain_rest, DrainGives};

    type Item = C;

    ghost next_gives = { DrainGives };

    ghost remaining = { λ d. at_most (length (drain_rest d)) };

    #[tactic(auto, using(crate::proofs::Parts::part_first, crate::proofs::Parts::part_none))]
    fn next(&mut self) -> Option<C> {
        let at = self.front;
        let string = &*self.string;
        if at >= self.back || at >= string.units.len() {
            return None;
        }
        let unit = string.units[at];
        self.front = at + 1;
        Some(unit)
    }

    fn size_hint(&self) -> (usize, Option<usize>)
        ensures lower { IsWithinCount result.0 (at_most (length (drain_rest self.now))) }
        ensures upper { IfSome result.1 (UpTo (at_most (length (drain_rest self.now)))) }
        ensures least { result.0 ≡ length (drain_rest self.now) }
        ensures most { result.1 ≡ Some (length (drain_rest self.now)) }
    {
        let len = self.as_slice().len();
        (len, Some(len))
    }
}

impl<C: Copy, A: Allocator> DoubleEndedIterator for Drain<'_, C, A> {
    ghost use Rattle.wide_ustring.specs.Drain.{DrainGivesBack};

    ghost next_back_gives = { DrainGivesBack };

    #[tactic(auto, using(crate::proofs::Parts::part_last, crate::proofs::Parts::part_none))]
    fn next_back(&mut self) -> Option<C> {
        let string = &*self.string;
        let back = self.back.min(string.units.len());
        if self.front >= back {
            return None;
        }
        let at = back - 1;
        let unit = string.units[at];
        self.back = at;
        Some(unit)
    }
}

impl<C: Copy, A: Allocator> ExactSizeIterator for Drain<'_, C, A> {
    fn len(&self) -> usize {
        self.as_slice().len()
    }
}

impl<C: Copy, A: Allocator> FusedIterator for Drain<'_, C, A> {}
