//! Items of a view with their offsets.
ghost use Rattle.std.specs.Prelude.{◌≡◌, ◌+◌, ◌<◌, ◌^◌, length, OnSome, ⊤};
ghost use Rattle.std.specs.Iterator.{YieldsFirstBy, YieldsLastBy};
ghost use Rattle.wide_ustr.specs.Indexed.{indexed_item, taken_length};

use std::alloc::AllocError;
use wide_unit::{Unit, split_first, split_last};

/// The units that were not read yet, and the offset, in units, at which they begin in the whole view.
#[derive(Debug)]
pub(crate) struct Offsets<'a, C> {
    pub(crate) rest: &'a [C],
    pub(crate) offset: usize,
    ghost fits: { offset + length rest.now < 2 ^ 64 },
}

impl<C: Copy> Clone for Offsets<'_, C> {
    ghost is_clone = { λ s r. r ≡ s };

    ghost is_infallible = { λ _. ⊤ };

    fn clone(&self) -> Result<Self, AllocError> {
        Ok(*self)
    }
}

impl<C: Copy> Copy for Offsets<'_, C> {}

impl<C: Unit> Offsets<'_, C> {
    ghost use Rattle.wide_ustr.specs.Iter.{offsets_left, position_of, offsets_rest};

    // Returns the first item and its offset.
    pub(crate) fn first(&mut self) -> Option<(usize, Result<char, C>)>
        ensures steps { YieldsFirstBy (indexed_item C.number) (offsets_left C.form C.number) self.old result self.new }
        ensures offset { position_of self.new ≡ position_of self.old + taken_length C.number C.form result }
        ensures shorter { OnSome result (length (offsets_rest self.new) < length (offsets_rest self.old)) }
    {
        let (item, rest) = split_first(self.rest)?;
        let offset = self.offset;
        let taken = self.rest.len() - rest.len();
        self.rest = rest;
        self.offset = offset + taken;
        Some((offset, item))
    }

    // Returns the last item and its offset.
    pub(crate) fn last(&mut self) -> Option<(usize, Result<char, C>)>
        ensures steps { YieldsLastBy (indexed_item C.number) (offsets_left C.form C.number) self.old result self.new }
        ensures offset { position_of self.new ≡ position_of self.old }
        ensures shorter { OnSome result (length (offsets_rest self.new) < length (offsets_rest self.old)) }
    {
        let (rest, item) = split_last(self.rest)?;
        self.rest = rest;
        Some((self.offset + rest.len(), item))
    }
}
