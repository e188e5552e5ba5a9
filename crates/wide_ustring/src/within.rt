//! Strings extended by parts of themselves.
ghost use Rattle.std.specs.Prelude.{◌≡◌, ◌+◌, ◌-◌, ◌≤◌, ◌++◌, length, IsOk, OnOk, OnErr};
ghost use Rattle.wide_forms.specs.Range.{IsInRange, part_of};
ghost use Rattle.wide_ustring.specs.Units.{HasSpaceFor};

use crate::space::push_within;
use crate::ustring::UString;
use std::alloc::Allocator;
use std::ops::RangeBounds;
use std::slice;
use wide_error::OutOfMemory;
use wide_utferror::FaultUnit;

impl<C: FaultUnit, A: Allocator> UString<C, A> {
    /// Appends a copy of the units of a range of the string itself. The ends of the range are offsets in units. It
    /// allocates at most once, and for nothing but the string.
    ///
    /// # Requires
    ///
    /// The range starts at or before its end and lies within the string. It is not an inclusive range that was iterated
    /// to its end.
    ///
    /// # Errors
    ///
    /// [`OutOfMemory`] if the allocation fails; the string is unchanged. It never fails if the spare capacity suffices.
    ///
    /// # Example
    ///
    /// ```
    /// let mut string = U16String::from_vec([0x61, 0xd83d, 0xde00].to_vec(rt.alloc())?);
    /// string.extend_from_within(..2)?;
    /// assert!(rt; string.as_slice() == [0x61, 0xd83d, 0xde00, 0x61, 0xd83d].as_slice());
    /// ```
    pub fn extend_from_within<R: RangeBounds<usize>>(&mut self, range: R) -> Result<(), OutOfMemory>
        requires bounds { R.has_bounds range }
        requires in_range { IsInRange self.old.units (R.start_bound range) (R.end_bound range) }
        ensures ok { OnOk result (self.new.units ≡ self.old.units ++ part_of self.old.units (R.start_bound range) (R.end_bound range)) }
        ensures err { OnErr result (self.new ≡ self.old) }
        ensures succeeds { HasSpaceFor self.old (length (part_of self.old.units (R.start_bound range) (R.end_bound range))) → IsOk result }
        ensures capacity { self.old.capacity ≤ self.new.capacity }
    {
        let len = self.units.len();
        let offsets = slice::range(range, ..len);
        push_within(&mut self.units, offsets.start, offsets.end)
    }
}
