//! Strings of well-formed text extended by parts of themselves.
ghost use Rattle.std.specs.Prelude.{◌≡◌, ◌+◌, ◌≤◌, ◌++◌, length, IsOk, OnOk, OnErr};
ghost use Rattle.wide_forms.specs.Offsets.{text_of, IsCharPart};
ghost use Rattle.wide_forms.specs.Range.{part_of};
ghost use Rattle.wide_ustring.specs.Units.{HasSpaceFor};

use crate::utfstring::UtfString;
use std::alloc::Allocator;
use std::ops::RangeBounds;
use wide_error::OutOfMemory;
use wide_utferror::FaultUnit;

impl<C: FaultUnit, A: Allocator> UtfString<C, A> {
    /// Appends a copy of the text of a range of the string itself. The ends of the range are offsets in units. It
    /// allocates at most once, and for nothing but the string.
    ///
    /// # Requires
    ///
    /// The range starts at or before its end and lies within the string. Both its ends are character boundaries. It is
    /// not an inclusive range that was iterated to its end.
    ///
    /// # Errors
    ///
    /// [`OutOfMemory`] if the allocation fails; the string is unchanged. It never fails if the spare capacity suffices.
    ///
    /// # Example
    ///
    /// ```
    /// let mut text = Utf16String::from_str(rt.alloc(), "é😀!")?;
    /// if let Some(at) = text.as_utfstr().find_char('😀') {
    ///     text.extend_from_within(at..)?;
    /// }
    /// assert!(rt; text.as_utfstr().eq_str("é😀!😀!"));
    /// ```
    pub fn extend_from_within<R: RangeBounds<usize>>(&mut self, range: R) -> Result<(), OutOfMemory>
        requires bounds { R.has_bounds range }
        requires at_boundaries { IsCharPart C.form C.number self.old.units (R.start_bound range) (R.end_bound range) }
        ensures units { OnOk result (self.new.units ≡ self.old.units ++ part_of self.old.units (R.start_bound range) (R.end_bound range)) }
        ensures text { OnOk result (text_of C.form C.number self.new.units ≡ text_of C.form C.number self.old.units ++ text_of C.form C.number (part_of self.old.units (R.start_bound range) (R.end_bound range))) }
        ensures err { OnErr result (self.new ≡ self.old) }
        ensures succeeds { HasSpaceFor self.old (length (part_of self.old.units (R.start_bound range) (R.end_bound range))) → IsOk result }
        ensures capacity { self.old.capacity ≤ self.new.capacity }
    {
        self.string.extend_from_within(range)
    }
}
