//! Occurrences that are replaced in views of any units.
ghost use Rattle.std.specs.Prelude.{◌≡◌, [], map, IsOk, IfOk};
ghost use Rattle.wide_search.specs.Cut.{substrings};
ghost use Rattle.wide_search.specs.Substrings.{joined_with};
ghost use Rattle.wide_replace.specs.Replaced.{joined_first};

use crate::replaced::replaced_first;
use std::alloc::Allocator;
use wide_error::OutOfMemory;
use wide_ustr::{NeedleView, UStr};
use wide_ustring::UString;
use wide_utferror::FaultUnit;

/// Calls of a view of units that make a string with occurrences of a needle replaced. The needle is units. They are in
/// a trait because the view's crate does not know owned strings. The Rust crate has no such calls.
///
/// # Example
///
/// ```
/// use widestring::replace::UStrReplace;
///
/// let text = U16Str::from_slice(&[0x61, 0x61, 0x61]);
/// let dash = U16Str::from_slice(&[0x2d]);
/// let text = text.replacen(rt.alloc(), U16Str::from_slice(&[0x61, 0x61]), dash, 9)?;
/// assert!(rt; text.as_slice() == [0x2d, 0x61].as_slice());
/// ```
pub trait UStrReplace<C: FaultUnit, P>: NeedleView<P> {
    /// Replaces each occurrence of the needle, in a new string. Each occurrence is the first one after the one before,
    /// so occurrences do not overlap. If the needle does not occur, or is empty, the string is a copy.
    ///
    /// It searches twice, the first time for the length of the result, and allocates once, for just that length, or not
    /// at all if the result is empty.
    ///
    /// # Errors
    ///
    /// [`OutOfMemory`] if the allocation fails, or if the length of the result exceeds `usize::MAX`. It never fails if
    /// the result is empty.
    ///
    /// # Example
    ///
    /// ```
    /// use widestring::replace::UStrReplace;
    ///
    /// let row = U16Str::from_slice(&[0x61, 0x3b, 0xd800, 0x3b]);
    /// let tab = U16Str::from_slice(&[0x9]);
    /// let row = row.replace(rt.alloc(), U16Str::from_slice(&[0x3b]), tab)?;
    /// assert!(rt; row.as_slice() == [0x61, 0x9, 0xd800, 0x9].as_slice());
    /// ```
    fn replace<A: Allocator>(
        self,
        alloc: A,
        needle: P,
        with: Self,
    ) -> Result<UString<C, A>, OutOfMemory>
        ensures units { IfOk result (λ s. map C.number s.units ≡ joined_with (Self.numbers_seen with) (substrings (Self.needle_numbers needle) (Self.numbers_seen self))) }
        ensures succeeds { joined_with (Self.numbers_seen with) (substrings (Self.needle_numbers needle) (Self.numbers_seen self)) ≡ [] → IsOk result };

    /// Replaces the first `count` occurrences of the needle, in a new string. Each occurrence is the first one after
    /// the one before, so occurrences do not overlap. If `count` is 0, or the needle does not occur or is empty, the
    /// string is a copy. It searches twice, the first time for the length of the result, and allocates once, for just
    /// that length, or not at all if the result is empty.
    ///
    /// # Errors
    ///
    /// [`OutOfMemory`] if the allocation fails, or if the length of the result exceeds `usize::MAX`. It never fails if
    /// the result is empty.
    ///
    /// # Example
    ///
    /// ```
    /// use widestring::replace::UStrReplace;
    ///
    /// let slash = U16Str::from_slice(&[0x2f]);
    /// let path = U16Str::from_slice(&[0x61, 0x2f, 0x62, 0x2f, 0x63]);
    /// let path = path.replacen(rt.alloc(), slash, U16Str::from_slice(&[0x5c]), 1)?;
    /// assert!(rt; path.as_slice() == [0x61, 0x5c, 0x62, 0x2f, 0x63].as_slice());
    /// ```
    fn replacen<A: Allocator>(
        self,
        alloc: A,
        needle: P,
        with: Self,
        count: usize,
    ) -> Result<UString<C, A>, OutOfMemory>
        ensures units { IfOk result (λ s. map C.number s.units ≡ joined_first count (Self.numbers_seen with) (Self.needle_numbers needle) (substrings (Self.needle_numbers needle) (Self.numbers_seen self))) }
        ensures succeeds { joined_first count (Self.numbers_seen with) (Self.needle_numbers needle) (substrings (Self.needle_numbers needle) (Self.numbers_seen self)) ≡ [] → IsOk result };
}

impl<'p, C: FaultUnit> UStrReplace<C, UStr<'p, C>> for UStr<'_, C> {
    fn replace<A: Allocator>(
        self,
        alloc: A,
        needle: UStr<'p, C>,
        with: Self,
    ) -> Result<UString<C, A>, OutOfMemory> {
        self.replacen(alloc, needle, with, self.len())
    }

    fn replacen<A: Allocator>(
        self,
        alloc: A,
        needle: UStr<'p, C>,
        with: Self,
        count: usize,
    ) -> Result<UString<C, A>, OutOfMemory> {
        replaced_first(alloc, self, needle, with, count)
    }
}
