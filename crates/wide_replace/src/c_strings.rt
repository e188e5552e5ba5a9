//! Occurrences that are replaced in the contents of C strings.
ghost use Rattle.std.specs.Prelude.{◌≡◌, map, ℕ, List, IfOk};
ghost use Rattle.wide_search.specs.Cut.{substrings};
ghost use Rattle.wide_search.specs.Substrings.{joined_with};
ghost use Rattle.wide_ucstr.specs.CString.{IsCString, contents};
ghost use Rattle.wide_ucstr.specs.View.{contents_seen};
ghost use Rattle.wide_replace.specs.Replaced.{joined_first};

use crate::units::UStrReplace;
use std::alloc::Allocator;
use wide_error::OutOfMemory;
use wide_ucstr::UCStr;
use wide_ucstring::UCString;
use wide_ustring::UString;
use wide_utferror::FaultUnit;

/// Calls of a view of a C string that make a C string with occurrences of a needle replaced. They are in a trait because
/// the view's crate does not know owned strings. The Rust crate has no such calls.
///
/// # Example
///
/// ```
/// use widestring::replace::UCStrReplace;
///
/// let path = U16CStr::from_slice(&[0x61, 0x2f, 0x62, 0])?;
/// let slash = U16CStr::from_slice(&[0x2f, 0])?;
/// let path = path.replace(rt.alloc(), slash, U16CStr::from_slice(&[0x5c, 0x5c, 0])?)?;
/// assert!(rt; path.as_ucstr().as_slice_with_nul() == [0x61, 0x5c, 0x5c, 0x62, 0].as_slice());
/// ```
pub trait UCStrReplace<C: FaultUnit, P>: Copy {
    // The numbers of the units of the contents.
    ghost numbers_seen: { Self → List ℕ };

    // The numbers of the needle's units, without its NUL.
    ghost needle_numbers: { P → List ℕ };

    /// Replaces each occurrence of the needle in the contents, in a new C string. Each occurrence is the first one after
    /// the one before, so occurrences do not overlap. If the needle does not occur, or is empty, the C string is a copy.
    ///
    /// It searches twice, the first time for the length of the result, and allocates once, for just that length and the
    /// NUL.
    ///
    /// # Errors
    ///
    /// [`OutOfMemory`] if the allocation fails, or if the length of the result with its NUL exceeds `usize::MAX`.
    ///
    /// # Example
    ///
    /// ```
    /// use widestring::replace::UCStrReplace;
    ///
    /// let row = U16CStr::from_slice(&[0x61, 0x3b, 0xd800, 0x3b, 0])?;
    /// let semicolon = U16CStr::from_slice(&[0x3b, 0])?;
    /// let row = row.replace(rt.alloc(), semicolon, U16CStr::from_slice(&[0])?)?;
    /// assert!(rt; row.as_ucstr().as_slice() == [0x61, 0xd800].as_slice());
    /// ```
    fn replace<A: Allocator>(
        self,
        alloc: A,
        needle: P,
        with: Self,
    ) -> Result<UCString<C, A>, OutOfMemory>
        ensures contents { IfOk result (λ s. map C.number (contents s.units) ≡ joined_with (numbers_seen with) (substrings (needle_numbers needle) (numbers_seen self))) };

    /// Replaces the first `count` occurrences of the needle in the contents, in a new C string. Each occurrence is the
    /// first one after the one before, so occurrences do not overlap. If `count` is 0, or the needle does not occur or
    /// is empty, the C string is a copy. It searches twice, the first time for the length of the result, and allocates
    /// once, for just that length and the NUL.
    ///
    /// # Errors
    ///
    /// [`OutOfMemory`] if the allocation fails, or if the length of the result with its NUL exceeds `usize::MAX`.
    ///
    /// # Example
    ///
    /// ```
    /// use widestring::replace::UCStrReplace;
    ///
    /// let slash = U16CStr::from_slice(&[0x2f, 0])?;
    /// let path = U16CStr::from_slice(&[0x61, 0x2f, 0x62, 0x2f, 0])?;
    /// let path = path.replacen(rt.alloc(), slash, U16CStr::from_slice(&[0x5c, 0])?, 1)?;
    /// assert!(rt; path.as_ucstr().as_slice() == [0x61, 0x5c, 0x62, 0x2f].as_slice());
    /// ```
    fn replacen<A: Allocator>(
        self,
        alloc: A,
        needle: P,
        with: Self,
        count: usize,
    ) -> Result<UCString<C, A>, OutOfMemory>
        ensures contents { IfOk result (λ s. map C.number (contents s.units) ≡ joined_first count (numbers_seen with) (needle_numbers needle) (substrings (needle_numbers needle) (numbers_seen self))) };
}

// Makes a C string of units that are one, without allocating.
fn c_string_of<C: FaultUnit, A: Allocator>(
    string: UString<C, A>,
) -> Result<UCString<C, A>, OutOfMemory>
    requires { IsCString (map C.number string.units) }
    ensures { IfOk result (λ s. map C.number s.units ≡ map C.number string.units) }
{
    match UCString::from_vec_unchecked(string.into_vec()) {
        Ok(made) => Ok(made),
        Err(_error) => Err(OutOfMemory),
    }
}

impl<'p, C: FaultUnit> UCStrReplace<C, UCStr<'p, C>> for UCStr<'_, C> {
    ghost numbers_seen = { λ view. map C.number (contents_seen view) };

    ghost needle_numbers = { λ needle. map C.number (contents_seen needle) };

    fn replace<A: Allocator>(
        self,
        alloc: A,
        needle: UCStr<'p, C>,
        with: Self,
    ) -> Result<UCString<C, A>, OutOfMemory> {
        // A needle without a NUL leaves the NUL at the end.
        let units = self.as_ustr_with_nul();
        c_string_of(units.replace(alloc, needle.as_ustr(), with.as_ustr())?)
    }

    fn replacen<A: Allocator>(
        self,
        alloc: A,
        needle: UCStr<'p, C>,
        with: Self,
        count: usize,
    ) -> Result<UCString<C, A>, OutOfMemory> {
        let units = self.as_ustr_with_nul();
        c_string_of(units.replacen(alloc, needle.as_ustr(), with.as_ustr(), count)?)
    }
}
