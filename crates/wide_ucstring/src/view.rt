//! Calls of a view of a C string that make an owned string.
ghost use Rattle.std.specs.Prelude.{◌≡◌, [], List, map, IsOk, IfOk};
ghost use Rattle.std.specs.Char.{to_ascii_lowercase, to_ascii_uppercase};
ghost use Rattle.std.specs.List.{repeat};
ghost use Rattle.wide_ustr.specs.View.{units_seen};
ghost use Rattle.wide_ucstr.specs.CString.{contents};
ghost use Rattle.wide_ucstr.specs.View.{contents_seen};

use crate::UCString;
use crate::ucstring::{end, with_space};
use std::alloc::Allocator;
use wide_error::OutOfMemory;
use wide_ucstr::UCStr;
use wide_ustr::UStr;
use wide_ustring::{UStrInUstring, UString};
use wide_utferror::FaultUnit;

/// Calls of a view of a C string that make an owned string. They are in a trait because the view's crate does not know
/// owned strings.
///
/// # Example
///
/// ```
/// use widestring::ucstring::UCStrInUcstring;
///
/// let word = U16CStr::from_slice(&[0x48, 0x69, 0])?;
/// let twice = word.repeat(rt.alloc(), 2)?;
/// assert!(rt; twice.as_ucstr().chars_lossy().eq("HiHi".chars()));
/// ```
pub trait UCStrInUcstring<C: FaultUnit> {
    // The units before the NUL.
    ghost text: { Self → List C };

    /// Copies the C string into a new owned C string.
    ///
    /// # Errors
    ///
    /// [`OutOfMemory`] if the allocation fails.
    ///
    /// # Example
    ///
    /// ```
    /// use widestring::ucstring::UCStrInUcstring;
    ///
    /// let name = U16CStr::from_slice(&[0x48, 0x69, 0])?;
    /// let copy = name.to_ucstring(rt.alloc())?;
    /// assert!(rt; copy.as_ucstr().len() == 2);
    /// ```
    fn to_ucstring<A: Allocator>(self, alloc: A) -> Result<UCString<C, A>, OutOfMemory>
        ensures { IfOk result (λ s. contents s.units ≡ text self) };

    /// Copies the contents, without the NUL, into a new string of units. Allocates once, or not at all if there are no
    /// contents.
    ///
    /// # Errors
    ///
    /// [`OutOfMemory`] if the allocation fails. It never fails if there are no contents.
    fn to_ustring<A: Allocator>(self, alloc: A) -> Result<UString<C, A>, OutOfMemory>
        ensures units { IfOk result (λ s. s.units ≡ text self) }
        ensures succeeds { text self ≡ [] → IsOk result };

    /// Repeats the contents `count` times in a new C string.
    ///
    /// # Errors
    ///
    /// [`OutOfMemory`] if the allocation fails, or if the length in units exceeds `usize::MAX`.
    fn repeat<A: Allocator>(self, alloc: A, count: usize) -> Result<UCString<C, A>, OutOfMemory>
        ensures { IfOk result (λ s. contents s.units ≡ repeat count (text self)) };

    /// Copies the C string into a new owned C string, and writes each upper-case ASCII letter in lower case.
    ///
    /// # Errors
    ///
    /// [`OutOfMemory`] if the allocation fails.
    ///
    /// # Example
    ///
    /// ```
    /// use widestring::ucstring::UCStrInUcstring;
    ///
    /// let text = U16CString::from_str(rt.alloc(), "C:\\Temp")?;
    /// let text = text.as_ucstr().to_ascii_lowercase(rt.alloc())?;
    /// assert!(rt; text.as_ucstr().chars_lossy().eq("c:\\temp".chars()));
    /// ```
    fn to_ascii_lowercase<A: Allocator>(self, alloc: A) -> Result<UCString<C, A>, OutOfMemory>
        ensures { IfOk result (λ s. map C.number (contents s.units) ≡ map to_ascii_lowercase (map C.number (text self))) };

    /// Copies the C string into a new owned C string, and writes each lower-case ASCII letter in upper case.
    ///
    /// # Errors
    ///
    /// [`OutOfMemory`] if the allocation fails.
    ///
    /// # Example
    ///
    /// ```
    /// use widestring::ucstring::UCStrInUcstring;
    ///
    /// let text = U16CString::from_str(rt.alloc(), "Größe")?;
    /// let text = text.as_ucstr().to_ascii_uppercase(rt.alloc())?;
    /// assert!(rt; text.as_ucstr().chars_lossy().eq("GRößE".chars()));
    /// ```
    fn to_ascii_uppercase<A: Allocator>(self, alloc: A) -> Result<UCString<C, A>, OutOfMemory>
        ensures { IfOk result (λ s. map C.number (contents s.units) ≡ map to_ascii_uppercase (map C.number (text self))) };
}

// Returns the units repeated `count` times, with capacity for a NUL.
#[tactic(auto, using(wide_ustring::proofs::Repeats::repeat_more, wide_ustring::proofs::Repeats::repeat_empty))]
fn repeated<C: FaultUnit, A: Allocator>(
    alloc: A,
    text: UStr<'_, C>,
    count: usize,
) -> Result<UString<C, A>, OutOfMemory>
    ensures { IfOk result (λ s. s.units ≡ repeat count (units_seen text.entry)) }
{
    let Some(len) = text.len().checked_mul(count) else {
        return Err(OutOfMemory);
    };
    let mut string = with_space(alloc, len)?;
    if len > 0 {
        for _turn in 0..count {
            string.push(text)?;
        }
    }
    Ok(string)
}

impl<C: FaultUnit> UCStrInUcstring<C> for UCStr<'_, C> {
    ghost text = { contents_seen };

    fn to_ucstring<A: Allocator>(self, alloc: A) -> Result<UCString<C, A>, OutOfMemory> {
        let string = self.as_ustr_with_nul().to_ustring(alloc)?;
        Ok(UCString { string })
    }

    fn to_ustring<A: Allocator>(self, alloc: A) -> Result<UString<C, A>, OutOfMemory> {
        self.as_ustr().to_ustring(alloc)
    }

    fn repeat<A: Allocator>(self, alloc: A, count: usize) -> Result<UCString<C, A>, OutOfMemory> {
        let string = repeated(alloc, self.as_ustr(), count)?;
        match end(string.into_vec()) {
            Ok(made) => Ok(made),
            Err(_error) => Err(OutOfMemory),
        }
    }

    fn to_ascii_lowercase<A: Allocator>(self, alloc: A) -> Result<UCString<C, A>, OutOfMemory> {
        let mut string = self.to_ucstring(alloc)?;
        string.make_ascii_lowercase();
        Ok(string)
    }

    fn to_ascii_uppercase<A: Allocator>(self, alloc: A) -> Result<UCString<C, A>, OutOfMemory> {
        let mut string = self.to_ucstring(alloc)?;
        string.make_ascii_uppercase();
        Ok(string)
    }
}
