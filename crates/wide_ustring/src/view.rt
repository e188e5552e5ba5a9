//! Calls of a view of units that make an owned string.
ghost use Rattle.std.specs.Prelude.{◌≡◌, [], List, map, IsOk, IfOk};
ghost use Rattle.std.specs.Char.{to_ascii_lowercase, to_ascii_uppercase};
ghost use Rattle.std.specs.List.{repeat};

use crate::UString;
use std::alloc::Allocator;
use wide_error::OutOfMemory;
use wide_ustr::UStr;
use wide_utferror::FaultUnit;

/// Calls of a view of units that make an owned string. They are in a trait because the view's crate does not know owned
/// strings.
///
/// # Example
///
/// ```
/// use widestring::ustring::UStrInUstring;
///
/// let line = U16Str::from_slice(&[0x2d, 0x20]).repeat(rt.alloc(), 2)?;
/// assert!(rt; line.as_slice() == [0x2d, 0x20, 0x2d, 0x20].as_slice());
/// ```
pub trait UStrInUstring<C: FaultUnit> {
    // The units of the view.
    ghost text: { Self → List C };

    /// Copies the view's units into a new string. Allocates once, or not at all if there are no units.
    ///
    /// # Errors
    ///
    /// [`OutOfMemory`] if the allocation fails. It never fails if there are no units.
    ///
    /// # Example
    ///
    /// ```
    /// use widestring::ustring::UStrInUstring;
    ///
    /// let mut copy = U16Str::from_slice(&[0x48, 0x69, 0xd83d]).to_ustring(rt.alloc())?;
    /// copy.push_str("!")?;
    /// assert!(rt; copy.as_slice() == [0x48, 0x69, 0xd83d, 0x21].as_slice());
    /// ```
    fn to_ustring<A: Allocator>(self, alloc: A) -> Result<UString<C, A>, OutOfMemory>
        ensures units { IfOk result (λ s. s.units ≡ text self) }
        ensures succeeds { text self ≡ [] → IsOk result };

    /// Repeats the view's units `count` times in a new string.
    ///
    /// # Errors
    ///
    /// [`OutOfMemory`] if the allocation fails, or if the new length in units exceeds `usize::MAX`. It never fails if
    /// `count` is 0 or there are no units.
    fn repeat<A: Allocator>(self, alloc: A, count: usize) -> Result<UString<C, A>, OutOfMemory>
        ensures units { IfOk result (λ s. s.units ≡ repeat count (text self)) }
        ensures succeeds { count ≡ 0 → IsOk result }
        ensures empty { text self ≡ [] → IsOk result };

    /// Copies the view's units into a new string, and writes each upper-case ASCII letter in lower case. Allocates
    /// once, or not at all if there are no units.
    ///
    /// # Errors
    ///
    /// [`OutOfMemory`] if the allocation fails. It never fails if there are no units.
    ///
    /// # Example
    ///
    /// ```
    /// use widestring::ustring::UStrInUstring;
    ///
    /// let text = U16String::from_str(rt.alloc(), "C:\\Temp")?;
    /// let text = text.as_ustr().to_ascii_lowercase(rt.alloc())?;
    /// assert!(rt; text.as_ustr().chars_lossy().eq("c:\\temp".chars()));
    /// ```
    fn to_ascii_lowercase<A: Allocator>(self, alloc: A) -> Result<UString<C, A>, OutOfMemory>
        ensures units { IfOk result (λ s. map C.number s.units ≡ map to_ascii_lowercase (map C.number (text self))) }
        ensures succeeds { text self ≡ [] → IsOk result };

    /// Copies the view's units into a new string, and writes each lower-case ASCII letter in upper case. Allocates
    /// once, or not at all if there are no units.
    ///
    /// # Errors
    ///
    /// [`OutOfMemory`] if the allocation fails. It never fails if there are no units.
    ///
    /// # Example
    ///
    /// ```
    /// use widestring::ustring::UStrInUstring;
    ///
    /// let text = U16String::from_str(rt.alloc(), "Größe")?;
    /// let text = text.as_ustr().to_ascii_uppercase(rt.alloc())?;
    /// assert!(rt; text.as_ustr().chars_lossy().eq("GRößE".chars()));
    /// ```
    fn to_ascii_uppercase<A: Allocator>(self, alloc: A) -> Result<UString<C, A>, OutOfMemory>
        ensures units { IfOk result (λ s. map C.number s.units ≡ map to_ascii_uppercase (map C.number (text self))) }
        ensures succeeds { text self ≡ [] → IsOk result };
}

impl<C: FaultUnit> UStrInUstring<C> for UStr<'_, C> {
    ghost use Rattle.wide_ustr.specs.View.{units_seen};

    ghost text = { units_seen };

    fn to_ustring<A: Allocator>(self, alloc: A) -> Result<UString<C, A>, OutOfMemory> {
        let mut units = Vec::with_capacity(alloc, self.len())?;
        units.extend_from_slice(self.as_slice())?;
        Ok(UString { units })
    }

    #[tactic(auto, using(crate::proofs::Repeats::repeat_more, crate::proofs::Repeats::repeat_empty))]
    fn repeat<A: Allocator>(self, alloc: A, count: usize) -> Result<UString<C, A>, OutOfMemory> {
        let Some(len) = self.len().checked_mul(count) else {
            return Err(OutOfMemory);
        };
        let mut units = Vec::with_capacity(alloc, len)?;
        if len > 0 {
            for _turn in 0..count {
                units.extend_from_slice(self.as_slice())?;
            }
        }
        Ok(UString { units })
    }

    fn to_ascii_lowercase<A: Allocator>(self, alloc: A) -> Result<UString<C, A>, OutOfMemory> {
        let mut string = self.to_ustring(alloc)?;
        string.make_ascii_lowercase();
        Ok(string)
    }

    fn to_ascii_uppercase<A: Allocator>(self, alloc: A) -> Result<UString<C, A>, OutOfMemory> {
        let mut string = self.to_ustring(alloc)?;
        string.make_ascii_uppercase();
        Ok(string)
    }
}
