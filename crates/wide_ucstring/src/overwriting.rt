//! Occurrences of a needle in C strings that are replaced in place, by as many units as the needle has.
ghost use Rattle.std.specs.Prelude.{◌≡◌, length, map};
ghost use Rattle.wide_search.specs.Cut.{substrings};
ghost use Rattle.wide_search.specs.Substrings.{joined_with};
ghost use Rattle.wide_ustring.specs.Units.{ustring_len};
ghost use Rattle.wide_ucstr.specs.CString.{contents};
ghost use Rattle.wide_ucstr.specs.View.{contents_seen};

use crate::ucstring::UCString;
use std::alloc::Allocator;
use wide_ucstr::UCStr;
use wide_utferror::FaultUnit;

impl<C: FaultUnit, A: Allocator> UCString<C, A> {
    /// Replaces each occurrence of the needle in the contents by units of the same number, in place. Each occurrence is
    /// the first one after the one before, so occurrences do not overlap. An empty needle replaces nothing. It does not
    /// allocate, and no other unit moves. The Rust crate has no such call.
    ///
    /// # Requires
    ///
    /// `with` has as many units as the needle, both without their NULs. For other lengths `replace` of the view makes a
    /// new string.
    ///
    /// # Example
    ///
    /// ```
    /// let mut path = U16CString::from_str(rt.alloc(), "C:/temp/é")?;
    /// let slash = U16CStr::from_slice(&[0x2f, 0])?;
    /// path.replace_with(slash, U16CStr::from_slice(&[0x5c, 0])?);
    /// assert!(rt; path.as_ucstr().chars_lossy().eq("C:\\temp\\é".chars()));
    /// ```
    pub fn replace_with(&mut self, needle: UCStr<'_, C>, with: UCStr<'_, C>)
        requires { length (contents_seen with) ≡ length (contents_seen needle) }
        ensures contents { map C.number (contents self.new.units) ≡ joined_with (map C.number (contents_seen with.entry)) (substrings (map C.number (contents_seen needle.entry)) (map C.number (contents self.old.units))) }
        ensures len { ustring_len self.new ≡ ustring_len self.old }
        ensures capacity { self.new.capacity ≡ self.old.capacity }
    {
        self.string.replace_with(needle.as_ustr(), with.as_ustr());
    }
}
