//! ASCII in views of C strings: whether all units are ASCII, and comparisons and searches without regard to the case of
//! its letters.
ghost use Rattle.std.specs.Prelude.{◌≡◌, ◌↔◌, ◌+◌, ◌≤◌, length, map, IsTrue, IsAscii, IfNone, IfSome};
ghost use Rattle.std.specs.Char.{to_ascii_lowercase};
ghost use Rattle.wide_search.specs.Lowercased.{lowercased};
ghost use Rattle.wide_search.specs.Occurrences.{OccursIn, IsFirstAt, OccursNowhere, BeginsWith, EndsWith};
ghost use Rattle.wide_ucstr.specs.View.{contents_seen};

use crate::view::UCStr;
use wide_utferror::FaultUnit;

impl<C: FaultUnit> UCStr<'_, C> {
    /// Returns whether all units of the contents are ASCII, at most 7F. It stops at a unit that is not.
    ///
    /// # Example
    ///
    /// ```
    /// let name = U16CStr::from_slice_truncate(&[0x52, 0x75, 0x6e, 0])?;
    /// assert!(rt; name.is_ascii());
    /// ```
    pub fn is_ascii(self) -> bool
        ensures { IsTrue result ↔ IsAscii (map C.number (contents_seen self.entry)) }
    {
        self.as_ustr().is_ascii()
    }

    /// Returns whether the contents of two C strings are the same, without regard to the case of ASCII letters. A
    /// letter past ASCII differs from the one in the other case. It stops at the first difference.
    ///
    /// # Example
    ///
    /// ```
    /// let name = U16CStr::from_slice_truncate(&[0x52, 0x75, 0x6e, 0])?;
    /// let other = U16CStr::from_slice_truncate(&[0x72, 0x55, 0x4e, 0])?;
    /// assert!(rt; name.eq_ignore_ascii_case(other));
    /// ```
    pub fn eq_ignore_ascii_case(self, other: UCStr<'_, C>) -> bool
        ensures { IsTrue result ↔ (map to_ascii_lowercase (map C.number (contents_seen self.entry)) ≡ map to_ascii_lowercase (map C.number (contents_seen other.entry))) }
    {
        self.as_ustr().eq_ignore_ascii_case(other.as_ustr())
    }

    /// Returns whether the contents begin with the needle, without its NUL and without regard to the case of ASCII
    /// letters. They do if the needle is empty. A letter past ASCII differs from the one in the other case.
    ///
    /// # Example
    ///
    /// ```
    /// let name = U16CStr::from_slice_truncate(&[0x52, 0x75, 0x6e, 0])?;
    /// let start = U16CStr::from_slice_truncate(&[0x72, 0x55, 0])?;
    /// assert!(rt; name.starts_with_ignore_ascii_case(start));
    /// ```
    pub fn starts_with_ignore_ascii_case(self, needle: UCStr<'_, C>) -> bool
        ensures { IsTrue result ↔ BeginsWith (lowercased (map C.number (contents_seen needle.entry))) (lowercased (map C.number (contents_seen self.entry))) }
    {
        self.as_ustr()
            .starts_with_ignore_ascii_case(needle.as_ustr())
    }

    /// Returns whether the contents end with the needle, without its NUL and without regard to the case of ASCII
    /// letters. They do if the needle is empty. A letter past ASCII differs from the one in the other case.
    ///
    /// # Example
    ///
    /// ```
    /// let file = U16CStr::from_slice_truncate(&[0x41, 0x2e, 0x4f, 0x43, 0x58, 0])?;
    /// let extension = U16CStr::from_slice_truncate(&[0x2e, 0x6f, 0x63, 0x78, 0])?;
    /// assert!(rt; file.ends_with_ignore_ascii_case(extension));
    /// ```
    pub fn ends_with_ignore_ascii_case(self, needle: UCStr<'_, C>) -> bool
        ensures { IsTrue result ↔ EndsWith (lowercased (map C.number (contents_seen needle.entry))) (lowercased (map C.number (contents_seen self.entry))) }
    {
        self.as_ustr().ends_with_ignore_ascii_case(needle.as_ustr())
    }

    /// Returns whether the needle, without its NUL, occurs anywhere in the contents, without regard to the case of
    /// ASCII letters. An empty needle does. A letter past ASCII differs from the one in the other case.
    ///
    /// # Example
    ///
    /// ```
    /// let name = U16CStr::from_slice_truncate(&[0x52, 0x75, 0x6e, 0x4f, 0x6e, 0x63, 0x65, 0])?;
    /// let part = U16CStr::from_slice_truncate(&[0x4e, 0x4f, 0])?;
    /// assert!(rt; name.contains_ignore_ascii_case(part));
    /// ```
    pub fn contains_ignore_ascii_case(self, needle: UCStr<'_, C>) -> bool
        ensures { IsTrue result ↔ OccursIn (lowercased (map C.number (contents_seen needle.entry))) (lowercased (map C.number (contents_seen self.entry))) }
    {
        self.find_ignore_ascii_case(needle).is_some()
    }

    /// Returns the offset, in units, of the first occurrence of the needle, without its NUL, in the contents, without
    /// regard to the case of ASCII letters, or `None` if there is none. An empty needle occurs at the start. A letter
    /// past ASCII differs from the one in the other case. Units may have any values but 0, so the offset may be within
    /// a surrogate pair.
    ///
    /// It looks, vectorized, for offsets at which the first and the last unit of the needle both match in either case,
    /// and compares units there up to one that differs. If too many are compared in vain, as they may be if the needle
    /// repeats itself, the two-way search passes the next offsets, so the time is linear in both lengths. It does not
    /// allocate.
    ///
    /// # Example
    ///
    /// ```
    /// let name = U16CStr::from_slice_truncate(&[0x52, 0x75, 0x6e, 0x4f, 0x6e, 0x63, 0x65, 0])?;
    /// let part = U16CStr::from_slice_truncate(&[0x4f, 0x4e, 0])?;
    /// assert!(rt; name.find_ignore_ascii_case(part) == Some(3));
    /// assert!(rt; part.find_ignore_ascii_case(name).is_none());
    /// ```
    pub fn find_ignore_ascii_case(self, needle: UCStr<'_, C>) -> Option<usize>
        ensures first { IfSome result (IsFirstAt (lowercased (map C.number (contents_seen needle.entry))) (lowercased (map C.number (contents_seen self.entry)))) }
        ensures none { IfNone result (OccursNowhere (lowercased (map C.number (contents_seen needle.entry))) (lowercased (map C.number (contents_seen self.entry)))) }
        ensures within { IfSome result (λ at. at + length (contents_seen needle.entry) ≤ length (contents_seen self.entry)) }
    {
        self.as_ustr().find_ignore_ascii_case(needle.as_ustr())
    }
}
