//! ASCII in views of units: whether all units are ASCII, and comparisons and searches without regard to the case of its
//! letters.
ghost use Rattle.std.specs.Prelude.{◌≡◌, ◌↔◌, ◌+◌, ◌≤◌, length, map, IsTrue, IsAscii, IfNone, IfSome};
ghost use Rattle.std.specs.Char.{to_ascii_lowercase};
ghost use Rattle.wide_search.specs.Lowercased.{lowercased};
ghost use Rattle.wide_search.specs.Occurrences.{OccursIn, IsFirstAt, OccursNowhere, BeginsWith, EndsWith};
ghost use Rattle.wide_ustr.specs.View.{units_seen, numbers_seen};

use crate::view::UStr;
use wide_unit::Unit;

impl<C: Unit> UStr<'_, C> {
    /// Returns whether all units are ASCII, at most 7F. It stops at a unit that is not.
    ///
    /// # Example
    ///
    /// ```
    /// let name = U16Str::from_slice(&[0x4e, 0x61, 0x6d, 0x65]);
    /// assert!(rt; name.is_ascii());
    /// assert!(rt; !U16Str::from_slice(&[0x4e, 0xe4]).is_ascii());
    /// ```
    pub fn is_ascii(self) -> bool
        ensures { IsTrue result ↔ IsAscii (numbers_seen C.number self.entry) }
    {
        wide_ascii::is_ascii(self.as_slice())
    }

    /// Returns whether two views have the same units, without regard to the case of ASCII letters. A letter past ASCII
    /// differs from the one in the other case. It stops at the first difference.
    ///
    /// # Example
    ///
    /// ```
    /// let key = U16Str::from_slice(&[0x52, 0x75, 0x6e]);
    /// assert!(rt; key.eq_ignore_ascii_case(U16Str::from_slice(&[0x72, 0x55, 0x4e])));
    /// ```
    pub fn eq_ignore_ascii_case(self, other: UStr<'_, C>) -> bool
        ensures { IsTrue result ↔ (map to_ascii_lowercase (numbers_seen C.number self.entry) ≡ map to_ascii_lowercase (numbers_seen C.number other.entry)) }
    {
        wide_ascii::eq_ignore_ascii_case(self.as_slice(), other.as_slice())
    }

    /// Returns whether the view begins with the needle, without regard to the case of ASCII letters. It does if the
    /// needle is empty. A letter past ASCII differs from the one in the other case.
    ///
    /// # Example
    ///
    /// ```
    /// let key = U16String::from_str(rt.alloc(), "HKLM\\Software")?;
    /// let root = U16Str::from_slice(&[0x68, 0x6b, 0x6c, 0x6d]);
    /// assert!(rt; key.as_ustr().starts_with_ignore_ascii_case(root));
    /// ```
    pub fn starts_with_ignore_ascii_case(self, needle: UStr<'_, C>) -> bool
        ensures { IsTrue result ↔ BeginsWith (lowercased (numbers_seen C.number needle.entry)) (lowercased (numbers_seen C.number self.entry)) }
    {
        wide_search::starts_with_ignore_ascii_case(self.as_slice(), needle.as_slice())
    }

    /// Returns whether the view ends with the needle, without regard to the case of ASCII letters. It does if the
    /// needle is empty. A letter past ASCII differs from the one in the other case.
    ///
    /// # Example
    ///
    /// ```
    /// let file = U16String::from_str(rt.alloc(), "NOTES.TXT")?;
    /// let extension = U16Str::from_slice(&[0x2e, 0x74, 0x78, 0x74]);
    /// assert!(rt; file.as_ustr().ends_with_ignore_ascii_case(extension));
    /// ```
    pub fn ends_with_ignore_ascii_case(self, needle: UStr<'_, C>) -> bool
        ensures { IsTrue result ↔ EndsWith (lowercased (numbers_seen C.number needle.entry)) (lowercased (numbers_seen C.number self.entry)) }
    {
        wide_search::ends_with_ignore_ascii_case(self.as_slice(), needle.as_slice())
    }

    /// Returns whether the needle occurs anywhere in the view, without regard to the case of ASCII letters. An empty
    /// needle does. A letter past ASCII differs from the one in the other case.
    ///
    /// # Example
    ///
    /// ```
    /// let key = U16String::from_str(rt.alloc(), "HKLM\\SOFTWARE")?;
    /// let name = U16Str::from_slice(&[0x53, 0x6f, 0x66, 0x74]);
    /// assert!(rt; key.as_ustr().contains_ignore_ascii_case(name));
    /// ```
    pub fn contains_ignore_ascii_case(self, needle: UStr<'_, C>) -> bool
        ensures { IsTrue result ↔ OccursIn (lowercased (numbers_seen C.number needle.entry)) (lowercased (numbers_seen C.number self.entry)) }
    {
        self.find_ignore_ascii_case(needle).is_some()
    }

    /// Returns the offset, in units, of the first occurrence of the needle without regard to the case of ASCII letters,
    /// or `None` if there is none. An empty needle occurs at the start. A letter past ASCII differs from the one in the
    /// other case. Units may have any values, so the offset may be within a surrogate pair.
    ///
    /// It looks, vectorized, for offsets at which the first and the last unit of the needle both match in either case,
    /// and compares units there up to one that differs. If too many are compared in vain, as they may be if the needle
    /// repeats itself, the two-way search passes the next offsets, so the time is linear in both lengths. It does not
    /// allocate.
    ///
    /// # Example
    ///
    /// ```
    /// let key = U16String::from_str(rt.alloc(), "HKLM\\SOFTWARE")?;
    /// let name = U16Str::from_slice(&[0x53, 0x6f, 0x66, 0x74]);
    /// assert!(rt; key.as_ustr().find_ignore_ascii_case(name) == Some(5));
    /// assert!(rt; name.find_ignore_ascii_case(key.as_ustr()).is_none());
    /// ```
    pub fn find_ignore_ascii_case(self, needle: UStr<'_, C>) -> Option<usize>
        ensures first { IfSome result (IsFirstAt (lowercased (numbers_seen C.number needle.entry)) (lowercased (numbers_seen C.number self.entry))) }
        ensures none { IfNone result (OccursNowhere (lowercased (numbers_seen C.number needle.entry)) (lowercased (numbers_seen C.number self.entry))) }
        ensures within { IfSome result (λ at. at + length (units_seen needle.entry) ≤ length (units_seen self.entry)) }
    {
        wide_search::find_ignore_ascii_case(self.as_slice(), needle.as_slice())
    }
}
