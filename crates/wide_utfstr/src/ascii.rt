//! ASCII in views of well-formed text: whether all characters are ASCII, and comparisons and searches without regard to
//! the case of its letters.
ghost use Rattle.std.specs.Prelude.{◌≡◌, ◌↔◌, ◌+◌, ◌≤◌, length, map, IsTrue, IsAscii, IfNone, IfSome};
ghost use Rattle.std.specs.Char.{to_ascii_lowercase};
ghost use Rattle.std.specs.Str.{chars as str_chars};
ghost use Rattle.wide_forms.specs.Offsets.{IsCharBoundary};
ghost use Rattle.wide_search.specs.Lowercased.{lowercased};
ghost use Rattle.wide_search.specs.Occurrences.{OccursIn, IsFirstAt, OccursNowhere, BeginsWith, EndsWith};
ghost use Rattle.wide_utfstr.specs.View.{units_seen, numbers_seen, text_seen};

use crate::view::UtfStr;
use wide_unit::Unit;

impl<C: Unit> UtfStr<'_, C> {
    /// Returns whether all characters are ASCII. It stops at one that is not.
    ///
    /// # Example
    ///
    /// ```
    /// let name = Utf16String::from_str(rt.alloc(), "Name")?;
    /// assert!(rt; name.as_utfstr().is_ascii());
    /// ```
    pub fn is_ascii(self) -> bool
        ensures { IsTrue result ↔ IsAscii (numbers_seen C.number self.entry) }
    {
        wide_ascii::is_ascii(self.as_slice())
    }

    /// Returns whether two texts are the same without regard to the case of ASCII letters. A letter past ASCII differs
    /// from the one in the other case. It stops at the first difference.
    ///
    /// # Example
    ///
    /// ```
    /// let first = Utf16String::from_str(rt.alloc(), "Größe")?;
    /// let second = Utf16String::from_str(rt.alloc(), "GRößE")?;
    /// assert!(rt; first.as_utfstr().eq_ignore_ascii_case(second.as_utfstr()));
    /// ```
    pub fn eq_ignore_ascii_case(self, other: UtfStr<'_, C>) -> bool
        ensures { IsTrue result ↔ (map to_ascii_lowercase (numbers_seen C.number self.entry) ≡ map to_ascii_lowercase (numbers_seen C.number other.entry)) }
    {
        wide_ascii::eq_ignore_ascii_case(self.as_slice(), other.as_slice())
    }

    /// Returns whether the text is that of the `&str` without regard to the case of ASCII letters. A letter past ASCII
    /// differs from the one in the other case. It reads both once, up to the first difference, and does not allocate.
    ///
    /// # Example
    ///
    /// ```
    /// let text = Utf16String::from_str(rt.alloc(), "Größe")?;
    /// assert!(rt; text.as_utfstr().eq_str_ignore_ascii_case("GRößE"));
    /// assert!(rt; !text.as_utfstr().eq_str_ignore_ascii_case("GRÖSSE"));
    /// ```
    pub fn eq_str_ignore_ascii_case(self, text: &str) -> bool
        ensures { IsTrue result ↔ (map to_ascii_lowercase (text_seen self.entry) ≡ map to_ascii_lowercase (str_chars text.now)) }
    {
        let mut theirs = text.chars();
        for c in self.chars() {
            let Some(d) = theirs.next() else {
                return false;
            };
            if !c.eq_ignore_ascii_case(&d) {
                return false;
            }
        }
        theirs.next().is_none()
    }

    /// Returns whether the view begins with the needle, without regard to the case of ASCII letters. It does if the
    /// needle is empty. A letter past ASCII differs from the one in the other case.
    ///
    /// # Example
    ///
    /// ```
    /// let key = Utf16String::from_str(rt.alloc(), "HKLM\\Größe")?;
    /// let root = Utf16String::from_str(rt.alloc(), "hklm\\g")?;
    /// let (key, root) = (key.as_utfstr(), root.as_utfstr());
    /// assert!(rt; key.starts_with_ignore_ascii_case(root));
    /// ```
    pub fn starts_with_ignore_ascii_case(self, needle: UtfStr<'_, C>) -> bool
        ensures { IsTrue result ↔ BeginsWith (lowercased (numbers_seen C.number needle.entry)) (lowercased (numbers_seen C.number self.entry)) }
    {
        wide_search::starts_with_ignore_ascii_case(self.as_slice(), needle.as_slice())
    }

    /// Returns whether the view ends with the needle, without regard to the case of ASCII letters. It does if the
    /// needle is empty. A letter past ASCII differs from the one in the other case.
    ///
    /// # Example
    ///
    /// ```
    /// let file = Utf16String::from_str(rt.alloc(), "Größe.TXT")?;
    /// let extension = Utf16String::from_str(rt.alloc(), ".txt")?;
    /// let (file, extension) = (file.as_utfstr(), extension.as_utfstr());
    /// assert!(rt; file.ends_with_ignore_ascii_case(extension));
    /// ```
    pub fn ends_with_ignore_ascii_case(self, needle: UtfStr<'_, C>) -> bool
        ensures { IsTrue result ↔ EndsWith (lowercased (numbers_seen C.number needle.entry)) (lowercased (numbers_seen C.number self.entry)) }
    {
        wide_search::ends_with_ignore_ascii_case(self.as_slice(), needle.as_slice())
    }

    /// Returns whether the needle occurs anywhere in the view, without regard to the case of ASCII letters. An empty
    /// needle does. A letter past ASCII differs from the one in the other case.
    ///
    /// # Example
    ///
    /// ```
    /// let name = Utf16String::from_str(rt.alloc(), "Größe.TXT")?;
    /// let part = Utf16String::from_str(rt.alloc(), "E.t")?;
    /// let (name, part) = (name.as_utfstr(), part.as_utfstr());
    /// assert!(rt; name.contains_ignore_ascii_case(part));
    /// ```
    pub fn contains_ignore_ascii_case(self, needle: UtfStr<'_, C>) -> bool
        ensures { IsTrue result ↔ OccursIn (lowercased (numbers_seen C.number needle.entry)) (lowercased (numbers_seen C.number self.entry)) }
    {
        self.find_ignore_ascii_case(needle).is_some()
    }

    /// Returns the offset, in units, of the first occurrence of the needle without regard to the case of ASCII letters,
    /// or `None` if there is none. An empty needle occurs at the start. A letter past ASCII differs from the one in the
    /// other case. The offset and the end of the occurrence are character boundaries.
    ///
    /// It looks, vectorized, for offsets at which the first and the last unit of the needle both match in either case,
    /// and compares units there up to one that differs. If too many are compared in vain, as they may be if the needle
    /// repeats itself, the two-way search passes the next offsets, so the time is linear in both lengths. It does not
    /// allocate.
    ///
    /// # Example
    ///
    /// ```
    /// let file = Utf16String::from_str(rt.alloc(), "Größe.TXT")?;
    /// let extension = Utf16String::from_str(rt.alloc(), ".txt")?;
    /// let (file, extension) = (file.as_utfstr(), extension.as_utfstr());
    /// assert!(rt; file.find_ignore_ascii_case(extension) == Some(5));
    /// assert!(rt; extension.find_ignore_ascii_case(file).is_none());
    /// ```
    pub fn find_ignore_ascii_case(self, needle: UtfStr<'_, C>) -> Option<usize>
        ensures first { IfSome result (IsFirstAt (lowercased (numbers_seen C.number needle.entry)) (lowercased (numbers_seen C.number self.entry))) }
        ensures none { IfNone result (OccursNowhere (lowercased (numbers_seen C.number needle.entry)) (lowercased (numbers_seen C.number self.entry))) }
        ensures within { IfSome result (λ at. at + length (units_seen needle.entry) ≤ length (units_seen self.entry)) }
        ensures char_boundary { IfSome result (IsCharBoundary C.form (numbers_seen C.number self.entry)) }
        ensures beyond { IfSome result (λ at. IsCharBoundary C.form (numbers_seen C.number self.entry) (at + length (units_seen needle.entry))) }
    {
        wide_search::find_ignore_ascii_case(self.as_slice(), needle.as_slice())
    }
}
