//! Characters at the ends of the contents of C strings, and searches in the contents from an offset on.
ghost use Rattle.std.specs.Prelude.{◌≡◌, ◌↔◌, ◌+◌, ◌++◌, ◌≤◌, length, map, IsTrue, IsSome, IfNone, IfSome};
ghost use Rattle.wide_forms.specs.EncodingForm.{code_units};
ghost use Rattle.wide_search.specs.Occurrences.{IsFirstFrom, OccursNowhereFrom, BeginsWith, EndsWith};
ghost use Rattle.wide_ustr.specs.View.{units_seen};
ghost use Rattle.wide_ucstr.specs.View.{contents_seen};

use crate::view::UCStr;
use wide_ustr::UStr;
use wide_utferror::FaultUnit;

impl<'a, C: FaultUnit> UCStr<'a, C> {
    /// Returns whether the contents begin with the character. Half of a surrogate pair is no character, so they do not
    /// begin with one that they begin with only half of. They never begin with a NUL.
    ///
    /// # Example
    ///
    /// ```
    /// let text = U16CStr::from_slice(&[0xd83d, 0xde00, 0x21, 0])?;
    /// assert!(rt; text.starts_with_char('😀'));
    /// assert!(rt; !text.starts_with_char('!'));
    /// ```
    pub fn starts_with_char(self, c: char) -> bool
        ensures { IsTrue result ↔ BeginsWith (code_units C.form c) (map C.number (contents_seen self.entry)) }
    {
        self.as_ustr().starts_with_char(c)
    }

    /// Returns whether the contents, without the NUL, end with the character. Half of a surrogate pair is no character,
    /// so they do not end with one that they end with only half of. They never end with a NUL.
    ///
    /// # Example
    ///
    /// ```
    /// let text = U16CStr::from_slice(&[0x21, 0xd83d, 0xde00, 0])?;
    /// assert!(rt; text.ends_with_char('😀'));
    /// assert!(rt; !text.ends_with_char('\0'));
    /// ```
    pub fn ends_with_char(self, c: char) -> bool
        ensures { IsTrue result ↔ EndsWith (code_units C.form c) (map C.number (contents_seen self.entry)) }
    {
        self.as_ustr().ends_with_char(c)
    }

    /// Returns the contents without the character that they begin with, as a view without a NUL, or `None` if they do
    /// not begin with this one.
    ///
    /// # Example
    ///
    /// ```
    /// let path = U16CStr::from_slice(&[0x5c, 0xd800, 0])?;
    /// assert!(rt; path.strip_prefix_char('\\') == Some(U16Str::from_slice(&[0xd800])));
    /// assert!(rt; path.strip_prefix_char('/').is_none());
    /// ```
    pub fn strip_prefix_char(self, c: char) -> Option<UStr<'a, C>>
        ensures some { IsSome result ↔ BeginsWith (code_units C.form c) (map C.number (contents_seen self.entry)) }
        ensures rest { IfSome result (λ rest. map C.number (contents_seen self.entry) ≡ code_units C.form c ++ map C.number (units_seen rest)) }
    {
        self.as_ustr().strip_prefix_char(c)
    }

    /// Returns the contents without the character that they end with, as a view without a NUL, or `None` if they do not
    /// end with this one.
    ///
    /// # Example
    ///
    /// ```
    /// let path = U16CStr::from_slice(&[0xd800, 0x5c, 0])?;
    /// assert!(rt; path.strip_suffix_char('\\') == Some(U16Str::from_slice(&[0xd800])));
    /// assert!(rt; path.strip_suffix_char('\0').is_none());
    /// ```
    pub fn strip_suffix_char(self, c: char) -> Option<UStr<'a, C>>
        ensures some { IsSome result ↔ EndsWith (code_units C.form c) (map C.number (contents_seen self.entry)) }
        ensures prefix { IfSome result (λ prefix. map C.number (contents_seen self.entry) ≡ map C.number (units_seen prefix) ++ code_units C.form c) }
    {
        self.as_ustr().strip_suffix_char(c)
    }

    /// Returns the offset, in units from the start, of the first occurrence of the needle, without its NUL, in the
    /// contents that begins at the offset `from`, in units too, or after it. Returns `None` if there is none, or if
    /// `from` exceeds the length of the contents. An empty needle occurs at `from`. Units may have any values but 0, so
    /// the offset may be within a surrogate pair.
    ///
    /// # Example
    ///
    /// ```
    /// let path = U16CStr::from_slice(&[0x61, 0x5c, 0x62, 0x5c, 0])?;
    /// let separator = U16CStr::from_slice(&[0x5c, 0])?;
    /// assert!(rt; path.find_from(separator, 1) == Some(1));
    /// assert!(rt; path.find_from(separator, 2) == Some(3));
    /// assert!(rt; path.find_from(separator, 4).is_none());
    /// ```
    pub fn find_from(self, needle: UCStr<'_, C>, from: usize) -> Option<usize>
        ensures first { IfSome result (IsFirstFrom (contents_seen needle.entry) (contents_seen self.entry) from) }
        ensures none { IfNone result (OccursNowhereFrom (contents_seen needle.entry) (contents_seen self.entry) from) }
        ensures within { IfSome result (λ at. at + length (contents_seen needle.entry) ≤ length (contents_seen self.entry)) }
    {
        self.as_ustr().find_from(needle.as_ustr(), from)
    }

    /// Returns the offset, in units from the start, of the first occurrence of the character in the contents that
    /// begins at the offset `from`, in units too, or after it. Returns `None` if there is none, or if `from` exceeds
    /// the length of the contents. A NUL is never found. Half of a surrogate pair is no character and is not found, so
    /// both the offset and the end of the character are between two items (`widestring::search::laws::needles_in_text`).
    ///
    /// # Example
    ///
    /// ```
    /// let path = U16CStr::from_slice(&[0x61, 0x5c, 0xd800, 0x5c, 0])?;
    /// assert!(rt; path.find_char_from('\\', 2) == Some(3));
    /// assert!(rt; path.find_char_from('\0', 2).is_none());
    /// ```
    pub fn find_char_from(self, c: char, from: usize) -> Option<usize>
        ensures first { IfSome result (IsFirstFrom (code_units C.form c) (map C.number (contents_seen self.entry)) from) }
        ensures none { IfNone result (OccursNowhereFrom (code_units C.form c) (map C.number (contents_seen self.entry)) from) }
        ensures within { IfSome result (λ at. at + length (code_units C.form c) ≤ length (contents_seen self.entry)) }
    {
        self.as_ustr().find_char_from(c, from)
    }
}
