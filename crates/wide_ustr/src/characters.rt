//! Characters at the ends of views of units, and searches from an offset on.
ghost use Rattle.std.specs.Prelude.{◌≡◌, ◌↔◌, ◌+◌, ◌++◌, ◌≤◌, length, map, IsTrue, IsSome, IfNone, IfSome};
ghost use Rattle.wide_forms.specs.EncodingForm.{code_units};
ghost use Rattle.wide_search.specs.Occurrences.{IsFirstFrom, OccursNowhereFrom, BeginsWith, EndsWith};
ghost use Rattle.wide_ustr.specs.View.{units_seen};

use crate::view::UStr;
use wide_unit::Unit;

impl<C: Unit> UStr<'_, C> {
    /// Returns whether the view begins with the character. Half of a surrogate pair is no character, so the view does
    /// not begin with one that it begins with only half of.
    ///
    /// # Example
    ///
    /// ```
    /// let text = U16Str::from_slice(&[0xd83d, 0xde00, 0x21]);
    /// assert!(rt; text.starts_with_char('😀'));
    /// assert!(rt; !U16Str::from_slice(&[0xd83d, 0x21]).starts_with_char('😀'));
    /// ```
    pub fn starts_with_char(self, c: char) -> bool
        ensures { IsTrue result ↔ BeginsWith (code_units C.form c) (map C.number (units_seen self.entry)) }
    {
        wide_search::starts_with_char(self.as_slice(), c)
    }

    /// Returns whether the view ends with the character. Half of a surrogate pair is no character, so the view does not
    /// end with one that it ends with only half of.
    ///
    /// # Example
    ///
    /// ```
    /// let text = U16Str::from_slice(&[0x21, 0xd83d, 0xde00]);
    /// assert!(rt; text.ends_with_char('😀'));
    /// assert!(rt; !U16Str::from_slice(&[0x21, 0xde00]).ends_with_char('😀'));
    /// ```
    pub fn ends_with_char(self, c: char) -> bool
        ensures { IsTrue result ↔ EndsWith (code_units C.form c) (map C.number (units_seen self.entry)) }
    {
        wide_search::ends_with_char(self.as_slice(), c)
    }

    /// Returns the view without the character that it begins with, or `None` if it does not begin with this one.
    ///
    /// # Example
    ///
    /// ```
    /// let path = U16Str::from_slice(&[0x5c, 0xd800]);
    /// assert!(rt; path.strip_prefix_char('\\') == Some(U16Str::from_slice(&[0xd800])));
    /// assert!(rt; path.strip_prefix_char('/').is_none());
    /// ```
    pub fn strip_prefix_char(self, c: char) -> Option<Self>
        ensures some { IsSome result ↔ BeginsWith (code_units C.form c) (map C.number (units_seen self.entry)) }
        ensures rest { IfSome result (λ rest. map C.number (units_seen self.entry) ≡ code_units C.form c ++ map C.number (units_seen rest)) }
    {
        if !self.starts_with_char(c) {
            return None;
        }
        let (_, rest) = self.split_at(C::char_len(c));
        Some(rest)
    }

    /// Returns the view without the character that it ends with, or `None` if it does not end with this one.
    ///
    /// # Example
    ///
    /// ```
    /// let path = U16Str::from_slice(&[0xd800, 0x5c]);
    /// assert!(rt; path.strip_suffix_char('\\') == Some(U16Str::from_slice(&[0xd800])));
    /// assert!(rt; path.strip_suffix_char('/').is_none());
    /// ```
    pub fn strip_suffix_char(self, c: char) -> Option<Self>
        ensures some { IsSome result ↔ EndsWith (code_units C.form c) (map C.number (units_seen self.entry)) }
        ensures prefix { IfSome result (λ prefix. map C.number (units_seen self.entry) ≡ map C.number (units_seen prefix) ++ code_units C.form c) }
    {
        if !self.ends_with_char(c) {
            return None;
        }
        let (prefix, _) = self.split_at(self.len() - C::char_len(c));
        Some(prefix)
    }

    /// Returns the offset, in units from the start of the view, of the first occurrence of the needle that begins at
    /// the offset `from`, in units too, or after it. Returns `None` if there is none, or if `from` exceeds the length.
    /// An empty needle occurs at `from`. Units may have any values, so the offset may be within a surrogate pair.
    ///
    /// # Example
    ///
    /// ```
    /// let path = U16Str::from_slice(&[0x61, 0x5c, 0x62, 0x5c]);
    /// let separator = U16Str::from_slice(&[0x5c]);
    /// assert!(rt; path.find_from(separator, 1) == Some(1));
    /// assert!(rt; path.find_from(separator, 2) == Some(3));
    /// assert!(rt; path.find_from(separator, 4).is_none());
    /// ```
    pub fn find_from(self, needle: UStr<'_, C>, from: usize) -> Option<usize>
        ensures first { IfSome result (IsFirstFrom (units_seen needle.entry) (units_seen self.entry) from) }
        ensures none { IfNone result (OccursNowhereFrom (units_seen needle.entry) (units_seen self.entry) from) }
        ensures within { IfSome result (λ at. at + length (units_seen needle.entry) ≤ length (units_seen self.entry)) }
    {
        wide_search::find_from(self.as_slice(), needle.as_slice(), from)
    }

    /// Returns the offset, in units from the start of the view, of the first occurrence of the character that begins at
    /// the offset `from`, in units too, or after it. Returns `None` if there is none, or if `from` exceeds the length.
    /// Half of a surrogate pair is no character and is not found, so both the offset and the end of the character are
    /// between two items (`widestring::search::laws::needles_in_text`).
    ///
    /// # Example
    ///
    /// ```
    /// let path = U16Str::from_slice(&[0x61, 0x5c, 0xd800, 0x5c]);
    /// assert!(rt; path.find_char_from('\\', 1) == Some(1));
    /// assert!(rt; path.find_char_from('\\', 2) == Some(3));
    /// assert!(rt; path.find_char_from('\\', 9).is_none());
    /// ```
    pub fn find_char_from(self, c: char, from: usize) -> Option<usize>
        ensures first { IfSome result (IsFirstFrom (code_units C.form c) (map C.number (units_seen self.entry)) from) }
        ensures none { IfNone result (OccursNowhereFrom (code_units C.form c) (map C.number (units_seen self.entry)) from) }
        ensures within { IfSome result (λ at. at + length (code_units C.form c) ≤ length (units_seen self.entry)) }
    {
        wide_search::find_char_from(self.as_slice(), c, from)
    }
}
