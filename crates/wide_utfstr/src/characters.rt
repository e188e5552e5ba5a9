//! Characters at the ends of well-formed text, and searches from an offset on.
ghost use Rattle.std.specs.Prelude.{◌≡◌, ◌↔◌, ◌+◌, ◌++◌, ◌<◌, ◌≤◌, length, map, IsTrue, IsSome, IfNone, IfSome};
ghost use Rattle.wide_forms.specs.EncodingForm.{code_units};
ghost use Rattle.wide_forms.specs.Offsets.{IsCharBoundary};
ghost use Rattle.wide_search.specs.Occurrences.{IsFirstFrom, OccursNowhereFrom, BeginsWith, EndsWith};
ghost use Rattle.wide_utfstr.specs.View.{units_seen, numbers_seen};

use crate::view::UtfStr;
use wide_unit::Unit;

impl<C: Unit> UtfStr<'_, C> {
    /// Returns whether the view begins with the character.
    ///
    /// # Example
    ///
    /// ```
    /// let text = Utf16Str::from_slice(&[0xd83d, 0xde00, 0x21])?;
    /// assert!(rt; text.starts_with_char('😀'));
    /// assert!(rt; !text.starts_with_char('!'));
    /// ```
    pub fn starts_with_char(self, c: char) -> bool
        ensures { IsTrue result ↔ BeginsWith (code_units C.form c) (numbers_seen C.number self.entry) }
    {
        wide_search::starts_with_char(self.as_slice(), c)
    }

    /// Returns whether the view ends with the character.
    ///
    /// # Example
    ///
    /// ```
    /// let text = Utf16Str::from_slice(&[0x21, 0xd83d, 0xde00])?;
    /// assert!(rt; text.ends_with_char('😀'));
    /// assert!(rt; !text.ends_with_char('!'));
    /// ```
    pub fn ends_with_char(self, c: char) -> bool
        ensures { IsTrue result ↔ EndsWith (code_units C.form c) (numbers_seen C.number self.entry) }
    {
        wide_search::ends_with_char(self.as_slice(), c)
    }

    /// Returns the view without the character that it begins with, or `None` if it does not begin with this one.
    ///
    /// # Example
    ///
    /// ```
    /// let text = Utf16Str::from_slice(&[0xd83d, 0xde00, 0x21])?;
    /// let rest = text.strip_prefix_char('😀');
    /// assert!(rt; rest.is_some_and(|rest| rest.eq_str("!")));
    /// assert!(rt; text.strip_prefix_char('!').is_none());
    /// ```
    pub fn strip_prefix_char(self, c: char) -> Option<Self>
        ensures some { IsSome result ↔ BeginsWith (code_units C.form c) (numbers_seen C.number self.entry) }
        ensures rest { IfSome result (λ rest. numbers_seen C.number self.entry ≡ code_units C.form c ++ numbers_seen C.number rest) }
    {
        if !self.starts_with_char(c) {
            return None;
        }
        let (_, rest) = self.split_at(C::char_len(c));
        Some(rest)
    }

    /// Returns the view without the character that it ends with, or `None` if it does not end with this one.
    ///
    /// # Example
    ///
    /// ```
    /// let text = Utf16Str::from_slice(&[0x21, 0xd83d, 0xde00])?;
    /// let prefix = text.strip_suffix_char('😀');
    /// assert!(rt; prefix.is_some_and(|prefix| prefix.eq_str("!")));
    /// assert!(rt; text.strip_suffix_char('!').is_none());
    /// ```
    pub fn strip_suffix_char(self, c: char) -> Option<Self>
        ensures some { IsSome result ↔ EndsWith (code_units C.form c) (numbers_seen C.number self.entry) }
        ensures prefix { IfSome result (λ prefix. numbers_seen C.number self.entry ≡ numbers_seen C.number prefix ++ code_units C.form c) }
    {
        if !self.ends_with_char(c) {
            return None;
        }
        let (prefix, _) = self.split_at(self.len() - C::char_len(c));
        Some(prefix)
    }

    /// Returns the offset, in units from the start of the view, of the first occurrence of the needle that begins at
    /// the offset `from`, in units too, or after it. Returns `None` if there is none, or if `from` exceeds the length.
    /// An empty needle occurs at `from`. The offset and the end of the occurrence are character boundaries, if `from`
    /// is one or the needle is not empty.
    ///
    /// # Example
    ///
    /// ```
    /// let text = Utf16Str::from_slice(&[0xe9, 0x2c, 0xd83d, 0xde00, 0x2c])?;
    /// let comma = Utf16Str::from_slice(&[0x2c])?;
    /// assert!(rt; text.find_from(comma, 1) == Some(1));
    /// assert!(rt; text.find_from(comma, 2) == Some(4));
    /// assert!(rt; text.find_from(comma, 5).is_none());
    /// ```
    pub fn find_from(self, needle: UtfStr<'_, C>, from: usize) -> Option<usize>
        ensures first { IfSome result (IsFirstFrom (units_seen needle.entry) (units_seen self.entry) from) }
        ensures none { IfNone result (OccursNowhereFrom (units_seen needle.entry) (units_seen self.entry) from) }
        ensures within { IfSome result (λ at. at + length (units_seen needle.entry) ≤ length (units_seen self.entry)) }
        ensures char_boundary { IsCharBoundary C.form (numbers_seen C.number self.entry) from → IfSome result (IsCharBoundary C.form (numbers_seen C.number self.entry)) }
        ensures beyond { IsCharBoundary C.form (numbers_seen C.number self.entry) from → IfSome result (λ at. IsCharBoundary C.form (numbers_seen C.number self.entry) (at + length (units_seen needle.entry))) }
        ensures char_boundary_of_some { 0 < length (units_seen needle.entry) → IfSome result (IsCharBoundary C.form (numbers_seen C.number self.entry)) }
        ensures beyond_some { 0 < length (units_seen needle.entry) → IfSome result (λ at. IsCharBoundary C.form (numbers_seen C.number self.entry) (at + length (units_seen needle.entry))) }
    {
        wide_search::find_from(self.as_slice(), needle.as_slice(), from)
    }

    /// Returns the offset, in units from the start of the view, of the first occurrence of the character that begins at
    /// the offset `from`, in units too, or after it. Returns `None` if there is none, or if `from` exceeds the length.
    /// The offset and the end of the character are character boundaries, even if `from` is not.
    ///
    /// # Example
    ///
    /// ```
    /// let text = Utf16Str::from_slice(&[0xd83d, 0xde00, 0x21, 0xd83d, 0xde00])?;
    /// assert!(rt; text.find_char_from('😀', 0) == Some(0));
    /// assert!(rt; text.find_char_from('😀', 1) == Some(3));
    /// assert!(rt; text.find_char_from('😀', 4).is_none());
    /// ```
    pub fn find_char_from(self, c: char, from: usize) -> Option<usize>
        ensures first { IfSome result (IsFirstFrom (code_units C.form c) (numbers_seen C.number self.entry) from) }
        ensures none { IfNone result (OccursNowhereFrom (code_units C.form c) (numbers_seen C.number self.entry) from) }
        ensures within { IfSome result (λ at. at + length (code_units C.form c) ≤ length (units_seen self.entry)) }
        ensures char_boundary { IfSome result (IsCharBoundary C.form (numbers_seen C.number self.entry)) }
        ensures beyond { IfSome result (λ at. IsCharBoundary C.form (numbers_seen C.number self.entry) (at + length (code_units C.form c))) }
    {
        wide_search::find_char_from(self.as_slice(), c, from)
    }
}
