//! Searches in well-formed text.
ghost use Rattle.std.specs.Prelude.{◌≡◌, ◌↔◌, ◌+◌, ◌++◌, ◌≤◌, length, map, IsTrue, IsSome, IfNone, IfSome};
ghost use Rattle.wide_forms.specs.EncodingForm.{code_units};
ghost use Rattle.wide_search.specs.Occurrences.{OccursIn, IsFirstAt, IsLastAt, OccursNowhere, BeginsWith, EndsWith, IsFirstSplit, IsLastSplit};
ghost use Rattle.wide_forms.specs.Offsets.{IsCharBoundary};
ghost use Rattle.wide_utfstr.specs.View.{units_seen};

use crate::view::UtfStr;
use wide_unit::Unit;

impl<C: Unit> UtfStr<'_, C> {
    /// Returns whether the view begins with the needle. It does if the needle is empty.
    ///
    /// # Example
    ///
    /// ```
    /// let path = Utf16Str::from_slice(&[0x43, 0x3a, 0x5c, 0xe9])?;
    /// assert!(rt; path.starts_with(Utf16Str::from_slice(&[0x43, 0x3a])?));
    /// assert!(rt; !path.starts_with(Utf16Str::from_slice(&[0x63, 0x3a])?));
    /// ```
    pub fn starts_with(self, needle: UtfStr<'_, C>) -> bool
        ensures { IsTrue result ↔ BeginsWith (units_seen needle.entry) (units_seen self.entry) }
    {
        wide_search::starts_with(self.as_slice(), needle.as_slice())
    }

    /// Returns whether the view ends with the needle. It does if the needle is empty.
    ///
    /// # Example
    ///
    /// ```
    /// let text = Utf16Str::from_slice(&[0x48, 0xd83d, 0xde00])?;
    /// let emoji = Utf16Str::from_slice(&[0xd83d, 0xde00])?;
    /// assert!(rt; text.ends_with(emoji));
    /// assert!(rt; !emoji.ends_with(text));
    /// ```
    pub fn ends_with(self, needle: UtfStr<'_, C>) -> bool
        ensures { IsTrue result ↔ EndsWith (units_seen needle.entry) (units_seen self.entry) }
    {
        wide_search::ends_with(self.as_slice(), needle.as_slice())
    }

    /// Returns whether the needle occurs anywhere in the view. An empty needle does.
    ///
    /// # Example
    ///
    /// ```
    /// let text = Utf16Str::from_slice(&[0xe9, 0x3d, 0x3e, 0x31])?;
    /// let arrow = Utf16Str::from_slice(&[0x3d, 0x3e])?;
    /// assert!(rt; text.contains(arrow));
    /// assert!(rt; !arrow.contains(text));
    /// ```
    pub fn contains(self, needle: UtfStr<'_, C>) -> bool
        ensures { IsTrue result ↔ OccursIn (units_seen needle.entry) (units_seen self.entry) }
    {
        self.find(needle).is_some()
    }

    /// Returns the offset, in units, of the first occurrence of the needle, or `None` if there is none. An empty needle
    /// occurs at the start. The offset and the end of the occurrence are character boundaries.
    ///
    /// The search for the first unit of the needle is vectorized. If that unit is frequent, a vectorized search for an
    /// offset at which the first and the last unit of the needle both match follows. Units are compared up to one that
    /// differs. If too many are compared in vain, as they may be if the needle repeats itself, the two-way search
    /// passes the next offsets, so the time is linear in both lengths.
    ///
    /// # Example
    ///
    /// ```
    /// let text = Utf16Str::from_slice(&[0xd83d, 0xde00, 0x3d, 0x3e, 0x31])?;
    /// let arrow = Utf16Str::from_slice(&[0x3d, 0x3e])?;
    /// assert!(rt; text.find(arrow) == Some(2));
    /// assert!(rt; arrow.find(text).is_none());
    /// ```
    pub fn find(self, needle: UtfStr<'_, C>) -> Option<usize>
        ensures first { IfSome result (IsFirstAt (units_seen needle.entry) (units_seen self.entry)) }
        ensures none { IfNone result (OccursNowhere (units_seen needle.entry) (units_seen self.entry)) }
        ensures within { IfSome result (λ at. at + length (units_seen needle.entry) ≤ length (units_seen self.entry)) }
        ensures char_boundary { IfSome result (IsCharBoundary C.form (map C.number (units_seen self.entry))) }
        ensures beyond { IfSome result (λ at. IsCharBoundary C.form (map C.number (units_seen self.entry)) (at + length (units_seen needle.entry))) }
    {
        wide_search::find(self.as_slice(), needle.as_slice())
    }

    /// Returns the offset, in units, of the last occurrence of the needle, or `None` if there is none. An empty needle
    /// occurs at the end. The offset and the end of the occurrence are character boundaries. The search is vectorized,
    /// and goes from the back.
    ///
    /// # Example
    ///
    /// ```
    /// let path = Utf16Str::from_slice(&[0x43, 0x3a, 0x5c, 0xe9, 0x5c, 0x61])?;
    /// let separator = Utf16Str::from_slice(&[0x5c])?;
    /// assert!(rt; path.rfind(separator) == Some(4));
    /// assert!(rt; separator.rfind(path).is_none());
    /// ```
    pub fn rfind(self, needle: UtfStr<'_, C>) -> Option<usize>
        ensures last { IfSome result (IsLastAt (units_seen needle.entry) (units_seen self.entry)) }
        ensures none { IfNone result (OccursNowhere (units_seen needle.entry) (units_seen self.entry)) }
        ensures within { IfSome result (λ at. at + length (units_seen needle.entry) ≤ length (units_seen self.entry)) }
        ensures char_boundary { IfSome result (IsCharBoundary C.form (map C.number (units_seen self.entry))) }
        ensures beyond { IfSome result (λ at. IsCharBoundary C.form (map C.number (units_seen self.entry)) (at + length (units_seen needle.entry))) }
    {
        wide_search::rfind(self.as_slice(), needle.as_slice())
    }

    /// Returns the offset, in units, of the first occurrence of the character, or `None` if there is none. The offset
    /// and the end of the character are character boundaries.
    ///
    /// # Example
    ///
    /// ```
    /// let text = Utf16Str::from_slice(&[0x48, 0xd83d, 0xde00, 0x21])?;
    /// assert!(rt; text.find_char('😀') == Some(1));
    /// assert!(rt; text.find_char('!') == Some(3));
    /// ```
    pub fn find_char(self, c: char) -> Option<usize>
        ensures first { IfSome result (IsFirstAt (code_units C.form c) (map C.number (units_seen self.entry))) }
        ensures none { IfNone result (OccursNowhere (code_units C.form c) (map C.number (units_seen self.entry))) }
        ensures within { IfSome result (λ at. at + length (code_units C.form c) ≤ length (units_seen self.entry)) }
        ensures char_boundary { IfSome result (IsCharBoundary C.form (map C.number (units_seen self.entry))) }
        ensures beyond { IfSome result (λ at. IsCharBoundary C.form (map C.number (units_seen self.entry)) (at + length (code_units C.form c))) }
    {
        wide_search::find_char(self.as_slice(), c)
    }

    /// Returns the offset, in units, of the last occurrence of the character, or `None` if there is none. The offset
    /// and the end of the character are character boundaries.
    pub fn rfind_char(self, c: char) -> Option<usize>
        ensures last { IfSome result (IsLastAt (code_units C.form c) (map C.number (units_seen self.entry))) }
        ensures none { IfNone result (OccursNowhere (code_units C.form c) (map C.number (units_seen self.entry))) }
        ensures within { IfSome result (λ at. at + length (code_units C.form c) ≤ length (units_seen self.entry)) }
        ensures char_boundary { IfSome result (IsCharBoundary C.form (map C.number (units_seen self.entry))) }
        ensures beyond { IfSome result (λ at. IsCharBoundary C.form (map C.number (units_seen self.entry)) (at + length (code_units C.form c))) }
    {
        wide_search::rfind_char(self.as_slice(), c)
    }

    /// Returns the view without the given prefix, or `None` if it does not begin with it.
    ///
    /// # Example
    ///
    /// ```
    /// let path = Utf16Str::from_slice(&[0x43, 0x3a, 0xe9])?;
    /// let drive = Utf16Str::from_slice(&[0x43, 0x3a])?;
    /// let rest = path.strip_prefix(drive);
    /// assert!(rt; rest.is_some_and(|rest| rest.eq_str("é")));
    /// assert!(rt; drive.strip_prefix(path).is_none());
    /// ```
    pub fn strip_prefix(self, needle: UtfStr<'_, C>) -> Option<Self>
        ensures some { IsSome result ↔ BeginsWith (units_seen needle.entry) (units_seen self.entry) }
        ensures rest { IfSome result (λ rest. units_seen self.entry ≡ units_seen needle.entry ++ units_seen rest) }
    {
        if !self.starts_with(needle) {
            return None;
        }
        let (_, rest) = self.split_at(needle.len());
        Some(rest)
    }

    /// Returns the view without the given suffix, or `None` if it does not end with it.
    ///
    /// # Example
    ///
    /// ```
    /// let name = Utf16Str::from_slice(&[0xe9, 0x2e, 0x72, 0x63])?;
    /// let extension = Utf16Str::from_slice(&[0x2e, 0x72, 0x63])?;
    /// let stem = name.strip_suffix(extension);
    /// assert!(rt; stem.is_some_and(|stem| stem.eq_str("é")));
    /// assert!(rt; extension.strip_suffix(name).is_none());
    /// ```
    pub fn strip_suffix(self, needle: UtfStr<'_, C>) -> Option<Self>
        ensures some { IsSome result ↔ EndsWith (units_seen needle.entry) (units_seen self.entry) }
        ensures prefix { IfSome result (λ prefix. units_seen self.entry ≡ units_seen prefix ++ units_seen needle.entry) }
    {
        if !self.ends_with(needle) {
            return None;
        }
        let (prefix, _) = self.split_at(self.len() - needle.len());
        Some(prefix)
    }

    /// Splits the view at the first occurrence of the needle, into the text before it and the text after it. Returns
    /// `None` if there is none. An empty needle occurs at the start.
    ///
    /// # Example
    ///
    /// ```
    /// let setting = Utf16Str::from_slice(&[0xe9, 0x3d, 0x31])?;
    /// let parts = setting.split_once(Utf16Str::from_slice(&[0x3d])?);
    /// assert!(rt; parts.is_some_and(|(name, value)| name.eq_str("é") && value.eq_str("1")));
    /// ```
    pub fn split_once(self, needle: UtfStr<'_, C>) -> Option<(Self, Self)>
        ensures first { IfSome result (λ r. IsFirstSplit (units_seen needle.entry) (units_seen self.entry) (units_seen r.0) (units_seen r.1)) }
        ensures none { IfNone result (OccursNowhere (units_seen needle.entry) (units_seen self.entry)) }
    {
        let Some(at) = self.find(needle) else {
            return None;
        };
        let (prefix, _) = self.split_at(at);
        let (_, rest) = self.split_at(at + needle.len());
        Some((prefix, rest))
    }

    /// Splits the view at the last occurrence of the needle, into the text before it and the text after it. Returns
    /// `None` if there is none. An empty needle occurs at the end.
    ///
    /// # Example
    ///
    /// ```
    /// let path = Utf16Str::from_slice(&[0x61, 0x2f, 0xe9, 0x2f, 0x62])?;
    /// let parts = path.rsplit_once(Utf16Str::from_slice(&[0x2f])?);
    /// assert!(rt; parts.is_some_and(|(folder, name)| folder.eq_str("a/é") && name.eq_str("b")));
    /// ```
    pub fn rsplit_once(self, needle: UtfStr<'_, C>) -> Option<(Self, Self)>
        ensures last { IfSome result (λ r. IsLastSplit (units_seen needle.entry) (units_seen self.entry) (units_seen r.0) (units_seen r.1)) }
        ensures none { IfNone result (OccursNowhere (units_seen needle.entry) (units_seen self.entry)) }
    {
        let Some(at) = self.rfind(needle) else {
            return None;
        };
        let (prefix, _) = self.split_at(at);
        let (_, rest) = self.split_at(at + needle.len());
        Some((prefix, rest))
    }
}
