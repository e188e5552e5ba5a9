//! Searches in views of units.
ghost use Rattle.std.specs.Prelude.{◌≡◌, ◌↔◌, ◌+◌, ◌++◌, ◌∷◌, [], ◌≤◌, ◌<◌, length, map, IsTrue, IsSome, IfNone, IfSome};
ghost use Rattle.wide_forms.specs.EncodingForm.{code_units};
ghost use Rattle.wide_search.specs.Occurrences.{OccursIn, IsFirstAt, IsLastAt, OccursNowhere, BeginsWith, EndsWith, IsFirstSplit, IsLastSplit};
ghost use Rattle.wide_ustr.specs.View.{units_seen};

use crate::view::UStr;
use wide_unit::Unit;

impl<C: Unit> UStr<'_, C> {
    /// Returns whether the view begins with the needle. It does if the needle is empty.
    pub fn starts_with(self, needle: UStr<'_, C>) -> bool
        ensures { IsTrue result ↔ BeginsWith (units_seen needle.entry) (units_seen self.entry) }
    {
        wide_search::starts_with(self.as_slice(), needle.as_slice())
    }

    /// Returns whether the view ends with the needle. It does if the needle is empty.
    pub fn ends_with(self, needle: UStr<'_, C>) -> bool
        ensures { IsTrue result ↔ EndsWith (units_seen needle.entry) (units_seen self.entry) }
    {
        wide_search::ends_with(self.as_slice(), needle.as_slice())
    }

    /// Returns whether the needle occurs anywhere in the view. An empty needle does.
    pub fn contains(self, needle: UStr<'_, C>) -> bool
        ensures { IsTrue result ↔ OccursIn (units_seen needle.entry) (units_seen self.entry) }
    {
        self.find(needle).is_some()
    }

    /// Returns the offset, in units, of the first occurrence of the needle, or `None` if there is none. An empty needle
    /// occurs at the start. Units may have any values, so the offset may be within a surrogate pair.
    ///
    /// The search for the first unit of the needle is vectorized. If that unit is frequent, a vectorized search for an
    /// offset at which the first and the last unit of the needle both match follows. Units are compared up to one that
    /// differs. If too many are compared in vain, as they may be if the needle repeats itself, the two-way search
    /// passes the next offsets, so the time is linear in both lengths.
    ///
    /// # Example
    ///
    /// ```
    /// let path = U16String::from_str(rt.alloc(), "C:\\temp")?;
    /// assert!(rt; path.as_ustr().find(U16Str::from_slice(&[0x5c])) == Some(2));
    /// let emoji = U16Str::from_slice(&[0xd83d, 0xde00]);
    /// assert!(rt; emoji.find(U16Str::from_slice(&[0xde00])) == Some(1));
    /// ```
    pub fn find(self, needle: UStr<'_, C>) -> Option<usize>
        ensures first { IfSome result (IsFirstAt (units_seen needle.entry) (units_seen self.entry)) }
        ensures none { IfNone result (OccursNowhere (units_seen needle.entry) (units_seen self.entry)) }
        ensures within { IfSome result (λ at. at + length (units_seen needle.entry) ≤ length (units_seen self.entry)) }
    {
        wide_search::find(self.as_slice(), needle.as_slice())
    }

    /// Returns the offset, in units, of the last occurrence of the needle, or `None` if there is none. An empty needle
    /// occurs at the end. Units may have any values, so the offset may be within a surrogate pair. The search is
    /// vectorized, and goes from the back.
    pub fn rfind(self, needle: UStr<'_, C>) -> Option<usize>
        ensures last { IfSome result (IsLastAt (units_seen needle.entry) (units_seen self.entry)) }
        ensures none { IfNone result (OccursNowhere (units_seen needle.entry) (units_seen self.entry)) }
        ensures within { IfSome result (λ at. at + length (units_seen needle.entry) ≤ length (units_seen self.entry)) }
    {
        wide_search::rfind(self.as_slice(), needle.as_slice())
    }

    /// Returns the offset, in units, of the first occurrence of the unit, or `None` if there is none. The unit may be
    /// half of a surrogate pair. The search is vectorized.
    pub fn find_unit(self, unit: C) -> Option<usize>
        ensures first { IfSome result (IsFirstAt (unit ∷ []) (units_seen self.entry)) }
        ensures none { IfNone result (OccursNowhere (unit ∷ []) (units_seen self.entry)) }
        ensures within { IfSome result (λ at. at < length (units_seen self.entry)) }
    {
        wide_search::find_unit(self.as_slice(), unit)
    }

    /// Returns the offset, in units, of the last occurrence of the unit, or `None` if there is none. The unit may be
    /// half of a surrogate pair. The search is vectorized, and goes from the back.
    pub fn rfind_unit(self, unit: C) -> Option<usize>
        ensures last { IfSome result (IsLastAt (unit ∷ []) (units_seen self.entry)) }
        ensures none { IfNone result (OccursNowhere (unit ∷ []) (units_seen self.entry)) }
        ensures within { IfSome result (λ at. at < length (units_seen self.entry)) }
    {
        wide_search::rfind_unit(self.as_slice(), unit)
    }

    /// Returns the offset, in units, of the first occurrence of the character, or `None` if there is none. Half of a
    /// surrogate pair is no character and is not found, so both the offset and the end of the character are between two
    /// items (`widestring::search::laws::needles_in_text`).
    pub fn find_char(self, c: char) -> Option<usize>
        ensures first { IfSome result (IsFirstAt (code_units C.form c) (map C.number (units_seen self.entry))) }
        ensures none { IfNone result (OccursNowhere (code_units C.form c) (map C.number (units_seen self.entry))) }
        ensures within { IfSome result (λ at. at + length (code_units C.form c) ≤ length (units_seen self.entry)) }
    {
        wide_search::find_char(self.as_slice(), c)
    }

    /// Returns the offset, in units, of the last occurrence of the character, or `None` if there is none. Half of a
    /// surrogate pair is no character and is not found, so both the offset and the end of the character are between two
    /// items (`widestring::search::laws::needles_in_text`).
    pub fn rfind_char(self, c: char) -> Option<usize>
        ensures last { IfSome result (IsLastAt (code_units C.form c) (map C.number (units_seen self.entry))) }
        ensures none { IfNone result (OccursNowhere (code_units C.form c) (map C.number (units_seen self.entry))) }
        ensures within { IfSome result (λ at. at + length (code_units C.form c) ≤ length (units_seen self.entry)) }
    {
        wide_search::rfind_char(self.as_slice(), c)
    }

    /// Returns the view without the given prefix, or `None` if it does not begin with it.
    ///
    /// # Example
    ///
    /// ```
    /// let path = U16Str::from_slice(&[0x43, 0x3a, 0xd83d]);
    /// let drive = U16Str::from_slice(&[0x43, 0x3a]);
    /// assert!(rt; path.strip_prefix(drive) == Some(U16Str::from_slice(&[0xd83d])));
    /// assert!(rt; drive.strip_prefix(path).is_none());
    /// ```
    pub fn strip_prefix(self, needle: UStr<'_, C>) -> Option<Self>
        ensures some { IsSome result ↔ BeginsWith (units_seen needle.entry) (units_seen self.entry) }
        ensures rest { IfSome result (λ rest. units_seen self.entry ≡ units_seen needle.entry ++ units_seen rest) }
    {
        let rest = wide_search::strip_prefix(self.as_slice(), needle.as_slice())?;
        Some(UStr::from_slice(rest))
    }

    /// Returns the view without the given suffix, or `None` if it does not end with it.
    ///
    /// # Example
    ///
    /// ```
    /// let line = U16Str::from_slice(&[0x48, 0xd83d, 0xd, 0xa]);
    /// let end = U16Str::from_slice(&[0xd, 0xa]);
    /// assert!(rt; line.strip_suffix(end) == Some(U16Str::from_slice(&[0x48, 0xd83d])));
    /// assert!(rt; end.strip_suffix(line).is_none());
    /// ```
    pub fn strip_suffix(self, needle: UStr<'_, C>) -> Option<Self>
        ensures some { IsSome result ↔ EndsWith (units_seen needle.entry) (units_seen self.entry) }
        ensures prefix { IfSome result (λ prefix. units_seen self.entry ≡ units_seen prefix ++ units_seen needle.entry) }
    {
        let prefix = wide_search::strip_suffix(self.as_slice(), needle.as_slice())?;
        Some(UStr::from_slice(prefix))
    }

    /// Splits the view at the first occurrence of the needle, into what is before it and what is after it. Returns
    /// `None` if there is none. An empty needle occurs at the start.
    pub fn split_once(self, needle: UStr<'_, C>) -> Option<(Self, Self)>
        ensures first { IfSome result (λ r. IsFirstSplit (units_seen needle.entry) (units_seen self.entry) (units_seen r.0) (units_seen r.1)) }
        ensures none { IfNone result (OccursNowhere (units_seen needle.entry) (units_seen self.entry)) }
    {
        let (prefix, rest) = wide_search::split_once(self.as_slice(), needle.as_slice())?;
        Some((UStr::from_slice(prefix), UStr::from_slice(rest)))
    }

    /// Splits the view at the last occurrence of the needle, into what is before it and what is after it. Returns
    /// `None` if there is none. An empty needle occurs at the end.
    pub fn rsplit_once(self, needle: UStr<'_, C>) -> Option<(Self, Self)>
        ensures last { IfSome result (λ r. IsLastSplit (units_seen needle.entry) (units_seen self.entry) (units_seen r.0) (units_seen r.1)) }
        ensures none { IfNone result (OccursNowhere (units_seen needle.entry) (units_seen self.entry)) }
    {
        let (prefix, rest) = wide_search::rsplit_once(self.as_slice(), needle.as_slice())?;
        Some((UStr::from_slice(prefix), UStr::from_slice(rest)))
    }
}
