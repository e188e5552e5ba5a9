//! Searches in the contents of C strings.
ghost use Rattle.std.specs.Prelude.{◌≡◌, ◌↔◌, ◌+◌, ◌++◌, ◌∷◌, [], ◌≤◌, ◌<◌, ◌^◌, length, map, IsTrue, IsSome, IfNone, IfSome};
ghost use Rattle.wide_forms.specs.EncodingForm.{code_units};
ghost use Rattle.wide_search.specs.Occurrences.{OccursIn, IsFirstAt, IsLastAt, OccursNowhere, BeginsWith, EndsWith, IsFirstSplit, IsLastSplit};
ghost use Rattle.wide_search.specs.Substrings.{AreSubstrings, joined_with};
ghost use Rattle.wide_search.specs.Cut.{substrings};
ghost use Rattle.wide_ustr.specs.Split.{unit_substrings_left, one_substrings_left, char_substrings_left};
ghost use Rattle.wide_ustr.specs.SplitMore.{terminated, unit_terminated_left, char_terminated_left};
ghost use Rattle.wide_ustr.specs.SplitN.{splitn, unit_splitn_left, one_splitn_left, char_splitn_left};
ghost use Rattle.wide_ustr.specs.View.{units_seen};
ghost use Rattle.wide_ucstr.specs.View.{contents_seen};

use crate::view::UCStr;
use wide_ustr::{OneUnit, Split, SplitN, SplitTerminator, UStr};
use wide_utferror::FaultUnit;

impl<'a, C: FaultUnit> UCStr<'a, C> {
    /// Returns whether the contents begin with the needle, without its NUL. They do if the needle is empty.
    pub fn starts_with(self, needle: UCStr<'_, C>) -> bool
        ensures { IsTrue result ↔ BeginsWith (contents_seen needle.entry) (contents_seen self.entry) }
    {
        self.as_ustr().starts_with(needle.as_ustr())
    }

    /// Returns whether the contents end with the needle, without its NUL. They do if the needle is empty.
    pub fn ends_with(self, needle: UCStr<'_, C>) -> bool
        ensures { IsTrue result ↔ EndsWith (contents_seen needle.entry) (contents_seen self.entry) }
    {
        self.as_ustr().ends_with(needle.as_ustr())
    }

    /// Returns whether the needle, without its NUL, occurs anywhere in the contents. An empty needle does.
    pub fn contains(self, needle: UCStr<'_, C>) -> bool
        ensures { IsTrue result ↔ OccursIn (contents_seen needle.entry) (contents_seen self.entry) }
    {
        self.as_ustr().contains(needle.as_ustr())
    }

    /// Returns the offset, in units, of the first occurrence of the needle, without its NUL, in the contents, or `None`
    /// if there is none. An empty needle occurs at the start. Units may have any values but 0, so the offset may be
    /// within a surrogate pair.
    ///
    /// The search for the first unit of the needle is vectorized. If that unit is frequent, a vectorized search for an
    /// offset at which the first and the last unit of the needle both match follows. Units are compared up to one that
    /// differs. If too many are compared in vain, as they may be if the needle repeats itself, the two-way search
    /// passes the next offsets, so the time is linear in both lengths.
    pub fn find(self, needle: UCStr<'_, C>) -> Option<usize>
        ensures first { IfSome result (IsFirstAt (contents_seen needle.entry) (contents_seen self.entry)) }
        ensures none { IfNone result (OccursNowhere (contents_seen needle.entry) (contents_seen self.entry)) }
        ensures within { IfSome result (λ at. at + length (contents_seen needle.entry) ≤ length (contents_seen self.entry)) }
    {
        self.as_ustr().find(needle.as_ustr())
    }

    /// Returns the offset, in units, of the last occurrence of the needle, without its NUL, in the contents, or `None`
    /// if there is none. An empty needle occurs at the end of the contents, before the NUL. Units may have any values
    /// but 0, so the offset may be within a surrogate pair. The search is vectorized, and goes from the back.
    pub fn rfind(self, needle: UCStr<'_, C>) -> Option<usize>
        ensures last { IfSome result (IsLastAt (contents_seen needle.entry) (contents_seen self.entry)) }
        ensures none { IfNone result (OccursNowhere (contents_seen needle.entry) (contents_seen self.entry)) }
        ensures within { IfSome result (λ at. at + length (contents_seen needle.entry) ≤ length (contents_seen self.entry)) }
    {
        self.as_ustr().rfind(needle.as_ustr())
    }

    /// Returns the offset, in units, of the first occurrence of the unit in the contents, or `None` if there is none. A
    /// NUL is never found. The unit may be half of a surrogate pair. The search is vectorized.
    pub fn find_unit(self, unit: C) -> Option<usize>
        ensures first { IfSome result (IsFirstAt (unit ∷ []) (contents_seen self.entry)) }
        ensures none { IfNone result (OccursNowhere (unit ∷ []) (contents_seen self.entry)) }
        ensures within { IfSome result (λ at. at < length (contents_seen self.entry)) }
    {
        self.as_ustr().find_unit(unit)
    }

    /// Returns the offset, in units, of the last occurrence of the unit in the contents, or `None` if there is none. A
    /// NUL is never found. The unit may be half of a surrogate pair. The search is vectorized, and goes from the back.
    pub fn rfind_unit(self, unit: C) -> Option<usize>
        ensures last { IfSome result (IsLastAt (unit ∷ []) (contents_seen self.entry)) }
        ensures none { IfNone result (OccursNowhere (unit ∷ []) (contents_seen self.entry)) }
        ensures within { IfSome result (λ at. at < length (contents_seen self.entry)) }
    {
        self.as_ustr().rfind_unit(unit)
    }

    /// Returns the offset, in units, of the first occurrence of the character in the contents, or `None` if there is
    /// none. Half of a surrogate pair is no character and is not found, so both the offset and the end of the character
    /// are between two items (`widestring::search::laws::needles_in_text`).
    pub fn find_char(self, c: char) -> Option<usize>
        ensures first { IfSome result (IsFirstAt (code_units C.form c) (map C.number (contents_seen self.entry))) }
        ensures none { IfNone result (OccursNowhere (code_units C.form c) (map C.number (contents_seen self.entry))) }
        ensures within { IfSome result (λ at. at + length (code_units C.form c) ≤ length (contents_seen self.entry)) }
    {
        self.as_ustr().find_char(c)
    }

    /// Returns the offset, in units, of the last occurrence of the character in the contents, or `None` if there is
    /// none. Half of a surrogate pair is no character and is not found, so both the offset and the end of the character
    /// are between two items (`widestring::search::laws::needles_in_text`).
    pub fn rfind_char(self, c: char) -> Option<usize>
        ensures last { IfSome result (IsLastAt (code_units C.form c) (map C.number (contents_seen self.entry))) }
        ensures none { IfNone result (OccursNowhere (code_units C.form c) (map C.number (contents_seen self.entry))) }
        ensures within { IfSome result (λ at. at + length (code_units C.form c) ≤ length (contents_seen self.entry)) }
    {
        self.as_ustr().rfind_char(c)
    }

    /// Returns the contents without the contents of the given prefix, as a view without a NUL, or `None` if they do not
    /// begin with it.
    pub fn strip_prefix(self, needle: UCStr<'_, C>) -> Option<UStr<'a, C>>
        ensures some { IsSome result ↔ BeginsWith (contents_seen needle.entry) (contents_seen self.entry) }
        ensures rest { IfSome result (λ rest. contents_seen self.entry ≡ contents_seen needle.entry ++ units_seen rest) }
    {
        self.as_ustr().strip_prefix(needle.as_ustr())
    }

    /// Returns the contents without the contents of the given suffix, as a view without a NUL, or `None` if they do not
    /// end with it.
    pub fn strip_suffix(self, needle: UCStr<'_, C>) -> Option<UStr<'a, C>>
        ensures some { IsSome result ↔ EndsWith (contents_seen needle.entry) (contents_seen self.entry) }
        ensures prefix { IfSome result (λ prefix. contents_seen self.entry ≡ units_seen prefix ++ contents_seen needle.entry) }
    {
        self.as_ustr().strip_suffix(needle.as_ustr())
    }

    /// Splits the contents at the first occurrence of the needle, without its NUL, into what is before it and what is
    /// after it, as views without a NUL. Returns `None` if there is none. An empty needle occurs at the start.
    pub fn split_once(self, needle: UCStr<'_, C>) -> Option<(UStr<'a, C>, UStr<'a, C>)>
        ensures first { IfSome result (λ r. IsFirstSplit (contents_seen needle.entry) (contents_seen self.entry) (units_seen r.0) (units_seen r.1)) }
        ensures none { IfNone result (OccursNowhere (contents_seen needle.entry) (contents_seen self.entry)) }
    {
        self.as_ustr().split_once(needle.as_ustr())
    }

    /// Splits the contents at the last occurrence of the needle, without its NUL, into what is before it and what is
    /// after it, as views without a NUL. Returns `None` if there is none. An empty needle occurs at the end.
    pub fn rsplit_once(self, needle: UCStr<'_, C>) -> Option<(UStr<'a, C>, UStr<'a, C>)>
        ensures last { IfSome result (λ r. IsLastSplit (contents_seen needle.entry) (contents_seen self.entry) (units_seen r.0) (units_seen r.1)) }
        ensures none { IfNone result (OccursNowhere (contents_seen needle.entry) (contents_seen self.entry)) }
    {
        self.as_ustr().rsplit_once(needle.as_ustr())
    }

    /// Returns an iterator over the substrings of the contents between the occurrences of the separator, without its
    /// NUL, from the front. Each occurrence is the first one after the one before, so occurrences do not overlap. If
    /// the separator occurs at the start, at the end, or twice in a row, the substring there is empty. If it does not
    /// occur, or is empty, the contents are the only substring.
    pub fn split<'p>(self, needle: UCStr<'p, C>) -> Split<UStr<'a, C>, UStr<'p, C>>
        ensures left { unit_substrings_left C.number result ≡ substrings (map C.number (contents_seen needle.entry)) (map C.number (contents_seen self.entry)) }
        ensures cut { 0 < length (contents_seen needle.entry) → AreSubstrings (map C.number (contents_seen needle.entry)) (map C.number (contents_seen self.entry)) (unit_substrings_left C.number result) }
        ensures empty { length (contents_seen needle.entry) ≡ 0 → unit_substrings_left C.number result ≡ map C.number (contents_seen self.entry) ∷ [] }
        ensures most { length (unit_substrings_left C.number result) ≤ length (contents_seen self.entry) + 1 }
        ensures fits { length (unit_substrings_left C.number result) < 2 ^ 64 }
    {
        self.as_ustr().split(needle.as_ustr())
    }

    /// Returns an iterator over the substrings of the contents between the occurrences of a unit, from both ends, as
    /// views without a NUL. The unit may be half of a surrogate pair. If it occurs at the start, at the end, or twice in
    /// a row, the substring there is empty. If it does not occur, as a NUL never does, the contents are the only
    /// substring.
    ///
    /// # Example
    ///
    /// ```
    /// let row = U16CStr::from_slice(&[0x61, 0x3b, 0xd800, 0])?;
    /// let mut fields = row.split_unit(0x3b);
    /// assert!(rt; fields.next() == Some(U16Str::from_slice(&[0x61])));
    /// assert!(rt; fields.next() == Some(U16Str::from_slice(&[0xd800])));
    /// assert!(rt; fields.next().is_none());
    /// ```
    pub fn split_unit(self, unit: C) -> Split<UStr<'a, C>, OneUnit<C>>
        ensures left { one_substrings_left C.number result ≡ substrings (C.number unit ∷ []) (map C.number (contents_seen self.entry)) }
        ensures cut { AreSubstrings (C.number unit ∷ []) (map C.number (contents_seen self.entry)) (one_substrings_left C.number result) }
        ensures most { length (one_substrings_left C.number result) ≤ length (contents_seen self.entry) + 1 }
        ensures fits { length (one_substrings_left C.number result) < 2 ^ 64 }
    {
        self.as_ustr().split_unit(unit)
    }

    /// Returns an iterator over the substrings of the contents between the occurrences of a character, from both ends,
    /// as views without a NUL. Half of a surrogate pair is no character and separates nothing. If the character occurs
    /// at the start, at the end, or twice in a row, the substring there is empty. If it does not occur, the contents are
    /// the only substring.
    ///
    /// # Example
    ///
    /// ```
    /// let text = U16CStr::from_slice(&[0x61, 0xd83d, 0xde00, 0xde00, 0])?;
    /// let mut parts = text.split_char('😀');
    /// assert!(rt; parts.next() == Some(U16Str::from_slice(&[0x61])));
    /// assert!(rt; parts.next() == Some(U16Str::from_slice(&[0xde00])));
    /// assert!(rt; parts.next().is_none());
    /// ```
    pub fn split_char(self, c: char) -> Split<UStr<'a, C>, char>
        ensures left { char_substrings_left C.form C.number result ≡ substrings (code_units C.form c) (map C.number (contents_seen self.entry)) }
        ensures cut { AreSubstrings (code_units C.form c) (map C.number (contents_seen self.entry)) (char_substrings_left C.form C.number result) }
        ensures most { length (char_substrings_left C.form C.number result) ≤ length (contents_seen self.entry) + 1 }
        ensures fits { length (char_substrings_left C.form C.number result) < 2 ^ 64 }
    {
        self.as_ustr().split_char(c)
    }

    /// Returns an iterator over the first substrings of the contents between the occurrences of the separator, without
    /// its NUL, at most `count`, from the front, as views without a NUL. They are those of [`UCStr::split`], but the
    /// last one of that number is all that is left of the contents, with the separators in it. If `count` is 0 there
    /// are none.
    pub fn splitn<'p>(self, count: usize, needle: UCStr<'p, C>) -> SplitN<UStr<'a, C>, UStr<'p, C>>
        ensures left { unit_splitn_left C.number result ≡ splitn count (map C.number (contents_seen needle.entry)) (substrings (map C.number (contents_seen needle.entry)) (map C.number (contents_seen self.entry))) }
        ensures joined { 0 < count → joined_with (map C.number (contents_seen needle.entry)) (unit_splitn_left C.number result) ≡ map C.number (contents_seen self.entry) }
        ensures whole { count ≡ 1 → unit_splitn_left C.number result ≡ map C.number (contents_seen self.entry) ∷ [] }
        ensures most { length (unit_splitn_left C.number result) ≤ count }
        ensures fits { length (unit_splitn_left C.number result) < 2 ^ 64 }
    {
        self.as_ustr().splitn(count, needle.as_ustr())
    }

    /// Returns an iterator over the first substrings of the contents between the occurrences of a unit, at most `count`,
    /// from the front, as views without a NUL. They are those of [`UCStr::split_unit`], but the last one of that number
    /// is all that is left of the contents, with the separators in it. If `count` is 0 there are none.
    ///
    /// # Example
    ///
    /// ```
    /// let setting = U16CStr::from_slice(&[0x61, 0x3d, 0x62, 0x3d, 0])?;
    /// let mut parts = setting.splitn_unit(2, 0x3d);
    /// assert!(rt; parts.next() == Some(U16Str::from_slice(&[0x61])));
    /// assert!(rt; parts.next() == Some(U16Str::from_slice(&[0x62, 0x3d])));
    /// assert!(rt; parts.next().is_none());
    /// ```
    pub fn splitn_unit(self, count: usize, unit: C) -> SplitN<UStr<'a, C>, OneUnit<C>>
        ensures left { one_splitn_left C.number result ≡ splitn count (C.number unit ∷ []) (substrings (C.number unit ∷ []) (map C.number (contents_seen self.entry))) }
        ensures joined { 0 < count → joined_with (C.number unit ∷ []) (one_splitn_left C.number result) ≡ map C.number (contents_seen self.entry) }
        ensures whole { count ≡ 1 → one_splitn_left C.number result ≡ map C.number (contents_seen self.entry) ∷ [] }
        ensures most { length (one_splitn_left C.number result) ≤ count }
        ensures fits { length (one_splitn_left C.number result) < 2 ^ 64 }
    {
        self.as_ustr().splitn_unit(count, unit)
    }

    /// Returns an iterator over the first substrings of the contents between the occurrences of a character, at most
    /// `count`, from the front, as views without a NUL. They are those of [`UCStr::split_char`], but the last one of
    /// that number is all that is left of the contents, with the separators in it. If `count` is 0 there are none.
    pub fn splitn_char(self, count: usize, c: char) -> SplitN<UStr<'a, C>, char>
        ensures left { char_splitn_left C.form C.number result ≡ splitn count (code_units C.form c) (substrings (code_units C.form c) (map C.number (contents_seen self.entry))) }
        ensures joined { 0 < count → joined_with (code_units C.form c) (char_splitn_left C.form C.number result) ≡ map C.number (contents_seen self.entry) }
        ensures whole { count ≡ 1 → char_splitn_left C.form C.number result ≡ map C.number (contents_seen self.entry) ∷ [] }
        ensures most { length (char_splitn_left C.form C.number result) ≤ count }
        ensures fits { length (char_splitn_left C.form C.number result) < 2 ^ 64 }
    {
        self.as_ustr().splitn_char(count, c)
    }

    /// Returns an iterator over the substrings of the contents that an occurrence of the separator, without its NUL, or
    /// their end ends, from the front, as views without a NUL. They are those of [`UCStr::split`], without the last one
    /// if that is empty.
    ///
    /// # Example
    ///
    /// ```
    /// let list = U16CStr::from_slice(&[0x61, 0x3b, 0x3b, 0])?;
    /// let mut parts = list.split_terminator(U16CStr::from_slice(&[0x3b, 0])?);
    /// assert!(rt; parts.next() == Some(U16Str::from_slice(&[0x61])));
    /// assert!(rt; parts.next().is_some_and(|part| part.is_empty()));
    /// assert!(rt; parts.next().is_none());
    /// ```
    pub fn split_terminator<'p>(
        self,
        needle: UCStr<'p, C>,
    ) -> SplitTerminator<UStr<'a, C>, UStr<'p, C>>
        ensures left { unit_terminated_left C.number result ≡ terminated (substrings (map C.number (contents_seen needle.entry)) (map C.number (contents_seen self.entry))) }
        ensures most { length (unit_terminated_left C.number result) ≤ length (contents_seen self.entry) + 1 }
        ensures fits { length (unit_terminated_left C.number result) < 2 ^ 64 }
    {
        self.as_ustr().split_terminator(needle.as_ustr())
    }

    /// Returns an iterator over the substrings of the contents that an occurrence of the character or their end ends,
    /// from both ends, as views without a NUL. They are those of [`UCStr::split_char`], without the last one if that is
    /// empty.
    ///
    /// # Example
    ///
    /// ```
    /// let list = U16CStr::from_slice(&[0x61, 0x3b, 0xd800, 0])?;
    /// let mut parts = list.split_terminator_char(';');
    /// assert!(rt; parts.next() == Some(U16Str::from_slice(&[0x61])));
    /// assert!(rt; parts.next() == Some(U16Str::from_slice(&[0xd800])));
    /// assert!(rt; parts.next().is_none());
    /// ```
    pub fn split_terminator_char(self, c: char) -> SplitTerminator<UStr<'a, C>, char>
        ensures left { char_terminated_left C.form C.number result ≡ terminated (substrings (code_units C.form c) (map C.number (contents_seen self.entry))) }
        ensures most { length (char_terminated_left C.form C.number result) ≤ length (contents_seen self.entry) + 1 }
        ensures fits { length (char_terminated_left C.form C.number result) < 2 ^ 64 }
    {
        self.as_ustr().split_terminator_char(c)
    }
}
