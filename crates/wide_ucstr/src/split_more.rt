//! The contents of C strings split at a separator from the back, or after it.
ghost use Rattle.std.specs.Prelude.{◌≡◌, ◌+◌, ◌∷◌, [], ◌≤◌, ◌<◌, ◌^◌, length, map};
ghost use Rattle.wide_forms.specs.EncodingForm.{code_units};
ghost use Rattle.wide_search.specs.Cut.{substrings};
ghost use Rattle.wide_ustr.specs.SplitBack.{substrings_back, rsplitn, unit_rsplit_left, char_rsplit_left, unit_rsplitn_left, char_rsplitn_left};
ghost use Rattle.wide_ustr.specs.SplitInclusive.{inclusive, joined, unit_inclusive_left, char_inclusive_left};
ghost use Rattle.wide_ucstr.specs.View.{contents_seen};

use crate::view::UCStr;
use wide_ustr::{RSplit, RSplitN, SplitInclusive, UStr};
use wide_utferror::FaultUnit;

impl<'a, C: FaultUnit> UCStr<'a, C> {
    /// Returns an iterator over the substrings of the contents between the occurrences of the separator, without its
    /// NUL, from the back, as views without a NUL. Each occurrence is the last one before the one before, so
    /// occurrences do not overlap. If the separator can overlap itself, they may be others than those of
    /// [`UCStr::split`]. If it does not occur, or is empty, all contents are the only substring.
    ///
    /// # Example
    ///
    /// ```
    /// let path = U16CStr::from_slice(&[0x61, 0x2f, 0xd800, 0])?;
    /// let mut parts = path.rsplit(U16CStr::from_slice(&[0x2f, 0])?);
    /// assert!(rt; parts.next() == Some(U16Str::from_slice(&[0xd800])));
    /// assert!(rt; parts.next() == Some(U16Str::from_slice(&[0x61])));
    /// assert!(rt; parts.next().is_none());
    /// ```
    pub fn rsplit<'p>(self, needle: UCStr<'p, C>) -> RSplit<UStr<'a, C>, UStr<'p, C>>
        ensures left { unit_rsplit_left C.number result ≡ substrings_back (map C.number (contents_seen needle.entry)) (map C.number (contents_seen self.entry)) }
        ensures most { length (unit_rsplit_left C.number result) ≤ length (contents_seen self.entry) + 1 }
        ensures fits { length (unit_rsplit_left C.number result) < 2 ^ 64 }
    {
        self.as_ustr().rsplit(needle.as_ustr())
    }

    /// Returns an iterator over the substrings of the contents between the occurrences of a character, from the back,
    /// as views without a NUL. Half of a surrogate pair is no character and separates nothing. If the character does not
    /// occur, all contents are the only substring.
    ///
    /// # Example
    ///
    /// ```
    /// let path = U16CStr::from_slice(&[0x61, 0x2f, 0xd800, 0])?;
    /// let mut parts = path.rsplit_char('/');
    /// assert!(rt; parts.next() == Some(U16Str::from_slice(&[0xd800])));
    /// assert!(rt; parts.next() == Some(U16Str::from_slice(&[0x61])));
    /// assert!(rt; parts.next().is_none());
    /// ```
    pub fn rsplit_char(self, c: char) -> RSplit<UStr<'a, C>, char>
        ensures left { char_rsplit_left C.form C.number result ≡ substrings_back (code_units C.form c) (map C.number (contents_seen self.entry)) }
        ensures most { length (char_rsplit_left C.form C.number result) ≤ length (contents_seen self.entry) + 1 }
        ensures fits { length (char_rsplit_left C.form C.number result) < 2 ^ 64 }
    {
        self.as_ustr().rsplit_char(c)
    }

    /// Returns an iterator over the last substrings of the contents between the occurrences of the separator, without
    /// its NUL, at most `count`, from the back, as views without a NUL. They are those of [`UCStr::rsplit`], but the
    /// last one of that number is all that is left of the contents, with the separators in it. If `count` is 0 there
    /// are none.
    ///
    /// # Example
    ///
    /// ```
    /// let path = U16CStr::from_slice(&[0x61, 0x2f, 0x62, 0x2f, 0x63, 0])?;
    /// let mut parts = path.rsplitn(2, U16CStr::from_slice(&[0x2f, 0])?);
    /// assert!(rt; parts.next() == Some(U16Str::from_slice(&[0x63])));
    /// assert!(rt; parts.next() == Some(U16Str::from_slice(&[0x61, 0x2f, 0x62])));
    /// assert!(rt; parts.next().is_none());
    /// ```
    pub fn rsplitn<'p>(
        self,
        count: usize,
        needle: UCStr<'p, C>,
    ) -> RSplitN<UStr<'a, C>, UStr<'p, C>>
        ensures left { unit_rsplitn_left C.number result ≡ rsplitn count (map C.number (contents_seen needle.entry)) (map C.number (contents_seen self.entry)) }
        ensures whole { count ≡ 1 → unit_rsplitn_left C.number result ≡ map C.number (contents_seen self.entry) ∷ [] }
        ensures most { length (unit_rsplitn_left C.number result) ≤ count }
        ensures fits { length (unit_rsplitn_left C.number result) < 2 ^ 64 }
    {
        self.as_ustr().rsplitn(count, needle.as_ustr())
    }

    /// Returns an iterator over the last substrings of the contents between the occurrences of a character, at most
    /// `count`, from the back, as views without a NUL. They are those of [`UCStr::rsplit_char`], but the last one of
    /// that number is all that is left of the contents, with the separators in it. If `count` is 0 there are none.
    ///
    /// # Example
    ///
    /// ```
    /// let name = U16CStr::from_slice(&[0x61, 0x2e, 0x62, 0x2e, 0x63, 0])?;
    /// let mut parts = name.rsplitn_char(2, '.');
    /// assert!(rt; parts.next() == Some(U16Str::from_slice(&[0x63])));
    /// assert!(rt; parts.next() == Some(U16Str::from_slice(&[0x61, 0x2e, 0x62])));
    /// assert!(rt; parts.next().is_none());
    /// ```
    pub fn rsplitn_char(self, count: usize, c: char) -> RSplitN<UStr<'a, C>, char>
        ensures left { char_rsplitn_left C.form C.number result ≡ rsplitn count (code_units C.form c) (map C.number (contents_seen self.entry)) }
        ensures whole { count ≡ 1 → char_rsplitn_left C.form C.number result ≡ map C.number (contents_seen self.entry) ∷ [] }
        ensures most { length (char_rsplitn_left C.form C.number result) ≤ count }
        ensures fits { length (char_rsplitn_left C.form C.number result) < 2 ^ 64 }
    {
        self.as_ustr().rsplitn_char(count, c)
    }

    /// Returns an iterator over the substrings of the contents that end after an occurrence of the separator, without
    /// its NUL, or at their end, from the front, as views without a NUL. They are those of [`UCStr::split`], each with
    /// the separator after it, and without the last one if that is empty.
    ///
    /// # Example
    ///
    /// ```
    /// let list = U16CStr::from_slice(&[0x61, 0x3b, 0xd800, 0])?;
    /// let mut parts = list.split_inclusive(U16CStr::from_slice(&[0x3b, 0])?);
    /// assert!(rt; parts.next() == Some(U16Str::from_slice(&[0x61, 0x3b])));
    /// assert!(rt; parts.next() == Some(U16Str::from_slice(&[0xd800])));
    /// assert!(rt; parts.next().is_none());
    /// ```
    pub fn split_inclusive<'p>(
        self,
        needle: UCStr<'p, C>,
    ) -> SplitInclusive<UStr<'a, C>, UStr<'p, C>>
        ensures left { unit_inclusive_left C.number result ≡ inclusive (map C.number (contents_seen needle.entry)) (substrings (map C.number (contents_seen needle.entry)) (map C.number (contents_seen self.entry))) }
        ensures joined { joined (unit_inclusive_left C.number result) ≡ map C.number (contents_seen self.entry) }
        ensures most { length (unit_inclusive_left C.number result) ≤ length (contents_seen self.entry) + 1 }
        ensures fits { length (unit_inclusive_left C.number result) < 2 ^ 64 }
    {
        self.as_ustr().split_inclusive(needle.as_ustr())
    }

    /// Returns an iterator over the substrings of the contents that end after an occurrence of the character or at their
    /// end, from both ends, as views without a NUL. They are those of [`UCStr::split_char`], each with the character
    /// after it, and without the last one if that is empty.
    ///
    /// # Example
    ///
    /// ```
    /// let list = U16CStr::from_slice(&[0x61, 0x3b, 0xd800, 0x3b, 0])?;
    /// let mut parts = list.split_inclusive_char(';');
    /// assert!(rt; parts.next() == Some(U16Str::from_slice(&[0x61, 0x3b])));
    /// assert!(rt; parts.next() == Some(U16Str::from_slice(&[0xd800, 0x3b])));
    /// assert!(rt; parts.next().is_none());
    /// ```
    pub fn split_inclusive_char(self, c: char) -> SplitInclusive<UStr<'a, C>, char>
        ensures left { char_inclusive_left C.form C.number result ≡ inclusive (code_units C.form c) (substrings (code_units C.form c) (map C.number (contents_seen self.entry))) }
        ensures joined { joined (char_inclusive_left C.form C.number result) ≡ map C.number (contents_seen self.entry) }
        ensures most { length (char_inclusive_left C.form C.number result) ≤ length (contents_seen self.entry) + 1 }
        ensures fits { length (char_inclusive_left C.form C.number result) < 2 ^ 64 }
    {
        self.as_ustr().split_inclusive_char(c)
    }
}
