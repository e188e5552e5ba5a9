//! The contents of C strings that are split at the characters of a set: from the back, after each of them, and into at
//! most a number of substrings.
ghost use Rattle.std.specs.Prelude.{◌≡◌, ◌<◌, ◌≤◌, ◌+◌, ◌^◌, ◌∷◌, [], length, map, reverse};
ghost use Rattle.wide_search.specs.Sets.{substrings_between};
ghost use Rattle.wide_ucstr.specs.View.{contents_seen};
ghost use Rattle.wide_ustr.specs.Kept.{joined, substrings_ended};
ghost use Rattle.wide_ustr.specs.SetSplits.{splitn_between, rsplit_between, rsplitn_between, any_splitn_left, any_rsplit_left, any_rsplitn_left, any_inclusive_left, any_terminated_left};
ghost use Rattle.wide_ustr.specs.SplitMore.{terminated};

use crate::view::UCStr;
use wide_search::CharSet;
use wide_ustr::{AnyOf, RSplit, RSplitN, SplitInclusive, SplitN, SplitTerminator, UStr};
use wide_utferror::FaultUnit;

impl<'a, C: FaultUnit> UCStr<'a, C> {
    /// Returns an iterator over the first substrings between the characters of the set, at most `count`, from the front.
    /// They are those of [`UCStr::split_any`], but the last one of that number is all that is left of the contents, with
    /// the separators in it. If `count` is 0 there are none.
    ///
    /// # Example
    ///
    /// ```
    /// let list = U16CStr::from_slice(&[0x61, 0x2c, 0xd800, 0x3b, 0x62, 0])?;
    /// let separators: &[char] = &[',', ';'];
    /// let mut parts = list.splitn_any(2, separators);
    /// assert!(rt; parts.next() == Some(U16Str::from_slice(&[0x61])));
    /// assert!(rt; parts.next() == Some(U16Str::from_slice(&[0xd800, 0x3b, 0x62])));
    /// assert!(rt; parts.next().is_none());
    /// ```
    pub fn splitn_any<S: CharSet>(self, count: usize, set: S) -> SplitN<UStr<'a, C>, AnyOf<S>>
        ensures left { any_splitn_left C.form C.number S.has result ≡ splitn_between C.form (S.has set) count (map C.number (contents_seen self.entry)) }
        ensures whole { count ≡ 1 → any_splitn_left C.form C.number S.has result ≡ map C.number (contents_seen self.entry) ∷ [] }
        ensures most { length (any_splitn_left C.form C.number S.has result) ≤ count }
        ensures fits { length (any_splitn_left C.form C.number S.has result) < 2 ^ 64 }
    {
        self.as_ustr().splitn_any(count, set)
    }

    /// Returns an iterator over the substrings that a character of the set or the end of the contents ends, from both
    /// ends. They are those of [`UCStr::split_any`], without the last one if that is empty.
    ///
    /// # Example
    ///
    /// ```
    /// let list = U16CStr::from_slice(&[0x61, 0x2c, 0x62, 0x3b, 0])?;
    /// let separators: &[char] = &[',', ';'];
    /// assert!(rt; list.split_terminator_any(separators).count() == 2);
    /// ```
    pub fn split_terminator_any<S: CharSet>(self, set: S) -> SplitTerminator<UStr<'a, C>, AnyOf<S>>
        ensures left { any_terminated_left C.form C.number S.has result ≡ terminated (substrings_between C.form (S.has set) (map C.number (contents_seen self.entry))) }
        ensures most { length (any_terminated_left C.form C.number S.has result) ≤ length (contents_seen self.entry) + 1 }
        ensures fits { length (any_terminated_left C.form C.number S.has result) < 2 ^ 64 }
    {
        self.as_ustr().split_terminator_any(set)
    }

    /// Returns an iterator over the substrings that end after a character of the set or at the end of the contents,
    /// which have no NUL, from both ends. They are those of [`UCStr::split_any`], each with the character after it, and
    /// without the last one if that is empty.
    ///
    /// # Example
    ///
    /// ```
    /// let list = U16CStr::from_slice(&[0x61, 0x2c, 0xd800, 0x3b, 0])?;
    /// let separators: &[char] = &[',', ';'];
    /// let mut parts = list.split_inclusive_any(separators);
    /// assert!(rt; parts.next() == Some(U16Str::from_slice(&[0x61, 0x2c])));
    /// assert!(rt; parts.next() == Some(U16Str::from_slice(&[0xd800, 0x3b])));
    /// assert!(rt; parts.next().is_none());
    /// ```
    pub fn split_inclusive_any<S: CharSet>(self, set: S) -> SplitInclusive<UStr<'a, C>, AnyOf<S>>
        ensures left { any_inclusive_left C.form C.number S.has result ≡ terminated (substrings_ended C.form (S.has set) (map C.number (contents_seen self.entry))) }
        ensures joined { joined (any_inclusive_left C.form C.number S.has result) ≡ map C.number (contents_seen self.entry) }
        ensures most { length (any_inclusive_left C.form C.number S.has result) ≤ length (contents_seen self.entry) + 1 }
        ensures fits { length (any_inclusive_left C.form C.number S.has result) < 2 ^ 64 }
    {
        self.as_ustr().split_inclusive_any(set)
    }

    /// Returns an iterator over the substrings between the characters of the set, from the back. They are those of
    /// [`UCStr::split_any`], the last one first.
    ///
    /// # Example
    ///
    /// ```
    /// let list = U16CStr::from_slice(&[0x61, 0x2c, 0xd800, 0x3b, 0])?;
    /// let separators: &[char] = &[',', ';'];
    /// let mut parts = list.rsplit_any(separators);
    /// assert!(rt; parts.next().is_some_and(|part| part.is_empty()));
    /// assert!(rt; parts.next() == Some(U16Str::from_slice(&[0xd800])));
    /// assert!(rt; parts.next() == Some(U16Str::from_slice(&[0x61])));
    /// assert!(rt; parts.next().is_none());
    /// ```
    pub fn rsplit_any<S: CharSet>(self, set: S) -> RSplit<UStr<'a, C>, AnyOf<S>>
        ensures left { any_rsplit_left C.form C.number S.has result ≡ rsplit_between C.form (S.has set) (map C.number (contents_seen self.entry)) }
        ensures reversed { any_rsplit_left C.form C.number S.has result ≡ reverse (substrings_between C.form (S.has set) (map C.number (contents_seen self.entry))) }
        ensures most { length (any_rsplit_left C.form C.number S.has result) ≤ length (contents_seen self.entry) + 1 }
        ensures fits { length (any_rsplit_left C.form C.number S.has result) < 2 ^ 64 }
    {
        self.as_ustr().rsplit_any(set)
    }

    /// Returns an iterator over the last substrings between the characters of the set, at most `count`, from the back.
    /// They are those of [`UCStr::rsplit_any`], but the last one of that number is all that is left of the contents,
    /// with the separators in it. If `count` is 0 there are none.
    ///
    /// # Example
    ///
    /// ```
    /// let path = U16CStr::from_slice(&[0x61, 0x2f, 0x62, 0x5c, 0x63, 0])?;
    /// let separators: &[char] = &['/', '\\'];
    /// let mut parts = path.rsplitn_any(2, separators);
    /// assert!(rt; parts.next() == Some(U16Str::from_slice(&[0x63])));
    /// assert!(rt; parts.next() == Some(U16Str::from_slice(&[0x61, 0x2f, 0x62])));
    /// assert!(rt; parts.next().is_none());
    /// ```
    pub fn rsplitn_any<S: CharSet>(self, count: usize, set: S) -> RSplitN<UStr<'a, C>, AnyOf<S>>
        ensures left { any_rsplitn_left C.form C.number S.has result ≡ rsplitn_between C.form (S.has set) count (map C.number (contents_seen self.entry)) }
        ensures whole { count ≡ 1 → any_rsplitn_left C.form C.number S.has result ≡ map C.number (contents_seen self.entry) ∷ [] }
        ensures most { length (any_rsplitn_left C.form C.number S.has result) ≤ count }
        ensures fits { length (any_rsplitn_left C.form C.number S.has result) < 2 ^ 64 }
    {
        self.as_ustr().rsplitn_any(count, set)
    }
}
