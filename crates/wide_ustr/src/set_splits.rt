//! Views of units that are split at the characters of a set: from the back, after each of them, and into at most a number
//! of substrings.
ghost use Rattle.std.specs.Prelude.{◌≡◌, ◌<◌, ◌≤◌, ◌+◌, ◌^◌, ◌∷◌, [], length, reverse};
ghost use Rattle.wide_search.specs.Sets.{substrings_between};
ghost use Rattle.wide_ustr.specs.Kept.{joined, substrings_ended};
ghost use Rattle.wide_ustr.specs.KeptLaws.{between_back-some, ended_back-whole, ended_back-some};
ghost use Rattle.wide_ustr.specs.SetSplits.{splitn_between, rsplit_between, rsplitn_between, any_splitn_left, any_rsplit_left, any_rsplitn_left, any_inclusive_left, any_terminated_left};
ghost use Rattle.wide_ustr.specs.Sets.{cut_back_any, kept_back_any};
ghost use Rattle.wide_ustr.specs.SplitMore.{terminated};
ghost use Rattle.wide_ustr.specs.View.{units_seen, numbers_seen};

use crate::sets::AnyOf;
use crate::split_back::{BackView, RSplit, RSplitN};
use crate::split_inclusive::{InclusiveBackView, InclusiveView, SplitInclusive};
use crate::split_n::SplitN;
use crate::split_terminator::SplitTerminator;
use crate::view::UStr;
use wide_from_units::byte_len;
use wide_search::{CharSet, find_in_set, suffix_of_set};
use wide_unit::{Unit, split_last};

impl<C: Unit, S: CharSet> BackView<AnyOf<S>> for UStr<'_, C> {
    ghost cut_back = { cut_back_any C.form S.has };

    ghost some_back = { λ separator us. between_back-some C.form (S.has separator.set) us };

    ghost kept_back = { kept_back_any C.form S.has };

    ghost kept_back_whole = { λ separator us. ended_back-whole C.form (S.has separator.set) us };

    ghost some_kept_back = { λ separator us. ended_back-some C.form (S.has separator.set) us };

    fn cut_last(self, separator: AnyOf<S>) -> Option<(Self, Self)> {
        let (before, substring) = self.split_at(suffix_of_set(self.units, separator.set, false));
        let Some((rest, _)) = split_last(before.units) else {
            return None;
        };
        Some((UStr { units: rest }, substring))
    }
}

impl<C: Unit, S: CharSet> InclusiveView<AnyOf<S>> for UStr<'_, C> {
    fn cut_after(self, separator: AnyOf<S>) -> Option<(Self, Self)> {
        let Some((_, end)) = find_in_set(self.units, separator.set) else {
            return None;
        };
        Some(self.split_at(end))
    }
}

impl<C: Unit, S: CharSet> InclusiveBackView<AnyOf<S>> for UStr<'_, C> {
    fn cut_off_inclusive(self, separator: AnyOf<S>) -> Option<(Self, Self)> {
        // A separator at the end of the view has nothing after it.
        let Some((body, _)) = split_last(self.units) else {
            return None;
        };
        let at = suffix_of_set(body, separator.set, false);
        if at == 0 {
            return None;
        }
        Some(self.split_at(at))
    }
}

impl<C: Unit> UStr<'_, C> {
    /// Returns an iterator over the first substrings between the characters of the set, at most `count`, from the front.
    /// They are those of [`UStr::split_any`], but the last one of that number is all that is left of the view, with the
    /// separators in it. If `count` is 0 there are none.
    ///
    /// # Example
    ///
    /// ```
    /// let list = U16Str::from_slice(&[0x61, 0x2c, 0xd800, 0x3b, 0x62]);
    /// let separators: &[char] = &[',', ';'];
    /// let mut parts = list.splitn_any(2, separators);
    /// assert!(rt; parts.next() == Some(U16Str::from_slice(&[0x61])));
    /// assert!(rt; parts.next() == Some(U16Str::from_slice(&[0xd800, 0x3b, 0x62])));
    /// assert!(rt; parts.next().is_none());
    /// ```
    pub fn splitn_any<S: CharSet>(self, count: usize, set: S) -> SplitN<Self, AnyOf<S>>
        ensures left { any_splitn_left C.form C.number S.has result ≡ splitn_between C.form (S.has set) count (numbers_seen C.number self.entry) }
        ensures whole { count ≡ 1 → any_splitn_left C.form C.number S.has result ≡ numbers_seen C.number self.entry ∷ [] }
        ensures most { length (any_splitn_left C.form C.number S.has result) ≤ count }
        ensures fits { length (any_splitn_left C.form C.number S.has result) < 2 ^ 64 }
    {
        SplitN::new(self, AnyOf { set }, count)
    }

    /// Returns an iterator over the substrings that a character of the set or the end of the view ends, from both ends.
    /// They are those of [`UStr::split_any`], without the last one if that is empty.
    ///
    /// # Example
    ///
    /// ```
    /// let list = U16Str::from_slice(&[0x61, 0x2c, 0x62, 0x3b]);
    /// let separators: &[char] = &[',', ';'];
    /// assert!(rt; list.split_terminator_any(separators).count() == 2);
    /// ```
    pub fn split_terminator_any<S: CharSet>(self, set: S) -> SplitTerminator<Self, AnyOf<S>>
        ensures left { any_terminated_left C.form C.number S.has result ≡ terminated (substrings_between C.form (S.has set) (numbers_seen C.number self.entry)) }
        ensures most { length (any_terminated_left C.form C.number S.has result) ≤ length (units_seen self.entry) + 1 }
        ensures fits { length (any_terminated_left C.form C.number S.has result) < 2 ^ 64 }
    {
        // This call is for its contract: there are so few units that one more substring can be counted.
        let _bytes = byte_len(self.units);
        SplitTerminator::new(self, AnyOf { set })
    }

    /// Returns an iterator over the substrings that end after a character of the set or at the end of the view, from
    /// both ends. They are those of [`UStr::split_any`], each with the character after it, and without the last one if
    /// that is empty.
    ///
    /// # Example
    ///
    /// ```
    /// let list = U16Str::from_slice(&[0x61, 0x2c, 0xd800, 0x3b]);
    /// let separators: &[char] = &[',', ';'];
    /// let mut parts = list.split_inclusive_any(separators);
    /// assert!(rt; parts.next() == Some(U16Str::from_slice(&[0x61, 0x2c])));
    /// assert!(rt; parts.next() == Some(U16Str::from_slice(&[0xd800, 0x3b])));
    /// assert!(rt; parts.next().is_none());
    /// ```
    pub fn split_inclusive_any<S: CharSet>(self, set: S) -> SplitInclusive<Self, AnyOf<S>>
        ensures left { any_inclusive_left C.form C.number S.has result ≡ terminated (substrings_ended C.form (S.has set) (numbers_seen C.number self.entry)) }
        ensures joined { joined (any_inclusive_left C.form C.number S.has result) ≡ numbers_seen C.number self.entry }
        ensures most { length (any_inclusive_left C.form C.number S.has result) ≤ length (units_seen self.entry) + 1 }
        ensures fits { length (any_inclusive_left C.form C.number S.has result) < 2 ^ 64 }
    {
        // This call is for its contract: there are so few units that one more substring can be counted.
        let _bytes = byte_len(self.units);
        SplitInclusive::new(self, AnyOf { set })
    }

    /// Returns an iterator over the substrings between the characters of the set, from the back. They are those of
    /// [`UStr::split_any`], the last one first.
    ///
    /// # Example
    ///
    /// ```
    /// let list = U16Str::from_slice(&[0x61, 0x2c, 0xd800, 0x3b]);
    /// let separators: &[char] = &[',', ';'];
    /// let mut parts = list.rsplit_any(separators);
    /// assert!(rt; parts.next().is_some_and(|part| part.is_empty()));
    /// assert!(rt; parts.next() == Some(U16Str::from_slice(&[0xd800])));
    /// assert!(rt; parts.next() == Some(U16Str::from_slice(&[0x61])));
    /// assert!(rt; parts.next().is_none());
    /// ```
    pub fn rsplit_any<S: CharSet>(self, set: S) -> RSplit<Self, AnyOf<S>>
        ensures left { any_rsplit_left C.form C.number S.has result ≡ rsplit_between C.form (S.has set) (numbers_seen C.number self.entry) }
        ensures reversed { any_rsplit_left C.form C.number S.has result ≡ reverse (substrings_between C.form (S.has set) (numbers_seen C.number self.entry)) }
        ensures most { length (any_rsplit_left C.form C.number S.has result) ≤ length (units_seen self.entry) + 1 }
        ensures fits { length (any_rsplit_left C.form C.number S.has result) < 2 ^ 64 }
    {
        // This call is for its contract: there are so few units that one more substring can be counted.
        let _bytes = byte_len(self.units);
        RSplit::new(self, AnyOf { set })
    }

    /// Returns an iterator over the last substrings between the characters of the set, at most `count`, from the back.
    /// They are those of [`UStr::rsplit_any`], but the last one of that number is all that is left of the view, with the
    /// separators in it. If `count` is 0 there are none.
    ///
    /// # Example
    ///
    /// ```
    /// let path = U16Str::from_slice(&[0x61, 0x2f, 0x62, 0x5c, 0x63]);
    /// let separators: &[char] = &['/', '\\'];
    /// let mut parts = path.rsplitn_any(2, separators);
    /// assert!(rt; parts.next() == Some(U16Str::from_slice(&[0x63])));
    /// assert!(rt; parts.next() == Some(U16Str::from_slice(&[0x61, 0x2f, 0x62])));
    /// assert!(rt; parts.next().is_none());
    /// ```
    pub fn rsplitn_any<S: CharSet>(self, count: usize, set: S) -> RSplitN<Self, AnyOf<S>>
        ensures left { any_rsplitn_left C.form C.number S.has result ≡ rsplitn_between C.form (S.has set) count (numbers_seen C.number self.entry) }
        ensures whole { count ≡ 1 → any_rsplitn_left C.form C.number S.has result ≡ numbers_seen C.number self.entry ∷ [] }
        ensures most { length (any_rsplitn_left C.form C.number S.has result) ≤ count }
        ensures fits { length (any_rsplitn_left C.form C.number S.has result) < 2 ^ 64 }
    {
        RSplitN::new(self, AnyOf { set }, count)
    }
}
