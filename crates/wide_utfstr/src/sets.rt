//! Characters of a set in well-formed text: where the first one is, the substrings between them, and text without them
//! at its ends.
ghost use Rattle.std.specs.Prelude.{◌≡◌, ◌<◌, ◌≤◌, ◌+◌, ◌^◌, ℕ, false, length, map, IfNone, IfSome};
ghost use Rattle.std.specs.Char.{is_whitespace, is_ascii_whitespace};
ghost use Rattle.std.specs.List.{All};
ghost use Rattle.wide_forms.specs.Items.{items, chars};
ghost use Rattle.wide_forms.specs.Offsets.{IsCharBoundary};
ghost use Rattle.wide_search.specs.Laws.Sets.{between-some};
ghost use Rattle.wide_search.specs.Sets.{is_member, between, substrings_between, without_prefix, without_suffix, without_ends, IsFirstMember};
ghost use Rattle.wide_ustr.specs.KeptLaws.{ended-whole, ended-some};
ghost use Rattle.wide_ustr.specs.Sets.{cut_at_any, kept_at_any};
ghost use Rattle.wide_ustr.specs.SplitMore.{filled};
ghost use Rattle.wide_utfstr.specs.Sets.{any_substrings_left, any_filled_left};
ghost use Rattle.wide_utfstr.specs.View.{units_seen, numbers_seen, text_seen};

use crate::view::UtfStr;
use wide_from_units::byte_len;
use wide_search::{
    AsciiWhiteSpace, CharSet, WhiteSpace, find_in_set, prefix_of_set, suffix_of_set,
};
use wide_unit::Unit;
use wide_ustr::{AnyOf, Split, SplitFilled, SplitView};

impl<C: Unit, S: CharSet> SplitView<AnyOf<S>> for UtfStr<'_, C> {
    ghost numbers_seen = { numbers_seen C.number };

    ghost cut_at = { cut_at_any C.form S.has };

    ghost some_substrings = { λ separator us. between-some C.form (S.has separator.set) us };

    ghost kept_at = { kept_at_any C.form S.has };

    ghost kept_whole = { λ separator us. ended-whole C.form (S.has separator.set) us };

    ghost some_kept = { λ separator us. ended-some C.form (S.has separator.set) us };

    fn cut_first(self, needle: AnyOf<S>) -> Option<(Self, Self)> {
        let Some((start, end)) = find_in_set(self.as_slice(), needle.set) else {
            return None;
        };
        let (substring, _) = self.split_at(start);
        let (_, rest) = self.split_at(end);
        Some((substring, rest))
    }

    fn has_no_units(self) -> bool {
        self.is_empty()
    }
}

impl<C: Unit> UtfStr<'_, C> {
    /// Returns the offset, in units, at which the first character of the set begins, or `None` if the text has none. The
    /// offset is a character boundary.
    ///
    /// # Example
    ///
    /// ```
    /// let path = Utf16Str::from_slice(&[0xd83d, 0xde00, 0x2f, 0x62])?;
    /// let separators: &[char] = &['\\', '/'];
    /// assert!(rt; path.find_any(separators) == Some(2));
    /// ```
    pub fn find_any<S: CharSet>(self, set: S) -> Option<usize>
        ensures first { IfSome result (λ at. (end : ℕ) × IsFirstMember C.form (S.has set) (numbers_seen C.number self.entry) at end) }
        ensures none { IfNone result (All (λ i. is_member (S.has set) i ≡ false) (items C.form (numbers_seen C.number self.entry))) }
        ensures within { IfSome result (λ at. at < length (units_seen self.entry)) }
        ensures char_boundary { IfSome result (IsCharBoundary C.form (numbers_seen C.number self.entry)) }
    {
        let Some((start, _)) = find_in_set(self.as_slice(), set) else {
            return None;
        };
        Some(start)
    }

    /// Returns an iterator over the substrings between the characters of the set, each well formed, from both ends. If a
    /// character of the set is at the start, at the end, or next to another one, the substring there is empty. If the
    /// text has none, the whole text is the only substring.
    ///
    /// # Example
    ///
    /// ```
    /// let list = Utf16Str::from_slice(&[0xe9, 0x2c, 0xd83d, 0xde00, 0x3b])?;
    /// let separators: &[char] = &[',', ';'];
    /// let mut parts = list.split_any(separators);
    /// assert!(rt; parts.next().is_some_and(|part| part.eq_str("é")));
    /// assert!(rt; parts.next().is_some_and(|part| part.eq_str("😀")));
    /// assert!(rt; parts.next().is_some_and(|part| part.is_empty()));
    /// assert!(rt; parts.next().is_none());
    /// ```
    pub fn split_any<S: CharSet>(self, set: S) -> Split<Self, AnyOf<S>>
        ensures left { any_substrings_left C.form C.number S.has result ≡ substrings_between C.form (S.has set) (numbers_seen C.number self.entry) }
        ensures characters { map (chars C.form) (any_substrings_left C.form C.number S.has result) ≡ between (S.has set) (text_seen self.entry) }
        ensures most { length (any_substrings_left C.form C.number S.has result) ≤ length (units_seen self.entry) + 1 }
        ensures fits { length (any_substrings_left C.form C.number S.has result) < 2 ^ 64 }
    {
        // This call is for its contract: there are so few units that one more substring can be counted.
        let _bytes = byte_len(self.as_slice());
        Split::new(self, AnyOf { set })
    }

    /// Returns an iterator over the words of the text: the substrings between White_Space characters (Unicode Character
    /// Database) that are not empty, from both ends.
    ///
    /// # Example
    ///
    /// ```
    /// let line = Utf16Str::from_slice(&[0x20, 0xe9, 0x3000, 0x9, 0xd83d, 0xde00])?;
    /// let mut words = line.split_whitespace();
    /// assert!(rt; words.next().is_some_and(|word| word.eq_str("é")));
    /// assert!(rt; words.next().is_some_and(|word| word.eq_str("😀")));
    /// assert!(rt; words.next().is_none());
    /// ```
    pub fn split_whitespace(self) -> SplitFilled<Self, AnyOf<WhiteSpace>>
        ensures left { any_filled_left C.form C.number (λ _. is_whitespace) result ≡ filled (substrings_between C.form is_whitespace (numbers_seen C.number self.entry)) }
        ensures most { length (any_filled_left C.form C.number (λ _. is_whitespace) result) ≤ length (units_seen self.entry) + 1 }
        ensures fits { length (any_filled_left C.form C.number (λ _. is_whitespace) result) < 2 ^ 64 }
    {
        // This call is for its contract: there are so few units that one more substring can be counted.
        let _bytes = byte_len(self.as_slice());
        SplitFilled::new(self, AnyOf { set: WhiteSpace })
    }

    /// Returns an iterator over the words of the text: the substrings between the white space of ASCII (space, tab, line
    /// feed, form feed and carriage return) that are not empty, from both ends.
    ///
    /// # Example
    ///
    /// ```
    /// let line = Utf16Str::from_slice(&[0x61, 0x3000, 0x20, 0x20, 0x62])?;
    /// let mut words = line.split_ascii_whitespace();
    /// assert!(rt; words.next().is_some_and(|word| word.len() == 2));
    /// assert!(rt; words.next().is_some_and(|word| word.eq_str("b")));
    /// assert!(rt; words.next().is_none());
    /// ```
    pub fn split_ascii_whitespace(self) -> SplitFilled<Self, AnyOf<AsciiWhiteSpace>>
        ensures left { any_filled_left C.form C.number (λ _. is_ascii_whitespace) result ≡ filled (substrings_between C.form is_ascii_whitespace (numbers_seen C.number self.entry)) }
        ensures most { length (any_filled_left C.form C.number (λ _. is_ascii_whitespace) result) ≤ length (units_seen self.entry) + 1 }
        ensures fits { length (any_filled_left C.form C.number (λ _. is_ascii_whitespace) result) < 2 ^ 64 }
    {
        // This call is for its contract: there are so few units that one more substring can be counted.
        let _bytes = byte_len(self.as_slice());
        SplitFilled::new(
            self,
            AnyOf {
                set: AsciiWhiteSpace,
            },
        )
    }

    /// Returns a view of the text after its longest prefix that consists of characters of the set. A character is a set
    /// of one.
    ///
    /// # Example
    ///
    /// ```
    /// let number = Utf16Str::from_slice(&[0x30, 0x30, 0x37, 0x30])?;
    /// assert!(rt; number.trim_start_matches('0').eq_str("70"));
    /// ```
    pub fn trim_start_matches<S: CharSet>(self, set: S) -> Self
        ensures { numbers_seen C.number result ≡ without_prefix C.form (S.has set) (numbers_seen C.number self.entry) }
    {
        let (_, rest) = self.split_at(prefix_of_set(self.as_slice(), set, true));
        rest
    }

    /// Returns a view of the text before its longest suffix that consists of characters of the set. A character is a set
    /// of one.
    ///
    /// # Example
    ///
    /// ```
    /// let folder = Utf16Str::from_slice(&[0x2f, 0xe9, 0x2f, 0x2f])?;
    /// assert!(rt; folder.trim_end_matches('/').eq_str("/é"));
    /// ```
    pub fn trim_end_matches<S: CharSet>(self, set: S) -> Self
        ensures { numbers_seen C.number result ≡ without_suffix C.form (S.has set) (numbers_seen C.number self.entry) }
    {
        let (rest, _) = self.split_at(suffix_of_set(self.as_slice(), set, true));
        rest
    }

    /// Returns a view of the text without its longest prefix and its longest suffix that consist of characters of the
    /// set. A character is a set of one. The view is empty if all characters are of the set.
    ///
    /// # Example
    ///
    /// ```
    /// let quoted = Utf16Str::from_slice(&[0x22, 0xd83d, 0xde00, 0x22])?;
    /// assert!(rt; quoted.trim_matches('"').eq_str("😀"));
    /// ```
    pub fn trim_matches<S: CharSet>(self, set: S) -> Self
        ensures { numbers_seen C.number result ≡ without_ends C.form (S.has set) (numbers_seen C.number self.entry) }
    {
        self.trim_start_matches(set).trim_end_matches(set)
    }
}
