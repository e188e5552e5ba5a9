//! Characters of a set in views of units: where the first and the last one are, the substrings between them, and views
//! without them at their ends.
ghost use Rattle.std.specs.Prelude.{◌≡◌, ◌<◌, ◌≤◌, ◌+◌, ◌^◌, ℕ, false, length, IfNone, IfSome};
ghost use Rattle.std.specs.Char.{is_whitespace, is_ascii_whitespace};
ghost use Rattle.std.specs.List.{All};
ghost use Rattle.wide_forms.specs.Items.{items};
ghost use Rattle.wide_search.specs.Laws.Sets.{between-some};
ghost use Rattle.wide_search.specs.Sets.{is_member, substrings_between, without_prefix, without_suffix, without_ends, IsFirstMember};
ghost use Rattle.wide_ustr.specs.KeptLaws.{ended-whole, ended-some};
ghost use Rattle.wide_ustr.specs.Sets.{cut_at_any, kept_at_any, any_substrings_left, any_filled_left};
ghost use Rattle.wide_ustr.specs.SplitMore.{filled};
ghost use Rattle.wide_ustr.specs.View.{units_seen, numbers_seen};

use crate::split::{Split, SplitView};
use crate::split_filled::SplitFilled;
use crate::view::UStr;
use wide_from_units::byte_len;
use wide_search::{
    AsciiWhiteSpace, CharSet, WhiteSpace, find_in_set, prefix_of_set, suffix_of_set,
};
use wide_unit::Unit;

/// A separator that is any character of a set. It is a type of its own because a character is a set too, and a view can
/// be split at a character as well. The Rust crate has no such type.
///
/// # Example
///
/// ```
/// use widestring::ustr::{AnyOf, SplitView};
///
/// let setting = U16Str::from_slice(&[0x78, 0x3a, 0x31]);
/// let separators: &[char] = &['=', ':'];
/// let parts = setting.cut_first(AnyOf { set: separators });
/// assert!(rt; parts.is_some_and(|(name, value)| name.len() == 1 && value.len() == 1));
/// ```
#[derive(Clone, Copy, Debug, Drop)]
pub struct AnyOf<S> {
    /// The characters, each of which separates.
    pub set: S,
}

impl<C: Unit, S: CharSet> SplitView<AnyOf<S>> for UStr<'_, C> {
    ghost numbers_seen = { numbers_seen C.number };

    ghost cut_at = { cut_at_any C.form S.has };

    ghost some_substrings = { λ separator us. between-some C.form (S.has separator.set) us };

    ghost kept_at = { kept_at_any C.form S.has };

    ghost kept_whole = { λ separator us. ended-whole C.form (S.has separator.set) us };

    ghost some_kept = { λ separator us. ended-some C.form (S.has separator.set) us };

    fn cut_first(self, needle: AnyOf<S>) -> Option<(Self, Self)> {
        let Some((start, end)) = find_in_set(self.units, needle.set) else {
            return None;
        };
        let (substring, _) = self.split_at(start);
        let (_, rest) = self.split_at(end);
        Some((substring, rest))
    }

    fn has_no_units(self) -> bool {
        self.is_empty()
    }
}

impl<C: Unit> UStr<'_, C> {
    /// Returns the offset, in units, at which the first character of the set begins, or `None` if the view has none.
    /// Half of a surrogate pair is no character, so it is in no set.
    ///
    /// # Example
    ///
    /// ```
    /// let path = U16Str::from_slice(&[0x61, 0xd800, 0x2f, 0x62]);
    /// let separators: &[char] = &['\\', '/'];
    /// assert!(rt; path.find_any(separators) == Some(2));
    /// ```
    pub fn find_any<S: CharSet>(self, set: S) -> Option<usize>
        ensures first { IfSome result (λ at. (end : ℕ) × IsFirstMember C.form (S.has set) (numbers_seen C.number self.entry) at end) }
        ensures none { IfNone result (All (λ i. is_member (S.has set) i ≡ false) (items C.form (numbers_seen C.number self.entry))) }
        ensures within { IfSome result (λ at. at < length (units_seen self.entry)) }
    {
        let Some((start, _)) = find_in_set(self.units, set) else {
            return None;
        };
        Some(start)
    }

    /// Returns an iterator over the substrings between the characters of the set, from both ends. Half of a surrogate
    /// pair is no character and separates nothing. If a character of the set is at the start, at the end, or next to
    /// another one, the substring there is empty. If the view has none, the whole view is the only substring.
    ///
    /// # Example
    ///
    /// ```
    /// let list = U16Str::from_slice(&[0x61, 0x2c, 0xd800, 0x3b]);
    /// let separators: &[char] = &[',', ';'];
    /// let mut parts = list.split_any(separators);
    /// assert!(rt; parts.next() == Some(U16Str::from_slice(&[0x61])));
    /// assert!(rt; parts.next() == Some(U16Str::from_slice(&[0xd800])));
    /// assert!(rt; parts.next().is_some_and(|part| part.is_empty()));
    /// assert!(rt; parts.next().is_none());
    /// ```
    pub fn split_any<S: CharSet>(self, set: S) -> Split<Self, AnyOf<S>>
        ensures left { any_substrings_left C.form C.number S.has result ≡ substrings_between C.form (S.has set) (numbers_seen C.number self.entry) }
        ensures most { length (any_substrings_left C.form C.number S.has result) ≤ length (units_seen self.entry) + 1 }
        ensures fits { length (any_substrings_left C.form C.number S.has result) < 2 ^ 64 }
    {
        // This call is for its contract: there are so few units that one more substring can be counted.
        let _bytes = byte_len(self.units);
        Split::new(self, AnyOf { set })
    }

    /// Returns an iterator over the words of the view: the substrings between White_Space characters (Unicode Character
    /// Database) that are not empty, from both ends. Half of a surrogate pair is no character, so it is part of a word.
    ///
    /// # Example
    ///
    /// ```
    /// let line = U16Str::from_slice(&[0x20, 0x61, 0x3000, 0x9, 0xd800]);
    /// let mut words = line.split_whitespace();
    /// assert!(rt; words.next() == Some(U16Str::from_slice(&[0x61])));
    /// assert!(rt; words.next() == Some(U16Str::from_slice(&[0xd800])));
    /// assert!(rt; words.next().is_none());
    /// ```
    pub fn split_whitespace(self) -> SplitFilled<Self, AnyOf<WhiteSpace>>
        ensures left { any_filled_left C.form C.number (λ _. is_whitespace) result ≡ filled (substrings_between C.form is_whitespace (numbers_seen C.number self.entry)) }
        ensures most { length (any_filled_left C.form C.number (λ _. is_whitespace) result) ≤ length (units_seen self.entry) + 1 }
        ensures fits { length (any_filled_left C.form C.number (λ _. is_whitespace) result) < 2 ^ 64 }
    {
        // This call is for its contract: there are so few units that one more substring can be counted.
        let _bytes = byte_len(self.units);
        SplitFilled::new(self, AnyOf { set: WhiteSpace })
    }

    /// Returns an iterator over the words of the view: the substrings between the white space of ASCII (space, tab, line
    /// feed, form feed and carriage return) that are not empty, from both ends.
    ///
    /// # Example
    ///
    /// ```
    /// let line = U16Str::from_slice(&[0x61, 0x3000, 0x20, 0x20, 0x62]);
    /// let mut words = line.split_ascii_whitespace();
    /// assert!(rt; words.next() == Some(U16Str::from_slice(&[0x61, 0x3000])));
    /// assert!(rt; words.next() == Some(U16Str::from_slice(&[0x62])));
    /// assert!(rt; words.next().is_none());
    /// ```
    pub fn split_ascii_whitespace(self) -> SplitFilled<Self, AnyOf<AsciiWhiteSpace>>
        ensures left { any_filled_left C.form C.number (λ _. is_ascii_whitespace) result ≡ filled (substrings_between C.form is_ascii_whitespace (numbers_seen C.number self.entry)) }
        ensures most { length (any_filled_left C.form C.number (λ _. is_ascii_whitespace) result) ≤ length (units_seen self.entry) + 1 }
        ensures fits { length (any_filled_left C.form C.number (λ _. is_ascii_whitespace) result) < 2 ^ 64 }
    {
        // This call is for its contract: there are so few units that one more substring can be counted.
        let _bytes = byte_len(self.units);
        SplitFilled::new(
            self,
            AnyOf {
                set: AsciiWhiteSpace,
            },
        )
    }

    /// Returns a view of what follows the longest prefix that consists of characters of the set. A character is a set of
    /// one.
    ///
    /// # Example
    ///
    /// ```
    /// let number = U16Str::from_slice(&[0x30, 0x30, 0x37, 0x30]);
    /// assert!(rt; number.trim_start_matches('0') == U16Str::from_slice(&[0x37, 0x30]));
    /// ```
    pub fn trim_start_matches<S: CharSet>(self, set: S) -> Self
        ensures { numbers_seen C.number result ≡ without_prefix C.form (S.has set) (numbers_seen C.number self.entry) }
    {
        let (_, rest) = self.split_at(prefix_of_set(self.units, set, true));
        rest
    }

    /// Returns a view of what precedes the longest suffix that consists of characters of the set. A character is a set
    /// of one.
    ///
    /// # Example
    ///
    /// ```
    /// let folder = U16Str::from_slice(&[0x2f, 0x61, 0x2f, 0x2f]);
    /// assert!(rt; folder.trim_end_matches('/') == U16Str::from_slice(&[0x2f, 0x61]));
    /// ```
    pub fn trim_end_matches<S: CharSet>(self, set: S) -> Self
        ensures { numbers_seen C.number result ≡ without_suffix C.form (S.has set) (numbers_seen C.number self.entry) }
    {
        let (rest, _) = self.split_at(suffix_of_set(self.units, set, true));
        rest
    }

    /// Returns a view without the longest prefix and the longest suffix that consist of characters of the set. A
    /// character is a set of one. The view is empty if all items are characters of the set.
    ///
    /// # Example
    ///
    /// ```
    /// let quoted = U16Str::from_slice(&[0x22, 0xd800, 0x22]);
    /// assert!(rt; quoted.trim_matches('"') == U16Str::from_slice(&[0xd800]));
    /// ```
    pub fn trim_matches<S: CharSet>(self, set: S) -> Self
        ensures { numbers_seen C.number result ≡ without_ends C.form (S.has set) (numbers_seen C.number self.entry) }
    {
        self.trim_start_matches(set).trim_end_matches(set)
    }

    /// Returns a view of what follows the longest prefix of White_Space characters (Unicode Character Database).
    ///
    /// # Example
    ///
    /// ```
    /// let value = U16Str::from_slice(&[0x3000, 0x20, 0xd800, 0x20]);
    /// assert!(rt; value.trim_start() == U16Str::from_slice(&[0xd800, 0x20]));
    /// ```
    pub fn trim_start(self) -> Self
        ensures { numbers_seen C.number result ≡ without_prefix C.form is_whitespace (numbers_seen C.number self.entry) }
    {
        self.trim_start_matches(WhiteSpace)
    }

    /// Returns a view of what precedes the longest suffix of White_Space characters (Unicode Character Database).
    ///
    /// # Example
    ///
    /// ```
    /// let line = U16Str::from_slice(&[0x20, 0xd800, 0xd, 0xa]);
    /// assert!(rt; line.trim_end() == U16Str::from_slice(&[0x20, 0xd800]));
    /// ```
    pub fn trim_end(self) -> Self
        ensures { numbers_seen C.number result ≡ without_suffix C.form is_whitespace (numbers_seen C.number self.entry) }
    {
        self.trim_end_matches(WhiteSpace)
    }

    /// Returns a view without the longest prefix and the longest suffix of White_Space characters (Unicode Character
    /// Database). It is empty if all items are such characters.
    ///
    /// # Example
    ///
    /// ```
    /// let value = U16Str::from_slice(&[0x9, 0xd800, 0x20, 0x61, 0x20]);
    /// assert!(rt; value.trim() == U16Str::from_slice(&[0xd800, 0x20, 0x61]));
    /// ```
    pub fn trim(self) -> Self
        ensures { numbers_seen C.number result ≡ without_ends C.form is_whitespace (numbers_seen C.number self.entry) }
    {
        self.trim_matches(WhiteSpace)
    }
}
