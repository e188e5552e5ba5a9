//! Characters of a set in the contents of C strings: where the first one is, the substrings between them, and views
//! without them at their ends.
ghost use Rattle.std.specs.Prelude.{◌≡◌, ◌<◌, ◌≤◌, ◌+◌, ◌^◌, ℕ, false, length, map, IfNone, IfSome};
ghost use Rattle.std.specs.Char.{is_whitespace, is_ascii_whitespace};
ghost use Rattle.std.specs.List.{All};
ghost use Rattle.wide_forms.specs.Items.{items};
ghost use Rattle.wide_search.specs.Sets.{is_member, substrings_between, without_prefix, without_suffix, without_ends, IsFirstMember};
ghost use Rattle.wide_ucstr.specs.View.{contents_seen};
ghost use Rattle.wide_ustr.specs.Sets.{any_substrings_left, any_filled_left};
ghost use Rattle.wide_ustr.specs.SplitMore.{filled};
ghost use Rattle.wide_ustr.specs.View.{numbers_seen};

use crate::view::UCStr;
use wide_search::{AsciiWhiteSpace, CharSet, WhiteSpace};
use wide_ustr::{AnyOf, Split, SplitFilled, UStr};
use wide_utferror::FaultUnit;

impl<'a, C: FaultUnit> UCStr<'a, C> {
    /// Returns the offset, in units, at which the first character of the set begins, or `None` if the contents have
    /// none. Half of a surrogate pair is no character, so it is in no set.
    ///
    /// # Example
    ///
    /// ```
    /// let path = U16CStr::from_slice(&[0x61, 0xd800, 0x2f, 0x62, 0])?;
    /// let separators: &[char] = &['\\', '/'];
    /// assert!(rt; path.find_any(separators) == Some(2));
    /// ```
    pub fn find_any<S: CharSet>(self, set: S) -> Option<usize>
        ensures first { IfSome result (λ at. (end : ℕ) × IsFirstMember C.form (S.has set) (map C.number (contents_seen self.entry)) at end) }
        ensures none { IfNone result (All (λ i. is_member (S.has set) i ≡ false) (items C.form (map C.number (contents_seen self.entry)))) }
        ensures within { IfSome result (λ at. at < length (contents_seen self.entry)) }
    {
        self.as_ustr().find_any(set)
    }

    /// Returns an iterator over the substrings between the characters of the set, from both ends. Half of a surrogate
    /// pair is no character and separates nothing. If a character of the set is at the start, at the end, or next to
    /// another one, the substring there is empty. If there is none, the contents are the only substring, without the
    /// NUL.
    ///
    /// # Example
    ///
    /// ```
    /// let list = U16CStr::from_slice(&[0x61, 0x2c, 0xd800, 0x3b, 0])?;
    /// let separators: &[char] = &[',', ';'];
    /// let mut parts = list.split_any(separators);
    /// assert!(rt; parts.next() == Some(U16Str::from_slice(&[0x61])));
    /// assert!(rt; parts.next() == Some(U16Str::from_slice(&[0xd800])));
    /// assert!(rt; parts.next().is_some_and(|part| part.is_empty()));
    /// assert!(rt; parts.next().is_none());
    /// ```
    pub fn split_any<S: CharSet>(self, set: S) -> Split<UStr<'a, C>, AnyOf<S>>
        ensures left { any_substrings_left C.form C.number S.has result ≡ substrings_between C.form (S.has set) (map C.number (contents_seen self.entry)) }
        ensures most { length (any_substrings_left C.form C.number S.has result) ≤ length (contents_seen self.entry) + 1 }
        ensures fits { length (any_substrings_left C.form C.number S.has result) < 2 ^ 64 }
    {
        self.as_ustr().split_any(set)
    }

    /// Returns an iterator over the words of the contents: the substrings between White_Space characters (Unicode
    /// Character Database) that are not empty, from both ends. Half of a surrogate pair is no character, so it is part
    /// of a word.
    ///
    /// # Example
    ///
    /// ```
    /// let line = U16CStr::from_slice(&[0x20, 0x61, 0x3000, 0x9, 0xd800, 0])?;
    /// let mut words = line.split_whitespace();
    /// assert!(rt; words.next() == Some(U16Str::from_slice(&[0x61])));
    /// assert!(rt; words.next() == Some(U16Str::from_slice(&[0xd800])));
    /// assert!(rt; words.next().is_none());
    /// ```
    pub fn split_whitespace(self) -> SplitFilled<UStr<'a, C>, AnyOf<WhiteSpace>>
        ensures left { any_filled_left C.form C.number (λ _. is_whitespace) result ≡ filled (substrings_between C.form is_whitespace (map C.number (contents_seen self.entry))) }
        ensures most { length (any_filled_left C.form C.number (λ _. is_whitespace) result) ≤ length (contents_seen self.entry) + 1 }
        ensures fits { length (any_filled_left C.form C.number (λ _. is_whitespace) result) < 2 ^ 64 }
    {
        self.as_ustr().split_whitespace()
    }

    /// Returns an iterator over the words of the contents: the substrings between the white space of ASCII (space, tab,
    /// line feed, form feed and carriage return) that are not empty, from both ends.
    ///
    /// # Example
    ///
    /// ```
    /// let line = U16CStr::from_slice(&[0x61, 0x3000, 0x20, 0x20, 0x62, 0])?;
    /// let mut words = line.split_ascii_whitespace();
    /// assert!(rt; words.next() == Some(U16Str::from_slice(&[0x61, 0x3000])));
    /// assert!(rt; words.next() == Some(U16Str::from_slice(&[0x62])));
    /// assert!(rt; words.next().is_none());
    /// ```
    pub fn split_ascii_whitespace(self) -> SplitFilled<UStr<'a, C>, AnyOf<AsciiWhiteSpace>>
        ensures left { any_filled_left C.form C.number (λ _. is_ascii_whitespace) result ≡ filled (substrings_between C.form is_ascii_whitespace (map C.number (contents_seen self.entry))) }
        ensures most { length (any_filled_left C.form C.number (λ _. is_ascii_whitespace) result) ≤ length (contents_seen self.entry) + 1 }
        ensures fits { length (any_filled_left C.form C.number (λ _. is_ascii_whitespace) result) < 2 ^ 64 }
    {
        self.as_ustr().split_ascii_whitespace()
    }

    /// Returns a view of the contents after the longest prefix that consists of characters of the set. A character is a
    /// set of one.
    ///
    /// # Example
    ///
    /// ```
    /// let number = U16CStr::from_slice(&[0x30, 0x30, 0x37, 0x30, 0])?;
    /// assert!(rt; number.trim_start_matches('0') == U16Str::from_slice(&[0x37, 0x30]));
    /// ```
    pub fn trim_start_matches<S: CharSet>(self, set: S) -> UStr<'a, C>
        ensures { numbers_seen C.number result ≡ without_prefix C.form (S.has set) (map C.number (contents_seen self.entry)) }
    {
        self.as_ustr().trim_start_matches(set)
    }

    /// Returns a view of the contents before the longest suffix that consists of characters of the set. A character is
    /// a set of one.
    ///
    /// # Example
    ///
    /// ```
    /// let folder = U16CStr::from_slice(&[0x2f, 0x61, 0x2f, 0x2f, 0])?;
    /// assert!(rt; folder.trim_end_matches('/') == U16Str::from_slice(&[0x2f, 0x61]));
    /// ```
    pub fn trim_end_matches<S: CharSet>(self, set: S) -> UStr<'a, C>
        ensures { numbers_seen C.number result ≡ without_suffix C.form (S.has set) (map C.number (contents_seen self.entry)) }
    {
        self.as_ustr().trim_end_matches(set)
    }

    /// Returns a view of the contents, without their NUL, without the longest prefix and the longest suffix that
    /// consist of characters of the set. A character is a set of one. The view is empty if all items are characters of
    /// the set.
    ///
    /// # Example
    ///
    /// ```
    /// let quoted = U16CStr::from_slice(&[0x22, 0xd800, 0x22, 0])?;
    /// assert!(rt; quoted.trim_matches('"') == U16Str::from_slice(&[0xd800]));
    /// ```
    pub fn trim_matches<S: CharSet>(self, set: S) -> UStr<'a, C>
        ensures { numbers_seen C.number result ≡ without_ends C.form (S.has set) (map C.number (contents_seen self.entry)) }
    {
        self.as_ustr().trim_matches(set)
    }

    /// Returns a view of the contents after the longest prefix of White_Space characters (Unicode Character Database).
    ///
    /// # Example
    ///
    /// ```
    /// let value = U16CStr::from_slice(&[0x3000, 0x20, 0xd800, 0x20, 0])?;
    /// assert!(rt; value.trim_start() == U16Str::from_slice(&[0xd800, 0x20]));
    /// ```
    pub fn trim_start(self) -> UStr<'a, C>
        ensures { numbers_seen C.number result ≡ without_prefix C.form is_whitespace (map C.number (contents_seen self.entry)) }
    {
        self.as_ustr().trim_start()
    }

    /// Returns a view of the contents before the longest suffix of White_Space characters (Unicode Character Database).
    ///
    /// # Example
    ///
    /// ```
    /// let line = U16CStr::from_slice(&[0x20, 0xd800, 0xd, 0xa, 0])?;
    /// assert!(rt; line.trim_end() == U16Str::from_slice(&[0x20, 0xd800]));
    /// ```
    pub fn trim_end(self) -> UStr<'a, C>
        ensures { numbers_seen C.number result ≡ without_suffix C.form is_whitespace (map C.number (contents_seen self.entry)) }
    {
        self.as_ustr().trim_end()
    }

    /// Returns a view of the contents, without their NUL, without the longest prefix and the longest suffix of
    /// White_Space characters (Unicode Character Database). It is empty if all items are such characters.
    ///
    /// # Example
    ///
    /// ```
    /// let value = U16CStr::from_slice(&[0x9, 0xd800, 0x20, 0x61, 0x20, 0])?;
    /// assert!(rt; value.trim() == U16Str::from_slice(&[0xd800, 0x20, 0x61]));
    /// ```
    pub fn trim(self) -> UStr<'a, C>
        ensures { numbers_seen C.number result ≡ without_ends C.form is_whitespace (map C.number (contents_seen self.entry)) }
    {
        self.as_ustr().trim()
    }
}
