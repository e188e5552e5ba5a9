//! The matches of a needle in the contents of C strings, with their offsets.
ghost use Rattle.std.specs.Prelude.{◌≡◌, ◌<◌, ◌≤◌, ◌+◌, ◌^◌, [], length, map};
ghost use Rattle.std.specs.List.{All};
ghost use Rattle.wide_forms.specs.EncodingForm.{code_units};
ghost use Rattle.wide_search.specs.Cut.{substrings};
ghost use Rattle.wide_ustr.specs.Matched.{AreMatches, matches_in};
ghost use Rattle.wide_ustr.specs.MatchesLeft.{matches_left, found_left};
ghost use Rattle.wide_ucstr.specs.View.{contents_seen};

use crate::view::UCStr;
use wide_ustr::{MatchIndices, Matches, UStr};
use wide_utferror::FaultUnit;

impl<'a, C: FaultUnit> UCStr<'a, C> {
    /// Returns an iterator over the matches of the needle, without its NUL, in the contents, from the front, each with
    /// its offset in units, as views without a NUL. Each match is the first occurrence after the match before, so
    /// matches do not overlap. An empty needle has no match.
    ///
    /// # Example
    ///
    /// ```
    /// let path = U16CStr::from_slice(&[0x61, 0x2f, 0xd800, 0x2f, 0])?;
    /// let mut found = path.match_indices(U16CStr::from_slice(&[0x2f, 0])?);
    /// assert!(rt; found.next() == Some((1, U16Str::from_slice(&[0x2f]))));
    /// assert!(rt; found.next() == Some((3, U16Str::from_slice(&[0x2f]))));
    /// assert!(rt; found.next().is_none());
    /// ```
    pub fn match_indices<'p>(self, needle: UCStr<'p, C>) -> MatchIndices<UStr<'a, C>, UStr<'p, C>>
        ensures left { matches_left result ≡ matches_in (map C.number (contents_seen needle.entry)) (map C.number (contents_seen self.entry)) }
        ensures are { 0 < length (contents_seen needle.entry) → AreMatches (map C.number (contents_seen needle.entry)) (map C.number (contents_seen self.entry)) 0 (matches_left result) }
        ensures empty { length (contents_seen needle.entry) ≡ 0 → matches_left result ≡ [] }
        ensures within { All (λ m. m.0 + length (contents_seen needle.entry) ≤ length (contents_seen self.entry)) (matches_left result) }
        ensures most { length (matches_left result) ≤ length (contents_seen self.entry) }
        ensures fits { length (matches_left result) < 2 ^ 64 }
    {
        self.as_ustr().match_indices(needle.as_ustr())
    }

    /// Returns an iterator over the matches of a character in the contents, from both ends, each with its offset in
    /// units, as views without a NUL. Half of a surrogate pair is no character and matches none, and neither does the
    /// NUL at the end match U+0000.
    ///
    /// # Example
    ///
    /// ```
    /// let path = U16CStr::from_slice(&[0x61, 0x2f, 0xd800, 0x2f, 0])?;
    /// let mut found = path.match_indices_char('/');
    /// assert!(rt; found.next() == Some((1, U16Str::from_slice(&[0x2f]))));
    /// assert!(rt; found.next() == Some((3, U16Str::from_slice(&[0x2f]))));
    /// assert!(rt; found.next().is_none());
    /// ```
    pub fn match_indices_char(self, c: char) -> MatchIndices<UStr<'a, C>, char>
        ensures left { matches_left result ≡ matches_in (code_units C.form c) (map C.number (contents_seen self.entry)) }
        ensures are { AreMatches (code_units C.form c) (map C.number (contents_seen self.entry)) 0 (matches_left result) }
        ensures within { All (λ m. m.0 + length (code_units C.form c) ≤ length (contents_seen self.entry)) (matches_left result) }
        ensures most { length (matches_left result) ≤ length (contents_seen self.entry) }
        ensures fits { length (matches_left result) < 2 ^ 64 }
    {
        self.as_ustr().match_indices_char(c)
    }

    /// Returns an iterator over the matches of the needle, without its NUL, in the contents, from the front, as views
    /// without a NUL. They are those of [`UCStr::match_indices`], so their number is how often the needle occurs without
    /// overlapping.
    ///
    /// # Example
    ///
    /// ```
    /// let path = U16CStr::from_slice(&[0x61, 0x2f, 0xd800, 0x2f, 0])?;
    /// assert!(rt; path.matches(U16CStr::from_slice(&[0x2f, 0])?).count() == 2);
    /// ```
    pub fn matches<'p>(self, needle: UCStr<'p, C>) -> Matches<UStr<'a, C>, UStr<'p, C>>
        ensures left { found_left result ≡ map (λ m. m.1) (matches_in (map C.number (contents_seen needle.entry)) (map C.number (contents_seen self.entry))) }
        ensures count { length (found_left result) + 1 ≡ length (substrings (map C.number (contents_seen needle.entry)) (map C.number (contents_seen self.entry))) }
        ensures most { length (found_left result) ≤ length (contents_seen self.entry) }
        ensures fits { length (found_left result) < 2 ^ 64 }
    {
        self.as_ustr().matches(needle.as_ustr())
    }

    /// Returns an iterator over the matches of a character in the contents, from both ends, as views without a NUL. Half
    /// of a surrogate pair is no character and matches none.
    ///
    /// # Example
    ///
    /// ```
    /// let path = U16CStr::from_slice(&[0x61, 0x2f, 0xd800, 0x2f, 0])?;
    /// assert!(rt; path.matches_char('/').count() == 2);
    /// ```
    pub fn matches_char(self, c: char) -> Matches<UStr<'a, C>, char>
        ensures left { found_left result ≡ map (λ m. m.1) (matches_in (code_units C.form c) (map C.number (contents_seen self.entry))) }
        ensures count { length (found_left result) + 1 ≡ length (substrings (code_units C.form c) (map C.number (contents_seen self.entry))) }
        ensures most { length (found_left result) ≤ length (contents_seen self.entry) }
        ensures fits { length (found_left result) < 2 ^ 64 }
    {
        self.as_ustr().matches_char(c)
    }
}
