//! The matches of a needle in well-formed text, with their offsets.
ghost use Rattle.std.specs.Prelude.{◌≡◌, ◌<◌, ◌≤◌, ◌+◌, ◌^◌, [], length, map};
ghost use Rattle.std.specs.List.{All};
ghost use Rattle.wide_forms.specs.EncodingForm.{code_units};
ghost use Rattle.wide_forms.specs.Offsets.{IsCharBoundary};
ghost use Rattle.wide_search.specs.Cut.{substrings};
ghost use Rattle.wide_ustr.specs.Matched.{AreMatches, matches_in};
ghost use Rattle.wide_ustr.specs.MatchesLeft.{matches_left, found_left};
ghost use Rattle.wide_utfstr.specs.View.{units_seen, numbers_seen};

use crate::view::UtfStr;
use wide_unit::Unit;
use wide_ustr::{MatchIndices, MatchView, Matches};

impl<'a, C: Unit> MatchView<UtfStr<'a, C>> for UtfStr<'_, C> {
    fn first_match(self, needle: UtfStr<'a, C>) -> Option<(usize, Self, Self)> {
        if needle.is_empty() {
            return None;
        }
        let Some(at) = self.find(needle) else {
            return None;
        };
        let end = at + needle.len();
        let (_, rest) = self.split_at(end);
        Some((at, self.slice(at..end), rest))
    }

    fn units_len(self) -> usize {
        self.len()
    }
}

impl<C: Unit> MatchView<char> for UtfStr<'_, C> {
    fn first_match(self, c: char) -> Option<(usize, Self, Self)> {
        let Some(at) = self.find_char(c) else {
            return None;
        };
        let end = at + C::char_len(c);
        let (_, rest) = self.split_at(end);
        Some((at, self.slice(at..end), rest))
    }

    fn units_len(self) -> usize {
        self.len()
    }
}

impl<C: Unit> UtfStr<'_, C> {
    /// Returns an iterator over the matches of the needle, from the front, each with its offset in units. Each match is
    /// the first occurrence after the match before, so matches do not overlap. The offset and the end of each match are
    /// character boundaries. An empty needle has no match.
    ///
    /// # Example
    ///
    /// ```
    /// let text = Utf16String::from_str(rt.alloc(), "x😀, 😀, y")?;
    /// let comma = Utf16String::from_str(rt.alloc(), ", ")?;
    /// let mut found = text.as_utfstr().match_indices(comma.as_utfstr());
    /// assert!(rt; found.next() == Some((3, comma.as_utfstr())));
    /// assert!(rt; found.next() == Some((7, comma.as_utfstr())));
    /// assert!(rt; found.next().is_none());
    /// ```
    pub fn match_indices<'p>(self, needle: UtfStr<'p, C>) -> MatchIndices<Self, UtfStr<'p, C>>
        ensures left { matches_left result ≡ matches_in (numbers_seen C.number needle.entry) (numbers_seen C.number self.entry) }
        ensures are { 0 < length (units_seen needle.entry) → AreMatches (numbers_seen C.number needle.entry) (numbers_seen C.number self.entry) 0 (matches_left result) }
        ensures empty { length (units_seen needle.entry) ≡ 0 → matches_left result ≡ [] }
        ensures starts { All (λ m. IsCharBoundary C.form (numbers_seen C.number self.entry) m.0) (matches_left result) }
        ensures ends { All (λ m. IsCharBoundary C.form (numbers_seen C.number self.entry) (m.0 + length (units_seen needle.entry))) (matches_left result) }
        ensures most { length (matches_left result) ≤ length (units_seen self.entry) }
        ensures fits { length (matches_left result) < 2 ^ 64 }
    {
        // This call is for its contract: a length is below 2 ^ 64, so the number of matches fits in a `usize`.
        let _units = self.len();
        MatchIndices::new(self, needle)
    }

    /// Returns an iterator over the matches of a character, from both ends, each with its offset in units. The offset
    /// and the end of each match are character boundaries.
    ///
    /// # Example
    ///
    /// ```
    /// let text = Utf16Str::from_slice(&[0xd83d, 0xde00, 0x21, 0xd83d, 0xde00])?;
    /// let mut found = text.match_indices_char('😀');
    /// assert!(rt; found.next().is_some_and(|(offset, _)| offset == 0));
    /// assert!(rt; found.next().is_some_and(|(offset, _)| offset == 3));
    /// assert!(rt; found.next().is_none());
    /// ```
    pub fn match_indices_char(self, c: char) -> MatchIndices<Self, char>
        ensures left { matches_left result ≡ matches_in (code_units C.form c) (numbers_seen C.number self.entry) }
        ensures are { AreMatches (code_units C.form c) (numbers_seen C.number self.entry) 0 (matches_left result) }
        ensures starts { All (λ m. IsCharBoundary C.form (numbers_seen C.number self.entry) m.0) (matches_left result) }
        ensures ends { All (λ m. IsCharBoundary C.form (numbers_seen C.number self.entry) (m.0 + length (code_units C.form c))) (matches_left result) }
        ensures most { length (matches_left result) ≤ length (units_seen self.entry) }
        ensures fits { length (matches_left result) < 2 ^ 64 }
    {
        // This call is for its contract: a length is below 2 ^ 64, so the number of matches fits in a `usize`.
        let _units = self.len();
        MatchIndices::new(self, c)
    }

    /// Returns an iterator over the matches of the needle, from the front, as parts of the text. They are those of
    /// [`UtfStr::match_indices`], so their number is how often the needle occurs without overlapping.
    ///
    /// # Example
    ///
    /// ```
    /// let text = Utf16String::from_str(rt.alloc(), "aaa aa")?;
    /// let needle = Utf16String::from_str(rt.alloc(), "aa")?;
    /// assert!(rt; text.as_utfstr().matches(needle.as_utfstr()).count() == 2);
    /// ```
    pub fn matches<'p>(self, needle: UtfStr<'p, C>) -> Matches<Self, UtfStr<'p, C>>
        ensures left { found_left result ≡ map (λ m. m.1) (matches_in (numbers_seen C.number needle.entry) (numbers_seen C.number self.entry)) }
        ensures count { length (found_left result) + 1 ≡ length (substrings (numbers_seen C.number needle.entry) (numbers_seen C.number self.entry)) }
        ensures most { length (found_left result) ≤ length (units_seen self.entry) }
        ensures fits { length (found_left result) < 2 ^ 64 }
    {
        // This call is for its contract: a length is below 2 ^ 64, so the number of matches fits in a `usize`.
        let _units = self.len();
        Matches::new(self, needle)
    }

    /// Returns an iterator over the matches of a character, from both ends, as parts of the text.
    ///
    /// # Example
    ///
    /// ```
    /// let text = Utf16Str::from_slice(&[0xd83d, 0xde00, 0x21, 0xd83d, 0xde00])?;
    /// assert!(rt; text.matches_char('😀').count() == 2);
    /// ```
    pub fn matches_char(self, c: char) -> Matches<Self, char>
        ensures left { found_left result ≡ map (λ m. m.1) (matches_in (code_units C.form c) (numbers_seen C.number self.entry)) }
        ensures count { length (found_left result) + 1 ≡ length (substrings (code_units C.form c) (numbers_seen C.number self.entry)) }
        ensures most { length (found_left result) ≤ length (units_seen self.entry) }
        ensures fits { length (found_left result) < 2 ^ 64 }
    {
        // This call is for its contract: a length is below 2 ^ 64, so the number of matches fits in a `usize`.
        let _units = self.len();
        Matches::new(self, c)
    }
}
