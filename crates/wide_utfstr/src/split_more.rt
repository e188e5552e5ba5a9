//! Well-formed text split at a separator from the back, or after it.
ghost use Rattle.std.specs.Prelude.{◌≡◌, ◌+◌, ◌∷◌, [], ◌≤◌, ◌<◌, ◌^◌, length, reverse};
ghost use Rattle.wide_forms.specs.EncodingForm.{code_units};
ghost use Rattle.wide_search.specs.Cut.{substrings};
ghost use Rattle.wide_search.specs.Laws.Cuts.{some-substrings};
ghost use Rattle.wide_ustr.specs.Kept.{joined, substrings_kept};
ghost use Rattle.wide_ustr.specs.KeptLaws.{kept-whole, kept-some};
ghost use Rattle.wide_ustr.specs.SplitBack.{substrings_back, rsplitn};
ghost use Rattle.wide_ustr.specs.SplitInclusive.{inclusive};
ghost use Rattle.wide_utfstr.specs.Split.{text_rsplit_left, char_rsplit_left, text_rsplitn_left, char_rsplitn_left, text_inclusive_left, char_inclusive_left};
ghost use Rattle.wide_utfstr.specs.View.{units_seen, numbers_seen};

use crate::view::UtfStr;
use wide_from_units::byte_len;
use wide_unit::Unit;
use wide_ustr::{BackView, InclusiveView, RSplit, RSplitN, SplitInclusive};

impl<'a, C: Unit> BackView<UtfStr<'a, C>> for UtfStr<'_, C> {
    ghost cut_back = { λ needle. substrings (reverse (numbers_seen C.number needle)) };

    ghost some_back = { λ needle us. some-substrings (reverse (numbers_seen C.number needle)) us };

    ghost kept_back = { λ needle. substrings_kept (reverse (numbers_seen C.number needle)) };

    ghost kept_back_whole = { λ needle us. kept-whole (reverse (numbers_seen C.number needle)) us };

    ghost some_kept_back = { λ needle us. kept-some (reverse (numbers_seen C.number needle)) us };

    fn cut_last(self, needle: UtfStr<'a, C>) -> Option<(Self, Self)> {
        if needle.is_empty() {
            return None;
        }
        self.rsplit_once(needle)
    }
}

impl<C: Unit> BackView<char> for UtfStr<'_, C> {
    ghost cut_back = { λ needle. substrings (reverse (code_units C.form needle)) };

    ghost some_back = { λ needle us. some-substrings (reverse (code_units C.form needle)) us };

    ghost kept_back = { λ needle. substrings_kept (reverse (code_units C.form needle)) };

    ghost kept_back_whole = { λ needle us. kept-whole (reverse (code_units C.form needle)) us };

    ghost some_kept_back = { λ needle us. kept-some (reverse (code_units C.form needle)) us };

    fn cut_last(self, c: char) -> Option<(Self, Self)> {
        let Some(at) = self.rfind_char(c) else {
            return None;
        };
        let (prefix, _) = self.split_at(at);
        let (_, rest) = self.split_at(at + C::char_len(c));
        Some((prefix, rest))
    }
}

impl<'a, C: Unit> InclusiveView<UtfStr<'a, C>> for UtfStr<'_, C> {
    fn cut_after(self, needle: UtfStr<'a, C>) -> Option<(Self, Self)> {
        if needle.is_empty() {
            return None;
        }
        let Some(at) = self.find(needle) else {
            return None;
        };
        Some(self.split_at(at + needle.len()))
    }
}

impl<C: Unit> InclusiveView<char> for UtfStr<'_, C> {
    fn cut_after(self, c: char) -> Option<(Self, Self)> {
        let Some(at) = self.find_char(c) else {
            return None;
        };
        Some(self.split_at(at + C::char_len(c)))
    }
}

impl<C: Unit> UtfStr<'_, C> {
    /// Returns an iterator over the substrings between the occurrences of the separator, each well formed, from the
    /// back. Each occurrence is the last one before the one before, so occurrences do not overlap. If the separator can
    /// overlap itself, they may be others than those of [`UtfStr::split`]. If it does not occur, or is empty, the whole
    /// text is the only substring.
    ///
    /// # Example
    ///
    /// ```
    /// let list = Utf16Str::from_slice(&[0xe9, 0x2c, 0x20, 0xd83d, 0xde00])?;
    /// let mut parts = list.rsplit(Utf16Str::from_slice(&[0x2c, 0x20])?);
    /// assert!(rt; parts.next().is_some_and(|part| part.eq_str("😀")));
    /// assert!(rt; parts.next().is_some_and(|part| part.eq_str("é")));
    /// assert!(rt; parts.next().is_none());
    /// ```
    pub fn rsplit<'p>(self, needle: UtfStr<'p, C>) -> RSplit<Self, UtfStr<'p, C>>
        ensures left { text_rsplit_left C.number result ≡ substrings_back (numbers_seen C.number needle.entry) (numbers_seen C.number self.entry) }
        ensures most { length (text_rsplit_left C.number result) ≤ length (units_seen self.entry) + 1 }
        ensures fits { length (text_rsplit_left C.number result) < 2 ^ 64 }
    {
        // This call is for its contract: there are so few units that one more substring can be counted.
        let _bytes = byte_len(self.as_slice());
        RSplit::new(self, needle)
    }

    /// Returns an iterator over the substrings between the occurrences of a character, each well formed, from the back.
    /// If the character does not occur, the whole text is the only substring.
    ///
    /// # Example
    ///
    /// ```
    /// let path = Utf16Str::from_slice(&[0xe9, 0x2f, 0xd83d, 0xde00, 0x2f])?;
    /// let mut parts = path.rsplit_char('/');
    /// assert!(rt; parts.next().is_some_and(|part| part.is_empty()));
    /// assert!(rt; parts.next().is_some_and(|part| part.eq_str("😀")));
    /// assert!(rt; parts.next().is_some_and(|part| part.eq_str("é")));
    /// assert!(rt; parts.next().is_none());
    /// ```
    pub fn rsplit_char(self, c: char) -> RSplit<Self, char>
        ensures left { char_rsplit_left C.form C.number result ≡ substrings_back (code_units C.form c) (numbers_seen C.number self.entry) }
        ensures most { length (char_rsplit_left C.form C.number result) ≤ length (units_seen self.entry) + 1 }
        ensures fits { length (char_rsplit_left C.form C.number result) < 2 ^ 64 }
    {
        // This call is for its contract: there are so few units that one more substring can be counted.
        let _bytes = byte_len(self.as_slice());
        RSplit::new(self, c)
    }

    /// Returns an iterator over the last substrings between the occurrences of the separator, at most `count`, each well
    /// formed, from the back. They are those of [`UtfStr::rsplit`], but the last one of that number is all that is left
    /// of the text, with the separators in it. If `count` is 0 there are none.
    ///
    /// # Example
    ///
    /// ```
    /// let list = Utf16Str::from_slice(&[0xe9, 0x2c, 0x61, 0x2c, 0x62])?;
    /// let mut parts = list.rsplitn(2, Utf16Str::from_slice(&[0x2c])?);
    /// assert!(rt; parts.next().is_some_and(|part| part.eq_str("b")));
    /// assert!(rt; parts.next().is_some_and(|part| part.eq_str("é,a")));
    /// assert!(rt; parts.next().is_none());
    /// ```
    pub fn rsplitn<'p>(self, count: usize, needle: UtfStr<'p, C>) -> RSplitN<Self, UtfStr<'p, C>>
        ensures left { text_rsplitn_left C.number result ≡ rsplitn count (numbers_seen C.number needle.entry) (numbers_seen C.number self.entry) }
        ensures whole { count ≡ 1 → text_rsplitn_left C.number result ≡ numbers_seen C.number self.entry ∷ [] }
        ensures most { length (text_rsplitn_left C.number result) ≤ count }
        ensures fits { length (text_rsplitn_left C.number result) < 2 ^ 64 }
    {
        RSplitN::new(self, needle, count)
    }

    /// Returns an iterator over the last substrings between the occurrences of a character, at most `count`, each well
    /// formed, from the back. They are those of [`UtfStr::rsplit_char`], but the last one of that number is all that is
    /// left of the text, with the separators in it. If `count` is 0 there are none.
    ///
    /// # Example
    ///
    /// ```
    /// let name = Utf16Str::from_slice(&[0xe9, 0x2e, 0x61, 0x2e, 0x62])?;
    /// let mut parts = name.rsplitn_char(2, '.');
    /// assert!(rt; parts.next().is_some_and(|part| part.eq_str("b")));
    /// assert!(rt; parts.next().is_some_and(|part| part.eq_str("é.a")));
    /// assert!(rt; parts.next().is_none());
    /// ```
    pub fn rsplitn_char(self, count: usize, c: char) -> RSplitN<Self, char>
        ensures left { char_rsplitn_left C.form C.number result ≡ rsplitn count (code_units C.form c) (numbers_seen C.number self.entry) }
        ensures whole { count ≡ 1 → char_rsplitn_left C.form C.number result ≡ numbers_seen C.number self.entry ∷ [] }
        ensures most { length (char_rsplitn_left C.form C.number result) ≤ count }
        ensures fits { length (char_rsplitn_left C.form C.number result) < 2 ^ 64 }
    {
        RSplitN::new(self, c, count)
    }

    /// Returns an iterator over the substrings that end after an occurrence of the separator or at the end of the text,
    /// each well formed, from the front. They are those of [`UtfStr::split`], each with the separator after it, and
    /// without the last one if that is empty.
    ///
    /// # Example
    ///
    /// ```
    /// let list = Utf16Str::from_slice(&[0xe9, 0x2c, 0x20, 0xd83d, 0xde00])?;
    /// let mut parts = list.split_inclusive(Utf16Str::from_slice(&[0x2c, 0x20])?);
    /// assert!(rt; parts.next().is_some_and(|part| part.eq_str("é, ")));
    /// assert!(rt; parts.next().is_some_and(|part| part.eq_str("😀")));
    /// assert!(rt; parts.next().is_none());
    /// ```
    pub fn split_inclusive<'p>(self, needle: UtfStr<'p, C>) -> SplitInclusive<Self, UtfStr<'p, C>>
        ensures left { text_inclusive_left C.number result ≡ inclusive (numbers_seen C.number needle.entry) (substrings (numbers_seen C.number needle.entry) (numbers_seen C.number self.entry)) }
        ensures joined { joined (text_inclusive_left C.number result) ≡ numbers_seen C.number self.entry }
        ensures most { length (text_inclusive_left C.number result) ≤ length (units_seen self.entry) + 1 }
        ensures fits { length (text_inclusive_left C.number result) < 2 ^ 64 }
    {
        // This call is for its contract: there are so few units that one more substring can be counted.
        let _bytes = byte_len(self.as_slice());
        SplitInclusive::new(self, needle)
    }

    /// Returns an iterator over the substrings that end after an occurrence of the character or at the end of the text,
    /// each well formed, from both ends. They are those of [`UtfStr::split_char`], each with the character after it, and
    /// without the last one if that is empty.
    ///
    /// # Example
    ///
    /// ```
    /// let lines = Utf16Str::from_slice(&[0xe9, 0xa, 0xd83d, 0xde00, 0xa])?;
    /// let mut parts = lines.split_inclusive_char('\n');
    /// assert!(rt; parts.next().is_some_and(|part| part.eq_str("é\n")));
    /// assert!(rt; parts.next().is_some_and(|part| part.eq_str("😀\n")));
    /// assert!(rt; parts.next().is_none());
    /// ```
    pub fn split_inclusive_char(self, c: char) -> SplitInclusive<Self, char>
        ensures left { char_inclusive_left C.form C.number result ≡ inclusive (code_units C.form c) (substrings (code_units C.form c) (numbers_seen C.number self.entry)) }
        ensures joined { joined (char_inclusive_left C.form C.number result) ≡ numbers_seen C.number self.entry }
        ensures most { length (char_inclusive_left C.form C.number result) ≤ length (units_seen self.entry) + 1 }
        ensures fits { length (char_inclusive_left C.form C.number result) < 2 ^ 64 }
    {
        // This call is for its contract: there are so few units that one more substring can be counted.
        let _bytes = byte_len(self.as_slice());
        SplitInclusive::new(self, c)
    }
}
