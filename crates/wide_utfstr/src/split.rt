//! Well-formed text split at a separator.
ghost use Rattle.std.specs.Prelude.{◌≡◌, ◌↔◌, ◌+◌, ◌∷◌, [], ◌≤◌, ◌<◌, ◌^◌, length, IsTrue, IfNone, IfSome};
ghost use Rattle.std.proofs.Common.{refl};
ghost use Rattle.wide_forms.specs.EncodingForm.{code_units};
ghost use Rattle.wide_search.specs.Cut.{substrings};
ghost use Rattle.wide_search.specs.Laws.Cuts.{some-substrings};
ghost use Rattle.wide_search.specs.Substrings.{AreSubstrings, joined_with};
ghost use Rattle.wide_ustr.specs.Kept.{substrings_kept};
ghost use Rattle.wide_ustr.specs.KeptLaws.{kept-whole, kept-some};
ghost use Rattle.wide_ustr.specs.SplitMore.{terminated};
ghost use Rattle.wide_ustr.specs.SplitN.{splitn};
ghost use Rattle.wide_utfstr.specs.Split.{text_substrings_left, char_substrings_left, text_splitn_left, char_splitn_left, text_terminated_left, char_terminated_left};
ghost use Rattle.wide_utfstr.specs.View.{units_seen, numbers_seen};

use crate::view::UtfStr;
use wide_from_units::byte_len;
use wide_unit::Unit;
use wide_ustr::{NeedleView, Split, SplitN, SplitTerminator, SplitView};

impl<C: Unit> UtfStr<'_, C> {
    /// Returns an iterator over the substrings between the occurrences of the separator, each well formed, from the
    /// front. Each occurrence is the first one after the one before, so occurrences do not overlap. If the separator
    /// occurs at the start, at the end, or twice in a row, the substring there is empty. If it does not occur, or is
    /// empty, the whole text is the only substring.
    ///
    /// # Example
    ///
    /// ```
    /// let list = Utf16Str::from_slice(&[0xe9, 0x2c, 0x20, 0xd83d, 0xde00])?;
    /// let mut parts = list.split(Utf16Str::from_slice(&[0x2c, 0x20])?);
    /// assert!(rt; parts.next().is_some_and(|part| part.eq_str("é")));
    /// assert!(rt; parts.next().is_some_and(|part| part.eq_str("😀")));
    /// assert!(rt; parts.next().is_none());
    /// ```
    pub fn split<'p>(self, needle: UtfStr<'p, C>) -> Split<Self, UtfStr<'p, C>>
        ensures left { text_substrings_left C.number result ≡ substrings (numbers_seen C.number needle.entry) (numbers_seen C.number self.entry) }
        ensures cut { 0 < length (units_seen needle.entry) → AreSubstrings (numbers_seen C.number needle.entry) (numbers_seen C.number self.entry) (text_substrings_left C.number result) }
        ensures empty { length (units_seen needle.entry) ≡ 0 → text_substrings_left C.number result ≡ numbers_seen C.number self.entry ∷ [] }
        ensures most { length (text_substrings_left C.number result) ≤ length (units_seen self.entry) + 1 }
        ensures fits { length (text_substrings_left C.number result) < 2 ^ 64 }
    {
        // This call is for its contract: there are so few units that one more substring can be counted.
        let _bytes = byte_len(self.as_slice());
        Split::new(self, needle)
    }

    /// Returns an iterator over the substrings between the occurrences of a character, each well formed, from both
    /// ends. If the character occurs at the start, at the end, or twice in a row, the substring there is empty. If it
    /// does not occur, the whole text is the only substring.
    ///
    /// # Example
    ///
    /// ```
    /// let row = Utf16Str::from_slice(&[0xe9, 0x3b, 0xd83d, 0xde00, 0x3b])?;
    /// let mut fields = row.split_char(';');
    /// assert!(rt; fields.next().is_some_and(|field| field.eq_str("é")));
    /// assert!(rt; fields.next().is_some_and(|field| field.eq_str("😀")));
    /// assert!(rt; fields.next().is_some_and(|field| field.is_empty()));
    /// ```
    pub fn split_char(self, c: char) -> Split<Self, char>
        ensures left { char_substrings_left C.form C.number result ≡ substrings (code_units C.form c) (numbers_seen C.number self.entry) }
        ensures cut { AreSubstrings (code_units C.form c) (numbers_seen C.number self.entry) (char_substrings_left C.form C.number result) }
        ensures most { length (char_substrings_left C.form C.number result) ≤ length (units_seen self.entry) + 1 }
        ensures fits { length (char_substrings_left C.form C.number result) < 2 ^ 64 }
    {
        // This call is for its contract: there are so few units that one more substring can be counted.
        let _bytes = byte_len(self.as_slice());
        Split::new(self, c)
    }

    /// Returns an iterator over the first substrings between the occurrences of the separator, at most `count`, each
    /// well formed, from the front. They are those of [`UtfStr::split`], but the last one of that number is all that is
    /// left of the text, with the separators in it. If `count` is 0 there are none.
    ///
    /// # Example
    ///
    /// ```
    /// let list = Utf16Str::from_slice(&[0xe9, 0x2c, 0x20, 0x62, 0x2c, 0x20, 0x63])?;
    /// let mut parts = list.splitn(2, Utf16Str::from_slice(&[0x2c, 0x20])?);
    /// assert!(rt; parts.next().is_some_and(|part| part.eq_str("é")));
    /// assert!(rt; parts.next().is_some_and(|part| part.eq_str("b, c")));
    /// assert!(rt; parts.next().is_none());
    /// ```
    pub fn splitn<'p>(self, count: usize, needle: UtfStr<'p, C>) -> SplitN<Self, UtfStr<'p, C>>
        ensures left { text_splitn_left C.number result ≡ splitn count (numbers_seen C.number needle.entry) (substrings (numbers_seen C.number needle.entry) (numbers_seen C.number self.entry)) }
        ensures joined { 0 < count → joined_with (numbers_seen C.number needle.entry) (text_splitn_left C.number result) ≡ numbers_seen C.number self.entry }
        ensures whole { count ≡ 1 → text_splitn_left C.number result ≡ numbers_seen C.number self.entry ∷ [] }
        ensures most { length (text_splitn_left C.number result) ≤ count }
        ensures fits { length (text_splitn_left C.number result) < 2 ^ 64 }
    {
        SplitN::new(self, needle, count)
    }

    /// Returns an iterator over the first substrings between the occurrences of a character, at most `count`, each well
    /// formed, from the front. They are those of [`UtfStr::split_char`], but the last one of that number is all that is
    /// left of the text, with the separators in it. If `count` is 0 there are none.
    ///
    /// # Example
    ///
    /// ```
    /// let setting = Utf16Str::from_slice(&[0xe9, 0x3d, 0x31, 0x3d])?;
    /// let mut parts = setting.splitn_char(2, '=');
    /// assert!(rt; parts.next().is_some_and(|name| name.eq_str("é")));
    /// assert!(rt; parts.next().is_some_and(|value| value.eq_str("1=")));
    /// assert!(rt; parts.next().is_none());
    /// ```
    pub fn splitn_char(self, count: usize, c: char) -> SplitN<Self, char>
        ensures left { char_splitn_left C.form C.number result ≡ splitn count (code_units C.form c) (substrings (code_units C.form c) (numbers_seen C.number self.entry)) }
        ensures joined { 0 < count → joined_with (code_units C.form c) (char_splitn_left C.form C.number result) ≡ numbers_seen C.number self.entry }
        ensures whole { count ≡ 1 → char_splitn_left C.form C.number result ≡ numbers_seen C.number self.entry ∷ [] }
        ensures most { length (char_splitn_left C.form C.number result) ≤ count }
        ensures fits { length (char_splitn_left C.form C.number result) < 2 ^ 64 }
    {
        SplitN::new(self, c, count)
    }

    /// Returns an iterator over the substrings that an occurrence of the separator or the end of the text ends, each
    /// well formed, from the front. They are those of [`UtfStr::split`], without the last one if that is empty.
    ///
    /// # Example
    ///
    /// ```
    /// let list = Utf16Str::from_slice(&[0xe9, 0x3b, 0x3b])?;
    /// let mut parts = list.split_terminator(Utf16Str::from_slice(&[0x3b])?);
    /// assert!(rt; parts.next().is_some_and(|part| part.eq_str("é")));
    /// assert!(rt; parts.next().is_some_and(|part| part.is_empty()));
    /// assert!(rt; parts.next().is_none());
    /// ```
    pub fn split_terminator<'p>(self, needle: UtfStr<'p, C>) -> SplitTerminator<Self, UtfStr<'p, C>>
        ensures left { text_terminated_left C.number result ≡ terminated (substrings (numbers_seen C.number needle.entry) (numbers_seen C.number self.entry)) }
        ensures most { length (text_terminated_left C.number result) ≤ length (units_seen self.entry) + 1 }
        ensures fits { length (text_terminated_left C.number result) < 2 ^ 64 }
    {
        // This call is for its contract: there are so few units that one more substring can be counted.
        let _bytes = byte_len(self.as_slice());
        SplitTerminator::new(self, needle)
    }

    /// Returns an iterator over the substrings that an occurrence of the character or the end of the text ends, each
    /// well formed, from both ends. They are those of [`UtfStr::split_char`], without the last one if that is empty.
    ///
    /// # Example
    ///
    /// ```
    /// let list = Utf16Str::from_slice(&[0xe9, 0x3b, 0x62])?;
    /// let mut parts = list.split_terminator_char(';');
    /// assert!(rt; parts.next().is_some_and(|part| part.eq_str("é")));
    /// assert!(rt; parts.next().is_some_and(|part| part.eq_str("b")));
    /// assert!(rt; parts.next().is_none());
    /// ```
    pub fn split_terminator_char(self, c: char) -> SplitTerminator<Self, char>
        ensures left { char_terminated_left C.form C.number result ≡ terminated (substrings (code_units C.form c) (numbers_seen C.number self.entry)) }
        ensures most { length (char_terminated_left C.form C.number result) ≤ length (units_seen self.entry) + 1 }
        ensures fits { length (char_terminated_left C.form C.number result) < 2 ^ 64 }
    {
        // This call is for its contract: there are so few units that one more substring can be counted.
        let _bytes = byte_len(self.as_slice());
        SplitTerminator::new(self, c)
    }
}

impl<'a, C: Unit> SplitView<UtfStr<'a, C>> for UtfStr<'_, C> {
    ghost numbers_seen = { numbers_seen C.number };

    ghost cut_at = { λ needle. substrings (numbers_seen C.number needle) };

    ghost some_substrings = { λ needle us. some-substrings (numbers_seen C.number needle) us };

    ghost kept_at = { λ needle. substrings_kept (numbers_seen C.number needle) };

    ghost kept_whole = { λ needle us. kept-whole (numbers_seen C.number needle) us };

    ghost some_kept = { λ needle us. kept-some (numbers_seen C.number needle) us };

    fn cut_first(self, needle: UtfStr<'a, C>) -> Option<(Self, Self)> {
        if needle.is_empty() {
            return None;
        }
        self.split_once(needle)
    }

    fn has_no_units(self) -> bool {
        self.is_empty()
    }
}

impl<'a, C: Unit> NeedleView<UtfStr<'a, C>> for UtfStr<'_, C> {
    ghost needle_numbers = { numbers_seen C.number };

    ghost cut_at_needle = { λ needle us. refl };
}

impl<C: Unit> SplitView<char> for UtfStr<'_, C> {
    ghost numbers_seen = { numbers_seen C.number };

    ghost cut_at = { λ needle. substrings (code_units C.form needle) };

    ghost some_substrings = { λ needle us. some-substrings (code_units C.form needle) us };

    ghost kept_at = { λ needle. substrings_kept (code_units C.form needle) };

    ghost kept_whole = { λ needle us. kept-whole (code_units C.form needle) us };

    ghost some_kept = { λ needle us. kept-some (code_units C.form needle) us };

    fn cut_first(self, c: char) -> Option<(Self, Self)> {
        let Some(at) = self.find_char(c) else {
            return None;
        };
        let (substring, _) = self.split_at(at);
        let (_, rest) = self.split_at(at + C::char_len(c));
        Some((substring, rest))
    }

    fn has_no_units(self) -> bool {
        self.is_empty()
    }
}

impl<C: Unit> NeedleView<char> for UtfStr<'_, C> {
    ghost needle_numbers = { code_units C.form };

    ghost cut_at_needle = { λ needle us. refl };
}
