//! At most a number of substrings of a view that is split at a separator.
ghost use Rattle.std.specs.Prelude.{◌≡◌, ◌<◌, ◌≤◌, ◌^◌, ◌∷◌, [], length, None, IfSome};
ghost use Rattle.std.specs.Iterator.{YieldsFirstBy, at_most, UpTo};
ghost use Rattle.std.specs.Iterator.SizeHint.{IsWithinCount};
ghost use Rattle.wide_forms.specs.EncodingForm.{code_units};
ghost use Rattle.wide_search.specs.Cut.{substrings};
ghost use Rattle.wide_search.specs.Substrings.{joined_with};
ghost use Rattle.wide_ustr.specs.Kept.{limited};
ghost use Rattle.wide_ustr.specs.SplitN.{splitn, splitn_left, unit_splitn_left, one_splitn_left, char_splitn_left};
ghost use Rattle.wide_ustr.specs.View.{numbers_seen};

use crate::split::{OneUnit, SplitView};
use crate::view::UStr;
use std::iter::FusedIterator;
use wide_unit::Unit;

/// An iterator over at most a number of substrings of a view between the occurrences of a separator, from the front.
/// The last one of that number is all that is left of the view, unsplit. Made by
/// [`UStr::splitn`](crate::UStr::splitn), [`UStr::splitn_unit`](crate::UStr::splitn_unit) and
/// [`UStr::splitn_char`](crate::UStr::splitn_char), and by the calls of the other views that have these names.
///
/// # Example
///
/// ```
/// let setting = U16Str::from_slice(&[0x61, 0x3d, 0x62, 0x3d]);
/// let parts = setting.splitn(2, U16Str::from_slice(&[0x3d]));
/// assert!(rt; parts.last().is_some_and(|value| value.len() == 2));
/// ```
#[derive(Clone, Copy, Debug, Drop)]
pub struct SplitN<V, P> {
    rest: Option<V>,
    needle: P,
    // How often what is left may be cut.
    cuts: usize,
}

impl<P: Copy, V: SplitView<P>> SplitN<V, P> {
    /// Creates an iterator over the first substrings of the view, at most `count`. The last one of that number is all
    /// that is left of the view. If the separator has no units, the whole view is the only substring.
    pub fn new(view: V, needle: P, count: usize) -> Self
        ensures { splitn_left V.numbers_seen V.cut_at V.kept_at result ≡ limited count (V.cut_at needle (V.numbers_seen view)) (V.kept_at needle (V.numbers_seen view)) }
    {
        if count == 0 {
            return SplitN {
                rest: None,
                needle,
                cuts: 0,
            };
        }
        SplitN {
            rest: Some(view),
            needle,
            cuts: count - 1,
        }
    }
}

impl<P: Copy, V: SplitView<P>> Iterator for SplitN<V, P> {
    type Item = V;

    ghost next_gives = { YieldsFirstBy V.numbers_seen (splitn_left V.numbers_seen V.cut_at V.kept_at) };

    ghost remaining = { λ s. at_most (length (splitn_left V.numbers_seen V.cut_at V.kept_at s)) };

    /// Returns the next substring. It reads the units, vectorized, up to those of the separator that ends the
    /// substring, and may read some after them. For the last one of the number it reads none.
    fn next(&mut self) -> Option<V> {
        let view = self.rest?;
        if self.cuts == 0 {
            self.rest = None;
            return Some(view);
        }
        let Some((substring, rest)) = view.cut_first(self.needle) else {
            self.rest = None;
            return Some(view);
        };
        self.cuts -= 1;
        self.rest = Some(rest);
        Some(substring)
    }

    /// Returns no bounds, since the number of substrings is unknown before the view is read.
    fn size_hint(&self) -> (usize, Option<usize>)
        ensures lower { IsWithinCount result.0 (at_most (length (splitn_left V.numbers_seen V.cut_at V.kept_at self.now))) }
        ensures upper { IfSome result.1 (UpTo (at_most (length (splitn_left V.numbers_seen V.cut_at V.kept_at self.now)))) }
        ensures least { result.0 ≡ 0 }
        ensures most { result.1 ≡ None }
    {
        (0, None)
    }
}

impl<P: Copy, V: SplitView<P>> FusedIterator for SplitN<V, P> {}

impl<C: Unit> UStr<'_, C> {
    /// Returns an iterator over the first substrings between the occurrences of the separator, at most `count`, from
    /// the front. They are those of [`UStr::split`], but the last one of that number is all that is left of the view,
    /// with the separators in it. If `count` is 0 there are none.
    ///
    /// # Example
    ///
    /// ```
    /// let setting = U16Str::from_slice(&[0x61, 0x3d, 0x62, 0x3d, 0x63]);
    /// let mut parts = setting.splitn(2, U16Str::from_slice(&[0x3d]));
    /// assert!(rt; parts.next() == Some(U16Str::from_slice(&[0x61])));
    /// assert!(rt; parts.next() == Some(U16Str::from_slice(&[0x62, 0x3d, 0x63])));
    /// assert!(rt; parts.next().is_none());
    /// ```
    pub fn splitn<'p>(self, count: usize, needle: UStr<'p, C>) -> SplitN<Self, UStr<'p, C>>
        ensures left { unit_splitn_left C.number result ≡ splitn count (numbers_seen C.number needle.entry) (substrings (numbers_seen C.number needle.entry) (numbers_seen C.number self.entry)) }
        ensures joined { 0 < count → joined_with (numbers_seen C.number needle.entry) (unit_splitn_left C.number result) ≡ numbers_seen C.number self.entry }
        ensures whole { count ≡ 1 → unit_splitn_left C.number result ≡ numbers_seen C.number self.entry ∷ [] }
        ensures most { length (unit_splitn_left C.number result) ≤ count }
        ensures fits { length (unit_splitn_left C.number result) < 2 ^ 64 }
    {
        SplitN::new(self, needle, count)
    }

    /// Returns an iterator over the first substrings between the occurrences of a unit, at most `count`, from the front.
    /// They are those of [`UStr::split_unit`], but the last one of that number is all that is left of the view, with the
    /// separators in it. If `count` is 0 there are none.
    ///
    /// # Example
    ///
    /// ```
    /// let setting = U16Str::from_slice(&[0xd800, 0x3d, 0x62, 0x3d]);
    /// let mut parts = setting.splitn_unit(2, 0x3d);
    /// assert!(rt; parts.next() == Some(U16Str::from_slice(&[0xd800])));
    /// assert!(rt; parts.next() == Some(U16Str::from_slice(&[0x62, 0x3d])));
    /// assert!(rt; parts.next().is_none());
    /// ```
    pub fn splitn_unit(self, count: usize, unit: C) -> SplitN<Self, OneUnit<C>>
        ensures left { one_splitn_left C.number result ≡ splitn count (C.number unit ∷ []) (substrings (C.number unit ∷ []) (numbers_seen C.number self.entry)) }
        ensures joined { 0 < count → joined_with (C.number unit ∷ []) (one_splitn_left C.number result) ≡ numbers_seen C.number self.entry }
        ensures whole { count ≡ 1 → one_splitn_left C.number result ≡ numbers_seen C.number self.entry ∷ [] }
        ensures most { length (one_splitn_left C.number result) ≤ count }
        ensures fits { length (one_splitn_left C.number result) < 2 ^ 64 }
    {
        SplitN::new(self, OneUnit { unit }, count)
    }

    /// Returns an iterator over the first substrings between the occurrences of a character, at most `count`, from the
    /// front. They are those of [`UStr::split_char`], but the last one of that number is all that is left of the view,
    /// with the separators in it. If `count` is 0 there are none.
    ///
    /// # Example
    ///
    /// ```
    /// let text = U16Str::from_slice(&[0x61, 0xd83d, 0xde00, 0xd83d, 0xde00]);
    /// let mut parts = text.splitn_char(2, '😀');
    /// assert!(rt; parts.next() == Some(U16Str::from_slice(&[0x61])));
    /// assert!(rt; parts.next() == Some(U16Str::from_slice(&[0xd83d, 0xde00])));
    /// assert!(rt; parts.next().is_none());
    /// ```
    pub fn splitn_char(self, count: usize, c: char) -> SplitN<Self, char>
        ensures left { char_splitn_left C.form C.number result ≡ splitn count (code_units C.form c) (substrings (code_units C.form c) (numbers_seen C.number self.entry)) }
        ensures joined { 0 < count → joined_with (code_units C.form c) (char_splitn_left C.form C.number result) ≡ numbers_seen C.number self.entry }
        ensures whole { count ≡ 1 → char_splitn_left C.form C.number result ≡ numbers_seen C.number self.entry ∷ [] }
        ensures most { length (char_splitn_left C.form C.number result) ≤ count }
        ensures fits { length (char_splitn_left C.form C.number result) < 2 ^ 64 }
    {
        SplitN::new(self, c, count)
    }
}
