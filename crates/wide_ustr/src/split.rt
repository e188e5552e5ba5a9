//! The substrings of a view that is split at a separator.
ghost use Rattle.std.specs.Prelude.{◌≡◌, ◌↔◌, ◌<◌, ◌≤◌, ◌+◌, ◌^◌, ◌∷◌, ℕ, List, [], length, None, IsTrue, IfNone, IfSome};
ghost use Rattle.std.proofs.Common.{refl};
ghost use Rattle.std.specs.Iterator.{YieldsFirstBy, YieldsLastBy, at_most, UpTo};
ghost use Rattle.std.specs.Iterator.SizeHint.{IsWithinCount};
ghost use Rattle.wide_forms.specs.EncodingForm.{code_units};
ghost use Rattle.wide_search.specs.Cut.{substrings};
ghost use Rattle.wide_search.specs.Laws.Cuts.{some-substrings};
ghost use Rattle.wide_search.specs.Substrings.{AreSubstrings};
ghost use Rattle.wide_ustr.specs.Kept.{joined, substrings_kept, IsFirstKept};
ghost use Rattle.wide_ustr.specs.KeptLaws.{kept-whole, kept-some};
ghost use Rattle.wide_ustr.specs.Split.{substrings_left, unit_substrings_left, one_number, one_substrings_left, char_substrings_left};
ghost use Rattle.wide_ustr.specs.View.{numbers_seen};

use crate::split_ends::DoubleEndedView;
use crate::view::UStr;
use std::iter::FusedIterator;
use wide_from_units::byte_len;
use wide_unit::Unit;

/// A view that can be split at a separator of some type: units, one unit, a character, or any character of a set.
///
/// The Rust crate has no such trait. No call allocates.
///
/// # Example
///
/// ```
/// use widestring::ustr::SplitView;
///
/// let setting = U16Str::from_slice(&[0x78, 0x3d, 0x31]);
/// let cut = setting.cut_first(U16Str::from_slice(&[0x3d]));
/// assert!(rt; cut == Some((U16Str::from_slice(&[0x78]), U16Str::from_slice(&[0x31]))));
/// ```
pub trait SplitView<P>: Copy {
    // The numbers of the view's units.
    ghost numbers_seen: { Self → List ℕ };

    // The numbers of the units of each substring into which units are split at the separator.
    ghost cut_at: { P → List ℕ → List (List ℕ) };

    // There is at least one substring.
    ghost some_substrings: { (separator : P) (us : List ℕ) → 0 < length (cut_at separator us) };

    // The substrings, each with the separator that ends it.
    ghost kept_at: { P → List ℕ → List (List ℕ) };

    // Joined, these are all units.
    ghost kept_whole: { (separator : P) (us : List ℕ) → joined (kept_at separator us) ≡ us };

    // There is at least one of them.
    ghost some_kept: { (separator : P) (us : List ℕ) → 0 < length (kept_at separator us) };

    /// Splits the view at the first occurrence of the separator, into what is before it and what is after it. Returns
    /// `None` if the separator does not occur, or has no units.
    fn cut_first(self, needle: P) -> Option<(Self, Self)>
        ensures none { IfNone result (cut_at needle (numbers_seen self) ≡ numbers_seen self ∷ []) }
        ensures some { IfSome result (λ r. cut_at needle (numbers_seen self) ≡ numbers_seen r.0 ∷ cut_at needle (numbers_seen r.1)) }
        ensures kept_none { IfNone result (kept_at needle (numbers_seen self) ≡ numbers_seen self ∷ []) }
        ensures kept_some { IfSome result (λ r. IsFirstKept (kept_at needle) (numbers_seen self) (numbers_seen r.0) (numbers_seen r.1)) };

    /// Returns whether the view has no units.
    fn has_no_units(self) -> bool
        ensures { IsTrue result ↔ (numbers_seen self ≡ []) };
}

/// A view that can be split at a separator that has the same units wherever it occurs: units, one unit, or a character.
///
/// The Rust crate has no such trait.
///
/// # Example
///
/// ```
/// use widestring::ustr::{OneUnit, SplitN};
///
/// let row = U16Str::from_slice(&[0x61, 0x3b, 0x62, 0x3b]);
/// let mut fields = SplitN::new(row, OneUnit { unit: 0x3b }, 2);
/// assert!(rt; fields.next() == Some(U16Str::from_slice(&[0x61])));
/// assert!(rt; fields.next() == Some(U16Str::from_slice(&[0x62, 0x3b])));
/// ```
pub trait NeedleView<P>: SplitView<P> {
    // The numbers of the separator's units.
    ghost needle_numbers: { P → List ℕ };

    // The view is split at these units.
    ghost cut_at_needle: { (needle : P) (us : List ℕ) → Self.SplitView.cut_at needle us ≡ substrings (needle_numbers needle) us };
}

/// A separator of one unit. It is a type of its own because a view that could be split both at a unit of any type and at
/// a character would have two impls of [`SplitView`] for one type. The Rust crate has no such type.
///
/// # Example
///
/// ```
/// use widestring::ustr::{OneUnit, SplitView};
///
/// let setting = U16Str::from_slice(&[0x78, 0x3d, 0x31]);
/// let parts = setting.cut_first(OneUnit { unit: 0x3d });
/// assert!(rt; parts.is_some_and(|(name, value)| name.len() == 1 && value.len() == 1));
/// ```
#[derive(Clone, Copy, Debug, Drop)]
pub struct OneUnit<C> {
    /// The unit.
    pub unit: C,
}

/// An iterator over the substrings of a view between the occurrences of a separator, from the front. Made by
/// [`UStr::split`](crate::UStr::split), [`UStr::split_unit`](crate::UStr::split_unit) and
/// [`UStr::split_char`](crate::UStr::split_char), and by the calls of the other views that have these names. At a unit, a
/// character or the characters of a set it also goes from the back ([`DoubleEndedView`]).
///
/// # Example
///
/// ```
/// let path = U16Str::from_slice(&[0x43, 0x3a, 0x5c, 0x74, 0x5c, 0xe9]);
/// let mut parts = path.split_char('\\');
/// assert!(rt; parts.next_back() == Some(U16Str::from_slice(&[0xe9])));
/// assert!(rt; parts.next() == Some(U16Str::from_slice(&[0x43, 0x3a])));
/// assert!(rt; parts.count() == 1);
/// ```
#[derive(Clone, Copy, Debug, Drop)]
pub struct Split<V, P> {
    rest: Option<V>,
    needle: P,
}

impl<P: Copy, V: SplitView<P>> Split<V, P> {
    /// Creates an iterator over the substrings of the view. If the separator has no units, the whole view is the only
    /// substring.
    pub fn new(view: V, needle: P) -> Self
        ensures { substrings_left V.numbers_seen V.cut_at result ≡ V.cut_at needle (V.numbers_seen view) }
    {
        Split {
            rest: Some(view),
            needle,
        }
    }

    // Returns whether no substring is left.
    pub(crate) fn is_at_end(&self) -> bool
        ensures { IsTrue result ↔ (substrings_left V.numbers_seen V.cut_at self.now ≡ []) }
    {
        self.rest.is_none()
    }
}

impl<P: Copy, V: SplitView<P>> Iterator for Split<V, P> {
    type Item = V;

    ghost next_gives = { YieldsFirstBy V.numbers_seen (substrings_left V.numbers_seen V.cut_at) };

    ghost remaining = { λ s. at_most (length (substrings_left V.numbers_seen V.cut_at s)) };

    /// Returns the next substring. It reads the units, vectorized, up to those of the separator that ends the
    /// substring, and may read some after them.
    fn next(&mut self) -> Option<V> {
        let view = self.rest?;
        let Some((substring, rest)) = view.cut_first(self.needle) else {
            self.rest = None;
            return Some(view);
        };
        self.rest = Some(rest);
        Some(substring)
    }

    /// Returns no bounds, since the number of substrings is unknown before the view is read.
    fn size_hint(&self) -> (usize, Option<usize>)
        ensures lower { IsWithinCount result.0 (at_most (length (substrings_left V.numbers_seen V.cut_at self.now))) }
        ensures upper { IfSome result.1 (UpTo (at_most (length (substrings_left V.numbers_seen V.cut_at self.now)))) }
        ensures least { result.0 ≡ 0 }
        ensures most { result.1 ≡ None }
    {
        (0, None)
    }
}

impl<P: Copy, V: DoubleEndedView<P>> DoubleEndedIterator for Split<V, P> {
    ghost next_back_gives = { YieldsLastBy V.numbers_seen (substrings_left V.numbers_seen V.cut_at) };

    /// Returns the last substring that is left. It reads the units from the back, down to those of the separator that
    /// begins the substring, and may read some before them.
    fn next_back(&mut self) -> Option<V> {
        let view = self.rest?;
        let Some((rest, substring)) = view.cut_off_last(self.needle) else {
            self.rest = None;
            return Some(view);
        };
        self.rest = Some(rest);
        Some(substring)
    }
}

impl<P: Copy, V: SplitView<P>> FusedIterator for Split<V, P> {}

impl<'a, C: Unit> SplitView<UStr<'a, C>> for UStr<'_, C> {
    ghost numbers_seen = { numbers_seen C.number };

    ghost cut_at = { λ needle. substrings (numbers_seen C.number needle) };

    ghost some_substrings = { λ needle us. some-substrings (numbers_seen C.number needle) us };

    ghost kept_at = { λ needle. substrings_kept (numbers_seen C.number needle) };

    ghost kept_whole = { λ needle us. kept-whole (numbers_seen C.number needle) us };

    ghost some_kept = { λ needle us. kept-some (numbers_seen C.number needle) us };

    fn cut_first(self, needle: UStr<'a, C>) -> Option<(Self, Self)> {
        if needle.is_empty() {
            return None;
        }
        self.split_once(needle)
    }

    fn has_no_units(self) -> bool {
        self.is_empty()
    }
}

impl<'a, C: Unit> NeedleView<UStr<'a, C>> for UStr<'_, C> {
    ghost needle_numbers = { numbers_seen C.number };

    ghost cut_at_needle = { λ needle us. refl };
}

impl<C: Unit> SplitView<OneUnit<C>> for UStr<'_, C> {
    ghost numbers_seen = { numbers_seen C.number };

    ghost cut_at = { λ needle. substrings (one_number C.number needle) };

    ghost some_substrings = { λ needle us. some-substrings (one_number C.number needle) us };

    ghost kept_at = { λ needle. substrings_kept (one_number C.number needle) };

    ghost kept_whole = { λ needle us. kept-whole (one_number C.number needle) us };

    ghost some_kept = { λ needle us. kept-some (one_number C.number needle) us };

    fn cut_first(self, needle: OneUnit<C>) -> Option<(Self, Self)> {
        let Some(at) = self.find_unit(needle.unit) else {
            return None;
        };
        let (substring, _) = self.split_at(at);
        let (_, rest) = self.split_at(at + 1);
        Some((substring, rest))
    }

    fn has_no_units(self) -> bool {
        self.is_empty()
    }
}

impl<C: Unit> NeedleView<OneUnit<C>> for UStr<'_, C> {
    ghost needle_numbers = { one_number C.number };

    ghost cut_at_needle = { λ needle us. refl };
}

impl<C: Unit> SplitView<char> for UStr<'_, C> {
    ghost numbers_seen = { numbers_seen C.number };

    ghost cut_at = { λ needle. substrings (code_units C.form needle) };

    ghost some_substrings = { λ needle us. some-substrings (code_units C.form needle) us };

    ghost kept_at = { λ needle. substrings_kept (code_units C.form needle) };

    ghost kept_whole = { λ needle us. kept-whole (code_units C.form needle) us };

    ghost some_kept = { λ needle us. kept-some (code_units C.form needle) us };

    fn cut_first(self, c: char) -> Option<(Self, Self)> {
        let Some(at) = self.find_char(c) else {
            return None;
        };
        let (substring, _) = self.split_at(at);
        let (_, rest) = self.split_at(at + C::char_len(c));
        Some((substring, rest))
    }

    fn has_no_units(self) -> bool {
        self.is_empty()
    }
}

impl<C: Unit> NeedleView<char> for UStr<'_, C> {
    ghost needle_numbers = { code_units C.form };

    ghost cut_at_needle = { λ needle us. refl };
}

impl<C: Unit> UStr<'_, C> {
    ghost use Rattle.wide_ustr.specs.View.{units_seen};

    /// Returns an iterator over the substrings between the occurrences of the separator, from the front. Each
    /// occurrence is the first one after the one before, so occurrences do not overlap. If the separator occurs at the
    /// start, at the end, or twice in a row, the substring there is empty. If it does not occur, or is empty, the whole
    /// view is the only substring.
    ///
    /// # Example
    ///
    /// ```
    /// let row = U16Str::from_slice(&[0x61, 0x3b, 0xd800, 0x3b]);
    /// let mut fields = row.split(U16Str::from_slice(&[0x3b]));
    /// assert!(rt; fields.next() == Some(U16Str::from_slice(&[0x61])));
    /// assert!(rt; fields.next() == Some(U16Str::from_slice(&[0xd800])));
    /// assert!(rt; fields.next().is_some_and(|field| field.is_empty()));
    /// ```
    pub fn split<'p>(self, needle: UStr<'p, C>) -> Split<Self, UStr<'p, C>>
        ensures left { unit_substrings_left C.number result ≡ substrings (numbers_seen C.number needle.entry) (numbers_seen C.number self.entry) }
        ensures cut { 0 < length (units_seen needle.entry) → AreSubstrings (numbers_seen C.number needle.entry) (numbers_seen C.number self.entry) (unit_substrings_left C.number result) }
        ensures empty { length (units_seen needle.entry) ≡ 0 → unit_substrings_left C.number result ≡ numbers_seen C.number self.entry ∷ [] }
        ensures most { length (unit_substrings_left C.number result) ≤ length (units_seen self.entry) + 1 }
        ensures fits { length (unit_substrings_left C.number result) < 2 ^ 64 }
    {
        // This call is for its contract: there are so few units that one more substring can be counted.
        let _bytes = byte_len(self.units);
        Split::new(self, needle)
    }

    /// Returns an iterator over the substrings between the occurrences of a unit, from both ends. The unit may be half of
    /// a surrogate pair. If it occurs at the start, at the end, or twice in a row, the substring there is empty. If it
    /// does not occur, the whole view is the only substring.
    ///
    /// # Example
    ///
    /// ```
    /// let row = U16Str::from_slice(&[0x61, 0x3b, 0xd800, 0x3b]);
    /// let mut fields = row.split_unit(0x3b);
    /// assert!(rt; fields.next() == Some(U16Str::from_slice(&[0x61])));
    /// assert!(rt; fields.next() == Some(U16Str::from_slice(&[0xd800])));
    /// assert!(rt; fields.next().is_some_and(|field| field.is_empty()));
    /// assert!(rt; fields.next().is_none());
    /// ```
    pub fn split_unit(self, unit: C) -> Split<Self, OneUnit<C>>
        ensures left { one_substrings_left C.number result ≡ substrings (C.number unit ∷ []) (numbers_seen C.number self.entry) }
        ensures cut { AreSubstrings (C.number unit ∷ []) (numbers_seen C.number self.entry) (one_substrings_left C.number result) }
        ensures most { length (one_substrings_left C.number result) ≤ length (units_seen self.entry) + 1 }
        ensures fits { length (one_substrings_left C.number result) < 2 ^ 64 }
    {
        // This call is for its contract: there are so few units that one more substring can be counted.
        let _bytes = byte_len(self.units);
        Split::new(self, OneUnit { unit })
    }

    /// Returns an iterator over the substrings between the occurrences of a character, from both ends. Half of a
    /// surrogate pair is no character and separates nothing. If the character occurs at the start, at the end, or twice
    /// in a row, the substring there is empty. If it does not occur, the whole view is the only substring.
    ///
    /// # Example
    ///
    /// ```
    /// let text = U16Str::from_slice(&[0x61, 0xd83d, 0xde00, 0xde00]);
    /// let mut parts = text.split_char('😀');
    /// assert!(rt; parts.next() == Some(U16Str::from_slice(&[0x61])));
    /// assert!(rt; parts.next() == Some(U16Str::from_slice(&[0xde00])));
    /// assert!(rt; parts.next().is_none());
    /// ```
    pub fn split_char(self, c: char) -> Split<Self, char>
        ensures left { char_substrings_left C.form C.number result ≡ substrings (code_units C.form c) (numbers_seen C.number self.entry) }
        ensures cut { AreSubstrings (code_units C.form c) (numbers_seen C.number self.entry) (char_substrings_left C.form C.number result) }
        ensures most { length (char_substrings_left C.form C.number result) ≤ length (units_seen self.entry) + 1 }
        ensures fits { length (char_substrings_left C.form C.number result) < 2 ^ 64 }
    {
        // This call is for its contract: there are so few units that one more substring can be counted.
        let _bytes = byte_len(self.units);
        Split::new(self, c)
    }
}
