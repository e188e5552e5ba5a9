//! The substrings of a view that keep the separators after them.
ghost use Rattle.std.specs.Prelude.{◌≡◌, ◌<◌, ◌≤◌, ◌+◌, ◌^◌, ◌∷◌, ◌++◌, [], length, None, IfNone, IfSome};
ghost use Rattle.std.specs.Iterator.{YieldsFirstBy, YieldsLastBy, at_most, UpTo};
ghost use Rattle.std.specs.Iterator.SizeHint.{IsWithinCount};
ghost use Rattle.wide_forms.specs.EncodingForm.{code_units};
ghost use Rattle.wide_search.specs.Cut.{substrings};
ghost use Rattle.wide_ustr.specs.Kept.{joined, IsFirstCut, IsLastCut};
ghost use Rattle.wide_ustr.specs.SplitInclusive.{inclusive, inclusive_left, unit_inclusive_left, char_inclusive_left};
ghost use Rattle.wide_ustr.specs.SplitMore.{terminated, terminated_at};
ghost use Rattle.wide_ustr.specs.View.{units_seen, numbers_seen};

use crate::split::SplitView;
use crate::view::UStr;
use std::iter::FusedIterator;
use wide_from_units::byte_len;
use wide_unit::Unit;

/// A view that can be split after a separator: after units, after a character, or after any character of a set.
///
/// The Rust crate has no such trait. No call allocates.
///
/// # Example
///
/// ```
/// use widestring::ustr::InclusiveView;
///
/// let list = U16Str::from_slice(&[0x61, 0x3b, 0x62]);
/// let parts = list.cut_after(';');
/// assert!(rt; parts.is_some_and(|(first, rest)| first.len() == 2 && rest.len() == 1));
/// ```
pub trait InclusiveView<P>: SplitView<P> {
    /// Splits the view after the first occurrence of the separator, into what ends with it and what is after it. Returns
    /// `None` if the separator does not occur, or has no units.
    fn cut_after(self, needle: P) -> Option<(Self, Self)>
        ensures none { IfNone result (Self.SplitView.kept_at needle (Self.SplitView.numbers_seen self) ≡ Self.SplitView.numbers_seen self ∷ []) }
        ensures some { IfSome result (λ r. IsFirstCut (Self.SplitView.kept_at needle) (Self.SplitView.numbers_seen self) (Self.SplitView.numbers_seen r.0) (Self.SplitView.numbers_seen r.1)) };
}

/// A view that is split after a separator into the same substrings from either end: after a character, or after any
/// character of a set.
///
/// The Rust crate has no such trait. No call allocates.
///
/// # Example
///
/// ```
/// use widestring::ustr::InclusiveBackView;
///
/// let list = U16Str::from_slice(&[0x61, 0x3b, 0x62, 0x3b]);
/// let parts = list.cut_off_inclusive(';');
/// assert!(rt; parts.is_some_and(|(rest, last)| rest.len() == 2 && last.len() == 2));
/// ```
pub trait InclusiveBackView<P>: InclusiveView<P> {
    /// Cuts off the last substring, which ends with the separator if the view does. Returns what is before it, which
    /// ends with a separator, and the substring. Returns `None` if no separator is before it.
    fn cut_off_inclusive(self, needle: P) -> Option<(Self, Self)>
        ensures none { IfNone result (terminated_at Self.InclusiveView.kept_at needle (Self.InclusiveView.numbers_seen self) ≡ terminated (Self.InclusiveView.numbers_seen self ∷ [])) }
        ensures some { IfSome result (λ r. IsLastCut (terminated_at Self.InclusiveView.kept_at needle) (Self.InclusiveView.numbers_seen self) (Self.InclusiveView.numbers_seen r.0) (Self.InclusiveView.numbers_seen r.1)) };
}

/// An iterator over the substrings of a view that end after an occurrence of a separator or at the end, from the front.
/// Made by [`UStr::split_inclusive`](crate::UStr::split_inclusive) and
/// [`UStr::split_inclusive_char`](crate::UStr::split_inclusive_char), and by the calls of the other views that have
/// these names. At a character it also goes from the back.
///
/// # Example
///
/// ```
/// let list = U16Str::from_slice(&[0x61, 0x3b, 0x62, 0x3b]);
/// let mut parts = list.split_inclusive_char(';');
/// assert!(rt; parts.next_back() == Some(U16Str::from_slice(&[0x62, 0x3b])));
/// assert!(rt; parts.count() == 1);
/// ```
#[derive(Clone, Copy, Debug, Drop)]
pub struct SplitInclusive<V, P> {
    rest: Option<V>,
    needle: P,
}

impl<P: Copy, V: InclusiveView<P>> SplitInclusive<V, P> {
    /// Creates an iterator over the substrings of the view with the separators after them.
    pub fn new(view: V, needle: P) -> Self
        ensures { inclusive_left V.numbers_seen V.kept_at result ≡ terminated (V.kept_at needle (V.numbers_seen view)) }
    {
        SplitInclusive {
            rest: Some(view),
            needle,
        }
    }
}

impl<P: Copy, V: InclusiveView<P>> Iterator for SplitInclusive<V, P> {
    type Item = V;

    ghost next_gives = { YieldsFirstBy V.numbers_seen (inclusive_left V.numbers_seen V.kept_at) };

    ghost remaining = { λ s. at_most (length (inclusive_left V.numbers_seen V.kept_at s)) };

    /// Returns the next substring. It reads the units, vectorized, up to those of the separator that ends the
    /// substring, and may read some after them.
    fn next(&mut self) -> Option<V> {
        let view = self.rest?;
        let Some((substring, rest)) = view.cut_after(self.needle) else {
            self.rest = None;
            if view.has_no_units() {
                return None;
            }
            return Some(view);
        };
        self.rest = Some(rest);
        Some(substring)
    }

    /// Returns no bounds, since the number of substrings is unknown before the view is read.
    fn size_hint(&self) -> (usize, Option<usize>)
        ensures lower { IsWithinCount result.0 (at_most (length (inclusive_left V.numbers_seen V.kept_at self.now))) }
        ensures upper { IfSome result.1 (UpTo (at_most (length (inclusive_left V.numbers_seen V.kept_at self.now)))) }
        ensures least { result.0 ≡ 0 }
        ensures most { result.1 ≡ None }
    {
        (0, None)
    }
}

impl<P: Copy, V: InclusiveBackView<P>> DoubleEndedIterator for SplitInclusive<V, P> {
    ghost next_back_gives = { YieldsLastBy V.numbers_seen (inclusive_left V.numbers_seen V.kept_at) };

    /// Returns the last substring that is left. It reads the units from the back, down to those of the separator before
    /// the substring, and may read some before them.
    fn next_back(&mut self) -> Option<V> {
        let view = self.rest?;
        let Some((rest, last)) = view.cut_off_inclusive(self.needle) else {
            self.rest = None;
            if view.has_no_units() {
                return None;
            }
            return Some(view);
        };
        self.rest = Some(rest);
        Some(last)
    }
}

impl<P: Copy, V: InclusiveView<P>> FusedIterator for SplitInclusive<V, P> {}

impl<'a, C: Unit> InclusiveView<UStr<'a, C>> for UStr<'_, C> {
    fn cut_after(self, needle: UStr<'a, C>) -> Option<(Self, Self)> {
        if needle.is_empty() {
            return None;
        }
        let Some(at) = self.find(needle) else {
            return None;
        };
        Some(self.split_at(at + needle.len()))
    }
}

impl<C: Unit> InclusiveView<char> for UStr<'_, C> {
    fn cut_after(self, c: char) -> Option<(Self, Self)> {
        let Some(at) = self.find_char(c) else {
            return None;
        };
        Some(self.split_at(at + C::char_len(c)))
    }
}

impl<C: Unit> InclusiveBackView<char> for UStr<'_, C> {
    fn cut_off_inclusive(self, c: char) -> Option<(Self, Self)> {
        // A separator at the end of the view has nothing after it.
        let (body, _) = self.split_at(self.len().saturating_sub(1));
        let Some(at) = body.rfind_char(c) else {
            return None;
        };
        Some(self.split_at(at + C::char_len(c)))
    }
}

impl<C: Unit> UStr<'_, C> {
    /// Returns an iterator over the substrings that end after an occurrence of the separator or at the end of the view,
    /// from the front. They are those of [`UStr::split`], each with the separator after it, and without the last one if
    /// that is empty.
    ///
    /// # Example
    ///
    /// ```
    /// let list = U16Str::from_slice(&[0x61, 0x3b, 0x3b, 0xd800]);
    /// let mut parts = list.split_inclusive(U16Str::from_slice(&[0x3b]));
    /// assert!(rt; parts.next() == Some(U16Str::from_slice(&[0x61, 0x3b])));
    /// assert!(rt; parts.next() == Some(U16Str::from_slice(&[0x3b])));
    /// assert!(rt; parts.next() == Some(U16Str::from_slice(&[0xd800])));
    /// assert!(rt; parts.next().is_none());
    /// ```
    pub fn split_inclusive<'p>(self, needle: UStr<'p, C>) -> SplitInclusive<Self, UStr<'p, C>>
        ensures left { unit_inclusive_left C.number result ≡ inclusive (numbers_seen C.number needle.entry) (substrings (numbers_seen C.number needle.entry) (numbers_seen C.number self.entry)) }
        ensures joined { joined (unit_inclusive_left C.number result) ≡ numbers_seen C.number self.entry }
        ensures most { length (unit_inclusive_left C.number result) ≤ length (units_seen self.entry) + 1 }
        ensures fits { length (unit_inclusive_left C.number result) < 2 ^ 64 }
    {
        // This call is for its contract: there are so few units that one more substring can be counted.
        let _bytes = byte_len(self.units);
        SplitInclusive::new(self, needle)
    }

    /// Returns an iterator over the substrings that end after an occurrence of the character or at the end of the view,
    /// from both ends. They are those of [`UStr::split_char`], each with the character after it, and without the last
    /// one if that is empty.
    ///
    /// # Example
    ///
    /// ```
    /// let list = U16Str::from_slice(&[0x61, 0x3b, 0xd800, 0x3b]);
    /// let mut parts = list.split_inclusive_char(';');
    /// assert!(rt; parts.next() == Some(U16Str::from_slice(&[0x61, 0x3b])));
    /// assert!(rt; parts.next() == Some(U16Str::from_slice(&[0xd800, 0x3b])));
    /// assert!(rt; parts.next().is_none());
    /// ```
    pub fn split_inclusive_char(self, c: char) -> SplitInclusive<Self, char>
        ensures left { char_inclusive_left C.form C.number result ≡ inclusive (code_units C.form c) (substrings (code_units C.form c) (numbers_seen C.number self.entry)) }
        ensures joined { joined (char_inclusive_left C.form C.number result) ≡ numbers_seen C.number self.entry }
        ensures most { length (char_inclusive_left C.form C.number result) ≤ length (units_seen self.entry) + 1 }
        ensures fits { length (char_inclusive_left C.form C.number result) < 2 ^ 64 }
    {
        // This call is for its contract: there are so few units that one more substring can be counted.
        let _bytes = byte_len(self.units);
        SplitInclusive::new(self, c)
    }
}
