//! The substrings of a view from the back. A view that is read from its end is split from the front, by the same loops
//! as any other.
ghost use Rattle.std.specs.Prelude.{◌≡◌, ◌<◌, ◌≤◌, ◌+◌, ◌^◌, ◌∷◌, ℕ, List, [], length, map, reverse, None, IfNone, IfSome};
ghost use Rattle.std.specs.Iterator.{YieldsFirstBy, at_most, UpTo};
ghost use Rattle.std.specs.Iterator.SizeHint.{IsWithinCount};
ghost use Rattle.wide_forms.specs.EncodingForm.{code_units};
ghost use Rattle.wide_search.specs.Cut.{substrings};
ghost use Rattle.wide_search.specs.Laws.Cuts.{some-substrings};
ghost use Rattle.wide_ustr.specs.Kept.{joined, limited, substrings_kept, IsFirstCut, IsFirstKept};
ghost use Rattle.wide_ustr.specs.KeptLaws.{kept-whole, kept-some};
ghost use Rattle.wide_ustr.specs.SplitBack.{substrings_back, rsplitn, seen_back, rsplit_left, rsplitn_left, unit_rsplit_left, char_rsplit_left, unit_rsplitn_left, char_rsplitn_left};
ghost use Rattle.wide_ustr.specs.View.{units_seen, numbers_seen};

use crate::split::{Split, SplitView};
use crate::split_n::SplitN;
use crate::view::UStr;
use std::iter::FusedIterator;
use wide_from_units::byte_len;
use wide_unit::Unit;

/// A view that can be split at a separator from the back: at units, at a character, or at any character of a set.
///
/// The Rust crate has no such trait. No call allocates.
///
/// # Example
///
/// ```
/// use widestring::ustr::BackView;
///
/// let path = U16Str::from_slice(&[0x61, 0x2f, 0x62, 0x2f, 0x63]);
/// let parts = path.cut_last('/');
/// assert!(rt; parts.is_some_and(|(folder, file)| folder.len() == 3 && file.len() == 1));
/// ```
pub trait BackView<P>: SplitView<P> {
    // How units are split that are read from their end.
    ghost cut_back: { P → List ℕ → List (List ℕ) };

    // There is at least one substring.
    ghost some_back: { (separator : P) (us : List ℕ) → 0 < length (cut_back separator us) };

    // These substrings, each with the separator that ends it.
    ghost kept_back: { P → List ℕ → List (List ℕ) };

    // Joined, these are all units.
    ghost kept_back_whole: { (separator : P) (us : List ℕ) → joined (kept_back separator us) ≡ us };

    // There is at least one of them.
    ghost some_kept_back: { (separator : P) (us : List ℕ) → 0 < length (kept_back separator us) };

    /// Splits the view at the last occurrence of the separator, into what is before it and what is after it. Returns
    /// `None` if the separator does not occur, or has no units.
    fn cut_last(self, needle: P) -> Option<(Self, Self)>
        ensures none { IfNone result (cut_back needle (reverse (Self.SplitView.numbers_seen self)) ≡ reverse (Self.SplitView.numbers_seen self) ∷ []) }
        ensures some { IfSome result (λ r. IsFirstCut (cut_back needle) (reverse (Self.SplitView.numbers_seen self)) (reverse (Self.SplitView.numbers_seen r.1)) (reverse (Self.SplitView.numbers_seen r.0))) }
        ensures kept_none { IfNone result (kept_back needle (reverse (Self.SplitView.numbers_seen self)) ≡ reverse (Self.SplitView.numbers_seen self) ∷ []) }
        ensures kept_some { IfSome result (λ r. IsFirstKept (kept_back needle) (reverse (Self.SplitView.numbers_seen self)) (reverse (Self.SplitView.numbers_seen r.1)) (reverse (Self.SplitView.numbers_seen r.0))) };
}

// A view that is read from its end.
#[derive(Clone, Copy, Debug, Drop)]
pub struct Back<V> {
    view: V,
}

impl<P: Copy, V: BackView<P>> SplitView<P> for Back<V> {
    ghost numbers_seen = { seen_back V.numbers_seen };

    ghost cut_at = { V.cut_back };

    ghost some_substrings = { V.some_back };

    ghost kept_at = { V.kept_back };

    ghost kept_whole = { V.kept_back_whole };

    ghost some_kept = { V.some_kept_back };

    fn cut_first(self, needle: P) -> Option<(Self, Self)> {
        let Some(parts) = self.view.cut_last(needle) else {
            return None;
        };
        Some((Back { view: parts.1 }, Back { view: parts.0 }))
    }

    fn has_no_units(self) -> bool {
        self.view.has_no_units()
    }
}

/// An iterator over the substrings of a view between the occurrences of a separator, from the back. Made by
/// [`UStr::rsplit`](crate::UStr::rsplit) and [`UStr::rsplit_char`](crate::UStr::rsplit_char), and by the calls of the
/// other views that have these names.
///
/// # Example
///
/// ```
/// let path = U16Str::from_slice(&[0x43, 0x3a, 0x5c, 0x74, 0x5c, 0xe9]);
/// let mut parts = path.rsplit(U16Str::from_slice(&[0x5c]));
/// assert!(rt; parts.next() == Some(U16Str::from_slice(&[0xe9])));
/// ```
#[derive(Clone, Copy, Debug, Drop)]
pub struct RSplit<V, P> {
    all: Split<Back<V>, P>,
}

impl<P: Copy, V: BackView<P>> RSplit<V, P> {
    /// Creates an iterator over the substrings of the view from the back. If the separator has no units, the whole view
    /// is the only substring.
    pub fn new(view: V, needle: P) -> Self
        ensures { rsplit_left V.numbers_seen V.cut_back result ≡ map reverse (V.cut_back needle (reverse (V.numbers_seen view))) }
    {
        RSplit {
            all: Split::new(Back { view }, needle),
        }
    }
}

impl<P: Copy, V: BackView<P>> Iterator for RSplit<V, P> {
    type Item = V;

    ghost next_gives = { YieldsFirstBy V.numbers_seen (rsplit_left V.numbers_seen V.cut_back) };

    ghost remaining = { λ s. at_most (length (rsplit_left V.numbers_seen V.cut_back s)) };

    /// Returns the next substring. It reads the units from the back, vectorized, down to those of the separator that
    /// begins the substring, and may read some before them.
    fn next(&mut self) -> Option<V> {
        let part = self.all.next()?;
        Some(part.view)
    }

    /// Returns no bounds, since the number of substrings is unknown before the view is read.
    fn size_hint(&self) -> (usize, Option<usize>)
        ensures lower { IsWithinCount result.0 (at_most (length (rsplit_left V.numbers_seen V.cut_back self.now))) }
        ensures upper { IfSome result.1 (UpTo (at_most (length (rsplit_left V.numbers_seen V.cut_back self.now)))) }
        ensures least { result.0 ≡ 0 }
        ensures most { result.1 ≡ None }
    {
        (0, None)
    }
}

impl<P: Copy, V: BackView<P>> FusedIterator for RSplit<V, P> {}

/// An iterator over at most a number of substrings of a view between the occurrences of a separator, from the back. The
/// last one of that number is all that is left of the view, unsplit. Made by
/// [`UStr::rsplitn`](crate::UStr::rsplitn) and [`UStr::rsplitn_char`](crate::UStr::rsplitn_char), and by the calls of
/// the other views that have these names.
///
/// # Example
///
/// ```
/// let path = U16Str::from_slice(&[0x61, 0x2f, 0x62, 0x2f, 0x63]);
/// let parts = path.rsplitn(2, U16Str::from_slice(&[0x2f]));
/// assert!(rt; parts.last().is_some_and(|folder| folder.len() == 3));
/// ```
#[derive(Clone, Copy, Debug, Drop)]
pub struct RSplitN<V, P> {
    all: SplitN<Back<V>, P>,
}

impl<P: Copy, V: BackView<P>> RSplitN<V, P> {
    /// Creates an iterator over the last substrings of the view, at most `count`, from the back. The last one of that
    /// number is all that is left of the view. If the separator has no units, the whole view is the only substring.
    pub fn new(view: V, needle: P, count: usize) -> Self
        ensures { rsplitn_left V.numbers_seen V.cut_back V.kept_back result ≡ map reverse (limited count (V.cut_back needle (reverse (V.numbers_seen view))) (V.kept_back needle (reverse (V.numbers_seen view)))) }
    {
        RSplitN {
            all: SplitN::new(Back { view }, needle, count),
        }
    }
}

impl<P: Copy, V: BackView<P>> Iterator for RSplitN<V, P> {
    type Item = V;

    ghost next_gives = { YieldsFirstBy V.numbers_seen (rsplitn_left V.numbers_seen V.cut_back V.kept_back) };

    ghost remaining = { λ s. at_most (length (rsplitn_left V.numbers_seen V.cut_back V.kept_back s)) };

    /// Returns the next substring. It reads the units from the back, vectorized, down to those of the separator that
    /// begins the substring, and may read some before them. For the last one of the number it reads none.
    fn next(&mut self) -> Option<V> {
        let part = self.all.next()?;
        Some(part.view)
    }

    /// Returns no bounds, since the number of substrings is unknown before the view is read.
    fn size_hint(&self) -> (usize, Option<usize>)
        ensures lower { IsWithinCount result.0 (at_most (length (rsplitn_left V.numbers_seen V.cut_back V.kept_back self.now))) }
        ensures upper { IfSome result.1 (UpTo (at_most (length (rsplitn_left V.numbers_seen V.cut_back V.kept_back self.now)))) }
        ensures least { result.0 ≡ 0 }
        ensures most { result.1 ≡ None }
    {
        (0, None)
    }
}

impl<P: Copy, V: BackView<P>> FusedIterator for RSplitN<V, P> {}

impl<'a, C: Unit> BackView<UStr<'a, C>> for UStr<'_, C> {
    ghost cut_back = { λ needle. substrings (reverse (numbers_seen C.number needle)) };

    ghost some_back = { λ needle us. some-substrings (reverse (numbers_seen C.number needle)) us };

    ghost kept_back = { λ needle. substrings_kept (reverse (numbers_seen C.number needle)) };

    ghost kept_back_whole = { λ needle us. kept-whole (reverse (numbers_seen C.number needle)) us };

    ghost some_kept_back = { λ needle us. kept-some (reverse (numbers_seen C.number needle)) us };

    fn cut_last(self, needle: UStr<'a, C>) -> Option<(Self, Self)> {
        if needle.is_empty() {
            return None;
        }
        self.rsplit_once(needle)
    }
}

impl<C: Unit> BackView<char> for UStr<'_, C> {
    ghost cut_back = { λ needle. substrings (reverse (code_units C.form needle)) };

    ghost some_back = { λ needle us. some-substrings (reverse (code_units C.form needle)) us };

    ghost kept_back = { λ needle. substrings_kept (reverse (code_units C.form needle)) };

    ghost kept_back_whole = { λ needle us. kept-whole (reverse (code_units C.form needle)) us };

    ghost some_kept_back = { λ needle us. kept-some (reverse (code_units C.form needle)) us };

    fn cut_last(self, c: char) -> Option<(Self, Self)> {
        let Some(at) = self.rfind_char(c) else {
            return None;
        };
        let (prefix, _) = self.split_at(at);
        let (_, rest) = self.split_at(at + C::char_len(c));
        Some((prefix, rest))
    }
}

impl<C: Unit> UStr<'_, C> {
    /// Returns an iterator over the substrings between the occurrences of the separator, from the back. Each occurrence
    /// is the last one before the one before, so occurrences do not overlap. If the separator can overlap itself, they
    /// may be others than those of [`UStr::split`]. If it does not occur, or is empty, the whole view is the only
    /// substring.
    ///
    /// # Example
    ///
    /// ```
    /// let path = U16Str::from_slice(&[0x61, 0x2f, 0xd800, 0x2f]);
    /// let mut parts = path.rsplit(U16Str::from_slice(&[0x2f]));
    /// assert!(rt; parts.next().is_some_and(|part| part.is_empty()));
    /// assert!(rt; parts.next() == Some(U16Str::from_slice(&[0xd800])));
    /// assert!(rt; parts.next() == Some(U16Str::from_slice(&[0x61])));
    /// assert!(rt; parts.next().is_none());
    /// ```
    pub fn rsplit<'p>(self, needle: UStr<'p, C>) -> RSplit<Self, UStr<'p, C>>
        ensures left { unit_rsplit_left C.number result ≡ substrings_back (numbers_seen C.number needle.entry) (numbers_seen C.number self.entry) }
        ensures most { length (unit_rsplit_left C.number result) ≤ length (units_seen self.entry) + 1 }
        ensures fits { length (unit_rsplit_left C.number result) < 2 ^ 64 }
    {
        // This call is for its contract: there are so few units that one more substring can be counted.
        let _bytes = byte_len(self.units);
        RSplit::new(self, needle)
    }

    /// Returns an iterator over the substrings between the occurrences of a character, from the back. Half of a
    /// surrogate pair is no character and separates nothing. If the character does not occur, the whole view is the only
    /// substring.
    ///
    /// # Example
    ///
    /// ```
    /// let path = U16Str::from_slice(&[0x61, 0x2f, 0xd800]);
    /// let mut parts = path.rsplit_char('/');
    /// assert!(rt; parts.next() == Some(U16Str::from_slice(&[0xd800])));
    /// assert!(rt; parts.next() == Some(U16Str::from_slice(&[0x61])));
    /// assert!(rt; parts.next().is_none());
    /// ```
    pub fn rsplit_char(self, c: char) -> RSplit<Self, char>
        ensures left { char_rsplit_left C.form C.number result ≡ substrings_back (code_units C.form c) (numbers_seen C.number self.entry) }
        ensures most { length (char_rsplit_left C.form C.number result) ≤ length (units_seen self.entry) + 1 }
        ensures fits { length (char_rsplit_left C.form C.number result) < 2 ^ 64 }
    {
        // This call is for its contract: there are so few units that one more substring can be counted.
        let _bytes = byte_len(self.units);
        RSplit::new(self, c)
    }

    /// Returns an iterator over the last substrings between the occurrences of the separator, at most `count`, from the
    /// back. They are those of [`UStr::rsplit`], but the last one of that number is all that is left of the view, with
    /// the separators in it. If `count` is 0 there are none.
    ///
    /// # Example
    ///
    /// ```
    /// let path = U16Str::from_slice(&[0x61, 0x2f, 0x62, 0x2f, 0x63]);
    /// let mut parts = path.rsplitn(2, U16Str::from_slice(&[0x2f]));
    /// assert!(rt; parts.next() == Some(U16Str::from_slice(&[0x63])));
    /// assert!(rt; parts.next() == Some(U16Str::from_slice(&[0x61, 0x2f, 0x62])));
    /// assert!(rt; parts.next().is_none());
    /// ```
    pub fn rsplitn<'p>(self, count: usize, needle: UStr<'p, C>) -> RSplitN<Self, UStr<'p, C>>
        ensures left { unit_rsplitn_left C.number result ≡ rsplitn count (numbers_seen C.number needle.entry) (numbers_seen C.number self.entry) }
        ensures whole { count ≡ 1 → unit_rsplitn_left C.number result ≡ numbers_seen C.number self.entry ∷ [] }
        ensures most { length (unit_rsplitn_left C.number result) ≤ count }
        ensures fits { length (unit_rsplitn_left C.number result) < 2 ^ 64 }
    {
        RSplitN::new(self, needle, count)
    }

    /// Returns an iterator over the last substrings between the occurrences of a character, at most `count`, from the
    /// back. They are those of [`UStr::rsplit_char`], but the last one of that number is all that is left of the view,
    /// with the separators in it. If `count` is 0 there are none.
    ///
    /// # Example
    ///
    /// ```
    /// let name = U16Str::from_slice(&[0x61, 0x2e, 0x62, 0x2e, 0x63]);
    /// let mut parts = name.rsplitn_char(2, '.');
    /// assert!(rt; parts.next() == Some(U16Str::from_slice(&[0x63])));
    /// assert!(rt; parts.next() == Some(U16Str::from_slice(&[0x61, 0x2e, 0x62])));
    /// assert!(rt; parts.next().is_none());
    /// ```
    pub fn rsplitn_char(self, count: usize, c: char) -> RSplitN<Self, char>
        ensures left { char_rsplitn_left C.form C.number result ≡ rsplitn count (code_units C.form c) (numbers_seen C.number self.entry) }
        ensures whole { count ≡ 1 → char_rsplitn_left C.form C.number result ≡ numbers_seen C.number self.entry ∷ [] }
        ensures most { length (char_rsplitn_left C.form C.number result) ≤ count }
        ensures fits { length (char_rsplitn_left C.form C.number result) < 2 ^ 64 }
    {
        RSplitN::new(self, c, count)
    }
}
