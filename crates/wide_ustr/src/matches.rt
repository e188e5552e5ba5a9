//! The matches of a needle in a view, with their offsets.
ghost use Rattle.std.specs.Prelude.{◌≡◌, ◌<◌, ◌≤◌, ◌+◌, ◌^◌, ◌∷◌, [], length, map, None, IfNone, IfSome, ⊤};
ghost use Rattle.std.proofs.Props.{props};
ghost use Rattle.std.specs.Iterator.{YieldsFirstBy, YieldsLastBy, at_most, UpTo};
ghost use Rattle.std.specs.Iterator.SizeHint.{IsWithinCount};
ghost use Rattle.std.specs.List.{All};
ghost use Rattle.wide_forms.specs.EncodingForm.{code_units};
ghost use Rattle.wide_search.specs.Cut.{substrings};
ghost use Rattle.wide_ustr.specs.Matched.{AreMatches, matches_in, IsFirstMatch, IsLastMatch};
ghost use Rattle.wide_ustr.specs.View.{units_seen, numbers_seen};

use crate::split::NeedleView;
use crate::view::UStr;
use std::alloc::AllocError;
use std::iter::FusedIterator;
use wide_unit::Unit;

/// A view in which a needle can be found, units or a character, as a part of the view.
///
/// The Rust crate has no such trait. No call allocates.
///
/// # Example
///
/// ```
/// use widestring::ustr::MatchView;
///
/// let list = U16Str::from_slice(&[0x61, 0x3b, 0x62]);
/// let found = list.first_match(';');
/// assert!(rt; found.is_some_and(|(at, found, rest)| at == found.len() && rest.len() == 1));
/// ```
pub trait MatchView<P>: NeedleView<P> {
    /// Finds the first occurrence of the needle. Returns its offset in units, the occurrence as a view, and what follows
    /// it. Returns `None` if the needle does not occur, or has no units.
    fn first_match(self, needle: P) -> Option<(usize, Self, Self)>
        ensures none { IfNone result (substrings (Self.NeedleView.needle_numbers needle) (Self.NeedleView.numbers_seen self) ≡ Self.NeedleView.numbers_seen self ∷ []) }
        ensures some { IfSome result (λ r. IsFirstMatch (Self.NeedleView.needle_numbers needle) (Self.NeedleView.numbers_seen self) r.0 (Self.NeedleView.numbers_seen r.1) (Self.NeedleView.numbers_seen r.2)) };

    /// Returns the number of units of the view.
    fn units_len(self) -> usize
        ensures { result ≡ length (Self.NeedleView.numbers_seen self) };
}

/// A view in which the matches of a needle are the same from either end: those of a character.
///
/// The Rust crate has no such trait. No call allocates.
///
/// # Example
///
/// ```
/// use widestring::ustr::MatchBackView;
///
/// let list = U16Str::from_slice(&[0x61, 0x3b, 0x62, 0x3b]);
/// let found = list.last_match(';');
/// assert!(rt; found.is_some_and(|(before, found)| before.len() == 3 && found.len() == 1));
/// ```
pub trait MatchBackView<P>: MatchView<P> {
    /// Finds the last occurrence of the needle. Returns what is before it, and the occurrence as a view. Returns `None`
    /// if the needle does not occur.
    fn last_match(self, needle: P) -> Option<(Self, Self)>
        ensures none { IfNone result (substrings (Self.MatchView.needle_numbers needle) (Self.MatchView.numbers_seen self) ≡ Self.MatchView.numbers_seen self ∷ []) }
        ensures some { IfSome result (λ r. IsLastMatch (Self.MatchView.needle_numbers needle) (Self.MatchView.numbers_seen self) (Self.MatchView.numbers_seen r.0) (Self.MatchView.numbers_seen r.1)) };
}

/// An iterator over the matches of a needle in a view, from the front, each with its offset in units. Made by
/// [`UStr::match_indices`](crate::UStr::match_indices) and
/// [`UStr::match_indices_char`](crate::UStr::match_indices_char), and by the calls of the other views that have these
/// names. The matches of a character it also finds from the back.
///
/// # Example
///
/// ```
/// let list = U16Str::from_slice(&[0x61, 0x3b, 0x62, 0x3b]);
/// let mut found = list.match_indices_char(';');
/// assert!(rt; found.next_back().is_some_and(|(offset, _)| offset == 3));
/// assert!(rt; found.next_back().is_some_and(|(offset, _)| offset == 1));
/// assert!(rt; found.next_back().is_none());
/// ```
#[derive(Debug)]
pub struct MatchIndices<V: MatchView<P>, P> {
    len: usize,
    rest: Option<V>,
    needle: P,
    ghost within: { IfSome rest (λ view. length (V.numbers_seen view) ≤ len) } by { Prim.hlevel props },
}

impl<P: Copy, V: MatchView<P>> Clone for MatchIndices<V, P> {
    ghost is_clone = { λ s r. r ≡ s };

    ghost is_infallible = { λ _. ⊤ };

    /// Returns a copy that yields the same matches.
    fn clone(&self) -> Result<Self, AllocError> {
        Ok(*self)
    }
}

impl<P: Copy, V: MatchView<P>> Copy for MatchIndices<V, P> {}

impl<P: Copy, V: MatchView<P>> MatchIndices<V, P> {
    ghost use Rattle.wide_ustr.specs.MatchesLeft.{matches_left};

    /// Creates an iterator over the matches of the needle in the view. If the needle has no units, there are none.
    pub fn new(view: V, needle: P) -> Self
        ensures { matches_left result ≡ matches_in (V.needle_numbers needle) (V.numbers_seen view) }
    {
        MatchIndices {
            len: view.units_len(),
            rest: Some(view),
            needle,
        }
    }
}

impl<P: Copy, V: MatchView<P>> Iterator for MatchIndices<V, P> {
    ghost use Rattle.wide_ustr.specs.MatchesLeft.{placed_match, matches_left};

    type Item = (usize, V);

    ghost next_gives = { YieldsFirstBy (placed_match V.numbers_seen) matches_left };

    ghost remaining = { λ s. at_most (length (matches_left s)) };

    /// Returns the next match and its offset in units. It reads the units, vectorized, up to the end of the match, and
    /// may read some after it.
    fn next(&mut self) -> Option<(usize, V)> {
        let view = self.rest?;
        let Some(found) = view.first_match(self.needle) else {
            self.rest = None;
            return None;
        };
        let offset = self.len - view.units_len() + found.0;
        self.rest = Some(found.2);
        Some((offset, found.1))
    }

    /// Returns no bounds, since the number of matches is unknown before the view is read.
    fn size_hint(&self) -> (usize, Option<usize>)
        ensures lower { IsWithinCount result.0 (at_most (length (matches_left self.now))) }
        ensures upper { IfSome result.1 (UpTo (at_most (length (matches_left self.now)))) }
        ensures least { result.0 ≡ 0 }
        ensures most { result.1 ≡ None }
    {
        (0, None)
    }
}

impl<P: Copy, V: MatchBackView<P>> DoubleEndedIterator for MatchIndices<V, P> {
    ghost use Rattle.wide_ustr.specs.MatchesLeft.{placed_match, matches_left};

    ghost next_back_gives = { YieldsLastBy (placed_match V.numbers_seen) matches_left };

    /// Returns the last match that is left, and its offset in units. It reads the units from the back, down to the match,
    /// and may read some before it.
    fn next_back(&mut self) -> Option<(usize, V)> {
        let view = self.rest?;
        let Some(found) = view.last_match(self.needle) else {
            self.rest = None;
            return None;
        };
        self.len = self.len - view.units_len() + found.0.units_len();
        self.rest = Some(found.0);
        Some((self.len, found.1))
    }
}

impl<P: Copy, V: MatchView<P>> FusedIterator for MatchIndices<V, P> {}

/// An iterator over the matches of a needle in a view, from the front. Made by
/// [`UStr::matches`](crate::UStr::matches) and [`UStr::matches_char`](crate::UStr::matches_char), and by the calls of
/// the other views that have these names. The matches of a character it also finds from the back.
///
/// # Example
///
/// ```
/// let list = U16Str::from_slice(&[0x61, 0x3b, 0x62, 0x3b]);
/// assert!(rt; list.matches(U16Str::from_slice(&[0x3b])).count() == 2);
/// ```
#[derive(Debug)]
pub struct Matches<V: MatchView<P>, P> {
    indices: MatchIndices<V, P>,
}

impl<P: Copy, V: MatchView<P>> Clone for Matches<V, P> {
    ghost is_clone = { λ s r. r ≡ s };

    ghost is_infallible = { λ _. ⊤ };

    /// Returns a copy that yields the same matches.
    fn clone(&self) -> Result<Self, AllocError> {
        Ok(*self)
    }
}

impl<P: Copy, V: MatchView<P>> Copy for Matches<V, P> {}

impl<P: Copy, V: MatchView<P>> Matches<V, P> {
    ghost use Rattle.wide_ustr.specs.MatchesLeft.{found_left};

    /// Creates an iterator over the matches of the needle in the view. If the needle has no units, there are none.
    pub fn new(view: V, needle: P) -> Self
        ensures { found_left result ≡ map (λ m. m.1) (matches_in (V.needle_numbers needle) (V.numbers_seen view)) }
    {
        Matches {
            indices: MatchIndices::new(view, needle),
        }
    }
}

impl<P: Copy, V: MatchView<P>> Iterator for Matches<V, P> {
    ghost use Rattle.wide_ustr.specs.MatchesLeft.{found_left};

    type Item = V;

    ghost next_gives = { YieldsFirstBy V.numbers_seen found_left };

    ghost remaining = { λ s. at_most (length (found_left s)) };

    /// Returns the next match. It reads the units, vectorized, up to the end of the match, and may read some after it.
    fn next(&mut self) -> Option<V> {
        let found = self.indices.next()?;
        Some(found.1)
    }

    /// Returns no bounds, since the number of matches is unknown before the view is read.
    fn size_hint(&self) -> (usize, Option<usize>)
        ensures lower { IsWithinCount result.0 (at_most (length (found_left self.now))) }
        ensures upper { IfSome result.1 (UpTo (at_most (length (found_left self.now)))) }
        ensures least { result.0 ≡ 0 }
        ensures most { result.1 ≡ None }
    {
        (0, None)
    }
}

impl<P: Copy, V: MatchBackView<P>> DoubleEndedIterator for Matches<V, P> {
    ghost use Rattle.wide_ustr.specs.MatchesLeft.{found_left};

    ghost next_back_gives = { YieldsLastBy V.numbers_seen found_left };

    /// Returns the last match that is left. It reads the units from the back, down to the match, and may read some before
    /// it.
    fn next_back(&mut self) -> Option<V> {
        let found = self.indices.next_back()?;
        Some(found.1)
    }
}

impl<P: Copy, V: MatchView<P>> FusedIterator for Matches<V, P> {}

impl<'a, C: Unit> MatchView<UStr<'a, C>> for UStr<'_, C> {
    fn first_match(self, needle: UStr<'a, C>) -> Option<(usize, Self, Self)> {
        if needle.is_empty() {
            return None;
        }
        let Some(at) = self.find(needle) else {
            return None;
        };
        let (_, from) = self.split_at(at);
        let (found, rest) = from.split_at(needle.len());
        Some((at, found, rest))
    }

    fn units_len(self) -> usize {
        self.len()
    }
}

impl<C: Unit> MatchView<char> for UStr<'_, C> {
    fn first_match(self, c: char) -> Option<(usize, Self, Self)> {
        let Some(at) = self.find_char(c) else {
            return None;
        };
        let (_, from) = self.split_at(at);
        let (found, rest) = from.split_at(C::char_len(c));
        Some((at, found, rest))
    }

    fn units_len(self) -> usize {
        self.len()
    }
}

impl<C: Unit> MatchBackView<char> for UStr<'_, C> {
    fn last_match(self, c: char) -> Option<(Self, Self)> {
        let Some(at) = self.rfind_char(c) else {
            return None;
        };
        let (before, from) = self.split_at(at);
        let (found, _) = from.split_at(C::char_len(c));
        Some((before, found))
    }
}

impl<C: Unit> UStr<'_, C> {
    ghost use Rattle.wide_ustr.specs.MatchesLeft.{matches_left, found_left};

    /// Returns an iterator over the matches of the needle, from the front, each with its offset in units. Each match is
    /// the first occurrence after the match before, so matches do not overlap. An empty needle has no match.
    ///
    /// # Example
    ///
    /// ```
    /// let text = U16Str::from_slice(&[0x61, 0x61, 0x61, 0xd800, 0x61, 0x61]);
    /// let mut found = text.match_indices(U16Str::from_slice(&[0x61, 0x61]));
    /// assert!(rt; found.next() == Some((0, U16Str::from_slice(&[0x61, 0x61]))));
    /// assert!(rt; found.next() == Some((4, U16Str::from_slice(&[0x61, 0x61]))));
    /// assert!(rt; found.next().is_none());
    /// ```
    pub fn match_indices<'p>(self, needle: UStr<'p, C>) -> MatchIndices<Self, UStr<'p, C>>
        ensures left { matches_left result ≡ matches_in (numbers_seen C.number needle.entry) (numbers_seen C.number self.entry) }
        ensures are { 0 < length (units_seen needle.entry) → AreMatches (numbers_seen C.number needle.entry) (numbers_seen C.number self.entry) 0 (matches_left result) }
        ensures empty { length (units_seen needle.entry) ≡ 0 → matches_left result ≡ [] }
        ensures within { All (λ m. m.0 + length (units_seen needle.entry) ≤ length (units_seen self.entry)) (matches_left result) }
        ensures most { length (matches_left result) ≤ length (units_seen self.entry) }
        ensures fits { length (matches_left result) < 2 ^ 64 }
    {
        // This call is for its contract: a length is below 2 ^ 64, so the number of matches fits in a `usize`.
        let _units = self.len();
        MatchIndices::new(self, needle)
    }

    /// Returns an iterator over the matches of a character, from both ends, each with its offset in units. Half of a
    /// surrogate pair is no character and matches none.
    ///
    /// # Example
    ///
    /// ```
    /// let text = U16Str::from_slice(&[0xd83d, 0xde00, 0xd83d, 0x21, 0xd83d, 0xde00]);
    /// let mut found = text.match_indices_char('😀');
    /// assert!(rt; found.next().is_some_and(|(offset, _)| offset == 0));
    /// assert!(rt; found.next().is_some_and(|(offset, _)| offset == 4));
    /// assert!(rt; found.next().is_none());
    /// ```
    pub fn match_indices_char(self, c: char) -> MatchIndices<Self, char>
        ensures left { matches_left result ≡ matches_in (code_units C.form c) (numbers_seen C.number self.entry) }
        ensures are { AreMatches (code_units C.form c) (numbers_seen C.number self.entry) 0 (matches_left result) }
        ensures within { All (λ m. m.0 + length (code_units C.form c) ≤ length (units_seen self.entry)) (matches_left result) }
        ensures most { length (matches_left result) ≤ length (units_seen self.entry) }
        ensures fits { length (matches_left result) < 2 ^ 64 }
    {
        // This call is for its contract: a length is below 2 ^ 64, so the number of matches fits in a `usize`.
        let _units = self.len();
        MatchIndices::new(self, c)
    }

    /// Returns an iterator over the matches of the needle, from the front, as parts of the view. They are those of
    /// [`UStr::match_indices`], so their number is how often the needle occurs without overlapping.
    ///
    /// # Example
    ///
    /// ```
    /// let text = U16Str::from_slice(&[0x61, 0x61, 0x61, 0xd800, 0x61, 0x61]);
    /// assert!(rt; text.matches(U16Str::from_slice(&[0x61, 0x61])).count() == 2);
    /// ```
    pub fn matches<'p>(self, needle: UStr<'p, C>) -> Matches<Self, UStr<'p, C>>
        ensures left { found_left result ≡ map (λ m. m.1) (matches_in (numbers_seen C.number needle.entry) (numbers_seen C.number self.entry)) }
        ensures count { length (found_left result) + 1 ≡ length (substrings (numbers_seen C.number needle.entry) (numbers_seen C.number self.entry)) }
        ensures most { length (found_left result) ≤ length (units_seen self.entry) }
        ensures fits { length (found_left result) < 2 ^ 64 }
    {
        // This call is for its contract: a length is below 2 ^ 64, so the number of matches fits in a `usize`.
        let _units = self.len();
        Matches::new(self, needle)
    }

    /// Returns an iterator over the matches of a character, from both ends, as parts of the view. Half of a surrogate
    /// pair is no character and matches none.
    ///
    /// # Example
    ///
    /// ```
    /// let text = U16Str::from_slice(&[0xd83d, 0xde00, 0xd83d, 0x21, 0xd83d, 0xde00]);
    /// assert!(rt; text.matches_char('😀').count() == 2);
    /// ```
    pub fn matches_char(self, c: char) -> Matches<Self, char>
        ensures left { found_left result ≡ map (λ m. m.1) (matches_in (code_units C.form c) (numbers_seen C.number self.entry)) }
        ensures count { length (found_left result) + 1 ≡ length (substrings (code_units C.form c) (numbers_seen C.number self.entry)) }
        ensures most { length (found_left result) ≤ length (units_seen self.entry) }
        ensures fits { length (found_left result) < 2 ^ 64 }
    {
        // This call is for its contract: a length is below 2 ^ 64, so the number of matches fits in a `usize`.
        let _units = self.len();
        Matches::new(self, c)
    }
}
