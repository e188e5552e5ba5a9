//! The lines of a view.
ghost use Rattle.std.specs.Prelude.{◌≡◌, ◌-◌, ◌<◌, ◌≤◌, ◌^◌, ◌∷◌, ℕ, List, [], length, map, None, IfNone, IfSome};
ghost use Rattle.std.specs.Iterator.{YieldsFirstBy, at_most, UpTo};
ghost use Rattle.std.specs.Iterator.SizeHint.{IsWithinCount};
ghost use Rattle.wide_forms.specs.Segmentation.{Item};
ghost use Rattle.wide_forms.specs.Items.{items};
ghost use Rattle.wide_forms.specs.EncodingForm.{EncodingForm};
ghost use Rattle.wide_forms.specs.Lines.{lines_of, TakesLine};
ghost use Rattle.wide_ustr.specs.Lines.{lines_left};

use crate::view::UStr;
use std::iter::FusedIterator;
use wide_unit::split_line;
use wide_utferror::FaultUnit;

/// A view that can be split into lines.
///
/// The Rust crate has no such trait. No call allocates.
///
/// # Example
///
/// ```
/// use widestring::ustr::LineView;
///
/// let text = U16Str::from_slice(&[0x48, 0x69, 0xd, 0xa, 0x21]);
/// let line = U16Str::from_slice(&[0x48, 0x69]);
/// assert!(rt; text.first_line() == Some((line, U16Str::from_slice(&[0x21]))));
/// ```
pub trait LineView: Copy {
    // The characters of the view, and its units that belong to none.
    ghost items_seen: { Self → List Item };

    // The encoding form of the view's units.
    ghost form: { EncodingForm };

    // The number of the view's units.
    ghost count: { Self → ℕ };

    /// Returns the length in units.
    fn count_units(self) -> usize
        ensures { result ≡ count self };

    /// Splits off the first line, and returns it and the view after it. A line feed (U+000A) ends the line, together
    /// with one carriage return (U+000D) right before it, if there is one. Neither is in the line. Returns `None` if
    /// the view has no units. The view after the line is shorter, so a loop over the rest ends.
    fn first_line(self) -> Option<(Self, Self)>
        ensures none { IfNone result (lines_of (items_seen self) ≡ []) }
        ensures some { IfSome result (λ r. lines_of (items_seen self) ≡ items_seen r.0 ∷ lines_of (items_seen r.1)) }
        ensures placed { IfSome result (λ r. TakesLine form (items_seen self) (items_seen r.0) (items_seen r.1) (count self - count r.1)) }
        ensures shorter { IfSome result (λ r. count r.1 < count self) };
}

/// An iterator over the lines of a view, from the front. Made by [`UStr::lines_lossy`](crate::UStr::lines_lossy) and by
/// `lines` of well-formed views.
///
/// # Example
///
/// ```
/// let mut lines = U16Str::from_slice(&[0x48, 0x69, 0xa, 0xa]).lines_lossy();
/// assert!(rt; lines.next() == Some(U16Str::from_slice(&[0x48, 0x69])));
/// assert!(rt; lines.next().is_some_and(|line| line.is_empty()));
/// assert!(rt; lines.next().is_none());
/// ```
#[derive(Clone, Debug, Drop)]
pub struct Lines<V> {
    rest: V,
}

impl<V: LineView> Lines<V> {
    /// Creates an iterator over the lines of the view.
    pub fn new(view: V) -> Self
        ensures { lines_left V.items_seen result ≡ lines_of (V.items_seen view) }
    {
        Lines { rest: view }
    }
}

impl<V: LineView> Iterator for Lines<V> {
    type Item = V;

    ghost next_gives = { YieldsFirstBy V.items_seen (lines_left V.items_seen) };

    ghost remaining = { λ s. at_most (length (lines_left V.items_seen s)) };

    /// Returns the next line. It reads the units, vectorized, up to the block that holds the line feed which ends the
    /// line.
    fn next(&mut self) -> Option<V> {
        let (line, rest) = self.rest.first_line()?;
        self.rest = rest;
        Some(line)
    }

    /// Returns no bounds, since the number of lines is unknown before the view is read.
    fn size_hint(&self) -> (usize, Option<usize>)
        ensures lower { IsWithinCount result.0 (at_most (length (lines_left V.items_seen self.now))) }
        ensures upper { IfSome result.1 (UpTo (at_most (length (lines_left V.items_seen self.now)))) }
        ensures least { result.0 ≡ 0 }
        ensures most { result.1 ≡ None }
    {
        (0, None)
    }
}

impl<V: LineView> FusedIterator for Lines<V> {}

impl<C: FaultUnit> LineView for UStr<'_, C> {
    ghost use Rattle.wide_ustr.specs.View.{units_seen, items_seen};

    ghost items_seen = { items_seen C.form C.number };

    ghost form = { C.form };

    ghost count = { λ view. length (units_seen view) };

    fn count_units(self) -> usize {
        self.len()
    }

    fn first_line(self) -> Option<(Self, Self)> {
        let (line, rest) = split_line(self.as_slice())?;
        Some((UStr::from_slice(line), UStr::from_slice(rest)))
    }
}

impl<C: FaultUnit> UStr<'_, C> {
    ghost use Rattle.wide_ustr.specs.View.{units_seen, items_seen};

    /// Returns an iterator over the lines, from the front. Each line is a view of some of the units. The view is split
    /// at each line feed (U+000A), which is in no line. A line before a line feed loses one carriage return (U+000D) at
    /// its end. The last substring is not a line if it is empty. Units that belong to no character remain in the lines
    /// unchanged.
    ///
    /// # Example
    ///
    /// ```
    /// let mut lines = U16Str::from_slice(&[0x48, 0x69, 0xd, 0xa, 0xdc00]).lines_lossy();
    /// assert!(rt; lines.next() == Some(U16Str::from_slice(&[0x48, 0x69])));
    /// assert!(rt; lines.next() == Some(U16Str::from_slice(&[0xdc00])));
    /// ```
    pub fn lines_lossy(self) -> Lines<Self>
        ensures lines { lines_left (items_seen C.form C.number) result ≡ lines_of (items C.form (map C.number (units_seen self.entry))) }
        ensures most { length (lines_left (items_seen C.form C.number) result) ≤ length (units_seen self.entry) }
        ensures fits { length (lines_left (items_seen C.form C.number) result) < 2 ^ 64 }
    {
        // This call is for its contract: a length is below 2 ^ 64, so the number of lines fits in a `usize`.
        let _units = self.len();
        Lines::new(self)
    }
}
