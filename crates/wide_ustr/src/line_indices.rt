//! The lines of a view with their offsets.
ghost use Rattle.std.specs.Prelude.{◌≡◌, ◌<◌, ◌≤◌, ◌^◌, length, map, None, IfSome, ⊤};
ghost use Rattle.std.specs.Iterator.{YieldsFirstBy, at_most, UpTo};
ghost use Rattle.std.specs.Iterator.SizeHint.{IsWithinCount};
ghost use Rattle.std.specs.List.{All};
ghost use Rattle.wide_forms.specs.Items.{items, IsBoundary};
ghost use Rattle.wide_forms.specs.Lines.{placed_lines};

use crate::lines::LineView;
use crate::view::UStr;
use std::alloc::AllocError;
use std::iter::FusedIterator;
use wide_utferror::FaultUnit;

/// An iterator over the lines of a view, from the front, each with the offset, in units, at which it begins. Made by
/// [`UStr::line_indices_lossy`](crate::UStr::line_indices_lossy) and by `line_indices` of well-formed views.
///
/// # Example
///
/// ```
/// let text = U16Str::from_slice(&[0x48, 0x69, 0xd, 0xa, 0x21]);
/// let last = text.line_indices_lossy().last();
/// assert!(rt; last == Some((4, U16Str::from_slice(&[0x21]))));
/// ```
#[derive(Debug)]
pub struct LineIndices<V: LineView> {
    len: usize,
    rest: V,
    ghost within: { V.count rest ≤ len },
}

impl<V: LineView> Clone for LineIndices<V> {
    ghost is_clone = { λ s r. r ≡ s };

    ghost is_infallible = { λ _. ⊤ };

    /// Returns a copy that yields the same lines.
    fn clone(&self) -> Result<Self, AllocError> {
        Ok(*self)
    }
}

impl<V: LineView> Copy for LineIndices<V> {}

impl<V: LineView> LineIndices<V> {
    ghost use Rattle.wide_ustr.specs.LineIndices.{placed_left};

    /// Creates an iterator over the lines of the view. The first line has offset 0.
    pub fn new(view: V) -> Self
        ensures { placed_left result ≡ placed_lines V.form 0 (V.items_seen view) }
    {
        LineIndices {
            len: view.count_units(),
            rest: view,
        }
    }
}

impl<V: LineView> Iterator for LineIndices<V> {
    ghost use Rattle.wide_ustr.specs.LineIndices.{placed_left, placed_line};

    type Item = (usize, V);

    ghost next_gives = { YieldsFirstBy (placed_line V.items_seen) placed_left };

    ghost remaining = { λ s. at_most (length (placed_left s)) };

    /// Returns the next line and its offset in units. It reads the units, vectorized, up to the block that holds the
    /// line feed which ends the line.
    fn next(&mut self) -> Option<(usize, V)> {
        let Some((line, rest)) = self.rest.first_line() else {
            return None;
        };
        let offset = self.len - self.rest.count_units();
        self.rest = rest;
        Some((offset, line))
    }

    /// Returns no bounds, since the number of lines is unknown before the view is read.
    fn size_hint(&self) -> (usize, Option<usize>)
        ensures lower { IsWithinCount result.0 (at_most (length (placed_left self.now))) }
        ensures upper { IfSome result.1 (UpTo (at_most (length (placed_left self.now)))) }
        ensures least { result.0 ≡ 0 }
        ensures most { result.1 ≡ None }
    {
        (0, None)
    }
}

impl<V: LineView> FusedIterator for LineIndices<V> {}

impl<C: FaultUnit> UStr<'_, C> {
    ghost use Rattle.wide_ustr.specs.LineIndices.{placed_left};
    ghost use Rattle.wide_ustr.specs.View.{units_seen};

    /// Returns an iterator over the lines, each with the offset, in units, at which it begins in the view. The lines
    /// are those of [`UStr::lines_lossy`]: a line feed (U+000A) ends a line, together with one carriage return (U+000D)
    /// before it, and neither is in the line. The Rust crate has no such call.
    ///
    /// # Example
    ///
    /// ```
    /// let mut lines = U16Str::from_slice(&[0x48, 0x69, 0xa, 0xdc00]).line_indices_lossy();
    /// assert!(rt; lines.next() == Some((0, U16Str::from_slice(&[0x48, 0x69]))));
    /// assert!(rt; lines.next() == Some((3, U16Str::from_slice(&[0xdc00]))));
    /// ```
    pub fn line_indices_lossy(self) -> LineIndices<Self>
        ensures lines { placed_left result ≡ placed_lines C.form 0 (items C.form (map C.number (units_seen self.entry))) }
        ensures boundaries { All (λ line. IsBoundary C.form (map C.number (units_seen self.entry)) line.0) (placed_left result) }
        ensures most { length (placed_left result) ≤ length (units_seen self.entry) }
        ensures fits { length (placed_left result) < 2 ^ 64 }
    {
        // This call is for its contract: a length is below 2 ^ 64, so the number of lines fits in a `usize`.
        let _units = self.len();
        LineIndices::new(self)
    }
}
