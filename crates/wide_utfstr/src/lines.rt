//! The lines of well-formed text.
ghost use Rattle.std.specs.Prelude.{◌≡◌, ◌<◌, ◌≤◌, ◌^◌, length, map};
ghost use Rattle.std.specs.List.{All};
ghost use Rattle.wide_forms.specs.Items.{items};
ghost use Rattle.wide_forms.specs.Offsets.{IsCharBoundary};
ghost use Rattle.wide_forms.specs.Lines.{lines_of, placed_lines};
ghost use Rattle.wide_ustr.specs.LineIndices.{placed_left};
ghost use Rattle.wide_ustr.specs.Lines.{lines_left};
ghost use Rattle.wide_utfstr.specs.View.{units_seen, items_seen};

use crate::view::UtfStr;
use wide_unit::{Unit, split_line};
use wide_ustr::{LineIndices, LineView, Lines};

impl<C: Unit> LineView for UtfStr<'_, C> {
    ghost items_seen = { items_seen C.form C.number };

    ghost form = { C.form };

    ghost count = { λ view. length (units_seen view) };

    fn count_units(self) -> usize {
        self.len()
    }

    fn first_line(self) -> Option<(Self, Self)> {
        let (line, rest) = split_line(self.as_slice())?;
        Some((
            UtfStr::from_slice_unchecked(line),
            UtfStr::from_slice_unchecked(rest),
        ))
    }
}

impl<C: Unit> UtfStr<'_, C> {
    /// Returns an iterator over the lines, from the front. Each line is a well-formed view of some of the units. The
    /// text is split at each line feed (U+000A), which is in no line. A line before a line feed loses one carriage
    /// return (U+000D) at its end. The last substring is not a line if it is empty.
    ///
    /// # Example
    ///
    /// ```
    /// let text = Utf16Str::from_slice(&[0x48, 0x69, 0xd, 0xa, 0xd83d, 0xde00, 0xa])?;
    /// let mut lines = text.lines();
    /// assert!(rt; lines.next().is_some_and(|line| line.eq_str("Hi")));
    /// assert!(rt; lines.next().is_some_and(|line| line.eq_str("😀")));
    /// assert!(rt; lines.next().is_none());
    /// ```
    pub fn lines(self) -> Lines<Self>
        ensures lines { lines_left (items_seen C.form C.number) result ≡ lines_of (items C.form (map C.number (units_seen self.entry))) }
        ensures most { length (lines_left (items_seen C.form C.number) result) ≤ length (units_seen self.entry) }
        ensures fits { length (lines_left (items_seen C.form C.number) result) < 2 ^ 64 }
    {
        // This call is for its contract: a length is below 2 ^ 64, so the number of lines fits in a `usize`.
        let _units = self.len();
        Lines::new(self)
    }

    /// Returns an iterator over the lines, each with the offset, in units, at which it begins in the text. The lines
    /// are those of [`UtfStr::lines`]: a line feed (U+000A) ends a line, together with one carriage return (U+000D)
    /// before it, and neither is in the line.
    ///
    /// # Example
    ///
    /// ```
    /// let text = Utf16Str::from_slice(&[0xd83d, 0xde00, 0xa, 0x48, 0x69])?;
    /// let last = text.line_indices().last();
    /// assert!(rt; last.is_some_and(|(offset, line)| offset == 3 && line.eq_str("Hi")));
    /// ```
    pub fn line_indices(self) -> LineIndices<Self>
        ensures lines { placed_left result ≡ placed_lines C.form 0 (items C.form (map C.number (units_seen self.entry))) }
        ensures boundaries { All (λ line. IsCharBoundary C.form (map C.number (units_seen self.entry)) line.0) (placed_left result) }
        ensures most { length (placed_left result) ≤ length (units_seen self.entry) }
        ensures fits { length (placed_left result) < 2 ^ 64 }
    {
        // This call is for its contract: a length is below 2 ^ 64, so the number of lines fits in a `usize`.
        let _units = self.len();
        LineIndices::new(self)
    }
}
