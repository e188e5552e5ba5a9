//! The substrings of a view that a separator ends.
ghost use Rattle.std.specs.Prelude.{◌≡◌, ◌<◌, ◌≤◌, ◌+◌, ◌^◌, length, None, IfSome};
ghost use Rattle.std.specs.Iterator.{YieldsFirstBy, YieldsLastBy, at_most, UpTo};
ghost use Rattle.std.specs.Iterator.SizeHint.{IsWithinCount};
ghost use Rattle.wide_forms.specs.EncodingForm.{code_units};
ghost use Rattle.wide_search.specs.Cut.{substrings};
ghost use Rattle.wide_ustr.specs.SplitMore.{terminated, terminated_left, unit_terminated_left, char_terminated_left};
ghost use Rattle.wide_ustr.specs.View.{units_seen, numbers_seen};

use crate::split::{Split, SplitView};
use crate::split_ends::DoubleEndedView;
use crate::view::UStr;
use std::iter::FusedIterator;
use wide_from_units::byte_len;
use wide_unit::Unit;

/// An iterator over the substrings of a view that end at an occurrence of a separator or at the end, from the front. If
/// the view ends with a separator, no empty substring follows it. Made by
/// [`UStr::split_terminator`](crate::UStr::split_terminator) and by the calls of the other views that have this name. At
/// a character it also goes from the back.
///
/// # Example
///
/// ```
/// let list = U16Str::from_slice(&[0x61, 0x3b, 0x62, 0x3b]);
/// let mut parts = list.split_terminator_char(';');
/// assert!(rt; parts.next_back() == Some(U16Str::from_slice(&[0x62])));
/// assert!(rt; parts.count() == 1);
/// ```
#[derive(Clone, Copy, Debug, Drop)]
pub struct SplitTerminator<V, P> {
    all: Split<V, P>,
    // Whether a substring was taken from the back, before which an empty one counts.
    last_taken: bool,
}

impl<P: Copy, V: SplitView<P>> SplitTerminator<V, P> {
    /// Creates an iterator over the substrings of the view, without the last one if that is empty.
    pub fn new(view: V, separator: P) -> Self
        ensures { terminated_left V.numbers_seen V.cut_at result ≡ terminated (V.cut_at separator (V.numbers_seen view)) }
    {
        SplitTerminator {
            all: Split::new(view, separator),
            last_taken: false,
        }
    }
}

impl<P: Copy, V: SplitView<P>> Iterator for SplitTerminator<V, P> {
    type Item = V;

    ghost next_gives = { YieldsFirstBy V.numbers_seen (terminated_left V.numbers_seen V.cut_at) };

    ghost remaining = { λ s. at_most (length (terminated_left V.numbers_seen V.cut_at s)) };

    /// Returns the next substring.
    fn next(&mut self) -> Option<V> {
        let substring = self.all.next()?;
        if substring.has_no_units() && self.all.is_at_end() && !self.last_taken {
            return None;
        }
        Some(substring)
    }

    /// Returns no bounds, since the number of substrings is unknown before the view is read.
    fn size_hint(&self) -> (usize, Option<usize>)
        ensures lower { IsWithinCount result.0 (at_most (length (terminated_left V.numbers_seen V.cut_at self.now))) }
        ensures upper { IfSome result.1 (UpTo (at_most (length (terminated_left V.numbers_seen V.cut_at self.now)))) }
        ensures least { result.0 ≡ 0 }
        ensures most { result.1 ≡ None }
    {
        (0, None)
    }
}

impl<P: Copy, V: DoubleEndedView<P>> DoubleEndedIterator for SplitTerminator<V, P> {
    ghost next_back_gives = { YieldsLastBy V.numbers_seen (terminated_left V.numbers_seen V.cut_at) };

    /// Returns the last substring that is left.
    fn next_back(&mut self) -> Option<V> {
        let was_taken = self.last_taken;
        self.last_taken = true;
        let last = self.all.next_back()?;
        if was_taken | !last.has_no_units() {
            return Some(last);
        }
        self.all.next_back()
    }
}

impl<P: Copy, V: SplitView<P>> FusedIterator for SplitTerminator<V, P> {}

impl<C: Unit> UStr<'_, C> {
    /// Returns an iterator over the substrings that an occurrence of the separator or the end of the view ends, from the
    /// front. They are those of [`UStr::split`], without the last one if that is empty.
    ///
    /// # Example
    ///
    /// ```
    /// let list = U16Str::from_slice(&[0x61, 0x3b, 0x3b]);
    /// let mut parts = list.split_terminator(U16Str::from_slice(&[0x3b]));
    /// assert!(rt; parts.next() == Some(U16Str::from_slice(&[0x61])));
    /// assert!(rt; parts.next().is_some_and(|part| part.is_empty()));
    /// assert!(rt; parts.next().is_none());
    /// ```
    pub fn split_terminator<'p>(self, needle: UStr<'p, C>) -> SplitTerminator<Self, UStr<'p, C>>
        ensures left { unit_terminated_left C.number result ≡ terminated (substrings (numbers_seen C.number needle.entry) (numbers_seen C.number self.entry)) }
        ensures most { length (unit_terminated_left C.number result) ≤ length (units_seen self.entry) + 1 }
        ensures fits { length (unit_terminated_left C.number result) < 2 ^ 64 }
    {
        // This call is for its contract: there are so few units that one more substring can be counted.
        let _bytes = byte_len(self.units);
        SplitTerminator::new(self, needle)
    }

    /// Returns an iterator over the substrings that an occurrence of the character or the end of the view ends, from both
    /// ends. They are those of [`UStr::split_char`], without the last one if that is empty.
    ///
    /// # Example
    ///
    /// ```
    /// let list = U16Str::from_slice(&[0x61, 0x3b, 0xd800]);
    /// let mut parts = list.split_terminator_char(';');
    /// assert!(rt; parts.next() == Some(U16Str::from_slice(&[0x61])));
    /// assert!(rt; parts.next() == Some(U16Str::from_slice(&[0xd800])));
    /// assert!(rt; parts.next().is_none());
    /// ```
    pub fn split_terminator_char(self, c: char) -> SplitTerminator<Self, char>
        ensures left { char_terminated_left C.form C.number result ≡ terminated (substrings (code_units C.form c) (numbers_seen C.number self.entry)) }
        ensures most { length (char_terminated_left C.form C.number result) ≤ length (units_seen self.entry) + 1 }
        ensures fits { length (char_terminated_left C.form C.number result) < 2 ^ 64 }
    {
        // This call is for its contract: there are so few units that one more substring can be counted.
        let _bytes = byte_len(self.units);
        SplitTerminator::new(self, c)
    }
}
