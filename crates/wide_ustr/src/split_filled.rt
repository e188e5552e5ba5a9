//! The substrings of a view that are not empty, between the occurrences of a separator.
ghost use Rattle.std.specs.Prelude.{◌≡◌, length, None, IfSome};
ghost use Rattle.std.specs.Iterator.{YieldsFirstBy, YieldsLastBy, at_most, UpTo};
ghost use Rattle.std.specs.Iterator.SizeHint.{IsWithinCount};
ghost use Rattle.wide_ustr.specs.SplitMore.{filled, filled_left};

use crate::split::{Split, SplitView};
use crate::split_ends::DoubleEndedView;
use std::iter::FusedIterator;

/// An iterator over the substrings of a view that are not empty, between the occurrences of a separator, from both ends.
/// Made by [`UStr::split_whitespace`](crate::UStr::split_whitespace) and
/// [`UStr::split_ascii_whitespace`](crate::UStr::split_ascii_whitespace), and by the calls of the other views that have
/// these names.
///
/// # Example
///
/// ```
/// let line = U16Str::from_slice(&[0x20, 0x61, 0x9, 0x20, 0x62]);
/// let mut words = line.split_whitespace();
/// assert!(rt; words.next_back() == Some(U16Str::from_slice(&[0x62])));
/// assert!(rt; words.count() == 1);
/// ```
#[derive(Clone, Copy, Debug, Drop)]
pub struct SplitFilled<V, P> {
    all: Split<V, P>,
}

impl<P: Copy, V: SplitView<P>> SplitFilled<V, P> {
    /// Creates an iterator over the substrings of the view that are not empty.
    pub fn new(view: V, separator: P) -> Self
        ensures { filled_left V.numbers_seen V.cut_at result ≡ filled (V.cut_at separator (V.numbers_seen view)) }
    {
        SplitFilled {
            all: Split::new(view, separator),
        }
    }
}

impl<P: Copy, V: SplitView<P>> Iterator for SplitFilled<V, P> {
    type Item = V;

    ghost next_gives = { YieldsFirstBy V.numbers_seen (filled_left V.numbers_seen V.cut_at) };

    ghost remaining = { λ s. at_most (length (filled_left V.numbers_seen V.cut_at s)) };

    /// Returns the next substring that is not empty.
    fn next(&mut self) -> Option<V> {
        while let Some(substring) = self.all.next() {
            if !substring.has_no_units() {
                return Some(substring);
            }
        }
        None
    }

    /// Returns no bounds, since the number of substrings is unknown before the view is read.
    fn size_hint(&self) -> (usize, Option<usize>)
        ensures lower { IsWithinCount result.0 (at_most (length (filled_left V.numbers_seen V.cut_at self.now))) }
        ensures upper { IfSome result.1 (UpTo (at_most (length (filled_left V.numbers_seen V.cut_at self.now)))) }
        ensures least { result.0 ≡ 0 }
        ensures most { result.1 ≡ None }
    {
        (0, None)
    }
}

impl<P: Copy, V: DoubleEndedView<P>> DoubleEndedIterator for SplitFilled<V, P> {
    ghost next_back_gives = { YieldsLastBy V.numbers_seen (filled_left V.numbers_seen V.cut_at) };

    /// Returns the last substring that is left and not empty.
    fn next_back(&mut self) -> Option<V> {
        while let Some(substring) = self.all.next_back() {
            if !substring.has_no_units() {
                return Some(substring);
            }
        }
        None
    }
}

impl<P: Copy, V: SplitView<P>> FusedIterator for SplitFilled<V, P> {}
