//! Views that are split into the same substrings from either end.
ghost use Rattle.std.specs.Prelude.{◌≡◌, ◌∷◌, [], IfNone, IfSome};
ghost use Rattle.wide_ustr.specs.Kept.{IsLastCut};

use crate::sets::AnyOf;
use crate::split::{OneUnit, SplitView};
use crate::view::UStr;
use wide_search::{CharSet, suffix_of_set};
use wide_unit::{Unit, split_last};

/// A view that is split into the same substrings from either end: at one unit, at a character, or at any character of a
/// set. Units may overlap themselves, as `aa` does in `aaa`, and then the substrings from the back are others.
///
/// The Rust crate has no such trait. No call allocates.
///
/// # Example
///
/// ```
/// use widestring::ustr::DoubleEndedView;
///
/// let path = U16Str::from_slice(&[0x61, 0x2f, 0x62, 0x2f, 0x63]);
/// let parts = path.cut_off_last('/');
/// assert!(rt; parts.is_some_and(|(folder, file)| folder.len() == 3 && file.len() == 1));
/// ```
pub trait DoubleEndedView<P>: SplitView<P> {
    /// Cuts off the last substring. Returns what is before the last separator, and the substring after it. Returns
    /// `None` if the separator does not occur.
    fn cut_off_last(self, separator: P) -> Option<(Self, Self)>
        ensures none { IfNone result (Self.SplitView.cut_at separator (Self.SplitView.numbers_seen self) ≡ Self.SplitView.numbers_seen self ∷ []) }
        ensures some { IfSome result (λ r. IsLastCut (Self.SplitView.cut_at separator) (Self.SplitView.numbers_seen self) (Self.SplitView.numbers_seen r.0) (Self.SplitView.numbers_seen r.1)) };
}

impl<C: Unit> DoubleEndedView<OneUnit<C>> for UStr<'_, C> {
    fn cut_off_last(self, separator: OneUnit<C>) -> Option<(Self, Self)> {
        let Some(at) = self.rfind_unit(separator.unit) else {
            return None;
        };
        let (rest, _) = self.split_at(at);
        let (_, substring) = self.split_at(at + 1);
        Some((rest, substring))
    }
}

impl<C: Unit> DoubleEndedView<char> for UStr<'_, C> {
    fn cut_off_last(self, c: char) -> Option<(Self, Self)> {
        let Some(at) = self.rfind_char(c) else {
            return None;
        };
        let (rest, _) = self.split_at(at);
        let (_, substring) = self.split_at(at + C::char_len(c));
        Some((rest, substring))
    }
}

impl<C: Unit, S: CharSet> DoubleEndedView<AnyOf<S>> for UStr<'_, C> {
    fn cut_off_last(self, separator: AnyOf<S>) -> Option<(Self, Self)> {
        let (before, substring) = self.split_at(suffix_of_set(self.units, separator.set, false));
        let Some((rest, _)) = split_last(before.units) else {
            return None;
        };
        Some((UStr { units: rest }, substring))
    }
}
