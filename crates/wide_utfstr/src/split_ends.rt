//! Well-formed text that is split into the same substrings, and has the same matches, from either end.
use crate::view::UtfStr;
use wide_search::{CharSet, suffix_of_set};
use wide_unit::{Unit, split_last};
use wide_ustr::{AnyOf, DoubleEndedView, InclusiveBackView, MatchBackView, UStr};

impl<C: Unit> DoubleEndedView<char> for UtfStr<'_, C> {
    fn cut_off_last(self, c: char) -> Option<(Self, Self)> {
        let Some(at) = self.rfind_char(c) else {
            return None;
        };
        let (rest, _) = self.split_at(at);
        let (_, substring) = self.split_at(at + C::char_len(c));
        Some((rest, substring))
    }
}

impl<C: Unit, S: CharSet> DoubleEndedView<AnyOf<S>> for UtfStr<'_, C> {
    fn cut_off_last(self, separator: AnyOf<S>) -> Option<(Self, Self)> {
        let at = suffix_of_set(self.as_slice(), separator.set, false);
        let (before, substring) = self.split_at(at);
        let Some((rest, _)) = split_last(before.as_slice()) else {
            return None;
        };
        let (rest, _) = before.split_at(rest.len());
        Some((rest, substring))
    }
}

impl<C: Unit> InclusiveBackView<char> for UtfStr<'_, C> {
    fn cut_off_inclusive(self, c: char) -> Option<(Self, Self)> {
        // A separator at the end of the text has nothing after it.
        let units = UStr::from_slice(self.as_slice());
        let (body, _) = units.split_at(units.len().saturating_sub(1));
        let Some(at) = body.rfind_char(c) else {
            return None;
        };
        Some(self.split_at(at + C::char_len(c)))
    }
}

impl<C: Unit> MatchBackView<char> for UtfStr<'_, C> {
    fn last_match(self, c: char) -> Option<(Self, Self)> {
        let Some(at) = self.rfind_char(c) else {
            return None;
        };
        let (before, _) = self.split_at(at);
        Some((before, self.slice(at..at + C::char_len(c))))
    }
}
