//! `Display` and `Debug` of a well-formed view, and of an iterator over its characters.
ghost use Rattle.std.specs.Prelude.{map, Some};
ghost use Rattle.wide_forms.specs.Texts.{debug_output};
ghost use Rattle.wide_forms.specs.Utf8.{utf8};

use crate::iter::Chars;
use crate::view::UtfStr;
use std::fmt;
use wide_unit::Unit;
use wide_ustr::UStr;

impl<C: Unit> fmt::Display for UtfStr<'_, C> {
    ghost use Rattle.wide_utfstr.specs.View.{text_seen};

    ghost output = { λ view. Some (utf8 (text_seen view)) };

    ghost styled_output = { λ view _. Some (utf8 (text_seen view)) };

    /// Prints the characters. It ignores the format options.
    fn fmt<W: fmt::Write>(&self, f: &mut fmt::Formatter<W>) -> fmt::Result {
        fmt::Display::fmt(&UStr::from_slice(self.as_slice()).display(), f)
    }
}

impl<C: Unit> fmt::Debug for UtfStr<'_, C> {
    ghost use Rattle.wide_utfstr.specs.View.{units_seen};

    ghost debug_output = { λ view. debug_output C.form (map C.number (units_seen view)) };

    /// Prints the characters between quotes, as [`char::escape_debug`] escapes them.
    fn fmt<W: fmt::Write>(&self, f: &mut fmt::Formatter<W>) -> fmt::Result {
        fmt::Debug::fmt(&UStr::from_slice(self.as_slice()), f)
    }
}

impl<C: Unit> fmt::Display for Chars<'_, C> {
    ghost use Rattle.wide_utfstr.specs.Iter.{chars_left};

    ghost output = { λ s. Some (utf8 (chars_left C.form C.number s)) };

    ghost styled_output = { λ s _. Some (utf8 (chars_left C.form C.number s)) };

    /// Prints the characters that were not read yet. It ignores the format options.
    fn fmt<W: fmt::Write>(&self, f: &mut fmt::Formatter<W>) -> fmt::Result {
        fmt::Display::fmt(&self.text, f)
    }
}

impl<C: Unit> fmt::Debug for Chars<'_, C> {
    ghost use Rattle.wide_utfstr.specs.Iter.{chars_rest};

    ghost debug_output = { λ s. debug_output C.form (map C.number (chars_rest s)) };

    /// Prints the characters that were not read yet between quotes, as [`char::escape_debug`] escapes them.
    fn fmt<W: fmt::Write>(&self, f: &mut fmt::Formatter<W>) -> fmt::Result {
        fmt::Debug::fmt(&self.text, f)
    }
}
