//! `Display` and `Debug` of an owned string, of borrowed or owned text, of boxed text, and of a drain.
ghost use Rattle.std.specs.Prelude.{map, Some};
ghost use Rattle.wide_forms.specs.Offsets.{text_of};
ghost use Rattle.wide_forms.specs.Texts.{debug_output};
ghost use Rattle.wide_forms.specs.Utf8.{utf8};

use crate::iter::DrainUtf;
use crate::{BoxedUtfStr, CowUtfStr, UtfString};
use std::alloc::Allocator;
use std::fmt;
use wide_utferror::FaultUnit;

impl<C: FaultUnit, A: Allocator> fmt::Display for UtfString<C, A> {
    ghost output = { λ s. Some (utf8 (text_of C.form C.number s.units)) };

    ghost styled_output = { λ s _. Some (utf8 (text_of C.form C.number s.units)) };

    /// Prints the characters. It ignores the format options.
    fn fmt<W: fmt::Write>(&self, f: &mut fmt::Formatter<W>) -> fmt::Result {
        fmt::Display::fmt(&self.as_utfstr(), f)
    }
}

impl<C: FaultUnit, A: Allocator> fmt::Debug for UtfString<C, A> {
    ghost debug_output = { λ s. debug_output C.form (map C.number s.units) };

    /// Prints the characters between quotes, as [`char::escape_debug`] escapes them.
    fn fmt<W: fmt::Write>(&self, f: &mut fmt::Formatter<W>) -> fmt::Result {
        fmt::Debug::fmt(&self.as_utfstr(), f)
    }
}

impl<C: FaultUnit, A: Allocator> fmt::Display for CowUtfStr<'_, C, A> {
    ghost use Rattle.wide_utfstring.specs.CowText.{cow_units};

    ghost output = { λ s. Some (utf8 (text_of C.form C.number (cow_units s))) };

    ghost styled_output = { λ s _. Some (utf8 (text_of C.form C.number (cow_units s))) };

    /// Prints the characters. It ignores the format options.
    fn fmt<W: fmt::Write>(&self, f: &mut fmt::Formatter<W>) -> fmt::Result {
        fmt::Display::fmt(&self.as_utfstr(), f)
    }
}

impl<C: FaultUnit, A: Allocator> fmt::Debug for CowUtfStr<'_, C, A> {
    ghost use Rattle.wide_utfstring.specs.CowText.{cow_units};

    ghost debug_output = { λ s. debug_output C.form (map C.number (cow_units s)) };

    /// Prints the characters between quotes, as [`char::escape_debug`] escapes them.
    fn fmt<W: fmt::Write>(&self, f: &mut fmt::Formatter<W>) -> fmt::Result {
        fmt::Debug::fmt(&self.as_utfstr(), f)
    }
}

impl<C: FaultUnit, A: Allocator> fmt::Display for BoxedUtfStr<C, A> {
    ghost output = { λ s. Some (utf8 (text_of C.form C.number s)) };

    ghost styled_output = { λ s _. Some (utf8 (text_of C.form C.number s)) };

    /// Prints the characters. It ignores the format options.
    fn fmt<W: fmt::Write>(&self, f: &mut fmt::Formatter<W>) -> fmt::Result {
        fmt::Display::fmt(&self.as_utfstr(), f)
    }
}

impl<C: FaultUnit, A: Allocator> fmt::Debug for BoxedUtfStr<C, A> {
    ghost debug_output = { λ s. debug_output C.form (map C.number s) };

    /// Prints the characters between quotes, as [`char::escape_debug`] escapes them.
    fn fmt<W: fmt::Write>(&self, f: &mut fmt::Formatter<W>) -> fmt::Result {
        fmt::Debug::fmt(&self.as_utfstr(), f)
    }
}

impl<C: FaultUnit, A: Allocator> fmt::Display for DrainUtf<'_, C, A> {
    ghost use Rattle.wide_utfstring.specs.Drain.{drain_rest};

    ghost output = { λ d. Some (utf8 (drain_rest d)) };

    ghost styled_output = { λ d _. Some (utf8 (drain_rest d)) };

    /// Prints the characters that were not read yet. It ignores the format options.
    fn fmt<W: fmt::Write>(&self, f: &mut fmt::Formatter<W>) -> fmt::Result {
        fmt::Display::fmt(&self.as_utfstr(), f)
    }
}

impl<C: FaultUnit, A: Allocator> fmt::Debug for DrainUtf<'_, C, A> {
    ghost use Rattle.wide_utfstring.specs.Drain.{drain_units};

    ghost debug_output = { λ d. debug_output C.form (map C.number (drain_units d)) };

    /// Prints the characters that were not read yet between quotes, as [`char::escape_debug`] escapes them.
    fn fmt<W: fmt::Write>(&self, f: &mut fmt::Formatter<W>) -> fmt::Result {
        fmt::Debug::fmt(&self.as_utfstr(), f)
    }
}
