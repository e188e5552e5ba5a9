//! `Display` and `Debug` of a view, and of iterators over its characters.
ghost use Rattle.std.specs.Prelude.{map, Some};
ghost use Rattle.wide_forms.specs.Texts.{display_text, skipping_text, debug_output, lossy_debug_output};
ghost use Rattle.wide_ustr.specs.View.{units_seen};

use crate::escaped::{write_char, write_debug_char};
use crate::iter::{Chars, CharsLossy};
use crate::lossy_with::CharsLossyWith;
use crate::view::UStr;
use std::fmt;
use wide_unit::{Unit, split_first};

/// A value that prints the text of a view, with one U+FFFD for each unit that belongs to no character (Unicode
/// Standard, section 3.9). Made by [`UStr::display`](crate::UStr::display).
///
/// Printing ignores the format options, such as width and fill. So `{:#}` prints the same text as `{}`, whereas the
/// Rust crate leaves out each U+FFFD; [`UStr::display_skipping`](crate::UStr::display_skipping) does that here.
/// Printing does not allocate, returns an error of the sink at once, and then writes nothing more.
///
/// `{:?}` prints the same text as `{:?}` of the view.
///
/// # Example
///
/// ```
/// let shown = U16Str::from_slice(&[0x48, 0x69, 0xd83d]).display();
/// let text = format!(in rt.alloc(); "{shown} {shown:?}")?;
/// assert!(rt; text.as_str() == "Hi\u{fffd} \"Hi\\<D83D>\"");
/// ```
#[derive(Clone, Copy)]
pub struct Display<'a, C> {
    pub(crate) view: UStr<'a, C>,
}

impl<C: Unit> fmt::Display for Display<'_, C> {
    ghost use Rattle.wide_ustr.specs.Printed.{displayed};

    ghost output = { λ d. Some (display_text C.form (map C.number (units_seen (displayed d)))) };

    ghost styled_output = { λ d _. Some (display_text C.form (map C.number (units_seen (displayed d)))) };

    fn fmt<W: fmt::Write>(&self, f: &mut fmt::Formatter<W>) -> fmt::Result {
        for c in self.view.chars_lossy() {
            write_char(f, c)?;
        }
        Ok(())
    }
}

/// A value that prints the text of a view without the units that belong to no character, and without any U+FFFD of the
/// text. Made by [`UStr::display_skipping`](crate::UStr::display_skipping).
///
/// Printing ignores the format options, such as width and fill. It does not allocate, returns an error of the sink at
/// once, and then writes nothing more.
///
/// `{:?}` prints the same text as `{:?}` of the view.
///
/// # Example
///
/// ```
/// let shown = U16Str::from_slice(&[0x48, 0xdc00, 0x69, 0xfffd]).display_skipping();
/// let text = shown.to_string(rt.alloc())?;
/// assert!(rt; text.as_str() == "Hi");
/// ```
#[derive(Clone, Copy)]
pub struct DisplaySkipping<'a, C> {
    pub(crate) view: UStr<'a, C>,
}

impl<C: Unit> fmt::Display for DisplaySkipping<'_, C> {
    ghost use Rattle.wide_ustr.specs.Printed.{displayed_skipping};

    ghost output = { λ d. Some (skipping_text C.form (map C.number (units_seen (displayed_skipping d)))) };

    ghost styled_output = { λ d _. Some (skipping_text C.form (map C.number (units_seen (displayed_skipping d)))) };

    fn fmt<W: fmt::Write>(&self, f: &mut fmt::Formatter<W>) -> fmt::Result {
        for shown in self.view.chars_lossy() {
            if shown != char::REPLACEMENT_CHARACTER {
                write_char(f, shown)?;
            }
        }
        Ok(())
    }
}

impl<C: Unit> fmt::Debug for UStr<'_, C> {
    ghost debug_output = { λ view. debug_output C.form (map C.number (units_seen view)) };

    fn fmt<W: fmt::Write>(&self, f: &mut fmt::Formatter<W>) -> fmt::Result {
        f.write_str("\"")?;
        let mut rest = self.units;
        while let Some((item, tail)) = split_first(rest) {
            match item {
                Ok(c) => write_debug_char(f, c)?,
                Err(unit) => write!(f, "\\<{:X}>", unit.code())?,
            }
            rest = tail;
        }
        f.write_str("\"")
    }
}

impl<C: Unit> fmt::Debug for Display<'_, C> {
    ghost use Rattle.wide_ustr.specs.Printed.{displayed};

    ghost debug_output = { λ d. debug_output C.form (map C.number (units_seen (displayed d))) };

    fn fmt<W: fmt::Write>(&self, f: &mut fmt::Formatter<W>) -> fmt::Result {
        fmt::Debug::fmt(&self.view, f)
    }
}

impl<C: Unit> fmt::Debug for DisplaySkipping<'_, C> {
    ghost use Rattle.wide_ustr.specs.Printed.{displayed_skipping};

    ghost debug_output = { λ d. debug_output C.form (map C.number (units_seen (displayed_skipping d))) };

    fn fmt<W: fmt::Write>(&self, f: &mut fmt::Formatter<W>) -> fmt::Result {
        fmt::Debug::fmt(&self.view, f)
    }
}

impl<C: Unit> fmt::Debug for Chars<'_, C> {
    ghost use Rattle.wide_ustr.specs.Iter.{chars_rest};

    ghost debug_output = { λ s. debug_output C.form (map C.number (chars_rest s)) };

    fn fmt<W: fmt::Write>(&self, f: &mut fmt::Formatter<W>) -> fmt::Result {
        fmt::Debug::fmt(&UStr::from_slice(self.rest), f)
    }
}

impl<C: Unit> fmt::Debug for CharsLossy<'_, C> {
    ghost use Rattle.wide_ustr.specs.Iter.{chars_lossy_rest};

    ghost debug_output = { λ s. lossy_debug_output C.form (map C.number (chars_lossy_rest s)) };

    fn fmt<W: fmt::Write>(&self, f: &mut fmt::Formatter<W>) -> fmt::Result {
        f.write_str("\"")?;
        for c in UStr::from_slice(self.rest).chars_lossy() {
            write_debug_char(f, c)?;
        }
        f.write_str("\"")
    }
}

impl<C: Unit> fmt::Debug for CharsLossyWith<'_, C> {
    ghost use Rattle.wide_ustr.specs.LossyWith.{lossy_with_debug_output};

    ghost debug_output = { lossy_with_debug_output C.form C.number };

    fn fmt<W: fmt::Write>(&self, f: &mut fmt::Formatter<W>) -> fmt::Result {
        f.write_str("\"")?;
        for c in UStr::from_slice(self.rest).chars_lossy_with(self.policy) {
            write_debug_char(f, c)?;
        }
        f.write_str("\"")
    }
}
