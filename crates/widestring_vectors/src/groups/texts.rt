//! What a view of units of either width prints, its lines, trims and escapes, its text in another case, and
//! comparisons. A question is a letter, and after it, if two are compared, the other's units.
//!
//! - `l` and `L` are the lines of the units and of the text, each followed by a `;`, and `i` and `I` the lines with the
//!   offset of each before it.
//! - `t`, `<` and `>` are the text trimmed at both ends, at the start and at the end.
//! - `g`, `f` and `G` are the debug text of the units, of the text and of the C string of the units and a NUL; `p` and
//!   `P` what the units, lossily, and the text print.
//! - `d`, `e` and `u` are the escapes as in debug text, by default and by number; `w` and `W` the text in lower and in
//!   upper case.
//! - `c` is the order of the units and other units, `k` that of the units and the contents of a C string: `<`, `=` or
//!   `>`. `x` is whether the text and another are equal, `1` or `0`.
ghost use Rattle.std.specs.Iterator.{IsFinite};

use crate::groups::width::Width;
use std::alloc::Global;
use std::cmp::Ordering;
use std::fmt::{Debug, Display};
use widestring::error::FaultUnit;
use widestring::ucstr::{UCStr, UStrInUcstr};
use widestring::ucstring::UCString;
use widestring::ustr::UStr;
use widestring::utfstr::UtfStr;
use widestring::utfstring::UtfStrInUtfstring;
use widestring_replay::made::{as_text, c_string_of, text_of};
use widestring_replay::parse::{self, FromHex, NoAnswer};
use widestring_replay::show::Answer;

fn characters<I: Iterator<Item = char>>(answer: &mut Answer, chars: I)
    requires { I.can_next chars × IsFinite (I.remaining chars) }
{
    for c in chars {
        answer.character(Some(c));
    }
}

fn printed(alloc: Global, answer: &mut Answer, value: &impl Display) {
    match format!(in alloc; "{value}") {
        Ok(text) => answer.text(&text),
        Err(_) => answer.fail(NoAnswer::OutOfMemory),
    }
}

fn debugged(alloc: Global, answer: &mut Answer, value: &impl Debug) {
    match format!(in alloc; "{value:?}") {
        Ok(text) => answer.text(&text),
        Err(_) => answer.fail(NoAnswer::OutOfMemory),
    }
}

fn debugged_contents<C: FaultUnit>(alloc: Global, answer: &mut Answer, units: &[C]) {
    match c_string_of(alloc, units) {
        Ok(string) => debugged(alloc, answer, &string),
        Err(error) => answer.fail(error),
    }
}

fn lines_of_units<C: FaultUnit>(answer: &mut Answer, view: UStr<'_, C>) {
    for line in view.lines_lossy() {
        answer.units(line.as_slice());
        answer.part();
    }
}

fn lines_of_text<C: FaultUnit>(answer: &mut Answer, text: UtfStr<'_, C>) {
    for line in text.lines() {
        answer.units(line.as_slice());
        answer.part();
    }
}

fn line_offsets_of_units<C: FaultUnit>(answer: &mut Answer, view: UStr<'_, C>) {
    for (offset, line) in view.line_indices_lossy() {
        answer.count(Some(offset));
        answer.units(line.as_slice());
        answer.part();
    }
}

fn line_offsets_of_text<C: FaultUnit>(answer: &mut Answer, text: UtfStr<'_, C>) {
    for (offset, line) in text.line_indices() {
        answer.count(Some(offset));
        answer.units(line.as_slice());
        answer.part();
    }
}

// Adds the order of units and contents, if order and equality agree with those of contents and units, and else a `?`.
fn order_with<C: FaultUnit>(answer: &mut Answer, view: UStr<'_, C>, contents: UCStr<'_, C>) {
    let order = view.cmp_ucstr(contents);
    let same = order == Ordering::Equal;
    if view.eq_ucstr(contents) != same || contents.cmp_ustr(view) != order.reverse() {
        answer.word("?");
    } else {
        answer.order(order);
    }
}

fn with_contents<C: FaultUnit>(alloc: Global, answer: &mut Answer, view: UStr<'_, C>, other: &[C]) {
    match c_string_of(alloc, other) {
        Ok(string) => order_with(answer, view, string.as_ucstr()),
        Err(error) => answer.fail(error),
    }
}

// Adds the answer to a question about any units.
fn of_units<C: FaultUnit + FromHex + Ord>(
    alloc: Global,
    answer: &mut Answer,
    kind: u8,
    view: UStr<'_, C>,
    other: &[C],
) {
    match kind {
        b'l' => lines_of_units(answer, view),
        b'i' => line_offsets_of_units(answer, view),
        b'g' => debugged(alloc, answer, &view),
        b'G' => debugged_contents(alloc, answer, view.as_slice()),
        b'p' => printed(alloc, answer, &view.display()),
        b'c' => answer.order(view.cmp(&UStr::from_slice(other))),
        b'k' => with_contents(alloc, answer, view, other),
        _ => answer.fail(NoAnswer::Unparsed),
    }
}

fn lowercase<C: FaultUnit>(alloc: Global, answer: &mut Answer, text: UtfStr<'_, C>) {
    match text.to_lowercase(alloc) {
        Ok(lower) => answer.units(lower.as_slice()),
        Err(_) => answer.fail(NoAnswer::OutOfMemory),
    }
}

fn uppercase<C: FaultUnit>(alloc: Global, answer: &mut Answer, text: UtfStr<'_, C>) {
    match text.to_uppercase(alloc) {
        Ok(upper) => answer.units(upper.as_slice()),
        Err(_) => answer.fail(NoAnswer::OutOfMemory),
    }
}

// Adds the answer to a question about a text.
fn of_text<C: FaultUnit>(alloc: Global, answer: &mut Answer, kind: u8, text: UtfStr<'_, C>) {
    match kind {
        b'L' => lines_of_text(answer, text),
        b'I' => line_offsets_of_text(answer, text),
        b't' => answer.units(text.trim().as_slice()),
        b'<' => answer.units(text.trim_start().as_slice()),
        b'>' => answer.units(text.trim_end().as_slice()),
        b'f' => debugged(alloc, answer, &text),
        b'P' => printed(alloc, answer, &text),
        b'd' => characters(answer, text.escape_debug()),
        b'e' => characters(answer, text.escape_default()),
        b'u' => characters(answer, text.escape_unicode()),
        b'w' => lowercase(alloc, answer, text),
        b'W' => uppercase(alloc, answer, text),
        _ => answer.fail(NoAnswer::Unparsed),
    }
}

// Adds whether a text is equal to a `str`, asked of the text, of both widths, and of the units.
fn with_str<C: Width>(
    alloc: Global,
    answer: &mut Answer,
    text: UtfStr<'_, C>,
    theirs: &str,
    other: UStr<'_, C>,
) {
    let same = text.eq_str(theirs);
    match C::eq_other(text.as_slice(), theirs, alloc) {
        Ok(others) if others == [same, same] && text.eq_ustr(other) == same => {
            answer.decided(same);
        }
        Ok(_) => answer.word("?"),
        Err(error) => answer.fail(error),
    }
}

fn with_text<C: Width>(alloc: Global, answer: &mut Answer, text: UtfStr<'_, C>, other: &[C]) {
    match text_of(alloc, other) {
        Ok(theirs) => with_str(alloc, answer, text, &theirs, UStr::from_slice(other)),
        Err(error) => answer.fail(error),
    }
}

fn with_units<C: Width>(
    alloc: Global,
    answer: &mut Answer,
    kind: u8,
    text: UtfStr<'_, C>,
    other: &[C],
) {
    match kind {
        b'x' => with_text(alloc, answer, text, other),
        _ => of_text(alloc, answer, kind, text),
    }
}

fn asked<C: Width>(alloc: Global, answer: &mut Answer, kind: u8, list: &[C], other: &[C]) {
    match kind {
        b'l' | b'i' | b'g' | b'G' | b'p' | b'c' | b'k' => {
            of_units(alloc, answer, kind, UStr::from_slice(list), other);
        }
        _ => match as_text(list) {
            Ok(text) => with_units(alloc, answer, kind, text, other),
            Err(error) => answer.fail(error),
        },
    }
}

fn with_kind<C: Width>(alloc: Global, answer: &mut Answer, kind: u8, list: &[C], other: &str) {
    match parse::list::<C>(alloc, other) {
        Ok(other) => asked(alloc, answer, kind, list, &other),
        Err(error) => answer.fail(error),
    }
}

/// Adds the answer to a question about a list of units.
pub fn text<C: Width>(alloc: Global, answer: &mut Answer, list: &[C], question: &str) {
    match parse::kind(question) {
        Ok((kind, more)) => with_kind(alloc, answer, kind, list, more),
        Err(error) => answer.fail(error),
    }
}
