//! Units, text and C strings with occurrences of a needle replaced, in a new string. A question is the letter of a view
//! and a space, a needle, a colon, the units that replace it, a colon, and how many occurrences are replaced, a `-` for
//! all, or an `i` for all in a copy of the units, in place, by as many units as the needle has.
//!
//! The view is units (`u`), or the text of the units, in which the needle is a text (`t`) or a character (`c`), or a C
//! string (`z`), in which the needle and what replaces it are C strings, with their NULs. The answer has the units of
//! the new string, without a NUL. It makes one request for memory, and none if it has no units and needs no NUL; else
//! the answer has a `?`.
use crate::groups::made;
use widestring::error::OutOfMemory;
use widestring::replace::{UCStrReplace, UStrReplace, UtfStrReplace};
use widestring::ucstr::UCStr;
use widestring::ucstring::{UCStrInUcstring, UCString};
use widestring::ustr::UStr;
use widestring::ustring::{UStrInUstring, UString};
use widestring::utfstr::UtfStr;
use widestring::utfstring::{UtfStrInUtfstring, UtfString};
use widestring_replay::made::{as_contents, as_text};
use widestring_replay::parse::{self, Memory, NoAnswer};
use widestring_replay::show::{Answer, ReportedUnit};
use widestring_testing::Heap;

// The needles.
#[derive(Clone, Copy)]
enum Kind {
    Units,
    Text,
    Char,
    Contents,
}

static KINDS: [(&str, Kind); 4] = [
    ("u", Kind::Units),
    ("t", Kind::Text),
    ("c", Kind::Char),
    ("z", Kind::Contents),
];

// How occurrences are replaced: all, at most a number of them, or all in place.
#[derive(Clone, Copy)]
enum How {
    All,
    First(usize),
    InPlace,
}

// A parsed question: the needle's kind, the needle, the units that replace it, and how occurrences are replaced.
type Parts<'q> = (Kind, &'q str, &'q str, How);

// Returns a copy of the units in which occurrences are replaced in place, if the lengths are equal.
fn copied_units<'h, C: ReportedUnit>(
    heap: &'h Heap,
    view: UStr<'_, C>,
    needle: UStr<'_, C>,
    with: UStr<'_, C>,
) -> Result<UString<C, &'h Heap>, OutOfMemory> {
    let mut string = view.to_ustring(heap)?;
    if with.len() == needle.len() {
        string.replace_with(needle, with);
    }
    Ok(string)
}

// Returns a copy of the text in which occurrences are replaced in place, if the lengths are equal.
fn copied_text<'h, C: ReportedUnit>(
    heap: &'h Heap,
    text: UtfStr<'_, C>,
    needle: UtfStr<'_, C>,
    with: UtfStr<'_, C>,
) -> Result<UtfString<C, &'h Heap>, OutOfMemory> {
    let mut string = text.to_utfstring(heap)?;
    if with.len() == needle.len() {
        string.replace_with(needle, with);
    }
    Ok(string)
}

// Returns a copy of the C string in which occurrences are replaced in place, if the lengths are equal.
fn copied_contents<'h, C: ReportedUnit>(
    heap: &'h Heap,
    view: UCStr<'_, C>,
    needle: UCStr<'_, C>,
    with: UCStr<'_, C>,
) -> Result<UCString<C, &'h Heap>, OutOfMemory> {
    let mut string = view.to_ucstring(heap)?;
    if with.len() == needle.len() {
        string.replace_with(needle, with);
    }
    Ok(string)
}

fn in_units<C: ReportedUnit>(
    memory: Memory<'_>,
    answer: &mut Answer,
    view: UStr<'_, C>,
    needle: UStr<'_, C>,
    with: UStr<'_, C>,
    how: How,
) {
    let (heap, left) = (memory.heap, memory.heap.left());
    let made = match how {
        How::All => view.replace(heap, needle, with),
        How::First(count) => view.replacen(heap, needle, with, count),
        How::InPlace => copied_units(heap, view, needle, with),
    };
    made::units(memory, answer, left, made);
}

fn in_text<C: ReportedUnit>(
    memory: Memory<'_>,
    answer: &mut Answer,
    text: UtfStr<'_, C>,
    needle: UtfStr<'_, C>,
    with: UtfStr<'_, C>,
    how: How,
) {
    let (heap, left) = (memory.heap, memory.heap.left());
    let made = match how {
        How::All => text.replace(heap, needle, with),
        How::First(count) => text.replacen(heap, needle, with, count),
        How::InPlace => copied_text(heap, text, needle, with),
    };
    made::text(memory, answer, left, made);
}

fn in_contents<C: ReportedUnit>(
    memory: Memory<'_>,
    answer: &mut Answer,
    view: UCStr<'_, C>,
    needle: UCStr<'_, C>,
    with: UCStr<'_, C>,
    how: How,
) {
    let (heap, left) = (memory.heap, memory.heap.left());
    let made = match how {
        How::All => view.replace(heap, needle, with),
        How::First(count) => view.replacen(heap, needle, with, count),
        How::InPlace => copied_contents(heap, view, needle, with),
    };
    made::contents(memory, answer, left, made);
}

fn char_in_text<C: ReportedUnit>(
    memory: Memory<'_>,
    answer: &mut Answer,
    text: UtfStr<'_, C>,
    c: char,
    with: UtfStr<'_, C>,
    how: How,
) {
    let (heap, left) = (memory.heap, memory.heap.left());
    let made = match how {
        How::First(count) => text.replacen(heap, c, with, count),
        _ => text.replace(heap, c, with),
    };
    made::text(memory, answer, left, made);
}

// Replaces a text, any units, or the contents of a C string.
fn replaced<C: ReportedUnit>(
    memory: Memory<'_>,
    answer: &mut Answer,
    kind: Kind,
    units: &[C],
    needle: &[C],
    with: &[C],
    how: How,
) {
    match kind {
        Kind::Units => {
            let (view, needle) = (UStr::from_slice(units), UStr::from_slice(needle));
            in_units(memory, answer, view, needle, UStr::from_slice(with), how);
        }
        Kind::Contents => match (as_contents(units), as_contents(needle), as_contents(with)) {
            (Ok(view), Ok(needle), Ok(with)) => {
                in_contents(memory, answer, view, needle, with, how);
            }
            _ => answer.fail(NoAnswer::Unparsed),
        },
        _ => match (as_text(units), as_text(needle), as_text(with)) {
            (Ok(text), Ok(needle), Ok(with)) => {
                in_text(memory, answer, text, needle, with, how);
            }
            _ => answer.fail(NoAnswer::Unparsed),
        },
    }
}

fn char_replaced<C: ReportedUnit>(
    memory: Memory<'_>,
    answer: &mut Answer,
    units: &[C],
    c: char,
    with: &[C],
    how: How,
) {
    match (as_text(units), as_text(with)) {
        (Ok(text), Ok(with)) => char_in_text(memory, answer, text, c, with, how),
        _ => answer.fail(NoAnswer::Unparsed),
    }
}

fn with_needle<C: ReportedUnit>(
    memory: Memory<'_>,
    answer: &mut Answer,
    (kind, needle, _, how): Parts<'_>,
    units: &[C],
    with: &[C],
) {
    match kind {
        Kind::Char => match parse::value(needle) {
            Ok(c) => char_replaced(memory, answer, units, c, with, how),
            Err(error) => answer.fail(error),
        },
        _ => match parse::list::<C>(memory.alloc, needle) {
            Ok(needle) => replaced(memory, answer, kind, units, &needle, with, how),
            Err(error) => answer.fail(error),
        },
    }
}

fn way_of(word: &str) -> Result<How, NoAnswer> {
    match word {
        "-" => Ok(How::All),
        "i" => Ok(How::InPlace),
        _ => Ok(How::First(parse::value(word)?)),
    }
}

fn parsed(question: &str) -> Result<Parts<'_>, NoAnswer> {
    let (kind, rest) = parse::word(question);
    let (needle, rest) = parse::parts(rest)?;
    let (with, word) = parse::parts(rest)?;
    Ok((parse::named(&KINDS, kind)?, needle, with, way_of(word)?))
}

fn with_parts<C: ReportedUnit>(
    memory: Memory<'_>,
    answer: &mut Answer,
    parts: Parts<'_>,
    units: &[C],
) {
    match parse::list::<C>(memory.alloc, parts.2) {
        Ok(with) => with_needle(memory, answer, parts, units, &with),
        Err(error) => answer.fail(error),
    }
}

/// Adds the answer to a question about replacements in units of either width.
pub fn asked<C: ReportedUnit>(
    memory: Memory<'_>,
    answer: &mut Answer,
    units: &[C],
    question: &str,
) {
    match parsed(question) {
        Ok(parts) => with_parts(memory, answer, parts, units),
        Err(error) => answer.fail(error),
    }
}
