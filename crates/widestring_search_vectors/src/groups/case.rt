//! ASCII in units of either width, and their order by code points. A question is the letter of a view, as in
//! `kinds.rt`, a word for the call, and the units of another list, if there are two: `u lower`, `t order 61 62`.
//!
//! - `ascii` is whether all units are ASCII, and `same` whether both lists are the same without regard to the case of
//!   ASCII letters: `1` or `0`.
//! - `lower` and `upper` are the units of a new string with its ASCII letters in that case. It makes one request for
//!   memory, and none if it has no units; else the answer has a `?`.
//! - `order` is the order of two lists by code points, where a unit that belongs to no character is one: `<`, `=` or
//!   `>`.
use crate::groups::kinds::{self, Kind};
use crate::groups::made;
use widestring::ucstr::UCStr;
use widestring::ucstring::UCStrInUcstring;
use widestring::ustr::UStr;
use widestring::ustring::UStrInUstring;
use widestring::utfstr::UtfStr;
use widestring::utfstring::UtfStrInUtfstring;
use widestring_replay::made::{as_contents, as_text};
use widestring_replay::parse::{self, Memory, NoAnswer};
use widestring_replay::show::{Answer, ReportedUnit};

// The calls.
#[derive(Clone, Copy)]
enum Call {
    Ascii,
    Same,
    Lower,
    Upper,
    Order,
}

static CALLS: [(&str, Call); 5] = [
    ("ascii", Call::Ascii),
    ("same", Call::Same),
    ("lower", Call::Lower),
    ("upper", Call::Upper),
    ("order", Call::Order),
];

fn of_units<C: ReportedUnit>(
    memory: Memory<'_>,
    answer: &mut Answer,
    call: Call,
    view: UStr<'_, C>,
    other: UStr<'_, C>,
) {
    let (heap, left) = (memory.heap, memory.heap.left());
    match call {
        Call::Ascii => answer.decided(view.is_ascii()),
        Call::Same => answer.decided(view.eq_ignore_ascii_case(other)),
        Call::Lower => made::units(memory, answer, left, view.to_ascii_lowercase(heap)),
        Call::Upper => made::units(memory, answer, left, view.to_ascii_uppercase(heap)),
        Call::Order => answer.order(view.cmp_code_points(other)),
    }
}

fn of_text<C: ReportedUnit>(
    memory: Memory<'_>,
    answer: &mut Answer,
    call: Call,
    text: UtfStr<'_, C>,
    other: UtfStr<'_, C>,
) {
    let (heap, left) = (memory.heap, memory.heap.left());
    match call {
        Call::Ascii => answer.decided(text.is_ascii()),
        Call::Same => answer.decided(text.eq_ignore_ascii_case(other)),
        Call::Lower => made::text(memory, answer, left, text.to_ascii_lowercase(heap)),
        Call::Upper => made::text(memory, answer, left, text.to_ascii_uppercase(heap)),
        Call::Order => answer.order(text.cmp_code_points(other)),
    }
}

fn of_contents<C: ReportedUnit>(
    memory: Memory<'_>,
    answer: &mut Answer,
    call: Call,
    view: UCStr<'_, C>,
    other: UCStr<'_, C>,
) {
    let (heap, left) = (memory.heap, memory.heap.left());
    match call {
        Call::Ascii => answer.decided(view.is_ascii()),
        Call::Same => answer.decided(view.eq_ignore_ascii_case(other)),
        Call::Lower => made::contents(memory, answer, left, view.to_ascii_lowercase(heap)),
        Call::Upper => made::contents(memory, answer, left, view.to_ascii_uppercase(heap)),
        Call::Order => answer.order(view.cmp_code_points(other)),
    }
}

// Makes a call of views of this kind of two lists. For C strings both end with a NUL.
fn of_kind<C: ReportedUnit>(
    memory: Memory<'_>,
    answer: &mut Answer,
    kind: Kind,
    call: Call,
    units: &[C],
    other: &[C],
) {
    match kind {
        Kind::Units => {
            let (view, other) = (UStr::from_slice(units), UStr::from_slice(other));
            of_units(memory, answer, call, view, other);
        }
        Kind::Text => match (as_text(units), as_text(other)) {
            (Ok(text), Ok(other)) => of_text(memory, answer, call, text, other),
            _ => answer.fail(NoAnswer::Unparsed),
        },
        Kind::Contents => match (as_contents(units), as_contents(other)) {
            (Ok(view), Ok(other)) => of_contents(memory, answer, call, view, other),
            _ => answer.fail(NoAnswer::Unparsed),
        },
    }
}

// Splits a question into its view, its call, and the units of the other list.
fn parsed(question: &str) -> Result<(Kind, Call, &str), NoAnswer> {
    let (kind, rest) = kinds::parsed(question)?;
    let (call, list) = parse::word(rest);
    Ok((kind, parse::named(&CALLS, call)?, list))
}

fn with_list<C: ReportedUnit>(
    memory: Memory<'_>,
    answer: &mut Answer,
    (kind, call, list): (Kind, Call, &str),
    units: &[C],
) {
    match parse::list::<C>(memory.alloc, list) {
        Ok(other) => of_kind(memory, answer, kind, call, units, &other),
        Err(error) => answer.fail(error),
    }
}

/// Adds the answer to a question about ASCII in units of either width.
pub fn asked<C: ReportedUnit>(
    memory: Memory<'_>,
    answer: &mut Answer,
    units: &[C],
    question: &str,
) {
    match parsed(question) {
        Ok(parsed) => with_list(memory, answer, parsed, units),
        Err(error) => answer.fail(error),
    }
}
