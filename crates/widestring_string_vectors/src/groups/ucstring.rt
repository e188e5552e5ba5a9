//! The constructors of C strings of units of either width. A question is the letter of what the C string is made of,
//! `s` for a slice, `v` for a vector, `u` for a view, `t` for the text that has these units, `l` for a literal and `n`
//! for nothing. A `c` follows if the call truncates at the first NUL, and a `!` if it makes no check, for at most one
//! unit. For a vector a `+` and its spare capacity may follow, and then a `#` if the answer has the number of requests
//! after another `#`. After a `.` comes a call of the C string whose contents are the units, by its name
//! (`ucstring_calls`).
//!
//! The answer is the contents of a view, or the units of an owned C string and its NUL; a `-` if there is no NUL to end
//! a view; or the offset of an inner NUL and the vector that the error returns.
use crate::groups::outcomes::handed_back;
use crate::groups::{pieces, ucstring_calls};
use std::alloc::Global;
use widestring::error::{FaultUnit, NulError, UCStringError};
use widestring::ucstr::UCStr;
use widestring::ucstring::UCString;
use widestring::unit::Unit;
use widestring::ustr::UStr;
use widestring_replay::made::text_of;
use widestring_replay::parse::{self, Memory, NoAnswer};
use widestring_replay::show::{Answer, ReportedUnit};
use widestring_testing::Heap;

// What a constructor does about a NUL among the units.
#[derive(Clone, Copy)]
enum Check {
    Whole,
    Truncate,
    Unchecked,
}

// The constructors.
#[derive(Clone, Copy)]
enum Maker {
    Slice,
    SliceTruncate,
    New,
    OfVec(Check),
    OfView(Check),
    OfText(Check),
    Literal,
}

static MAKERS: [(&str, Maker); 13] = [
    ("s", Maker::Slice),
    ("sc", Maker::SliceTruncate),
    ("n", Maker::New),
    ("v", Maker::OfVec(Check::Whole)),
    ("vc", Maker::OfVec(Check::Truncate)),
    ("v!", Maker::OfVec(Check::Unchecked)),
    ("u", Maker::OfView(Check::Whole)),
    ("uc", Maker::OfView(Check::Truncate)),
    ("u!", Maker::OfView(Check::Unchecked)),
    ("t", Maker::OfText(Check::Whole)),
    ("tc", Maker::OfText(Check::Truncate)),
    ("t!", Maker::OfText(Check::Unchecked)),
    ("l", Maker::Literal),
];

/// What a constructor makes, or its error.
pub type Made<'a, C> = Result<UCString<C, &'a Heap>, UCStringError<C, &'a Heap>>;

// Adds a view of all units.
fn view<C: FaultUnit>(answer: &mut Answer, units: &[C]) {
    match UCStr::from_slice(units) {
        Ok(view) => answer.units(view.as_slice()),
        Err(NulError::MissingNulTerminator(_)) => answer.number(None),
        Err(NulError::ContainsNul(error)) => answer.inner_nul(error),
    }
}

// Adds a view of the units up to the first NUL.
fn view_cut<C: FaultUnit>(answer: &mut Answer, units: &[C]) {
    match UCStr::from_slice_truncate(units) {
        Ok(view) => answer.units(view.as_slice()),
        Err(_) => answer.number(None),
    }
}

/// Adds a C string of a copy.
pub fn copied<C: ReportedUnit>(answer: &mut Answer, made: Made<'_, C>) {
    match made {
        Ok(string) => answer.units(string.as_ucstr().as_slice_with_nul()),
        Err(UCStringError::ContainsNul(error)) => answer.inner_nul(error),
        Err(UCStringError::OutOfMemory(None)) => answer.fail(NoAnswer::OutOfMemory),
        Err(UCStringError::OutOfMemory(Some(_back))) => answer.word("?"),
    }
}

// Adds a C string of a vector of these units and this capacity, which an allocation failure must return.
fn taken<C: ReportedUnit>(answer: &mut Answer, made: Made<'_, C>, units: &[C], capacity: usize) {
    match made {
        Ok(string) => answer.units(string.as_ucstr().as_slice_with_nul()),
        Err(UCStringError::ContainsNul(error)) => answer.inner_nul(error),
        Err(UCStringError::OutOfMemory(None)) => handed_back(answer, false),
        Err(UCStringError::OutOfMemory(Some(back))) => handed_back(
            answer,
            (back.as_slice() == units) & (back.capacity() == capacity),
        ),
    }
}

// Adds a C string of a vector of these units.
fn of_vec<'a, C: ReportedUnit>(
    answer: &mut Answer,
    check: Check,
    vec: Vec<C, &'a Heap>,
    units: &[C],
) {
    let capacity = vec.capacity();
    match check {
        Check::Whole => taken(answer, UCString::from_vec(vec), units, capacity),
        Check::Truncate => taken(answer, UCString::from_vec_truncate(vec), units, capacity),
        Check::Unchecked if vec.len() <= 1 => {
            taken(answer, UCString::from_vec_unchecked(vec), units, capacity)
        }
        Check::Unchecked => answer.fail(NoAnswer::Unparsed),
    }
}

// Adds a C string of a vector, and the number of requests if the question asks for that.
fn by_vec<C: ReportedUnit>(
    memory: Memory<'_>,
    answer: &mut Answer,
    check: Check,
    units: &[C],
    asked: Asked,
) {
    match pieces::vec_on(memory.heap, units, asked.spare) {
        Ok(vec) => {
            let left = memory.heap.left();
            of_vec(answer, check, vec, units);
            count(memory, answer, left, asked.counts);
        }
        Err(error) => answer.fail(error),
    }
}

// Adds the number of requests since `left` ones were still to be granted, if the question asks for that.
fn count(memory: Memory<'_>, answer: &mut Answer, left: u64, counts: bool) {
    if counts {
        answer.requests(memory.requests_since(left));
    }
}

// Adds a C string of nothing.
fn of_nothing<C: ReportedUnit>(heap: &Heap, answer: &mut Answer) {
    if UCString::<C, Global>::NUL_TERMINATOR == C::NUL {
        copied::<C>(answer, UCString::new(heap));
    } else {
        answer.fail(NoAnswer::Unparsed);
    }
}

// Adds a C string of a copy of units.
fn of_view<C: ReportedUnit>(heap: &Heap, answer: &mut Answer, check: Check, view: UStr<'_, C>) {
    match check {
        Check::Whole => copied(answer, UCString::from_ustr(heap, view)),
        Check::Truncate => copied(answer, UCString::from_ustr_truncate(heap, view)),
        Check::Unchecked if view.len() <= 1 => {
            copied(answer, UCString::from_ustr_unchecked(heap, view))
        }
        Check::Unchecked => answer.fail(NoAnswer::Unparsed),
    }
}

// Adds a C string of a text.
fn of_text<C: ReportedUnit>(heap: &Heap, answer: &mut Answer, check: Check, text: &str) {
    match check {
        Check::Whole => copied::<C>(answer, UCString::from_str(heap, text)),
        Check::Truncate => copied::<C>(answer, UCString::from_str_truncate(heap, text)),
        Check::Unchecked if C::text_len(text) <= 1 => {
            copied::<C>(answer, UCString::from_str_unchecked(heap, text))
        }
        Check::Unchecked => answer.fail(NoAnswer::Unparsed),
    }
}

// Adds a C string of the text that has these units.
fn by_text<C: ReportedUnit>(memory: Memory<'_>, answer: &mut Answer, check: Check, units: &[C]) {
    match text_of(memory.alloc, units) {
        Ok(text) => of_text::<C>(memory.heap, answer, check, &text),
        Err(error) => answer.fail(error),
    }
}

// Adds a C string of the literal that has these units.
fn by_literal<C: ReportedUnit>(memory: Memory<'_>, answer: &mut Answer, units: &[C]) {
    match text_of(memory.alloc, units) {
        Ok(text) => copied::<C>(answer, UCString::from_str_literal(memory.heap, &text)),
        Err(error) => answer.fail(error),
    }
}

// Adds a view, or a C string of a copy.
fn by_slice<C: ReportedUnit>(memory: Memory<'_>, answer: &mut Answer, maker: Maker, units: &[C]) {
    match maker {
        Maker::Slice => view(answer, units),
        Maker::SliceTruncate => view_cut(answer, units),
        Maker::New => of_nothing::<C>(memory.heap, answer),
        Maker::OfView(check) => of_view(memory.heap, answer, check, UStr::from_slice(units)),
        Maker::OfText(check) => by_text(memory, answer, check, units),
        Maker::Literal => by_literal(memory, answer, units),
        Maker::OfVec(_) => answer.fail(NoAnswer::Unparsed),
    }
}

// Adds the C string that a constructor makes of units, or its error.
fn constructed<C: ReportedUnit>(
    memory: Memory<'_>,
    answer: &mut Answer,
    units: &[C],
    asked: Asked,
) {
    if let Maker::OfVec(check) = asked.maker {
        by_vec(memory, answer, check, units, asked);
    } else {
        let left = memory.heap.left();
        by_slice(memory, answer, asked.maker, units);
        count(memory, answer, left, asked.counts);
    }
}

// What a question asks for: a constructor, the spare capacity of a vector, and whether the requests are counted.
#[derive(Clone, Copy)]
struct Asked {
    maker: Maker,
    spare: usize,
    counts: bool,
}

// Parses a question about a constructor.
fn parse_question(question: &str) -> Result<Asked, NoAnswer> {
    let (call, counts) = match question.strip_suffix('#') {
        Some(call) => (call, true),
        None => (question, false),
    };
    let (call, spare) = match call.split_once('+') {
        Some((call, spare)) => (call, parse::value(spare)?),
        None => (call, 0),
    };
    Ok(Asked {
        maker: parse::named(&MAKERS, call)?,
        spare,
        counts,
    })
}

// Adds the C string that a constructor makes of a list, or its error.
fn of_list<C: ReportedUnit>(memory: Memory<'_>, answer: &mut Answer, list: &str, asked: Asked) {
    match parse::list::<C>(memory.alloc, list) {
        Ok(units) => constructed(memory, answer, &units, asked),
        Err(error) => answer.fail(error),
    }
}

/// Adds the C string that a constructor makes, or its error, or what a call of a C string returns.
pub fn made<C: ReportedUnit>(memory: Memory<'_>, answer: &mut Answer, list: &str, question: &str) {
    if let Some(call) = question.strip_prefix('.') {
        ucstring_calls::called::<C>(memory, answer, list, call);
    } else {
        match parse_question(question) {
            Ok(asked) => of_list::<C>(memory, answer, list, asked),
            Err(error) => answer.fail(error),
        }
    }
}
