//! Scripts of calls of owned strings of well-formed text, in units of either width. A question has calls separated by
//! `/`.
//!
//! The first makes the string of the list: `v` from the vector, `t` from the text that has these units, `f` from the
//! characters of that text, `u` from a string of any units, `c` from a C string. A `+` and the spare capacity of the
//! vector may follow; then the number of requests of each call follows its answer after a `#`. The answer is the
//! string's units, or the index, the item number and the unit of the first fault and the vector that the error returns,
//! and then no calls follow. Each other call is a letter and its arguments, and adds two fields to the answer: what the
//! call returns, and the units that it leaves. If an offset or a range is not one of the text, the answer is a `-`, and
//! the string is unchanged.
//!
//! - `c`, `s`, `u`: `push`, `push_str`, `push_utfstr`, with a character, or the units of a text.
//! - `e`, `n`: extended by characters, and by references to characters.
//! - `i`, `j`: `insert`, `insert_utfstr`, with an offset, a colon, and a character or units.
//! - `r`, `t`, `o`: `remove`, `truncate`, `split_off`, with an offset.
//! - `x`, `d`: `replace_range`, `drain`, with a range, a colon, and units or a word of calls. A drain answers with the
//!   characters, and as a field of its own what it still has when it is dropped.
//! - `k`: `retain`, with a number: it retains the characters that have no bit of the number. The answer is how often it
//!   calls the closure.
//! - `K`: `retain`, with a bit for each call: it retains the characters at a `1`. The answer is how often it calls the
//!   closure.
//! - `p`, `l`: `pop`, `clear`.
//! - `.`: a call by its name, of `text_calls`.
use crate::groups::outcomes::failed;
use crate::groups::pieces::{self, Text};
use crate::groups::text_calls::{self, shown};
use crate::groups::ustring::range_and_more;
use std::alloc::Global;
use std::ops::Bound;
use widestring::error::{FaultUnit, UtfError};
use widestring::iter::End;
use widestring::ucstring::UCString;
use widestring::unit::Unit;
use widestring::ustring::UString;
use widestring::utfstr::UtfStr;
use widestring::utfstring::{DrainUtf, UtfString};
use widestring_replay::asked;
use widestring_replay::parse::{self, FromHex, Memory, NoAnswer};
use widestring_replay::show::{Answer, ReportedUnit};
use widestring_testing::Heap;

// Appends a character.
fn push<C: FaultUnit>(string: &mut Text<'_, C>, answer: &mut Answer, c: &str) {
    match parse::value(c) {
        Ok(c) => answer.done(string.push(c)),
        Err(error) => answer.fail(error),
    }
}

// Appends the text of a list.
fn push_str<C: FaultUnit + FromHex>(
    alloc: Global,
    string: &mut Text<'_, C>,
    answer: &mut Answer,
    list: &str,
) {
    match pieces::text::<C>(alloc, list) {
        Ok(text) => answer.done(string.push_str(&text)),
        Err(error) => answer.fail(error),
    }
}

// Appends a text of units.
fn push_text<C: FaultUnit + FromHex>(
    alloc: Global,
    string: &mut Text<'_, C>,
    answer: &mut Answer,
    list: &str,
) {
    match pieces::utfstring(alloc, list) {
        Ok(more) => answer.done(string.push_utfstr(more.as_utfstr())),
        Err(error) => answer.fail(error),
    }
}

// Inserts a character at an offset.
fn insert<C: FaultUnit>(string: &mut Text<'_, C>, answer: &mut Answer, at: usize, c: &str) {
    match parse::value(c) {
        Ok(c) if string.as_utfstr().is_char_boundary(at) => answer.done(string.insert(at, c)),
        Ok(_) => answer.number(None),
        Err(error) => answer.fail(error),
    }
}

// Inserts a text at an offset.
fn insert_text<C: FaultUnit>(
    string: &mut Text<'_, C>,
    answer: &mut Answer,
    at: usize,
    with: UtfStr<'_, C>,
) {
    if string.as_utfstr().is_char_boundary(at) {
        answer.done(string.insert_utfstr(at, with));
    } else {
        answer.number(None);
    }
}

// Inserts a text of units at an offset.
fn insert_units<C: FaultUnit + FromHex>(
    alloc: Global,
    string: &mut Text<'_, C>,
    answer: &mut Answer,
    at: usize,
    list: &str,
) {
    match pieces::utfstring(alloc, list) {
        Ok(with) => insert_text(string, answer, at, with.as_utfstr()),
        Err(error) => answer.fail(error),
    }
}

// Removes the character at an offset.
fn remove<C: FaultUnit>(string: &mut Text<'_, C>, answer: &mut Answer, at: usize) {
    if at < string.len() && string.as_utfstr().is_char_boundary(at) {
        answer.character(Some(string.remove(at)));
    } else {
        answer.number(None);
    }
}

// Truncates the text at an offset. An offset past the end does nothing.
fn truncate<C: FaultUnit>(string: &mut Text<'_, C>, answer: &mut Answer, at: usize) {
    if at > string.len() || string.as_utfstr().is_char_boundary(at) {
        string.truncate(at);
    } else {
        answer.number(None);
    }
}

// Splits the text off at an offset, as a new string.
fn split_off<C: FaultUnit>(string: &mut Text<'_, C>, answer: &mut Answer, at: usize) {
    if string.as_utfstr().is_char_boundary(at) {
        shown(answer, string.split_off(at));
    } else {
        answer.number(None);
    }
}

// Adds what a drain returns, and what it still has when it is dropped.
fn drained<C: FaultUnit>(drain: &mut DrainUtf<'_, C, &Heap>, answer: &mut Answer, calls: &[End]) {
    for end in calls {
        answer.character(asked!(drain, end));
    }
    let len = drain.as_utfstr().len();
    if drain.size_hint() != (len / C::MAX_CHAR_LEN, Some(len)) {
        answer.word("?");
    }
    answer.part();
    answer.units(drain.as_utfstr().as_slice());
}

// Drains a range.
fn drain<C: FaultUnit>(
    string: &mut Text<'_, C>,
    answer: &mut Answer,
    range: (Bound<usize>, Bound<usize>),
    calls: &[End],
) {
    if string.as_utfstr().get(range).is_some() {
        drained(&mut string.drain(range), answer, calls);
    } else {
        answer.number(None);
    }
}

// Drains a range, with a word of calls.
fn drain_by<C: FaultUnit>(
    alloc: Global,
    string: &mut Text<'_, C>,
    answer: &mut Answer,
    range: (Bound<usize>, Bound<usize>),
    word: &str,
) {
    match parse::calls(alloc, word) {
        Ok(calls) => drain(string, answer, range, &calls),
        Err(error) => answer.fail(error),
    }
}

// Replaces a range by a text.
fn replace<C: FaultUnit>(
    string: &mut Text<'_, C>,
    answer: &mut Answer,
    range: (Bound<usize>, Bound<usize>),
    with: UtfStr<'_, C>,
) {
    if string.as_utfstr().get(range).is_some() {
        answer.done(string.replace_range(range, with));
    } else {
        answer.number(None);
    }
}

// Replaces a range by a text of units.
fn replace_by<C: FaultUnit + FromHex>(
    alloc: Global,
    string: &mut Text<'_, C>,
    answer: &mut Answer,
    range: (Bound<usize>, Bound<usize>),
    list: &str,
) {
    match pieces::utfstring(alloc, list) {
        Ok(with) => replace(string, answer, range, with.as_utfstr()),
        Err(error) => answer.fail(error),
    }
}

// Retains the characters that have no bit of the mask.
fn retain<C: FaultUnit>(string: &mut Text<'_, C>, answer: &mut Answer, mask: u32) {
    let mut calls = 0u32;
    string.retain(|c| {
        calls = calls.saturating_add(1);
        u32::from(c) & mask == 0
    });
    answer.number(Some(calls));
}

// Retains the characters whose call has the bit `1`.
fn retain_by_call<C: FaultUnit>(string: &mut Text<'_, C>, answer: &mut Answer, bits: &[u8]) {
    let mut calls = 0usize;
    string.retain(|_c| {
        let bit = bits.get(calls).copied();
        calls = calls.saturating_add(1);
        bit == Some(b'1')
    });
    answer.count(Some(calls));
}

// Extends a string by characters (`e`), or by references to them.
fn extend<C: FaultUnit>(
    alloc: Global,
    string: &mut Text<'_, C>,
    answer: &mut Answer,
    kind: u8,
    list: &str,
) {
    match parse::list::<char>(alloc, list) {
        Ok(chars) if kind == b'e' => answer.done(string.extend_chars(chars)),
        Ok(chars) => answer.done(string.extend_char_refs(&chars)),
        Err(error) => answer.fail(error),
    }
}

// Parses an offset, and what follows its colon.
fn offset_and_more(more: &str) -> Result<(usize, &str), NoAnswer> {
    let (position, list) = parse::parts(more)?;
    Ok((parse::value(position)?, list))
}

// Inserts a character (`i`) or a text at an offset, and adds the answer.
fn put_in<C: FaultUnit + FromHex>(
    alloc: Global,
    string: &mut Text<'_, C>,
    answer: &mut Answer,
    kind: u8,
    more: &str,
) {
    match offset_and_more(more) {
        Ok((at, c)) if kind == b'i' => insert(string, answer, at, c),
        Ok((at, list)) => insert_units(alloc, string, answer, at, list),
        Err(error) => answer.fail(error),
    }
}

// Removes the character at an offset (`r`) or all text from there on, and adds the answer.
fn cut<C: FaultUnit>(string: &mut Text<'_, C>, answer: &mut Answer, kind: u8, at: &str) {
    match parse::value(at) {
        Ok(at) => match kind {
            b'r' => remove(string, answer, at),
            b't' => truncate(string, answer, at),
            _ => split_off(string, answer, at),
        },
        Err(error) => answer.fail(error),
    }
}

// Makes a call at a range, and adds what it returns.
fn call_in<C: FaultUnit + FromHex>(
    alloc: Global,
    string: &mut Text<'_, C>,
    answer: &mut Answer,
    kind: u8,
    more: &str,
) {
    match range_and_more(more) {
        Ok((range, word)) if kind == b'd' => drain_by(alloc, string, answer, range, word),
        Ok((range, list)) => replace_by(alloc, string, answer, range, list),
        Err(error) => answer.fail(error),
    }
}

// Makes a call that removes text and allocates nothing, and adds what it returns.
fn removed<C: FaultUnit>(string: &mut Text<'_, C>, answer: &mut Answer, kind: u8, more: &str) {
    match kind {
        b'k' => match parse::value(more) {
            Ok(mask) => retain(string, answer, mask),
            Err(error) => answer.fail(error),
        },
        b'K' => retain_by_call(string, answer, more.as_bytes()),
        b'p' => answer.character(string.pop()),
        b'l' => string.clear(),
        _ => answer.fail(NoAnswer::Unparsed),
    }
}

// Makes a call, and adds what it returns.
fn call<'a, C: ReportedUnit>(
    memory: Memory<'a>,
    string: &mut Text<'a, C>,
    answer: &mut Answer,
    call: &str,
) {
    let alloc = memory.alloc;
    match parse::kind(call) {
        Ok((b'c', c)) => push(string, answer, c),
        Ok((b's', list)) => push_str(alloc, string, answer, list),
        Ok((b'u', list)) => push_text(alloc, string, answer, list),
        Ok((kind @ (b'e' | b'n'), list)) => extend(alloc, string, answer, kind, list),
        Ok((kind @ (b'i' | b'j'), more)) => put_in(alloc, string, answer, kind, more),
        Ok((kind @ (b'r' | b't' | b'o'), at)) => cut(string, answer, kind, at),
        Ok((kind @ (b'x' | b'd'), more)) => call_in(alloc, string, answer, kind, more),
        Ok((b'.', named)) => text_calls::named(memory, string, answer, named),
        Ok((kind, more)) => removed(string, answer, kind, more),
        Err(error) => answer.fail(error),
    }
}

// Returns whether a call whose request failed left the string as its contract says.
fn is_kept<C: ReportedUnit>(
    alloc: Global,
    call: &str,
    before: (&[C], usize),
    after: (&[C], usize),
) -> Result<bool, NoAnswer> {
    match parse::kind(call)? {
        (b'e' | b'n', _) => Ok(after.0.starts_with(before.0)),
        (b'.', named) => pieces::is_kept(alloc, named, before, after),
        _ => Ok((before.0 == after.0) & (before.1 == after.1)),
    }
}

// Makes a call in a field of its own, and adds what it returns. A text that would be too long is a `-`, with no
// request. Adds a `?` if a request failed and the string is then not as the contract says, given its units and its
// capacity before.
fn in_field<'a, C: ReportedUnit>(
    memory: Memory<'a>,
    string: &mut Text<'a, C>,
    answer: &mut Answer,
    written: &str,
    before: (&[C], usize),
) {
    let mut field = Answer::new(memory.alloc);
    call(memory, string, &mut field, written);
    match field.finish() {
        Ok(text) => answer.word(&text),
        Err(NoAnswer::OutOfMemory) => {
            let after = (string.as_slice(), string.capacity());
            let is_kept = is_kept(memory.alloc, written, before, after);
            failed(memory.heap, answer, is_kept);
        }
        Err(error) => answer.fail(error),
    }
}

// Makes a call of a script, and adds what it returns.
fn tried<'a, C: ReportedUnit>(
    memory: Memory<'a>,
    string: &mut Text<'a, C>,
    answer: &mut Answer,
    written: &str,
) {
    let capacity = string.capacity();
    match Vec::from_slice(memory.alloc, string.as_slice()) {
        Ok(units) => in_field(memory, string, answer, written, (&units, capacity)),
        Err(_) => answer.fail(NoAnswer::OutOfMemory),
    }
}

// The calls of a script that follow the first one, if there are any, and whether the requests of each are counted.
#[derive(Clone, Copy)]
struct Calls<'q> {
    written: Option<&'q str>,
    counts: bool,
}

// Makes the calls of a script. Adds what each returns and leaves, and how many requests it makes, if the question asks
// for that.
fn make_calls<'a, C: ReportedUnit>(
    memory: Memory<'a>,
    string: &mut Text<'a, C>,
    answer: &mut Answer,
    calls: &str,
    counts: bool,
) {
    for written in calls.split('/') {
        if answer.has_failed() {
            return;
        }
        answer.part();
        let left = memory.heap.left();
        tried(memory, string, answer, written);
        answer.part();
        answer.units(string.as_slice());
        if counts {
            answer.requests(memory.requests_since(left));
        }
    }
}

// Adds a string's units, and what comes of the calls, if there are any.
fn edited<'a, C: ReportedUnit>(
    memory: Memory<'a>,
    string: &mut Text<'a, C>,
    answer: &mut Answer,
    calls: Calls<'_>,
) {
    answer.units(string.as_slice());
    if let Some(written) = calls.written {
        make_calls(memory, string, answer, written, calls.counts);
    }
}

// Adds the fault of ill-formed units.
fn faulty<'a, C: ReportedUnit>(answer: &mut Answer, error: UtfError<C, &'a Heap>) {
    answer.first_fault(&error);
    answer.part();
    answer.handed_back(error.into_vec());
}

// Adds what comes of a string that was checked, or its fault, after which no calls follow.
fn checked<'a, C: ReportedUnit>(
    memory: Memory<'a>,
    answer: &mut Answer,
    made: Result<Text<'a, C>, UtfError<C, &'a Heap>>,
    calls: Calls<'_>,
) {
    match made {
        Ok(mut string) => edited(memory, &mut string, answer, calls),
        Err(error) if calls.written.is_none() => faulty(answer, error),
        Err(_) => answer.fail(NoAnswer::Unparsed),
    }
}

// Adds what comes of the string of a text.
fn of_text<C: ReportedUnit>(memory: Memory<'_>, answer: &mut Answer, text: &str, calls: Calls<'_>) {
    match UtfString::<C, _>::from_str(memory.heap, text) {
        Ok(mut string) => edited(memory, &mut string, answer, calls),
        Err(_) => answer.fail(NoAnswer::OutOfMemory),
    }
}

// Adds what comes of the string of the characters of a text.
fn of_chars<C: ReportedUnit>(
    memory: Memory<'_>,
    answer: &mut Answer,
    text: &str,
    calls: Calls<'_>,
) {
    match UtfString::<C, _>::from_iter_chars(memory.heap, text.chars()) {
        Ok(mut string) => edited(memory, &mut string, answer, calls),
        Err(_) => answer.fail(NoAnswer::OutOfMemory),
    }
}

// Adds what comes of the string of a C string.
fn of_c_string<'a, C: ReportedUnit>(
    memory: Memory<'a>,
    answer: &mut Answer,
    units: Vec<C, &'a Heap>,
    calls: Calls<'_>,
) {
    match UCString::from_vec(units) {
        Ok(string) => checked(memory, answer, UtfString::from_ucstring(string), calls),
        Err(_) => answer.fail(NoAnswer::OutOfMemory),
    }
}

// What a string is made of.
#[derive(Clone, Copy)]
enum Source {
    Text,
    Chars,
    Vec,
    Units,
    Contents,
}

static SOURCES: [(&str, Source); 5] = [
    ("t", Source::Text),
    ("f", Source::Chars),
    ("v", Source::Vec),
    ("u", Source::Units),
    ("c", Source::Contents),
];

// Adds what comes of the string of the text of a list.
fn by_text<C: ReportedUnit>(memory: Memory<'_>, answer: &mut Answer, list: &str, calls: Calls<'_>) {
    match pieces::text::<C>(memory.alloc, list) {
        Ok(text) => of_text::<C>(memory, answer, &text, calls),
        Err(error) => answer.fail(error),
    }
}

// Adds what comes of the string of the characters of a list.
fn by_chars<C: ReportedUnit>(
    memory: Memory<'_>,
    answer: &mut Answer,
    list: &str,
    calls: Calls<'_>,
) {
    match pieces::text::<C>(memory.alloc, list) {
        Ok(text) => of_chars::<C>(memory, answer, &text, calls),
        Err(error) => answer.fail(error),
    }
}

// Adds what comes of the string of a vector, or of what holds its units.
fn of_vec<'a, C: ReportedUnit>(
    memory: Memory<'a>,
    answer: &mut Answer,
    source: Source,
    units: Vec<C, &'a Heap>,
    calls: Calls<'_>,
) {
    match source {
        Source::Contents => of_c_string(memory, answer, units, calls),
        Source::Units => checked(
            memory,
            answer,
            UtfString::from_ustring(UString::from_vec(units)),
            calls,
        ),
        _ => checked(memory, answer, UtfString::from_vec(units), calls),
    }
}

// Adds what comes of the string of a list, whose vector has this spare capacity.
fn made<C: ReportedUnit>(
    memory: Memory<'_>,
    answer: &mut Answer,
    list: &str,
    (source, spare): (Source, usize),
    calls: Calls<'_>,
) {
    match source {
        Source::Text => by_text::<C>(memory, answer, list, calls),
        Source::Chars => by_chars::<C>(memory, answer, list, calls),
        _ => match pieces::counted::<C>(memory, list, spare) {
            Ok(units) => of_vec(memory, answer, source, units, calls),
            Err(error) => answer.fail(error),
        },
    }
}

// Parses a question: what the string is made of, with its spare capacity, and the calls that follow.
fn parse_question(question: &str) -> Result<((Source, usize), Calls<'_>), NoAnswer> {
    let (maker, written) = match question.split_once('/') {
        None => (question, None),
        Some((maker, written)) => (maker, Some(written)),
    };
    let (kind, spare, counts) = match maker.split_once('+') {
        None => (maker, 0, false),
        Some((kind, spare)) => (kind, parse::value::<usize>(spare)?, true),
    };
    let source = parse::named(&SOURCES, kind)?;
    Ok(((source, spare), Calls { written, counts }))
}

/// Adds what the calls of a script return, and the units that each leaves.
pub fn script<C: ReportedUnit>(
    memory: Memory<'_>,
    answer: &mut Answer,
    list: &str,
    question: &str,
) {
    match parse_question(question) {
        Ok((source, calls)) => made::<C>(memory, answer, list, source, calls),
        Err(error) => answer.fail(error),
    }
}
