//! Scripts of calls of strings of any units. A question has fields separated by `/`. The first is the spare capacity of
//! the string of the list, and each other one is a call, by its name, with its arguments after a space. README.md
//! of `widestring_replay` describes the calls.
//!
//! A call adds to the answer what it returns, a `;`, the units that it leaves, and after a `#` the number of its
//! requests. A string that would be too long is a `-`, with no request.
ghost use Rattle.std.specs.Prelude.{IfOk, ◌≤◌};

use crate::groups::outcomes::{failed, replaced};
use crate::groups::pieces::{self, Item, Units};
use crate::groups::ustring::range_and_more;
use crate::groups::ustring_items::by_items;
use std::alloc::Global;
use std::mem;
use std::ops::Bound;
use widestring::error::OutOfMemory;
use widestring::unit::range_check;
use widestring::ustr::UStr;
use widestring::ustring::{CowUStr, UStrInUstring, UString};
use widestring_replay::parse::{self, Memory, NoAnswer};
use widestring_replay::show::{Answer, ReportedUnit};
use widestring_testing::Heap;

// The calls that take nothing.
#[derive(Clone, Copy)]
enum NoArgument {
    ShrinkToFit,
    TryClone,
    ToUstring,
    IntoOwned,
    Keep,
    Boxed,
    New,
    Clear,
    Reverse,
    PopChar,
}

static NO_ARGUMENT: [(&str, NoArgument); 10] = [
    ("shrink_to_fit", NoArgument::ShrinkToFit),
    ("try_clone", NoArgument::TryClone),
    ("to_ustring", NoArgument::ToUstring),
    ("into_owned", NoArgument::IntoOwned),
    ("keep", NoArgument::Keep),
    ("boxed", NoArgument::Boxed),
    ("new", NoArgument::New),
    ("clear", NoArgument::Clear),
    ("reverse", NoArgument::Reverse),
    ("pop_char", NoArgument::PopChar),
];

/// The calls that take a capacity, or a number of units.
#[derive(Clone, Copy)]
pub enum Capacity {
    /// `with_capacity`
    New,
    /// `reserve`
    Reserve,
    /// `reserve_exact`
    ReserveExact,
    /// `shrink_to`
    ShrinkTo,
}

// The calls that take a number.
#[derive(Clone, Copy)]
enum Number {
    Repeat,
    Truncate,
    SplitOff,
    RemoveChar,
}

// The calls that take a text.
#[derive(Clone, Copy)]
enum OfText {
    PushStr,
    WriteStr,
    FromStr,
}

// The calls that take units.
#[derive(Clone, Copy)]
enum OfUnits {
    Push,
    PushSlice,
    RetainOther,
}

// The calls that take a range and a list.
#[derive(Clone, Copy)]
enum OfRange {
    SpliceStr,
    ReplaceRange,
    Drain,
}

// The calls that take something.
#[derive(Clone, Copy)]
enum WithArgument {
    Capacity(Capacity),
    Number(Number),
    Text(OfText),
    Units(OfUnits),
    Range(OfRange),
    PushChar,
    WriteChar,
    InsertChar,
    InsertUstr,
}

static WITH_ARGUMENT: [(&str, WithArgument); 21] = [
    ("with_capacity", WithArgument::Capacity(Capacity::New)),
    ("reserve", WithArgument::Capacity(Capacity::Reserve)),
    (
        "reserve_exact",
        WithArgument::Capacity(Capacity::ReserveExact),
    ),
    ("shrink_to", WithArgument::Capacity(Capacity::ShrinkTo)),
    ("repeat", WithArgument::Number(Number::Repeat)),
    ("truncate", WithArgument::Number(Number::Truncate)),
    ("split_off", WithArgument::Number(Number::SplitOff)),
    ("remove_char", WithArgument::Number(Number::RemoveChar)),
    ("push_str", WithArgument::Text(OfText::PushStr)),
    ("write_str", WithArgument::Text(OfText::WriteStr)),
    ("from_str", WithArgument::Text(OfText::FromStr)),
    ("push", WithArgument::Units(OfUnits::Push)),
    ("push_slice", WithArgument::Units(OfUnits::PushSlice)),
    ("retain_other", WithArgument::Units(OfUnits::RetainOther)),
    ("splice_str", WithArgument::Range(OfRange::SpliceStr)),
    ("replace_range", WithArgument::Range(OfRange::ReplaceRange)),
    ("drain", WithArgument::Range(OfRange::Drain)),
    ("push_char", WithArgument::PushChar),
    ("write_char", WithArgument::WriteChar),
    ("insert_char", WithArgument::InsertChar),
    ("insert_ustr", WithArgument::InsertUstr),
];

// Makes a call that takes a text.
fn with_text<'a, C: ReportedUnit>(
    heap: &'a Heap,
    string: &mut Units<'a, C>,
    answer: &mut Answer,
    call: OfText,
    text: &str,
) {
    match call {
        OfText::PushStr => answer.done(string.push_str(text)),
        OfText::WriteStr => answer.done(string.write_str(text)),
        OfText::FromStr => replaced(string, answer, UString::from_str(heap, text)),
    }
}

// Makes a call that takes the text of a list.
fn by_text<'a, C: ReportedUnit>(
    memory: Memory<'a>,
    string: &mut Units<'a, C>,
    answer: &mut Answer,
    call: OfText,
    list: &str,
) {
    match pieces::text::<C>(memory.alloc, list) {
        Ok(text) => with_text(memory.heap, string, answer, call, &text),
        Err(error) => answer.fail(error),
    }
}

// Makes a call that takes a capacity, or a number of units.
fn with_capacity<'a, C: ReportedUnit>(
    heap: &'a Heap,
    string: &mut Units<'a, C>,
    answer: &mut Answer,
    call: Capacity,
    number: usize,
) {
    match call {
        Capacity::New => replaced(string, answer, UString::with_capacity(heap, number)),
        Capacity::Reserve => answer.done(string.reserve(number)),
        Capacity::ReserveExact => answer.done(string.reserve_exact(number)),
        Capacity::ShrinkTo => answer.done(string.shrink_to(number)),
    }
}

// Makes a call that takes a capacity, and adds whether the capacity is then as its contract says.
fn sized<'a, C: ReportedUnit>(
    heap: &'a Heap,
    string: &mut Units<'a, C>,
    answer: &mut Answer,
    call: Capacity,
    number: &str,
) {
    match parse::value(number) {
        Ok(number) => {
            let (len, before) = (string.len(), string.capacity());
            with_capacity(heap, string, answer, call, number);
            answer.decided(has_capacity(call, number, len, before, string.capacity()));
        }
        Err(error) => answer.fail(error),
    }
}

/// Returns whether a call that takes a number may leave this capacity, for a string of this length and previous
/// capacity.
pub fn has_capacity(
    call: Capacity,
    number: usize,
    len: usize,
    before: usize,
    after: usize,
) -> bool {
    match call {
        Capacity::New => after >= number,
        Capacity::Reserve => after >= len.saturating_add(number),
        Capacity::ReserveExact => after == before.max(len.saturating_add(number)),
        Capacity::ShrinkTo => {
            let is_smaller = (after < before) | (before <= len.max(number));
            is_smaller & (after >= number.min(before)) & (after <= before)
        }
    }
}

// Makes a call that takes units.
fn with_units<C: ReportedUnit>(
    string: &mut Units<'_, C>,
    answer: &mut Answer,
    call: OfUnits,
    units: &[C],
) {
    match call {
        OfUnits::Push => answer.done(string.push(UStr::from_slice(units))),
        OfUnits::PushSlice => answer.done(string.push_slice(units)),
        OfUnits::RetainOther => string.retain(|unit| !units.contains(&unit)),
    }
}

// Makes a call that takes the units of a list.
fn by_units<C: ReportedUnit>(
    alloc: Global,
    string: &mut Units<'_, C>,
    answer: &mut Answer,
    call: OfUnits,
    list: &str,
) {
    match parse::list(alloc, list) {
        Ok(units) => with_units(string, answer, call, &units),
        Err(error) => answer.fail(error),
    }
}

/// Adds the units of a string that a call made.
pub fn shown<C: ReportedUnit>(answer: &mut Answer, made: Result<Units<'_, C>, OutOfMemory>) {
    match made {
        Ok(made) => answer.units(made.as_vec()),
        Err(OutOfMemory) => answer.fail(NoAnswer::OutOfMemory),
    }
}

// Makes an owned string of a borrowed one.
fn owned<'a, C: ReportedUnit>(
    heap: &'a Heap,
    view: UStr<'_, C>,
) -> Result<Units<'a, C>, OutOfMemory> {
    CowUStr::Borrowed(view).into_owned(heap)
}

// Makes an owned string of an owned one.
fn kept<'a, C: ReportedUnit>(
    heap: &'a Heap,
    string: Units<'a, C>,
) -> Result<Units<'a, C>, OutOfMemory> {
    let owned: CowUStr<'a, C, &'a Heap> = CowUStr::Owned(string);
    owned.into_owned(heap)
}

// Repeats the units of a string.
fn repeat<'a, C: ReportedUnit>(
    heap: &'a Heap,
    string: &mut Units<'a, C>,
    answer: &mut Answer,
    times: usize,
) {
    let made = string.as_ustr().repeat(heap, times);
    replaced(string, answer, made);
}

// Shrinks the capacity to the length, and adds whether it is then as the call's contract says.
fn fitted<C: ReportedUnit>(string: &mut Units<'_, C>, answer: &mut Answer) {
    let before = string.capacity();
    answer.done(string.shrink_to_fit());
    let after = string.capacity();
    answer.decided(has_capacity(Capacity::ShrinkTo, 0, string.len(), before, after));
}

// Makes a call that takes nothing.
fn alone<'a, C: ReportedUnit>(
    heap: &'a Heap,
    string: &mut Units<'a, C>,
    answer: &mut Answer,
    name: &str,
) {
    match parse::named(&NO_ARGUMENT, name) {
        Ok(NoArgument::ShrinkToFit) => fitted(string, answer),
        Ok(NoArgument::TryClone) => shown(answer, string.try_clone()),
        Ok(NoArgument::ToUstring) => shown(answer, string.as_ustr().to_ustring(heap)),
        Ok(NoArgument::IntoOwned) => shown(answer, owned(heap, string.as_ustr())),
        Ok(NoArgument::Keep) => keep(heap, string, answer),
        Ok(NoArgument::Boxed) => boxed(heap, string, answer),
        Ok(call) => without_memory(heap, string, answer, call),
        Err(error) => answer.fail(error),
    }
}

// Makes an owned string of the string, in its place.
fn keep<'a, C: ReportedUnit>(heap: &'a Heap, string: &mut Units<'a, C>, answer: &mut Answer) {
    let given = mem::replace(string, UString::new(heap));
    replaced(string, answer, kept(heap, given));
}

// Makes a box of a string, and a string of that, whose capacity must be its length.
fn boxed<'a, C: ReportedUnit>(heap: &'a Heap, string: &mut Units<'a, C>, answer: &mut Answer) {
    match mem::replace(string, UString::new(heap)).into_boxed_ustr() {
        Ok(boxed) => {
            let len = boxed.as_ustr().len();
            *string = boxed.into_ustring();
            check_exact(string, answer, len);
        }
        Err(given) => {
            *string = given;
            answer.fail(NoAnswer::OutOfMemory);
        }
    }
}

// Records a failure if a string has another length, or spare capacity.
fn check_exact<C: ReportedUnit>(string: &Units<'_, C>, answer: &mut Answer, len: usize) {
    if (string.len() != len) | (string.capacity() != len) {
        answer.fail(NoAnswer::Unparsed);
    }
}

// Makes a call that takes nothing and does not allocate.
fn without_memory<'a, C: ReportedUnit>(
    heap: &'a Heap,
    string: &mut Units<'a, C>,
    answer: &mut Answer,
    call: NoArgument,
) {
    match call {
        NoArgument::New => {
            *string = UString::new(heap);
            answer.count(Some(string.capacity()));
        }
        NoArgument::Clear => {
            string.clear();
            answer.decided(string.is_empty());
        }
        NoArgument::Reverse => string.as_mut_slice().reverse(),
        _ => answer.number(string.pop_char()),
    }
}

// Makes a call that takes a number.
fn with_number<'a, C: ReportedUnit>(
    heap: &'a Heap,
    string: &mut Units<'a, C>,
    answer: &mut Answer,
    call: Number,
    number: usize,
) {
    match call {
        Number::Repeat => repeat(heap, string, answer, number),
        Number::Truncate => string.truncate(number),
        Number::SplitOff => split_off(string, answer, number),
        Number::RemoveChar => remove_char(string, answer, number),
    }
}

// Makes a call that takes a number, which is parsed.
fn by_number<'a, C: ReportedUnit>(
    heap: &'a Heap,
    string: &mut Units<'a, C>,
    answer: &mut Answer,
    call: Number,
    number: &str,
) {
    match parse::value(number) {
        Ok(number) => with_number(heap, string, answer, call, number),
        Err(error) => answer.fail(error),
    }
}

fn split_off<C: ReportedUnit>(string: &mut Units<'_, C>, answer: &mut Answer, at: usize) {
    if at <= string.len() {
        shown(answer, string.split_off(at));
    } else {
        answer.fail(NoAnswer::Unparsed);
    }
}

fn remove_char<C: ReportedUnit>(string: &mut Units<'_, C>, answer: &mut Answer, at: usize) {
    if at < string.len() {
        answer.number(Some(string.remove_char(at)));
    } else {
        answer.fail(NoAnswer::Unparsed);
    }
}

// Parses an offset within bounds, and what follows its colon.
fn offset_in(len: usize, more: &str) -> Result<(usize, &str), NoAnswer>
    ensures { IfOk result (λ found. found.0 ≤ len) }
{
    let (at, list) = parse::parts(more)?;
    let at = parse::value::<usize>(at)?;
    if at > len {
        return Err(NoAnswer::Unparsed);
    }
    Ok((at, list))
}

fn insert_char<C: ReportedUnit>(
    alloc: Global,
    string: &mut Units<'_, C>,
    answer: &mut Answer,
    more: &str,
) {
    match offset_in(string.len(), more) {
        Ok((at, list)) => match Item::<C>::of(alloc, list) {
            Ok(c) => answer.done(string.insert_char(at, c)),
            Err(error) => answer.fail(error),
        },
        Err(error) => answer.fail(error),
    }
}

fn insert_ustr<C: ReportedUnit>(
    alloc: Global,
    string: &mut Units<'_, C>,
    answer: &mut Answer,
    more: &str,
) {
    match offset_in(string.len(), more) {
        Ok((at, list)) => match parse::list(alloc, list) {
            Ok(units) => answer.done(string.insert_ustr(at, UStr::from_slice(&units))),
            Err(error) => answer.fail(error),
        },
        Err(error) => answer.fail(error),
    }
}

// Makes a call at a range.
fn at_range<C: ReportedUnit>(
    alloc: Global,
    string: &mut Units<'_, C>,
    answer: &mut Answer,
    call: OfRange,
    more: &str,
) {
    match range_and_more(more) {
        Ok((range, list)) => match call {
            OfRange::SpliceStr => splice_str(alloc, string, answer, range, list),
            OfRange::ReplaceRange => replace_range(alloc, string, answer, range, list),
            OfRange::Drain => drain(string, answer, range),
        },
        Err(error) => answer.fail(error),
    }
}

fn splice_str<C: ReportedUnit>(
    alloc: Global,
    string: &mut Units<'_, C>,
    answer: &mut Answer,
    range: (Bound<usize>, Bound<usize>),
    list: &str,
) {
    match range_check(range, string.len()) {
        Some(range) => match pieces::text::<C>(alloc, list) {
            Ok(text) => answer.done(string.splice_str(range.start, range.end, &text)),
            Err(error) => answer.fail(error),
        },
        None => answer.fail(NoAnswer::Unparsed),
    }
}

fn replace_range<C: ReportedUnit>(
    alloc: Global,
    string: &mut Units<'_, C>,
    answer: &mut Answer,
    range: (Bound<usize>, Bound<usize>),
    list: &str,
) {
    match parse::list(alloc, list) {
        Ok(units) if range_check(range, string.len()).is_some() => {
            answer.done(string.replace_range(range, UStr::from_slice(&units)))
        }
        Ok(_) => answer.fail(NoAnswer::Unparsed),
        Err(error) => answer.fail(error),
    }
}

fn drain<C: ReportedUnit>(
    string: &mut Units<'_, C>,
    answer: &mut Answer,
    range: (Bound<usize>, Bound<usize>),
) {
    if range_check(range, string.len()).is_some() {
        answer.unit(string.drain(range).next());
    } else {
        answer.fail(NoAnswer::Unparsed);
    }
}

fn push_char<C: ReportedUnit>(string: &mut Units<'_, C>, answer: &mut Answer, c: &str) {
    match parse::value(c) {
        Ok(c) => answer.done(string.push_char(c)),
        Err(error) => answer.fail(error),
    }
}

fn write_char<C: ReportedUnit>(string: &mut Units<'_, C>, answer: &mut Answer, c: &str) {
    match parse::value(c) {
        Ok(c) => answer.done(string.write_char(c)),
        Err(error) => answer.fail(error),
    }
}

// Makes a call that takes something, and adds what it returns.
fn with_arguments<'a, C: ReportedUnit>(
    memory: Memory<'a>,
    string: &mut Units<'a, C>,
    answer: &mut Answer,
    name: &str,
    more: &str,
) {
    let (heap, alloc) = (memory.heap, memory.alloc);
    match parse::named(&WITH_ARGUMENT, name) {
        Ok(WithArgument::Capacity(call)) => sized(heap, string, answer, call, more),
        Ok(WithArgument::Number(call)) => by_number(heap, string, answer, call, more),
        Ok(WithArgument::Text(call)) => by_text(memory, string, answer, call, more),
        Ok(WithArgument::Units(call)) => by_units(alloc, string, answer, call, more),
        Ok(WithArgument::Range(call)) => at_range(alloc, string, answer, call, more),
        Ok(WithArgument::PushChar) => push_char(string, answer, more),
        Ok(WithArgument::WriteChar) => write_char(string, answer, more),
        Ok(WithArgument::InsertChar) => insert_char(alloc, string, answer, more),
        Ok(WithArgument::InsertUstr) => insert_ustr(alloc, string, answer, more),
        Err(error) => answer.fail(error),
    }
}

// Makes a call that takes items, or something else, and adds what it returns.
fn with_more<'a, C: ReportedUnit>(
    memory: Memory<'a>,
    string: &mut Units<'a, C>,
    answer: &mut Answer,
    name: &str,
    more: &str,
) {
    match pieces::items_called(name) {
        Some((how, kind)) => by_items(memory, string, answer, how, kind, more),
        None => with_arguments(memory, string, answer, name, more),
    }
}

// Makes a call, and adds what it returns.
fn call<'a, C: ReportedUnit>(
    memory: Memory<'a>,
    string: &mut Units<'a, C>,
    answer: &mut Answer,
    call: &str,
) {
    match call.split_once(' ') {
        None => alone(memory.heap, string, answer, call),
        Some((name, more)) => with_more(memory, string, answer, name, more),
    }
}

// Makes a call in a field of its own, and adds what it returns. Adds a `?` if a request failed and the string is then
// not as the contract says, given its units and its capacity before.
fn in_field<'a, C: ReportedUnit>(
    memory: Memory<'a>,
    string: &mut Units<'a, C>,
    answer: &mut Answer,
    written: &str,
    before: (&[C], usize),
) {
    let mut field = Answer::new(memory.alloc);
    call(memory, string, &mut field, written);
    match field.finish() {
        Ok(text) => answer.word(&text),
        Err(NoAnswer::OutOfMemory) => {
            let after = (string.as_slice(), string.capacity());
            let is_kept = pieces::is_kept(memory.alloc, written, before, after);
            failed(memory.heap, answer, is_kept);
        }
        Err(error) => answer.fail(error),
    }
}

// Makes a call of a script, and adds what it returns.
fn tried<'a, C: ReportedUnit>(
    memory: Memory<'a>,
    string: &mut Units<'a, C>,
    answer: &mut Answer,
    written: &str,
) {
    let capacity = string.capacity();
    match Vec::from_slice(memory.alloc, string.as_slice()) {
        Ok(units) => in_field(memory, string, answer, written, (&units, capacity)),
        Err(_) => answer.fail(NoAnswer::OutOfMemory),
    }
}

// Makes the calls of a script, and adds what each returns, leaves and requests.
fn make_calls<'a, C: ReportedUnit>(
    memory: Memory<'a>,
    string: &mut Units<'a, C>,
    answer: &mut Answer,
    calls: &str,
) {
    let mut is_first = true;
    for written in calls.split('/') {
        if answer.has_failed() {
            return;
        }
        if !is_first {
            answer.part();
        }
        is_first = false;
        let left = memory.heap.left();
        tried(memory, string, answer, written);
        answer.part();
        answer.units(string.as_slice());
        answer.requests(memory.requests_since(left));
    }
}

// Parses the spare capacity of a script's string, and what follows the `/` after it.
fn spare_and_calls(question: &str) -> Result<(usize, &str), NoAnswer> {
    match question.split_once('/') {
        Some((spare, calls)) => Ok((parse::value(spare)?, calls)),
        None => Err(NoAnswer::Unparsed),
    }
}

// Makes the calls of a script, of the string of a list with this spare capacity.
fn of_list<C: ReportedUnit>(
    memory: Memory<'_>,
    answer: &mut Answer,
    list: &str,
    (spare, calls): (usize, &str),
) {
    match pieces::counted::<C>(memory, list, spare) {
        Ok(units) => make_calls(memory, &mut UString::from_vec(units), answer, calls),
        Err(error) => answer.fail(error),
    }
}

/// Adds what the calls of a script return, leave and request.
pub fn script<C: ReportedUnit>(
    memory: Memory<'_>,
    answer: &mut Answer,
    list: &str,
    question: &str,
) {
    match spare_and_calls(question) {
        Ok(parts) => of_list::<C>(memory, answer, list, parts),
        Err(error) => answer.fail(error),
    }
}
