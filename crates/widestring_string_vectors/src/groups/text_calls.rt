//! Calls of strings of text that have a name in a script, with their arguments after a space. README.md of
//! `widestring_replay` describes the calls.
use crate::groups::outcomes::replaced;
use crate::groups::pieces::{self, Text};
use crate::groups::text_items::by_items;
use crate::groups::ucstring::Made;
use crate::groups::ustring_calls::{Capacity, has_capacity};
use std::alloc::Global;
use std::mem;
use widestring::error::{FaultUnit, OutOfMemory, UtfError};
use widestring::ucstring::UCString;
use widestring::utfstr::UtfStr;
use widestring::utfstring::{CowUtfStr, UtfStrInUtfstring, UtfString};
use widestring_replay::parse::{self, Memory, NoAnswer};
use widestring_replay::show::{Answer, ReportedUnit};
use widestring_testing::Heap;

// The calls that take nothing.
#[derive(Clone, Copy)]
enum NoArgument {
    New,
    AsUstr,
    CharCount,
    ShrinkToFit,
    TryClone,
    View(View),
    RoundTrip(RoundTrip),
}

// The calls of a view that make a string.
#[derive(Clone, Copy)]
enum View {
    ToUtfstring,
    ToLowercase,
    ToUppercase,
    IntoOwned,
}

// The calls that convert a string to a type that holds the same units, and back.
#[derive(Clone, Copy)]
enum RoundTrip {
    Ustring,
    Vec,
    UstringUnchecked,
    VecUnchecked,
    Keep,
    Boxed,
    Ucstring,
    UcstringUnchecked,
}

static NO_ARGUMENT: [(&str, NoArgument); 17] = [
    ("new", NoArgument::New),
    ("as_ustr", NoArgument::AsUstr),
    ("char_count", NoArgument::CharCount),
    ("shrink_to_fit", NoArgument::ShrinkToFit),
    ("try_clone", NoArgument::TryClone),
    ("to_utfstring", NoArgument::View(View::ToUtfstring)),
    ("to_lowercase", NoArgument::View(View::ToLowercase)),
    ("to_uppercase", NoArgument::View(View::ToUppercase)),
    ("into_owned", NoArgument::View(View::IntoOwned)),
    ("ustring", NoArgument::RoundTrip(RoundTrip::Ustring)),
    ("vec", NoArgument::RoundTrip(RoundTrip::Vec)),
    (
        "ustring_unchecked",
        NoArgument::RoundTrip(RoundTrip::UstringUnchecked),
    ),
    (
        "vec_unchecked",
        NoArgument::RoundTrip(RoundTrip::VecUnchecked),
    ),
    ("keep", NoArgument::RoundTrip(RoundTrip::Keep)),
    ("boxed", NoArgument::RoundTrip(RoundTrip::Boxed)),
    ("ucstring", NoArgument::RoundTrip(RoundTrip::Ucstring)),
    (
        "ucstring_unchecked",
        NoArgument::RoundTrip(RoundTrip::UcstringUnchecked),
    ),
];

// The calls that take something.
#[derive(Clone, Copy)]
enum WithArgument {
    Capacity(Capacity),
    Repeat,
    WriteStr,
    FromStr,
    WriteChar,
    SpliceStr,
}

static WITH_ARGUMENT: [(&str, WithArgument); 9] = [
    ("with_capacity", WithArgument::Capacity(Capacity::New)),
    ("reserve", WithArgument::Capacity(Capacity::Reserve)),
    (
        "reserve_exact",
        WithArgument::Capacity(Capacity::ReserveExact),
    ),
    ("shrink_to", WithArgument::Capacity(Capacity::ShrinkTo)),
    ("repeat", WithArgument::Repeat),
    ("write_str", WithArgument::WriteStr),
    ("from_str", WithArgument::FromStr),
    ("write_char", WithArgument::WriteChar),
    ("splice_str", WithArgument::SpliceStr),
];

fn write_str<C: ReportedUnit>(
    alloc: Global,
    string: &mut Text<'_, C>,
    answer: &mut Answer,
    list: &str,
) {
    match pieces::text::<C>(alloc, list) {
        Ok(text) => answer.done(string.write_str(&text)),
        Err(error) => answer.fail(error),
    }
}

fn of_str<'a, C: ReportedUnit>(
    memory: Memory<'a>,
    string: &mut Text<'a, C>,
    answer: &mut Answer,
    list: &str,
) {
    match pieces::text::<C>(memory.alloc, list) {
        Ok(text) => replaced(string, answer, UtfString::from_str(memory.heap, &text)),
        Err(error) => answer.fail(error),
    }
}

fn write_char<C: ReportedUnit>(string: &mut Text<'_, C>, answer: &mut Answer, c: &str) {
    match parse::value(c) {
        Ok(c) => answer.done(string.write_char(c)),
        Err(error) => answer.fail(error),
    }
}

// Makes a call that takes a capacity, or a number of units.
fn with_capacity<'a, C: ReportedUnit>(
    heap: &'a Heap,
    string: &mut Text<'a, C>,
    answer: &mut Answer,
    call: Capacity,
    number: usize,
) {
    match call {
        Capacity::New => replaced(string, answer, UtfString::with_capacity(heap, number)),
        Capacity::Reserve => answer.done(string.reserve(number)),
        Capacity::ReserveExact => answer.done(string.reserve_exact(number)),
        Capacity::ShrinkTo => answer.done(string.shrink_to(number)),
    }
}

// Makes a call that takes a capacity, and adds whether the capacity is then as its contract says.
fn sized<'a, C: ReportedUnit>(
    heap: &'a Heap,
    string: &mut Text<'a, C>,
    answer: &mut Answer,
    call: Capacity,
    number: &str,
) {
    match parse::value(number) {
        Ok(number) => {
            let (len, before) = (string.len(), string.capacity());
            with_capacity(heap, string, answer, call, number);
            answer.decided(has_capacity(call, number, len, before, string.capacity()));
        }
        Err(error) => answer.fail(error),
    }
}

// Repeats a text.
fn repeat<'a, C: ReportedUnit>(
    heap: &'a Heap,
    string: &mut Text<'a, C>,
    answer: &mut Answer,
    times: &str,
) {
    match parse::value(times) {
        Ok(times) => {
            let made = string.as_utfstr().repeat(heap, times);
            replaced(string, answer, made);
        }
        Err(error) => answer.fail(error),
    }
}

// Parses two offsets, and what follows the colon after each.
fn offsets(more: &str) -> Result<(usize, usize, &str), NoAnswer> {
    let (from, more) = parse::parts(more)?;
    let (to, list) = parse::parts(more)?;
    Ok((parse::value(from)?, parse::value(to)?, list))
}

// Replaces a range by the text of a list.
fn splice<C: ReportedUnit>(
    alloc: Global,
    string: &mut Text<'_, C>,
    answer: &mut Answer,
    more: &str,
) {
    match offsets(more) {
        Ok((from, to, list)) if string.as_utfstr().get(from..to).is_some() => {
            match pieces::text::<C>(alloc, list) {
                Ok(text) => answer.done(string.splice_str(from, to, &text)),
                Err(error) => answer.fail(error),
            }
        }
        Ok(_) => answer.fail(NoAnswer::Unparsed),
        Err(error) => answer.fail(error),
    }
}

/// Adds the units of a string that a call made.
pub fn shown<C: FaultUnit>(answer: &mut Answer, made: Result<Text<'_, C>, OutOfMemory>) {
    match made {
        Ok(made) => answer.units(made.as_slice()),
        Err(OutOfMemory) => answer.fail(NoAnswer::OutOfMemory),
    }
}

// Makes an owned string of a borrowed one.
fn owned<'a, C: ReportedUnit>(
    heap: &'a Heap,
    view: UtfStr<'_, C>,
) -> Result<Text<'a, C>, OutOfMemory> {
    CowUtfStr::Borrowed(view).into_owned(heap)
}

// Makes an owned string of an owned one.
fn kept<'a, C: ReportedUnit>(
    heap: &'a Heap,
    text: Text<'a, C>,
) -> Result<Text<'a, C>, OutOfMemory> {
    let owned: CowUtfStr<'a, C, &'a Heap> = CowUtfStr::Owned(text);
    owned.into_owned(heap)
}

// Replaces a string by one that was made of the same units.
fn converted<'a, C: ReportedUnit>(
    string: &mut Text<'a, C>,
    answer: &mut Answer,
    made: Result<Text<'a, C>, UtfError<C, &'a Heap>>,
) {
    match made {
        Ok(made) => *string = made,
        Err(_) => answer.fail(NoAnswer::Unparsed),
    }
}

// Makes a string of any units of a text, and a text of that without a check.
fn through_ustring<'a, C: ReportedUnit>(given: Text<'a, C>) -> Text<'a, C> {
    UtfString::from_ustring_unchecked(given.into_ustring())
}

// Makes a vector of a text, and a text of that without a check.
fn through_vec<'a, C: ReportedUnit>(given: Text<'a, C>) -> Text<'a, C> {
    UtfString::from_vec_unchecked(given.into_vec())
}

// Makes a call that converts a string to a type that holds the same units, and back.
fn turn<'a, C: ReportedUnit>(
    heap: &'a Heap,
    string: &mut Text<'a, C>,
    answer: &mut Answer,
    call: RoundTrip,
) {
    let given = mem::replace(string, UtfString::new(heap));
    match call {
        RoundTrip::Ustring => converted(
            string,
            answer,
            UtfString::from_ustring(given.into_ustring()),
        ),
        RoundTrip::Vec => converted(string, answer, UtfString::from_vec(given.into_vec())),
        RoundTrip::UstringUnchecked => *string = through_ustring(given),
        RoundTrip::VecUnchecked => *string = through_vec(given),
        RoundTrip::Keep => replaced(string, answer, kept(heap, given)),
        RoundTrip::Boxed => boxed(string, answer, given),
        RoundTrip::Ucstring => of_c_string(string, answer, UCString::from_vec(given.into_vec())),
        RoundTrip::UcstringUnchecked => {
            of_contents(string, answer, UCString::from_vec(given.into_vec()))
        }
    }
}

// Makes a box of a string, and a string of that.
fn boxed<'a, C: ReportedUnit>(string: &mut Text<'a, C>, answer: &mut Answer, given: Text<'a, C>) {
    match given.into_boxed_utfstr() {
        Ok(boxed) => *string = boxed.into_utfstring(),
        Err(given) => {
            *string = given;
            answer.fail(NoAnswer::OutOfMemory);
        }
    }
}

// Makes a string of the contents of a C string, which are checked first, without the check of the call that has one.
fn unchecked<'a, C: ReportedUnit>(
    string: &mut Text<'a, C>,
    answer: &mut Answer,
    ended: UCString<C, &'a Heap>,
) {
    match UtfStr::from_ucstr(ended.as_ucstr()) {
        Ok(_contents) => *string = UtfString::from_ucstring_unchecked(ended),
        Err(_) => answer.fail(NoAnswer::Unparsed),
    }
}

// Makes a string of the contents of a C string of the same units, without a check by the call.
fn of_contents<'a, C: ReportedUnit>(
    string: &mut Text<'a, C>,
    answer: &mut Answer,
    ended: Made<'a, C>,
) {
    match ended {
        Ok(ended) => unchecked(string, answer, ended),
        Err(_) => answer.fail(NoAnswer::OutOfMemory),
    }
}

// Makes a string of a C string of the same units.
fn of_c_string<'a, C: ReportedUnit>(
    string: &mut Text<'a, C>,
    answer: &mut Answer,
    ended: Made<'a, C>,
) {
    match ended {
        Ok(ended) => converted(string, answer, UtfString::from_ucstring(ended)),
        Err(_) => answer.fail(NoAnswer::OutOfMemory),
    }
}

// Makes a call of a view, and adds the string that it makes.
fn of_view<'a, C: ReportedUnit>(
    heap: &'a Heap,
    view: UtfStr<'_, C>,
    answer: &mut Answer,
    call: View,
) {
    match call {
        View::ToUtfstring => shown(answer, view.to_utfstring(heap)),
        View::ToLowercase => shown(answer, view.to_lowercase(heap)),
        View::ToUppercase => shown(answer, view.to_uppercase(heap)),
        View::IntoOwned => shown(answer, owned(heap, view)),
    }
}

// Makes a string without text, and adds its capacity.
fn emptied<'a, C: ReportedUnit>(heap: &'a Heap, string: &mut Text<'a, C>, answer: &mut Answer) {
    *string = UtfString::new(heap);
    answer.count(Some(string.capacity()));
}

// Shrinks the capacity to the length, and adds whether it is then as the call's contract says.
fn fitted<C: ReportedUnit>(string: &mut Text<'_, C>, answer: &mut Answer) {
    let before = string.capacity();
    answer.done(string.shrink_to_fit());
    let after = string.capacity();
    answer.decided(has_capacity(Capacity::ShrinkTo, 0, string.len(), before, after));
}

// Makes a call that takes nothing.
fn alone<'a, C: ReportedUnit>(
    heap: &'a Heap,
    string: &mut Text<'a, C>,
    answer: &mut Answer,
    name: &str,
) {
    match parse::named(&NO_ARGUMENT, name) {
        Ok(NoArgument::New) => emptied(heap, string, answer),
        Ok(NoArgument::AsUstr) => answer.units(string.as_ustr().as_slice()),
        Ok(NoArgument::CharCount) => answer.count(Some(string.as_utfstr().char_count())),
        Ok(NoArgument::ShrinkToFit) => fitted(string, answer),
        Ok(NoArgument::TryClone) => shown(answer, string.try_clone()),
        Ok(NoArgument::View(call)) => of_view(heap, string.as_utfstr(), answer, call),
        Ok(NoArgument::RoundTrip(call)) => turn(heap, string, answer, call),
        Err(error) => answer.fail(error),
    }
}

// Makes a call that takes something, and adds what it returns.
fn with_arguments<'a, C: ReportedUnit>(
    memory: Memory<'a>,
    string: &mut Text<'a, C>,
    answer: &mut Answer,
    name: &str,
    more: &str,
) {
    let (heap, alloc) = (memory.heap, memory.alloc);
    match parse::named(&WITH_ARGUMENT, name) {
        Ok(WithArgument::Capacity(call)) => sized(heap, string, answer, call, more),
        Ok(WithArgument::Repeat) => repeat(heap, string, answer, more),
        Ok(WithArgument::WriteStr) => write_str(alloc, string, answer, more),
        Ok(WithArgument::FromStr) => of_str(memory, string, answer, more),
        Ok(WithArgument::WriteChar) => write_char(string, answer, more),
        Ok(WithArgument::SpliceStr) => splice(alloc, string, answer, more),
        Err(error) => answer.fail(error),
    }
}

// Makes a call that takes items, or something else, and adds what it returns.
fn with_more<'a, C: ReportedUnit>(
    memory: Memory<'a>,
    string: &mut Text<'a, C>,
    answer: &mut Answer,
    name: &str,
    more: &str,
) {
    match pieces::items_called(name) {
        Some((how, kind)) => by_items(memory, string, answer, how, kind, more),
        None => with_arguments(memory, string, answer, name, more),
    }
}

/// Makes a call by its name, and adds what it returns.
pub fn named<'a, C: ReportedUnit>(
    memory: Memory<'a>,
    string: &mut Text<'a, C>,
    answer: &mut Answer,
    call: &str,
) {
    match call.split_once(' ') {
        None => alone(memory.heap, string, answer, call),
        Some((name, more)) => with_more(memory, string, answer, name, more),
    }
}
