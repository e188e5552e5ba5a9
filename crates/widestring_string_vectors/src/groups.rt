//! The groups of cases, and the calls of the library that each makes.

mod chars32;
mod drain;
mod edits;
mod outcomes;
mod pieces;
mod text_calls;
mod text_items;
mod ucstring;
mod ucstring_calls;
mod ustring;
mod ustring_calls;
mod ustring_items;
mod utfstring;

use std::alloc::Global;
use widestring::ustring::UString;
use widestring_replay::Suite;
use widestring_replay::parse::{self, Memory, NoAnswer};
use widestring_replay::show::{Answer, ReportedUnit};

/// Owned strings: of any units, of well-formed text, and C strings.
pub struct StringSuite;

// The groups, in the order in which they are printed.
static GROUPS: [&str; 22] = [
    "pop16",
    "pop32",
    "remove16",
    "remove32",
    "insert16",
    "insert32",
    "replace16",
    "replace32",
    "drain16",
    "drain32",
    "retain16",
    "retain32",
    "split_off16",
    "split_off32",
    "ucstring16",
    "ucstring32",
    "utfstring16",
    "utfstring32",
    "edits",
    "ustring_calls16",
    "ustring_calls32",
    "chars32",
];

// The groups with corrected answers, and the crate's faults.
static FAULTS: [(&str, &str); 3] = [
    ("insert16", "insert-ustr-panics"),
    ("insert32", "insert-ustr-panics"),
    ("utfstring16", "utf16-error-index"),
];

// The groups whose lists are units, without the width that ends their names.
#[derive(Clone, Copy)]
enum OfUnits {
    String(OfString),
    CString,
    Text,
    Calls,
}

// The groups about a call of the string of the list.
#[derive(Clone, Copy)]
enum OfString {
    Pop,
    Remove,
    Insert,
    Replace,
    Drain,
    Retain,
    SplitOff,
}

static OF_UNITS: [(&str, OfUnits); 10] = [
    ("pop", OfUnits::String(OfString::Pop)),
    ("remove", OfUnits::String(OfString::Remove)),
    ("insert", OfUnits::String(OfString::Insert)),
    ("replace", OfUnits::String(OfString::Replace)),
    ("drain", OfUnits::String(OfString::Drain)),
    ("retain", OfUnits::String(OfString::Retain)),
    ("split_off", OfUnits::String(OfString::SplitOff)),
    ("ucstring", OfUnits::CString),
    ("utfstring", OfUnits::Text),
    ("ustring_calls", OfUnits::Calls),
];

impl Suite for StringSuite {
    fn groups() -> &'static [&'static str] {
        &GROUPS
    }

    fn faults() -> &'static [(&'static str, &'static str)] {
        &FAULTS
    }

    fn answer(memory: Memory<'_>, answer: &mut Answer, group: &str, list: &str, question: &str) {
        match group {
            "edits" => edits::replies(memory.alloc, answer, list, question),
            "chars32" => chars32::made(memory, answer, list, question),
            _ => of_units(memory, answer, group, list, question),
        }
    }
}

// Answers a question of a group whose lists are units, of the width that the group's name ends with.
fn of_units(memory: Memory<'_>, answer: &mut Answer, group: &str, list: &str, question: &str) {
    if let Some(name) = group.strip_suffix("16") {
        of_width::<u16>(memory, answer, name, list, question);
    } else if let Some(name) = group.strip_suffix("32") {
        of_width::<u32>(memory, answer, name, list, question);
    } else {
        answer.fail(NoAnswer::Unparsed);
    }
}

fn of_width<C: ReportedUnit>(
    memory: Memory<'_>,
    answer: &mut Answer,
    name: &str,
    list: &str,
    question: &str,
) {
    match parse::named(&OF_UNITS, name) {
        Ok(OfUnits::String(call)) => of_string::<C>(memory.alloc, answer, call, list, question),
        Ok(OfUnits::CString) => ucstring::made::<C>(memory, answer, list, question),
        Ok(OfUnits::Text) => utfstring::script::<C>(memory, answer, list, question),
        Ok(OfUnits::Calls) => ustring_calls::script::<C>(memory, answer, list, question),
        Err(error) => answer.fail(error),
    }
}

// Answers a question about a call of the string of a list.
fn of_string<C: ReportedUnit>(
    alloc: Global,
    answer: &mut Answer,
    call: OfString,
    list: &str,
    question: &str,
) {
    match parse::list::<C>(alloc, list) {
        Ok(units) => called(alloc, &mut UString::from_vec(units), answer, call, question),
        Err(error) => answer.fail(error),
    }
}

fn called<C: ReportedUnit>(
    alloc: Global,
    string: &mut UString<C>,
    answer: &mut Answer,
    call: OfString,
    question: &str,
) {
    match call {
        OfString::Pop => ustring::pop(string, answer, question),
        OfString::Remove => ustring::remove(string, answer, question),
        OfString::Insert => ustring::insert(alloc, string, answer, question),
        OfString::Replace => ustring::replace(alloc, string, answer, question),
        OfString::Drain => drain::drain(alloc, string, answer, question),
        OfString::Retain => ustring::retain(string, answer, question),
        OfString::SplitOff => ustring::split_off(string, answer, question),
    }
}
