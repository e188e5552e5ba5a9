//! Conversions of units of either width.
//!
//! - Lossy text: `l` asks for the text; the answer begins with a `b` if it is borrowed and with an `o` if it is owned.
//!   `y` asks for the bytes of that text in UTF-8. After either, an `e`, `r` or `s` asks for the policy `Each`, `Run`
//!   or `Skip`. A `v` before either asks a view of the units, and a `c` a C string of them.
//! - Text: `s` asks for its bytes in UTF-8, or the index and the item number of the fault after a `!`; `c` asks a C
//!   string for that, and `u` a view of well-formed units. `f` asks for the string of a view, or its fault and as a
//!   second field the units that the error returns; `g` asks the same of a C string. `i` asks for the string of a file,
//!   whose bytes are the list, or an `odd`.
//! - Bytes: `L` and `B` ask for the bytes of a view in little and in big endian, and `LM` and `BM` for those after a
//!   BOM.
//!
//! A conversion makes one request, and none if there is nothing to store or the text is borrowed; else the answer has a
//! `?`. Lossy text of which a policy leaves nothing may also make one.
use crate::groups::bytes::{self, Order};
use std::alloc::{Allocator, Global};
use widestring::bytes::include_utf16str;
use widestring::error::{
    FaultUnit, OutOfMemory, Utf16BytesError, Utf16ConvertError, Utf32ConvertError, UtfError,
};
use widestring::ucstr::UCStr;
use widestring::ucstring::UCString;
use widestring::ustr::UStr;
use widestring::utfstr::UtfStr;
use widestring::utfstring::{CowUtfStr, UtfString};
use widestring::{Policy, U16CStr, U16Str, U32CStr, U32Str, Utf16String, Utf32String};
use widestring_replay::made::{self, as_text};
use widestring_replay::parse::{self, Memory, NoAnswer};
use widestring_replay::show::{Answer, ReportedUnit};
use widestring_testing::Heap;

// What is asked about the text of units, and about their bytes.
#[derive(Clone, Copy)]
enum Query {
    Utf8,
    Copy,
    ContentsUtf8,
    ContentsCopy,
    WellFormed,
    Bytes(Order),
}

static QUERIES: [(&str, Query); 9] = [
    ("s", Query::Utf8),
    ("f", Query::Copy),
    ("c", Query::ContentsUtf8),
    ("g", Query::ContentsCopy),
    ("u", Query::WellFormed),
    ("L", Query::Bytes(Order::Little)),
    ("B", Query::Bytes(Order::Big)),
    ("LM", Query::Bytes(Order::LittleWithBom)),
    ("BM", Query::Bytes(Order::BigWithBom)),
];

// Adds a `?` if the library's calls did not make this number of requests.
fn check(memory: Memory<'_>, answer: &mut Answer, left: u64, makes_one: bool) {
    if memory.requests_since(left) != u64::from(makes_one) {
        answer.word("?");
    }
}

fn bytes_of(memory: Memory<'_>, answer: &mut Answer, left: u64, bytes: &[u8]) {
    check(memory, answer, left, !bytes.is_empty());
    answer.bytes(bytes);
}

// Adds a letter, and units.
fn shown<C: FaultUnit>(
    memory: Memory<'_>,
    answer: &mut Answer,
    left: u64,
    letter: &str,
    makes_one: bool,
    units: &[C],
) {
    answer.word(letter);
    check(memory, answer, left, makes_one);
    answer.units(units);
}

// Adds lossy text, and whether it is borrowed.
fn lossy_units<C: FaultUnit>(
    memory: Memory<'_>,
    answer: &mut Answer,
    left: u64,
    made: Result<CowUtfStr<'_, C, &Heap>, OutOfMemory>,
) {
    match made {
        Ok(CowUtfStr::Borrowed(text)) => {
            shown(memory, answer, left, "b", false, text.as_slice());
        }
        Ok(CowUtfStr::Owned(text)) => {
            // A policy may leave nothing of units for which memory was allocated.
            let makes_one = !text.is_empty() | (memory.requests_since(left) == 1);
            shown(memory, answer, left, "o", makes_one, text.as_slice());
        }
        Err(_) => answer.fail(NoAnswer::OutOfMemory),
    }
}

// Adds lossy text in UTF-8.
fn lossy_bytes(
    memory: Memory<'_>,
    answer: &mut Answer,
    left: u64,
    made: Result<String<&Heap>, OutOfMemory>,
) {
    match made {
        Ok(text) => bytes_of(memory, answer, left, text.as_bytes()),
        Err(_) => answer.fail(NoAnswer::OutOfMemory),
    }
}

// Parses the letter and the policy of a question about lossy text.
fn asked(question: &str) -> Result<(u8, Option<Policy>), NoAnswer> {
    match question.as_bytes() {
        [kind] => Ok((*kind, None)),
        [kind, b'e'] => Ok((*kind, Some(Policy::Each))),
        [kind, b'r'] => Ok((*kind, Some(Policy::Run))),
        [kind, b's'] => Ok((*kind, Some(Policy::Skip))),
        _ => Err(NoAnswer::Unparsed),
    }
}

fn lossy_slice<C: FaultUnit>(
    memory: Memory<'_>,
    answer: &mut Answer,
    units: &[C],
    policy: Option<Policy>,
) {
    let (heap, left) = (memory.heap, memory.heap.left());
    let made = match policy {
        None => UtfString::from_slice_lossy(heap, units),
        Some(policy) => UtfString::from_slice_lossy_with(heap, units, policy),
    };
    lossy_units(memory, answer, left, made);
}

// Adds the lossy text of a view, for which a string has these constructors.
macro_rules! lossy_of {
    ($memory:expr, $answer:expr, $view:expr, $asked:expr, $made:ident, $made_with:ident) => {{
        let (memory, heap, left) = ($memory, $memory.heap, $memory.heap.left());
        match $asked {
            (b'l', None) => lossy_units(memory, $answer, left, UtfString::$made(heap, $view)),
            (b'l', Some(policy)) => lossy_units(
                memory,
                $answer,
                left,
                UtfString::$made_with(heap, $view, policy),
            ),
            (b'y', None) => lossy_bytes(memory, $answer, left, $view.to_string_lossy(heap)),
            (b'y', Some(policy)) => lossy_bytes(
                memory,
                $answer,
                left,
                $view.to_string_lossy_with(heap, policy),
            ),
            _ => $answer.fail(NoAnswer::Unparsed),
        }
    }};
}

fn lossy_view<C: FaultUnit>(
    memory: Memory<'_>,
    answer: &mut Answer,
    view: UStr<'_, C>,
    asked: (u8, Option<Policy>),
) {
    lossy_of!(
        memory,
        answer,
        view,
        asked,
        from_ustr_lossy,
        from_ustr_lossy_with
    )
}

fn lossy_contents<C: FaultUnit>(
    memory: Memory<'_>,
    answer: &mut Answer,
    view: UCStr<'_, C>,
    asked: (u8, Option<Policy>),
) {
    lossy_of!(
        memory,
        answer,
        view,
        asked,
        from_ucstr_lossy,
        from_ucstr_lossy_with
    )
}

// Returns the C string whose contents are these units.
fn c_string<C: FaultUnit>(alloc: Global, units: &[C]) -> Result<UCString<C>, NoAnswer> {
    match Vec::from_slice(alloc, units) {
        Ok(units) => made::c_string(units),
        Err(_) => Err(NoAnswer::OutOfMemory),
    }
}

fn lossy_c_string<C: FaultUnit>(
    memory: Memory<'_>,
    answer: &mut Answer,
    units: &[C],
    asked: (u8, Option<Policy>),
) {
    match c_string(memory.alloc, units) {
        Ok(string) => lossy_contents(memory, answer, string.as_ucstr(), asked),
        Err(error) => answer.fail(error),
    }
}

// What lossy text is asked of.
#[derive(Clone, Copy)]
enum Source {
    Slice,
    View,
    Contents,
}

// Parses a question about lossy text.
fn parse_lossy(question: &str) -> Result<(Source, (u8, Option<Policy>)), NoAnswer> {
    if let Some(question) = question.strip_prefix('c') {
        return Ok((Source::Contents, asked(question)?));
    }
    if let Some(question) = question.strip_prefix('v') {
        return Ok((Source::View, asked(question)?));
    }
    Ok((Source::Slice, asked(question)?))
}

/// Adds the lossy text of units.
pub fn lossy<C: FaultUnit>(memory: Memory<'_>, answer: &mut Answer, units: &[C], question: &str) {
    match parse_lossy(question) {
        Ok((Source::Slice, (b'l', policy))) => lossy_slice(memory, answer, units, policy),
        Ok((Source::Contents, asked)) => lossy_c_string(memory, answer, units, asked),
        Ok((_, asked)) => lossy_view(memory, answer, UStr::from_slice(units), asked),
        Err(error) => answer.fail(error),
    }
}

// What a conversion returns: a value or the fault of ill-formed units, if no allocation failed.
type Made<T, C, A> = Result<Result<T, UtfError<C, A>>, NoAnswer>;

// Adds a text in UTF-8, or the fault of ill-formed units.
fn reported<C: ReportedUnit>(
    memory: Memory<'_>,
    answer: &mut Answer,
    left: u64,
    made: Made<String<&Heap>, C, Global>,
) {
    match made {
        Ok(Ok(text)) => bytes_of(memory, answer, left, text.as_bytes()),
        Ok(Err(fault)) => {
            check(memory, answer, left, false);
            answer.fault_at(&fault);
        }
        Err(error) => answer.fail(error),
    }
}

// Adds the units of a copy.
fn copy<C: ReportedUnit>(memory: Memory<'_>, answer: &mut Answer, left: u64, units: &[C]) {
    shown(memory, answer, left, "", !units.is_empty(), units);
}

// Adds the fault of a copy, and the copy that the error returns.
fn rejected<C: ReportedUnit>(
    memory: Memory<'_>,
    answer: &mut Answer,
    left: u64,
    fault: UtfError<C, &Heap>,
) {
    check(memory, answer, left, true);
    answer.fault_at(&fault);
    answer.part();
    answer.handed_back(fault.into_vec());
}

// Adds the string of a copy, or the fault with the copy.
fn copied<'a, C: ReportedUnit>(
    memory: Memory<'a>,
    answer: &mut Answer,
    left: u64,
    made: Made<UtfString<C, &'a Heap>, C, &'a Heap>,
) {
    match made {
        Ok(Ok(string)) => copy(memory, answer, left, string.as_slice()),
        Ok(Err(fault)) => rejected(memory, answer, left, fault),
        Err(error) => answer.fail(error),
    }
}

/// Adds the string of a file, or why there is none.
pub fn file(memory: Memory<'_>, answer: &mut Answer, bytes: &[u8]) {
    let left = memory.heap.left();
    match include_utf16str(memory.heap, bytes) {
        Ok(string) => copy(memory, answer, left, string.as_slice()),
        Err(Utf16BytesError::Utf16(fault)) => rejected(memory, answer, left, fault),
        Err(Utf16BytesError::OutOfMemory) => answer.fail(NoAnswer::OutOfMemory),
        Err(Utf16BytesError::OddLength) => {
            check(memory, answer, left, false);
            answer.word("odd");
        }
    }
}

// Adds the bytes of units, which must be in a block of their size.
fn stored<C: ReportedUnit>(
    memory: Memory<'_>,
    answer: &mut Answer,
    view: UStr<'_, C>,
    order: Order,
) {
    let left = memory.heap.left();
    match bytes::made(memory.heap, view, order) {
        Ok(bytes) if bytes.capacity() == bytes.len() => bytes_of(memory, answer, left, &bytes),
        Ok(_) => answer.fail(NoAnswer::Unparsed),
        Err(error) => answer.fail(error),
    }
}

// Adds a text in UTF-8.
fn utf8<C: ReportedUnit>(memory: Memory<'_>, answer: &mut Answer, text: UtfStr<'_, C>) {
    let left = memory.heap.left();
    lossy_bytes(memory, answer, left, text.to_string(memory.heap));
}

// Adds the text of well-formed units in UTF-8.
fn text<C: ReportedUnit>(memory: Memory<'_>, answer: &mut Answer, units: &[C]) {
    match as_text(units) {
        Ok(text) => utf8(memory, answer, text),
        Err(error) => answer.fail(error),
    }
}

// Splits the result of a conversion of 16-bit units into a value or a fault, and allocation failures.
fn found16<T, A: Allocator>(made: Result<T, Utf16ConvertError<A>>) -> Made<T, u16, A> {
    match made {
        Ok(value) => Ok(Ok(value)),
        Err(Utf16ConvertError::Utf16(fault)) => Ok(Err(fault)),
        Err(Utf16ConvertError::OutOfMemory) => Err(NoAnswer::OutOfMemory),
    }
}

// Splits the result of a conversion of 32-bit units into a value or a fault, and allocation failures.
fn found32<T, A: Allocator>(made: Result<T, Utf32ConvertError<A>>) -> Made<T, u32, A> {
    match made {
        Ok(value) => Ok(Ok(value)),
        Err(Utf32ConvertError::Utf32(fault)) => Ok(Err(fault)),
        Err(Utf32ConvertError::OutOfMemory) => Err(NoAnswer::OutOfMemory),
    }
}

fn utf8_of_contents16(memory: Memory<'_>, answer: &mut Answer, view: U16CStr<'_>) {
    let (heap, left) = (memory.heap, memory.heap.left());
    reported(memory, answer, left, found16(view.to_string(heap)));
}

fn copy_of_contents16(memory: Memory<'_>, answer: &mut Answer, view: U16CStr<'_>) {
    let (heap, left) = (memory.heap, memory.heap.left());
    let made = Utf16String::from_ucstr(heap, view);
    copied(memory, answer, left, found16(made));
}

fn contents16(memory: Memory<'_>, answer: &mut Answer, units: &[u16], is_copied: bool) {
    match c_string(memory.alloc, units) {
        Ok(string) if is_copied => copy_of_contents16(memory, answer, string.as_ucstr()),
        Ok(string) => utf8_of_contents16(memory, answer, string.as_ucstr()),
        Err(error) => answer.fail(error),
    }
}

fn utf8_of_contents32(memory: Memory<'_>, answer: &mut Answer, view: U32CStr<'_>) {
    let (heap, left) = (memory.heap, memory.heap.left());
    reported(memory, answer, left, found32(view.to_string(heap)));
}

fn copy_of_contents32(memory: Memory<'_>, answer: &mut Answer, view: U32CStr<'_>) {
    let (heap, left) = (memory.heap, memory.heap.left());
    let made = Utf32String::from_ucstr(heap, view);
    copied(memory, answer, left, found32(made));
}

fn contents32(memory: Memory<'_>, answer: &mut Answer, units: &[u32], is_copied: bool) {
    match c_string(memory.alloc, units) {
        Ok(string) if is_copied => copy_of_contents32(memory, answer, string.as_ucstr()),
        Ok(string) => utf8_of_contents32(memory, answer, string.as_ucstr()),
        Err(error) => answer.fail(error),
    }
}

// Answers a question about the text or the bytes of 16-bit units.
fn of_query16(memory: Memory<'_>, answer: &mut Answer, units: &[u16], query: Query) {
    let (heap, left) = (memory.heap, memory.heap.left());
    let view = U16Str::from_slice(units);
    match query {
        Query::Utf8 => reported(memory, answer, left, found16(view.to_string(heap))),
        Query::Copy => copied(
            memory,
            answer,
            left,
            found16(Utf16String::from_ustr(heap, view)),
        ),
        Query::ContentsUtf8 => contents16(memory, answer, units, false),
        Query::ContentsCopy => contents16(memory, answer, units, true),
        Query::WellFormed => text(memory, answer, units),
        Query::Bytes(order) => stored(memory, answer, view, order),
    }
}

// Answers a question about the text or the bytes of 32-bit units.
fn of_query32(memory: Memory<'_>, answer: &mut Answer, units: &[u32], query: Query) {
    let (heap, left) = (memory.heap, memory.heap.left());
    let view = U32Str::from_slice(units);
    match query {
        Query::Utf8 => reported(memory, answer, left, found32(view.to_string(heap))),
        Query::Copy => copied(
            memory,
            answer,
            left,
            found32(Utf32String::from_ustr(heap, view)),
        ),
        Query::ContentsUtf8 => contents32(memory, answer, units, false),
        Query::ContentsCopy => contents32(memory, answer, units, true),
        Query::WellFormed => text(memory, answer, units),
        Query::Bytes(order) => stored(memory, answer, view, order),
    }
}

/// Adds the answer to a question about the text of 16-bit units.
pub fn text16(memory: Memory<'_>, answer: &mut Answer, units: &[u16], question: &str) {
    match parse::named(&QUERIES, question) {
        Ok(query) => of_query16(memory, answer, units, query),
        Err(error) => answer.fail(error),
    }
}

/// Adds the answer to a question about the text of 32-bit units.
pub fn text32(memory: Memory<'_>, answer: &mut Answer, units: &[u32], question: &str) {
    match parse::named(&QUERIES, question) {
        Ok(query) => of_query32(memory, answer, units, query),
        Err(error) => answer.fail(error),
    }
}
