//! Bytes of files. For UTF-16, `order` is the byte order that a BOM reports, `l`, `b` or a `-`; `units` are the units
//! of the file; `parts` is its order, a `1` after a BOM and else a `0`, its units and the byte that is left; `text` has
//! the units of its text, `odd`, or the first fault and the units that the error returns.
//!
//! For UTF-8, `code` is the first code point, decoded by the layout of its bytes, and the bytes after it; `valid` is
//! the lengths of the text in UTF-16 and in UTF-32, or, after a `!`, how many bytes precede the first fault; `lossy`
//! has the units of the lossy text in UTF-16.
use std::str;
use widestring::Utf16String;
use widestring::bytes::{BoM, byte_order, include_utf16str, units_of_bytes, utf16_of_bytes};
use widestring::error::{Utf16BytesError, Utf16Error};
use widestring::unit::{length_as_utf16, length_as_utf32, next_code_point};
use widestring_replay::parse::{self, Memory, NoAnswer};
use widestring_replay::show::Answer;
use widestring_testing::Heap;

// What is asked.
#[derive(Clone, Copy)]
enum Query {
    Order,
    Units,
    Fields,
    Text,
    Code,
    Valid,
    Lossy,
}

static QUERIES: [(&str, Query); 7] = [
    ("order", Query::Order),
    ("units", Query::Units),
    ("parts", Query::Fields),
    ("text", Query::Text),
    ("code", Query::Code),
    ("valid", Query::Valid),
    ("lossy", Query::Lossy),
];

fn letter(order: Option<BoM>) -> &'static str {
    match order {
        None => "-",
        Some(BoM::Little) => "l",
        Some(BoM::Big) => "b",
    }
}

fn units(answer: &mut Answer, bytes: &[u8]) {
    for unit in units_of_bytes(bytes) {
        answer.unit(Some(unit));
    }
}

fn fields(answer: &mut Answer, bytes: &[u8]) {
    let fields = utf16_of_bytes(bytes);
    answer.word(letter(Some(fields.order)));
    answer.decided(fields.has_bom);
    answer.part();
    for unit in fields.units {
        answer.unit(Some(unit));
    }
    answer.part();
    answer.number(fields.half.map(u32::from));
}

fn rejected(answer: &mut Answer, fault: Utf16Error<&Heap>) {
    answer.first_fault(&fault);
    answer.part();
    answer.handed_back(fault.into_vec());
}

fn text(memory: Memory<'_>, answer: &mut Answer, bytes: &[u8]) {
    match include_utf16str(memory.heap, bytes) {
        Ok(string) => answer.units(string.as_slice()),
        Err(Utf16BytesError::OddLength) => answer.word("odd"),
        Err(Utf16BytesError::OutOfMemory) => answer.fail(NoAnswer::OutOfMemory),
        Err(Utf16BytesError::Utf16(fault)) => rejected(answer, fault),
    }
}

fn valid(answer: &mut Answer, bytes: &[u8]) {
    match str::from_utf8(bytes) {
        Ok(text) => {
            answer.count(Some(length_as_utf16(text)));
            answer.count(Some(length_as_utf32(text)));
        }
        Err(fault) => {
            answer.word("!");
            answer.part();
            answer.count(Some(fault.valid_up_to()));
        }
    }
}

fn code(answer: &mut Answer, bytes: &[u8]) {
    match next_code_point(bytes) {
        None => answer.word("-"),
        Some((code, rest)) => {
            answer.number(Some(code));
            answer.part();
            answer.bytes(rest);
        }
    }
}

fn in_utf16(memory: Memory<'_>, answer: &mut Answer, text: &str) {
    match Utf16String::from_str(memory.heap, text) {
        Ok(text) => answer.units(text.as_slice()),
        Err(_) => answer.fail(NoAnswer::OutOfMemory),
    }
}

fn lossy(memory: Memory<'_>, answer: &mut Answer, bytes: &[u8]) {
    match String::from_utf8_lossy(memory.alloc, bytes) {
        Ok(text) => in_utf16(memory, answer, &text),
        Err(_) => answer.fail(NoAnswer::OutOfMemory),
    }
}

/// Adds the answer to a question about bytes.
pub fn of_bytes(memory: Memory<'_>, answer: &mut Answer, bytes: &[u8], question: &str) {
    match parse::named(&QUERIES, question) {
        Ok(Query::Order) => answer.word(letter(byte_order(bytes))),
        Ok(Query::Units) => units(answer, bytes),
        Ok(Query::Fields) => fields(answer, bytes),
        Ok(Query::Text) => text(memory, answer, bytes),
        Ok(Query::Code) => code(answer, bytes),
        Ok(Query::Valid) => valid(answer, bytes),
        Ok(Query::Lossy) => lossy(memory, answer, bytes),
        Err(error) => answer.fail(error),
    }
}
