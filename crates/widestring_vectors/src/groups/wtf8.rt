//! WTF-8. Of units, `t` asks for their text, and `w` for what is written of it into a buffer of exactly its length, or
//! of one byte less, for which nothing is written. Of bytes, `v` asks whether they are WTF-8, or for the index and the
//! length of the first fault; `u` asks for their units, or the same, and `n` for how many units there are.
//!
//! A text makes one request for memory, and none if it is empty; else the answer has a `?`.
use widestring::U16Str;
use widestring::ustring::U16String;
use widestring::wtf8::{
    FromWtf8, FromWtf8Error, ToWtf8, Wtf8Fault, check_wtf8, write_from_wtf8, wtf8_units_len,
};
use widestring_replay::parse::{Memory, NoAnswer};
use widestring_replay::show::Answer;

// The most bytes of a text that is written into a buffer.
const BUFFER: usize = 512;

fn fault(answer: &mut Answer, fault: Wtf8Fault) {
    answer.word("!");
    answer.count(Some(fault.index));
    answer.count(Some(fault.len));
}

// Adds a `?` if the library's calls made another number of requests than one, or than none for nothing.
fn check(memory: Memory<'_>, answer: &mut Answer, left: u64, makes_one: bool) {
    if memory.requests_since(left) != u64::from(makes_one) {
        answer.word("?");
    }
}

fn text(memory: Memory<'_>, answer: &mut Answer, view: U16Str<'_>) {
    let left = memory.heap.left();
    match view.to_wtf8(memory.heap) {
        Ok(text) => {
            check(memory, answer, left, !text.is_empty());
            answer.bytes(&text);
        }
        Err(_) => answer.fail(NoAnswer::OutOfMemory),
    }
}

fn written(answer: &mut Answer, view: U16Str<'_>) {
    let mut buffer = [0xaa; BUFFER];
    let len = view.wtf8_len().min(BUFFER);
    answer.decided(
        view.write_wtf8(&mut buffer[..len.saturating_sub(1)])
            .is_none(),
    );
    answer.part();
    match view.write_wtf8(&mut buffer[..len]) {
        Some(len) => answer.bytes(&buffer[..len.min(BUFFER)]),
        None => answer.word("-"),
    }
}

/// Adds what is asked of units.
pub fn of_units(memory: Memory<'_>, answer: &mut Answer, units: &[u16], question: &str) {
    let view = U16Str::from_slice(units);
    match question {
        "t" => text(memory, answer, view),
        "w" => written(answer, view),
        _ => answer.fail(NoAnswer::Unparsed),
    }
}

fn valid(answer: &mut Answer, bytes: &[u8]) {
    match check_wtf8(bytes) {
        Ok(()) => answer.word("ok"),
        Err(error) => fault(answer, error),
    }
}

fn units(memory: Memory<'_>, answer: &mut Answer, bytes: &[u8]) {
    let left = memory.heap.left();
    match U16String::from_wtf8(memory.heap, bytes) {
        Ok(string) => {
            check(memory, answer, left, !string.is_empty());
            answer.units(string.as_slice());
        }
        Err(FromWtf8Error::Fault(error)) => fault(answer, error),
        Err(FromWtf8Error::OutOfMemory) => answer.fail(NoAnswer::OutOfMemory),
    }
}

// Adds how many units there are, and those that are written into a buffer of at most so many, if it suffices.
fn counted(answer: &mut Answer, bytes: &[u8]) {
    let mut buffer = [0; BUFFER];
    match wtf8_units_len(bytes) {
        Ok(len) => {
            answer.count(Some(len));
            answer.part();
            match write_from_wtf8(bytes, &mut buffer[..len.min(BUFFER)]) {
                Ok(Some(len)) => answer.units(&buffer[..len.min(BUFFER)]),
                Ok(None) => answer.word("-"),
                Err(error) => fault(answer, error),
            }
        }
        Err(error) => fault(answer, error),
    }
}

/// Adds what is asked of bytes.
pub fn of_bytes(memory: Memory<'_>, answer: &mut Answer, bytes: &[u8], question: &str) {
    match question {
        "v" => valid(answer, bytes),
        "u" => units(memory, answer, bytes),
        "n" => counted(answer, bytes),
        _ => answer.fail(NoAnswer::Unparsed),
    }
}
