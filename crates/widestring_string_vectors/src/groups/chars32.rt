//! Calls by characters, which only strings of 32-bit units have. The list is characters. A question is
//!
//! - `u` for a string of any units of them, `t` for a text;
//! - `c`, `cc` or `c!` for a C string, checked, truncated at the first NUL or not checked;
//! - `s`, an offset, a colon and a character for the text with that character there;
//! - `l` and a number for the lengths that a drain of this many characters reports, and its last character between
//!   them;
//! - `v` for the vector of the text's characters, made from a text with a spare capacity of three units.
//!
//! The answer is the units, and after a `#` the number of requests.
use crate::groups::outcomes::handed_back;
use crate::groups::ucstring::copied;
use crate::groups::{text_calls, ustring_calls};
use widestring::{U32CString, U32String, Utf32String};
use widestring_replay::parse::{self, Memory, NoAnswer};
use widestring_replay::show::Answer;
use widestring_testing::Heap;

// Adds the characters of a text. If the copy fails to allocate, the text must be returned unchanged.
fn characters<'a>(answer: &mut Answer, text: Utf32String<&'a Heap>, chars: &[char]) {
    let capacity = text.capacity();
    match text.into_char_vec() {
        Ok(vec) => add_characters(answer, &vec),
        Err(text) => handed_back(
            answer,
            (text.capacity() == capacity) & has_chars(text.as_slice(), chars),
        ),
    }
}

fn add_characters(answer: &mut Answer, chars: &[char]) {
    for c in chars {
        answer.character(Some(*c));
    }
}

// Returns whether units are these characters.
fn has_chars(units: &[u32], chars: &[char]) -> bool {
    let mut well = units.len() == chars.len();
    for (unit, c) in units.iter().zip(chars) {
        well &= *unit == u32::from(*c);
    }
    well
}

// Parses an offset, and the character after its colon.
fn offset_and_char(more: &str) -> Result<(usize, char), NoAnswer> {
    let (at, c) = parse::parts(more)?;
    Ok((parse::value(at)?, parse::value(c)?))
}

// Sets a character of a text.
fn set_at(text: &mut Utf32String<&Heap>, answer: &mut Answer, at: usize, c: char) {
    if at < text.len() {
        text.set_char(at, c);
        answer.units(text.as_slice());
    } else {
        answer.fail(NoAnswer::Unparsed);
    }
}

// Sets a character of a text, given its offset and the character.
fn set(text: &mut Utf32String<&Heap>, answer: &mut Answer, more: &str) {
    match offset_and_char(more) {
        Ok((at, c)) => set_at(text, answer, at, c),
        Err(error) => answer.fail(error),
    }
}

// Adds the lengths that a drain of the first characters reports, and between them the character that it returns at the
// end.
fn lengths(text: &mut Utf32String<&Heap>, answer: &mut Answer, count: &str) {
    match parse::value::<usize>(count) {
        Ok(count) if text.as_utfstr().get(..count).is_some() => {
            let mut drain = text.drain(..count);
            answer.count(Some(drain.len()));
            answer.character(drain.next_back());
            answer.count(Some(drain.len()));
        }
        Ok(_) => answer.fail(NoAnswer::Unparsed),
        Err(error) => answer.fail(error),
    }
}

// Makes a call of a text of these characters, and adds what it returns and the number of its requests.
fn of_text<'a>(
    memory: Memory<'a>,
    mut text: Utf32String<&'a Heap>,
    answer: &mut Answer,
    chars: &[char],
    (kind, more): (u8, &str),
) {
    let left = memory.heap.left();
    match kind {
        b's' => set(&mut text, answer, more),
        b'l' => lengths(&mut text, answer, more),
        _ => characters(answer, text, chars),
    }
    answer.requests(memory.requests_since(left));
}

// Makes a call of the text that becomes these characters.
fn of_filled<'a>(
    memory: Memory<'a>,
    mut text: Utf32String<&'a Heap>,
    answer: &mut Answer,
    chars: &[char],
    call: (u8, &str),
) {
    match text.extend_char_refs(chars) {
        Ok(()) => of_text(memory, text, answer, chars, call),
        Err(_) => answer.fail(NoAnswer::OutOfMemory),
    }
}

// Makes a call of the text of these characters, which has spare capacity.
fn by_text(memory: Memory<'_>, answer: &mut Answer, chars: &[char], call: (u8, &str)) {
    match Utf32String::with_capacity(memory.heap, chars.len().saturating_add(3)) {
        Ok(text) => of_filled(memory, text, answer, chars, call),
        Err(_) => answer.fail(NoAnswer::OutOfMemory),
    }
}

// What is made of characters.
#[derive(Clone, Copy)]
enum Maker {
    Units,
    Text,
    Contents,
    ContentsTruncate,
    ContentsUnchecked,
}

static MAKERS: [(&str, Maker); 5] = [
    ("u", Maker::Units),
    ("t", Maker::Text),
    ("c", Maker::Contents),
    ("cc", Maker::ContentsTruncate),
    ("c!", Maker::ContentsUnchecked),
];

// Makes a string of characters, and adds its units.
fn of_chars(heap: &Heap, answer: &mut Answer, chars: &[char], maker: Maker) {
    match maker {
        Maker::Units => ustring_calls::shown(answer, U32String::from_chars(heap, chars)),
        Maker::Text => text_calls::shown(answer, Utf32String::from_chars(heap, chars)),
        Maker::Contents => copied(answer, U32CString::from_chars(heap, chars)),
        Maker::ContentsTruncate => copied(answer, U32CString::from_chars_truncate(heap, chars)),
        Maker::ContentsUnchecked if chars.len() <= 1 => {
            copied(answer, U32CString::from_chars_unchecked(heap, chars))
        }
        Maker::ContentsUnchecked => answer.fail(NoAnswer::Unparsed),
    }
}

// Makes a string of characters, and adds its units and the number of requests.
fn by_maker(memory: Memory<'_>, answer: &mut Answer, chars: &[char], question: &str) {
    match parse::named(&MAKERS, question) {
        Ok(maker) => {
            let left = memory.heap.left();
            of_chars(memory.heap, answer, chars, maker);
            answer.requests(memory.requests_since(left));
        }
        Err(error) => answer.fail(error),
    }
}

// Answers a question about these characters.
fn about(memory: Memory<'_>, answer: &mut Answer, chars: &[char], question: &str) {
    match parse::kind(question) {
        Ok((kind, more)) if matches!(kind, b's' | b'l' | b'v') => {
            by_text(memory, answer, chars, (kind, more))
        }
        Ok(_) => by_maker(memory, answer, chars, question),
        Err(error) => answer.fail(error),
    }
}

/// Answers a question about a call by characters.
pub fn made(memory: Memory<'_>, answer: &mut Answer, list: &str, question: &str) {
    match parse::list::<char>(memory.alloc, list) {
        Ok(chars) => about(memory, answer, &chars, question),
        Err(error) => answer.fail(error),
    }
}
