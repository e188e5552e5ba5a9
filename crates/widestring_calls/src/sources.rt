//! Decoders of any source, UTF-16 in bytes, and edits at indices of characters.

use crate::input::{Call, Input, length_after, named_in};
use std::alloc::Global;
use widestring::bytes::{FromRead, FromWrite, Mode, transcode, utf16_of_bytes};
use widestring::edit::{Edit, Marked16, Reply, TextEdit, run};
use widestring::error::{DecodeUtf16Error, DecodeUtf32Error, FaultUnit, OutOfMemory};
use widestring::unit::AnyUnits;
use widestring::utfstring::UtfString;
use widestring::{Utf16String, decode_utf16, decode_utf32, encode_utf16};

const EDITS: usize = 100;

/// A call that reads a source, or edits a text.
#[derive(Clone, Copy)]
pub enum Sources {
    Decode,
    EncodeUtf16,
    Utf16OfBytes,
    Transcode,
    Edits,
    MarkedEdits,
    MarkedFront,
    MarkedMiddle,
}

static CALLS: [(&str, Sources); 8] = [
    ("decode", Sources::Decode),
    ("encode_utf16", Sources::EncodeUtf16),
    ("utf16_of_bytes", Sources::Utf16OfBytes),
    ("transcode", Sources::Transcode),
    ("edits", Sources::Edits),
    ("marked_edits", Sources::MarkedEdits),
    ("marked_front", Sources::MarkedFront),
    ("marked_middle", Sources::MarkedMiddle),
];

// Returns the number of a character or of a fault.
fn number16(item: Result<char, DecodeUtf16Error>) -> u64 {
    match item {
        Ok(c) => u64::from(c as u32),
        Err(fault) => u64::from(fault.unpaired_surrogate()),
    }
}

// Returns the number of a character or of a fault.
fn number32(item: Result<char, DecodeUtf32Error>) -> u64 {
    match item {
        Ok(c) => u64::from(c as u32),
        Err(fault) => u64::from(fault.invalid_code_point()),
    }
}

// Returns the characters and the faults that a decoder of UTF-16 finds, as one number.
fn decoded16(units: &[u16]) -> u64 {
    let mut sum = 0u64;
    for item in decode_utf16(units.iter().copied()) {
        sum = sum.wrapping_mul(3).wrapping_add(number16(item));
    }
    sum
}

// Returns the characters and the faults that a decoder of UTF-32 finds, as one number.
fn decoded32(units: &[u32]) -> u64 {
    let mut sum = 0u64;
    for item in decode_utf32(units.iter().copied()) {
        sum = sum.wrapping_mul(3).wrapping_add(number32(item));
    }
    sum
}

fn decoded<C: FaultUnit>(units: &[C]) -> u64 {
    match C::as_any(units) {
        AnyUnits::U16(units) => decoded16(units),
        AnyUnits::U32(units) => decoded32(units),
    }
}

fn encoded(utf8: &str) -> u64 {
    let mut sum = 0u64;
    for unit in encode_utf16(utf8.chars()) {
        sum = sum.wrapping_mul(3).wrapping_add(u64::from(unit));
    }
    sum
}

// Makes some edits in the middle of a text of `count` characters.
fn edits(count: usize) -> [Edit<'static>; 4] {
    let middle = count / 2;
    [
        Edit::Insert(middle, 'x'),
        Edit::InsertStr(middle, "some words"),
        Edit::Remove(middle),
        Edit::Drain(middle, middle.saturating_add(4)),
    ]
}

// Makes edits of a text, again and again.
fn run_often<T: TextEdit>(
    alloc: Global,
    text: &mut T,
    list: &[Edit<'_>],
    times: usize,
    replies: &mut Vec<Reply>,
) -> Result<(), OutOfMemory> {
    for _ in 0..times {
        if run(alloc, text, list, replies).is_err() {
            return Err(OutOfMemory);
        }
    }
    Ok(())
}

// Makes edits of a text, again and again, and returns how long it is then.
fn edited_len<T: TextEdit + Drop>(
    alloc: Global,
    made: Result<T, OutOfMemory>,
    list: &[Edit<'_>],
    times: usize,
) -> Result<u64, OutOfMemory> {
    let mut text = made?;
    let mut replies = Vec::new(alloc);
    let done = run_often(alloc, &mut text, list, times, &mut replies);
    length_after(done, text.unit_count())
}

// Returns a text with an offset index.
fn marked(alloc: Global, utf8: &str) -> Result<Marked16, OutOfMemory> {
    match Marked16::new(alloc, Utf16String::from_str(alloc, utf8)?) {
        Ok(text) => Ok(text),
        Err(_error) => Err(OutOfMemory),
    }
}

// Edits a text, and returns its length.
fn edited<C: FaultUnit>(input: &Input<'_, C>) -> Result<u64, OutOfMemory> {
    let text: Result<UtfString<C>, OutOfMemory> = UtfString::from_str(input.alloc, input.utf8);
    edited_len(input.alloc, text, &edits(input.text.char_count()), 1)
}

// Edits a text in UTF-16 with an offset index, or one in UTF-32 without, and returns its length.
fn edited_marked<C: FaultUnit>(input: &Input<'_, C>) -> Result<u64, OutOfMemory> {
    match C::as_any(input.units.as_slice()) {
        AnyUnits::U16(_) => {
            let text = marked(input.alloc, input.utf8);
            edited_len(input.alloc, text, &edits(input.text.char_count()), 1)
        }
        AnyUnits::U32(_) => edited(input),
    }
}

// Replaces as many characters as the needle has by the needle, again and again, in a text with an offset index.
fn replaced<C: FaultUnit>(input: &Input<'_, C>, at: usize) -> Result<u64, OutOfMemory> {
    let alloc = input.alloc;
    let with = input.needle.to_string_lossy(alloc)?;
    let list = [Edit::Replace(at, at.saturating_add(input.needle.len()), &with)];
    edited_len(alloc, marked(alloc, input.utf8), &list, EDITS)
}

fn units_of_bytes(alloc: Global, bytes: &[u8]) -> Result<u64, OutOfMemory> {
    let units: Vec<u16> = utf16_of_bytes(bytes).units.collect(alloc)?;
    Ok(units.len() as u64)
}

// Returns the length of the text of bytes, and one more if all of it was read.
fn transcoded(alloc: Global, bytes: &[u8]) -> u64 {
    let mut source = FromRead::new(bytes);
    let mut sink = FromWrite::new(Vec::new(alloc));
    let is_done = transcode(&mut source, &mut sink, Mode::Lossy).is_ok();
    (sink.into_inner().len() as u64).wrapping_add(u64::from(is_done))
}

impl Call for Sources {
    fn named(name: &str) -> Option<Sources> {
        named_in(&CALLS, name)
    }

    fn make<C: FaultUnit + Ord>(self, input: &Input<'_, C>) -> Result<u64, OutOfMemory> {
        match self {
            Sources::Decode => Ok(decoded(input.units.as_slice())),
            Sources::EncodeUtf16 => Ok(encoded(input.utf8)),
            Sources::Utf16OfBytes => units_of_bytes(input.alloc, input.bytes),
            Sources::Transcode => Ok(transcoded(input.alloc, input.bytes)),
            Sources::Edits => edited(input),
            Sources::MarkedEdits => edited_marked(input),
            Sources::MarkedFront => replaced(input, 3),
            Sources::MarkedMiddle => replaced(input, input.text.char_count() / 2),
        }
    }
}
