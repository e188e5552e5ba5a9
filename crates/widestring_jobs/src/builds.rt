//! Decodes texts character by character, from both ends, and builds strings of characters and words.
ghost use Rattle.std.specs.Iterator.{IsFinite};

use crate::digest::Digest;
use crate::texts::{Words, spoil};
use std::alloc::Global;
use widestring::error::{DecodeUtf16Error, OutOfMemory};
use widestring::{Policy, U16Str, U16String, Utf16Str, Utf16String, decode_utf16};

const UNITS: usize = 100_000;

// Adds a character to a sum.
fn plus(sum: u64, factor: u64, c: char) -> u64 {
    sum.wrapping_mul(factor).wrapping_add(u64::from(c as u32))
}

// Adds an item to a sum: a character, or an unpaired surrogate.
fn plus_item(sum: u64, factor: u64, item: Result<char, DecodeUtf16Error>) -> u64 {
    match item {
        Ok(c) => plus(sum, factor, c),
        Err(fault) => sum.wrapping_add(u64::from(fault.unpaired_surrogate())),
    }
}

// Adds an item to a sum, if there is one.
fn plus_any(sum: u64, factor: u64, item: Option<Result<char, DecodeUtf16Error>>) -> u64 {
    match item {
        Some(item) => plus_item(sum, factor, item),
        None => sum,
    }
}

// Adds characters to a sum.
fn plus_all<I: Iterator<Item = char>>(sum: u64, factor: u64, chars: I) -> u64
    requires { I.can_next chars × IsFinite (I.remaining chars) }
{
    let mut sum = sum;
    for c in chars {
        sum = plus(sum, factor, c);
    }
    sum
}

// Returns the items that a decoder of the units finds, as one number.
fn decoded(units: &[u16]) -> u64 {
    let mut sum = 0u64;
    for item in decode_utf16(units.iter().copied()) {
        sum = plus_item(sum, 3, item);
    }
    sum
}

// Adds the characters and their offsets to a sum.
fn plus_indices(sum: u64, view: U16Str<'_>) -> u64 {
    let mut sum = sum;
    for (at, c) in view.char_indices_lossy() {
        sum = sum
            .wrapping_mul(5)
            .wrapping_add(at as u64 ^ u64::from(c as u32));
    }
    sum
}

// Decodes a text by each decoder.
fn decode(units: &[u16], digest: &mut Digest) {
    let view = U16Str::from_slice(units);
    let sum = plus_all(decoded(units), 3, view.chars_lossy().rev());
    let sum = plus_indices(sum, view);
    digest.number(plus_all(sum, 7, view.chars_lossy_with(Policy::Run)));
}

// Reads the characters of a text from both ends in turn.
fn decode_ends(units: &[u16], digest: &mut Digest) {
    let mut items = U16Str::from_slice(units).chars();
    let mut sum = 0u64;
    for _ in 0..units.len() {
        sum = plus_any(sum, 3, items.next());
        sum = plus_any(sum, 5, items.next_back());
    }
    digest.number(sum);
}

// Appends the characters of a text but one.
fn push_chars(text: Utf16Str<'_>, pushed: &mut Utf16String) -> Result<(), OutOfMemory> {
    for c in text.chars() {
        if c != 'e' {
            pushed.push(c)?;
        }
    }
    Ok(())
}

// Removes `count` characters from the back, and returns them as one number.
fn pop_chars(pushed: &mut Utf16String, count: usize) -> u64 {
    let mut sum = 0u64;
    for _ in 0..count {
        if let Some(c) = pushed.pop() {
            sum = plus(sum, 3, c);
        }
    }
    sum
}

// Builds a string of the characters of a text.
fn build(
    text: Utf16Str<'_>,
    pushed: &mut Utf16String,
    digest: &mut Digest,
) -> Result<(), OutOfMemory> {
    push_chars(text, pushed)?;
    pushed.extend_chars(text.chars().rev())?;
    pushed.retain(|c| c != ' ' && c != 'n');
    digest.units(pushed.as_slice());
    let sum = pop_chars(pushed, text.len() / 2);
    let middle = pushed.as_utfstr().floor_char_boundary(pushed.len() / 2);
    let back = pushed.split_off(middle)?;
    digest.number(plus_all(sum, 3, pushed.drain(..)));
    digest.units(back.as_slice());
    Ok(())
}

// Builds strings of the characters of units, if they are a text.
fn build_of_chars(alloc: Global, units: &[u16], digest: &mut Digest) -> Result<(), OutOfMemory> {
    let mut pushed = Utf16String::new(alloc);
    match Utf16Str::from_slice(units) {
        Ok(text) => build(text, &mut pushed, digest),
        Err(_ill_formed) => Ok(()),
    }
}

// Appends a line with a number and a word.
fn push_line(
    alloc: Global,
    number: usize,
    word: &str,
    text: &mut U16String,
) -> Result<(), OutOfMemory> {
    let line: String = format!(in alloc; " {number:04}: {word} ")?;
    text.write_str(&line)
}

// Appends a word, after each sixteenth a line with its number, and inserts a character after each sixty-fourth.
fn push_word(words: &mut Words, number: usize, text: &mut U16String) -> Result<(), OutOfMemory> {
    let alloc = words.alloc;
    let word = words.string();
    text.push_str(word)?;
    if number % 16 == 0 {
        push_line(alloc, number, word, text)?;
    }
    if number % 64 == 0 {
        return text.insert_char(text.len() / 2, '\u{1f600}');
    }
    Ok(())
}

fn push_words(words: &mut Words, count: usize, text: &mut U16String) -> Result<(), OutOfMemory> {
    for number in 0..count {
        push_word(words, number, text)?;
    }
    Ok(())
}

// Builds a string of words, one by one, and inserts some of them.
fn build_of_words(words: &mut Words, digest: &mut Digest) -> Result<(), OutOfMemory> {
    let mut text = U16String::new(words.alloc);
    let count = words.size(UNITS) / 8;
    let built = push_words(words, count, &mut text);
    digest.units(text.as_slice());
    built
}

// Decodes and builds a text, which is decoded with faults if it is an awkward one.
fn decode_and_build(
    words: &mut Words,
    is_awkward: bool,
    digest: &mut Digest,
) -> Result<(), OutOfMemory> {
    let mut units = words.text(words.size(UNITS))?;
    let built = build_both(words, &units, digest);
    if is_awkward {
        spoil(units.as_mut_slice());
    }
    decode(&units, digest);
    decode_ends(&units, digest);
    built
}

fn build_both(words: &mut Words, units: &[u16], digest: &mut Digest) -> Result<(), OutOfMemory> {
    build_of_chars(words.alloc, units, digest)?;
    build_of_words(words, digest)
}

/// Decodes and builds `rounds` texts. Each fourth is decoded with faults, too.
pub fn run(words: &mut Words, rounds: u64, digest: &mut Digest) -> Result<(), OutOfMemory> {
    for round in 0..rounds {
        decode_and_build(words, round % 4 == 3, digest)?;
    }
    Ok(())
}
