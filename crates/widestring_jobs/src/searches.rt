//! Finds, splits and replaces in lines and in whole texts.

use crate::digest::Digest;
use crate::random::Random;
use crate::texts::Words;
use widestring::error::OutOfMemory;
use widestring::ustring::UStrInUstring;
use widestring::{U16Str, U16String, Utf16Str};

const UNITS: usize = 200_000;

const NEEDLES: usize = 40;

// Makes a needle of a substring of a text: the unit in its middle becomes another letter. So the needle occurs rarely,
// if at all.
fn make_rare(
    random: &mut Random,
    part: U16Str<'_>,
    needle: &mut Vec<u16>,
) -> Result<(), OutOfMemory> {
    needle.extend_from_slice(part.as_slice())?;
    let letter = random.below(26).saturating_add(0x61);
    if let Some(unit) = needle.get_mut(part.len() / 2) {
        *unit = u16::try_from(letter).unwrap_or(0x61);
    }
    Ok(())
}

// Searches a text in one of several ways.
fn find(number: usize, text: U16Str<'_>, needle: U16Str<'_>, digest: &mut Digest) {
    let offset = match number % 4 {
        0 | 1 => text.find(needle),
        2 => text.rfind(needle),
        _ => {
            digest.number(u64::from(text.contains(needle)));
            text.rfind(needle)
        }
    };
    digest.offset(offset);
}

// Searches a text for a substring of it, or for a needle that occurs rarely or never.
fn find_next(
    words: &mut Words,
    number: usize,
    units: &[u16],
    digest: &mut Digest,
) -> Result<(), OutOfMemory> {
    let text = U16Str::from_slice(units);
    let part = words.part(units, 1, 50);
    let mut rare = Vec::new(words.alloc);
    make_rare(&mut words.random, part, &mut rare)?;
    if number % 2 == 0 {
        find(number, text, part, digest);
    } else {
        find(number, text, U16Str::from_slice(&rare), digest);
    }
    Ok(())
}

// Searches a whole text from both ends for needles of 1 to 50 units, half of which occur rarely or never.
fn find_in(words: &mut Words, units: &[u16], digest: &mut Digest) -> Result<(), OutOfMemory> {
    for number in 0..NEEDLES {
        find_next(words, number, units, digest)?;
    }
    Ok(())
}

// Adds the lengths of the substrings of a text between words to a sum.
fn split_at_words(sum: u64, text: U16Str<'_>, word: U16Str<'_>) -> u64 {
    let mut sum = sum;
    for part in text.split(word) {
        sum = sum.wrapping_mul(3).wrapping_add(part.len() as u64);
    }
    sum
}

// Adds the lengths of the substrings of a text between characters to a sum.
fn split_at_chars(sum: u64, text: Utf16Str<'_>) -> u64 {
    let mut sum = sum;
    for part in text.split_char('e') {
        sum = sum.wrapping_mul(3).wrapping_add(part.len() as u64);
    }
    sum
}

// Adds the lengths of what is after the last space to a sum, if there is one.
fn split_rest(sum: u64, rest: U16Str<'_>, space: U16Str<'_>) -> u64 {
    match rest.rsplit_once(space) {
        Some((_, last)) => sum.wrapping_mul(5).wrapping_add(last.len() as u64),
        None => sum,
    }
}

// Adds the lengths of what is before the first space and after the last one to a sum.
fn split_line(sum: u64, line: U16Str<'_>, space: U16Str<'_>) -> u64 {
    match line.split_once(space) {
        Some((first, rest)) => split_rest(sum.wrapping_add(first.len() as u64), rest, space),
        None => sum,
    }
}

// Adds an offset to a sum, if there is one.
fn plus_offset(sum: u64, offset: Option<usize>) -> u64 {
    match offset {
        Some(at) => sum.wrapping_add(at as u64),
        None => sum,
    }
}

// Splits a line at its first and its last space, and looks for a word and a letter in it.
fn search_line(sum: u64, line: U16Str<'_>, word: U16Str<'_>, space: U16Str<'_>) -> u64 {
    let sum = split_line(sum, line, space);
    let found = if line.contains(word) { 7 } else { 0 };
    plus_offset(sum.wrapping_add(found), line.rfind_char('z'))
}

// Splits a text into lines, and each line at its first and its last space.
fn split_lines(sum: u64, text: Utf16Str<'_>, word: U16Str<'_>) -> u64 {
    let mut sum = sum;
    let space = [u16::from(b' ')];
    for line in text.lines() {
        sum = search_line(sum, line.as_ustr(), word, U16Str::from_slice(&space));
    }
    sum
}

// Splits a text at a word, at a character and into lines.
fn split(words: &mut Words, units: &[u16], digest: &mut Digest) {
    if let Ok(text) = Utf16Str::from_slice(units) {
        let word = words.part(units, 2, 5);
        let sum = split_at_chars(split_at_words(0, text.as_ustr(), word), text);
        digest.number(split_lines(sum, text, word));
    }
}

// Replaces a word where it occurs next from an offset on, and returns the offset after it. Returns `None` if it does
// not occur.
fn replace_next(
    text: &mut U16String,
    from: usize,
    needle: U16Str<'_>,
    with: U16Str<'_>,
) -> Result<Option<usize>, OutOfMemory> {
    let rest = text.as_ustr().get(from..).unwrap_or_default();
    let Some(at) = rest.find(needle) else {
        return Ok(None);
    };
    let start = from.saturating_add(at);
    let end = start.saturating_add(needle.len());
    if start <= end && end <= text.len() {
        text.replace_range(start..end, with)?;
    }
    Ok(Some(start.saturating_add(with.len())))
}

fn replace_all(
    text: &mut U16String,
    needle: U16Str<'_>,
    with: U16Str<'_>,
) -> Result<(), OutOfMemory> {
    let mut from = 0usize;
    for _ in 0..50 {
        match replace_next(text, from, needle, with)? {
            Some(next) => from = next,
            None => return Ok(()),
        }
    }
    Ok(())
}

// Replaces a word, wherever it occurs in the first part of a text, by another.
fn replace(words: &mut Words, units: &[u16], digest: &mut Digest) -> Result<(), OutOfMemory> {
    let needle = words.part(units, 3, 8);
    let with = words.part(units, 1, 12);
    let mut text = U16Str::from_slice(units).to_ustring(words.alloc)?;
    let replaced = replace_all(&mut text, needle, with);
    digest.units(text.as_slice());
    replaced
}

// Appends a letter `count` times.
fn push_letters(units: &mut Vec<u16>, letter: u8, count: usize) -> Result<(), OutOfMemory> {
    for _ in 0..count {
        units.push(u16::from(letter))?;
    }
    Ok(())
}

// Makes a text that repeats itself, and a needle that does so but for the unit in its middle.
fn make_repeated(
    len: usize,
    text: &mut Vec<u16>,
    needle: &mut Vec<u16>,
) -> Result<(), OutOfMemory> {
    push_letters(text, b'a', len)?;
    push_letters(needle, b'a', 250)?;
    push_letters(needle, b'b', 1)?;
    push_letters(needle, b'a', 251)
}

// Searches a text that repeats itself for a needle that does so but for the unit in its middle, which occurs nowhere.
fn find_repeated(words: &mut Words, digest: &mut Digest) -> Result<(), OutOfMemory> {
    let mut text = Vec::new(words.alloc);
    let mut needle = Vec::new(words.alloc);
    let len = words.random.below(1000).saturating_add(words.size(60_000));
    let made = make_repeated(len, &mut text, &mut needle);
    let view = U16Str::from_slice(&text);
    let longer = U16Str::from_slice(&needle);
    let shorter = longer.get(..501).unwrap_or_default();
    digest.offset(view.find(shorter));
    digest.offset(view.rfind(longer));
    made
}

fn search_units(words: &mut Words, units: &[u16], digest: &mut Digest) -> Result<(), OutOfMemory> {
    find_in(words, units, digest)?;
    split(words, units, digest);
    replace(words, units, digest)
}

// Searches a text.
fn search(words: &mut Words, digest: &mut Digest) -> Result<(), OutOfMemory> {
    let units = words.text(words.size(UNITS))?;
    search_units(words, &units, digest)
}

/// Searches `rounds` texts, and after each fourth one a text that repeats itself.
pub fn run(words: &mut Words, rounds: u64, digest: &mut Digest) -> Result<(), OutOfMemory> {
    for round in 0..rounds {
        search(words, digest)?;
        if round % 4 == 3 {
            find_repeated(words, digest)?;
        }
    }
    Ok(())
}
