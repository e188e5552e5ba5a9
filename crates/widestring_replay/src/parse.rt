//! Parses lists and calls of the data.
use std::alloc::{AllocError, AllocFailed, Global};
use std::ops::Bound;
use wide_error::OutOfMemory;
use wide_iter::End;
use widestring_testing::Heap;

/// Why a question has no answer.
#[derive(Clone, Copy, Debug, PartialEq, Eq)]
pub enum NoAnswer {
    /// The list or the question can't be parsed.
    Unparsed,
    /// An allocation failed.
    OutOfMemory,
}

impl From<AllocError> for NoAnswer {
    fn from(_: AllocError) -> NoAnswer {
        NoAnswer::OutOfMemory
    }
}

impl<T: Drop> From<AllocFailed<T>> for NoAnswer {
    fn from(_: AllocFailed<T>) -> NoAnswer {
        NoAnswer::OutOfMemory
    }
}

impl From<OutOfMemory> for NoAnswer {
    fn from(_: OutOfMemory) -> NoAnswer {
        NoAnswer::OutOfMemory
    }
}

/// The allocators: the heap of the library's calls, whose requests are counted and fail when the replay says so, and
/// the allocator of everything else.
#[derive(Clone, Copy)]
pub struct Memory<'a> {
    /// The allocator of the library's calls.
    pub heap: &'a Heap,
    /// The allocator of the question and the answer.
    pub alloc: Global,
}

impl Memory<'_> {
    /// Returns how many requests the library's calls made since `left` requests were still to be granted.
    pub fn requests_since(self, left: u64) -> u64 {
        left.saturating_sub(self.heap.left())
    }
}

/// A value that the data has in hexadecimal.
pub trait FromHex: Sized {
    /// Parses a word. Returns `None` if it has no value.
    fn from_hex(word: &str) -> Option<Self>;
}

impl FromHex for u8 {
    fn from_hex(word: &str) -> Option<u8> {
        u8::from_str_radix(word, 16).ok()
    }
}

impl FromHex for u16 {
    fn from_hex(word: &str) -> Option<u16> {
        u16::from_str_radix(word, 16).ok()
    }
}

impl FromHex for u32 {
    fn from_hex(word: &str) -> Option<u32> {
        u32::from_str_radix(word, 16).ok()
    }
}

impl FromHex for usize {
    fn from_hex(word: &str) -> Option<usize> {
        usize::from_str_radix(word, 16).ok()
    }
}

impl FromHex for char {
    fn from_hex(word: &str) -> Option<char> {
        char::from_u32(u32::from_hex(word)?)
    }
}

/// Parses the value of a word.
pub fn value<T: FromHex>(word: &str) -> Result<T, NoAnswer> {
    match T::from_hex(word) {
        Some(value) => Ok(value),
        None => Err(NoAnswer::Unparsed),
    }
}

// Appends the values of a word: one or more, separated by commas, and optionally a `*` and how many times they are
// repeated.
fn push_word<T: FromHex + Drop>(values: &mut Vec<T>, word: &str) -> Result<(), NoAnswer> {
    let (group, count) = match word.split_once('*') {
        Some((group, count)) => (group, value::<usize>(count)?),
        None => (word, 1),
    };
    for _ in 0..count {
        for word in group.split(',') {
            values.push(value(word)?)?;
        }
    }
    Ok(())
}

/// Parses a list, whose words are separated by spaces. A word with a `*` stands for repeated values: `61,62*10` for `61
/// 62`, sixteen times.
pub fn list<T: FromHex + Drop>(alloc: Global, text: &str) -> Result<Vec<T>, NoAnswer> {
    let mut values = Vec::new(alloc);
    if text.is_empty() {
        return Ok(values);
    }
    for word in text.split(' ') {
        push_word(&mut values, word)?;
    }
    Ok(values)
}

/// Parses a word of calls, the letters `F` and `B`.
pub fn calls(alloc: Global, word: &str) -> Result<Vec<End>, NoAnswer> {
    let mut ends = Vec::new(alloc);
    for letter in word.bytes() {
        let end = match letter {
            b'F' => End::Front,
            b'B' => End::Back,
            _ => return Err(NoAnswer::Unparsed),
        };
        ends.push(end)?;
    }
    Ok(ends)
}

/// Parses a word of steps, the letters `F`, `B` and `C`: a call from an end or, at a `C`, a copy to continue with.
pub fn steps(alloc: Global, word: &str) -> Result<Vec<Option<End>>, NoAnswer> {
    let mut steps = Vec::new(alloc);
    for letter in word.bytes() {
        let step = match letter {
            b'F' => Some(End::Front),
            b'B' => Some(End::Back),
            b'C' => None,
            _ => return Err(NoAnswer::Unparsed),
        };
        steps.push(step)?;
    }
    Ok(steps)
}

/// Returns the value of a word in a table.
pub fn named<T: Copy>(table: &[(&str, T)], word: &str) -> Result<T, NoAnswer> {
    for (known, value) in table {
        if *known == word {
            return Ok(*value);
        }
    }
    Err(NoAnswer::Unparsed)
}

/// Splits a question into its first word and what follows the space after it.
pub fn word(question: &str) -> (&str, &str) {
    question.split_once(' ').unwrap_or((question, ""))
}

/// Splits a question into its first letter and the rest.
pub fn kind(question: &str) -> Result<(u8, &str), NoAnswer> {
    let Some((first, rest)) = question.split_at_checked(1) else {
        return Err(NoAnswer::Unparsed);
    };
    match first.as_bytes() {
        [letter] => Ok((*letter, rest)),
        _ => Err(NoAnswer::Unparsed),
    }
}

/// Returns how many calls a word has, all of them from the front.
pub fn prefix_calls(word: &str) -> Result<usize, NoAnswer> {
    for letter in word.bytes() {
        if letter != b'F' {
            return Err(NoAnswer::Unparsed);
        }
    }
    Ok(word.len())
}

/// Splits a question at its colon.
pub fn parts(question: &str) -> Result<(&str, &str), NoAnswer> {
    match question.split_once(':') {
        Some(parts) => Ok(parts),
        None => Err(NoAnswer::Unparsed),
    }
}

// Parses a bound of a range: an offset after an `i` if it is included, after an `e` if it is excluded, or a `-` for
// none.
fn bound(text: &str) -> Result<Bound<usize>, NoAnswer> {
    if text == "-" {
        return Ok(Bound::Unbounded);
    }
    let (kind, position) = kind(text)?;
    match kind {
        b'i' => Ok(Bound::Included(value(position)?)),
        b'e' => Ok(Bound::Excluded(value(position)?)),
        _ => Err(NoAnswer::Unparsed),
    }
}

/// Parses a range: its two bounds, separated by a comma.
pub fn range(text: &str) -> Result<(Bound<usize>, Bound<usize>), NoAnswer> {
    match text.split_once(',') {
        Some((start, end)) => Ok((bound(start)?, bound(end)?)),
        None => Err(NoAnswer::Unparsed),
    }
}

/// Returns an error if a question is not empty.
pub fn no_question(question: &str) -> Result<(), NoAnswer> {
    if question.is_empty() {
        Ok(())
    } else {
        Err(NoAnswer::Unparsed)
    }
}
