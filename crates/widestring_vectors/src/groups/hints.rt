//! The bounds that `size_hint` of an iterator returns, at first and after each call.
ghost use Rattle.std.specs.Prelude.{◌≤◌, length};
ghost use Rattle.std.specs.Iterator.{IsFinite, at_most};

use std::alloc::Global;
use widestring::iter::{
    End, decode_utf16, decode_utf16_lossy, decode_utf32, decode_utf32_lossy, encode_utf8,
    encode_utf16,
};
use widestring_replay::asked;
use widestring_replay::parse::{self, NoAnswer};
use widestring_replay::show::Answer;

// Adds the bounds of an iterator, at first and after each call.
fn bounds<I: DoubleEndedIterator>(answer: &mut Answer, mut iterator: I, calls: &[End])
where
    I::Item: Drop,
    requires front { (i : I) → I.can_next i }
    requires back { (i : I) → I.can_next_back i }
    requires finite { (i : I) → IsFinite (I.remaining i) }
{
    answer.bounds(iterator.size_hint());
    for call in calls {
        let _item = asked!(iterator, call);
        answer.bounds(iterator.size_hint());
    }
}

fn of_slice(answer: &mut Answer, units: &[u16], calls: &[End]) {
    bounds(answer, decode_utf16(units.iter().copied()), calls);
}

fn of_vec(alloc: Global, answer: &mut Answer, units: &[u16], calls: &[End]) {
    match Vec::from_slice(alloc, units) {
        Ok(units) => bounds(answer, decode_utf16(units), calls),
        Err(_) => answer.fail(NoAnswer::OutOfMemory),
    }
}

fn of_array<const N: usize>(answer: &mut Answer, units: [u16; N], calls: &[End])
    requires { N ≤ 4 }
{
    bounds(answer, decode_utf16(units), calls);
}

// Adds the bounds for an array. The data have up to four units.
fn of_units(answer: &mut Answer, units: &[u16], calls: &[End]) {
    match units {
        [] => of_array(answer, [], calls),
        [a] => of_array(answer, [*a], calls),
        [a, b] => of_array(answer, [*a, *b], calls),
        [a, b, c] => of_array(answer, [*a, *b, *c], calls),
        [a, b, c, d] => of_array(answer, [*a, *b, *c, *d], calls),
        _ => answer.fail(NoAnswer::Unparsed),
    }
}

// Units of which only an upper bound of their number is known, or nothing.
#[derive(Drop)]
struct Vague<'a> {
    units: &'a [u16],
    bounded: bool,
}

impl Iterator for Vague<'_> {
    type Item = u16;

    ghost remaining = { λ s. at_most (length s.units.now) };

    fn next(&mut self) -> Option<u16> {
        let (first, others) = self.units.split_first()?;
        self.units = others;
        Some(*first)
    }

    fn size_hint(&self) -> (usize, Option<usize>) {
        let upper = if self.bounded { Some(usize::MAX) } else { None };
        (0, upper)
    }
}

impl DoubleEndedIterator for Vague<'_> {
    fn next_back(&mut self) -> Option<u16> {
        let (last, others) = self.units.split_last()?;
        self.units = others;
        Some(*last)
    }
}

fn of_vague(answer: &mut Answer, source: Vague, calls: &[End]) {
    bounds(answer, decode_utf16(source), calls);
}

fn of_source(alloc: Global, answer: &mut Answer, source: u8, units: &[u16], calls: &[End]) {
    let bounded = source == b'm';
    match source {
        b's' => of_slice(answer, units, calls),
        b'a' => of_units(answer, units, calls),
        b'v' => of_vec(alloc, answer, units, calls),
        b'm' | b'n' => of_vague(answer, Vague { units, bounded }, calls),
        _ => answer.fail(NoAnswer::Unparsed),
    }
}

fn of_word(alloc: Global, answer: &mut Answer, source: u8, units: &[u16], word: &str) {
    match parse::calls(alloc, word) {
        Ok(calls) => of_source(alloc, answer, source, units, &calls),
        Err(error) => answer.fail(error),
    }
}

/// Adds the bounds of a decoder of UTF-16. A question is a letter for the source, and then a word of calls: `s` for the
/// copied units of a slice, `a` for an array, `v` for a vector, `m` for units whose source says that they are at most
/// `usize::MAX`, and `n` for units of which it says nothing.
pub fn utf16(alloc: Global, answer: &mut Answer, units: &[u16], question: &str) {
    match parse::kind(question) {
        Ok((source, word)) => of_word(alloc, answer, source, units, word),
        Err(error) => answer.fail(error),
    }
}

/// Adds the bounds of a decoder of UTF-32 over the copied units of a slice. A question is a word of calls.
pub fn utf32(alloc: Global, answer: &mut Answer, units: &[u32], word: &str) {
    match parse::calls(alloc, word) {
        Ok(calls) => bounds(answer, decode_utf32(units.iter().copied()), &calls),
        Err(error) => answer.fail(error),
    }
}

/// Adds the bounds of a lossy decoder of UTF-16 over the copied units of a slice.
pub fn lossy_utf16(answer: &mut Answer, units: &[u16], calls: &[End]) {
    bounds(answer, decode_utf16_lossy(units.iter().copied()), calls);
}

/// Adds the bounds of a lossy decoder of UTF-32 over the copied units of a slice.
pub fn lossy_utf32(answer: &mut Answer, units: &[u32], calls: &[End]) {
    bounds(answer, decode_utf32_lossy(units.iter().copied()), calls);
}

// Adds the bounds of an encoder, at first and after each call from the front.
fn prefix_bounds<I: Iterator>(answer: &mut Answer, mut encoder: I, calls: usize)
where
    I::Item: Drop,
    requires front { (i : I) → I.can_next i }
    requires finite { (i : I) → IsFinite (I.remaining i) }
{
    answer.bounds(encoder.size_hint());
    for _call in 0..calls {
        let _item = encoder.next();
        answer.bounds(encoder.size_hint());
    }
}

/// Adds the bounds of an encoder to UTF-8 over the copied characters of a slice. A question is a word of calls, all
/// from the front.
pub fn of_utf8_encoder(answer: &mut Answer, chars: &[char], word: &str) {
    match parse::prefix_calls(word) {
        Ok(calls) => prefix_bounds(answer, encode_utf8(chars.iter().copied()), calls),
        Err(error) => answer.fail(error),
    }
}

/// Adds the bounds of an encoder to UTF-16 over the copied characters of a slice. A question is a word of calls, all
/// from the front.
pub fn of_utf16_encoder(answer: &mut Answer, chars: &[char], word: &str) {
    match parse::prefix_calls(word) {
        Ok(calls) => prefix_bounds(answer, encode_utf16(chars.iter().copied()), calls),
        Err(error) => answer.fail(error),
    }
}
