//! Tests of sources that report few bounds, or that fail.
ghost use Rattle.std.specs.Prelude.{length};
ghost use Rattle.std.specs.Iterator.{at_most};

use crate::all_hold::{all_hold, case_holds, is_collected};
use std::alloc::Global;
use std::cell::Cell;
use widestring::{U16String, Utf32String, encode_utf8, encode_utf16};

// Characters that report only an upper bound of their number, the greatest one, or no bound.
#[derive(Drop)]
struct Vague<'a> {
    rest: &'a [char],
    is_bounded: bool,
}

impl Iterator for Vague<'_> {
    type Item = char;

    ghost remaining = { λ s. at_most (length s.rest.now) };

    fn next(&mut self) -> Option<char> {
        let (first, others) = self.rest.split_first()?;
        self.rest = others;
        Some(*first)
    }

    fn size_hint(&self) -> (usize, Option<usize>) {
        let upper = if self.is_bounded {
            Some(usize::MAX)
        } else {
            None
        };
        (0, upper)
    }
}

const CHARS: [char; 3] = ['a', '😀', 'é'];

fn vague_source(is_bounded: bool) -> Vague<'static> {
    Vague {
        rest: &CHARS,
        is_bounded,
    }
}

// The characters in UTF-16.
static UNITS: [u16; 4] = [0x61, 0xd83d, 0xde00, 0xe9];

// Returns whether a string of 16-bit units takes all characters.
fn is_taken_by_16(alloc: Global, is_bounded: bool) -> bool {
    let mut string = U16String::new(alloc);
    string.extend_chars(vague_source(is_bounded)).is_ok() && string.as_slice() == UNITS.as_slice()
}

// Returns whether a string of 32-bit units takes all characters.
fn is_taken_by_32(alloc: Global, is_bounded: bool) -> bool {
    let mut string = Utf32String::new(alloc);
    string.extend_chars(vague_source(is_bounded)).is_ok() && string.len() == 3
}

// Returns whether strings and encoders take all characters, and the size hints of encoders claim no more than the
// source's.
fn is_taken(alloc: Global, is_bounded: bool) -> [bool; 7] {
    let utf16 = encode_utf16(vague_source(is_bounded));
    let utf8 = encode_utf8(vague_source(is_bounded));
    [
        is_taken_by_16(alloc, is_bounded),
        is_taken_by_32(alloc, is_bounded),
        utf16.size_hint() == (0, None),
        utf8.size_hint() == (0, None),
        is_collected(utf16.collect(alloc), &UNITS),
        is_collected(encode_utf16(CHARS).collect(alloc), &UNITS),
        is_collected(utf8.collect(alloc), "a😀é".as_bytes()),
    ]
}

#[test]
fn vague_sources(rt: HostRuntime) {
    for is_bounded in [true, false] {
        all_hold(&rt, &is_taken(rt.alloc(), is_bounded));
    }
}

// Characters that are read until there is a fault, which ends them and is recorded in a cell.
#[derive(Drop)]
struct Faulty<'a> {
    rest: &'a [Option<char>],
    has_failed: &'a Cell<bool>,
}

impl Iterator for Faulty<'_> {
    type Item = char;

    ghost remaining = { λ s. at_most (length s.rest.now) };

    fn next(&mut self) -> Option<char> {
        let (first, others) = self.rest.split_first()?;
        self.rest = others;
        if first.is_none() {
            self.has_failed.set(true);
            self.rest = &[];
        }
        *first
    }
}

// Returns whether an extension adds the characters before a fault, and none after it.
fn is_kept(alloc: Global, before: usize) -> bool {
    let mut read = [Some('a'), Some('😀'), Some('b'), Some('c')];
    let Some(offset) = read.get_mut(before) else {
        return false;
    };
    *offset = None;
    let has_failed = Cell::new(false);
    let mut string = Utf32String::new(alloc);
    let answer = string.extend_chars(Faulty {
        rest: &read,
        has_failed: &has_failed,
    });
    let whole = [0x61, 0x1_f600, 0x62, 0x63];
    answer.is_ok()
        && has_failed.get()
        && string.len() == before
        && whole.starts_with(string.as_slice())
}

#[test]
fn sources_that_fail(rt: HostRuntime) {
    for before in 0..4 {
        case_holds(&rt, before, is_kept(rt.alloc(), before));
    }
}
