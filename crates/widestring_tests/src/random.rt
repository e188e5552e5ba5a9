//! Pseudo-random texts and edits. The same seed makes the same ones.
ghost use Rattle.std.specs.Prelude.{◌<◌, length};

use std::alloc::{AllocError, Global};
use widestring::edit::Edit;

// Characters of one unit of UTF-16 and of two, of one to four bytes of UTF-8, and the last of each kind.
const CHARS: [char; 12] = [
    'a',
    'b',
    '\0',
    '\u{7f}',
    '\u{e9}',
    '\u{7ff}',
    '\u{4e2d}',
    '\u{e000}',
    '\u{ffff}',
    '\u{10000}',
    '\u{1f600}',
    '\u{10ffff}',
];

const TEXTS: [&str; 10] = [
    "",
    "a",
    "\u{1f600}",
    "\u{e9}\0",
    "b\u{10ffff}\u{ffff}",
    "\u{10000}\u{10000}",
    "a\u{4e2d}\u{1f600}b\u{e000}",
    "\u{1f600}a\u{1f600}\u{1f600}\u{7ff}\u{7f}\u{10ffff}",
    "abababababababababababababababab",
    "\u{1f600}\u{1f600}\u{1f600}\u{1f600}a\u{1f600}\u{1f600}\u{1f600}\u{1f600}\u{1f600}\u{1f600}\u{1f600}\u{1f600}\u{1f600}\u{1f600}\u{1f600}\u{1f600}",
];

const KEPT: [&[char]; 7] = [
    &[],
    &['a'],
    &['\u{1f600}', 'b', 'a'],
    &['\u{10000}', '\u{10ffff}', '\u{1f600}'],
    &[
        'a', 'b', '\0', '\u{7f}', '\u{e9}', '\u{7ff}', '\u{4e2d}', '\u{e000}', '\u{ffff}',
    ],
    &[
        'a',
        '\u{e9}',
        '\u{ffff}',
        '\u{10000}',
        '\u{1f600}',
        '\u{1f600}',
    ],
    &CHARS,
];

// Quotes, a backslash, controls, letters, combining marks, spaces that are escaped, a character that no one assigned,
// characters of private use and beyond U+FFFF, surrogates, and a number beyond all characters.
const NUMBERS: [u32; 36] = [
    0x22, 0x27, 0x5c, 0, 9, 0xa, 0xd, 0x1b, 0x7f, 0x9f, 0xad, 0xe9, 0x300, 0x301, 0x378, 0x416,
    0x483, 0x64b, 0x915, 0x93f, 0x94d, 0xe34, 0x200b, 0x2028, 0x20ac, 0x3042, 0x3099, 0x4e2d,
    0xac00, 0xe000, 0xfffd, 0x1_f600, 0xe_0100, 0x11_0000, 0xd83d, 0xde00,
];

// A xorshift generator.
#[derive(Drop)]
pub struct Random {
    state: u64,
}

impl Random {
    // The odd factor spreads seeds that are close to each other.
    pub fn new(seed: u64) -> Random {
        Random {
            state: seed.wrapping_add(1).wrapping_mul(0x9e37_79b9_7f4a_7c15),
        }
    }

    fn next(&mut self) -> u64 {
        self.state ^= self.state << 13;
        self.state ^= self.state >> 7;
        self.state ^= self.state << 17;
        self.state
    }

    pub fn below(&mut self, count: usize) -> usize
        requires { 0 < count }
        ensures { result < count }
    {
        self.next() as usize % count
    }

    fn pick<T: Copy>(&mut self, items: &[T]) -> T
        requires { 0 < length items.now }
    {
        items[self.below(items.len())]
    }

    // Returns an offset in a list of this many characters, mostly close to an end.
    fn offset(&mut self, count: usize) -> usize {
        match self.below(10) {
            0 => 0,
            1 => count.saturating_sub(1),
            2 => count,
            3 => count.saturating_add(1),
            4 => usize::MAX,
            _ => self.below(count.saturating_add(1)),
        }
    }

    // Returns a text of a few characters, and sometimes of up to 150.
    pub fn text(&mut self, alloc: Global) -> Result<String, AllocError> {
        let count = match self.below(6) {
            0 => self.below(151),
            1 | 2 => self.below(20),
            _ => self.below(7),
        };
        let mut text = String::new(alloc);
        for _ in 0..count {
            text.push(self.pick(&CHARS))?;
        }
        Ok(text)
    }

    // Returns the number of a character or of none: mostly a letter, or one that debug text may escape.
    pub fn number(&mut self) -> u32 {
        match self.below(8) {
            0 | 1 => self.pick(&NUMBERS),
            2 => self.below(0x80) as u32,
            3 => self.below(0x11_0000) as u32,
            4 => 0x430 + self.below(32) as u32,
            5 => 0x4e00 + self.below(0x5000) as u32,
            _ => 0x61 + self.below(26) as u32,
        }
    }

    // Returns an edit of a list of this many characters.
    pub fn edit(&mut self, count: usize) -> Edit<'static> {
        let offset = self.offset(count);
        match self.below(12) {
            0 => Edit::Push(self.pick(&CHARS)),
            1 => Edit::PushStr(self.pick(&TEXTS)),
            2 => Edit::Pop,
            3 => Edit::Truncate(offset),
            4 => Edit::Insert(offset, self.pick(&CHARS)),
            5 => Edit::InsertStr(offset, self.pick(&TEXTS)),
            6 => Edit::Remove(offset),
            7 => Edit::Retain(self.pick(&KEPT)),
            8 => Edit::Drain(offset, self.offset(count)),
            9 => Edit::Replace(offset, self.offset(count), self.pick(&TEXTS)),
            10 => Edit::SplitOff(offset),
            _ => Edit::Clear,
        }
    }

    // Returns an offset in a list of this many characters: close to an end, to a multiple of 64, or anywhere.
    fn near_offset(&mut self, count: usize) -> usize {
        match self.below(4) {
            0 => self.below(70),
            1 => count.saturating_sub(self.below(70)),
            2 => (self.below(count / 64 + 1) * 64 + self.below(3)).saturating_sub(1),
            _ => self.below(count.saturating_add(2)),
        }
    }

    // Returns an edit that replaces characters of a list of this many characters by others, mostly few by few.
    pub fn small_edit(&mut self, count: usize) -> Edit<'static> {
        let from = self.near_offset(count);
        let to = from.saturating_add(self.below(40));
        match self.below(8) {
            0 => Edit::Push(self.pick(&CHARS)),
            1 => Edit::PushStr(self.pick(&TEXTS)),
            2 => Edit::Insert(from, self.pick(&CHARS)),
            3 => Edit::InsertStr(from, self.pick(&TEXTS)),
            4 => Edit::Remove(from),
            5 => Edit::Drain(from, to),
            6 => Edit::Replace(from, to, self.pick(&TEXTS)),
            _ => Edit::Replace(
                from,
                from.saturating_add(self.below(600)),
                self.pick(&TEXTS),
            ),
        }
    }

    // Returns a text of up to 20,000 characters. Each third of such texts has no pairs, some, and pairs only.
    pub fn long_text(&mut self, alloc: Global) -> Result<String, AllocError> {
        let chars = match self.below(3) {
            0 => &CHARS[..9],
            1 => &CHARS[..],
            _ => &CHARS[9..],
        };
        let most = match self.below(3) {
            0 => 200,
            1 => 2_000,
            _ => 20_000,
        };
        let mut text = String::new(alloc);
        for _ in 0..self.below(most) {
            text.push(self.pick(chars))?;
        }
        Ok(text)
    }
}
