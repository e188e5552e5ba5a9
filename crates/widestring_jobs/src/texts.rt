//! Words and texts: most words are ASCII, some Cyrillic or Chinese, and a few end in an emoji.
ghost use Rattle.std.specs.Prelude.{◌<◌, length};

use crate::random::Random;
use std::alloc::{AllocError, Global};
use widestring::U16Str;
use widestring::error::OutOfMemory;

// How many words there are.
const WORDS: usize = 1024;

// English letters, the frequent ones more often.
const LETTERS: &[u8] =
    b"eeeeeeeeeeeetttttttttaaaaaaaaooooooooiiiiiiinnnnnnnsssssshhhhhhrrrrrrddddllllcccuuummmwwffggyyppbbvkjxqz";

/// A vocabulary, in UTF-8 and in UTF-16.
#[derive(Drop)]
pub struct Words {
    pub alloc: Global,
    pub random: Random,
    pub divisor: usize,
    pub texts: Vec<String>,
    pub units: Vec<Vec<u16>>,
}

/// Returns the result of a request for memory, with the library's error.
pub fn granted(request: Result<(), AllocError>) -> Result<(), OutOfMemory> {
    match request {
        Ok(()) => Ok(()),
        Err(_error) => Err(OutOfMemory),
    }
}

// Appends characters of a block.
fn push_block(
    random: &mut Random,
    count: usize,
    first: u32,
    size: usize,
    word: &mut String,
) -> Result<(), OutOfMemory>
    requires { 0 < size }
{
    for _ in 0..count {
        word.push(random.char_of(first, size))?;
    }
    Ok(())
}

// Appends English letters.
fn push_letters(random: &mut Random, count: usize, word: &mut String) -> Result<(), OutOfMemory> {
    for _ in 0..count {
        word.push(char::from(random.pick(LETTERS)))?;
    }
    Ok(())
}

// Appends English letters and an emoji.
fn push_emoji(random: &mut Random, count: usize, word: &mut String) -> Result<(), OutOfMemory> {
    push_letters(random, count, word)?;
    push_block(random, 1, 0x1f600, 64, word)
}

// Appends the characters of a word.
fn push_word(random: &mut Random, word: &mut String) -> Result<(), OutOfMemory> {
    let kind = random.below(100);
    match kind {
        0..8 => {
            let count = random.below(7).saturating_add(3);
            push_block(random, count, 0x430, 32, word)
        }
        8..12 => {
            let count = random.below(4).saturating_add(1);
            push_block(random, count, 0x4e00, 0x5000, word)
        }
        _ => {
            let count = random.below(9).saturating_add(2);
            if kind == 12 {
                push_emoji(random, count, word)
            } else {
                push_letters(random, count, word)
            }
        }
    }
}

// Appends a word to a vocabulary.
fn push_entry(
    alloc: Global,
    random: &mut Random,
    texts: &mut Vec<String>,
    units: &mut Vec<Vec<u16>>,
) -> Result<(), OutOfMemory> {
    let mut text = String::new(alloc);
    push_word(random, &mut text)?;
    units.push(text.encode_utf16().collect(alloc)?)?;
    texts.push(text)?;
    Ok(())
}

// Appends the words of a vocabulary.
fn push_entries(
    alloc: Global,
    random: &mut Random,
    texts: &mut Vec<String>,
    units: &mut Vec<Vec<u16>>,
) -> Result<(), OutOfMemory> {
    for _ in 0..WORDS {
        push_entry(alloc, random, texts, units)?;
    }
    Ok(())
}

impl Words {
    /// Makes a vocabulary. Each seed makes another one. The inputs that are made of it have their usual sizes divided
    /// by `divisor`.
    pub fn new(alloc: Global, divisor: usize, seed: u64) -> Result<Words, OutOfMemory> {
        let mut random = Random::new(seed);
        let mut texts = Vec::new(alloc);
        let mut units = Vec::new(alloc);
        push_entries(alloc, &mut random, &mut texts, &mut units)?;
        Ok(Words {
            alloc,
            random,
            divisor,
            texts,
            units,
        })
    }

    /// Returns the size of an input, or the number of them.
    pub fn size(&self, usual: usize) -> usize {
        usual / self.divisor.max(1)
    }

    /// Appends a word.
    pub fn push(&mut self, text: &mut Vec<u16>) -> Result<(), OutOfMemory> {
        let number = self.random.below(WORDS);
        match self.units.get(number) {
            Some(word) => Ok(text.extend_from_slice(word.as_slice())?),
            None => Ok(()),
        }
    }

    /// Appends words and spaces, at least `len` units.
    pub fn push_many(&mut self, text: &mut Vec<u16>, len: usize) -> Result<(), OutOfMemory> {
        let end = text.len().saturating_add(len);
        for _ in 0..len {
            if text.len() >= end {
                return Ok(());
            }
            self.push(text)?;
            text.push(u16::from(b' '))?;
        }
        Ok(())
    }

    /// Appends some units of ASCII.
    pub fn push_ascii(&mut self, text: &mut Vec<u16>, ascii: &str) -> Result<(), OutOfMemory> {
        for byte in ascii.bytes() {
            text.push(u16::from(byte))?;
        }
        Ok(())
    }

    // Appends a line of 20 to 200 units.
    fn push_line(&mut self, text: &mut Vec<u16>) -> Result<(), OutOfMemory> {
        let len = self.random.below(181).saturating_add(20);
        self.push_many(text, len)?;
        self.push_ascii(text, "\r\n")
    }

    // Appends lines up to `len` units.
    fn push_lines(&mut self, text: &mut Vec<u16>, len: usize) -> Result<(), OutOfMemory> {
        text.reserve(len.saturating_add(400))?;
        for _ in 0..len {
            if text.len() >= len {
                return Ok(());
            }
            self.push_line(text)?;
        }
        Ok(())
    }

    /// Returns a text of at least `len` units, in lines of 20 to 200 units.
    pub fn text(&mut self, len: usize) -> Result<Vec<u16>, OutOfMemory> {
        let mut text = Vec::new(self.alloc);
        self.push_lines(&mut text, len)?;
        Ok(text)
    }

    /// Returns a word in UTF-8.
    pub fn string(&mut self) -> &str {
        let number = self.random.below(WORDS);
        match self.texts.get(number) {
            Some(word) => word.as_str(),
            None => "",
        }
    }

    /// Returns a range of some units, as long as they are there.
    pub fn part<'a>(&mut self, units: &'a [u16], least: usize, most: usize) -> U16Str<'a>
        requires { least < most }
    {
        let len = self.random.below(most - least).saturating_add(least);
        let at = self.random.below(units.len().saturating_sub(len).max(1));
        let (_, rest) = units.split_at(at.min(units.len()));
        let (part, _) = rest.split_at(len.min(rest.len()));
        U16Str::from_slice(part)
    }
}

/// Replaces every tenth unit by an unpaired surrogate, which may also leave the first half of a pair.
pub fn spoil(units: &mut [u16]) {
    for (number, unit) in units.iter_mut().enumerate() {
        if number % 10 == 9 {
            *unit = 0xdc00;
        }
    }
}
