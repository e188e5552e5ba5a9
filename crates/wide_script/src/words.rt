//! The words of a line: a name, offsets, and text in which units are escaped as in JSON.

ghost use Rattle.std.specs.Prelude.{◌≡◌};

use std::alloc::Global;
use std::fmt;
use widestring::U16String;
use widestring::error::OutOfMemory;
use widestring::unit::length_as_utf16;

/// What is wrong in a line, and at which of its units.
#[derive(Clone, Copy, Debug, PartialEq, Eq)]
pub struct Damage {
    /// The index of the unit, from 0.
    pub unit: usize,
    /// What is wrong.
    pub what: &'static str,
}

impl fmt::Display for Damage {
    fn fmt<W: fmt::Write>(&self, f: &mut fmt::Formatter<W>) -> fmt::Result {
        f.write_str(self.what)
    }
}

/// The words of a line that are not read yet.
#[derive(Clone, Copy)]
pub struct Words<'a> {
    // The whole line.
    line: &'a str,
    // What is left of it.
    rest: &'a str,
}

// What a text has next.
#[derive(Clone, Copy)]
enum Next<'a> {
    // A unit by its number, and what follows it.
    Unit(u16, &'a str),
    // A character, and what follows it.
    Char(char, &'a str),
    // The quote that ends the text, and what follows it.
    Quote(&'a str),
    // Nothing.
    End,
    // A backslash that begins no escape.
    BadEscape,
}

// Returns the unit of four hexadecimal digits, and what follows them.
fn hex_unit(text: &str) -> Option<(u16, &str)> {
    let (digits, rest) = text.split_at_checked(4)?;
    if !digits.bytes().all(|digit| digit.is_ascii_hexdigit()) {
        return None;
    }
    Some((u16::from_str_radix(digits, 16).ok()?, rest))
}

// Each escape of one character.
static ESCAPES: [(char, char); 8] = [
    ('"', '"'),
    ('\\', '\\'),
    ('/', '/'),
    ('b', '\u{8}'),
    ('f', '\u{c}'),
    ('n', '\n'),
    ('r', '\r'),
    ('t', '\t'),
];

// Returns what the text after a backslash begins with.
fn escaped(text: &str) -> Next<'_> {
    let mut chars = text.chars();
    let Some(c) = chars.next() else {
        return Next::BadEscape;
    };
    let rest = chars.as_str();
    if c == 'u' {
        return match hex_unit(rest) {
            Some((unit, rest)) => Next::Unit(unit, rest),
            None => Next::BadEscape,
        };
    }
    for (letter, meant) in &ESCAPES {
        if *letter == c {
            return Next::Char(*meant, rest);
        }
    }
    Next::BadEscape
}

// Returns what a text begins with. A quote ends it if it began with one.
fn next_of(text: &str, in_quotes: bool) -> Next<'_> {
    let mut chars = text.chars();
    match chars.next() {
        None => Next::End,
        Some('\\') => escaped(chars.as_str()),
        Some('"') if in_quotes => Next::Quote(chars.as_str()),
        Some(c) => Next::Char(c, chars.as_str()),
    }
}

// Parses an offset: decimal digits, after a minus if it is negative. One that is too great for its type is the greatest
// or the least of it.
fn offset_of(word: &str) -> Option<i64> {
    let digits = word.strip_prefix('-').unwrap_or(word);
    if digits.is_empty() || !digits.bytes().all(|digit| digit.is_ascii_digit()) {
        return None;
    }
    let bound = if digits.len() == word.len() {
        i64::MAX
    } else {
        i64::MIN
    };
    Some(word.parse().unwrap_or(bound))
}

impl<'a> Words<'a> {
    /// Returns the name of the call in a line, and the words after it.
    pub fn of_line(line: &'a str) -> (&'a str, Words<'a>) {
        let (name, rest) = line.split_once(' ').unwrap_or((line, ""));
        (name, Words { line, rest })
    }

    /// Returns damage at the first word that is not read yet.
    pub fn damage(self, what: &'static str) -> Damage {
        let unit = length_as_utf16(self.line).saturating_sub(length_as_utf16(self.rest));
        Damage { unit, what }
    }

    /// Returns whether no word is left.
    pub fn is_empty(self) -> bool {
        self.rest.is_empty()
    }

    /// Takes all that is left, as it is written.
    pub fn take_rest(&mut self) -> &'a str {
        let rest = self.rest;
        self.rest = "";
        rest
    }

    /// Takes an offset, or returns `None` if no word is left.
    ///
    /// # Errors
    ///
    /// If the next word is no offset.
    pub fn take_offset(&mut self) -> Result<Option<i64>, Damage> {
        if self.rest.is_empty() {
            return Ok(None);
        }
        let (word, rest) = self.rest.split_once(' ').unwrap_or((self.rest, ""));
        let Some(offset) = offset_of(word) else {
            return Err(self.damage("no place"));
        };
        self.rest = rest;
        Ok(Some(offset))
    }

    /// Takes an offset that counts from the beginning.
    ///
    /// # Errors
    ///
    /// If the next word is no such offset.
    pub fn take_place(&mut self) -> Result<usize, Damage> {
        let before = *self;
        match self.take_offset()? {
            Some(offset) if offset >= 0 => Ok(usize::try_from(offset).unwrap_or(usize::MAX)),
            _ => Err(before.damage("no place")),
        }
    }

    /// Takes a text and adds its units: one in quotes up to the other quote, and otherwise all that is left. In it `\n`
    /// and the other escapes of JSON are characters, and `\uD83D` is a unit by its number.
    ///
    /// # Errors
    ///
    /// If an allocation fails. If the text is damaged, that is returned; the string then has the units before it.
    pub fn take_text(&mut self, units: &mut U16String) -> Result<Result<(), Damage>, OutOfMemory> {
        let quoted = self.rest.strip_prefix('"');
        self.rest = quoted.unwrap_or(self.rest);
        for _ in 0..=self.rest.len() {
            match next_of(self.rest, quoted.is_some()) {
                Next::Unit(unit, rest) => {
                    units.push_slice(&[unit])?;
                    self.rest = rest;
                }
                Next::Char(c, rest) => {
                    units.push_char(c)?;
                    self.rest = rest;
                }
                Next::Quote(rest) => {
                    self.rest = rest.strip_prefix(' ').unwrap_or(rest);
                    return Ok(Ok(()));
                }
                Next::BadEscape => return Ok(Err(self.damage("bad escape"))),
                Next::End => break,
            }
        }
        Ok(if quoted.is_some() {
            Err(self.damage("no quote at the end"))
        } else {
            Ok(())
        })
    }

    /// Checks that no word is left.
    ///
    /// # Errors
    ///
    /// If a word is left.
    pub fn end(self) -> Result<(), Damage> {
        if self.rest.is_empty() {
            Ok(())
        } else {
            Err(self.damage("too many words"))
        }
    }
}
