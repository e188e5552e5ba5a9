//! Prints a log of strings for people: as text, in quotes, and with escapes.

use crate::digest::Digest;
use crate::random::Random;
use crate::texts::{Words, granted};
use std::fmt::Write;
use widestring::error::OutOfMemory;
use widestring::{U16Str, Utf16Str};

const UNITS: usize = 100_000;

const STRINGS: usize = 3_000;

// Prints a string in one of several ways.
fn print_units(number: usize, units: U16Str<'_>, log: &mut String) -> Result<(), OutOfMemory> {
    let written = match number % 4 {
        0 => writeln!(log, "{number}: {}", units.display()),
        1 | 2 => writeln!(log, "{number}: {units:?}"),
        _ => writeln!(log, "{number}: {}", units.display_skipping()),
    };
    granted(written)
}

// Prints a text in one of several ways.
fn print_text(number: usize, text: Utf16Str<'_>, log: &mut String) -> Result<(), OutOfMemory> {
    let written = match number % 16 {
        3 => writeln!(log, "{}", text.escape_unicode()),
        7 => writeln!(log, "{}", text.escape_debug()),
        11 => writeln!(log, "{}", text.escape_default()),
        _ => writeln!(log, "{text}"),
    };
    granted(written)
}

// Prints a string, and another one if it is a text.
fn print(
    number: usize,
    units: U16Str<'_>,
    other: U16Str<'_>,
    log: &mut String,
) -> Result<(), OutOfMemory> {
    print_units(number, units, log)?;
    match Utf16Str::from_slice(other.as_slice()) {
        Ok(text) => print_text(number, text, log),
        Err(_ill_formed) => Ok(()),
    }
}

// Returns what replaces a unit: a control character, a combining mark, an unpaired surrogate or the unit itself.
fn rough(random: &mut Random, unit: u16) -> u16 {
    match random.below(12) {
        0 => 0x07,
        1 => 0x301,
        2 => 0xd800,
        _ => unit,
    }
}

// Replaces some units by a control character, a combining mark or an unpaired surrogate.
fn roughen(random: &mut Random, units: &mut [u16]) {
    for unit in units {
        *unit = rough(random, *unit);
    }
}

// Prints substrings of a text.
fn print_parts(words: &mut Words, units: &[u16], log: &mut String) -> Result<(), OutOfMemory> {
    for number in 0..words.size(STRINGS) {
        let part = words.part(units, 3, 60);
        let other = words.part(units, 3, 60);
        print(number, part, other, log)?;
    }
    Ok(())
}

// Prints a log.
fn print_log(words: &mut Words, is_awkward: bool, digest: &mut Digest) -> Result<(), OutOfMemory> {
    let mut units = words.text(words.size(UNITS))?;
    if is_awkward {
        roughen(&mut words.random, units.as_mut_slice());
    }
    let mut log = String::new(words.alloc);
    let printed = print_parts(words, &units, &mut log);
    digest.text(&log);
    printed
}

/// Prints `rounds` logs, each fourth an awkward one.
pub fn run(words: &mut Words, rounds: u64, digest: &mut Digest) -> Result<(), OutOfMemory> {
    for round in 0..rounds {
        print_log(words, round % 4 == 3, digest)?;
    }
    Ok(())
}
