//! Reads registry exports: bytes of UTF-16 are split into lines, keys and values, searched for faults, and printed as
//! UTF-8.

use crate::digest::Digest;
use crate::texts::{Words, granted, spoil};
use std::alloc::Global;
use std::fmt::Write;
use widestring::U16Str;
use widestring::bytes::utf16_of_bytes;
use widestring::error::OutOfMemory;

const UNITS: usize = 300_000;

// Appends a word between two texts.
fn push_word(
    words: &mut Words,
    before: &str,
    after: &str,
    text: &mut Vec<u16>,
) -> Result<(), OutOfMemory> {
    words.push_ascii(text, before)?;
    words.push(text)?;
    words.push_ascii(text, after)
}

fn push_key(words: &mut Words, text: &mut Vec<u16>) -> Result<(), OutOfMemory> {
    push_word(words, "[HKEY_LOCAL_MACHINE\\SOFTWARE\\", "\\", text)?;
    push_word(words, "", "]\r\n", text)
}

fn push_string(words: &mut Words, text: &mut Vec<u16>) -> Result<(), OutOfMemory> {
    push_word(words, "\"", "\"=\"", text)?;
    let len = words.random.below(150);
    words.push_many(text, len)?;
    words.push_ascii(text, "\"\r\n")
}

// Appends a line of an export.
fn push_line(words: &mut Words, text: &mut Vec<u16>) -> Result<(), OutOfMemory> {
    match words.random.below(8) {
        0 => push_key(words, text),
        1 => push_word(words, "\"", "\"=dword:0000002a\r\n", text),
        2 => push_word(
            words,
            "\"",
            "\"=hex:4d,00,69,00,63,00,72,00,6f,00,73,00,6f,00,66,00,74,00\r\n",
            text,
        ),
        _ => push_string(words, text),
    }
}

// Appends lines up to `len` units.
fn push_lines(words: &mut Words, len: usize, text: &mut Vec<u16>) -> Result<(), OutOfMemory> {
    for _ in 0..len {
        if text.len() < len {
            push_line(words, text)?;
        }
    }
    Ok(())
}

// Appends the units of an export: usual lines, or one line with each tenth unit an unpaired surrogate.
fn push_export(
    words: &mut Words,
    is_awkward: bool,
    text: &mut Vec<u16>,
) -> Result<(), OutOfMemory> {
    let len = words.size(UNITS);
    text.reserve(len.saturating_add(400))?;
    if is_awkward {
        let pushed = words.push_many(text, len);
        spoil(text.as_mut_slice());
        return pushed;
    }
    push_lines(words, len, text)
}

// Returns an export in bytes.
fn export(words: &mut Words, is_awkward: bool) -> Result<Vec<u8>, OutOfMemory> {
    let mut text = Vec::new(words.alloc);
    push_export(words, is_awkward, &mut text)?;
    U16Str::from_slice(&text).to_le_bytes_with_bom(words.alloc)
}

// Prints a key, which may begin with a quotation mark, and its value.
fn print_entry(key: U16Str<'_>, value: U16Str<'_>, output: &mut String) -> Result<(), OutOfMemory> {
    let quote = [u16::from(b'"')];
    let name = key.strip_prefix(U16Str::from_slice(&quote)).unwrap_or(key);
    granted(writeln!(output, "  {}: {}", name.display(), value.display()))
}

// Prints a line: its key and its value, or all of it.
fn print_line(line: U16Str<'_>, output: &mut String) -> Result<(), OutOfMemory> {
    match line.find_char('=') {
        Some(at) => print_entry(
            line.get(..at).unwrap_or_default(),
            line.get(at.saturating_add(1)..).unwrap_or_default(),
            output,
        ),
        None => granted(writeln!(output, "{}", line.display())),
    }
}

// Adds the characters of a line to a sum, and each fault's offset to the digest.
fn add_line(sum: u64, offset: usize, line: U16Str<'_>, digest: &mut Digest) -> u64 {
    let mut sum = sum;
    for (unit, item) in line.char_indices() {
        match item {
            Ok(c) => sum = sum.wrapping_mul(3).wrapping_add(u64::from(c as u32)),
            Err(_fault) => digest.number(offset.wrapping_add(unit) as u64),
        }
    }
    sum
}

// Prints the lines, and adds their characters and faults to the digest.
fn read_lines(units: &[u16], output: &mut String, digest: &mut Digest) -> Result<(), OutOfMemory> {
    let mut sum = 0u64;
    for (offset, line) in U16Str::from_slice(units).line_indices_lossy() {
        print_line(line, output)?;
        sum = add_line(sum, offset, line, digest);
    }
    digest.number(sum);
    Ok(())
}

// Reads an export, and adds what was printed and each fault's offset to the digest.
fn read(alloc: Global, bytes: &[u8], digest: &mut Digest) -> Result<(), OutOfMemory> {
    let units: Vec<u16> = utf16_of_bytes(bytes).units.collect(alloc)?;
    let mut output = String::new(alloc);
    let done = read_lines(&units, &mut output, digest);
    digest.text(&output);
    done
}

fn export_and_read(
    words: &mut Words,
    is_awkward: bool,
    digest: &mut Digest,
) -> Result<(), OutOfMemory> {
    let bytes = export(words, is_awkward)?;
    read(words.alloc, &bytes, digest)
}

/// Reads `rounds` exports, each fourth an awkward one.
pub fn run(words: &mut Words, rounds: u64, digest: &mut Digest) -> Result<(), OutOfMemory> {
    for round in 0..rounds {
        export_and_read(words, round % 4 == 3, digest)?;
    }
    Ok(())
}
