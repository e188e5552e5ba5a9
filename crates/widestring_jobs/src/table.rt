//! Reads tables of many short strings, as resources and message tables hold them, and converts whole texts.

use crate::digest::Digest;
use crate::random::Random;
use crate::texts::{Words, spoil};
use std::alloc::Global;
use std::cmp::Ordering;
use widestring::bytes::{FromRead, FromWrite, transcode_with};
use widestring::error::OutOfMemory;
use widestring::{Policy, U16CString, U16Str, U16String, Utf16Str, Utf16String, Utf32String};

const UNITS: usize = 200_000;

const STRINGS: usize = 6_000;

// Adds how many characters units have, or their first fault.
fn check(units: &[u16], digest: &mut Digest) {
    match Utf16Str::from_slice(units) {
        Ok(text) => digest.number(text.char_count() as u64),
        Err(fault) => {
            digest.number(fault.index() as u64);
            digest.number(u64::from(fault.cause().unpaired_surrogate()));
        }
    }
}

// Adds the units of a vector, if they are a C string.
fn add_c_string(units: Vec<u16>, digest: &mut Digest) {
    if let Ok(string) = U16CString::from_vec(units) {
        digest.units(string.as_ucstr().as_slice());
    }
}

// Returns units as lossy text.
fn mended(alloc: Global, units: &[u16]) -> Result<Utf16String, OutOfMemory> {
    Utf16String::from_slice_lossy(alloc, units)?.into_owned(alloc)
}

// Adds a text in UTF-32.
fn widen(alloc: Global, text: &str, digest: &mut Digest) -> Result<(), OutOfMemory> {
    let wide = Utf32String::from_str(alloc, text)?;
    digest.wide_units(wide.as_slice());
    Ok(())
}

// Adds lossy text in UTF-16, the text in UTF-32, and the lossy text as a C string.
fn add_forms(
    alloc: Global,
    text: &str,
    lossy: Utf16String,
    digest: &mut Digest,
) -> Result<(), OutOfMemory> {
    digest.units(lossy.as_slice());
    let widened = widen(alloc, text, digest);
    add_c_string(lossy.into_vec(), digest);
    widened
}

// Adds a string to the table.
fn push_string(
    alloc: Global,
    text: &str,
    table: &mut Vec<U16String>,
    digest: &mut Digest,
) -> Result<(), OutOfMemory> {
    let string = U16String::from_str(alloc, text)?;
    digest.units(string.as_slice());
    match table.push(string) {
        Ok(()) => Ok(()),
        Err(_error) => Err(OutOfMemory),
    }
}

fn read_text(
    alloc: Global,
    units: U16Str<'_>,
    text: &str,
    table: &mut Vec<U16String>,
    digest: &mut Digest,
) -> Result<(), OutOfMemory> {
    digest.text(text);
    add_forms(alloc, text, mended(alloc, units.as_slice())?, digest)?;
    push_string(alloc, text, table, digest)
}

// Reads a string of a table, and adds each form of it to the digest.
fn read(
    alloc: Global,
    units: U16Str<'_>,
    table: &mut Vec<U16String>,
    digest: &mut Digest,
) -> Result<(), OutOfMemory> {
    check(units.as_slice(), digest);
    let text = units.to_string_lossy(alloc)?;
    read_text(alloc, units, &text, table, digest)
}

// Returns a number for whether a string is less than the one before it, and than the middle one or equal to the one
// before.
fn rank(string: &U16String, before: &U16String, middle: &U16String) -> u64 {
    let less = u64::from(string.cmp(before) == Ordering::Less);
    if string.cmp(middle) == Ordering::Less || string == before {
        less.wrapping_add(3)
    } else {
        less
    }
}

// Compares each string with the one before it, and with the one in the middle of the table.
fn compare(table: &[U16String], digest: &mut Digest) {
    let Some(middle) = table.get(table.len() / 2) else {
        return;
    };
    let mut before = middle;
    let mut less = 0u64;
    for string in table {
        less = less.wrapping_add(rank(string, before, middle));
        before = string;
    }
    digest.number(less);
}

// Replaces the units of a buffer by a substring of a text and a fault near its end.
fn make_faulty(part: U16Str<'_>, buffer: &mut Vec<u16>) -> Result<(), OutOfMemory> {
    buffer.clear();
    buffer.extend_from_slice(part.as_slice())?;
    buffer.push(0xd800)?;
    buffer.push(u16::from(b'.'))?;
    Ok(())
}

// Reads a string, which has a fault near its end if it is an awkward one.
fn read_next(
    alloc: Global,
    part: U16Str<'_>,
    is_awkward: bool,
    buffer: &mut Vec<u16>,
    table: &mut Vec<U16String>,
    digest: &mut Digest,
) -> Result<(), OutOfMemory> {
    if is_awkward {
        make_faulty(part, buffer)?;
        return read(alloc, U16Str::from_slice(buffer), table, digest);
    }
    read(alloc, part, table, digest)
}

// Reads strings, which are substrings of a text.
fn read_strings(
    words: &mut Words,
    units: &[u16],
    is_awkward: bool,
    buffer: &mut Vec<u16>,
    table: &mut Vec<U16String>,
    digest: &mut Digest,
) -> Result<(), OutOfMemory> {
    for _ in 0..words.size(STRINGS) {
        let part = words.part(units, 3, 60);
        read_next(words.alloc, part, is_awkward, buffer, table, digest)?;
    }
    Ok(())
}

// Reads a table, in which each string has a fault near its end if it is an awkward one.
fn read_table(words: &mut Words, is_awkward: bool, digest: &mut Digest) -> Result<(), OutOfMemory> {
    let units = words.text(words.size(UNITS))?;
    let mut table = Vec::new(words.alloc);
    let mut buffer = Vec::new(words.alloc);
    let done = read_strings(words, &units, is_awkward, &mut buffer, &mut table, digest);
    compare(&table, digest);
    done
}

// Adds the text of units, if they are well formed.
fn add_strict(alloc: Global, units: U16Str<'_>, digest: &mut Digest) {
    match units.to_string(alloc) {
        Ok(text) => digest.text(&text),
        Err(_fault) => digest.number(1),
    }
}

// Appends a copy of a text to it.
fn double(text: &mut Utf16String) -> Result<(), OutOfMemory> {
    let copy = text.try_clone()?;
    text.push_utfstr(copy.as_utfstr())
}

// Adds a text twice.
fn add_doubled(alloc: Global, text: &str, digest: &mut Digest) -> Result<(), OutOfMemory> {
    let mut narrow = Utf16String::from_str(alloc, text)?;
    let doubled = double(&mut narrow);
    digest.units(narrow.as_slice());
    doubled
}

// Adds what the bytes of units are converted to.
fn convert_bytes(
    alloc: Global,
    policy: Policy,
    units: U16Str<'_>,
    digest: &mut Digest,
) -> Result<(), OutOfMemory> {
    let bytes = units.to_le_bytes_with_bom(alloc)?;
    let mut source = FromRead::new(bytes.as_slice());
    let mut sink = FromWrite::new(Vec::new(alloc));
    digest.number(u64::from(transcode_with(&mut source, &mut sink, policy).is_ok()));
    digest.bytes(sink.into_inner().as_slice());
    Ok(())
}

// Adds a text in each form.
fn convert_text(alloc: Global, text: &str, digest: &mut Digest) -> Result<(), OutOfMemory> {
    widen(alloc, text, digest)?;
    add_doubled(alloc, text, digest)
}

// Converts units to UTF-8 under a policy, strictly, and back.
fn convert_units(
    alloc: Global,
    policy: Policy,
    units: U16Str<'_>,
    digest: &mut Digest,
) -> Result<(), OutOfMemory> {
    let text = units.to_string_lossy_with(alloc, policy)?;
    digest.text(&text);
    add_strict(alloc, units, digest);
    convert_text(alloc, &text, digest)
}

// Returns one of the policies.
fn policy_of(random: &mut Random) -> Policy {
    match random.below(3) {
        0 => Policy::Each,
        1 => Policy::Run,
        _ => Policy::Skip,
    }
}

// Converts a whole text to UTF-8, strictly and under a policy, and back.
fn convert(words: &mut Words, is_awkward: bool, digest: &mut Digest) -> Result<(), OutOfMemory> {
    let mut units = words.text(words.size(UNITS))?;
    if is_awkward {
        spoil(units.as_mut_slice());
    }
    let policy = policy_of(&mut words.random);
    let view = U16Str::from_slice(&units);
    convert_units(words.alloc, policy, view, digest)?;
    convert_bytes(words.alloc, policy, view, digest)
}

/// Reads `rounds` tables and converts as many texts, each fourth an awkward one.
pub fn run(words: &mut Words, rounds: u64, digest: &mut Digest) -> Result<(), OutOfMemory> {
    for round in 0..rounds {
        read_table(words, round % 4 == 3, digest)?;
        convert(words, round % 4 == 3, digest)?;
    }
    Ok(())
}
