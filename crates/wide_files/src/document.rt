//! Files of text as units.

use crate::form::Form;
use std::alloc::Global;
use std::fmt;
use wide_convert::{Converter, ProgressEnd};
use wide_error::OutOfMemory;
use wide_forms::Policy;
use wide_schemes::Scheme;

// How many bytes of units are decoded before they are stored.
const CHUNK_BYTES: usize = 4096;

// How many units are encoded at once: their text fits into a chunk in any scheme.
const PIECE_UNITS: usize = 512;

// 2^64 + 1: each round but the last one reads a byte or stops for want of space.
const MOST_ROUNDS: u128 = 0x1_0000_0000_0000_0001;

// U+FFFD (Unicode Standard, section 3.9).
const REPLACEMENT: u16 = 0xfffd;

/// Bytes of a file that are no text in its form.
#[derive(Clone, Copy, Debug, PartialEq, Eq)]
pub struct BadBytes {
    /// The index of the unit before which they are, or which is U+FFFD in their place.
    pub unit: usize,
    /// The ill-formed number, or the first of the bytes; or `None` for part of a unit at the end of the file.
    pub number: Option<u32>,
}

impl fmt::Display for BadBytes {
    fn fmt<W: fmt::Write>(&self, f: &mut fmt::Formatter<W>) -> fmt::Result {
        match self.number {
            Some(number) => write!(f, "fault {number:02X}"),
            None => f.write_str("part of a unit"),
        }
    }
}

/// The text of a file in units of UTF-16, whatever form the file has.
#[derive(Drop)]
pub struct Document {
    /// The units. A surrogate of UTF-16 that belongs to no pair is itself, and other bytes that are ill formed are
    /// U+FFFD.
    pub units: Vec<u16>,
    /// The bytes that are ill formed, in order, but for surrogates of UTF-16.
    pub bad: Vec<BadBytes>,
}

// Adds the units of bytes in UTF-16LE.
fn push_units(units: &mut Vec<u16>, bytes: &[u8]) -> Result<(), OutOfMemory> {
    for pair in bytes.as_chunks::<2>().0 {
        units.push(u16::from_le_bytes(*pair))?;
    }
    Ok(())
}

impl Document {
    // Adds an ill-formed unit of a scheme: a surrogate of UTF-16, or another number, which becomes U+FFFD.
    fn push_fault(&mut self, scheme: Scheme, number: u32) -> Result<(), OutOfMemory> {
        let is_utf16 = matches!(scheme, Scheme::Utf16 | Scheme::Utf16Le | Scheme::Utf16Be);
        match u16::try_from(number) {
            Ok(surrogate) if is_utf16 => self.units.push(surrogate)?,
            _ => {
                let (unit, number) = (self.units.len(), Some(number));
                self.bad.push(BadBytes { unit, number })?;
                self.units.push(REPLACEMENT)?;
            }
        }
        Ok(())
    }

    // Adds the text of bytes in a scheme.
    fn push_scheme(&mut self, bytes: &[u8], scheme: Scheme) -> Result<(), OutOfMemory> {
        let mut converter = Converter::new(scheme, Scheme::Utf16Le, None, false);
        let mut chunk = [0u8; CHUNK_BYTES];
        let mut read = 0;
        for _ in 0..MOST_ROUNDS {
            let progress = converter.push_last(&bytes[read..], &mut chunk);
            read += progress.read;
            push_units(&mut self.units, &chunk[..progress.written])?;
            match progress.end {
                ProgressEnd::Fault(fault) => self.push_fault(scheme, fault.unit)?,
                ProgressEnd::NoSpace => {}
                ProgressEnd::NeedsInput => break,
            }
        }
        if converter.kept_len() > 0 {
            let (unit, number) = (self.units.len(), None);
            self.bad.push(BadBytes { unit, number })?;
        }
        Ok(())
    }

    /// Returns the text of the bytes of a file. A BOM is left out if it belongs to the form: in UTF-16 and UTF-32 it
    /// determines the order of bytes.
    ///
    /// # Errors
    ///
    /// If an allocation fails.
    pub fn read(alloc: Global, bytes: &[u8], form: Form) -> Result<Document, OutOfMemory> {
        let mut document = Document {
            units: Vec::new(alloc),
            bad: Vec::new(alloc),
        };
        match form {
            Form::Unicode(scheme) => document.push_scheme(bytes, scheme)?,
            Form::Windows(page) => {
                for byte in bytes {
                    document.units.push(page.unit_of(*byte))?;
                }
            }
        }
        Ok(document)
    }
}

/// Returns units as bytes in a scheme, with a BOM or without one. Each fault becomes U+FFFD, unless the scheme keeps it.
///
/// # Errors
///
/// If an allocation fails.
pub fn encode_units(
    alloc: Global,
    units: &[u16],
    scheme: Scheme,
    has_bom: bool,
) -> Result<Vec<u8>, OutOfMemory> {
    let mut converter = Converter::new(Scheme::Utf16Le, scheme, Some(Policy::Each), has_bom);
    let mut bytes = Vec::new(alloc);
    let mut chunk = [0u8; CHUNK_BYTES];
    let mut piece = Vec::new(alloc);
    for units in units.chunks(PIECE_UNITS) {
        piece.clear();
        for unit in units {
            piece.extend_from_slice(&unit.to_le_bytes())?;
        }
        let progress = converter.push(&piece, &mut chunk);
        bytes.extend_from_slice(&chunk[..progress.written])?;
    }
    let progress = converter.push_last(&[], &mut chunk);
    bytes.extend_from_slice(&chunk[..progress.written])?;
    Ok(bytes)
}
