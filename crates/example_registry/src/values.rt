//! The text of values that are written as bytes.

use std::alloc::Global;
use wide_files::{Document, Form};
use wide_registry::Header;
use widestring::convert::Scheme;
use widestring::error::OutOfMemory;

// The types of data that are text: REG_SZ, REG_EXPAND_SZ, REG_LINK and REG_MULTI_SZ.
pub const STRING: u32 = 1;

const EXPANDED_STRING: u32 = 2;

const LINK: u32 = 6;

pub const STRINGS: u32 = 7;

// The types of data, as far as the program tells them apart.
#[derive(Clone, Copy, PartialEq, Eq)]
pub enum Kind {
    Text,
    Texts,
    Other,
}

// Returns what data of a type are.
pub fn kind_of(number: u32) -> Kind {
    match number {
        STRING | EXPANDED_STRING | LINK => Kind::Text,
        STRINGS => Kind::Texts,
        _ => Kind::Other,
    }
}

// How a file has text in bytes.
#[derive(Clone, Copy)]
pub enum Bytes {
    // In UTF-16LE.
    Wide,
    // In the form of the file.
    Narrow(Form),
}

// Returns how a file has text in bytes. The old header is of regedit for ANSI, which writes the bytes of the code page;
// in a file of UTF-16 they are UTF-16 anyway.
pub fn bytes_after(header: Header, form: Form) -> Bytes {
    match (header, form) {
        (Header::Regedit4, Form::Windows(_) | Form::Unicode(Scheme::Utf8 | Scheme::Wtf8)) => {
            Bytes::Narrow(form)
        }
        _ => Bytes::Wide,
    }
}

// Returns the text of bytes. Half of a unit at the end is left out.
pub fn text_of(alloc: Global, bytes: &[u8], how: Bytes) -> Result<Vec<u16>, OutOfMemory> {
    if let Bytes::Narrow(form) = how {
        let document = Document::read(alloc, bytes, form)?;
        return Ok(document.units);
    }
    let (pairs, _) = bytes.as_chunks::<2>();
    Ok(
        pairs
            .iter()
            .map(|pair| u16::from_le_bytes(*pair))
            .collect(alloc)?,
    )
}

// Returns half of a unit at the end of bytes.
pub fn half_of(bytes: &[u8], how: Bytes) -> Option<u8> {
    match how {
        Bytes::Wide if bytes.len() % 2 == 1 => bytes.last().copied(),
        _ => None,
    }
}
