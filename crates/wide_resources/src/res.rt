//! `.res` files: resources one after the other, each with a header and at a multiple of four bytes.

ghost use Rattle.std.specs.Prelude.{◌≡◌, ◌+◌, ◌++◌, ◌≤◌, ◌⊎◌, [], IfOk, MatchOption, drop, length, take};
ghost use Rattle.std.specs.Int.{from_le_bytes, w32};

use crate::numbers::{size_at, unit_at};
use crate::texts::Name;
use std::fmt;
use std::fmt::Display;

/// Why no resource can be read.
#[derive(Clone, Copy, Debug, PartialEq, Eq)]
pub enum Damage {
    /// Its sizes are cut off.
    NoSizes,
    /// Its header can't have this size.
    HeaderSize(u32),
    /// So many of its bytes are missing.
    Missing(usize),
    /// Its type or its name has no end.
    NoEnd,
}

impl Display for Damage {
    fn fmt<W: fmt::Write>(&self, f: &mut fmt::Formatter<W>) -> fmt::Result {
        match *self {
            Damage::NoSizes => write!(f, "its sizes are cut off"),
            Damage::HeaderSize(size) => write!(f, "its header can't have {size} bytes"),
            Damage::Missing(count) => write!(f, "bytes missing: {count}"),
            Damage::NoEnd => write!(f, "its type or its name has no end"),
        }
    }
}

/// A resource: the sizes in its header, its type and its name, its language, and its contents as far as the file has them.
#[derive(Clone, Copy, Debug, PartialEq, Eq)]
pub struct Resource<'a> {
    /// The size of its header in bytes, as the file has it.
    pub header_size: u32,
    /// The size of its contents in bytes.
    pub data_size: u32,
    /// Its type.
    pub kind: Name<'a>,
    /// Its name.
    pub name: Name<'a>,
    /// Its language.
    pub language: u16,
    /// Its contents.
    pub contents: &'a [u8],
}

// Returns the size of a header with its padding.
fn padded(header_size: u32) -> usize
    ensures least { header_size ≤ result }
    ensures most { result ≤ header_size + 3 }
{
    (header_size as usize).next_multiple_of(4)
}

impl Resource<'_> {
    /// Returns its size in bytes, without padding at its end.
    pub fn size(&self) -> usize
        ensures least { self.now.header_size + self.now.data_size ≤ result }
        ensures most { result ≤ self.now.header_size + self.now.data_size + 3 }
    {
        padded(self.header_size) + self.data_size as usize
    }

    /// Returns whether this is the empty resource that a file begins with.
    pub fn is_empty(&self) -> bool {
        let are_zero = self.kind == Name::Number(0) && self.name == Name::Number(0);
        self.header_size == 32 && self.data_size == 0 && are_zero
    }
}

// Reads the name of a type or a resource, and returns the bytes after it. Returns `None` if its text has no end.
fn split_name(bytes: &[u8]) -> Option<(Name<'_>, &[u8])> {
    if unit_at(bytes, 0)? == 0xffff {
        let number = unit_at(bytes, 2)?;
        return Some((Name::Number(number), bytes.get(4..)?));
    }
    let units = bytes.as_chunks::<2>().0;
    let end = units.iter().position(|unit| *unit == [0, 0])?;
    let text = units.get(..end)?.as_flattened();
    Some((Name::Text(text), units.get(end + 1..)?.as_flattened()))
}

// Reads the resource at the start of some bytes. A header whose size is no multiple of four is followed by padding, or its
// size leaves out the padding within it.
pub fn read_resource(bytes: &[u8]) -> Result<Resource<'_>, Damage>
    ensures data_size { IfOk result (λ it. it.data_size ≡ from_le_bytes w32 (take 4 bytes.now)) }
    ensures header_size { IfOk result (λ it. it.header_size ≡ from_le_bytes w32 (take 4 (drop 4 bytes.now))) }
    ensures least { IfOk result (λ it. 28 ≤ it.header_size) }
{
    let (Some(data_size), Some(header_size)) = (size_at(bytes, 0), size_at(bytes, 4)) else {
        return Err(Damage::NoSizes);
    };
    if header_size < 28 {
        return Err(Damage::HeaderSize(header_size));
    }
    let Some((header, rest)) = bytes.split_at_checked(padded(header_size)) else {
        let size = padded(header_size) + data_size as usize;
        return Err(Damage::Missing(size.saturating_sub(bytes.len())));
    };
    let names = header.get(8..).unwrap_or_default();
    let (kind, beyond) = split_name(names).ok_or(Damage::NoEnd)?;
    let (name, beyond) = split_name(beyond).ok_or(Damage::NoEnd)?;
    // The other fields of the header begin at a multiple of four.
    let read = names.len().saturating_sub(beyond.len());
    let fields = names.get(read.next_multiple_of(4)..).unwrap_or_default();
    if fields.len() < 16 {
        return Err(Damage::HeaderSize(header_size));
    }
    Ok(Resource {
        header_size,
        data_size,
        kind,
        name,
        language: unit_at(fields, 6).unwrap_or(0),
        contents: &rest[..rest.len().min(data_size as usize)],
    })
}

/// The bytes of a resource with its padding, or all remaining bytes if no resource can be read, and their offset.
#[derive(Clone, Copy, Debug, PartialEq, Eq)]
pub struct Part<'a> {
    /// The offset in bytes.
    pub at: usize,
    /// The bytes.
    pub bytes: &'a [u8],
    /// The resource, or why it can't be read.
    pub resource: Result<Resource<'a>, Damage>,
}

/// The parts of a file that are not read yet.
#[derive(Drop)]
pub struct Parts<'a> {
    file: &'a [u8],
    rest: &'a [u8],
    ghost within: { length rest.now ≤ length file.now },
}

impl<'a> Parts<'a> {
    /// Returns all parts of a file.
    pub fn new(file: &'a [u8]) -> Parts<'a> {
        Parts { file, rest: file }
    }
}

impl<'a> Iterator for Parts<'a> {
    ghost use Rattle.std.specs.Iterator.{at_most};

    type Item = Part<'a>;

    // A part begins where the previous one ended, and no byte is lost between it and the next ones, up to the end. It holds
    // its whole resource, unless it is the last part.
    ghost next_gives = { λ old part new. MatchOption part (old.rest.now ≡ []) (λ it.
        (it.at + length old.rest.now ≡ length old.file.now) × (old.rest.now ≡ it.bytes.now ++ new.rest.now)
        × IfOk it.resource (λ resource. (new.rest.now ≡ []) ⊎ (resource.header_size + resource.data_size ≤ length it.bytes.now))) };

    ghost remaining = { λ s. at_most (length s.rest.now) };

    fn next(&mut self) -> Option<Part<'a>> {
        if self.rest.is_empty() {
            return None;
        }
        let at = self.file.len() - self.rest.len();
        let resource = read_resource(self.rest);
        let end = match resource {
            Ok(resource) => resource.size().next_multiple_of(4),
            Err(_) => self.rest.len(),
        };
        let (bytes, rest) = self.rest.split_at(end.min(self.rest.len()));
        self.rest = rest;
        Some(Part {
            at,
            bytes,
            resource,
        })
    }
}
