//! A place in the contents of a resource, whose fields are read one after the other.

ghost use Rattle.std.specs.Prelude.{◌≡◌, ◌+◌, ◌-◌, ◌%◌, ◌++◌, ◌∷◌, ◌≤◌, ◌↔◌, IfSome, IfNone, IsSome, OnSome, drop, length, take};
ghost use Rattle.std.specs.Int.{from_le_bytes, w16, w32};
ghost use Rattle.wide_resources.specs.Contents.{IsSuffix};

use crate::numbers::{size_at, unit_at};

/// What is left of the contents of a resource.
#[derive(Clone, Copy)]
pub struct Cursor<'a> {
    // How many bytes there are in all.
    len: usize,
    /// The bytes that are not read yet.
    pub rest: &'a [u8],
    ghost within: { length rest.now ≤ len },
}

impl<'a> Cursor<'a> {
    /// Returns the beginning of some contents.
    pub fn new(contents: &'a [u8]) -> Cursor<'a>
        ensures rest { result.rest.now ≡ contents.now }
        ensures len { result.len ≡ length contents.now }
    {
        Cursor {
            len: contents.len(),
            rest: contents,
        }
    }

    /// Returns how many bytes were read.
    pub fn at(self) -> usize
        ensures { result + length self.entry.rest.now ≡ self.entry.len }
    {
        self.len - self.rest.len()
    }

    /// Reads so many bytes, or returns `None` if there are fewer.
    pub fn take(&mut self, count: usize) -> Option<&'a [u8]>
        ensures found { IsSome result ↔ (count ≤ length self.old.rest.now) }
        ensures size { IfSome result (λ bytes. length bytes.now ≡ count) }
        ensures read { IfSome result (λ bytes. self.old.rest.now ≡ bytes.now ++ self.new.rest.now) }
        ensures rest { OnSome result (self.new.rest.now ≡ drop count self.old.rest.now) }
        ensures len { self.new.len ≡ self.old.len }
        ensures none { IfNone result (self.new ≡ self.old) }
    {
        let (bytes, rest) = self.rest.split_at_checked(count)?;
        self.rest = rest;
        Some(bytes)
    }

    /// Reads a unit, or returns `None` if there are fewer than two bytes.
    pub fn unit(&mut self) -> Option<u16>
        ensures found { IsSome result ↔ (2 ≤ length self.old.rest.now) }
        ensures value { IfSome result (λ unit. unit ≡ from_le_bytes w16 (take 2 self.old.rest.now)) }
        ensures rest { OnSome result (self.new.rest.now ≡ drop 2 self.old.rest.now) }
        ensures len { self.new.len ≡ self.old.len }
        ensures none { IfNone result (self.new ≡ self.old) }
    {
        let unit = unit_at(self.rest, 0)?;
        self.take(2)?;
        Some(unit)
    }

    /// Reads a number of 32 bits, or returns `None` if there are fewer than four bytes.
    pub fn number(&mut self) -> Option<u32>
        ensures found { IsSome result ↔ (4 ≤ length self.old.rest.now) }
        ensures value { IfSome result (λ number. number ≡ from_le_bytes w32 (take 4 self.old.rest.now)) }
        ensures rest { OnSome result (self.new.rest.now ≡ drop 4 self.old.rest.now) }
        ensures len { self.new.len ≡ self.old.len }
        ensures none { IfNone result (self.new ≡ self.old) }
    {
        let number = size_at(self.rest, 0)?;
        self.take(4)?;
        Some(number)
    }

    /// Passes the bytes up to the next multiple of four.
    pub fn align(&mut self)
        ensures rest { self.new.rest.now ≡ drop ((4 - (self.old.len - length self.old.rest.now) % 4) % 4) self.old.rest.now }
        ensures len { self.new.len ≡ self.old.len }
    {
        let padding = (4 - self.at() % 4) % 4;
        self.rest = self.rest.get(padding..).unwrap_or_default();
    }

    /// Reads a text that ends in a NUL, and returns its units as bytes, or `None` if it has no end.
    pub fn text(&mut self) -> Option<&'a [u8]>
        ensures rest { IsSuffix self.new.rest.now self.old.rest.now }
        ensures read { IfSome result (λ text. self.old.rest.now ≡ text.now ++ 0 ∷ 0 ∷ self.new.rest.now) }
        ensures len { self.new.len ≡ self.old.len }
        ensures none { IfNone result (self.new ≡ self.old) }
    {
        let units = self.rest.as_chunks::<2>().0;
        let len = units.iter().position(|unit| *unit == [0, 0])? * 2;
        let (text, rest) = self.rest.split_at(len);
        let [0, 0, rest @ ..] = rest else {
            return None;
        };
        self.rest = rest;
        Some(text)
    }

    /// Reads a number after the unit FFFF, which is no text, or a text as [`text`](Cursor::text) does.
    pub fn text_or_number(&mut self) -> Option<&'a [u8]>
        ensures rest { IsSuffix self.new.rest.now self.old.rest.now }
        ensures read { IfSome result (λ text. text.now ≡ take (length text.now) self.old.rest.now) }
        ensures len { self.new.len ≡ self.old.len }
        ensures none { IfNone result (self.new ≡ self.old) }
    {
        if let [0xff, 0xff, _, _, ..] = self.rest {
            self.take(4)?;
            return Some(&[]);
        }
        self.text()
    }
}
