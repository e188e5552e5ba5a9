//! What is damaged in an export.

use std::fmt;

/// What regedit would not read, or would read in another way than it looks.
#[derive(Clone, Copy)]
pub enum Kind<'a> {
    /// The first line is not the header of a version.
    NoHeader,
    /// The line is neither a header, a key, a value nor a comment.
    NoEntry,
    /// There is no name of a key between brackets.
    NoKey,
    /// The key is below no root of a registry. This is what stands for the root.
    UnknownRoot(&'a [u16]),
    /// A value before the first key, or behind a key that is deleted.
    NoKeyAbove,
    /// The name of a value and `=` are missing.
    NoName,
    /// What follows `=` is no data.
    NoData,
    /// There are not one to eight hexadecimal digits.
    NoNumber,
    /// There are not one or two hexadecimal digits. This is what stands for them.
    NoByte(&'a [u16]),
    /// A value goes on, but no bytes follow.
    GoesOn,
    /// A backslash escapes none of `\`, `"`, `n` and `r`.
    NoEscape,
    /// A string has no quote at its end.
    NoStringEnd,
    /// Something follows a string that is no comment.
    BehindString,
    /// A line feed ends a line without a carriage return before it.
    Feed,
    /// A carriage return ends a line without a line feed behind it.
    Return,
    /// The last line has no line end.
    NoLineEnd,
    /// A NUL, at which regedit stops.
    Nul,
    /// A surrogate that belongs to no pair.
    Fault(u16),
}

impl<'a> Kind<'a> {
    /// Returns the units that stand in the place of what is missing, if the text of the damage does not say it.
    pub fn found(self) -> Option<&'a [u16]> {
        match self {
            Kind::UnknownRoot(found) | Kind::NoByte(found) => Some(found),
            _ => None,
        }
    }
}

impl fmt::Display for Kind<'_> {
    fn fmt<W: fmt::Write>(&self, f: &mut fmt::Formatter<W>) -> fmt::Result {
        let text = match self {
            Kind::NoHeader => "no header",
            Kind::NoEntry => "neither a key nor a value",
            Kind::NoKey => "no key",
            Kind::UnknownRoot(_) => "no root of a registry",
            Kind::NoKeyAbove => "a value under no key",
            Kind::NoName => "no name and =",
            Kind::NoData => "neither text, a number nor bytes",
            Kind::NoNumber => "no number",
            Kind::NoByte(_) => "no byte",
            Kind::GoesOn => "the value goes on, but no bytes follow",
            Kind::NoEscape => "no escape",
            Kind::NoStringEnd => "the string has no end",
            Kind::BehindString => "more behind the string",
            Kind::Feed => "a line feed alone",
            Kind::Return => "a carriage return alone",
            Kind::NoLineEnd => "the line has no end",
            Kind::Nul => "a NUL",
            Kind::Fault(unit) => return write!(f, "fault {unit:04X}"),
        };
        f.write_str(text)
    }
}

/// A damage of a part, and where it is.
#[derive(Clone, Copy)]
pub struct Damage<'a> {
    /// The index in the part of the unit where it is, or the length of the part if it is at its end.
    pub unit: usize,
    /// What it is.
    pub kind: Kind<'a>,
}
