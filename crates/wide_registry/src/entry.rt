//! What a line of an export says.

ghost use Rattle.std.specs.Prelude.{◌≡◌, ◌<◌, ◌≤◌, IfSome, false, length, true};
ghost use Rattle.std.specs.List.{before_first};
ghost use Rattle.wide_registry.specs.Headers.{IsHeader};
ghost use Rattle.wide_registry.specs.Lines.{begins_value, behind_line, is_line_end, without_blanks};

use crate::bytes::{AT, SEMICOLON, behind_bytes};
use crate::digits::number_of;
use crate::line::{
    after, first_line, is_text, last_units, split_before, without_blanks, without_last_marks,
};
use crate::string::{QUOTE, closing_quote};

/// The first line of a file, which says how the rest is written.
#[derive(Clone, Copy, Debug, PartialEq, Eq)]
pub enum Header {
    /// `REGEDIT4`: text in bytes is in the code page of the file.
    Regedit4,
    /// `Windows Registry Editor Version 5.00`: text in bytes is UTF-16LE.
    Version5,
}

/// A key.
#[derive(Clone, Copy)]
pub struct Key<'a> {
    /// Its path from the root on, with a backslash between two names.
    pub path: &'a [u16],
    /// Whether it is deleted, with all that is below it.
    pub is_deleted: bool,
}

/// The data of a value.
#[derive(Clone, Copy)]
pub enum Data<'a> {
    /// The value is deleted.
    Deleted,
    /// A string as it is written, without its quotes.
    Text(&'a [u16]),
    /// A number of 32 bits.
    Number(u32),
    /// The number of a type, and the bytes as they are written, all lines of them: what is behind the colon.
    Bytes(u32, &'a [u16]),
    /// Something else.
    Damaged,
}

/// A value.
#[derive(Clone, Copy)]
pub struct Value<'a> {
    /// Its name as it is written, without its quotes, or `None` for the default value, `@`.
    pub name: Option<&'a [u16]>,
    /// Its data.
    pub data: Data<'a>,
}

/// What a part says.
#[derive(Clone, Copy)]
pub enum Entry<'a> {
    /// The header.
    Header(Header),
    /// A key.
    Key(Key<'a>),
    /// A value.
    Value(Value<'a>),
    /// Nothing, or nothing that can be read.
    Nothing,
}

// The type of data that is written as `hex:`.
const BINARY: u32 = 3;

// Returns the header that a line is.
pub fn header_of(line: &[u16]) -> Option<Header>
    ensures { IfSome result (IsHeader line.now) }
{
    let line = without_last_marks(without_blanks(line));
    if is_text(line, "REGEDIT4") {
        Some(Header::Regedit4)
    } else if is_text(line, "Windows Registry Editor Version 5.00") {
        Some(Header::Version5)
    } else {
        None
    }
}

// The name of a value, and what follows `=`.
#[derive(Clone, Copy)]
pub struct Assignment<'a> {
    pub name: Option<&'a [u16]>,
    pub data: &'a [u16],
}

// Returns the name and the data of a value, if a line has both. It begins with its name.
pub fn assignment_of(line: &[u16]) -> Option<Assignment<'_>>
    ensures within { IfSome result (λ found. length found.data.now ≤ length line.now) }
    ensures begins { IfSome result (λ _. begins_value line.now ≡ true) }
{
    let (name, behind) = match line {
        [AT, behind @ ..] => (None, behind),
        [QUOTE, string @ ..] => {
            let (name, behind) = string.split_at(closing_quote(string)?);
            (Some(name), after(behind, "\"")?)
        }
        _ => return None,
    };
    let data = without_blanks(after(without_blanks(behind), "=")?);
    Some(Assignment { name, data })
}

// Returns the type and the bytes, if data begin like bytes.
pub fn typed_bytes(data: &[u16]) -> Option<(u32, &[u16])>
    ensures { IfSome result (λ bytes. length bytes.1.now ≤ length «data».now) }
{
    let rest = after(data, "hex")?;
    let Some(number) = after(rest, "(") else {
        return Some((BINARY, after(rest, ":")?));
    };
    let (digits, behind) = split_before(number, b')' as u16);
    Some((number_of(digits)?, after(behind, "):")?))
}

// Returns what follows the line in which a string ends, if only blanks or a comment follow it there. The string begins in
// another line or in this one.
fn behind_string(text: &[u16]) -> Option<&[u16]>
    ensures { IfSome result (λ rest. length rest.now < length text.now) }
{
    let (_, behind) = text.split_at(closing_quote(text)?);
    let line = first_line(after(behind, "\"")?);
    match without_blanks(line.units) {
        [] | [SEMICOLON, ..] => Some(line.rest),
        _ => None,
    }
}

// Returns what follows the part with which a text begins: its first line, or all lines of a value.
pub fn behind_part(text: &[u16]) -> &[u16]
    ensures within { length result.now ≤ length text.now }
    ensures progress { 0 < length text.now → length result.now < length text.now }
    ensures one_line { begins_value (without_blanks (before_first is_line_end text.now)) ≡ false → result.now ≡ behind_line text.now }
{
    let line = first_line(text);
    let Some(found) = assignment_of(without_blanks(line.units)) else {
        return line.rest;
    };
    let left = text.len().saturating_sub(line.units.len());
    if let Some(string) = after(found.data, "\"") {
        let string = last_units(text, left.saturating_add(string.len()));
        return behind_string(string).unwrap_or(line.rest);
    }
    match typed_bytes(found.data) {
        Some((_, digits)) => behind_bytes(last_units(text, left.saturating_add(digits.len()))),
        None => line.rest,
    }
}
