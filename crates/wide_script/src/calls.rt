//! The calls, and how a line names them.

use crate::words::{Damage, Words};
use std::alloc::Global;
use widestring::error::OutOfMemory;
use widestring::{U16String, Utf16Str};

/// A call and its arguments. An argument that is left out has the value that JavaScript gives it.
#[derive(Debug, Drop)]
pub enum Call {
    /// Makes this the string.
    String(U16String),
    /// Returns the length in units.
    Length,
    /// Returns the first offset of units at this offset or after it.
    IndexOf(U16String, i64),
    /// Returns the code point at an offset.
    CodePointAt(i64),
    /// Returns the units from an offset up to another one, or to the end.
    Slice(i64, i64),
    /// Returns whether no surrogate is without its pair.
    IsWellFormed,
    /// Returns the text with U+FFFD in place of each surrogate without its pair.
    ToWellFormed,
    /// Inserts text before the character of this index.
    Insert(usize, String),
    /// Removes the character of this index.
    Remove(usize),
    /// Replaces the characters from one index up to another one by text.
    Replace(usize, usize, String),
}

// Takes the text of an edit, which has to be well formed.
fn take_edit_text(
    alloc: Global,
    words: &mut Words<'_>,
) -> Result<Result<String, Damage>, OutOfMemory> {
    let before = *words;
    let mut units = U16String::new(alloc);
    if let Err(damage) = words.take_text(&mut units)? {
        return Ok(Err(damage));
    }
    match Utf16Str::from_slice(units.as_slice()) {
        Ok(text) => Ok(Ok(text.to_string(alloc)?)),
        Err(_) => Ok(Err(before.damage("half of a pair in an edit"))),
    }
}

// Takes the units of a text.
fn take_units(
    alloc: Global,
    words: &mut Words<'_>,
) -> Result<Result<U16String, Damage>, OutOfMemory> {
    let mut units = U16String::new(alloc);
    Ok(match words.take_text(&mut units)? {
        Ok(()) => Ok(units),
        Err(damage) => Err(damage),
    })
}

// Returns the call of offsets alone that has this name, or `None` if none has it.
fn offsets_call(name: &str, words: &mut Words<'_>) -> Result<Option<Call>, Damage> {
    Ok(Some(match name {
        "length" => Call::Length,
        "isWellFormed" => Call::IsWellFormed,
        "toWellFormed" => Call::ToWellFormed,
        "codePointAt" => Call::CodePointAt(words.take_offset()?.unwrap_or(0)),
        "slice" => {
            let from = words.take_offset()?.unwrap_or(0);
            Call::Slice(from, words.take_offset()?.unwrap_or(i64::MAX))
        }
        "remove" => Call::Remove(words.take_place()?),
        _ => return Ok(None),
    }))
}

// Returns `indexOf` with its arguments. Without any, JavaScript looks for the text of `undefined`.
fn index_of_call(
    alloc: Global,
    words: &mut Words<'_>,
) -> Result<Result<Call, Damage>, OutOfMemory> {
    if words.is_empty() {
        return Ok(Ok(Call::IndexOf(U16String::from_str(alloc, "undefined")?, 0)));
    }
    let needle = match take_units(alloc, words)? {
        Ok(needle) => needle,
        Err(damage) => return Ok(Err(damage)),
    };
    Ok(match words.take_offset() {
        Ok(from) => Ok(Call::IndexOf(needle, from.unwrap_or(0))),
        Err(damage) => Err(damage),
    })
}

// Returns `insert` with its arguments.
fn insert_call(alloc: Global, words: &mut Words<'_>) -> Result<Result<Call, Damage>, OutOfMemory> {
    let at = match words.take_place() {
        Ok(at) => at,
        Err(damage) => return Ok(Err(damage)),
    };
    Ok(match take_edit_text(alloc, words)? {
        Ok(text) => Ok(Call::Insert(at, text)),
        Err(damage) => Err(damage),
    })
}

// Takes the two places of a range.
fn take_range(words: &mut Words<'_>) -> Result<(usize, usize), Damage> {
    let from = words.take_place()?;
    Ok((from, words.take_place()?))
}

// Returns `replace` with its arguments.
fn replace_call(alloc: Global, words: &mut Words<'_>) -> Result<Result<Call, Damage>, OutOfMemory> {
    let (from, to) = match take_range(words) {
        Ok(range) => range,
        Err(damage) => return Ok(Err(damage)),
    };
    Ok(match take_edit_text(alloc, words)? {
        Ok(text) => Ok(Call::Replace(from, to, text)),
        Err(damage) => Err(damage),
    })
}

// Returns the call with this name.
fn call_named(
    alloc: Global,
    name: &str,
    words: &mut Words<'_>,
) -> Result<Result<Call, Damage>, OutOfMemory> {
    match name {
        "string" => Ok(match take_units(alloc, words)? {
            Ok(units) => Ok(Call::String(units)),
            Err(damage) => Err(damage),
        }),
        "indexOf" => index_of_call(alloc, words),
        "insert" => insert_call(alloc, words),
        "replace" => replace_call(alloc, words),
        _ => Ok(match offsets_call(name, words) {
            Ok(Some(call)) => Ok(call),
            Ok(None) => Err(Damage {
                unit: 0,
                what: "no such call",
            }),
            Err(damage) => Err(damage),
        }),
    }
}

/// Parses the call in a line: its name, and its arguments after spaces.
///
/// # Errors
///
/// If an allocation fails. If the line is no call, what is wrong in it is returned.
pub fn call_of(alloc: Global, line: &str) -> Result<Result<Call, Damage>, OutOfMemory> {
    let (name, mut words) = Words::of_line(line);
    let call = match call_named(alloc, name, &mut words)? {
        Ok(call) => call,
        Err(damage) => return Ok(Err(damage)),
    };
    Ok(match words.end() {
        Ok(()) => Ok(call),
        Err(damage) => Err(damage),
    })
}
