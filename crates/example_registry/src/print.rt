//! Prints parts of an export as they are written, safe on a terminal.

use std::alloc::AllocError;
use std::fmt::Write;
use wide_files::{Quoted, Shown};
use wide_registry::{ByteLine, first_line, split_piece, without_end, without_marks};
use widestring::U16Str;

fn shown(units: &[u16]) -> Shown<'_> {
    Shown(U16Str::from_slice(units))
}

// Prints a part without bytes in one line.
pub fn put_line(output: &mut String, part: &[u16]) -> Result<(), AllocError> {
    writeln!(output, "{}", shown(without_marks(without_end(part))))
}

// Prints the bytes of a line, each after a space.
fn put_pieces(output: &mut String, pieces: &[u16]) -> Result<(), AllocError> {
    let mut rest = pieces;
    'pieces: loop {
        let (piece, behind) = split_piece(rest);
        write!(output, " {}", shown(piece))?;
        match behind {
            Some(behind) => rest = behind,
            None => break 'pieces,
        }
    }
    Ok(())
}

// Prints a value with bytes in one line: the bytes of all lines, the text that they are, and the comments. `digits` is
// what is behind the colon.
pub fn put_bytes(
    output: &mut String,
    part: &[u16],
    digits: &[u16],
    text: Option<&[u16]>,
) -> Result<(), AllocError> {
    let (prefix, _) = part.split_at(part.len().saturating_sub(digits.len()));
    write!(output, "{}", shown(without_marks(prefix)))?;
    let mut comments = String::new(*output.allocator());
    let mut rest = digits;
    let mut is_first = true;
    'lines: while !rest.is_empty() {
        let line = first_line(rest);
        let parts = ByteLine::of(line.units, is_first);
        if let Some(pieces) = parts.pieces {
            put_pieces(output, pieces)?;
        }
        if !parts.comment.is_empty() {
            write!(comments, " {}", shown(without_marks(parts.comment)))?;
        }
        is_first = false;
        rest = line.rest;
    }
    if let Some(text) = text {
        write!(output, " {}", Quoted(U16Str::from_slice(text)))?;
    }
    writeln!(output, "{comments}")
}
