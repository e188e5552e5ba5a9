//! The bytes of a value.

ghost use Rattle.std.specs.Prelude.{◌≡◌, ◌<◌, ◌≤◌, ◌+◌, ◌*◌, ◌==◌, ◌≢◌, All, IsNone, false, IfOk, IfSome, length, vec_len, OnOk};
ghost use Rattle.std.specs.List.{before_first};
ghost use Rattle.wide_registry.specs.Lines.{behind_line, is_line_end, without_blanks};

use crate::damage::Kind;
use crate::digits::byte_of;
use crate::line::{first_line, split_before, without_blanks, without_last_blanks};
use crate::notes::Notes;
use crate::string::{BACKSLASH, QUOTE};
use std::alloc::Global;
use wide_error::OutOfMemory;

const COMMA: u16 = b',' as u16;

pub const SEMICOLON: u16 = b';' as u16;

pub const OPENING: u16 = b'[' as u16;

pub const AT: u16 = b'@' as u16;

/// A line of bytes, or of what stands for them.
#[derive(Clone, Copy)]
pub struct ByteLine<'a> {
    /// The bytes as they are written, with a comma between them; or `None` if there are none.
    pub pieces: Option<&'a [u16]>,
    /// Whether the value goes on in the next line.
    pub goes_on: bool,
    /// The comment with its semicolon, or nothing.
    pub comment: &'a [u16],
}

// Returns the bytes before the backslash at which a line ends, if it may be there: behind a comma, or alone in the first
// line.
fn before_backslash(data: &[u16], is_first: bool) -> Option<&[u16]>
    ensures within { IfSome result (λ body. length body.now ≤ length «data».now) }
    ensures none { All (λ unit. unit ≢ BACKSLASH) «data».now → IsNone result }
{
    let [body @ .., BACKSLASH] = data else {
        return None;
    };
    let body = without_last_blanks(body);
    match body {
        [] if is_first => Some(body),
        [.., COMMA] => Some(body),
        _ => None,
    }
}

impl<'a> ByteLine<'a> {
    /// Returns what a line of a value has. The first one begins behind the colon.
    pub fn of(line: &'a [u16], is_first: bool) -> ByteLine<'a>
        ensures pieces { IfSome result.pieces (λ pieces. length pieces.now ≤ length line.now) }
        ensures alone { All (λ unit. unit ≢ BACKSLASH) line.now → result.goes_on ≡ false }
    {
        let (data, comment) = split_before(without_blanks(line), SEMICOLON);
        let data = without_last_blanks(data);
        let before = before_backslash(data, is_first);
        ByteLine {
            pieces: match before.unwrap_or(data) {
                [] => None,
                [pieces @ .., COMMA] => Some(pieces),
                pieces => Some(pieces),
            },
            goes_on: before.is_some(),
            comment,
        }
    }
}

// Returns whether a line between bytes says nothing: whether it is empty or a comment.
fn is_silent(line: &[u16]) -> bool {
    matches!(without_blanks(line), [] | [SEMICOLON, ..])
}

// Returns whether a line may have bytes of a value that goes on, and is no entry by itself.
fn may_have_bytes(line: &[u16]) -> bool {
    !matches!(
        without_blanks(line),
        [] | [SEMICOLON | OPENING | QUOTE | AT, ..]
    )
}

// Returns what follows the silent lines at the beginning of a text, if its first line may have bytes.
fn next_bytes(text: &[u16]) -> Option<&[u16]>
    ensures { IfSome result (λ rest. (length rest.now ≤ length text.now) × (0 < length rest.now)) }
{
    let mut rest = text;
    while !rest.is_empty() {
        let line = first_line(rest);
        if may_have_bytes(line.units) {
            return Some(rest);
        }
        if !is_silent(line.units) {
            return None;
        }
        rest = line.rest;
    }
    None
}

// Returns what follows the bytes of a value. The text begins behind the colon.
pub fn behind_bytes(text: &[u16]) -> &[u16]
    ensures within { length result.now ≤ length text.now }
    ensures progress { 0 < length text.now → length result.now < length text.now }
    ensures alone { All (λ unit. unit ≢ BACKSLASH) (before_first is_line_end text.now) → result.now ≡ behind_line text.now }
{
    let line = first_line(text);
    if ByteLine::of(line.units, true).goes_on {
        behind_more(line.rest)
    } else {
        line.rest
    }
}

// Returns what follows the bytes of a value that goes on. The text begins behind the line that says so.
fn behind_more(text: &[u16]) -> &[u16]
    ensures { length result.now ≤ length text.now }
{
    let mut rest = text;
    while let Some(next) = next_bytes(rest) {
        let line = first_line(next);
        if !ByteLine::of(line.units, false).goes_on {
            return line.rest;
        }
        rest = line.rest;
    }
    rest
}

/// Returns the first piece without the blanks before it, and the pieces behind the comma that follows it.
pub fn split_piece(pieces: &[u16]) -> (&[u16], Option<&[u16]>)
    ensures first { result.0.now ≡ without_blanks (before_first (λ unit. unit == COMMA) pieces.now) }
    ensures behind { IfSome result.1 (λ rest. length result.0.now + 1 + length rest.now ≤ length pieces.now) }
    ensures within { length result.0.now ≤ length pieces.now }
{
    let (piece, behind) = split_before(pieces, COMMA);
    let piece = without_blanks(piece);
    match behind {
        [_, rest @ ..] => (piece, Some(rest)),
        [] => (piece, None),
    }
}

// Adds the bytes of a line, and returns whether all of it are bytes.
fn push_bytes(bytes: &mut Vec<u8>, pieces: &[u16]) -> Result<bool, OutOfMemory>
    ensures { IfOk result (λ _. 2 * vec_len bytes.new ≤ 2 * vec_len bytes.old + length pieces.now + 1) }
{
    let mut rest = pieces;
    loop {
        let (piece, behind) = split_piece(rest);
        match byte_of(piece) {
            Some(byte) => bytes.push(byte)?,
            None => return Ok(false),
        }
        match behind {
            Some(behind) => rest = behind,
            None => return Ok(true),
        }
    }
}

/// Returns the bytes of a value, or `None` if something in it is no byte or no bytes follow where it goes on. The digits
/// begin behind the colon, and are all lines of the value.
///
/// # Errors
///
/// If an allocation fails.
pub fn bytes_of(alloc: Global, digits: &[u16]) -> Result<Option<Vec<u8>>, OutOfMemory>
    ensures { IfOk result (λ bytes. IfSome bytes (λ bytes. 2 * vec_len bytes ≤ length digits.now + 1)) }
{
    let mut bytes = Vec::new(alloc);
    let mut rest = digits;
    let mut is_first = true;
    let mut goes_on = false;
    while !rest.is_empty() {
        let line = first_line(rest);
        if is_first || !is_silent(line.units) {
            let parts = ByteLine::of(line.units, is_first);
            if let Some(pieces) = parts.pieces
                && !push_bytes(&mut bytes, pieces)?
            {
                return Ok(None);
            }
            goes_on = parts.goes_on;
        }
        is_first = false;
        rest = line.rest;
    }
    Ok(if goes_on { None } else { Some(bytes) })
}

// Notes each piece of a line that is no byte. The pieces are before the last `left` units of their part.
fn note_pieces<'a>(notes: &mut Notes<'a>, pieces: &'a [u16], left: usize) -> Result<(), OutOfMemory>
    ensures same { notes.new.len ≡ notes.old.len }
    ensures kept { OnOk result (vec_len notes.old.damages ≤ vec_len notes.new.damages) }
{
    let mut rest = pieces;
    loop {
        let (piece, behind) = split_piece(rest);
        if byte_of(piece).is_none() {
            let len = behind.map_or(0, |behind| behind.len().saturating_add(1));
            let from_piece = piece.len().saturating_add(len);
            notes.push(left.saturating_add(from_piece), Kind::NoByte(piece))?;
        }
        match behind {
            Some(behind) => rest = behind,
            None => return Ok(()),
        }
    }
}

// Returns how many units of a line are from its last backslash on. A comment is no part of it.
fn len_from_backslash(line: &[u16]) -> usize {
    let (data, comment) = split_before(line, SEMICOLON);
    let at = data.iter().rposition(|unit| *unit == BACKSLASH);
    let len = data.len().saturating_sub(at.unwrap_or(0));
    len.saturating_add(comment.len())
}

// Notes what is damaged in the bytes of a value, which are the last units of their part.
pub fn note_bytes<'a>(notes: &mut Notes<'a>, digits: &'a [u16]) -> Result<(), OutOfMemory>
    ensures same { notes.new.len ≡ notes.old.len }
    ensures kept { OnOk result (vec_len notes.old.damages ≤ vec_len notes.new.damages) }
{
    let mut rest = digits;
    let mut is_first = true;
    let mut from_backslash = None;
    while !rest.is_empty() {
        let line = first_line(rest);
        if is_first || !is_silent(line.units) {
            let parts = ByteLine::of(line.units, is_first);
            let left = rest.len().saturating_sub(line.units.len());
            if let Some(pieces) = parts.pieces {
                let behind = without_blanks(line.units)
                    .len()
                    .saturating_sub(pieces.len());
                note_pieces(notes, pieces, left.saturating_add(behind))?;
            }
            from_backslash = if parts.goes_on {
                Some(left.saturating_add(len_from_backslash(line.units)))
            } else {
                None
            };
        }
        if !line.rest.is_empty() {
            notes.push_end(line.end, line.rest.len())?;
        }
        is_first = false;
        rest = line.rest;
    }
    match from_backslash {
        Some(left) => notes.push(left, Kind::GoesOn),
        None => Ok(()),
    }
}
