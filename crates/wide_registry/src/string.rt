//! Strings in quotes.

ghost use Rattle.std.specs.Prelude.{◌≡◌, ◌<◌, ◌+◌, IfNone, is_some, IfOk, IfSome, false, length, take, true, OnOk, vec_len, ◌≤◌};
ghost use Rattle.wide_registry.specs.Escapes.{has_good_escapes, has_quote, is_escape, meaning_of, unescaped};

use crate::damage::Kind;
use crate::line::{FEED, RETURN};
use crate::notes::Notes;
use std::alloc::Global;
use wide_error::OutOfMemory;

pub const QUOTE: u16 = b'"' as u16;

pub const BACKSLASH: u16 = b'\\' as u16;

const SMALL_N: u16 = b'n' as u16;

const SMALL_R: u16 = b'r' as u16;

// Returns the offset of the quote that ends a string. A quote after a backslash does not.
pub fn closing_quote(text: &[u16]) -> Option<usize>
    ensures within { IfSome result (λ offset. offset < length text.now) }
    ensures first { IfSome result (λ offset. has_quote (take offset text.now) ≡ false) }
    ensures quote { IfSome result (λ offset. has_quote (take (offset + 1) text.now) ≡ true) }
    ensures none { IfNone result (has_quote text.now ≡ false) }
{
    let mut is_escaped = false;
    for (offset, unit) in text.iter().enumerate() {
        if is_escaped {
            is_escaped = false;
        } else if *unit == QUOTE {
            return Some(offset);
        } else if *unit == BACKSLASH {
            is_escaped = true;
        }
    }
    None
}

// Returns what a unit after a backslash means, if it may be there.
fn escaped(unit: u16) -> Option<u16>
    ensures some { IfSome result (λ meant. meant ≡ meaning_of unit) }
    ensures none { IfNone result (meaning_of unit ≡ unit) }
    ensures known { is_some result ≡ is_escape unit }
{
    match unit {
        QUOTE | BACKSLASH => Some(unit),
        SMALL_N => Some(FEED),
        SMALL_R => Some(RETURN),
        _ => None,
    }
}

/// Returns the text of a string, as it is written between its quotes: `\\`, `\"`, `\n` and `\r` are escapes. A backslash
/// before another unit is left out, as regedit does.
///
/// # Errors
///
/// If an allocation fails.
pub fn decoded(alloc: Global, string: &[u16]) -> Result<Vec<u16>, OutOfMemory>
    ensures { IfOk result (λ text. text.items ≡ unescaped string.now) }
{
    let mut text = Vec::new(alloc);
    let mut rest = string;
    while let [unit, others @ ..] = rest {
        match others {
            [next, behind @ ..] if *unit == BACKSLASH => {
                text.push(escaped(*next).unwrap_or(*next))?;
                rest = behind;
            }
            _ => {
                text.push(*unit)?;
                rest = others;
            }
        }
    }
    Ok(text)
}

// Notes each backslash of a string that escapes nothing. The string is before the last `left` units of its part.
pub fn note_escapes<'a>(
    notes: &mut Notes<'a>,
    string: &[u16],
    left: usize,
) -> Result<(), OutOfMemory>
    ensures same { notes.new.len ≡ notes.old.len }
    ensures kept { OnOk result (vec_len notes.old.damages ≤ vec_len notes.new.damages) }
    ensures whole { OnOk result (vec_len notes.new.damages ≤ vec_len notes.old.damages → has_good_escapes string.now ≡ true) }
{
    let mut rest = string;
    while let [unit, others @ ..] = rest {
        let mut next = others;
        if *unit == BACKSLASH {
            match others {
                [written, behind @ ..] if escaped(*written).is_some() => next = behind,
                _ => notes.push(left.saturating_add(rest.len()), Kind::NoEscape)?,
            }
        }
        rest = next;
    }
    Ok(())
}
