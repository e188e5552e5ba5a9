//! Parses the arguments of the subcommands `ends` and `edit`.
ghost use Rattle.std.specs.Prelude.{◌≡◌, ℕ, List, map, IfOk, IfSome, IsSome, string_bytes};
ghost use Rattle.wide_iter.specs.declared.ends.End.{End};
ghost use Rattle.widetext_requests.specs.Command.{IsUnit, NamesUnits, end_letter, IsEndsOf, IsEditOf, IsAskedBy, IsOfTypes, IsUnknown};
ghost use Rattle.widetext_requests.specs.declared.arguments.Request.{Request};

use crate::edit_arguments::{EditArgument, parse_edit_arguments};
use std::alloc::{AllocError, Global};
use wide_iter::End;

/// A request that reads no input.
#[derive(Drop)]
pub enum Request<'a> {
    /// Print the items that a decoder of the units returns.
    Ends {
        /// The units to decode.
        units: Vec<u16>,
        /// The end of the decoder at which each item is taken.
        ends: Vec<End>,
    },
    /// Print the replies to the edits of a text, and the resulting text.
    Edit {
        /// The text before the edits.
        text: &'a str,
        /// The edits, in order.
        edits: Vec<EditArgument<'a>>,
    },
}

// Parses a unit of one to four hexadecimal digits.
fn parse_unit(digits: &str) -> Option<u16>
    ensures reads { IfSome result (IsUnit digits.now) }
    ensures complete { (u : ℕ) → IsUnit digits.now u → IsSome result }
{
    if digits.len() > 4 || digits.starts_with('+') {
        return None;
    }
    u16::from_str_radix(digits, 16).ok()
}

// Parses the units of an argument: `-` for none, or units separated by commas.
fn parse_units(alloc: Global, word: &str) -> Result<Option<Vec<u16>>, AllocError>
    ensures reads { IfOk result (λ r. IfSome r (λ units. NamesUnits word.now units.items)) }
    ensures complete { (us : List ℕ) → NamesUnits word.now us → IfOk result (λ r. IsSome r) }
{
    let mut units = Vec::new(alloc);
    if word == "-" {
        return Ok(Some(units));
    }
    for digits in word.split(',') {
        let Some(unit) = parse_unit(digits) else {
            return Ok(None);
        };
        units.push(unit)?;
    }
    Ok(Some(units))
}

// Parses ends, each of which is a letter `F` or `B`.
fn parse_ends(alloc: Global, word: &str) -> Result<Option<Vec<End>>, AllocError>
    ensures reads { IfOk result (λ r. IfSome r (λ ends. word.now ≡ map end_letter ends.items)) }
    ensures complete { (ends : List End) → word.now ≡ map end_letter ends → IfOk result (λ r. IsSome r) }
{
    let mut ends = Vec::with_capacity(alloc, word.len())?;
    for letter in word.bytes() {
        let end = match letter {
            b'F' => End::Front,
            b'B' => End::Back,
            _ => return Ok(None),
        };
        ends.push(end)?;
    }
    Ok(Some(ends))
}

// Parses the arguments of `ends UNITS CALLS`. It reads both before it does anything else.
fn parse_ends_request<'a>(
    alloc: Global,
    units: &str,
    calls: &str,
) -> Result<Option<Request<'a>>, AllocError>
    ensures reads { IfOk result (λ r. IfSome r (IsEndsOf units.now calls.now)) }
    ensures complete { (request : Request) → IsEndsOf units.now calls.now request → IfOk result (λ r. IsSome r) }
{
    let Some(units) = parse_units(alloc, units)? else {
        return Ok(None);
    };
    let Some(ends) = parse_ends(alloc, calls)? else {
        return Ok(None);
    };
    Ok(Some(Request::Ends { units, ends }))
}

// Parses the arguments of `edit TEXT EDIT..`.
fn parse_edit_request<'a>(
    alloc: Global,
    text: &'a str,
    words: &'a [String],
) -> Result<Option<Request<'a>>, AllocError>
    ensures reads { IfOk result (λ r. IfSome r (IsEditOf text.now words.now)) }
    ensures complete { (request : Request) → IsOfTypes request → IsEditOf text.now words.now request → IfOk result (λ r. IsSome r) }
{
    match parse_edit_arguments(alloc, words)? {
        Some(edits) => Ok(Some(Request::Edit { text, edits })),
        None => Ok(None),
    }
}

/// Parses the arguments of a request that reads no input. Returns `None` if they are not those of one.
///
/// # Errors
///
/// [`AllocError`] if an allocation fails.
pub fn parse_arguments(alloc: Global, words: &[String]) -> Result<Option<Request<'_>>, AllocError>
    ensures unknown { IsUnknown words.now → result ≡ Ok None }
    ensures asked { IfOk result (λ r. IfSome r (IsAskedBy words.now)) }
    ensures complete { (request : Request) → IsOfTypes request → IsAskedBy words.now request → IfOk result (λ r. IsSome r) }
{
    match words {
        [word, units, calls] if word.as_str() == "ends" => {
            parse_ends_request(alloc, units.as_str(), calls.as_str())
        }
        [word, text, edits @ ..] if word.as_str() == "edit" => {
            parse_edit_request(alloc, text.as_str(), edits)
        }
        _ => Ok(None),
    }
}
