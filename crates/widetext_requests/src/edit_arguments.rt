//! Parses the arguments of the program that name edits.
ghost use Rattle.std.specs.Prelude.{◌≡◌, ◌≢◌, ℕ, ◌^◌, ◌<◌, List, codes, IfOk, IfSome, IsSome, encode_utf8, string_bytes};
ghost use Rattle.std.specs.Char.{IsScalar};
ghost use Rattle.std.specs.List.{All};
ghost use Rattle.widetext_requests.specs.EditArguments.{IsEdit, AreEdits, AreEach, HasTypes, IsNumber, IsNumberThen, IsNamed, IsNamedAt, NamesArgument, ArgumentHasTypes};
ghost use Rattle.widetext_requests.specs.declared.edit_arguments.EditArgument.{EditArgument};
ghost use Rattle.wide_edit.specs.declared.edits.Edit.{Edit};

use std::alloc::{AllocError, Global};
use wide_edit::Edit;

/// The edit that an argument names. It borrows text from the argument.
#[derive(Drop)]
pub enum EditArgument<'a> {
    /// An edit that needs nothing else.
    Whole(Edit<'a>),
    /// Retains the characters that are in the list.
    Retain(Vec<char>),
}

impl EditArgument<'_> {
    /// Returns the edit.
    pub fn edit(&self) -> Edit<'_>
        ensures { IsEdit self.now result }
    {
        match self {
            EditArgument::Whole(edit) => *edit,
            EditArgument::Retain(keep) => Edit::Retain(keep),
        }
    }
}

// Parses a number of decimal digits, without a sign.
fn parse_number(digits: &str) -> Option<usize>
    ensures reads { IfSome result (IsNumber digits.now) }
    ensures complete { (n : ℕ) → n < 2 ^ 64 → IsNumber digits.now n → IsSome result }
{
    if digits.starts_with('+') {
        return None;
    }
    digits.parse().ok()
}

// Returns the character of a text that has exactly one.
fn only_char(text: &str) -> Option<char>
    ensures reads { IfSome result (λ c. text.now ≡ encode_utf8 c) }
    ensures complete { (c : ℕ) → IsScalar c → text.now ≡ encode_utf8 c → IsSome result }
{
    let mut chars = text.chars();
    let only = chars.next()?;
    match chars.next() {
        Some(_) => None,
        None => Some(only),
    }
}

// Parses a number that is followed by a comma, and returns what follows the comma.
fn number_and_rest(values: &str) -> Option<(usize, &str)>
    ensures reads { IfSome result (λ r. IsNumberThen values.now r.0 r.1.now) }
    ensures complete { (n : ℕ) (rest : List ℕ) → n < 2 ^ 64 → IsNumberThen values.now n rest → IsSome result }
    ensures rest { (n : ℕ) (rest : List ℕ) → IsNumberThen values.now n rest → IfSome result (λ r. r.1.now ≡ rest) }
{
    let (digits, rest) = values.split_once(',')?;
    Some((parse_number(digits)?, rest))
}

// Parses the values of an edit, given the edit's name, if the first value is an offset that other values follow.
fn parse_edit_at<'a>(name: &str, values: &'a str) -> Option<Edit<'a>>
    ensures reads { IfSome result (IsNamed name.now values.now) }
    ensures complete { (found : Edit) → HasTypes found → IsNamedAt name.now values.now found → IsSome result }
{
    let (first, rest) = number_and_rest(values)?;
    match name {
        "insert" => Some(Edit::Insert(first, only_char(rest)?)),
        "insertstr" => Some(Edit::InsertStr(first, rest)),
        "drain" => Some(Edit::Drain(first, parse_number(rest)?)),
        "replace" => {
            let (second, text) = number_and_rest(rest)?;
            Some(Edit::Replace(first, second, text))
        }
        _ => None,
    }
}

// Parses the values of an edit, given the edit's name, which may be any but `retain`.
fn parse_edit<'a>(name: &str, values: &'a str) -> Option<Edit<'a>>
    ensures reads { IfSome result (IsNamed name.now values.now) }
    ensures complete { (found : Edit) → HasTypes found → name.now ≢ codes "retain" → IsNamed name.now values.now found → IsSome result }
{
    match name {
        "push" => Some(Edit::Push(only_char(values)?)),
        "pushstr" => Some(Edit::PushStr(values)),
        "truncate" => Some(Edit::Truncate(parse_number(values)?)),
        "remove" => Some(Edit::Remove(parse_number(values)?)),
        "splitoff" => Some(Edit::SplitOff(parse_number(values)?)),
        _ => parse_edit_at(name, values),
    }
}

// Parses an argument that names an edit.
fn parse_edit_argument(alloc: Global, word: &str) -> Result<Option<EditArgument<'_>>, AllocError>
    ensures reads { IfOk result (λ o. IfSome o (NamesArgument word.now)) }
    ensures complete { (read : EditArgument) → ArgumentHasTypes read → NamesArgument word.now read → IfOk result (λ o. IsSome o) }
{
    let Some((name, values)) = word.split_once('=') else {
        return Ok(match word {
            "pop" => Some(EditArgument::Whole(Edit::Pop)),
            "clear" => Some(EditArgument::Whole(Edit::Clear)),
            _ => None,
        });
    };
    if name != "retain" {
        return match parse_edit(name, values) {
            Some(edit) => Ok(Some(EditArgument::Whole(edit))),
            None => Ok(None),
        };
    }
    let mut keep = Vec::with_capacity(alloc, values.len())?;
    for c in values.chars() {
        keep.push(c)?;
    }
    Ok(Some(EditArgument::Retain(keep)))
}

/// Parses arguments that name edits. Returns `None` if one of them names no edit.
///
/// # Errors
///
/// [`AllocError`] if an allocation fails.
pub fn parse_edit_arguments(
    alloc: Global,
    words: &[String],
) -> Result<Option<Vec<EditArgument<'_>>>, AllocError>
    ensures reads { IfOk result (λ o. IfSome o (λ read. AreEach (λ bytes. NamesArgument (string_bytes bytes)) words.now read.items)) }
    ensures complete { (read : List EditArgument) → All ArgumentHasTypes read → AreEach (λ bytes. NamesArgument (string_bytes bytes)) words.now read → IfOk result (λ o. IsSome o) }
{
    let mut edits = Vec::with_capacity(alloc, words.len())?;
    for word in words {
        match parse_edit_argument(alloc, word)? {
            Some(edit) => edits.push(edit)?,
            None => return Ok(None),
        }
    }
    Ok(Some(edits))
}

/// Returns the edits of parsed arguments.
///
/// # Errors
///
/// [`AllocError`] if an allocation fails.
pub fn edits_of<'a>(
    alloc: Global,
    words: &'a [EditArgument<'a>],
) -> Result<Vec<Edit<'a>>, AllocError>
    ensures { IfOk result (λ edits. AreEdits words.now edits.items) }
{
    let mut edits = Vec::with_capacity(alloc, words.len())?;
    for word in words {
        edits.push(word.edit())?;
    }
    Ok(edits)
}
