//! The output of the subcommand `edit`.
ghost use Rattle.std.specs.Prelude.{◌≡◌, ◌++◌, map, string_bytes, OnOk, IfOk};
ghost use Rattle.std.specs.Str.{chars};
ghost use Rattle.wide_forms.specs.EncodingForm.{Utf32};
ghost use Rattle.wide_forms.specs.Offsets.{text_of};
ghost use Rattle.wide_editable.specs.Marked.{marked_text, marked_units};
ghost use Rattle.wide_edit.specs.Step.{reply_data};
ghost use Rattle.widetext_requests.specs.Lines as line;

use std::alloc::{AllocError, Global};
use std::fmt::Write;
use wide_edit::{Edit, Reply};
use wide_editable::{Marked16, run_both};
use wide_error::OutOfMemory;
use wide_utfstring::{Utf16String, Utf32String};
use widetext_requests::{push_replies, push_units16, push_units32};

// Appends lines for the text, and for the units of both strings.
fn push_strings(lines: &mut String, narrow: &Marked16, wide: &Utf32String) -> Result<(), AllocError>
    ensures { OnOk result (string_bytes lines.new ≡ string_bytes lines.old ++ line.string_lines (marked_text narrow.now) (marked_units narrow.now) wide.now.units) }
{
    writeln!(lines, "text {}", narrow.as_utfstr().escape_default())?;
    push_units16(lines, narrow.as_utfstr().as_slice())?;
    push_units32(lines, wide.as_slice())
}

// Returns the text in UTF-16, with an offset index.
fn marked(alloc: Global, text: &str) -> Result<Marked16, OutOfMemory>
    ensures { IfOk result (λ m. marked_text m ≡ chars text.now) }
{
    match Marked16::new(alloc, Utf16String::from_str(alloc, text)?) {
        Ok(marked) => Ok(marked),
        Err(_string) => Err(OutOfMemory),
    }
}

// Appends a line for each reply, and lines for the text and for the units of both strings.
fn push_lines(
    lines: &mut String,
    replies: &[Reply],
    narrow: &Marked16,
    wide: &Utf32String,
) -> Result<(), AllocError>
    ensures { OnOk result (string_bytes lines.new ≡ string_bytes lines.old ++ line.result_lines (map reply_data replies.now) (marked_text narrow.now) (marked_units narrow.now) wide.now.units) }
{
    push_replies(lines, replies)?;
    push_strings(lines, narrow, wide)
}

// Returns a line for each reply, and lines for the text and for the units of both strings.
fn lines_of(
    alloc: Global,
    replies: &[Reply],
    narrow: &Marked16,
    wide: &Utf32String,
) -> Result<String, OutOfMemory>
    ensures { IfOk result (λ lines. string_bytes lines ≡ line.result_lines (map reply_data replies.now) (marked_text narrow.now) (marked_units narrow.now) wide.now.units) }
{
    let mut lines = String::new(alloc);
    push_lines(&mut lines, replies, narrow, wide)?;
    Ok(lines)
}

// Makes the edits of both strings, which have the same characters, and returns the lines.
fn edited_lines(
    alloc: Global,
    narrow: &mut Marked16,
    wide: &mut Utf32String,
    edits: &[Edit<'_>],
) -> Result<String, OutOfMemory>
    requires { text_of Utf32 (λ u. u) wide.old.units ≡ marked_text narrow.old }
    ensures { IfOk result (λ lines. string_bytes lines ≡ line.edit_lines (marked_text narrow.old) edits.now) }
{
    let mut replies = Vec::new(alloc);
    let mut same_replies = Vec::new(alloc);
    match run_both(alloc, narrow, wide, edits, &mut replies, &mut same_replies) {
        Ok(()) => lines_of(alloc, &replies, narrow, wide),
        Err(_stopped) => Err(OutOfMemory),
    }
}

/// Returns a line for each reply to the edits of a text, and lines for the resulting text, its UTF-16 and its UTF-32.
///
/// # Errors
///
/// [`OutOfMemory`] if an allocation fails.
pub fn edit_lines(alloc: Global, text: &str, edits: &[Edit<'_>]) -> Result<String, OutOfMemory>
    ensures { IfOk result (λ lines. string_bytes lines ≡ line.edit_lines (chars text.now) edits.now) }
{
    let mut narrow = marked(alloc, text)?;
    let mut wide = Utf32String::from_str(alloc, text)?;
    edited_lines(alloc, &mut narrow, &mut wide, edits)
}
