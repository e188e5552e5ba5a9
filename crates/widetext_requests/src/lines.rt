//! Lines of the output of the subcommand `edit`.
ghost use Rattle.std.specs.Prelude.{◌≡◌, [], ◌∷◌, ◌++◌, map, codes, string_bytes, OnOk};
ghost use Rattle.std.specs.List.{flat_map};
ghost use Rattle.wide_edit.specs.Step.{reply_data};
ghost use Rattle.widetext_requests.specs.Lines as line;

use std::alloc::AllocError;
use std::fmt::Write;
use wide_edit::Reply;

// Appends a character as `char::escape_default` escapes it.
fn push_escape(lines: &mut String, c: char) -> Result<(), AllocError>
    ensures { OnOk result (string_bytes lines.new ≡ string_bytes lines.old ++ line.escaped (c ∷ [])) }
{
    for escape in c.escape_default() {
        lines.push(escape)?;
    }
    Ok(())
}

// Appends characters, each as `char::escape_default` escapes it.
fn push_escaped(lines: &mut String, text: &[char]) -> Result<(), AllocError>
    ensures { OnOk result (string_bytes lines.new ≡ string_bytes lines.old ++ line.escaped text.now) }
{
    for c in text {
        push_escape(lines, *c)?;
    }
    Ok(())
}

// Appends a line for the reply of an edit.
fn push_reply(lines: &mut String, reply: &Reply) -> Result<(), AllocError>
    ensures { OnOk result (string_bytes lines.new ≡ string_bytes lines.old ++ line.reply_line (reply_data reply.now)) }
{
    match reply {
        Reply::Done => writeln!(lines, "done"),
        Reply::Char(c) => {
            lines.push_str("char ")?;
            push_escape(lines, *c)?;
            lines.push('\n')
        }
        Reply::NoChar => writeln!(lines, "nochar"),
        Reply::Chars(text) => {
            lines.push_str("chars ")?;
            push_escaped(lines, text)?;
            lines.push('\n')
        }
        Reply::BadPlace => writeln!(lines, "badplace"),
        Reply::BadRange => writeln!(lines, "badrange"),
    }
}

/// Appends a line for units of UTF-16.
///
/// # Errors
///
/// [`AllocError`] if an allocation fails. What `lines` holds then is not specified.
pub fn push_units16(lines: &mut String, units: &[u16]) -> Result<(), AllocError>
    ensures { OnOk result (string_bytes lines.new ≡ string_bytes lines.old ++ line.units_line (codes "utf16") 4 units.now) }
{
    lines.push_str("utf16")?;
    for unit in units {
        write!(lines, " {unit:04X}")?;
    }
    lines.push('\n')
}

/// Appends a line for units of UTF-32.
///
/// # Errors
///
/// [`AllocError`] if an allocation fails. What `lines` holds then is not specified.
pub fn push_units32(lines: &mut String, units: &[u32]) -> Result<(), AllocError>
    ensures { OnOk result (string_bytes lines.new ≡ string_bytes lines.old ++ line.units_line (codes "utf32") 8 units.now) }
{
    lines.push_str("utf32")?;
    for unit in units {
        write!(lines, " {unit:08X}")?;
    }
    lines.push('\n')
}

/// Appends a line for each reply.
///
/// # Errors
///
/// [`AllocError`] if an allocation fails. What `lines` holds then is not specified.
pub fn push_replies(lines: &mut String, replies: &[Reply]) -> Result<(), AllocError>
    ensures { OnOk result (string_bytes lines.new ≡ string_bytes lines.old ++ flat_map line.reply_line (map reply_data replies.now)) }
{
    for reply in replies {
        push_reply(lines, reply)?;
    }
    Ok(())
}
