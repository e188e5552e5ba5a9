//! Writes escaped characters to a formatter.
ghost use Rattle.std.specs.Prelude.{◌≤◌, encode_utf8, encode_utf8_all};
ghost use Rattle.std.specs.Char.Iter.{escape_rest, escape_end};
ghost use Rattle.std.specs.Fmt.{WritesOnOk, WritesStyledOnOk};

use std::char::EscapeDebug;
use std::fmt;

// Writes a character, in one write as the formatter's `write_char` does. The formatter's call first tests whether the
// bytes are UTF-8, and is not always inlined.
#[inline(always)]
fn write_char<W: fmt::Write>(f: &mut fmt::Formatter<W>, c: char) -> fmt::Result
    ensures styled { WritesStyledOnOk W.write_str_gives f.old result (encode_utf8 c) f.new }
{
    let mut bytes = [0; 4];
    f.write_str(c.encode_utf8(&mut bytes))
}

/// Writes the rest of a character's escape to the formatter, and ignores the width and fill of the formatter. It stops
/// at the first error.
///
/// It does not allocate. The Rust crate has no such call.
///
/// # Requires
///
/// The escape is at most 10 characters long, as those that [`char::escape_debug`] returns are.
///
/// # Errors
///
/// The error of the formatter's sink.
pub fn write_escape<W: fmt::Write>(f: &mut fmt::Formatter<W>, escape: EscapeDebug) -> fmt::Result
    requires { escape_end escape ≤ 10 }
    ensures writes { WritesOnOk W.write_str_gives f.old result (encode_utf8_all (escape_rest escape)) f.new }
    ensures styled { WritesStyledOnOk W.write_str_gives f.old result (encode_utf8_all (escape_rest escape)) f.new }
{
    for c in escape {
        write_char(f, c)?;
    }
    Ok(())
}
