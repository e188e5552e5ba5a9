//! Text that is safe on a terminal.

use std::fmt;
use wide_ustr::U16Str;

/// Returns whether a character would change what a terminal shows beside it: a control, a line or paragraph separator, or
/// one that changes the direction of text (Unicode Standard, sections 23.1 to 23.3).
pub fn is_hidden(c: char) -> bool {
    c.is_control()
        || matches!(c, '\u{61c}' | '\u{200e}' | '\u{200f}' | '\u{2028}'..='\u{202e}' | '\u{2066}'..='\u{2069}' | '\u{feff}')
}

// Writes a character, escaped if a terminal would not show it.
fn put<W: fmt::Write>(f: &mut fmt::Formatter<W>, c: char) -> fmt::Result {
    match c {
        '\n' => f.write_str("\\n"),
        '\r' => f.write_str("\\r"),
        '\t' => f.write_str("\\t"),
        '\0' => f.write_str("\\0"),
        c if is_hidden(c) => write!(f, "\\u{{{:x}}}", u32::from(c)),
        c => f.write_char(c),
    }
}

// Writes a text. A quote and a backslash are escaped if it is written in quotes.
fn put_all<W: fmt::Write>(
    f: &mut fmt::Formatter<W>,
    text: U16Str<'_>,
    in_quotes: bool,
) -> fmt::Result {
    for item in text.chars() {
        match item {
            Ok('"') if in_quotes => f.write_str("\\\"")?,
            Ok('\\') if in_quotes => f.write_str("\\\\")?,
            Ok(c) => put(f, c)?,
            Err(fault) => write!(f, "\\<{:04X}>", fault.unpaired_surrogate())?,
        }
    }
    Ok(())
}

/// A text with letters as they are. Controls, ends of lines, characters that change the direction, and unpaired
/// surrogates are escaped: `\n`, `\u{1b}`, `\<D83D>`.
#[derive(Clone, Copy)]
pub struct Shown<'a>(pub U16Str<'a>);

impl fmt::Display for Shown<'_> {
    fn fmt<W: fmt::Write>(&self, f: &mut fmt::Formatter<W>) -> fmt::Result {
        put_all(f, self.0, false)
    }
}

/// A text in UTF-8, as [`Shown`] has it.
#[derive(Clone, Copy)]
pub struct ShownText<'a>(pub &'a str);

impl fmt::Display for ShownText<'_> {
    fn fmt<W: fmt::Write>(&self, f: &mut fmt::Formatter<W>) -> fmt::Result {
        for c in self.0.chars() {
            put(f, c)?;
        }
        Ok(())
    }
}

/// A text in quotes, as [`Shown`] has it, with a backslash before each quote and each backslash.
#[derive(Clone, Copy)]
pub struct Quoted<'a>(pub U16Str<'a>);

impl fmt::Display for Quoted<'_> {
    fn fmt<W: fmt::Write>(&self, f: &mut fmt::Formatter<W>) -> fmt::Result {
        f.write_char('"')?;
        put_all(f, self.0, true)?;
        f.write_char('"')
    }
}
