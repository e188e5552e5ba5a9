//! Prints keys and values as JSON, an object in a line.

use std::alloc::{AllocError, Global};
use std::fmt;
use std::fmt::Write;
use wide_files::is_hidden;
use wide_registry::{Key, decoded};
use widestring::U16Str;
use widestring::error::OutOfMemory;

// A text as a string of JSON. An unpaired surrogate is an escape, so that nothing is lost, and so is what would change a
// terminal.
#[derive(Clone, Copy)]
pub struct JsonText<'a>(pub &'a [u16]);

impl fmt::Display for JsonText<'_> {
    fn fmt<W: fmt::Write>(&self, f: &mut fmt::Formatter<W>) -> fmt::Result {
        f.write_char('"')?;
        for item in U16Str::from_slice(self.0).chars() {
            match item {
                Ok('"') => f.write_str("\\\"")?,
                Ok('\\') => f.write_str("\\\\")?,
                Ok('\n') => f.write_str("\\n")?,
                Ok('\r') => f.write_str("\\r")?,
                Ok('\t') => f.write_str("\\t")?,
                Ok(c) if is_hidden(c) => write!(f, "\\u{:04x}", u32::from(c))?,
                Ok(c) => f.write_char(c)?,
                Err(fault) => write!(f, "\\u{:04x}", fault.unpaired_surrogate())?,
            }
        }
        f.write_char('"')
    }
}

// A string of JSON, or null.
#[derive(Clone, Copy)]
struct OrNull<'a>(Option<&'a [u16]>);

impl fmt::Display for OrNull<'_> {
    fn fmt<W: fmt::Write>(&self, f: &mut fmt::Formatter<W>) -> fmt::Result {
        match self.0 {
            Some(text) => write!(f, "{}", JsonText(text)),
            None => f.write_str("null"),
        }
    }
}

// Prints a key.
pub fn put_key(output: &mut String, key: Key<'_>) -> Result<(), AllocError> {
    let delete = if key.is_deleted {
        ",\"delete\":true"
    } else {
        ""
    };
    writeln!(output, "{{\"key\":{}{delete}}}", JsonText(key.path))
}

// What is printed of the data of a value.
#[derive(Clone, Copy)]
pub enum Json<'a> {
    Delete,
    Number(u32),
    Text(u32, &'a [u16]),
    Texts(u32, &'a [u16]),
    Bytes(u32, &'a [u8]),
}

// Returns a text without a NUL at its end.
fn without_nul(text: &[u16]) -> &[u16] {
    match text {
        [text @ .., 0] => text,
        _ => text,
    }
}

// Prints texts that each end in a NUL, and another NUL behind them.
fn put_texts(output: &mut String, texts: &[u16]) -> Result<(), AllocError> {
    let strings = without_nul(texts);
    if strings.is_empty() {
        return output.push_str("[]");
    }
    let mut rest = without_nul(strings);
    let mut separator = "[";
    'texts: loop {
        let at = rest.iter().position(|unit| *unit == 0);
        let (text, behind) = rest.split_at(at.unwrap_or(rest.len()));
        write!(output, "{separator}{}", JsonText(text))?;
        separator = ",";
        match behind {
            [_, others @ ..] => rest = others,
            [] => break 'texts,
        }
    }
    output.push(']')
}

// Prints the data of a value.
fn put_data(output: &mut String, data: Json<'_>) -> Result<(), AllocError> {
    match data {
        Json::Delete => output.push_str("\"delete\":true"),
        Json::Number(number) => write!(output, "\"type\":4,\"number\":{number}"),
        Json::Text(kind, text) => {
            let text = JsonText(without_nul(text));
            write!(output, "\"type\":{kind},\"text\":{text}")
        }
        Json::Texts(kind, texts) => {
            write!(output, "\"type\":{kind},\"texts\":")?;
            put_texts(output, texts)
        }
        Json::Bytes(kind, bytes) => {
            write!(output, "\"type\":{kind},\"bytes\":\"")?;
            for byte in bytes {
                write!(output, "{byte:02x}")?;
            }
            output.push('"')
        }
    }
}

// Prints a value of a key.
pub fn put_value(
    alloc: Global,
    output: &mut String,
    key: Option<&[u16]>,
    name: Option<&[u16]>,
    data: Json<'_>,
) -> Result<(), OutOfMemory> {
    let name = match name {
        Some(name) => Some(decoded(alloc, name)?),
        None => None,
    };
    let name = OrNull(name.as_ref().map(|name| name.as_slice()));
    write!(output, "{{\"key\":{},\"name\":{name},", OrNull(key))?;
    put_data(output, data)?;
    Ok(output.push_str("}\n")?)
}
