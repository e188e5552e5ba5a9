//! Which form an export has.

use wide_files::{CodePage, Form, NoForm, form_of, scheme_by_bom};
use widestring::convert::Scheme;

const OLD_HEADER: &[u8] = b"REGEDIT4";

const HEADER: &[u8] = b"Windows Registry Editor Version 5.00";

// Returns whether bytes begin with an ASCII text in UTF-16.
fn begins_wide(bytes: &[u8], text: &[u8], scheme: Scheme) -> bool {
    let (pairs, _) = bytes.as_chunks::<2>();
    let units = pairs.iter().map(|pair| match scheme {
        Scheme::Utf16Be => u16::from_be_bytes(*pair),
        _ => u16::from_le_bytes(*pair),
    });
    units
        .take(text.len())
        .eq(text.iter().map(|byte| u16::from(*byte)))
}

// Returns the form of a file that begins with a header and no BOM. The old header is of regedit for ANSI, whose files
// are in a code page.
fn form_by_header(bytes: &[u8]) -> Option<Form> {
    let at = bytes
        .iter()
        .position(|byte| *byte != b' ' && *byte != b'\t');
    let text = bytes.get(at.unwrap_or(0)..).unwrap_or_default();
    if text.starts_with(OLD_HEADER) {
        return Some(Form::Windows(CodePage::Windows1252));
    }
    if text.starts_with(HEADER) {
        return Some(Form::Unicode(Scheme::Utf8));
    }
    for scheme in [Scheme::Utf16Le, Scheme::Utf16Be] {
        if begins_wide(bytes, OLD_HEADER, scheme) || begins_wide(bytes, HEADER, scheme) {
            return Some(Form::Unicode(scheme));
        }
    }
    None
}

// Returns the form of an export, and the length of its BOM in bytes if that is to be passed. The form that is asked for is
// taken, or else that of the BOM, or of the header, or else UTF-16LE or UTF-8 if the file looks like it: then its lines are
// read, and that it has no header is a damage.
pub fn form_of_export(bytes: &[u8], asked: Option<Form>) -> Result<(Form, usize), NoForm> {
    if asked.is_none()
        && scheme_by_bom(bytes).is_none()
        && let Some(form) = form_by_header(bytes)
    {
        return Ok((form, 0));
    }
    match form_of(bytes, asked, Scheme::Utf16Le) {
        Err(NoForm(Some(Scheme::Utf8))) => Ok((Form::Unicode(Scheme::Utf8), 0)),
        found => found,
    }
}

// Returns whether a file that is read in a code page looks like UTF-8 beyond ASCII.
pub fn looks_like_utf8(bytes: &[u8], form: Form) -> bool {
    match form {
        Form::Windows(_) => !bytes.is_ascii() && str::from_utf8(bytes).is_ok(),
        Form::Unicode(_) => false,
    }
}

// Returns whether the high byte of each unit is first.
pub fn is_big_endian(bytes: &[u8], form: Form) -> bool {
    match form {
        Form::Unicode(Scheme::Utf16Be) => true,
        Form::Unicode(Scheme::Utf16) => bytes.starts_with(&[0xfe, 0xff]),
        _ => false,
    }
}
