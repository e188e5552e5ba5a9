//! Messages, and exit statuses.

use std::fmt::{InlineText, Write};
use std::{fmt, io};
use wide_bytes::{ByteSink, put_all};

/// The exit status of a successful run.
pub const SUCCESS: u8 = 0;

/// The exit status after an error.
pub const FAILED: u8 = 1;

/// The exit status after a usage error.
pub const WRONG_USAGE: u8 = 2;

/// What `--version` prints.
pub const VERSION: &str = "wideconv 0.2.0\n";

/// What `-l` prints: the name of each scheme.
pub const FORMS_LIST: &str =
    "UTF-8\nUTF-16\nUTF-16LE\nUTF-16BE\nUTF-32\nUTF-32LE\nUTF-32BE\nWTF-8\n";

/// What a usage error prints after its reason.
pub const USAGE: &str =
    "usage: wideconv [-f FORM] -t FORM [--lossy[=each|run|skip]] [--bom] [-o FILE] [FILE..], or wideconv --help";

/// What `--help` prints.
pub const HELP: &str = "\
Converts text between UTF-8, UTF-16, UTF-32 and WTF-8.

usage: wideconv [-f FORM] -t FORM [--lossy[=each|run|skip]] [--bom] [-o FILE] [FILE..]
       wideconv [-f FORM] --check [FILE..]
       wideconv [-f FORM] --stats [FILE..]

  -f FORM      the form of the files; without it their BOM decides
  -t FORM      the form to write
  --lossy      writes U+FFFD for each fault, in place of an error; =run for each
               run of faults, =skip writes nothing
  --bom        writes a BOM before the text
  -o FILE      writes FILE, which is replaced once all is converted
  --check      reports each fault: file, byte, line and column, unit
  --stats      counts units, characters, lines, faults, and characters by plane
  -l           lists the forms
  --help, --version

Without a file, or for the file -, it reads standard input. Options come before
the files; -- ends them. The exit status is 0, or 1 after an error or if there
are faults, or 2 if the arguments are wrong.
";

// The capacity for the text of an error, in bytes.
const TEXT_LEN: usize = 512;

// Writes a piece of a message, unless a write failed before. A failure is ignored.
fn put<F: ByteSink>(faults: &mut F, text: &str) {
    if !faults.failed() {
        let _ = put_all(faults, text.as_bytes());
    }
}

/// Writes a line about a file, or about the arguments if the name is empty. Failures are ignored.
pub fn report<F: ByteSink, T: fmt::Display>(faults: &mut F, name: &str, text: &T) {
    let mut line = InlineText::<TEXT_LEN>::new();
    let is_made = write!(line, "{text}").is_ok();
    put(faults, "wideconv: ");
    put(faults, name);
    put(faults, if name.is_empty() { "" } else { ": " });
    put(faults, if is_made { line.as_str() } else { "..." });
    put(faults, "\n");
}

/// Writes a line about an error of the system, of which the number is known if it is not 0.
pub fn report_system<F: ByteSink, T: fmt::Display>(
    faults: &mut F,
    name: &str,
    text: &T,
    code: i32,
) {
    if code == 0 {
        report(faults, name, text);
    } else {
        report(faults, name, &io::Error::from_raw_os_error(code));
    }
}
