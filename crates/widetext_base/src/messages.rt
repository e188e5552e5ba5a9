//! Messages on standard error, and exit statuses.

ghost use Rattle.std.specs.Prelude.{◌≡◌, IfErr, IfSome};
ghost use Rattle.wide_error.specs.Texts.{transcode_error_text};
ghost use Rattle.widetext_base.specs.Command.{Says, status_of};

use std::fmt;
use std::fmt::{InlineText, Write};
use wide_bytes::{ByteSink, put_all};
use wide_error::TranscodeError;

/// The message for a usage error.
pub const USAGE: &str =
    "usage: widetext utf8 [--lossy[=each|run|skip]] | ends UNITS CALLS | edit TEXT EDIT..";

/// The exit status of a successful run.
pub const SUCCESS: u8 = 0;

/// The exit status after an error.
pub const FAILED: u8 = 1;

/// The exit status after a usage error.
pub const WRONG_USAGE: u8 = 2;

// Capacity for a line, in bytes. The longest line, for a fault with two numbers of 20 digits, takes 89.
const LINE_LEN: usize = 128;

/// Writes the text and a line feed to `faults`, in one call if that takes all of them. If `faults` fails, it has taken
/// a prefix of them. The failure is ignored. A line of more than 128 bytes is not written.
pub fn report<F: ByteSink, T: fmt::Display>(faults: &mut F, text: &T)
    ensures { IfSome (T.output text.now) (Says (F.held faults.old) (F.held faults.new)) }
{
    let mut line = InlineText::<LINE_LEN>::new();
    let is_made = writeln!(line, "{text}").is_ok();
    if is_made && !faults.failed() {
        let _ = put_all(faults, line.as_str().as_bytes());
    }
}

/// Writes the error, if there is one, as a line to `faults`, and returns the exit status.
pub fn end<F: ByteSink>(faults: &mut F, answer: Result<(), TranscodeError>) -> u8
    ensures status { result ≡ status_of answer }
    ensures quiet { result ≡ 0 → faults.new ≡ faults.old }
    ensures said { IfErr answer (λ error. Says (F.held faults.old) (F.held faults.new) (transcode_error_text error)) }
{
    match answer {
        Ok(()) => SUCCESS,
        Err(error) => {
            report(faults, &error);
            FAILED
        }
    }
}

/// Writes the usage message to `faults`, and returns the exit status of a usage error.
pub fn usage_error<F: ByteSink>(faults: &mut F) -> u8
    ensures status { result ≡ 2 }
    ensures said { Says (F.held faults.old) (F.held faults.new) USAGE.now }
{
    report(faults, &USAGE);
    WRONG_USAGE
}
