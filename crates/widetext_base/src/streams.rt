//! The arguments of a run, and the end of its output.

ghost use Rattle.std.specs.Prelude.{◌≡◌, ◌≢◌, ◌≤◌, codes, IfErr, OnOk};
ghost use Rattle.wide_error.specs.Texts.{out_of_memory_text};
ghost use Rattle.widetext_base.specs.Command.{Says};

use crate::messages::{FAILED, SUCCESS, USAGE, report, usage_error};
use std::io::{ErrorKind, Write};
use std::rt::Env;
use std::{env, io};
use wide_bytes::ByteSink;
use wide_error::{OutOfMemory, TranscodeError};

// Returns the arguments after the program's name.
fn words_of<R: Env + AllocGlobal>(rt: &R) -> io::Result<Vec<String>> {
    let mut words = Vec::new(rt.alloc());
    for word in env::args(rt)?.skip(1) {
        words.push(word)?;
    }
    Ok(words)
}

/// Returns the arguments after the program's name.
///
/// # Errors
///
/// The exit status. If an argument is not UTF-8, it is that of a usage error, and the usage message is written to
/// `faults`. If an allocation fails, it is that of an error, and the message is written to `faults`.
pub fn gather<R: Env + AllocGlobal, F: ByteSink>(rt: &R, faults: &mut F) -> Result<Vec<String>, u8>
    ensures quiet { OnOk result (faults.new ≡ faults.old) }
    ensures failed { IfErr result (λ status. (1 ≤ status) × (status ≤ 2)) }
    ensures no_memory { IfErr result (λ status. status ≡ 1 → Says (F.held faults.old) (F.held faults.new) out_of_memory_text) }
    ensures usage { IfErr result (λ status. status ≡ 2 → Says (F.held faults.old) (F.held faults.new) USAGE.now) }
{
    match words_of(rt) {
        Ok(words) => Ok(words),
        Err(error) if error.kind() == ErrorKind::InvalidData => Err(usage_error(faults)),
        Err(_) => {
            report(faults, &OutOfMemory);
            Err(FAILED)
        }
    }
}

/// Flushes the output of a run that ended with `status`, and returns the exit status. If the flush fails and `status`
/// is that of success, it writes a message to `faults`, and returns the status of an error. Otherwise it returns
/// `status`.
pub fn finish<W: Write, F: ByteSink>(output: &mut W, faults: &mut F, status: u8) -> u8
    ensures first_failure { status ≢ 0 → result ≡ status }
    ensures statuses { status ≡ 0 → result ≢ 0 → result ≡ 1 }
    ensures quiet { result ≡ status → faults.new ≡ faults.old }
    ensures said { Says (F.held faults.old) (F.held faults.new) (codes "write fault") }
{
    if output.flush().is_err() && status == SUCCESS {
        report(faults, &TranscodeError::Write);
        return FAILED;
    }
    status
}
