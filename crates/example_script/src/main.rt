//! Runs the calls in files, one in each line, that scripts make on a string of any units. Standard output gets each call
//! with its result. A line that is no call is reported on standard error, with its number, from 1, and its unit, from 0.
//! The status is 0, or 1 if anything was reported, or 2 after a usage error.
#![tactic(auto)]

ghost use Rattle.std.specs.Prelude.{◌≡◌, true, if◌then◌else◌};

use std::alloc::{AllocError, Global};
use std::fmt::Write;
use std::process::ExitCode;
use wide_files::{
    Form, NoForm, OptionWord, Outcome, Place, Program, Refusal, ShownText, files_of, form_of,
    name_of, run,
};
use wide_script::Session;
use widestring::convert::Scheme;
use widestring::error::OutOfMemory;
use widestring::unit::length_as_utf16;

const HELP: &str = "\
Makes the calls in the lines of the files of a string, and prints the result of each:

  string TEXT           makes this the string
  length                its length in units
  codePointAt [PLACE]   the code point at a unit
  slice [FROM [TO]]     the units from one to another; negative ones count from the end
  indexOf TEXT          the first place of a text, or -1
  indexOf \"TEXT\" FROM   the first place at FROM or after it
  isWellFormed          whether no surrogate is without its pair
  toWellFormed          the string with U+FFFD for each such surrogate
  insert INDEX TEXT     inserts a text before a character
  remove INDEX          removes a character
  replace FROM TO TEXT  replaces characters by a text

A text goes to the end of its line, or is in quotes. The escapes of JSON are \\n, \\\" and the like in it, and \\uD83D is
a unit by its number. The files are UTF-8; for the file - standard input is read.

  --help, --version

The exit status is 0, or 1 if a line was no call or a file could not be read, or 2
if the arguments are wrong.
";

// A script program has no options.
#[derive(Clone, Copy)]
struct Script;

// Reads the bytes of a line, and makes its call. An empty line is skipped.
fn read_line(
    session: &mut Session,
    bytes: &[u8],
    line: usize,
    outcome: &mut Outcome<'_>,
) -> Result<(), OutOfMemory> {
    let text = match str::from_utf8(bytes.strip_suffix(b"\r").unwrap_or(bytes)) {
        Ok("") => return Ok(()),
        Ok(text) => text,
        Err(fault) => {
            let valid = bytes.get(..fault.valid_up_to()).unwrap_or(b"");
            let valid = str::from_utf8(valid).unwrap_or("");
            let unit = length_as_utf16(valid);
            writeln!(
                outcome.output,
                "{}\u{fffd}: no UTF-8 at unit {unit}",
                ShownText(valid)
            )?;
            return Ok(outcome.report_at(Place { line, unit }, "no UTF-8")?);
        }
    };
    match session.answer(text)? {
        Ok(answer) => writeln!(outcome.output, "{}: {answer}", ShownText(text))?,
        Err(damage) => {
            let unit = damage.unit;
            writeln!(
                outcome.output,
                "{}: {damage} at unit {unit}",
                ShownText(text)
            )?;
            outcome.report_at(Place { line, unit }, damage)?;
        }
    }
    Ok(())
}

// Returns the text of a file without its BOM, or reports that it has another form than UTF-8. A file that looks like no
// form of Unicode is read line by line, and what is no UTF-8 in it is reported there.
fn text_of<'a>(bytes: &'a [u8], outcome: &mut Outcome<'_>) -> Result<Option<&'a [u8]>, AllocError> {
    let scheme = match form_of(bytes, None, Scheme::Utf8) {
        Ok((Form::Unicode(Scheme::Utf8), len)) => return Ok(bytes.get(len..)),
        Ok((Form::Windows(_), _)) | Err(NoForm(None)) => return Ok(Some(bytes)),
        Ok((Form::Unicode(scheme), _)) | Err(NoForm(Some(scheme))) => scheme,
    };
    let name = name_of(scheme);
    outcome.report(format_args!("it looks like {name}, and calls are read in UTF-8"))?;
    Ok(None)
}

impl Program for Script {
    fn name() -> &'static str {
        "script"
    }

    fn usage() -> &'static str {
        "script FILE.."
    }

    fn help() -> &'static str {
        HELP
    }

    fn options() -> &'static [OptionWord] {
        &[]
    }

    fn set(&mut self, _option: usize, _value: &str) -> Result<bool, OutOfMemory> {
        Ok(false)
    }

    fn take_words<'a>(
        &mut self,
        words: &'a [String],
    ) -> Result<Result<&'a [String], Refusal<'a>>, OutOfMemory> {
        Ok(files_of(words))
    }

    fn read(
        &mut self,
        alloc: Global,
        bytes: &[u8],
        outcome: &mut Outcome<'_>,
    ) -> Result<(), OutOfMemory> {
        let Some(text) = text_of(bytes, outcome)? else {
            return Ok(());
        };
        let mut session = Session::new(alloc);
        for (number, line) in text.split(|byte| *byte == b'\n').enumerate() {
            read_line(&mut session, line, number.saturating_add(1), outcome)?;
        }
        Ok(())
    }

    fn status(&self, reported: bool, failed: bool) -> u8
        ensures { result ≡ if reported then 1 else if failed then 1 else 0 }
    {
        u8::from(reported || failed)
    }
}

fn main(rt: HostRuntime) -> ExitCode {
    run(&rt, Script)
}
