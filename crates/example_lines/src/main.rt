//! Prints the lines of files that contain a word, as `grep` does, whatever form of Unicode the files have.
//!
//! A BOM decides the form, or `--form`. A file without either is read if it looks like UTF-16LE. Another one is not read,
//! and what it looks like is said. The status is 0 if a line was found, 1 if none was, and 2 after an error.
#![tactic(auto)]

ghost use Rattle.std.specs.Prelude.{◌≡◌, false, true, if◌then◌else◌};

use std::alloc::{AllocError, Global};
use std::fmt::Write;
use std::process::ExitCode;
use wide_files::{
    Document, Form, OptionWord, Outcome, Place, Program, Refusal, Shown, ShownText, files_of,
    form_named, form_of, run,
};
use widestring::convert::Scheme;
use widestring::error::OutOfMemory;
use widestring::{U16Str, U16String};

static OPTIONS: [OptionWord; 6] = [
    OptionWord {
        name: "-n",
        has_value: false,
    },
    OptionWord {
        name: "-i",
        has_value: false,
    },
    OptionWord {
        name: "-b",
        has_value: false,
    },
    OptionWord {
        name: "--cr",
        has_value: false,
    },
    OptionWord {
        name: "--form",
        has_value: true,
    },
    OptionWord {
        name: "--order",
        has_value: true,
    },
];

const HELP: &str = "\
Prints the lines of the files that contain the word.

  -n           prints the number of each line, from 1
  -i           ASCII letters in either case are the same
  -b           prints where the word is in each line, in units, from 0
  --cr         a carriage return alone ends a line too
  --form FORM  the form of the files: UTF-8, UTF-16, UTF-16LE, UTF-16BE, UTF-32,
               UTF-32LE, UTF-32BE, CP874, CP1250 to CP1258; without it a BOM
               decides, and a file without one is UTF-16LE
  --order ORDER  little or big: UTF-16 in this order of bytes
  --help, --version

For the file - it reads standard input. The exit status is 0 if a line was found,
1 if none was, and 2 after an error.
";

// A line feed, which ends a line.
const FEED: u16 = b'\n' as u16;

// A carriage return, which ends a line by itself with `--cr`.
const RETURN: u16 = b'\r' as u16;

// Returns the form of UTF-16 with this order of bytes.
fn form_in_order(order: &str) -> Option<Form> {
    match order {
        "little" => Some(Form::Unicode(Scheme::Utf16Le)),
        "big" => Some(Form::Unicode(Scheme::Utf16Be)),
        _ => None,
    }
}

// What is searched for, and how.
#[derive(Drop)]
struct Lines {
    word: U16String,
    numbers: bool,
    any_case: bool,
    offsets: bool,
    ends_at_return: bool,
    form: Option<Form>,
    // Whether a line was found.
    found: bool,
    // Whether something of a file was not read.
    unread: bool,
}

impl Lines {
    // Prints where the word is in a line.
    fn put_offsets(&self, output: &mut String, line: U16Str<'_>) -> Result<(), AllocError> {
        let mut from = 0;
        let mut separator = "";
        for _ in 0..line.len().saturating_add(1) {
            let Some(rest) = line.get(from..) else {
                break;
            };
            let Some(offset) = self.find(rest) else {
                break;
            };
            let at = from.saturating_add(offset);
            write!(output, "{separator}{at}")?;
            separator = ",";
            from = at.saturating_add(self.word.len().max(1));
        }
        output.push(':')
    }

    // Returns the offset of the word in a text.
    fn find(&self, text: U16Str<'_>) -> Option<usize> {
        if self.any_case {
            text.find_ignore_ascii_case(self.word.as_ustr())
        } else {
            text.find(self.word.as_ustr())
        }
    }

    // Prints a line if it has the word.
    fn read_line(
        &mut self,
        outcome: &mut Outcome<'_>,
        number: usize,
        line: U16Str<'_>,
    ) -> Result<(), AllocError> {
        if self.find(line).is_none() {
            return Ok(());
        }
        self.found = true;
        if !outcome.file.is_empty() {
            write!(outcome.output, "{}:", ShownText(outcome.file))?;
        }
        if self.numbers {
            write!(outcome.output, "{number}:")?;
        }
        if self.offsets {
            self.put_offsets(&mut outcome.output, line)?;
        }
        writeln!(outcome.output, "{}", Shown(line))
    }

    // Returns whether a line ends behind the unit at an offset.
    fn ends_line(&self, units: &[u16], at: usize) -> bool {
        match units.get(at) {
            Some(&FEED) => true,
            Some(&RETURN) if self.ends_at_return => units.get(at.saturating_add(1)) != Some(&FEED),
            _ => false,
        }
    }

    // Reports the bytes that are no text, with their lines.
    fn report_bad(
        &mut self,
        outcome: &mut Outcome<'_>,
        document: &Document,
    ) -> Result<(), AllocError> {
        let mut line: usize = 1;
        let (mut start, mut from) = (0usize, 0usize);
        for bad in &document.bad {
            for at in from..bad.unit {
                if self.ends_line(&document.units, at) {
                    line = line.saturating_add(1);
                    start = at.saturating_add(1);
                }
            }
            from = bad.unit;
            self.unread = true;
            let unit = bad.unit.saturating_sub(start);
            outcome.report_at(Place { line, unit }, *bad)?;
        }
        Ok(())
    }

    // Prints the lines between the carriage returns of a line that have the word. Returns the number of the last one.
    fn read_parts(
        &mut self,
        outcome: &mut Outcome<'_>,
        line: U16Str<'_>,
        before: usize,
    ) -> Result<usize, AllocError> {
        let mut number = before;
        for part in line.split_char('\r') {
            number = number.saturating_add(1);
            self.read_line(outcome, number, part)?;
        }
        Ok(number)
    }

    // Prints the lines of a text that have the word.
    fn read_text(&mut self, outcome: &mut Outcome<'_>, text: U16Str<'_>) -> Result<(), AllocError> {
        let mut number: usize = 0;
        for (start, line) in text.line_indices_lossy() {
            // Behind a carriage return at the end of the text there is no line.
            let is_last = start.saturating_add(line.len()) >= text.len();
            let line = if is_last && self.ends_at_return {
                line.strip_suffix_char('\r').unwrap_or(line)
            } else {
                line
            };
            if self.ends_at_return {
                number = self.read_parts(outcome, line, number)?;
            } else {
                number = number.saturating_add(1);
                self.read_line(outcome, number, line)?;
            }
        }
        Ok(())
    }
}

impl Program for Lines {
    fn name() -> &'static str {
        "lines"
    }

    fn usage() -> &'static str {
        "lines [-n] [-i] [-b] [--cr] [--form FORM | --order ORDER] WORD FILE.."
    }

    fn help() -> &'static str {
        HELP
    }

    fn options() -> &'static [OptionWord] {
        &OPTIONS
    }

    fn set(&mut self, option: usize, value: &str) -> Result<bool, OutOfMemory> {
        match option {
            0 => self.numbers = true,
            1 => self.any_case = true,
            2 => self.offsets = true,
            3 => self.ends_at_return = true,
            4 => self.form = form_named(value),
            _ => self.form = form_in_order(value),
        }
        Ok(option < 4 || self.form.is_some())
    }

    fn take_words<'a>(
        &mut self,
        words: &'a [String],
    ) -> Result<Result<&'a [String], Refusal<'a>>, OutOfMemory> {
        let [word, files @ ..] = words else {
            return Ok(Err(Refusal::NoWord("WORD")));
        };
        self.word.push_str(word.as_str())?;
        Ok(files_of(files))
    }

    fn read(
        &mut self,
        alloc: Global,
        bytes: &[u8],
        outcome: &mut Outcome<'_>,
    ) -> Result<(), OutOfMemory> {
        let (form, bom) = match form_of(bytes, self.form, Scheme::Utf16Le) {
            Ok(found) => found,
            Err(error) => {
                self.unread = true;
                return Ok(outcome.report(error)?);
            }
        };
        let document = Document::read(alloc, bytes.get(bom..).unwrap_or_default(), form)?;
        self.report_bad(outcome, &document)?;
        Ok(self.read_text(outcome, U16Str::from_slice(&document.units))?)
    }

    fn status(&self, _reported: bool, failed: bool) -> u8
        ensures failed { failed ≡ true → result ≡ 2 }
        ensures unread { self.now.unread ≡ true → result ≡ 2 }
        ensures found { failed ≡ false → self.now.unread ≡ false → result ≡ if self.now.found then 0 else 1 }
    {
        if failed || self.unread {
            2
        } else {
            u8::from(!self.found)
        }
    }
}

fn main(rt: HostRuntime) -> ExitCode {
    let lines = Lines {
        word: U16String::new(rt.alloc()),
        numbers: false,
        any_case: false,
        offsets: false,
        ends_at_return: false,
        form: None,
        found: false,
        unread: false,
    };
    run(&rt, lines)
}
