//! Prints the keys and values of registry exports: the text format `.reg`, as regedit reads it.
//!
//! Standard output gets each line, safe on a terminal. The bytes of a value are in one line, each as it is written, and
//! behind them what they are as text if the value's type is text; or, with `--json`, each key and each value is an object
//! in a line. A damaged line is printed too, but not as JSON. Standard error gets each damage with its line, from 1, and
//! its unit in that line, from 0, as `line 7, unit 14: fault D83D`. The status is 0, or 1 if anything was reported, or 2
//! after a usage error.
#![tactic(auto)]

ghost use Rattle.std.specs.Prelude.{◌≡◌, true, if◌then◌else◌};

mod form;
mod json;
mod place;
mod print;
mod reader;
mod reports;
mod values;

use crate::form::{form_of_export, is_big_endian, looks_like_utf8};
use crate::reader::Reader;
use crate::reports::Reports;
use crate::values::Bytes;
use std::alloc::Global;
use std::process::ExitCode;
use wide_files::{
    Document, Form, OptionWord, Outcome, Place, Program, Refusal, files_of, form_named, run,
};
use widestring::convert::Scheme;
use widestring::error::OutOfMemory;

static OPTIONS: [OptionWord; 2] = [
    OptionWord {
        name: "--form",
        has_value: true,
    },
    OptionWord {
        name: "--json",
        has_value: false,
    },
];

const HELP: &str = "\
Prints the keys and values of registry exports, .reg files, and reports what is
damaged, with its line, from 1, and its unit in that line, from 0.

  --form FORM  the form of the files: UTF-8, UTF-16, UTF-16LE, UTF-16BE, UTF-32,
               UTF-32LE, UTF-32BE, CP874, CP1250 to CP1258; without it a BOM
               decides, or else the header: a file of REGEDIT4 is CP1252, one of
               version 5 is UTF-8 or UTF-16
  --json       prints an object in a line for each key and each value that is
               not damaged; texts are without the NUL at their end
  --help, --version

For the file - it reads standard input. The exit status is 0, or 1 if anything
was reported, or 2 after a usage error.
";

// How exports are read and printed.
#[derive(Drop)]
struct Registry {
    form: Option<Form>,
    is_json: bool,
}

// Returns the byte that is left at the end of a file in UTF-16.
fn half_at_end(bytes: &[u8], form: Form) -> Option<u8> {
    match form {
        Form::Unicode(Scheme::Utf16 | Scheme::Utf16Le | Scheme::Utf16Be) if bytes.len() % 2 == 1 =>
            { bytes.last().copied() }
        _ => None,
    }
}

impl Program for Registry {
    fn name() -> &'static str {
        "registry"
    }

    fn usage() -> &'static str {
        "registry [--form FORM] [--json] FILE.."
    }

    fn help() -> &'static str {
        HELP
    }

    fn options() -> &'static [OptionWord] {
        &OPTIONS
    }

    fn set(&mut self, option: usize, value: &str) -> Result<bool, OutOfMemory> {
        if option == 1 {
            self.is_json = true;
            return Ok(true);
        }
        self.form = form_named(value);
        Ok(self.form.is_some())
    }

    fn take_words<'a>(
        &mut self,
        words: &'a [String],
    ) -> Result<Result<&'a [String], Refusal<'a>>, OutOfMemory> {
        Ok(files_of(words))
    }

    fn read(
        &mut self,
        alloc: Global,
        bytes: &[u8],
        outcome: &mut Outcome<'_>,
    ) -> Result<(), OutOfMemory> {
        let (form, bom) = match form_of_export(bytes, self.form) {
            Ok(found) => found,
            Err(error) => return Ok(outcome.report(error)?),
        };
        if self.form.is_none() && looks_like_utf8(bytes, form) {
            outcome.note("it looks like UTF-8, which --form UTF-8 reads")?;
        }
        let document = Document::read(alloc, bytes.get(bom..).unwrap_or_default(), form)?;
        if is_big_endian(bytes, form) {
            let place = Place { line: 1, unit: 0 };
            outcome.report_at(place, "the high byte of each unit is first")?;
        }
        let reports = Reports::new(&document.units, &document.bad, half_at_end(bytes, form));
        let mut reader = Reader {
            alloc,
            is_json: self.is_json,
            form,
            bytes: Bytes::Wide,
            key: None,
        };
        reader.read(outcome, &document.units, reports)
    }

    fn status(&self, reported: bool, failed: bool) -> u8
        ensures { result ≡ if reported then 1 else if failed then 1 else 0 }
    {
        u8::from(reported || failed)
    }
}

fn main(rt: HostRuntime) -> ExitCode {
    let registry = Registry {
        form: None,
        is_json: false,
    };
    run(&rt, registry)
}
