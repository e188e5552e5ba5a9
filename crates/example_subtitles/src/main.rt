//! Moves the times of subtitles, a `.srt` file in any form of Unicode or in a code page, by a number of milliseconds:
//! `+1500` or `-1500`. All other text is unchanged, also ends of lines, but what is ill formed becomes U+FFFD, or, with
//! `--drop`, its lines are left out. Standard output gets the form of the input, or that of `--to`.
//!
//! Standard error has, with the line, from 1, and the unit, from 0: faults, lines that are left out, times that would be
//! before 0, and lines that should be a number or times and are not. Then the status is 1. Notes on what players accept
//! as well do not change it. It is 2 after a usage error.
#![tactic(auto)]

ghost use Rattle.std.specs.Prelude.{◌≡◌, true, if◌then◌else◌};

mod subtitles;

use std::alloc::Global;
use std::process::ExitCode;
use subtitles::{Request, Subtitles};
use wide_files::{
    Document, Form, NoForm, OptionWord, Outcome, Place, Program, Refusal, bom_len, encode_units,
    files_of, form_named, form_of, run, scheme_named,
};
use widestring::convert::Scheme;
use widestring::error::OutOfMemory;

static OPTIONS: [OptionWord; 3] = [
    OptionWord {
        name: "--form",
        has_value: true,
    },
    OptionWord {
        name: "--to",
        has_value: true,
    },
    OptionWord {
        name: "--drop",
        has_value: false,
    },
];

const HELP: &str = "\
Moves the times of the subtitles in a .srt file by MILLISECONDS, such as +1500 or
-1500, and writes the file.

  --form FORM  the form of the file: UTF-8, UTF-16, UTF-16LE, UTF-16BE, UTF-32,
               UTF-32LE, UTF-32BE, CP874, CP1250 to CP1258; without it a BOM or
               the first digit decides
  --to FORM    the form to write, which is otherwise that of the file; a file in a
               code page becomes UTF-8
  --drop       leaves out lines that are ill formed, in place of writing U+FFFD
  --help, --version

For the file - it reads standard input. Times are written as 00:00:01,000; one that
would be before 0 becomes 0. Standard error has what is wrong in the file, by line
and unit, and the status is then 1. Notes are about what players accept as well.
";

// What is asked for.
#[derive(Drop)]
struct Moving {
    form: Option<Form>,
    to: Option<Scheme>,
    request: Request,
}

// Returns the form of a file, and the length of its BOM in bytes. Without a BOM the first digit may tell the form.
fn form_of_file(bytes: &[u8], asked: Option<Form>) -> Result<(Form, usize), NoForm> {
    match (asked, bytes) {
        (None, [b'0'..=b'9', 0, 0, 0, ..]) => Ok((Form::Unicode(Scheme::Utf32Le), 0)),
        (None, [0, 0, 0, b'0'..=b'9', ..]) => Ok((Form::Unicode(Scheme::Utf32Be), 0)),
        (None, [b'0'..=b'9', 0, ..]) => Ok((Form::Unicode(Scheme::Utf16Le), 0)),
        (None, [0, b'0'..=b'9', ..]) => Ok((Form::Unicode(Scheme::Utf16Be), 0)),
        _ => form_of(bytes, asked, Scheme::Utf8),
    }
}

// Returns whether a file in UTF-16 or UTF-32 begins with a BOM.
fn has_bom_of(bytes: &[u8], scheme: Scheme) -> bool {
    let (little, big) = match scheme {
        Scheme::Utf32 => (Scheme::Utf32Le, Scheme::Utf32Be),
        _ => (Scheme::Utf16Le, Scheme::Utf16Be),
    };
    bom_len(bytes, little) > 0 || bom_len(bytes, big) > 0
}

// Returns the scheme that is written for a file in a form, and whether it has a BOM: a code page becomes UTF-8, and a
// file whose BOM told its order is written in that order.
fn target_of(bytes: &[u8], form: Form, to: Option<Scheme>) -> (Scheme, bool) {
    let has_bom = match form {
        Form::Windows(_) => false,
        Form::Unicode(scheme @ (Scheme::Utf16 | Scheme::Utf32)) => has_bom_of(bytes, scheme),
        Form::Unicode(scheme) => bom_len(bytes, scheme) > 0,
    };
    let scheme = match (to, form) {
        (Some(scheme), _) => scheme,
        (None, Form::Unicode(Scheme::Utf16)) if bytes.starts_with(b"\xfe\xff") => Scheme::Utf16Be,
        (None, Form::Unicode(Scheme::Utf32)) if bytes.starts_with(b"\0\0\xfe\xff") =>
            Scheme::Utf32Be,
        (None, Form::Unicode(scheme)) => scheme,
        (None, Form::Windows(_)) => Scheme::Utf8,
    };
    (scheme, has_bom)
}

// Parses a number of milliseconds, with a sign or without.
fn milliseconds_of(word: &str) -> Option<(u32, bool)> {
    let earlier = word.strip_prefix('-');
    let digits = earlier.or(word.strip_prefix('+')).unwrap_or(word);
    if digits.is_empty() || !digits.bytes().all(|digit| digit.is_ascii_digit()) {
        return None;
    }
    Some((digits.parse().ok()?, earlier.is_some()))
}

impl Program for Moving {
    fn name() -> &'static str {
        "subtitles"
    }

    fn usage() -> &'static str {
        "subtitles [--form FORM] [--to FORM] [--drop] FILE MILLISECONDS [drop]"
    }

    fn help() -> &'static str {
        HELP
    }

    fn options() -> &'static [OptionWord] {
        &OPTIONS
    }

    fn set(&mut self, option: usize, value: &str) -> Result<bool, OutOfMemory> {
        match option {
            0 => self.form = form_named(value),
            1 => self.to = scheme_named(value),
            _ => self.request.drops = true,
        }
        Ok(match option {
            0 => self.form.is_some(),
            1 => self.to.is_some(),
            _ => true,
        })
    }

    fn take_words<'a>(
        &mut self,
        words: &'a [String],
    ) -> Result<Result<&'a [String], Refusal<'a>>, OutOfMemory> {
        let [_file, number, others @ ..] = words else {
            return Ok(files_of(words).and(Err(Refusal::NoWord("MILLISECONDS"))));
        };
        let Some((by, is_earlier)) = milliseconds_of(number.as_str()) else {
            return Ok(Err(Refusal::WrongWord(number.as_str(), "number of milliseconds")));
        };
        self.request.by = by;
        self.request.is_earlier = is_earlier;
        let rest = match others {
            [word, rest @ ..] if word.as_str() == "drop" => {
                self.request.drops = true;
                rest
            }
            rest => rest,
        };
        Ok(match rest {
            [word, ..] => Err(Refusal::ExtraWord(word.as_str())),
            [] => Ok(&words[..1]),
        })
    }

    fn read(
        &mut self,
        alloc: Global,
        bytes: &[u8],
        outcome: &mut Outcome<'_>,
    ) -> Result<(), OutOfMemory> {
        let (form, bom) = match form_of_file(bytes, self.form) {
            Ok(found) => found,
            Err(error) => return Ok(outcome.report(error)?),
        };
        let document = Document::read(alloc, bytes.get(bom..).unwrap_or_default(), form)?;
        let mut subtitles = Subtitles::new(alloc, self.request);
        subtitles.read(&document, outcome)?;
        let (scheme, has_bom) = target_of(bytes, form, self.to);
        outcome.bytes = encode_units(alloc, subtitles.as_units(), scheme, has_bom)?;
        Ok(())
    }

    fn status(&self, reported: bool, failed: bool) -> u8
        ensures { result ≡ if reported then 1 else if failed then 1 else 0 }
    {
        u8::from(reported || failed)
    }
}

fn main(rt: HostRuntime) -> ExitCode {
    let moving = Moving {
        form: None,
        to: None,
        request: Request {
            by: 0,
            is_earlier: false,
            drops: false,
        },
    };
    run(&rt, moving)
}
