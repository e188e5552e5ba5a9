//! Runs a program on files.

use crate::outcome::Outcome;
use crate::shown::ShownText;
use crate::words::{OptionWord, Refusal, Words, option_of_letter, words_of};
use std::alloc::Global;
use std::fmt::{Display, Write as FmtWrite};
use std::io::{Read, Write};
use std::process::ExitCode;
use std::{env, fs, io};
use wide_error::OutOfMemory;

// The exit status after a usage error.
const WRONG_USAGE: u8 = 2;

/// A program that reads files, one after the other.
pub trait Program: Drop {
    /// Returns the program's name.
    fn name() -> &'static str;

    /// Returns what a usage error prints after its reason, and `--help` first.
    fn usage() -> &'static str;

    /// Returns what else `--help` prints.
    fn help() -> &'static str;

    /// Returns the options, without `--help` and `--version`.
    fn options() -> &'static [OptionWord];

    /// Takes the option of this index with its value, and returns whether it can have this value.
    ///
    /// # Errors
    ///
    /// If an allocation fails.
    fn set(&mut self, option: usize, value: &str) -> Result<bool, OutOfMemory>;

    /// Takes the words that are no files, and returns the files, or why the words are refused.
    ///
    /// # Errors
    ///
    /// If an allocation fails.
    fn take_words<'a>(
        &mut self,
        words: &'a [String],
    ) -> Result<Result<&'a [String], Refusal<'a>>, OutOfMemory>;

    /// Adds what the program writes for the bytes of a file.
    ///
    /// # Errors
    ///
    /// If an allocation fails.
    fn read(
        &mut self,
        alloc: Global,
        bytes: &[u8],
        outcome: &mut Outcome<'_>,
    ) -> Result<(), OutOfMemory>;

    /// Returns the exit status after all files: `reported` says whether anything was reported of one, and `failed`
    /// whether one could not be read.
    fn status(&self, reported: bool, failed: bool) -> u8;
}

// What the arguments ask for.
enum Asked<'a> {
    Files(&'a [String]),
    Help,
    Version,
    Refused(Refusal<'a>),
}

// Gives a program its options of one letter.
fn set_letters<P: Program>(program: &mut P, letters: &str) -> Result<(), OutOfMemory> {
    for letter in letters.chars() {
        if let Some(option) = option_of_letter(P::options(), letter) {
            let _is_taken = program.set(option, "")?;
        }
    }
    Ok(())
}

// Gives the options and the words to a program, and returns what the arguments ask for.
fn parse<'a, P: Program>(
    program: &mut P,
    arguments: &'a [String],
) -> Result<Asked<'a>, OutOfMemory> {
    let mut rest = arguments;
    for _ in 0..=arguments.len() {
        if let [first, ..] = rest {
            match first.as_str() {
                "-h" | "--help" => return Ok(Asked::Help),
                "--version" => return Ok(Asked::Version),
                _ => {}
            }
        }
        match words_of(P::options(), rest) {
            Words::Option(option, name, value, others) => {
                if !program.set(option, value)? {
                    return Ok(Asked::Refused(Refusal::WrongValue(name, value)));
                }
                rest = others;
            }
            Words::Letters(letters, others) => {
                set_letters(program, letters)?;
                rest = others;
            }
            Words::Rest(words) => {
                return Ok(match program.take_words(words)? {
                    Ok(files) => Asked::Files(files),
                    Err(refusal) => Asked::Refused(refusal),
                });
            }
            Words::Refused(refusal) => return Ok(Asked::Refused(refusal)),
        }
    }
    Ok(Asked::Refused(Refusal::NoWord("FILE")))
}

// Writes a line on standard error. A failure is ignored.
fn report<P: Program, T: Display + Drop>(rt: &HostRuntime, what: T) {
    let _ = eprintln!(rt; "{}: {what}", P::name());
}

// Returns the bytes of a file, or those of standard input if its name is `-`.
fn bytes_of(rt: &HostRuntime, file: &str) -> io::Result<Vec<u8>> {
    if file != "-" {
        return fs::read(rt, file);
    }
    let mut bytes = Vec::new(rt.alloc());
    let _len = rt.stdin().read_to_end(&mut bytes)?;
    Ok(bytes)
}

// What happened to the files.
#[derive(Clone, Copy)]
struct Done {
    // Whether anything was reported of one.
    reported: bool,
    // Whether one could not be read.
    failed: bool,
}

// Reads one file. The name precedes its reports if there are several files.
fn run_file<P: Program>(
    rt: &HostRuntime,
    program: &mut P,
    file: &str,
    is_one: bool,
) -> io::Result<Done> {
    let bytes = match bytes_of(rt, file) {
        Ok(bytes) => bytes,
        Err(error) => {
            report::<P, _>(rt, format_args!("{}: {error}", ShownText(file)));
            return Ok(Done {
                reported: false,
                failed: true,
            });
        }
    };
    let mut outcome = Outcome::new(rt.alloc(), if is_one { "" } else { file });
    program.read(rt.alloc(), &bytes, &mut outcome)?;
    rt.stdout().write_all(outcome.output.as_bytes())?;
    rt.stdout().write_all(&outcome.bytes)?;
    rt.stderr().write_all(outcome.notes.as_bytes())?;
    rt.stderr().write_all(outcome.reported.as_bytes())?;
    Ok(Done {
        reported: !outcome.reported.is_empty(),
        failed: false,
    })
}

// Reads the files, and returns the exit status.
fn run_files<P: Program>(rt: &HostRuntime, program: &mut P, files: &[String]) -> io::Result<u8> {
    let mut done = Done {
        reported: false,
        failed: false,
    };
    for file in files {
        let one = run_file(rt, program, file.as_str(), files.len() == 1)?;
        done.reported |= one.reported;
        done.failed |= one.failed;
    }
    rt.stdout().flush()?;
    Ok(program.status(done.reported, done.failed))
}

// Does what the arguments ask for, and returns the exit status.
fn run_words<P: Program>(rt: &HostRuntime, program: &mut P) -> io::Result<u8> {
    let mut arguments = Vec::new(rt.alloc());
    for argument in env::args(rt)?.skip(1) {
        arguments.push(argument)?;
    }
    match parse(program, &arguments)? {
        Asked::Files(files) => run_files(rt, program, files),
        Asked::Help => {
            print!(rt; "usage: {}\n\n{}", P::usage(), P::help())?;
            Ok(0)
        }
        Asked::Version => {
            println!(rt; "{} 0.2.0", P::name())?;
            Ok(0)
        }
        Asked::Refused(refusal) => {
            report::<P, _>(rt, refusal);
            let _ = eprintln!(rt; "usage: {}", P::usage());
            Ok(WRONG_USAGE)
        }
    }
}

/// Runs a program on the files that its arguments name, and returns its exit status. Without memory, or if standard
/// output fails, the status is 2.
pub fn run<P: Program>(rt: &HostRuntime, program: P) -> ExitCode {
    let mut program = program;
    match run_words(rt, &mut program) {
        Ok(status) => ExitCode::from(status),
        Err(error) => {
            report::<P, _>(rt, error);
            ExitCode::from(WRONG_USAGE)
        }
    }
}
