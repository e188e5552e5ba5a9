//! Prints the texts in Windows resources: string tables, message tables, version information, menus and dialogs, of
//! compiled `.res` files and of executables.
//!
//! Standard output gets a line for each text that is not empty: its language in hexadecimal, what it is, its identifier
//! and the text, as in `0409 17: "Open"` of a string table. Standard error reports damage with the file, the number of the
//! resource, from 1, and its offset in bytes, from 0. For ill-formed text it reports the text and each unit, from 0, and
//! does not print it; with `--lossy` it is printed with U+FFFD for each fault. What can be read after damage is read. Notes
//! say how many resources have types without texts, and with `--skipped` which. The status is 1 if anything was reported or
//! a file could not be read, and 2 after a usage error.
#![tactic(auto)]

ghost use Rattle.std.specs.Prelude.{◌≡◌, true, if◌then◌else◌};

mod texts;

use std::alloc::Global;
use std::process::ExitCode;
use texts::{Options, Texts};
use wide_files::{OptionWord, Outcome, Program, Refusal, files_of, run};
use widestring::error::OutOfMemory;

static OPTIONS: [OptionWord; 3] = [
    OptionWord {
        name: "--lossy",
        has_value: false,
    },
    OptionWord {
        name: "--names",
        has_value: false,
    },
    OptionWord {
        name: "--skipped",
        has_value: false,
    },
];

const HELP: &str = "\
Prints the texts in the resources of .res files and of executables: strings,
messages, versions, menus and dialogs.

  --lossy      prints ill-formed texts with U+FFFD for each fault
  --names      prints the names of languages, such as en-US, where they are known
  --skipped    notes each resource of a type without texts
  --help, --version

Standard error reports damage by resource and byte, and notes how many resources
have types without texts. The exit status is 1 if anything was reported, and 2 if
the arguments are wrong. A note does not change it.
";

// What is printed.
#[derive(Drop)]
struct Resources {
    options: Options,
}

impl Program for Resources {
    fn name() -> &'static str {
        "resources"
    }

    fn usage() -> &'static str {
        "resources [--lossy] [--names] [--skipped] FILE.."
    }

    fn help() -> &'static str {
        HELP
    }

    fn options() -> &'static [OptionWord] {
        &OPTIONS
    }

    fn set(&mut self, option: usize, _value: &str) -> Result<bool, OutOfMemory> {
        match option {
            0 => self.options.is_lossy = true,
            1 => self.options.has_names = true,
            _ => self.options.tells_skipped = true,
        }
        Ok(true)
    }

    fn take_words<'a>(
        &mut self,
        words: &'a [String],
    ) -> Result<Result<&'a [String], Refusal<'a>>, OutOfMemory> {
        Ok(files_of(words))
    }

    fn read(
        &mut self,
        alloc: Global,
        bytes: &[u8],
        outcome: &mut Outcome<'_>,
    ) -> Result<(), OutOfMemory> {
        Texts::new(alloc, self.options).read(bytes, outcome)
    }

    fn status(&self, reported: bool, failed: bool) -> u8
        ensures { result ≡ if reported then 1 else if failed then 1 else 0 }
    {
        u8::from(reported || failed)
    }
}

fn main(rt: HostRuntime) -> ExitCode {
    let options = Options {
        is_lossy: false,
        has_names: false,
        tells_skipped: false,
    };
    run(&rt, Resources { options })
}
