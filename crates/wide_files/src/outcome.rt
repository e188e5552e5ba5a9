//! What a program writes for a file.

ghost use Rattle.std.specs.Prelude.{◌≡◌, ◌<◌, ◌≤◌, string_len};

use crate::shown::ShownText;
use std::alloc::{AllocError, Global};
use std::fmt::{Display, Write};

/// A place in a text.
#[derive(Clone, Copy, Debug, PartialEq, Eq)]
pub struct Place {
    /// The number of its line, from 1.
    pub line: usize,
    /// The index of its unit in that line, from 0.
    pub unit: usize,
}

/// What a program writes for a file: its output, and what it reports.
#[derive(Drop)]
pub struct Outcome<'a> {
    /// The name of the file, which precedes each report, or nothing if there is only one file. It may have any
    /// characters: [`ShownText`](crate::ShownText) makes it safe on a terminal.
    pub file: &'a str,
    /// The output.
    pub output: String,
    /// What follows it, in another form.
    pub bytes: Vec<u8>,
    /// The reports, a line each.
    pub reported: String,
    /// What is said beside them and does not change the status, a line each.
    pub notes: String,
}

impl<'a> Outcome<'a> {
    /// Returns an outcome without output or reports.
    pub fn new(alloc: Global, file: &'a str) -> Outcome<'a>
        ensures output { string_len result.output ≡ 0 }
        ensures reported { string_len result.reported ≡ 0 }
    {
        Outcome {
            file,
            output: String::new(alloc),
            bytes: Vec::new(alloc),
            reported: String::new(alloc),
            notes: String::new(alloc),
        }
    }

    /// Reports something about the file.
    ///
    /// # Errors
    ///
    /// If an allocation fails.
    pub fn report<T: Display + Drop>(&mut self, what: T) -> Result<(), AllocError> {
        if self.file.is_empty() {
            writeln!(self.reported, "{what}")
        } else {
            writeln!(self.reported, "{}: {what}", ShownText(self.file))
        }
    }

    /// Reports something about a place.
    ///
    /// # Errors
    ///
    /// If an allocation fails.
    pub fn report_at<T: Display + Drop>(
        &mut self,
        place: Place,
        what: T,
    ) -> Result<(), AllocError> {
        let Place { line, unit } = place;
        self.report(format_args!("line {line}, unit {unit}: {what}"))
    }

    /// Notes something about the file, which does not change the status.
    ///
    /// # Errors
    ///
    /// If an allocation fails.
    pub fn note<T: Display + Drop>(&mut self, what: T) -> Result<(), AllocError> {
        let separator = if self.file.is_empty() { "" } else { ": " };
        writeln!(
            self.notes,
            "{}{separator}note: {what}",
            ShownText(self.file)
        )
    }

    /// Notes something about a place, which does not change the status.
    ///
    /// # Errors
    ///
    /// If an allocation fails.
    pub fn note_at(&mut self, place: Place, what: &str) -> Result<(), AllocError> {
        let Place { line, unit } = place;
        let separator = if self.file.is_empty() { "" } else { ": " };
        writeln!(
            self.notes,
            "{}{separator}line {line}, unit {unit}: note: {what}",
            ShownText(self.file)
        )
    }
}
