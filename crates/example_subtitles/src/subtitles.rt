//! Reads subtitles line by line, and moves their times.

ghost use Rattle.std.specs.Prelude.{◌≡◌, ◌++◌, OnOk};
ghost use Rattle.widestring.specs.EncodingForm.{Utf16, encode};
ghost use Rattle.widestring.specs.Items.{IsWellFormed, items};
ghost use Rattle.widestring.specs.Lossy.{lossy};
ghost use Rattle.widestring.specs.UnitView.{units_seen};

use std::alloc::{AllocError, Global};
use std::fmt::Display;
use wide_files::{BadBytes, Document, Outcome, Place, Quoted};
use wide_subtitles::{Finding, Line, Location, Time, Times, first_line, kind_of, move_time};
use widestring::edit::{Edit, run as run_edits};
use widestring::error::OutOfMemory;
use widestring::{U16Str, Utf16String};

/// How times are moved.
#[derive(Clone, Copy)]
pub struct Request {
    /// By how many milliseconds.
    pub by: u32,
    /// Whether they become earlier.
    pub is_earlier: bool,
    /// Whether lines that are ill formed are left out.
    pub drops: bool,
}

// Which notes were written.
#[derive(Clone, Copy)]
struct Noted {
    numbers: bool,
    separators: bool,
    times: bool,
}

/// Subtitles that are read, and the text of those that were moved.
#[derive(Drop)]
pub struct Subtitles {
    alloc: Global,
    request: Request,
    text: Utf16String,
    location: Location,
    line: usize,
    noted: Noted,
}

// Appends units to a text, with U+FFFD in place of each fault.
fn push_units(alloc: Global, text: &mut Utf16String, units: U16Str<'_>) -> Result<(), OutOfMemory>
    ensures lossy { OnOk result (text.new.units ≡ text.old.units ++ encode Utf16 (lossy (items Utf16 (units_seen units.entry)))) }
    ensures same { IsWellFormed Utf16 (units_seen units.entry) → OnOk result (text.new.units ≡ text.old.units ++ units_seen units.entry) }
{
    text.push_utfstr(Utf16String::from_ustr_lossy(alloc, units)?.as_utfstr())
}

// Returns a time as it is written.
fn time_text(alloc: Global, time: u64) -> Result<String, AllocError> {
    let (hours, minutes, seconds) = (time / 3_600_000, time / 60_000 % 60, time / 1000 % 60);
    format!(in alloc; "{hours:02}:{minutes:02}:{seconds:02},{:03}", time % 1000)
}

impl Subtitles {
    /// Returns subtitles of which nothing was read.
    pub fn new(alloc: Global, request: Request) -> Subtitles {
        Subtitles {
            alloc,
            request,
            text: Utf16String::new(alloc),
            location: Location::Start,
            line: 0,
            noted: Noted {
                numbers: false,
                separators: false,
                times: false,
            },
        }
    }

    /// Returns the units of the text that was moved.
    pub fn as_units(&self) -> &[u16] {
        self.text.as_slice()
    }

    fn report<T: Display + Drop>(
        &self,
        outcome: &mut Outcome<'_>,
        unit: usize,
        what: T,
    ) -> Result<(), AllocError> {
        let line = self.line;
        outcome.report_at(Place { line, unit }, what)
    }

    fn note(&self, outcome: &mut Outcome<'_>, what: &str) -> Result<(), AllocError> {
        let (line, unit) = (self.line, 0);
        outcome.note_at(Place { line, unit }, what)
    }

    // Says what is found in a line. What players accept is noted once.
    fn tell(&mut self, outcome: &mut Outcome<'_>, finding: Finding) -> Result<(), AllocError> {
        match finding {
            Finding::NotNumber => self.report(outcome, 0, "no number"),
            Finding::NotTimes(unit) => self.report(outcome, unit, "no times"),
            Finding::NoNumber if !self.noted.numbers => {
                self.noted.numbers = true;
                self.note(outcome, "a subtitle without a number")
            }
            Finding::NoSeparator if !self.noted.separators => {
                self.noted.separators = true;
                self.note(outcome, "a subtitle without an empty line before it")
            }
            Finding::NoNumber | Finding::NoSeparator => Ok(()),
        }
    }

    // Returns the text of a moved time, and reports if it would be before 0.
    fn move_time(
        &self,
        outcome: &mut Outcome<'_>,
        time: Time,
        unit: usize,
        what: &str,
    ) -> Result<String, OutOfMemory> {
        let moved = move_time(time, self.request.by, self.request.is_earlier);
        if moved.is_cut {
            self.report(outcome, unit, format_args!("{what} at 0, not before"))?;
        }
        Ok(time_text(self.alloc, moved.time)?)
    }

    // Replaces the times of a line by the moved ones.
    fn move_times(
        &mut self,
        outcome: &mut Outcome<'_>,
        line: &mut Utf16String,
        times: Times,
    ) -> Result<(), OutOfMemory> {
        if !(times.begin.is_usual && times.end.is_usual) && !self.noted.times {
            self.noted.times = true;
            self.note(outcome, "times are written as 00:00:01,000")?;
        }
        let begin = self.move_time(outcome, times.begin, times.first, "begins")?;
        let end = self.move_time(outcome, times.end, times.second, "ends")?;
        // All units up to the end of the second time are ASCII, so offsets in characters are offsets in units. The later
        // time is replaced first.
        let edits = [
            Edit::Replace(times.second, times.second_end, &end),
            Edit::Replace(times.first, times.first_end, &begin),
        ];
        let ran = run_edits(self.alloc, line, &edits, &mut Vec::new(self.alloc));
        ran.map_err(|_stopped| OutOfMemory)
    }

    // Reports the faults of a line, and returns whether it has none. `bad` has those of bytes, whose place is in the whole
    // text, in which the line begins at `start`.
    fn report_faults(
        &self,
        outcome: &mut Outcome<'_>,
        units: U16Str<'_>,
        bad: &[BadBytes],
        start: usize,
    ) -> Result<bool, AllocError> {
        let mut is_valid = true;
        for (unit, item) in units.char_indices() {
            if let Err(fault) = item {
                is_valid = false;
                let surrogate = fault.unpaired_surrogate();
                self.report(outcome, unit, format_args!("fault {surrogate:04X}"))?;
            }
        }
        for bytes in bad {
            is_valid = false;
            self.report(outcome, bytes.unit.saturating_sub(start), *bytes)?;
        }
        Ok(is_valid)
    }

    // Adds a line and its end.
    fn add_line(
        &mut self,
        outcome: &mut Outcome<'_>,
        line: Line<'_>,
        bad: &[BadBytes],
        start: usize,
    ) -> Result<(), OutOfMemory> {
        self.line = self.line.saturating_add(1);
        let units = U16Str::from_slice(line.text);
        let is_valid = self.report_faults(outcome, units, bad, start)?;
        let mut text = Utf16String::new(self.alloc);
        push_units(self.alloc, &mut text, units)?;
        let step = self.location.after(kind_of(line.text));
        self.location = step.next;
        if let Some(finding) = step.finding {
            self.tell(outcome, finding)?;
        }
        if let Some(times) = step.times {
            self.move_times(outcome, &mut text, times)?;
        }
        if !is_valid && self.request.drops {
            let what = format_args!("left out, {}", Quoted(units));
            return Ok(self.report(outcome, 0, what)?);
        }
        self.text.push_utfstr(text.as_utfstr())?;
        push_units(self.alloc, &mut self.text, U16Str::from_slice(line.end))
    }

    /// Adds the subtitles of a file.
    ///
    /// # Errors
    ///
    /// If an allocation fails.
    pub fn read(
        &mut self,
        document: &Document,
        outcome: &mut Outcome<'_>,
    ) -> Result<(), OutOfMemory> {
        let mut rest = document.units.as_slice();
        let bad = document.bad.as_slice();
        let (mut start, mut unit, mut told) = (0usize, 0, 0usize);
        for _ in 0..document.units.len() {
            let Some((line, tail)) = first_line(rest) else {
                break;
            };
            let next = start.saturating_add(rest.len().saturating_sub(tail.len()));
            let left = bad.get(told..).unwrap_or_default();
            let count = left.iter().take_while(|bytes| bytes.unit < next).count();
            let of_line = left.get(..count).unwrap_or_default();
            self.add_line(outcome, line, of_line, start)?;
            unit = if line.end.is_empty() {
                line.text.len()
            } else {
                0
            };
            (rest, start, told) = (tail, next, told.saturating_add(count));
        }
        if unit == 0 {
            self.line = self.line.saturating_add(1);
        }
        if self.location == Location::Times {
            self.report(outcome, unit, "no times")?;
        }
        for bytes in bad.get(told..).unwrap_or_default() {
            self.report(outcome, unit, *bytes)?;
        }
        Ok(())
    }
}
