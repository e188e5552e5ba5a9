//! Writes answers in the form of the data, with a space between two words.
use crate::parse::{FromHex, NoAnswer};
use std::alloc::{AllocError, Allocator, Global};
use std::cmp::Ordering;
use std::fmt::Write;
use wide_error::{DecodeUtf16Error, DecodeUtf32Error, OutOfMemory};
use wide_unit::Unit;
use wide_utferror::{ContainsNul, FaultUnit, UtfError};

/// A unit that can be parsed, and read from its fault.
pub trait ReportedUnit: FaultUnit + FromHex + PartialEq + 'static {
    /// Returns the number of the unit that a fault reports.
    fn reported(fault: Self::Fault) -> u32;
}

impl ReportedUnit for u16 {
    fn reported(fault: DecodeUtf16Error) -> u32 {
        u32::from(fault.unpaired_surrogate())
    }
}

impl ReportedUnit for u32 {
    fn reported(fault: DecodeUtf32Error) -> u32 {
        fault.invalid_code_point()
    }
}

/// An answer that is being written. Once a write or the question has failed, there is no answer in the end.
///
/// A function that adds to an answer returns nothing, and records by `fail` why there is no answer. So the function
/// holds nothing when it returns early, which makes it cheap to prove.
#[derive(Drop)]
pub struct Answer {
    text: String,
    failure: Option<NoAnswer>,
}

impl Answer {
    /// Creates an empty answer.
    pub fn new(alloc: Global) -> Answer {
        Answer {
            text: String::new(alloc),
            failure: None,
        }
    }

    /// Records why there is no answer. Only the first reason is recorded.
    pub fn fail(&mut self, why: NoAnswer) {
        if self.failure.is_none() {
            self.failure = Some(why);
        }
    }

    /// Returns whether there is no answer.
    pub fn has_failed(&self) -> bool {
        self.failure.is_some()
    }

    // Records whether a write failed.
    fn note(&mut self, written: Result<(), AllocError>) {
        if written.is_err() {
            self.fail(NoAnswer::OutOfMemory);
        }
    }

    /// Records the failure of a call that returns nothing else.
    pub fn done(&mut self, called: Result<(), OutOfMemory>) {
        if called.is_err() {
            self.fail(NoAnswer::OutOfMemory);
        }
    }

    /// Adds a word.
    pub fn word(&mut self, word: &str) {
        let written = self.text.push_str(word);
        self.note(written);
    }

    // Adds a number in hexadecimal.
    fn hex(&mut self, number: u64) {
        let written = write!(self.text, "{number:X}");
        self.note(written);
    }

    // Adds a space, except at the start of a field.
    fn gap(&mut self) {
        if !self.text.is_empty() && !self.text.ends_with(';') {
            self.word(" ");
        }
    }

    /// Begins the next field of an answer.
    pub fn part(&mut self) {
        self.word(";");
    }

    // Adds a character in hexadecimal, or an ill-formed unit after a `!`.
    fn read<C: ReportedUnit>(&mut self, read: Result<char, C::Fault>) {
        match read {
            Ok(c) => self.hex(u64::from(u32::from(c))),
            Err(fault) => {
                self.word("!");
                self.hex(u64::from(C::reported(fault)));
            }
        }
    }

    /// Adds an item: a character in hexadecimal, an ill-formed unit after a `!`, or a `-` for none.
    pub fn item<C: ReportedUnit>(&mut self, item: Option<Result<char, C::Fault>>) {
        self.gap();
        match item {
            None => self.word("-"),
            Some(read) => self.read::<C>(read),
        }
    }

    /// Adds an item with its index before it, or a `-` for none, and after it a `@` and the offset that the iterator
    /// then reports.
    pub fn position<C: ReportedUnit>(
        &mut self,
        position: Option<(usize, Result<char, C::Fault>)>,
        offset: usize,
    ) {
        self.gap();
        match position {
            None => self.word("-"),
            Some((index, read)) => {
                self.hex(index as u64);
                self.word(":");
                self.read::<C>(read);
            }
        }
        self.word("@");
        self.hex(offset as u64);
    }

    /// Adds the index, the item number and the unit of a first fault.
    pub fn first_fault<C: ReportedUnit, A: Allocator>(&mut self, fault: &UtfError<C, A>) {
        self.reported_fault(fault.index(), fault.item(), C::reported(fault.cause()));
    }

    /// Adds the index, the item number and the unit of a first fault that has no error value of its own.
    pub fn reported_fault(&mut self, index: usize, item: usize, unit: u32) {
        self.fault_offset(index, item);
        self.word(":");
        self.hex(u64::from(unit));
    }

    /// Adds the index and the item number of a first fault.
    pub fn fault_at<C: ReportedUnit, A: Allocator>(&mut self, fault: &UtfError<C, A>) {
        self.fault_offset(fault.index(), fault.item());
    }

    // Adds an index and an item number after a `!`.
    fn fault_offset(&mut self, index: usize, item: usize) {
        self.gap();
        self.word("!");
        self.hex(index as u64);
        self.word(":");
        self.hex(item as u64);
    }

    /// Adds a number in hexadecimal, or a `-` for none.
    pub fn number(&mut self, number: Option<u32>) {
        self.gap();
        match number {
            None => self.word("-"),
            Some(number) => self.hex(u64::from(number)),
        }
    }

    /// Adds an offset or a length in hexadecimal, or a `-` for none.
    pub fn count(&mut self, count: Option<usize>) {
        self.gap();
        match count {
            None => self.word("-"),
            Some(count) => self.hex(count as u64),
        }
    }

    /// Adds a `1` for true, or a `0` for false.
    pub fn decided(&mut self, holds: bool) {
        self.gap();
        self.word(if holds { "1" } else { "0" });
    }

    /// Adds a character in hexadecimal, or a `-` for none.
    pub fn character(&mut self, c: Option<char>) {
        self.number(c.map(u32::from));
    }

    /// Adds the characters of a text in hexadecimal.
    pub fn text(&mut self, text: &str) {
        for c in text.chars() {
            self.character(Some(c));
        }
    }

    /// Adds bytes in hexadecimal.
    pub fn bytes(&mut self, bytes: &[u8]) {
        for byte in bytes {
            self.number(Some(u32::from(*byte)));
        }
    }

    /// Adds an ordering: `<`, `=` or `>`.
    pub fn order(&mut self, order: Ordering) {
        self.gap();
        self.word(match order {
            Ordering::Less => "<",
            Ordering::Equal => "=",
            Ordering::Greater => ">",
        });
    }

    /// Adds a unit in hexadecimal, or a `-` for none.
    pub fn unit<C: Unit>(&mut self, unit: Option<C>) {
        match unit {
            None => self.number(None),
            Some(unit) => self.number(Some(unit.code())),
        }
    }

    /// Adds units in hexadecimal.
    pub fn units<C: Unit>(&mut self, units: &[C]) {
        for unit in units {
            self.number(Some(unit.code()));
        }
    }

    /// Adds units in hexadecimal, or a `-` for none.
    pub fn units_or_none<C: Unit>(&mut self, units: Option<&[C]>) {
        match units {
            None => self.number(None),
            Some(units) => self.units(units),
        }
    }

    /// Adds bounds on a number of items: the lower one, a comma, and the upper one or a `-` for none.
    pub fn bounds(&mut self, (lower, upper): (usize, Option<usize>)) {
        self.gap();
        self.hex(lower as u64);
        self.word(",");
        match upper {
            None => self.word("-"),
            Some(upper) => self.hex(upper as u64),
        }
    }

    /// Adds the offset of an inner NUL after a `!`, and as a second field the units of the vector that the error
    /// returns, or a `-` for none.
    pub fn inner_nul<C: Unit, A: Allocator>(&mut self, error: ContainsNul<C, A>) {
        self.gap();
        self.word("!");
        self.hex(error.nul_position() as u64);
        self.part();
        self.handed_back(error.into_vec());
    }

    /// Adds the units of a vector that an error returns, or a `-` for none.
    pub fn handed_back<C: Unit, A: Allocator>(&mut self, vec: Option<Vec<C, A>>) {
        match vec {
            None => self.number(None),
            Some(units) => self.units(&units),
        }
    }

    /// Adds a number of requests after a `#`.
    pub fn requests(&mut self, requests: u64) {
        self.word("#");
        self.hex(requests);
    }

    /// Returns the whole answer, or why there is none.
    pub fn finish(self) -> Result<String, NoAnswer> {
        match self.failure {
            None => Ok(self.text),
            Some(why) => Err(why),
        }
    }
}
