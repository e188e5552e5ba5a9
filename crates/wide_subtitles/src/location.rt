//! What a line is behind the lines before it.

ghost use Rattle.std.specs.Prelude.{◌≡◌, None, Some};
ghost use Rattle.wide_subtitles.specs.Kinds.{times_in};
ghost use Rattle.wide_subtitles.specs.Locations.{finding_after, next_after};
ghost use Rattle.wide_subtitles.specs.declared.kinds.Kind.TheVariants.{Blank, Number};

use crate::kinds::Kind;
use crate::times::Times;

/// Where in a subtitle the next line is.
#[derive(Clone, Copy, Debug, PartialEq, Eq)]
pub enum Location {
    /// Before a subtitle.
    Start,
    /// Behind its number.
    Times,
    /// Behind its times.
    Text,
}

/// What is said of a line.
#[derive(Clone, Copy, Debug, PartialEq, Eq)]
pub enum Finding {
    /// A subtitle has no number. Players accept that.
    NoNumber,
    /// A subtitle begins without an empty line before it. Players accept that.
    NoSeparator,
    /// A line should be a number and is none.
    NotNumber,
    /// A line should be times, and is none at this unit.
    NotTimes(usize),
}

/// What follows from a line.
#[derive(Clone, Copy, Debug, PartialEq, Eq)]
pub struct Step {
    /// Where the next line is.
    pub next: Location,
    /// What is said of the line.
    pub finding: Option<Finding>,
    /// The times in the line, if they are those of a subtitle.
    pub times: Option<Times>,
}

impl Location {
    // Returns a step of a line without times.
    fn step(self, finding: Option<Finding>) -> Step
        ensures next { result.next ≡ self }
        ensures finding { result.finding ≡ finding }
        ensures times { result.times ≡ None }
    {
        Step {
            next: self,
            finding,
            times: None,
        }
    }

    // Returns what follows from a line of white space.
    fn after_blank(self) -> Step
        ensures times { result.times ≡ None }
        ensures finding { result.finding ≡ finding_after self Blank }
        ensures next { result.next ≡ next_after self Blank }
    {
        match self {
            Location::Times => Location::Start.step(Some(Finding::NotTimes(0))),
            Location::Start | Location::Text => Location::Start.step(None),
        }
    }

    // Returns what follows from a line of times.
    fn after_times(self, times: Times) -> Step
        ensures times { result.times ≡ Some times }
        ensures finding { result.finding ≡ finding_after self (Kind.Times times) }
        ensures next { result.next ≡ next_after self (Kind.Times times) }
    {
        let finding = match self {
            Location::Start => Some(Finding::NoNumber),
            Location::Times => None,
            Location::Text => Some(Finding::NoSeparator),
        };
        Step {
            next: Location::Text,
            finding,
            times: Some(times),
        }
    }

    // Returns what follows from a number.
    fn after_number(self) -> Step
        ensures times { result.times ≡ None }
        ensures finding { result.finding ≡ finding_after self Number }
        ensures next { result.next ≡ next_after self Number }
    {
        match self {
            Location::Start => Location::Times.step(None),
            Location::Times => Location::Text.step(Some(Finding::NotTimes(0))),
            Location::Text => Location::Text.step(None),
        }
    }

    // Returns what follows from a line of text.
    fn after_text(self) -> Step
        ensures times { result.times ≡ None }
        ensures finding { result.finding ≡ finding_after self Kind.Text }
        ensures next { result.next ≡ next_after self Kind.Text }
    {
        let finding = match self {
            Location::Start => Some(Finding::NotNumber),
            Location::Times => Some(Finding::NotTimes(0)),
            Location::Text => None,
        };
        Location::Text.step(finding)
    }

    /// Returns what follows from a line at this location. Times begin a subtitle wherever they stand, so that none stays
    /// behind when all are moved, and an empty line ends one.
    pub fn after(self, kind: Kind) -> Step
        ensures times { result.times ≡ times_in kind }
        ensures finding { result.finding ≡ finding_after self kind }
        ensures next { result.next ≡ next_after self kind }
    {
        match kind {
            Kind::Blank => self.after_blank(),
            Kind::Times(times) => self.after_times(times),
            Kind::Broken(unit) => Location::Text.step(Some(Finding::NotTimes(unit))),
            Kind::Number => self.after_number(),
            Kind::Text => self.after_text(),
        }
    }
}
