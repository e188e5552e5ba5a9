//! Reports the damages of an export, each with its place.

use crate::place::place_after;
use std::alloc::AllocError;
use wide_files::{BadBytes, Outcome, Place, Shown};
use wide_registry::{Damage, Kind};
use widestring::U16Str;

// The place up to which a text has been reported, and what was.
#[derive(Clone, Copy)]
pub struct Reports<'a> {
    text: &'a [u16],
    // The index of the unit at the place.
    offset: usize,
    place: Place,
    // The bytes that are no text of the file's form, and have not been reported.
    bad: &'a [BadBytes],
    // The byte that is left at the end of a file in UTF-16.
    half: Option<u8>,
    has_feed: bool,
    has_return: bool,
}

impl<'a> Reports<'a> {
    pub fn new(text: &'a [u16], bad: &'a [BadBytes], half: Option<u8>) -> Reports<'a> {
        Reports {
            text,
            offset: 0,
            place: Place { line: 1, unit: 0 },
            bad,
            half,
            has_feed: false,
            has_return: false,
        }
    }

    // Returns the place of a unit that is not before what has been reported.
    fn place_of(&mut self, offset: usize) -> Place {
        let between = self.text.get(self.offset..offset).unwrap_or_default();
        self.place = place_after(self.place, between);
        self.offset = self.offset.max(offset);
        self.place
    }

    // Reports the bytes before a unit that are no text.
    fn report_bad(&mut self, outcome: &mut Outcome<'_>, before: usize) -> Result<(), AllocError> {
        'bad: while let [bad, others @ ..] = self.bad {
            if bad.unit >= before {
                break 'bad;
            }
            let place = self.place_of(bad.unit);
            match (bad.number, self.half) {
                (None, Some(byte)) => {
                    outcome.report_at(place, format_args!("half of a unit, {byte:02x}"))?;
                }
                _ => outcome.report_at(place, *bad)?,
            }
            self.bad = others;
        }
        Ok(())
    }

    // Reports what is before a part that begins at this offset, and returns its place.
    pub fn advance(
        &mut self,
        outcome: &mut Outcome<'_>,
        start: usize,
    ) -> Result<Place, AllocError> {
        self.report_bad(outcome, start)?;
        Ok(self.place_of(start))
    }

    // Returns whether a damage is reported: the first line end of each kind is enough.
    fn is_new(&mut self, kind: Kind<'_>) -> bool {
        match kind {
            Kind::Feed => !std::mem::replace(&mut self.has_feed, true),
            Kind::Return => !std::mem::replace(&mut self.has_return, true),
            _ => true,
        }
    }

    // Reports a damage of a part that begins at this offset.
    pub fn report(
        &mut self,
        outcome: &mut Outcome<'_>,
        start: usize,
        damage: Damage<'_>,
    ) -> Result<(), AllocError> {
        let offset = start.saturating_add(damage.unit);
        self.report_bad(outcome, offset)?;
        if self.is_new(damage.kind) {
            let place = self.place_of(offset);
            let kind = damage.kind;
            match kind.found() {
                Some(found) => {
                    let found = Shown(U16Str::from_slice(found));
                    outcome.report_at(place, format_args!("{kind}, {found}"))?;
                }
                None => outcome.report_at(place, kind)?,
            }
        }
        Ok(())
    }

    // Reports what is left of the text.
    pub fn finish(&mut self, outcome: &mut Outcome<'_>) -> Result<(), AllocError> {
        self.report_bad(outcome, usize::MAX)
    }
}
