//! The groups of cases, and the calls of the library that each makes.

mod backs;
mod case;
mod ends;
mod kinds;
mod made;
mod matches;
mod names;
mod nocase;
mod parts;
mod replaced;
mod searches;
mod sets;
mod splits;
mod terminated;

use sets::SetCalls;
use widestring_replay::Suite;
use widestring_replay::parse::{self, Memory, NoAnswer};
use widestring_replay::show::{Answer, ReportedUnit};

/// Searches, splits, sets of characters, replacements and ASCII case.
pub struct SearchSuite;

// The groups, without the width that ends their names. Their lists are units.
#[derive(Clone, Copy)]
enum OfUnits {
    Searches,
    Case,
    Replaced,
    Splits,
    Backs,
    Ends,
    Matches,
    Nocase,
    Terminated,
    Sets(SetCalls),
}

static OF_UNITS: [(&str, OfUnits); 12] = [
    ("searches", OfUnits::Searches),
    ("case", OfUnits::Case),
    ("replaced", OfUnits::Replaced),
    ("splits", OfUnits::Splits),
    ("nocase", OfUnits::Nocase),
    ("sets", OfUnits::Sets(SetCalls::Substrings)),
    ("words", OfUnits::Sets(SetCalls::Words)),
    ("trims", OfUnits::Sets(SetCalls::Trims)),
    ("terminated", OfUnits::Terminated),
    ("backs", OfUnits::Backs),
    ("matches", OfUnits::Matches),
    ("ends", OfUnits::Ends),
];

impl Suite for SearchSuite {
    fn groups() -> &'static [&'static str] {
        &names::GROUPS
    }

    fn faults() -> &'static [(&'static str, &'static str)] {
        &[]
    }

    // The name of a group ends with the width of its units.
    fn answer(memory: Memory<'_>, answer: &mut Answer, group: &str, list: &str, question: &str) {
        if let Some(name) = group.strip_suffix("16") {
            return of_width::<u16>(memory, answer, name, list, question);
        }
        match group.strip_suffix("32") {
            Some(name) => of_width::<u32>(memory, answer, name, list, question),
            None => answer.fail(NoAnswer::Unparsed),
        }
    }
}

fn of_width<C: ReportedUnit>(
    memory: Memory<'_>,
    answer: &mut Answer,
    name: &str,
    list: &str,
    question: &str,
) {
    match (
        parse::named(&OF_UNITS, name),
        parse::list::<C>(memory.alloc, list),
    ) {
        (Ok(group), Ok(units)) => with_units(memory, answer, group, &units, question),
        (Err(error), _) | (_, Err(error)) => answer.fail(error),
    }
}

fn with_units<C: ReportedUnit>(
    memory: Memory<'_>,
    answer: &mut Answer,
    group: OfUnits,
    units: &[C],
    question: &str,
) {
    match group {
        OfUnits::Searches => searches::found(memory.alloc, answer, units, question),
        OfUnits::Case => case::asked(memory, answer, units, question),
        OfUnits::Replaced => replaced::asked(memory, answer, units, question),
        OfUnits::Splits => splits::asked(memory, answer, units, question),
        OfUnits::Nocase => nocase::asked(memory, answer, units, question),
        OfUnits::Terminated => terminated::asked(memory, answer, units, question),
        OfUnits::Backs => backs::asked(memory, answer, units, question),
        OfUnits::Ends => ends::asked(memory, answer, units, question),
        OfUnits::Matches => matches::asked(memory, answer, units, question),
        OfUnits::Sets(calls) => sets::asked(memory, answer, calls, units, question),
    }
}
