//! Searches in units of either width, and in text. A question is the units of a needle, a colon, a character, a colon
//! and an offset.
//!
//! The answer has several fields. The first is for units of any values: whether they contain the needle, begin and end
//! with it, each `1` or `0`; the first and the last offset of the needle, and of the character; how many units are left
//! after the needle is stripped at the start and at the end; how many precede and follow it, at its first offset and at
//! its last; a `-` if there is none. Then come the lengths of the substrings that the needle splits the units into, and
//! the first and the last offset of its first unit, if it has one. The calls for slices and, if there is no NUL among
//! the units, those of C strings must return the same, else there is no answer. If units and needle are both well
//! formed, there follow the first two fields for the text, the lengths of the substrings that the character splits it
//! into, and the boundaries around the offset.
use std::alloc::Global;
use widestring::search;
use widestring::ucstr::UCStr;
use widestring::unit::first_nul;
use widestring::ustr::UStr;
use widestring::utfstr::UtfStr;
use widestring_replay::made::{as_text, c_string_of};
use widestring_replay::parse::{self, NoAnswer};
use widestring_replay::show::{Answer, ReportedUnit};

fn add_decided(answer: &mut Answer, all: &[bool]) {
    for holds in all {
        answer.decided(*holds);
    }
}

fn add_counts(answer: &mut Answer, counts: &[Option<usize>]) {
    for count in counts {
        answer.count(*count);
    }
}

// Adds whether a view contains a needle, begins and ends with it.
macro_rules! decided {
    ($answer:expr, $view:expr, $part:expr) => {
        add_decided(
            $answer,
            &[
                $view.contains($part),
                $view.starts_with($part),
                $view.ends_with($part),
            ],
        )
    };
}

// Adds where a view has a needle and a character, and how many units are left after the needle is stripped at the start
// and at the end.
macro_rules! located {
    ($answer:expr, $view:expr, $part:expr, $c:expr) => {
        add_counts(
            $answer,
            &[
                $view.find($part),
                $view.rfind($part),
                $view.find_char($c),
                $view.rfind_char($c),
                $view.strip_prefix($part).map(|rest| rest.len()),
                $view.strip_suffix($part).map(|prefix| prefix.len()),
            ],
        )
    };
}

// Adds how many units of a view precede and follow a needle, at its first offset and at its last.
macro_rules! halved {
    ($answer:expr, $view:expr, $part:expr) => {
        for halves in [$view.split_once($part), $view.rsplit_once($part)] {
            add_counts(
                $answer,
                &match halves {
                    None => [None, None],
                    Some((prefix, rest)) => [Some(prefix.len()), Some(rest.len())],
                },
            );
        }
    };
}

// Adds the lengths of the substrings that a needle splits a view into.
macro_rules! split {
    ($answer:expr, $view:expr, $part:expr) => {
        for piece in $view.split($part) {
            $answer.count(Some(piece.len()));
        }
    };
}

// A view of units, of a C string or of text: what it returns for the searches that all share.
trait Haystack: Copy {
    fn decide(self, answer: &mut Answer, part: Self);

    fn locate(self, answer: &mut Answer, part: Self, c: char);

    fn halve(self, answer: &mut Answer, part: Self);

    fn pieces(self, answer: &mut Answer, part: Self);
}

impl<C: ReportedUnit> Haystack for UStr<'_, C> {
    fn decide(self, answer: &mut Answer, part: Self) {
        decided!(answer, self, part);
    }

    fn locate(self, answer: &mut Answer, part: Self, c: char) {
        located!(answer, self, part, c);
    }

    fn halve(self, answer: &mut Answer, part: Self) {
        halved!(answer, self, part);
    }

    fn pieces(self, answer: &mut Answer, part: Self) {
        split!(answer, self, part);
    }
}

impl<C: ReportedUnit> Haystack for UCStr<'_, C> {
    fn decide(self, answer: &mut Answer, part: Self) {
        decided!(answer, self, part);
    }

    fn locate(self, answer: &mut Answer, part: Self, c: char) {
        located!(answer, self, part, c);
    }

    fn halve(self, answer: &mut Answer, part: Self) {
        halved!(answer, self, part);
    }

    fn pieces(self, answer: &mut Answer, part: Self) {
        split!(answer, self, part);
    }
}

impl<C: ReportedUnit> Haystack for UtfStr<'_, C> {
    fn decide(self, answer: &mut Answer, part: Self) {
        decided!(answer, self, part);
    }

    fn locate(self, answer: &mut Answer, part: Self, c: char) {
        located!(answer, self, part, c);
    }

    fn halve(self, answer: &mut Answer, part: Self) {
        halved!(answer, self, part);
    }

    fn pieces(self, answer: &mut Answer, part: Self) {
        split!(answer, self, part);
    }
}

// Adds what a view returns for the searches that all share.
fn searched<V: Haystack>(answer: &mut Answer, view: V, part: V, c: char) {
    view.decide(answer, part);
    view.locate(answer, part, c);
    view.halve(answer, part);
    answer.part();
    view.pieces(answer, part);
    answer.part();
}

// Adds what is found in units of any values.
fn in_units<C: ReportedUnit>(answer: &mut Answer, view: UStr<'_, C>, part: UStr<'_, C>, c: char) {
    searched(answer, view, part, c);
    if let [unit, ..] = part.as_slice() {
        add_counts(answer, &[view.find_unit(*unit), view.rfind_unit(*unit)]);
    }
}

// Adds what is found in the contents of C strings.
fn in_contents<C: ReportedUnit>(
    answer: &mut Answer,
    view: UCStr<'_, C>,
    part: UCStr<'_, C>,
    c: char,
) {
    searched(answer, view, part, c);
    if let [unit, ..] = part.as_slice() {
        add_counts(answer, &[view.find_unit(*unit), view.rfind_unit(*unit)]);
    }
}

// Returns whether the calls for slices return the same as those of a view.
fn agrees<C: ReportedUnit>(view: UStr<'_, C>, part: UStr<'_, C>) -> bool {
    let (units, sought) = (view.as_slice(), part.as_slice());
    (search::find(units, sought) == view.find(part))
        & (search::rfind(units, sought) == view.rfind(part))
        & (search::starts_with(units, sought) == view.starts_with(part))
        & (search::ends_with(units, sought) == view.ends_with(part))
}

// Returns whether the calls of C strings return what was found, and find no NUL.
fn contents_agree<C: ReportedUnit>(
    alloc: Global,
    view: UCStr<'_, C>,
    part: UCStr<'_, C>,
    c: char,
    found: &str,
) -> Result<bool, NoAnswer> {
    let mut answer = Answer::new(alloc);
    in_contents(&mut answer, view, part, c);
    match answer.finish() {
        Ok(answer) => Ok(answer.as_str() == found && view.find_unit(C::NUL).is_none()),
        Err(error) => Err(error),
    }
}

fn part_agrees<C: ReportedUnit>(
    alloc: Global,
    view: UCStr<'_, C>,
    part: &[C],
    c: char,
    found: &str,
) -> Result<bool, NoAnswer> {
    match c_string_of(alloc, part) {
        Ok(part) => contents_agree(alloc, view, part.as_ucstr(), c, found),
        Err(error) => Err(error),
    }
}

// Returns whether C strings of units and slices return what was found. There are C strings if there is no NUL.
fn all_agree<C: ReportedUnit>(
    alloc: Global,
    units: &[C],
    part: &[C],
    c: char,
    found: &str,
) -> Result<bool, NoAnswer> {
    if !agrees(UStr::from_slice(units), UStr::from_slice(part)) {
        return Ok(false);
    }
    if first_nul(units).is_some() || first_nul(part).is_some() {
        return Ok(true);
    }
    match c_string_of(alloc, units) {
        Ok(text) => part_agrees(alloc, text.as_ucstr(), part, c, found),
        Err(error) => Err(error),
    }
}

// Returns what is found in units of any values.
fn found_in_units<C: ReportedUnit>(
    alloc: Global,
    view: UStr<'_, C>,
    part: UStr<'_, C>,
    c: char,
) -> Result<String, NoAnswer> {
    let mut answer = Answer::new(alloc);
    in_units(&mut answer, view, part, c);
    answer.finish()
}

// Adds what is found in text, and the boundaries around an offset.
fn in_text<C: ReportedUnit>(
    answer: &mut Answer,
    text: UtfStr<'_, C>,
    part: UtfStr<'_, C>,
    c: char,
    position: usize,
) {
    searched(answer, text, part, c);
    for piece in text.split_char(c) {
        answer.count(Some(piece.len()));
    }
    answer.part();
    answer.count(Some(text.floor_char_boundary(position)));
    answer.count(Some(text.ceil_char_boundary(position)));
}

// Adds what was found in units and, if they are well formed, what is found in their text.
fn add_found<C: ReportedUnit>(
    answer: &mut Answer,
    found: &str,
    units: &[C],
    part: &[C],
    c: char,
    position: usize,
) {
    answer.word(found);
    match (as_text(units), as_text(part)) {
        (Ok(text), Ok(part)) => {
            answer.part();
            in_text(answer, text, part, c, position);
        }
        _ => {}
    }
}

// Adds what was found in units and is found in their text, if the calls of slices and of C strings agree.
fn found_in_both<C: ReportedUnit>(
    alloc: Global,
    answer: &mut Answer,
    found: &str,
    units: &[C],
    part: &[C],
    c: char,
    position: usize,
) {
    match all_agree(alloc, units, part, c, found) {
        Ok(true) => add_found(answer, found, units, part, c, position),
        Ok(false) => answer.fail(NoAnswer::Unparsed),
        Err(error) => answer.fail(error),
    }
}

fn sought<C: ReportedUnit>(
    alloc: Global,
    answer: &mut Answer,
    units: &[C],
    part: &[C],
    c: char,
    position: usize,
) {
    match found_in_units(alloc, UStr::from_slice(units), UStr::from_slice(part), c) {
        Ok(found) => found_in_both(alloc, answer, &found, units, part, c, position),
        Err(error) => answer.fail(error),
    }
}

// Parses a character and, after a colon, an offset.
fn target(text: &str) -> Result<(char, usize), NoAnswer> {
    let (c, position) = parse::parts(text)?;
    Ok((parse::value(c)?, parse::value(position)?))
}

fn of_parts<C: ReportedUnit>(
    alloc: Global,
    answer: &mut Answer,
    units: &[C],
    part: &str,
    rest: &str,
) {
    match (target(rest), parse::list::<C>(alloc, part)) {
        (Ok((c, position)), Ok(part)) => sought(alloc, answer, units, &part, c, position),
        (Err(error), _) | (_, Err(error)) => answer.fail(error),
    }
}

/// Adds the answer to a question about searches in units of either width.
pub fn found<C: ReportedUnit>(alloc: Global, answer: &mut Answer, units: &[C], question: &str) {
    match parse::parts(question) {
        Ok((part, rest)) => of_parts(alloc, answer, units, part, rest),
        Err(error) => answer.fail(error),
    }
}
