//! Searches without regard to the case of ASCII letters, in units, in text and in the contents of C strings. A question
//! is the letter of a view, as in `kinds.rt`, and after a space the units of a needle: `u 61 62`. For C strings both
//! lists end with a NUL, which is no part of the needle.
//!
//! The answer is whether the view contains the needle, begins and ends with it, each `1` or `0`, and the first offset
//! of the needle, or a `-` if there is none. The calls for slices must return the same as those of a view of units,
//! else there is no answer.
use crate::groups::kinds::{self, Kind};
use widestring::search;
use widestring::ucstr::UCStr;
use widestring::ustr::UStr;
use widestring::utfstr::UtfStr;
use widestring_replay::made::{as_contents, as_text};
use widestring_replay::parse::{self, Memory, NoAnswer};
use widestring_replay::show::{Answer, ReportedUnit};

macro_rules! sought {
    ($answer:expr, $view:expr, $needle:expr) => {{
        $answer.decided($view.contains_ignore_ascii_case($needle));
        $answer.decided($view.starts_with_ignore_ascii_case($needle));
        $answer.decided($view.ends_with_ignore_ascii_case($needle));
        $answer.count($view.find_ignore_ascii_case($needle));
    }};
}

fn in_text<C: ReportedUnit>(answer: &mut Answer, text: UtfStr<'_, C>, needle: UtfStr<'_, C>) {
    sought!(answer, text, needle);
}

fn in_contents<C: ReportedUnit>(answer: &mut Answer, view: UCStr<'_, C>, needle: UCStr<'_, C>) {
    sought!(answer, view, needle);
}

// Returns whether the calls for slices return the same as those of a view.
fn agrees<C: ReportedUnit>(view: UStr<'_, C>, needle: UStr<'_, C>) -> bool {
    let (units, sought) = (view.as_slice(), needle.as_slice());
    (search::find_ignore_ascii_case(units, sought) == view.find_ignore_ascii_case(needle))
        & (search::starts_with_ignore_ascii_case(units, sought)
            == view.starts_with_ignore_ascii_case(needle))
        & (search::ends_with_ignore_ascii_case(units, sought)
            == view.ends_with_ignore_ascii_case(needle))
}

fn in_units<C: ReportedUnit>(answer: &mut Answer, view: UStr<'_, C>, needle: UStr<'_, C>) {
    sought!(answer, view, needle);
    if !agrees(view, needle) {
        answer.fail(NoAnswer::Unparsed);
    }
}

fn of_kind<C: ReportedUnit>(answer: &mut Answer, kind: Kind, units: &[C], needle: &[C]) {
    match kind {
        Kind::Units => in_units(answer, UStr::from_slice(units), UStr::from_slice(needle)),
        Kind::Text => match (as_text(units), as_text(needle)) {
            (Ok(text), Ok(needle)) => in_text(answer, text, needle),
            _ => answer.fail(NoAnswer::Unparsed),
        },
        Kind::Contents => match (as_contents(units), as_contents(needle)) {
            (Ok(view), Ok(needle)) => in_contents(answer, view, needle),
            _ => answer.fail(NoAnswer::Unparsed),
        },
    }
}

fn with_needle<C: ReportedUnit>(
    memory: Memory<'_>,
    answer: &mut Answer,
    units: &[C],
    (kind, needle): (Kind, &str),
) {
    match parse::list::<C>(memory.alloc, needle) {
        Ok(needle) => of_kind(answer, kind, units, &needle),
        Err(error) => answer.fail(error),
    }
}

/// Adds the answer to a question about searches without regard to the case of ASCII letters in units of either width.
pub fn asked<C: ReportedUnit>(
    memory: Memory<'_>,
    answer: &mut Answer,
    units: &[C],
    question: &str,
) {
    match kinds::parsed(question) {
        Ok(parts) => with_needle(memory, answer, units, parts),
        Err(error) => answer.fail(error),
    }
}
