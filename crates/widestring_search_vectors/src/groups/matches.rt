//! The matches of a needle in units, in text and in the contents of C strings. A question is the letter of a view, as in
//! `kinds.rt`, a space, a letter for the needle, a space, and the needle: `u v 61 61`, `t c 1F600`.
//!
//! The needle is a view of the same kind (`v`), or a character (`c`). The answer is how many matches there are, and as
//! further fields the offset and the units of each, and then the units of each once more.
use crate::groups::kinds::{self, Kind};
use crate::groups::parts::substrings;
use widestring::ucstr::UCStr;
use widestring::ustr::UStr;
use widestring::utfstr::UtfStr;
use widestring_replay::made::{as_contents, as_text};
use widestring_replay::parse::{self, Memory, NoAnswer};
use widestring_replay::show::{Answer, ReportedUnit};

#[derive(Clone, Copy)]
enum By {
    View,
    Char,
}

static NEEDLES: [(&str, By); 2] = [("v", By::View), ("c", By::Char)];

// Adds the number of matches, each with its offset as a further field, and then each without it.
macro_rules! matched {
    ($answer:expr, $indices:expr, $matches:expr) => {{
        $answer.count(Some($indices.count()));
        for found in $indices {
            $answer.part();
            $answer.count(Some(found.0));
            $answer.units(found.1.as_slice());
        }
        $answer.part();
        substrings!($answer, $matches);
    }};
}

fn units_in_units<C: ReportedUnit>(answer: &mut Answer, view: UStr<'_, C>, needle: UStr<'_, C>) {
    matched!(answer, view.match_indices(needle), view.matches(needle));
}

fn char_in_units<C: ReportedUnit>(answer: &mut Answer, view: UStr<'_, C>, c: char) {
    matched!(answer, view.match_indices_char(c), view.matches_char(c));
}

fn contents_in_contents<C: ReportedUnit>(
    answer: &mut Answer,
    view: UCStr<'_, C>,
    needle: UCStr<'_, C>,
) {
    matched!(answer, view.match_indices(needle), view.matches(needle));
}

fn char_in_contents<C: ReportedUnit>(answer: &mut Answer, view: UCStr<'_, C>, c: char) {
    matched!(answer, view.match_indices_char(c), view.matches_char(c));
}

fn text_in_text<C: ReportedUnit>(answer: &mut Answer, text: UtfStr<'_, C>, needle: UtfStr<'_, C>) {
    matched!(answer, text.match_indices(needle), text.matches(needle));
}

fn char_in_text<C: ReportedUnit>(answer: &mut Answer, text: UtfStr<'_, C>, c: char) {
    matched!(answer, text.match_indices_char(c), text.matches_char(c));
}

fn of_view<C: ReportedUnit>(answer: &mut Answer, kind: Kind, units: &[C], needle: &[C]) {
    match kind {
        Kind::Units => units_in_units(answer, UStr::from_slice(units), UStr::from_slice(needle)),
        Kind::Text => match (as_text(units), as_text(needle)) {
            (Ok(text), Ok(needle)) => text_in_text(answer, text, needle),
            _ => answer.fail(NoAnswer::Unparsed),
        },
        Kind::Contents => match (as_contents(units), as_contents(needle)) {
            (Ok(view), Ok(needle)) => contents_in_contents(answer, view, needle),
            _ => answer.fail(NoAnswer::Unparsed),
        },
    }
}

fn of_char<C: ReportedUnit>(answer: &mut Answer, kind: Kind, units: &[C], c: char) {
    match kind {
        Kind::Units => char_in_units(answer, UStr::from_slice(units), c),
        Kind::Text => match as_text(units) {
            Ok(text) => char_in_text(answer, text, c),
            Err(error) => answer.fail(error),
        },
        Kind::Contents => match as_contents(units) {
            Ok(view) => char_in_contents(answer, view, c),
            Err(error) => answer.fail(error),
        },
    }
}

fn parsed(question: &str) -> Result<(Kind, By, &str), NoAnswer> {
    let (kind, rest) = kinds::parsed(question)?;
    let (by, needle) = parse::word(rest);
    Ok((kind, parse::named(&NEEDLES, by)?, needle))
}

fn with_needle<C: ReportedUnit>(
    memory: Memory<'_>,
    answer: &mut Answer,
    (kind, by, needle): (Kind, By, &str),
    units: &[C],
) {
    match by {
        By::View => match parse::list::<C>(memory.alloc, needle) {
            Ok(needle) => of_view(answer, kind, units, &needle),
            Err(error) => answer.fail(error),
        },
        By::Char => match parse::value::<char>(needle) {
            Ok(c) => of_char(answer, kind, units, c),
            Err(error) => answer.fail(error),
        },
    }
}

/// Adds the answer to a question about the matches of a needle in units of either width.
pub fn asked<C: ReportedUnit>(
    memory: Memory<'_>,
    answer: &mut Answer,
    units: &[C],
    question: &str,
) {
    match parsed(question) {
        Ok(parts) => with_needle(memory, answer, parts, units),
        Err(error) => answer.fail(error),
    }
}
