//! Substrings of units, of text and of the contents of C strings. A question is the letter of a view, as in `kinds.rt`,
//! a space, a letter for the separator, a space, the separator, a colon, and the greatest number of substrings, or a
//! `-` if there is no limit: `u o 3B:2`, `t c 1F600:-`.
//!
//! The separator is a view of the same kind (`v`), one unit (`o`), a character (`c`), or any character of a list (`s`).
//! The answer is how many substrings there are, and as further fields the units of each.
use crate::groups::kinds::{self, Kind};
use crate::groups::parts::substrings;
use widestring::ucstr::UCStr;
use widestring::ustr::UStr;
use widestring::utfstr::UtfStr;
use widestring_replay::made::{as_contents, as_text};
use widestring_replay::parse::{self, Memory, NoAnswer};
use widestring_replay::show::{Answer, ReportedUnit};

// The separators.
#[derive(Clone, Copy)]
enum By {
    View,
    Unit,
    Char,
    Set,
}

static SEPARATORS: [(&str, By); 4] = [
    ("v", By::View),
    ("o", By::Unit),
    ("c", By::Char),
    ("s", By::Set),
];

// A parsed question: the view, the separator's kind, the separator, and the greatest number of substrings.
type Parts<'q> = (Kind, By, &'q str, Option<usize>);

// Adds the substrings of a view between the characters of a list.
macro_rules! between {
    ($answer:expr, $view:expr, $chars:expr, $most:expr) => {
        match $most {
            None => substrings!($answer, $view.split_any($chars)),
            Some(count) => substrings!($answer, $view.splitn_any(count, $chars)),
        }
    };
}

fn units_at_units<C: ReportedUnit>(
    answer: &mut Answer,
    view: UStr<'_, C>,
    needle: UStr<'_, C>,
    most: Option<usize>,
) {
    match most {
        None => substrings!(answer, view.split(needle)),
        Some(count) => substrings!(answer, view.splitn(count, needle)),
    }
}

fn units_at_unit<C: ReportedUnit>(
    answer: &mut Answer,
    view: UStr<'_, C>,
    unit: C,
    most: Option<usize>,
) {
    match most {
        None => substrings!(answer, view.split_unit(unit)),
        Some(count) => substrings!(answer, view.splitn_unit(count, unit)),
    }
}

fn units_at_char<C: ReportedUnit>(
    answer: &mut Answer,
    view: UStr<'_, C>,
    c: char,
    most: Option<usize>,
) {
    match most {
        None => substrings!(answer, view.split_char(c)),
        Some(count) => substrings!(answer, view.splitn_char(count, c)),
    }
}

fn contents_at_contents<C: ReportedUnit>(
    answer: &mut Answer,
    view: UCStr<'_, C>,
    needle: UCStr<'_, C>,
    most: Option<usize>,
) {
    match most {
        None => substrings!(answer, view.split(needle)),
        Some(count) => substrings!(answer, view.splitn(count, needle)),
    }
}

fn contents_at_unit<C: ReportedUnit>(
    answer: &mut Answer,
    view: UCStr<'_, C>,
    unit: C,
    most: Option<usize>,
) {
    match most {
        None => substrings!(answer, view.split_unit(unit)),
        Some(count) => substrings!(answer, view.splitn_unit(count, unit)),
    }
}

fn contents_at_char<C: ReportedUnit>(
    answer: &mut Answer,
    view: UCStr<'_, C>,
    c: char,
    most: Option<usize>,
) {
    match most {
        None => substrings!(answer, view.split_char(c)),
        Some(count) => substrings!(answer, view.splitn_char(count, c)),
    }
}

fn text_at_text<C: ReportedUnit>(
    answer: &mut Answer,
    text: UtfStr<'_, C>,
    needle: UtfStr<'_, C>,
    most: Option<usize>,
) {
    match most {
        None => substrings!(answer, text.split(needle)),
        Some(count) => substrings!(answer, text.splitn(count, needle)),
    }
}

fn text_at_char<C: ReportedUnit>(
    answer: &mut Answer,
    text: UtfStr<'_, C>,
    c: char,
    most: Option<usize>,
) {
    match most {
        None => substrings!(answer, text.split_char(c)),
        Some(count) => substrings!(answer, text.splitn_char(count, c)),
    }
}

// Splits units at a view of the same kind.
fn at_view<C: ReportedUnit>(
    answer: &mut Answer,
    kind: Kind,
    units: &[C],
    needle: &[C],
    most: Option<usize>,
) {
    match kind {
        Kind::Units => {
            let (view, needle) = (UStr::from_slice(units), UStr::from_slice(needle));
            units_at_units(answer, view, needle, most);
        }
        Kind::Text => match (as_text(units), as_text(needle)) {
            (Ok(text), Ok(needle)) => text_at_text(answer, text, needle, most),
            _ => answer.fail(NoAnswer::Unparsed),
        },
        Kind::Contents => match (as_contents(units), as_contents(needle)) {
            (Ok(view), Ok(needle)) => contents_at_contents(answer, view, needle, most),
            _ => answer.fail(NoAnswer::Unparsed),
        },
    }
}

fn at_unit<C: ReportedUnit>(
    answer: &mut Answer,
    kind: Kind,
    units: &[C],
    unit: C,
    most: Option<usize>,
) {
    match kind {
        Kind::Units => units_at_unit(answer, UStr::from_slice(units), unit, most),
        Kind::Text => answer.fail(NoAnswer::Unparsed),
        Kind::Contents => match as_contents(units) {
            Ok(view) => contents_at_unit(answer, view, unit, most),
            Err(error) => answer.fail(error),
        },
    }
}

fn at_char<C: ReportedUnit>(
    answer: &mut Answer,
    kind: Kind,
    units: &[C],
    c: char,
    most: Option<usize>,
) {
    match kind {
        Kind::Units => units_at_char(answer, UStr::from_slice(units), c, most),
        Kind::Text => match as_text(units) {
            Ok(text) => text_at_char(answer, text, c, most),
            Err(error) => answer.fail(error),
        },
        Kind::Contents => match as_contents(units) {
            Ok(view) => contents_at_char(answer, view, c, most),
            Err(error) => answer.fail(error),
        },
    }
}

// Splits units at the characters of a list.
fn at_set<C: ReportedUnit>(
    answer: &mut Answer,
    kind: Kind,
    units: &[C],
    chars: &[char],
    most: Option<usize>,
) {
    match kind {
        Kind::Units => between!(answer, UStr::from_slice(units), chars, most),
        Kind::Text => match as_text(units) {
            Ok(text) => between!(answer, text, chars, most),
            Err(error) => answer.fail(error),
        },
        Kind::Contents => match as_contents(units) {
            Ok(view) => between!(answer, view, chars, most),
            Err(error) => answer.fail(error),
        },
    }
}

fn with_parts<C: ReportedUnit>(
    memory: Memory<'_>,
    answer: &mut Answer,
    (kind, by, separator, most): Parts<'_>,
    units: &[C],
) {
    match by {
        By::View => match parse::list::<C>(memory.alloc, separator) {
            Ok(needle) => at_view(answer, kind, units, &needle, most),
            Err(error) => answer.fail(error),
        },
        By::Unit => match parse::value::<C>(separator) {
            Ok(unit) => at_unit(answer, kind, units, unit, most),
            Err(error) => answer.fail(error),
        },
        By::Char => match parse::value::<char>(separator) {
            Ok(c) => at_char(answer, kind, units, c, most),
            Err(error) => answer.fail(error),
        },
        By::Set => match parse::list::<char>(memory.alloc, separator) {
            Ok(chars) => at_set(answer, kind, units, &chars, most),
            Err(error) => answer.fail(error),
        },
    }
}

// The greatest number of substrings that a word gives, or none for a `-`.
pub fn most_of(count: &str) -> Result<Option<usize>, NoAnswer> {
    match count {
        "-" => Ok(None),
        _ => Ok(Some(parse::value(count)?)),
    }
}

fn parsed(question: &str) -> Result<Parts<'_>, NoAnswer> {
    let (kind, rest) = kinds::parsed(question)?;
    let (by, rest) = parse::word(rest);
    let (separator, most) = parse::parts(rest)?;
    Ok((
        kind,
        parse::named(&SEPARATORS, by)?,
        separator,
        most_of(most)?,
    ))
}

/// Adds the answer to a question about the substrings of units of either width.
pub fn asked<C: ReportedUnit>(
    memory: Memory<'_>,
    answer: &mut Answer,
    units: &[C],
    question: &str,
) {
    match parsed(question) {
        Ok(parts) => with_parts(memory, answer, parts, units),
        Err(error) => answer.fail(error),
    }
}
