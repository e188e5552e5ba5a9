//! Substrings of units, of text and of the contents of C strings from the back, or with the separators after them. A
//! question is the letter of a view, as in `kinds.rt`, a space, a letter for the way, a letter for the separator, a
//! space, the separator, a colon, and the greatest number of substrings, or a `-` if there is no limit: `u rv 2F:2`,
//! `t ic 1F600:-`.
//!
//! The way is from the back (`r`), or from the front with the separators (`i`), which takes no limit. The separator is a
//! view of the same kind (`v`), a character (`c`), or any character of a list (`s`). The answer is how many substrings
//! there are, and as further fields the units of each.
use crate::groups::kinds::{self, Kind};
use crate::groups::parts::substrings;
use crate::groups::splits::most_of;
use widestring::ucstr::UCStr;
use widestring::ustr::UStr;
use widestring::utfstr::UtfStr;
use widestring_replay::made::{as_contents, as_text};
use widestring_replay::parse::{self, Memory, NoAnswer};
use widestring_replay::show::{Answer, ReportedUnit};

// The separators, and whether they are kept.
#[derive(Clone, Copy)]
enum By {
    View,
    Char,
    Set,
    KeptView,
    KeptChar,
    KeptSet,
}

static SEPARATORS: [(&str, By); 6] = [
    ("rv", By::View),
    ("rc", By::Char),
    ("rs", By::Set),
    ("iv", By::KeptView),
    ("ic", By::KeptChar),
    ("is", By::KeptSet),
];

// A parsed question: the view, the way with the separator's kind, the separator, and the greatest number of substrings.
type Parts<'q> = (Kind, By, &'q str, Option<usize>);

// Adds the substrings of a view between the characters of a list, from the back, or with these characters after them.
macro_rules! between {
    ($answer:expr, $view:expr, $by:expr, $chars:expr, $most:expr) => {
        match ($by, $most) {
            (By::KeptSet, _) => substrings!($answer, $view.split_inclusive_any($chars)),
            (_, None) => substrings!($answer, $view.rsplit_any($chars)),
            (_, Some(count)) => substrings!($answer, $view.rsplitn_any(count, $chars)),
        }
    };
}

fn units_at_units<C: ReportedUnit>(
    answer: &mut Answer,
    view: UStr<'_, C>,
    needle: UStr<'_, C>,
    most: Option<usize>,
) {
    match most {
        None => substrings!(answer, view.rsplit(needle)),
        Some(count) => substrings!(answer, view.rsplitn(count, needle)),
    }
}

fn units_at_char<C: ReportedUnit>(
    answer: &mut Answer,
    view: UStr<'_, C>,
    c: char,
    most: Option<usize>,
) {
    match most {
        None => substrings!(answer, view.rsplit_char(c)),
        Some(count) => substrings!(answer, view.rsplitn_char(count, c)),
    }
}

fn units_after_units<C: ReportedUnit>(answer: &mut Answer, view: UStr<'_, C>, needle: UStr<'_, C>) {
    substrings!(answer, view.split_inclusive(needle));
}

fn units_after_char<C: ReportedUnit>(answer: &mut Answer, view: UStr<'_, C>, c: char) {
    substrings!(answer, view.split_inclusive_char(c));
}

fn contents_at_contents<C: ReportedUnit>(
    answer: &mut Answer,
    view: UCStr<'_, C>,
    needle: UCStr<'_, C>,
    most: Option<usize>,
) {
    match most {
        None => substrings!(answer, view.rsplit(needle)),
        Some(count) => substrings!(answer, view.rsplitn(count, needle)),
    }
}

fn contents_at_char<C: ReportedUnit>(
    answer: &mut Answer,
    view: UCStr<'_, C>,
    c: char,
    most: Option<usize>,
) {
    match most {
        None => substrings!(answer, view.rsplit_char(c)),
        Some(count) => substrings!(answer, view.rsplitn_char(count, c)),
    }
}

fn contents_after_contents<C: ReportedUnit>(
    answer: &mut Answer,
    view: UCStr<'_, C>,
    needle: UCStr<'_, C>,
) {
    substrings!(answer, view.split_inclusive(needle));
}

fn contents_after_char<C: ReportedUnit>(answer: &mut Answer, view: UCStr<'_, C>, c: char) {
    substrings!(answer, view.split_inclusive_char(c));
}

fn text_at_text<C: ReportedUnit>(
    answer: &mut Answer,
    text: UtfStr<'_, C>,
    needle: UtfStr<'_, C>,
    most: Option<usize>,
) {
    match most {
        None => substrings!(answer, text.rsplit(needle)),
        Some(count) => substrings!(answer, text.rsplitn(count, needle)),
    }
}

fn text_at_char<C: ReportedUnit>(
    answer: &mut Answer,
    text: UtfStr<'_, C>,
    c: char,
    most: Option<usize>,
) {
    match most {
        None => substrings!(answer, text.rsplit_char(c)),
        Some(count) => substrings!(answer, text.rsplitn_char(count, c)),
    }
}

fn text_after_text<C: ReportedUnit>(
    answer: &mut Answer,
    text: UtfStr<'_, C>,
    needle: UtfStr<'_, C>,
) {
    substrings!(answer, text.split_inclusive(needle));
}

fn text_after_char<C: ReportedUnit>(answer: &mut Answer, text: UtfStr<'_, C>, c: char) {
    substrings!(answer, text.split_inclusive_char(c));
}

// Splits units from the back at a view of the same kind.
fn at_view<C: ReportedUnit>(
    answer: &mut Answer,
    kind: Kind,
    units: &[C],
    needle: &[C],
    most: Option<usize>,
) {
    match kind {
        Kind::Units => {
            let (view, needle) = (UStr::from_slice(units), UStr::from_slice(needle));
            units_at_units(answer, view, needle, most);
        }
        Kind::Text => match (as_text(units), as_text(needle)) {
            (Ok(text), Ok(needle)) => text_at_text(answer, text, needle, most),
            _ => answer.fail(NoAnswer::Unparsed),
        },
        Kind::Contents => match (as_contents(units), as_contents(needle)) {
            (Ok(view), Ok(needle)) => contents_at_contents(answer, view, needle, most),
            _ => answer.fail(NoAnswer::Unparsed),
        },
    }
}

fn at_char<C: ReportedUnit>(
    answer: &mut Answer,
    kind: Kind,
    units: &[C],
    c: char,
    most: Option<usize>,
) {
    match kind {
        Kind::Units => units_at_char(answer, UStr::from_slice(units), c, most),
        Kind::Text => match as_text(units) {
            Ok(text) => text_at_char(answer, text, c, most),
            Err(error) => answer.fail(error),
        },
        Kind::Contents => match as_contents(units) {
            Ok(view) => contents_at_char(answer, view, c, most),
            Err(error) => answer.fail(error),
        },
    }
}

// Splits units after a view of the same kind.
fn after_view<C: ReportedUnit>(answer: &mut Answer, kind: Kind, units: &[C], needle: &[C]) {
    match kind {
        Kind::Units => {
            units_after_units(answer, UStr::from_slice(units), UStr::from_slice(needle))
        }
        Kind::Text => match (as_text(units), as_text(needle)) {
            (Ok(text), Ok(needle)) => text_after_text(answer, text, needle),
            _ => answer.fail(NoAnswer::Unparsed),
        },
        Kind::Contents => match (as_contents(units), as_contents(needle)) {
            (Ok(view), Ok(needle)) => contents_after_contents(answer, view, needle),
            _ => answer.fail(NoAnswer::Unparsed),
        },
    }
}

fn after_char<C: ReportedUnit>(answer: &mut Answer, kind: Kind, units: &[C], c: char) {
    match kind {
        Kind::Units => units_after_char(answer, UStr::from_slice(units), c),
        Kind::Text => match as_text(units) {
            Ok(text) => text_after_char(answer, text, c),
            Err(error) => answer.fail(error),
        },
        Kind::Contents => match as_contents(units) {
            Ok(view) => contents_after_char(answer, view, c),
            Err(error) => answer.fail(error),
        },
    }
}

// Splits units from the back at the characters of a list, or after them.
fn with_set<C: ReportedUnit>(
    answer: &mut Answer,
    (kind, by, _, most): Parts<'_>,
    units: &[C],
    chars: &[char],
) {
    match kind {
        Kind::Units => between!(answer, UStr::from_slice(units), by, chars, most),
        Kind::Text => match as_text(units) {
            Ok(text) => between!(answer, text, by, chars, most),
            Err(error) => answer.fail(error),
        },
        Kind::Contents => match as_contents(units) {
            Ok(view) => between!(answer, view, by, chars, most),
            Err(error) => answer.fail(error),
        },
    }
}

fn with_view<C: ReportedUnit>(
    answer: &mut Answer,
    (kind, by, _, most): Parts<'_>,
    units: &[C],
    needle: &[C],
) {
    match by {
        By::KeptView => after_view(answer, kind, units, needle),
        _ => at_view(answer, kind, units, needle, most),
    }
}

fn with_char<C: ReportedUnit>(
    answer: &mut Answer,
    (kind, by, _, most): Parts<'_>,
    units: &[C],
    c: char,
) {
    match by {
        By::KeptChar => after_char(answer, kind, units, c),
        _ => at_char(answer, kind, units, c, most),
    }
}

fn with_parts<C: ReportedUnit>(
    memory: Memory<'_>,
    answer: &mut Answer,
    parts: Parts<'_>,
    units: &[C],
) {
    match parts.1 {
        By::View | By::KeptView => match parse::list::<C>(memory.alloc, parts.2) {
            Ok(needle) => with_view(answer, parts, units, &needle),
            Err(error) => answer.fail(error),
        },
        By::Char | By::KeptChar => match parse::value::<char>(parts.2) {
            Ok(c) => with_char(answer, parts, units, c),
            Err(error) => answer.fail(error),
        },
        By::Set | By::KeptSet => match parse::list::<char>(memory.alloc, parts.2) {
            Ok(chars) => with_set(answer, parts, units, &chars),
            Err(error) => answer.fail(error),
        },
    }
}

fn parsed(question: &str) -> Result<Parts<'_>, NoAnswer> {
    let (kind, rest) = kinds::parsed(question)?;
    let (by, rest) = parse::word(rest);
    let (separator, most) = parse::parts(rest)?;
    Ok((
        kind,
        parse::named(&SEPARATORS, by)?,
        separator,
        most_of(most)?,
    ))
}

/// Adds the answer to a question about the substrings of units of either width from the back, or with separators.
pub fn asked<C: ReportedUnit>(
    memory: Memory<'_>,
    answer: &mut Answer,
    units: &[C],
    question: &str,
) {
    match parsed(question) {
        Ok(parts) => with_parts(memory, answer, parts, units),
        Err(error) => answer.fail(error),
    }
}
