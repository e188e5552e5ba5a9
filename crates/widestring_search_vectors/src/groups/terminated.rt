//! Substrings of units, of text and of the contents of C strings that a separator or the end of the units ends. A
//! question is the letter of a view, as in `kinds.rt`, a space, a letter for the separator, a space, and the separator:
//! `u v 3B`, `u c 1F600`, `t s 3B 2C`.
//!
//! The separator is a view (`v`) or a character (`c`), of units alone, or any character of a list (`s`). The answer is
//! how many substrings there are, and as further fields the units of each.
use crate::groups::kinds::{self, Kind};
use crate::groups::parts::substrings;
use widestring::ustr::UStr;
use widestring_replay::made::{as_contents, as_text};
use widestring_replay::parse::{self, Memory, NoAnswer};
use widestring_replay::show::{Answer, ReportedUnit};

// The separators.
#[derive(Clone, Copy)]
enum By {
    View,
    Char,
    Set,
}

static SEPARATORS: [(&str, By); 3] = [("v", By::View), ("c", By::Char), ("s", By::Set)];

// A parsed question: the view, the separator's kind, and the separator.
type Parts<'q> = (Kind, By, &'q str);

fn by_view<C: ReportedUnit>(answer: &mut Answer, view: UStr<'_, C>, needle: UStr<'_, C>) {
    substrings!(answer, view.split_terminator(needle));
}

fn by_char<C: ReportedUnit>(answer: &mut Answer, view: UStr<'_, C>, c: char) {
    substrings!(answer, view.split_terminator_char(c));
}

// Adds the substrings of units that a character of a list ends.
fn by_set<C: ReportedUnit>(answer: &mut Answer, kind: Kind, units: &[C], chars: &[char]) {
    match kind {
        Kind::Units => substrings!(answer, UStr::from_slice(units).split_terminator_any(chars)),
        Kind::Text => match as_text(units) {
            Ok(text) => substrings!(answer, text.split_terminator_any(chars)),
            Err(error) => answer.fail(error),
        },
        Kind::Contents => match as_contents(units) {
            Ok(view) => substrings!(answer, view.split_terminator_any(chars)),
            Err(error) => answer.fail(error),
        },
    }
}

fn parsed(question: &str) -> Result<Parts<'_>, NoAnswer> {
    let (kind, rest) = kinds::parsed(question)?;
    let (by, separator) = parse::word(rest);
    Ok((kind, parse::named(&SEPARATORS, by)?, separator))
}

fn with_parts<C: ReportedUnit>(
    memory: Memory<'_>,
    answer: &mut Answer,
    (kind, by, separator): Parts<'_>,
    units: &[C],
) {
    let view = UStr::from_slice(units);
    match (kind, by) {
        (_, By::Set) => match parse::list::<char>(memory.alloc, separator) {
            Ok(chars) => by_set(answer, kind, units, &chars),
            Err(error) => answer.fail(error),
        },
        (Kind::Units, By::View) => match parse::list::<C>(memory.alloc, separator) {
            Ok(needle) => by_view(answer, view, UStr::from_slice(&needle)),
            Err(error) => answer.fail(error),
        },
        (Kind::Units, By::Char) => match parse::value::<char>(separator) {
            Ok(c) => by_char(answer, view, c),
            Err(error) => answer.fail(error),
        },
        _ => answer.fail(NoAnswer::Unparsed),
    }
}

/// Adds the answer to a question about the substrings of units of either width that a separator ends.
pub fn asked<C: ReportedUnit>(
    memory: Memory<'_>,
    answer: &mut Answer,
    units: &[C],
    question: &str,
) {
    match parsed(question) {
        Ok(parts) => with_parts(memory, answer, parts, units),
        Err(error) => answer.fail(error),
    }
}
