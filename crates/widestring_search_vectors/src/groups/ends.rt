//! Iterators over the substrings and the matches in units, in text and in the contents of C strings, called from both
//! ends. A question is the letter of a view, as in `kinds.rt`, a space, a letter for the iterator, a space, what
//! separates, a colon, and the calls, an `F` from the front and a `B` from the back: `u o 2F:FBF`, `t w :BB`.
//!
//! The substrings are those at a unit (`o`, of units alone), at a character (`c`), at any character of a list (`s`),
//! ended by a character (`e`) or by any of a list (`es`), or with a character after them (`i`) or any of a list (`is`),
//! or they are the words (`w`); `m` is for the matches of a character. The answer has the units that each call returns,
//! after the offset of a match, or a `-`, each of them a field.
use crate::groups::kinds::{self, Kind};
use widestring::iter::End;
use widestring::ustr::UStr;
use widestring::utfstr::UtfStr;
use widestring_replay::asked;
use widestring_replay::made::{as_contents, as_text};
use widestring_replay::parse::{self, Memory, NoAnswer};
use widestring_replay::show::{Answer, ReportedUnit};

// The iterators.
#[derive(Clone, Copy)]
enum By {
    Unit,
    Char,
    Set,
    Ended,
    EndedByAny,
    Kept,
    KeptAny,
    Words,
    Matches,
}

static ITERATORS: [(&str, By); 9] = [
    ("o", By::Unit),
    ("c", By::Char),
    ("s", By::Set),
    ("e", By::Ended),
    ("es", By::EndedByAny),
    ("i", By::Kept),
    ("is", By::KeptAny),
    ("w", By::Words),
    ("m", By::Matches),
];

// A parsed question: the view, the iterator, what separates, and the calls.
type Parts<'q> = (Kind, By, &'q str, &'q str);

// A substring or a match, which is shown in an answer.
trait Shown: Copy {
    fn show(self, answer: &mut Answer);
}

impl<C: ReportedUnit> Shown for UStr<'_, C> {
    fn show(self, answer: &mut Answer) {
        answer.units(self.as_slice());
    }
}

impl<C: ReportedUnit> Shown for UtfStr<'_, C> {
    fn show(self, answer: &mut Answer) {
        answer.units(self.as_slice());
    }
}

impl<V: Shown> Shown for (usize, V) {
    fn show(self, answer: &mut Answer) {
        answer.count(Some(self.0));
        self.1.show(answer);
    }
}

// Adds what each call of an iterator returns.
fn called<V: Shown, I: DoubleEndedIterator<Item = V>>(
    answer: &mut Answer,
    mut iterator: I,
    calls: &[End],
)
where
    requires front { (i : I) → I.can_next i }
    requires back { (i : I) → I.can_next_back i }
{
    for (number, end) in calls.iter().enumerate() {
        if number > 0 {
            answer.part();
        }
        match asked!(iterator, end) {
            Some(item) => item.show(answer),
            None => answer.word("-"),
        }
    }
}

// Adds the substrings of a view between characters, or the matches of one.
macro_rules! between {
    ($answer:expr, $view:expr, $by:expr, $chars:expr, $calls:expr) => {
        match ($by, $chars) {
            (By::Char, [c]) => called($answer, $view.split_char(*c), $calls),
            (By::Ended, [c]) => called($answer, $view.split_terminator_char(*c), $calls),
            (By::Kept, [c]) => called($answer, $view.split_inclusive_char(*c), $calls),
            (By::Matches, [c]) => called($answer, $view.match_indices_char(*c), $calls),
            (By::Set, chars) => called($answer, $view.split_any(chars), $calls),
            (By::EndedByAny, chars) => called($answer, $view.split_terminator_any(chars), $calls),
            (By::KeptAny, chars) => called($answer, $view.split_inclusive_any(chars), $calls),
            (By::Words, []) => called($answer, $view.split_whitespace(), $calls),
            _ => $answer.fail(NoAnswer::Unparsed),
        }
    };
}

fn of_kind<C: ReportedUnit>(
    answer: &mut Answer,
    units: &[C],
    (kind, by): (Kind, By),
    chars: &[char],
    calls: &[End],
) {
    match kind {
        Kind::Units => between!(answer, UStr::from_slice(units), by, chars, calls),
        Kind::Text => match as_text(units) {
            Ok(text) => between!(answer, text, by, chars, calls),
            Err(error) => answer.fail(error),
        },
        Kind::Contents => match as_contents(units) {
            Ok(view) => between!(answer, view, by, chars, calls),
            Err(error) => answer.fail(error),
        },
    }
}

fn at_unit<C: ReportedUnit>(
    answer: &mut Answer,
    units: &[C],
    unit: Result<C, NoAnswer>,
    calls: &[End],
) {
    match unit {
        Ok(unit) => called(answer, UStr::from_slice(units).split_unit(unit), calls),
        Err(error) => answer.fail(error),
    }
}

fn with_calls<C: ReportedUnit>(
    memory: Memory<'_>,
    answer: &mut Answer,
    units: &[C],
    (kind, by, separator, _): Parts<'_>,
    calls: &[End],
) {
    if let (Kind::Units, By::Unit) = (kind, by) {
        return at_unit(answer, units, parse::value::<C>(separator), calls);
    }
    match parse::list::<char>(memory.alloc, separator) {
        Ok(chars) => of_kind(answer, units, (kind, by), &chars, calls),
        Err(error) => answer.fail(error),
    }
}

fn parsed(question: &str) -> Result<Parts<'_>, NoAnswer> {
    let (kind, rest) = kinds::parsed(question)?;
    let (by, rest) = parse::word(rest);
    let (separator, calls) = parse::parts(rest)?;
    Ok((kind, parse::named(&ITERATORS, by)?, separator, calls))
}

fn with_parts<C: ReportedUnit>(
    memory: Memory<'_>,
    answer: &mut Answer,
    units: &[C],
    parts: Parts<'_>,
) {
    match parse::calls(memory.alloc, parts.3) {
        Ok(calls) => with_calls(memory, answer, units, parts, &calls),
        Err(error) => answer.fail(error),
    }
}

/// Adds the answer to a question about the substrings of units of either width, from both ends.
pub fn asked<C: ReportedUnit>(
    memory: Memory<'_>,
    answer: &mut Answer,
    units: &[C],
    question: &str,
) {
    match parsed(question) {
        Ok(parts) => with_parts(memory, answer, units, parts),
        Err(error) => answer.fail(error),
    }
}
