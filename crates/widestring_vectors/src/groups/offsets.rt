//! The items of a view with the index of each, from both ends, and after each item the offset that the iterator
//! reports. A question is a letter, `c` for items and `l` for lossy ones, and then a word of calls.
use std::alloc::Global;
use widestring::iter::End;
use widestring::ustr::UStr;
use widestring_replay::asked;
use widestring_replay::parse::{self, NoAnswer};
use widestring_replay::show::{Answer, ReportedUnit};

// Adds items and their indices.
fn of_items<C: ReportedUnit>(answer: &mut Answer, view: UStr<'_, C>, calls: &[End]) {
    let mut offsets = view.char_indices();
    for end in calls {
        let position = asked!(offsets, end);
        answer.position::<C>(position, offsets.offset());
    }
}

// Adds lossy items and their indices.
fn of_characters<C: ReportedUnit>(answer: &mut Answer, view: UStr<'_, C>, calls: &[End]) {
    let mut offsets = view.char_indices_lossy();
    for end in calls {
        let position = match asked!(offsets, end) {
            None => None,
            Some((index, c)) => Some((index, Ok(c))),
        };
        answer.position::<C>(position, offsets.offset());
    }
}

fn of_calls<C: ReportedUnit>(answer: &mut Answer, kind: u8, view: UStr<'_, C>, calls: &[End]) {
    match kind {
        b'c' => of_items(answer, view, calls),
        b'l' => of_characters(answer, view, calls),
        _ => answer.fail(NoAnswer::Unparsed),
    }
}

fn of_kind<C: ReportedUnit>(
    alloc: Global,
    answer: &mut Answer,
    kind: u8,
    view: UStr<'_, C>,
    word: &str,
) {
    match parse::calls(alloc, word) {
        Ok(calls) => of_calls(answer, kind, view, &calls),
        Err(error) => answer.fail(error),
    }
}

/// Adds the indices of the items of units of either width.
pub fn offsets<C: ReportedUnit>(alloc: Global, answer: &mut Answer, units: &[C], question: &str) {
    match parse::kind(question) {
        Ok((kind, word)) => of_kind(alloc, answer, kind, UStr::from_slice(units), word),
        Err(error) => answer.fail(error),
    }
}
