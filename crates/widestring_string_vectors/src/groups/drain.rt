//! Drains of a string. A question is a range, a colon and a word of calls. The answer has three fields: what the drain
//! returns for each call, what it still has then, and the units that are left of the string after the drain is dropped.
//! It has a `?` if the drain's length is not that of what it has. It is a `-` if the range is out of bounds.
use crate::groups::ustring::range_and_more;
use std::alloc::Global;
use std::ops::Bound;
use widestring::error::FaultUnit;
use widestring::iter::End;
use widestring::unit::range_check;
use widestring::ustring::{Drain, UString};
use widestring_replay::show::Answer;
use widestring_replay::{asked, parse};

// Adds what a drain returns, and what it still has then.
fn returned<C: FaultUnit>(drain: &mut Drain<'_, C>, answer: &mut Answer, calls: &[End]) {
    for end in calls {
        answer.unit(asked!(drain, end));
    }
    let len = drain.as_slice().len();
    if (drain.len() != len) | (drain.size_hint() != (len, Some(len))) {
        answer.word("?");
    }
    answer.part();
    answer.units(drain.as_slice());
}

// Adds what a drain of a range returns, and returns whether the range is within bounds.
fn drained<C: FaultUnit>(
    string: &mut UString<C>,
    answer: &mut Answer,
    range: (Bound<usize>, Bound<usize>),
    calls: &[End],
) -> bool {
    let is_within = range_check(range, string.len()).is_some();
    if is_within {
        returned(&mut string.drain(range), answer, calls);
    } else {
        answer.number(None);
    }
    is_within
}

// Adds what a drain of a range returns and leaves.
fn drain_of<C: FaultUnit>(
    string: &mut UString<C>,
    answer: &mut Answer,
    range: (Bound<usize>, Bound<usize>),
    calls: &[End],
) {
    if drained(string, answer, range, calls) {
        answer.part();
        answer.units(string.as_slice());
    }
}

/// Answers a question about a drain of a string of units.
pub fn drain<C: FaultUnit>(
    alloc: Global,
    string: &mut UString<C>,
    answer: &mut Answer,
    question: &str,
) {
    match range_and_more(question) {
        Ok((range, word)) => match parse::calls(alloc, word) {
            Ok(calls) => drain_of(string, answer, range, &calls),
            Err(error) => answer.fail(error),
        },
        Err(error) => answer.fail(error),
    }
}
