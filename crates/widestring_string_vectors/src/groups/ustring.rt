//! Calls of owned strings of units of either width, and what they leave of the string. The answer is a `-` if the
//! offset or the range is out of bounds. The fields of an answer are separated by `;`.
use std::alloc::Global;
use std::ops::Bound;
use widestring::error::{FaultUnit, OutOfMemory};
use widestring::unit::range_check;
use widestring::ustr::UStr;
use widestring::ustring::UString;
use widestring_replay::parse::{self, FromHex, NoAnswer};
use widestring_replay::show::Answer;

/// Adds what `pop_char` returns for as many calls as there are units, and one more. A question is empty.
pub fn pop<C: FaultUnit>(string: &mut UString<C>, answer: &mut Answer, question: &str) {
    match parse::no_question(question) {
        Ok(()) => {
            for _call in 0..string.len() {
                answer.number(string.pop_char());
            }
            answer.number(string.pop_char());
        }
        Err(error) => answer.fail(error),
    }
}

/// Adds the character that `remove_char` removes, and the units left. A question is an offset.
pub fn remove<C: FaultUnit>(string: &mut UString<C>, answer: &mut Answer, question: &str) {
    match parse::value::<usize>(question) {
        Ok(at) if at < string.len() => {
            answer.number(Some(string.remove_char(at)));
            answer.part();
            answer.units(string.as_slice());
        }
        Ok(_) => answer.number(None),
        Err(error) => answer.fail(error),
    }
}

// Parses the letter and the offset of an insertion, and what follows their colon.
fn insertion(question: &str) -> Result<(u8, usize, &str), NoAnswer> {
    let (before, more) = parse::parts(question)?;
    let (kind, position) = parse::kind(before)?;
    Ok((kind, parse::value(position)?, more))
}

/// Adds the units after an insertion. A question is a `c` for a character or an `s` for a view, an offset, a colon, and
/// the character or the view's units.
pub fn insert<C: FaultUnit + FromHex>(
    alloc: Global,
    string: &mut UString<C>,
    answer: &mut Answer,
    question: &str,
) {
    match insertion(question) {
        Ok((_, at, _)) if at > string.len() => answer.number(None),
        Ok((b'c', at, c)) => match parse::value(c) {
            Ok(c) => {
                answer.done(string.insert_char(at, c));
                answer.units(string.as_slice());
            }
            Err(error) => answer.fail(error),
        },
        Ok((b's', at, list)) => match parse::list(alloc, list) {
            Ok(units) => {
                answer.done(string.insert_ustr(at, UStr::from_slice(&units)));
                answer.units(string.as_slice());
            }
            Err(error) => answer.fail(error),
        },
        Ok(_) => answer.fail(NoAnswer::Unparsed),
        Err(error) => answer.fail(error),
    }
}

/// Parses a range, and what follows its colon.
pub fn range_and_more(question: &str) -> Result<((Bound<usize>, Bound<usize>), &str), NoAnswer> {
    let (range, more) = parse::parts(question)?;
    Ok((parse::range(range)?, more))
}

/// Adds the units after a range is replaced. A question is a range, a colon, and the units of a view.
pub fn replace<C: FaultUnit + FromHex>(
    alloc: Global,
    string: &mut UString<C>,
    answer: &mut Answer,
    question: &str,
) {
    match range_and_more(question) {
        Ok((range, _)) if range_check(range, string.len()).is_none() => answer.number(None),
        Ok((range, list)) => match parse::list(alloc, list) {
            Ok(units) => {
                answer.done(string.replace_range(range, UStr::from_slice(&units)));
                answer.units(string.as_slice());
            }
            Err(error) => answer.fail(error),
        },
        Err(error) => answer.fail(error),
    }
}

// Retains the units whose call has the bit `1`, and adds the number of calls.
fn retain_by_call<C: FaultUnit>(string: &mut UString<C>, answer: &mut Answer, bits: &[u8]) {
    let mut calls = 0;
    string.retain(|_unit| {
        let bit = bits.get(calls).copied();
        calls = calls.saturating_add(1);
        bit == Some(b'1')
    });
    answer.count(Some(calls));
    answer.part();
}

// Retains the units that do not have this number.
fn retain_others<C: FaultUnit>(string: &mut UString<C>, gone: u32) {
    string.retain(|unit| unit.code() != gone);
}

/// Adds what `retain` leaves. A question is a `c` and a bit for each call, or a `u` and the unit that is removed. For a
/// `c` the number of calls comes first.
pub fn retain<C: FaultUnit + FromHex>(
    string: &mut UString<C>,
    answer: &mut Answer,
    question: &str,
) {
    match parse::kind(question) {
        Ok((b'c', bits)) => {
            retain_by_call(string, answer, bits.as_bytes());
            answer.units(string.as_slice());
        }
        Ok((_, word)) => match parse::value::<C>(word) {
            Ok(unit) => {
                retain_others(string, unit.code());
                answer.units(string.as_slice());
            }
            Err(error) => answer.fail(error),
        },
        Err(error) => answer.fail(error),
    }
}

/// Adds the units that `split_off` leaves, and those that it returns. A question is an offset.
pub fn split_off<C: FaultUnit>(string: &mut UString<C>, answer: &mut Answer, question: &str) {
    match parse::value::<usize>(question) {
        Ok(at) if at <= string.len() => match string.split_off(at) {
            Ok(rest) => units_of_both(answer, string, &rest),
            Err(OutOfMemory) => answer.fail(NoAnswer::OutOfMemory),
        },
        Ok(_) => answer.number(None),
        Err(error) => answer.fail(error),
    }
}

fn units_of_both<C: FaultUnit>(answer: &mut Answer, string: &UString<C>, rest: &UString<C>) {
    answer.units(string.as_slice());
    answer.part();
    answer.units(rest.as_slice());
}
