//! Units one by one, and lists of them. A question is a word, and for some a space and arguments.
//!
//! - `unit` is, for the only unit of the list, whether it is in range, a high and a low surrogate, and the character
//!   that it is alone; `pair` is the character of the two units of the list; `char` and a character are how many units
//!   it has, and these.
//! - `nul` is the index of the first NUL; `line` the first line and the units after it; `same` and `order` compare the
//!   list with other units, and `shared` is the length of the prefix that both have.
//! - `range` and a range are its ends in a list of this length.
use crate::groups::answers;
use crate::groups::width::Width;
use std::alloc::Global;
use std::ops::Range;
use widestring::unit::{
    common_prefix, first_nul, order_of_units, range_check, same_units, split_line,
};
use widestring_replay::parse::{self, NoAnswer};
use widestring_replay::show::Answer;

// What is asked.
#[derive(Clone, Copy)]
enum Query {
    Unit,
    Pair,
    Char,
    Nul,
    Line,
    Same,
    Order,
    Shared,
    Range,
}

static QUERIES: [(&str, Query); 9] = [
    ("unit", Query::Unit),
    ("pair", Query::Pair),
    ("char", Query::Char),
    ("nul", Query::Nul),
    ("line", Query::Line),
    ("same", Query::Same),
    ("order", Query::Order),
    ("shared", Query::Shared),
    ("range", Query::Range),
];

fn of_unit<C: Width>(answer: &mut Answer, unit: C) {
    answer.decided(unit.in_range());
    answer.decided(unit.is_high());
    answer.decided(unit.is_low());
    answer.character(unit.as_scalar());
}

fn add_char<C: Width>(answer: &mut Answer, c: char) {
    let (first, second) = C::encode_char(c);
    answer.count(Some(C::char_len(c)));
    answer.unit(Some(first));
    if second.is_some() {
        answer.unit(second);
    }
}

fn of_char<C: Width>(answer: &mut Answer, c: &str) {
    match parse::value::<char>(c) {
        Ok(c) => add_char::<C>(answer, c),
        Err(error) => answer.fail(error),
    }
}

fn first_line<C: Width>(answer: &mut Answer, units: &[C]) {
    match split_line(units) {
        None => answer.word("-"),
        Some((line, rest)) => answers::fields(answer, &[line, rest]),
    }
}

fn add_range(answer: &mut Answer, range: Option<Range<usize>>) {
    match range {
        None => answer.word("-"),
        Some(range) => {
            answer.count(Some(range.start));
            answer.count(Some(range.end));
        }
    }
}

fn ends_of_range(answer: &mut Answer, range: &str, length: usize) {
    match parse::range(range) {
        Ok(range) => add_range(answer, range_check(range, length)),
        Err(error) => answer.fail(error),
    }
}

fn of_both<C: Width>(answer: &mut Answer, units: &[C], query: Query, other: &[C]) {
    match query {
        Query::Same => answer.decided(same_units(units, other)),
        Query::Shared => answer.count(Some(common_prefix(units, other))),
        Query::Order => answer.order(order_of_units(units, other)),
        _ => answer.fail(NoAnswer::Unparsed),
    }
}

fn with_other<C: Width>(
    alloc: Global,
    answer: &mut Answer,
    units: &[C],
    query: Query,
    other: &str,
) {
    match parse::list::<C>(alloc, other) {
        Ok(other) => of_both(answer, units, query, &other),
        Err(error) => answer.fail(error),
    }
}

fn of_query<C: Width>(alloc: Global, answer: &mut Answer, units: &[C], query: Query, more: &str) {
    match (query, units) {
        (Query::Unit, [unit]) => of_unit(answer, *unit),
        (Query::Pair, [first, second]) => answer.character(first.pair_scalar(*second)),
        (Query::Nul, _) => answer.count(first_nul(units)),
        (Query::Line, _) => first_line(answer, units),
        (Query::Char, _) => of_char::<C>(answer, more),
        (Query::Range, _) => ends_of_range(answer, more, units.len()),
        (query, _) => with_other(alloc, answer, units, query, more),
    }
}

/// Adds the answer to a question about units.
pub fn asked<C: Width>(alloc: Global, answer: &mut Answer, units: &[C], question: &str) {
    let (word, more) = parse::word(question);
    match parse::named(&QUERIES, word) {
        Ok(query) => of_query(alloc, answer, units, query, more),
        Err(error) => answer.fail(error),
    }
}
