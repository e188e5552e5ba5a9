//! Searches, splits, prefixes, comparisons.

use crate::input::{Call, Input, named_in, number_of};
use std::cmp::Ordering;
use widestring::error::{FaultUnit, OutOfMemory};
use widestring::ustr::UStr;

/// A call that looks for the needle, for its first unit, or for its first character.
#[derive(Clone, Copy)]
pub enum Searching {
    Find,
    Rfind,
    FindUnit,
    RfindUnit,
    FindChar,
    RfindChar,
    StartsWith,
    EndsWith,
    SplitOnce,
    RsplitOnce,
    Split,
    SplitChar,
    Equal,
    Compare,
}

static CALLS: [(&str, Searching); 14] = [
    ("find", Searching::Find),
    ("rfind", Searching::Rfind),
    ("find_unit", Searching::FindUnit),
    ("rfind_unit", Searching::RfindUnit),
    ("find_char", Searching::FindChar),
    ("rfind_char", Searching::RfindChar),
    ("starts_with", Searching::StartsWith),
    ("ends_with", Searching::EndsWith),
    ("split_once", Searching::SplitOnce),
    ("rsplit_once", Searching::RsplitOnce),
    ("split", Searching::Split),
    ("split_char", Searching::SplitChar),
    ("eq", Searching::Equal),
    ("cmp", Searching::Compare),
];

// Returns the needle's first unit, or zero.
fn first_unit<C: FaultUnit>(needle: UStr<'_, C>) -> C {
    match needle.as_slice() {
        [unit, ..] => *unit,
        [] => C::NUL,
    }
}

// Returns the needle's first character, or U+FFFD.
fn first_char<C: FaultUnit>(needle: UStr<'_, C>) -> char {
    needle
        .chars_lossy()
        .next()
        .unwrap_or(char::REPLACEMENT_CHARACTER)
}

// Returns the lengths of the two substrings of a split as one number.
fn lengths<C: FaultUnit>(parts: Option<(UStr<'_, C>, UStr<'_, C>)>) -> u64 {
    match parts {
        Some((before, after)) => (before.len() as u64)
            .wrapping_mul(3)
            .wrapping_add(after.len() as u64),
        None => 1,
    }
}

// Returns the lengths of all substrings of a split as one number.
fn parts<C: FaultUnit>(input: &Input<'_, C>, is_char: bool) -> u64 {
    let mut sum = 0u64;
    if is_char {
        for part in input.text.split_char(first_char(input.needle)) {
            sum = sum.wrapping_mul(3).wrapping_add(part.len() as u64);
        }
    } else {
        for part in input.units.split(input.needle) {
            sum = sum.wrapping_mul(3).wrapping_add(part.len() as u64);
        }
    }
    sum
}

impl Call for Searching {
    fn named(name: &str) -> Option<Searching> {
        named_in(&CALLS, name)
    }

    fn make<C: FaultUnit + Ord>(self, input: &Input<'_, C>) -> Result<u64, OutOfMemory> {
        let (units, needle) = (input.units, input.needle);
        Ok(match self {
            Searching::Find => number_of(units.find(needle)),
            Searching::Rfind => number_of(units.rfind(needle)),
            Searching::FindUnit => number_of(units.find_unit(first_unit(needle))),
            Searching::RfindUnit => number_of(units.rfind_unit(first_unit(needle))),
            Searching::FindChar => number_of(units.find_char(first_char(needle))),
            Searching::RfindChar => number_of(units.rfind_char(first_char(needle))),
            Searching::StartsWith => u64::from(units.starts_with(needle)),
            Searching::EndsWith => u64::from(units.ends_with(needle)),
            Searching::SplitOnce => lengths(units.split_once(needle)),
            Searching::RsplitOnce => lengths(units.rsplit_once(needle)),
            Searching::Split => parts(input, false),
            Searching::SplitChar => parts(input, true),
            Searching::Equal => u64::from(units == needle),
            Searching::Compare => u64::from(units.cmp(&needle) == Ordering::Less),
        })
    }
}
