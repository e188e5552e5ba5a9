//! Tests of how much memory strings of units request: as much as a vector that makes one request for the units by which
//! it grows.
use crate::all_hold::case_holds;
use std::alloc::{AllocError, Global};
use std::test::Fail;
use widestring::error::{FaultUnit, OutOfMemory};
use widestring::unit::Unit;
use widestring::ustring::{U32String, UString};

// Makes a vector `len` units long, and then one request for more.
fn request<C: Unit>(units: &mut Vec<C>, len: usize, more: usize) -> Result<(), AllocError> {
    units.resize(len, C::NUL)?;
    Ok(units.reserve(more)?)
}

// Returns the capacity of a vector of `len` units, with this capacity, after one request for more.
fn requested<C: Unit>(alloc: Global, len: usize, capacity: usize, more: usize) -> Option<usize> {
    let mut units: Vec<C> = Vec::with_capacity(alloc, capacity).ok()?;
    match request(&mut units, len, more) {
        Ok(()) => Some(units.capacity()),
        Err(_) => None,
    }
}

// Makes an edit that puts a text into a string of it. `with` is such a string too.
fn edit_by<C: FaultUnit>(
    string: &mut UString<C>,
    with: &UString<C>,
    text: &str,
    edit: usize,
) -> Result<(), OutOfMemory> {
    let middle = string.len() / 2;
    match edit {
        0 => string.push_str(text),
        1 => string.push_slice(with.as_slice()),
        2 => string.insert_ustr(middle, with.as_ustr()),
        3 => string.replace_range(middle.., with.as_ustr()),
        4 => string.splice_str(middle, middle, text),
        _ => string.splice_str(0, middle, text),
    }
}

// Returns whether an edit of this string requests no more, and so did the string itself.
fn grows_once<C: FaultUnit>(
    alloc: Global,
    string: &mut UString<C>,
    with: &UString<C>,
    text: &str,
    edit: usize,
) -> bool {
    let (len, before) = (string.len(), string.capacity());
    let well = edit_by(string, with, text, edit).is_ok();
    let more = string.len().saturating_sub(len);
    well & (Some(string.capacity()) == requested::<C>(alloc, len, before, more))
        & (Some(before) == requested::<C>(alloc, 0, 0, len))
}

// Returns whether an edit that puts a text into a string of it requests no more, and so does the string.
fn is_grown_once<C: FaultUnit>(alloc: Global, text: &str, edit: usize) -> bool {
    match (
        UString::<C>::from_str(alloc, text),
        UString::<C>::from_str(alloc, text),
    ) {
        (Ok(mut string), Ok(with)) => grows_once(alloc, &mut string, &with, text, edit),
        _ => false,
    }
}

// Returns whether a string that is made of characters has no spare capacity.
fn is_made_exactly(alloc: Global, text: &str) -> bool {
    let mut chars: Vec<char> = Vec::new(alloc);
    if chars.extend(text.chars()).is_err() {
        return false;
    }
    match U32String::from_chars(alloc, &chars) {
        Ok(string) => string.capacity() == chars.len(),
        Err(_) => false,
    }
}

// Returns whether strings of this text, and edits of them, request as much as a vector.
fn request_as_a_vector(alloc: Global, text: &str) -> bool {
    let mut well = is_made_exactly(alloc, text);
    for edit in 0..6 {
        well &= is_grown_once::<u16>(alloc, text, edit);
        well &= is_grown_once::<u32>(alloc, text, edit);
    }
    well
}

#[test]
fn capacities(rt: HostRuntime) -> Result<(), Fail> {
    let mut text = String::new(rt.alloc());
    for len in 0..100 {
        case_holds(&rt, len, request_as_a_vector(rt.alloc(), &text));
        text.push(if len % 3 == 0 { '\u{1f600}' } else { 'a' })?;
    }
    Ok(())
}
