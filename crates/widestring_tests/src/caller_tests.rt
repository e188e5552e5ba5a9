//! Tests of the callers at concrete units.
use crate::all_hold::{all_hold, is_collected};
use crate::callers::{
    all_of, all_of_prefix, all_of_source, all_of32, first_of, last_lossy_of32, last_of, lossy_of,
    lossy_of16, text_of,
};
use crate::encoders::{bytes_of, last_unit_of, units_of};
use crate::front::Front;
use std::alloc::{AllocError, Global};
use widestring::error::DecodeUtf16Error;

const UNITS: [u16; 4] = [0x41, 0xd800, 0xdc00, 0xdc00];

// Returns whether so many items were collected.
fn are_counted<T: Drop>(made: Result<Vec<T>, AllocError>, count: usize) -> bool {
    match made {
        Ok(items) => items.len() == count,
        Err(_) => false,
    }
}

// Returns whether the first and the last item of a vector of the units are what they should be.
fn has_ends(alloc: Global) -> bool {
    match (UNITS.to_vec(alloc), UNITS.to_vec(alloc)) {
        (Ok(units), Ok(same)) => {
            let (first, last) = (first_of(units), last_of(same));
            first == Some(Ok('A')) && last == Some(Err(DecodeUtf16Error::new(0xdc00)))
        }
        _ => false,
    }
}

// Returns whether this is the lossy text of a vector of units.
fn is_lossy(alloc: Global, units: &[u16], text: &[char]) -> bool {
    match units.to_vec(alloc) {
        Ok(units) => is_collected(lossy_of16(alloc, units), text),
        Err(_) => false,
    }
}

#[test]
fn callers_of_decoders(rt: HostRuntime) {
    let alloc = rt.alloc();
    let source = Front { rest: &UNITS };
    let wide = [0x41, 0xd800, 0xdc00, 0x1_f600];
    let narrow = [0xd83d, 0xde00, 0xd800, 0xd801];
    let text = ['\u{1f600}', '\u{fffd}', '\u{fffd}'];
    let cases = [
        has_ends(alloc),
        are_counted(all_of(alloc, &UNITS), 3),
        are_counted(all_of_source(alloc, source), 3),
        are_counted(all_of_prefix(alloc, source), 3),
        are_counted(all_of32(alloc, &wide), 4),
        last_lossy_of32(&wide) == Some('\u{1f600}'),
        last_lossy_of32(&wide[..3]) == Some('\u{fffd}'),
        last_lossy_of32(&[]).is_none(),
        is_lossy(alloc, &narrow, &text),
        is_collected(lossy_of(alloc, narrow.iter().copied()), &text),
    ];
    all_hold(&rt, &cases);
}

// Returns whether this is the last unit of a vector of characters.
fn is_last_unit(alloc: Global, letters: &[char], unit: u32) -> bool {
    match letters.to_vec(alloc) {
        Ok(letters) => last_unit_of(letters) == Some(unit),
        Err(_) => false,
    }
}

#[test]
fn callers_of_encoders(rt: HostRuntime) {
    let alloc = rt.alloc();
    let units = [0x7f, 0xdbff, 0xdfff, 0xffff];
    let bytes = b"\xfe\xff\xd8\x3d\xde\x00";
    let cases = [
        is_collected(units_of(alloc, "\u{7f}\u{10ffff}\u{ffff}"), &units),
        is_last_unit(alloc, &['a', '\u{10ffff}'], 0x10_ffff),
        is_collected(bytes_of(alloc, &['\u{24b62}']), b"\xf0\xa4\xad\xa2"),
        is_collected(text_of(alloc, bytes), "😀".as_bytes()),
    ];
    all_hold(&rt, &cases);
}
