//! Tests of how much text `from_utf8_prefix` converts where the units have no space for all of it, which its contract
//! leaves open: as many characters as fit. The expected numbers are those of a loop over the characters.
use crate::all_hold::case_holds;
use std::alloc::{AllocError, Global};
use wide_forms::Progress;
use wide_from_utf8::from_utf8_prefix;
use wide_unit::Unit;

// Characters of one to four bytes, alone and mixed, which are repeated to make a text. Between others, the characters
// of one byte fill fewer than eight bytes, eight, more than sixteen and other numbers of them.
static PATTERNS: [&str; 14] = [
    "abcdefg",
    "\u{e9}",
    "\u{4e2d}",
    "\u{1f600}",
    "a\u{e9}",
    "a\u{4e2d}",
    "a\u{1f600}",
    "\u{e9}\u{4e2d}\u{1f600}",
    "abcdefg\u{7ff}",
    "abcdefgh\u{ffff}",
    "abcdefghi\u{10ffff}",
    "\u{4e2d}\u{4e2d}\u{4e2d}\u{4e2d}\u{4e2d}\u{4e2d}\u{4e2d}\u{4e2d}\u{4e2d}\u{4e2d}a",
    "\u{1f600}\u{1f600}\u{1f600}\u{1f600}\u{1f600}abcdefgh\u{e9}\u{e9}",
    "abcdefghijklmnopqrstuvw\u{1f600}\u{e9}\u{4e2d}",
];

// The greatest number of characters of a text, and of units that there is space for.
const CHARS: usize = 48;

const SPACE: usize = 40;

// Appends the first characters of a pattern.
fn push_first(text: &mut String, pattern: &str, count: usize) -> Result<(), AllocError> {
    for c in pattern.chars().take(count) {
        text.push(c)?;
    }
    Ok(())
}

// Makes a text of some characters, which repeats a pattern.
fn repeat(text: &mut String, pattern: &str, len: usize) -> Result<(), AllocError> {
    let count = pattern.chars().count();
    let mut left = len;
    for _ in 0..len {
        push_first(text, pattern, left)?;
        left = left.saturating_sub(count);
    }
    Ok(())
}

// Returns how many bytes the characters have that fit, and how many units.
fn fitting<C: Unit>(text: &str, space: usize) -> Progress {
    let (mut read, mut written) = (0usize, 0usize);
    for c in text.chars() {
        let end = written.saturating_add(C::char_len(c));
        if end > space {
            break;
        }
        read = read.saturating_add(c.len_utf8());
        written = end;
    }
    Progress { read, written }
}

// Returns whether the conversion ends where the loop does.
fn ends_alike<C: Unit>(alloc: Global, text: &str, space: usize) -> bool {
    let mut units = Vec::new(alloc);
    units.resize(space, C::NUL).is_ok()
        && from_utf8_prefix(text.as_bytes(), units.as_mut_slice()) == fitting::<C>(text, space)
}

// Returns whether conversions of a text into each space end where the loop does, at both widths.
fn end_alike(alloc: Global, text: &str) -> bool {
    let mut well = true;
    for space in 0..=SPACE {
        well &= ends_alike::<u16>(alloc, text, space);
        well &= ends_alike::<u32>(alloc, text, space);
    }
    well
}

// Returns whether conversions of a text of this length that repeats a pattern end where the loop does.
fn holds_for(alloc: Global, pattern: &str, len: usize) -> bool {
    let mut text = String::new(alloc);
    repeat(&mut text, pattern, len).is_ok() && end_alike(alloc, &text)
}

// Returns whether conversions of texts of each length that repeat a pattern end where the loop does.
fn hold_for(alloc: Global, pattern: &str) -> bool {
    let mut well = true;
    for len in 0..=CHARS {
        well &= holds_for(alloc, pattern, len);
    }
    well
}

#[test]
fn as_many_characters_as_fit(rt: HostRuntime) {
    for index in 0..PATTERNS.len() {
        case_holds(&rt, index, hold_for(rt.alloc(), PATTERNS[index]));
    }
}
