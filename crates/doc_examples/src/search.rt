//! The examples of `widestring::search`.
use crate::holds;
use std::test::Fail;
use widestring::Utf16Str;
use widestring::search::{AsciiWhiteSpace, CharSet, WhiteSpace};

fn example_of_charset() -> Result<bool, Fail> {
    let signs: &[char] = &['=', ':'];
    let mut holds = signs.contains_char(':');
    holds &= !'='.contains_char(':');
    Ok(holds)
}

fn example_of_whitespace() -> Result<bool, Fail> {
    let line = Utf16Str::from_slice(&[0xe9, 0x3000, 0x61])?;
    Ok(line.find_any(WhiteSpace) == Some(1))
}

fn example_of_asciiwhitespace() -> Result<bool, Fail> {
    let line = Utf16Str::from_slice(&[0xe9, 0x3000, 0x20])?;
    Ok(line.find_any(AsciiWhiteSpace) == Some(2))
}

// Returns whether the examples of this module hold.
pub(crate) fn hold(rt: &HostRuntime) -> bool {
    let mut all = holds(rt, "CharSet", example_of_charset());
    all &= holds(rt, "WhiteSpace", example_of_whitespace());
    all &= holds(rt, "AsciiWhiteSpace", example_of_asciiwhitespace());
    all
}
