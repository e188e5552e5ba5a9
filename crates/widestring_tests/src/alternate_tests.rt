//! A test that `{:#?}` prints a text on one line, as `{:?}` does, where it is within another value. The test vectors of
//! `prints16` and `prints32` test it of each type alone.
use crate::all_hold::all_hold;
use std::alloc::{AllocError, Global};
use std::fmt;
use std::test::Fail;
use widestring::{U16String, Utf16String};

const TEXT: &str = "a\"\u{e9}\u{301}";

const DEBUG_IN_OPTION: &str = "Some(\n    \"a\\\"\u{e9}\\u{301}\",\n)";

// Returns whether `{:#?}` prints this.
fn prints(alloc: Global, value: &impl fmt::Debug, expected: &str) -> bool {
    let text: Result<String, AllocError> = format!(in alloc; "{value:#?}");
    match text {
        Ok(text) => text.as_str() == expected,
        Err(_) => false,
    }
}

#[test]
fn views_in_options(rt: HostRuntime) -> Result<(), Fail> {
    let alloc = rt.alloc();
    let units: U16String = U16String::from_str(alloc, TEXT)?;
    let text: Utf16String = Utf16String::from_str(alloc, TEXT)?;
    let cases = [
        prints(alloc, &Some(units.as_ustr()), DEBUG_IN_OPTION),
        prints(alloc, &Some(text.as_utfstr()), DEBUG_IN_OPTION),
    ];
    all_hold(&rt, &cases);
    Ok(())
}
