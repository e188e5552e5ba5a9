//! Prints, and conversions to UTF-8, from it, and to bytes.

use crate::input::{Call, Input, named_in};
use std::alloc::Global;
use std::fmt::{Display, Write};
use widestring::Policy;
use widestring::error::{FaultUnit, OutOfMemory};
use widestring::ucstr::UCStr;
use widestring::ucstring::UCString;
use widestring::ustr::UStr;
use widestring::ustring::UString;
use widestring::utfstring::UtfString;

/// A call that makes a text.
#[derive(Clone, Copy)]
pub enum Converting {
    Display,
    DisplaySkipping,
    Debug,
    TextDisplay,
    EscapeDebug,
    EscapeUnicode,
    ToString,
    ToStringLossy,
    ToStringLossyWith,
    FromStr,
    UnitsFromStr,
    FromSliceLossy,
    ToLeBytes,
    CStr,
    CString,
}

static CALLS: [(&str, Converting); 15] = [
    ("display", Converting::Display),
    ("display_skipping", Converting::DisplaySkipping),
    ("debug", Converting::Debug),
    ("text_display", Converting::TextDisplay),
    ("escape_debug", Converting::EscapeDebug),
    ("escape_unicode", Converting::EscapeUnicode),
    ("to_string", Converting::ToString),
    ("to_string_lossy", Converting::ToStringLossy),
    ("to_string_lossy_with", Converting::ToStringLossyWith),
    ("from_str", Converting::FromStr),
    ("units_from_str", Converting::UnitsFromStr),
    ("from_slice_lossy", Converting::FromSliceLossy),
    ("to_le_bytes", Converting::ToLeBytes),
    ("cstr", Converting::CStr),
    ("cstring", Converting::CString),
];

// Prints a value, and returns the length of its text.
fn printed(alloc: Global, value: &impl Display) -> Result<u64, OutOfMemory> {
    let mut sink = String::new(alloc);
    match write!(sink, "{value}") {
        Ok(()) => Ok(sink.len() as u64),
        Err(_error) => Err(OutOfMemory),
    }
}

// Prints units in their debug form, and returns the length of that.
fn debug_printed<C: FaultUnit>(alloc: Global, units: UStr<'_, C>) -> Result<u64, OutOfMemory> {
    let mut sink = String::new(alloc);
    match write!(sink, "{units:?}") {
        Ok(()) => Ok(sink.len() as u64),
        Err(_error) => Err(OutOfMemory),
    }
}

fn string_len(made: Result<String, OutOfMemory>) -> Result<u64, OutOfMemory> {
    match made {
        Ok(string) => Ok(string.len() as u64),
        Err(OutOfMemory) => Err(OutOfMemory),
    }
}

fn text_len<C: FaultUnit>(made: Result<UtfString<C>, OutOfMemory>) -> Result<u64, OutOfMemory> {
    match made {
        Ok(text) => Ok(text.len() as u64),
        Err(OutOfMemory) => Err(OutOfMemory),
    }
}

fn units_len<C: FaultUnit>(made: Result<UString<C>, OutOfMemory>) -> Result<u64, OutOfMemory> {
    match made {
        Ok(units) => Ok(units.len() as u64),
        Err(OutOfMemory) => Err(OutOfMemory),
    }
}

fn bytes_len(made: Result<Vec<u8>, OutOfMemory>) -> Result<u64, OutOfMemory> {
    match made {
        Ok(bytes) => Ok(bytes.len() as u64),
        Err(OutOfMemory) => Err(OutOfMemory),
    }
}

fn mended_len<C: FaultUnit>(alloc: Global, units: &[C]) -> Result<u64, OutOfMemory> {
    let text = UtfString::from_slice_lossy(alloc, units)?;
    text_len(text.into_owned(alloc))
}

fn c_str_len<C: FaultUnit>(units: &[C]) -> u64 {
    match UCStr::from_slice_truncate(units) {
        Ok(string) => string.len() as u64,
        Err(_missing) => 1,
    }
}

fn c_string_len<C: FaultUnit>(alloc: Global, units: UStr<'_, C>) -> u64 {
    match UCString::from_ustr(alloc, units) {
        Ok(string) => string.as_ucstr().len() as u64,
        Err(_fault) => 1,
    }
}

impl Call for Converting {
    fn named(name: &str) -> Option<Converting> {
        named_in(&CALLS, name)
    }

    fn make<C: FaultUnit + Ord>(self, input: &Input<'_, C>) -> Result<u64, OutOfMemory> {
        let (alloc, units, text) = (input.alloc, input.units, input.text);
        match self {
            Converting::Display => printed(alloc, &units.display()),
            Converting::DisplaySkipping => printed(alloc, &units.display_skipping()),
            Converting::Debug => debug_printed(alloc, units),
            Converting::TextDisplay => printed(alloc, &text),
            Converting::EscapeDebug => printed(alloc, &text.escape_debug()),
            Converting::EscapeUnicode => printed(alloc, &text.escape_unicode()),
            Converting::ToString => string_len(text.to_string(alloc)),
            Converting::ToStringLossy => string_len(units.to_string_lossy(alloc)),
            Converting::ToStringLossyWith => string_len(units.to_string_lossy_with(
                alloc,
                Policy::Run,
            )),
            Converting::FromStr => text_len::<C>(UtfString::from_str(alloc, input.utf8)),
            Converting::UnitsFromStr => units_len::<C>(UString::from_str(alloc, input.utf8)),
            Converting::FromSliceLossy => mended_len(alloc, units.as_slice()),
            Converting::ToLeBytes => bytes_len(units.to_le_bytes(alloc)),
            Converting::CStr => Ok(c_str_len(units.as_slice())),
            Converting::CString => Ok(c_string_len(alloc, units)),
        }
    }
}
