//! Text and C strings of units.
use crate::parse::NoAnswer;
use std::alloc::Global;
use wide_ucstr::UCStr;
use wide_ucstring::UCString;
use wide_ustr::UStr;
use wide_utferror::FaultUnit;
use wide_utfstr::UtfStr;

/// Returns the text that has these units.
pub fn text_of<C: FaultUnit>(alloc: Global, units: &[C]) -> Result<String, NoAnswer> {
    let mut text = String::new(alloc);
    for read in UStr::from_slice(units).chars() {
        match read {
            Ok(c) => text.push(c)?,
            Err(_) => return Err(NoAnswer::Unparsed),
        }
    }
    Ok(text)
}

/// Returns the C string whose contents are these units.
pub fn c_string<C: FaultUnit>(units: Vec<C>) -> Result<UCString<C>, NoAnswer> {
    match UCString::from_vec(units) {
        Ok(string) => Ok(string),
        Err(_) => Err(NoAnswer::Unparsed),
    }
}

/// Returns the C string of units and a NUL.
pub fn c_string_of<C: FaultUnit>(alloc: Global, units: &[C]) -> Result<UCString<C>, NoAnswer> {
    match UCString::from_ustr(alloc, UStr::from_slice(units)) {
        Ok(string) => Ok(string),
        Err(_) => Err(NoAnswer::Unparsed),
    }
}

/// Returns the text of units.
pub fn as_text<C: FaultUnit>(units: &[C]) -> Result<UtfStr<'_, C>, NoAnswer> {
    match UtfStr::from_slice(units) {
        Ok(text) => Ok(text),
        Err(_) => Err(NoAnswer::Unparsed),
    }
}

/// Returns the C string of units that end with a NUL.
pub fn as_contents<C: FaultUnit>(units: &[C]) -> Result<UCStr<'_, C>, NoAnswer> {
    match UCStr::from_slice(units) {
        Ok(contents) => Ok(contents),
        Err(_) => Err(NoAnswer::Unparsed),
    }
}
