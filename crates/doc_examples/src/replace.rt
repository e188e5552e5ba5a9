//! The examples of `widestring::replace`.
use crate::holds;
use std::test::Fail;
use widestring::replace::{UCStrReplace, UStrReplace, UtfStrReplace};
use widestring::{U16CStr, U16Str, Utf16Str, Utf16String};

fn example_of_ucstrreplace(rt: &HostRuntime) -> Result<bool, Fail> {
    let path = U16CStr::from_slice(&[0x61, 0x2f, 0x62, 0])?;
    let slash = U16CStr::from_slice(&[0x2f, 0])?;
    let path = path.replace(rt.alloc(), slash, U16CStr::from_slice(&[0x5c, 0x5c, 0])?)?;
    Ok(path.as_ucstr().as_slice_with_nul() == [0x61, 0x5c, 0x5c, 0x62, 0].as_slice())
}

fn example_of_ucstrreplace_replace(rt: &HostRuntime) -> Result<bool, Fail> {
    let row = U16CStr::from_slice(&[0x61, 0x3b, 0xd800, 0x3b, 0])?;
    let semicolon = U16CStr::from_slice(&[0x3b, 0])?;
    let row = row.replace(rt.alloc(), semicolon, U16CStr::from_slice(&[0])?)?;
    Ok(row.as_ucstr().as_slice() == [0x61, 0xd800].as_slice())
}

fn example_of_ucstrreplace_replacen(rt: &HostRuntime) -> Result<bool, Fail> {
    let slash = U16CStr::from_slice(&[0x2f, 0])?;
    let path = U16CStr::from_slice(&[0x61, 0x2f, 0x62, 0x2f, 0])?;
    let path = path.replacen(rt.alloc(), slash, U16CStr::from_slice(&[0x5c, 0])?, 1)?;
    Ok(path.as_ucstr().as_slice() == [0x61, 0x5c, 0x62, 0x2f].as_slice())
}

fn example_of_utfstrreplace(rt: &HostRuntime) -> Result<bool, Fail> {
    let text = Utf16Str::from_slice(&[0x61, 0x2c, 0x62])?;
    let comma = Utf16Str::from_slice(&[0x2c])?;
    let nothing = Utf16Str::from_slice(&[])?;
    let text = text.replace(rt.alloc(), comma, nothing)?;
    Ok(text.as_utfstr().eq_str("ab"))
}

fn example_of_utfstrreplace_replace(rt: &HostRuntime) -> Result<bool, Fail> {
    let text = Utf16String::from_str(rt.alloc(), "a😀b😀")?;
    let with = Utf16String::from_str(rt.alloc(), ":)")?;
    let text = text.as_utfstr().replace(rt.alloc(), '😀', with.as_utfstr())?;
    Ok(text.as_utfstr().eq_str("a:)b:)"))
}

fn example_of_utfstrreplace_replacen(rt: &HostRuntime) -> Result<bool, Fail> {
    let path = Utf16String::from_str(rt.alloc(), "C:/temp/é")?;
    let with = Utf16String::from_str(rt.alloc(), "\\")?;
    let path = path
        .as_utfstr()
        .replacen(rt.alloc(), '/', with.as_utfstr(), 1)?;
    Ok(path.as_utfstr().eq_str("C:\\temp/é"))
}

fn example_of_ustrreplace(rt: &HostRuntime) -> Result<bool, Fail> {
    let text = U16Str::from_slice(&[0x61, 0x61, 0x61]);
    let dash = U16Str::from_slice(&[0x2d]);
    let text = text.replacen(rt.alloc(), U16Str::from_slice(&[0x61, 0x61]), dash, 9)?;
    Ok(text.as_slice() == [0x2d, 0x61].as_slice())
}

fn example_of_ustrreplace_replace(rt: &HostRuntime) -> Result<bool, Fail> {
    let row = U16Str::from_slice(&[0x61, 0x3b, 0xd800, 0x3b]);
    let tab = U16Str::from_slice(&[0x9]);
    let row = row.replace(rt.alloc(), U16Str::from_slice(&[0x3b]), tab)?;
    Ok(row.as_slice() == [0x61, 0x9, 0xd800, 0x9].as_slice())
}

fn example_of_ustrreplace_replacen(rt: &HostRuntime) -> Result<bool, Fail> {
    let slash = U16Str::from_slice(&[0x2f]);
    let path = U16Str::from_slice(&[0x61, 0x2f, 0x62, 0x2f, 0x63]);
    let path = path.replacen(rt.alloc(), slash, U16Str::from_slice(&[0x5c]), 1)?;
    Ok(path.as_slice() == [0x61, 0x5c, 0x62, 0x2f, 0x63].as_slice())
}

// Returns whether the examples of this module hold.
pub(crate) fn hold(rt: &HostRuntime) -> bool {
    let mut all = holds(rt, "UCStrReplace", example_of_ucstrreplace(rt));
    all &= holds(
        rt,
        "UCStrReplace::replace",
        example_of_ucstrreplace_replace(rt),
    );
    all &= holds(
        rt,
        "UCStrReplace::replacen",
        example_of_ucstrreplace_replacen(rt),
    );
    all &= holds(rt, "UtfStrReplace", example_of_utfstrreplace(rt));
    all &= holds(
        rt,
        "UtfStrReplace::replace",
        example_of_utfstrreplace_replace(rt),
    );
    all &= holds(
        rt,
        "UtfStrReplace::replacen",
        example_of_utfstrreplace_replacen(rt),
    );
    all &= holds(rt, "UStrReplace", example_of_ustrreplace(rt));
    all &= holds(
        rt,
        "UStrReplace::replace",
        example_of_ustrreplace_replace(rt),
    );
    all &= holds(
        rt,
        "UStrReplace::replacen",
        example_of_ustrreplace_replacen(rt),
    );
    all
}
