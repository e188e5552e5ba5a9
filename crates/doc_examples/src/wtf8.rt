//! The examples of `widestring::wtf8`.
use crate::holds;
use std::test::Fail;
use widestring::wtf8::{
    FromWtf8, FromWtf8Error, ToWtf8, Wtf8Fault, append_wtf8, check_wtf8, from_wtf8, to_wtf8,
    write_from_wtf8, write_wtf8, wtf8_len, wtf8_units_len,
};
use widestring::{U16CStr, U16Str, U16String, Utf16Str};

fn example_of_wtf8fault() -> Result<bool, Fail> {
    let fault = check_wtf8(&[0x41, 0xed, 0xa0, 0xbd, 0xed, 0xb8, 0x80]).err();
    Ok(fault == Some(Wtf8Fault { index: 4, len: 3 }))
}

fn example_of_fromwtf8error(rt: &HostRuntime) -> Result<bool, Fail> {
    let error = U16String::from_wtf8(rt.alloc(), &[0x41, 0x80]).err();
    Ok(matches!(error, Some(FromWtf8Error::Fault(fault)) if fault.index == 1))
}

fn example_of_fromwtf8(rt: &HostRuntime) -> Result<bool, Fail> {
    let name = U16Str::from_slice(&[0x43, 0x3a, 0xd800]);
    let text = name.to_wtf8(rt.alloc())?;
    let read = U16String::from_wtf8(rt.alloc(), text.as_slice())?;
    Ok(read.as_ustr() == name)
}

fn example_of_fromwtf8_from_wtf8(rt: &HostRuntime) -> Result<bool, Fail> {
    let string = U16String::from_wtf8(rt.alloc(), &[0x41, 0xed, 0xa0, 0xbd])?;
    Ok(string.as_slice() == [0x41, 0xd83d].as_slice())
}

fn example_of_towtf8(rt: &HostRuntime) -> Result<bool, Fail> {
    let name = U16Str::from_slice(&[0x43, 0x3a, 0xd800]);
    let text = name.to_wtf8(rt.alloc())?;
    Ok(text.as_slice() == [0x43, 0x3a, 0xed, 0xa0, 0x80].as_slice())
}

fn example_of_towtf8_wtf8_len() -> Result<bool, Fail> {
    let text = Utf16Str::from_slice(&[0x48, 0x69, 0xd83d, 0xde00])?;
    Ok(text.wtf8_len() == 6)
}

fn example_of_towtf8_write_wtf8() -> Result<bool, Fail> {
    let mut out = [0; 4];
    let name = U16CStr::from_slice(&[0x41, 0xd800, 0])?;
    let mut holds = name.write_wtf8(&mut out) == Some(4);
    holds &= out.as_slice() == [0x41, 0xed, 0xa0, 0x80].as_slice();
    Ok(holds)
}

fn example_of_towtf8_to_wtf8(rt: &HostRuntime) -> Result<bool, Fail> {
    let text = U16String::from_str(rt.alloc(), "é😀")?;
    let text = text.as_ustr().to_wtf8(rt.alloc())?;
    Ok(text.as_slice() == "é😀".as_bytes())
}

fn example_of_append_wtf8(rt: &HostRuntime) -> Result<bool, Fail> {
    let mut text = to_wtf8(rt.alloc(), &[0x41, 0xd83d])?;
    let more = to_wtf8(rt.alloc(), &[0xde00, 0x42])?;
    append_wtf8(&mut text, more.as_slice())?;
    Ok(text.as_slice() == "A😀B".as_bytes())
}

fn example_of_wtf8_units_len() -> Result<bool, Fail> {
    let mut holds = wtf8_units_len("Hi😀".as_bytes()) == Ok(4);
    holds &= wtf8_units_len(&[0x41, 0xed, 0xa0, 0xbd]) == Ok(2);
    Ok(holds)
}

fn example_of_check_wtf8() -> Result<bool, Fail> {
    let mut holds = check_wtf8(&[0x41, 0xed, 0xa0, 0xbd, 0x41]).is_ok();
    holds &= check_wtf8(&[0xed, 0xa0, 0xbd, 0xed, 0xb8, 0x80]).is_err();
    holds &= check_wtf8(&[0x41, 0xff]).is_err();
    Ok(holds)
}

fn example_of_write_wtf8() -> Result<bool, Fail> {
    let mut out = [0; 4];
    let mut holds = write_wtf8(&[0x41, 0xd83d], &mut out) == Some(4);
    holds &= out.as_slice() == [0x41, 0xed, 0xa0, 0xbd].as_slice();
    holds &= write_wtf8(&[0xd83d, 0xd83d], &mut out).is_none();
    Ok(holds)
}

fn example_of_to_wtf8(rt: &HostRuntime) -> Result<bool, Fail> {
    let text = to_wtf8(rt.alloc(), &[0x41, 0xd83d, 0xde00, 0xd83d])?;
    Ok(text.as_slice() == [0x41, 0xf0, 0x9f, 0x98, 0x80, 0xed, 0xa0, 0xbd].as_slice())
}

fn example_of_wtf8_len() -> Result<bool, Fail> {
    Ok(wtf8_len(&[0x48, 0x69, 0xd83d, 0xde00, 0xd83d]) == 9)
}

fn example_of_write_from_wtf8() -> Result<bool, Fail> {
    let mut units = [0; 2];
    let mut holds = write_from_wtf8(&[0x41, 0xed, 0xa0, 0xbd], &mut units) == Ok(Some(2));
    holds &= units.as_slice() == [0x41, 0xd83d].as_slice();
    holds &= write_from_wtf8("abc".as_bytes(), &mut units) == Ok(None);
    Ok(holds)
}

fn example_of_from_wtf8(rt: &HostRuntime) -> Result<bool, Fail> {
    let string = from_wtf8(rt.alloc(), &[0x41, 0xed, 0xa0, 0xbd])?;
    Ok(string.as_slice() == [0x41, 0xd83d].as_slice())
}

// Returns whether the examples of this module hold.
pub(crate) fn hold(rt: &HostRuntime) -> bool {
    let mut all = holds(rt, "Wtf8Fault", example_of_wtf8fault());
    all &= holds(rt, "FromWtf8Error", example_of_fromwtf8error(rt));
    all &= holds(rt, "FromWtf8", example_of_fromwtf8(rt));
    all &= holds(rt, "FromWtf8::from_wtf8", example_of_fromwtf8_from_wtf8(rt));
    all &= holds(rt, "ToWtf8", example_of_towtf8(rt));
    all &= holds(rt, "ToWtf8::wtf8_len", example_of_towtf8_wtf8_len());
    all &= holds(rt, "ToWtf8::write_wtf8", example_of_towtf8_write_wtf8());
    all &= holds(rt, "ToWtf8::to_wtf8", example_of_towtf8_to_wtf8(rt));
    all &= holds(rt, "append_wtf8", example_of_append_wtf8(rt));
    all &= holds(rt, "wtf8_units_len", example_of_wtf8_units_len());
    all &= holds(rt, "check_wtf8", example_of_check_wtf8());
    all &= holds(rt, "write_wtf8", example_of_write_wtf8());
    all &= part_2_holds(rt);
    all
}

fn part_2_holds(rt: &HostRuntime) -> bool {
    let mut all = holds(rt, "to_wtf8", example_of_to_wtf8(rt));
    all &= holds(rt, "wtf8_len", example_of_wtf8_len());
    all &= holds(rt, "write_from_wtf8", example_of_write_from_wtf8());
    all &= holds(rt, "from_wtf8", example_of_from_wtf8(rt));
    all
}
