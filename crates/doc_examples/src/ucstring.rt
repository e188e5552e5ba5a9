//! The examples of `widestring::ucstring`.
use crate::holds;
use std::test::Fail;
use widestring::error::OutOfMemory;
use widestring::ucstring::{
    CowU16CStr, U16CString, UCStrInUcstring, UStringInUcstring, UStringOverUcstrs,
};
use widestring::ustring::extend::Appendable;
use widestring::{U16CStr, U16Str, U16String};

fn example_of_ucstring(rt: &HostRuntime) -> Result<bool, Fail> {
    let path = U16CString::from_str(rt.alloc(), "C:\\temp")?;
    let view = path.as_ucstr();
    let mut holds = view.len() == 7;
    holds &= view.as_slice_with_nul().last() == Some(&0);
    Ok(holds)
}

fn example_of_ucstring_from_vec(rt: &HostRuntime) -> Result<bool, Fail> {
    let units = [0x48, 0x69].to_vec(rt.alloc())?;
    let name = U16CString::from_vec(units)?;
    Ok(name.as_ucstr().as_slice_with_nul() == [0x48, 0x69, 0].as_slice())
}

fn example_of_ucstring_from_vec_truncate(rt: &HostRuntime) -> Result<bool, Fail> {
    let buffer = [0x48, 0x69, 0, 0x21, 0].to_vec(rt.alloc())?;
    let name = U16CString::from_vec_truncate(buffer)?;
    Ok(name.as_ucstr().as_slice() == [0x48, 0x69].as_slice())
}

fn example_of_ucstring_from_ustr(rt: &HostRuntime) -> Result<bool, Fail> {
    let view = U16Str::from_slice(&[0x48, 0xd83d]);
    let name = U16CString::from_ustr(rt.alloc(), view)?;
    Ok(name.as_ucstr().as_slice_with_nul() == [0x48, 0xd83d, 0].as_slice())
}

fn example_of_ucstring_from_ustr_truncate(rt: &HostRuntime) -> Result<bool, Fail> {
    let buffer = U16Str::from_slice(&[0x48, 0xd83d, 0, 0x21]);
    let name = U16CString::from_ustr_truncate(rt.alloc(), buffer)?;
    Ok(name.as_ucstr().as_slice_with_nul() == [0x48, 0xd83d, 0].as_slice())
}

fn example_of_ucstring_from_str(rt: &HostRuntime) -> Result<bool, Fail> {
    let name = U16CString::from_str(rt.alloc(), "é😀")?;
    let mut holds = name.as_ucstr().as_slice_with_nul() == [0xe9, 0xd83d, 0xde00, 0].as_slice();
    holds &= U16CString::from_str(rt.alloc(), "Hi\0there").is_err();
    Ok(holds)
}

fn example_of_ucstring_from_str_truncate(rt: &HostRuntime) -> Result<bool, Fail> {
    let name = U16CString::from_str_truncate(rt.alloc(), "é\0Hi\0")?;
    let mut holds = name.as_ucstr().as_slice_with_nul() == [0xe9, 0].as_slice();
    let name = U16CString::from_str_truncate(rt.alloc(), "😀")?;
    holds &= name.as_ucstr().as_slice_with_nul() == [0xd83d, 0xde00, 0].as_slice();
    Ok(holds)
}

fn example_of_ucstring_from_str_literal(rt: &HostRuntime) -> Result<bool, Fail> {
    let name = U16CString::from_str_literal(rt.alloc(), "é😀")?;
    let mut holds = name.as_ucstr().as_slice_with_nul() == [0xe9, 0xd83d, 0xde00, 0].as_slice();
    holds &= U16CString::from_str_literal(rt.alloc(), "Hi\0").is_err();
    Ok(holds)
}

fn example_of_ucstring_as_ucstr(rt: &HostRuntime) -> Result<bool, Fail> {
    let name = U16CString::from_str(rt.alloc(), "Заголовок")?;
    let text = name.as_ucstr().to_string(rt.alloc())?;
    Ok(text.as_str() == "Заголовок")
}

fn example_of_ucstring_into_vec_with_nul(rt: &HostRuntime) -> Result<bool, Fail> {
    let name = U16CString::from_str(rt.alloc(), "Hi")?;
    let units = name.into_vec_with_nul();
    Ok(units.as_slice() == [0x48, 0x69, 0].as_slice())
}

fn example_of_ucstring_into_ustring(rt: &HostRuntime) -> Result<bool, Fail> {
    let name = U16CString::from_str(rt.alloc(), "Hi")?;
    Ok(name.into_ustring().len() == 2)
}

fn example_of_ucstring_make_ascii_lowercase(rt: &HostRuntime) -> Result<bool, Fail> {
    let mut text = U16CString::from_str(rt.alloc(), "C:\\Temp")?;
    text.make_ascii_lowercase();
    Ok(text.as_ucstr().chars_lossy().eq("c:\\temp".chars()))
}

fn example_of_ucstring_make_ascii_uppercase(rt: &HostRuntime) -> Result<bool, Fail> {
    let mut text = U16CString::from_str(rt.alloc(), "Größe")?;
    text.make_ascii_uppercase();
    Ok(text.as_ucstr().chars_lossy().eq("GRößE".chars()))
}

fn example_of_ucstring_replace_with(rt: &HostRuntime) -> Result<bool, Fail> {
    let mut path = U16CString::from_str(rt.alloc(), "C:/temp/é")?;
    let slash = U16CStr::from_slice(&[0x2f, 0])?;
    path.replace_with(slash, U16CStr::from_slice(&[0x5c, 0])?);
    Ok(path.as_ucstr().chars_lossy().eq("C:\\temp\\é".chars()))
}

fn example_of_cowucstr(rt: &HostRuntime) -> Result<bool, Fail> {
    let view = U16CStr::from_slice(&[0x48, 0x69, 0])?;
    let name: CowU16CStr<'_> = CowU16CStr::Borrowed(view);
    let owned = name.into_owned(rt.alloc())?;
    Ok(owned.as_ucstr() == view)
}

fn example_of_boxeducstr(rt: &HostRuntime) -> Result<bool, Fail> {
    let name = U16CString::from_str(rt.alloc(), "Hi")?;
    let Ok(boxed) = name.into_boxed_ucstr() else {
        return Err(OutOfMemory.into());
    };
    Ok(boxed.as_ucstr().as_slice_with_nul() == [0x48, 0x69, 0].as_slice())
}

fn example_of_ucstrinucstring(rt: &HostRuntime) -> Result<bool, Fail> {
    let word = U16CStr::from_slice(&[0x48, 0x69, 0])?;
    let twice = word.repeat(rt.alloc(), 2)?;
    Ok(twice.as_ucstr().chars_lossy().eq("HiHi".chars()))
}

fn example_of_ucstrinucstring_to_ucstring(rt: &HostRuntime) -> Result<bool, Fail> {
    let name = U16CStr::from_slice(&[0x48, 0x69, 0])?;
    let copy = name.to_ucstring(rt.alloc())?;
    Ok(copy.as_ucstr().len() == 2)
}

fn example_of_ucstrinucstring_to_ascii_lowercase(rt: &HostRuntime) -> Result<bool, Fail> {
    let text = U16CString::from_str(rt.alloc(), "C:\\Temp")?;
    let text = text.as_ucstr().to_ascii_lowercase(rt.alloc())?;
    Ok(text.as_ucstr().chars_lossy().eq("c:\\temp".chars()))
}

fn example_of_ucstrinucstring_to_ascii_uppercase(rt: &HostRuntime) -> Result<bool, Fail> {
    let text = U16CString::from_str(rt.alloc(), "Größe")?;
    let text = text.as_ucstr().to_ascii_uppercase(rt.alloc())?;
    Ok(text.as_ucstr().chars_lossy().eq("GRößE".chars()))
}

fn example_of_ofcstrings(rt: &HostRuntime) -> Result<bool, Fail> {
    let mut text = U16String::from_str(rt.alloc(), "Hi")?;
    U16CStr::from_slice(&[0x21, 0])?.push_to(&mut text)?;
    Ok(text.as_slice() == [0x48, 0x69, 0x21].as_slice())
}

fn example_of_ustringinucstring(rt: &HostRuntime) -> Result<bool, Fail> {
    let mut path = U16String::from_str(rt.alloc(), "C:")?;
    path.extend_ucstrings([U16CString::from_str(rt.alloc(), "\\temp")?])?;
    Ok(path.as_ustr().chars_lossy().eq("C:\\temp".chars()))
}

fn example_of_ustringoverucstrs(rt: &HostRuntime) -> Result<bool, Fail> {
    let mut text = U16String::new(rt.alloc());
    let word = U16CStr::from_slice(&[0x48, 0x69, 0])?;
    text.extend_ucstrs([word, word])?;
    Ok(text.as_slice() == [0x48, 0x69, 0x48, 0x69].as_slice())
}

// Returns whether the examples of this module hold.
pub(crate) fn hold(rt: &HostRuntime) -> bool {
    let mut all = holds(rt, "UCString", example_of_ucstring(rt));
    all &= holds(rt, "UCString::from_vec", example_of_ucstring_from_vec(rt));
    all &= holds(
        rt,
        "UCString::from_vec_truncate",
        example_of_ucstring_from_vec_truncate(rt),
    );
    all &= holds(rt, "UCString::from_ustr", example_of_ucstring_from_ustr(rt));
    all &= holds(
        rt,
        "UCString::from_ustr_truncate",
        example_of_ucstring_from_ustr_truncate(rt),
    );
    all &= holds(rt, "UCString::from_str", example_of_ucstring_from_str(rt));
    all &= holds(
        rt,
        "UCString::from_str_truncate",
        example_of_ucstring_from_str_truncate(rt),
    );
    all &= holds(
        rt,
        "UCString::from_str_literal",
        example_of_ucstring_from_str_literal(rt),
    );
    all &= holds(rt, "UCString::as_ucstr", example_of_ucstring_as_ucstr(rt));
    all &= holds(
        rt,
        "UCString::into_vec_with_nul",
        example_of_ucstring_into_vec_with_nul(rt),
    );
    all &= holds(
        rt,
        "UCString::into_ustring",
        example_of_ucstring_into_ustring(rt),
    );
    all &= holds(
        rt,
        "UCString::make_ascii_lowercase",
        example_of_ucstring_make_ascii_lowercase(rt),
    );
    all &= part_2_holds(rt);
    all
}

fn part_2_holds(rt: &HostRuntime) -> bool {
    let mut all = holds(
        rt,
        "UCString::make_ascii_uppercase",
        example_of_ucstring_make_ascii_uppercase(rt),
    );
    all &= holds(
        rt,
        "UCString::replace_with",
        example_of_ucstring_replace_with(rt),
    );
    all &= holds(rt, "CowUCStr", example_of_cowucstr(rt));
    all &= holds(rt, "BoxedUCStr", example_of_boxeducstr(rt));
    all &= holds(rt, "UCStrInUcstring", example_of_ucstrinucstring(rt));
    all &= holds(
        rt,
        "UCStrInUcstring::to_ucstring",
        example_of_ucstrinucstring_to_ucstring(rt),
    );
    all &= holds(
        rt,
        "UCStrInUcstring::to_ascii_lowercase",
        example_of_ucstrinucstring_to_ascii_lowercase(rt),
    );
    all &= holds(
        rt,
        "UCStrInUcstring::to_ascii_uppercase",
        example_of_ucstrinucstring_to_ascii_uppercase(rt),
    );
    all &= holds(rt, "OfCStrings", example_of_ofcstrings(rt));
    all &= holds(rt, "UStringInUcstring", example_of_ustringinucstring(rt));
    all &= holds(rt, "UStringOverUcstrs", example_of_ustringoverucstrs(rt));
    all
}
