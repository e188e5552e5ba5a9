//! The examples of `widestring::ustring`.
use crate::holds;
use std::test::Fail;
use widestring::ustring::extend::{Appendable, Whole, extend};
use widestring::ustring::{CowU16Str, U16String, U32String, UStrInUstring};
use widestring::{U16Str, Utf16String};

fn example_of_ustring(rt: &HostRuntime) -> Result<bool, Fail> {
    let mut name = U16String::from_str(rt.alloc(), "C:\\temp")?;
    name.push_slice(&[0x5c, 0xd800])?;
    let mut holds = name.len() == 9;
    holds &= name.as_ustr().get(7..) == Some(U16Str::from_slice(&[0x5c, 0xd800]));
    Ok(holds)
}

fn example_of_ustring_with_capacity(rt: &HostRuntime) -> Result<bool, Fail> {
    let mut string = U16String::with_capacity(rt.alloc(), 4)?;
    let mut holds = string.is_empty();
    holds &= string.capacity() >= 4;
    holds &= string.push_str("Hi😀").is_ok();
    Ok(holds)
}

fn example_of_ustring_from_str(rt: &HostRuntime) -> Result<bool, Fail> {
    let string = U16String::from_str(rt.alloc(), "é😀")?;
    let mut holds = string.as_slice() == [0xe9, 0xd83d, 0xde00].as_slice();
    let string = U32String::from_str(rt.alloc(), "é😀")?;
    holds &= string.as_slice() == [0xe9, 0x1f600].as_slice();
    Ok(holds)
}

fn example_of_ustring_as_ustr(rt: &HostRuntime) -> Result<bool, Fail> {
    let string = U16String::from_str(rt.alloc(), "Заголовок")?;
    Ok(string.as_ustr().find_char('г') == Some(2))
}

fn example_of_ustring_capacity(rt: &HostRuntime) -> Result<bool, Fail> {
    let mut string = U16String::new(rt.alloc());
    let mut holds = string.capacity() == 0;
    string.push_str("Hi😀")?;
    holds &= string.capacity() >= 4;
    Ok(holds)
}

fn example_of_ustring_reserve(rt: &HostRuntime) -> Result<bool, Fail> {
    let mut string = U16String::from_str(rt.alloc(), "Hi")?;
    string.reserve(8)?;
    let mut holds = string.capacity() >= 10;
    holds &= string.as_slice() == [0x48, 0x69].as_slice();
    Ok(holds)
}

fn example_of_ustring_shrink_to_fit(rt: &HostRuntime) -> Result<bool, Fail> {
    let mut string = U16String::with_capacity(rt.alloc(), 64)?;
    string.push_str("Hi")?;
    let before = string.capacity();
    string.shrink_to_fit()?;
    let mut holds = string.capacity() < before;
    holds &= string.as_slice() == [0x48, 0x69].as_slice();
    Ok(holds)
}

fn example_of_ustring_push(rt: &HostRuntime) -> Result<bool, Fail> {
    let mut string = U16String::from_str(rt.alloc(), "Hi")?;
    string.push(U16Str::from_slice(&[0x21, 0xd83d]))?;
    Ok(string.as_slice() == [0x48, 0x69, 0x21, 0xd83d].as_slice())
}

fn example_of_ustring_clear(rt: &HostRuntime) -> Result<bool, Fail> {
    let mut string = U16String::from_str(rt.alloc(), "Hi")?;
    let capacity = string.capacity();
    string.clear();
    let mut holds = string.is_empty();
    holds &= string.capacity() == capacity;
    Ok(holds)
}

fn example_of_ustring_truncate(rt: &HostRuntime) -> Result<bool, Fail> {
    let mut string = U16String::from_str(rt.alloc(), "H😀")?;
    string.truncate(2);
    Ok(string.as_slice() == [0x48, 0xd83d].as_slice())
}

fn example_of_ustring_retain(rt: &HostRuntime) -> Result<bool, Fail> {
    let mut string = U16String::from_vec([0x48, 0, 0xd83d, 0].to_vec(rt.alloc())?);
    string.retain(|unit| unit != 0);
    Ok(string.as_slice() == [0x48, 0xd83d].as_slice())
}

fn example_of_ustring_push_char(rt: &HostRuntime) -> Result<bool, Fail> {
    let mut string = U16String::new(rt.alloc());
    string.push_char('😀')?;
    Ok(string.as_slice() == [0xd83d, 0xde00].as_slice())
}

fn example_of_ustring_push_str(rt: &HostRuntime) -> Result<bool, Fail> {
    let mut path = U16String::from_str(rt.alloc(), "C:")?;
    path.push_str("\\temp")?;
    let text = path.as_ustr().to_string(rt.alloc())?;
    Ok(text.as_str() == "C:\\temp")
}

fn example_of_ustring_split_off(rt: &HostRuntime) -> Result<bool, Fail> {
    let mut string = U16String::from_vec([0x48, 0xd83d, 0xde00].to_vec(rt.alloc())?);
    let rest = string.split_off(2)?;
    let mut holds = string.as_slice() == [0x48, 0xd83d].as_slice();
    holds &= rest.as_slice() == [0xde00].as_slice();
    Ok(holds)
}

fn example_of_ustring_pop_char(rt: &HostRuntime) -> Result<bool, Fail> {
    let mut string = U16String::from_vec([0xd83d, 0xde00, 0xd83d].to_vec(rt.alloc())?);
    let mut holds = string.pop_char() == Some(0xd83d);
    holds &= string.pop_char() == Some(0x1f600);
    holds &= string.pop_char().is_none();
    Ok(holds)
}

fn example_of_ustring_try_clone(rt: &HostRuntime) -> Result<bool, Fail> {
    let string = U16String::from_str(rt.alloc(), "Hi")?;
    let mut copy = string.try_clone()?;
    copy.truncate(1);
    let mut holds = copy.as_slice() == [0x48].as_slice();
    holds &= string.as_slice() == [0x48, 0x69].as_slice();
    Ok(holds)
}

fn example_of_ustring_make_ascii_lowercase(rt: &HostRuntime) -> Result<bool, Fail> {
    let mut text = U16String::from_str(rt.alloc(), "C:\\Temp")?;
    text.make_ascii_lowercase();
    Ok(text.as_ustr().chars_lossy().eq("c:\\temp".chars()))
}

fn example_of_ustring_make_ascii_uppercase(rt: &HostRuntime) -> Result<bool, Fail> {
    let mut text = U16String::from_str(rt.alloc(), "Größe")?;
    text.make_ascii_uppercase();
    Ok(text.as_ustr().chars_lossy().eq("GRößE".chars()))
}

fn example_of_ustring_extend_ustrs(rt: &HostRuntime) -> Result<bool, Fail> {
    let path = U16Str::from_slice(&[0x5c, 0x61, 0x5c, 0xd83d]);
    let mut name = U16String::from_str(rt.alloc(), "-")?;
    name.extend_ustrs(path.split_char('\\'))?;
    Ok(name.as_slice() == [0x2d, 0x61, 0xd83d].as_slice())
}

fn example_of_ustring_from_iter_ustrs(rt: &HostRuntime) -> Result<bool, Fail> {
    let words = [
        U16Str::from_slice(&[0x48, 0x69]),
        U16Str::from_slice(&[0xd83d]),
    ];
    let joined = U16String::from_iter_ustrs(rt.alloc(), words)?;
    Ok(joined.as_slice() == [0x48, 0x69, 0xd83d].as_slice())
}

fn example_of_ustring_replace_with(rt: &HostRuntime) -> Result<bool, Fail> {
    let mut path = U16String::from_str(rt.alloc(), "C:/temp/é")?;
    let backslash = U16Str::from_slice(&[0x5c]);
    path.replace_with(U16Str::from_slice(&[0x2f]), backslash);
    Ok(path.as_ustr().chars_lossy().eq("C:\\temp\\é".chars()))
}

fn example_of_ustring_extend_from_within(rt: &HostRuntime) -> Result<bool, Fail> {
    let mut string = U16String::from_vec([0x61, 0xd83d, 0xde00].to_vec(rt.alloc())?);
    string.extend_from_within(..2)?;
    Ok(string.as_slice() == [0x61, 0xd83d, 0xde00, 0x61, 0xd83d].as_slice())
}

fn example_of_cowustr(rt: &HostRuntime) -> Result<bool, Fail> {
    let cow = CowU16Str::Borrowed(U16Str::from_slice(&[0x48, 0xd83d]));
    let mut string = cow.into_owned(rt.alloc())?;
    string.truncate(1);
    Ok(string.as_slice() == [0x48].as_slice())
}

fn example_of_boxedustr(rt: &HostRuntime) -> Result<bool, Fail> {
    let string = U16String::from_str(rt.alloc(), "Hi")?;
    let boxed = string.into_boxed_ustr()?;
    let mut holds = boxed.as_ustr().len() == 2;
    holds &= boxed.into_ustring().capacity() == 2;
    Ok(holds)
}

fn example_of_drain(rt: &HostRuntime) -> Result<bool, Fail> {
    let mut string = U16String::from_vec([0x48, 0x69, 0x21].to_vec(rt.alloc())?);
    let first = string.drain(1..).next();
    let mut holds = first == Some(0x69);
    holds &= string.as_slice() == [0x48].as_slice();
    Ok(holds)
}

fn example_of_growing(rt: &HostRuntime) -> Result<bool, Fail> {
    let mut path = Utf16String::from_str(rt.alloc(), "C:")?;
    extend(&mut path, ["\\temp", "\\é"])?;
    Ok(path.as_utfstr().eq_str("C:\\temp\\é"))
}

fn example_of_appendable(rt: &HostRuntime) -> Result<bool, Fail> {
    let mut string = U16String::new(rt.alloc());
    '😀'.push_to(&mut string)?;
    "!".push_to(&mut string)?;
    Ok(string.as_slice() == [0xd83d, 0xde00, 0x21].as_slice())
}

fn example_of_whole(rt: &HostRuntime) -> Result<bool, Fail> {
    let mut string = U16String::new(rt.alloc());
    <char as Appendable<U16String, Whole>>::push_to('é', &mut string)?;
    Ok(string.as_slice() == [0xe9].as_slice())
}

fn example_of_ustrinustring(rt: &HostRuntime) -> Result<bool, Fail> {
    let line = U16Str::from_slice(&[0x2d, 0x20]).repeat(rt.alloc(), 2)?;
    Ok(line.as_slice() == [0x2d, 0x20, 0x2d, 0x20].as_slice())
}

fn example_of_ustrinustring_to_ustring(rt: &HostRuntime) -> Result<bool, Fail> {
    let mut copy = U16Str::from_slice(&[0x48, 0x69, 0xd83d]).to_ustring(rt.alloc())?;
    copy.push_str("!")?;
    Ok(copy.as_slice() == [0x48, 0x69, 0xd83d, 0x21].as_slice())
}

fn example_of_ustrinustring_to_ascii_lowercase(rt: &HostRuntime) -> Result<bool, Fail> {
    let text = U16String::from_str(rt.alloc(), "C:\\Temp")?;
    let text = text.as_ustr().to_ascii_lowercase(rt.alloc())?;
    Ok(text.as_ustr().chars_lossy().eq("c:\\temp".chars()))
}

fn example_of_ustrinustring_to_ascii_uppercase(rt: &HostRuntime) -> Result<bool, Fail> {
    let text = U16String::from_str(rt.alloc(), "Größe")?;
    let text = text.as_ustr().to_ascii_uppercase(rt.alloc())?;
    Ok(text.as_ustr().chars_lossy().eq("GRößE".chars()))
}

// Returns whether the examples of this module hold.
pub(crate) fn hold(rt: &HostRuntime) -> bool {
    let mut all = holds(rt, "UString", example_of_ustring(rt));
    all &= holds(
        rt,
        "UString::with_capacity",
        example_of_ustring_with_capacity(rt),
    );
    all &= holds(rt, "UString::from_str", example_of_ustring_from_str(rt));
    all &= holds(rt, "UString::as_ustr", example_of_ustring_as_ustr(rt));
    all &= holds(rt, "UString::capacity", example_of_ustring_capacity(rt));
    all &= holds(rt, "UString::reserve", example_of_ustring_reserve(rt));
    all &= holds(
        rt,
        "UString::shrink_to_fit",
        example_of_ustring_shrink_to_fit(rt),
    );
    all &= holds(rt, "UString::push", example_of_ustring_push(rt));
    all &= holds(rt, "UString::clear", example_of_ustring_clear(rt));
    all &= holds(rt, "UString::truncate", example_of_ustring_truncate(rt));
    all &= holds(rt, "UString::retain", example_of_ustring_retain(rt));
    all &= holds(rt, "UString::push_char", example_of_ustring_push_char(rt));
    all &= part_2_holds(rt);
    all &= part_3_holds(rt);
    all
}

fn part_2_holds(rt: &HostRuntime) -> bool {
    let mut all = holds(rt, "UString::push_str", example_of_ustring_push_str(rt));
    all &= holds(rt, "UString::split_off", example_of_ustring_split_off(rt));
    all &= holds(rt, "UString::pop_char", example_of_ustring_pop_char(rt));
    all &= holds(rt, "UString::try_clone", example_of_ustring_try_clone(rt));
    all &= holds(
        rt,
        "UString::make_ascii_lowercase",
        example_of_ustring_make_ascii_lowercase(rt),
    );
    all &= holds(
        rt,
        "UString::make_ascii_uppercase",
        example_of_ustring_make_ascii_uppercase(rt),
    );
    all &= holds(
        rt,
        "UString::extend_ustrs",
        example_of_ustring_extend_ustrs(rt),
    );
    all &= holds(
        rt,
        "UString::from_iter_ustrs",
        example_of_ustring_from_iter_ustrs(rt),
    );
    all &= holds(
        rt,
        "UString::replace_with",
        example_of_ustring_replace_with(rt),
    );
    all &= holds(
        rt,
        "UString::extend_from_within",
        example_of_ustring_extend_from_within(rt),
    );
    all &= holds(rt, "CowUStr", example_of_cowustr(rt));
    all &= holds(rt, "BoxedUStr", example_of_boxedustr(rt));
    all
}

fn part_3_holds(rt: &HostRuntime) -> bool {
    let mut all = holds(rt, "Drain", example_of_drain(rt));
    all &= holds(rt, "Growing", example_of_growing(rt));
    all &= holds(rt, "Appendable", example_of_appendable(rt));
    all &= holds(rt, "Whole", example_of_whole(rt));
    all &= holds(rt, "UStrInUstring", example_of_ustrinustring(rt));
    all &= holds(
        rt,
        "UStrInUstring::to_ustring",
        example_of_ustrinustring_to_ustring(rt),
    );
    all &= holds(
        rt,
        "UStrInUstring::to_ascii_lowercase",
        example_of_ustrinustring_to_ascii_lowercase(rt),
    );
    all &= holds(
        rt,
        "UStrInUstring::to_ascii_uppercase",
        example_of_ustrinustring_to_ascii_uppercase(rt),
    );
    all
}
