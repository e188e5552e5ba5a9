//! The examples of `widestring::utfstring`.
use crate::holds;
use std::test::Fail;
use widestring::ustring::extend::Appendable;
use widestring::utfstring::{
    CowUtf16Str, OfText, UStringInUtfstring, UStringOverUtfstrs, Utf16String, Utf32String,
    UtfStrInUtfstring,
};
use widestring::{Policy, U16Str, U16String, Utf16Str};

fn example_of_utfstring(rt: &HostRuntime) -> Result<bool, Fail> {
    let mut text = Utf16String::from_str(rt.alloc(), "Hi😀")?;
    let mut holds = text.len() == 4;
    holds &= text.pop() == Some('😀');
    holds &= text.len() == 2;
    Ok(holds)
}

fn example_of_utfstring_from_vec(rt: &HostRuntime) -> Result<bool, Fail> {
    let text = Utf16String::from_vec([0xd83d, 0xde00].to_vec(rt.alloc())?)?;
    let mut holds = text.as_utfstr().eq_str("😀");
    let fault = Utf16String::from_vec([0x48, 0xd83d].to_vec(rt.alloc())?).err();
    holds &= fault.map(|fault| fault.index()) == Some(1);
    Ok(holds)
}

fn example_of_utfstring_from_ustring(rt: &HostRuntime) -> Result<bool, Fail> {
    let units = U16String::from_str(rt.alloc(), "é😀")?;
    let text = Utf16String::from_ustring(units)?;
    Ok(text.as_utfstr().eq_str("é😀"))
}

fn example_of_utfstring_from_str(rt: &HostRuntime) -> Result<bool, Fail> {
    let text = Utf16String::from_str(rt.alloc(), "é😀")?;
    Ok(text.as_slice() == [0xe9, 0xd83d, 0xde00].as_slice())
}

fn example_of_utfstring_as_utfstr(rt: &HostRuntime) -> Result<bool, Fail> {
    let text = Utf16String::from_str(rt.alloc(), "  Заголовок\n")?;
    Ok(text.as_utfstr().trim().eq_str("Заголовок"))
}

fn example_of_utfstring_into_ustring(rt: &HostRuntime) -> Result<bool, Fail> {
    let text = Utf16String::from_str(rt.alloc(), "😀")?;
    let units = text.into_ustring();
    Ok(units.as_slice() == [0xd83d, 0xde00].as_slice())
}

fn example_of_utfstring_reserve(rt: &HostRuntime) -> Result<bool, Fail> {
    let mut text = Utf16String::from_str(rt.alloc(), "é😀")?;
    text.reserve(8)?;
    let mut holds = text.capacity() >= 11;
    holds &= text.as_utfstr().eq_str("é😀");
    Ok(holds)
}

fn example_of_utfstring_clear(rt: &HostRuntime) -> Result<bool, Fail> {
    let mut text = Utf16String::from_str(rt.alloc(), "Hi😀")?;
    let capacity = text.capacity();
    text.clear();
    let mut holds = text.is_empty();
    holds &= text.capacity() == capacity;
    Ok(holds)
}

fn example_of_utfstring_push(rt: &HostRuntime) -> Result<bool, Fail> {
    let mut text = Utf16String::from_str(rt.alloc(), "Hi")?;
    text.push('😀')?;
    Ok(text.as_slice() == [0x48, 0x69, 0xd83d, 0xde00].as_slice())
}

fn example_of_utfstring_push_str(rt: &HostRuntime) -> Result<bool, Fail> {
    let mut path = Utf16String::from_str(rt.alloc(), "C:")?;
    path.push_str("\\temp")?;
    Ok(path.as_utfstr().eq_str("C:\\temp"))
}

fn example_of_utfstring_push_utfstr(rt: &HostRuntime) -> Result<bool, Fail> {
    let mut text = Utf16String::from_str(rt.alloc(), "Hi")?;
    text.push_utfstr(Utf16Str::from_slice(&[0x20, 0xd83d, 0xde00])?)?;
    Ok(text.as_utfstr().eq_str("Hi 😀"))
}

fn example_of_utfstring_pop(rt: &HostRuntime) -> Result<bool, Fail> {
    let mut text = Utf16String::from_str(rt.alloc(), "é😀")?;
    let mut holds = text.pop() == Some('😀');
    holds &= text.pop() == Some('é');
    holds &= text.pop().is_none();
    Ok(holds)
}

fn example_of_utfstring_insert(rt: &HostRuntime) -> Result<bool, Fail> {
    let mut text = Utf16String::from_str(rt.alloc(), "😀!")?;
    if let Some(at) = text.as_utfstr().find_char('!') {
        text.insert(at, 'é')?;
    }
    Ok(text.as_utfstr().eq_str("😀é!"))
}

fn example_of_utfstring_insert_utfstr(rt: &HostRuntime) -> Result<bool, Fail> {
    let mut path = Utf16String::from_str(rt.alloc(), "temp")?;
    path.insert_utfstr(0, Utf16Str::from_slice(&[0x43, 0x3a, 0x5c])?)?;
    Ok(path.as_utfstr().eq_str("C:\\temp"))
}

fn example_of_utfstring_truncate(rt: &HostRuntime) -> Result<bool, Fail> {
    let mut text = Utf16String::from_str(rt.alloc(), "Hi😀")?;
    let end = text.as_utfstr().floor_char_boundary(3);
    text.truncate(end);
    Ok(text.as_utfstr().eq_str("Hi"))
}

fn example_of_utfstring_split_off(rt: &HostRuntime) -> Result<bool, Fail> {
    let mut holds = true;
    let mut text = Utf16String::from_str(rt.alloc(), "Hi😀!")?;
    if let Some(at) = text.as_utfstr().find_char('😀') {
        let rest = text.split_off(at)?;
        holds &= rest.as_utfstr().eq_str("😀!");
    }
    holds &= text.as_utfstr().eq_str("Hi");
    Ok(holds)
}

fn example_of_utfstring_remove(rt: &HostRuntime) -> Result<bool, Fail> {
    let mut holds = true;
    let mut text = Utf16String::from_str(rt.alloc(), "Hi😀!")?;
    let at = text.as_utfstr().floor_char_boundary(3);
    if at < text.len() {
        holds &= text.remove(at) == '😀';
    }
    holds &= text.as_utfstr().eq_str("Hi!");
    Ok(holds)
}

fn example_of_utfstring_replace_range(rt: &HostRuntime) -> Result<bool, Fail> {
    let mut text = Utf16String::from_str(rt.alloc(), "Hi😀")?;
    if let Some(at) = text.as_utfstr().find_char('😀') {
        text.replace_range(at.., Utf16Str::from_slice(&[0x20, 0xe9])?)?;
    }
    Ok(text.as_utfstr().eq_str("Hi é"))
}

fn example_of_utfstring_splice_str(rt: &HostRuntime) -> Result<bool, Fail> {
    let mut path = Utf16String::from_str(rt.alloc(), "C:\\é")?;
    if let Some(at) = path.as_utfstr().find_char('\\') {
        path.splice_str(0, at, "D:")?;
    }
    Ok(path.as_utfstr().eq_str("D:\\é"))
}

fn example_of_utfstring_retain(rt: &HostRuntime) -> Result<bool, Fail> {
    let mut text = Utf16String::from_str(rt.alloc(), "é😀!")?;
    text.retain(|c| c != '😀');
    Ok(text.as_utfstr().eq_str("é!"))
}

fn example_of_utfstring_drain(rt: &HostRuntime) -> Result<bool, Fail> {
    let mut holds = true;
    let mut text = Utf16String::from_str(rt.alloc(), "Hi😀!")?;
    if let Some(at) = text.as_utfstr().find_char('😀') {
        let first = text.drain(at..).next();
        holds &= first == Some('😀');
    }
    holds &= text.as_utfstr().eq_str("Hi");
    Ok(holds)
}

fn example_of_utfstring_from_chars(rt: &HostRuntime) -> Result<bool, Fail> {
    let text = Utf32String::from_chars(rt.alloc(), &['H', '😀'])?;
    Ok(text.as_slice() == [0x48, 0x1f600].as_slice())
}

fn example_of_utfstring_from_slice_lossy(rt: &HostRuntime) -> Result<bool, Fail> {
    let text = Utf16String::from_slice_lossy(rt.alloc(), &[0x48, 0xd83d, 0x69])?;
    Ok(text.as_utfstr().eq_str("H\u{fffd}i"))
}

fn example_of_utfstring_from_slice_lossy_with(rt: &HostRuntime) -> Result<bool, Fail> {
    let units = [0x48, 0xdc00, 0xdc00, 0x69];
    let text = Utf16String::from_slice_lossy_with(rt.alloc(), &units, Policy::Run)?;
    Ok(text.as_utfstr().eq_str("H\u{fffd}i"))
}

fn example_of_utfstring_from_ustr_lossy(rt: &HostRuntime) -> Result<bool, Fail> {
    let view = U16Str::from_slice(&[0x48, 0xd83d, 0xde00]);
    let text = Utf16String::from_ustr_lossy(rt.alloc(), view)?;
    let mut holds = text.as_utfstr().eq_str("H😀");
    holds &= matches!(&text, CowUtf16Str::Borrowed(_));
    Ok(holds)
}

fn example_of_utfstring_from_ustr_lossy_with(rt: &HostRuntime) -> Result<bool, Fail> {
    let view = U16Str::from_slice(&[0x48, 0xdc00, 0xdc00, 0x69]);
    let text = Utf16String::from_ustr_lossy_with(rt.alloc(), view, Policy::Run)?;
    let mut holds = text.as_utfstr().eq_str("H\u{fffd}i");
    let text = Utf16String::from_ustr_lossy_with(rt.alloc(), view, Policy::Skip)?;
    holds &= text.as_utfstr().eq_str("Hi");
    Ok(holds)
}

fn example_of_utfstring_make_ascii_lowercase(rt: &HostRuntime) -> Result<bool, Fail> {
    let mut text = Utf16String::from_str(rt.alloc(), "C:\\Temp")?;
    text.make_ascii_lowercase();
    Ok(text.as_utfstr().eq_str("c:\\temp"))
}

fn example_of_utfstring_make_ascii_uppercase(rt: &HostRuntime) -> Result<bool, Fail> {
    let mut text = Utf16String::from_str(rt.alloc(), "Größe")?;
    text.make_ascii_uppercase();
    Ok(text.as_utfstr().eq_str("GRößE"))
}

fn example_of_utfstring_extend_chars(rt: &HostRuntime) -> Result<bool, Fail> {
    let mut text = Utf16String::from_str(rt.alloc(), "Hi")?;
    text.extend_chars(['é', '😀'])?;
    Ok(text.as_slice() == [0x48, 0x69, 0xe9, 0xd83d, 0xde00].as_slice())
}

fn example_of_utfstring_extend_strs(rt: &HostRuntime) -> Result<bool, Fail> {
    let mut path = Utf16String::from_str(rt.alloc(), "C:")?;
    path.extend_strs(["\\temp", "\\é"])?;
    Ok(path.as_utfstr().eq_str("C:\\temp\\é"))
}

fn example_of_utfstring_extend_utfstrs(rt: &HostRuntime) -> Result<bool, Fail> {
    let row = Utf16Str::from_slice(&[0xe9, 0x3b, 0xd83d, 0xde00, 0x3b])?;
    let mut text = Utf16String::from_str(rt.alloc(), "Hi")?;
    text.extend_utfstrs(row.split_char(';'))?;
    Ok(text.as_utfstr().eq_str("Hié😀"))
}

fn example_of_utfstring_from_iter_chars(rt: &HostRuntime) -> Result<bool, Fail> {
    let text = Utf16Str::from_slice(&[0x48, 0xd83d, 0xde00])?;
    let wide = Utf32String::from_iter_chars(rt.alloc(), text.chars())?;
    Ok(wide.as_slice() == [0x48, 0x1f600].as_slice())
}

fn example_of_utfstring_from_iter_strs(rt: &HostRuntime) -> Result<bool, Fail> {
    let words = ["é", "", "😀"];
    let text = Utf16String::from_iter_strs(rt.alloc(), words)?;
    Ok(text.as_slice() == [0xe9, 0xd83d, 0xde00].as_slice())
}

fn example_of_utfstring_from_iter_utfstrs(rt: &HostRuntime) -> Result<bool, Fail> {
    let line = Utf16Str::from_slice(&[0x20, 0xe9, 0x3000, 0x9, 0xd83d, 0xde00])?;
    let words = line.split_whitespace();
    let text = Utf16String::from_iter_utfstrs(rt.alloc(), words)?;
    Ok(text.as_utfstr().eq_str("é😀"))
}

fn example_of_utfstring_replace_with(rt: &HostRuntime) -> Result<bool, Fail> {
    let mut text = Utf16String::from_str(rt.alloc(), "a😀b😀")?;
    let smile = Utf16Str::from_slice(&[0xd83d, 0xde00])?;
    text.replace_with(smile, Utf16Str::from_slice(&[0xd83d, 0xde01])?);
    Ok(text.as_utfstr().eq_str("a😁b😁"))
}

fn example_of_utfstring_extend_from_within(rt: &HostRuntime) -> Result<bool, Fail> {
    let mut text = Utf16String::from_str(rt.alloc(), "é😀!")?;
    if let Some(at) = text.as_utfstr().find_char('😀') {
        text.extend_from_within(at..)?;
    }
    Ok(text.as_utfstr().eq_str("é😀!😀!"))
}

fn example_of_cowutfstr(rt: &HostRuntime) -> Result<bool, Fail> {
    let cow = Utf16String::from_slice_lossy(rt.alloc(), &[0x48, 0x69, 0xdc00])?;
    let mut text = cow.into_owned(rt.alloc())?;
    text.push('!')?;
    Ok(text.as_utfstr().eq_str("Hi\u{fffd}!"))
}

fn example_of_boxedutfstr(rt: &HostRuntime) -> Result<bool, Fail> {
    let text = Utf16String::from_str(rt.alloc(), "H😀")?;
    let boxed = text.into_boxed_utfstr()?;
    let mut holds = boxed.as_utfstr().char_count() == 2;
    holds &= boxed.into_utfstring().capacity() == 3;
    Ok(holds)
}

fn example_of_drainutf(rt: &HostRuntime) -> Result<bool, Fail> {
    let mut text = Utf16String::from_str(rt.alloc(), "H😀i")?;
    let mut drain = text.drain(..);
    let mut holds = drain.next_back() == Some('i');
    holds &= drain.as_utfstr().eq_str("H😀");
    Ok(holds)
}

fn example_of_utfstrinutfstring(rt: &HostRuntime) -> Result<bool, Fail> {
    let text = Utf16Str::from_slice(&[0xd83d, 0xde00, 0x20])?.repeat(rt.alloc(), 2)?;
    Ok(text.as_utfstr().eq_str("😀 😀 "))
}

fn example_of_utfstrinutfstring_to_utfstring(rt: &HostRuntime) -> Result<bool, Fail> {
    let mut text = Utf16Str::from_slice(&[0x48, 0x69])?.to_utfstring(rt.alloc())?;
    text.push('!')?;
    Ok(text.as_utfstr().eq_str("Hi!"))
}

fn example_of_utfstrinutfstring_repeat(rt: &HostRuntime) -> Result<bool, Fail> {
    let text = Utf16Str::from_slice(&[0xd83d, 0xde00])?;
    let twice = text.repeat(rt.alloc(), 2)?;
    Ok(twice.as_utfstr().eq_str("😀😀"))
}

fn example_of_utfstrinutfstring_to_lowercase(rt: &HostRuntime) -> Result<bool, Fail> {
    let title = Utf16String::from_str(rt.alloc(), "ЗАГОЛОВОК Σ")?;
    let text = title.as_utfstr().to_lowercase(rt.alloc())?;
    Ok(text.as_utfstr().eq_str("заголовок σ"))
}

fn example_of_utfstrinutfstring_to_uppercase(rt: &HostRuntime) -> Result<bool, Fail> {
    let street = Utf16String::from_str(rt.alloc(), "Straße")?;
    let text = street.as_utfstr().to_uppercase(rt.alloc())?;
    Ok(text.as_utfstr().eq_str("STRASSE"))
}

fn example_of_utfstrinutfstring_to_ascii_lowercase(rt: &HostRuntime) -> Result<bool, Fail> {
    let text = Utf16String::from_str(rt.alloc(), "C:\\Temp")?;
    let text = text.as_utfstr().to_ascii_lowercase(rt.alloc())?;
    Ok(text.as_utfstr().eq_str("c:\\temp"))
}

fn example_of_utfstrinutfstring_to_ascii_uppercase(rt: &HostRuntime) -> Result<bool, Fail> {
    let text = Utf16String::from_str(rt.alloc(), "Größe")?;
    let text = text.as_utfstr().to_ascii_uppercase(rt.alloc())?;
    Ok(text.as_utfstr().eq_str("GRößE"))
}

fn example_of_oftext(rt: &HostRuntime) -> Result<bool, Fail> {
    let mut string = U16String::new(rt.alloc());
    let text = Utf16Str::from_slice(&[0x48, 0x69])?;
    <Utf16Str as Appendable<U16String, OfText>>::push_to(text, &mut string)?;
    Ok(string.as_slice() == [0x48, 0x69].as_slice())
}

fn example_of_ustringoverutfstrs(rt: &HostRuntime) -> Result<bool, Fail> {
    let text = Utf16Str::from_slice(&[0x48, 0x69, 0xd, 0xa, 0xd83d, 0xde00])?;
    let mut string = U16String::new(rt.alloc());
    string.extend_utfstrs(text.lines())?;
    Ok(string.as_slice() == [0x48, 0x69, 0xd83d, 0xde00].as_slice())
}

fn example_of_ustringinutfstring(rt: &HostRuntime) -> Result<bool, Fail> {
    let text = Utf16String::from_str(rt.alloc(), "é😀")?;
    let mut string = U16String::from_str(rt.alloc(), "Hi")?;
    string.extend_utfstrings([text])?;
    Ok(string.as_slice() == [0x48, 0x69, 0xe9, 0xd83d, 0xde00].as_slice())
}

// Returns whether the examples of this module hold.
pub(crate) fn hold(rt: &HostRuntime) -> bool {
    let mut all = holds(rt, "UtfString", example_of_utfstring(rt));
    all &= holds(rt, "UtfString::from_vec", example_of_utfstring_from_vec(rt));
    all &= holds(
        rt,
        "UtfString::from_ustring",
        example_of_utfstring_from_ustring(rt),
    );
    all &= holds(rt, "UtfString::from_str", example_of_utfstring_from_str(rt));
    all &= holds(
        rt,
        "UtfString::as_utfstr",
        example_of_utfstring_as_utfstr(rt),
    );
    all &= holds(
        rt,
        "UtfString::into_ustring",
        example_of_utfstring_into_ustring(rt),
    );
    all &= holds(rt, "UtfString::reserve", example_of_utfstring_reserve(rt));
    all &= holds(rt, "UtfString::clear", example_of_utfstring_clear(rt));
    all &= holds(rt, "UtfString::push", example_of_utfstring_push(rt));
    all &= holds(rt, "UtfString::push_str", example_of_utfstring_push_str(rt));
    all &= holds(
        rt,
        "UtfString::push_utfstr",
        example_of_utfstring_push_utfstr(rt),
    );
    all &= holds(rt, "UtfString::pop", example_of_utfstring_pop(rt));
    all &= part_2_holds(rt);
    all &= part_3_holds(rt);
    all &= part_4_holds(rt);
    all &= part_5_holds(rt);
    all
}

fn part_2_holds(rt: &HostRuntime) -> bool {
    let mut all = holds(rt, "UtfString::insert", example_of_utfstring_insert(rt));
    all &= holds(
        rt,
        "UtfString::insert_utfstr",
        example_of_utfstring_insert_utfstr(rt),
    );
    all &= holds(rt, "UtfString::truncate", example_of_utfstring_truncate(rt));
    all &= holds(
        rt,
        "UtfString::split_off",
        example_of_utfstring_split_off(rt),
    );
    all &= holds(rt, "UtfString::remove", example_of_utfstring_remove(rt));
    all &= holds(
        rt,
        "UtfString::replace_range",
        example_of_utfstring_replace_range(rt),
    );
    all &= holds(
        rt,
        "UtfString::splice_str",
        example_of_utfstring_splice_str(rt),
    );
    all &= holds(rt, "UtfString::retain", example_of_utfstring_retain(rt));
    all &= holds(rt, "UtfString::drain", example_of_utfstring_drain(rt));
    all &= holds(
        rt,
        "UtfString::from_chars",
        example_of_utfstring_from_chars(rt),
    );
    all &= holds(
        rt,
        "UtfString::from_slice_lossy",
        example_of_utfstring_from_slice_lossy(rt),
    );
    all &= holds(
        rt,
        "UtfString::from_slice_lossy_with",
        example_of_utfstring_from_slice_lossy_with(rt),
    );
    all
}

fn part_3_holds(rt: &HostRuntime) -> bool {
    let mut all = holds(
        rt,
        "UtfString::from_ustr_lossy",
        example_of_utfstring_from_ustr_lossy(rt),
    );
    all &= holds(
        rt,
        "UtfString::from_ustr_lossy_with",
        example_of_utfstring_from_ustr_lossy_with(rt),
    );
    all &= holds(
        rt,
        "UtfString::make_ascii_lowercase",
        example_of_utfstring_make_ascii_lowercase(rt),
    );
    all &= holds(
        rt,
        "UtfString::make_ascii_uppercase",
        example_of_utfstring_make_ascii_uppercase(rt),
    );
    all &= holds(
        rt,
        "UtfString::extend_chars",
        example_of_utfstring_extend_chars(rt),
    );
    all &= holds(
        rt,
        "UtfString::extend_strs",
        example_of_utfstring_extend_strs(rt),
    );
    all &= holds(
        rt,
        "UtfString::extend_utfstrs",
        example_of_utfstring_extend_utfstrs(rt),
    );
    all &= holds(
        rt,
        "UtfString::from_iter_chars",
        example_of_utfstring_from_iter_chars(rt),
    );
    all &= holds(
        rt,
        "UtfString::from_iter_strs",
        example_of_utfstring_from_iter_strs(rt),
    );
    all &= holds(
        rt,
        "UtfString::from_iter_utfstrs",
        example_of_utfstring_from_iter_utfstrs(rt),
    );
    all &= holds(
        rt,
        "UtfString::replace_with",
        example_of_utfstring_replace_with(rt),
    );
    all &= holds(
        rt,
        "UtfString::extend_from_within",
        example_of_utfstring_extend_from_within(rt),
    );
    all
}

fn part_4_holds(rt: &HostRuntime) -> bool {
    let mut all = holds(rt, "CowUtfStr", example_of_cowutfstr(rt));
    all &= holds(rt, "BoxedUtfStr", example_of_boxedutfstr(rt));
    all &= holds(rt, "DrainUtf", example_of_drainutf(rt));
    all &= holds(rt, "UtfStrInUtfstring", example_of_utfstrinutfstring(rt));
    all &= holds(
        rt,
        "UtfStrInUtfstring::to_utfstring",
        example_of_utfstrinutfstring_to_utfstring(rt),
    );
    all &= holds(
        rt,
        "UtfStrInUtfstring::repeat",
        example_of_utfstrinutfstring_repeat(rt),
    );
    all &= holds(
        rt,
        "UtfStrInUtfstring::to_lowercase",
        example_of_utfstrinutfstring_to_lowercase(rt),
    );
    all &= holds(
        rt,
        "UtfStrInUtfstring::to_uppercase",
        example_of_utfstrinutfstring_to_uppercase(rt),
    );
    all &= holds(
        rt,
        "UtfStrInUtfstring::to_ascii_lowercase",
        example_of_utfstrinutfstring_to_ascii_lowercase(rt),
    );
    all &= holds(
        rt,
        "UtfStrInUtfstring::to_ascii_uppercase",
        example_of_utfstrinutfstring_to_ascii_uppercase(rt),
    );
    all &= holds(rt, "OfText", example_of_oftext(rt));
    all &= holds(rt, "UStringOverUtfstrs", example_of_ustringoverutfstrs(rt));
    all
}

fn part_5_holds(rt: &HostRuntime) -> bool {
    let mut all = holds(rt, "UStringInUtfstring", example_of_ustringinutfstring(rt));
    all
}
