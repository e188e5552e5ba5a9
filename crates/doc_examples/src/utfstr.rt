//! The examples of `widestring::utfstr`.
use crate::holds;
use std::cmp::Ordering;
use std::test::Fail;
use widestring::utfstr::{UCStrInUtfstr, UStrInUtfstr, Utf16Str, Utf32Str};
use widestring::{U16CStr, U16Str, Utf16String};

fn example_of_utfstr() -> Result<bool, Fail> {
    let text = Utf16Str::from_slice(&[0x48, 0x69, 0xd83d, 0xde00])?;
    let mut holds = text.len() == 4;
    holds &= text.eq_str("Hi😀");
    Ok(holds)
}

fn example_of_utfstr_is_char_boundary() -> Result<bool, Fail> {
    let text = Utf16Str::from_slice(&[0x48, 0xd83d, 0xde00])?;
    let mut holds = text.is_char_boundary(1);
    holds &= !text.is_char_boundary(2);
    holds &= text.is_char_boundary(3);
    holds &= !text.is_char_boundary(4);
    Ok(holds)
}

fn example_of_utfstr_char_count() -> Result<bool, Fail> {
    let text = Utf16Str::from_slice(&[0x48, 0xd83d, 0xde00])?;
    let mut holds = text.len() == 3;
    holds &= text.char_count() == 2;
    Ok(holds)
}

fn example_of_utfstr_unit_offset() -> Result<bool, Fail> {
    let text = Utf16Str::from_slice(&[0x48, 0xd83d, 0xde00, 0x21])?;
    let mut holds = text.unit_offset(2) == Some(3);
    holds &= text.unit_offset(3) == Some(4);
    holds &= text.unit_offset(4).is_none();
    Ok(holds)
}

fn example_of_utfstr_get() -> Result<bool, Fail> {
    let text = Utf16Str::from_slice(&[0x48, 0xd83d, 0xde00])?;
    let mut holds = text.get(1..).is_some_and(|emoji| emoji.eq_str("😀"));
    holds &= text.get(2..).is_none();
    Ok(holds)
}

fn example_of_utfstr_slice() -> Result<bool, Fail> {
    let text = Utf16Str::from_slice(&[0x48, 0xd83d, 0xde00])?;
    let end = text.floor_char_boundary(2);
    Ok(text.slice(..end).eq_str("H"))
}

fn example_of_utfstr_split_at() -> Result<bool, Fail> {
    let setting = Utf16Str::from_slice(&[0xe9, 0x3d, 0x31])?;
    let Some(at) = setting.find_char('=') else {
        return Ok(false);
    };
    let (name, rest) = setting.split_at(at);
    let mut holds = name.eq_str("é");
    holds &= rest.eq_str("=1");
    Ok(holds)
}

fn example_of_utfstr_chars() -> Result<bool, Fail> {
    let text = Utf16Str::from_slice(&[0xe9, 0xd83d, 0xde00])?;
    let mut characters = text.chars();
    let mut holds = characters.next() == Some('é');
    holds &= characters.next_back() == Some('😀');
    Ok(holds)
}

fn example_of_utfstr_char_indices() -> Result<bool, Fail> {
    let text = Utf16Str::from_slice(&[0xd83d, 0xde00, 0x31, 0x32])?;
    let digit = text.char_indices().find(|at| at.1.is_ascii_digit());
    Ok(digit == Some((2, '1')))
}

fn example_of_utfstr_encode_utf8() -> Result<bool, Fail> {
    let text = Utf16Str::from_slice(&[0xe9, 0xd83d, 0xde00])?;
    let mut bytes = text.encode_utf8();
    let mut holds = bytes.next() == Some(0xc3);
    holds &= bytes.next() == Some(0xa9);
    Ok(holds)
}

fn example_of_utfstr_from_slice() -> Result<bool, Fail> {
    let mut holds = Utf16Str::from_slice(&[0xd83d, 0xde00]).is_ok();
    let fault = Utf16Str::from_slice(&[0xd83d, 0xde00, 0xdc00]).err();
    holds &= fault.map(|fault| (fault.index(), fault.item())) == Some((2, 1));
    Ok(holds)
}

fn example_of_utfstr_from_ustr() -> Result<bool, Fail> {
    let text = Utf16Str::from_ustr(U16Str::from_slice(&[0xd83d, 0xde00]))?;
    let mut holds = text.eq_str("😀");
    holds &= Utf16Str::from_ustr(U16Str::from_slice(&[0xd83d])).is_err();
    Ok(holds)
}

fn example_of_utfstr_from_ucstr() -> Result<bool, Fail> {
    let name = U16CStr::from_slice(&[0x48, 0x69, 0])?;
    let text = Utf16Str::from_ucstr(name)?;
    Ok(text.eq_str("Hi"))
}

fn example_of_utfstr_as_ustr() -> Result<bool, Fail> {
    let text = Utf16Str::from_slice(&[0x48, 0xd83d, 0xde00])?;
    let mut holds = text.get(2..).is_none();
    holds &= text.as_ustr().get(2..) == Some(U16Str::from_slice(&[0xde00]));
    Ok(holds)
}

fn example_of_utfstr_code_units() -> Result<bool, Fail> {
    let text = Utf16Str::from_slice(&[0x48, 0xd83d, 0xde00])?;
    let mut units = text.code_units();
    let mut holds = units.next() == Some(0x48);
    holds &= units.next_back() == Some(0xde00);
    holds &= units.next_back() == Some(0xd83d);
    holds &= units.next().is_none();
    Ok(holds)
}

fn example_of_utfstr_encode_utf32() -> Result<bool, Fail> {
    let mut units = Utf16Str::from_slice(&[0x48, 0xd83d, 0xde00])?.encode_utf32();
    let mut holds = units.next() == Some(0x48);
    holds &= units.next() == Some(0x1f600);
    Ok(holds)
}

fn example_of_utfstr_char_at() -> Result<bool, Fail> {
    let text = Utf32Str::from_slice(&[0x61, 0x1f600])?;
    Ok(text.len() == 2 && text.char_at(1) == '😀')
}

fn example_of_utfstr_encode_utf16() -> Result<bool, Fail> {
    let mut units = Utf32Str::from_slice(&[0x1f600])?.encode_utf16();
    let mut holds = units.next() == Some(0xd83d);
    holds &= units.next() == Some(0xde00);
    Ok(holds)
}

fn example_of_utfstr_to_string(rt: &HostRuntime) -> Result<bool, Fail> {
    let text = Utf16Str::from_slice(&[0xe9, 0xd83d, 0xde00])?;
    let text = text.to_string(rt.alloc())?;
    Ok(text.as_str() == "é😀")
}

fn example_of_utfstr_trim_start() -> Result<bool, Fail> {
    let text = Utf16Str::from_slice(&[0x3000, 0x20, 0xe9, 0x20])?;
    let rest = text.trim_start();
    Ok(rest.eq_str("é "))
}

fn example_of_utfstr_trim_end() -> Result<bool, Fail> {
    let text = Utf16Str::from_slice(&[0x20, 0xd83d, 0xde00, 0xd, 0xa])?;
    let line = text.trim_end();
    Ok(line.eq_str(" 😀"))
}

fn example_of_utfstr_trim() -> Result<bool, Fail> {
    let text = Utf16Str::from_slice(&[0x3000, 0x48, 0x69, 0x20, 0xa])?;
    Ok(text.trim().eq_str("Hi"))
}

fn example_of_utfstr_lines() -> Result<bool, Fail> {
    let text = Utf16Str::from_slice(&[0x48, 0x69, 0xd, 0xa, 0xd83d, 0xde00, 0xa])?;
    let mut lines = text.lines();
    let mut holds = lines.next().is_some_and(|line| line.eq_str("Hi"));
    holds &= lines.next().is_some_and(|line| line.eq_str("😀"));
    holds &= lines.next().is_none();
    Ok(holds)
}

fn example_of_utfstr_line_indices() -> Result<bool, Fail> {
    let text = Utf16Str::from_slice(&[0xd83d, 0xde00, 0xa, 0x48, 0x69])?;
    let last = text.line_indices().last();
    Ok(last.is_some_and(|(offset, line)| offset == 3 && line.eq_str("Hi")))
}

fn example_of_utfstr_starts_with() -> Result<bool, Fail> {
    let path = Utf16Str::from_slice(&[0x43, 0x3a, 0x5c, 0xe9])?;
    let mut holds = path.starts_with(Utf16Str::from_slice(&[0x43, 0x3a])?);
    holds &= !path.starts_with(Utf16Str::from_slice(&[0x63, 0x3a])?);
    Ok(holds)
}

fn example_of_utfstr_ends_with() -> Result<bool, Fail> {
    let text = Utf16Str::from_slice(&[0x48, 0xd83d, 0xde00])?;
    let emoji = Utf16Str::from_slice(&[0xd83d, 0xde00])?;
    let mut holds = text.ends_with(emoji);
    holds &= !emoji.ends_with(text);
    Ok(holds)
}

fn example_of_utfstr_contains() -> Result<bool, Fail> {
    let text = Utf16Str::from_slice(&[0xe9, 0x3d, 0x3e, 0x31])?;
    let arrow = Utf16Str::from_slice(&[0x3d, 0x3e])?;
    let mut holds = text.contains(arrow);
    holds &= !arrow.contains(text);
    Ok(holds)
}

fn example_of_utfstr_find() -> Result<bool, Fail> {
    let text = Utf16Str::from_slice(&[0xd83d, 0xde00, 0x3d, 0x3e, 0x31])?;
    let arrow = Utf16Str::from_slice(&[0x3d, 0x3e])?;
    let mut holds = text.find(arrow) == Some(2);
    holds &= arrow.find(text).is_none();
    Ok(holds)
}

fn example_of_utfstr_rfind() -> Result<bool, Fail> {
    let path = Utf16Str::from_slice(&[0x43, 0x3a, 0x5c, 0xe9, 0x5c, 0x61])?;
    let separator = Utf16Str::from_slice(&[0x5c])?;
    let mut holds = path.rfind(separator) == Some(4);
    holds &= separator.rfind(path).is_none();
    Ok(holds)
}

fn example_of_utfstr_find_char() -> Result<bool, Fail> {
    let text = Utf16Str::from_slice(&[0x48, 0xd83d, 0xde00, 0x21])?;
    let mut holds = text.find_char('😀') == Some(1);
    holds &= text.find_char('!') == Some(3);
    Ok(holds)
}

fn example_of_utfstr_strip_prefix() -> Result<bool, Fail> {
    let path = Utf16Str::from_slice(&[0x43, 0x3a, 0xe9])?;
    let drive = Utf16Str::from_slice(&[0x43, 0x3a])?;
    let rest = path.strip_prefix(drive);
    let mut holds = rest.is_some_and(|rest| rest.eq_str("é"));
    holds &= drive.strip_prefix(path).is_none();
    Ok(holds)
}

fn example_of_utfstr_strip_suffix() -> Result<bool, Fail> {
    let name = Utf16Str::from_slice(&[0xe9, 0x2e, 0x72, 0x63])?;
    let extension = Utf16Str::from_slice(&[0x2e, 0x72, 0x63])?;
    let stem = name.strip_suffix(extension);
    let mut holds = stem.is_some_and(|stem| stem.eq_str("é"));
    holds &= extension.strip_suffix(name).is_none();
    Ok(holds)
}

fn example_of_utfstr_split_once() -> Result<bool, Fail> {
    let setting = Utf16Str::from_slice(&[0xe9, 0x3d, 0x31])?;
    let parts = setting.split_once(Utf16Str::from_slice(&[0x3d])?);
    Ok(parts.is_some_and(|(name, value)| name.eq_str("é") && value.eq_str("1")))
}

fn example_of_utfstr_rsplit_once() -> Result<bool, Fail> {
    let path = Utf16Str::from_slice(&[0x61, 0x2f, 0xe9, 0x2f, 0x62])?;
    let parts = path.rsplit_once(Utf16Str::from_slice(&[0x2f])?);
    Ok(parts.is_some_and(|(folder, name)| folder.eq_str("a/é") && name.eq_str("b")))
}

fn example_of_utfstr_floor_char_boundary() -> Result<bool, Fail> {
    let text = Utf16Str::from_slice(&[0x61, 0xd83d, 0xde00])?;
    let mut holds = text.floor_char_boundary(2) == 1;
    holds &= text.floor_char_boundary(9) == 3;
    Ok(holds)
}

fn example_of_utfstr_ceil_char_boundary() -> Result<bool, Fail> {
    let text = Utf16Str::from_slice(&[0x61, 0xd83d, 0xde00])?;
    Ok(text.ceil_char_boundary(2) == 3)
}

fn example_of_utfstr_escape_unicode(rt: &HostRuntime) -> Result<bool, Fail> {
    let text = Utf16Str::from_slice(&[0x48, 0xd83d, 0xde00])?;
    let mut holds = text.escape_unicode().eq("\\u{48}\\u{1f600}".chars());
    let line = format!(in rt.alloc(); "<{}>", text.escape_unicode())?;
    holds &= line.as_str() == "<\\u{48}\\u{1f600}>";
    Ok(holds)
}

fn example_of_utfstr_escape_default(rt: &HostRuntime) -> Result<bool, Fail> {
    let text = Utf16Str::from_slice(&[0x22, 0xe9, 0xa, 0xd83d, 0xde00])?;
    let mut holds = text.escape_default().eq("\\\"\\u{e9}\\n\\u{1f600}".chars());
    let line = format!(in rt.alloc(); "<{}>", text.escape_default())?;
    holds &= line.as_str() == "<\\\"\\u{e9}\\n\\u{1f600}>";
    Ok(holds)
}

fn example_of_utfstr_escape_debug(rt: &HostRuntime) -> Result<bool, Fail> {
    let text = Utf16Str::from_slice(&[0x22, 0xe9, 0xa, 0xd83d, 0xde00])?;
    let mut holds = text.escape_debug().eq("\\\"é\\n😀".chars());
    let line = format!(in rt.alloc(); "<{}>", text.escape_debug())?;
    holds &= line.as_str() == "<\\\"é\\n😀>";
    Ok(holds)
}

fn example_of_utfstr_is_ascii(rt: &HostRuntime) -> Result<bool, Fail> {
    let name = Utf16String::from_str(rt.alloc(), "Name")?;
    Ok(name.as_utfstr().is_ascii())
}

fn example_of_utfstr_eq_ignore_ascii_case(rt: &HostRuntime) -> Result<bool, Fail> {
    let first = Utf16String::from_str(rt.alloc(), "Größe")?;
    let second = Utf16String::from_str(rt.alloc(), "GRößE")?;
    Ok(first.as_utfstr().eq_ignore_ascii_case(second.as_utfstr()))
}

fn example_of_utfstr_eq_str_ignore_ascii_case(rt: &HostRuntime) -> Result<bool, Fail> {
    let text = Utf16String::from_str(rt.alloc(), "Größe")?;
    let mut holds = text.as_utfstr().eq_str_ignore_ascii_case("GRößE");
    holds &= !text.as_utfstr().eq_str_ignore_ascii_case("GRÖSSE");
    Ok(holds)
}

fn example_of_utfstr_starts_with_ignore_ascii_case(rt: &HostRuntime) -> Result<bool, Fail> {
    let key = Utf16String::from_str(rt.alloc(), "HKLM\\Größe")?;
    let root = Utf16String::from_str(rt.alloc(), "hklm\\g")?;
    let (key, root) = (key.as_utfstr(), root.as_utfstr());
    Ok(key.starts_with_ignore_ascii_case(root))
}

fn example_of_utfstr_ends_with_ignore_ascii_case(rt: &HostRuntime) -> Result<bool, Fail> {
    let file = Utf16String::from_str(rt.alloc(), "Größe.TXT")?;
    let extension = Utf16String::from_str(rt.alloc(), ".txt")?;
    let (file, extension) = (file.as_utfstr(), extension.as_utfstr());
    Ok(file.ends_with_ignore_ascii_case(extension))
}

fn example_of_utfstr_contains_ignore_ascii_case(rt: &HostRuntime) -> Result<bool, Fail> {
    let name = Utf16String::from_str(rt.alloc(), "Größe.TXT")?;
    let part = Utf16String::from_str(rt.alloc(), "E.t")?;
    let (name, part) = (name.as_utfstr(), part.as_utfstr());
    Ok(name.contains_ignore_ascii_case(part))
}

fn example_of_utfstr_find_ignore_ascii_case(rt: &HostRuntime) -> Result<bool, Fail> {
    let file = Utf16String::from_str(rt.alloc(), "Größe.TXT")?;
    let extension = Utf16String::from_str(rt.alloc(), ".txt")?;
    let (file, extension) = (file.as_utfstr(), extension.as_utfstr());
    let mut holds = file.find_ignore_ascii_case(extension) == Some(5);
    holds &= extension.find_ignore_ascii_case(file).is_none();
    Ok(holds)
}

fn example_of_utfstr_starts_with_char() -> Result<bool, Fail> {
    let text = Utf16Str::from_slice(&[0xd83d, 0xde00, 0x21])?;
    let mut holds = text.starts_with_char('😀');
    holds &= !text.starts_with_char('!');
    Ok(holds)
}

fn example_of_utfstr_ends_with_char() -> Result<bool, Fail> {
    let text = Utf16Str::from_slice(&[0x21, 0xd83d, 0xde00])?;
    let mut holds = text.ends_with_char('😀');
    holds &= !text.ends_with_char('!');
    Ok(holds)
}

fn example_of_utfstr_strip_prefix_char() -> Result<bool, Fail> {
    let text = Utf16Str::from_slice(&[0xd83d, 0xde00, 0x21])?;
    let rest = text.strip_prefix_char('😀');
    let mut holds = rest.is_some_and(|rest| rest.eq_str("!"));
    holds &= text.strip_prefix_char('!').is_none();
    Ok(holds)
}

fn example_of_utfstr_strip_suffix_char() -> Result<bool, Fail> {
    let text = Utf16Str::from_slice(&[0x21, 0xd83d, 0xde00])?;
    let prefix = text.strip_suffix_char('😀');
    let mut holds = prefix.is_some_and(|prefix| prefix.eq_str("!"));
    holds &= text.strip_suffix_char('!').is_none();
    Ok(holds)
}

fn example_of_utfstr_find_from() -> Result<bool, Fail> {
    let text = Utf16Str::from_slice(&[0xe9, 0x2c, 0xd83d, 0xde00, 0x2c])?;
    let comma = Utf16Str::from_slice(&[0x2c])?;
    let mut holds = text.find_from(comma, 1) == Some(1);
    holds &= text.find_from(comma, 2) == Some(4);
    holds &= text.find_from(comma, 5).is_none();
    Ok(holds)
}

fn example_of_utfstr_find_char_from() -> Result<bool, Fail> {
    let text = Utf16Str::from_slice(&[0xd83d, 0xde00, 0x21, 0xd83d, 0xde00])?;
    let mut holds = text.find_char_from('😀', 0) == Some(0);
    holds &= text.find_char_from('😀', 1) == Some(3);
    holds &= text.find_char_from('😀', 4).is_none();
    Ok(holds)
}

fn example_of_utfstr_eq_str() -> Result<bool, Fail> {
    let text = Utf16Str::from_slice(&[0x64, 0xe9, 0x6a, 0xe0])?;
    let mut holds = text.eq_str("déjà");
    holds &= !text.eq_str("de\u{301}ja\u{300}");
    Ok(holds)
}

fn example_of_utfstr_match_indices(rt: &HostRuntime) -> Result<bool, Fail> {
    let text = Utf16String::from_str(rt.alloc(), "x😀, 😀, y")?;
    let comma = Utf16String::from_str(rt.alloc(), ", ")?;
    let mut found = text.as_utfstr().match_indices(comma.as_utfstr());
    let mut holds = found.next() == Some((3, comma.as_utfstr()));
    holds &= found.next() == Some((7, comma.as_utfstr()));
    holds &= found.next().is_none();
    Ok(holds)
}

fn example_of_utfstr_match_indices_char() -> Result<bool, Fail> {
    let text = Utf16Str::from_slice(&[0xd83d, 0xde00, 0x21, 0xd83d, 0xde00])?;
    let mut found = text.match_indices_char('😀');
    let mut holds = found.next().is_some_and(|(offset, _)| offset == 0);
    holds &= found.next().is_some_and(|(offset, _)| offset == 3);
    holds &= found.next().is_none();
    Ok(holds)
}

fn example_of_utfstr_matches(rt: &HostRuntime) -> Result<bool, Fail> {
    let text = Utf16String::from_str(rt.alloc(), "aaa aa")?;
    let needle = Utf16String::from_str(rt.alloc(), "aa")?;
    Ok(text.as_utfstr().matches(needle.as_utfstr()).count() == 2)
}

fn example_of_utfstr_matches_char() -> Result<bool, Fail> {
    let text = Utf16Str::from_slice(&[0xd83d, 0xde00, 0x21, 0xd83d, 0xde00])?;
    Ok(text.matches_char('😀').count() == 2)
}

fn example_of_utfstr_cmp_code_points() -> Result<bool, Fail> {
    let emoji = Utf16Str::from_slice(&[0x61, 0xd83d, 0xde00])?;
    let letter = Utf16Str::from_slice(&[0x61, 0xff21])?;
    let mut holds = emoji < letter;
    holds &= emoji.cmp_code_points(letter) == Ordering::Greater;
    Ok(holds)
}

fn example_of_utfstr_cmp_str() -> Result<bool, Fail> {
    let text = Utf16Str::from_slice(&[0x61, 0xd83d, 0xde00])?;
    let mut holds = text.cmp_str("a😀") == Ordering::Equal;
    holds &= text.cmp_str("aＡ") == Ordering::Greater;
    holds &= text.cmp_str("a😀!") == Ordering::Less;
    Ok(holds)
}

fn example_of_utfstr_splitn_any() -> Result<bool, Fail> {
    let list = Utf16Str::from_slice(&[0xe9, 0x2c, 0xd83d, 0xde00, 0x3b, 0x62])?;
    let separators: &[char] = &[',', ';'];
    let mut parts = list.splitn_any(2, separators);
    let mut holds = parts.next().is_some_and(|part| part.eq_str("é"));
    holds &= parts.next().is_some_and(|part| part.eq_str("😀;b"));
    holds &= parts.next().is_none();
    Ok(holds)
}

fn example_of_utfstr_split_terminator_any() -> Result<bool, Fail> {
    let list = Utf16Str::from_slice(&[0xe9, 0x2c, 0xd83d, 0xde00, 0x3b])?;
    let separators: &[char] = &[',', ';'];
    Ok(list.split_terminator_any(separators).count() == 2)
}

fn example_of_utfstr_split_inclusive_any() -> Result<bool, Fail> {
    let list = Utf16Str::from_slice(&[0xe9, 0x2c, 0xd83d, 0xde00, 0x3b])?;
    let separators: &[char] = &[',', ';'];
    let mut parts = list.split_inclusive_any(separators);
    let mut holds = parts.next().is_some_and(|part| part.eq_str("é,"));
    holds &= parts.next().is_some_and(|part| part.eq_str("😀;"));
    holds &= parts.next().is_none();
    Ok(holds)
}

fn example_of_utfstr_rsplit_any() -> Result<bool, Fail> {
    let list = Utf16Str::from_slice(&[0xe9, 0x2c, 0xd83d, 0xde00, 0x3b])?;
    let separators: &[char] = &[',', ';'];
    let mut parts = list.rsplit_any(separators);
    let mut holds = parts.next().is_some_and(|part| part.is_empty());
    holds &= parts.next().is_some_and(|part| part.eq_str("😀"));
    holds &= parts.next().is_some_and(|part| part.eq_str("é"));
    holds &= parts.next().is_none();
    Ok(holds)
}

fn example_of_utfstr_rsplitn_any() -> Result<bool, Fail> {
    let path = Utf16Str::from_slice(&[0x61, 0x2f, 0xe9, 0x5c, 0xd83d, 0xde00])?;
    let separators: &[char] = &['/', '\\'];
    let mut parts = path.rsplitn_any(2, separators);
    let mut holds = parts.next().is_some_and(|part| part.eq_str("😀"));
    holds &= parts.next().is_some_and(|part| part.eq_str("a/é"));
    holds &= parts.next().is_none();
    Ok(holds)
}

fn example_of_utfstr_find_any() -> Result<bool, Fail> {
    let path = Utf16Str::from_slice(&[0xd83d, 0xde00, 0x2f, 0x62])?;
    let separators: &[char] = &['\\', '/'];
    Ok(path.find_any(separators) == Some(2))
}

fn example_of_utfstr_split_any() -> Result<bool, Fail> {
    let list = Utf16Str::from_slice(&[0xe9, 0x2c, 0xd83d, 0xde00, 0x3b])?;
    let separators: &[char] = &[',', ';'];
    let mut parts = list.split_any(separators);
    let mut holds = parts.next().is_some_and(|part| part.eq_str("é"));
    holds &= parts.next().is_some_and(|part| part.eq_str("😀"));
    holds &= parts.next().is_some_and(|part| part.is_empty());
    holds &= parts.next().is_none();
    Ok(holds)
}

fn example_of_utfstr_split_whitespace() -> Result<bool, Fail> {
    let line = Utf16Str::from_slice(&[0x20, 0xe9, 0x3000, 0x9, 0xd83d, 0xde00])?;
    let mut words = line.split_whitespace();
    let mut holds = words.next().is_some_and(|word| word.eq_str("é"));
    holds &= words.next().is_some_and(|word| word.eq_str("😀"));
    holds &= words.next().is_none();
    Ok(holds)
}

fn example_of_utfstr_split_ascii_whitespace() -> Result<bool, Fail> {
    let line = Utf16Str::from_slice(&[0x61, 0x3000, 0x20, 0x20, 0x62])?;
    let mut words = line.split_ascii_whitespace();
    let mut holds = words.next().is_some_and(|word| word.len() == 2);
    holds &= words.next().is_some_and(|word| word.eq_str("b"));
    holds &= words.next().is_none();
    Ok(holds)
}

fn example_of_utfstr_trim_start_matches() -> Result<bool, Fail> {
    let number = Utf16Str::from_slice(&[0x30, 0x30, 0x37, 0x30])?;
    Ok(number.trim_start_matches('0').eq_str("70"))
}

fn example_of_utfstr_trim_end_matches() -> Result<bool, Fail> {
    let folder = Utf16Str::from_slice(&[0x2f, 0xe9, 0x2f, 0x2f])?;
    Ok(folder.trim_end_matches('/').eq_str("/é"))
}

fn example_of_utfstr_trim_matches() -> Result<bool, Fail> {
    let quoted = Utf16Str::from_slice(&[0x22, 0xd83d, 0xde00, 0x22])?;
    Ok(quoted.trim_matches('"').eq_str("😀"))
}

fn example_of_utfstr_split() -> Result<bool, Fail> {
    let list = Utf16Str::from_slice(&[0xe9, 0x2c, 0x20, 0xd83d, 0xde00])?;
    let mut parts = list.split(Utf16Str::from_slice(&[0x2c, 0x20])?);
    let mut holds = parts.next().is_some_and(|part| part.eq_str("é"));
    holds &= parts.next().is_some_and(|part| part.eq_str("😀"));
    holds &= parts.next().is_none();
    Ok(holds)
}

fn example_of_utfstr_split_char() -> Result<bool, Fail> {
    let row = Utf16Str::from_slice(&[0xe9, 0x3b, 0xd83d, 0xde00, 0x3b])?;
    let mut fields = row.split_char(';');
    let mut holds = fields.next().is_some_and(|field| field.eq_str("é"));
    holds &= fields.next().is_some_and(|field| field.eq_str("😀"));
    holds &= fields.next().is_some_and(|field| field.is_empty());
    Ok(holds)
}

fn example_of_utfstr_splitn() -> Result<bool, Fail> {
    let list = Utf16Str::from_slice(&[0xe9, 0x2c, 0x20, 0x62, 0x2c, 0x20, 0x63])?;
    let mut parts = list.splitn(2, Utf16Str::from_slice(&[0x2c, 0x20])?);
    let mut holds = parts.next().is_some_and(|part| part.eq_str("é"));
    holds &= parts.next().is_some_and(|part| part.eq_str("b, c"));
    holds &= parts.next().is_none();
    Ok(holds)
}

fn example_of_utfstr_splitn_char() -> Result<bool, Fail> {
    let setting = Utf16Str::from_slice(&[0xe9, 0x3d, 0x31, 0x3d])?;
    let mut parts = setting.splitn_char(2, '=');
    let mut holds = parts.next().is_some_and(|name| name.eq_str("é"));
    holds &= parts.next().is_some_and(|value| value.eq_str("1="));
    holds &= parts.next().is_none();
    Ok(holds)
}

fn example_of_utfstr_split_terminator() -> Result<bool, Fail> {
    let list = Utf16Str::from_slice(&[0xe9, 0x3b, 0x3b])?;
    let mut parts = list.split_terminator(Utf16Str::from_slice(&[0x3b])?);
    let mut holds = parts.next().is_some_and(|part| part.eq_str("é"));
    holds &= parts.next().is_some_and(|part| part.is_empty());
    holds &= parts.next().is_none();
    Ok(holds)
}

fn example_of_utfstr_split_terminator_char() -> Result<bool, Fail> {
    let list = Utf16Str::from_slice(&[0xe9, 0x3b, 0x62])?;
    let mut parts = list.split_terminator_char(';');
    let mut holds = parts.next().is_some_and(|part| part.eq_str("é"));
    holds &= parts.next().is_some_and(|part| part.eq_str("b"));
    holds &= parts.next().is_none();
    Ok(holds)
}

fn example_of_utfstr_rsplit() -> Result<bool, Fail> {
    let list = Utf16Str::from_slice(&[0xe9, 0x2c, 0x20, 0xd83d, 0xde00])?;
    let mut parts = list.rsplit(Utf16Str::from_slice(&[0x2c, 0x20])?);
    let mut holds = parts.next().is_some_and(|part| part.eq_str("😀"));
    holds &= parts.next().is_some_and(|part| part.eq_str("é"));
    holds &= parts.next().is_none();
    Ok(holds)
}

fn example_of_utfstr_rsplit_char() -> Result<bool, Fail> {
    let path = Utf16Str::from_slice(&[0xe9, 0x2f, 0xd83d, 0xde00, 0x2f])?;
    let mut parts = path.rsplit_char('/');
    let mut holds = parts.next().is_some_and(|part| part.is_empty());
    holds &= parts.next().is_some_and(|part| part.eq_str("😀"));
    holds &= parts.next().is_some_and(|part| part.eq_str("é"));
    holds &= parts.next().is_none();
    Ok(holds)
}

fn example_of_utfstr_rsplitn() -> Result<bool, Fail> {
    let list = Utf16Str::from_slice(&[0xe9, 0x2c, 0x61, 0x2c, 0x62])?;
    let mut parts = list.rsplitn(2, Utf16Str::from_slice(&[0x2c])?);
    let mut holds = parts.next().is_some_and(|part| part.eq_str("b"));
    holds &= parts.next().is_some_and(|part| part.eq_str("é,a"));
    holds &= parts.next().is_none();
    Ok(holds)
}

fn example_of_utfstr_rsplitn_char() -> Result<bool, Fail> {
    let name = Utf16Str::from_slice(&[0xe9, 0x2e, 0x61, 0x2e, 0x62])?;
    let mut parts = name.rsplitn_char(2, '.');
    let mut holds = parts.next().is_some_and(|part| part.eq_str("b"));
    holds &= parts.next().is_some_and(|part| part.eq_str("é.a"));
    holds &= parts.next().is_none();
    Ok(holds)
}

fn example_of_utfstr_split_inclusive() -> Result<bool, Fail> {
    let list = Utf16Str::from_slice(&[0xe9, 0x2c, 0x20, 0xd83d, 0xde00])?;
    let mut parts = list.split_inclusive(Utf16Str::from_slice(&[0x2c, 0x20])?);
    let mut holds = parts.next().is_some_and(|part| part.eq_str("é, "));
    holds &= parts.next().is_some_and(|part| part.eq_str("😀"));
    holds &= parts.next().is_none();
    Ok(holds)
}

fn example_of_utfstr_split_inclusive_char() -> Result<bool, Fail> {
    let lines = Utf16Str::from_slice(&[0xe9, 0xa, 0xd83d, 0xde00, 0xa])?;
    let mut parts = lines.split_inclusive_char('\n');
    let mut holds = parts.next().is_some_and(|part| part.eq_str("é\n"));
    holds &= parts.next().is_some_and(|part| part.eq_str("😀\n"));
    holds &= parts.next().is_none();
    Ok(holds)
}

fn example_of_escapeunicode(rt: &HostRuntime) -> Result<bool, Fail> {
    let escaped = Utf16Str::from_slice(&[0x48, 0xd83d, 0xde00])?.escape_unicode();
    let text = escaped.to_string(rt.alloc())?;
    Ok(text.as_str() == "\\u{48}\\u{1f600}")
}

fn example_of_escapedefault(rt: &HostRuntime) -> Result<bool, Fail> {
    let escaped = Utf16Str::from_slice(&[0x22, 0xe9, 0x22])?.escape_default();
    let text = escaped.to_string(rt.alloc())?;
    Ok(text.as_str() == "\\\"\\u{e9}\\\"")
}

fn example_of_escapedebug(rt: &HostRuntime) -> Result<bool, Fail> {
    let escaped = Utf16Str::from_slice(&[0xe9, 0x9, 0])?.escape_debug();
    let text = escaped.to_string(rt.alloc())?;
    Ok(text.as_str() == "é\\t\\0")
}

fn example_of_chars(rt: &HostRuntime) -> Result<bool, Fail> {
    let mut rest = Utf16Str::from_slice(&[0x48, 0x69, 0xd83d, 0xde00])?.chars();
    let mut holds = rest.next() == Some('H');
    let text = rest.to_string(rt.alloc())?;
    holds &= text.as_str() == "i😀";
    Ok(holds)
}

fn example_of_ustrinutfstr() -> Result<bool, Fail> {
    let text = Utf16Str::from_slice(&[0x48, 0x69])?;
    let mut holds = U16Str::from_slice(&[0x48, 0x69]).eq_utfstr(text);
    holds &= !U16Str::from_slice(&[0x48, 0xd83d]).eq_utfstr(text);
    Ok(holds)
}

fn example_of_ucstrinutfstr() -> Result<bool, Fail> {
    let name = U16CStr::from_slice(&[0x48, 0x69, 0])?;
    Ok(name.eq_utfstr(Utf16Str::from_slice(&[0x48, 0x69])?))
}

fn example_of_charindices() -> Result<bool, Fail> {
    let mut characters = Utf16Str::from_slice(&[0xd83d, 0xde00, 0x48, 0x69])?.char_indices();
    let mut holds = characters.next() == Some((0, '😀'));
    holds &= characters.offset() == 2;
    holds &= characters.next_back() == Some((3, 'i'));
    Ok(holds)
}

fn example_of_codeunits() -> Result<bool, Fail> {
    let mut units = Utf16Str::from_slice(&[0x48, 0xd83d, 0xde00])?.code_units();
    let mut holds = units.len() == 3;
    holds &= units.next_back() == Some(0xde00);
    Ok(holds)
}

// Returns whether the examples of this module hold.
pub(crate) fn hold(rt: &HostRuntime) -> bool {
    let mut all = holds(rt, "UtfStr", example_of_utfstr());
    all &= holds(
        rt,
        "UtfStr::is_char_boundary",
        example_of_utfstr_is_char_boundary(),
    );
    all &= holds(rt, "UtfStr::char_count", example_of_utfstr_char_count());
    all &= holds(rt, "UtfStr::unit_offset", example_of_utfstr_unit_offset());
    all &= holds(rt, "UtfStr::get", example_of_utfstr_get());
    all &= holds(rt, "UtfStr::slice", example_of_utfstr_slice());
    all &= holds(rt, "UtfStr::split_at", example_of_utfstr_split_at());
    all &= holds(rt, "UtfStr::chars", example_of_utfstr_chars());
    all &= holds(rt, "UtfStr::char_indices", example_of_utfstr_char_indices());
    all &= holds(rt, "UtfStr::encode_utf8", example_of_utfstr_encode_utf8());
    all &= holds(rt, "UtfStr::from_slice", example_of_utfstr_from_slice());
    all &= holds(rt, "UtfStr::from_ustr", example_of_utfstr_from_ustr());
    all &= part_2_holds(rt);
    all &= part_3_holds(rt);
    all &= part_4_holds(rt);
    all &= part_5_holds(rt);
    all &= part_6_holds(rt);
    all &= part_7_holds(rt);
    all &= part_8_holds(rt);
    all
}

fn part_2_holds(rt: &HostRuntime) -> bool {
    let mut all = holds(rt, "UtfStr::from_ucstr", example_of_utfstr_from_ucstr());
    all &= holds(rt, "UtfStr::as_ustr", example_of_utfstr_as_ustr());
    all &= holds(rt, "UtfStr::code_units", example_of_utfstr_code_units());
    all &= holds(rt, "UtfStr::encode_utf32", example_of_utfstr_encode_utf32());
    all &= holds(rt, "UtfStr::char_at", example_of_utfstr_char_at());
    all &= holds(rt, "UtfStr::encode_utf16", example_of_utfstr_encode_utf16());
    all &= holds(rt, "UtfStr::to_string", example_of_utfstr_to_string(rt));
    all &= holds(rt, "UtfStr::trim_start", example_of_utfstr_trim_start());
    all &= holds(rt, "UtfStr::trim_end", example_of_utfstr_trim_end());
    all &= holds(rt, "UtfStr::trim", example_of_utfstr_trim());
    all &= holds(rt, "UtfStr::lines", example_of_utfstr_lines());
    all &= holds(rt, "UtfStr::line_indices", example_of_utfstr_line_indices());
    all
}

fn part_3_holds(rt: &HostRuntime) -> bool {
    let mut all = holds(rt, "UtfStr::starts_with", example_of_utfstr_starts_with());
    all &= holds(rt, "UtfStr::ends_with", example_of_utfstr_ends_with());
    all &= holds(rt, "UtfStr::contains", example_of_utfstr_contains());
    all &= holds(rt, "UtfStr::find", example_of_utfstr_find());
    all &= holds(rt, "UtfStr::rfind", example_of_utfstr_rfind());
    all &= holds(rt, "UtfStr::find_char", example_of_utfstr_find_char());
    all &= holds(rt, "UtfStr::strip_prefix", example_of_utfstr_strip_prefix());
    all &= holds(rt, "UtfStr::strip_suffix", example_of_utfstr_strip_suffix());
    all &= holds(rt, "UtfStr::split_once", example_of_utfstr_split_once());
    all &= holds(rt, "UtfStr::rsplit_once", example_of_utfstr_rsplit_once());
    all &= holds(
        rt,
        "UtfStr::floor_char_boundary",
        example_of_utfstr_floor_char_boundary(),
    );
    all &= holds(
        rt,
        "UtfStr::ceil_char_boundary",
        example_of_utfstr_ceil_char_boundary(),
    );
    all
}

fn part_4_holds(rt: &HostRuntime) -> bool {
    let mut all = holds(
        rt,
        "UtfStr::escape_unicode",
        example_of_utfstr_escape_unicode(rt),
    );
    all &= holds(
        rt,
        "UtfStr::escape_default",
        example_of_utfstr_escape_default(rt),
    );
    all &= holds(
        rt,
        "UtfStr::escape_debug",
        example_of_utfstr_escape_debug(rt),
    );
    all &= holds(rt, "UtfStr::is_ascii", example_of_utfstr_is_ascii(rt));
    all &= holds(
        rt,
        "UtfStr::eq_ignore_ascii_case",
        example_of_utfstr_eq_ignore_ascii_case(rt),
    );
    all &= holds(
        rt,
        "UtfStr::eq_str_ignore_ascii_case",
        example_of_utfstr_eq_str_ignore_ascii_case(rt),
    );
    all &= holds(
        rt,
        "UtfStr::starts_with_ignore_ascii_case",
        example_of_utfstr_starts_with_ignore_ascii_case(rt),
    );
    all &= holds(
        rt,
        "UtfStr::ends_with_ignore_ascii_case",
        example_of_utfstr_ends_with_ignore_ascii_case(rt),
    );
    all &= holds(
        rt,
        "UtfStr::contains_ignore_ascii_case",
        example_of_utfstr_contains_ignore_ascii_case(rt),
    );
    all &= holds(
        rt,
        "UtfStr::find_ignore_ascii_case",
        example_of_utfstr_find_ignore_ascii_case(rt),
    );
    all &= holds(
        rt,
        "UtfStr::starts_with_char",
        example_of_utfstr_starts_with_char(),
    );
    all &= holds(
        rt,
        "UtfStr::ends_with_char",
        example_of_utfstr_ends_with_char(),
    );
    all
}

fn part_5_holds(rt: &HostRuntime) -> bool {
    let mut all = holds(
        rt,
        "UtfStr::strip_prefix_char",
        example_of_utfstr_strip_prefix_char(),
    );
    all &= holds(
        rt,
        "UtfStr::strip_suffix_char",
        example_of_utfstr_strip_suffix_char(),
    );
    all &= holds(rt, "UtfStr::find_from", example_of_utfstr_find_from());
    all &= holds(
        rt,
        "UtfStr::find_char_from",
        example_of_utfstr_find_char_from(),
    );
    all &= holds(rt, "UtfStr::eq_str", example_of_utfstr_eq_str());
    all &= holds(
        rt,
        "UtfStr::match_indices",
        example_of_utfstr_match_indices(rt),
    );
    all &= holds(
        rt,
        "UtfStr::match_indices_char",
        example_of_utfstr_match_indices_char(),
    );
    all &= holds(rt, "UtfStr::matches", example_of_utfstr_matches(rt));
    all &= holds(rt, "UtfStr::matches_char", example_of_utfstr_matches_char());
    all &= holds(
        rt,
        "UtfStr::cmp_code_points",
        example_of_utfstr_cmp_code_points(),
    );
    all &= holds(rt, "UtfStr::cmp_str", example_of_utfstr_cmp_str());
    all &= holds(rt, "UtfStr::splitn_any", example_of_utfstr_splitn_any());
    all
}

fn part_6_holds(rt: &HostRuntime) -> bool {
    let mut all = holds(
        rt,
        "UtfStr::split_terminator_any",
        example_of_utfstr_split_terminator_any(),
    );
    all &= holds(
        rt,
        "UtfStr::split_inclusive_any",
        example_of_utfstr_split_inclusive_any(),
    );
    all &= holds(rt, "UtfStr::rsplit_any", example_of_utfstr_rsplit_any());
    all &= holds(rt, "UtfStr::rsplitn_any", example_of_utfstr_rsplitn_any());
    all &= holds(rt, "UtfStr::find_any", example_of_utfstr_find_any());
    all &= holds(rt, "UtfStr::split_any", example_of_utfstr_split_any());
    all &= holds(
        rt,
        "UtfStr::split_whitespace",
        example_of_utfstr_split_whitespace(),
    );
    all &= holds(
        rt,
        "UtfStr::split_ascii_whitespace",
        example_of_utfstr_split_ascii_whitespace(),
    );
    all &= holds(
        rt,
        "UtfStr::trim_start_matches",
        example_of_utfstr_trim_start_matches(),
    );
    all &= holds(
        rt,
        "UtfStr::trim_end_matches",
        example_of_utfstr_trim_end_matches(),
    );
    all &= holds(rt, "UtfStr::trim_matches", example_of_utfstr_trim_matches());
    all &= holds(rt, "UtfStr::split", example_of_utfstr_split());
    all
}

fn part_7_holds(rt: &HostRuntime) -> bool {
    let mut all = holds(rt, "UtfStr::split_char", example_of_utfstr_split_char());
    all &= holds(rt, "UtfStr::splitn", example_of_utfstr_splitn());
    all &= holds(rt, "UtfStr::splitn_char", example_of_utfstr_splitn_char());
    all &= holds(
        rt,
        "UtfStr::split_terminator",
        example_of_utfstr_split_terminator(),
    );
    all &= holds(
        rt,
        "UtfStr::split_terminator_char",
        example_of_utfstr_split_terminator_char(),
    );
    all &= holds(rt, "UtfStr::rsplit", example_of_utfstr_rsplit());
    all &= holds(rt, "UtfStr::rsplit_char", example_of_utfstr_rsplit_char());
    all &= holds(rt, "UtfStr::rsplitn", example_of_utfstr_rsplitn());
    all &= holds(rt, "UtfStr::rsplitn_char", example_of_utfstr_rsplitn_char());
    all &= holds(
        rt,
        "UtfStr::split_inclusive",
        example_of_utfstr_split_inclusive(),
    );
    all &= holds(
        rt,
        "UtfStr::split_inclusive_char",
        example_of_utfstr_split_inclusive_char(),
    );
    all &= holds(rt, "EscapeUnicode", example_of_escapeunicode(rt));
    all
}

fn part_8_holds(rt: &HostRuntime) -> bool {
    let mut all = holds(rt, "EscapeDefault", example_of_escapedefault(rt));
    all &= holds(rt, "EscapeDebug", example_of_escapedebug(rt));
    all &= holds(rt, "Chars", example_of_chars(rt));
    all &= holds(rt, "UStrInUtfstr", example_of_ustrinutfstr());
    all &= holds(rt, "UCStrInUtfstr", example_of_ucstrinutfstr());
    all &= holds(rt, "CharIndices", example_of_charindices());
    all &= holds(rt, "CodeUnits", example_of_codeunits());
    all
}
