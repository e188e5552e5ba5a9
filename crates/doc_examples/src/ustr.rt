//! The examples of `widestring::ustr`.
use crate::holds;
use std::cmp::Ordering;
use std::test::Fail;
use widestring::error::{DecodeUtf16Error, Utf16ConvertError, Utf32ConvertError};
use widestring::ustr::{
    AnyOf, BackView, DoubleEndedView, InclusiveBackView, InclusiveView, LineView, MatchBackView,
    MatchView, OneUnit, SplitN, SplitView, U16Str, U32Str,
};
use widestring::{Policy, U16String};

fn example_of_ustr() -> Result<bool, Fail> {
    let path = U16Str::from_slice(&[0x43, 0x3a, 0x5c, 0xd800]);
    let mut holds = path.len() == 4;
    holds &= path.get(..2) == Some(U16Str::from_slice(&[0x43, 0x3a]));
    Ok(holds)
}

fn example_of_ustr_from_slice() -> Result<bool, Fail> {
    let units = [0x48, 0x69, 0xd83d];
    let view = U16Str::from_slice(&units);
    Ok(view.as_slice() == units.as_slice())
}

fn example_of_ustr_display(rt: &HostRuntime) -> Result<bool, Fail> {
    let name = U16Str::from_slice(&[0x48, 0x69, 0xd83d]);
    let line = format!(in rt.alloc(); "Name: {}", name.display())?;
    Ok(line.as_str() == "Name: Hi\u{fffd}")
}

fn example_of_ustr_display_skipping(rt: &HostRuntime) -> Result<bool, Fail> {
    let name = U16Str::from_slice(&[0x48, 0xd83d, 0x69]);
    let line = format!(in rt.alloc(); "Name: {}", name.display_skipping())?;
    Ok(line.as_str() == "Name: Hi")
}

fn example_of_ustr_chars_lossy() -> Result<bool, Fail> {
    let units = U16Str::from_slice(&[0x48, 0xd83d, 0xde00, 0xdc00]);
    Ok(units.chars_lossy().eq("H😀\u{fffd}".chars()))
}

fn example_of_ustr_char_indices_lossy() -> Result<bool, Fail> {
    let units = U16Str::from_slice(&[0xd83d, 0xde00, 0xdc00]);
    let mut characters = units.char_indices_lossy();
    let mut holds = characters.next() == Some((0, '😀'));
    holds &= characters.next() == Some((2, '\u{fffd}'));
    Ok(holds)
}

fn example_of_ustr_chars() -> Result<bool, Fail> {
    let units = U16Str::from_slice(&[0x48, 0xd83d, 0x69]);
    Ok(units.chars().filter(|item| item.is_err()).count() == 1)
}

fn example_of_ustr_char_indices() -> Result<bool, Fail> {
    let units = U16Str::from_slice(&[0x48, 0xd83d, 0x69, 0xdc00]);
    let mut faults = units.char_indices().filter(|item| item.1.is_err());
    let mut holds = faults.next() == Some((1, Err(DecodeUtf16Error::new(0xd83d))));
    holds &= faults.next() == Some((3, Err(DecodeUtf16Error::new(0xdc00))));
    Ok(holds)
}

fn example_of_ustr_to_string_lossy(rt: &HostRuntime) -> Result<bool, Fail> {
    let name = U16Str::from_slice(&[0x64, 0xe9, 0x6a, 0xe0, 0xdc00]);
    let text = name.to_string_lossy(rt.alloc())?;
    Ok(text.as_str() == "déjà\u{fffd}")
}

fn example_of_ustr_to_string_lossy_with(rt: &HostRuntime) -> Result<bool, Fail> {
    let units = U16Str::from_slice(&[0x48, 0xdc00, 0xdc00, 0x69]);
    let text = units.to_string_lossy_with(rt.alloc(), Policy::Run)?;
    let mut holds = text.as_str() == "H\u{fffd}i";
    let text = units.to_string_lossy_with(rt.alloc(), Policy::Skip)?;
    holds &= text.as_str() == "Hi";
    Ok(holds)
}

fn example_of_ustr_to_string(rt: &HostRuntime) -> Result<bool, Fail> {
    let text = U16Str::from_slice(&[0x48, 0xd83d, 0xde00]).to_string(rt.alloc())?;
    let mut holds = text.as_str() == "H😀";
    let fault = U16Str::from_slice(&[0x48, 0xd83d]).to_string(rt.alloc());
    holds &= matches!(&fault, Err(Utf16ConvertError::Utf16(fault)) if fault.index() == 1);
    Ok(holds)
}

fn example_of_ustr_to_string_2(rt: &HostRuntime) -> Result<bool, Fail> {
    let text = U32Str::from_slice(&[0x48, 0x1f600]).to_string(rt.alloc())?;
    let mut holds = text.as_str() == "H😀";
    let fault = U32Str::from_slice(&[0x48, 0x110000]).to_string(rt.alloc());
    holds &= matches!(&fault, Err(Utf32ConvertError::Utf32(fault)) if fault.index() == 1);
    Ok(holds)
}

fn example_of_ustr_lines_lossy() -> Result<bool, Fail> {
    let mut lines = U16Str::from_slice(&[0x48, 0x69, 0xd, 0xa, 0xdc00]).lines_lossy();
    let mut holds = lines.next() == Some(U16Str::from_slice(&[0x48, 0x69]));
    holds &= lines.next() == Some(U16Str::from_slice(&[0xdc00]));
    Ok(holds)
}

fn example_of_ustr_line_indices_lossy() -> Result<bool, Fail> {
    let mut lines = U16Str::from_slice(&[0x48, 0x69, 0xa, 0xdc00]).line_indices_lossy();
    let mut holds = lines.next() == Some((0, U16Str::from_slice(&[0x48, 0x69])));
    holds &= lines.next() == Some((3, U16Str::from_slice(&[0xdc00])));
    Ok(holds)
}

fn example_of_ustr_find(rt: &HostRuntime) -> Result<bool, Fail> {
    let path = U16String::from_str(rt.alloc(), "C:\\temp")?;
    let mut holds = path.as_ustr().find(U16Str::from_slice(&[0x5c])) == Some(2);
    let emoji = U16Str::from_slice(&[0xd83d, 0xde00]);
    holds &= emoji.find(U16Str::from_slice(&[0xde00])) == Some(1);
    Ok(holds)
}

fn example_of_ustr_strip_prefix() -> Result<bool, Fail> {
    let path = U16Str::from_slice(&[0x43, 0x3a, 0xd83d]);
    let drive = U16Str::from_slice(&[0x43, 0x3a]);
    let mut holds = path.strip_prefix(drive) == Some(U16Str::from_slice(&[0xd83d]));
    holds &= drive.strip_prefix(path).is_none();
    Ok(holds)
}

fn example_of_ustr_strip_suffix() -> Result<bool, Fail> {
    let line = U16Str::from_slice(&[0x48, 0xd83d, 0xd, 0xa]);
    let end = U16Str::from_slice(&[0xd, 0xa]);
    let mut holds = line.strip_suffix(end) == Some(U16Str::from_slice(&[0x48, 0xd83d]));
    holds &= end.strip_suffix(line).is_none();
    Ok(holds)
}

fn example_of_ustr_split() -> Result<bool, Fail> {
    let row = U16Str::from_slice(&[0x61, 0x3b, 0xd800, 0x3b]);
    let mut fields = row.split(U16Str::from_slice(&[0x3b]));
    let mut holds = fields.next() == Some(U16Str::from_slice(&[0x61]));
    holds &= fields.next() == Some(U16Str::from_slice(&[0xd800]));
    holds &= fields.next().is_some_and(|field| field.is_empty());
    Ok(holds)
}

fn example_of_ustr_split_unit() -> Result<bool, Fail> {
    let row = U16Str::from_slice(&[0x61, 0x3b, 0xd800, 0x3b]);
    let mut fields = row.split_unit(0x3b);
    let mut holds = fields.next() == Some(U16Str::from_slice(&[0x61]));
    holds &= fields.next() == Some(U16Str::from_slice(&[0xd800]));
    holds &= fields.next().is_some_and(|field| field.is_empty());
    holds &= fields.next().is_none();
    Ok(holds)
}

fn example_of_ustr_split_char() -> Result<bool, Fail> {
    let text = U16Str::from_slice(&[0x61, 0xd83d, 0xde00, 0xde00]);
    let mut parts = text.split_char('😀');
    let mut holds = parts.next() == Some(U16Str::from_slice(&[0x61]));
    holds &= parts.next() == Some(U16Str::from_slice(&[0xde00]));
    holds &= parts.next().is_none();
    Ok(holds)
}

fn example_of_ustr_is_ascii() -> Result<bool, Fail> {
    let name = U16Str::from_slice(&[0x4e, 0x61, 0x6d, 0x65]);
    let mut holds = name.is_ascii();
    holds &= !U16Str::from_slice(&[0x4e, 0xe4]).is_ascii();
    Ok(holds)
}

fn example_of_ustr_eq_ignore_ascii_case() -> Result<bool, Fail> {
    let key = U16Str::from_slice(&[0x52, 0x75, 0x6e]);
    Ok(key.eq_ignore_ascii_case(U16Str::from_slice(&[0x72, 0x55, 0x4e])))
}

fn example_of_ustr_starts_with_ignore_ascii_case(rt: &HostRuntime) -> Result<bool, Fail> {
    let key = U16String::from_str(rt.alloc(), "HKLM\\Software")?;
    let root = U16Str::from_slice(&[0x68, 0x6b, 0x6c, 0x6d]);
    Ok(key.as_ustr().starts_with_ignore_ascii_case(root))
}

fn example_of_ustr_ends_with_ignore_ascii_case(rt: &HostRuntime) -> Result<bool, Fail> {
    let file = U16String::from_str(rt.alloc(), "NOTES.TXT")?;
    let extension = U16Str::from_slice(&[0x2e, 0x74, 0x78, 0x74]);
    Ok(file.as_ustr().ends_with_ignore_ascii_case(extension))
}

fn example_of_ustr_contains_ignore_ascii_case(rt: &HostRuntime) -> Result<bool, Fail> {
    let key = U16String::from_str(rt.alloc(), "HKLM\\SOFTWARE")?;
    let name = U16Str::from_slice(&[0x53, 0x6f, 0x66, 0x74]);
    Ok(key.as_ustr().contains_ignore_ascii_case(name))
}

fn example_of_ustr_find_ignore_ascii_case(rt: &HostRuntime) -> Result<bool, Fail> {
    let key = U16String::from_str(rt.alloc(), "HKLM\\SOFTWARE")?;
    let name = U16Str::from_slice(&[0x53, 0x6f, 0x66, 0x74]);
    let mut holds = key.as_ustr().find_ignore_ascii_case(name) == Some(5);
    holds &= name.find_ignore_ascii_case(key.as_ustr()).is_none();
    Ok(holds)
}

fn example_of_ustr_to_le_bytes(rt: &HostRuntime) -> Result<bool, Fail> {
    let bytes = U16Str::from_slice(&[0x48, 0x20ac]).to_le_bytes(rt.alloc())?;
    Ok(bytes.as_slice() == [0x48, 0, 0xac, 0x20].as_slice())
}

fn example_of_ustr_to_be_bytes(rt: &HostRuntime) -> Result<bool, Fail> {
    let bytes = U16Str::from_slice(&[0x417, 0xd83d]).to_be_bytes(rt.alloc())?;
    Ok(bytes.as_slice() == [0x4, 0x17, 0xd8, 0x3d].as_slice())
}

fn example_of_ustr_to_le_bytes_with_bom(rt: &HostRuntime) -> Result<bool, Fail> {
    let bytes = U16Str::from_slice(&[0x48, 0x69]).to_le_bytes_with_bom(rt.alloc())?;
    Ok(bytes.as_slice() == [0xff, 0xfe, 0x48, 0, 0x69, 0].as_slice())
}

fn example_of_ustr_to_be_bytes_with_bom(rt: &HostRuntime) -> Result<bool, Fail> {
    let bytes = U32Str::from_slice(&[0x1f600]).to_be_bytes_with_bom(rt.alloc())?;
    Ok(bytes.as_slice() == [0, 0, 0xfe, 0xff, 0, 0x1, 0xf6, 0].as_slice())
}

fn example_of_ustr_put_le_bytes() -> Result<bool, Fail> {
    let mut holds = true;
    let view = U16Str::from_slice(&[0x48, 0x20ac]);
    let mut buffer = [0; 6];
    if view.len() <= buffer.len() / 2 {
        let len = view.put_le_bytes(&mut buffer);
        holds &= len == 4;
    }
    holds &= buffer.as_slice() == [0x48, 0, 0xac, 0x20, 0, 0].as_slice();
    Ok(holds)
}

fn example_of_ustr_starts_with_char() -> Result<bool, Fail> {
    let text = U16Str::from_slice(&[0xd83d, 0xde00, 0x21]);
    let mut holds = text.starts_with_char('😀');
    holds &= !U16Str::from_slice(&[0xd83d, 0x21]).starts_with_char('😀');
    Ok(holds)
}

fn example_of_ustr_ends_with_char() -> Result<bool, Fail> {
    let text = U16Str::from_slice(&[0x21, 0xd83d, 0xde00]);
    let mut holds = text.ends_with_char('😀');
    holds &= !U16Str::from_slice(&[0x21, 0xde00]).ends_with_char('😀');
    Ok(holds)
}

fn example_of_ustr_strip_prefix_char() -> Result<bool, Fail> {
    let path = U16Str::from_slice(&[0x5c, 0xd800]);
    let mut holds = path.strip_prefix_char('\\') == Some(U16Str::from_slice(&[0xd800]));
    holds &= path.strip_prefix_char('/').is_none();
    Ok(holds)
}

fn example_of_ustr_strip_suffix_char() -> Result<bool, Fail> {
    let path = U16Str::from_slice(&[0xd800, 0x5c]);
    let mut holds = path.strip_suffix_char('\\') == Some(U16Str::from_slice(&[0xd800]));
    holds &= path.strip_suffix_char('/').is_none();
    Ok(holds)
}

fn example_of_ustr_find_from() -> Result<bool, Fail> {
    let path = U16Str::from_slice(&[0x61, 0x5c, 0x62, 0x5c]);
    let separator = U16Str::from_slice(&[0x5c]);
    let mut holds = path.find_from(separator, 1) == Some(1);
    holds &= path.find_from(separator, 2) == Some(3);
    holds &= path.find_from(separator, 4).is_none();
    Ok(holds)
}

fn example_of_ustr_find_char_from() -> Result<bool, Fail> {
    let path = U16Str::from_slice(&[0x61, 0x5c, 0xd800, 0x5c]);
    let mut holds = path.find_char_from('\\', 1) == Some(1);
    holds &= path.find_char_from('\\', 2) == Some(3);
    holds &= path.find_char_from('\\', 9).is_none();
    Ok(holds)
}

fn example_of_ustr_match_indices() -> Result<bool, Fail> {
    let text = U16Str::from_slice(&[0x61, 0x61, 0x61, 0xd800, 0x61, 0x61]);
    let mut found = text.match_indices(U16Str::from_slice(&[0x61, 0x61]));
    let mut holds = found.next() == Some((0, U16Str::from_slice(&[0x61, 0x61])));
    holds &= found.next() == Some((4, U16Str::from_slice(&[0x61, 0x61])));
    holds &= found.next().is_none();
    Ok(holds)
}

fn example_of_ustr_match_indices_char() -> Result<bool, Fail> {
    let text = U16Str::from_slice(&[0xd83d, 0xde00, 0xd83d, 0x21, 0xd83d, 0xde00]);
    let mut found = text.match_indices_char('😀');
    let mut holds = found.next().is_some_and(|(offset, _)| offset == 0);
    holds &= found.next().is_some_and(|(offset, _)| offset == 4);
    holds &= found.next().is_none();
    Ok(holds)
}

fn example_of_ustr_matches() -> Result<bool, Fail> {
    let text = U16Str::from_slice(&[0x61, 0x61, 0x61, 0xd800, 0x61, 0x61]);
    Ok(text.matches(U16Str::from_slice(&[0x61, 0x61])).count() == 2)
}

fn example_of_ustr_matches_char() -> Result<bool, Fail> {
    let text = U16Str::from_slice(&[0xd83d, 0xde00, 0xd83d, 0x21, 0xd83d, 0xde00]);
    Ok(text.matches_char('😀').count() == 2)
}

fn example_of_ustr_cmp_code_points() -> Result<bool, Fail> {
    let emoji = U16Str::from_slice(&[0x61, 0xd83d, 0xde00]);
    let letter = U16Str::from_slice(&[0x61, 0xff21]);
    let mut holds = emoji < letter;
    holds &= emoji.cmp_code_points(letter) == Ordering::Greater;
    Ok(holds)
}

fn example_of_ustr_splitn_any() -> Result<bool, Fail> {
    let list = U16Str::from_slice(&[0x61, 0x2c, 0xd800, 0x3b, 0x62]);
    let separators: &[char] = &[',', ';'];
    let mut parts = list.splitn_any(2, separators);
    let mut holds = parts.next() == Some(U16Str::from_slice(&[0x61]));
    holds &= parts.next() == Some(U16Str::from_slice(&[0xd800, 0x3b, 0x62]));
    holds &= parts.next().is_none();
    Ok(holds)
}

fn example_of_ustr_split_terminator_any() -> Result<bool, Fail> {
    let list = U16Str::from_slice(&[0x61, 0x2c, 0x62, 0x3b]);
    let separators: &[char] = &[',', ';'];
    Ok(list.split_terminator_any(separators).count() == 2)
}

fn example_of_ustr_split_inclusive_any() -> Result<bool, Fail> {
    let list = U16Str::from_slice(&[0x61, 0x2c, 0xd800, 0x3b]);
    let separators: &[char] = &[',', ';'];
    let mut parts = list.split_inclusive_any(separators);
    let mut holds = parts.next() == Some(U16Str::from_slice(&[0x61, 0x2c]));
    holds &= parts.next() == Some(U16Str::from_slice(&[0xd800, 0x3b]));
    holds &= parts.next().is_none();
    Ok(holds)
}

fn example_of_ustr_rsplit_any() -> Result<bool, Fail> {
    let list = U16Str::from_slice(&[0x61, 0x2c, 0xd800, 0x3b]);
    let separators: &[char] = &[',', ';'];
    let mut parts = list.rsplit_any(separators);
    let mut holds = parts.next().is_some_and(|part| part.is_empty());
    holds &= parts.next() == Some(U16Str::from_slice(&[0xd800]));
    holds &= parts.next() == Some(U16Str::from_slice(&[0x61]));
    holds &= parts.next().is_none();
    Ok(holds)
}

fn example_of_ustr_rsplitn_any() -> Result<bool, Fail> {
    let path = U16Str::from_slice(&[0x61, 0x2f, 0x62, 0x5c, 0x63]);
    let separators: &[char] = &['/', '\\'];
    let mut parts = path.rsplitn_any(2, separators);
    let mut holds = parts.next() == Some(U16Str::from_slice(&[0x63]));
    holds &= parts.next() == Some(U16Str::from_slice(&[0x61, 0x2f, 0x62]));
    holds &= parts.next().is_none();
    Ok(holds)
}

fn example_of_ustr_find_any() -> Result<bool, Fail> {
    let path = U16Str::from_slice(&[0x61, 0xd800, 0x2f, 0x62]);
    let separators: &[char] = &['\\', '/'];
    Ok(path.find_any(separators) == Some(2))
}

fn example_of_ustr_split_any() -> Result<bool, Fail> {
    let list = U16Str::from_slice(&[0x61, 0x2c, 0xd800, 0x3b]);
    let separators: &[char] = &[',', ';'];
    let mut parts = list.split_any(separators);
    let mut holds = parts.next() == Some(U16Str::from_slice(&[0x61]));
    holds &= parts.next() == Some(U16Str::from_slice(&[0xd800]));
    holds &= parts.next().is_some_and(|part| part.is_empty());
    holds &= parts.next().is_none();
    Ok(holds)
}

fn example_of_ustr_split_whitespace() -> Result<bool, Fail> {
    let line = U16Str::from_slice(&[0x20, 0x61, 0x3000, 0x9, 0xd800]);
    let mut words = line.split_whitespace();
    let mut holds = words.next() == Some(U16Str::from_slice(&[0x61]));
    holds &= words.next() == Some(U16Str::from_slice(&[0xd800]));
    holds &= words.next().is_none();
    Ok(holds)
}

fn example_of_ustr_split_ascii_whitespace() -> Result<bool, Fail> {
    let line = U16Str::from_slice(&[0x61, 0x3000, 0x20, 0x20, 0x62]);
    let mut words = line.split_ascii_whitespace();
    let mut holds = words.next() == Some(U16Str::from_slice(&[0x61, 0x3000]));
    holds &= words.next() == Some(U16Str::from_slice(&[0x62]));
    holds &= words.next().is_none();
    Ok(holds)
}

fn example_of_ustr_trim_start_matches() -> Result<bool, Fail> {
    let number = U16Str::from_slice(&[0x30, 0x30, 0x37, 0x30]);
    Ok(number.trim_start_matches('0') == U16Str::from_slice(&[0x37, 0x30]))
}

fn example_of_ustr_trim_end_matches() -> Result<bool, Fail> {
    let folder = U16Str::from_slice(&[0x2f, 0x61, 0x2f, 0x2f]);
    Ok(folder.trim_end_matches('/') == U16Str::from_slice(&[0x2f, 0x61]))
}

fn example_of_ustr_trim_matches() -> Result<bool, Fail> {
    let quoted = U16Str::from_slice(&[0x22, 0xd800, 0x22]);
    Ok(quoted.trim_matches('"') == U16Str::from_slice(&[0xd800]))
}

fn example_of_ustr_trim_start() -> Result<bool, Fail> {
    let value = U16Str::from_slice(&[0x3000, 0x20, 0xd800, 0x20]);
    Ok(value.trim_start() == U16Str::from_slice(&[0xd800, 0x20]))
}

fn example_of_ustr_trim_end() -> Result<bool, Fail> {
    let line = U16Str::from_slice(&[0x20, 0xd800, 0xd, 0xa]);
    Ok(line.trim_end() == U16Str::from_slice(&[0x20, 0xd800]))
}

fn example_of_ustr_trim() -> Result<bool, Fail> {
    let value = U16Str::from_slice(&[0x9, 0xd800, 0x20, 0x61, 0x20]);
    Ok(value.trim() == U16Str::from_slice(&[0xd800, 0x20, 0x61]))
}

fn example_of_ustr_rsplit() -> Result<bool, Fail> {
    let path = U16Str::from_slice(&[0x61, 0x2f, 0xd800, 0x2f]);
    let mut parts = path.rsplit(U16Str::from_slice(&[0x2f]));
    let mut holds = parts.next().is_some_and(|part| part.is_empty());
    holds &= parts.next() == Some(U16Str::from_slice(&[0xd800]));
    holds &= parts.next() == Some(U16Str::from_slice(&[0x61]));
    holds &= parts.next().is_none();
    Ok(holds)
}

fn example_of_ustr_rsplit_char() -> Result<bool, Fail> {
    let path = U16Str::from_slice(&[0x61, 0x2f, 0xd800]);
    let mut parts = path.rsplit_char('/');
    let mut holds = parts.next() == Some(U16Str::from_slice(&[0xd800]));
    holds &= parts.next() == Some(U16Str::from_slice(&[0x61]));
    holds &= parts.next().is_none();
    Ok(holds)
}

fn example_of_ustr_rsplitn() -> Result<bool, Fail> {
    let path = U16Str::from_slice(&[0x61, 0x2f, 0x62, 0x2f, 0x63]);
    let mut parts = path.rsplitn(2, U16Str::from_slice(&[0x2f]));
    let mut holds = parts.next() == Some(U16Str::from_slice(&[0x63]));
    holds &= parts.next() == Some(U16Str::from_slice(&[0x61, 0x2f, 0x62]));
    holds &= parts.next().is_none();
    Ok(holds)
}

fn example_of_ustr_rsplitn_char() -> Result<bool, Fail> {
    let name = U16Str::from_slice(&[0x61, 0x2e, 0x62, 0x2e, 0x63]);
    let mut parts = name.rsplitn_char(2, '.');
    let mut holds = parts.next() == Some(U16Str::from_slice(&[0x63]));
    holds &= parts.next() == Some(U16Str::from_slice(&[0x61, 0x2e, 0x62]));
    holds &= parts.next().is_none();
    Ok(holds)
}

fn example_of_ustr_split_inclusive() -> Result<bool, Fail> {
    let list = U16Str::from_slice(&[0x61, 0x3b, 0x3b, 0xd800]);
    let mut parts = list.split_inclusive(U16Str::from_slice(&[0x3b]));
    let mut holds = parts.next() == Some(U16Str::from_slice(&[0x61, 0x3b]));
    holds &= parts.next() == Some(U16Str::from_slice(&[0x3b]));
    holds &= parts.next() == Some(U16Str::from_slice(&[0xd800]));
    holds &= parts.next().is_none();
    Ok(holds)
}

fn example_of_ustr_split_inclusive_char() -> Result<bool, Fail> {
    let list = U16Str::from_slice(&[0x61, 0x3b, 0xd800, 0x3b]);
    let mut parts = list.split_inclusive_char(';');
    let mut holds = parts.next() == Some(U16Str::from_slice(&[0x61, 0x3b]));
    holds &= parts.next() == Some(U16Str::from_slice(&[0xd800, 0x3b]));
    holds &= parts.next().is_none();
    Ok(holds)
}

fn example_of_ustr_splitn() -> Result<bool, Fail> {
    let setting = U16Str::from_slice(&[0x61, 0x3d, 0x62, 0x3d, 0x63]);
    let mut parts = setting.splitn(2, U16Str::from_slice(&[0x3d]));
    let mut holds = parts.next() == Some(U16Str::from_slice(&[0x61]));
    holds &= parts.next() == Some(U16Str::from_slice(&[0x62, 0x3d, 0x63]));
    holds &= parts.next().is_none();
    Ok(holds)
}

fn example_of_ustr_splitn_unit() -> Result<bool, Fail> {
    let setting = U16Str::from_slice(&[0xd800, 0x3d, 0x62, 0x3d]);
    let mut parts = setting.splitn_unit(2, 0x3d);
    let mut holds = parts.next() == Some(U16Str::from_slice(&[0xd800]));
    holds &= parts.next() == Some(U16Str::from_slice(&[0x62, 0x3d]));
    holds &= parts.next().is_none();
    Ok(holds)
}

fn example_of_ustr_splitn_char() -> Result<bool, Fail> {
    let text = U16Str::from_slice(&[0x61, 0xd83d, 0xde00, 0xd83d, 0xde00]);
    let mut parts = text.splitn_char(2, '😀');
    let mut holds = parts.next() == Some(U16Str::from_slice(&[0x61]));
    holds &= parts.next() == Some(U16Str::from_slice(&[0xd83d, 0xde00]));
    holds &= parts.next().is_none();
    Ok(holds)
}

fn example_of_ustr_split_terminator() -> Result<bool, Fail> {
    let list = U16Str::from_slice(&[0x61, 0x3b, 0x3b]);
    let mut parts = list.split_terminator(U16Str::from_slice(&[0x3b]));
    let mut holds = parts.next() == Some(U16Str::from_slice(&[0x61]));
    holds &= parts.next().is_some_and(|part| part.is_empty());
    holds &= parts.next().is_none();
    Ok(holds)
}

fn example_of_ustr_split_terminator_char() -> Result<bool, Fail> {
    let list = U16Str::from_slice(&[0x61, 0x3b, 0xd800]);
    let mut parts = list.split_terminator_char(';');
    let mut holds = parts.next() == Some(U16Str::from_slice(&[0x61]));
    holds &= parts.next() == Some(U16Str::from_slice(&[0xd800]));
    holds &= parts.next().is_none();
    Ok(holds)
}

fn example_of_chars() -> Result<bool, Fail> {
    let mut items = U16Str::from_slice(&[0x48, 0xd83d, 0xde00, 0xdc00]).chars();
    let mut holds = items.next() == Some(Ok('H'));
    holds &= items.next_back() == Some(Err(DecodeUtf16Error::new(0xdc00)));
    holds &= items.next_back() == Some(Ok('😀'));
    Ok(holds)
}

fn example_of_charslossy() -> Result<bool, Fail> {
    let mut characters = U16Str::from_slice(&[0xdc00, 0x48, 0xd83d, 0xde00]).chars_lossy();
    let mut holds = characters.next() == Some('\u{fffd}');
    holds &= characters.next_back() == Some('😀');
    Ok(holds)
}

fn example_of_charindices() -> Result<bool, Fail> {
    let mut items = U16Str::from_slice(&[0xd83d, 0xde00, 0xdc00]).char_indices();
    let mut holds = items.next() == Some((0, Ok('😀')));
    holds &= items.offset() == 2;
    holds &= items.next() == Some((2, Err(DecodeUtf16Error::new(0xdc00))));
    Ok(holds)
}

fn example_of_charindiceslossy() -> Result<bool, Fail> {
    let mut characters = U16Str::from_slice(&[0xd83d, 0xde00, 0xdc00]).char_indices_lossy();
    let mut holds = characters.next_back() == Some((2, '\u{fffd}'));
    holds &= characters.next() == Some((0, '😀'));
    holds &= characters.offset() == 2;
    Ok(holds)
}

fn example_of_charslossywith() -> Result<bool, Fail> {
    let units = U16Str::from_slice(&[0x48, 0xdc00, 0xdc00]);
    let mut characters = units.chars_lossy_with(Policy::Run);
    let mut holds = characters.next_back() == Some('\u{fffd}');
    holds &= characters.next_back() == Some('H');
    Ok(holds)
}

fn example_of_lineview() -> Result<bool, Fail> {
    let text = U16Str::from_slice(&[0x48, 0x69, 0xd, 0xa, 0x21]);
    let line = U16Str::from_slice(&[0x48, 0x69]);
    Ok(text.first_line() == Some((line, U16Str::from_slice(&[0x21]))))
}

fn example_of_lines() -> Result<bool, Fail> {
    let mut lines = U16Str::from_slice(&[0x48, 0x69, 0xa, 0xa]).lines_lossy();
    let mut holds = lines.next() == Some(U16Str::from_slice(&[0x48, 0x69]));
    holds &= lines.next().is_some_and(|line| line.is_empty());
    holds &= lines.next().is_none();
    Ok(holds)
}

fn example_of_lineindices() -> Result<bool, Fail> {
    let text = U16Str::from_slice(&[0x48, 0x69, 0xd, 0xa, 0x21]);
    let last = text.line_indices_lossy().last();
    Ok(last == Some((4, U16Str::from_slice(&[0x21]))))
}

fn example_of_splitview() -> Result<bool, Fail> {
    let setting = U16Str::from_slice(&[0x78, 0x3d, 0x31]);
    let cut = setting.cut_first(U16Str::from_slice(&[0x3d]));
    Ok(cut == Some((U16Str::from_slice(&[0x78]), U16Str::from_slice(&[0x31]))))
}

fn example_of_needleview() -> Result<bool, Fail> {
    let row = U16Str::from_slice(&[0x61, 0x3b, 0x62, 0x3b]);
    let mut fields = SplitN::new(row, OneUnit { unit: 0x3b }, 2);
    let mut holds = fields.next() == Some(U16Str::from_slice(&[0x61]));
    holds &= fields.next() == Some(U16Str::from_slice(&[0x62, 0x3b]));
    Ok(holds)
}

fn example_of_oneunit() -> Result<bool, Fail> {
    let setting = U16Str::from_slice(&[0x78, 0x3d, 0x31]);
    let parts = setting.cut_first(OneUnit { unit: 0x3d });
    Ok(parts.is_some_and(|(name, value)| name.len() == 1 && value.len() == 1))
}

fn example_of_split() -> Result<bool, Fail> {
    let path = U16Str::from_slice(&[0x43, 0x3a, 0x5c, 0x74, 0x5c, 0xe9]);
    let mut parts = path.split_char('\\');
    let mut holds = parts.next_back() == Some(U16Str::from_slice(&[0xe9]));
    holds &= parts.next() == Some(U16Str::from_slice(&[0x43, 0x3a]));
    holds &= parts.count() == 1;
    Ok(holds)
}

fn example_of_display(rt: &HostRuntime) -> Result<bool, Fail> {
    let shown = U16Str::from_slice(&[0x48, 0x69, 0xd83d]).display();
    let text = format!(in rt.alloc(); "{shown} {shown:?}")?;
    Ok(text.as_str() == "Hi\u{fffd} \"Hi\\<D83D>\"")
}

fn example_of_displayskipping(rt: &HostRuntime) -> Result<bool, Fail> {
    let shown = U16Str::from_slice(&[0x48, 0xdc00, 0x69, 0xfffd]).display_skipping();
    let text = shown.to_string(rt.alloc())?;
    Ok(text.as_str() == "Hi")
}

fn example_of_matchview() -> Result<bool, Fail> {
    let list = U16Str::from_slice(&[0x61, 0x3b, 0x62]);
    let found = list.first_match(';');
    Ok(found.is_some_and(|(at, found, rest)| at == found.len() && rest.len() == 1))
}

fn example_of_matchbackview() -> Result<bool, Fail> {
    let list = U16Str::from_slice(&[0x61, 0x3b, 0x62, 0x3b]);
    let found = list.last_match(';');
    Ok(found.is_some_and(|(before, found)| before.len() == 3 && found.len() == 1))
}

fn example_of_matchindices() -> Result<bool, Fail> {
    let list = U16Str::from_slice(&[0x61, 0x3b, 0x62, 0x3b]);
    let mut found = list.match_indices_char(';');
    let mut holds = found.next_back().is_some_and(|(offset, _)| offset == 3);
    holds &= found.next_back().is_some_and(|(offset, _)| offset == 1);
    holds &= found.next_back().is_none();
    Ok(holds)
}

fn example_of_matches() -> Result<bool, Fail> {
    let list = U16Str::from_slice(&[0x61, 0x3b, 0x62, 0x3b]);
    Ok(list.matches(U16Str::from_slice(&[0x3b])).count() == 2)
}

fn example_of_anyof() -> Result<bool, Fail> {
    let setting = U16Str::from_slice(&[0x78, 0x3a, 0x31]);
    let separators: &[char] = &['=', ':'];
    let parts = setting.cut_first(AnyOf { set: separators });
    Ok(parts.is_some_and(|(name, value)| name.len() == 1 && value.len() == 1))
}

fn example_of_backview() -> Result<bool, Fail> {
    let path = U16Str::from_slice(&[0x61, 0x2f, 0x62, 0x2f, 0x63]);
    let parts = path.cut_last('/');
    Ok(parts.is_some_and(|(folder, file)| folder.len() == 3 && file.len() == 1))
}

fn example_of_rsplit() -> Result<bool, Fail> {
    let path = U16Str::from_slice(&[0x43, 0x3a, 0x5c, 0x74, 0x5c, 0xe9]);
    let mut parts = path.rsplit(U16Str::from_slice(&[0x5c]));
    Ok(parts.next() == Some(U16Str::from_slice(&[0xe9])))
}

fn example_of_rsplitn() -> Result<bool, Fail> {
    let path = U16Str::from_slice(&[0x61, 0x2f, 0x62, 0x2f, 0x63]);
    let parts = path.rsplitn(2, U16Str::from_slice(&[0x2f]));
    Ok(parts.last().is_some_and(|folder| folder.len() == 3))
}

fn example_of_doubleendedview() -> Result<bool, Fail> {
    let path = U16Str::from_slice(&[0x61, 0x2f, 0x62, 0x2f, 0x63]);
    let parts = path.cut_off_last('/');
    Ok(parts.is_some_and(|(folder, file)| folder.len() == 3 && file.len() == 1))
}

fn example_of_splitfilled() -> Result<bool, Fail> {
    let line = U16Str::from_slice(&[0x20, 0x61, 0x9, 0x20, 0x62]);
    let mut words = line.split_whitespace();
    let mut holds = words.next_back() == Some(U16Str::from_slice(&[0x62]));
    holds &= words.count() == 1;
    Ok(holds)
}

fn example_of_inclusiveview() -> Result<bool, Fail> {
    let list = U16Str::from_slice(&[0x61, 0x3b, 0x62]);
    let parts = list.cut_after(';');
    Ok(parts.is_some_and(|(first, rest)| first.len() == 2 && rest.len() == 1))
}

fn example_of_inclusivebackview() -> Result<bool, Fail> {
    let list = U16Str::from_slice(&[0x61, 0x3b, 0x62, 0x3b]);
    let parts = list.cut_off_inclusive(';');
    Ok(parts.is_some_and(|(rest, last)| rest.len() == 2 && last.len() == 2))
}

fn example_of_splitinclusive() -> Result<bool, Fail> {
    let list = U16Str::from_slice(&[0x61, 0x3b, 0x62, 0x3b]);
    let mut parts = list.split_inclusive_char(';');
    let mut holds = parts.next_back() == Some(U16Str::from_slice(&[0x62, 0x3b]));
    holds &= parts.count() == 1;
    Ok(holds)
}

fn example_of_splitn() -> Result<bool, Fail> {
    let setting = U16Str::from_slice(&[0x61, 0x3d, 0x62, 0x3d]);
    let parts = setting.splitn(2, U16Str::from_slice(&[0x3d]));
    Ok(parts.last().is_some_and(|value| value.len() == 2))
}

fn example_of_splitterminator() -> Result<bool, Fail> {
    let list = U16Str::from_slice(&[0x61, 0x3b, 0x62, 0x3b]);
    let mut parts = list.split_terminator_char(';');
    let mut holds = parts.next_back() == Some(U16Str::from_slice(&[0x62]));
    holds &= parts.count() == 1;
    Ok(holds)
}

// Returns whether the examples of this module hold.
pub(crate) fn hold(rt: &HostRuntime) -> bool {
    let mut all = holds(rt, "UStr", example_of_ustr());
    all &= holds(rt, "UStr::from_slice", example_of_ustr_from_slice());
    all &= holds(rt, "UStr::display", example_of_ustr_display(rt));
    all &= holds(
        rt,
        "UStr::display_skipping",
        example_of_ustr_display_skipping(rt),
    );
    all &= holds(rt, "UStr::chars_lossy", example_of_ustr_chars_lossy());
    all &= holds(
        rt,
        "UStr::char_indices_lossy",
        example_of_ustr_char_indices_lossy(),
    );
    all &= holds(rt, "UStr::chars", example_of_ustr_chars());
    all &= holds(rt, "UStr::char_indices", example_of_ustr_char_indices());
    all &= holds(
        rt,
        "UStr::to_string_lossy",
        example_of_ustr_to_string_lossy(rt),
    );
    all &= holds(
        rt,
        "UStr::to_string_lossy_with",
        example_of_ustr_to_string_lossy_with(rt),
    );
    all &= holds(rt, "UStr::to_string", example_of_ustr_to_string(rt));
    all &= holds(rt, "UStr::to_string", example_of_ustr_to_string_2(rt));
    all &= part_2_holds(rt);
    all &= part_3_holds(rt);
    all &= part_4_holds(rt);
    all &= part_5_holds(rt);
    all &= part_6_holds(rt);
    all &= part_7_holds(rt);
    all &= part_8_holds(rt);
    all &= part_9_holds(rt);
    all
}

fn part_2_holds(rt: &HostRuntime) -> bool {
    let mut all = holds(rt, "UStr::lines_lossy", example_of_ustr_lines_lossy());
    all &= holds(
        rt,
        "UStr::line_indices_lossy",
        example_of_ustr_line_indices_lossy(),
    );
    all &= holds(rt, "UStr::find", example_of_ustr_find(rt));
    all &= holds(rt, "UStr::strip_prefix", example_of_ustr_strip_prefix());
    all &= holds(rt, "UStr::strip_suffix", example_of_ustr_strip_suffix());
    all &= holds(rt, "UStr::split", example_of_ustr_split());
    all &= holds(rt, "UStr::split_unit", example_of_ustr_split_unit());
    all &= holds(rt, "UStr::split_char", example_of_ustr_split_char());
    all &= holds(rt, "UStr::is_ascii", example_of_ustr_is_ascii());
    all &= holds(
        rt,
        "UStr::eq_ignore_ascii_case",
        example_of_ustr_eq_ignore_ascii_case(),
    );
    all &= holds(
        rt,
        "UStr::starts_with_ignore_ascii_case",
        example_of_ustr_starts_with_ignore_ascii_case(rt),
    );
    all &= holds(
        rt,
        "UStr::ends_with_ignore_ascii_case",
        example_of_ustr_ends_with_ignore_ascii_case(rt),
    );
    all
}

fn part_3_holds(rt: &HostRuntime) -> bool {
    let mut all = holds(
        rt,
        "UStr::contains_ignore_ascii_case",
        example_of_ustr_contains_ignore_ascii_case(rt),
    );
    all &= holds(
        rt,
        "UStr::find_ignore_ascii_case",
        example_of_ustr_find_ignore_ascii_case(rt),
    );
    all &= holds(rt, "UStr::to_le_bytes", example_of_ustr_to_le_bytes(rt));
    all &= holds(rt, "UStr::to_be_bytes", example_of_ustr_to_be_bytes(rt));
    all &= holds(
        rt,
        "UStr::to_le_bytes_with_bom",
        example_of_ustr_to_le_bytes_with_bom(rt),
    );
    all &= holds(
        rt,
        "UStr::to_be_bytes_with_bom",
        example_of_ustr_to_be_bytes_with_bom(rt),
    );
    all &= holds(rt, "UStr::put_le_bytes", example_of_ustr_put_le_bytes());
    all &= holds(
        rt,
        "UStr::starts_with_char",
        example_of_ustr_starts_with_char(),
    );
    all &= holds(rt, "UStr::ends_with_char", example_of_ustr_ends_with_char());
    all &= holds(
        rt,
        "UStr::strip_prefix_char",
        example_of_ustr_strip_prefix_char(),
    );
    all &= holds(
        rt,
        "UStr::strip_suffix_char",
        example_of_ustr_strip_suffix_char(),
    );
    all &= holds(rt, "UStr::find_from", example_of_ustr_find_from());
    all
}

fn part_4_holds(rt: &HostRuntime) -> bool {
    let mut all = holds(rt, "UStr::find_char_from", example_of_ustr_find_char_from());
    all &= holds(rt, "UStr::match_indices", example_of_ustr_match_indices());
    all &= holds(
        rt,
        "UStr::match_indices_char",
        example_of_ustr_match_indices_char(),
    );
    all &= holds(rt, "UStr::matches", example_of_ustr_matches());
    all &= holds(rt, "UStr::matches_char", example_of_ustr_matches_char());
    all &= holds(
        rt,
        "UStr::cmp_code_points",
        example_of_ustr_cmp_code_points(),
    );
    all &= holds(rt, "UStr::splitn_any", example_of_ustr_splitn_any());
    all &= holds(
        rt,
        "UStr::split_terminator_any",
        example_of_ustr_split_terminator_any(),
    );
    all &= holds(
        rt,
        "UStr::split_inclusive_any",
        example_of_ustr_split_inclusive_any(),
    );
    all &= holds(rt, "UStr::rsplit_any", example_of_ustr_rsplit_any());
    all &= holds(rt, "UStr::rsplitn_any", example_of_ustr_rsplitn_any());
    all &= holds(rt, "UStr::find_any", example_of_ustr_find_any());
    all
}

fn part_5_holds(rt: &HostRuntime) -> bool {
    let mut all = holds(rt, "UStr::split_any", example_of_ustr_split_any());
    all &= holds(
        rt,
        "UStr::split_whitespace",
        example_of_ustr_split_whitespace(),
    );
    all &= holds(
        rt,
        "UStr::split_ascii_whitespace",
        example_of_ustr_split_ascii_whitespace(),
    );
    all &= holds(
        rt,
        "UStr::trim_start_matches",
        example_of_ustr_trim_start_matches(),
    );
    all &= holds(
        rt,
        "UStr::trim_end_matches",
        example_of_ustr_trim_end_matches(),
    );
    all &= holds(rt, "UStr::trim_matches", example_of_ustr_trim_matches());
    all &= holds(rt, "UStr::trim_start", example_of_ustr_trim_start());
    all &= holds(rt, "UStr::trim_end", example_of_ustr_trim_end());
    all &= holds(rt, "UStr::trim", example_of_ustr_trim());
    all &= holds(rt, "UStr::rsplit", example_of_ustr_rsplit());
    all &= holds(rt, "UStr::rsplit_char", example_of_ustr_rsplit_char());
    all &= holds(rt, "UStr::rsplitn", example_of_ustr_rsplitn());
    all
}

fn part_6_holds(rt: &HostRuntime) -> bool {
    let mut all = holds(rt, "UStr::rsplitn_char", example_of_ustr_rsplitn_char());
    all &= holds(
        rt,
        "UStr::split_inclusive",
        example_of_ustr_split_inclusive(),
    );
    all &= holds(
        rt,
        "UStr::split_inclusive_char",
        example_of_ustr_split_inclusive_char(),
    );
    all &= holds(rt, "UStr::splitn", example_of_ustr_splitn());
    all &= holds(rt, "UStr::splitn_unit", example_of_ustr_splitn_unit());
    all &= holds(rt, "UStr::splitn_char", example_of_ustr_splitn_char());
    all &= holds(
        rt,
        "UStr::split_terminator",
        example_of_ustr_split_terminator(),
    );
    all &= holds(
        rt,
        "UStr::split_terminator_char",
        example_of_ustr_split_terminator_char(),
    );
    all &= holds(rt, "Chars", example_of_chars());
    all &= holds(rt, "CharsLossy", example_of_charslossy());
    all &= holds(rt, "CharIndices", example_of_charindices());
    all &= holds(rt, "CharIndicesLossy", example_of_charindiceslossy());
    all
}

fn part_7_holds(rt: &HostRuntime) -> bool {
    let mut all = holds(rt, "CharsLossyWith", example_of_charslossywith());
    all &= holds(rt, "LineView", example_of_lineview());
    all &= holds(rt, "Lines", example_of_lines());
    all &= holds(rt, "LineIndices", example_of_lineindices());
    all &= holds(rt, "SplitView", example_of_splitview());
    all &= holds(rt, "NeedleView", example_of_needleview());
    all &= holds(rt, "OneUnit", example_of_oneunit());
    all &= holds(rt, "Split", example_of_split());
    all &= holds(rt, "Display", example_of_display(rt));
    all &= holds(rt, "DisplaySkipping", example_of_displayskipping(rt));
    all &= holds(rt, "MatchView", example_of_matchview());
    all &= holds(rt, "MatchBackView", example_of_matchbackview());
    all
}

fn part_8_holds(rt: &HostRuntime) -> bool {
    let mut all = holds(rt, "MatchIndices", example_of_matchindices());
    all &= holds(rt, "Matches", example_of_matches());
    all &= holds(rt, "AnyOf", example_of_anyof());
    all &= holds(rt, "BackView", example_of_backview());
    all &= holds(rt, "RSplit", example_of_rsplit());
    all &= holds(rt, "RSplitN", example_of_rsplitn());
    all &= holds(rt, "DoubleEndedView", example_of_doubleendedview());
    all &= holds(rt, "SplitFilled", example_of_splitfilled());
    all &= holds(rt, "InclusiveView", example_of_inclusiveview());
    all &= holds(rt, "InclusiveBackView", example_of_inclusivebackview());
    all &= holds(rt, "SplitInclusive", example_of_splitinclusive());
    all &= holds(rt, "SplitN", example_of_splitn());
    all
}

fn part_9_holds(rt: &HostRuntime) -> bool {
    let mut all = holds(rt, "SplitTerminator", example_of_splitterminator());
    all
}
