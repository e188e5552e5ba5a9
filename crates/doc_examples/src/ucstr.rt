//! The examples of `widestring::ucstr`.
use crate::holds;
use std::cmp::Ordering;
use std::test::Fail;
use widestring::U16Str;
use widestring::ucstr::{U16CStr, UStrInUcstr};

fn example_of_ucstr() -> Result<bool, Fail> {
    let name = U16CStr::from_slice(&[0x48, 0x69, 0])?;
    let mut holds = name.len() == 2;
    holds &= name.as_slice_with_nul() == [0x48, 0x69, 0].as_slice();
    Ok(holds)
}

fn example_of_ucstr_from_slice() -> Result<bool, Fail> {
    let name = U16CStr::from_slice(&[0x48, 0x69, 0])?;
    let mut holds = name.as_slice() == [0x48, 0x69].as_slice();
    holds &= U16CStr::from_slice(&[0x48, 0, 0x69, 0]).is_err();
    Ok(holds)
}

fn example_of_ucstr_from_slice_truncate() -> Result<bool, Fail> {
    let buffer = [0x48, 0x69, 0, 0xffff, 0];
    let name = U16CStr::from_slice_truncate(&buffer)?;
    Ok(name.as_slice() == [0x48, 0x69].as_slice())
}

fn example_of_ucstr_as_slice_with_nul() -> Result<bool, Fail> {
    let buffer = [0x48, 0x69, 0, 0xffff];
    let name = U16CStr::from_slice_truncate(&buffer)?;
    Ok(name.as_slice_with_nul() == [0x48, 0x69, 0].as_slice())
}

fn example_of_ucstr_split_unit() -> Result<bool, Fail> {
    let row = U16CStr::from_slice(&[0x61, 0x3b, 0xd800, 0])?;
    let mut fields = row.split_unit(0x3b);
    let mut holds = fields.next() == Some(U16Str::from_slice(&[0x61]));
    holds &= fields.next() == Some(U16Str::from_slice(&[0xd800]));
    holds &= fields.next().is_none();
    Ok(holds)
}

fn example_of_ucstr_split_char() -> Result<bool, Fail> {
    let text = U16CStr::from_slice(&[0x61, 0xd83d, 0xde00, 0xde00, 0])?;
    let mut parts = text.split_char('😀');
    let mut holds = parts.next() == Some(U16Str::from_slice(&[0x61]));
    holds &= parts.next() == Some(U16Str::from_slice(&[0xde00]));
    holds &= parts.next().is_none();
    Ok(holds)
}

fn example_of_ucstr_splitn_unit() -> Result<bool, Fail> {
    let setting = U16CStr::from_slice(&[0x61, 0x3d, 0x62, 0x3d, 0])?;
    let mut parts = setting.splitn_unit(2, 0x3d);
    let mut holds = parts.next() == Some(U16Str::from_slice(&[0x61]));
    holds &= parts.next() == Some(U16Str::from_slice(&[0x62, 0x3d]));
    holds &= parts.next().is_none();
    Ok(holds)
}

fn example_of_ucstr_split_terminator() -> Result<bool, Fail> {
    let list = U16CStr::from_slice(&[0x61, 0x3b, 0x3b, 0])?;
    let mut parts = list.split_terminator(U16CStr::from_slice(&[0x3b, 0])?);
    let mut holds = parts.next() == Some(U16Str::from_slice(&[0x61]));
    holds &= parts.next().is_some_and(|part| part.is_empty());
    holds &= parts.next().is_none();
    Ok(holds)
}

fn example_of_ucstr_split_terminator_char() -> Result<bool, Fail> {
    let list = U16CStr::from_slice(&[0x61, 0x3b, 0xd800, 0])?;
    let mut parts = list.split_terminator_char(';');
    let mut holds = parts.next() == Some(U16Str::from_slice(&[0x61]));
    holds &= parts.next() == Some(U16Str::from_slice(&[0xd800]));
    holds &= parts.next().is_none();
    Ok(holds)
}

fn example_of_ucstr_is_ascii() -> Result<bool, Fail> {
    let name = U16CStr::from_slice_truncate(&[0x52, 0x75, 0x6e, 0])?;
    Ok(name.is_ascii())
}

fn example_of_ucstr_eq_ignore_ascii_case() -> Result<bool, Fail> {
    let name = U16CStr::from_slice_truncate(&[0x52, 0x75, 0x6e, 0])?;
    let other = U16CStr::from_slice_truncate(&[0x72, 0x55, 0x4e, 0])?;
    Ok(name.eq_ignore_ascii_case(other))
}

fn example_of_ucstr_starts_with_ignore_ascii_case() -> Result<bool, Fail> {
    let name = U16CStr::from_slice_truncate(&[0x52, 0x75, 0x6e, 0])?;
    let start = U16CStr::from_slice_truncate(&[0x72, 0x55, 0])?;
    Ok(name.starts_with_ignore_ascii_case(start))
}

fn example_of_ucstr_ends_with_ignore_ascii_case() -> Result<bool, Fail> {
    let file = U16CStr::from_slice_truncate(&[0x41, 0x2e, 0x4f, 0x43, 0x58, 0])?;
    let extension = U16CStr::from_slice_truncate(&[0x2e, 0x6f, 0x63, 0x78, 0])?;
    Ok(file.ends_with_ignore_ascii_case(extension))
}

fn example_of_ucstr_contains_ignore_ascii_case() -> Result<bool, Fail> {
    let name = U16CStr::from_slice_truncate(&[0x52, 0x75, 0x6e, 0x4f, 0x6e, 0x63, 0x65, 0])?;
    let part = U16CStr::from_slice_truncate(&[0x4e, 0x4f, 0])?;
    Ok(name.contains_ignore_ascii_case(part))
}

fn example_of_ucstr_find_ignore_ascii_case() -> Result<bool, Fail> {
    let name = U16CStr::from_slice_truncate(&[0x52, 0x75, 0x6e, 0x4f, 0x6e, 0x63, 0x65, 0])?;
    let part = U16CStr::from_slice_truncate(&[0x4f, 0x4e, 0])?;
    let mut holds = name.find_ignore_ascii_case(part) == Some(3);
    holds &= part.find_ignore_ascii_case(name).is_none();
    Ok(holds)
}

fn example_of_ucstr_starts_with_char() -> Result<bool, Fail> {
    let text = U16CStr::from_slice(&[0xd83d, 0xde00, 0x21, 0])?;
    let mut holds = text.starts_with_char('😀');
    holds &= !text.starts_with_char('!');
    Ok(holds)
}

fn example_of_ucstr_ends_with_char() -> Result<bool, Fail> {
    let text = U16CStr::from_slice(&[0x21, 0xd83d, 0xde00, 0])?;
    let mut holds = text.ends_with_char('😀');
    holds &= !text.ends_with_char('\0');
    Ok(holds)
}

fn example_of_ucstr_strip_prefix_char() -> Result<bool, Fail> {
    let path = U16CStr::from_slice(&[0x5c, 0xd800, 0])?;
    let mut holds = path.strip_prefix_char('\\') == Some(U16Str::from_slice(&[0xd800]));
    holds &= path.strip_prefix_char('/').is_none();
    Ok(holds)
}

fn example_of_ucstr_strip_suffix_char() -> Result<bool, Fail> {
    let path = U16CStr::from_slice(&[0xd800, 0x5c, 0])?;
    let mut holds = path.strip_suffix_char('\\') == Some(U16Str::from_slice(&[0xd800]));
    holds &= path.strip_suffix_char('\0').is_none();
    Ok(holds)
}

fn example_of_ucstr_find_from() -> Result<bool, Fail> {
    let path = U16CStr::from_slice(&[0x61, 0x5c, 0x62, 0x5c, 0])?;
    let separator = U16CStr::from_slice(&[0x5c, 0])?;
    let mut holds = path.find_from(separator, 1) == Some(1);
    holds &= path.find_from(separator, 2) == Some(3);
    holds &= path.find_from(separator, 4).is_none();
    Ok(holds)
}

fn example_of_ucstr_find_char_from() -> Result<bool, Fail> {
    let path = U16CStr::from_slice(&[0x61, 0x5c, 0xd800, 0x5c, 0])?;
    let mut holds = path.find_char_from('\\', 2) == Some(3);
    holds &= path.find_char_from('\0', 2).is_none();
    Ok(holds)
}

fn example_of_ucstr_match_indices() -> Result<bool, Fail> {
    let path = U16CStr::from_slice(&[0x61, 0x2f, 0xd800, 0x2f, 0])?;
    let mut found = path.match_indices(U16CStr::from_slice(&[0x2f, 0])?);
    let mut holds = found.next() == Some((1, U16Str::from_slice(&[0x2f])));
    holds &= found.next() == Some((3, U16Str::from_slice(&[0x2f])));
    holds &= found.next().is_none();
    Ok(holds)
}

fn example_of_ucstr_match_indices_char() -> Result<bool, Fail> {
    let path = U16CStr::from_slice(&[0x61, 0x2f, 0xd800, 0x2f, 0])?;
    let mut found = path.match_indices_char('/');
    let mut holds = found.next() == Some((1, U16Str::from_slice(&[0x2f])));
    holds &= found.next() == Some((3, U16Str::from_slice(&[0x2f])));
    holds &= found.next().is_none();
    Ok(holds)
}

fn example_of_ucstr_matches() -> Result<bool, Fail> {
    let path = U16CStr::from_slice(&[0x61, 0x2f, 0xd800, 0x2f, 0])?;
    Ok(path.matches(U16CStr::from_slice(&[0x2f, 0])?).count() == 2)
}

fn example_of_ucstr_matches_char() -> Result<bool, Fail> {
    let path = U16CStr::from_slice(&[0x61, 0x2f, 0xd800, 0x2f, 0])?;
    Ok(path.matches_char('/').count() == 2)
}

fn example_of_ucstr_cmp_code_points() -> Result<bool, Fail> {
    let emoji = U16CStr::from_slice(&[0x61, 0xd83d, 0xde00, 0])?;
    let letter = U16CStr::from_slice(&[0x61, 0xff21, 0])?;
    let mut holds = emoji < letter;
    holds &= emoji.cmp_code_points(letter) == Ordering::Greater;
    Ok(holds)
}

fn example_of_ucstr_splitn_any() -> Result<bool, Fail> {
    let list = U16CStr::from_slice(&[0x61, 0x2c, 0xd800, 0x3b, 0x62, 0])?;
    let separators: &[char] = &[',', ';'];
    let mut parts = list.splitn_any(2, separators);
    let mut holds = parts.next() == Some(U16Str::from_slice(&[0x61]));
    holds &= parts.next() == Some(U16Str::from_slice(&[0xd800, 0x3b, 0x62]));
    holds &= parts.next().is_none();
    Ok(holds)
}

fn example_of_ucstr_split_terminator_any() -> Result<bool, Fail> {
    let list = U16CStr::from_slice(&[0x61, 0x2c, 0x62, 0x3b, 0])?;
    let separators: &[char] = &[',', ';'];
    Ok(list.split_terminator_any(separators).count() == 2)
}

fn example_of_ucstr_split_inclusive_any() -> Result<bool, Fail> {
    let list = U16CStr::from_slice(&[0x61, 0x2c, 0xd800, 0x3b, 0])?;
    let separators: &[char] = &[',', ';'];
    let mut parts = list.split_inclusive_any(separators);
    let mut holds = parts.next() == Some(U16Str::from_slice(&[0x61, 0x2c]));
    holds &= parts.next() == Some(U16Str::from_slice(&[0xd800, 0x3b]));
    holds &= parts.next().is_none();
    Ok(holds)
}

fn example_of_ucstr_rsplit_any() -> Result<bool, Fail> {
    let list = U16CStr::from_slice(&[0x61, 0x2c, 0xd800, 0x3b, 0])?;
    let separators: &[char] = &[',', ';'];
    let mut parts = list.rsplit_any(separators);
    let mut holds = parts.next().is_some_and(|part| part.is_empty());
    holds &= parts.next() == Some(U16Str::from_slice(&[0xd800]));
    holds &= parts.next() == Some(U16Str::from_slice(&[0x61]));
    holds &= parts.next().is_none();
    Ok(holds)
}

fn example_of_ucstr_rsplitn_any() -> Result<bool, Fail> {
    let path = U16CStr::from_slice(&[0x61, 0x2f, 0x62, 0x5c, 0x63, 0])?;
    let separators: &[char] = &['/', '\\'];
    let mut parts = path.rsplitn_any(2, separators);
    let mut holds = parts.next() == Some(U16Str::from_slice(&[0x63]));
    holds &= parts.next() == Some(U16Str::from_slice(&[0x61, 0x2f, 0x62]));
    holds &= parts.next().is_none();
    Ok(holds)
}

fn example_of_ucstr_find_any() -> Result<bool, Fail> {
    let path = U16CStr::from_slice(&[0x61, 0xd800, 0x2f, 0x62, 0])?;
    let separators: &[char] = &['\\', '/'];
    Ok(path.find_any(separators) == Some(2))
}

fn example_of_ucstr_split_any() -> Result<bool, Fail> {
    let list = U16CStr::from_slice(&[0x61, 0x2c, 0xd800, 0x3b, 0])?;
    let separators: &[char] = &[',', ';'];
    let mut parts = list.split_any(separators);
    let mut holds = parts.next() == Some(U16Str::from_slice(&[0x61]));
    holds &= parts.next() == Some(U16Str::from_slice(&[0xd800]));
    holds &= parts.next().is_some_and(|part| part.is_empty());
    holds &= parts.next().is_none();
    Ok(holds)
}

fn example_of_ucstr_split_whitespace() -> Result<bool, Fail> {
    let line = U16CStr::from_slice(&[0x20, 0x61, 0x3000, 0x9, 0xd800, 0])?;
    let mut words = line.split_whitespace();
    let mut holds = words.next() == Some(U16Str::from_slice(&[0x61]));
    holds &= words.next() == Some(U16Str::from_slice(&[0xd800]));
    holds &= words.next().is_none();
    Ok(holds)
}

fn example_of_ucstr_split_ascii_whitespace() -> Result<bool, Fail> {
    let line = U16CStr::from_slice(&[0x61, 0x3000, 0x20, 0x20, 0x62, 0])?;
    let mut words = line.split_ascii_whitespace();
    let mut holds = words.next() == Some(U16Str::from_slice(&[0x61, 0x3000]));
    holds &= words.next() == Some(U16Str::from_slice(&[0x62]));
    holds &= words.next().is_none();
    Ok(holds)
}

fn example_of_ucstr_trim_start_matches() -> Result<bool, Fail> {
    let number = U16CStr::from_slice(&[0x30, 0x30, 0x37, 0x30, 0])?;
    Ok(number.trim_start_matches('0') == U16Str::from_slice(&[0x37, 0x30]))
}

fn example_of_ucstr_trim_end_matches() -> Result<bool, Fail> {
    let folder = U16CStr::from_slice(&[0x2f, 0x61, 0x2f, 0x2f, 0])?;
    Ok(folder.trim_end_matches('/') == U16Str::from_slice(&[0x2f, 0x61]))
}

fn example_of_ucstr_trim_matches() -> Result<bool, Fail> {
    let quoted = U16CStr::from_slice(&[0x22, 0xd800, 0x22, 0])?;
    Ok(quoted.trim_matches('"') == U16Str::from_slice(&[0xd800]))
}

fn example_of_ucstr_trim_start() -> Result<bool, Fail> {
    let value = U16CStr::from_slice(&[0x3000, 0x20, 0xd800, 0x20, 0])?;
    Ok(value.trim_start() == U16Str::from_slice(&[0xd800, 0x20]))
}

fn example_of_ucstr_trim_end() -> Result<bool, Fail> {
    let line = U16CStr::from_slice(&[0x20, 0xd800, 0xd, 0xa, 0])?;
    Ok(line.trim_end() == U16Str::from_slice(&[0x20, 0xd800]))
}

fn example_of_ucstr_trim() -> Result<bool, Fail> {
    let value = U16CStr::from_slice(&[0x9, 0xd800, 0x20, 0x61, 0x20, 0])?;
    Ok(value.trim() == U16Str::from_slice(&[0xd800, 0x20, 0x61]))
}

fn example_of_ucstr_rsplit() -> Result<bool, Fail> {
    let path = U16CStr::from_slice(&[0x61, 0x2f, 0xd800, 0])?;
    let mut parts = path.rsplit(U16CStr::from_slice(&[0x2f, 0])?);
    let mut holds = parts.next() == Some(U16Str::from_slice(&[0xd800]));
    holds &= parts.next() == Some(U16Str::from_slice(&[0x61]));
    holds &= parts.next().is_none();
    Ok(holds)
}

fn example_of_ucstr_rsplit_char() -> Result<bool, Fail> {
    let path = U16CStr::from_slice(&[0x61, 0x2f, 0xd800, 0])?;
    let mut parts = path.rsplit_char('/');
    let mut holds = parts.next() == Some(U16Str::from_slice(&[0xd800]));
    holds &= parts.next() == Some(U16Str::from_slice(&[0x61]));
    holds &= parts.next().is_none();
    Ok(holds)
}

fn example_of_ucstr_rsplitn() -> Result<bool, Fail> {
    let path = U16CStr::from_slice(&[0x61, 0x2f, 0x62, 0x2f, 0x63, 0])?;
    let mut parts = path.rsplitn(2, U16CStr::from_slice(&[0x2f, 0])?);
    let mut holds = parts.next() == Some(U16Str::from_slice(&[0x63]));
    holds &= parts.next() == Some(U16Str::from_slice(&[0x61, 0x2f, 0x62]));
    holds &= parts.next().is_none();
    Ok(holds)
}

fn example_of_ucstr_rsplitn_char() -> Result<bool, Fail> {
    let name = U16CStr::from_slice(&[0x61, 0x2e, 0x62, 0x2e, 0x63, 0])?;
    let mut parts = name.rsplitn_char(2, '.');
    let mut holds = parts.next() == Some(U16Str::from_slice(&[0x63]));
    holds &= parts.next() == Some(U16Str::from_slice(&[0x61, 0x2e, 0x62]));
    holds &= parts.next().is_none();
    Ok(holds)
}

fn example_of_ucstr_split_inclusive() -> Result<bool, Fail> {
    let list = U16CStr::from_slice(&[0x61, 0x3b, 0xd800, 0])?;
    let mut parts = list.split_inclusive(U16CStr::from_slice(&[0x3b, 0])?);
    let mut holds = parts.next() == Some(U16Str::from_slice(&[0x61, 0x3b]));
    holds &= parts.next() == Some(U16Str::from_slice(&[0xd800]));
    holds &= parts.next().is_none();
    Ok(holds)
}

fn example_of_ucstr_split_inclusive_char() -> Result<bool, Fail> {
    let list = U16CStr::from_slice(&[0x61, 0x3b, 0xd800, 0x3b, 0])?;
    let mut parts = list.split_inclusive_char(';');
    let mut holds = parts.next() == Some(U16Str::from_slice(&[0x61, 0x3b]));
    holds &= parts.next() == Some(U16Str::from_slice(&[0xd800, 0x3b]));
    holds &= parts.next().is_none();
    Ok(holds)
}

fn example_of_ustrinucstr() -> Result<bool, Fail> {
    let name = U16CStr::from_slice(&[0x48, 0x69, 0])?;
    Ok(U16Str::from_slice(&[0x48, 0x69]).eq_ucstr(name))
}

// Returns whether the examples of this module hold.
pub(crate) fn hold(rt: &HostRuntime) -> bool {
    let mut all = holds(rt, "UCStr", example_of_ucstr());
    all &= holds(rt, "UCStr::from_slice", example_of_ucstr_from_slice());
    all &= holds(
        rt,
        "UCStr::from_slice_truncate",
        example_of_ucstr_from_slice_truncate(),
    );
    all &= holds(
        rt,
        "UCStr::as_slice_with_nul",
        example_of_ucstr_as_slice_with_nul(),
    );
    all &= holds(rt, "UCStr::split_unit", example_of_ucstr_split_unit());
    all &= holds(rt, "UCStr::split_char", example_of_ucstr_split_char());
    all &= holds(rt, "UCStr::splitn_unit", example_of_ucstr_splitn_unit());
    all &= holds(
        rt,
        "UCStr::split_terminator",
        example_of_ucstr_split_terminator(),
    );
    all &= holds(
        rt,
        "UCStr::split_terminator_char",
        example_of_ucstr_split_terminator_char(),
    );
    all &= holds(rt, "UCStr::is_ascii", example_of_ucstr_is_ascii());
    all &= holds(
        rt,
        "UCStr::eq_ignore_ascii_case",
        example_of_ucstr_eq_ignore_ascii_case(),
    );
    all &= holds(
        rt,
        "UCStr::starts_with_ignore_ascii_case",
        example_of_ucstr_starts_with_ignore_ascii_case(),
    );
    all &= part_2_holds(rt);
    all &= part_3_holds(rt);
    all &= part_4_holds(rt);
    all
}

fn part_2_holds(rt: &HostRuntime) -> bool {
    let mut all = holds(
        rt,
        "UCStr::ends_with_ignore_ascii_case",
        example_of_ucstr_ends_with_ignore_ascii_case(),
    );
    all &= holds(
        rt,
        "UCStr::contains_ignore_ascii_case",
        example_of_ucstr_contains_ignore_ascii_case(),
    );
    all &= holds(
        rt,
        "UCStr::find_ignore_ascii_case",
        example_of_ucstr_find_ignore_ascii_case(),
    );
    all &= holds(
        rt,
        "UCStr::starts_with_char",
        example_of_ucstr_starts_with_char(),
    );
    all &= holds(
        rt,
        "UCStr::ends_with_char",
        example_of_ucstr_ends_with_char(),
    );
    all &= holds(
        rt,
        "UCStr::strip_prefix_char",
        example_of_ucstr_strip_prefix_char(),
    );
    all &= holds(
        rt,
        "UCStr::strip_suffix_char",
        example_of_ucstr_strip_suffix_char(),
    );
    all &= holds(rt, "UCStr::find_from", example_of_ucstr_find_from());
    all &= holds(
        rt,
        "UCStr::find_char_from",
        example_of_ucstr_find_char_from(),
    );
    all &= holds(rt, "UCStr::match_indices", example_of_ucstr_match_indices());
    all &= holds(
        rt,
        "UCStr::match_indices_char",
        example_of_ucstr_match_indices_char(),
    );
    all &= holds(rt, "UCStr::matches", example_of_ucstr_matches());
    all
}

fn part_3_holds(rt: &HostRuntime) -> bool {
    let mut all = holds(rt, "UCStr::matches_char", example_of_ucstr_matches_char());
    all &= holds(
        rt,
        "UCStr::cmp_code_points",
        example_of_ucstr_cmp_code_points(),
    );
    all &= holds(rt, "UCStr::splitn_any", example_of_ucstr_splitn_any());
    all &= holds(
        rt,
        "UCStr::split_terminator_any",
        example_of_ucstr_split_terminator_any(),
    );
    all &= holds(
        rt,
        "UCStr::split_inclusive_any",
        example_of_ucstr_split_inclusive_any(),
    );
    all &= holds(rt, "UCStr::rsplit_any", example_of_ucstr_rsplit_any());
    all &= holds(rt, "UCStr::rsplitn_any", example_of_ucstr_rsplitn_any());
    all &= holds(rt, "UCStr::find_any", example_of_ucstr_find_any());
    all &= holds(rt, "UCStr::split_any", example_of_ucstr_split_any());
    all &= holds(
        rt,
        "UCStr::split_whitespace",
        example_of_ucstr_split_whitespace(),
    );
    all &= holds(
        rt,
        "UCStr::split_ascii_whitespace",
        example_of_ucstr_split_ascii_whitespace(),
    );
    all &= holds(
        rt,
        "UCStr::trim_start_matches",
        example_of_ucstr_trim_start_matches(),
    );
    all
}

fn part_4_holds(rt: &HostRuntime) -> bool {
    let mut all = holds(
        rt,
        "UCStr::trim_end_matches",
        example_of_ucstr_trim_end_matches(),
    );
    all &= holds(rt, "UCStr::trim_matches", example_of_ucstr_trim_matches());
    all &= holds(rt, "UCStr::trim_start", example_of_ucstr_trim_start());
    all &= holds(rt, "UCStr::trim_end", example_of_ucstr_trim_end());
    all &= holds(rt, "UCStr::trim", example_of_ucstr_trim());
    all &= holds(rt, "UCStr::rsplit", example_of_ucstr_rsplit());
    all &= holds(rt, "UCStr::rsplit_char", example_of_ucstr_rsplit_char());
    all &= holds(rt, "UCStr::rsplitn", example_of_ucstr_rsplitn());
    all &= holds(rt, "UCStr::rsplitn_char", example_of_ucstr_rsplitn_char());
    all &= holds(
        rt,
        "UCStr::split_inclusive",
        example_of_ucstr_split_inclusive(),
    );
    all &= holds(
        rt,
        "UCStr::split_inclusive_char",
        example_of_ucstr_split_inclusive_char(),
    );
    all &= holds(rt, "UStrInUcstr", example_of_ustrinucstr());
    all
}
