//! Texts split and edited at the results of searches.
ghost use Rattle.std.specs.Prelude.{◌≡◌, ◌≤◌, length};
ghost use Rattle.widestring.specs.EncodingForm.{Utf16, code_units};
ghost use Rattle.widestring.specs.SearchCut.{substrings};
ghost use Rattle.widestring.specs.SearchSubstrings.{AreSubstrings};
ghost use Rattle.widestring.specs.TextSplit.{char_substrings_left, text_substrings_left};
ghost use Rattle.widestring.specs.View.{units_seen};

use widestring::error::{FaultUnit, OutOfMemory};
use widestring::unit::Unit;
use widestring::utfstr::{Split, UtfStr};
use widestring::utfstring::UtfString;
use widestring::{U16CStr, U16Str, Utf16Str, Utf16String};

/// Returns the text before the first occurrence of a needle, and the text after it.
pub fn around<'a>(text: Utf16Str<'a>, part: Utf16Str<'_>) -> Option<(Utf16Str<'a>, Utf16Str<'a>)> {
    let at = text.find(part)?;
    let (prefix, _) = text.split_at(at);
    let (_, rest) = text.split_at(at + part.len());
    Some((prefix, rest))
}

/// Returns the text before the last occurrence of a needle, and the text after it, at any width.
pub fn around_last<'a, C: Unit>(
    text: UtfStr<'a, C>,
    part: UtfStr<'_, C>,
) -> Option<(UtfStr<'a, C>, UtfStr<'a, C>)> {
    let at = text.rfind(part)?;
    let (prefix, _) = text.split_at(at);
    let (_, rest) = text.split_at(at + part.len());
    Some((prefix, rest))
}

/// Returns the text after the first occurrence of a needle, by a range.
pub fn beyond<'a>(text: Utf16Str<'a>, part: Utf16Str<'_>) -> Option<Utf16Str<'a>> {
    let at = text.find(part)?;
    let Some(rest) = text.get(at + part.len()..) else {
        unreachable!()
    };
    Some(rest)
}

/// Returns the text after the last occurrence of a character, at any width.
pub fn after_char<C: Unit>(text: UtfStr<'_, C>, c: char) -> Option<UtfStr<'_, C>> {
    let at = text.rfind_char(c)?;
    let (_, rest) = text.split_at(at + C::char_len(c));
    Some(rest)
}

/// Inserts a dash before the first occurrence of a needle, if it occurs in the text.
pub fn mark_part(text: &mut Utf16String, part: Utf16Str<'_>) -> Result<(), OutOfMemory> {
    match text.as_utfstr().find(part) {
        Some(at) => text.insert(at, '-'),
        None => Ok(()),
    }
}

/// Inserts a dash before the last occurrence of a character, at any width.
pub fn mark_char<C: FaultUnit>(text: &mut UtfString<C>, c: char) -> Result<(), OutOfMemory> {
    match text.as_utfstr().rfind_char(c) {
        Some(at) => text.insert(at, '-'),
        None => Ok(()),
    }
}

/// Removes the text from the first occurrence of a needle on.
pub fn cut_from(text: &mut Utf16String, part: Utf16Str<'_>) {
    if let Some(at) = text.as_utfstr().find(part) {
        text.drain(at..);
    }
}

/// Removes the text after the first occurrence of a character.
pub fn cut_after(text: &mut Utf16String, c: char) {
    if let Some(at) = text.as_utfstr().find_char(c) {
        text.drain(at + u16::char_len(c)..);
    }
}

/// Returns at most this many units of the text, without splitting a character.
pub fn at_most<C: Unit>(text: UtfStr<'_, C>, units: usize) -> UtfStr<'_, C>
    ensures { length (units_seen result) ≤ units }
{
    let (prefix, _) = text.split_at(text.floor_char_boundary(units));
    prefix
}

/// Returns at least this many units of the text, if there are as many, without splitting a character.
pub fn at_least<C: Unit>(text: UtfStr<'_, C>, units: usize) -> UtfStr<'_, C>
    ensures { units ≤ length (units_seen text.entry) → units ≤ length (units_seen result) }
{
    let (prefix, _) = text.split_at(text.ceil_char_boundary(units));
    prefix
}

/// Returns a key and its value, if the text has an equals sign.
pub fn key_and_value<'a>(
    text: Utf16Str<'a>,
    sign: Utf16Str<'_>,
) -> Option<(Utf16Str<'a>, Utf16Str<'a>)> {
    let (key, value) = text.split_once(sign)?;
    Some((key.trim(), value.trim()))
}

/// Returns how many substrings a character separates.
pub fn count_substrings(text: Utf16Str<'_>, c: char) -> usize {
    let mut count = 0_usize;
    for _ in text.split_char(c) {
        count = count.saturating_add(1);
    }
    count
}

/// Returns the units before the first occurrence of a unit, or all units, which may be ill-formed.
pub fn before_unit(units: U16Str<'_>, unit: u16) -> U16Str<'_> {
    match units.find_unit(unit) {
        Some(at) => {
            let (prefix, _) = units.split_at(at);
            prefix
        }
        None => units,
    }
}

/// Returns the units after a prefix, or all units if they do not begin with it.
pub fn without_prefix<'a>(units: U16Str<'a>, part: U16Str<'_>) -> U16Str<'a> {
    units.strip_prefix(part).unwrap_or(units)
}

/// Returns the last component of a path in a C string.
pub fn last_part<'a>(path: U16CStr<'a>, slash: char) -> U16Str<'a> {
    match path.rfind_char(slash) {
        Some(at) => {
            let (_, name) = path.split_at(at + u16::char_len(slash));
            name
        }
        None => path.as_ustr(),
    }
}

/// Returns the offset of the first line that equals `wanted`.
pub fn line_of(text: Utf16Str<'_>, wanted: Utf16Str<'_>) -> Option<usize> {
    for (offset, line) in text.line_indices() {
        if line == wanted {
            return Some(offset);
        }
    }
    None
}

/// Returns the index of the first line that equals `wanted`, from 0.
pub fn number_of_line(text: Utf16Str<'_>, wanted: Utf16Str<'_>) -> Option<usize> {
    for (number, line) in text.lines().enumerate() {
        if line == wanted {
            return Some(number);
        }
    }
    None
}

/// Returns the index of the first line that equals `wanted`, from 0, of units that may be ill-formed.
pub fn number_of_any_line(units: U16Str<'_>, wanted: U16Str<'_>) -> Option<usize> {
    for (number, line) in units.lines_lossy().enumerate() {
        if line == wanted {
            return Some(number);
        }
    }
    None
}

/// Returns the index of the first field of a row that equals `wanted`.
pub fn number_of_field(row: Utf16Str<'_>, wanted: Utf16Str<'_>) -> Option<usize> {
    for (number, field) in row.split_char(',').enumerate() {
        if field == wanted {
            return Some(number);
        }
    }
    None
}

/// Returns the index of the first field of a row that equals `wanted`, for units that may be ill-formed and a separator
/// of any length.
pub fn number_of_any_field(row: U16Str<'_>, part: U16Str<'_>, wanted: U16Str<'_>) -> Option<usize> {
    for (number, field) in row.split(part).enumerate() {
        if field == wanted {
            return Some(number);
        }
    }
    None
}

/// Returns the text before the first line that equals `wanted`, and the text from that line on.
pub fn parted_at_line<'a>(
    text: Utf16Str<'a>,
    wanted: Utf16Str<'_>,
) -> Option<(Utf16Str<'a>, Utf16Str<'a>)> {
    for (offset, line) in text.line_indices() {
        if line == wanted {
            return Some(text.split_at(offset));
        }
    }
    None
}

/// Inserts a character before the last one that equals `wanted`.
pub fn insert_before_last(
    text: &mut Utf16String,
    wanted: char,
    c: char,
) -> Result<(), OutOfMemory> {
    match text.as_utfstr().char_indices().rfind(|at| at.1 == wanted) {
        Some((at, _)) => text.insert(at, c),
        None => Ok(()),
    }
}

/// Inserts a character before the last one that equals `wanted`. A loop remembers its offset, so the code checks once
/// after the loop that it is a boundary.
pub fn insert_before_remembered(
    text: &mut Utf16String,
    wanted: char,
    c: char,
) -> Result<(), OutOfMemory> {
    let mut offset = None;
    for (at, found) in text.as_utfstr().char_indices() {
        if found == wanted {
            offset = Some(at);
        }
    }
    match offset {
        Some(at) if text.as_utfstr().is_char_boundary(at) => text.insert(at, c),
        _ => Ok(()),
    }
}

/// Returns the text before the first occurrence of a character, and the text from it on.
pub fn parted<'a>(text: Utf16Str<'a>, wanted: char) -> (Utf16Str<'a>, Utf16Str<'a>) {
    match text.find_char(wanted) {
        Some(at) => text.split_at(at),
        None => text.split_at(text.len()),
    }
}

/// Trims the whitespace at both ends of each text.
pub fn trim_all(views: &mut Vec<Utf16Str<'_>>) {
    for view in views.iter_mut() {
        *view = view.trim();
    }
}

/// Trims the whitespace at both ends of each text, by index.
pub fn trim_each(views: &mut Vec<Utf16Str<'_>>) {
    for number in 0..views.len() {
        views[number] = views[number].trim();
    }
}

/// Returns how many lines there are.
pub fn count_lines(text: Utf16Str<'_>) -> usize {
    let mut count = 0_usize;
    for _ in text.lines() {
        count = count.saturating_add(1);
    }
    count
}

/// Returns the fields of a line between commas, which are the substrings of its units.
pub fn fields<'a>(line: Utf16Str<'a>, comma: Utf16Str<'a>) -> Split<Utf16Str<'a>, Utf16Str<'a>>
    ensures { text_substrings_left (λ u. u) result ≡ substrings (units_seen comma.entry) (units_seen line.entry) }
{
    line.split(comma)
}

/// Returns the fields of a line between characters, which are the substrings of its units.
pub fn fields_between(line: Utf16Str<'_>, c: char) -> Split<Utf16Str<'_>, char>
    ensures { AreSubstrings (code_units Utf16 c) (units_seen line.entry) (char_substrings_left Utf16 (λ u. u) result) }
{
    line.split_char(c)
}
