//! The idioms of `CALLING.md` that no other caller has.

use std::alloc::Global;
use std::collections::{BTreeMap, HashMap};
use widestring::bytes::utf16_of_bytes;
use widestring::error::{OutOfMemory, UCStringError};
use widestring::replace::UtfStrReplace;
use widestring::ustring::UStrInUstring;
use widestring::utfstring::UtfStrInUtfstring;
use widestring::{U16CString, U16Str, U16String, Utf16Str, Utf16String, Utf32String};

/// Returns the lines of a text in the order of their code points.
pub fn sorted_lines<'a>(
    alloc: Global,
    text: Utf16Str<'a>,
) -> Result<Vec<Utf16Str<'a>>, OutOfMemory> {
    let mut lines: Vec<Utf16Str<'_>> = text.lines().collect(alloc)?;
    lines.sort_by(|a, b| a.cmp_code_points(*b))?;
    Ok(lines)
}

/// Sorts names by their code points.
pub fn sort_names(names: &mut Vec<Utf16String>) -> Result<(), OutOfMemory> {
    names.sort_by(|a, b| a.as_utfstr().cmp_code_points(b.as_utfstr()))?;
    Ok(())
}

/// Returns how often each word of a text occurs.
pub fn word_counts(
    alloc: Global,
    text: Utf16Str<'_>,
) -> Result<HashMap<Utf16String, usize>, OutOfMemory> {
    let mut counts: HashMap<Utf16String, usize> = HashMap::new(alloc);
    for word in text.split_whitespace() {
        let key = word.to_utfstring(alloc)?;
        let count = counts.get(&key).copied().unwrap_or(0);
        counts.insert(key, count.saturating_add(1))?;
    }
    Ok(counts)
}

/// Returns the number that a map has for a view, or 0.
pub fn number_of(
    alloc: Global,
    numbers: &HashMap<U16String, usize>,
    view: U16Str<'_>,
) -> Result<usize, OutOfMemory> {
    let number = numbers.get(&view.to_ustring(alloc)?).copied();
    Ok(number.unwrap_or(0))
}

/// Returns the units of bytes, which are big endian unless they have a BOM.
pub fn big_endian_units(alloc: Global, bytes: &[u8]) -> Result<Vec<u16>, OutOfMemory> {
    let file = utf16_of_bytes(bytes);
    if file.has_bom {
        let units: Vec<u16> = file.units.collect(alloc)?;
        return Ok(units);
    }
    let units: Vec<u16> = file.units.map(u16::swap_bytes).collect(alloc)?;
    Ok(units)
}

/// Returns a copy of the text with a mark before each digit.
pub fn digits_marked(alloc: Global, text: Utf16Str<'_>) -> Result<Utf16String, OutOfMemory> {
    let mut copy = text.to_utfstring(alloc)?;
    for (at, c) in text.char_indices().rev() {
        if c.is_ascii_digit() && copy.as_utfstr().is_char_boundary(at) {
            copy.insert(at, '#')?;
        }
    }
    Ok(copy)
}

/// Returns how often a needle occurs without overlapping, if it is not empty.
pub fn occurrences(text: Utf16Str<'_>, needle: Utf16Str<'_>) -> usize {
    let mut rest = text;
    let mut count: usize = 0;
    for _ in 0..text.len() {
        let Some((_, after)) = rest.split_once(needle) else {
            break;
        };
        count = count.saturating_add(1);
        rest = after;
    }
    count
}

/// Returns how often a needle occurs without overlapping, from the back, if it is not empty.
pub fn occurrences_back(text: Utf16Str<'_>, needle: Utf16Str<'_>) -> usize {
    let mut rest = text;
    let mut count: usize = 0;
    for _ in 0..text.len() {
        let Some(at) = rest.rfind(needle) else {
            break;
        };
        count = count.saturating_add(1);
        rest = rest.split_at(at).0;
    }
    count
}

/// Trims each view of a vector.
pub fn trim_all(views: &mut Vec<Utf16Str<'_>>) {
    for view in views.iter_mut() {
        *view = view.trim();
    }
}

/// Returns a copy of the first of the longest words.
pub fn longest_word(alloc: Global, text: Utf16Str<'_>) -> Result<Utf16String, OutOfMemory> {
    let mut longest = Utf16String::new(alloc);
    for word in text.split_whitespace() {
        if word.char_count() > longest.as_utfstr().char_count() {
            longest = word.to_utfstring(alloc)?;
        }
    }
    Ok(longest)
}

/// Returns the index of the first NUL of units that are to be a C string, or `None` if there is none before the end.
pub fn nul_within(units: Vec<u16>) -> Option<usize> {
    match U16CString::from_vec(units) {
        Ok(_) => None,
        Err(UCStringError::ContainsNul(fault)) => Some(fault.nul_position()),
        Err(UCStringError::OutOfMemory(_vector)) => None,
    }
}

/// Returns how many characters are before an offset, and how many bytes in UTF-8, or `None` if it is no boundary.
pub fn position(text: Utf16Str<'_>, offset: usize) -> Option<(usize, usize)> {
    let before = text.get(..offset)?;
    Some((before.char_count(), before.encode_utf8().count()))
}

/// Returns strings that each have a NUL after them, up to the first empty one.
pub fn strings_of(alloc: Global, units: &[u16]) -> Result<Vec<U16Str<'_>>, OutOfMemory> {
    let mut strings: Vec<U16Str<'_>> = Vec::new(alloc);
    for string in U16Str::from_slice(units).split_unit(0) {
        if string.is_empty() {
            break;
        }
        strings.push(string)?;
    }
    Ok(strings)
}

/// Returns the units of bytes in Latin-1.
pub fn units_of_latin_1(alloc: Global, bytes: &[u8]) -> Result<Vec<u16>, OutOfMemory> {
    let units: Vec<u16> = bytes.iter().map(|byte| u16::from(*byte)).collect(alloc)?;
    Ok(units)
}

/// Returns the lines of a text, each after its sorting key, in the order of the keys, without regard to ASCII case.
pub fn sorted_ignoring_case<'a>(
    alloc: Global,
    text: Utf16Str<'a>,
) -> Result<Vec<(Utf16String, Utf16Str<'a>)>, OutOfMemory> {
    let mut rows: Vec<(Utf16String, Utf16Str<'_>)> = Vec::new(alloc);
    for line in text.lines() {
        rows.push((line.to_ascii_lowercase(alloc)?, line))?;
    }
    rows.sort_by(|a, b| a.0.as_utfstr().cmp_code_points(b.0.as_utfstr()))?;
    Ok(rows)
}

/// Returns how many faults the units have.
pub fn fault_count(units: U16Str<'_>) -> usize {
    units.chars().filter(|item| item.is_err()).count()
}

/// Returns the words of a text in UTF-8, one a line.
pub fn words_in_lines(alloc: Global, text: Utf16Str<'_>) -> Result<String, OutOfMemory> {
    let mut lines = String::new(alloc);
    for word in text.split_whitespace() {
        lines.push_str(&word.to_string(alloc)?)?;
        lines.push('\n')?;
    }
    Ok(lines)
}

/// Returns the text as a C string, or `None` if a NUL is in it. A failed allocation is an error.
pub fn as_c_string(alloc: Global, text: &str) -> Result<Option<U16CString>, OutOfMemory> {
    match U16CString::from_str(alloc, text) {
        Ok(string) => Ok(Some(string)),
        Err(UCStringError::ContainsNul(_fault)) => Ok(None),
        Err(UCStringError::OutOfMemory(_vector)) => Err(OutOfMemory),
    }
}

/// Returns the index of a name among names that are sorted, or the index at which it would be inserted.
pub fn index_of_name(names: &Vec<Utf16String>, name: &Utf16String) -> Result<usize, usize> {
    names.binary_search(name)
}

/// Returns what follows the first `count` characters of a text, or an empty view if there are not so many.
pub fn after_characters(text: Utf16Str<'_>, count: usize) -> Option<Utf16Str<'_>> {
    let mut indices = text.char_indices();
    for _ in 0..count {
        if indices.next().is_none() {
            break;
        }
    }
    text.get(indices.offset()..)
}

/// Returns the text in UTF-8, after so many spaces that both have eight characters at least.
pub fn in_column(alloc: Global, text: Utf16Str<'_>) -> Result<String, OutOfMemory> {
    let text = text.to_string(alloc)?;
    let column = format!(in alloc; "{text:>8}")?;
    Ok(column)
}

/// Returns UTF-32 of units of UTF-16, with U+FFFD for each fault, or `None` if memory runs out.
pub fn utf_32_of_units(alloc: Global, units: U16Str<'_>) -> Option<Utf32String> {
    Utf32String::from_iter_chars(alloc, units.chars_lossy()).ok()
}

/// Returns whether two texts are equal without regard to case.
pub fn are_equal_without_case(
    alloc: Global,
    text: Utf16Str<'_>,
    other: Utf16Str<'_>,
) -> Result<bool, OutOfMemory> {
    let text = text.to_lowercase(alloc)?.as_utfstr().to_uppercase(alloc)?;
    let other = other.to_lowercase(alloc)?.as_utfstr().to_uppercase(alloc)?;
    Ok(text == other)
}

/// Replaces a range by a text, if both ends of the range are boundaries, and returns whether they are.
pub fn replace_range_if_whole(
    text: &mut Utf16String,
    from: usize,
    to: usize,
    with: Utf16Str<'_>,
) -> Result<bool, OutOfMemory> {
    if text.as_utfstr().get(from..to).is_none() {
        return Ok(false);
    }
    text.replace_range(from..to, with)?;
    Ok(true)
}

/// Returns a text in UTF-32.
pub fn utf_32_of_text(alloc: Global, text: Utf16Str<'_>) -> Result<Utf32String, OutOfMemory> {
    let mut wide = Utf32String::new(alloc);
    wide.extend_chars(text.chars())?;
    Ok(wide)
}

/// Sorts names by their units.
pub fn sort_by_units(names: &mut Vec<Utf16String>) -> Result<(), OutOfMemory> {
    names.sort()?;
    Ok(())
}

/// Sorts views by their units, in memory of their own.
pub fn sort_views(alloc: Global, views: &mut [U16Str<'_>]) -> Result<(), OutOfMemory> {
    views.sort(alloc)?;
    Ok(())
}

/// Sorts views by their units, in place.
pub fn sort_views_unstable(views: &mut [U16Str<'_>]) {
    views.sort_unstable();
}

/// Returns the numbers of names in a map that is sorted by the names' units.
pub fn numbered(
    alloc: Global,
    text: Utf16Str<'_>,
) -> Result<BTreeMap<Utf16String, usize>, OutOfMemory> {
    let mut numbers: BTreeMap<Utf16String, usize> = BTreeMap::new(alloc);
    for (number, line) in text.lines().enumerate() {
        numbers.insert(line.to_utfstring(alloc)?, number)?;
    }
    Ok(numbers)
}

// Returns what follows the first occurrence of a needle, without regard to ASCII case.
fn after_match<'a>(text: U16Str<'a>, needle: U16Str<'_>) -> Option<U16Str<'a>> {
    let at = text.find_ignore_ascii_case(needle)?;
    Some(text.split_at(at + needle.len()).1)
}

/// Returns how often a needle occurs without overlapping and without regard to ASCII case, if it is not empty.
pub fn occurrences_ignoring_case(text: U16Str<'_>, needle: U16Str<'_>) -> usize {
    let mut rest = text;
    let mut count: usize = 0;
    for _ in 0..text.len() {
        let Some(after) = after_match(rest, needle) else {
            break;
        };
        count = count.saturating_add(1);
        rest = after;
    }
    count
}

/// Returns the line, the column in characters and the unit of each fault. Lines and columns count from 1.
pub fn places_of_faults(
    alloc: Global,
    units: &[u16],
) -> Result<Vec<(usize, usize, u16)>, OutOfMemory> {
    let mut places: Vec<(usize, usize, u16)> = Vec::new(alloc);
    for (number, line) in U16Str::from_slice(units).lines_lossy().enumerate() {
        for (column, item) in line.chars().enumerate() {
            if let Err(fault) = item {
                places.push((number + 1, column + 1, fault.unpaired_surrogate()))?;
            }
        }
    }
    Ok(places)
}

/// Returns the length of what is before each character and each fault of a view.
pub fn lengths_before(alloc: Global, view: U16Str<'_>) -> Result<Vec<usize>, OutOfMemory> {
    let mut lengths: Vec<usize> = Vec::new(alloc);
    for (offset, _) in view.char_indices_lossy() {
        if let Some(before) = view.get(..offset) {
            lengths.push(before.len())?;
        }
    }
    Ok(lengths)
}

/// Returns the name of a path after its last separator.
pub fn name_of_path(path: U16Str<'_>) -> U16Str<'_> {
    let separators: &[char] = &['\\', '/'];
    path.split_any(separators).next_back().unwrap_or(path)
}

/// Returns a copy of a text with CR LF for each line feed.
pub fn with_cr_lf(alloc: Global, text: Utf16Str<'_>) -> Result<Utf16String, OutOfMemory> {
    let line_end = Utf16String::from_str(alloc, "\r\n")?;
    text.replace(alloc, '\n', line_end.as_utfstr())
}
