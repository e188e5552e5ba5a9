//! Edits of well-formed strings at offsets that other calls returned, in UTF-16 and at any width.
use widestring::Utf16String;
use widestring::error::{FaultUnit, OutOfMemory};
use widestring::utfstring::UtfString;

/// Appends a character to UTF-16.
pub fn append(text: &mut Utf16String, c: char) -> Result<(), OutOfMemory> {
    text.insert(text.len(), c)
}

/// Appends a character at any width.
pub fn append_wide<C: FaultUnit>(text: &mut UtfString<C>, c: char) -> Result<(), OutOfMemory> {
    text.insert(text.len(), c)
}

/// Removes all characters of UTF-16.
pub fn take_all(text: &mut Utf16String) {
    text.drain(..);
}

/// Removes all characters at any width.
pub fn take_all_wide<C: FaultUnit>(text: &mut UtfString<C>) {
    text.drain(..);
}

/// Removes this many characters at the beginning of UTF-16, if there are as many.
pub fn drop_prefix(text: &mut Utf16String, count: usize) {
    if let Some(end) = text.as_utfstr().unit_offset(count) {
        text.drain(..end);
    }
}

/// Removes this many characters at the beginning at any width, if there are as many.
pub fn drop_prefix_wide<C: FaultUnit>(text: &mut UtfString<C>, count: usize) {
    if let Some(end) = text.as_utfstr().unit_offset(count) {
        text.drain(..end);
    }
}

/// Removes the characters from index `from` to index `to` of UTF-16, if there are as many.
pub fn drop_part(text: &mut Utf16String, from: usize, to: usize) {
    let view = text.as_utfstr();
    if let (Some(start), Some(end)) = (view.unit_offset(from), view.unit_offset(to)) {
        if start <= end {
            text.drain(start..end);
        }
    }
}

/// Removes the characters from index `from` to index `to` at any width, if there are as many.
pub fn drop_part_wide<C: FaultUnit>(text: &mut UtfString<C>, from: usize, to: usize) {
    let view = text.as_utfstr();
    if let (Some(start), Some(end)) = (view.unit_offset(from), view.unit_offset(to)) {
        if start <= end {
            text.drain(start..end);
        }
    }
}

/// Removes the character at an index of UTF-16, or returns `None` if there are not as many.
pub fn remove_number(text: &mut Utf16String, index: usize) -> Option<char> {
    let at = text.as_utfstr().unit_offset(index)?;
    if at == text.len() {
        return None;
    }
    Some(text.remove(at))
}

/// Removes the character at an index at any width, or returns `None` if there are not as many.
pub fn remove_number_wide<C: FaultUnit>(text: &mut UtfString<C>, index: usize) -> Option<char> {
    let at = text.as_utfstr().unit_offset(index)?;
    if at == text.len() {
        return None;
    }
    Some(text.remove(at))
}

/// Inserts a character before the first one that equals `wanted` in UTF-16, if there is one.
pub fn insert_before(text: &mut Utf16String, wanted: char, c: char) -> Result<(), OutOfMemory> {
    match text.as_utfstr().char_indices().find(|at| at.1 == wanted) {
        Some((at, _)) => text.insert(at, c),
        None => Ok(()),
    }
}

/// Inserts a character before the first one that equals `wanted` at any width, if there is one.
pub fn insert_before_wide<C: FaultUnit>(
    text: &mut UtfString<C>,
    wanted: char,
    c: char,
) -> Result<(), OutOfMemory> {
    match text.as_utfstr().char_indices().find(|at| at.1 == wanted) {
        Some((at, _)) => text.insert(at, c),
        None => Ok(()),
    }
}
