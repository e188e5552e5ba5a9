//! Dialogs, of both formats: a caption, and controls with their numbers and texts.

use crate::cursor::Cursor;
use crate::texts::{Found, Text, TextDamage};
use wide_error::OutOfMemory;

// The bit of a style after which the name of a font follows.
const HAS_FONT: u32 = 0x40;

// What the beginning of a dialog has.
#[derive(Clone, Copy)]
struct Head<'a> {
    caption: &'a [u8],
    controls: u16,
}

// Returns whether a dialog has the second format.
fn is_extended(contents: &[u8]) -> bool {
    contents.starts_with(&[1, 0, 0xff, 0xff])
}

// Reads the beginning of a dialog.
fn read_head<'a>(cursor: &mut Cursor<'a>, is_extended: bool) -> Option<Head<'a>> {
    let style = if is_extended {
        let _version_help_and_style = cursor.take(12)?;
        cursor.number()?
    } else {
        let style = cursor.number()?;
        let _extended_style = cursor.number()?;
        style
    };
    let controls = cursor.unit()?;
    let _place = cursor.take(8)?;
    let _menu = cursor.text_or_number()?;
    let _class = cursor.text_or_number()?;
    let caption = cursor.text()?;
    if style & HAS_FONT != 0 {
        let _size = cursor.take(if is_extended { 6 } else { 2 })?;
        let _font = cursor.text()?;
    }
    Some(Head { caption, controls })
}

// Reads a control.
fn read_control<'a>(cursor: &mut Cursor<'a>, is_extended: bool) -> Option<Text<'a>> {
    cursor.align();
    let _styles = cursor.take(if is_extended { 12 } else { 8 })?;
    let _place = cursor.take(8)?;
    let id = if is_extended {
        cursor.number()?
    } else {
        u32::from(cursor.unit()?)
    };
    let _class = cursor.text_or_number()?;
    let bytes = cursor.text_or_number()?;
    let extra = cursor.unit()?;
    let _data = cursor.take(usize::from(extra))?;
    Some(Text::of_units(id, bytes))
}

// Adds the texts of so many controls that are not empty. Returns whether all were read.
fn read_controls<'a>(
    cursor: &mut Cursor<'a>,
    is_extended: bool,
    count: u16,
    found: &mut Found<'a>,
) -> Result<bool, OutOfMemory> {
    for _ in 0..count {
        let Some(text) = read_control(cursor, is_extended) else {
            return Ok(false);
        };
        found.add(text)?;
    }
    Ok(true)
}

/// Adds the texts of a dialog that are not empty: its caption, with the number 0, and those of its controls.
pub fn read_dialog<'a>(contents: &'a [u8], found: &mut Found<'a>) -> Result<(), OutOfMemory> {
    let mut cursor = Cursor::new(contents);
    let is_extended = is_extended(contents);
    let is_whole = match read_head(&mut cursor, is_extended) {
        Some(head) => {
            found.add(Text::of_units(0, head.caption))?;
            read_controls(&mut cursor, is_extended, head.controls, found)?
        }
        None => false,
    };
    if is_whole {
        found.note_rest(cursor)
    } else {
        found.note(TextDamage::Cut(contents.len()))
    }
}
