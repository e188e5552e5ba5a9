//! Menus, of both formats: items with their numbers, one after the other. The items of a submenu follow the item that opens
//! it, and the last item of each menu says so.

ghost use Rattle.std.specs.Prelude.{◌≡◌, ◌<◌, ◌≤◌, ◌-◌, ◌↔◌, IfSome, IsFalse, IsTrue, OnOk, bit_and, take, vec_len};
ghost use Rattle.std.specs.Int.{from_le_bytes, w16};

use crate::cursor::Cursor;
use crate::texts::{Found, Text, TextDamage};
use wide_error::OutOfMemory;

// The bit of an item that opens a submenu, and has no number in the first format.
const OPENS: u16 = 0x10;

// The bit of an item of the second format that opens a submenu.
const OPENS_EX: u16 = 1;

// The bit of the last item of a menu, in both formats.
const ENDS: u16 = 0x80;

// An item: its text, whether it opens a submenu, and whether it is the last one of the menu that it is in.
#[derive(Clone, Copy)]
struct MenuItem<'a> {
    text: Text<'a>,
    opens: bool,
    ends: bool,
}

// Reads an item of the first format.
fn item<'a>(cursor: &mut Cursor<'a>) -> Option<MenuItem<'a>>
    ensures opens { IfSome result (λ item. IsFalse item.opens ↔ (bit_and (from_le_bytes w16 (take 2 cursor.old.rest.now)) 0x10 ≡ 0)) }
    ensures ends { IfSome result (λ item. IsFalse item.ends ↔ (bit_and (from_le_bytes w16 (take 2 cursor.old.rest.now)) 0x80 ≡ 0)) }
{
    let options = cursor.unit()?;
    let opens = options & OPENS != 0;
    let id = if opens { 0 } else { u32::from(cursor.unit()?) };
    Some(MenuItem {
        text: Text::of_units(id, cursor.text()?),
        opens,
        ends: options & ENDS != 0,
    })
}

// Reads an item of the second format.
fn item_ex<'a>(cursor: &mut Cursor<'a>) -> Option<MenuItem<'a>> {
    cursor.align();
    let _kind_and_state = cursor.take(8)?;
    let id = cursor.number()?;
    let options = cursor.unit()?;
    let text = Text::of_units(id, cursor.text()?);
    let opens = options & OPENS_EX != 0;
    if opens {
        cursor.align();
        let _help = cursor.number()?;
    }
    Some(MenuItem {
        text,
        opens,
        ends: options & ENDS != 0,
    })
}

// Returns how many menus are open after an item. A submenu in the last item of a menu takes that menu's place, since both
// end with the same item.
fn levels_after(levels: usize, item: &MenuItem<'_>) -> usize
    ensures same { item.now.opens ≡ item.now.ends → result ≡ levels }
    ensures last { IsFalse item.now.opens → IsTrue item.now.ends → result ≡ levels - 1 }
    ensures submenu { IsTrue item.now.opens → levels ≤ result }
    ensures one_more { IsTrue item.now.opens → IsFalse item.now.ends → 0 < result }
{
    match (item.opens, item.ends) {
        (true, false) => levels.saturating_add(1),
        (false, true) => levels.saturating_sub(1),
        _ => levels,
    }
}

// Adds the texts of items that are not empty. Returns whether the item that ends the whole menu was read.
fn read_items<'a>(
    cursor: &mut Cursor<'a>,
    is_extended: bool,
    found: &mut Found<'a>,
) -> Result<bool, OutOfMemory> {
    let mut levels = 1;
    for _ in 0..cursor.rest.len() {
        let read = if is_extended {
            item_ex(cursor)
        } else {
            item(cursor)
        };
        let Some(item) = read else {
            return Ok(false);
        };
        found.add(item.text)?;
        levels = levels_after(levels, &item);
        if levels == 0 {
            return Ok(true);
        }
    }
    Ok(false)
}

// Passes the fields before the items, and returns the version of the format.
fn read_version(cursor: &mut Cursor<'_>) -> Option<u16>
    ensures { IfSome result (λ version. version ≡ from_le_bytes w16 (take 2 cursor.old.rest.now)) }
{
    let version = cursor.unit()?;
    let skipped = cursor.unit()?;
    if version < 2 {
        cursor.take(usize::from(skipped))?;
    }
    Some(version)
}

/// Adds the texts of a menu that are not empty.
pub fn read_menu<'a>(contents: &'a [u8], found: &mut Found<'a>) -> Result<(), OutOfMemory>
    ensures version { 2 ≤ from_le_bytes w16 (take 2 contents.now) → OnOk result (0 < vec_len found.new.damages) }
{
    let mut cursor = Cursor::new(contents);
    let is_whole = match read_version(&mut cursor) {
        Some(version) if version > 1 => return found.note(TextDamage::Format(version)),
        Some(version) => read_items(&mut cursor, version == 1, found)?,
        None => false,
    };
    if is_whole {
        found.note_rest(cursor)
    } else {
        found.note(TextDamage::Cut(contents.len()))
    }
}
