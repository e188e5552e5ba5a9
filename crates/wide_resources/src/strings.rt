//! String tables: sixteen strings, each after its length in units.

ghost use Rattle.std.specs.Prelude.{◌≡◌, ◌<◌, ℕ, OnOk, vec_len};
ghost use Rattle.wide_resources.specs.declared.texts.Name.TheVariants.{Number};

use crate::numbers::unit_at;
use crate::texts::{Found, Name, Text, TextDamage};
use wide_error::OutOfMemory;

// Adds the strings of a table whose first string has this number.
fn read_from<'a>(first: u32, contents: &'a [u8], found: &mut Found<'a>) -> Result<(), OutOfMemory> {
    let mut rest = contents;
    for index in 0..16 {
        let id = first.saturating_add(index);
        let end = 2 + 2 * usize::from(unit_at(rest, 0).unwrap_or(0));
        let Some((string, beyond)) = rest.split_at_checked(end) else {
            let missing = end.saturating_sub(rest.len());
            return found.note(TextDamage::String(id as usize, missing));
        };
        rest = beyond;
        found.add(Text::of_units(id, string.get(2..).unwrap_or_default()))?;
    }
    if rest.is_empty() {
        return Ok(());
    }
    let at = contents.len().saturating_sub(rest.len());
    found.note(TextDamage::Behind(at, rest.len()))
}

/// Adds the strings of a table that are not empty.
pub fn read_strings<'a>(
    name: Name<'a>,
    contents: &'a [u8],
    found: &mut Found<'a>,
) -> Result<(), OutOfMemory>
    ensures zero { name.entry ≡ Number 0 → OnOk result (0 < vec_len found.new.damages) }
    ensures least { (block : ℕ) → name.entry ≡ Number block → 4096 < block → OnOk result (0 < vec_len found.new.damages) }
{
    match name {
        Name::Number(block) if 0 < block && block <= 4096 => {
            read_from((u32::from(block) - 1) * 16, contents, found)
        }
        Name::Number(block) => found.note(TextDamage::TableName(block)),
        Name::Text(_) => found.note(TextDamage::TableText),
    }
}
