//! Writes views as bytes into a buffer of the caller.
ghost use Rattle.std.specs.Prelude.{◌≤◌, length, IfSome};

use widestring::{U16Str, U32Str};

/// Writes the units in UTF-16LE, and returns how many bytes they take, or `None` if the buffer is too short.
pub fn store_little(units: U16Str<'_>, space: &mut [u8]) -> Option<usize>
    ensures { IfSome result (λ len. len ≤ length space.old) }
{
    if space.len() / 2 < units.len() {
        return None;
    }
    Some(units.put_le_bytes(space))
}

/// Writes the units in UTF-32BE, and returns how many bytes they take, or `None` if the buffer is too short.
pub fn store_big(units: U32Str<'_>, space: &mut [u8]) -> Option<usize>
    ensures { IfSome result (λ len. len ≤ length space.old) }
{
    if space.len() / 4 < units.len() {
        return None;
    }
    Some(units.put_be_bytes(space))
}

/// Writes a file in UTF-16LE, with a BOM, and returns its number of bytes, or `None` if the buffer is too short.
pub fn store_file(units: U16Str<'_>, space: &mut [u8]) -> Option<usize>
    ensures { IfSome result (λ len. len ≤ length space.old) }
{
    if space.len() / 2 <= units.len() {
        return None;
    }
    Some(units.put_le_bytes_with_bom(space))
}

/// Writes a file in UTF-32BE, with a BOM, and returns its number of bytes, or `None` if the buffer is too short.
pub fn store_file_big(units: U32Str<'_>, space: &mut [u8]) -> Option<usize>
    ensures { IfSome result (λ len. len ≤ length space.old) }
{
    if space.len() / 4 <= units.len() {
        return None;
    }
    Some(units.put_be_bytes_with_bom(space))
}
