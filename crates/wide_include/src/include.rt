//! Converts the bytes of a UTF-16 file to a string.
ghost use Rattle.std.specs.Prelude.{◌≡◌, false, IfOk, IfErr, OnOk};
ghost use Rattle.wide_forms.specs.EncodingForm.{Utf16};
ghost use Rattle.wide_forms.specs.Items.{IsWellFormed};
ghost use Rattle.wide_bytes.specs.Bytes.{units_of_bytes, is_odd};
ghost use Rattle.wide_include.specs.Include.{ReportsOfBytes};

use std::alloc::{AllocError, Allocator};
use wide_bytes::units_of_bytes;
use wide_utferror::Utf16BytesError;
use wide_utfstring::Utf16String;

// Returns the units of the bytes as a vector. Allocates once.
fn unit_vec<A: Allocator>(alloc: A, bytes: &[u8]) -> Result<Vec<u16, A>, AllocError>
    ensures { IfOk result (λ v. v.items ≡ units_of_bytes bytes.now) }
{
    let source = units_of_bytes(bytes);
    let (len, _) = source.size_hint();
    let mut found = Vec::with_capacity(alloc, len)?;
    for unit in source {
        found.push(unit)?;
    }
    Ok(found)
}

/// Converts the bytes of a UTF-16 file (Unicode Standard, D98) to a string. A BOM at the beginning gives the byte order
/// and is dropped; without one the order is little-endian. One zero unit at the end is dropped. Allocates once.
///
/// # Errors
///
/// - [`Utf16BytesError::OddLength`]: the number of bytes is odd. This is checked before the allocation.
/// - [`Utf16BytesError::OutOfMemory`]: the allocation failed.
/// - [`Utf16BytesError::Utf16`]: the first fault of the units. Its index is counted in units and its item number in
///   characters, both after the BOM. The error holds the vector of the units.
///
/// # Example
///
/// ```
/// let text = include_utf16str(rt.alloc(), b"\xff\xfeH\0\x3d\xd8\x00\xde")?;
/// assert!(rt; text.as_utfstr().eq_str("H😀"));
/// ```
pub fn include_utf16str<A: Allocator>(
    alloc: A,
    bytes: &[u8],
) -> Result<Utf16String<A>, Utf16BytesError<A>>
    ensures string { IfOk result (λ s. s.units ≡ units_of_bytes bytes.now) }
    ensures even { OnOk result (is_odd bytes.now ≡ false) }
    ensures ok { OnOk result (IsWellFormed Utf16 (units_of_bytes bytes.now)) }
    ensures err { IfErr result (ReportsOfBytes bytes.now) }
{
    if bytes.len() % 2 == 1 {
        return Err(Utf16BytesError::OddLength);
    }
    let found = unit_vec(alloc, bytes)?;
    match Utf16String::from_vec(found) {
        Ok(string) => Ok(string),
        Err(fault) => Err(Utf16BytesError::Utf16(fault)),
    }
}
