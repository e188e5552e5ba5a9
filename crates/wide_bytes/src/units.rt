//! Reads the UTF-16 code units of bytes one by one (Unicode Standard, section 3.10, D96 to D98).

ghost use Rattle.std.specs.Prelude.{◌≡◌, ◌-◌, [], ◌∷◌, length, take, nat_eq, IfSome, if◌then◌else◌};
ghost use Rattle.std.specs.List.{ends_with};
ghost use Rattle.wide_bytes.specs.Bytes.{units_in, units_of_bytes, without_bom};
ghost use Rattle.wide_bytes.specs.UnitsOfBytes.{units_left};

use super::bom::without_bom;
use super::order::{BoM, byte_order};
use super::units_from_bytes::unit_in;

/// An iterator over the code units of bytes that are not read yet. [`units_of_bytes`] creates it. The Rust crate has no
/// such type.
///
/// # Example
///
/// ```
/// let units = units_of_bytes(b"\xfe\xff\0H\0i\0\0");
/// assert!(rt; units.eq([0x48, 0x69]));
/// ```
#[derive(Clone, Copy, Debug)]
pub struct UnitsOfBytes<'a> {
    order: BoM,
    bytes: &'a [u8],
}

impl Iterator for UnitsOfBytes<'_> {
    ghost use Rattle.std.specs.Iterator.{YieldsFirst, UpTo, item_count};
    ghost use Rattle.std.specs.Iterator.SizeHint.{IsWithinCount};

    type Item = u16;

    ghost next_gives = { YieldsFirst units_left };

    ghost remaining = { item_count units_left };

    #[inline(always)]
    fn next(&mut self) -> Option<u16> {
        let [first, second, rest @ ..] = self.bytes else {
            return None;
        };
        let unit = unit_in(self.order, *first, *second);
        self.bytes = rest;
        Some(unit)
    }

    fn size_hint(&self) -> (usize, Option<usize>)
        ensures lower { IsWithinCount result.0 (item_count units_left self.now) }
        ensures upper { IfSome result.1 (UpTo (item_count units_left self.now)) }
        ensures least { result.0 ≡ length (units_left self.now) }
        ensures most { result.1 ≡ Some (length (units_left self.now)) }
    {
        let len = self.bytes.len() / 2;
        (len, Some(len))
    }
}

// Returns the bytes without two zero bytes at the end, or all bytes if they do not end in two zeros.
fn without_zero_pair(bytes: &[u8]) -> &[u8]
    ensures { result.now ≡ (if ends_with nat_eq bytes.now (0 ∷ 0 ∷ []) then take (length bytes.now - 2) bytes.now else bytes.now) }
{
    if bytes.ends_with(&[0, 0]) {
        &bytes[..bytes.len() - 2]
    } else {
        bytes
    }
}

/// Returns an iterator over the code units of the whole pairs of bytes.
pub(crate) fn units_in(order: BoM, bytes: &[u8]) -> UnitsOfBytes<'_>
    ensures { units_left result ≡ units_in order bytes.now }
{
    UnitsOfBytes { order, bytes }
}

/// Returns an iterator over the code units of the bytes of a UTF-16 file (Unicode Standard, D98). A BOM at the
/// beginning gives the byte order and is dropped; without one the order is little-endian. If the number of bytes is
/// even, one zero unit at the end is dropped. A byte after the last whole pair is ignored. It does not allocate. The
/// Rust crate has no such call.
pub fn units_of_bytes(bytes: &[u8]) -> UnitsOfBytes<'_>
    ensures { units_left result ≡ units_of_bytes bytes.now }
{
    let order = byte_order(bytes).unwrap_or(BoM::Little);
    let pairs = without_bom(bytes);
    if bytes.len() % 2 == 0 {
        return UnitsOfBytes {
            order,
            bytes: without_zero_pair(pairs),
        };
    }
    UnitsOfBytes {
        order,
        bytes: pairs,
    }
}
