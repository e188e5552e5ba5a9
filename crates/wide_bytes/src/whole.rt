//! Splits the bytes of UTF-16 into BOM, code units and a half unit, without loss (Unicode Standard, section 3.10, D98).
ghost use Rattle.std.specs.Prelude.{◌≡◌, ◌↔◌, IsSome, IsTrue, is_some, option_to_list};
ghost use Rattle.wide_bytes.specs.Bytes.{half_of, is_odd, bom_of, order_of, units_in, without_bom};
ghost use Rattle.wide_bytes.specs.UnitsOfBytes.{units_left};
ghost use Rattle.wide_bytes.specs.Utf16OfBytes.{whole_bytes};

use crate::bom::without_bom;
use crate::order::{BoM, byte_order};
use crate::units::{UnitsOfBytes, units_in};

/// The BOM, the code units and the half unit of UTF-16 in bytes. [`utf16_of_bytes`] creates it. The Rust crate has no
/// such type.
///
/// # Example
///
/// ```
/// let file = utf16_of_bytes(b"H\0i");
/// assert!(rt; !file.has_bom && file.order == BoM::Little);
/// assert!(rt; file.units.eq([0x48]));
/// assert!(rt; file.half == Some(b'i'));
/// ```
#[derive(Clone, Copy, Debug)]
pub struct Utf16OfBytes<'a> {
    /// The order of the two bytes of each unit.
    pub order: BoM,
    /// Whether a BOM at the beginning indicated the order. The BOM is not one of the units.
    pub has_bom: bool,
    /// The code units of all whole pairs of bytes after the BOM, including a zero unit at the end.
    pub units: UnitsOfBytes<'a>,
    /// The byte after the last whole pair, if there is one: half of a unit.
    pub half: Option<u8>,
}

// Returns the byte after the last whole pair, if there is one.
fn half_of(bytes: &[u8]) -> Option<u8>
    ensures { option_to_list result ≡ half_of bytes.now }
{
    if bytes.len() % 2 == 0 {
        None
    } else {
        Some(bytes[bytes.len() - 1])
    }
}

/// Splits the bytes of UTF-16 (Unicode Standard, D98). A BOM at the beginning gives the byte order; without one the
/// order is little-endian, as in [`units_of_bytes`](crate::units_of_bytes). Nothing is lost: the bytes of the BOM, of
/// the units and of the half unit are all the bytes. It does not allocate. The Rust crate has no such call.
///
/// # Example
///
/// ```
/// let file = utf16_of_bytes(b"\xff\xfeH\0\x3d\xd8\x00\xde");
/// let units: Vec<u16> = file.units.collect(rt.alloc())?;
/// let text = U16Str::from_slice(&units).to_string(rt.alloc())?;
/// assert!(rt; text.as_str() == "H😀");
/// ```
pub fn utf16_of_bytes(bytes: &[u8]) -> Utf16OfBytes<'_>
    ensures order { result.order ≡ order_of bytes.now }
    ensures has_bom { result.has_bom ≡ is_some (bom_of bytes.now) }
    ensures units { units_left result.units ≡ units_in (order_of bytes.now) (without_bom bytes.now) }
    ensures half { IsSome result.half ↔ IsTrue (is_odd bytes.now) }
    ensures whole { whole_bytes result ≡ bytes.now }
{
    let bom = byte_order(bytes);
    let order = bom.unwrap_or(BoM::Little);
    let content = without_bom(bytes);
    Utf16OfBytes {
        order,
        has_bom: bom.is_some(),
        units: units_in(order, content),
        half: half_of(content),
    }
}
