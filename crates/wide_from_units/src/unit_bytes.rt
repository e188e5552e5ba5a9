//! Serializes UTF-16 and UTF-32 units as bytes, in little-endian or big-endian order. It follows the encoding schemes
//! UTF-16BE, UTF-16LE, UTF-32BE and UTF-32LE (Unicode Standard, section 3.10, D96 to D100). The loops are simple, so
//! that the compiler can vectorize them.

ghost use Rattle.std.specs.Prelude.{◌≡◌, ◌*◌, ◌^◌, ◌<◌, ◌≤◌, length, map, take, drop};
ghost use Rattle.wide_forms.specs.EncodingForm.{Utf16, Utf32};
ghost use Rattle.wide_forms.specs.UnitBytes.{unit_width, little_bytes, little_bytes_of, big_bytes, big_bytes_of, byte_order_mark};

use wide_unit::{AnyUnits, Unit};

// Stores the bytes of 16-bit units, the low byte of each first.
fn put_little_16(units: &[u16], bytes: &mut [u8])
    requires { 2 * length units.now ≤ length bytes.old }
    ensures prefix { take (2 * length units.now) bytes.new ≡ little_bytes_of Utf16 units.now }
    ensures beyond { drop (2 * length units.now) bytes.new ≡ drop (2 * length units.now) bytes.old }
{
    for k in 0..units.len() {
        bytes[2 * k] = (units[k] % 0x100) as u8;
        bytes[2 * k + 1] = (units[k] / 0x100) as u8;
    }
}

// Stores the bytes of 16-bit units, the high byte of each first.
fn put_big_16(units: &[u16], bytes: &mut [u8])
    requires { 2 * length units.now ≤ length bytes.old }
    ensures prefix { take (2 * length units.now) bytes.new ≡ big_bytes_of Utf16 units.now }
    ensures beyond { drop (2 * length units.now) bytes.new ≡ drop (2 * length units.now) bytes.old }
{
    for k in 0..units.len() {
        bytes[2 * k] = (units[k] / 0x100) as u8;
        bytes[2 * k + 1] = (units[k] % 0x100) as u8;
    }
}

// Stores the bytes of 32-bit units, the low byte of each first.
fn put_little_32(units: &[u32], bytes: &mut [u8])
    requires { 4 * length units.now ≤ length bytes.old }
    ensures prefix { take (4 * length units.now) bytes.new ≡ little_bytes_of Utf32 units.now }
    ensures beyond { drop (4 * length units.now) bytes.new ≡ drop (4 * length units.now) bytes.old }
{
    for k in 0..units.len() {
        bytes[4 * k] = (units[k] % 0x100) as u8;
        bytes[4 * k + 1] = (units[k] / 0x100 % 0x100) as u8;
        bytes[4 * k + 2] = (units[k] / 0x1_0000 % 0x100) as u8;
        bytes[4 * k + 3] = (units[k] / 0x100_0000) as u8;
    }
}

// Stores the bytes of 32-bit units, the high byte of each first.
fn put_big_32(units: &[u32], bytes: &mut [u8])
    requires { 4 * length units.now ≤ length bytes.old }
    ensures prefix { take (4 * length units.now) bytes.new ≡ big_bytes_of Utf32 units.now }
    ensures beyond { drop (4 * length units.now) bytes.new ≡ drop (4 * length units.now) bytes.old }
{
    for k in 0..units.len() {
        bytes[4 * k] = (units[k] / 0x100_0000) as u8;
        bytes[4 * k + 1] = (units[k] / 0x1_0000 % 0x100) as u8;
        bytes[4 * k + 2] = (units[k] / 0x100 % 0x100) as u8;
        bytes[4 * k + 3] = (units[k] % 0x100) as u8;
    }
}

/// Returns the number of bytes in a unit: two for a unit of 16 bits, four for one of 32.
pub fn byte_width<C: Unit>() -> usize
    ensures { result ≡ unit_width C.form }
{
    match C::as_any(&[]) {
        AnyUnits::U16(_none) => 2,
        AnyUnits::U32(_none) => 4,
    }
}

/// Stores a little-endian BOM (Unicode Standard, section 23.8) at the beginning of `bytes`. It is `FF FE`, or in UTF-32
/// `FF FE 00 00`. The bytes after it are unchanged.
///
/// # Requires
///
/// `bytes` has space for one unit.
pub fn put_le_bom<C: Unit>(bytes: &mut [u8])
    requires { unit_width C.form ≤ length bytes.old }
    ensures prefix { take (unit_width C.form) bytes.new ≡ little_bytes C.form byte_order_mark }
    ensures beyond { drop (unit_width C.form) bytes.new ≡ drop (unit_width C.form) bytes.old }
{
    match C::as_any(&[]) {
        AnyUnits::U16(_none) => put_little_16(&[0xfeff], bytes),
        AnyUnits::U32(_none) => put_little_32(&[0xfeff], bytes),
    }
}

/// Stores a big-endian BOM (Unicode Standard, section 23.8) at the beginning of `bytes`. It is `FE FF`, or in UTF-32
/// `00 00 FE FF`. The bytes after it are unchanged.
///
/// # Requires
///
/// `bytes` has space for one unit.
pub fn put_be_bom<C: Unit>(bytes: &mut [u8])
    requires { unit_width C.form ≤ length bytes.old }
    ensures prefix { take (unit_width C.form) bytes.new ≡ big_bytes C.form byte_order_mark }
    ensures beyond { drop (unit_width C.form) bytes.new ≡ drop (unit_width C.form) bytes.old }
{
    match C::as_any(&[]) {
        AnyUnits::U16(_none) => put_big_16(&[0xfeff], bytes),
        AnyUnits::U32(_none) => put_big_32(&[0xfeff], bytes),
    }
}

/// Returns the number of bytes in the units: two for each unit of 16 bits, four for each of 32.
pub fn byte_len<C: Unit>(units: &[C]) -> usize
    ensures len { result ≡ unit_width C.form * length units.now }
    ensures bound { result < 2 ^ 63 }
{
    match C::as_any(units) {
        AnyUnits::U16(units) => 2 * units.len(),
        AnyUnits::U32(units) => 4 * units.len(),
    }
}

/// Stores the bytes of the units at the beginning of `bytes`, the low byte of each unit first (Unicode Standard, D97
/// and D100): two for each unit of 16 bits, four for each of 32. The bytes after them are unchanged.
///
/// # Requires
///
/// `bytes` is at least as long as [`byte_len`] returns for the units.
pub fn put_le_bytes<C: Unit>(units: &[C], bytes: &mut [u8])
    requires { unit_width C.form * length units.now ≤ length bytes.old }
    ensures prefix { take (unit_width C.form * length units.now) bytes.new ≡ little_bytes_of C.form (map C.number units.now) }
    ensures beyond { drop (unit_width C.form * length units.now) bytes.new ≡ drop (unit_width C.form * length units.now) bytes.old }
{
    match C::as_any(units) {
        AnyUnits::U16(units) => put_little_16(units, bytes),
        AnyUnits::U32(units) => put_little_32(units, bytes),
    }
}

/// Stores the bytes of the units at the beginning of `bytes`, the high byte of each unit first (Unicode Standard, D96
/// and D99): two for each unit of 16 bits, four for each of 32. The bytes after them are unchanged.
///
/// # Requires
///
/// `bytes` is at least as long as [`byte_len`] returns for the units.
pub fn put_be_bytes<C: Unit>(units: &[C], bytes: &mut [u8])
    requires { unit_width C.form * length units.now ≤ length bytes.old }
    ensures prefix { take (unit_width C.form * length units.now) bytes.new ≡ big_bytes_of C.form (map C.number units.now) }
    ensures beyond { drop (unit_width C.form * length units.now) bytes.new ≡ drop (unit_width C.form * length units.now) bytes.old }
{
    match C::as_any(units) {
        AnyUnits::U16(units) => put_big_16(units, bytes),
        AnyUnits::U32(units) => put_big_32(units, bytes),
    }
}
