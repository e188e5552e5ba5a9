//! Copies units to bytes in either byte order and back, and swaps the bytes of units, into a buffer of the caller.
ghost use Rattle.std.specs.Prelude.{◌≡◌, ◌*◌, ◌/◌, ◌%◌, ◌<◌, ◌≤◌, ◌-◌, ◌^◌, IfNone, IfSome, length, map, take, drop};
ghost use Rattle.wide_bytes.specs.Bytes.{bytes_in, units_in};
ghost use Rattle.wide_schemes.specs.Layouts.{bytes32_in, units32_in};
ghost use Rattle.widestring_c.specs.Bytes.{order_named};
ghost use Rattle.widestring_c.specs.UnitBytes.{WroteBytes, swapped_16, swapped_32, whole_order};

use crate::bytes::order_named;
use wide_bytes::{BoM, fill_units};
use wide_from_units::{byte_len, put_be_bytes, put_le_bytes};
use wide_schemes::fill_units_32;
use wide_unit::Unit;

// Returns the order with this number if the bytes are whole units of `width` bytes.
fn whole_order(bytes: &[u8], width: usize, order: u32) -> Option<BoM>
    requires { 0 < width }
    ensures { result ≡ whole_order width order bytes.now }
{
    if bytes.len() % width != 0 {
        return None;
    }
    order_named(order)
}

/// Copies bytes to units of UTF-16 (Unicode Standard, D96 and D97). The order is 0 for little endian and 1 for big
/// endian. Returns how many units the result has. If `units` is at least that long, the result is at its start, and the
/// units after the result are unchanged. If the number of bytes is odd, or the order is neither 0 nor 1, it returns
/// `usize::MAX` and leaves `units` unchanged.
#[unsafe(no_mangle)]
pub extern "C" fn wide_utf16_from_bytes(bytes: &[u8], order: u32, units: &mut [u16]) -> usize
    ensures len { IfSome (whole_order 2 order bytes.now) (λ o. result ≡ length bytes.now / 2) }
    ensures units { IfSome (whole_order 2 order bytes.now) (λ o. result ≤ length units.old → take result units.new ≡ units_in o bytes.now) }
    ensures no_fault { IfSome (whole_order 2 order bytes.now) (λ o. result < 2 ^ 64 - 1) }
    ensures fault { IfNone (whole_order 2 order bytes.now) (result ≡ 2 ^ 64 - 1) }
    ensures unchanged { IfNone (whole_order 2 order bytes.now) (units.new ≡ units.old) }
    ensures beyond { drop result units.new ≡ drop result units.old }
{
    let Some(order) = whole_order(bytes, 2, order) else {
        return usize::MAX;
    };
    let len = bytes.len() / 2;
    if len > units.len() {
        return len;
    }
    let (space, _) = units.split_at_mut(len);
    fill_units(order, bytes, space);
    len
}

/// Copies bytes to units of UTF-32 (Unicode Standard, D99 and D100). The order is 0 for little endian and 1 for big
/// endian. Returns how many units the result has. If `units` is at least that long, the result is at its start, and the
/// units after the result are unchanged. If the number of bytes is no multiple of four, or the order is neither 0 nor
/// 1, it returns `usize::MAX` and leaves `units` unchanged.
#[unsafe(no_mangle)]
pub extern "C" fn wide_utf32_from_bytes(bytes: &[u8], order: u32, units: &mut [u32]) -> usize
    ensures len { IfSome (whole_order 4 order bytes.now) (λ o. result ≡ length bytes.now / 4) }
    ensures units { IfSome (whole_order 4 order bytes.now) (λ o. result ≤ length units.old → take result units.new ≡ units32_in o bytes.now) }
    ensures no_fault { IfSome (whole_order 4 order bytes.now) (λ o. result < 2 ^ 64 - 1) }
    ensures fault { IfNone (whole_order 4 order bytes.now) (result ≡ 2 ^ 64 - 1) }
    ensures unchanged { IfNone (whole_order 4 order bytes.now) (units.new ≡ units.old) }
    ensures beyond { drop result units.new ≡ drop result units.old }
{
    let Some(order) = whole_order(bytes, 4, order) else {
        return usize::MAX;
    };
    let len = bytes.len() / 4;
    if len > units.len() {
        return len;
    }
    let (space, _) = units.split_at_mut(len);
    fill_units_32(order, bytes, space);
    len
}

// Writes the bytes of units in an order at the start of the buffer if they fit, and returns how many these are.
fn put_bytes<C: Unit>(order: BoM, units: &[C], bytes: &mut [u8]) -> usize
    ensures { WroteBytes C.form order (map C.number units.now) bytes.old result bytes.new }
{
    let len = byte_len(units);
    if len <= bytes.len() {
        match order {
            BoM::Little => put_le_bytes(units, bytes),
            BoM::Big => put_be_bytes(units, bytes),
        }
    }
    len
}

/// Copies units of UTF-16 to bytes (Unicode Standard, D96 and D97). The order is 0 for little endian and 1 for big
/// endian. Returns how many bytes the result has, two for each unit. If `bytes` is at least that long, the result is at
/// its start, and the bytes after the result are unchanged. If the order is neither 0 nor 1, it returns `usize::MAX`
/// and leaves `bytes` unchanged.
#[unsafe(no_mangle)]
pub extern "C" fn wide_utf16_to_bytes(units: &[u16], order: u32, bytes: &mut [u8]) -> usize
    ensures len { IfSome (order_named order) (λ o. result ≡ 2 * length units.now) }
    ensures bytes { IfSome (order_named order) (λ o. result ≤ length bytes.old → take result bytes.new ≡ bytes_in o units.now) }
    ensures no_fault { IfSome (order_named order) (λ o. result < 2 ^ 64 - 1) }
    ensures other { IfNone (order_named order) (result ≡ 2 ^ 64 - 1) }
    ensures unchanged { IfNone (order_named order) (bytes.new ≡ bytes.old) }
    ensures beyond { drop result bytes.new ≡ drop result bytes.old }
{
    match order_named(order) {
        Some(order) => put_bytes(order, units, bytes),
        None => usize::MAX,
    }
}

/// Copies units of UTF-32 to bytes (Unicode Standard, D99 and D100). The order is 0 for little endian and 1 for big
/// endian. Returns how many bytes the result has, four for each unit. If `bytes` is at least that long, the result is
/// at its start, and the bytes after the result are unchanged. If the order is neither 0 nor 1, it returns `usize::MAX`
/// and leaves `bytes` unchanged.
#[unsafe(no_mangle)]
pub extern "C" fn wide_utf32_to_bytes(units: &[u32], order: u32, bytes: &mut [u8]) -> usize
    ensures len { IfSome (order_named order) (λ o. result ≡ 4 * length units.now) }
    ensures bytes { IfSome (order_named order) (λ o. result ≤ length bytes.old → take result bytes.new ≡ bytes32_in o units.now) }
    ensures no_fault { IfSome (order_named order) (λ o. result < 2 ^ 64 - 1) }
    ensures other { IfNone (order_named order) (result ≡ 2 ^ 64 - 1) }
    ensures unchanged { IfNone (order_named order) (bytes.new ≡ bytes.old) }
    ensures beyond { drop result bytes.new ≡ drop result bytes.old }
{
    match order_named(order) {
        Some(order) => put_bytes(order, units, bytes),
        None => usize::MAX,
    }
}

// Swaps the two bytes of each unit.
fn swap_16(units: &mut [u16])
    ensures { units.new ≡ map swapped_16 units.old }
{
    for k in 0..units.len() {
        let unit = units[k];
        units[k] = unit % 0x100 * 0x100 + unit / 0x100;
    }
}

// Reverses the four bytes of each unit.
fn swap_32(units: &mut [u32])
    ensures { units.new ≡ map swapped_32 units.old }
{
    for k in 0..units.len() {
        let unit = units[k];
        units[k] = unit % 0x100 * 0x100_0000
            + unit / 0x100 % 0x100 * 0x1_0000
            + unit / 0x1_0000 % 0x100 * 0x100
            + unit / 0x100_0000;
    }
}

/// Copies units of UTF-16, and swaps the two bytes of each. Returns the length, which is that of the input in units. If
/// `swapped` is at least that long, the result is at its start, and the units after the result are unchanged.
#[unsafe(no_mangle)]
pub extern "C" fn wide_utf16_swap_bytes(units: &[u16], swapped: &mut [u16]) -> usize
    ensures len { result ≡ length units.now }
    ensures units { result ≤ length swapped.old → take result swapped.new ≡ map swapped_16 units.now }
    ensures beyond { drop result swapped.new ≡ drop result swapped.old }
{
    if units.len() > swapped.len() {
        return units.len();
    }
    let (text, _) = swapped.split_at_mut(units.len());
    text.copy_from_slice(units);
    swap_16(text);
    units.len()
}

/// Copies units of UTF-32, and reverses the four bytes of each. Returns the length, which is that of the input in
/// units. If `swapped` is at least that long, the result is at its start, and the units after the result are unchanged.
#[unsafe(no_mangle)]
pub extern "C" fn wide_utf32_swap_bytes(units: &[u32], swapped: &mut [u32]) -> usize
    ensures len { result ≡ length units.now }
    ensures units { result ≤ length swapped.old → take result swapped.new ≡ map swapped_32 units.now }
    ensures beyond { drop result swapped.new ≡ drop result swapped.old }
{
    if units.len() > swapped.len() {
        return units.len();
    }
    let (text, _) = swapped.split_at_mut(units.len());
    text.copy_from_slice(units);
    swap_32(text);
    units.len()
}
