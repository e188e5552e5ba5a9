//! Whether units are ASCII, and ASCII letters in either case.
ghost use Rattle.std.specs.Prelude.{◌≡◌, ◌↔◌, ◌<◌, map, IsTrue, IsAscii};
ghost use Rattle.std.specs.Char.{to_ascii_lowercase, to_ascii_uppercase};

use wide_unit::{Unit, common_prefix_ignore_ascii_case};

// How many units are tested before a test for the end: a loop over them without exits is vectorized.
const BLOCK: usize = 64;

// Returns whether all units are ASCII. It reads all of them.
#[inline(always)]
fn is_ascii_block<C: Unit>(units: &[C]) -> bool
    ensures { IsTrue result ↔ IsAscii (map C.number units.now) }
{
    let mut is_ascii = true;
    for unit in units {
        is_ascii &= unit.code() < 0x80;
    }
    is_ascii
}

/// Returns whether all units are ASCII, at most 7F. It stops at the first block that has a unit past 7F.
pub fn is_ascii<C: Unit>(units: &[C]) -> bool
    ensures { IsTrue result ↔ IsAscii (map C.number units.now) }
{
    let mut rest = units;
    while rest.len() > BLOCK {
        let (block, beyond) = rest.split_at(BLOCK);
        if !is_ascii_block(block) {
            return false;
        }
        rest = beyond;
    }
    is_ascii_block(rest)
}

// Returns the unit of an ASCII character.
#[inline(always)]
fn ascii_unit<C: Unit>(code: u8) -> C
    requires { code < 0x80 }
    ensures { C.number result ≡ code }
{
    let (unit, _) = C::encode_char(code as char);
    unit
}

// Returns a unit in lower case if it is an upper-case ASCII letter, and otherwise the unit itself.
#[inline(always)]
fn lowercase<C: Unit>(unit: C) -> C
    ensures { C.number result ≡ to_ascii_lowercase (C.number unit) }
{
    let code = unit.code();
    if 0x41 <= code && code <= 0x5a {
        ascii_unit(code as u8 + 32)
    } else {
        unit
    }
}

// Returns a unit in upper case if it is a lower-case ASCII letter, and otherwise the unit itself.
#[inline(always)]
fn uppercase<C: Unit>(unit: C) -> C
    ensures { C.number result ≡ to_ascii_uppercase (C.number unit) }
{
    let code = unit.code();
    if 0x61 <= code && code <= 0x7a {
        ascii_unit(code as u8 - 32)
    } else {
        unit
    }
}

/// Writes each upper-case ASCII letter in lower case. Every other unit is unchanged.
pub fn make_ascii_lowercase<C: Unit>(units: &mut [C])
    ensures { map C.number units.new ≡ map to_ascii_lowercase (map C.number units.old) }
{
    for k in 0..units.len() {
        let unit = units[k];
        units[k] = lowercase(unit);
    }
}

/// Writes each lower-case ASCII letter in upper case. Every other unit is unchanged.
pub fn make_ascii_uppercase<C: Unit>(units: &mut [C])
    ensures { map C.number units.new ≡ map to_ascii_uppercase (map C.number units.old) }
{
    for k in 0..units.len() {
        let unit = units[k];
        units[k] = uppercase(unit);
    }
}

/// Returns whether two slices have the same units, without regard to the case of ASCII letters. It stops at the first
/// difference.
pub fn eq_ignore_ascii_case<C: Unit>(left: &[C], right: &[C]) -> bool
    ensures { IsTrue result ↔ (map to_ascii_lowercase (map C.number left.now) ≡ map to_ascii_lowercase (map C.number right.now)) }
{
    left.len() == right.len() && common_prefix_ignore_ascii_case(left, right) == left.len()
}
