//! Converts between UTF-16 and UTF-32, into a buffer of the caller.
ghost use Rattle.std.specs.Prelude.{◌≡◌, ◌*◌, ◌+◌, ◌++◌, ◌<◌, ◌≤◌, ◌-◌, ◌^◌, IfNone, IfSome, length, map, min, take, drop};
ghost use Rattle.wide_forms.specs.EncodingForm.{Utf16, Utf32, encode};
ghost use Rattle.wide_forms.specs.Items.{IsWellFormed, chars};
ghost use Rattle.widestring_c.specs.Buffers.{WroteUnitsIf};

use crate::caller_buffer::put_items;
use wide_forms::Progress;
use wide_from_units::between_forms_prefix;
use wide_unit::{Unit, find_fault};

// The size of the array, in units, that the converted units of an input of at most as many units are copied from. A
// small array takes less time to clear.
pub(crate) const FEW: usize = 32;

// The size of the array, in units, that the converted units of an input of more than `FEW` units are copied from: 48
// steps of sixteen.
pub(crate) const MANY: usize = 48 * 16;

// Converts well-formed units to units of another width at the offset `at` of the buffer, chunk by chunk. Returns the
// offset after the result, whether it fits or not, or `usize::MAX` if the offset is greater than that.
pub(crate) fn put_recoded<C: Unit, D: Unit>(
    units: &[C],
    space: &mut [D],
    at: usize,
    chunk: &mut [D],
) -> usize
    requires well_formed { IsWellFormed C.form (map C.number units.now) }
    requires space { length space.old < 2 ^ 64 - 1 }
    requires chunk { 16 ≤ length chunk.old }
    ensures offset { result ≡ min (at + length (encode D.form (chars C.form (map C.number units.now)))) (2 ^ 64 - 1) }
    ensures units { result ≤ length space.old → map D.number (take result space.new) ≡ map D.number (take at space.old) ++ encode D.form (chars C.form (map C.number units.now)) }
    ensures space { length space.new ≡ length space.old }
    ensures beyond { drop result space.new ≡ drop result space.old }
{
    let mut at = at;
    let mut rest = units;
    'chunks: while !rest.is_empty() {
        let Progress { read, written } = between_forms_prefix(rest, chunk);
        at = put_items(space, at, &chunk[..written]);
        (_, rest) = rest.split_at(read);
    }
    at
}

// Converts units to units of another width if they are well formed. Returns how many units the result has, or `None` if
// the input is ill-formed.
fn put_valid<C: Unit, D: Unit>(units: &[C], space: &mut [D], chunk: &mut [D]) -> Option<usize>
    requires units { 4 * length units.now < 2 ^ 64 - 1 }
    requires space { length space.old < 2 ^ 64 - 1 }
    requires chunk { 16 ≤ length chunk.old }
    ensures { WroteUnitsIf (IsWellFormed C.form (map C.number units.now)) D.number (encode D.form (chars C.form (map C.number units.now))) space.old result space.new }
{
    match find_fault(units) {
        None => Some(put_recoded(units, space, 0, chunk)),
        Some(_fault) => None,
    }
}

// Converts UTF-16 to UTF-32. Returns how many units the result has, or `usize::MAX` if the input is ill-formed.
fn put_scalars(units: &[u16], scalars: &mut [u32], chunk: &mut [u32]) -> usize
    requires { 16 ≤ length chunk.old }
    ensures len { IsWellFormed Utf16 units.now → result ≡ length (chars Utf16 units.now) }
    ensures no_fault { IsWellFormed Utf16 units.now → result < 2 ^ 64 - 1 }
    ensures scalars { IsWellFormed Utf16 units.now → result ≤ length scalars.old → take result scalars.new ≡ chars Utf16 units.now }
    ensures fault { (IsWellFormed Utf16 units.now → ⊥) → result ≡ 2 ^ 64 - 1 }
    ensures unchanged { (IsWellFormed Utf16 units.now → ⊥) → scalars.new ≡ scalars.old }
    ensures beyond { drop result scalars.new ≡ drop result scalars.old }
{
    match put_valid(units, scalars, chunk) {
        Some(len) => len,
        None => usize::MAX,
    }
}

/// Converts well-formed UTF-16 (Unicode Standard, D91) to UTF-32 (D90). Returns how many units the result has. If
/// `scalars` is at least that long, the result is at its start, and the units after the result are unchanged. If the
/// UTF-16 is ill-formed, it returns `usize::MAX` and leaves `scalars` unchanged.
#[unsafe(no_mangle)]
pub extern "C" fn wide_utf16_to_utf32(units: &[u16], scalars: &mut [u32]) -> usize
    ensures len { IsWellFormed Utf16 units.now → result ≡ length (chars Utf16 units.now) }
    ensures scalars { IsWellFormed Utf16 units.now → result ≤ length scalars.old → take result scalars.new ≡ chars Utf16 units.now }
    ensures fault { (IsWellFormed Utf16 units.now → ⊥) → result ≡ 2 ^ 64 - 1 }
    ensures no_fault { IsWellFormed Utf16 units.now → result < 2 ^ 64 - 1 }
    ensures unchanged { (IsWellFormed Utf16 units.now → ⊥) → scalars.new ≡ scalars.old }
    ensures beyond { drop result scalars.new ≡ drop result scalars.old }
{
    if units.len() <= FEW {
        put_scalars(units, scalars, &mut [0; FEW])
    } else {
        put_scalars(units, scalars, &mut [0; MANY])
    }
}

/// Converts well-formed UTF-32 (Unicode Standard, D90) to UTF-16 (D91). Returns how many units the result has. If
/// `units` is at least that long, the result is at its start, and the units after the result are unchanged. If the
/// UTF-32 is ill-formed, it returns `usize::MAX` and leaves `units` unchanged.
#[unsafe(no_mangle)]
pub extern "C" fn wide_utf32_to_utf16(scalars: &[u32], units: &mut [u16]) -> usize
    ensures len { IsWellFormed Utf32 scalars.now → result ≡ length (encode Utf16 (chars Utf32 scalars.now)) }
    ensures units { IsWellFormed Utf32 scalars.now → result ≤ length units.old → take result units.new ≡ encode Utf16 (chars Utf32 scalars.now) }
    ensures fault { (IsWellFormed Utf32 scalars.now → ⊥) → result ≡ 2 ^ 64 - 1 }
    ensures no_fault { IsWellFormed Utf32 scalars.now → result < 2 ^ 64 - 1 }
    ensures unchanged { (IsWellFormed Utf32 scalars.now → ⊥) → units.new ≡ units.old }
    ensures beyond { drop result units.new ≡ drop result units.old }
{
    let put = if scalars.len() <= FEW {
        put_valid(scalars, units, &mut [0; FEW])
    } else {
        put_valid(scalars, units, &mut [0; MANY])
    };
    put.unwrap_or(usize::MAX)
}
