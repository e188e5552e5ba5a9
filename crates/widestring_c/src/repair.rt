//! Replaces each fault by U+FFFD, in place or in a copy in a buffer of the caller.
ghost use Rattle.std.specs.Prelude.{◌≡◌, ◌≤◌, length, map, take, drop};
ghost use Rattle.wide_forms.specs.EncodingForm.{Utf16, Utf32, encode};
ghost use Rattle.wide_forms.specs.Items.{items};
ghost use Rattle.wide_forms.specs.Lossy.{lossy};
ghost use Rattle.wide_convert.specs.Texts.{faults_in};

use wide_unit::{Unit, find_fault};

/// Copies UTF-16 (Unicode Standard, D91), and replaces each ill-formed unit by U+FFFD. Returns the length, which is
/// that of the input in units. If `repaired` is at least that long, the result is at its start, and the units after the
/// result are unchanged.
#[unsafe(no_mangle)]
pub extern "C" fn wide_utf16_repair(units: &[u16], repaired: &mut [u16]) -> usize
    ensures len { result ≡ length units.now }
    ensures units { result ≤ length repaired.old → take result repaired.new ≡ encode Utf16 (lossy (items Utf16 units.now)) }
    ensures beyond { drop result repaired.new ≡ drop result repaired.old }
{
    if units.len() <= repaired.len() {
        u16::repair(units, repaired);
    }
    units.len()
}

/// Copies UTF-32 (Unicode Standard, D90), and replaces each unit that is not a scalar value by U+FFFD. Returns the
/// length, which is that of the input in units. If `repaired` is at least that long, the result is at its start, and
/// the units after the result are unchanged.
#[unsafe(no_mangle)]
pub extern "C" fn wide_utf32_repair(units: &[u32], repaired: &mut [u32]) -> usize
    ensures len { result ≡ length units.now }
    ensures units { result ≤ length repaired.old → take result repaired.new ≡ lossy (items Utf32 units.now) }
    ensures beyond { drop result repaired.new ≡ drop result repaired.old }
{
    if units.len() <= repaired.len() {
        u32::repair(units, repaired);
    }
    units.len()
}

// Replaces each unit that belongs to no character by U+FFFD, and returns how many these were.
fn repair_in_place<C: Unit>(units: &mut [C]) -> usize
    ensures units { map C.number units.new ≡ encode C.form (lossy (items C.form (map C.number units.old))) }
    ensures count { result ≡ faults_in (items C.form (map C.number units.old)) }
    ensures few { result ≤ length units.new }
{
    let (replacement, _) = C::encode_char(char::REPLACEMENT_CHARACTER);
    let mut count = 0;
    let mut at = 0;
    'faults: while let Some((index, _unit)) = find_fault(units.split_at(at).1) {
        units[at + index] = replacement;
        at += index + 1;
        count += 1;
    }
    count
}

/// Replaces each ill-formed unit of UTF-16 (Unicode Standard, D91) by U+FFFD. Returns how many units were replaced.
#[unsafe(no_mangle)]
pub extern "C" fn wide_utf16_repair_in_place(units: &mut [u16]) -> usize
    ensures units { units.new ≡ encode Utf16 (lossy (items Utf16 units.old)) }
    ensures count { result ≡ faults_in (items Utf16 units.old) }
    ensures few { result ≤ length units.new }
{
    repair_in_place(units)
}

/// Replaces each unit of UTF-32 that is not a scalar value (Unicode Standard, D90) by U+FFFD. Returns how many units
/// were replaced.
#[unsafe(no_mangle)]
pub extern "C" fn wide_utf32_repair_in_place(units: &mut [u32]) -> usize
    ensures units { units.new ≡ lossy (items Utf32 units.old) }
    ensures count { result ≡ faults_in (items Utf32 units.old) }
    ensures few { result ≤ length units.new }
{
    repair_in_place(units)
}
