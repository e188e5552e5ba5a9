//! Copies units into a buffer of the caller, with ASCII letters in the other case.
ghost use Rattle.std.specs.Prelude.{◌≡◌, ◌≤◌, length, map, take, drop};
ghost use Rattle.std.specs.Char.{to_ascii_lowercase, to_ascii_uppercase};

use wide_ascii::{make_ascii_lowercase, make_ascii_uppercase};

/// Copies UTF-16, and writes each upper-case ASCII letter in lower case. Returns the length, which is that of the input
/// in units. If `lower` is at least that long, the result is at its start, and the units after the result are unchanged.
#[unsafe(no_mangle)]
pub extern "C" fn wide_utf16_to_ascii_lowercase(units: &[u16], lower: &mut [u16]) -> usize
    ensures len { result ≡ length units.now }
    ensures units { result ≤ length lower.old → take result lower.new ≡ map to_ascii_lowercase units.now }
    ensures beyond { drop result lower.new ≡ drop result lower.old }
{
    if units.len() <= lower.len() {
        let (text, _) = lower.split_at_mut(units.len());
        text.copy_from_slice(units);
        make_ascii_lowercase(text);
    }
    units.len()
}

/// Copies UTF-32, and writes each upper-case ASCII letter in lower case. Returns the length, which is that of the input
/// in units. If `lower` is at least that long, the result is at its start, and the units after the result are unchanged.
#[unsafe(no_mangle)]
pub extern "C" fn wide_utf32_to_ascii_lowercase(units: &[u32], lower: &mut [u32]) -> usize
    ensures len { result ≡ length units.now }
    ensures units { result ≤ length lower.old → take result lower.new ≡ map to_ascii_lowercase units.now }
    ensures beyond { drop result lower.new ≡ drop result lower.old }
{
    if units.len() <= lower.len() {
        let (text, _) = lower.split_at_mut(units.len());
        text.copy_from_slice(units);
        make_ascii_lowercase(text);
    }
    units.len()
}

/// Copies UTF-16, and writes each lower-case ASCII letter in upper case. Returns the length, which is that of the input
/// in units. If `upper` is at least that long, the result is at its start, and the units after the result are unchanged.
#[unsafe(no_mangle)]
pub extern "C" fn wide_utf16_to_ascii_uppercase(units: &[u16], upper: &mut [u16]) -> usize
    ensures len { result ≡ length units.now }
    ensures units { result ≤ length upper.old → take result upper.new ≡ map to_ascii_uppercase units.now }
    ensures beyond { drop result upper.new ≡ drop result upper.old }
{
    if units.len() <= upper.len() {
        let (text, _) = upper.split_at_mut(units.len());
        text.copy_from_slice(units);
        make_ascii_uppercase(text);
    }
    units.len()
}

/// Copies UTF-32, and writes each lower-case ASCII letter in upper case. Returns the length, which is that of the input
/// in units. If `upper` is at least that long, the result is at its start, and the units after the result are unchanged.
#[unsafe(no_mangle)]
pub extern "C" fn wide_utf32_to_ascii_uppercase(units: &[u32], upper: &mut [u32]) -> usize
    ensures len { result ≡ length units.now }
    ensures units { result ≤ length upper.old → take result upper.new ≡ map to_ascii_uppercase units.now }
    ensures beyond { drop result upper.new ≡ drop result upper.old }
{
    if units.len() <= upper.len() {
        let (text, _) = upper.split_at_mut(units.len());
        text.copy_from_slice(units);
        make_ascii_uppercase(text);
    }
    units.len()
}
