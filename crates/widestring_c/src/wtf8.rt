//! Converts UTF-16 to WTF-8 and back, into a buffer of the caller. Every unit survives, even if it is a surrogate that
//! belongs to no pair.
ghost use Rattle.std.specs.Prelude.{◌≡◌, ◌<◌, ◌≤◌, ◌-◌, ◌^◌, ◌↔◌, ℕ, List, length, take, drop};
ghost use Rattle.wide_schemes.specs.Wtf8.{IsWtf8, wtf8};
ghost use Rattle.wide_wtf8.specs.Faults.{IsFirstWtf8Fault, IsWtf8Of};

use wide_wtf8::{check_wtf8, write_from_wtf8, write_wtf8, wtf8_len, wtf8_units_len};

/// Returns the length in bytes of any units of UTF-16 in WTF-8. Well-formed parts are UTF-8 (Unicode Standard, D92),
/// and a surrogate that belongs to no pair has the three bytes of its code point.
#[unsafe(no_mangle)]
pub extern "C" fn wide_utf16_wtf8_length(units: &[u16]) -> usize
    ensures len { result ≡ length (wtf8 units.now) }
    ensures no_fault { result < 2 ^ 64 - 1 }
{
    wtf8_len(units)
}

/// Converts any units of UTF-16 to WTF-8. Returns the length of the result in bytes. If `text` is at least that long,
/// the result is at its start, and the bytes after the result are unchanged. If it is shorter, all bytes are unchanged.
#[unsafe(no_mangle)]
pub extern "C" fn wide_utf16_to_wtf8(units: &[u16], text: &mut [u8]) -> usize
    ensures len { result ≡ length (wtf8 units.now) }
    ensures no_fault { result < 2 ^ 64 - 1 }
    ensures text { result ≤ length text.old → take result text.new ≡ wtf8 units.now }
    ensures beyond { drop result text.new ≡ drop result text.old }
{
    let len = wide_utf16_wtf8_length(units);
    if len > text.len() {
        return len;
    }
    let (space, _) = text.split_at_mut(len);
    // The space is as long as the text, so all of it is written.
    let _written = write_wtf8(units, space);
    len
}

/// Returns the length in units of UTF-16 of a text in WTF-8, or `usize::MAX` if the bytes are not WTF-8.
#[unsafe(no_mangle)]
pub extern "C" fn wide_wtf8_utf16_length(text: &[u8]) -> usize
    ensures len { (us : List ℕ) → IsWtf8Of us text.now → result ≡ length us }
    ensures fault { (IsWtf8 text.now → ⊥) → result ≡ 2 ^ 64 - 1 }
    ensures no_fault { IsWtf8 text.now → result < 2 ^ 64 - 1 }
{
    match wtf8_units_len(text) {
        Ok(len) => len,
        Err(_fault) => usize::MAX,
    }
}

/// Converts WTF-8 to UTF-16. Returns how many units the result has. If `units` is at least that long, the result is at
/// its start, and the units after the result are unchanged. If the bytes are not WTF-8, it returns `usize::MAX` and
/// leaves `units` unchanged.
#[unsafe(no_mangle)]
pub extern "C" fn wide_wtf8_to_utf16(text: &[u8], units: &mut [u16]) -> usize
    ensures len { (us : List ℕ) → IsWtf8Of us text.now → result ≡ length us }
    ensures units { (us : List ℕ) → IsWtf8Of us text.now → result ≤ length units.old → take result units.new ≡ us }
    ensures fault { (IsWtf8 text.now → ⊥) → result ≡ 2 ^ 64 - 1 }
    ensures no_fault { IsWtf8 text.now → result < 2 ^ 64 - 1 }
    ensures unchanged { (IsWtf8 text.now → ⊥) → units.new ≡ units.old }
    ensures beyond { drop result units.new ≡ drop result units.old }
{
    let len = wide_wtf8_utf16_length(text);
    if len > units.len() {
        return len;
    }
    let (space, _) = units.split_at_mut(len);
    // The space has as many units as the text, so all of it is written.
    let _written = write_from_wtf8(text, space);
    len
}

/// Returns the offset of the first byte of the first fault of WTF-8, or the length if there is none. A fault is an
/// ill-formed sequence of UTF-8 that is no surrogate, or the second half of a surrogate pair whose halves are written
/// apart.
#[unsafe(no_mangle)]
pub extern "C" fn wide_wtf8_first_fault(text: &[u8]) -> usize
    ensures well_formed { (result ≡ length text.now) ↔ IsWtf8 text.now }
    ensures fault { result < length text.now → (len : ℕ) × IsFirstWtf8Fault text.now result len }
    ensures within { result ≤ length text.now }
{
    match check_wtf8(text) {
        Ok(()) => text.len(),
        Err(fault) => fault.index,
    }
}
