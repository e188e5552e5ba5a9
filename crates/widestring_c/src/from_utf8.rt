//! Converts UTF-8 to UTF-16 and UTF-32, into a buffer of the caller.
ghost use Rattle.std.specs.Prelude.{◌≡◌, ◌<◌, ◌≤◌, ◌↔◌, ◌+◌, ◌-◌, ◌^◌, ◌++◌, IfNone, IfSome, length, map, min, take, drop};
ghost use Rattle.std.specs.Str.{IsUtf8, IsValidUpTo, chars as str_chars};
ghost use Rattle.std.specs.Str.Lossy.{utf8_lossy};
ghost use Rattle.wide_forms.specs.EncodingForm.{Utf16, encode};
ghost use Rattle.wide_forms.specs.Lossy.{lossy_by};
ghost use Rattle.wide_conversions.specs.Utf8Items.{utf8_items};
ghost use Rattle.widestring_c.specs.Buffers.{Wrote, WroteUnits};
ghost use Rattle.widestring_c.specs.Policies.{policy_of};

use crate::caller_buffer::put_items;
use crate::policies::policy_of;
use wide_conversions::{first_utf8_chunk, from_utf8_lossy_prefix, is_utf8};
use wide_forms::{Policy, Progress};
use wide_from_units::is_after_fault;
use wide_from_utf8::from_utf8_prefix;
use wide_unit::Unit;

// The size, in units, of the array through which an input of at most 32 bytes is decoded. A small array takes less time
// to clear.
const FEW: usize = 32;

// The size, in units, of the array through which an input of more than 32 bytes is decoded: that of 48 steps of
// `from_utf8_prefix`, each of at most sixteen units.
const MANY: usize = 48 * 16;

// Units are decoded directly into the buffer while the rest of the text yields at least this many units.
const WINDOW: usize = 256;

// Decodes text to the offset `at` of the buffer, chunk by chunk, and returns the offset after it, whether it fits or
// not, or `usize::MAX` if the offset is greater than that. `from_utf8_prefix` may overwrite units after those that it
// reports as written. So it is given the buffer itself only as far as the rest of the text is certain to reach: four
// bytes yield at least one unit.
pub(crate) fn put_text<C: Unit>(text: &[u8], units: &mut [C], at: usize, chunk: &mut [C]) -> usize
    requires text { IsUtf8 text.now }
    requires space { length units.old < 2 ^ 64 - 1 }
    requires chunk { 2 ≤ length chunk.old }
    ensures offset { result ≡ min (at + length (encode C.form (str_chars text.now))) (2 ^ 64 - 1) }
    ensures units { result ≤ length units.old → map C.number (take result units.new) ≡ map C.number (take at units.old) ++ encode C.form (str_chars text.now) }
    ensures space { length units.new ≡ length units.old }
    ensures beyond { drop result units.new ≡ drop result units.old }
{
    let mut at = at;
    let mut rest = text;
    'windows: while rest.len() / 4 >= WINDOW && units.len().saturating_sub(at) >= WINDOW {
        let len = (rest.len() / 4).min(units.len() - at);
        let Progress { read, written } = from_utf8_prefix(rest, &mut units[at..at + len]);
        at += written;
        (_, rest) = rest.split_at(read);
    }
    'chunks: while !rest.is_empty() {
        let Progress { read, written } = from_utf8_prefix(rest, chunk);
        at = put_items(units, at, &chunk[..written]);
        (_, rest) = rest.split_at(read);
    }
    at
}

// Returns the length in bytes of the longest well-formed prefix, or 0 for a short input, which is not worth the
// vectorized check.
fn text_len(text: &[u8]) -> usize
    ensures within { result ≤ length text.now }
    ensures text { IsUtf8 (take result text.now) }
{
    if text.len() <= FEW {
        return 0;
    }
    first_utf8_chunk(text).valid
}

// Converts any bytes, and replaces maximal subparts of ill-formed sequences by the policy. Writes the result at the start
// of the buffer, and returns how many units it has.
fn put_lossy<C: Unit>(text: &[u8], policy: Policy, units: &mut [C], chunk: &mut [C]) -> usize
    requires space { length units.old < 2 ^ 64 - 1 }
    requires chunk { 16 ≤ length chunk.old }
    ensures { WroteUnits C.number (encode C.form (lossy_by policy (utf8_items text.now))) units.old result units.new }
{
    let mut at = 0;
    let mut rest = text;
    let mut after_fault = false;
    'prefixes: while !rest.is_empty() {
        let len = text_len(rest);
        let (prefix, beyond) = rest.split_at(len);
        at = put_text(prefix, units, at, chunk);
        after_fault = is_after_fault(after_fault, len);
        let step = from_utf8_lossy_prefix(beyond, policy, after_fault, chunk);
        at = put_items(units, at, &chunk[..step.written]);
        after_fault = step.after_fault;
        (_, rest) = beyond.split_at(step.read);
    }
    at
}

// Converts any bytes to lossy UTF-16 at the start of the buffer, through an array whose size fits the input.
fn put_lossy_16(text: &[u8], policy: Policy, units: &mut [u16]) -> usize
    ensures { Wrote (encode Utf16 (lossy_by policy (utf8_items text.now))) units.old result units.new }
{
    if text.len() <= FEW {
        put_lossy(text, policy, units, &mut [0; FEW])
    } else {
        put_lossy(text, policy, units, &mut [0; MANY])
    }
}

// Converts any bytes to lossy UTF-32 at the start of the buffer, through an array whose size fits the input.
fn put_lossy_32(text: &[u8], policy: Policy, units: &mut [u32]) -> usize
    ensures { Wrote (lossy_by policy (utf8_items text.now)) units.old result units.new }
{
    if text.len() <= FEW {
        put_lossy(text, policy, units, &mut [0; FEW])
    } else {
        put_lossy(text, policy, units, &mut [0; MANY])
    }
}

/// Returns the offset of the first byte of the first ill-formed sequence of UTF-8 (Unicode Standard, D92), or the
/// length if the bytes are well formed.
#[unsafe(no_mangle)]
pub extern "C" fn wide_utf8_first_fault(text: &[u8]) -> usize
    ensures well_formed { (result ≡ length text.now) ↔ IsUtf8 text.now }
    ensures fault { result < length text.now → IsValidUpTo text.now result }
    ensures within { result ≤ length text.now }
{
    first_utf8_chunk(text).valid
}

/// Converts well-formed UTF-8 to UTF-16. Returns how many units the result has. If `units` is at least that long, the
/// result is at its start, and the units after the result are unchanged. If the bytes are ill-formed, it returns
/// `usize::MAX` and leaves `units` unchanged.
#[unsafe(no_mangle)]
pub extern "C" fn wide_utf8_to_utf16(text: &[u8], units: &mut [u16]) -> usize
    ensures len { IsUtf8 text.now → result ≡ length (encode Utf16 (str_chars text.now)) }
    ensures units { IsUtf8 text.now → result ≤ length units.old → take result units.new ≡ encode Utf16 (str_chars text.now) }
    ensures fault { (IsUtf8 text.now → ⊥) → result ≡ 2 ^ 64 - 1 }
    ensures no_fault { IsUtf8 text.now → result < 2 ^ 64 - 1 }
    ensures unchanged { (IsUtf8 text.now → ⊥) → units.new ≡ units.old }
    ensures beyond { drop result units.new ≡ drop result units.old }
{
    if !is_utf8(text) {
        usize::MAX
    } else if text.len() <= FEW {
        put_text(text, units, 0, &mut [0; FEW])
    } else {
        put_text(text, units, 0, &mut [0; MANY])
    }
}

/// Converts well-formed UTF-8 to UTF-32. Returns how many units the result has. If `units` is at least that long, the
/// result is at its start, and the units after the result are unchanged. If the bytes are ill-formed, it returns
/// `usize::MAX` and leaves `units` unchanged.
#[unsafe(no_mangle)]
pub extern "C" fn wide_utf8_to_utf32(text: &[u8], units: &mut [u32]) -> usize
    ensures len { IsUtf8 text.now → result ≡ length (str_chars text.now) }
    ensures units { IsUtf8 text.now → result ≤ length units.old → take result units.new ≡ str_chars text.now }
    ensures fault { (IsUtf8 text.now → ⊥) → result ≡ 2 ^ 64 - 1 }
    ensures no_fault { IsUtf8 text.now → result < 2 ^ 64 - 1 }
    ensures unchanged { (IsUtf8 text.now → ⊥) → units.new ≡ units.old }
    ensures beyond { drop result units.new ≡ drop result units.old }
{
    if !is_utf8(text) {
        usize::MAX
    } else if text.len() <= FEW {
        put_text(text, units, 0, &mut [0; FEW])
    } else {
        put_text(text, units, 0, &mut [0; MANY])
    }
}

/// Converts any bytes to UTF-16. It writes U+FFFD for each maximal subpart of an ill-formed sequence: the longest
/// prefix that begins a character of UTF-8 but does not continue as one, or a byte that begins none (Unicode Standard,
/// section 3.9, "U+FFFD Substitution of Maximal Subparts"). std's `from_utf8_lossy` does the same.
///
/// Returns how many units the result has. If `units` is at least that long, the result is at its start, and the units
/// after the result are unchanged.
#[unsafe(no_mangle)]
pub extern "C" fn wide_utf8_to_utf16_lossy(text: &[u8], units: &mut [u16]) -> usize
    ensures len { result ≡ length (encode Utf16 (str_chars (utf8_lossy text.now))) }
    ensures no_fault { result < 2 ^ 64 - 1 }
    ensures units { result ≤ length units.old → take result units.new ≡ encode Utf16 (str_chars (utf8_lossy text.now)) }
    ensures beyond { drop result units.new ≡ drop result units.old }
{
    put_lossy_16(text, Policy::Each, units)
}

/// Converts any bytes to UTF-32. It writes U+FFFD for each maximal subpart of an ill-formed sequence: the longest
/// prefix that begins a character of UTF-8 but does not continue as one, or a byte that begins none (Unicode Standard,
/// section 3.9, "U+FFFD Substitution of Maximal Subparts").
///
/// Returns how many units the result has. If `units` is at least that long, the result is at its start, and the units
/// after the result are unchanged.
#[unsafe(no_mangle)]
pub extern "C" fn wide_utf8_to_utf32_lossy(text: &[u8], units: &mut [u32]) -> usize
    ensures len { result ≡ length (str_chars (utf8_lossy text.now)) }
    ensures no_fault { result < 2 ^ 64 - 1 }
    ensures units { result ≤ length units.old → take result units.new ≡ str_chars (utf8_lossy text.now) }
    ensures beyond { drop result units.new ≡ drop result units.old }
{
    put_lossy_32(text, Policy::Each, units)
}

/// Converts any bytes to UTF-16, and replaces the maximal subparts of ill-formed sequences by the policy, whose number
/// `widestring.h` defines.
///
/// Returns how many units the result has. If `units` is at least that long, the result is at its start, and the units
/// after the result are unchanged. For any other policy it returns `usize::MAX` and leaves `units` unchanged.
#[unsafe(no_mangle)]
pub extern "C" fn wide_utf8_to_utf16_lossy_with(
    text: &[u8],
    policy: u32,
    units: &mut [u16],
) -> usize
    ensures len { IfSome (policy_of policy) (λ p. result ≡ length (encode Utf16 (lossy_by p (utf8_items text.now)))) }
    ensures no_fault { IfSome (policy_of policy) (λ p. result < 2 ^ 64 - 1) }
    ensures units { IfSome (policy_of policy) (λ p. result ≤ length units.old → take result units.new ≡ encode Utf16 (lossy_by p (utf8_items text.now))) }
    ensures other { IfNone (policy_of policy) (result ≡ 2 ^ 64 - 1) }
    ensures unchanged { IfNone (policy_of policy) (units.new ≡ units.old) }
    ensures beyond { drop result units.new ≡ drop result units.old }
{
    match policy_of(policy) {
        Some(policy) => put_lossy_16(text, policy, units),
        None => usize::MAX,
    }
}

/// Converts any bytes to UTF-32, and replaces the maximal subparts of ill-formed sequences by the policy, whose number
/// `widestring.h` defines.
///
/// Returns how many units the result has. If `units` is at least that long, the result is at its start, and the units
/// after the result are unchanged. For any other policy it returns `usize::MAX` and leaves `units` unchanged.
#[unsafe(no_mangle)]
pub extern "C" fn wide_utf8_to_utf32_lossy_with(
    text: &[u8],
    policy: u32,
    units: &mut [u32],
) -> usize
    ensures len { IfSome (policy_of policy) (λ p. result ≡ length (lossy_by p (utf8_items text.now))) }
    ensures no_fault { IfSome (policy_of policy) (λ p. result < 2 ^ 64 - 1) }
    ensures units { IfSome (policy_of policy) (λ p. result ≤ length units.old → take result units.new ≡ lossy_by p (utf8_items text.now)) }
    ensures other { IfNone (policy_of policy) (result ≡ 2 ^ 64 - 1) }
    ensures unchanged { IfNone (policy_of policy) (units.new ≡ units.old) }
    ensures beyond { drop result units.new ≡ drop result units.old }
{
    match policy_of(policy) {
        Some(policy) => put_lossy_32(text, policy, units),
        None => usize::MAX,
    }
}
