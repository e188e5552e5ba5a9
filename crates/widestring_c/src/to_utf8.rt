//! Converts UTF-16 and UTF-32 to UTF-8, into a buffer of the caller.
ghost use Rattle.std.specs.Prelude.{◌≡◌, ◌<◌, ◌≤◌, ◌+◌, ◌-◌, ◌^◌, ◌++◌, ◌*◌, IfNone, IfSome, length, map, min, take, drop};
ghost use Rattle.wide_forms.specs.EncodingForm.{Utf16, Utf32};
ghost use Rattle.wide_forms.specs.Items.{IsWellFormed, chars, items};
ghost use Rattle.wide_forms.specs.Lossy.{lossy, lossy_after, lossy_by};
ghost use Rattle.wide_forms.specs.Utf8.{utf8};
ghost use Rattle.widestring_c.specs.Buffers.{Wrote, WroteIf};
ghost use Rattle.widestring_c.specs.Policies.{policy_of};

use crate::caller_buffer::put_items;
use crate::policies::policy_of;
use wide_forms::{Policy, Progress};
use wide_from_units::array_sizes::{LARGE, MIDDLE, MIDDLE_UNITS, SMALL, SMALL_UNITS, SPARE};
use wide_from_units::{lossy_prefix, to_utf8_prefix};
use wide_unit::{Unit, find_fault};
use wide_utf16_to_utf8::checked_utf16_to_utf8;

// Converts well-formed units to UTF-8 at the offset `at` of the buffer, chunk by chunk, and returns the offset after
// the result, whether it fits or not, or `usize::MAX` if the offset is greater than that.
pub(crate) fn put_chunks<C: Unit>(
    units: &[C],
    text: &mut [u8],
    at: usize,
    chunk: &mut [u8],
) -> usize
    requires well_formed { IsWellFormed C.form (map C.number units.now) }
    requires chunk { 64 ≤ length chunk.old }
    ensures offset { result ≡ min (at + length (utf8 (chars C.form (map C.number units.now)))) (2 ^ 64 - 1) }
    ensures text { result ≤ length text.old → take result text.new ≡ take at text.old ++ utf8 (chars C.form (map C.number units.now)) }
    ensures space { length text.new ≡ length text.old }
    ensures beyond { drop result text.new ≡ drop result text.old }
{
    let mut at = at;
    let mut rest = units;
    'chunks: while !rest.is_empty() {
        let Progress { read, written } = to_utf8_prefix(rest, chunk);
        at = put_items(text, at, &chunk[..written]);
        (_, rest) = rest.split_at(read);
    }
    at
}

// Checks units, and then converts them to UTF-8 at the start of the buffer if they are well formed. Returns the length
// of the result in bytes, or `None` if they are ill-formed. The small array is for UTF-32: few units of UTF-16 are
// converted in one pass. The requirement holds for all slices, which have fewer than 2^63 bytes. It bounds the length
// of the result, at most four bytes for each unit.
fn put_in_two_passes<C: Unit>(units: &[C], text: &mut [u8]) -> Option<usize>
    requires { 4 * length units.now < 2 ^ 64 - 1 }
    ensures { WroteIf (IsWellFormed C.form (map C.number units.now)) (utf8 (chars C.form (map C.number units.now))) text.old result text.new }
{
    match find_fault(units) {
        None => {
            if units.len() <= SMALL_UNITS {
                Some(put_chunks(units, text, 0, &mut [0; SMALL]))
            } else {
                Some(put_chunks(units, text, 0, &mut [0; LARGE]))
            }
        }
        Some(_fault) => None,
    }
}

// Checks a few units of UTF-16 and converts them to UTF-8 at the start of the buffer in one pass, through the array
// `chunk`. Returns the length of the result in bytes, or `None` if the units are ill-formed.
fn put_in_one_pass(units: &[u16], text: &mut [u8], chunk: &mut [u8]) -> Option<usize>
    requires { 3 * length units.now + 4 ≤ length chunk.old }
    ensures { WroteIf (IsWellFormed Utf16 units.now) (utf8 (chars Utf16 units.now)) text.old result text.new }
{
    match checked_utf16_to_utf8(units, chunk) {
        Some(len) => Some(put_items(text, 0, &chunk[..len])),
        None => None,
    }
}

// Checks UTF-16, and converts it to UTF-8 at the start of the buffer. Returns the length of the result in bytes, or
// `None` if the units are ill-formed. A short input is checked and converted in one pass, in an array whose size fits.
// A longer one is checked first.
fn put_valid_16(units: &[u16], text: &mut [u8]) -> Option<usize>
    ensures { WroteIf (IsWellFormed Utf16 units.now) (utf8 (chars Utf16 units.now)) text.old result text.new }
{
    if units.len() <= SMALL_UNITS {
        return put_in_one_pass(units, text, &mut [0; SMALL]);
    }
    if units.len() <= MIDDLE_UNITS {
        return put_in_one_pass(units, text, &mut [0; MIDDLE]);
    }
    put_in_two_passes(units, text)
}

// Converts any units to UTF-8 at the offset `at` of the buffer, and replaces faults by the policy. Returns the offset
// after the result, whether it fits or not, or `usize::MAX` if the offset is greater than that. `after_fault` says
// whether the unit before `units` is ill-formed. `spare` and `chunk` are scratch arrays.
pub(crate) fn put_lossy_after<C: Unit>(
    units: &[C],
    policy: Policy,
    after_fault: bool,
    text: &mut [u8],
    at: usize,
    spare: &mut [C],
    chunk: &mut [u8],
) -> usize
    requires spare { 2 ≤ length spare.old }
    requires chunk { 64 ≤ length chunk.old }
    ensures offset { result ≡ min (at + length (utf8 (lossy_after policy after_fault (items C.form (map C.number units.now))))) (2 ^ 64 - 1) }
    ensures text { result ≤ length text.old → take result text.new ≡ take at text.old ++ utf8 (lossy_after policy after_fault (items C.form (map C.number units.now))) }
    ensures space { length text.new ≡ length text.old }
    ensures beyond { drop result text.new ≡ drop result text.old }
{
    let mut at = at;
    let mut rest = units;
    let mut is_after = after_fault;
    'prefixes: while !rest.is_empty() {
        let prefix = lossy_prefix(rest, policy, is_after, spare);
        at = put_chunks(prefix.text, text, at, chunk);
        is_after = prefix.after_fault;
        rest = prefix.rest;
    }
    at
}

// Converts any units to UTF-8 at the start of the buffer, and replaces faults by the policy. `spare` and `chunk` are
// scratch arrays.
fn put_lossy_by<C: Unit>(
    units: &[C],
    policy: Policy,
    text: &mut [u8],
    spare: &mut [C],
    chunk: &mut [u8],
) -> usize
    requires units { 4 * length units.now < 2 ^ 64 - 1 }
    requires spare { 2 ≤ length spare.old }
    requires chunk { 64 ≤ length chunk.old }
    ensures { Wrote (utf8 (lossy_by policy (items C.form (map C.number units.now)))) text.old result text.new }
{
    put_lossy_after(units, policy, false, text, 0, spare, chunk)
}

// Converts any UTF-16 to UTF-8 at the start of the buffer, and replaces faults by the policy, with arrays whose sizes
// fit the input.
fn put_lossy_16(units: &[u16], policy: Policy, text: &mut [u8]) -> usize
    ensures { Wrote (utf8 (lossy_by policy (items Utf16 units.now))) text.old result text.new }
{
    if units.len() <= SMALL_UNITS {
        put_lossy_by(units, policy, text, &mut [0; SMALL_UNITS], &mut [0; SMALL])
    } else {
        put_lossy_by(units, policy, text, &mut [0; SPARE], &mut [0; LARGE])
    }
}

// Converts any UTF-32 to UTF-8 at the start of the buffer, and replaces faults by the policy.
fn put_lossy_32(units: &[u32], policy: Policy, text: &mut [u8]) -> usize
    ensures { Wrote (utf8 (lossy_by policy (items Utf32 units.now))) text.old result text.new }
{
    put_lossy_by(units, policy, text, &mut [0; SPARE], &mut [0; LARGE])
}

/// Converts well-formed UTF-16 (Unicode Standard, D91) to UTF-8 (D92). Returns the length of the result in bytes. If
/// `text` is at least that long, the result is at its start, and the bytes after the result are unchanged. If the units
/// are ill-formed, it returns `usize::MAX` and leaves `text` unchanged.
#[unsafe(no_mangle)]
pub extern "C" fn wide_utf16_to_utf8(units: &[u16], text: &mut [u8]) -> usize
    ensures len { IsWellFormed Utf16 units.now → result ≡ length (utf8 (chars Utf16 units.now)) }
    ensures text { IsWellFormed Utf16 units.now → result ≤ length text.old → take result text.new ≡ utf8 (chars Utf16 units.now) }
    ensures fault { (IsWellFormed Utf16 units.now → ⊥) → result ≡ 2 ^ 64 - 1 }
    ensures no_fault { IsWellFormed Utf16 units.now → result < 2 ^ 64 - 1 }
    ensures unchanged { (IsWellFormed Utf16 units.now → ⊥) → text.new ≡ text.old }
    ensures beyond { drop result text.new ≡ drop result text.old }
{
    put_valid_16(units, text).unwrap_or(usize::MAX)
}

/// Converts any UTF-16 to UTF-8, and writes U+FFFD for each ill-formed unit. Returns the length of the result in bytes.
/// If `text` is at least that long, the result is at its start, and the bytes after the result are unchanged.
#[unsafe(no_mangle)]
pub extern "C" fn wide_utf16_to_utf8_lossy(units: &[u16], text: &mut [u8]) -> usize
    ensures len { result ≡ length (utf8 (lossy (items Utf16 units.now))) }
    ensures no_fault { result < 2 ^ 64 - 1 }
    ensures text { result ≤ length text.old → take result text.new ≡ utf8 (lossy (items Utf16 units.now)) }
    ensures beyond { drop result text.new ≡ drop result text.old }
{
    match put_valid_16(units, text) {
        Some(len) => len,
        None => put_lossy_16(units, Policy::Each, text),
    }
}

/// Converts any UTF-16 to UTF-8, and replaces ill-formed units by the policy, whose number `widestring.h` defines.
///
/// Returns the length of the result in bytes. If `text` is at least that long, the result is at its start, and the
/// bytes after the result are unchanged. For any other policy it returns `usize::MAX` and leaves `text` unchanged.
#[unsafe(no_mangle)]
pub extern "C" fn wide_utf16_to_utf8_lossy_with(
    units: &[u16],
    policy: u32,
    text: &mut [u8],
) -> usize
    ensures len { IfSome (policy_of policy) (λ p. result ≡ length (utf8 (lossy_by p (items Utf16 units.now)))) }
    ensures no_fault { IfSome (policy_of policy) (λ p. result < 2 ^ 64 - 1) }
    ensures text { IfSome (policy_of policy) (λ p. result ≤ length text.old → take result text.new ≡ utf8 (lossy_by p (items Utf16 units.now))) }
    ensures other { IfNone (policy_of policy) (result ≡ 2 ^ 64 - 1) }
    ensures unchanged { IfNone (policy_of policy) (text.new ≡ text.old) }
    ensures beyond { drop result text.new ≡ drop result text.old }
{
    match policy_of(policy) {
        Some(Policy::Each) => wide_utf16_to_utf8_lossy(units, text),
        Some(policy) => put_lossy_16(units, policy, text),
        None => usize::MAX,
    }
}

/// Converts well-formed UTF-32 (Unicode Standard, D90) to UTF-8 (D92). Returns the length of the result in bytes. If
/// `text` is at least that long, the result is at its start, and the bytes after the result are unchanged. If the units
/// are ill-formed, it returns `usize::MAX` and leaves `text` unchanged.
#[unsafe(no_mangle)]
pub extern "C" fn wide_utf32_to_utf8(units: &[u32], text: &mut [u8]) -> usize
    ensures len { IsWellFormed Utf32 units.now → result ≡ length (utf8 (chars Utf32 units.now)) }
    ensures text { IsWellFormed Utf32 units.now → result ≤ length text.old → take result text.new ≡ utf8 (chars Utf32 units.now) }
    ensures fault { (IsWellFormed Utf32 units.now → ⊥) → result ≡ 2 ^ 64 - 1 }
    ensures no_fault { IsWellFormed Utf32 units.now → result < 2 ^ 64 - 1 }
    ensures unchanged { (IsWellFormed Utf32 units.now → ⊥) → text.new ≡ text.old }
    ensures beyond { drop result text.new ≡ drop result text.old }
{
    put_in_two_passes(units, text).unwrap_or(usize::MAX)
}

/// Converts any UTF-32 to UTF-8, and writes U+FFFD for each unit that is not a scalar value. Returns the length of the
/// result in bytes. If `text` is at least that long, the result is at its start, and the bytes after the result are
/// unchanged.
#[unsafe(no_mangle)]
pub extern "C" fn wide_utf32_to_utf8_lossy(units: &[u32], text: &mut [u8]) -> usize
    ensures len { result ≡ length (utf8 (lossy (items Utf32 units.now))) }
    ensures no_fault { result < 2 ^ 64 - 1 }
    ensures text { result ≤ length text.old → take result text.new ≡ utf8 (lossy (items Utf32 units.now)) }
    ensures beyond { drop result text.new ≡ drop result text.old }
{
    put_lossy_32(units, Policy::Each, text)
}

/// Converts any UTF-32 to UTF-8, and replaces units that are not scalar values by the policy, whose number
/// `widestring.h` defines.
///
/// Returns the length of the result in bytes. If `text` is at least that long, the result is at its start, and the
/// bytes after the result are unchanged. For any other policy it returns `usize::MAX` and leaves `text` unchanged.
#[unsafe(no_mangle)]
pub extern "C" fn wide_utf32_to_utf8_lossy_with(
    units: &[u32],
    policy: u32,
    text: &mut [u8],
) -> usize
    ensures len { IfSome (policy_of policy) (λ p. result ≡ length (utf8 (lossy_by p (items Utf32 units.now)))) }
    ensures no_fault { IfSome (policy_of policy) (λ p. result < 2 ^ 64 - 1) }
    ensures text { IfSome (policy_of policy) (λ p. result ≤ length text.old → take result text.new ≡ utf8 (lossy_by p (items Utf32 units.now))) }
    ensures other { IfNone (policy_of policy) (result ≡ 2 ^ 64 - 1) }
    ensures unchanged { IfNone (policy_of policy) (text.new ≡ text.old) }
    ensures beyond { drop result text.new ≡ drop result text.old }
{
    match policy_of(policy) {
        Some(policy) => put_lossy_32(units, policy, text),
        None => usize::MAX,
    }
}
