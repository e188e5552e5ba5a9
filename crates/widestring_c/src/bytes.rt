//! Reads and converts UTF-16 in bytes of either byte order, whole or chunk by chunk. The caller keeps the state.
ghost use Rattle.std.specs.Prelude.{◌≡◌, ◌*◌, ◌<◌, ◌≤◌, ◌+◌, ◌-◌, ◌/◌, ◌%◌, ◌^◌, ◌++◌, ◌↔◌, ℕ, List, IfNone, IfSome, slice_index, length, min, take, drop};
ghost use Rattle.wide_forms.specs.EncodingForm.{Utf16, IsHighSurrogate};
ghost use Rattle.wide_forms.specs.Items.{IsFirstFault, IsWellFormed, chars};
ghost use Rattle.wide_forms.specs.Utf8.{utf8};
ghost use Rattle.wide_forms.specs.Laws.Items.{IsCut};
ghost use Rattle.wide_bytes.specs.Bytes.{bom_of, unit_in, units_in};
ghost use Rattle.wide_transcode.specs.Encoded.{IsIncompleteTail};
ghost use Rattle.widestring_c.specs.Buffers.{Wrote, WroteIf};
ghost use Rattle.widestring_c.specs.Bytes.{IsWellFormedBy, IsWellFormedIn, bytes_end_in_fault, bytes_text, is_set, number_of_flag, number_of_bom, order_and_policy, order_named, text_in};
ghost use Rattle.widestring_c.specs.Policies.{policy_of};

use crate::byte_chunks::{CHUNK_UNITS, chunk_len, complete_len, len_before_high_surrogate};
use crate::policies::policy_of;
use crate::to_utf8::put_lossy_after;
use wide_bytes::{BoM, byte_order, fill_units, unit_in};
use wide_forms::Policy;
use wide_from_units::array_sizes::{LARGE, SPARE};
use wide_repair::ends_in_fault;
use wide_unit::valid_len;

// Returns the byte order with this number, or `None` if there is none.
pub(crate) fn order_named(number: u32) -> Option<BoM>
    ensures { result ≡ order_named number }
{
    match number {
        0 => Some(BoM::Little),
        1 => Some(BoM::Big),
        _ => None,
    }
}

// Converts a number to a flag: 0 is false, any other number is true.
pub(crate) fn is_set(flag: u32) -> bool
    ensures { result ≡ is_set flag }
{
    flag != 0
}

// Converts the units in bytes to UTF-8, chunk by chunk, at the start of `text`, and replaces ill-formed units by the
// policy. `after_fault` says whether the unit before the bytes is ill-formed. `units`, `spare` and `chunk` are scratch
// arrays.
fn put_bytes_by(
    order: BoM,
    bytes: &[u8],
    policy: Policy,
    after_fault: bool,
    text: &mut [u8],
    units: &mut [u16],
    spare: &mut [u16],
    chunk: &mut [u8],
) -> usize
    requires units { 1024 ≤ length units.old }
    requires spare { 2 ≤ length spare.old }
    requires chunk { 64 ≤ length chunk.old }
    ensures len { result ≡ min (length (bytes_text order policy after_fault bytes.now)) (2 ^ 64 - 1) }
    ensures text { result ≤ length text.old → take result text.new ≡ bytes_text order policy after_fault bytes.now }
    ensures beyond { drop result text.new ≡ drop result text.old }
{
    let mut at = 0;
    let mut rest = bytes;
    let mut after = after_fault;
    'chunks: while rest.len() >= 2 {
        let (prefix, beyond) = rest.split_at(chunk_len(order, rest));
        fill_units(order, prefix, units);
        let read = &units[..prefix.len() / 2];
        at = put_lossy_after(read, policy, after, text, at, spare, chunk);
        after = ends_in_fault(read, after);
        rest = beyond;
    }
    at
}

// Converts UTF-16 in bytes to UTF-8 at the start of `text`, and replaces ill-formed units by the policy, through arrays
// on the stack.
fn put_bytes(order: BoM, bytes: &[u8], policy: Policy, after_fault: bool, text: &mut [u8]) -> usize
    ensures { Wrote (bytes_text order policy after_fault bytes.now) text.old result text.new }
{
    put_bytes_by(
        order,
        bytes,
        policy,
        after_fault,
        text,
        &mut [0; CHUNK_UNITS],
        &mut [0; SPARE],
        &mut [0; LARGE],
    )
}

// Returns how many units precede the first fault, or how many whole units there are if there is no fault. `units` is a
// scratch array.
fn valid_units_len(order: BoM, bytes: &[u8], units: &mut [u16]) -> usize
    requires { 1024 ≤ length units.old }
    ensures well_formed { (result ≡ length bytes.now / 2) ↔ IsWellFormed Utf16 (units_in order bytes.now) }
    ensures fault { result < length bytes.now / 2 → (item unit : ℕ) × IsFirstFault Utf16 (units_in order bytes.now) result item unit }
    ensures within { result ≤ length bytes.now / 2 }
{
    let mut passed = 0;
    let mut rest = bytes;
    'chunks: while rest.len() >= 2 {
        let (prefix, beyond) = rest.split_at(chunk_len(order, rest));
        fill_units(order, prefix, units);
        let read = &units[..prefix.len() / 2];
        let len = valid_len(read);
        passed += len;
        if len < read.len() {
            return passed;
        }
        rest = beyond;
    }
    passed
}

// Converts bytes of well-formed UTF-16 to UTF-8 at the start of `text`, and returns the length of the result in bytes.
// Returns `None` if half a unit is left or the units are ill-formed.
fn put_valid_bytes(order: BoM, bytes: &[u8], text: &mut [u8]) -> Option<usize>
    ensures { WroteIf (IsWellFormedIn order bytes.now) (text_in order bytes.now) text.old result text.new }
{
    if bytes.len() % 2 == 0
        && valid_units_len(order, bytes, &mut [0; CHUNK_UNITS]) == bytes.len() / 2
    {
        // In well-formed units there is nothing for a policy to replace.
        Some(put_bytes(order, bytes, Policy::Each, false, text))
    } else {
        None
    }
}

// Returns whether the last whole unit is ill-formed, or `after_fault` if there are no whole units. It reads only the
// last one or two units.
fn bytes_end_in_fault(order: BoM, bytes: &[u8], after_fault: bool) -> bool
    ensures { result ≡ bytes_end_in_fault order after_fault bytes.now }
{
    if bytes.len() < 2 {
        return after_fault;
    }
    // The last whole unit, and the one before it if that is a high surrogate.
    let (_, last) = bytes.split_at(len_before_high_surrogate(
        order,
        bytes,
        bytes.len() / 2 * 2 - 2,
    ));
    let mut units = [0; 2];
    fill_units(order, last, &mut units);
    ends_in_fault(&units[..last.len() / 2], after_fault)
}

/// Returns the byte order of the BOM at the start (Unicode Standard, section 23.8): 0 for little endian, 1 for big
/// endian, 2 if there is no BOM. The caller drops the two bytes of the BOM: they do not belong to the text.
#[unsafe(no_mangle)]
pub extern "C" fn wide_utf16_bytes_order(bytes: &[u8]) -> u32
    ensures { result ≡ number_of_bom (bom_of bytes.now) }
{
    match byte_order(bytes) {
        Some(BoM::Little) => 0,
        Some(BoM::Big) => 1,
        None => 2,
    }
}

/// Returns how many bytes at the start are whole units of UTF-16 (Unicode Standard, D96 and D97) whose meaning no later
/// bytes can change: all whole units, except a last high surrogate. The order is 0 for little endian and 1 for big
/// endian. For any other number it returns 0, so that a caller who continues from there stays within the bytes.
#[unsafe(no_mangle)]
pub extern "C" fn wide_utf16_bytes_complete(bytes: &[u8], order: u32) -> usize
    ensures within { result ≤ length bytes.now }
    ensures even { result % 2 ≡ 0 }
    ensures rest { IfSome (order_named order) (λ o. IsIncompleteTail o (drop result bytes.now)) }
    ensures cut { IfSome (order_named order) (λ o. (more : List ℕ) → IsCut Utf16 (units_in o (take result bytes.now)) (units_in o (drop result bytes.now ++ more))) }
    ensures other { IfNone (order_named order) (result ≡ 0) }
{
    match order_named(order) {
        Some(order) => complete_len(order, bytes),
        None => 0,
    }
}

/// Converts the whole units of UTF-16 in bytes (Unicode Standard, D96 and D97) to UTF-8, and replaces ill-formed units
/// by the policy, whose number `widestring.h` defines. An odd last byte is ignored. The order is 0 for little endian and 1 for big endian. `after_fault` is 0 if the unit before
/// the bytes is well formed or there is none, and another number if it is ill-formed.
///
/// Returns the length of the result in bytes. If `text` is at least that long, the result is at its start, and the
/// bytes after the result are unchanged. For any other order or policy it returns `usize::MAX` and leaves `text`
/// unchanged.
#[unsafe(no_mangle)]
pub extern "C" fn wide_utf16_bytes_to_utf8_lossy_with(
    bytes: &[u8],
    order: u32,
    policy: u32,
    after_fault: u32,
    text: &mut [u8],
) -> usize
    ensures len { IfSome (order_and_policy order policy) (λ by. result ≡ length (bytes_text by.0 by.1 (is_set after_fault) bytes.now)) }
    ensures text { IfSome (order_and_policy order policy) (λ by. result ≤ length text.old → take result text.new ≡ bytes_text by.0 by.1 (is_set after_fault) bytes.now) }
    ensures no_fault { IfSome (order_and_policy order policy) (λ by. result < 2 ^ 64 - 1) }
    ensures other { IfNone (order_and_policy order policy) (result ≡ 2 ^ 64 - 1) }
    ensures unchanged { IfNone (order_and_policy order policy) (text.new ≡ text.old) }
    ensures beyond { drop result text.new ≡ drop result text.old }
{
    match (order_named(order), policy_of(policy)) {
        (Some(order), Some(policy)) => put_bytes(order, bytes, policy, is_set(after_fault), text),
        _ => usize::MAX,
    }
}

/// Returns 1 if the last whole unit is ill-formed, and 0 if it is not. If there are no whole units, it returns 0 if
/// `after_fault` is 0, and 1 otherwise. `after_fault` is 0 if the unit before the bytes is well formed or there is
/// none, and another number if it is ill-formed. If the order is neither 0 nor 1, it returns 0.
#[unsafe(no_mangle)]
pub extern "C" fn wide_utf16_bytes_end_in_fault(bytes: &[u8], order: u32, after_fault: u32) -> u32
    ensures last { IfSome (order_named order) (λ o. result ≡ number_of_flag (bytes_end_in_fault o (is_set after_fault) bytes.now)) }
    ensures other { IfNone (order_named order) (result ≡ 0) }
{
    match order_named(order) {
        Some(order) => u32::from(bytes_end_in_fault(order, bytes, is_set(after_fault))),
        None => 0,
    }
}

/// Converts bytes of well-formed UTF-16 (Unicode Standard, D91, D96 and D97) to UTF-8. Returns the length of the result
/// in bytes. If `text` is at least that long, the result is at its start, and the bytes after the result are unchanged.
/// If half a unit is left, the units are ill-formed, or the order is neither 0 nor 1, it returns `usize::MAX` and
/// leaves `text` unchanged.
#[unsafe(no_mangle)]
pub extern "C" fn wide_utf16_bytes_to_utf8(bytes: &[u8], order: u32, text: &mut [u8]) -> usize
    ensures len { IfSome (order_named order) (λ o. IsWellFormedIn o bytes.now → result ≡ length (text_in o bytes.now)) }
    ensures text { IfSome (order_named order) (λ o. IsWellFormedIn o bytes.now → result ≤ length text.old → take result text.new ≡ text_in o bytes.now) }
    ensures no_fault { IsWellFormedBy order bytes.now → result < 2 ^ 64 - 1 }
    ensures fault { (IsWellFormedBy order bytes.now → ⊥) → result ≡ 2 ^ 64 - 1 }
    ensures unchanged { (IsWellFormedBy order bytes.now → ⊥) → text.new ≡ text.old }
    ensures beyond { drop result text.new ≡ drop result text.old }
{
    match order_named(order) {
        Some(order) => put_valid_bytes(order, bytes, text).unwrap_or(usize::MAX),
        None => usize::MAX,
    }
}

/// Returns the offset, in units, of the first ill-formed unit among the whole units of UTF-16 in bytes (Unicode
/// Standard, D91, D96 and D97), or the number of whole units if there is none. If the order is neither 0 nor 1, it
/// returns `usize::MAX`.
#[unsafe(no_mangle)]
pub extern "C" fn wide_utf16_bytes_first_fault(bytes: &[u8], order: u32) -> usize
    ensures well_formed { IfSome (order_named order) (λ o. (result ≡ length bytes.now / 2) ↔ IsWellFormed Utf16 (units_in o bytes.now)) }
    ensures fault { IfSome (order_named order) (λ o. result < length bytes.now / 2 → (item unit : ℕ) × IsFirstFault Utf16 (units_in o bytes.now) result item unit) }
    ensures within { IfSome (order_named order) (λ o. result ≤ length bytes.now / 2) }
    ensures other { IfNone (order_named order) (result ≡ 2 ^ 64 - 1) }
{
    match order_named(order) {
        Some(order) => valid_units_len(order, bytes, &mut [0; CHUNK_UNITS]),
        None => usize::MAX,
    }
}
