//! Converts UTF-16 or UTF-32, well formed or as lossy text under a policy, to a string in UTF-8 (Unicode Standard,
//! section 3.9, D92). It encodes chunks into an array on the stack by the vectorized conversion, and appends each chunk
//! to the string.

ghost use Rattle.std.specs.Prelude.{◌≡◌, ℕ, List, ◌++◌, ◌+◌, ◌-◌, ◌^◌, ◌<◌, ◌≤◌, [], map, min, length, IsOk, IfOk, OnErr, OnOk, string_bytes, vec_capacity, vec_len};
ghost use Rattle.wide_forms.specs.Items.{IsWellFormed, chars, items};
ghost use Rattle.wide_forms.specs.Lossy.{lossy_by};
ghost use Rattle.wide_forms.specs.Utf8.{utf8};
ghost use Rattle.wide_utf16_to_utf8.specs.Encoded.{AppendsPrefix};

use crate::array_sizes::{LARGE, MIDDLE, MIDDLE_UNITS, SMALL, SMALL_UNITS, SPARE};
use crate::lossy::lossy_prefix;
use crate::to_utf8::to_utf8_prefix;
use crate::utf8_length::utf8_len;
use std::alloc::{AllocError, Allocator};
use wide_forms::{Policy, Progress};
use wide_unit::{AnyUnits, Unit};

// Appends the text, chunk by chunk.
fn push_chunks<C: Unit, A: Allocator>(
    text: &mut Vec<u8, A>,
    units: &[C],
    chunk: &mut [u8],
) -> Result<(), AllocError>
    requires well_formed { IsWellFormed C.form (map C.number units.now) }
    requires space { 64 ≤ length chunk.old }
    ensures text { OnOk result (text.new.items ≡ text.old.items ++ utf8 (chars C.form (map C.number units.now))) }
    ensures succeeds { units.now ≡ [] → IsOk result }
    ensures full { OnErr result (vec_capacity text.old < vec_len text.old + length (utf8 (chars C.form (map C.number units.now)))) }
    ensures prefix { AppendsPrefix text.old.items text.new.items (utf8 (chars C.form (map C.number units.now))) }
{
    let mut rest = units;
    'chunks: while !rest.is_empty() {
        let Progress { read, written } = to_utf8_prefix(rest, chunk);
        text.extend_from_slice(&chunk[..written])?;
        rest = &rest[read..];
    }
    Ok(())
}

/// Appends the text of well-formed units in UTF-8 (Unicode Standard, D92).
///
/// # Requires
///
/// The units are well formed.
///
/// # Errors
///
/// [`AllocError`] if the allocation fails. A prefix of the text may have been appended. It never fails if the spare
/// capacity suffices.
pub fn push_utf8<C: Unit, A: Allocator>(
    text: &mut Vec<u8, A>,
    units: &[C],
) -> Result<(), AllocError>
    requires { IsWellFormed C.form (map C.number units.now) }
    ensures text { OnOk result (text.new.items ≡ text.old.items ++ utf8 (chars C.form (map C.number units.now))) }
    ensures succeeds { units.now ≡ [] → IsOk result }
    ensures full { OnErr result (vec_capacity text.old < vec_len text.old + length (utf8 (chars C.form (map C.number units.now)))) }
    ensures prefix { AppendsPrefix text.old.items text.new.items (utf8 (chars C.form (map C.number units.now))) }
{
    if units.len() <= SMALL_UNITS {
        push_chunks(text, units, &mut [0; SMALL])
    } else if units.len() <= MIDDLE_UNITS {
        push_chunks(text, units, &mut [0; MIDDLE])
    } else {
        push_chunks(text, units, &mut [0; LARGE])
    }
}

/// Returns the text of well-formed units as a string in UTF-8 (Unicode Standard, D92). It allocates once, for as many
/// bytes as the text has, and not at all if there are no units.
///
/// # Requires
///
/// The units are well formed.
///
/// # Errors
///
/// [`AllocError`] if the allocation fails. It never fails if there are no units.
pub fn utf8_string<C: Unit, A: Allocator>(alloc: A, units: &[C]) -> Result<String<A>, AllocError>
    requires { IsWellFormed C.form (map C.number units.now) }
    ensures text { IfOk result (λ text. string_bytes text ≡ utf8 (chars C.form (map C.number units.now))) }
    ensures succeeds { units.now ≡ [] → IsOk result }
{
    let mut text = Vec::with_capacity(alloc, utf8_len(units))?;
    push_utf8(&mut text, units)?;
    // The bytes were written as UTF-8, so they need no check.
    Ok(unsafe { String::from_utf8_unchecked(text) })
}

// Returns the length of the lossy text of units in UTF-8 bytes, or `usize::MAX` if it is greater.
fn lossy_len<C: Unit>(units: &[C], policy: Policy, spare: &mut [C]) -> usize
    requires { 2 ≤ length spare.old }
    ensures { result ≡ min (length (utf8 (lossy_by policy (items C.form (map C.number units.now))))) (2 ^ 64 - 1) }
{
    let mut len = 0usize;
    let mut rest = units;
    let mut after_fault = false;
    'prefixes: while !rest.is_empty() {
        let prefix = lossy_prefix(rest, policy, after_fault, spare);
        len = len.saturating_add(utf8_len(prefix.text));
        after_fault = prefix.after_fault;
        rest = prefix.rest;
    }
    len
}

// Appends the lossy text of units in UTF-8.
fn push_lossy<C: Unit, A: Allocator>(
    text: &mut Vec<u8, A>,
    units: &[C],
    policy: Policy,
    spare: &mut [C],
) -> Result<(), AllocError>
    requires { 2 ≤ length spare.old }
    ensures { OnOk result (text.new.items ≡ text.old.items ++ utf8 (lossy_by policy (items C.form (map C.number units.now)))) }
{
    let mut rest = units;
    let mut after_fault = false;
    'prefixes: while !rest.is_empty() {
        let prefix = lossy_prefix(rest, policy, after_fault, spare);
        push_utf8(text, prefix.text)?;
        after_fault = prefix.after_fault;
        rest = prefix.rest;
    }
    Ok(())
}

// Returns the lossy text of units as a string in UTF-8. Units that are repaired are written into `spare`.
fn lossy_string<C: Unit, A: Allocator>(
    alloc: A,
    units: &[C],
    policy: Policy,
    spare: &mut [C],
) -> Result<String<A>, AllocError>
    requires { 2 ≤ length spare.old }
    ensures { IfOk result (λ text. string_bytes text ≡ utf8 (lossy_by policy (items C.form (map C.number units.now)))) }
{
    let len = lossy_len(units, policy, spare);
    let mut text = Vec::with_capacity(alloc, len)?;
    push_lossy(&mut text, units, policy, spare)?;
    // The bytes were written as UTF-8, so they need no check.
    Ok(unsafe { String::from_utf8_unchecked(text) })
}

/// Returns the lossy text of units under a policy as a string in UTF-8 (Unicode Standard, D92, and section 3.9, "U+FFFD
/// Substitution of Maximal Subparts"). It allocates once, for as many bytes as the text has.
///
/// # Errors
///
/// [`AllocError`] if the allocation fails.
pub fn lossy_utf8_string<C: Unit, A: Allocator>(
    alloc: A,
    units: &[C],
    policy: Policy,
) -> Result<String<A>, AllocError>
    ensures { IfOk result (λ text. string_bytes text ≡ utf8 (lossy_by policy (items C.form (map C.number units.now)))) }
{
    match C::as_any(units) {
        AnyUnits::U16(units) => lossy_string(alloc, units, policy, &mut [0; SPARE]),
        AnyUnits::U32(units) => lossy_string(alloc, units, policy, &mut [0; SPARE]),
    }
}
