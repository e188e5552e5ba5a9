//! Encodes units as WTF-8, part by part, so that no part ends within a surrogate pair.
ghost use Rattle.std.specs.Prelude.{◌≡◌, ◌++◌, ◌<◌, ◌≤◌, [], length, take, drop, IsOk, IfOk, OnOk, IfSome, IfNone};
ghost use Rattle.wide_schemes.specs.Wtf8.{wtf8};

use crate::length::{is_pair, wtf8_len};
use std::alloc::Allocator;
use wide_error::OutOfMemory;
use wide_forms::Progress;
use wide_from_units::array_sizes::{LARGE, MIDDLE, MIDDLE_UNITS, SMALL, SMALL_UNITS};
use wide_schemes::put_wtf8;

// The size in bytes of the array in which a part is encoded that may not fit into less space.
const PART: usize = 64;

// Returns how many units at the beginning are a part: at most `most`, and at least one if there is any.
fn part_len(units: &[u16], most: usize) -> usize
    requires { 2 ≤ most }
    ensures most { result ≤ most }
    ensures within { result ≤ length units.now }
    ensures some { 0 < length units.now → 0 < result }
    ensures cut { wtf8 units.now ≡ wtf8 (take result units.now) ++ wtf8 (drop result units.now) }
{
    if units.len() <= most {
        return units.len();
    }
    if is_pair(units[most - 1], units[most]) {
        return most - 1;
    }
    most
}

// Encodes a part of the units at the beginning of `out`: as many as certainly fit, at three bytes for each. The bytes
// after those written may be overwritten.
fn put_prefix(units: &[u16], out: &mut [u8]) -> Progress
    requires { 10 ≤ length out.old }
    ensures read { result.read ≤ length units.now }
    ensures some { 0 < length units.now → 0 < result.read }
    ensures written { result.written ≤ length out.new }
    ensures text { wtf8 units.now ≡ take result.written out.new ++ wtf8 (drop result.read units.now) }
{
    // `put_wtf8` may overwrite four bytes after the text.
    let read = part_len(units, (out.len() - 4) / 3);
    Progress {
        read,
        written: put_wtf8(&units[..read], out),
    }
}

// Encodes a part of the units at the beginning of `out`, or returns `None` if `out` has no space for it.
fn put_part(units: &[u16], out: &mut [u8]) -> Option<Progress>
    ensures read { IfSome result (λ step. step.read ≤ length units.now) }
    ensures some { IfSome result (λ step. 0 < length units.now → 0 < step.read) }
    ensures written { IfSome result (λ step. step.written ≤ length out.new) }
    ensures text { IfSome result (λ step. wtf8 units.now ≡ take step.written out.new ++ wtf8 (drop step.read units.now)) }
    ensures none { IfNone result (length out.old < length (wtf8 units.now)) }
{
    if out.len() >= PART {
        return Some(put_prefix(units, out));
    }
    let mut part = [0u8; PART];
    let step = put_prefix(units, &mut part);
    if step.written > out.len() {
        return None;
    }
    out[..step.written].copy_from_slice(&part[..step.written]);
    Some(step)
}

/// Writes units as WTF-8 at the beginning of `out`, and returns the length of the text in bytes, or `None` if `out` is
/// shorter than the text. Well-formed parts are UTF-8 (Unicode Standard, D92), and a surrogate that belongs to no pair
/// has the three bytes of its code point. Bytes of `out` after the text may be overwritten, and any byte if `None` is
/// returned.
///
/// # Example
///
/// ```
/// use widestring::wtf8::write_wtf8;
///
/// let mut out = [0; 4];
/// assert!(rt; write_wtf8(&[0x41, 0xd83d], &mut out) == Some(4));
/// assert!(rt; out.as_slice() == [0x41, 0xed, 0xa0, 0xbd].as_slice());
/// assert!(rt; write_wtf8(&[0xd83d, 0xd83d], &mut out).is_none());
/// ```
pub fn write_wtf8(units: &[u16], out: &mut [u8]) -> Option<usize>
    ensures text { IfSome result (λ len. take len out.new ≡ wtf8 units.now) }
    ensures len { IfSome result (λ len. len ≡ length (wtf8 units.now)) }
    ensures none { IfNone result (length out.old < length (wtf8 units.now)) }
{
    let mut read = 0;
    let mut written = 0;
    'parts: while read < units.len() {
        let Some(step) = put_part(&units[read..], &mut out[written..]) else {
            return None;
        };
        read += step.read;
        written += step.written;
    }
    Some(written)
}

// Appends the text of units, part by part.
fn push_parts<A: Allocator>(
    text: &mut Vec<u8, A>,
    units: &[u16],
    part: &mut [u8],
) -> Result<(), OutOfMemory>
    requires { 10 ≤ length part.old }
    ensures text { OnOk result (text.new.items ≡ text.old.items ++ wtf8 units.now) }
    ensures succeeds { units.now ≡ [] → IsOk result }
{
    let mut rest = units;
    'parts: while !rest.is_empty() {
        let Progress { read, written } = put_prefix(rest, part);
        text.extend_from_slice(&part[..written])?;
        rest = &rest[read..];
    }
    Ok(())
}

// Appends the text of units.
fn push_wtf8<A: Allocator>(text: &mut Vec<u8, A>, units: &[u16]) -> Result<(), OutOfMemory>
    ensures text { OnOk result (text.new.items ≡ text.old.items ++ wtf8 units.now) }
    ensures succeeds { units.now ≡ [] → IsOk result }
{
    if units.len() <= SMALL_UNITS {
        push_parts(text, units, &mut [0; SMALL])
    } else if units.len() <= MIDDLE_UNITS {
        push_parts(text, units, &mut [0; MIDDLE])
    } else {
        push_parts(text, units, &mut [0; LARGE])
    }
}

/// Returns the text of units in WTF-8. Well-formed parts are UTF-8 (Unicode Standard, D92), and a surrogate that
/// belongs to no pair has the three bytes of its code point. It allocates once, for just as many bytes as the text has,
/// and not at all if there are no units.
///
/// # Errors
///
/// [`OutOfMemory`] if the allocation fails. It never fails if there are no units.
///
/// # Example
///
/// ```
/// use widestring::wtf8::to_wtf8;
///
/// let text = to_wtf8(rt.alloc(), &[0x41, 0xd83d, 0xde00, 0xd83d])?;
/// assert!(rt; text.as_slice() == [0x41, 0xf0, 0x9f, 0x98, 0x80, 0xed, 0xa0, 0xbd].as_slice());
/// ```
pub fn to_wtf8<A: Allocator>(alloc: A, units: &[u16]) -> Result<Vec<u8, A>, OutOfMemory>
    ensures text { IfOk result (λ text. text.items ≡ wtf8 units.now) }
    ensures succeeds { units.now ≡ [] → IsOk result }
{
    let mut text = Vec::with_capacity(alloc, wtf8_len(units))?;
    push_wtf8(&mut text, units)?;
    Ok(text)
}
