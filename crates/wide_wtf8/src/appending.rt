//! Appends WTF-8 to WTF-8, and joins the halves of a pair between them.
ghost use Rattle.std.specs.Prelude.{◌≡◌, ℕ, List, [], ◌∷◌, ◌++◌, ◌+◌, ◌<◌, ◌≤◌, length, take, drop, OnOk, OnErr, IfSome, IfNone, vec_capacity, vec_len};
ghost use Rattle.wide_forms.specs.EncodingForm.{Utf16, IsHighSurrogate, IsLowSurrogate};
ghost use Rattle.wide_schemes.specs.PointRuns.{BeginsWithHalf, StartsWithNoHalf};
ghost use Rattle.wide_schemes.specs.Wtf8.{wtf8};
ghost use Rattle.wide_wtf8.specs.Faults.{IsWtf8Of};
ghost use Rattle.wide_wtf8.specs.Halves.{AreApart, AreHalves};

use crate::length::is_pair;
use std::alloc::Allocator;
use wide_error::OutOfMemory;
use wide_schemes::put_wtf8;

// Returns the surrogate that some bytes begin with: ED, a byte from A0 on, and another trailing byte.
fn first_half(bytes: &[u8]) -> Option<u16>
    ensures some { IfSome result (λ half. BeginsWithHalf bytes.now half) }
    ensures none { IfNone result (StartsWithNoHalf bytes.now) }
{
    if bytes.len() < 3 {
        return None;
    }
    if bytes[0] != 0xed {
        return None;
    }
    if bytes[1] / 0x20 != 5 {
        return None;
    }
    if bytes[2] / 0x40 != 2 {
        return None;
    }
    Some(0xd000 + u16::from(bytes[1]) % 0x40 * 0x40 + u16::from(bytes[2]) % 0x40)
}

// Returns the halves of the pair that is split between two texts, if there is one.
fn halves_between(text: &[u8], more: &[u8]) -> Option<(u16, u16)>
    ensures some { IfSome result (λ halves. AreHalves text.now more.now halves.0 halves.1) }
    ensures none { IfNone result (AreApart text.now more.now) }
{
    if text.len() < 3 {
        return None;
    }
    let Some(high) = first_half(&text[text.len() - 3..]) else {
        return None;
    };
    let Some(low) = first_half(more) else {
        return None;
    };
    if is_pair(high, low) {
        Some((high, low))
    } else {
        None
    }
}

// Overwrites four bytes by those of a pair.
fn put_pair(bytes: &mut [u8], at: usize, high: u16, low: u16)
    requires space { at + 4 ≤ length bytes.old }
    requires high { IsHighSurrogate Utf16 high }
    requires low { IsLowSurrogate Utf16 low }
    ensures { bytes.new ≡ take at bytes.old ++ (wtf8 (high ∷ low ∷ []) ++ drop (at + 4) bytes.old) }
{
    let mut pair = [0u8; 10];
    let _len = put_wtf8(&[high, low], &mut pair);
    bytes[at..at + 4].copy_from_slice(&pair[..4]);
}

/// Appends WTF-8 to a text in WTF-8, so that the text is that of the concatenated units: if the text ends in the first
/// half of a surrogate pair, and `more` begins with the second half, the pair gets the four bytes of its character. If
/// either is not WTF-8, bytes are appended all the same, and the result is unspecified.
///
/// # Errors
///
/// [`OutOfMemory`] if the allocation fails; the text is unchanged. It never fails if the spare capacity suffices.
///
/// # Example
///
/// ```
/// use widestring::wtf8::{append_wtf8, to_wtf8};
///
/// let mut text = to_wtf8(rt.alloc(), &[0x41, 0xd83d])?;
/// let more = to_wtf8(rt.alloc(), &[0xde00, 0x42])?;
/// append_wtf8(&mut text, more.as_slice())?;
/// assert!(rt; text.as_slice() == "A😀B".as_bytes());
/// ```
pub fn append_wtf8<A: Allocator>(text: &mut Vec<u8, A>, more: &[u8]) -> Result<(), OutOfMemory>
    ensures text { OnOk result ((us vs : List ℕ) → IsWtf8Of us text.old.items → IsWtf8Of vs more.now → IsWtf8Of (us ++ vs) text.new.items) }
    ensures failed { OnErr result (text.new.items ≡ text.old.items) }
    ensures full { OnErr result (vec_capacity text.old < vec_len text.old + length more.now) }
{
    let Some((high, low)) = halves_between(text.as_slice(), more) else {
        text.extend_from_slice(more)?;
        return Ok(());
    };
    let at = text.len() - 3;
    // The third byte of the second half makes space for the pair's fourth byte.
    text.extend_from_slice(&more[2..])?;
    put_pair(text.as_mut_slice(), at, high, low);
    Ok(())
}
