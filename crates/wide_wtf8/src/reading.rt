//! Decodes WTF-8 to its units, in a slice of the caller or in a new vector.
ghost use Rattle.std.specs.Prelude.{◌≡◌, ℕ, List, [], ◌++◌, ◌-◌, ◌+◌, ◌<◌, ◌≤◌, length, take, drop, IsOk, IfOk, IfErr, OnOk, IfSome, IfNone};
ghost use Rattle.wide_schemes.specs.Wtf8.{IsWtf8, wtf8};
ghost use Rattle.wide_wtf8.specs.Faults.{AreUnitsAfter, IsErrorOf, IsFirstFaultAfter, IsFirstWtf8Fault, IsWtf8Of};

use crate::decoding::{Next, SPACE, decode_part, decode_window, units_len_after, wtf8_units_len};
use crate::fault::{FromWtf8Error, Wtf8Fault};
use std::alloc::Allocator;
use wide_error::OutOfMemory;
use wide_ustring::U16String;

// Writes the units of bytes at the beginning of `units`, which has space for at most one, and returns how many these
// are, or `None` if the space does not suffice. `after_high` says whether the first half of a pair precedes the bytes.
fn write_rest(after_high: bool, bytes: &[u8], units: &mut [u16]) -> Result<Option<usize>, Wtf8Fault>
    requires { length units.old < 2 }
    ensures text { IfOk result (λ written. IfSome written (λ len. AreUnitsAfter after_high bytes.now (take len units.new))) }
    ensures len { IfOk result (λ written. IfSome written (λ len. len ≤ length units.new)) }
    ensures none { IfOk result (λ written. IfNone written ((us : List ℕ) × AreUnitsAfter after_high bytes.now us × (length units.old < length us))) }
    ensures fault { IfErr result (λ fault. IsFirstFaultAfter after_high bytes.now fault.index fault.len) }
{
    let mut few = [0u16; 4];
    let part = decode_part(after_high, bytes, &mut few);
    match part.next {
        Next::End => {
            if part.written > units.len() {
                return Ok(None);
            }
            units[..part.written].copy_from_slice(&few[..part.written]);
            Ok(Some(part.written))
        }
        Next::More => match units_len_after(part.after_high, &bytes[part.read..]) {
            Ok(_len) => Ok(None),
            Err(fault) => Err(Wtf8Fault {
                index: part.read + fault.index,
                len: fault.len,
            }),
        },
        Next::Fault(len) => Err(Wtf8Fault {
            index: part.read,
            len,
        }),
    }
}

/// Writes the units of a text in WTF-8 at the beginning of `units`, and returns how many these are, or `None` if
/// `units` is shorter. Any unit after those written may be overwritten, and any unit if nothing or an error is
/// returned. It takes constant memory.
///
/// # Errors
///
/// [`Wtf8Fault`], the first fault, if the bytes are not WTF-8, even if `units` is too short.
///
/// # Example
///
/// ```
/// use widestring::wtf8::write_from_wtf8;
///
/// let mut units = [0; 2];
/// assert!(rt; write_from_wtf8(&[0x41, 0xed, 0xa0, 0xbd], &mut units) == Ok(Some(2)));
/// assert!(rt; units.as_slice() == [0x41, 0xd83d].as_slice());
/// assert!(rt; write_from_wtf8("abc".as_bytes(), &mut units) == Ok(None));
/// ```
pub fn write_from_wtf8(bytes: &[u8], units: &mut [u16]) -> Result<Option<usize>, Wtf8Fault>
    ensures text { IfOk result (λ written. IfSome written (λ len. IsWtf8Of (take len units.new) bytes.now)) }
    ensures len { IfOk result (λ written. IfSome written (λ len. len ≤ length units.new)) }
    ensures none { IfOk result (λ written. IfNone written ((us : List ℕ) × IsWtf8Of us bytes.now × (length units.old < length us))) }
    ensures fault { IfErr result (λ fault. IsFirstWtf8Fault bytes.now fault.index fault.len) }
{
    let part = decode_part(false, bytes, units);
    match part.next {
        Next::End => Ok(Some(part.written)),
        Next::More => {
            match write_rest(
                part.after_high,
                &bytes[part.read..],
                &mut units[part.written..],
            ) {
                Ok(Some(len)) => Ok(Some(part.written + len)),
                Ok(None) => Ok(None),
                Err(fault) => Err(Wtf8Fault {
                    index: part.read + fault.index,
                    len: fault.len,
                }),
            }
        }
        Next::Fault(len) => Err(Wtf8Fault {
            index: part.read,
            len,
        }),
    }
}

// Appends the units of bytes that are WTF-8.
fn push_units<A: Allocator>(units: &mut Vec<u16, A>, bytes: &[u8]) -> Result<(), OutOfMemory>
    requires { IsWtf8 bytes.now }
    ensures units { OnOk result ((us : List ℕ) × IsWtf8Of us bytes.now × (units.new.items ≡ units.old.items ++ us)) }
    ensures succeeds { bytes.now ≡ [] → IsOk result }
{
    let mut chunk = [0u16; SPACE];
    let mut after_high = false;
    let mut read = 0;
    'parts: loop {
        let part = decode_window(after_high, &bytes[read..], &mut chunk);
        units.extend_from_slice(&chunk[..part.written])?;
        read += part.read;
        after_high = part.after_high;
        match part.next {
            Next::End => return Ok(()),
            Next::More => {}
            // WTF-8 has no fault.
            Next::Fault(_len) => unreachable!(),
        }
    }
}

/// Returns the units of a text in WTF-8, in a new string. It allocates once, for just as many units as the text has,
/// and not at all if the text is empty. It reads the bytes twice, the first time for the number of units.
///
/// # Errors
///
/// [`FromWtf8Error::Fault`] with the first fault if the bytes are not WTF-8, and [`FromWtf8Error::OutOfMemory`] if they
/// are and the allocation fails. It never fails if there are no bytes.
///
/// # Example
///
/// ```
/// use widestring::wtf8::from_wtf8;
///
/// let string = from_wtf8(rt.alloc(), &[0x41, 0xed, 0xa0, 0xbd])?;
/// assert!(rt; string.as_slice() == [0x41, 0xd83d].as_slice());
/// ```
pub fn from_wtf8<A: Allocator>(alloc: A, bytes: &[u8]) -> Result<U16String<A>, FromWtf8Error>
    ensures text { IfOk result (λ string. wtf8 string.units ≡ bytes.now) }
    ensures error { IfErr result (λ error. IsErrorOf bytes.now error) }
    ensures succeeds { bytes.now ≡ [] → IsOk result }
{
    let len = wtf8_units_len(bytes)?;
    let mut units = Vec::with_capacity(alloc, len)?;
    push_units(&mut units, bytes)?;
    Ok(U16String::from_vec(units))
}
