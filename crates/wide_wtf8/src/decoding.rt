//! Decodes WTF-8, part by part: its check, and how many units it has.
ghost use Rattle.std.specs.Prelude.{◌≡◌, ℕ, List, ◌+◌, ◌-◌, ◌≤◌, ◌↔◌, true, length, take, drop, IsOk, IfOk, IfErr};
ghost use Rattle.wide_schemes.specs.Wtf8.{IsWtf8};
ghost use Rattle.wide_schemes.specs.Layouts.{StopsBefore};
ghost use Rattle.wide_schemes.specs.declared.layout.Layout.TheVariants.{Wtf8};
ghost use Rattle.wide_wtf8.specs.Faults.{AreUnitsAfter, IsFirstFaultAfter, IsFirstWtf8Fault, IsWtf8Of};
ghost use Rattle.wide_wtf8.specs.Parts.{IsNext, IsNextOf, IsPart, next_within};

use crate::fault::Wtf8Fault;
use wide_schemes::{DecodeStop, decode_wtf8};

// How many bytes are decoded in one step, to units in an array on the stack. Each byte would be checked again and again
// if the bytes after these were passed on, too.
const WINDOW: usize = 512;

// The size of that array in units. Bytes have no more units than that, and decoding may need space for two more.
pub(crate) const SPACE: usize = WINDOW + 2;

// What follows a part of the bytes.
#[derive(Clone, Copy)]
pub(crate) enum Next {
    // No byte.
    End,
    // More bytes, perhaps.
    More,
    // A fault of so many bytes.
    Fault(usize),
}

// A part that was decoded.
#[derive(Clone, Copy)]
pub(crate) struct Part {
    // How many bytes were read.
    pub(crate) read: usize,
    // How many units were written.
    pub(crate) written: usize,
    // Whether the last code point is the first half of a pair.
    pub(crate) after_high: bool,
    // What follows.
    pub(crate) next: Next,
}

// Returns what a stop of decoding means where no bytes follow.
fn next_of(stop: DecodeStop, after_high: bool, rest: &[u8], room: usize) -> Next
    requires { StopsBefore Wtf8 true after_high rest.now true room stop }
    ensures { IsNext after_high rest.now room result }
{
    match stop {
        DecodeStop::AtEnd => Next::End,
        DecodeStop::NoSpace => Next::More,
        DecodeStop::Fault { unit: _, len } => Next::Fault(len),
        // At the end, bytes that are left have an item.
        DecodeStop::Incomplete => unreachable!(),
    }
}

// Decodes a part of the bytes, to units at the beginning of `units`. `after_high` says whether the first half of a pair
// precedes the bytes. The units after those written may be overwritten.
pub(crate) fn decode_part(after_high: bool, bytes: &[u8], units: &mut [u16]) -> Part
    ensures read { result.read ≤ length bytes.now }
    ensures written { result.written ≤ length units.new }
    ensures part { IsPart after_high bytes.now result.read (take result.written units.new) result.after_high }
    ensures next { IsNext result.after_high (drop result.read bytes.now) (length units.new - result.written) result.next }
{
    let step = decode_wtf8(true, after_high, bytes, true, units);
    let room = units.len() - step.written;
    Part {
        read: step.read,
        written: step.written,
        after_high: step.after_high,
        next: next_of(step.stop, step.after_high, &bytes[step.read..], room),
    }
}

// Returns what a stop of decoding means where more bytes follow.
fn next_within(stop: DecodeStop) -> Next
    ensures { result ≡ next_within stop }
{
    match stop {
        DecodeStop::Fault { unit: _, len } => Next::Fault(len),
        DecodeStop::AtEnd | DecodeStop::NoSpace | DecodeStop::Incomplete => Next::More,
    }
}

// Decodes the bytes before `end`, which others follow, to units at the beginning of `units`.
fn decode_before(after_high: bool, bytes: &[u8], end: usize, units: &mut [u16]) -> Part
    requires some { 4 ≤ end }
    requires within { end ≤ length bytes.now }
    requires space { end + 2 ≤ length units.old }
    ensures read { result.read ≤ length bytes.now }
    ensures written { result.written ≤ length units.new }
    ensures part { IsPart after_high bytes.now result.read (take result.written units.new) result.after_high }
    ensures next { IsNextOf result.after_high (drop result.read bytes.now) result.read result.next }
{
    let (window, _beyond) = bytes.split_at(end);
    let step = decode_wtf8(true, after_high, window, false, units);
    Part {
        read: step.read,
        written: step.written,
        after_high: step.after_high,
        next: next_within(step.stop),
    }
}

// Decodes a window of the bytes, to units at the beginning of `units`. `after_high` says whether the first half of a
// pair precedes the bytes. The units after those written may be overwritten.
pub(crate) fn decode_window(after_high: bool, bytes: &[u8], units: &mut [u16]) -> Part
    requires { 514 ≤ length units.old }
    ensures read { result.read ≤ length bytes.now }
    ensures written { result.written ≤ length units.new }
    ensures part { IsPart after_high bytes.now result.read (take result.written units.new) result.after_high }
    ensures next { IsNextOf result.after_high (drop result.read bytes.now) result.read result.next }
{
    if bytes.len() <= WINDOW {
        decode_part(after_high, bytes, units)
    } else {
        decode_before(after_high, bytes, WINDOW, units)
    }
}

// Returns how many units the bytes have, or their first fault. `after_high` says whether the first half of a pair
// precedes the bytes.
pub(crate) fn units_len_after(after_high: bool, bytes: &[u8]) -> Result<usize, Wtf8Fault>
    ensures len { IfOk result (λ len. (us : List ℕ) × AreUnitsAfter after_high bytes.now us × (len ≡ length us)) }
    ensures fault { IfErr result (λ fault. IsFirstFaultAfter after_high bytes.now fault.index fault.len) }
{
    let mut units = [0u16; SPACE];
    let mut after_high = after_high;
    let mut read = 0;
    let mut len = 0;
    'parts: loop {
        let part = decode_window(after_high, &bytes[read..], &mut units);
        read += part.read;
        len += part.written;
        after_high = part.after_high;
        match part.next {
            Next::End => return Ok(len),
            Next::More => {}
            Next::Fault(fault) => {
                return Err(Wtf8Fault {
                    index: read,
                    len: fault,
                });
            }
        }
    }
}

/// Returns how many units the text in WTF-8 has. It takes constant memory, and time in proportion to the length.
///
/// # Errors
///
/// [`Wtf8Fault`], the first fault, if the bytes are not WTF-8.
///
/// # Example
///
/// ```
/// use widestring::wtf8::wtf8_units_len;
///
/// assert!(rt; wtf8_units_len("Hi😀".as_bytes()) == Ok(4));
/// assert!(rt; wtf8_units_len(&[0x41, 0xed, 0xa0, 0xbd]) == Ok(2));
/// ```
pub fn wtf8_units_len(bytes: &[u8]) -> Result<usize, Wtf8Fault>
    ensures valid { IsOk result ↔ IsWtf8 bytes.now }
    ensures len { IfOk result (λ len. (us : List ℕ) × IsWtf8Of us bytes.now × (len ≡ length us)) }
    ensures fault { IfErr result (λ fault. IsFirstWtf8Fault bytes.now fault.index fault.len) }
{
    units_len_after(false, bytes)
}

/// Checks whether bytes are WTF-8: those of units of 16 bits, which may be ill-formed. So these are UTF-8 (Unicode
/// Standard, D92), with surrogates as three bytes each, but never the two halves of a pair, one after the other. It
/// takes constant memory, and time in proportion to the length.
///
/// # Errors
///
/// [`Wtf8Fault`], the first fault, if the bytes are not WTF-8.
///
/// # Example
///
/// ```
/// use widestring::wtf8::check_wtf8;
///
/// assert!(rt; check_wtf8(&[0x41, 0xed, 0xa0, 0xbd, 0x41]).is_ok());
/// assert!(rt; check_wtf8(&[0xed, 0xa0, 0xbd, 0xed, 0xb8, 0x80]).is_err());
/// assert!(rt; check_wtf8(&[0x41, 0xff]).is_err());
/// ```
pub fn check_wtf8(bytes: &[u8]) -> Result<(), Wtf8Fault>
    ensures valid { IsOk result ↔ IsWtf8 bytes.now }
    ensures fault { IfErr result (λ fault. IsFirstWtf8Fault bytes.now fault.index fault.len) }
{
    match wtf8_units_len(bytes) {
        Ok(_len) => Ok(()),
        Err(fault) => Err(fault),
    }
}
