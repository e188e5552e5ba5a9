//! Encodes a chunk of UTF-16 bytes as UTF-8, if more bytes may follow (Unicode Standard, section 3.9, D91 and D92).
//! Units that may still become part of a pair, or be dropped at the end, are left for the next chunk. The encoder is
//! vectorized.

ghost use Rattle.std.specs.Prelude.{◌≡◌, ◌+◌, ◌*◌, ◌%◌, ◌≤◌, ◌<◌, ◌∷◌, [], ℕ, None, Some, false, nat_eq, length, take, drop, unwrap_or};
ghost use Rattle.std.specs.List.{ends_with};
ghost use Rattle.wide_forms.specs.EncodingForm.{Utf16};
ghost use Rattle.wide_forms.specs.Items.{chars};
ghost use Rattle.wide_forms.specs.declared.policy.Policy.TheVariants.{Each};
ghost use Rattle.wide_bytes.specs.Bytes.{units_in};
ghost use Rattle.wide_utf16_to_utf8.specs.Encoded.{EncodedUnits};
ghost use Rattle.wide_transcode.specs.Encoded.{HoldsAt, IsPendingOr};
ghost use Rattle.wide_transcode.specs.Lossied.{IsText, Lossied};

use crate::lossy::encode_lossy;
use wide_bytes::{BoM, unit_in};
use wide_forms::Policy;
use wide_utf16_to_utf8::utf16_to_utf8_until_fault;

/// How far encoding a chunk came.
#[derive(Clone, Copy, Debug)]
pub(crate) struct ChunkProgress {
    /// How many bytes were read.
    pub(crate) read: usize,
    /// How many bytes were written.
    pub(crate) written: usize,
    /// How many characters were read, if there is no policy: only errors number them. Under a policy it is 0.
    pub(crate) characters: usize,
    /// Whether a fault was read last, in this chunk or before it.
    pub(crate) after_fault: bool,
    /// The fault at which it stopped, or `None` if it stopped at no fault.
    pub(crate) fault: Option<u16>,
}

// Returns the fault at the beginning of the rest of a chunk, or `None` if there is none: a high surrogate before a zero
// unit. The encoder leaves at most a high surrogate, a zero unit and half a unit, so four bytes are these two units.
fn fault_before_zero(order: BoM, rest: &[u8]) -> Option<u16>
    requires { IsPendingOr order rest.now }
    ensures { HoldsAt order rest.now result }
{
    if rest.len() >= 4 {
        return Some(unit_in(order, rest[0], rest[1]));
    }
    None
}

/// Returns how many bytes precede a zero unit at the end that may be the last of the input: all bytes if there is none.
pub(crate) fn len_before_zero(bytes: &[u8]) -> usize
    ensures within { result ≤ length bytes.now }
    ensures all { result ≡ length bytes.now → length bytes.now % 2 ≡ 0 → ends_with nat_eq bytes.now (0 ∷ 0 ∷ []) ≡ false }
    ensures some { result < length bytes.now → (result + 2 ≡ length bytes.now) × (result % 2 ≡ 0) × (drop result bytes.now ≡ 0 ∷ 0 ∷ []) }
{
    if bytes.len() % 2 == 0 && bytes.ends_with(&[0, 0]) {
        bytes.len() - 2
    } else {
        bytes.len()
    }
}

// Returns how many characters the units encode. It does not read the units if the text has one byte for each of them.
fn char_count(units: &[u16], text: &[u8]) -> usize
    requires { EncodedUnits units.now [] text.now }
    ensures { result ≡ length (chars Utf16 units.now) }
{
    if text.len() == units.len() {
        units.len()
    } else {
        wide_repair::char_count(units)
    }
}

// Encodes the characters at the beginning of a chunk, up to a fault or the end.
fn encode_strict(order: BoM, bytes: &[u8], units: &[u16], out: &mut [u8]) -> ChunkProgress
    requires units { units.now ≡ units_in order bytes.now }
    requires space { 3 * length bytes.now + 8 ≤ 2 * length out.old }
    ensures read { result.read ≤ length bytes.now }
    ensures written { result.written ≤ length out.new }
    ensures text { Lossied order Each (take result.read bytes.now) (drop result.read bytes.now) false [] result.after_fault (take result.written out.new) }
    ensures characters { IsText (units_in order (take result.read bytes.now)) result.characters }
    ensures few { 2 * result.characters ≤ result.read }
    ensures stop { HoldsAt order (drop result.read bytes.now) result.fault }
{
    let ready = len_before_zero(bytes);
    let step = utf16_to_utf8_until_fault(&units[..ready / 2], out, 0);
    let read = 2 * step.read;
    let fault = match step.fault {
        Some(unit) => Some(unit),
        None => fault_before_zero(order, &bytes[read..]),
    };
    let characters = char_count(&units[..step.read], &out[..step.written]);
    ChunkProgress {
        read,
        written: step.written,
        characters,
        after_fault: false,
        fault,
    }
}

/// Encodes the units of a chunk as UTF-8 at the beginning of `out`: under a policy as lossy text, and otherwise the
/// characters up to a fault or the end. It does not read a zero unit at the end, nor a high surrogate that a low one
/// may still follow. `after_fault` says whether a fault precedes the chunk.
///
/// # Requires
///
/// `units` are the units of `bytes`. `out` has at least `(3 * bytes.len() + 8) / 2` bytes, rounded up. Under a policy
/// `spare` is at least as long as `units`, and otherwise no fault precedes the chunk.
pub(crate) fn encode_chunk(
    order: BoM,
    bytes: &[u8],
    units: &[u16],
    out: &mut [u8],
    spare: &mut [u16],
    policy: Option<Policy>,
    after_fault: bool,
) -> ChunkProgress
    requires units { units.now ≡ units_in order bytes.now }
    requires space { 3 * length bytes.now + 8 ≤ 2 * length out.old }
    requires spare { (lossy : Policy) → policy ≡ Some lossy → length units.now ≤ length spare.old }
    requires no_fault { policy ≡ None → after_fault ≡ false }
    ensures read { result.read ≤ length bytes.now }
    ensures written { result.written ≤ length out.new }
    ensures text { Lossied order (unwrap_or policy Each) (take result.read bytes.now) (drop result.read bytes.now) after_fault [] result.after_fault (take result.written out.new) }
    ensures characters { policy ≡ None → IsText (units_in order (take result.read bytes.now)) result.characters }
    ensures few { 2 * result.characters ≤ result.read }
    ensures stop { HoldsAt order (drop result.read bytes.now) result.fault }
    ensures faults { (unit : ℕ) → result.fault ≡ Some unit → policy ≡ None }
{
    let Some(policy) = policy else {
        return encode_strict(order, bytes, units, out);
    };
    encode_lossy(order, bytes, units, out, spare, policy, after_fault)
}
