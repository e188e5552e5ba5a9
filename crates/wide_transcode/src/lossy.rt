//! Encodes a chunk of UTF-16 as lossy UTF-8 under a policy, if more units may follow it. It follows the Unicode
//! Standard, section 3.9, "U+FFFD Substitution of Maximal Subparts". Units that are ill-formed are repaired and encoded
//! again. Both steps are vectorized.

ghost use Rattle.std.specs.Prelude.{◌≡◌, ℕ, ◌+◌, ◌*◌, ◌≤◌, ◌++◌, ◌∷◌, [], List, None, false, length, take, drop, nat_eq};
ghost use Rattle.std.specs.List.{ends_with};
ghost use Rattle.wide_forms.specs.EncodingForm.{Utf16};
ghost use Rattle.wide_forms.specs.Laws.Items.{IsCut};
ghost use Rattle.wide_bytes.specs.Bytes.{units_in};
ghost use Rattle.wide_transcode.specs.Encoded.{IsPending};
ghost use Rattle.wide_transcode.specs.Lossied.{Lossied, units_end_in_fault, lossy_text};
ghost use Rattle.wide_transcode.specs.Chunks.{units_after};

use crate::chunk_encoding::{ChunkProgress, len_before_zero};
use wide_bytes::{BoM, unit_in};
use wide_forms::{Policy, is_high_surrogate, replacement};
use wide_repair::{ends_in_fault, lossy_prefix_16};
use wide_utf16_to_utf8::{checked_utf16_to_utf8, put_unit};

// Returns how many units of a chunk can be encoded whatever follows the chunk. It omits one zero unit at the end, which
// may be the last of the input, and a high surrogate at the end, which a low one may follow.
fn certain_len(order: BoM, bytes: &[u8], units: &[u16]) -> usize
    requires { units.now ≡ units_in order bytes.now }
    ensures within { 2 * result ≤ length bytes.now }
    ensures pending { IsPending order (drop (2 * result) bytes.now) }
    ensures cut { (more : List ℕ) → IsCut Utf16 (units_in order (take (2 * result) bytes.now)) (units_in order (drop (2 * result) bytes.now ++ more)) }
    ensures no_zero { drop (2 * result) bytes.now ≡ [] → ends_with nat_eq (units_in order (take (2 * result) bytes.now)) (0 ∷ []) ≡ false }
{
    let ready = len_before_zero(bytes) / 2;
    // If no zero unit is left out, a high surrogate is the last unit.
    if ready > 0 && bytes.len() - 2 * ready < 2 && is_high_surrogate(units[ready - 1]) {
        ready - 1
    } else {
        ready
    }
}

// Encodes any units as lossy text under a policy: first as well-formed UTF-16, in `spare`, and then as UTF-8.
// `after_fault` says whether a fault precedes the units.
fn encode_faulty(
    units: &[u16],
    out: &mut [u8],
    spare: &mut [u16],
    policy: Policy,
    after_fault: bool,
) -> usize
    requires space { 3 * length units.now + 4 ≤ length out.old }
    requires spare { length units.now ≤ length spare.old }
    ensures within { result ≤ length out.new }
    ensures text { take result out.new ≡ lossy_text policy after_fault units.now }
{
    // All units are read, since `spare` is as long as they are.
    let progress = lossy_prefix_16(units, policy, after_fault, spare);
    // Lossy text is well formed.
    checked_utf16_to_utf8(&spare[..progress.written], out).unwrap_or(0)
}

/// Encodes the units of a chunk as lossy text under a policy. It repairs the units only if they are ill-formed. It does
/// not read a zero unit at the end, nor a high surrogate that a low one may still follow. `after_fault` says whether a
/// fault precedes the chunk.
///
/// # Requires
///
/// `units` are the units of `bytes`. `out` has at least `(3 * bytes.len() + 8) / 2` bytes, rounded up. `spare` is at
/// least as long as `units`.
pub(crate) fn encode_lossy(
    order: BoM,
    bytes: &[u8],
    units: &[u16],
    out: &mut [u8],
    spare: &mut [u16],
    policy: Policy,
    after_fault: bool,
) -> ChunkProgress
    requires units { units.now ≡ units_in order bytes.now }
    requires space { 3 * length bytes.now + 8 ≤ 2 * length out.old }
    requires spare { length units.now ≤ length spare.old }
    ensures read { result.read ≤ length bytes.now }
    ensures written { result.written ≤ length out.new }
    ensures text { Lossied order policy (take result.read bytes.now) (drop result.read bytes.now) after_fault [] result.after_fault (take result.written out.new) }
    ensures few { 2 * result.characters ≤ result.read }
    ensures pending { IsPending order (drop result.read bytes.now) }
    ensures no_fault { result.fault ≡ None }
{
    let len = certain_len(order, bytes, units);
    let certain = &units[..len];
    let written = match checked_utf16_to_utf8(certain, out) {
        Some(written) => written,
        None => encode_faulty(certain, out, spare, policy, after_fault),
    };
    ChunkProgress {
        read: 2 * len,
        written,
        characters: 0,
        after_fault: ends_in_fault(certain, after_fault),
        fault: None,
    }
}

/// Encodes what is left at the end of the input as lossy text, and returns the length of the text in bytes.
/// `after_fault` says whether a fault precedes it.
///
/// # Requires
///
/// `rest` is what `encode_lossy` did not read. `out` has at least 3 bytes.
pub(crate) fn encode_end(
    order: BoM,
    rest: &[u8],
    out: &mut [u8],
    policy: Policy,
    after_fault: bool,
) -> usize
    requires pending { IsPending order rest.now }
    requires space { 3 ≤ length out.old }
    ensures within { result ≤ length out.new }
    ensures text { take result out.new ≡ lossy_text policy after_fault (units_after order rest.now) }
{
    if rest.len() < 2 || unit_in(order, rest[0], rest[1]) == 0 {
        return 0;
    }
    match replacement(policy, after_fault) {
        Some(character) => put_unit(out, 0, character as u16),
        None => 0,
    }
}
