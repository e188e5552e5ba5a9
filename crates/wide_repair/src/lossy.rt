//! Writes the lossy text of a slice of units under a policy, as well-formed units, prefix by prefix (Unicode Standard,
//! section 3.9, "U+FFFD Substitution of Maximal Subparts"). UTF-16 is vectorized: all units are repaired, with U+FFFD
//! for each fault. Under a policy that does not write all of these they are repaired chunk by chunk into an array, and
//! the U+FFFD that the policy does not write are left out when the chunk is copied.
ghost use Rattle.std.specs.Prelude.{◌≡◌, ◌<◌, ◌≤◌, length, min, take, drop};
ghost use Rattle.wide_forms.specs.EncodingForm.{Utf16, Utf32, encode};
ghost use Rattle.wide_forms.specs.Items.{items};
ghost use Rattle.wide_forms.specs.Lossy.{ends_in_fault, lossy, lossy_after};
ghost use Rattle.wide_forms.specs.Laws.Items.{IsCut};

use crate::repair::{repair_16, repaired_scalar};
use crate::retention::{put_one, retain_after};
use wide_forms::{
    LossyProgress, Policy, is_high_surrogate, is_low_surrogate, is_surrogate, replacement,
};

// The most units that are repaired in the small array, and its size. A small array takes less time to clear.
const SMALL_CHUNK: usize = 256;

// The size of the array in which more units are repaired, chunk by chunk. The units at both ends of a chunk are not
// repaired in vectors. In a chunk of this size they take little of the time.
const LARGE_CHUNK: usize = 1024;

// Returns how many units at the beginning can be repaired separately: all if there are at most `most`, and otherwise
// `most`, or one fewer if that would split a surrogate pair.
fn uncut_len(units: &[u16], most: usize) -> usize
    requires { min (length units.now) 2 ≤ most }
    ensures within { result ≤ length units.now }
    ensures few { result ≤ most }
    ensures all { length units.now ≤ most → result ≡ length units.now }
    ensures some { 0 < length units.now → 0 < result }
    ensures cut { IsCut Utf16 (take result units.now) (drop result units.now) }
{
    if units.len() <= most {
        units.len()
    } else if is_high_surrogate(units[most - 1]) && is_low_surrogate(units[most]) {
        most - 1
    } else {
        most
    }
}

/// Returns whether the last unit of UTF-16 is a fault: a surrogate that does not end a pair. If there are no units,
/// returns `after_fault`, which says whether a fault precedes them.
pub fn ends_in_fault(units: &[u16], after_fault: bool) -> bool
    ensures { result ≡ ends_in_fault after_fault (items Utf16 units.now) }
{
    let len = units.len();
    if len == 0 {
        return after_fault;
    }
    if len >= 2 && is_high_surrogate(units[len - 2]) && is_low_surrogate(units[len - 1]) {
        return false;
    }
    is_surrogate(units[len - 1])
}

// Writes the retained units of a repaired chunk of UTF-16, and returns their number. A chunk without faults is copied.
fn put_chunk(
    chunk: &[u16],
    repaired: &[u16],
    policy: Policy,
    after_fault: bool,
    text: &mut [u16],
) -> usize
    requires repaired { repaired.now ≡ encode Utf16 (lossy (items Utf16 chunk.now)) }
    requires long { length repaired.now ≡ length chunk.now }
    requires space { length chunk.now ≤ length text.old }
    ensures text { take result text.new ≡ encode Utf16 (lossy_after policy after_fault (items Utf16 chunk.now)) }
    ensures within { result ≤ length chunk.now }
{
    if repaired == chunk {
        text[..chunk.len()].copy_from_slice(chunk);
        return chunk.len();
    }
    retain_after(policy, after_fault, chunk, repaired, text)
}

// Writes the lossy text of all units of UTF-16 under a policy, and returns how many units it has. Each chunk is
// repaired in the array `repaired` first.
fn put_retained_chunks(
    units: &[u16],
    policy: Policy,
    after_fault: bool,
    repaired: &mut [u16],
    text: &mut [u16],
) -> usize
    requires spare { 2 ≤ length repaired.old }
    requires space { length units.now ≤ length text.old }
    ensures text { take result text.new ≡ encode Utf16 (lossy_after policy after_fault (items Utf16 units.now)) }
    ensures within { result ≤ length units.now }
{
    let mut rest = units;
    let mut is_after = after_fault;
    let mut at = 0;
    'chunks: while !rest.is_empty() {
        let (chunk, beyond) = rest.split_at(uncut_len(rest, repaired.len()));
        repair_16(chunk, repaired);
        let fixed = &repaired[..chunk.len()];
        at += put_chunk(chunk, fixed, policy, is_after, &mut text[at..]);
        is_after = ends_in_fault(chunk, is_after);
        rest = beyond;
    }
    at
}

// Writes the lossy text of all units of UTF-16 under a policy, and returns how many units it has.
fn put_lossy(units: &[u16], policy: Policy, after_fault: bool, text: &mut [u16]) -> usize
    requires { length units.now ≤ length text.old }
    ensures text { take result text.new ≡ encode Utf16 (lossy_after policy after_fault (items Utf16 units.now)) }
    ensures within { result ≤ length units.now }
{
    if replacement(policy, false).is_some() && replacement(policy, true).is_some() {
        // U+FFFD is written for each fault, so all repaired units are retained.
        repair_16(units, text);
        return units.len();
    }
    if units.len() <= SMALL_CHUNK {
        put_retained_chunks(units, policy, after_fault, &mut [0; SMALL_CHUNK], text)
    } else {
        put_retained_chunks(units, policy, after_fault, &mut [0; LARGE_CHUNK], text)
    }
}

/// Writes the lossy text of a prefix of 16-bit units under a policy (Unicode Standard, section 3.9, "U+FFFD
/// Substitution of Maximal Subparts") as well-formed UTF-16 at the beginning of `text`. It reads all units if `text` is
/// at least as long. Otherwise it reads as many units as `text` has, or one fewer where that would split a surrogate
/// pair. If `after_fault` is true, a fault precedes the units. The units of `text` after those written may be
/// overwritten.
///
/// # Requires
///
/// `text` has at least two units, or is at least as long as `units`.
pub fn lossy_prefix_16(
    units: &[u16],
    policy: Policy,
    after_fault: bool,
    text: &mut [u16],
) -> LossyProgress
    requires { min (length units.now) 2 ≤ length text.old }
    ensures read { result.read ≤ length units.now }
    ensures all { length units.now ≤ length text.old → result.read ≡ length units.now }
    ensures some { 0 < length units.now → 0 < result.read }
    ensures written { result.written ≤ result.read }
    ensures space { result.written ≤ length text.new }
    ensures cut { IsCut Utf16 (take result.read units.now) (drop result.read units.now) }
    ensures text { take result.written text.new ≡ encode Utf16 (lossy_after policy after_fault (items Utf16 (take result.read units.now))) }
    ensures state { result.after_fault ≡ ends_in_fault after_fault (items Utf16 (take result.read units.now)) }
{
    let read = uncut_len(units, text.len());
    let prefix = &units[..read];
    LossyProgress {
        read,
        written: put_lossy(prefix, policy, after_fault, text),
        after_fault: ends_in_fault(prefix, after_fault),
    }
}

/// Writes the lossy text of a prefix of 32-bit units under a policy (Unicode Standard, section 3.9, "U+FFFD
/// Substitution of Maximal Subparts") as well-formed UTF-32 at the beginning of `text`. It reads all units, or as many
/// as `text` has if there are more. If `after_fault` is true, a fault precedes the units. The units of `text` after
/// those written may be overwritten.
pub fn lossy_prefix_32(
    units: &[u32],
    policy: Policy,
    after_fault: bool,
    text: &mut [u32],
) -> LossyProgress
    ensures read { result.read ≡ min (length units.now) (length text.old) }
    ensures written { result.written ≤ result.read }
    ensures text { take result.written text.new ≡ encode Utf32 (lossy_after policy after_fault (items Utf32 (take result.read units.now))) }
    ensures state { result.after_fault ≡ ends_in_fault after_fault (items Utf32 (take result.read units.now)) }
{
    let read = units.len().min(text.len());
    let mut is_after = after_fault;
    let mut at = 0;
    let prefix = &units[..read];
    for k in 0..prefix.len() {
        let repaired = repaired_scalar(prefix[k]);
        let is_fault = repaired != prefix[k];
        let is_written = replacement(policy, is_after).is_some();
        at = put_one(!is_fault | is_written, repaired, text, at);
        is_after = is_fault;
    }
    LossyProgress {
        read,
        written: at,
        after_fault: is_after,
    }
}
