//! Computes how many bytes of UTF-16 to read next without splitting a surrogate pair (Unicode Standard, section 3.9,
//! D91, D96 and D97). Only the last unit has to be read.
ghost use Rattle.std.specs.Prelude.{◌≡◌, ◌<◌, ◌≤◌, ◌+◌, ◌%◌, ◌++◌, ℕ, List, slice_index, length, take, drop};
ghost use Rattle.wide_forms.specs.EncodingForm.{Utf16, IsHighSurrogate};
ghost use Rattle.wide_forms.specs.Laws.Items.{IsCut};
ghost use Rattle.wide_bytes.specs.Bytes.{unit_in, units_in};
ghost use Rattle.wide_transcode.specs.Encoded.{IsIncompleteTail};

use wide_bytes::{BoM, unit_in};
use wide_forms::is_high_surrogate;

/// How many units are read at a time.
pub(crate) const CHUNK_UNITS: usize = 1024;

/// Returns how many of the first `prefix` bytes may be converted before the bytes after them are known: all, except a
/// last high surrogate, which may begin a pair.
pub(crate) fn len_before_high_surrogate(order: BoM, bytes: &[u8], prefix: usize) -> usize
    requires within { prefix ≤ length bytes.now }
    requires even { prefix % 2 ≡ 0 }
    ensures within { result ≤ prefix }
    ensures even { result % 2 ≡ 0 }
    ensures one_unit { result < prefix → result + 2 ≡ prefix }
    ensures high { result < prefix → IsHighSurrogate Utf16 (unit_in order (slice_index bytes.now result) (slice_index bytes.now (result + 1))) }
    ensures cut { (more : List ℕ) → IsCut Utf16 (units_in order (take result bytes.now)) (units_in order (drop result bytes.now ++ more)) }
{
    if prefix >= 2 && is_high_surrogate(unit_in(order, bytes[prefix - 2], bytes[prefix - 1])) {
        prefix - 2
    } else {
        prefix
    }
}

/// Returns how many bytes at the start are whole units whose meaning no later bytes can change.
pub(crate) fn complete_len(order: BoM, bytes: &[u8]) -> usize
    ensures within { result ≤ length bytes.now }
    ensures even { result % 2 ≡ 0 }
    ensures rest { IsIncompleteTail order (drop result bytes.now) }
    ensures cut { (more : List ℕ) → IsCut Utf16 (units_in order (take result bytes.now)) (units_in order (drop result bytes.now ++ more)) }
{
    len_before_high_surrogate(order, bytes, bytes.len() / 2 * 2)
}

/// Returns how many bytes to read next: all whole units if they fit into `CHUNK_UNITS` units, or else as many as fit
/// without splitting a surrogate pair.
pub(crate) fn chunk_len(order: BoM, bytes: &[u8]) -> usize
    requires { 2 ≤ length bytes.now }
    ensures some { 2 ≤ result }
    ensures within { result ≤ length bytes.now }
    ensures few { result ≤ 2048 }
    ensures even { result % 2 ≡ 0 }
    ensures cut { IsCut Utf16 (units_in order (take result bytes.now)) (units_in order (drop result bytes.now)) }
{
    if bytes.len() <= 2 * CHUNK_UNITS {
        bytes.len() / 2 * 2
    } else {
        len_before_high_surrogate(order, bytes, 2 * CHUNK_UNITS)
    }
}
