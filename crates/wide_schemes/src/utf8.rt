//! Decodes a chunk of UTF-8.

ghost use Rattle.std.specs.Prelude.{◌≡◌, ℕ, ◌-◌, ◌<◌, ◌≤◌, false, length, slice_index, take, drop};
ghost use Rattle.wide_forms.specs.EncodingForm.{Utf16};
ghost use Rattle.wide_forms.specs.Items.{IsWellFormed};
ghost use Rattle.wide_conversions.specs.ChunkEnds.{EndsAs};
ghost use Rattle.wide_schemes.specs.Decoded.{EndsText};
ghost use Rattle.wide_unit.specs.CodePoints.{code_points};
ghost use Rattle.wide_schemes.specs.Layouts.{Decodes, StopsBefore, encoded};
ghost use Rattle.wide_schemes.specs.declared.layout.Layout.TheVariants.{Utf8};
ghost use Rattle.wide_schemes.specs.declared.progress.DecodeStop.TheVariants.{Fault};

use crate::progress::{DecodeStop, Decoding};
use crate::text::decode_text;
use wide_conversions::{Utf8Chunk, Utf8End, first_utf8_chunk};

// Returns the fault of some bytes at an offset.
#[inline(always)]
fn fault_at(bytes: &[u8], at: usize, len: usize) -> DecodeStop
    requires { at < length bytes.now }
    ensures { result ≡ Fault (slice_index bytes.now at) len }
{
    DecodeStop::Fault {
        unit: u32::from(bytes[at]),
        len,
    }
}

/// Returns what follows the longest prefix of a chunk that is UTF-8.
pub(crate) fn stop_after(bytes: &[u8], chunk: Utf8Chunk, is_last: bool) -> DecodeStop
    requires { EndsAs bytes.now chunk.valid chunk.end }
    ensures { EndsText (drop chunk.valid bytes.now) is_last result }
{
    match chunk.end {
        Utf8End::Complete => DecodeStop::AtEnd,
        Utf8End::IllFormed(len) => fault_at(bytes, chunk.valid, len),
        Utf8End::Incomplete(len) => {
            if is_last {
                fault_at(bytes, chunk.valid, len)
            } else {
                DecodeStop::Incomplete
            }
        }
    }
}

/// Decodes a chunk of UTF-8 (Unicode Standard, D92), up to a fault, an incomplete character or the end, and writes its
/// units at the beginning of `units`. If `is_last` is true, no bytes follow the chunk, and an incomplete character is a
/// fault. The units after those written may be overwritten.
pub fn decode_utf8(bytes: &[u8], is_last: bool, units: &mut [u16]) -> Decoding
    ensures read { result.read ≤ length bytes.now }
    ensures written { result.written ≤ length units.new }
    ensures bytes { take result.read bytes.now ≡ encoded Utf8 (code_points Utf16 (take result.written units.new)) }
    ensures items { Decodes Utf8 false false bytes.now is_last result.read (take result.written units.new) false }
    ensures state { result.after_high ≡ false }
    ensures well_formed { IsWellFormed Utf16 (take result.written units.new) }
    ensures stop { StopsBefore Utf8 false false (drop result.read bytes.now) is_last (length units.new - result.written) result.stop }
{
    let chunk = first_utf8_chunk(bytes);
    let step = decode_text(&bytes[..chunk.valid], units);
    let stop = if step.read < chunk.valid {
        DecodeStop::NoSpace
    } else {
        stop_after(bytes, chunk, is_last)
    };
    Decoding {
        read: step.read,
        written: step.written,
        after_high: false,
        stop,
    }
}
