//! Decodes a chunk of WTF-8: runs of UTF-8, and surrogates between them.

ghost use Rattle.std.specs.Prelude.{◌≡◌, ◌+◌, ◌-◌, ◌*◌, ◌<◌, ◌≤◌, ◌&&◌, ℕ, IfNone, IfSome, IsSome, IsTrue, None, false, true, length, take, drop};
ghost use Rattle.wide_conversions.specs.ChunkEnds.{EndsAs};
ghost use Rattle.wide_forms.specs.EncodingForm.{Utf16};
ghost use Rattle.wide_forms.specs.Items.{IsWellFormed};
ghost use Rattle.wide_forms.specs.Searches.{is_low};
ghost use Rattle.wide_forms.specs.Segmentation.{Char};
ghost use Rattle.wide_unit.specs.CodePoints.{code_points};
ghost use Rattle.wide_schemes.specs.Layouts.{Decodes, StopsBefore, encoded};
ghost use Rattle.wide_schemes.specs.PointRuns.{IsAfterText, IsHalfAt, IsPointRun};
ghost use Rattle.wide_schemes.specs.Wtf8Items.{point_item};
ghost use Rattle.wide_schemes.specs.declared.layout.Layout.TheVariants.{Wtf8};

use crate::progress::{DecodeStop, Decoding};
use crate::text::decode_text;
use crate::utf8::stop_after;
use wide_conversions::{Utf8Chunk, first_utf8_chunk};
use wide_forms::{is_high_surrogate, is_low_surrogate};

// What some bytes begin with.
#[derive(Clone, Copy)]
pub(crate) enum HalfAt {
    // The three bytes of this surrogate.
    Whole(u16),
    // The first bytes of a surrogate, and no others.
    Part,
    // Neither.
    Nothing,
}

// Returns whether some bytes begin with a surrogate: ED, a byte from A0 on, and another trailing byte.
fn half_at(bytes: &[u8]) -> HalfAt
    requires { 0 < length bytes.now }
    ensures { IsHalfAt bytes.now result }
{
    if bytes[0] != 0xed {
        return HalfAt::Nothing;
    }
    if bytes.len() == 1 {
        return HalfAt::Part;
    }
    if bytes[1] / 0x20 != 5 {
        return HalfAt::Nothing;
    }
    if bytes.len() == 2 {
        return HalfAt::Part;
    }
    if bytes[2] / 0x40 != 2 {
        return HalfAt::Nothing;
    }
    HalfAt::Whole(0xd000 + u16::from(bytes[1]) % 0x40 * 0x40 + u16::from(bytes[2]) % 0x40)
}

// What follows a run of UTF-8.
#[derive(Clone, Copy)]
pub(crate) enum AfterText {
    // This surrogate, which is an item.
    Half(u16),
    // What decoding stops at.
    Stop(DecodeStop),
}

// Returns whether a surrogate is an item: where surrogates are kept, each is, except for the second half of a pair after
// the first.
fn is_item(keeps: bool, after_high: bool, half: u16) -> bool
    ensures item { IsTrue result → (keeps ≡ true) × (point_item after_high half ≡ Char half) }
    ensures fault { result ≡ false → keeps ≡ true → (after_high ≡ true) × (is_low half ≡ true) }
{
    keeps && !(after_high && is_low_surrogate(half))
}

// Returns what follows the longest prefix of a chunk that is UTF-8. `after_high` says whether the first half of a pair
// precedes it.
fn after_text(
    keeps: bool,
    after_high: bool,
    bytes: &[u8],
    chunk: Utf8Chunk,
    is_last: bool,
) -> AfterText
    requires end { EndsAs bytes.now chunk.valid chunk.end }
    requires state { keeps ≡ false → after_high ≡ false }
    ensures { (room : ℕ) → IsAfterText keeps after_high (drop chunk.valid bytes.now) is_last room result }
{
    if chunk.valid == bytes.len() {
        return AfterText::Stop(DecodeStop::AtEnd);
    }
    match half_at(&bytes[chunk.valid..]) {
        HalfAt::Whole(half) => {
            if is_item(keeps, after_high, half) {
                AfterText::Half(half)
            } else {
                AfterText::Stop(DecodeStop::Fault {
                    unit: u32::from(half),
                    len: 3,
                })
            }
        }
        HalfAt::Part => {
            if is_last {
                AfterText::Stop(stop_after(bytes, chunk, is_last))
            } else {
                AfterText::Stop(DecodeStop::Incomplete)
            }
        }
        HalfAt::Nothing => AfterText::Stop(stop_after(bytes, chunk, is_last)),
    }
}

// Returns whether the last code point is the first half of a pair, where a run of UTF-8 of so many units follows.
fn is_after_high(after_high: bool, len: usize) -> bool
    ensures same { len ≡ 0 → result ≡ after_high }
    ensures other { 0 < len → result ≡ false }
{
    after_high && len == 0
}

// How far decoding a run of UTF-8, and at most one surrogate after it, came.
#[derive(Clone, Copy)]
struct Run {
    // How many bytes were read.
    read: usize,
    // How many units were written.
    written: usize,
    // Whether the last code point is the first half of a surrogate pair.
    after_high: bool,
    // Why decoding stops, or `None` if it goes on.
    stop: Option<DecodeStop>,
}

// Decodes a run of UTF-8, and the surrogate after it if that is an item and fits.
fn decode_run(keeps: bool, after_high: bool, bytes: &[u8], is_last: bool, units: &mut [u16]) -> Run
    requires { keeps ≡ false → after_high ≡ false }
    ensures read { result.read ≤ length bytes.now }
    ensures written { result.written ≤ length units.new }
    ensures run { IsPointRun keeps after_high bytes.now result.read (take result.written units.new) result.after_high }
    ensures further { IfNone result.stop (0 < result.read) }
    ensures stop { IfSome result.stop (λ stop. StopsBefore Wtf8 keeps result.after_high (drop result.read bytes.now) is_last (length units.new - result.written) stop) }
{
    let chunk = first_utf8_chunk(bytes);
    let step = decode_text(&bytes[..chunk.valid], units);
    let run = Run {
        read: step.read,
        written: step.written,
        after_high: is_after_high(after_high, step.written),
        stop: Some(DecodeStop::NoSpace),
    };
    if step.read < chunk.valid {
        return run;
    }
    match after_text(keeps, run.after_high, bytes, chunk, is_last) {
        AfterText::Stop(stop) => Run {
            stop: Some(stop),
            ..run
        },
        AfterText::Half(half) => {
            if units.len() - step.written < 2 {
                return run;
            }
            units[step.written] = half;
            Run {
                read: step.read + 3,
                written: step.written + 1,
                after_high: is_high_surrogate(half),
                stop: None,
            }
        }
    }
}

/// Decodes a chunk of WTF-8, up to a fault, an incomplete code point or the end, and writes its units at the beginning of
/// `units`. If `keeps` is true, a surrogate is an item, except for the second half of a pair after the first, since a
/// pair has four bytes. `after_high` says whether the first half of a pair precedes the chunk. If `is_last` is true, no
/// bytes follow the chunk. The units after those written may be overwritten.
///
/// # Requires
///
/// If `keeps` is false, so is `after_high`.
pub fn decode_wtf8(
    keeps: bool,
    after_high: bool,
    bytes: &[u8],
    is_last: bool,
    units: &mut [u16],
) -> Decoding
    requires { keeps ≡ false → after_high ≡ false }
    ensures read { result.read ≤ length bytes.now }
    ensures written { result.written ≤ length units.new }
    ensures bytes { take result.read bytes.now ≡ encoded Wtf8 (code_points Utf16 (take result.written units.new)) }
    ensures items { Decodes Wtf8 keeps after_high bytes.now is_last result.read (take result.written units.new) result.after_high }
    ensures state { keeps ≡ false → result.after_high ≡ false }
    ensures well_formed { keeps ≡ false → IsWellFormed Utf16 (take result.written units.new) }
    ensures stop { StopsBefore Wtf8 keeps result.after_high (drop result.read bytes.now) is_last (length units.new - result.written) result.stop }
{
    let mut read = 0;
    let mut written = 0;
    let mut after_high = after_high;
    'runs: loop {
        let run = decode_run(
            keeps,
            after_high,
            &bytes[read..],
            is_last,
            &mut units[written..],
        );
        read += run.read;
        written += run.written;
        after_high = run.after_high;
        if let Some(stop) = run.stop {
            return Decoding {
                read,
                written,
                after_high,
                stop,
            };
        }
    }
}
