//! Decodes a chunk of UTF-16 in a known byte order.

ghost use Rattle.std.specs.Prelude.{◌≡◌, ◌+◌, ◌-◌, ◌*◌, ◌<◌, ◌≤◌, ◌++◌, ℕ, [], List, IfNone, IfSome, IsTrue, None, false, true, length, slice_index, take, drop};
ghost use Rattle.wide_forms.specs.EncodingForm.{IsHighSurrogate, Utf16 as Utf16Form};
ghost use Rattle.wide_forms.specs.Items.{IsFirstFault, IsWellFormed};
ghost use Rattle.wide_forms.specs.Laws.Items.{IsCut};
ghost use Rattle.wide_unit.specs.CodePoints.{code_points};
ghost use Rattle.wide_schemes.specs.Layouts.{Decodes, StopsBefore, encoded};
ghost use Rattle.wide_schemes.specs.declared.layout.Layout.TheVariants.{Utf16};
ghost use Rattle.wide_schemes.specs.declared.progress.DecodeStop.TheVariants.{AtEnd, Incomplete, NoSpace};

use crate::progress::{DecodeStop, Decoding};
use wide_bytes::{BoM, fill_units};
use wide_forms::is_high_surrogate;
use wide_unit::find_fault;

// Returns how many units are the same items whatever follows: all of them, but not a high surrogate at the end if more
// units follow it or may follow it.
fn certain_len(units: &[u16], more_follow: bool) -> usize
    ensures within { result ≤ length units.now }
    ensures cut { (next : List ℕ) → (more_follow ≡ false → next ≡ []) → IsCut Utf16Form (take result units.now) (drop result units.now ++ next) }
    ensures more { result < length units.now → IsTrue more_follow }
    ensures last { result < length units.now → result + 1 ≡ length units.now }
    ensures high { result < length units.now → IsHighSurrogate Utf16Form (slice_index units.now result) }
{
    let count = units.len();
    if more_follow && count > 0 && is_high_surrogate(units[count - 1]) {
        count - 1
    } else {
        count
    }
}

// Returns the first fault of some units, or `None` if there is none or surrogates that belong to no pair are kept.
#[inline(always)]
fn fault_in(units: &[u16], keeps: bool) -> Option<(usize, u16)>
    ensures kept { IsTrue keeps → result ≡ None }
    ensures within { IfSome result (λ fault. fault.0 < length units.now) }
    ensures some { IfSome result (λ fault. (item : ℕ) × IsFirstFault Utf16Form units.now fault.0 item fault.1) }
    ensures none { keeps ≡ false → IfNone result (IsWellFormed Utf16Form units.now) }
{
    if keeps { None } else { find_fault(units) }
}

// Returns whether more units follow, or may follow, where `unread` bytes are left.
fn do_more_follow(unread: usize, is_last: bool) -> bool
    ensures none { result ≡ false → (is_last ≡ true) × (unread < 2) }
    ensures some { IsTrue result → unread < 2 → is_last ≡ false }
{
    unread >= 2 || !is_last
}

// Returns why decoding stopped, where `left` bytes were not decoded, and `unread` of these were not read for want of
// space.
fn stop_before(left: usize, unread: usize) -> DecodeStop
    ensures no_space { 2 ≤ unread → result ≡ NoSpace }
    ensures incomplete { unread < 2 → 0 < left → result ≡ Incomplete }
    ensures at_end { unread < 2 → left ≡ 0 → result ≡ AtEnd }
{
    if unread >= 2 {
        DecodeStop::NoSpace
    } else if left > 0 {
        DecodeStop::Incomplete
    } else {
        DecodeStop::AtEnd
    }
}

/// Decodes a chunk of UTF-16 (Unicode Standard, D96 and D97), up to a fault, an incomplete character or the end, and
/// writes its units at the beginning of `units`. If `keeps` is true, surrogates that belong to no pair are no faults.
/// If `is_last` is true, no bytes follow the chunk. The units after those written may be overwritten.
pub fn decode_utf16(
    order: BoM,
    keeps: bool,
    bytes: &[u8],
    is_last: bool,
    units: &mut [u16],
) -> Decoding
    ensures read { result.read ≤ length bytes.now }
    ensures written { result.written ≤ length units.new }
    ensures bytes { take result.read bytes.now ≡ encoded (Utf16 order) (code_points Utf16Form (take result.written units.new)) }
    ensures items { Decodes (Utf16 order) keeps false bytes.now is_last result.read (take result.written units.new) false }
    ensures state { result.after_high ≡ false }
    ensures well_formed { keeps ≡ false → IsWellFormed Utf16Form (take result.written units.new) }
    ensures stop { StopsBefore (Utf16 order) keeps false (drop result.read bytes.now) is_last (length units.new - result.written) result.stop }
{
    let count = (bytes.len() / 2).min(units.len());
    fill_units(order, &bytes[..2 * count], units);
    let unread = bytes.len() - 2 * count;
    let certain = certain_len(&units[..count], do_more_follow(unread, is_last));
    match fault_in(&units[..certain], keeps) {
        Some((index, unit)) => Decoding {
            read: 2 * index,
            written: index,
            after_high: false,
            stop: DecodeStop::Fault {
                unit: u32::from(unit),
                len: 2,
            },
        },
        None => Decoding {
            read: 2 * certain,
            written: certain,
            after_high: false,
            stop: stop_before(bytes.len() - 2 * certain, unread),
        },
    }
}
