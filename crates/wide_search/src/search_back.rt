//! Searches for a needle from the back. A plain loop tries each offset. After some tries the search is for offsets at
//! which the needle's first and last unit both match, in SIMD lanes (W. Mula, "SIMD-friendly algorithms for substring
//! searching").

ghost use Rattle.std.specs.Prelude.{◌+◌, ◌-◌, ◌*◌, ◌^◌, ◌<◌, ◌≤◌, ℕ, List, IfNone, IfSome, IsTrue, length};
ghost use Rattle.wide_search.specs.Occurrences.{IsLastAt, OccursAt, OccursNowhere};
ghost use Rattle.wide_search.specs.Probes.{IsProbe};
ghost use Rattle.wide_steps.specs.Counted.{AddsAtMost};

use crate::blocks::BLOCK;
use crate::costs::{Costs, Turn};
use crate::limits::{LEAST_COUNTED_LEN, MATCHED_PER_NEEDLE_UNIT, SHORT_TEXT, TRIES_FROM_BACK};
use crate::needle::{Needle, Probe, begins_with, matched};
use crate::pairs::last_pair;
use crate::two_way::{Stop, rfind_two_way};
use wide_steps::{Steps, tick};
use wide_unit::Unit;

// The greatest number of units that a SIMD block has: so many more than those that decide may be compared.
const LANES: usize = 16;

// Returns an offset such that no needle with these two units occurs from there on, and before `end`. It is the one
// after the last at which both match, or 0.
fn skip_back<C: Unit>(units: &[C], end: usize, probe: Probe<C>) -> usize
    requires { end + probe.distance ≤ length units.now }
    ensures within { result ≤ end }
    ensures beyond { (needle : List C) → IsProbe needle probe → (k : ℕ) → result ≤ k → k < end → ¬ (OccursAt needle units.now k) }
{
    let (_, rest) = units.split_at(probe.distance);
    let (back, _) = rest.split_at(end);
    let (front, _) = units.split_at(end);
    last_pair(front, back, probe.first, probe.last)
}

// Searches back from an offset from which on the needle does not occur, offset by offset. It makes `tries` tries, or
// fewer if it reaches the start of the text or too many units match. `matched` is how many units matched at the last
// try before the call. Returns where it stopped, which is one more than the needle's offset if it was found, and how
// many units matched in vain. For a short needle that number is an estimate: `tries` times `matched`. It counts the
// comparisons.
#[inline(never)]
fn rfind_each<C: Unit, P: Needle<C>>(
    units: &[C],
    needle: P,
    end: usize,
    tries: usize,
    matched: usize,
    steps: &mut Steps,
) -> (Stop, usize)
    requires within { end + length (P.sought needle) ≤ length units.now + 1 }
    requires beyond { (k : ℕ) → end ≤ k → ¬ (OccursAt (P.sought needle) units.now k) }
    ensures matched { 16 ≤ length (P.sought needle) → length (P.sought needle) < 2 ^ 57 → result.1 ≤ 65 * length (P.sought needle) }
    ensures few { length (P.sought needle) < 16 → AddsAtMost steps.old steps.new (16 * (end - result.0.at) + 16) }
    ensures many { 16 ≤ length (P.sought needle) → length (P.sought needle) < 2 ^ 57 → AddsAtMost steps.old steps.new (8 * (end - result.0.at) + result.1 + length (P.sought needle) + 8) }
    ensures few_unfound { ¬ (IsTrue result.0.is_found) → length (P.sought needle) < 16 → AddsAtMost steps.old steps.new (16 * (end - result.0.at)) }
    ensures many_unfound { ¬ (IsTrue result.0.is_found) → 16 ≤ length (P.sought needle) → length (P.sought needle) < 2 ^ 57 → AddsAtMost steps.old steps.new (8 * (end - result.0.at) + result.1) }
    ensures within { result.0.at ≤ end }
    ensures here { IsTrue result.0.is_found → OccursAt (P.sought needle) units.now (result.0.at - 1) × (0 < result.0.at) }
    ensures beyond { (k : ℕ) → result.0.at ≤ k → ¬ (OccursAt (P.sought needle) units.now k) }
{
    let last = end.saturating_sub(tries);
    let is_counted = needle.len() >= LEAST_COUNTED_LEN;
    let mut at = end;
    let mut all_matched = if is_counted {
        0
    } else {
        tries.wrapping_mul(matched)
    };
    let most = if is_counted {
        needle.len().saturating_mul(MATCHED_PER_NEEDLE_UNIT)
    } else {
        usize::MAX
    };
    while at > last && all_matched <= most {
        let (_, here) = units.split_at(at - 1);
        if is_counted {
            tick(steps, BLOCK);
            // Units that match are not counted where a block differs.
            if needle.may_be_prefix_of(here) {
                let matched = needle.matched_one_by_one(here);
                tick(steps, matched);
                if matched == needle.len() {
                    return (Stop::found(at), all_matched);
                }
                // A sum that wraps would change the time alone.
                all_matched = all_matched.wrapping_add(matched);
            }
        } else if begins_with(needle, here, steps) {
            return (Stop::found(at), all_matched);
        }
        at -= 1;
    }
    (Stop::unfound(at), all_matched)
}

// Searches back from an offset from which on the needle does not occur. Returns the offset of its last occurrence, or
// `None`. Units are compared where both the first and the last unit match, or at each offset if they match nearly
// everywhere. If too many units were compared in vain, the two-way search takes over for a while.
#[inline(never)]
pub(crate) fn rfind_by_two<C: Unit, P: Needle<C>>(
    units: &[C],
    needle: P,
    end: usize,
    steps: &mut Steps,
) -> Option<usize>
    requires within { end + length (P.sought needle) ≤ length units.now + 1 }
    requires beyond { (k : ℕ) → end ≤ k → ¬ (OccursAt (P.sought needle) units.now k) }
    ensures steps { length units.now < 2 ^ 57 → AddsAtMost steps.old steps.new (60 * end + 150 * length (P.sought needle) + 60) }
    ensures last { IfSome result (IsLastAt (P.sought needle) units.now) }
    ensures none { IfNone result (OccursNowhere (P.sought needle) units.now) }
{
    let Some(probe) = needle.probe() else {
        return Some(units.len());
    };
    let (mut at, mut since, mut costs) = (end, end, Costs::new(0));
    while at > 0 {
        let found = skip_back(units, at, probe);
        tick(steps, at - found);
        tick(steps, LANES);
        if found == 0 {
            return None;
        }
        let (_, here) = units.split_at(found - 1);
        let matched = matched(needle, here, steps);
        if matched > probe.distance {
            return Some(found - 1);
        }
        costs = costs.after_try(at - found, matched);
        at = found - 1;
        match costs.turn(since - at, probe.distance, 0) {
            Turn::Pairs | Turn::Plain => {}
            Turn::Each => {
                let (stop, matched) = rfind_each(units, needle, at, costs.tries, matched, steps);
                if stop.is_found {
                    return Some(stop.at - 1);
                }
                (at, costs) = (stop.at, costs.after_tries(at - stop.at, matched));
            }
            Turn::TwoWay => {
                if let Some(sought) = needle.as_slice() {
                    let stop = rfind_two_way(units, sought, at, steps);
                    if stop.is_found {
                        return Some(stop.at - 1);
                    }
                    (at, since, costs) = (stop.at, stop.at, Costs::new(0));
                }
            }
        }
    }
    None
}

// Searches back from an offset from which on the needle does not occur. Returns the offset of its last occurrence, or
// `None`. The last few offsets are tried one by one, or all if there are few. It is a function of its own, so that
// `rfind_in` can end with one call, and so saves no register where the needle is found at the first try.
#[inline(never)]
fn rfind_rest<C: Unit, P: Needle<C>>(
    units: &[C],
    needle: P,
    last: usize,
    steps: &mut Steps,
) -> Option<usize>
    requires within { last + length (P.sought needle) ≤ length units.now }
    requires beyond { (k : ℕ) → last ≤ k → ¬ (OccursAt (P.sought needle) units.now k) }
    ensures steps { length units.now < 2 ^ 57 → AddsAtMost steps.old steps.new (60 * last + 200 * length (P.sought needle) + 60) }
    ensures last { IfSome result (IsLastAt (P.sought needle) units.now) }
    ensures none { IfNone result (OccursNowhere (P.sought needle) units.now) }
{
    let stop = if last < SHORT_TEXT {
        0
    } else {
        last - TRIES_FROM_BACK
    };
    let mut at = last;
    while at > stop {
        at -= 1;
        let (_, rest) = units.split_at(at);
        if begins_with(needle, rest, steps) {
            return Some(at);
        }
    }
    if at == 0 {
        return None;
    }
    rfind_by_two(units, needle, at, steps)
}

// Returns the offset of the last occurrence of the needle, or `None`. The last offset is tried first, so that a needle
// at the end is found without a call of `rfind_rest`.
pub(crate) fn rfind_in<C: Unit, P: Needle<C>>(
    units: &[C],
    needle: P,
    steps: &mut Steps,
) -> Option<usize>
    ensures steps { length units.now < 2 ^ 57 → AddsAtMost steps.old steps.new (60 * length units.now + 201 * length (P.sought needle) + 60) }
    ensures last { IfSome result (IsLastAt (P.sought needle) units.now) }
    ensures none { IfNone result (OccursNowhere (P.sought needle) units.now) }
{
    if units.len() < needle.len() {
        return None;
    }
    let last = units.len() - needle.len();
    let (_, rest) = units.split_at(last);
    if begins_with(needle, rest, steps) {
        return Some(last);
    }
    rfind_rest(units, needle, last, steps)
}
