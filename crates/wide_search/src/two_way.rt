//! The two-way search (M. Crochemore and D. Perrin, "Two-way string-matching"), from either side: linear in the lengths
//! of the units and the needle, in constant memory. It begins unit by unit, and goes on in SIMD lanes where many units
//! are the same or many offsets are passed over, so it is used only where the needle and the text repeat themselves.
//! What it compares is the number that the side reads, which may be in lower case.

ghost use Rattle.std.specs.Prelude.{◌≡◌, ◌≢◌, ◌+◌, ◌-◌, ◌*◌, ◌<◌, ◌≤◌, ℕ, IsTrue, length, map};
ghost use Rattle.wide_search.specs.Lowercased.{lowercased};
ghost use Rattle.wide_search.specs.NextOccurrences.{number_from, number_read, IsStop, OccursFrom};
ghost use Rattle.wide_search.specs.Occurrences.{OccursAt};
ghost use Rattle.wide_steps.specs.Counted.{counted, AddsAtMost};

use crate::factorization::factorize;
use crate::limits::{
    COMPARED_BEFORE_LANES, OFFSETS_BEFORE_LOOK, OFFSETS_LOOKED_AHEAD, TRIES_BEFORE_LANES,
};
use crate::needle::COMPARED_BESIDE;
use crate::side::{Back, Front, FrontInLowerCase, Side};
use wide_steps::{Steps, tick};
use wide_unit::Unit;

// The greatest number of units that a SIMD block has: so many more than those that decide may be compared.
const LANES: usize = 16;

// Returns the first index of the needle, from `from` to before `end`, whose unit differs from that of the text if the
// needle is at `at`. Returns `end` if there is none. Indices and offsets are counted from the side `S`. It counts a
// step for each comparison of two units.
#[inline(always)]
fn first_difference<C: Unit, S: Side>(
    units: &[C],
    needle: &[C],
    at: usize,
    from: usize,
    end: usize,
    steps: &mut Steps,
) -> usize
    requires fits { at + length needle.now ≤ length units.now }
    requires within { end ≤ length needle.now }
    requires ordered { from ≤ end }
    ensures steps { AddsAtMost steps.old steps.new (2 * (result - from) + 1) }
    ensures after { from ≤ result }
    ensures within { result ≤ end }
    ensures same { (k : ℕ) → from ≤ k → k < result → number_from S.BACK (number_read S.READ C.number) units.now (at + k) ≡ number_from S.BACK (number_read S.READ C.number) needle.now k }
    ensures differ { result < end → number_from S.BACK (number_read S.READ C.number) units.now (at + result) ≢ number_from S.BACK (number_read S.READ C.number) needle.now result }
{
    let mut index = from;
    let mut left = COMPARED_BEFORE_LANES;
    while index < end && S::unit(units, at + index) == S::unit(needle, index) {
        tick(steps, 1);
        index += 1;
        left -= 1;
        if left == 0 {
            let same = S::same_from(units, needle, at, index, end);
            tick(steps, same);
            tick(steps, COMPARED_BESIDE);
            index += same;
            left = COMPARED_BEFORE_LANES;
        }
    }
    tick(steps, 1);
    index
}

// Where a search stopped. For `find_two_way` the needle does not occur before `at`; if it was found, it occurs at `at`.
// For `rfind_two_way` it does not occur from `at` on; if it was found, it occurs at `at - 1`. `next_occurrence` counts
// `at` from the side on which it begins; if the needle was found, it is at `at`.
#[derive(Clone, Copy)]
pub(crate) struct Stop {
    // The offset at which the search stopped.
    pub(crate) at: usize,
    // Whether the needle was found.
    pub(crate) is_found: bool,
}

impl Stop {
    // Creates the stop of a search that found the needle.
    #[inline(always)]
    pub(crate) fn found(at: usize) -> Self
        ensures at { result.at ≡ at }
        ensures found { IsTrue result.is_found }
    {
        Stop { at, is_found: true }
    }

    // Creates the stop of a search that has not found the needle.
    #[inline(always)]
    pub(crate) fn unfound(at: usize) -> Self
        ensures at { result.at ≡ at }
        ensures unfound { ¬ (IsTrue result.is_found) }
    {
        Stop {
            at,
            is_found: false,
        }
    }
}

// Returns whether the first and the last unit of the needle both match at one of the next offsets. This affects only
// how long the search takes: where they do not, the text may no longer repeat itself as the needle does, and other
// searches take less time. It counts two steps for each offset.
fn is_pair_nearby<C: Unit, S: Side>(units: &[C], needle: &[C], at: usize, steps: &mut Steps) -> bool
    requires some { 0 < length needle.now }
    requires fits { at + length needle.now ≤ length units.now }
    ensures { AddsAtMost steps.old steps.new 64 }
{
    let distance = needle.len() - 1;
    let end = (units.len() - distance).min(at.saturating_add(OFFSETS_LOOKED_AHEAD));
    for offset in at..end {
        tick(steps, 2);
        if S::unit(units, offset) == S::unit(needle, 0)
            && S::unit(units, offset + distance) == S::unit(needle, distance)
        {
            return true;
        }
    }
    false
}

// Returns whether the units at two indices of the needle match those of the text if the needle is at `at`. It counts
// each comparison: one if the first unit differs or the indices are the same, else two.
#[inline(always)]
fn do_both_match<C: Unit, S: Side>(
    units: &[C],
    needle: &[C],
    at: usize,
    one: usize,
    other: usize,
    steps: &mut Steps,
) -> bool
    requires fits { at + length needle.now ≤ length units.now }
    requires one { one < length needle.now }
    requires other { other < length needle.now }
    ensures steps { AddsAtMost steps.old steps.new 2 }
    ensures differ { ¬ (IsTrue result) → ¬ (OccursFrom S.BACK (number_read S.READ C.number) needle.now units.now at) }
{
    tick(steps, 1);
    if S::unit(units, at + one) != S::unit(needle, one) {
        return false;
    }
    if one == other {
        return true;
    }
    tick(steps, 1);
    S::unit(units, at + other) == S::unit(needle, other)
}

// Returns the first offset from `from` on at which the units at two indices of the needle match, or the first at which
// the needle doesn't fit. The needle occurs at none of those before it. It counts each comparison.
#[inline(always)]
fn next_match<C: Unit, S: Side>(
    units: &[C],
    needle: &[C],
    from: usize,
    one: usize,
    other: usize,
    steps: &mut Steps,
) -> usize
    requires fits { length needle.now ≤ length units.now }
    requires one { one < length needle.now }
    requires other { other < length needle.now }
    requires within { from ≤ length units.now }
    ensures steps { AddsAtMost steps.old steps.new (3 * (result - from) + 2) }
    ensures after { from ≤ result }
    ensures within { result ≤ length units.now }
    ensures before { (k : ℕ) → from ≤ k → k < result → ¬ (OccursFrom S.BACK (number_read S.READ C.number) needle.now units.now k) }
{
    let last = units.len() - needle.len();
    let mut at = from;
    let mut tries = TRIES_BEFORE_LANES;
    while at <= last && !do_both_match::<C, S>(units, needle, at, one, other, steps) {
        at += 1;
        tries -= 1;
        if tries == 0 {
            let passed = S::passed(units, needle, at, last + 1 - at, one, other);
            tick(steps, passed);
            tick(steps, LANES);
            at += passed;
            tries = TRIES_BEFORE_LANES;
        }
    }
    at
}

// Returns the first offset from `from` on at which the needle occurs, or one before which it does not occur: near the
// end, or where the text may no longer repeat itself. Offsets and units are counted from the side.
//
// The second part of the needle is compared before the first part. A difference in it rules out as many offsets as
// units were compared, and those after them at which the first unit of that part or the unit that differed would not
// match: a text that repeats itself differs there again and again. If only the first part differs, the next offset is
// at least a period further; if the needle has the period of its second part, the units that it has in common with
// itself at this distance are not compared again.
//
// It counts each comparison of two units, those of the factorization too.
#[inline(never)]
fn next_occurrence<C: Unit, S: Side>(
    units: &[C],
    needle: &[C],
    from: usize,
    steps: &mut Steps,
) -> Stop
    requires some { 0 < length needle.now }
    requires within { from ≤ length units.now }
    ensures steps { AddsAtMost steps.old steps.new (8 * (result.at - from) + 7 * length needle.now + 2) }
    ensures far { ¬ (IsTrue result.is_found) → result.at + length needle.now ≤ length units.now → from + 16 * length needle.now ≤ result.at }
    ensures stop { IsStop S.BACK (number_read S.READ C.number) needle.now units.now from result }
{
    let parts = factorize::<C, S>(needle, steps);
    let len = needle.len();
    let stretch = len.saturating_mul(OFFSETS_BEFORE_LOOK);
    let mut stop = from.saturating_add(stretch);
    let mut at = from;
    let mut known = 0;
    while len <= units.len() - at {
        if at >= stop {
            if !is_pair_nearby::<C, S>(units, needle, at, steps) {
                break;
            }
            stop = at.saturating_add(stretch);
        }
        let start = parts.cut.max(known);
        let index = first_difference::<C, S>(units, needle, at, start, len, steps);
        if index < len {
            let next = at + (index - parts.cut + 1);
            at = next_match::<C, S>(units, needle, next, parts.cut, index, steps);
            known = 0;
            continue;
        }
        let start = parts.cut.min(known);
        let first = first_difference::<C, S>(units, needle, at, start, parts.cut, steps);
        if first == parts.cut {
            return Stop { at, is_found: true };
        }
        if parts.repeats {
            at += parts.period;
            known = len - parts.period;
        } else {
            at += parts.cut.max(len - parts.cut) + 1;
            known = 0;
        }
    }
    Stop {
        at,
        is_found: false,
    }
}

// Searches on from an offset before which the needle does not occur. Returns where it stopped.
pub(crate) fn find_two_way<C: Unit>(
    units: &[C],
    needle: &[C],
    from: usize,
    steps: &mut Steps,
) -> Stop
    requires some { 0 < length needle.now }
    requires within { from ≤ length units.now }
    requires before { (k : ℕ) → k < from → ¬ (OccursAt needle.now units.now k) }
    ensures steps { AddsAtMost steps.old steps.new (8 * (result.at - from) + 7 * length needle.now + 2) }
    ensures far { ¬ (IsTrue result.is_found) → result.at + length needle.now ≤ length units.now → from + 16 * length needle.now ≤ result.at }
    ensures after { from ≤ result.at }
    ensures within { result.at ≤ length units.now }
    ensures here { IsTrue result.is_found → OccursAt needle.now units.now result.at }
    ensures before { (k : ℕ) → k < result.at → ¬ (OccursAt needle.now units.now k) }
{
    next_occurrence::<C, Front>(units, needle, from, steps)
}

// Searches on from an offset before which the needle does not occur, without regard to the case of ASCII letters.
// Returns where it stopped.
pub(crate) fn find_two_way_in_lower_case<C: Unit>(
    units: &[C],
    needle: &[C],
    from: usize,
    steps: &mut Steps,
) -> Stop
    requires some { 0 < length needle.now }
    requires within { from ≤ length units.now }
    requires before { (k : ℕ) → k < from → ¬ (OccursAt (lowercased (map C.number needle.now)) (lowercased (map C.number units.now)) k) }
    ensures steps { AddsAtMost steps.old steps.new (8 * (result.at - from) + 7 * length needle.now + 2) }
    ensures far { ¬ (IsTrue result.is_found) → result.at + length needle.now ≤ length units.now → from + 16 * length needle.now ≤ result.at }
    ensures after { from ≤ result.at }
    ensures within { result.at ≤ length units.now }
    ensures here { IsTrue result.is_found → OccursAt (lowercased (map C.number needle.now)) (lowercased (map C.number units.now)) result.at }
    ensures before { (k : ℕ) → k < result.at → ¬ (OccursAt (lowercased (map C.number needle.now)) (lowercased (map C.number units.now)) k) }
{
    next_occurrence::<C, FrontInLowerCase>(units, needle, from, steps)
}

// Searches back from an offset from which on the needle does not occur. Returns where it stopped: at the offset after
// the needle's, if it was found.
pub(crate) fn rfind_two_way<C: Unit>(
    units: &[C],
    needle: &[C],
    end: usize,
    steps: &mut Steps,
) -> Stop
    requires some { 0 < length needle.now }
    requires within { end + length needle.now ≤ length units.now + 1 }
    requires beyond { (k : ℕ) → end ≤ k → ¬ (OccursAt needle.now units.now k) }
    ensures steps { AddsAtMost steps.old steps.new (8 * (end - result.at) + 15 * length needle.now + 2) }
    ensures far { ¬ (IsTrue result.is_found) → 0 < result.at → result.at + 16 * length needle.now ≤ end }
    ensures within { result.at ≤ end }
    ensures here { IsTrue result.is_found → OccursAt needle.now units.now (result.at - 1) × (0 < result.at) }
    ensures beyond { (k : ℕ) → result.at ≤ k → ¬ (OccursAt needle.now units.now k) }
{
    let last = units.len() - (needle.len() - 1);
    let stop = next_occurrence::<C, Back>(units, needle, last - end, steps);
    Stop {
        at: last.saturating_sub(stop.at),
        is_found: stop.is_found,
    }
}
