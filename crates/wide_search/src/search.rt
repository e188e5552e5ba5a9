//! Searches for a needle from the front. A plain loop tries each offset at which the needle's first unit occurs. Where
//! that unit is frequent, the search is for offsets at which the needle's first and last unit both match, in SIMD lanes
//! (W. Mula, "SIMD-friendly algorithms for substring searching").

ghost use Rattle.std.specs.Prelude.{◌≡◌, ◌+◌, ◌-◌, ◌*◌, ◌^◌, ◌∷◌, ◌<◌, ◌≤◌, ℕ, List, IfNone, IfSome, IsTrue, length};
ghost use Rattle.wide_search.specs.Costs.{whole_tries};
ghost use Rattle.wide_search.specs.Occurrences.{IsFirstAt, OccursAt, OccursNowhere};
ghost use Rattle.wide_search.specs.Probes.{IsProbe};
ghost use Rattle.wide_steps.specs.Counted.{counted, AddsAtMost};

use crate::blocks::BLOCK;
use crate::costs::{Costs, Turn};
use crate::limits::{
    FREQUENT_GAP, LEAST_COUNTED_LEN, MATCHED_PER_NEEDLE_UNIT, NEEDLE_UNITS_PER_GAP_UNIT,
    NEEDLE_UNITS_PER_SHARE, OFFSETS_BY_PAIRS, OFFSETS_PER_DISTANCE, SHORT_TEXT, TRIES_BEFORE_PAIRS,
    TRIES_BETWEEN_PAIRS, TRIES_IN_PLACE_OF_PAIRS,
};
use crate::needle::{Needle, Probe, begins_after_first, begins_with, matched};
use crate::pairs::first_pair;
use crate::two_way::{Stop, find_two_way};
use wide_steps::{Steps, tick};
use wide_unit::{Unit, first_of};

// The greatest number of units that a SIMD block has: so many more than those that decide may be compared.
const LANES: usize = 16;

// Returns the first offset at which the first and the last unit of a needle both match, or `count`. No needle with this
// first and this last unit occurs before it.
#[inline(always)]
fn skip<C: Unit>(units: &[C], count: usize, probe: Probe<C>) -> usize
    requires { count + probe.distance ≤ length units.now }
    ensures within { result ≤ count }
    ensures before { (needle : List C) → IsProbe needle probe → (k : ℕ) → k < result → ¬ (OccursAt needle units.now k) }
{
    let (_, rest) = units.split_at(probe.distance);
    let (lasts, _) = rest.split_at(count);
    let (firsts, _) = units.split_at(count);
    first_pair(firsts, lasts, probe.first, probe.last)
}

// Returns how many offsets from `at` to before `end` are passed over, at none of which the needle occurs. It counts as
// many steps for each of them as a block has units.
#[inline(always)]
fn pass_over<C: Unit, P: Needle<C>>(
    units: &[C],
    needle: P,
    at: usize,
    end: usize,
    steps: &mut Steps,
) -> usize
    requires ordered { at ≤ end }
    requires within { end ≤ length units.now }
    ensures steps { AddsAtMost steps.old steps.new (8 * result) }
    ensures within { at + result ≤ end }
    ensures before { (k : ℕ) → at ≤ k → k < at + result → ¬ (OccursAt (P.sought needle) units.now k) }
{
    let (_, rest) = units.split_at(at);
    let passed = needle.passed_over(rest, end - at);
    tick(steps, passed.saturating_mul(BLOCK));
    passed
}

// Searches on from an offset before which the needle does not occur, offset by offset. It makes `tries` tries, or fewer
// if it reaches the end of the text or too many units match. `matched` is how many units matched at the last try before
// the call. Returns where it stopped, and how many units matched in vain. For a short needle that number is an
// estimate: `tries` times `matched`. It counts the comparisons.
#[inline(never)]
fn find_each<C: Unit, P: Needle<C>>(
    units: &[C],
    needle: P,
    from: usize,
    tries: usize,
    matched: usize,
    steps: &mut Steps,
) -> (Stop, usize)
    requires within { from ≤ length units.now }
    requires before { (k : ℕ) → k < from → ¬ (OccursAt (P.sought needle) units.now k) }
    ensures grows { counted steps.old ≤ counted steps.new }
    ensures matched { 512 < length (P.sought needle) → length (P.sought needle) < 2 ^ 57 → result.1 ≤ 65 * length (P.sought needle) }
    ensures narrow { length (P.sought needle) ≤ 512 → AddsAtMost steps.old steps.new (520 * (result.0.at - from) + 520) }
    ensures wide { 512 < length (P.sought needle) → length (P.sought needle) < 2 ^ 57 → AddsAtMost steps.old steps.new (8 * (result.0.at - from) + result.1 + length (P.sought needle) + 8) }
    ensures narrow_unfound { ¬ (IsTrue result.0.is_found) → length (P.sought needle) ≤ 512 → AddsAtMost steps.old steps.new (520 * (result.0.at - from)) }
    ensures wide_unfound { ¬ (IsTrue result.0.is_found) → 512 < length (P.sought needle) → length (P.sought needle) < 2 ^ 57 → AddsAtMost steps.old steps.new (8 * (result.0.at - from) + result.1) }
    ensures after { from ≤ result.0.at }
    ensures within { result.0.at ≤ length units.now }
    ensures here { IsTrue result.0.is_found → OccursAt (P.sought needle) units.now result.0.at }
    ensures before { (k : ℕ) → k < result.0.at → ¬ (OccursAt (P.sought needle) units.now k) }
{
    let end = from.saturating_add(tries).min(units.len());
    let is_counted = needle.len() >= LEAST_COUNTED_LEN;
    let mut at = from;
    let mut all_matched = if is_counted {
        0
    } else {
        tries.wrapping_mul(matched)
    };
    let most = if is_counted {
        needle.len().saturating_mul(MATCHED_PER_NEEDLE_UNIT)
    } else {
        usize::MAX
    };
    while at < end && all_matched <= most {
        let (_, here) = units.split_at(at);
        if is_counted {
            tick(steps, BLOCK);
            // Units that match are not counted where a block differs.
            if needle.may_be_prefix_of(here) {
                let matched = needle.matched_one_by_one(here);
                tick(steps, matched);
                if matched == needle.len() {
                    return (Stop::found(at), all_matched);
                }
                // A sum that wraps would change the time alone.
                all_matched = all_matched.wrapping_add(matched);
            }
        } else if begins_with(needle, here, steps) {
            return (Stop::found(at), all_matched);
        }
        at += 1;
        if is_counted {
            at += pass_over(units, needle, at, end, steps);
        }
    }
    (Stop::unfound(at), all_matched)
}

// Returns the offset at which a search for the needle's first and last unit, from `from` on, ends. The last unit, which
// is at `distance` from the first, is not looked for beyond the end of the units.
#[inline(always)]
fn end_by_two<C: Unit>(units: &[C], from: usize, distance: usize) -> usize
    ensures within { result ≤ length units.now - distance }
    ensures far { result < length units.now - distance → from + distance ≤ result }
{
    let most = distance.saturating_mul(OFFSETS_PER_DISTANCE);
    let last = units.len().saturating_sub(distance);
    from.saturating_add(most.max(OFFSETS_BY_PAIRS)).min(last)
}

// Returns how many tries at the first unit of a needle of `len` units follow a search for its first and last unit that
// saved no time.
#[inline(always)]
fn tries_in_place(len: usize) -> usize
    ensures { 4 ≤ result }
{
    let tries = TRIES_IN_PLACE_OF_PAIRS / (1 + len / NEEDLE_UNITS_PER_SHARE);
    tries.max(TRIES_BETWEEN_PAIRS)
}

// Searches on from an offset before which the needle does not occur, where its first unit is frequent: it occurs once
// in `gap` units. Returns where it stopped, and how many tries at the first unit should follow. Units are compared
// where both the first and the last unit match, or at each offset if they match nearly everywhere. Where both match
// nearly as often as the first alone, it stops. If too many units were compared in vain, the two-way search takes over.
#[inline(never)]
fn find_by_two<C: Unit, P: Needle<C>>(
    units: &[C],
    needle: P,
    from: usize,
    gap: usize,
    steps: &mut Steps,
) -> (Stop, usize)
    requires within { from ≤ length units.now }
    requires before { (k : ℕ) → k < from → ¬ (OccursAt (P.sought needle) units.now k) }
    ensures grows { counted steps.old ≤ counted steps.new }
    ensures narrow { length (P.sought needle) ≤ 512 → AddsAtMost steps.old steps.new (600 * (result.0.at - from) + 3700) }
    ensures narrow_unfound { ¬ (IsTrue result.0.is_found) → length (P.sought needle) ≤ 512 → result.0.at + length (P.sought needle) ≤ length units.now → AddsAtMost steps.old steps.new (600 * (result.0.at - from)) }
    ensures wide { length units.now < 2 ^ 57 → length (P.sought needle) ≤ length units.now → 512 < length (P.sought needle) → AddsAtMost steps.old steps.new (60 * (result.0.at - from) + 150 * length (P.sought needle) + 60) }
    ensures far { ¬ (IsTrue result.0.is_found) → 512 < length (P.sought needle) → result.0.at + length (P.sought needle) ≤ length units.now → from + length (P.sought needle) ≤ result.0.at + 1 }
    ensures tries { 512 < length (P.sought needle) → result.1 ≡ 4 }
    ensures after { from ≤ result.0.at }
    ensures within { result.0.at ≤ length units.now }
    ensures here { IsTrue result.0.is_found → OccursAt (P.sought needle) units.now result.0.at }
    ensures before { (k : ℕ) → k < result.0.at → ¬ (OccursAt (P.sought needle) units.now k) }
    ensures some { 4 ≤ result.1 }
{
    let Some(probe) = needle.probe() else {
        // An empty needle occurs at each offset.
        return (Stop::found(from), TRIES_BETWEEN_PAIRS);
    };
    let end = end_by_two(units, from, probe.distance);
    let window = OFFSETS_BY_PAIRS.max(probe.distance);
    let (mut at, mut costs) = (from, Costs::new(gap));
    while at < end {
        let (_, rest) = units.split_at(at);
        let count = window.min(end - at);
        let step = skip(rest, count, probe);
        tick(steps, step);
        tick(steps, LANES);
        if step == count {
            return (Stop::unfound(at + count), TRIES_BETWEEN_PAIRS);
        }
        let (_, here) = rest.split_at(step);
        let matched = matched(needle, here, steps);
        if matched > probe.distance {
            return (Stop::found(at + step), TRIES_BETWEEN_PAIRS);
        }
        at += step + 1;
        costs = costs.after_try(step, matched);
        match costs.turn(at - from, probe.distance, gap) {
            Turn::Pairs => {}
            Turn::Each => {
                let (stop, matched) = find_each(units, needle, at, costs.tries, matched, steps);
                if stop.is_found {
                    return (stop, TRIES_BETWEEN_PAIRS);
                }
                (at, costs) = (stop.at, costs.after_tries(stop.at - at, matched));
            }
            Turn::TwoWay => {
                if let Some(sought) = needle.as_slice() {
                    return (find_two_way(units, sought, at, steps), TRIES_BETWEEN_PAIRS);
                }
            }
            Turn::Plain => return (Stop::unfound(at), tries_in_place(needle.len())),
        }
    }
    (Stop::unfound(at), TRIES_BETWEEN_PAIRS)
}

// Searches on from an offset before which the needle does not occur, and makes one try, where its first unit occurs
// next. Returns where it found the needle, or the offset after the try, or the length if the first unit does not occur
// any more.
#[inline(always)]
fn find_next<C: Unit, P: Needle<C>>(
    units: &[C],
    needle: P,
    first: C,
    from: usize,
    steps: &mut Steps,
) -> Stop
    requires first { (rest : List C) × (P.sought needle ≡ first ∷ rest) }
    requires within { from ≤ length units.now }
    requires before { (k : ℕ) → k < from → ¬ (OccursAt (P.sought needle) units.now k) }
    ensures steps { AddsAtMost steps.old steps.new (17 * (result.at - from) + length (P.sought needle) + 16) }
    ensures unfound { ¬ (IsTrue result.is_found) → from < length units.now → AddsAtMost steps.old steps.new (17 * (result.at - from) + length (P.sought needle)) }
    ensures none_left { ¬ (IsTrue result.is_found) → from < length units.now → length units.now + 1 < result.at + length (P.sought needle) → AddsAtMost steps.old steps.new (17 * (result.at - from)) }
    ensures after { from ≤ result.at }
    ensures within { result.at ≤ length units.now }
    ensures further { from < length units.now → ¬ (IsTrue result.is_found) → from < result.at }
    ensures here { IsTrue result.is_found → OccursAt (P.sought needle) units.now result.at }
    ensures before { (k : ℕ) → k < result.at → ¬ (OccursAt (P.sought needle) units.now k) }
{
    let (_, rest) = units.split_at(from);
    tick(steps, LANES);
    let Some(step) = first_of(rest, first.code()) else {
        tick(steps, rest.len());
        return Stop::unfound(units.len());
    };
    tick(steps, step);
    let (_, here) = rest.split_at(step);
    if begins_after_first(needle, here, steps) {
        return Stop::found(from + step);
    }
    Stop::unfound(from + step + 1)
}

// Searches on from an offset before which the needle does not occur, and makes at most `most` tries where its first
// unit occurs. Returns where it found the needle, or where it stopped. If that is the length, the needle does not
// occur.
fn find_by_first<C: Unit, P: Needle<C>>(
    units: &[C],
    needle: P,
    first: C,
    from: usize,
    most: usize,
    steps: &mut Steps,
) -> Stop
    requires first { (rest : List C) × (P.sought needle ≡ first ∷ rest) }
    requires within { from ≤ length units.now }
    requires some { 0 < most }
    requires before { (k : ℕ) → k < from → ¬ (OccursAt (P.sought needle) units.now k) }
    ensures narrow { length (P.sought needle) ≤ 512 → AddsAtMost steps.old steps.new (529 * (result.at - from) + 528) }
    ensures narrow_unfound { ¬ (IsTrue result.is_found) → length (P.sought needle) ≤ 512 → AddsAtMost steps.old steps.new (529 * (result.at - from)) }
    ensures wide { most ≤ 48 → AddsAtMost steps.old steps.new (17 * (result.at - from) + 49 * length (P.sought needle) + 16) }
    ensures left { ¬ (IsTrue result.is_found) → counted steps.new + whole_tries (P.sought needle) units.now result.at ≤ counted steps.old + 17 * (result.at - from) + whole_tries (P.sought needle) units.now from }
    ensures tried { ¬ (IsTrue result.is_found) → result.at < length units.now → from + most ≤ result.at }
    ensures after { from ≤ result.at }
    ensures within { result.at ≤ length units.now }
    ensures further { from < length units.now → ¬ (IsTrue result.is_found) → from < result.at }
    ensures here { IsTrue result.is_found → OccursAt (P.sought needle) units.now result.at }
    ensures before { (k : ℕ) → k < result.at → ¬ (OccursAt (P.sought needle) units.now k) }
{
    let mut at = from;
    let mut tries = most;
    while at < units.len() && tries > 0 {
        let stop = find_next(units, needle, first, at, steps);
        if stop.is_found {
            return stop;
        }
        at = stop.at;
        tries -= 1;
    }
    Stop::unfound(at)
}

// Searches on from an offset before which the needle does not occur. Returns the offset of its first occurrence, or
// `None`. Where its first unit is frequent, the search by two units takes over for a while.
#[inline(never)]
fn find_after<C: Unit, P: Needle<C>>(
    units: &[C],
    needle: P,
    first: C,
    from: usize,
    steps: &mut Steps,
) -> Option<usize>
    requires first { (rest : List C) × (P.sought needle ≡ first ∷ rest) }
    requires within { from ≤ length units.now }
    requires before { (k : ℕ) → k < from → ¬ (OccursAt (P.sought needle) units.now k) }
    ensures steps { length units.now < 2 ^ 57 → AddsAtMost steps.old steps.new (600 * length units.now + 300 * length (P.sought needle) + 4400) }
    ensures first { IfSome result (IsFirstAt (P.sought needle) units.now) }
    ensures none { IfNone result (OccursNowhere (P.sought needle) units.now) }
{
    let mut at = from;
    let mut tries = TRIES_BEFORE_PAIRS;
    while at < units.len() {
        let stop = find_by_first(units, needle, first, at, tries, steps);
        if stop.is_found {
            return Some(stop.at);
        }
        if stop.at == units.len() {
            return None;
        }
        let gap = (stop.at - at) / tries;
        at = stop.at;
        let is_frequent = gap < FREQUENT_GAP + needle.len() / NEEDLE_UNITS_PER_GAP_UNIT;
        if is_frequent && units.len() - at > needle.len().saturating_add(SHORT_TEXT) {
            let (stop, next) = find_by_two(units, needle, at, gap, steps);
            if stop.is_found {
                return Some(stop.at);
            }
            (at, tries) = (stop.at, next);
        }
    }
    None
}

// Searches on from an offset before which the needle does not occur, if any unit is left there. Returns the offset of
// the needle's first occurrence, or `None`. It is a function of its own, so that `find_in` can end with one call, and
// so saves no register where the needle is found at the first try.
#[inline(never)]
fn find_rest<C: Unit, P: Needle<C>>(
    units: &[C],
    needle: P,
    first: C,
    from: usize,
    steps: &mut Steps,
) -> Option<usize>
    requires first { (rest : List C) × (P.sought needle ≡ first ∷ rest) }
    requires within { from ≤ length units.now }
    requires before { (k : ℕ) → k < from → ¬ (OccursAt (P.sought needle) units.now k) }
    ensures steps { length units.now < 2 ^ 57 → AddsAtMost steps.old steps.new (600 * length units.now + 300 * length (P.sought needle) + 4400) }
    ensures first { IfSome result (IsFirstAt (P.sought needle) units.now) }
    ensures none { IfNone result (OccursNowhere (P.sought needle) units.now) }
{
    if from == units.len() {
        return None;
    }
    find_after(units, needle, first, from, steps)
}

// Returns the offset of the first occurrence of the needle, or `None`. Most needles are found at the first try, so that
// is made before anything is counted.
pub(crate) fn find_in<C: Unit, P: Needle<C>>(
    units: &[C],
    needle: P,
    steps: &mut Steps,
) -> Option<usize>
    ensures steps { length units.now < 2 ^ 57 → AddsAtMost steps.old steps.new (617 * length units.now + 301 * length (P.sought needle) + 4416) }
    ensures first { IfSome result (IsFirstAt (P.sought needle) units.now) }
    ensures none { IfNone result (OccursNowhere (P.sought needle) units.now) }
{
    let Some(first) = needle.first() else {
        // An empty needle occurs at each offset.
        return Some(0);
    };
    let stop = find_next(units, needle, first, 0, steps);
    if stop.is_found {
        return Some(stop.at);
    }
    find_rest(units, needle, first, stop.at, steps)
}
