//! Searches for units in units without regard to the case of ASCII letters: whether the units begin or end with a
//! needle, and where it occurs. A letter past ASCII differs from the one in the other case. An empty needle occurs at
//! each offset.

ghost use Rattle.std.specs.Prelude.{◌≡◌, ◌↔◌, ◌+◌, ◌-◌, ◌*◌, ◌^◌, ◌<◌, ◌≤◌, ℕ, IsTrue, IfNone, IfSome, length, map};
ghost use Rattle.wide_search.specs.Lowercased.{lowercased};
ghost use Rattle.wide_unit.specs.CommonPrefix.{IsCommonPrefix};
ghost use Rattle.wide_steps.specs.Counted.{counted, AddsAtMost};
ghost use Rattle.wide_search.specs.Occurrences.{BeginsWith, EndsWith, IsFirstAt, OccursAt, OccursNowhere};

use crate::costs::{Costs, Turn};
use crate::limits::MATCHED_PER_NEEDLE_UNIT;
use crate::pairs::first_pair_in_lower_case;
use crate::two_way::{Stop, find_two_way_in_lower_case};
use wide_steps::{Steps, tick};
use wide_unit::{Unit, common_prefix_ignore_ascii_case};

// Returns the first offset before `count` at which the needle's first and last unit both match, or `count`. The needle
// does not occur before it.
#[inline(always)]
fn skip<C: Unit>(units: &[C], needle: &[C], count: usize) -> usize
    requires some { 0 < length needle.now }
    requires fits { count + length needle.now ≤ length units.now + 1 }
    ensures within { result ≤ count }
    ensures before { (k : ℕ) → k < result → ¬ (OccursAt (lowercased (map C.number needle.now)) (lowercased (map C.number units.now)) k) }
{
    let distance = needle.len() - 1;
    let (_, rest) = units.split_at(distance);
    let (lasts, _) = rest.split_at(count);
    let (firsts, _) = units.split_at(count);
    first_pair_in_lower_case(firsts, lasts, needle[0], needle[distance])
}

// The greatest number of units that a SIMD block has: so many more than those that decide may be compared.
const LANES: usize = 16;

// Returns how many units at the beginning are those of the needle, without regard to the case of ASCII letters, and
// counts the units that are compared.
#[inline(always)]
fn compared<C: Unit>(needle: &[C], units: &[C], steps: &mut Steps) -> usize
    ensures steps { counted steps.new ≡ counted steps.old + result + 1 }
    ensures shared { IsCommonPrefix (lowercased (map C.number needle.now)) (lowercased (map C.number units.now)) result }
{
    let matched = common_prefix_ignore_ascii_case(needle, units);
    tick(steps, matched);
    tick(steps, 1);
    matched
}

// Searches on from an offset before which the needle does not occur, offset by offset. It makes `tries` tries, or fewer
// if it reaches the end of the text or too many units match. Returns where it stopped, and how many units matched in
// vain. It counts what each try compares.
#[inline(never)]
fn find_each<C: Unit>(
    units: &[C],
    needle: &[C],
    from: usize,
    tries: usize,
    steps: &mut Steps,
) -> (Stop, usize)
    requires within { from ≤ length units.now }
    requires before { (k : ℕ) → k < from → ¬ (OccursAt (lowercased (map C.number needle.now)) (lowercased (map C.number units.now)) k) }
    ensures steps { length needle.now < 2 ^ 57 → AddsAtMost steps.old steps.new (result.0.at - from + result.1 + length needle.now + 1) }
    ensures matched { length needle.now < 2 ^ 57 → result.1 ≤ 65 * length needle.now }
    ensures unfound { ¬ (IsTrue result.0.is_found) → length needle.now < 2 ^ 57 → AddsAtMost steps.old steps.new (result.0.at - from + result.1) }
    ensures after { from ≤ result.0.at }
    ensures within { result.0.at ≤ length units.now }
    ensures here { IsTrue result.0.is_found → OccursAt (lowercased (map C.number needle.now)) (lowercased (map C.number units.now)) result.0.at }
    ensures before { (k : ℕ) → k < result.0.at → ¬ (OccursAt (lowercased (map C.number needle.now)) (lowercased (map C.number units.now)) k) }
{
    let end = from.saturating_add(tries).min(units.len());
    let most = needle.len().saturating_mul(MATCHED_PER_NEEDLE_UNIT);
    let (mut at, mut all_matched) = (from, 0usize);
    while at < end && all_matched <= most {
        let (_, here) = units.split_at(at);
        let matched = compared(needle, here, steps);
        if matched == needle.len() {
            return (Stop::found(at), all_matched);
        }
        // A sum that wraps would change the time alone.
        all_matched = all_matched.wrapping_add(matched);
        at += 1;
    }
    (Stop::unfound(at), all_matched)
}

// Returns the offset of the first occurrence of a needle that is not empty, or `None`. Units are compared where both
// the first and the last unit match, or at each offset if they match nearly everywhere. If too many units were compared
// in vain, the two-way search takes over for a while. It counts the offsets that are passed over in SIMD lanes, and the
// comparisons.
fn find_by_two<C: Unit>(units: &[C], needle: &[C], steps: &mut Steps) -> Option<usize>
    requires some { 0 < length needle.now }
    requires fits { length needle.now ≤ length units.now }
    ensures steps { length units.now < 2 ^ 57 → AddsAtMost steps.old steps.new (60 * length units.now + 150 * length needle.now + 50) }
    ensures first { IfSome result (IsFirstAt (lowercased (map C.number needle.now)) (lowercased (map C.number units.now))) }
    ensures none { IfNone result (OccursNowhere (lowercased (map C.number needle.now)) (lowercased (map C.number units.now))) }
{
    let distance = needle.len() - 1;
    let end = units.len() - distance;
    let (mut at, mut since, mut costs) = (0, 0, Costs::new(0));
    while at < end {
        let (_, rest) = units.split_at(at);
        let step = skip(rest, needle, end - at);
        tick(steps, step);
        tick(steps, LANES);
        if step == end - at {
            return None;
        }
        let (_, here) = rest.split_at(step);
        let matched = compared(needle, here, steps);
        if matched > distance {
            return Some(at + step);
        }
        at += step + 1;
        costs = costs.after_try(step, matched);
        let stop = match costs.turn(at - since, distance, 0) {
            Turn::Pairs | Turn::Plain => continue,
            Turn::Each => {
                let (stop, matched) = find_each(units, needle, at, costs.tries, steps);
                costs = costs.after_tries(stop.at - at, matched);
                stop
            }
            Turn::TwoWay => {
                let stop = find_two_way_in_lower_case(units, needle, at, steps);
                (since, costs) = (stop.at, Costs::new(0));
                stop
            }
        };
        if stop.is_found {
            return Some(stop.at);
        }
        at = stop.at;
    }
    None
}

/// Returns the offset in units of the first occurrence of the needle without regard to the case of ASCII letters, or
/// `None` if it does not occur. An empty needle occurs at the beginning.
///
/// It looks, vectorized, for offsets at which the needle's first and last unit both match in either case, and compares
/// units there up to one that differs. Where both match nearly everywhere, it compares at each offset. If it compares
/// too many units in vain, as it may if the needle repeats itself, it changes to the two-way search. So the time is
/// linear in both lengths in the worst case. It does not allocate.
///
/// It counts the comparisons of two units, and the offsets that it passes over in SIMD lanes.
pub fn find_ignore_ascii_case_counted<C: Unit>(
    units: &[C],
    needle: &[C],
    steps: &mut Steps,
) -> Option<usize>
    ensures steps { length units.now < 2 ^ 57 → AddsAtMost steps.old steps.new (60 * length units.now + 150 * length needle.now + 50) }
    ensures first { IfSome result (IsFirstAt (lowercased (map C.number needle.now)) (lowercased (map C.number units.now))) }
    ensures none { IfNone result (OccursNowhere (lowercased (map C.number needle.now)) (lowercased (map C.number units.now))) }
    ensures within { IfSome result (λ at. at + length needle.now ≤ length units.now) }
{
    if needle.is_empty() {
        return Some(0);
    }
    if units.len() < needle.len() {
        return None;
    }
    find_by_two(units, needle, steps)
}

/// Returns the offset in units of the first occurrence of the needle without regard to the case of ASCII letters, or
/// `None` if it does not occur. An empty needle occurs at the beginning. It calls
/// [`find_ignore_ascii_case_counted`], whose contract bounds the time.
pub fn find_ignore_ascii_case<C: Unit>(units: &[C], needle: &[C]) -> Option<usize>
    ensures first { IfSome result (IsFirstAt (lowercased (map C.number needle.now)) (lowercased (map C.number units.now))) }
    ensures none { IfNone result (OccursNowhere (lowercased (map C.number needle.now)) (lowercased (map C.number units.now))) }
    ensures within { IfSome result (λ at. at + length needle.now ≤ length units.now) }
{
    find_ignore_ascii_case_counted(units, needle, &mut Steps::new())
}

/// Returns whether the units begin with those of the needle, without regard to the case of ASCII letters. They do if
/// the needle is empty.
pub fn starts_with_ignore_ascii_case<C: Unit>(units: &[C], needle: &[C]) -> bool
    ensures { IsTrue result ↔ BeginsWith (lowercased (map C.number needle.now)) (lowercased (map C.number units.now)) }
{
    common_prefix_ignore_ascii_case(needle, units) == needle.len()
}

/// Returns whether the units end with those of the needle, without regard to the case of ASCII letters. They do if the
/// needle is empty.
pub fn ends_with_ignore_ascii_case<C: Unit>(units: &[C], needle: &[C]) -> bool
    ensures { IsTrue result ↔ EndsWith (lowercased (map C.number needle.now)) (lowercased (map C.number units.now)) }
{
    if units.len() < needle.len() {
        return false;
    }
    let (_, end) = units.split_at(units.len() - needle.len());
    common_prefix_ignore_ascii_case(needle, end) == needle.len()
}
