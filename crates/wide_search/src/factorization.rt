//! Where the two-way search cuts a needle: a critical factorization, by its greatest suffixes in two orders of the
//! units (M. Crochemore and D. Perrin, "Two-way string-matching"). It takes time that is linear in the needle, and
//! constant memory.

ghost use Rattle.std.specs.Prelude.{◌≡◌, ◌↔◌, ◌<◌, ◌+◌, ◌*◌, ◌≤◌, IsTrue, length, map};
ghost use Rattle.std.specs.Str.Critical.{IsRepeat, IsSuffixAt};
ghost use Rattle.std.specs.Str.TwoWay.{item_from};
ghost use Rattle.wide_search.specs.Factorizations.{IsFactorization, Precedes};
ghost use Rattle.wide_search.specs.NextOccurrences.{number_read};
ghost use Rattle.wide_steps.specs.Counted.{AddsAtMost};

use crate::side::Side;
use wide_steps::{Steps, tick};
use wide_unit::Unit;

// The two parts of a needle: its units before an index, and its units from there on.
#[derive(Clone, Copy)]
pub(crate) struct Factorization {
    // The index of the first unit of the second part.
    pub(crate) cut: usize,
    // The least period of the second part.
    pub(crate) period: usize,
    // Whether the least period of the second part is one of the whole needle.
    pub(crate) repeats: bool,
}

// The units of a needle from an index on.
#[derive(Clone, Copy)]
struct Suffix {
    // The index of the first unit of the suffix.
    start: usize,
    // The least period of the suffix.
    period: usize,
}

// Returns whether a number is before another in an order: less than it, or greater if the order is reversed.
fn precedes(number: u32, other: u32, reversed: bool) -> bool
    ensures { IsTrue result ↔ Precedes reversed number other }
{
    if reversed {
        other < number
    } else {
        number < other
    }
}

// Returns the greatest suffix of a needle in an order of the units. A suffix is less than another that begins with it.
//
// The suffix from `start` on is the greatest of those that start before `other`. Its first `matched` units are those
// from `other` on, which is a whole number of periods later. It counts each comparison of two units.
fn greatest_suffix<C: Unit, S: Side>(needle: &[C], reversed: bool, steps: &mut Steps) -> Suffix
    requires { 0 < length needle.now }
    ensures steps { AddsAtMost steps.old steps.new (2 * length needle.now) }
    ensures suffix { IsSuffixAt (Precedes reversed) (item_from S.BACK (length needle.now) (map (number_read S.READ C.number) needle.now)) (length needle.now) result.start result.period }
{
    let mut start = 0;
    let mut other = 1;
    let mut matched = 0;
    let mut period = 1;
    while other + matched < needle.len() {
        tick(steps, 1);
        let ours = S::unit(needle, start + matched);
        let theirs = S::unit(needle, other + matched);
        if precedes(theirs, ours, reversed) {
            other += matched + 1;
            matched = 0;
            period = other - start;
        } else if theirs != ours {
            start = other;
            other += 1;
            matched = 0;
            period = 1;
        } else if matched + 1 < period {
            matched += 1;
        } else {
            other += period;
            matched = 0;
        }
    }
    Suffix { start, period }
}

// Returns whether each of the last `period` units before the cut, or each of all if there are fewer, equals the unit a
// period after it. It counts each comparison.
fn repeats_at<C: Unit, S: Side>(needle: &[C], cut: usize, period: usize, steps: &mut Steps) -> bool
    requires { cut + period ≤ length needle.now }
    ensures steps { AddsAtMost steps.old steps.new cut }
    ensures repeats { IsTrue result ↔ IsRepeat (item_from S.BACK (length needle.now) (map (number_read S.READ C.number) needle.now)) (length needle.now) cut period }
{
    for index in cut.saturating_sub(period)..cut {
        tick(steps, 1);
        if S::unit(needle, index) != S::unit(needle, index + period) {
            return false;
        }
    }
    true
}

// Returns the two parts of a needle: it is cut where the later of its two greatest suffixes starts, in the order of the
// units and in the reversed order. It counts the comparisons.
pub(crate) fn factorize<C: Unit, S: Side>(needle: &[C], steps: &mut Steps) -> Factorization
    requires { 0 < length needle.now }
    ensures steps { AddsAtMost steps.old steps.new (5 * length needle.now) }
    ensures parts { IsFactorization (item_from S.BACK (length needle.now) (map (number_read S.READ C.number) needle.now)) (length needle.now) result }
{
    let ascending = greatest_suffix::<C, S>(needle, false, steps);
    let descending = greatest_suffix::<C, S>(needle, true, steps);
    let later = if ascending.start < descending.start {
        descending
    } else {
        ascending
    };
    Factorization {
        cut: later.start,
        period: later.period,
        repeats: repeats_at::<C, S>(needle, later.start, later.period, steps),
    }
}
