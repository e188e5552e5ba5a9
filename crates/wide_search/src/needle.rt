//! Needles of a search: a slice of units, or the one or two units of a character. A needle reports whether units begin
//! with it, and how many of its units match. `comparisons.rt` compares units one by one, and `wide_unit` in SIMD lanes.

ghost use Rattle.std.specs.Prelude.{◌≡◌, ◌↔◌, ◌+◌, ◌<◌, ◌≤◌, ◌∷◌, [], ℕ, List, length, map, take, IfSome, IfNone, IsTrue, MatchOption};
ghost use Rattle.wide_forms.specs.EncodingForm.{code_units};
ghost use Rattle.wide_search.specs.Occurrences.{OccursAt};
ghost use Rattle.wide_search.specs.Probes.{IsProbe};
ghost use Rattle.wide_search.specs.Sought.{units_of_few};
ghost use Rattle.wide_steps.specs.Counted.{counted, AddsAtMost};

use crate::blocks::{may_begin_with, passed_by_blocks};
use crate::comparisons::{
    COMPARED_BEFORE_BLOCKS, are_same_after_first, are_same_from_first, near_prefix, shared_prefix,
};
use wide_steps::{Steps, tick};
use wide_unit::{Unit, common_prefix};

// The first and the last unit of a needle, and how many units the last one is from the first.
#[derive(Clone, Copy)]
pub(crate) struct Probe<C> {
    pub(crate) first: C,
    pub(crate) last: C,
    pub(crate) distance: usize,
}

// What a search needs of a needle.
pub(crate) trait Needle<C: Unit>: Copy {
    // The needle's units.
    ghost sought: { Self → List C };

    // Returns the first unit, or `None` if there is none.
    fn first(self) -> Option<C>
        ensures { MatchOption result (sought self ≡ []) (λ u. (rest : List C) × (sought self ≡ u ∷ rest)) };

    // Returns the number of units.
    fn len(self) -> usize
        ensures { result ≡ length (sought self) };

    // Returns whether the units begin with the needle.
    fn is_prefix_of(self, units: &[C]) -> bool
        ensures { IsTrue result ↔ OccursAt (sought self) units.now 0 };

    // Returns whether the units begin with the needle, given that their first unit is the needle's first unit, which is
    // not compared again.
    fn is_prefix_after_first(self, units: &[C]) -> bool
        requires { take 1 (sought self) ≡ take 1 units.now }
        ensures { IsTrue result ↔ OccursAt (sought self) units.now 0 };

    // Returns false only if the units do not begin with the needle. It compares eight units at most, in one step, and
    // may return true if either list has fewer.
    fn may_be_prefix_of(self, units: &[C]) -> bool
        ensures { OccursAt (sought self) units.now 0 → IsTrue result };

    // Returns how many offsets are passed over, at most `most`, at none of which the needle occurs. At each of them it
    // compares as `may_be_prefix_of`.
    fn passed_over(self, units: &[C], most: usize) -> usize
        ensures within { result ≤ most }
        ensures before { (k : ℕ) → k < result → ¬ (OccursAt (sought self) units.now k) };

    // Returns how many units at the beginning are those of the needle, compared one by one. If there are fewer units
    // than the needle has, it may return a smaller number.
    fn matched_one_by_one(self, units: &[C]) -> usize
        ensures within { result ≤ length (sought self) }
        ensures whole { OccursAt (sought self) units.now 0 ↔ (result ≡ length (sought self)) };

    // Returns the first and the last unit, or `None` if there is none.
    fn probe(self) -> Option<Probe<C>>
        ensures { MatchOption result (sought self ≡ []) (IsProbe (sought self)) };

    // Returns how many units at the beginning are those of the needle, up to the first that differs. A long prefix is
    // compared in SIMD lanes.
    fn matched_in_blocks(self, units: &[C]) -> usize
        ensures within { result ≤ length (sought self) }
        ensures whole { OccursAt (sought self) units.now 0 ↔ (result ≡ length (sought self)) };

    // Returns the units if the needle is a slice, and `None` if it is one or two units.
    fn as_slice(&self) -> Option<&[C]>
        ensures slice { IfSome result (λ units. units.now ≡ sought self.now) }
        ensures few { IfNone result (length (sought self.now) ≤ 2) };
}

// Returns whether the units begin with the needle. It counts a step for each unit of the needle.
#[inline(always)]
pub(crate) fn begins_with<C: Unit, P: Needle<C>>(needle: P, units: &[C], steps: &mut Steps) -> bool
    ensures steps { counted steps.new ≡ counted steps.old + length (P.sought needle) }
    ensures begins { IsTrue result ↔ OccursAt (P.sought needle) units.now 0 }
{
    tick(steps, needle.len());
    needle.is_prefix_of(units)
}

// Returns whether the units begin with the needle, given that their first unit is the needle's first unit. It counts a
// step for each unit of the needle, unless there are fewer units.
#[inline(always)]
pub(crate) fn begins_after_first<C: Unit, P: Needle<C>>(
    needle: P,
    units: &[C],
    steps: &mut Steps,
) -> bool
    requires { take 1 (P.sought needle) ≡ take 1 units.now }
    ensures steps { AddsAtMost steps.old steps.new (length (P.sought needle)) }
    ensures short { length units.now < length (P.sought needle) → counted steps.new ≡ counted steps.old }
    ensures begins { IsTrue result ↔ OccursAt (P.sought needle) units.now 0 }
{
    if units.len() >= needle.len() {
        tick(steps, needle.len());
    }
    needle.is_prefix_after_first(units)
}

// The greatest number of units that a call of `Needle::matched_in_blocks` compares beside those that match: eight that
// it compares one by one before, and a block.
pub(crate) const COMPARED_BESIDE: usize = 24;

// Returns how many units at the beginning are those of the needle, up to the first that differs. It counts a step for
// each unit that is compared.
#[inline(always)]
pub(crate) fn matched<C: Unit, P: Needle<C>>(needle: P, units: &[C], steps: &mut Steps) -> usize
    ensures steps { counted steps.new ≡ counted steps.old + result + 24 }
    ensures within { result ≤ length (P.sought needle) }
    ensures whole { OccursAt (P.sought needle) units.now 0 ↔ (result ≡ length (P.sought needle)) }
{
    let matched = needle.matched_in_blocks(units);
    tick(steps, matched);
    tick(steps, COMPARED_BESIDE);
    matched
}

// A needle that is a slice.
#[derive(Clone, Copy)]
pub(crate) struct Slice<'a, C> {
    pub(crate) units: &'a [C],
}

impl<C: Unit> Needle<C> for Slice<'_, C> {
    ghost sought = { λ needle. needle.units.now };

    fn first(self) -> Option<C> {
        self.units.first().copied()
    }

    fn len(self) -> usize {
        self.units.len()
    }

    fn is_prefix_of(self, units: &[C]) -> bool {
        if units.len() < self.units.len() {
            return false;
        }
        let (prefix, _) = units.split_at(self.units.len());
        are_same_from_first(prefix, self.units)
    }

    fn is_prefix_after_first(self, units: &[C]) -> bool {
        if units.len() < self.units.len() {
            return false;
        }
        let (prefix, _) = units.split_at(self.units.len());
        are_same_after_first(prefix, self.units)
    }

    #[inline(always)]
    fn may_be_prefix_of(self, units: &[C]) -> bool {
        may_begin_with(units, self.units)
    }

    fn passed_over(self, units: &[C], most: usize) -> usize {
        passed_by_blocks(units, self.units, most)
    }

    fn matched_one_by_one(self, units: &[C]) -> usize {
        if units.len() < self.units.len() {
            return 0;
        }
        let (prefix, _) = units.split_at(self.units.len());
        shared_prefix(self.units, prefix)
    }

    fn probe(self) -> Option<Probe<C>> {
        let distance = self.units.len().checked_sub(1)?;
        Some(Probe {
            first: self.units[0],
            last: self.units[distance],
            distance,
        })
    }

    fn matched_in_blocks(self, units: &[C]) -> usize {
        let near = near_prefix(self.units, units);
        if near < COMPARED_BEFORE_BLOCKS {
            return near;
        }
        common_prefix(self.units, units)
    }

    fn as_slice(&self) -> Option<&[C]> {
        Some(self.units)
    }
}

// A needle of one unit or two.
#[derive(Clone, Copy)]
pub(crate) struct Few<C> {
    pub(crate) first: C,
    pub(crate) second: Option<C>,
}

impl<C: Unit> Few<C> {
    // Creates a needle of one unit.
    pub(crate) fn one(unit: C) -> Self
        ensures { units_of_few result ≡ unit ∷ [] }
    {
        Few {
            first: unit,
            second: None,
        }
    }

    // Creates a needle of the units of a character.
    pub(crate) fn of_char(c: char) -> Self
        ensures { map C.number (units_of_few result) ≡ code_units C.form c }
    {
        let (first, second) = C::encode_char(c);
        Few { first, second }
    }
}

impl<C: Unit> Needle<C> for Few<C> {
    ghost sought = { units_of_few };

    fn first(self) -> Option<C> {
        Some(self.first)
    }

    fn len(self) -> usize {
        match self.second {
            None => 1,
            Some(_) => 2,
        }
    }

    fn is_prefix_of(self, units: &[C]) -> bool {
        match (self.second, units) {
            (None, [first, ..]) => first.code() == self.first.code(),
            (Some(low), [first, second, ..]) => {
                first.code() == self.first.code() && second.code() == low.code()
            }
            _ => false,
        }
    }

    fn is_prefix_after_first(self, units: &[C]) -> bool {
        self.is_prefix_of(units)
    }

    fn may_be_prefix_of(self, units: &[C]) -> bool {
        self.is_prefix_of(units)
    }

    fn passed_over(self, _units: &[C], _most: usize) -> usize {
        0
    }

    fn matched_one_by_one(self, units: &[C]) -> usize {
        self.matched_in_blocks(units)
    }

    fn probe(self) -> Option<Probe<C>> {
        let (last, distance) = match self.second {
            None => (self.first, 0),
            Some(second) => (second, 1),
        };
        Some(Probe {
            first: self.first,
            last,
            distance,
        })
    }

    fn matched_in_blocks(self, units: &[C]) -> usize {
        let [first, rest @ ..] = units else {
            return 0;
        };
        if first.code() != self.first.code() {
            return 0;
        }
        match (self.second, rest) {
            (Some(low), [second, ..]) if second.code() == low.code() => 2,
            _ => 1,
        }
    }

    fn as_slice(&self) -> Option<&[C]> {
        None
    }
}
