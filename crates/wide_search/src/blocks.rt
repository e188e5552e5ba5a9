//! Compares the first units of a needle with those at an offset in SIMD lanes, all in one step, so that no branch
//! depends on which of them differ: where each unit often matches by chance, a processor cannot predict such a branch.

ghost use Rattle.std.specs.Prelude.{◌≡◌, ◌<◌, ◌≤◌, ℕ, length, IsTrue};
ghost use Rattle.std.proofs.Common.{rules};
ghost use Rattle.wide_search.specs.Occurrences.{OccursAt};

use std::simd::prelude::*;
use wide_unit::{AnyUnits, Unit};

// How many units a block has. With fewer, more blocks are the same by chance; with more, each comparison reads more.
pub(crate) const BLOCK: usize = 8;

// A code unit that fits a SIMD lane.
trait Lane: Copy {
    ghost use Rattle.std.specs.Prelude.{ℕ};

    ghost COUNT: { ℕ };

    // How many lanes a block has.
    const COUNT: usize;

    // Returns whether two blocks differ.
    fn do_differ(left: &[Self], right: &[Self]) -> bool
        requires left { length left.now ≡ COUNT }
        requires right { length right.now ≡ COUNT }
        ensures { IsTrue result → ¬ (left.now ≡ right.now) };
}

impl Lane for u16 {
    ghost COUNT = { 8 };

    const COUNT: usize = BLOCK;

    #[inline(always)]
    fn do_differ(left: &[u16], right: &[u16]) -> bool {
        let differ = u16x8::from_slice(left).simd_ne(u16x8::from_slice(right));
        differ.to_bitmask() != 0
    }
}

impl Lane for u32 {
    ghost COUNT = { 8 };

    const COUNT: usize = BLOCK;

    #[inline(always)]
    fn do_differ(left: &[u32], right: &[u32]) -> bool {
        let differ = u32x8::from_slice(left).simd_ne(u32x8::from_slice(right));
        differ.to_bitmask() != 0
    }
}

// Returns false only if the units do not begin with the needle. It compares a block of each, and returns true if either
// has fewer units.
#[inline(always)]
fn may_begin<L: Lane>(needle: &[L], units: &[L]) -> bool
    ensures { OccursAt needle.now units.now 0 → IsTrue result }
{
    if needle.len() < L::COUNT || units.len() < L::COUNT {
        return true;
    }
    let (first, _) = needle.split_at(L::COUNT);
    let (here, _) = units.split_at(L::COUNT);
    !L::do_differ(first, here)
}

// Returns false only if the units do not begin with the needle. It compares a block of each, which has `BLOCK` units,
// and returns true if either has fewer.
#[inline(always)]
pub(crate) fn may_begin_with<C: Unit>(units: &[C], needle: &[C]) -> bool
    ensures { OccursAt needle.now units.now 0 → IsTrue result }
{
    match (C::as_any(needle), C::as_any(units)) {
        (AnyUnits::U16(needle), AnyUnits::U16(units)) => may_begin(needle, units),
        (AnyUnits::U32(needle), AnyUnits::U32(units)) => may_begin(needle, units),
        _ => true,
    }
}

// Returns how many offsets are passed over, at most `most`, before one at which a block does not differ. The needle
// occurs at none of them.
pub(crate) fn passed_by_blocks<C: Unit>(units: &[C], needle: &[C], most: usize) -> usize
    ensures within { result ≤ most }
    ensures before { (k : ℕ) → k < result → ¬ (OccursAt needle.now units.now k) }
{
    let end = most.min(units.len());
    let mut at = 0;
    while at < end {
        let (_, here) = units.split_at(at);
        if may_begin_with(here, needle) {
            return at;
        }
        at += 1;
    }
    at
}
