//! Searches two lists, `front` and `back`, for an index at which `front` has one given unit and `back` another.
//!
//! If `back` is `front` from a distance on, a needle that has these two units at this distance can occur only at such
//! an index. Few indices pass even if one of the units is frequent. The blocks of both lists are compared in SIMD
//! lanes: sixteen 16-bit units, or eight 32-bit units, in one step (W. Mula, "SIMD-friendly algorithms for substring
//! searching").
//!
//! Each unit is compared with two numbers. Without regard to the case of ASCII letters they are those of a letter in
//! either case. In an exact search both are the same variable, and the compiler leaves one comparison.

ghost use Rattle.std.specs.Prelude.{◌≡◌, ◌+◌, ◌<◌, ◌≤◌, ℕ, length, map};
ghost use Rattle.std.proofs.Common.{rules};
ghost use Rattle.std.specs.Char.{to_ascii_lowercase};
ghost use Rattle.std.specs.Simd.Lanes.{mask_l, zip2};
ghost use Rattle.wide_search.specs.Lowercased.{lowercased};
ghost use Rattle.wide_search.specs.Probes.{are_either, BothMatchAt, EitherMatchesAt};

use crate::either::{Either, exactly, in_either_case, narrow};
use std::simd::prelude::*;
use wide_unit::{AnyUnits, Unit};

// A code unit that fits a SIMD lane.
trait Lane: Copy {
    ghost use Rattle.std.specs.Prelude.{ℕ};

    // The number that a unit is.
    ghost number: { Self → ℕ };

    ghost COUNT: { ℕ };

    // How many lanes a block has.
    const COUNT: usize;

    // Returns whether `self` is one of `first`, and `other` one of `last`.
    fn are_either(self, other: Self, first: Either<Self>, last: Either<Self>) -> bool
        ensures { result ≡ are_either number first last (number self) (number other) };

    // Returns a bit mask: bit k is set if unit k of `front` is one of `first`, and unit k of `back` one of `last`.
    fn bits(front: &[Self], back: &[Self], first: Either<Self>, last: Either<Self>) -> u64
        requires front { length front.now ≡ COUNT }
        requires back { length back.now ≡ COUNT }
        ensures { result ≡ mask_l (zip2 (are_either number first last) (map number front.now) (map number back.now)) };

    ghost some_lanes: { 0 < COUNT };

    ghost few_lanes: { COUNT ≤ 64 };
}

impl Lane for u16 {
    ghost number = { λ u. u };

    ghost COUNT = { 16 };

    ghost some_lanes = { Prim.search rules };

    ghost few_lanes = { Prim.search rules };

    const COUNT: usize = 16;

    #[inline(always)]
    fn are_either(self, other: u16, first: Either<u16>, last: Either<u16>) -> bool
        ensures { result ≡ are_either (λ u. u) first last self other }
    {
        (self == first.one || self == first.other) && (other == last.one || other == last.other)
    }

    #[inline(always)]
    fn bits(front: &[u16], back: &[u16], first: Either<u16>, last: Either<u16>) -> u64
        requires front { length front.now ≡ 16 }
        requires back { length back.now ≡ 16 }
        ensures { result ≡ mask_l (zip2 (are_either (λ u. u) first last) (map (λ u. u) front.now) (map (λ u. u) back.now)) }
    {
        let front = u16x16::from_slice(front);
        let back = u16x16::from_slice(back);
        let firsts = front.simd_eq(u16x16::splat(first.one))
            | front.simd_eq(u16x16::splat(first.other));
        let lasts = back.simd_eq(u16x16::splat(last.one)) | back.simd_eq(u16x16::splat(last.other));
        (firsts & lasts).to_bitmask()
    }
}

impl Lane for u32 {
    ghost number = { λ u. u };

    ghost COUNT = { 8 };

    ghost some_lanes = { Prim.search rules };

    ghost few_lanes = { Prim.search rules };

    const COUNT: usize = 8;

    #[inline(always)]
    fn are_either(self, other: u32, first: Either<u32>, last: Either<u32>) -> bool
        ensures { result ≡ are_either (λ u. u) first last self other }
    {
        (self == first.one || self == first.other) && (other == last.one || other == last.other)
    }

    #[inline(always)]
    fn bits(front: &[u32], back: &[u32], first: Either<u32>, last: Either<u32>) -> u64
        requires front { length front.now ≡ 8 }
        requires back { length back.now ≡ 8 }
        ensures { result ≡ mask_l (zip2 (are_either (λ u. u) first last) (map (λ u. u) front.now) (map (λ u. u) back.now)) }
    {
        let front = u32x8::from_slice(front);
        let back = u32x8::from_slice(back);
        let firsts = front.simd_eq(u32x8::splat(first.one))
            | front.simd_eq(u32x8::splat(first.other));
        let lasts = back.simd_eq(u32x8::splat(last.one)) | back.simd_eq(u32x8::splat(last.other));
        (firsts & lasts).to_bitmask()
    }
}

// Returns how many indices of the block at `at` come before the first at which both units match: the whole block if
// there is none.
#[inline(always)]
fn before_pair<L: Lane>(
    front: &[L],
    back: &[L],
    at: usize,
    first: Either<L>,
    last: Either<L>,
) -> usize
    requires front { at + L.COUNT ≤ length front.now }
    requires back { at + L.COUNT ≤ length back.now }
    ensures within { result ≤ L.COUNT }
    ensures before { (k : ℕ) → k < result → ¬ (EitherMatchesAt L.number first last (map L.number front.now) (map L.number back.now) (at + k)) }
{
    let end = at + L::COUNT;
    let bits = L::bits(&front[at..end], &back[at..end], first, last);
    if bits == 0 {
        L::COUNT
    } else {
        bits.trailing_zeros() as usize
    }
}

// Returns how many indices of the block at `at` there are up to and including the last at which both units match, or 0.
#[inline(always)]
fn through_pair<L: Lane>(
    front: &[L],
    back: &[L],
    at: usize,
    first: Either<L>,
    last: Either<L>,
) -> usize
    requires front { at + L.COUNT ≤ length front.now }
    requires back { at + L.COUNT ≤ length back.now }
    ensures within { result ≤ L.COUNT }
    ensures beyond { (k : ℕ) → result ≤ k → k < L.COUNT → ¬ (EitherMatchesAt L.number first last (map L.number front.now) (map L.number back.now) (at + k)) }
{
    let end = at + L::COUNT;
    let bits = L::bits(&front[at..end], &back[at..end], first, last);
    64 - bits.leading_zeros() as usize
}

// Returns the first index at which both units match, or the length. The last block overlaps the one before it, so that
// no index is left over if there is a whole block.
#[inline(always)]
fn first_in<L: Lane>(front: &[L], back: &[L], first: Either<L>, last: Either<L>) -> usize
    requires { length front.now ≡ length back.now }
    ensures within { result ≤ length back.now }
    ensures before { (k : ℕ) → k < result → ¬ (EitherMatchesAt L.number first last (map L.number front.now) (map L.number back.now) k) }
{
    let len = back.len();
    let mut at = 0;
    while len - at >= L::COUNT {
        let step = before_pair(front, back, at, first, last);
        if step < L::COUNT {
            return at + step;
        }
        at += step;
    }
    if at < len && len >= L::COUNT {
        let start = len - L::COUNT;
        return start + before_pair(front, back, start, first, last);
    }
    while at < len && !front[at].are_either(back[at], first, last) {
        at += 1;
    }
    at
}

// Returns the index after the last one at which both units match, or 0. It reads from the end. The block that it reads
// last, at the beginning of the lists, may overlap the block after it, so that no index is left over.
#[inline(always)]
fn last_in<L: Lane>(front: &[L], back: &[L], first: Either<L>, last: Either<L>) -> usize
    requires { length front.now ≡ length back.now }
    ensures within { result ≤ length back.now }
    ensures beyond { (k : ℕ) → result ≤ k → k < length back.now → ¬ (EitherMatchesAt L.number first last (map L.number front.now) (map L.number back.now) k) }
{
    let len = back.len();
    let mut end = len;
    while end >= L::COUNT {
        let start = end - L::COUNT;
        let step = through_pair(front, back, start, first, last);
        if step > 0 {
            return start + step;
        }
        end = start;
    }
    if len >= L::COUNT {
        return through_pair(front, back, 0, first, last);
    }
    while end > 0 && !front[end - 1].are_either(back[end - 1], first, last) {
        end -= 1;
    }
    end
}

// Returns the first index at which one of `first` is in `front` and one of `last` in `back`, or the length. It reads
// both lists up to the end of the block of that index. If the lists or the numbers had different widths, which does not
// happen, it would return 0, which excludes no index.
#[inline(always)]
fn first_either<C: Unit>(front: &[C], back: &[C], first: Either<u32>, last: Either<u32>) -> usize
    requires { length front.now ≡ length back.now }
    ensures within { result ≤ length back.now }
    ensures before { (k : ℕ) → k < result → ¬ (EitherMatchesAt (λ n. n) first last (map C.number front.now) (map C.number back.now) k) }
{
    match (C::as_any(front), C::as_any(back)) {
        (AnyUnits::U16(front), AnyUnits::U16(back)) => match (narrow(first), narrow(last)) {
            (Some(first), Some(last)) => first_in(front, back, first, last),
            _ => 0,
        },
        (AnyUnits::U32(front), AnyUnits::U32(back)) => first_in(front, back, first, last),
        _ => 0,
    }
}

// Returns the index after the last one at which one of `first` is in `front` and one of `last` in `back`, or 0. If the
// lists or the numbers had different widths, which does not happen, it would return the length, which excludes no
// index.
#[inline(always)]
fn last_either<C: Unit>(front: &[C], back: &[C], first: Either<u32>, last: Either<u32>) -> usize
    requires { length front.now ≡ length back.now }
    ensures within { result ≤ length back.now }
    ensures beyond { (k : ℕ) → result ≤ k → k < length back.now → ¬ (EitherMatchesAt (λ n. n) first last (map C.number front.now) (map C.number back.now) k) }
{
    let len = back.len();
    match (C::as_any(front), C::as_any(back)) {
        (AnyUnits::U16(front), AnyUnits::U16(back)) => match (narrow(first), narrow(last)) {
            (Some(first), Some(last)) => last_in(front, back, first, last),
            _ => len,
        },
        (AnyUnits::U32(front), AnyUnits::U32(back)) => last_in(front, back, first, last),
        _ => len,
    }
}

// Returns the first index at which `first` is in `front` and `last` in `back`, or the length.
#[inline(always)]
pub(crate) fn first_pair<C: Unit>(front: &[C], back: &[C], first: C, last: C) -> usize
    requires { length front.now ≡ length back.now }
    ensures within { result ≤ length back.now }
    ensures before { (k : ℕ) → k < result → ¬ (BothMatchAt (C.number first) (C.number last) (map C.number front.now) (map C.number back.now) k) }
{
    first_either(front, back, exactly(first), exactly(last))
}

// Returns the index after the last one at which `first` is in `front` and `last` in `back`, or 0.
pub(crate) fn last_pair<C: Unit>(front: &[C], back: &[C], first: C, last: C) -> usize
    requires { length front.now ≡ length back.now }
    ensures within { result ≤ length back.now }
    ensures beyond { (k : ℕ) → result ≤ k → k < length back.now → ¬ (BothMatchAt (C.number first) (C.number last) (map C.number front.now) (map C.number back.now) k) }
{
    last_either(front, back, exactly(first), exactly(last))
}

// Returns the first index at which `first` is in `front` and `last` in `back`, or the length, without regard to the
// case of ASCII letters.
#[inline(always)]
pub(crate) fn first_pair_in_lower_case<C: Unit>(front: &[C], back: &[C], first: C, last: C) -> usize
    requires { length front.now ≡ length back.now }
    ensures within { result ≤ length back.now }
    ensures before { (k : ℕ) → k < result → ¬ (BothMatchAt (to_ascii_lowercase (C.number first)) (to_ascii_lowercase (C.number last)) (lowercased (map C.number front.now)) (lowercased (map C.number back.now)) k) }
{
    first_either(front, back, in_either_case(first), in_either_case(last))
}
