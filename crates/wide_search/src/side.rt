//! Units counted from the beginning of a list, or from its end, and what is read of each. The two-way search is written
//! once over any side: a search from the back is one from the front in the reversed units, for the reversed needle, and
//! one without regard to the case of ASCII letters reads the number of each unit in lower case.

ghost use Rattle.std.specs.Prelude.{◌≡◌, ◌+◌, ◌<◌, ◌≤◌, ℕ, length, map, true, false};
ghost use Rattle.std.specs.Char.{to_ascii_lowercase};
ghost use Rattle.std.specs.Str.TwoWay.{item_from};
ghost use Rattle.wide_search.specs.NextOccurrences.{number_from, number_read, OccursFrom};

use crate::pairs::first_pair;
use wide_unit::{Unit, ascii_lowercase, common_prefix};

// The side of a list from which its units are counted, and what is read of each.
pub(crate) trait Side: Copy {
    ghost use Rattle.std.specs.Prelude.{Bool, ℕ};

    // Whether units are counted from the end of the list.
    ghost BACK: { Bool };

    // What is read of the number of a unit.
    ghost READ: { ℕ → ℕ };

    // Returns what is read of the unit at an index counted from this side.
    fn unit<C: Unit>(units: &[C], index: usize) -> u32
        requires { index < length units.now }
        ensures { result ≡ item_from BACK (length units.now) (map (number_read READ C.number) units.now) index };

    // Returns how many units of the needle from an index on, but before `end`, are those of the text if the needle is at
    // `at`. It compares them in SIMD lanes, or where that is not written returns 0.
    fn same_from<C: Unit>(units: &[C], needle: &[C], at: usize, from: usize, end: usize) -> usize
        requires fits { at + length needle.now ≤ length units.now }
        requires within { end ≤ length needle.now }
        requires ordered { from ≤ end }
        ensures within { from + result ≤ end }
        ensures same { (k : ℕ) → from ≤ k → k < from + result → number_from BACK (number_read READ C.number) units.now (at + k) ≡ number_from BACK (number_read READ C.number) needle.now k };

    // Returns how many of `count` offsets are passed over, at none of which the units at two indices of the needle
    // match. It reads them in SIMD lanes, or where that is not written passes over none.
    fn passed<C: Unit>(
        units: &[C],
        needle: &[C],
        from: usize,
        count: usize,
        one: usize,
        other: usize,
    ) -> usize
        requires fits { from + count + length needle.now ≤ length units.now + 1 }
        requires one { one < length needle.now }
        requires other { other < length needle.now }
        ensures within { result ≤ count }
        ensures before { (k : ℕ) → from ≤ k → k < from + result → ¬ (OccursFrom BACK (number_read READ C.number) needle.now units.now k) };
}

// Units are counted from the beginning.
#[derive(Clone, Copy)]
pub(crate) struct Front;

// Units are counted from the end.
#[derive(Clone, Copy)]
pub(crate) struct Back;

// Units are counted from the beginning, and read in lower case.
#[derive(Clone, Copy)]
pub(crate) struct FrontInLowerCase;

impl Side for Front {
    ghost BACK = { false };

    ghost READ = { λ number. number };

    #[inline(always)]
    fn unit<C: Unit>(units: &[C], index: usize) -> u32 {
        units[index].code()
    }

    fn same_from<C: Unit>(units: &[C], needle: &[C], at: usize, from: usize, end: usize) -> usize {
        let (_, here) = units.split_at(at + from);
        let (here, _) = here.split_at(end - from);
        let (_, rest) = needle.split_at(from);
        let (rest, _) = rest.split_at(end - from);
        common_prefix(rest, here)
    }

    #[inline(always)]
    fn passed<C: Unit>(
        units: &[C],
        needle: &[C],
        from: usize,
        count: usize,
        one: usize,
        other: usize,
    ) -> usize {
        let (_, rest) = units.split_at(from + one);
        let (front, _) = rest.split_at(count);
        let (_, rest) = units.split_at(from + other);
        let (back, _) = rest.split_at(count);
        first_pair(front, back, needle[one], needle[other])
    }
}

impl Side for Back {
    ghost BACK = { true };

    ghost READ = { λ number. number };

    #[inline(always)]
    fn unit<C: Unit>(units: &[C], index: usize) -> u32 {
        units[units.len() - 1 - index].code()
    }

    #[inline(always)]
    fn same_from<C: Unit>(
        _units: &[C],
        _needle: &[C],
        _at: usize,
        _from: usize,
        _end: usize,
    ) -> usize {
        0
    }

    #[inline(always)]
    fn passed<C: Unit>(
        _units: &[C],
        _needle: &[C],
        _from: usize,
        _count: usize,
        _one: usize,
        _other: usize,
    ) -> usize {
        0
    }
}

impl Side for FrontInLowerCase {
    ghost BACK = { false };

    ghost READ = { to_ascii_lowercase };

    #[inline(always)]
    fn unit<C: Unit>(units: &[C], index: usize) -> u32 {
        ascii_lowercase(units[index].code())
    }

    #[inline(always)]
    fn same_from<C: Unit>(
        _units: &[C],
        _needle: &[C],
        _at: usize,
        _from: usize,
        _end: usize,
    ) -> usize {
        0
    }

    #[inline(always)]
    fn passed<C: Unit>(
        _units: &[C],
        _needle: &[C],
        _from: usize,
        _count: usize,
        _one: usize,
        _other: usize,
    ) -> usize {
        0
    }
}
