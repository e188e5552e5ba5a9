//! What a search by two units of a needle has cost (W. Mula, "SIMD-friendly algorithms for substring searching"), and
//! which method follows from that. A try that fails is paid from a credit, and units that are compared in vain are
//! counted. This affects only how long a search takes, never what it finds.

ghost use Rattle.std.specs.Prelude.{◌≡◌, ◌+◌, ◌*◌, ◌<◌, ◌≤◌, ◌^◌, ◌-◌, true, false};
ghost use Rattle.wide_search.specs.Costs.{is_two_way, is_plain};

use crate::limits::{
    COMPARED_PER_OFFSET, COMPARED_PER_TRY, DENSE_GAP, DENSE_TRIES_ON_CREDIT,
    FIRST_TRIES_ONE_BY_ONE, GAPS_PER_TRY, LEAST_COUNTED, LEAST_LONG_DISTANCE, LEAST_SPARSE_GAP,
    MOST_TRIES_ONE_BY_ONE, OFFSETS_PER_DENSE_TRY, OFFSETS_PER_FACTORED, TRIES_ON_CREDIT,
};

// What follows a try that failed in a search by two units.
#[derive(Clone, Copy)]
pub(crate) enum Turn {
    // The search by two units continues.
    Pairs,
    // Some offsets are tried one by one.
    Each,
    // The two-way search takes over. A needle of one or two units never comes to that: it is never compared in vain.
    TwoWay,
    // The plain loop, which looks for the first unit alone, follows. That needs a gap greater than 0, which a search
    // from the back does not know, so it follows from the front only.
    Plain,
}

// What a search by two units has spent on tries that failed.
#[derive(Clone, Copy)]
pub(crate) struct Costs {
    // How many units were compared in vain, but for tries at which few were.
    pub(crate) wasted: usize,
    // What is left of the credit for tries. Each offset that is passed over restores one.
    credit: usize,
    // The greatest value of the credit.
    most: usize,
    // What a try takes from the credit.
    price: usize,
    // How many offsets are tried one by one when the credit is spent.
    pub(crate) tries: usize,
}

impl Costs {
    // Returns the costs before the first try, where the needle's first unit occurs once in `gap` units. From the back
    // that is not known, and the gap is 0.
    pub(crate) fn new(gap: usize) -> Self
        ensures { result.wasted ≡ 0 }
    {
        let (price, count) = if gap < DENSE_GAP {
            (OFFSETS_PER_DENSE_TRY, DENSE_TRIES_ON_CREDIT)
        } else {
            (gap.saturating_mul(GAPS_PER_TRY), TRIES_ON_CREDIT)
        };
        let most = price.saturating_mul(count);
        Costs {
            wasted: 0,
            credit: most,
            most,
            price,
            tries: FIRST_TRIES_ONE_BY_ONE,
        }
    }

    // Returns the costs after a try at which `matched` units matched, when `passed` offsets had been passed over since
    // the try before.
    pub(crate) fn after_try(self, passed: usize, matched: usize) -> Self
        ensures grows { self.wasted ≤ result.wasted }
        ensures counts { result.wasted < 2 ^ 64 - 1 → self.wasted + matched ≤ result.wasted + 3 }
    {
        let wasted = if matched < LEAST_COUNTED {
            0
        } else {
            matched.saturating_add(COMPARED_PER_TRY)
        };
        let restored = self.credit.saturating_add(passed).min(self.most);
        Costs {
            wasted: self.wasted.saturating_add(wasted),
            credit: restored.saturating_sub(self.price),
            most: self.most,
            price: self.price,
            tries: if passed < LEAST_SPARSE_GAP {
                self.tries
            } else {
                FIRST_TRIES_ONE_BY_ONE
            },
        }
    }

    // Returns the costs after `tried` offsets were tried one by one, at which `matched` units matched. The credit then
    // pays for one more try. The next time, twice as many offsets are tried, unless `after_try` resets their number
    // because the next pair is far.
    pub(crate) fn after_tries(self, tried: usize, matched: usize) -> Self
        ensures grows { self.wasted ≤ result.wasted }
        ensures counts { result.wasted < 2 ^ 64 - 1 → self.wasted + matched ≤ result.wasted + 4 * tried }
    {
        let wasted = if matched / LEAST_COUNTED < tried {
            0
        } else {
            matched.saturating_add(tried.saturating_mul(COMPARED_PER_TRY))
        };
        Costs {
            wasted: self.wasted.saturating_add(wasted),
            credit: self.price,
            most: self.most,
            price: self.price,
            tries: self.tries.saturating_mul(2).min(MOST_TRIES_ONE_BY_ONE),
        }
    }

    // Returns what follows a try that failed, when `passed` offsets were passed over since the search began or the
    // two-way search ended. The last unit of the needle is at `distance` from the first, which occurs once in `gap`
    // units.
    //
    // The two-way search takes over if so many units were compared in vain that it would have passed over the same
    // offsets in less time, its factorization of the needle included. If the credit is spent, tries at the first unit
    // take less time, unless the needle is long, or tries at each offset where that unit occurs nearly everywhere or
    // the needle repeats itself.
    pub(crate) fn turn(self, passed: usize, distance: usize, gap: usize) -> Turn
        ensures wasted { is_two_way result ≡ false → self.wasted ≤ 16 * (passed + 4 * distance + 4) }
        ensures plain { is_plain result ≡ true → distance < 512 }
    {
        let saved = (self.wasted / COMPARED_PER_OFFSET).saturating_sub(passed);
        if saved / OFFSETS_PER_FACTORED > distance {
            return Turn::TwoWay;
        }
        if self.credit > 0 {
            return Turn::Pairs;
        }
        if gap < DENSE_GAP || saved > 0 {
            Turn::Each
        } else if distance < LEAST_LONG_DISTANCE {
            Turn::Plain
        } else {
            Turn::Pairs
        }
    }
}
