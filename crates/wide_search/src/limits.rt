//! The limits by which a search passes from one method to another: the plain loop, the search by two units (W. Mula,
//! "SIMD-friendly algorithms for substring searching") and the two-way search (M. Crochemore and D. Perrin, "Two-way
//! string-matching"). They affect only how long a search takes, never what it finds.
//!
//! Each comment begins with what is counted. A try compares the needle at one offset. The first and the last unit are
//! those of the needle, and a pair is an offset at which both match. The gap is the average distance from one
//! occurrence of the first unit to the next. Each value is a trade-off between measured inputs, which `docs/PERF.md`
//! lists: needles that are found at once and needles that are not there, units that are rare and units that
//! occur nearly everywhere, lines of equal length, and texts that repeat themselves as the needle does.

// ---- the plain loop, from either end

// Offsets. From the front the plain loop alone is used where the text that is left has at most this many units more
// than the needle, and from the back where fewer offsets than this are left. For so few, a search by two units takes
// longer to begin than it saves.
pub(crate) const SHORT_TEXT: usize = 48;

// Tries. From the back, this many offsets are tried one by one before the search by two units begins. With fewer, a
// needle that is found near the end takes longer, and with more, one that is not.
pub(crate) const TRIES_FROM_BACK: usize = 32;

// ---- from the front: when the search by two units begins

// Tries at the first unit. When this many have failed it is asked whether that unit is frequent. With fewer, a needle
// that is found soon takes longer: two to three times as long where the search by two units begins at once.
pub(crate) const TRIES_BEFORE_PAIRS: usize = 16;

// Tries at the first unit. When this many have failed after a search by two units, it is asked again whether that unit
// is frequent. They are few, since it was frequent before.
pub(crate) const TRIES_BETWEEN_PAIRS: usize = 4;

// Units of the text. The first unit is frequent if the gap is less than this. A try that fails takes about as long as
// it takes to pass over this many units that are not the first one.
pub(crate) const FREQUENT_GAP: usize = 64;

// Units of the needle. For each this many, the first unit is frequent at a gap that is one unit greater, since more
// units of a longer needle may be compared at a try.
pub(crate) const NEEDLE_UNITS_PER_GAP_UNIT: usize = 4;

// ---- from the front: how long the search by two units goes on

// Offsets. A search by two units ends after this many, or later for a long needle, since the first unit may have become
// rare by then. It ends sooner if a stretch of this many offsets has no pair; if the first and the last unit are
// further apart than that, the stretch is as long as their distance.
pub(crate) const OFFSETS_BY_PAIRS: usize = 4096;

// Offsets for each unit that the last unit is from the first. A search by two units for a long needle ends after this
// many. What it may compare in vain before the two-way search takes over grows with the needle, and so remains little
// for each offset.
pub(crate) const OFFSETS_PER_DISTANCE: usize = 16;

// Units that the last unit is from the first. At this distance and more, a search by two units that saves no time goes
// on all the same, since each try of the plain loop may compare the whole needle. With a greater limit, a needle that
// is chosen to be slow takes longer; with a smaller one, a long line among lines of its length does.
pub(crate) const LEAST_LONG_DISTANCE: usize = 512;

// Tries at the first unit. When a search by two units saves no time, this many fail before the next one begins, or
// fewer for a long needle. Where it went on all the same, a whole line among lines of its length took 2.7 times the
// instructions of the plain loop.
pub(crate) const TRIES_IN_PLACE_OF_PAIRS: usize = 512;

// Units of the needle. When a search by two units saves no time, a needle of this many units makes half of the tries at
// the first unit that a short one makes, one of twice as many units a third, and so on, since more of it may be
// compared at each.
pub(crate) const NEEDLE_UNITS_PER_SHARE: usize = 64;

// ---- the credit of a search by two units: what tries that fail take, and offsets that are passed over restore

// Units of the text. If the gap is less than this, the first unit occurs nearly everywhere: it takes less time to try
// each offset than to look for that unit.
pub(crate) const DENSE_GAP: usize = 4;

// Gaps. A try at a pair that fails takes this many times the gap from the credit, since it takes about as long as this
// many tries at the first unit.
pub(crate) const GAPS_PER_TRY: usize = 2;

// Tries at pairs. The credit is enough for this many. Each offset that is passed over restores some of it, so about
// twice as many fail before tries at the first unit are taken to need less time.
pub(crate) const TRIES_ON_CREDIT: usize = 4;

// Offsets. Where the first unit occurs nearly everywhere, a try at a pair that fails takes this many from the credit.
// For a needle of fewer than 16 units it takes about as long as this many offsets that are tried one by one.
pub(crate) const OFFSETS_PER_DENSE_TRY: usize = 8;

// Tries at pairs. Where the first unit occurs nearly everywhere, the credit is enough for this many: so few, if they
// follow each other closely, show that pairs occur nearly everywhere too.
pub(crate) const DENSE_TRIES_ON_CREDIT: usize = 2;

// ---- offsets that are tried one by one, where pairs occur nearly everywhere

// Tries. The first time that pairs occur nearly everywhere, this many offsets are tried one by one, and each next time
// twice as many. Pairs may soon be apart again, so the first number is small.
pub(crate) const FIRST_TRIES_ONE_BY_ONE: usize = 8;

// Tries. At most this many offsets are tried one by one before pairs are looked for again. The search for a pair then
// takes little of the time.
pub(crate) const MOST_TRIES_ONE_BY_ONE: usize = 2048;

// Offsets. If this many are passed over before a pair, a whole block of 16-bit SIMD lanes, pairs no longer occur nearly
// everywhere.
pub(crate) const LEAST_SPARSE_GAP: usize = 16;

// Units of the needle. Where offsets are tried one by one, the units that match are counted for a needle of this many
// units and more. The count takes time, and a shorter needle has little to lose: each try is taken to match as many as
// the last one before.
pub(crate) const LEAST_COUNTED_LEN: usize = 16;

// Units for each unit of the needle. When this many have matched in vain, no more offsets are tried one by one, so that
// the time for a long needle remains linear.
pub(crate) const MATCHED_PER_NEEDLE_UNIT: usize = 64;

// ---- when the two-way search takes over, and when it ends

// Units. A try at which fewer than this many match is not counted as one in vain. In ordinary text most tries are such,
// and take little time.
pub(crate) const LEAST_COUNTED: usize = 4;

// Units that are compared in blocks. To come to an offset and to begin to compare there takes about as long as this
// many, which are counted for each try beside those that match.
pub(crate) const COMPARED_PER_TRY: usize = 16;

// Units for each offset that is passed over. The two-way search takes over if more are compared in vain: to compare
// this many in blocks takes about as long as the two-way search takes to pass over one offset. One by one they take
// longer.
pub(crate) const COMPARED_PER_OFFSET: usize = 16;

// Offsets for each unit of the needle. The two-way search begins with a factorization of the needle, which takes about
// as long as it takes to pass over this many.
pub(crate) const OFFSETS_PER_FACTORED: usize = 4;

// Offsets for each unit of the needle. Each time the two-way search has passed over this many, it looks whether a pair
// is nearby. They outweigh the factorization of the needle, which is made anew if the two-way search begins again.
pub(crate) const OFFSETS_BEFORE_LOOK: usize = 16;

// Offsets. The two-way search ends if none of the next this many is a pair: the text may no longer repeat itself as the
// needle does, and other searches take less time.
pub(crate) const OFFSETS_LOOKED_AHEAD: usize = 32;

// ---- within the two-way search

// Offsets that are passed one by one before others are in SIMD lanes. Lanes take longer to begin.
pub(crate) const TRIES_BEFORE_LANES: usize = 16;

// Units that are compared one by one before others are in SIMD lanes. Most comparisons end before that.
pub(crate) const COMPARED_BEFORE_LANES: usize = 32;
