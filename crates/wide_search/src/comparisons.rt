//! Comparisons of the units of a needle with the units at an offset. They go one unit after another, since most end at
//! the first units: in SIMD lanes they would take longer to begin than to end.

ghost use Rattle.std.specs.Prelude.{◌≡◌, ◌↔◌, length, take, ◌<◌, IsTrue};
ghost use Rattle.wide_unit.specs.CommonPrefix.{IsCommonPrefix};

use wide_unit::Unit;

// How many units of a needle are compared one by one before blocks of them are. Most comparisons end before that.
pub(crate) const COMPARED_BEFORE_BLOCKS: usize = 8;

// Returns whether two slices of the same length have the same units. They are compared one by one, since most needles
// have few units, and most comparisons end at once.
#[inline(always)]
fn are_same<C: Unit>(left: &[C], right: &[C]) -> bool
    requires { length left.now ≡ length right.now }
    ensures { IsTrue result ↔ (left.now ≡ right.now) }
{
    for offset in 0..left.len() {
        if left[offset].code() != right[offset].code() {
            return false;
        }
    }
    true
}

// Returns whether two slices of the same length have the same units. The first units are compared by a branch of their
// own, which processors predict better where they are often the same and the next ones are not.
#[inline(always)]
pub(crate) fn are_same_from_first<C: Unit>(left: &[C], right: &[C]) -> bool
    requires { length left.now ≡ length right.now }
    ensures { IsTrue result ↔ (left.now ≡ right.now) }
{
    match (left, right) {
        ([first, left @ ..], [other, right @ ..]) => {
            first.code() == other.code() && are_same(left, right)
        }
        _ => true,
    }
}

// Returns whether two slices of the same length, whose first units are the same, have the same units. The first ones
// are not compared, and the last ones before the others: texts that begin with the needle's first unit mostly differ
// from it at the last one.
#[inline(always)]
pub(crate) fn are_same_after_first<C: Unit>(left: &[C], right: &[C]) -> bool
    requires length { length left.now ≡ length right.now }
    requires first { take 1 left.now ≡ take 1 right.now }
    ensures { IsTrue result ↔ (left.now ≡ right.now) }
{
    let mut at = left.len();
    while at > 1 {
        at -= 1;
        if left[at].code() != right[at].code() {
            return false;
        }
    }
    true
}

// Returns how many units at the beginning of two slices of the same length are the same. They are compared one by one.
#[inline(always)]
pub(crate) fn shared_prefix<C: Unit>(left: &[C], right: &[C]) -> usize
    requires { length left.now ≡ length right.now }
    ensures { IsCommonPrefix left.now right.now result }
{
    let mut shared = 0;
    while shared < left.len() && left[shared].code() == right[shared].code() {
        shared += 1;
    }
    shared
}

// Returns how many units at the beginning of two slices are the same, or `COMPARED_BEFORE_BLOCKS` if there are at least
// as many.
#[inline(always)]
pub(crate) fn near_prefix<C: Unit>(left: &[C], right: &[C]) -> usize
    ensures { result < 8 → IsCommonPrefix left.now right.now result }
{
    let len = left.len().min(right.len()).min(COMPARED_BEFORE_BLOCKS);
    let mut shared = 0;
    while shared < len && left[shared].code() == right[shared].code() {
        shared += 1;
    }
    shared
}
