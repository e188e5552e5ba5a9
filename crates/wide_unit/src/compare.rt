//! Compares slices of units.
ghost use Rattle.std.specs.Prelude.{◌≡◌, ◌↔◌, map, IsTrue};
ghost use Rattle.std.specs.Ordering.{nat_cmp};
ghost use Rattle.std.specs.Cmp.Lexicographic.{slice_cmp};
ghost use Rattle.wide_unit.specs.CommonPrefix.{IsCommonPrefix};

use crate::same_blocks::same_blocks;
use crate::unit::Unit;
use std::cmp::Ordering;

// Returns how many units at the beginning of two slices are the same, block by block.
fn prefix_by_blocks<C: Unit>(left: &[C], right: &[C]) -> usize
    ensures { IsCommonPrefix left.now right.now result }
{
    let len = left.len().min(right.len());
    let (left, _) = left.split_at(len);
    let (right, _) = right.split_at(len);
    let mut at = same_blocks(left, right);
    // If the slices have at least one block, `at` is the first difference. Shorter slices are compared unit by unit.
    while at < len && left[at].code() == right[at].code() {
        at += 1;
    }
    at
}

/// Returns how many units at the beginning of two slices are the same: up to the first difference, or to the end of the
/// shorter slice. The comparison is vectorized. The Rust crate has no such call.
///
/// # Example
///
/// ```
/// let shared = common_prefix(&[0x61u16, 0x62, 0x63], &[0x61, 0x62, 0x64, 0x65]);
/// assert!(rt; shared == 2);
/// ```
#[inline]
pub fn common_prefix<C: Unit>(left: &[C], right: &[C]) -> usize
    ensures { IsCommonPrefix left.now right.now result }
{
    // Most comparisons of different slices end at the first unit. It is compared alone, so that they need no block and
    // no call.
    if let ([x, ..], [y, ..]) = (left, right)
        && x.code() != y.code()
    {
        return 0;
    }
    prefix_by_blocks(left, right)
}

/// Returns whether two slices have the same units in the same order. It stops at the first difference. The Rust crate
/// has no such call.
pub fn same_units<C: Unit>(left: &[C], right: &[C]) -> bool
    ensures { IsTrue result ↔ (left.now ≡ right.now) }
{
    left.len() == right.len() && common_prefix(left, right) == left.len()
}

/// Compares two slices lexicographically by the numbers of their units, and stops at the first difference. If one slice
/// is a prefix of the other, the shorter one is less. In UTF-16 this is not the order of the characters, since
/// surrogates are less than U+E000 to U+FFFF. The Rust crate has no such call.
pub fn order_of_units<C: Unit>(left: &[C], right: &[C]) -> Ordering
    ensures { result ≡ slice_cmp nat_cmp (map C.number left.now) (map C.number right.now) }
{
    let mut rest = right;
    for x in left {
        let [y, ys @ ..] = rest else {
            return Ordering::Greater;
        };
        let order = x.code().cmp(&y.code());
        if order != Ordering::Equal {
            return order;
        }
        rest = ys;
    }
    if rest.is_empty() {
        Ordering::Equal
    } else {
        Ordering::Less
    }
}
