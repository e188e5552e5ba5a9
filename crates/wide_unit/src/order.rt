//! Order of units by their code points.
ghost use Rattle.std.specs.Prelude.{◌≡◌, ◌≤◌, List, length, map, take, drop};
ghost use Rattle.std.specs.Ordering.{nat_cmp};
ghost use Rattle.std.specs.Cmp.Lexicographic.{slice_cmp};
ghost use Rattle.wide_forms.specs.Items.{IsWellFormed};
ghost use Rattle.wide_forms.specs.Offsets.{text_of};
ghost use Rattle.wide_forms.specs.Laws.Items.{IsCut};
ghost use Rattle.wide_unit.specs.CodePoints.{code_of, code_points};
ghost use Rattle.wide_unit.specs.Unit.{item_of};

use crate::compare::common_prefix;
use crate::split::split_first;
use crate::unit::Unit;
use std::cmp::Ordering;

// Returns the code point of an item: that of a character, or the number of a unit that belongs to none.
#[inline(always)]
fn code_of_item<C: Unit>(item: Result<char, C>) -> u32
    ensures { result ≡ code_of (item_of C.number item) }
{
    match item {
        Ok(c) => u32::from(c),
        Err(unit) => unit.code(),
    }
}

// Compares two slices item by item, up to the first difference.
fn compare_items<C: Unit>(left: &[C], right: &[C]) -> Ordering
    ensures { result ≡ slice_cmp nat_cmp (code_points C.form (map C.number left.now)) (code_points C.form (map C.number right.now)) }
{
    let (mut ours, mut theirs) = (left, right);
    while let Some((x, xs)) = split_first(ours) {
        let Some((y, ys)) = split_first(theirs) else {
            return Ordering::Greater;
        };
        let order = code_of_item(x).cmp(&code_of_item(y));
        if order != Ordering::Equal {
            return order;
        }
        (ours, theirs) = (xs, ys);
    }
    match split_first(theirs) {
        None => Ordering::Equal,
        Some(_) => Ordering::Less,
    }
}

// Returns an offset up to `at` at which no pair is split, in these units and in all that are the same before `at`: the
// offset before a high surrogate that precedes `at`, and otherwise `at`.
#[inline(always)]
fn cut_before<C: Unit>(units: &[C], at: usize) -> usize
    requires { at ≤ length units.now }
    ensures within { result ≤ at }
    ensures cut { (others : List C) → take at others ≡ take at units.now → IsCut C.form (map C.number (take result others)) (map C.number (drop result others)) }
{
    if at > 0 && units[at - 1].is_high() {
        at - 1
    } else {
        at
    }
}

/// Compares two slices by their code points, as UTF-8 and UTF-32 are ordered. A unit that belongs to no character counts
/// by its number: an unpaired surrogate is a code point too. [`order_of_units`] compares units, which in UTF-16 puts
/// characters past U+FFFF, whose first unit is a surrogate, before U+E000 to U+FFFF.
///
/// The prefix that both slices share is passed in SIMD lanes. Of what follows it, at most two characters of each are
/// decoded. It does not allocate. The Rust crate has no such call.
///
/// # Example
///
/// ```
/// use std::cmp::Ordering;
///
/// let (emoji, letter) = ([0x61u16, 0xd83d, 0xde00], [0x61u16, 0xff21]);
/// assert!(rt; order_of_units(&emoji, &letter) == Ordering::Less);
/// assert!(rt; cmp_code_points(&emoji, &letter) == Ordering::Greater);
/// assert!(rt; cmp_code_points(&emoji[..2], &letter) == Ordering::Less);
/// ```
pub fn cmp_code_points<C: Unit>(left: &[C], right: &[C]) -> Ordering
    ensures order { result ≡ slice_cmp nat_cmp (code_points C.form (map C.number left.now)) (code_points C.form (map C.number right.now)) }
    ensures text { IsWellFormed C.form (map C.number left.now) → IsWellFormed C.form (map C.number right.now) → result ≡ slice_cmp nat_cmp (text_of C.form C.number left.now) (text_of C.form C.number right.now) }
{
    let at = cut_before(left, common_prefix(left, right));
    let (_, ours) = left.split_at(at);
    let (_, theirs) = right.split_at(at);
    compare_items(ours, theirs)
}
