//! Searches for characters of a set in units, item by item, from both ends. The units may be ill-formed: a fault is no
//! character, so it is in no set (Unicode Standard, section 3.9, D84a).

ghost use Rattle.std.specs.Prelude.{◌≡◌, ◌<◌, ◌≤◌, length, map, false, IfNone, IfSome};
ghost use Rattle.std.specs.List.{All};
ghost use Rattle.wide_forms.specs.Items.{items};
ghost use Rattle.wide_search.specs.Sets.{is_member, IsFirstMember, IsLongestPrefix, IsLongestSuffix};
ghost use Rattle.wide_unit.specs.Unit.{item_of};

use crate::char_set::CharSet;
use wide_unit::{Unit, split_first, split_last};

// Returns whether an item is a character of the set.
#[inline(always)]
fn is_member<C: Unit, S: CharSet>(item: Result<char, C>, set: S) -> bool
    ensures { result ≡ is_member (S.has set) (item_of C.number item) }
{
    match item {
        Ok(c) => set.contains_char(c),
        Err(_) => false,
    }
}

/// Returns the length in units of the longest prefix whose items are all characters of the set if `members` is true, or
/// are all none of the set if it is false.
pub fn prefix_of_set<C: Unit, S: CharSet>(units: &[C], set: S, members: bool) -> usize
    ensures longest { IsLongestPrefix C.form (S.has set) members (map C.number units.now) result }
    ensures within { result ≤ length units.now }
{
    let mut rest = units;
    while let Some((item, others)) = split_first(rest) {
        if is_member(item, set) != members {
            return units.len() - rest.len();
        }
        rest = others;
    }
    units.len()
}

/// Returns the offset in units at which the longest suffix begins whose items are all characters of the set if
/// `members` is true, or are all none of the set if it is false.
pub fn suffix_of_set<C: Unit, S: CharSet>(units: &[C], set: S, members: bool) -> usize
    ensures longest { IsLongestSuffix C.form (S.has set) members (map C.number units.now) result }
    ensures within { result ≤ length units.now }
{
    let mut rest = units;
    while let Some((others, item)) = split_last(rest) {
        if is_member(item, set) != members {
            return rest.len();
        }
        rest = others;
    }
    0
}

/// Returns the offsets in units at which the first character of the set begins and ends, or `None` if the units have
/// none.
pub fn find_in_set<C: Unit, S: CharSet>(units: &[C], set: S) -> Option<(usize, usize)>
    ensures first { IfSome result (λ r. IsFirstMember C.form (S.has set) (map C.number units.now) r.0 r.1) }
    ensures none { IfNone result (All (λ i. is_member (S.has set) i ≡ false) (items C.form (map C.number units.now))) }
    ensures within { IfSome result (λ r. r.0 < length units.now) }
    ensures fits { IfSome result (λ r. r.1 ≤ length units.now) }
{
    let start = prefix_of_set(units, set, false);
    let (_, rest) = units.split_at(start);
    let Some((_, others)) = split_first(rest) else {
        return None;
    };
    Some((start, units.len() - others.len()))
}
