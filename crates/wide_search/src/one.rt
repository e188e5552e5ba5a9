//! Searches for one unit. Nothing beyond it is compared, so their loops are shorter than those for other needles. From
//! the front the unit is looked for in SIMD lanes at once, and from the back after some units that are compared one by
//! one.

ghost use Rattle.std.specs.Prelude.{◌∷◌, [], IfNone, IfSome};
ghost use Rattle.wide_search.specs.Occurrences.{IsFirstAt, IsLastAt, OccursNowhere};

use crate::limits::{SHORT_TEXT, TRIES_FROM_BACK};
use crate::needle::Few;
use crate::search_back::rfind_by_two;
use wide_steps::Steps;
use wide_unit::{Unit, first_of};

// Returns the offset of the first occurrence of the unit, or `None`.
#[inline(always)]
pub(crate) fn find_one<C: Unit>(units: &[C], unit: C) -> Option<usize>
    ensures first { IfSome result (IsFirstAt (unit ∷ []) units.now) }
    ensures none { IfNone result (OccursNowhere (unit ∷ []) units.now) }
{
    first_of(units, unit.code())
}

// Returns the offset of the last occurrence of the unit, or `None`. The last few units are compared one by one, or all
// if there are few.
pub(crate) fn rfind_one<C: Unit>(units: &[C], unit: C) -> Option<usize>
    ensures last { IfSome result (IsLastAt (unit ∷ []) units.now) }
    ensures none { IfNone result (OccursNowhere (unit ∷ []) units.now) }
{
    let len = units.len();
    let stop = if len < SHORT_TEXT {
        0
    } else {
        len - TRIES_FROM_BACK
    };
    let mut at = len;
    while at > stop {
        at -= 1;
        if units[at].code() == unit.code() {
            return Some(at);
        }
    }
    if at == 0 {
        return None;
    }
    // One unit is a needle whose first and last unit are the same, at distance 0.
    rfind_by_two(units, Few::one(unit), at, &mut Steps::new())
}
