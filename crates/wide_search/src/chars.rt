//! Searches for a character in units, from both ends: whether the units begin or end with it, and where it occurs. The
//! units of a character occur only where it is a character of the units, so no half of a surrogate pair is found
//! (Unicode Standard, section 3.8, D75).

ghost use Rattle.std.specs.Prelude.{◌↔◌, ◌+◌, ◌≤◌, length, map, IsTrue, IfNone, IfSome};
ghost use Rattle.wide_forms.specs.EncodingForm.{code_units};
ghost use Rattle.wide_search.specs.Occurrences.{IsFirstAt, IsFirstFrom, IsLastAt, OccursNowhere, OccursNowhereFrom, BeginsWith, EndsWith};

use crate::needle::{Few, Needle};
use crate::one::{find_one, rfind_one};
use crate::search::find_in;
use crate::search_back::rfind_in;
use wide_steps::Steps;
use wide_unit::Unit;

/// Returns whether the units begin with those of the character. The units may be ill-formed. A surrogate of a pair is no
/// character, so the first half of one is not enough.
pub fn starts_with_char<C: Unit>(units: &[C], c: char) -> bool
    ensures { IsTrue result ↔ BeginsWith (code_units C.form c) (map C.number units.now) }
{
    Few::of_char(c).is_prefix_of(units)
}

/// Returns whether the units end with those of the character. The units may be ill-formed. A surrogate of a pair is no
/// character, so the second half of one is not enough.
pub fn ends_with_char<C: Unit>(units: &[C], c: char) -> bool
    ensures { IsTrue result ↔ EndsWith (code_units C.form c) (map C.number units.now) }
{
    let few = Few::of_char(c);
    let len = few.len();
    if units.len() < len {
        return false;
    }
    let (_, end) = units.split_at(units.len() - len);
    few.is_prefix_of(end)
}

/// Returns the offset in units of the first occurrence of the character, or `None` if it does not occur. The units may
/// be ill-formed. A surrogate of a pair is no character, so it is never found.
pub fn find_char<C: Unit>(units: &[C], c: char) -> Option<usize>
    ensures first { IfSome result (IsFirstAt (code_units C.form c) (map C.number units.now)) }
    ensures none { IfNone result (OccursNowhere (code_units C.form c) (map C.number units.now)) }
    ensures within { IfSome result (λ at. at + length (code_units C.form c) ≤ length units.now) }
{
    let few = Few::of_char(c);
    match few.second {
        None => find_one(units, few.first),
        Some(_) => find_in(units, few, &mut Steps::new()),
    }
}

/// Returns the offset in units of the first occurrence of the character that begins at `from` or after it, or `None` if
/// there is none. `from` is an offset in units; if it exceeds the length, there is none. The offset that is returned is
/// counted from the beginning of the units, not from `from`. The units may be ill-formed.
pub fn find_char_from<C: Unit>(units: &[C], c: char, from: usize) -> Option<usize>
    ensures first { IfSome result (IsFirstFrom (code_units C.form c) (map C.number units.now) from) }
    ensures none { IfNone result (OccursNowhereFrom (code_units C.form c) (map C.number units.now) from) }
    ensures within { IfSome result (λ at. at + length (code_units C.form c) ≤ length units.now) }
{
    if units.len() < from {
        return None;
    }
    let (_, rest) = units.split_at(from);
    let Some(at) = find_char(rest, c) else {
        return None;
    };
    Some(from + at)
}

/// Returns the offset in units of the last occurrence of the character, or `None` if it does not occur. The units may
/// be ill-formed.
pub fn rfind_char<C: Unit>(units: &[C], c: char) -> Option<usize>
    ensures last { IfSome result (IsLastAt (code_units C.form c) (map C.number units.now)) }
    ensures none { IfNone result (OccursNowhere (code_units C.form c) (map C.number units.now)) }
    ensures within { IfSome result (λ at. at + length (code_units C.form c) ≤ length units.now) }
{
    let few = Few::of_char(c);
    match few.second {
        None => rfind_one(units, few.first),
        Some(_) => rfind_in(units, few, &mut Steps::new()),
    }
}
