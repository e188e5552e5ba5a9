//! Searches for units in units, from both ends: whether the units begin or end with a needle, where it or one unit
//! occurs, and what comes before it and after it. An empty needle occurs at each offset.

ghost use Rattle.std.specs.Prelude.{◌≡◌, ◌↔◌, ◌+◌, ◌*◌, ◌^◌, ◌++◌, ◌∷◌, [], ◌≤◌, ◌<◌, length, IsTrue, IsSome, IfNone, IfSome};
ghost use Rattle.wide_steps.specs.Counted.{AddsAtMost};
ghost use Rattle.wide_search.specs.Occurrences.{IsFirstAt, IsFirstFrom, IsLastAt, OccursNowhere, OccursNowhereFrom, BeginsWith, EndsWith, IsFirstSplit, IsLastSplit};

use crate::needle::Slice;
use crate::one::{find_one, rfind_one};
use crate::search::find_in;
use crate::search_back::rfind_in;
use wide_steps::Steps;
use wide_unit::{Unit, same_units};

/// Returns whether the units begin with those of the needle. They do if the needle is empty.
pub fn starts_with<C: Unit>(units: &[C], needle: &[C]) -> bool
    ensures { IsTrue result ↔ BeginsWith needle.now units.now }
{
    if units.len() < needle.len() {
        return false;
    }
    let (prefix, _) = units.split_at(needle.len());
    same_units(prefix, needle)
}

/// Returns whether the units end with those of the needle. They do if the needle is empty.
pub fn ends_with<C: Unit>(units: &[C], needle: &[C]) -> bool
    ensures { IsTrue result ↔ EndsWith needle.now units.now }
{
    if units.len() < needle.len() {
        return false;
    }
    let (_, end) = units.split_at(units.len() - needle.len());
    same_units(end, needle)
}

/// Returns the units after the needle if they begin with it, and otherwise `None`.
pub fn strip_prefix<'a, C: Unit>(units: &'a [C], needle: &[C]) -> Option<&'a [C]>
    ensures some { IsSome result ↔ BeginsWith needle.now units.now }
    ensures rest { IfSome result (λ rest. units.now ≡ needle.now ++ rest.now) }
{
    if starts_with(units, needle) {
        return Some(&units[needle.len()..]);
    }
    None
}

/// Returns the units before the needle if they end with it, and otherwise `None`.
pub fn strip_suffix<'a, C: Unit>(units: &'a [C], needle: &[C]) -> Option<&'a [C]>
    ensures some { IsSome result ↔ EndsWith needle.now units.now }
    ensures prefix { IfSome result (λ prefix. units.now ≡ prefix.now ++ needle.now) }
{
    if ends_with(units, needle) {
        return Some(&units[..units.len() - needle.len()]);
    }
    None
}

/// Returns the offset in units of the first occurrence of the needle, or `None` if it does not occur. An empty needle
/// occurs at the beginning. It calls [`find_counted`], whose contract states that the time is linear in both lengths in
/// the worst case. It does not allocate.
pub fn find<C: Unit>(units: &[C], needle: &[C]) -> Option<usize>
    ensures first { IfSome result (IsFirstAt needle.now units.now) }
    ensures none { IfNone result (OccursNowhere needle.now units.now) }
    ensures within { IfSome result (λ at. at + length needle.now ≤ length units.now) }
{
    find_counted(units, needle, &mut Steps::new())
}

/// Returns the offset in units of the first occurrence of the needle, or `None` if it does not occur, and counts the
/// units that it compares or passes over. An empty needle occurs at the beginning.
///
/// It looks for the needle's first unit, vectorized, and compares the needle wherever that unit occurs. Where the first
/// unit is frequent, it looks for offsets at which the needle's first and last unit both match. Where both match nearly
/// everywhere, it compares at each offset. If it compares too many units in vain, as it may if the needle repeats
/// itself, it changes to the two-way search. It does not allocate.
pub fn find_counted<C: Unit>(units: &[C], needle: &[C], steps: &mut Steps) -> Option<usize>
    ensures steps { length units.now < 2 ^ 57 → AddsAtMost steps.old steps.new (617 * length units.now + 301 * length needle.now + 4416) }
    ensures first { IfSome result (IsFirstAt needle.now units.now) }
    ensures none { IfNone result (OccursNowhere needle.now units.now) }
    ensures within { IfSome result (λ at. at + length needle.now ≤ length units.now) }
{
    find_in(units, Slice { units: needle }, steps)
}

/// Returns the offset in units of the first occurrence of the needle that begins at `from` or after it, or `None` if
/// there is none. `from` is an offset in units; if it exceeds the length, there is none. An empty needle occurs at
/// `from` itself. The offset that is returned is counted from the beginning of the units, not from `from`.
pub fn find_from<C: Unit>(units: &[C], needle: &[C], from: usize) -> Option<usize>
    ensures first { IfSome result (IsFirstFrom needle.now units.now from) }
    ensures none { IfNone result (OccursNowhereFrom needle.now units.now from) }
    ensures within { IfSome result (λ at. at + length needle.now ≤ length units.now) }
{
    if units.len() < from {
        return None;
    }
    let (_, rest) = units.split_at(from);
    let Some(at) = find(rest, needle) else {
        return None;
    };
    Some(from + at)
}

/// Returns the offset in units of the last occurrence of the needle, or `None` if it does not occur. An empty needle
/// occurs at the end. It calls [`rfind_counted`], whose contract states that the time is linear in both lengths in the
/// worst case. It does not allocate.
pub fn rfind<C: Unit>(units: &[C], needle: &[C]) -> Option<usize>
    ensures last { IfSome result (IsLastAt needle.now units.now) }
    ensures none { IfNone result (OccursNowhere needle.now units.now) }
    ensures within { IfSome result (λ at. at + length needle.now ≤ length units.now) }
{
    rfind_counted(units, needle, &mut Steps::new())
}

/// Returns the offset in units of the last occurrence of the needle, or `None` if it does not occur, and counts the
/// units that it compares or passes over. An empty needle occurs at the end.
///
/// It compares the needle at the last offsets one by one. Then it looks backwards, vectorized, for offsets at which the
/// needle's first and last unit both match. If it compares too many units in vain, as it may if the needle repeats
/// itself, it changes to the two-way search. It does not allocate.
pub fn rfind_counted<C: Unit>(units: &[C], needle: &[C], steps: &mut Steps) -> Option<usize>
    ensures steps { length units.now < 2 ^ 57 → AddsAtMost steps.old steps.new (60 * length units.now + 201 * length needle.now + 60) }
    ensures last { IfSome result (IsLastAt needle.now units.now) }
    ensures none { IfNone result (OccursNowhere needle.now units.now) }
    ensures within { IfSome result (λ at. at + length needle.now ≤ length units.now) }
{
    rfind_in(units, Slice { units: needle }, steps)
}

/// Returns the offset of the first occurrence of the unit, or `None` if it does not occur. The unit may be a surrogate
/// of a pair.
pub fn find_unit<C: Unit>(units: &[C], unit: C) -> Option<usize>
    ensures first { IfSome result (IsFirstAt (unit ∷ []) units.now) }
    ensures none { IfNone result (OccursNowhere (unit ∷ []) units.now) }
    ensures within { IfSome result (λ at. at < length units.now) }
{
    find_one(units, unit)
}

/// Returns the offset of the last occurrence of the unit, or `None` if it does not occur. The unit may be a surrogate
/// of a pair.
pub fn rfind_unit<C: Unit>(units: &[C], unit: C) -> Option<usize>
    ensures last { IfSome result (IsLastAt (unit ∷ []) units.now) }
    ensures none { IfNone result (OccursNowhere (unit ∷ []) units.now) }
    ensures within { IfSome result (λ at. at < length units.now) }
{
    rfind_one(units, unit)
}

/// Splits the units at the first occurrence of the needle, and returns the units before it and those after it.
/// Returns `None` if it does not occur.
pub fn split_once<'a, C: Unit>(units: &'a [C], needle: &[C]) -> Option<(&'a [C], &'a [C])>
    ensures first { IfSome result (λ r. IsFirstSplit needle.now units.now r.0.now r.1.now) }
    ensures none { IfNone result (OccursNowhere needle.now units.now) }
{
    let Some(at) = find(units, needle) else {
        return None;
    };
    let (prefix, _) = units.split_at(at);
    let (_, rest) = units.split_at(at + needle.len());
    Some((prefix, rest))
}

/// Splits the units at the last occurrence of the needle, and returns the units before it and those after it.
/// Returns `None` if it does not occur.
pub fn rsplit_once<'a, C: Unit>(units: &'a [C], needle: &[C]) -> Option<(&'a [C], &'a [C])>
    ensures last { IfSome result (λ r. IsLastSplit needle.now units.now r.0.now r.1.now) }
    ensures none { IfNone result (OccursNowhere needle.now units.now) }
{
    let Some(at) = rfind(units, needle) else {
        return None;
    };
    let (prefix, _) = units.split_at(at);
    let (_, rest) = units.split_at(at + needle.len());
    Some((prefix, rest))
}
