//! The laws of views, stated as contracts of functions that only make the call which the law is about.
ghost use Rattle.std.specs.Prelude.{◌≡◌, ◌↔◌, IsTrue};
ghost use Rattle.std.specs.List.{fold};
ghost use Rattle.std.specs.Hash as fed;
ghost use Rattle.std.specs.Ordering.{nat_cmp};
ghost use Rattle.std.specs.Cmp.Lexicographic.{slice_cmp};
ghost use Rattle.wide_ustr.specs.View.{units_seen};

use crate::view::{U16Str, U32Str, UStr};
use std::cmp::Ordering;
use std::hash::{Hash, Hasher};

/// Hashes a view. The contract states that the view gives the hasher what the slice of its units gives, so views of
/// equal units have equal hashes.
pub fn hash_of_units<C: Hash, H: Hasher>(view: UStr<'_, C>, state: &mut H)
    ensures { state.new ≡ fold H.write state.old (fed.slice C.hash_input (units_seen view.entry)) }
{
    view.hash(state);
}

/// Compares two views of 16-bit units. The contract states that their equality and order are those of their units.
pub fn comparisons_of_units16(left: U16Str<'_>, right: U16Str<'_>) -> (bool, Ordering)
    ensures equal { IsTrue result.0 ↔ (units_seen left.entry ≡ units_seen right.entry) }
    ensures order { result.1 ≡ slice_cmp nat_cmp (units_seen left.entry) (units_seen right.entry) }
{
    (left == right, left.cmp(&right))
}

/// Compares two views of 32-bit units. The contract states that their equality and order are those of their units.
pub fn comparisons_of_units32(left: U32Str<'_>, right: U32Str<'_>) -> (bool, Ordering)
    ensures equal { IsTrue result.0 ↔ (units_seen left.entry ≡ units_seen right.entry) }
    ensures order { result.1 ≡ slice_cmp nat_cmp (units_seen left.entry) (units_seen right.entry) }
{
    (left == right, left.cmp(&right))
}
