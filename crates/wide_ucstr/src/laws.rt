//! The laws of C strings, stated as contracts of functions that do nothing, or only make the call which the law is
//! about.
ghost use Rattle.std.specs.Prelude.{◌≡◌, ◌↔◌, IsTrue};
ghost use Rattle.std.specs.List.{fold};
ghost use Rattle.std.specs.Hash as fed;
ghost use Rattle.std.specs.Ordering.{nat_cmp};
ghost use Rattle.std.specs.Cmp.Lexicographic.{slice_cmp};
ghost use Rattle.wide_ucstr.specs.View.{units_with_nul};
ghost use Rattle.wide_ucstr.specs.Statements.{CStringIsContents, ContentsMakeCString, OrderIsOfContents};

use crate::view::{U16CStr, U32CStr, UCStr};
use std::cmp::Ordering;
use std::hash::{Hash, Hasher};
use wide_unit::Unit;

/// States that a C string consists of its contents, which have no NUL, and one NUL, and that units without a NUL,
/// followed by a NUL, are a C string.
pub fn contents_and_nul()
    ensures parts { CStringIsContents }
    ensures made { ContentsMakeCString }
{}

/// States that two C strings with their NULs compare as their contents do, unit by unit, since a NUL is less than each
/// unit of the contents. So it is enough to compare either.
pub fn order_of_contents()
    ensures { OrderIsOfContents }
{}

/// Hashes a view of a C string. The contract states that the view gives the hasher what the slice of its units with the
/// NUL gives, so views of equal units have equal hashes.
pub fn hash_of_units<C: Unit + Hash, H: Hasher>(view: UCStr<'_, C>, state: &mut H)
    ensures { state.new ≡ fold H.write state.old (fed.slice C.hash_input (units_with_nul view.entry)) }
{
    view.hash(state);
}

/// Compares two views of C strings of 16-bit units. The contract states that their equality and order are those of
/// their units with the NUL.
pub fn comparisons_of_units16(left: U16CStr<'_>, right: U16CStr<'_>) -> (bool, Ordering)
    ensures equal { IsTrue result.0 ↔ (units_with_nul left.entry ≡ units_with_nul right.entry) }
    ensures order { result.1 ≡ slice_cmp nat_cmp (units_with_nul left.entry) (units_with_nul right.entry) }
{
    (left == right, left.cmp(&right))
}

/// Compares two views of C strings of 32-bit units. The contract states that their equality and order are those of
/// their units with the NUL.
pub fn comparisons_of_units32(left: U32CStr<'_>, right: U32CStr<'_>) -> (bool, Ordering)
    ensures equal { IsTrue result.0 ↔ (units_with_nul left.entry ≡ units_with_nul right.entry) }
    ensures order { result.1 ≡ slice_cmp nat_cmp (units_with_nul left.entry) (units_with_nul right.entry) }
{
    (left == right, left.cmp(&right))
}
