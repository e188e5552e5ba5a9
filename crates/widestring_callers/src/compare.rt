//! Comparisons of strings, whose contracts are about their units.
ghost use Rattle.std.specs.Prelude.{◌≡◌, ◌↔◌, IsTrue};
ghost use Rattle.std.specs.Cmp.Lexicographic.{slice_cmp};
ghost use Rattle.std.specs.Hash as fed;
ghost use Rattle.std.specs.List.{fold};
ghost use Rattle.std.specs.Ordering.{nat_cmp};
ghost use Rattle.widestring.specs.View.{units_seen};

use std::cmp::Ordering;
use std::hash::{Hash, Hasher};
use widestring::{U16String, U32CString, Utf16Str, Utf16String, Utf32Str};

/// Returns whether two strings of 16-bit units are equal, and their order.
pub fn compared(left: &U16String, right: &U16String) -> (bool, Ordering)
    ensures equal { IsTrue result.0 ↔ (left.now.units ≡ right.now.units) }
    ensures order { result.1 ≡ slice_cmp nat_cmp left.now.units right.now.units }
{
    (left == right, left.cmp(right))
}

/// Returns whether two C strings of 32-bit units are equal, and their order.
pub fn compared_c_strings(left: &U32CString, right: &U32CString) -> (bool, Ordering)
    ensures equal { IsTrue result.0 ↔ (left.now.units ≡ right.now.units) }
    ensures order { result.1 ≡ slice_cmp nat_cmp left.now.units right.now.units }
{
    (left == right, left.cmp(right))
}

/// Returns whether two texts of UTF-16 are equal, and their order.
pub fn compared_texts(left: &Utf16String, right: &Utf16String) -> (bool, Ordering)
    ensures equal { IsTrue result.0 ↔ (left.now.units ≡ right.now.units) }
    ensures order { result.1 ≡ slice_cmp nat_cmp left.now.units right.now.units }
{
    (left == right, left.cmp(right))
}

/// Returns whether two views of UTF-16 are equal, and their order.
pub fn compared_views(left: Utf16Str<'_>, right: Utf16Str<'_>) -> (bool, Ordering)
    ensures equal { IsTrue result.0 ↔ (units_seen left.entry ≡ units_seen right.entry) }
    ensures order { result.1 ≡ slice_cmp nat_cmp (units_seen left.entry) (units_seen right.entry) }
{
    (left == right, left.cmp(&right))
}

/// Feeds a view of UTF-32 to a hasher, as the slice of its units does.
pub fn hashed_view<H: Hasher>(view: Utf32Str<'_>, state: &mut H)
    ensures { state.new ≡ fold H.write state.old (fed.slice fed.u32 (units_seen view.entry)) }
{
    view.hash(state);
}

/// Feeds a text to a hasher, as the slice of its units does. So equal texts have equal hashes.
pub fn hashed<H: Hasher>(text: &Utf16String, state: &mut H)
    ensures { state.new ≡ fold H.write state.old (fed.slice fed.u16 text.now.units) }
{
    text.hash(state);
}
