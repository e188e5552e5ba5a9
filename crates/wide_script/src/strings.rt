//! What the calls return of a string of any units, and an edit of a text and of its copy.

ghost use Rattle.std.specs.Prelude.{◌≡◌, ◌<◌, ◌≤◌, ◌↔◌, ◌∷◌, ◌+◌, ◌-◌, ℕ, List, Some, IfNone, IfSome, IfOk, IsNone, IsTrue, drop, length, min, take};
ghost use Rattle.widestring.specs.EncodingForm.{Utf16, Utf32, encode};
ghost use Rattle.widestring.specs.Items.{IsWellFormed, chars, items};
ghost use Rattle.widestring.specs.Lossy.{lossy};
ghost use Rattle.widestring.specs.Occurrences.{IsFirstAt, OccursNowhere};
ghost use Rattle.widestring.specs.Segmentation.{Char, Fault, Item};
ghost use Rattle.widestring.specs.UnitView.{units_seen};

use std::alloc::Global;
use widestring::edit::{Edit, Reply, Stopped, run_both};
use widestring::error::OutOfMemory;
use widestring::unit::split_first;
use widestring::{U16Str, Utf16Str, Utf16String, Utf32String};

/// Returns the code point that begins at a unit, or the unit itself if it is an unpaired surrogate there.
pub fn code_point_at(units: &[u16], index: usize) -> Option<u32>
    ensures none { IsNone result ↔ (length units.now ≤ index) }
    ensures character { (c : ℕ) (rest : List Item) → items Utf16 (drop index units.now) ≡ Char c ∷ rest → result ≡ Some c }
    ensures unit { (u : ℕ) (rest : List Item) → items Utf16 (drop index units.now) ≡ Fault u ∷ rest → result ≡ Some u }
{
    let (_, rest) = units.split_at(index.min(units.len()));
    match split_first(rest) {
        Some((Ok(c), _)) => Some(u32::from(c)),
        Some((Err(unit), _)) => Some(u32::from(unit)),
        None => None,
    }
}

/// Returns the units from one offset to another, as many as there are. The offsets may split a surrogate pair.
pub fn slice(units: U16Str<'_>, from: usize, to: usize) -> U16Str<'_>
    ensures { units_seen result ≡ drop from (take to (units_seen units.entry)) }
{
    let (prefix, _) = units.split_at(to.min(units.len()));
    let (_, part) = prefix.split_at(from.min(prefix.len()));
    part
}

/// Returns the first offset of the needle at `from` or after it, or `None` if there is none. An empty needle is at the
/// end of the string if `from` is beyond that.
pub fn index_of(units: U16Str<'_>, needle: U16Str<'_>, from: usize) -> Option<usize> {
    let from = from.min(units.len());
    let (_, rest) = units.split_at(from);
    Some(from.saturating_add(rest.find(needle)?))
}

/// Returns the offset of a number in a string of so many units, as JavaScript counts: a negative one counts from the
/// end, and no offset is beyond the string.
pub fn offset_from(number: i64, len: usize) -> usize
    ensures within { result ≤ len }
{
    if number >= 0 {
        return usize::try_from(number).unwrap_or(len).min(len);
    }
    let from_end = usize::try_from(number.unsigned_abs()).unwrap_or(len);
    len.saturating_sub(from_end)
}

/// Returns whether there is no unpaired surrogate.
pub fn is_well_formed(units: &[u16]) -> bool
    ensures { IsTrue result ↔ IsWellFormed Utf16 units.now }
{
    Utf16Str::from_slice(units).is_ok()
}

/// Returns the text with U+FFFD in place of each unpaired surrogate.
///
/// # Errors
///
/// If an allocation fails.
pub fn to_well_formed(alloc: Global, units: &[u16]) -> Result<Utf16String, OutOfMemory>
    ensures { IfOk result (λ text. text.units ≡ encode Utf16 (lossy (items Utf16 units.now))) }
{
    Utf16String::from_slice_lossy(alloc, units)?.into_owned(alloc)
}

/// Makes an edit of a text and of its copy in UTF-32, so that it remains a copy.
///
/// # Errors
///
/// If an allocation fails. Both are as they were.
pub fn edit_both(
    alloc: Global,
    text: &mut Utf16String,
    copy: &mut Utf32String,
    edit: Edit<'_>,
    replies: &mut Vec<Reply>,
) -> Result<(), Stopped>
    requires { chars Utf16 text.old.units ≡ chars Utf32 copy.old.units }
    ensures { chars Utf16 text.new.units ≡ chars Utf32 copy.new.units }
{
    run_both(alloc, text, copy, &[edit], replies, &mut Vec::new(alloc))
}
