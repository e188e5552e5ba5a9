//! Strings made of few items, or of none, strings with capacity for what is added, and edits of few units.
ghost use Rattle.std.specs.Prelude.{◌≡◌, ◌≤◌, ◌∷◌, [], true, false, IfSome, OnOk};
ghost use Rattle.std.specs.Iterator.{IsFiniteIterable};
ghost use Rattle.std.specs.List.Retain.{IsFiltered};
ghost use Rattle.std.specs.Str.{chars};
ghost use Rattle.widestring.specs.EncodingForm.{Utf16, code_units};
ghost use Rattle.widestring.specs.Extended.{Adds, Collects, numbered};
ghost use Rattle.widestring.specs.View.{units_seen};

use std::alloc::Global;
use widestring::error::OutOfMemory;
use widestring::ustring::UStrInUstring;
use widestring::ustring::extend::Appendable;
use widestring::utfstring::UStringOverUtfstrs;
use widestring::{U16Str, U16String, Utf16Str, Utf16String};

/// Makes a string of an empty text, without allocating.
///
/// # Requires
///
/// The text is empty.
pub fn string_of_nothing(alloc: Global, text: &str) -> bool
    requires { chars text.now ≡ [] }
    ensures { result ≡ true }
{
    U16String::from_str(alloc, text).is_ok()
}

/// Repeats units zero times, without allocating.
pub fn repeated_no_times(alloc: Global) -> bool
    ensures { result ≡ true }
{
    U16Str::from_slice(&[0x61, 0x62]).repeat(alloc, 0).is_ok()
}

/// Appends a character of two units to an empty string with capacity for them.
///
/// # Requires
///
/// The string is empty, and has a capacity of at least two units.
pub fn put_within_the_capacity(string: &mut U16String) -> bool
    requires empty { string.old.units ≡ [] }
    requires capacity { 2 ≤ string.old.capacity }
    ensures done { result ≡ true }
    ensures units { string.new.units ≡ 0xD83D ∷ 0xDE00 ∷ [] }
{
    '😀'.push_to(string).is_ok()
}

/// Collects characters. The string of a success has all of them, and the string of an error those before the one that
/// failed to allocate.
///
/// # Requires
///
/// The iterator is finite.
pub fn collected<U: IntoIterator<Item = char>>(
    alloc: Global,
    items: U,
) -> Result<U16String, U16String>
    requires { IsFiniteIterable U.into_iter_gives U.IntoIter.can_next U.IntoIter.remaining items }
    ensures { Collects result U.into_iter_gives U.IntoIter.next_gives (code_units Utf16) items (numbered (λ u. u)) }
{
    U16String::from_iter_chars(alloc, items)
}

/// Appends texts to what a string of units holds.
///
/// # Requires
///
/// The iterator is finite.
pub fn extended_by_texts<'a, U: IntoIterator<Item = Utf16Str<'a>>>(
    string: &mut U16String,
    texts: U,
) -> Result<(), OutOfMemory>
    requires { IsFiniteIterable U.into_iter_gives U.IntoIter.can_next U.IntoIter.remaining texts }
    ensures { Adds result U.into_iter_gives U.IntoIter.next_gives units_seen texts (numbered (λ u. u)) string.old string.new }
{
    string.extend_utfstrs(texts)
}

/// Takes over the well-formed units of a string with their capacity.
pub fn capacity_of_text(string: U16String) -> Option<usize>
    ensures { IfSome result (λ capacity. capacity ≡ string.capacity) }
{
    let text = Utf16String::from_ustring(string).ok()?;
    Some(text.capacity())
}

/// Leaves a string unchanged if the allocation for a character fails: no half of a pair is appended.
///
/// # Requires
///
/// The units are 61.
pub fn put_whole_or_not(string: &mut U16String) -> bool
    requires { string.old.units ≡ 0x61 ∷ [] }
    ensures put { result ≡ true → string.new.units ≡ 0x61 ∷ 0xD83D ∷ 0xDE00 ∷ [] }
    ensures failed { result ≡ false → string.new.units ≡ 0x61 ∷ [] }
{
    '😀'.push_to(string).is_ok()
}

/// Reserves capacity for ten more units. The capacity is then at least eleven.
///
/// # Requires
///
/// The units are 61.
pub fn capacity_after_a_unit(string: &mut U16String) -> Option<usize>
    requires { string.old.units ≡ 0x61 ∷ [] }
    ensures { IfSome result (λ capacity. 11 ≤ capacity) }
{
    string.reserve(10).ok()?;
    Some(string.capacity())
}

/// Replaces a unit between two others by two units.
///
/// # Requires
///
/// The units are 61, 62 and 63.
pub fn replaced_unit(string: &mut U16String) -> Result<(), OutOfMemory>
    requires { string.old.units ≡ 0x61 ∷ 0x62 ∷ 0x63 ∷ [] }
    ensures { OnOk result (string.new.units ≡ 0x61 ∷ 0x64 ∷ 0x65 ∷ 0x63 ∷ []) }
{
    string.replace_range(1..2, U16Str::from_slice(&[0x64, 0x65]))
}

/// Inserts two units between two others.
///
/// # Requires
///
/// The units are 61 and 62.
pub fn inserted_units(string: &mut U16String) -> Result<(), OutOfMemory>
    requires { string.old.units ≡ 0x61 ∷ 0x62 ∷ [] }
    ensures { OnOk result (string.new.units ≡ 0x61 ∷ 0x63 ∷ 0x64 ∷ 0x62 ∷ []) }
{
    string.insert_ustr(1, U16Str::from_slice(&[0x63, 0x64]))
}

/// Replaces a unit between two others by the two units of a text.
///
/// # Requires
///
/// The units are 61, 62 and 63, and the text is one emoji.
pub fn replaced_by_text(string: &mut U16String, text: &str) -> Result<(), OutOfMemory>
    requires units { string.old.units ≡ 0x61 ∷ 0x62 ∷ 0x63 ∷ [] }
    requires text { chars text.now ≡ 0x1_F600 ∷ [] }
    ensures { OnOk result (string.new.units ≡ 0x61 ∷ 0xD83D ∷ 0xDE00 ∷ 0x63 ∷ []) }
{
    string.splice_str(1, 2, text)
}

/// Removes a unit between two others.
///
/// # Requires
///
/// The units are 61, 62 and 63.
pub fn removed_unit(string: &mut U16String)
    requires { string.old.units ≡ 0x61 ∷ 0x62 ∷ 0x63 ∷ [] }
    ensures { string.new.units ≡ 0x61 ∷ 0x63 ∷ [] }
{
    string.drain(1..2);
}

/// Retains the units for which a closure returns true, and calls it once for each unit, in order.
///
/// # Requires
///
/// The closure can be called any number of times.
pub fn retained<F: FnMut(u16) -> bool>(string: &mut U16String, keep: F)
    requires { F.IsAlwaysCallable keep }
    ensures { IsFiltered F.step keep string.old.units string.new.units }
{
    string.retain(keep);
}
