//! Well-formed texts of few units: how ill-formed units are repaired, and edits at offsets in units.
ghost use Rattle.std.specs.Prelude.{◌≡◌, ◌∷◌, [], Some, true, IfOk, OnOk};
ghost use Rattle.std.specs.List.Retain.{IsFiltered};
ghost use Rattle.widestring.specs.EncodingForm.{Utf16};
ghost use Rattle.widestring.specs.Items.{chars};

use std::alloc::Global;
use widestring::Utf16String;
use widestring::error::OutOfMemory;
use widestring::unit::laws;
use widestring::utfstring::CowUtfStr;

/// Replaces each of two high surrogates after a pair by U+FFFD, and leaves the pair unchanged.
pub fn repaired_units(alloc: Global) -> Result<Utf16String, OutOfMemory>
    ensures { IfOk result (λ text. text.units ≡ 0xD83D ∷ 0xDE00 ∷ 0xFFFD ∷ 0xFFFD ∷ []) }
{
    laws::worked_lossy();
    Utf16String::from_slice_lossy(alloc, &[0xD83D, 0xDE00, 0xD800, 0xD801])?.into_owned(alloc)
}

/// Borrows units that are well formed, without allocating.
pub fn borrowed_units(alloc: Global) -> bool
    ensures { result ≡ true }
{
    laws::worked_items();
    match Utf16String::from_slice_lossy(alloc, &[0xD83D, 0xDE00]) {
        Ok(CowUtfStr::Borrowed(_)) => true,
        _ => false,
    }
}

/// Removes the last character, of two units, from a text that is one pair.
///
/// # Requires
///
/// The text is one pair.
pub fn last_of_a_pair(text: &mut Utf16String) -> Option<char>
    requires { text.old.units ≡ 0xD83D ∷ 0xDE00 ∷ [] }
    ensures { result ≡ Some 0x1_F600 }
{
    laws::worked_items();
    text.pop()
}

/// Inserts a letter after a pair, at an offset of two units.
///
/// # Requires
///
/// The text is one pair.
pub fn letter_after_a_pair(text: &mut Utf16String) -> Result<(), OutOfMemory>
    requires { text.old.units ≡ 0xD83D ∷ 0xDE00 ∷ [] }
    ensures { OnOk result (text.new.units ≡ 0xD83D ∷ 0xDE00 ∷ 0x61 ∷ []) }
{
    text.insert(text.len(), 'a')
}

/// Removes a pair before a letter by a drain that is not read.
///
/// # Requires
///
/// The text is a pair and `a`.
pub fn removed_pair(text: &mut Utf16String)
    requires { text.old.units ≡ 0xD83D ∷ 0xDE00 ∷ 0x61 ∷ [] }
    ensures { text.new.units ≡ 0x61 ∷ [] }
{
    text.drain(..2);
}

/// Retains the characters for which a closure returns true, and calls it once for each character, in order.
///
/// # Requires
///
/// The closure can be called any number of times.
pub fn retained_chars<F: FnMut(char) -> bool>(text: &mut Utf16String, keep: F)
    requires { F.IsAlwaysCallable keep }
    ensures { IsFiltered F.step keep (chars Utf16 text.old.units) (chars Utf16 text.new.units) }
{
    text.retain(keep);
}
