//! Offsets of UTF-32, each of which is a character boundary: a comparison with the length is all that a call requires.
ghost use Rattle.std.specs.Prelude.{◌<◌, ◌≤◌};
ghost use Rattle.widestring.specs.Units.{ustring_len};

use widestring::error::OutOfMemory;
use widestring::{Utf32Str, Utf32String};

/// Inserts a character at an offset.
///
/// # Requires
///
/// The offset is at most the length.
pub fn insert_at(text: &mut Utf32String, index: usize, c: char) -> Result<(), OutOfMemory>
    requires { index ≤ ustring_len text.old }
{
    text.insert(index, c)
}

/// Removes the character at an offset, and returns it.
///
/// # Requires
///
/// The offset is less than the length.
pub fn remove_at(text: &mut Utf32String, index: usize) -> char
    requires { index < ustring_len text.old }
{
    text.remove(index)
}

/// Returns the first half.
pub fn first_half(text: Utf32Str<'_>) -> Utf32Str<'_> {
    text.slice(..text.len() / 2)
}

/// Removes all characters, and returns the last of them.
pub fn take_all(text: &mut Utf32String) -> Option<char> {
    text.drain(..).next_back()
}
