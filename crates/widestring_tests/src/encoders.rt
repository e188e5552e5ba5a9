//! Encoders at concrete sources, whose contracts follow from those of the library.
ghost use Rattle.std.specs.Prelude.{◌≡◌, ◌∷◌, ◌++◌, [], ℕ, List, IfOk, MatchOption};
ghost use Rattle.std.specs.Str.{chars};
ghost use Rattle.widestring.specs.EncodingForm.{Utf16, Utf32, encode};
ghost use Rattle.widestring.specs.Utf8.{utf8};

use std::alloc::{AllocError, Global};
use widestring::{encode_utf8, encode_utf16, encode_utf32};

/// Returns the UTF-16 units of a text.
///
/// # Errors
///
/// [`AllocError`] if an allocation fails.
pub fn units_of(alloc: Global, text: &str) -> Result<Vec<u16>, AllocError>
    ensures { IfOk result (λ v. v.items ≡ encode Utf16 (chars text.now)) }
{
    encode_utf16(text.chars()).collect(alloc)
}

/// Returns the UTF-8 bytes of characters.
///
/// # Errors
///
/// [`AllocError`] if an allocation fails.
pub fn bytes_of(alloc: Global, letters: &[char]) -> Result<Vec<u8>, AllocError>
    ensures { IfOk result (λ v. v.items ≡ utf8 letters.now) }
{
    encode_utf8(letters.iter().copied()).collect(alloc)
}

/// Returns the UTF-32 unit of the last character of a vector, and consumes the vector.
pub fn last_unit_of(letters: Vec<char>) -> Option<u32>
    ensures { MatchOption result (encode Utf32 letters.items ≡ []) (λ u. (more : List ℕ) × (encode Utf32 letters.items ≡ more ++ u ∷ [])) }
{
    encode_utf32(letters).next_back()
}
