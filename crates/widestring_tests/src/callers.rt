//! Callers at concrete sources, whose contracts follow from those of the library.
ghost use Rattle.std.specs.Prelude.{◌≡◌, ℕ, [], IfOk, MatchOption, List, map, ◌∷◌, ◌++◌};
ghost use Rattle.std.specs.Iterator.{IsFinite};
ghost use Rattle.widestring.specs.Over.{GivesFirst};
ghost use Rattle.widestring.specs.EncodingForm.{Utf16, Utf32, IsCodeUnit};
ghost use Rattle.widestring.specs.Items.{items};
ghost use Rattle.widestring.specs.Lossy.{lossy};
ghost use Rattle.widestring.specs.Segmentation.{Item};
ghost use Rattle.widestring.specs.Unit.{reported_item};
ghost use Rattle.widestring_tests.specs.Front.{prefix_rest};
ghost use Rattle.widestring.specs.Transcoded.{transcoded, Clean};
ghost use Rattle.wide_transcode.specs.declared.mode.Mode.TheVariants.{Strict};

use crate::front::Front;
use std::alloc::{AllocError, Global};
use widestring::bytes::{FromRead, FromWrite, Mode, transcode};
use widestring::error::{DecodeUtf16Error, DecodeUtf32Error, TranscodeError};
use widestring::{decode_utf16, decode_utf16_lossy, decode_utf32, decode_utf32_lossy};

/// Converts UTF-16 in bytes to UTF-8, from memory to memory. The contract says that the result is the text of the
/// definition.
///
/// # Errors
///
/// The error of `transcode`: the units are ill-formed, the number of bytes is odd, or the result can't be allocated.
pub fn text_of(alloc: Global, bytes: &[u8]) -> Result<Vec<u8>, TranscodeError>
    ensures { IfOk result (λ text. transcoded Strict bytes.now ≡ record { text = text.items; ending = Clean }) }
{
    let mut source = FromRead::new(bytes);
    let mut sink = FromWrite::new(Vec::new(alloc));
    transcode(&mut source, &mut sink, Mode::Strict)?;
    Ok(sink.into_inner())
}

/// Returns the first item of a vector of units, and consumes the vector.
pub fn first_of(units: Vec<u16>) -> Option<Result<char, DecodeUtf16Error>>
    ensures { MatchOption result (items Utf16 units.items ≡ []) (λ r. (more : List Item) × (items Utf16 units.items ≡ reported_item r ∷ more)) }
{
    decode_utf16(units).next()
}

/// Returns the last item of a vector of units, and consumes the vector.
pub fn last_of(units: Vec<u16>) -> Option<Result<char, DecodeUtf16Error>>
    ensures { MatchOption result (items Utf16 units.items ≡ []) (λ r. (more : List Item) × (items Utf16 units.items ≡ more ++ reported_item r ∷ [])) }
{
    decode_utf16(units).next_back()
}

/// Returns all items of a slice of units.
///
/// # Errors
///
/// [`AllocError`] if an allocation fails.
pub fn all_of(
    alloc: Global,
    units: &[u16],
) -> Result<Vec<Result<char, DecodeUtf16Error>>, AllocError>
    ensures { IfOk result (λ v. map reported_item v.items ≡ items Utf16 units.now) }
{
    decode_utf16(units.iter().copied()).collect(alloc)
}

/// Returns all items of what any source yields. A function of the source says what it yields.
///
/// # Requires
///
/// The source can be called, and is finite.
///
/// # Errors
///
/// [`AllocError`] if an allocation fails.
pub fn all_of_source<I: Iterator<Item = u16>>(
    alloc: Global,
    units: I,
) -> Result<Vec<Result<char, DecodeUtf16Error>>, AllocError>
    requires can { I.can_next units }
    requires ends { IsFinite (I.remaining units) }
    ensures { (rest : I → List ℕ) → GivesFirst (IsCodeUnit Utf16) I.next_gives rest → IfOk result (λ v. map reported_item v.items ≡ items Utf16 (rest units)) }
{
    decode_utf16(units).collect(alloc)
}

/// Returns all items of the units that a manually written source yields.
///
/// # Errors
///
/// [`AllocError`] if an allocation fails.
pub fn all_of_prefix(
    alloc: Global,
    units: Front<'_>,
) -> Result<Vec<Result<char, DecodeUtf16Error>>, AllocError>
    ensures { IfOk result (λ v. map reported_item v.items ≡ items Utf16 (prefix_rest units.entry)) }
{
    decode_utf16(units).collect(alloc)
}

/// Returns all items of a slice of 32-bit units.
///
/// # Errors
///
/// [`AllocError`] if an allocation fails.
pub fn all_of32(
    alloc: Global,
    units: &[u32],
) -> Result<Vec<Result<char, DecodeUtf32Error>>, AllocError>
    ensures { IfOk result (λ v. map reported_item v.items ≡ items Utf32 units.now) }
{
    decode_utf32(units.iter().copied()).collect(alloc)
}

/// Returns the lossy text of a vector of units, and consumes the vector.
///
/// # Errors
///
/// [`AllocError`] if an allocation fails.
pub fn lossy_of16(alloc: Global, units: Vec<u16>) -> Result<Vec<char>, AllocError>
    ensures { IfOk result (λ v. v.items ≡ lossy (items Utf16 units.items)) }
{
    decode_utf16_lossy(units).collect(alloc)
}

/// Returns the last character of the lossy text of a slice of 32-bit units.
pub fn last_lossy_of32(units: &[u32]) -> Option<char>
    ensures { MatchOption result (lossy (items Utf32 units.now) ≡ []) (λ c. (more : List ℕ) × (lossy (items Utf32 units.now) ≡ more ++ c ∷ [])) }
{
    decode_utf32_lossy(units.iter().copied()).next_back()
}

/// Returns the lossy text of what any source yields.
///
/// # Requires
///
/// The source can be called, and is finite.
///
/// # Errors
///
/// [`AllocError`] if an allocation fails.
pub fn lossy_of<I: Iterator<Item = u16>>(alloc: Global, units: I) -> Result<Vec<char>, AllocError>
    requires can { I.can_next units }
    requires ends { IsFinite (I.remaining units) }
    ensures { (rest : I → List ℕ) → GivesFirst (IsCodeUnit Utf16) I.next_gives rest → IfOk result (λ v. v.items ≡ lossy (items Utf16 (rest units))) }
{
    decode_utf16_lossy(units).collect(alloc)
}
