//! Decoders that yield U+FFFD in place of each fault.
ghost use Rattle.std.specs.Prelude.{◌≡◌, ◌*◌, ◌/◌, ℕ, false, List, length, IfSome, Some};
ghost use Rattle.std.specs.Option.{option_map};
ghost use Rattle.std.specs.Iterator.{UpTo, size};
ghost use Rattle.std.specs.Iterator.SizeHint.{IsWithinCount};
ghost use Rattle.wide_forms.specs.EncodingForm.{Utf16, Utf32, IsCodeUnit};
ghost use Rattle.wide_forms.specs.Items.{items};
ghost use Rattle.wide_forms.specs.Lossy.{lossy, or_replacement};
ghost use Rattle.wide_iter.specs.Over.{FirstOver, LastOver};
ghost use Rattle.wide_iter.specs.Source.{has_ended, inner_of, source_count, left_in_source};
ghost use Rattle.wide_iter.specs.Sources.{copied_rest};
ghost use Rattle.wide_iter.specs.Decoder16.{source_of, CanDecode, decoder_count, IsNew, pending, upper_with};
ghost use Rattle.wide_iter.specs.Decoder32.{source32_of, CanDecode32, decoder32_count};
ghost use Rattle.wide_iter.specs.Lossy.{strict16_of, strict32_of, lossy16_left, lossy32_left};

use crate::decode16::{DecodeUtf16, decode_utf16};
use crate::decode32::{DecodeUtf32, decode_utf32};
use std::iter::{Copied, FusedIterator};
use std::slice::Iter;
use wide_forms::or_replacement;

/// An iterator over the characters of UTF-16 units, with U+FFFD in place of each unit that belongs to no character
/// (Unicode Standard, D93b).
///
/// A run of faults yields a U+FFFD for each. It iterates from both ends if the source does. It is fused, and does not
/// call a source again after its end. It does not allocate. [`decode_utf16_lossy`] creates it.
///
/// # Example
///
/// ```
/// let mut decoder = decode_utf16_lossy([0xdc00, 0x48, 0xd83d]);
/// assert!(rt; decoder.next_back() == Some('\u{fffd}'));
/// assert!(rt; decoder.next_back() == Some('H'));
/// ```
#[derive(Debug, Drop)]
pub struct DecodeUtf16Lossy<I> {
    utf16: DecodeUtf16<I>,
}

/// An iterator over the characters of UTF-32 units, with U+FFFD in place of each unit that is no character (Unicode
/// Standard, D93b).
///
/// A run of faults yields a U+FFFD for each. It iterates from both ends if the source does, and is an
/// `ExactSizeIterator` if the source is one. It is fused, and does not call a source again after its end. It does not
/// allocate. [`decode_utf32_lossy`] creates it.
///
/// # Example
///
/// ```
/// let mut decoder = decode_utf32_lossy([0x48, 0x11_0000]);
/// assert!(rt; decoder.next() == Some('H'));
/// assert!(rt; decoder.next() == Some('\u{fffd}'));
/// ```
#[derive(Debug, Drop)]
pub struct DecodeUtf32Lossy<I> {
    utf32: DecodeUtf32<I>,
}

/// Creates a lossy decoder of the 16-bit units that `units` yields.
///
/// # Example
///
/// ```
/// let chars = decode_utf16_lossy([0x48, 0xd83d, 0xd83d, 0xde00]);
/// assert!(rt; chars.eq(['H', '\u{fffd}', '😀']));
/// ```
pub fn decode_utf16_lossy<U: IntoIterator<Item = u16>>(units: U) -> DecodeUtf16Lossy<U::IntoIter>
    ensures source { U.into_iter_gives units (inner_of (source_of (strict16_of result))) }
    ensures new { IsNew (strict16_of result) }
    ensures items { (rest : U.IntoIter → List ℕ) → lossy16_left rest result ≡ lossy (items Utf16 (rest (inner_of (source_of (strict16_of result))))) }
{
    DecodeUtf16Lossy {
        utf16: decode_utf16(units),
    }
}

/// Creates a lossy decoder of the 32-bit units that `units` yields.
pub fn decode_utf32_lossy<U: IntoIterator<Item = u32>>(units: U) -> DecodeUtf32Lossy<U::IntoIter>
    ensures source { U.into_iter_gives units (inner_of (source32_of (strict32_of result))) }
    ensures new { has_ended (source32_of (strict32_of result)) ≡ false }
    ensures items { (rest : U.IntoIter → List ℕ) → lossy32_left rest result ≡ lossy (items Utf32 (rest (inner_of (source32_of (strict32_of result))))) }
{
    DecodeUtf32Lossy {
        utf32: decode_utf32(units),
    }
}

// Returns what a strict decoder yielded, with U+FFFD in place of a fault.
fn replace_fault<E: Drop>(yielded: Option<Result<char, E>>) -> Option<char>
    ensures { result ≡ option_map or_replacement yielded }
{
    match yielded {
        Some(item) => Some(or_replacement(item)),
        None => None,
    }
}

impl<I: Iterator<Item = u16>> Iterator for DecodeUtf16Lossy<I> {
    type Item = char;

    ghost can_next = { λ s. CanDecode I.can_next (strict16_of s) };

    ghost next_gives = { FirstOver (IsCodeUnit Utf16) I.next_gives (λ c. c) lossy16_left };

    ghost remaining = { λ s. decoder_count I.remaining (strict16_of s) };

    #[inline]
    fn next(&mut self) -> Option<char> {
        replace_fault(self.utf16.next())
    }

    fn size_hint(&self) -> (usize, Option<usize>)
        ensures lower { IsWithinCount result.0 (decoder_count I.remaining (strict16_of self.now)) }
        ensures upper { IfSome result.1 (UpTo (decoder_count I.remaining (strict16_of self.now))) }
        ensures least { IsWithinCount (result.0 * 2) (source_count I.remaining (source_of (strict16_of self.now))) }
    {
        self.utf16.size_hint()
    }
}

impl<I: DoubleEndedIterator<Item = u16>> DoubleEndedIterator for DecodeUtf16Lossy<I> {
    ghost can_next_back = { λ s. CanDecode I.can_next_back (strict16_of s) };

    ghost next_back_gives = { LastOver (IsCodeUnit Utf16) I.next_back_gives (λ c. c) lossy16_left };

    #[inline]
    fn next_back(&mut self) -> Option<char> {
        replace_fault(self.utf16.next_back())
    }
}

impl DecodeUtf16Lossy<Copied<Iter<'_, u16>>> {
    /// Returns bounds on the number of characters, from the length of the slice: at least one for two units that were
    /// not read yet, and at most one for each of these and each in the lookahead. Generic code uses the trait's
    /// `size_hint`, whose contract says less.
    pub fn size_hint(&self) -> (usize, Option<usize>)
        ensures lower { result.0 ≡ length (left_in_source copied_rest (source_of (strict16_of self.now))) / 2 }
        ensures upper { result.1 ≡ upper_with (Some (length (left_in_source copied_rest (source_of (strict16_of self.now))))) (pending (strict16_of self.now)) }
    {
        self.utf16.size_hint()
    }
}

impl<I: Iterator<Item = u32>> Iterator for DecodeUtf32Lossy<I> {
    type Item = char;

    ghost can_next = { λ s. CanDecode32 I.can_next (strict32_of s) };

    ghost next_gives = { FirstOver (IsCodeUnit Utf32) I.next_gives (λ c. c) lossy32_left };

    ghost remaining = { λ s. decoder32_count I.remaining (strict32_of s) };

    #[inline]
    fn next(&mut self) -> Option<char> {
        replace_fault(self.utf32.next())
    }

    fn size_hint(&self) -> (usize, Option<usize>) {
        self.utf32.size_hint()
    }
}

impl<I: DoubleEndedIterator<Item = u32>> DoubleEndedIterator for DecodeUtf32Lossy<I> {
    ghost can_next_back = { λ s. CanDecode32 I.can_next_back (strict32_of s) };

    ghost next_back_gives = { LastOver (IsCodeUnit Utf32) I.next_back_gives (λ c. c) lossy32_left };

    #[inline]
    fn next_back(&mut self) -> Option<char> {
        replace_fault(self.utf32.next_back())
    }
}

impl<I: ExactSizeIterator<Item = u32>> ExactSizeIterator for DecodeUtf32Lossy<I> {
    fn len(&self) -> usize {
        self.utf32.len()
    }
}

impl<I: ExactSizeIterator<Item = u32>> DecodeUtf32Lossy<I> {
    /// Returns the number of characters as both bounds, if the source knows how many units are left.
    pub fn size_hint(&self) -> (usize, Option<usize>)
        ensures lower { result.0 ≡ size (decoder32_count I.remaining (strict32_of self.now)) }
        ensures upper { result.1 ≡ Some (size (decoder32_count I.remaining (strict32_of self.now))) }
    {
        let left = self.utf32.len();
        (left, Some(left))
    }
}

impl<I: Iterator<Item = u16>> FusedIterator for DecodeUtf16Lossy<I> {}

impl<I: Iterator<Item = u32>> FusedIterator for DecodeUtf32Lossy<I> {}
