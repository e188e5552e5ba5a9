//! Lossy decoders under a policy.
ghost use Rattle.std.specs.Prelude.{◌≡◌, ℕ, List, IfSome, None};
ghost use Rattle.std.specs.Iterator.{UpTo};
ghost use Rattle.std.specs.Iterator.SizeHint.{IsWithinCount};
ghost use Rattle.wide_forms.specs.EncodingForm.{Utf16, Utf32, IsCodeUnit};
ghost use Rattle.wide_forms.specs.Items.{items};
ghost use Rattle.wide_forms.specs.Lossy.{lossy_by};
ghost use Rattle.wide_iter.specs.Over.{FirstOver, LastOver};
ghost use Rattle.wide_iter.specs.LossyDecoders.{units16_of, units32_of, lossy16_with_left, lossy32_with_left, lossy16_with_count, lossy32_with_count, CanDecode16With, CanDecode32With, IsNew16With, IsNew32With};

use crate::decode16::{DecodeUtf16, decode_utf16};
use crate::decode32::{DecodeUtf32, decode_utf32};
use crate::lossy_with::LossyWith;
use std::iter::FusedIterator;
use wide_forms::Policy;

/// An iterator over the characters of UTF-16 units, with what a policy yields in place of each unit that belongs to no
/// character (Unicode Standard, D93b).
///
/// It iterates from both ends if the source does. It is fused, and does not call a source again after its end. Under a
/// policy that yields nothing for a fault directly after another, such as [`Policy::Run`], the call that reaches a run
/// of faults reads it to its end. Under the other policies, each call reads one fault. It does not allocate.
/// [`decode_utf16_lossy_with`] creates it.
///
/// # Example
///
/// ```
/// let chars = decode_utf16_lossy_with([0x48, 0xd83d, 0xd83d, 0x69], Policy::Run);
/// assert!(rt; chars.eq(['H', '\u{fffd}', 'i']));
/// ```
#[derive(Debug, Drop)]
pub struct DecodeUtf16LossyWith<I> {
    chars: LossyWith<DecodeUtf16<I>>,
}

/// Creates a lossy decoder, under a policy, of the 16-bit units that `units` yields. A call of the decoder may read a
/// run of faults of any length, under a policy such as [`Policy::Run`], so it can only be called if the source is
/// finite.
pub fn decode_utf16_lossy_with<U: IntoIterator<Item = u16>>(
    units: U,
    policy: Policy,
) -> DecodeUtf16LossyWith<U::IntoIter>
    ensures source { U.into_iter_gives units (units16_of result) }
    ensures new { IsNew16With result }
    ensures items { (rest : U.IntoIter → List ℕ) → lossy16_with_left rest result ≡ lossy_by policy (items Utf16 (rest (units16_of result))) }
{
    DecodeUtf16LossyWith {
        chars: LossyWith::new(decode_utf16(units), policy),
    }
}

impl<I: Iterator<Item = u16>> Iterator for DecodeUtf16LossyWith<I> {
    type Item = char;

    ghost can_next = { CanDecode16With I.can_next I.remaining };

    ghost next_gives = { FirstOver (IsCodeUnit Utf16) I.next_gives (λ c. c) lossy16_with_left };

    ghost remaining = { lossy16_with_count I.remaining };

    #[inline]
    fn next(&mut self) -> Option<char> {
        self.chars.next()
    }

    /// Returns no bounds: how many characters a run of faults yields is unknown before it is read.
    fn size_hint(&self) -> (usize, Option<usize>)
        ensures lower { IsWithinCount result.0 (lossy16_with_count I.remaining self.now) }
        ensures upper { IfSome result.1 (UpTo (lossy16_with_count I.remaining self.now)) }
        ensures value { result ≡ (0, None) }
    {
        (0, None)
    }
}

impl<I: DoubleEndedIterator<Item = u16>> DoubleEndedIterator for DecodeUtf16LossyWith<I> {
    ghost can_next_back = { CanDecode16With I.can_next_back I.remaining };

    ghost next_back_gives = { LastOver (IsCodeUnit Utf16) I.next_back_gives (λ c. c) lossy16_with_left };

    #[inline]
    fn next_back(&mut self) -> Option<char> {
        self.chars.next_back()
    }
}

impl<I: Iterator<Item = u16>> FusedIterator for DecodeUtf16LossyWith<I> {}

/// An iterator over the characters of UTF-32 units, with what a policy yields in place of each unit that is no
/// character (Unicode Standard, D93b).
///
/// It iterates from both ends if the source does. It is fused, and does not call a source again after its end. Under a
/// policy that yields nothing for a fault directly after another, such as [`Policy::Run`], the call that reaches a run
/// of faults reads it to its end. Under the other policies, each call reads one fault. It does not allocate.
/// [`decode_utf32_lossy_with`] creates it.
///
/// # Example
///
/// ```
/// let chars = decode_utf32_lossy_with([0x48, 0xd83d, 0xde00, 0x69], Policy::Skip);
/// assert!(rt; chars.eq(['H', 'i']));
/// ```
#[derive(Debug, Drop)]
pub struct DecodeUtf32LossyWith<I> {
    chars: LossyWith<DecodeUtf32<I>>,
}

/// Creates a lossy decoder, under a policy, of the 32-bit units that `units` yields. A call of the decoder may read a
/// run of faults of any length, under a policy such as [`Policy::Run`], so it can only be called if the source is
/// finite.
pub fn decode_utf32_lossy_with<U: IntoIterator<Item = u32>>(
    units: U,
    policy: Policy,
) -> DecodeUtf32LossyWith<U::IntoIter>
    ensures source { U.into_iter_gives units (units32_of result) }
    ensures new { IsNew32With result }
    ensures items { (rest : U.IntoIter → List ℕ) → lossy32_with_left rest result ≡ lossy_by policy (items Utf32 (rest (units32_of result))) }
{
    DecodeUtf32LossyWith {
        chars: LossyWith::new(decode_utf32(units), policy),
    }
}

impl<I: Iterator<Item = u32>> Iterator for DecodeUtf32LossyWith<I> {
    type Item = char;

    ghost can_next = { CanDecode32With I.can_next I.remaining };

    ghost next_gives = { FirstOver (IsCodeUnit Utf32) I.next_gives (λ c. c) lossy32_with_left };

    ghost remaining = { lossy32_with_count I.remaining };

    #[inline]
    fn next(&mut self) -> Option<char> {
        self.chars.next()
    }

    /// Returns no bounds: how many characters a run of faults yields is unknown before it is read.
    fn size_hint(&self) -> (usize, Option<usize>)
        ensures lower { IsWithinCount result.0 (lossy32_with_count I.remaining self.now) }
        ensures upper { IfSome result.1 (UpTo (lossy32_with_count I.remaining self.now)) }
        ensures value { result ≡ (0, None) }
    {
        (0, None)
    }
}

impl<I: DoubleEndedIterator<Item = u32>> DoubleEndedIterator for DecodeUtf32LossyWith<I> {
    ghost can_next_back = { CanDecode32With I.can_next_back I.remaining };

    ghost next_back_gives = { LastOver (IsCodeUnit Utf32) I.next_back_gives (λ c. c) lossy32_with_left };

    #[inline]
    fn next_back(&mut self) -> Option<char> {
        self.chars.next_back()
    }
}

impl<I: Iterator<Item = u32>> FusedIterator for DecodeUtf32LossyWith<I> {}
