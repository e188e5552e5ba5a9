//! The encoder to UTF-8.
ghost use Rattle.std.specs.Prelude.{◌≡◌, ◌∷◌, ◌≤◌, ℕ, List, length, IfSome, Some};
ghost use Rattle.std.specs.Iterator.{UpTo};
ghost use Rattle.std.specs.Iterator.SizeHint.{IsWithinCount};
ghost use Rattle.std.specs.Char.{IsScalar};
ghost use Rattle.wide_forms.specs.Utf8.{utf8_bytes, utf8, trailing_byte};
ghost use Rattle.wide_iter.specs.Over.{FirstOver};
ghost use Rattle.wide_iter.specs.Hints.{upper_times};
ghost use Rattle.wide_iter.specs.Source.{inner_of, source_count, left_in_source};
ghost use Rattle.wide_iter.specs.Sources.{copied_rest};
ghost use Rattle.wide_iter.specs.Encoder8.{source_of, pending_bytes, bytes_in_lookahead, bytes_left, CanEncode, encoder_count, IsNew};

use crate::hints::encoded_hint;
use crate::source::Source;
use std::iter::{Copied, FusedIterator};
use std::slice::Iter;

// The pending bytes of a character, after its first byte.
#[derive(Clone, Copy, Debug)]
enum Pending {
    Zero,
    One(u8),
    Two(u8, u8),
    Three(u8, u8, u8),
}

/// An iterator over the UTF-8 bytes of characters (Unicode Standard, D92, Table 3-6).
///
/// It yields the bytes of each character of the source, in order, from the front only. It is fused, and does not call a
/// source again after its end. It does not allocate. [`encode_utf8`] creates it.
///
/// # Example
///
/// ```
/// let mut bytes = encode_utf8(['é']);
/// assert!(rt; bytes.next() == Some(0xc3));
/// assert!(rt; bytes.next() == Some(0xa9));
/// assert!(rt; bytes.next().is_none());
/// ```
#[derive(Debug, Drop)]
pub struct EncodeUtf8<I> {
    source: Source<I>,
    pending: Pending,
}

/// Creates an encoder to UTF-8 of the characters that `chars` yields.
///
/// # Example
///
/// ```
/// let bytes: Vec<u8> = encode_utf8(['H', '😀']).collect(rt.alloc())?;
/// assert!(rt; bytes.as_slice() == "H😀".as_bytes());
/// ```
pub fn encode_utf8<C: IntoIterator<Item = char>>(chars: C) -> EncodeUtf8<C::IntoIter>
    ensures source { C.into_iter_gives chars (inner_of (source_of result)) }
    ensures new { IsNew result }
    ensures bytes { (rest : C.IntoIter → List ℕ) → bytes_left rest result ≡ utf8 (rest (inner_of (source_of result))) }
{
    EncodeUtf8 {
        source: Source {
            inner: chars.into_iter(),
            ended: false,
        },
        pending: Pending::Zero,
    }
}

// Returns the continuation byte of the lowest six bits.
#[inline]
fn trailing_byte(bits: u32) -> u8
    ensures { result ≡ trailing_byte bits }
{
    (0x80 + bits % 0x40) as u8
}

// Returns the first byte of a character, and the bytes after it.
#[inline]
#[tactic(auto, unfolding(wide_forms::specs::Utf8::utf8_bytes))]
fn encoded(c: char) -> (u8, Pending)
    ensures { result.0 ∷ pending_bytes result.1 ≡ utf8_bytes c }
{
    let code = u32::from(c);
    if code < 0x80 {
        return (code as u8, Pending::Zero);
    }
    let last = trailing_byte(code);
    if code < 0x800 {
        return ((0xC0 + code / 0x40) as u8, Pending::One(last));
    }
    let before = trailing_byte(code / 0x40);
    if code < 0x1_0000 {
        return ((0xE0 + code / 0x1000) as u8, Pending::Two(before, last));
    }
    let second = trailing_byte(code / 0x1000);
    (
        (0xF0 + code / 0x4_0000) as u8,
        Pending::Three(second, before, last),
    )
}

impl<I> EncodeUtf8<I> {
    // Returns the number of pending bytes.
    fn pending(&self) -> usize
        ensures value { result ≡ length (bytes_in_lookahead self.now) }
        ensures bound { result ≤ 3 }
    {
        match self.pending {
            Pending::Zero => 0,
            Pending::One(_) => 1,
            Pending::Two(_, _) => 2,
            Pending::Three(_, _, _) => 3,
        }
    }
}

impl<I: Iterator<Item = char>> Iterator for EncodeUtf8<I> {
    type Item = u8;

    ghost can_next = { CanEncode I.can_next };

    ghost next_gives = { FirstOver IsScalar I.next_gives (λ b. b) bytes_left };

    ghost remaining = { encoder_count I.remaining };

    #[inline]
    fn next(&mut self) -> Option<u8> {
        match self.pending {
            Pending::Zero => {
                let (first, rest) = encoded(self.source.next()?);
                self.pending = rest;
                Some(first)
            }
            Pending::One(byte) => {
                self.pending = Pending::Zero;
                Some(byte)
            }
            Pending::Two(byte, last) => {
                self.pending = Pending::One(last);
                Some(byte)
            }
            Pending::Three(byte, before, last) => {
                self.pending = Pending::Two(before, last);
                Some(byte)
            }
        }
    }

    fn size_hint(&self) -> (usize, Option<usize>)
        ensures lower { IsWithinCount result.0 (encoder_count I.remaining self.now) }
        ensures upper { IfSome result.1 (UpTo (encoder_count I.remaining self.now)) }
        ensures least { IsWithinCount result.0 (source_count I.remaining (source_of self.now)) }
    {
        encoded_hint(self.source.size_hint(), 4, self.pending())
    }
}

impl EncodeUtf8<Copied<Iter<'_, char>>> {
    /// Returns bounds on the number of bytes, from the length of the slice: at least one for each character that was
    /// not read yet, and at most four for each of these and one for each pending byte. Generic code uses the trait's
    /// `size_hint`, whose contract says less.
    pub fn size_hint(&self) -> (usize, Option<usize>)
        ensures lower { result.0 ≡ length (left_in_source copied_rest (source_of self.now)) }
        ensures upper { result.1 ≡ upper_times (Some (length (left_in_source copied_rest (source_of self.now)))) 4 (length (bytes_in_lookahead self.now)) }
    {
        let left = self.source.len();
        encoded_hint((left, Some(left)), 4, self.pending())
    }
}

impl<I: Iterator<Item = char>> FusedIterator for EncodeUtf8<I> {}
