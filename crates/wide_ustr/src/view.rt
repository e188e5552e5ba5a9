//! Views of units that may be ill-formed.
ghost use Rattle.std.specs.Prelude.{◌≡◌, ◌≤◌, ◌↔◌, ◌++◌, ◌==◌, [], length, map, take, drop, IsSome, IfSome};
ghost use Rattle.wide_forms.specs.Range.{IsInRange, part_of};
ghost use Rattle.wide_forms.specs.Items.{items};
ghost use Rattle.wide_forms.specs.Lossy.{lossy, lossy_by};
ghost use Rattle.wide_ustr.specs.Indexed.{indexed, indexed_lossy};

use crate::display::{Display, DisplaySkipping};
use crate::iter::{CharIndices, CharIndicesLossy, Chars, CharsLossy};
use crate::lossy_with::CharsLossyWith;
use std::ops::RangeBounds;
use std::slice;
use wide_forms::Policy;
use wide_unit::{Unit, range_check};
use wide_utferror::FaultUnit;

/// A view of units of 16 or 32 bits, of any values: its text may be well formed or not.
///
/// A view is a slice of units and can be copied. Only calls that take an allocator allocate. Equality, order and hash
/// of views are those of their units. The order is lexicographic by the units' numbers; it can differ from the order of
/// the characters.
///
/// `{:?}` prints the text between quotes, as [`char::escape_debug`] escapes it. A unit that belongs to no character is
/// printed as `\<H>`, where `H` is its number in upper-case hexadecimal, without leading zeros. Printing ignores the
/// format options, and returns an error of the sink at once.
///
/// # Example
///
/// ```
/// let path = U16Str::from_slice(&[0x43, 0x3a, 0x5c, 0xd800]);
/// assert!(rt; path.len() == 4);
/// assert!(rt; path.get(..2) == Some(U16Str::from_slice(&[0x43, 0x3a])));
/// ```
#[derive(Clone, Copy, PartialEq, Eq, PartialOrd, Ord, Hash)]
pub struct UStr<'a, C> {
    pub(crate) units: &'a [C],
}

/// A view of 16-bit units.
pub type U16Str<'a> = UStr<'a, u16>;

/// A view of 32-bit units.
pub type U32Str<'a> = UStr<'a, u32>;

/// The unit of the types whose names begin with `Wide`: 32 bits, as `wchar_t` has on Linux.
pub type WideChar = u32;

/// A view of units of the type [`WideChar`].
pub type WideStr<'a> = U32Str<'a>;

impl<'a, C> UStr<'a, C> {
    ghost use Rattle.wide_ustr.specs.View.{units_seen};
    ghost use Rattle.wide_ustr.specs.Printed.{displayed, displayed_skipping};

    /// Makes a view of a slice of units.
    ///
    /// # Example
    ///
    /// ```
    /// let units = [0x48, 0x69, 0xd83d];
    /// let view = U16Str::from_slice(&units);
    /// assert!(rt; view.as_slice() == units.as_slice());
    /// ```
    pub fn from_slice(units: &'a [C]) -> Self
        ensures { units_seen result ≡ units.now }
    {
        UStr { units }
    }

    /// Returns the units as a slice.
    pub fn as_slice(self) -> &'a [C]
        ensures { result.now ≡ units_seen self.entry }
    {
        self.units
    }

    /// Returns the length in units.
    pub fn len(self) -> usize
        ensures { result ≡ length (units_seen self.entry) }
    {
        self.units.len()
    }

    /// Returns whether the view is empty.
    pub fn is_empty(self) -> bool
        ensures { result ≡ (length (units_seen self.entry) == 0) }
    {
        self.units.is_empty()
    }

    /// Returns a view of the units in a range, whose ends are offsets in units. Returns `None` if the range starts
    /// after its end, ends past the end of the view, or has a bound past `usize::MAX`. [`range_check`] checks the
    /// range.
    pub fn get<R: RangeBounds<usize>>(self, range: R) -> Option<Self>
        ensures some { R.has_bounds range → IsSome result ↔ IsInRange (units_seen self.entry) (R.start_bound range) (R.end_bound range) }
        ensures part { R.has_bounds range → IfSome result (λ part. units_seen part ≡ part_of (units_seen self.entry) (R.start_bound range) (R.end_bound range)) }
    {
        let offsets = range_check(range, self.units.len())?;
        Some(UStr {
            units: &self.units[offsets.start..offsets.end],
        })
    }

    /// Returns a view of the units in a range, whose ends are offsets in units. It does not check the range.
    ///
    /// # Requires
    ///
    /// The range starts at or before its end and lies within the view. It is not an inclusive range that was iterated
    /// to its end.
    pub fn slice<R: RangeBounds<usize>>(self, range: R) -> Self
        requires bounds { R.has_bounds range }
        requires in_range { IsInRange (units_seen self) (R.start_bound range) (R.end_bound range) }
        ensures { units_seen result ≡ part_of (units_seen self.entry) (R.start_bound range) (R.end_bound range) }
    {
        let offsets = slice::range(range, ..self.units.len());
        UStr {
            units: &self.units[offsets.start..offsets.end],
        }
    }

    /// Returns a view of the units in a range, whose ends are offsets in units, without checking the range. It is
    /// [`UStr::slice`] under the name that the Rust crate has for it.
    ///
    /// # Requires
    ///
    /// The range starts at or before its end and lies within the view. It is not an inclusive range that was iterated
    /// to its end.
    pub fn get_unchecked<R: RangeBounds<usize>>(self, range: R) -> Self
        requires bounds { R.has_bounds range }
        requires in_range { IsInRange (units_seen self) (R.start_bound range) (R.end_bound range) }
        ensures { units_seen result ≡ part_of (units_seen self.entry) (R.start_bound range) (R.end_bound range) }
    {
        self.slice(range)
    }

    /// Splits the view at an offset in units, into the units before it and those from it on.
    ///
    /// # Requires
    ///
    /// The offset is at most the length.
    pub fn split_at(self, mid: usize) -> (Self, Self)
        requires { mid ≤ length (units_seen self) }
        ensures prefix { units_seen result.0 ≡ take mid (units_seen self.entry) }
        ensures back { units_seen result.1 ≡ drop mid (units_seen self.entry) }
        ensures joined { units_seen result.0 ++ units_seen result.1 ≡ units_seen self.entry }
    {
        let (prefix, back) = self.units.split_at(mid);
        (UStr { units: prefix }, UStr { units: back })
    }

    /// Returns a value whose `Display` prints the text of the view, with one U+FFFD for each unit that belongs to no
    /// character.
    ///
    /// # Example
    ///
    /// ```
    /// let name = U16Str::from_slice(&[0x48, 0x69, 0xd83d]);
    /// let line = format!(in rt.alloc(); "Name: {}", name.display())?;
    /// assert!(rt; line.as_str() == "Name: Hi\u{fffd}");
    /// ```
    pub fn display(self) -> Display<'a, C>
        ensures { displayed result ≡ self.entry }
    {
        Display { view: self }
    }

    /// Returns a value whose `Display` prints the text of the view without the units that belong to no character, and
    /// without any U+FFFD of the text.
    ///
    /// # Example
    ///
    /// ```
    /// let name = U16Str::from_slice(&[0x48, 0xd83d, 0x69]);
    /// let line = format!(in rt.alloc(); "Name: {}", name.display_skipping())?;
    /// assert!(rt; line.as_str() == "Name: Hi");
    /// ```
    pub fn display_skipping(self) -> DisplaySkipping<'a, C>
        ensures { displayed_skipping result ≡ self.entry }
    {
        DisplaySkipping { view: self }
    }
}

impl<'a, C: Unit> UStr<'a, C> {
    ghost use Rattle.wide_ustr.specs.View.{units_seen};
    ghost use Rattle.wide_ustr.specs.Iter.{lossy_left, indices_lossy_left, lossy_offset_of};
    ghost use Rattle.wide_ustr.specs.LossyWith.{lossy_with_left, lossy_with_rest};

    /// Returns an iterator over the characters, from both ends, with one U+FFFD for each unit that belongs to none.
    ///
    /// # Example
    ///
    /// ```
    /// let units = U16Str::from_slice(&[0x48, 0xd83d, 0xde00, 0xdc00]);
    /// assert!(rt; units.chars_lossy().eq("H😀\u{fffd}".chars()));
    /// ```
    pub fn chars_lossy(self) -> CharsLossy<'a, C>
        ensures { lossy_left C.form C.number result ≡ lossy (items C.form (map C.number (units_seen self.entry))) }
    {
        CharsLossy { rest: self.units }
    }

    /// Returns an iterator over the characters, from both ends. The [`Policy`] determines what replaces the units that
    /// belong to none.
    pub fn chars_lossy_with(self, policy: Policy) -> CharsLossyWith<'a, C>
        ensures left { lossy_with_left C.form C.number result ≡ lossy_by policy (items C.form (map C.number (units_seen self.entry))) }
        ensures rest { lossy_with_rest result ≡ units_seen self.entry }
    {
        CharsLossyWith {
            rest: self.units,
            policy,
        }
    }

    /// Returns an iterator over the characters, from both ends, with one U+FFFD for each unit that belongs to none.
    /// Each comes with the offset, in units, at which it begins in the view.
    ///
    /// # Example
    ///
    /// ```
    /// let units = U16Str::from_slice(&[0xd83d, 0xde00, 0xdc00]);
    /// let mut characters = units.char_indices_lossy();
    /// assert!(rt; characters.next() == Some((0, '😀')));
    /// assert!(rt; characters.next() == Some((2, '\u{fffd}')));
    /// ```
    pub fn char_indices_lossy(self) -> CharIndicesLossy<'a, C>
        ensures items { indices_lossy_left C.form C.number result ≡ indexed_lossy C.form 0 (items C.form (map C.number (units_seen self.entry))) }
        ensures offset { lossy_offset_of result ≡ 0 }
    {
        CharIndicesLossy::new(self.units)
    }
}

impl<'a, C: FaultUnit> UStr<'a, C> {
    ghost use Rattle.wide_ustr.specs.View.{units_seen};
    ghost use Rattle.wide_ustr.specs.Iter.{items_left, indices_left, offset_of};

    /// Returns an iterator over the characters, from both ends. It yields an error for each unit that belongs to none
    /// (Unicode Standard, D84a).
    ///
    /// # Example
    ///
    /// ```
    /// let units = U16Str::from_slice(&[0x48, 0xd83d, 0x69]);
    /// assert!(rt; units.chars().filter(|item| item.is_err()).count() == 1);
    /// ```
    pub fn chars(self) -> Chars<'a, C>
        ensures { items_left C.form C.number result ≡ items C.form (map C.number (units_seen self.entry)) }
    {
        Chars { rest: self.units }
    }

    /// Returns an iterator over the characters, from both ends. It yields an error for each unit that belongs to none
    /// (Unicode Standard, D84a). Each comes with the offset, in units, at which it begins in the view.
    ///
    /// # Example
    ///
    /// ```
    /// let units = U16Str::from_slice(&[0x48, 0xd83d, 0x69, 0xdc00]);
    /// let mut faults = units.char_indices().filter(|item| item.1.is_err());
    /// assert!(rt; faults.next() == Some((1, Err(DecodeUtf16Error::new(0xd83d)))));
    /// assert!(rt; faults.next() == Some((3, Err(DecodeUtf16Error::new(0xdc00)))));
    /// ```
    pub fn char_indices(self) -> CharIndices<'a, C>
        ensures items { indices_left C.form C.number result ≡ indexed C.form 0 (items C.form (map C.number (units_seen self.entry))) }
        ensures offset { offset_of result ≡ 0 }
    {
        CharIndices::new(self.units)
    }
}

impl<C> Default for UStr<'_, C> {
    ghost use Rattle.wide_ustr.specs.View.{units_seen};

    ghost is_default = { λ view. units_seen view ≡ [] };

    /// Creates an empty view.
    fn default() -> Self {
        UStr { units: &[] }
    }
}
