//! Views of wide C strings.
ghost use Rattle.std.specs.Prelude.{◌≡◌, ℕ, ◌≤◌, ◌↔◌, ◌+◌, ◌++◌, ◌∷◌, ◌==◌, [], length, map, take, drop, IsSome, IfOk, IfErr, OnOk, OnErr, IfSome, ⊤};
ghost use Rattle.wide_forms.specs.Range.{IsInRange, part_of};
ghost use Rattle.wide_forms.specs.Items.{items};
ghost use Rattle.wide_forms.specs.Lossy.{lossy, lossy_by};
ghost use Rattle.wide_unit.specs.Nul.{HasNoNul, IsFirstNul};
ghost use Rattle.wide_ustr.specs.View.{units_seen};
ghost use Rattle.wide_ustr.specs.Indexed.{indexed, indexed_lossy};
ghost use Rattle.wide_ustr.specs.Printed.{displayed, displayed_skipping};
ghost use Rattle.wide_ustr.specs.Iter.{items_left, lossy_left, indices_left, indices_lossy_left, offset_of, lossy_offset_of};
ghost use Rattle.wide_ustr.specs.LossyWith.{lossy_with_left, lossy_with_rest};
ghost use Rattle.std.proofs.Props.{props};
ghost use Rattle.wide_ucstr.specs.CString.{IsCString};

use std::alloc::AllocError;
use std::ops::RangeBounds;
use wide_forms::Policy;
use wide_unit::{Unit, first_nul};
use wide_ustr::{
    CharIndices, CharIndicesLossy, Chars, CharsLossy, CharsLossyWith, Display, DisplaySkipping,
    UStr,
};
use wide_utferror::{ContainsNul, FaultUnit, MissingNulTerminator, NulError};

/// A view of a wide C string. Its type guarantees that the last unit is a NUL, and the only one.
///
/// The units before the NUL are its contents. Offsets and lengths are counted in units of the contents. A view is a
/// slice of units and can be copied. Only calls that take an allocator allocate.
///
/// Equality, order and hash of C strings are those of their units with the NUL. Since a NUL is the least unit, the
/// order is that of the contents, by the units' numbers. `{:?}` prints the units with the NUL between quotes, as
/// [`char::escape_debug`] escapes them, so the NUL is printed last, as `\0`. A unit that belongs to no character is
/// printed as `\<H>`, where `H` is its number in upper-case hexadecimal, without leading zeros.
///
/// # Example
///
/// ```
/// let name = U16CStr::from_slice(&[0x48, 0x69, 0])?;
/// assert!(rt; name.len() == 2);
/// assert!(rt; name.as_slice_with_nul() == [0x48, 0x69, 0].as_slice());
/// ```
#[derive(PartialEq, Eq, PartialOrd, Ord, Hash)]
pub struct UCStr<'a, C: Unit> {
    pub(crate) units: &'a [C],
    ghost c_string: { IsCString (map C.number units.now) } by { Prim.hlevel props },
}

/// A view of a C string of 16-bit units.
pub type U16CStr<'a> = UCStr<'a, u16>;

/// A view of a C string of 32-bit units.
pub type U32CStr<'a> = UCStr<'a, u32>;

/// A view of a C string of wide units.
pub type WideCStr<'a> = U32CStr<'a>;

impl<C: Unit> UCStr<'_, C> {
    /// The unit that ends a C string.
    pub const NUL_TERMINATOR: C = C::NUL;
}

impl<'a, C: FaultUnit> UCStr<'a, C> {
    ghost use Rattle.wide_ucstr.specs.View.{units_with_nul, contents_seen};
    ghost use Rattle.wide_ucstr.specs.Faults.{IsNulFault};

    /// Makes a view of units if the last of them is a NUL, and the only one. It reads the units at most once.
    ///
    /// # Errors
    ///
    /// A missing NUL, if there are no units or the last one is not a NUL. Otherwise the offset of the first NUL, in
    /// units, if that is not the last unit. The error holds no vector.
    ///
    /// # Example
    ///
    /// ```
    /// let name = U16CStr::from_slice(&[0x48, 0x69, 0])?;
    /// assert!(rt; name.as_slice() == [0x48, 0x69].as_slice());
    /// assert!(rt; U16CStr::from_slice(&[0x48, 0, 0x69, 0]).is_err());
    /// ```
    pub fn from_slice(units: &'a [C]) -> Result<Self, NulError<C>>
        ensures view { IfOk result (λ view. units_with_nul view ≡ units.now) }
        ensures ok { OnOk result (IsCString (map C.number units.now)) }
        ensures fault { IfErr result (IsNulFault (map C.number units.now)) }
    {
        let [prefix @ .., last] = units else {
            return Err(MissingNulTerminator.into());
        };
        if last.code() != 0 {
            return Err(MissingNulTerminator.into());
        }
        match first_nul(prefix) {
            Some(offset) => Err(ContainsNul::new(offset, None).into()),
            None => Ok(UCStr { units }),
        }
    }

    /// Makes a view of the units up to and including the first NUL. It reads the units, vectorized, up to the block
    /// that holds the NUL.
    ///
    /// # Errors
    ///
    /// [`MissingNulTerminator`] if there is no NUL.
    ///
    /// # Example
    ///
    /// ```
    /// let buffer = [0x48, 0x69, 0, 0xffff, 0];
    /// let name = U16CStr::from_slice_truncate(&buffer)?;
    /// assert!(rt; name.as_slice() == [0x48, 0x69].as_slice());
    /// ```
    pub fn from_slice_truncate(units: &'a [C]) -> Result<Self, MissingNulTerminator>
        ensures view { IfOk result (λ view. (offset : ℕ) × IsFirstNul (map C.number units.now) offset × (units_with_nul view ≡ take (offset + 1) units.now)) }
        ensures err { OnErr result (HasNoNul (map C.number units.now)) }
    {
        let Some(offset) = first_nul(units) else {
            return Err(MissingNulTerminator);
        };
        Ok(UCStr {
            units: &units[..offset + 1],
        })
    }

    /// Makes a view of units without checking them. [`UCStr::from_slice`] checks them.
    ///
    /// # Requires
    ///
    /// The last unit is a NUL, and the only one.
    pub fn from_slice_unchecked(units: &'a [C]) -> Self
        requires { IsCString (map C.number units.now) }
        ensures { units_with_nul result ≡ units.now }
    {
        UCStr { units }
    }

    /// Returns the contents, without the NUL, as a slice.
    pub fn as_slice(self) -> &'a [C]
        ensures units { result.now ≡ contents_seen self.entry }
        ensures no_nul { HasNoNul (map C.number result.now) }
    {
        &self.units[..self.units.len() - 1]
    }

    /// Returns the contents and the NUL as a slice.
    ///
    /// # Example
    ///
    /// ```
    /// let buffer = [0x48, 0x69, 0, 0xffff];
    /// let name = U16CStr::from_slice_truncate(&buffer)?;
    /// assert!(rt; name.as_slice_with_nul() == [0x48, 0x69, 0].as_slice());
    /// ```
    pub fn as_slice_with_nul(self) -> &'a [C]
        ensures units { result.now ≡ units_with_nul self.entry }
        ensures c_string { IsCString (map C.number result.now) }
    {
        self.units
    }

    /// Returns a view of the contents, without the NUL.
    pub fn as_ustr(self) -> UStr<'a, C>
        ensures units { units_seen result ≡ contents_seen self.entry }
        ensures no_nul { HasNoNul (map C.number (units_seen result)) }
    {
        UStr::from_slice(self.as_slice())
    }

    /// Returns a view of the contents and the NUL.
    pub fn as_ustr_with_nul(self) -> UStr<'a, C>
        ensures units { units_seen result ≡ units_with_nul self.entry }
        ensures c_string { IsCString (map C.number (units_seen result)) }
    {
        UStr::from_slice(self.units)
    }

    /// Returns the length of the contents in units, without the NUL.
    pub fn len(self) -> usize
        ensures { result ≡ length (contents_seen self.entry) }
    {
        self.units.len() - 1
    }

    /// Returns whether the contents are empty.
    pub fn is_empty(self) -> bool
        ensures { result ≡ (length (contents_seen self.entry) == 0) }
    {
        self.units.len() == 1
    }

    /// Returns a view of the contents in a range, whose ends are offsets in units. Returns `None` if the range starts
    /// after its end, ends past the end of the contents, or has a bound past `usize::MAX`. [`widestring::unit::range_check`]
    /// checks the range.
    pub fn get<R: RangeBounds<usize>>(self, range: R) -> Option<UStr<'a, C>>
        ensures some { R.has_bounds range → IsSome result ↔ IsInRange (contents_seen self.entry) (R.start_bound range) (R.end_bound range) }
        ensures part { R.has_bounds range → IfSome result (λ part. units_seen part ≡ part_of (contents_seen self.entry) (R.start_bound range) (R.end_bound range)) }
    {
        self.as_ustr().get(range)
    }

    /// Returns a view of the contents in a range, whose ends are offsets in units. It does not check the range.
    ///
    /// # Requires
    ///
    /// The range starts at or before its end and lies within the contents. It is not an inclusive range that was
    /// iterated to its end.
    pub fn slice<R: RangeBounds<usize>>(self, range: R) -> UStr<'a, C>
        requires bounds { R.has_bounds range }
        requires in_range { IsInRange (contents_seen self) (R.start_bound range) (R.end_bound range) }
        ensures { units_seen result ≡ part_of (contents_seen self.entry) (R.start_bound range) (R.end_bound range) }
    {
        self.as_ustr().slice(range)
    }

    /// Returns a view of the contents in a range, whose ends are offsets in units, without checking the range. It is
    /// [`UCStr::slice`] under the name that the Rust crate has for it.
    ///
    /// # Requires
    ///
    /// The range starts at or before its end and lies within the contents. It is not an inclusive range that was
    /// iterated to its end.
    pub fn get_unchecked<R: RangeBounds<usize>>(self, range: R) -> UStr<'a, C>
        requires bounds { R.has_bounds range }
        requires in_range { IsInRange (contents_seen self) (R.start_bound range) (R.end_bound range) }
        ensures { units_seen result ≡ part_of (contents_seen self.entry) (R.start_bound range) (R.end_bound range) }
    {
        self.slice(range)
    }

    /// Splits the contents at an offset in units, into the units before it and those from it on.
    ///
    /// # Requires
    ///
    /// The offset is at most the length of the contents.
    pub fn split_at(self, mid: usize) -> (UStr<'a, C>, UStr<'a, C>)
        requires { mid ≤ length (contents_seen self) }
        ensures prefix { units_seen result.0 ≡ take mid (contents_seen self.entry) }
        ensures back { units_seen result.1 ≡ drop mid (contents_seen self.entry) }
        ensures joined { units_seen result.0 ++ units_seen result.1 ≡ contents_seen self.entry }
    {
        self.as_ustr().split_at(mid)
    }

    /// Returns an iterator over the characters of the contents, from both ends. It yields an error for each unit that
    /// belongs to none (Unicode Standard, D84a).
    pub fn chars(self) -> Chars<'a, C>
        ensures { items_left C.form C.number result ≡ items C.form (map C.number (contents_seen self.entry)) }
    {
        self.as_ustr().chars()
    }

    /// Returns an iterator over the characters of the contents, from both ends, with one U+FFFD for each unit that
    /// belongs to none.
    pub fn chars_lossy(self) -> CharsLossy<'a, C>
        ensures { lossy_left C.form C.number result ≡ lossy (items C.form (map C.number (contents_seen self.entry))) }
    {
        self.as_ustr().chars_lossy()
    }

    /// Returns an iterator over the characters of the contents, from both ends. The [`Policy`] determines what replaces
    /// the units that belong to none.
    pub fn chars_lossy_with(self, policy: Policy) -> CharsLossyWith<'a, C>
        ensures left { lossy_with_left C.form C.number result ≡ lossy_by policy (items C.form (map C.number (contents_seen self.entry))) }
        ensures rest { lossy_with_rest result ≡ contents_seen self.entry }
    {
        self.as_ustr().chars_lossy_with(policy)
    }

    /// Returns a value whose `Display` prints the text of the contents, with one U+FFFD for each unit that belongs to
    /// no character.
    pub fn display(self) -> Display<'a, C>
        ensures { units_seen (displayed result) ≡ contents_seen self.entry }
    {
        self.as_ustr().display()
    }

    /// Returns a value whose `Display` prints the text of the contents without the units that belong to no character,
    /// and without any U+FFFD of the text.
    pub fn display_skipping(self) -> DisplaySkipping<'a, C>
        ensures { units_seen (displayed_skipping result) ≡ contents_seen self.entry }
    {
        self.as_ustr().display_skipping()
    }

    /// Returns an iterator over the characters of the contents, from both ends. It yields an error for each unit that
    /// belongs to none (Unicode Standard, D84a). Each comes with the offset, in units, at which it begins in the
    /// contents.
    pub fn char_indices(self) -> CharIndices<'a, C>
        ensures items { indices_left C.form C.number result ≡ indexed C.form 0 (items C.form (map C.number (contents_seen self.entry))) }
        ensures offset { offset_of result ≡ 0 }
    {
        self.as_ustr().char_indices()
    }

    /// Returns an iterator over the characters of the contents, from both ends, with one U+FFFD for each unit that
    /// belongs to none. Each comes with the offset, in units, at which it begins in the contents.
    pub fn char_indices_lossy(self) -> CharIndicesLossy<'a, C>
        ensures items { indices_lossy_left C.form C.number result ≡ indexed_lossy C.form 0 (items C.form (map C.number (contents_seen self.entry))) }
        ensures offset { lossy_offset_of result ≡ 0 }
    {
        self.as_ustr().char_indices_lossy()
    }
}

impl<C: Unit> Clone for UCStr<'_, C> {
    ghost is_clone = { λ s r. r ≡ s };

    ghost is_infallible = { λ _. ⊤ };

    /// Returns a view of the same units.
    fn clone(&self) -> Result<Self, AllocError> {
        Ok(*self)
    }
}

impl<C: Unit> Copy for UCStr<'_, C> {}

impl Default for UCStr<'_, u16> {
    ghost use Rattle.wide_ucstr.specs.View.{units_with_nul};

    ghost is_default = { λ view. units_with_nul view ≡ 0 ∷ [] };

    /// Creates a view of an empty C string.
    fn default() -> Self {
        UCStr { units: &[0] }
    }
}

impl Default for UCStr<'_, u32> {
    ghost use Rattle.wide_ucstr.specs.View.{units_with_nul};

    ghost is_default = { λ view. units_with_nul view ≡ 0 ∷ [] };

    /// Creates a view of an empty C string.
    fn default() -> Self {
        UCStr { units: &[0] }
    }
}
