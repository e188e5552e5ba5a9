//! Views of well-formed text.
ghost use Rattle.std.specs.Prelude.{◌≡◌, ◌+◌, ◌<◌, ◌≤◌, ◌↔◌, ◌++◌, ◌∷◌, ◌==◌, [], length, map, take, drop, slice_get, Some, None, IsTrue, IsSome, IsOk, OnOk, IfOk, IfErr, IfNone, IfSome, ⊤};
ghost use Rattle.wide_forms.specs.Range.{part_of};
ghost use Rattle.std.specs.List.{All};
ghost use Rattle.wide_forms.specs.EncodingForm.{Utf16, Utf32, code_units, encode};
ghost use Rattle.wide_forms.specs.Utf8.{utf8};
ghost use Rattle.wide_forms.specs.Items.{chars, IsWellFormed, IsFirstFault, IsBoundary};
ghost use Rattle.wide_forms.specs.Offsets.{IsOffsetOf, IsCharBoundary, IsTextPart, IsCharPart};
ghost use Rattle.wide_utferror.specs.UtfError.{index_of, item_of, unit_of, vec_of};
ghost use Rattle.wide_iter.specs.Encoder8.{bytes_left};
ghost use Rattle.wide_iter.specs.Encoder16.{units_left as units16_left};
ghost use Rattle.wide_iter.specs.Encoder32.{units_left as units32_left};
ghost use Rattle.wide_ustr.specs.View.{units_seen as ustr_units};
ghost use Rattle.wide_ucstr.specs.View.{contents_seen};

use crate::iter::{CharIndices, Chars, CharsUtf16, CharsUtf32, CodeUnits};
use std::alloc::AllocError;
use std::ops::RangeBounds;
use std::slice;
use wide_iter::{EncodeUtf8, EncodeUtf16, EncodeUtf32, encode_utf8, encode_utf16, encode_utf32};
use wide_ucstr::UCStr;
use wide_unit::{Unit, check, range_check, split_first, split_last};
use wide_ustr::UStr;
use wide_utferror::{FaultUnit, UtfError};

// How many characters are passed one by one at the end of a search for an offset.
const FEW: usize = 16;

/// A view of well-formed UTF-16 or UTF-32 (Unicode Standard, D85). Its type guarantees that the units are well formed:
/// no call can make a view of ill-formed units.
///
/// A view is a slice of units and can be copied. Equality, order and hash of views are those of their units. The order
/// is by the units' numbers, which in UTF-16 can differ from that of the characters. Only calls that take an allocator
/// allocate.
///
/// `{}` prints the characters. `{:?}` prints them between quotes, as [`char::escape_debug`] escapes them. Both ignore
/// the format options, and return an error of the sink at once.
///
/// # Example
///
/// ```
/// let text = Utf16Str::from_slice(&[0x48, 0x69, 0xd83d, 0xde00])?;
/// assert!(rt; text.len() == 4);
/// assert!(rt; text.eq_str("Hi😀"));
/// ```
#[derive(PartialEq, Eq, PartialOrd, Ord, Hash)]
pub struct UtfStr<'a, C: Unit> {
    units: &'a [C],
    ghost well_formed: { IsWellFormed C.form (map C.number units.now) },
}

/// A view of well-formed UTF-16.
pub type Utf16Str<'a> = UtfStr<'a, u16>;

/// A view of well-formed UTF-32.
pub type Utf32Str<'a> = UtfStr<'a, u32>;

/// A view of well-formed wide units.
pub type WideUtfStr<'a> = Utf32Str<'a>;

impl<'a, C: Unit> UtfStr<'a, C> {
    ghost use Rattle.wide_utfstr.specs.View.{units_seen, text_seen};
    ghost use Rattle.wide_utfstr.specs.Iter.{chars_left, chars_rest, indices_left, offset_of, IndicesRun, IndicesRunBack};
    ghost use Rattle.wide_utfstr.specs.Indexed.{indexed_chars};

    /// Makes a view of units without checking them. `UtfStr::from_slice` checks them.
    ///
    /// # Requires
    ///
    /// The units are well formed.
    pub fn from_slice_unchecked(units: &'a [C]) -> Self
        requires { IsWellFormed C.form (map C.number units.now) }
        ensures { units_seen result ≡ units.now }
    {
        UtfStr { units }
    }

    /// Returns the units as a slice.
    pub fn as_slice(self) -> &'a [C]
        ensures units { result.now ≡ units_seen self.entry }
        ensures well_formed { IsWellFormed C.form (map C.number result.now) }
    {
        self.units
    }

    /// Returns the length in units.
    pub fn len(self) -> usize
        ensures { result ≡ length (units_seen self.entry) }
    {
        self.units.len()
    }

    /// Returns whether the view is empty.
    pub fn is_empty(self) -> bool
        ensures { result ≡ (length (units_seen self.entry) == 0) }
    {
        self.units.is_empty()
    }

    /// Returns whether an offset in units is a character boundary: it is between two characters, or at an end of the
    /// text. It is not one if it is within a surrogate pair (Unicode Standard, D75) or past the end. It reads at most
    /// the unit at the offset.
    ///
    /// # Example
    ///
    /// ```
    /// let text = Utf16Str::from_slice(&[0x48, 0xd83d, 0xde00])?;
    /// assert!(rt; text.is_char_boundary(1));
    /// assert!(rt; !text.is_char_boundary(2));
    /// assert!(rt; text.is_char_boundary(3));
    /// assert!(rt; !text.is_char_boundary(4));
    /// ```
    pub fn is_char_boundary(self, offset: usize) -> bool
        ensures boundary { IsTrue result ↔ IsBoundary C.form (map C.number (units_seen self.entry)) offset }
        ensures char_boundary { IsTrue result ↔ IsCharBoundary C.form (map C.number (units_seen self.entry)) offset }
    {
        match self.units.get(offset) {
            Some(unit) => !unit.is_low(),
            None => offset == self.units.len(),
        }
    }

    /// Returns the number of characters. In UTF-16 it reads each unit once, vectorized; in UTF-32 it reads none.
    ///
    /// # Example
    ///
    /// ```
    /// let text = Utf16Str::from_slice(&[0x48, 0xd83d, 0xde00])?;
    /// assert!(rt; text.len() == 3);
    /// assert!(rt; text.char_count() == 2);
    /// ```
    pub fn char_count(self) -> usize
        ensures { result ≡ length (text_seen self.entry) }
    {
        C::char_count(self.units)
    }

    /// Returns the offset, in units, at which the character at an index begins, which is the length in units of the
    /// first `index` characters. If the index is the number of characters, returns the offset of the end. If it is
    /// greater, returns `None`. In UTF-16 it reads the units before the offset once, vectorized but for the last few;
    /// in UTF-32 it reads none.
    ///
    /// # Example
    ///
    /// ```
    /// let text = Utf16Str::from_slice(&[0x48, 0xd83d, 0xde00, 0x21])?;
    /// assert!(rt; text.unit_offset(2) == Some(3));
    /// assert!(rt; text.unit_offset(3) == Some(4));
    /// assert!(rt; text.unit_offset(4).is_none());
    /// ```
    pub fn unit_offset(self, index: usize) -> Option<usize>
        ensures some { IsSome result ↔ (index ≤ length (text_seen self.entry)) }
        ensures offset { IfSome result (IsOffsetOf C.form (map C.number (units_seen self.entry)) index) }
        ensures char_boundary { IfSome result (IsCharBoundary C.form (map C.number (units_seen self.entry))) }
    {
        // In UTF-32 the number of characters is the length, so this reads no unit.
        if C::MAX_CHAR_LEN == 1 && index > self.char_count() {
            return None;
        }
        if self.is_offset_of_itself(index) {
            return Some(index);
        }
        let mut rest = self;
        let mut passed = 0;
        while index - passed > FEW {
            // Each character that is still to be passed has a unit or more.
            let ahead = index - passed;
            if ahead > rest.len() {
                return None;
            }
            // If an offset is within a surrogate pair, the offset before it is not.
            let end = if rest.is_char_boundary(ahead) {
                ahead
            } else {
                ahead - 1
            };
            let (prefix, others) = rest.split_at(end);
            passed += prefix.char_count();
            rest = others;
        }
        for _number in passed..index {
            let (_, others) = rest.split_first_char()?;
            rest = others;
        }
        Some(self.units.len() - rest.units.len())
    }

    /// Returns a view of the units in a range, whose ends are offsets in units. Returns `None` if the range starts
    /// after its end, ends past the end of the view, or has a bound past `usize::MAX`, or if one of its ends is no
    /// character boundary. [`range_check`] checks the range.
    ///
    /// For an inclusive range that was iterated to its end the contract does not say whether the result is a view or
    /// `None`, nor of which units.
    ///
    /// # Example
    ///
    /// ```
    /// let text = Utf16Str::from_slice(&[0x48, 0xd83d, 0xde00])?;
    /// assert!(rt; text.get(1..).is_some_and(|emoji| emoji.eq_str("😀")));
    /// assert!(rt; text.get(2..).is_none());
    /// ```
    pub fn get<R: RangeBounds<usize>>(self, range: R) -> Option<Self>
        ensures some { R.has_bounds range → IsSome result ↔ IsTextPart C.form C.number (units_seen self.entry) (R.start_bound range) (R.end_bound range) }
        ensures char_range { R.has_bounds range → IsSome result ↔ IsCharPart C.form C.number (units_seen self.entry) (R.start_bound range) (R.end_bound range) }
        ensures part { R.has_bounds range → IfSome result (λ part. units_seen part ≡ part_of (units_seen self.entry) (R.start_bound range) (R.end_bound range)) }
    {
        let offsets = range_check(range, self.units.len())?;
        if self.is_char_boundary(offsets.start) && self.is_char_boundary(offsets.end) {
            return Some(UtfStr {
                units: &self.units[offsets.start..offsets.end],
            });
        }
        None
    }

    /// Returns a view of the units in a range, whose ends are offsets in units. It does not check the range.
    ///
    /// # Requires
    ///
    /// The range starts at or before its end and lies within the view. Both its ends are character boundaries. It is
    /// not an inclusive range that was iterated to its end.
    ///
    /// # Example
    ///
    /// ```
    /// let text = Utf16Str::from_slice(&[0x48, 0xd83d, 0xde00])?;
    /// let end = text.floor_char_boundary(2);
    /// assert!(rt; text.slice(..end).eq_str("H"));
    /// ```
    pub fn slice<R: RangeBounds<usize>>(self, range: R) -> Self
        requires bounds { R.has_bounds range }
        requires at_boundaries { IsCharPart C.form C.number (units_seen self) (R.start_bound range) (R.end_bound range) }
        ensures { units_seen result ≡ part_of (units_seen self.entry) (R.start_bound range) (R.end_bound range) }
    {
        let offsets = slice::range(range, ..self.units.len());
        UtfStr {
            units: &self.units[offsets.start..offsets.end],
        }
    }

    /// Returns a view of the units in a range, whose ends are offsets in units, without checking the range. It is
    /// [`UtfStr::slice`] under the name that the Rust crate has for it.
    ///
    /// # Requires
    ///
    /// The range starts at or before its end and lies within the view. Both its ends are character boundaries. It is
    /// not an inclusive range that was iterated to its end.
    pub fn get_unchecked<R: RangeBounds<usize>>(self, range: R) -> Self
        requires bounds { R.has_bounds range }
        requires at_boundaries { IsCharPart C.form C.number (units_seen self) (R.start_bound range) (R.end_bound range) }
        ensures { units_seen result ≡ part_of (units_seen self.entry) (R.start_bound range) (R.end_bound range) }
    {
        self.slice(range)
    }

    /// Splits the view at an offset in units, into the units before it and those from it on.
    ///
    /// # Requires
    ///
    /// The offset is a character boundary: it is at most the length, and not between the two surrogates of a pair.
    ///
    /// # Example
    ///
    /// ```
    /// let setting = Utf16Str::from_slice(&[0xe9, 0x3d, 0x31])?;
    /// let Some(at) = setting.find_char('=') else {
    ///     panic!(rt; "an equals sign is at index 1")
    /// };
    /// let (name, rest) = setting.split_at(at);
    /// assert!(rt; name.eq_str("é"));
    /// assert!(rt; rest.eq_str("=1"));
    /// ```
    pub fn split_at(self, mid: usize) -> (Self, Self)
        requires { IsCharBoundary C.form (map C.number (units_seen self)) mid }
        ensures prefix { units_seen result.0 ≡ take mid (units_seen self.entry) }
        ensures back { units_seen result.1 ≡ drop mid (units_seen self.entry) }
        ensures joined { units_seen result.0 ++ units_seen result.1 ≡ units_seen self.entry }
    {
        let (prefix, back) = self.units.split_at(mid);
        (UtfStr { units: prefix }, UtfStr { units: back })
    }

    /// Returns an iterator over the characters, from both ends.
    ///
    /// # Example
    ///
    /// ```
    /// let text = Utf16Str::from_slice(&[0xe9, 0xd83d, 0xde00])?;
    /// let mut characters = text.chars();
    /// assert!(rt; characters.next() == Some('é'));
    /// assert!(rt; characters.next_back() == Some('😀'));
    /// ```
    pub fn chars(self) -> Chars<'a, C>
        ensures characters { chars_left C.form C.number result ≡ text_seen self.entry }
        ensures units { chars_rest result ≡ units_seen self.entry }
    {
        Chars { text: self }
    }

    /// Returns an iterator over the characters, from both ends, each with the offset, in units, at which it begins in
    /// the view.
    ///
    /// # Example
    ///
    /// ```
    /// let text = Utf16Str::from_slice(&[0xd83d, 0xde00, 0x31, 0x32])?;
    /// let digit = text.char_indices().find(|at| at.1.is_ascii_digit());
    /// assert!(rt; digit == Some((2, '1')));
    /// ```
    pub fn char_indices(self) -> CharIndices<'a, C>
        ensures characters { indices_left C.form C.number result ≡ indexed_chars C.form 0 (text_seen self.entry) }
        ensures offset { offset_of result ≡ 0 }
        ensures boundaries { All (λ at. IsCharBoundary C.form (map C.number (units_seen self.entry)) at.0) (indices_left C.form C.number result) }
        ensures runs { IndicesRun result }
        ensures runs_back { IndicesRunBack result }
    {
        CharIndices::new(self)
    }

    /// Returns an iterator over the UTF-8 bytes of the characters (Unicode Standard, D92), from the front.
    ///
    /// # Example
    ///
    /// ```
    /// let text = Utf16Str::from_slice(&[0xe9, 0xd83d, 0xde00])?;
    /// let mut bytes = text.encode_utf8();
    /// assert!(rt; bytes.next() == Some(0xc3));
    /// assert!(rt; bytes.next() == Some(0xa9));
    /// ```
    pub fn encode_utf8(self) -> EncodeUtf8<Chars<'a, C>>
        ensures { bytes_left (chars_left C.form C.number) result ≡ utf8 (text_seen self.entry) }
    {
        encode_utf8(self.chars())
    }

    // Returns true only if the character at index `number` begins at unit offset `number`. It reads no unit, and
    // returns true only in UTF-32. There the number of characters is the length, but the proof needs the count.
    fn is_offset_of_itself(self, number: usize) -> bool
        ensures within { IsTrue result → number ≤ length (text_seen self.entry) }
        ensures offset { IsTrue result → IsOffsetOf C.form (map C.number (units_seen self.entry)) number number }
    {
        if C::MAX_CHAR_LEN == 1 && self.is_char_boundary(number) {
            let (prefix, _others) = self.split_at(number);
            return prefix.char_count() == number;
        }
        false
    }

    // Returns the first character and the text after it.
    pub(crate) fn split_first_char(self) -> Option<(char, Self)>
        ensures none { IfNone result (text_seen self.entry ≡ []) }
        ensures some { IfSome result (λ r. text_seen self.entry ≡ r.0 ∷ text_seen r.1) }
        ensures length { IfSome result (λ r. length (units_seen r.1) + length (code_units C.form r.0) ≡ length (units_seen self.entry)) }
        ensures shorter { IfSome result (λ r. length (units_seen r.1) < length (units_seen self.entry)) }
        ensures rest { IfSome result (λ r. units_seen r.1 ≡ drop (length (code_units C.form r.0)) (units_seen self.entry)) }
    {
        let (item, rest) = split_first(self.units)?;
        let Ok(c) = item else { unreachable!() };
        Some((c, UtfStr { units: rest }))
    }

    // Returns the text before the last character, and that character.
    pub(crate) fn split_last_char(self) -> Option<(Self, char)>
        ensures none { IfNone result (text_seen self.entry ≡ []) }
        ensures some { IfSome result (λ r. text_seen self.entry ≡ text_seen r.0 ++ r.1 ∷ []) }
        ensures shorter { IfSome result (λ r. length (units_seen r.0) < length (units_seen self.entry)) }
        ensures rest { IfSome result (λ r. units_seen r.0 ≡ take (length (units_seen r.0)) (units_seen self.entry)) }
    {
        let (rest, item) = split_last(self.units)?;
        let Ok(c) = item else { unreachable!() };
        Some((UtfStr { units: rest }, c))
    }
}

impl<'a, C: FaultUnit> UtfStr<'a, C> {
    ghost use Rattle.wide_utfstr.specs.View.{units_seen, text_seen};

    /// Makes a view of units if they are well formed. The check is vectorized and reads the units once. If there is a
    /// fault, it reads the units before it again to count their characters.
    ///
    /// # Errors
    ///
    /// The first fault, if the units are ill-formed. Its index is counted in units, its item number in characters. The
    /// error holds no vector.
    ///
    /// # Example
    ///
    /// ```
    /// assert!(rt; Utf16Str::from_slice(&[0xd83d, 0xde00]).is_ok());
    /// let fault = Utf16Str::from_slice(&[0xd83d, 0xde00, 0xdc00]).err();
    /// assert!(rt; fault.map(|fault| (fault.index(), fault.item())) == Some((2, 1)));
    /// ```
    pub fn from_slice(units: &'a [C]) -> Result<Self, UtfError<C>>
        ensures view { IfOk result (λ view. units_seen view ≡ units.now) }
        ensures ok { OnOk result (IsWellFormed C.form (map C.number units.now)) }
        ensures fault { IfErr result (λ e. IsFirstFault C.form (map C.number units.now) (index_of e) (item_of e) (C.number (unit_of e))) }
        ensures within { IfErr result (λ e. index_of e < length units.now) }
        ensures well_formed { IsOk result ↔ IsWellFormed C.form (map C.number units.now) }
        ensures vec { IfErr result (λ e. vec_of e ≡ None) }
    {
        match check(units) {
            Ok(()) => Ok(UtfStr { units }),
            Err(fault) => Err(UtfError::new(fault, None)),
        }
    }

    /// Makes a well-formed view of the units of a view, if they are well formed. The check is vectorized and reads the
    /// units once. If there is a fault, it reads the units before it again to count their characters.
    ///
    /// # Errors
    ///
    /// The first fault, if the units are ill-formed. Its index is counted in units, its item number in characters. The
    /// error holds no vector.
    ///
    /// # Example
    ///
    /// ```
    /// let text = Utf16Str::from_ustr(U16Str::from_slice(&[0xd83d, 0xde00]))?;
    /// assert!(rt; text.eq_str("😀"));
    /// assert!(rt; Utf16Str::from_ustr(U16Str::from_slice(&[0xd83d])).is_err());
    /// ```
    pub fn from_ustr(view: UStr<'a, C>) -> Result<Self, UtfError<C>>
        ensures view { IfOk result (λ text. units_seen text ≡ ustr_units view.entry) }
        ensures ok { OnOk result (IsWellFormed C.form (map C.number (ustr_units view.entry))) }
        ensures fault { IfErr result (λ e. IsFirstFault C.form (map C.number (ustr_units view.entry)) (index_of e) (item_of e) (C.number (unit_of e))) }
        ensures within { IfErr result (λ e. index_of e < length (ustr_units view.entry)) }
        ensures well_formed { IsOk result ↔ IsWellFormed C.form (map C.number (ustr_units view.entry)) }
        ensures vec { IfErr result (λ e. vec_of e ≡ None) }
    {
        Self::from_slice(view.as_slice())
    }

    /// Makes a well-formed view of the units of a view without checking them. [`UtfStr::from_ustr`] checks them.
    ///
    /// # Requires
    ///
    /// The units are well formed.
    pub fn from_ustr_unchecked(view: UStr<'a, C>) -> Self
        requires { IsWellFormed C.form (map C.number (ustr_units view)) }
        ensures { units_seen result ≡ ustr_units view.entry }
    {
        Self::from_slice_unchecked(view.as_slice())
    }

    /// Makes a view of the contents of a C string, without its NUL, if they are well formed. The check is vectorized
    /// and reads the units once. If there is a fault, it reads the units before it again to count their characters.
    ///
    /// # Errors
    ///
    /// The first fault, if the contents are ill-formed. Its index is counted in units, its item number in characters.
    /// The error holds no vector.
    ///
    /// # Example
    ///
    /// ```
    /// let name = U16CStr::from_slice(&[0x48, 0x69, 0])?;
    /// let text = Utf16Str::from_ucstr(name)?;
    /// assert!(rt; text.eq_str("Hi"));
    /// ```
    pub fn from_ucstr(view: UCStr<'a, C>) -> Result<Self, UtfError<C>>
        ensures view { IfOk result (λ text. units_seen text ≡ contents_seen view.entry) }
        ensures ok { OnOk result (IsWellFormed C.form (map C.number (contents_seen view.entry))) }
        ensures fault { IfErr result (λ e. IsFirstFault C.form (map C.number (contents_seen view.entry)) (index_of e) (item_of e) (C.number (unit_of e))) }
        ensures within { IfErr result (λ e. index_of e < length (contents_seen view.entry)) }
        ensures well_formed { IsOk result ↔ IsWellFormed C.form (map C.number (contents_seen view.entry)) }
        ensures vec { IfErr result (λ e. vec_of e ≡ None) }
    {
        Self::from_slice(view.as_slice())
    }

    /// Makes a view of the contents of a C string, without its NUL, and does not check them. [`UtfStr::from_ucstr`]
    /// checks them.
    ///
    /// # Requires
    ///
    /// The contents are well formed.
    pub fn from_ucstr_unchecked(view: UCStr<'a, C>) -> Self
        requires { IsWellFormed C.form (map C.number (contents_seen view)) }
        ensures { units_seen result ≡ contents_seen view.entry }
    {
        Self::from_slice_unchecked(view.as_slice())
    }

    /// Returns a view of the units, as units that may be ill-formed.
    ///
    /// # Example
    ///
    /// ```
    /// let text = Utf16Str::from_slice(&[0x48, 0xd83d, 0xde00])?;
    /// assert!(rt; text.get(2..).is_none());
    /// assert!(rt; text.as_ustr().get(2..) == Some(U16Str::from_slice(&[0xde00])));
    /// ```
    pub fn as_ustr(self) -> UStr<'a, C>
        ensures units { ustr_units result ≡ units_seen self.entry }
        ensures well_formed { IsWellFormed C.form (map C.number (ustr_units result)) }
    {
        UStr::from_slice(self.units)
    }
}

impl<'a> UtfStr<'a, u16> {
    ghost use Rattle.wide_utfstr.specs.View.{units_seen, text_seen};
    ghost use Rattle.wide_utfstr.specs.Iter.{code_units_rest, chars_left};

    /// Returns an iterator over the units, from both ends.
    ///
    /// # Example
    ///
    /// ```
    /// let text = Utf16Str::from_slice(&[0x48, 0xd83d, 0xde00])?;
    /// let mut units = text.code_units();
    /// assert!(rt; units.next() == Some(0x48));
    /// assert!(rt; units.next_back() == Some(0xde00));
    /// assert!(rt; units.next_back() == Some(0xd83d));
    /// assert!(rt; units.next().is_none());
    /// ```
    pub fn code_units(self) -> CodeUnits<'a>
        ensures { code_units_rest result ≡ units_seen self.entry }
    {
        CodeUnits { rest: self.units }
    }

    /// Returns an iterator over the UTF-32 units of the characters (Unicode Standard, D90), from both ends.
    ///
    /// # Example
    ///
    /// ```
    /// let mut units = Utf16Str::from_slice(&[0x48, 0xd83d, 0xde00])?.encode_utf32();
    /// assert!(rt; units.next() == Some(0x48));
    /// assert!(rt; units.next() == Some(0x1f600));
    /// ```
    pub fn encode_utf32(self) -> EncodeUtf32<CharsUtf16<'a>>
        ensures { units32_left (chars_left Utf16 (λ u. u)) result ≡ encode Utf32 (chars Utf16 (units_seen self.entry)) }
    {
        encode_utf32(self.chars())
    }
}

impl<'a> UtfStr<'a, u32> {
    ghost use Rattle.wide_utfstr.specs.View.{units_seen, text_seen};
    ghost use Rattle.wide_utfstr.specs.Iter.{chars_left};

    /// Returns the character at an index. In UTF-32 each unit is a character.
    ///
    /// # Requires
    ///
    /// The index is less than the length.
    ///
    /// # Example
    ///
    /// ```
    /// let text = Utf32Str::from_slice(&[0x61, 0x1f600])?;
    /// assert!(rt; text.len() == 2 && text.char_at(1) == '😀');
    /// ```
    pub fn char_at(self, index: usize) -> char
        requires { index < length (units_seen self) }
        ensures unit { slice_get (units_seen self.entry) index ≡ Some result }
        ensures character { slice_get (chars Utf32 (units_seen self.entry)) index ≡ Some result }
    {
        let Some(c) = self.units[index].as_scalar() else {
            unreachable!()
        };
        c
    }

    /// Returns an iterator over the UTF-16 units of the characters (Unicode Standard, D91), from the front.
    ///
    /// # Example
    ///
    /// ```
    /// let mut units = Utf32Str::from_slice(&[0x1f600])?.encode_utf16();
    /// assert!(rt; units.next() == Some(0xd83d));
    /// assert!(rt; units.next() == Some(0xde00));
    /// ```
    pub fn encode_utf16(self) -> EncodeUtf16<CharsUtf32<'a>>
        ensures { units16_left (chars_left Utf32 (λ u. u)) result ≡ encode Utf16 (chars Utf32 (units_seen self.entry)) }
    {
        encode_utf16(self.chars())
    }
}

impl<C: Unit> Default for UtfStr<'_, C> {
    ghost use Rattle.wide_utfstr.specs.View.{units_seen, text_seen};

    ghost is_default = { λ view. units_seen view ≡ [] };

    /// Creates an empty view.
    fn default() -> Self {
        UtfStr { units: &[] }
    }
}

impl<C: Unit> Clone for UtfStr<'_, C> {
    ghost is_clone = { λ s r. r ≡ s };

    ghost is_infallible = { λ _. ⊤ };

    /// Returns a view of the same units.
    fn clone(&self) -> Result<Self, AllocError> {
        Ok(*self)
    }
}

impl<C: Unit> Copy for UtfStr<'_, C> {}
