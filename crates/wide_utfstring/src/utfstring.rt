//! Owned strings of well-formed text.
ghost use Rattle.std.specs.Prelude.{◌≡◌, ◌==◌, ◌+◌, ◌-◌, ◌<◌, ◌≤◌, ◌++◌, ◌∷◌, [], ◌↔◌, ◌⊎◌, min, max, length, map, take, drop, IsNone, IfSome, IsOk, IfOk, IfErr, OnOk, OnErr, vec_capacity, Vec};
ghost use Rattle.wide_forms.specs.EncodingForm.{code_units, encode};
ghost use Rattle.wide_forms.specs.Items.{chars, IsWellFormed};
ghost use Rattle.wide_forms.specs.Utf8.{utf8};
ghost use Rattle.wide_forms.specs.Offsets.{text_of, text_before, text_spliced, IsCharPart, text_replaced};
ghost use Rattle.wide_forms.specs.Range.{IsWithin, part_of, part_replaced};
ghost use Rattle.std.specs.List.{splice};
ghost use Rattle.std.specs.List.Retain.{IsFiltered};
ghost use Rattle.std.specs.Range.Bound.{start_index, end_index};
ghost use Rattle.std.specs.Str.{chars as str_chars};
ghost use Rattle.wide_ustr.specs.View.{units_seen as ustr_units};
ghost use Rattle.wide_ustring.specs.Units.{ustring_len, HasSpaceFor};
ghost use Rattle.wide_ucstr.specs.CString.{contents};
ghost use Rattle.wide_forms.specs.Offsets.{IsCharBoundary, IsCharRange};
ghost use Rattle.wide_utfstr.specs.View.{units_seen, text_seen};
ghost use Rattle.wide_utferror.specs.UtfError.{index_of};
ghost use Rattle.wide_utfstring.specs.Faults.{IsFaultOf};

use crate::iter::DrainUtf;
use std::alloc::{Allocator, Global};
use std::marker::Model;
use std::ops::RangeBounds;
use std::slice;
use wide_error::OutOfMemory;
use wide_ucstring::UCString;
use wide_unit::split_last;
use wide_ustr::UStr;
use wide_ustring::UString;
use wide_utferror::{FaultUnit, UtfError};
use wide_utfstr::{UtfStr, check};

/// An owned string of well-formed UTF-16 or UTF-32 (Unicode Standard, D85). The type guarantees it: no call leaves
/// ill-formed units in the string.
///
/// Offsets and lengths are counted in units. A call that returns [`OutOfMemory`] leaves the string unchanged, except
/// those that extend it by an iterator: after these it has the items before the one whose allocation failed.
///
/// `{}` prints the characters. `{:?}` prints them between quotes, as [`char::escape_debug`] escapes them.
///
/// # Example
///
/// ```
/// let mut text = Utf16String::from_str(rt.alloc(), "Hi😀")?;
/// assert!(rt; text.len() == 4);
/// assert!(rt; text.pop() == Some('😀'));
/// assert!(rt; text.len() == 2);
/// ```
#[derive(Drop)]
pub struct UtfString<C: FaultUnit, A: Allocator = Global> {
    pub(crate) string: UString<C, A>,
}

/// An owned string of UTF-16.
pub type Utf16String<A = Global> = UtfString<u16, A>;

/// An owned string of UTF-32.
pub type Utf32String<A = Global> = UtfString<u32, A>;

/// An owned string of well-formed wide units.
pub type WideUtfString<A = Global> = Utf32String<A>;

impl<C: FaultUnit, A: Allocator> Model for UtfString<C, A> {
    ghost use Rattle.std.specs.Prelude.{map};
    ghost use Rattle.wide_forms.specs.Items.{IsWellFormed};
    ghost use Rattle.wide_ustring.specs.Units.{Units, units_code};

    ghost Value = { Units C };

    ghost coded = { units_code C.code };

    ghost view = { λ s. s.string };

    ghost invariant = { λ s. IsWellFormed C.form (map C.number s.string.units) };
}

impl<C: FaultUnit, A: Allocator> UtfString<C, A> {
    ghost use Rattle.wide_utfstring.specs.Drain.{drain_rest, drain_lender, drain_leaves, drain_capacity, DrainRuns, DrainRunsBack, DrainStays};

    /// Creates an empty string, without allocating.
    pub fn new(alloc: A) -> Self
        ensures units { result.units ≡ [] }
        ensures capacity { result.capacity ≡ 0 }
    {
        UtfString {
            string: UString::new(alloc),
        }
    }

    /// Creates an empty string with capacity for at least `capacity` units.
    ///
    /// # Errors
    ///
    /// [`OutOfMemory`] if the allocation fails. It never fails if `capacity` is 0.
    pub fn with_capacity(alloc: A, capacity: usize) -> Result<Self, OutOfMemory>
        ensures units { IfOk result (λ s. s.units ≡ []) }
        ensures space { IfOk result (λ s. capacity ≤ s.capacity) }
        ensures succeeds { capacity ≡ 0 → IsOk result }
    {
        Ok(UtfString {
            string: UString::with_capacity(alloc, capacity)?,
        })
    }

    /// Checks that the units of a vector are well formed, and makes a string of them without copying or allocating. The
    /// check is vectorized and reads the units once. If there is a fault, it reads the units before it again to count
    /// their characters.
    ///
    /// # Errors
    ///
    /// The first fault, if the units are ill-formed. Its index is counted in units, its item number in characters. The
    /// error holds the vector.
    ///
    /// # Example
    ///
    /// ```
    /// let text = Utf16String::from_vec([0xd83d, 0xde00].to_vec(rt.alloc())?)?;
    /// assert!(rt; text.as_utfstr().eq_str("😀"));
    /// let fault = Utf16String::from_vec([0x48, 0xd83d].to_vec(rt.alloc())?).err();
    /// assert!(rt; fault.map(|fault| fault.index()) == Some(1));
    /// ```
    pub fn from_vec(units: Vec<C, A>) -> Result<Self, UtfError<C, A>>
        ensures string { IfOk result (λ s. (s.units ≡ units.items) × (s.capacity ≡ vec_capacity units)) }
        ensures ok { OnOk result (IsWellFormed C.form (map C.number units.items)) }
        ensures fault { IfErr result (IsFaultOf C.form C.number units) }
        ensures within { IfErr result (λ e. index_of e < length units.items) }
        ensures well_formed { IsOk result ↔ IsWellFormed C.form (map C.number units.items) }
    {
        match check(units.as_slice()) {
            Ok(()) => Ok(UtfString {
                string: UString::from_vec(units),
            }),
            Err(fault) => Err(UtfError::new(fault, Some(units))),
        }
    }

    /// Checks that the units of a string are well formed, and makes a `UtfString` of them without copying or
    /// allocating. The check is vectorized and reads the units once. If there is a fault, it reads the units before it
    /// again to count their characters.
    ///
    /// # Errors
    ///
    /// The first fault, if the units are ill-formed. Its index is counted in units, its item number in characters. The
    /// error holds the string's vector, with its units and its capacity.
    ///
    /// # Example
    ///
    /// ```
    /// let units = U16String::from_str(rt.alloc(), "é😀")?;
    /// let text = Utf16String::from_ustring(units)?;
    /// assert!(rt; text.as_utfstr().eq_str("é😀"));
    /// ```
    pub fn from_ustring(string: UString<C, A>) -> Result<Self, UtfError<C, A>>
        ensures string { IfOk result (λ s. s ≡ string) }
        ensures ok { OnOk result (IsWellFormed C.form (map C.number string.units)) }
        ensures fault { IfErr result (λ e. (vec : Vec C A) × (vec.items ≡ string.units) × (vec_capacity vec ≡ string.capacity) × IsFaultOf C.form C.number vec e) }
        ensures within { IfErr result (λ e. index_of e < length string.units) }
        ensures well_formed { IsOk result ↔ IsWellFormed C.form (map C.number string.units) }
    {
        UtfString::from_vec(string.into_vec())
    }

    /// Checks that the contents of a C string, without its NUL, are well formed, and makes a `UtfString` of them
    /// without copying or allocating. The check is vectorized and reads the units once. If there is a fault, it reads
    /// the units before it again to count their characters.
    ///
    /// # Errors
    ///
    /// The first fault, if the contents are ill-formed. Its index is counted in units, its item number in characters.
    /// The error holds the vector of the contents, without the NUL.
    pub fn from_ucstring(string: UCString<C, A>) -> Result<Self, UtfError<C, A>>
        ensures string { IfOk result (λ s. (s.units ≡ contents string.units) × (s.capacity ≡ string.capacity)) }
        ensures ok { OnOk result (IsWellFormed C.form (map C.number (contents string.units))) }
        ensures fault { IfErr result (λ e. (vec : Vec C A) × (vec.items ≡ contents string.units) × (vec_capacity vec ≡ string.capacity) × IsFaultOf C.form C.number vec e) }
        ensures within { IfErr result (λ e. index_of e < length (contents string.units)) }
        ensures well_formed { IsOk result ↔ IsWellFormed C.form (map C.number (contents string.units)) }
    {
        UtfString::from_vec(string.into_vec())
    }

    /// Makes a string of a vector's units without checking them, copying or allocating. [`UtfString::from_vec`] checks
    /// them.
    ///
    /// # Requires
    ///
    /// The units are well formed.
    pub fn from_vec_unchecked(units: Vec<C, A>) -> Self
        requires { IsWellFormed C.form (map C.number units.items) }
        ensures units { result.units ≡ units.items }
        ensures capacity { result.capacity ≡ vec_capacity units }
    {
        UtfString {
            string: UString::from_vec(units),
        }
    }

    /// Makes a `UtfString` of a string's units without checking them, copying or allocating.
    /// [`UtfString::from_ustring`] checks them.
    ///
    /// # Requires
    ///
    /// The units are well formed.
    pub fn from_ustring_unchecked(string: UString<C, A>) -> Self
        requires { IsWellFormed C.form (map C.number string.units) }
        ensures { result ≡ string }
    {
        UtfString { string }
    }

    /// Makes a `UtfString` of the contents of a C string, without its NUL. It does not check, copy or allocate.
    /// [`UtfString::from_ucstring`] checks the contents.
    ///
    /// # Requires
    ///
    /// The contents are well formed.
    pub fn from_ucstring_unchecked(string: UCString<C, A>) -> Self
        requires { IsWellFormed C.form (map C.number (contents string.units)) }
        ensures units { result.units ≡ contents string.units }
        ensures capacity { result.capacity ≡ string.capacity }
    {
        UtfString {
            string: string.into_ustring(),
        }
    }

    /// Encodes the text of a `&str` as a new string.
    ///
    /// # Errors
    ///
    /// [`OutOfMemory`] if the allocation fails. It never fails if the text is empty.
    ///
    /// # Example
    ///
    /// ```
    /// let text = Utf16String::from_str(rt.alloc(), "é😀")?;
    /// assert!(rt; text.as_slice() == [0xe9, 0xd83d, 0xde00].as_slice());
    /// ```
    pub fn from_str(alloc: A, text: &str) -> Result<Self, OutOfMemory>
        ensures units { IfOk result (λ s. map C.number s.units ≡ encode C.form (str_chars text.now)) }
        ensures text { IfOk result (λ s. text_of C.form C.number s.units ≡ str_chars text.now) }
        ensures read_back { IfOk result (λ s. utf8 (text_of C.form C.number s.units) ≡ text.now) }
        ensures succeeds { str_chars text.now ≡ [] → IsOk result }
    {
        Ok(UtfString {
            string: UString::from_str(alloc, text)?,
        })
    }

    /// Returns a view of the text.
    ///
    /// # Example
    ///
    /// ```
    /// let text = Utf16String::from_str(rt.alloc(), "  Заголовок\n")?;
    /// assert!(rt; text.as_utfstr().trim().eq_str("Заголовок"));
    /// ```
    pub fn as_utfstr(&self) -> UtfStr<'_, C>
        ensures { units_seen result ≡ self.now.units }
    {
        UtfStr::from_slice_unchecked(self.string.as_slice())
    }

    /// Returns a view of the units, as units that may be ill-formed.
    pub fn as_ustr(&self) -> UStr<'_, C>
        ensures { ustr_units result ≡ self.now.units }
    {
        self.string.as_ustr()
    }

    /// Returns the units as a slice.
    pub fn as_slice(&self) -> &[C]
        ensures units { result.now ≡ self.now.units }
        ensures well_formed { IsWellFormed C.form (map C.number result.now) }
    {
        self.string.as_slice()
    }

    /// Returns the length in units.
    pub fn len(&self) -> usize
        ensures { result ≡ ustring_len self.now }
    {
        self.string.len()
    }

    /// Returns whether the string is empty.
    pub fn is_empty(&self) -> bool
        ensures { result ≡ (ustring_len self.now == 0) }
    {
        self.string.is_empty()
    }

    /// Returns how many units the string can hold without allocating.
    pub fn capacity(&self) -> usize
        ensures value { result ≡ self.now.capacity }
        ensures length { ustring_len self.now ≤ result }
    {
        self.string.capacity()
    }

    /// Returns the vector of the units, without allocating.
    pub fn into_vec(self) -> Vec<C, A>
        ensures units { result.items ≡ self.units }
        ensures well_formed { IsWellFormed C.form (map C.number result.items) }
        ensures capacity { vec_capacity result ≡ self.capacity }
    {
        self.into_ustring().into_vec()
    }

    /// Returns the units as a string that may be ill-formed, without allocating.
    ///
    /// # Example
    ///
    /// ```
    /// let text = Utf16String::from_str(rt.alloc(), "😀")?;
    /// let units = text.into_ustring();
    /// assert!(rt; units.as_slice() == [0xd83d, 0xde00].as_slice());
    /// ```
    pub fn into_ustring(self) -> UString<C, A>
        ensures string { result ≡ self }
        ensures well_formed { IsWellFormed C.form (map C.number result.units) }
    {
        let UtfString { string } = self;
        string
    }

    /// Returns a copy of the string, with a copy of the allocator. Allocates once, or not at all if the text is empty.
    ///
    /// # Errors
    ///
    /// [`OutOfMemory`] if the allocation fails or the allocator cannot be copied.
    pub fn try_clone(&self) -> Result<Self, OutOfMemory>
    where
        A: Clone,
        ensures copy { IfOk result (λ s. s.units ≡ self.now.units) }
        ensures succeeds { ((alloc : A) → A.is_infallible alloc) → self.now.units ≡ [] → IsOk result }
    {
        Ok(UtfString {
            string: self.string.try_clone()?,
        })
    }

    /// Reserves capacity for at least `more` additional units.
    ///
    /// # Errors
    ///
    /// [`OutOfMemory`] if the allocation fails; the string is unchanged. It never fails if the string already has this
    /// capacity.
    ///
    /// # Example
    ///
    /// ```
    /// let mut text = Utf16String::from_str(rt.alloc(), "é😀")?;
    /// text.reserve(8)?;
    /// assert!(rt; text.capacity() >= 11);
    /// assert!(rt; text.as_utfstr().eq_str("é😀"));
    /// ```
    pub fn reserve(&mut self, more: usize) -> Result<(), OutOfMemory>
        ensures units { self.new.units ≡ self.old.units }
        ensures space { OnOk result (HasSpaceFor self.new more) }
        ensures capacity { self.old.capacity ≤ self.new.capacity }
        ensures err { OnErr result (self.new ≡ self.old) }
        ensures succeeds { HasSpaceFor self.old more → IsOk result }
    {
        self.string.reserve(more)
    }

    /// Reserves capacity for `more` additional units. If it allocates, the new capacity is exactly the length plus
    /// `more`, unlike [`UtfString::reserve`], which may reserve more.
    ///
    /// # Errors
    ///
    /// [`OutOfMemory`] if the allocation fails; the string is unchanged. It never fails if the string already has this
    /// capacity.
    pub fn reserve_exact(&mut self, more: usize) -> Result<(), OutOfMemory>
        ensures units { self.new.units ≡ self.old.units }
        ensures space { OnOk result (self.new.capacity ≡ max self.old.capacity (ustring_len self.old + more)) }
        ensures err { OnErr result (self.new ≡ self.old) }
        ensures succeeds { HasSpaceFor self.old more → IsOk result }
    {
        self.string.reserve_exact(more)
    }

    /// Removes all text. The capacity is unchanged.
    ///
    /// # Example
    ///
    /// ```
    /// let mut text = Utf16String::from_str(rt.alloc(), "Hi😀")?;
    /// let capacity = text.capacity();
    /// text.clear();
    /// assert!(rt; text.is_empty());
    /// assert!(rt; text.capacity() == capacity);
    /// ```
    pub fn clear(&mut self)
        ensures units { self.new.units ≡ [] }
        ensures capacity { self.new.capacity ≡ self.old.capacity }
    {
        self.string.clear();
    }

    /// Appends a character.
    ///
    /// # Errors
    ///
    /// [`OutOfMemory`] if the allocation fails; the string is unchanged. It never fails if the spare capacity suffices.
    ///
    /// # Example
    ///
    /// ```
    /// let mut text = Utf16String::from_str(rt.alloc(), "Hi")?;
    /// text.push('😀')?;
    /// assert!(rt; text.as_slice() == [0x48, 0x69, 0xd83d, 0xde00].as_slice());
    /// ```
    pub fn push(&mut self, c: char) -> Result<(), OutOfMemory>
        ensures units { OnOk result (map C.number self.new.units ≡ map C.number self.old.units ++ code_units C.form c) }
        ensures text { OnOk result (text_of C.form C.number self.new.units ≡ text_of C.form C.number self.old.units ++ c ∷ []) }
        ensures err { OnErr result (self.new ≡ self.old) }
        ensures succeeds { HasSpaceFor self.old (length (code_units C.form c)) → IsOk result }
        ensures capacity { self.old.capacity ≤ self.new.capacity }
    {
        self.string.push_char(c)
    }

    /// Appends a character, like [`UtfString::push`]. It corresponds to `fmt::Write::write_char` in the Rust crate, but
    /// returns [`OutOfMemory`] in place of `fmt::Error`.
    ///
    /// # Errors
    ///
    /// [`OutOfMemory`] if the allocation fails; the string is unchanged. It never fails if the spare capacity suffices.
    pub fn write_char(&mut self, c: char) -> Result<(), OutOfMemory>
        ensures units { OnOk result (map C.number self.new.units ≡ map C.number self.old.units ++ code_units C.form c) }
        ensures text { OnOk result (text_of C.form C.number self.new.units ≡ text_of C.form C.number self.old.units ++ c ∷ []) }
        ensures err { OnErr result (self.new ≡ self.old) }
        ensures succeeds { HasSpaceFor self.old (length (code_units C.form c)) → IsOk result }
        ensures capacity { self.old.capacity ≤ self.new.capacity }
    {
        self.push(c)
    }

    /// Appends the characters of a `&str`.
    ///
    /// # Errors
    ///
    /// [`OutOfMemory`] if the allocation fails; the string is unchanged. It never fails if the spare capacity suffices.
    ///
    /// # Example
    ///
    /// ```
    /// let mut path = Utf16String::from_str(rt.alloc(), "C:")?;
    /// path.push_str("\\temp")?;
    /// assert!(rt; path.as_utfstr().eq_str("C:\\temp"));
    /// ```
    pub fn push_str(&mut self, text: &str) -> Result<(), OutOfMemory>
        ensures units { OnOk result (map C.number self.new.units ≡ map C.number self.old.units ++ encode C.form (str_chars text.now)) }
        ensures text { OnOk result (text_of C.form C.number self.new.units ≡ text_of C.form C.number self.old.units ++ str_chars text.now) }
        ensures err { OnErr result (self.new ≡ self.old) }
        ensures succeeds { HasSpaceFor self.old (length (encode C.form (str_chars text.now))) → IsOk result }
        ensures capacity { self.old.capacity ≤ self.new.capacity }
    {
        self.string.push_str(text)
    }

    /// Appends the characters of a `&str`, like [`UtfString::push_str`]. It corresponds to `fmt::Write::write_str` in
    /// the Rust crate, but returns [`OutOfMemory`] in place of `fmt::Error`.
    ///
    /// # Errors
    ///
    /// [`OutOfMemory`] if the allocation fails; the string is unchanged. It never fails if the spare capacity suffices.
    pub fn write_str(&mut self, text: &str) -> Result<(), OutOfMemory>
        ensures units { OnOk result (map C.number self.new.units ≡ map C.number self.old.units ++ encode C.form (str_chars text.now)) }
        ensures text { OnOk result (text_of C.form C.number self.new.units ≡ text_of C.form C.number self.old.units ++ str_chars text.now) }
        ensures err { OnErr result (self.new ≡ self.old) }
        ensures succeeds { HasSpaceFor self.old (length (encode C.form (str_chars text.now))) → IsOk result }
        ensures capacity { self.old.capacity ≤ self.new.capacity }
    {
        self.push_str(text)
    }

    /// Appends the text of a view.
    ///
    /// # Errors
    ///
    /// [`OutOfMemory`] if the allocation fails; the string is unchanged. It never fails if the spare capacity suffices.
    ///
    /// # Example
    ///
    /// ```
    /// let mut text = Utf16String::from_str(rt.alloc(), "Hi")?;
    /// text.push_utfstr(Utf16Str::from_slice(&[0x20, 0xd83d, 0xde00])?)?;
    /// assert!(rt; text.as_utfstr().eq_str("Hi 😀"));
    /// ```
    pub fn push_utfstr(&mut self, text: UtfStr<'_, C>) -> Result<(), OutOfMemory>
        ensures units { OnOk result (self.new.units ≡ self.old.units ++ units_seen text.entry) }
        ensures text { OnOk result (text_of C.form C.number self.new.units ≡ text_of C.form C.number self.old.units ++ text_seen text.entry) }
        ensures err { OnErr result (self.new ≡ self.old) }
        ensures succeeds { HasSpaceFor self.old (length (units_seen text.entry)) → IsOk result }
        ensures capacity { self.old.capacity ≤ self.new.capacity }
    {
        self.string.push(text.as_ustr())
    }

    /// Removes the last character and returns it, or returns `None` if the string is empty.
    ///
    /// # Example
    ///
    /// ```
    /// let mut text = Utf16String::from_str(rt.alloc(), "é😀")?;
    /// assert!(rt; text.pop() == Some('😀'));
    /// assert!(rt; text.pop() == Some('é'));
    /// assert!(rt; text.pop().is_none());
    /// ```
    pub fn pop(&mut self) -> Option<char>
        ensures none { IsNone result ↔ (self.old.units ≡ []) }
        ensures taken { IfSome result (λ c. text_of C.form C.number self.old.units ≡ text_of C.form C.number self.new.units ++ c ∷ []) }
        ensures prefix { self.new.units ≡ take (ustring_len self.new) self.old.units }
        ensures capacity { self.new.capacity ≡ self.old.capacity }
    {
        let (rest, item) = split_last(self.string.as_slice())?;
        let left = rest.len();
        let Ok(c) = item else { unreachable!() };
        self.string.truncate(left);
        Some(c)
    }

    /// Inserts a character at an offset in units.
    ///
    /// # Requires
    ///
    /// The offset is a character boundary: it is at most the length, and not between the two surrogates of a pair.
    ///
    /// # Errors
    ///
    /// [`OutOfMemory`] if the allocation fails; the string is unchanged. It never fails if the spare capacity suffices.
    ///
    /// # Example
    ///
    /// ```
    /// let mut text = Utf16String::from_str(rt.alloc(), "😀!")?;
    /// if let Some(at) = text.as_utfstr().find_char('!') {
    ///     text.insert(at, 'é')?;
    /// }
    /// assert!(rt; text.as_utfstr().eq_str("😀é!"));
    /// ```
    pub fn insert(&mut self, at: usize, c: char) -> Result<(), OutOfMemory>
        requires { IsCharBoundary C.form (map C.number self.old.units) at }
        ensures units { OnOk result (map C.number self.new.units ≡ splice (map C.number self.old.units) at at (code_units C.form c)) }
        ensures text { OnOk result (text_of C.form C.number self.new.units ≡ text_spliced C.form C.number self.old.units at at (c ∷ [])) }
        ensures err { OnErr result (self.new ≡ self.old) }
        ensures succeeds { HasSpaceFor self.old (length (code_units C.form c)) → IsOk result }
        ensures capacity { self.old.capacity ≤ self.new.capacity }
    {
        self.string.insert_char(at, c)
    }

    /// Inserts the text of a view at an offset in units.
    ///
    /// # Requires
    ///
    /// The offset is a character boundary: it is at most the length, and not between the two surrogates of a pair.
    ///
    /// # Errors
    ///
    /// [`OutOfMemory`] if the allocation fails; the string is unchanged. It never fails if the spare capacity suffices.
    ///
    /// # Example
    ///
    /// ```
    /// let mut path = Utf16String::from_str(rt.alloc(), "temp")?;
    /// path.insert_utfstr(0, Utf16Str::from_slice(&[0x43, 0x3a, 0x5c])?)?;
    /// assert!(rt; path.as_utfstr().eq_str("C:\\temp"));
    /// ```
    pub fn insert_utfstr(&mut self, at: usize, text: UtfStr<'_, C>) -> Result<(), OutOfMemory>
        requires { IsCharBoundary C.form (map C.number self.old.units) at }
        ensures units { OnOk result (self.new.units ≡ splice self.old.units at at (units_seen text.entry)) }
        ensures text { OnOk result (text_of C.form C.number self.new.units ≡ text_spliced C.form C.number self.old.units at at (text_seen text.entry)) }
        ensures err { OnErr result (self.new ≡ self.old) }
        ensures succeeds { HasSpaceFor self.old (length (units_seen text.entry)) → IsOk result }
        ensures capacity { self.old.capacity ≤ self.new.capacity }
    {
        self.string.insert_ustr(at, text.as_ustr())
    }

    /// Shortens the text to `len` units. It does nothing if the text is not longer. The capacity is unchanged.
    ///
    /// # Requires
    ///
    /// `len` is a character boundary, or at least the length.
    ///
    /// # Example
    ///
    /// ```
    /// let mut text = Utf16String::from_str(rt.alloc(), "Hi😀")?;
    /// let end = text.as_utfstr().floor_char_boundary(3);
    /// text.truncate(end);
    /// assert!(rt; text.as_utfstr().eq_str("Hi"));
    /// ```
    pub fn truncate(&mut self, len: usize)
        requires { (ustring_len self.old ≤ len) ⊎ IsCharBoundary C.form (map C.number self.old.units) len }
        ensures units { self.new.units ≡ take len self.old.units }
        ensures text { text_of C.form C.number self.new.units ≡ take (text_before C.form C.number self.old.units len) (text_of C.form C.number self.old.units) }
        ensures capacity { self.new.capacity ≡ self.old.capacity }
    {
        self.string.truncate(len);
    }

    /// Splits the string in two at an offset in units. The string keeps the text before the offset. The text from the
    /// offset on is returned as a new string, with a copy of the allocator. Allocates once, or not at all if the offset
    /// is the length.
    ///
    /// # Requires
    ///
    /// The offset is a character boundary: it is at most the length, and not between the two surrogates of a pair.
    ///
    /// # Errors
    ///
    /// [`OutOfMemory`] if the allocation fails or the allocator cannot be copied; the string is unchanged.
    ///
    /// # Example
    ///
    /// ```
    /// let mut text = Utf16String::from_str(rt.alloc(), "Hi😀!")?;
    /// if let Some(at) = text.as_utfstr().find_char('😀') {
    ///     let rest = text.split_off(at)?;
    ///     assert!(rt; rest.as_utfstr().eq_str("😀!"));
    /// }
    /// assert!(rt; text.as_utfstr().eq_str("Hi"));
    /// ```
    pub fn split_off(&mut self, at: usize) -> Result<Self, OutOfMemory>
    where
        A: Clone,
        requires { IsCharBoundary C.form (map C.number self.old.units) at }
        ensures rest { IfOk result (λ rest. rest.units ≡ drop at self.old.units) }
        ensures rest_text { IfOk result (λ rest. text_of C.form C.number rest.units ≡ drop (text_before C.form C.number self.old.units at) (text_of C.form C.number self.old.units)) }
        ensures ok { OnOk result (self.new.units ≡ take at self.old.units) }
        ensures text { OnOk result (text_of C.form C.number self.new.units ≡ take (text_before C.form C.number self.old.units at) (text_of C.form C.number self.old.units)) }
        ensures err { OnErr result (self.new ≡ self.old) }
        ensures capacity { self.new.capacity ≡ self.old.capacity }
        ensures succeeds { ((alloc : A) → A.is_infallible alloc) → at ≡ ustring_len self.old → IsOk result }
    {
        Ok(UtfString {
            string: self.string.split_off(at)?,
        })
    }

    /// Removes the character at an offset in units and returns it. It does not allocate, and moves each unit after the
    /// character once.
    ///
    /// # Requires
    ///
    /// The offset is a character boundary and less than the length.
    ///
    /// # Example
    ///
    /// ```
    /// let mut text = Utf16String::from_str(rt.alloc(), "Hi😀!")?;
    /// let at = text.as_utfstr().floor_char_boundary(3);
    /// if at < text.len() {
    ///     assert!(rt; text.remove(at) == '😀');
    /// }
    /// assert!(rt; text.as_utfstr().eq_str("Hi!"));
    /// ```
    pub fn remove(&mut self, at: usize) -> char
        requires boundary { IsCharBoundary C.form (map C.number self.old.units) at }
        requires below { at < ustring_len self.old }
        ensures units { map C.number self.new.units ≡ splice (map C.number self.old.units) at (at + length (code_units C.form result)) [] }
        ensures text { text_of C.form C.number self.new.units ≡ splice (text_of C.form C.number self.old.units) (text_before C.form C.number self.old.units at) (text_before C.form C.number self.old.units at + 1) [] }
        ensures taken { drop (text_before C.form C.number self.old.units at) (text_of C.form C.number self.old.units) ≡ result ∷ drop (text_before C.form C.number self.old.units at + 1) (text_of C.form C.number self.old.units) }
        ensures capacity { self.new.capacity ≡ self.old.capacity }
    {
        let code = self.string.remove_char(at);
        let Some(c) = char::from_u32(code) else {
            unreachable!()
        };
        c
    }

    /// Replaces the text of a range by the text of a view. The ends of the range are offsets in units. Allocates for
    /// the growth only, before any unit moves.
    ///
    /// Each call moves all units after the range, so replacing each occurrence of a needle by this call in a loop is
    /// quadratic. `replace` of a view makes a new string, and [`UtfString::replace_with`] replaces by as many units in place.
    ///
    /// # Requires
    ///
    /// The range starts at or before its end and lies within the string. Both its ends are character boundaries. It is
    /// not an inclusive range that was iterated to its end.
    ///
    /// # Errors
    ///
    /// [`OutOfMemory`] if the allocation fails; the string is unchanged. It never fails if the new length is at most
    /// the capacity.
    ///
    /// # Example
    ///
    /// ```
    /// let mut text = Utf16String::from_str(rt.alloc(), "Hi😀")?;
    /// if let Some(at) = text.as_utfstr().find_char('😀') {
    ///     text.replace_range(at.., Utf16Str::from_slice(&[0x20, 0xe9])?)?;
    /// }
    /// assert!(rt; text.as_utfstr().eq_str("Hi é"));
    /// ```
    pub fn replace_range<R: RangeBounds<usize>>(
        &mut self,
        range: R,
        with: UtfStr<'_, C>,
    ) -> Result<(), OutOfMemory>
        requires bounds { R.has_bounds range }
        requires at_boundaries { IsCharPart C.form C.number self.old.units (R.start_bound range) (R.end_bound range) }
        ensures units { OnOk result (self.new.units ≡ part_replaced self.old.units (R.start_bound range) (R.end_bound range) (units_seen with.entry)) }
        ensures text { OnOk result (text_of C.form C.number self.new.units ≡ text_replaced C.form C.number self.old.units (R.start_bound range) (R.end_bound range) (text_seen with.entry)) }
        ensures err { OnErr result (self.new ≡ self.old) }
        ensures succeeds { ustring_len self.old + length (units_seen with.entry) ≤ self.old.capacity + (end_index (R.end_bound range) (ustring_len self.old) - start_index (R.start_bound range)) → IsOk result }
        ensures capacity { self.old.capacity ≤ self.new.capacity }
    {
        self.string.replace_range(range, with.as_ustr())
    }

    /// Replaces the text from `from` up to `to`, offsets in units, by the text of a `&str`. Allocates for the growth
    /// only, before any unit moves. The Rust crate has no such call: [`UtfString::replace_range`] takes a view, and
    /// making a view of a `&str` would allocate.
    ///
    /// # Requires
    ///
    /// `from` is at most `to`, `to` is at most the length, and both are character boundaries.
    ///
    /// # Errors
    ///
    /// [`OutOfMemory`] if the allocation fails; the string is unchanged. It never fails if the new length is at most
    /// the capacity.
    ///
    /// # Example
    ///
    /// ```
    /// let mut path = Utf16String::from_str(rt.alloc(), "C:\\é")?;
    /// if let Some(at) = path.as_utfstr().find_char('\\') {
    ///     path.splice_str(0, at, "D:")?;
    /// }
    /// assert!(rt; path.as_utfstr().eq_str("D:\\é"));
    /// ```
    pub fn splice_str(&mut self, from: usize, to: usize, text: &str) -> Result<(), OutOfMemory>
        requires { IsCharRange C.form (map C.number self.old.units) from to }
        ensures units { OnOk result (map C.number self.new.units ≡ splice (map C.number self.old.units) from to (encode C.form (str_chars text.now))) }
        ensures text { OnOk result (text_of C.form C.number self.new.units ≡ text_spliced C.form C.number self.old.units from to (str_chars text.now)) }
        ensures err { OnErr result (self.new ≡ self.old) }
        ensures succeeds { ustring_len self.old + length (encode C.form (str_chars text.now)) ≤ self.old.capacity + (to - from) → IsOk result }
        ensures capacity { self.old.capacity ≤ self.new.capacity }
    {
        self.string.splice_str(from, to, text)
    }

    /// Retains the characters for which the closure returns true. It calls the closure once for each character, in
    /// order. It does not allocate, and moves each unit at most once.
    ///
    /// # Requires
    ///
    /// The closure can be called any number of times.
    ///
    /// # Example
    ///
    /// ```
    /// let mut text = Utf16String::from_str(rt.alloc(), "é😀!")?;
    /// text.retain(|c| c != '😀');
    /// assert!(rt; text.as_utfstr().eq_str("é!"));
    /// ```
    pub fn retain<F: FnMut(char) -> bool>(&mut self, keep: F)
        requires { F.IsAlwaysCallable keep }
        ensures filtered { IsFiltered F.step keep (text_of C.form C.number self.old.units) (text_of C.form C.number self.new.units) }
        ensures capacity { self.new.capacity ≡ self.old.capacity }
    {
        self.string.retain_chars(keep);
    }

    /// Reduces the capacity, but to no less than the length and no less than `least` units.
    ///
    /// # Errors
    ///
    /// [`OutOfMemory`] if the capacity is greater than both and could not be reduced; the string is unchanged.
    pub fn shrink_to(&mut self, least: usize) -> Result<(), OutOfMemory>
        ensures units { self.new.units ≡ self.old.units }
        ensures ok { OnOk result ((self.new.capacity < self.old.capacity) ⊎ (self.old.capacity ≤ max least (ustring_len self.old))) }
        ensures keeps { min least self.old.capacity ≤ self.new.capacity }
        ensures smaller { self.new.capacity ≤ self.old.capacity }
        ensures err { OnErr result (self.new ≡ self.old) }
        ensures frees { self.old.units ≡ [] → least ≡ 0 → self.new.capacity ≡ 0 }
        ensures succeeds { self.old.capacity ≤ max least (ustring_len self.old) → IsOk result }
    {
        self.string.shrink_to(least)
    }

    /// Reduces the capacity, but to no less than the length in units.
    ///
    /// # Errors
    ///
    /// [`OutOfMemory`] if the capacity is greater than the length and could not be reduced; the string is unchanged.
    pub fn shrink_to_fit(&mut self) -> Result<(), OutOfMemory>
        ensures units { self.new.units ≡ self.old.units }
        ensures ok { OnOk result ((self.new.capacity < self.old.capacity) ⊎ (self.old.capacity ≤ ustring_len self.old)) }
        ensures smaller { self.new.capacity ≤ self.old.capacity }
        ensures err { OnErr result (self.new ≡ self.old) }
        ensures frees { self.old.units ≡ [] → self.new.capacity ≡ 0 }
        ensures succeeds { self.old.capacity ≤ ustring_len self.old → IsOk result }
    {
        self.string.shrink_to_fit()
    }

    /// Removes the text of a range and returns an iterator over its characters, from both ends. The ends of the range
    /// are offsets in units. The text is removed when the [`DrainUtf`] is dropped, all of it, even if it was not read
    /// to the end.
    ///
    /// # Requires
    ///
    /// The range starts at or before its end and lies within the string. Both its ends are character boundaries. It is
    /// not an inclusive range that was iterated to its end.
    ///
    /// # Example
    ///
    /// ```
    /// let mut text = Utf16String::from_str(rt.alloc(), "Hi😀!")?;
    /// if let Some(at) = text.as_utfstr().find_char('😀') {
    ///     let first = text.drain(at..).next();
    ///     assert!(rt; first == Some('😀'));
    /// }
    /// assert!(rt; text.as_utfstr().eq_str("Hi"));
    /// ```
    pub fn drain<R: RangeBounds<usize>>(&mut self, range: R) -> DrainUtf<'_, C, A>
        requires bounds { R.has_bounds range }
        requires in_range { IsCharPart C.form C.number self.old.units (R.start_bound range) (R.end_bound range) }
        ensures rest { drain_rest result ≡ text_of C.form C.number (part_of self.old.units (R.start_bound range) (R.end_bound range)) }
        ensures runs { DrainRuns result }
        ensures runs_back { DrainRunsBack result }
        ensures lender { drain_lender result ≡ self.entry.ghost_name }
        ensures leaves { drain_leaves result ≡ part_replaced self.old.units (R.start_bound range) (R.end_bound range) [] }
        ensures capacity { drain_capacity result ≡ self.old.capacity }
        ensures stays { DrainStays result }
    {
        let len = self.string.len();
        let offsets = slice::range(range, ..len);
        DrainUtf {
            string: self,
            total: len,
            start: offsets.start,
            front: offsets.start,
            back: offsets.end,
            end: offsets.end,
        }
    }

    // Removes the units from `from` up to `to`. Each unit after them moves at most once.
    pub(crate) fn remove_part(&mut self, from: usize, to: usize)
        requires range { IsWithin from to (ustring_len self.old) }
        requires others { IsWellFormed C.form (map C.number (splice self.old.units from to [])) }
        ensures units { self.new.units ≡ splice self.old.units from to [] }
        ensures capacity { self.new.capacity ≡ self.old.capacity }
    {
        self.string.drain(from..to);
    }
}

impl<A: Allocator> UtfString<u32, A> {
    ghost use Rattle.std.specs.Prelude.{slice_set};
    ghost use Rattle.wide_forms.specs.EncodingForm.{Utf32};

    /// Encodes characters as a new string, one unit for each.
    ///
    /// # Errors
    ///
    /// [`OutOfMemory`] if the allocation fails. It never fails if there are no characters.
    ///
    /// # Example
    ///
    /// ```
    /// let text = Utf32String::from_chars(rt.alloc(), &['H', '😀'])?;
    /// assert!(rt; text.as_slice() == [0x48, 0x1f600].as_slice());
    /// ```
    pub fn from_chars(alloc: A, text: &[char]) -> Result<Self, OutOfMemory>
        ensures units { IfOk result (λ s. s.units ≡ text.now) }
        ensures text { IfOk result (λ s. chars Utf32 s.units ≡ text.now) }
        ensures succeeds { text.now ≡ [] → IsOk result }
    {
        let mut string = UtfString::with_capacity(alloc, text.len())?;
        for c in text {
            string.push(*c)?;
        }
        Ok(string)
    }

    /// Replaces the character at an index by another.
    ///
    /// # Requires
    ///
    /// `index` is less than the length.
    pub fn set_char(&mut self, index: usize, c: char)
        requires { index < ustring_len self.old }
        ensures units { self.new.units ≡ slice_set self.old.units index c }
        ensures text { chars Utf32 self.new.units ≡ slice_set (chars Utf32 self.old.units) index c }
        ensures capacity { self.new.capacity ≡ self.old.capacity }
    {
        self.string.as_mut_slice()[index] = u32::from(c);
    }

    // Returns the characters as a vector, with a copy of the allocator.
    fn copy_chars(&self) -> Result<Vec<char, A>, OutOfMemory>
    where
        A: Clone,
        ensures { IfOk result (λ vec. vec.items ≡ chars Utf32 self.now.units) }
    {
        let alloc = self.string.as_vec().allocator().clone()?;
        let mut chars = Vec::with_capacity(alloc, self.string.len())?;
        for c in self.as_utfstr().chars() {
            chars.push_reserved(c);
        }
        Ok(chars)
    }

    /// Returns the characters as a vector, with a copy of the allocator. It allocates a copy, since units and
    /// characters are different types.
    ///
    /// # Errors
    ///
    /// The string, unchanged, if the allocation fails or the allocator cannot be copied.
    pub fn into_char_vec(self) -> Result<Vec<char, A>, Self>
    where
        A: Clone,
        ensures vec { IfOk result (λ vec. vec.items ≡ chars Utf32 self.units) }
        ensures err { IfErr result (λ s. s ≡ self) }
    {
        match self.copy_chars() {
            Ok(chars) => Ok(chars),
            Err(_error) => Err(self),
        }
    }
}
