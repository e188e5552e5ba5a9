//! Owned wide C strings.
ghost use Rattle.std.specs.Prelude.{◌≡◌, ◌≤◌, ◌+◌, ◌++◌, ◌∷◌, [], max, length, map, IfOk, IfErr, vec_capacity};
ghost use Rattle.std.specs.Str.{chars};
ghost use Rattle.wide_forms.specs.EncodingForm.{encode};
ghost use Rattle.wide_forms.specs.Items.{chars as text_chars};
ghost use Rattle.wide_unit.specs.Nul.{HasNoNul};
ghost use Rattle.wide_forms.specs.Utf8.{utf8};
ghost use Rattle.wide_ustr.specs.View.{units_seen};
ghost use Rattle.wide_ustring.specs.Units.{Units};
ghost use Rattle.wide_ucstr.specs.CString.{IsCString, contents};
ghost use Rattle.wide_ucstr.specs.View.{units_with_nul};
ghost use Rattle.wide_ucstring.specs.Made.{HasNoInnerNul, EndsAsGiven, EndsAtFirst};
ghost use Rattle.wide_ucstring.specs.Rejected.{RejectsInnerNul, RejectsInnerNulOfCopy, RejectsNulOfCopy, IsOutOfSpace, IsAllocationFailure};

use std::alloc::{Allocator, Global};
use std::marker::Model;
use wide_error::OutOfMemory;
use wide_ucstr::UCStr;
use wide_unit::first_nul;
use wide_ustr::UStr;
use wide_ustring::UString;
use wide_utferror::{ContainsNul, FaultUnit, UCStringError};

/// An owned wide C string. Its type guarantees that the last unit is a NUL, and the only one.
///
/// The units before the NUL are its contents. If a constructor fails because of a NUL, its error holds the vector that
/// was passed, or the copy that was made. If it fails because an allocation failed, its error holds the vector that was
/// passed, if any.
///
/// `{:?}` prints the units with the NUL between quotes, as [`char::escape_debug`] escapes them, so the NUL is printed
/// last, as `\0`. A unit that belongs to no character is printed as `\<H>`, where `H` is its number in upper-case
/// hexadecimal, without leading zeros.
///
/// # Example
///
/// ```
/// let path = U16CString::from_str(rt.alloc(), "C:\\temp")?;
/// let view = path.as_ucstr();
/// assert!(rt; view.len() == 7);
/// assert!(rt; view.as_slice_with_nul().last() == Some(&0));
/// ```
#[derive(Drop)]
pub struct UCString<C: FaultUnit, A: Allocator = Global> {
    pub(crate) string: UString<C, A>,
}

/// An owned C string of 16-bit units.
pub type U16CString<A = Global> = UCString<u16, A>;

/// An owned C string of 32-bit units.
pub type U32CString<A = Global> = UCString<u32, A>;

/// An owned C string of wide units.
pub type WideCString<A = Global> = U32CString<A>;

impl<C: FaultUnit, A: Allocator> Model for UCString<C, A> {
    ghost use Rattle.std.specs.Prelude.{map};
    ghost use Rattle.wide_ustring.specs.Units.{Units, units_code};
    ghost use Rattle.wide_ucstr.specs.CString.{IsCString};

    ghost Value = { Units C };

    ghost coded = { units_code C.code };

    ghost view = { λ s. s.string };

    ghost invariant = { λ s. IsCString (map C.number s.string.units) };
}

// Appends a NUL to units that have none. It reserves capacity for that NUL only.
pub(crate) fn end<C: FaultUnit, A: Allocator>(
    units: Vec<C, A>,
) -> Result<UCString<C, A>, UCStringError<C, A>>
    requires { HasNoNul (map C.number units.items) }
    ensures made { IfOk result (λ s. map C.number s.units ≡ map C.number units.items ++ 0 ∷ []) }
    ensures units { IfOk result (λ s. contents s.units ≡ units.items) }
    ensures space { IfOk result (λ s. s.capacity ≡ max (vec_capacity units) (length s.units)) }
    ensures rejected { IfErr result (IsOutOfSpace C.number units) }
{
    let mut ended = units;
    match ended.reserve_exact(1) {
        Ok(()) => {
            ended.push_reserved(C::NUL);
            Ok(UCString {
                string: UString::from_vec(ended),
            })
        }
        Err(_) => Err(UCStringError::OutOfMemory(Some(ended))),
    }
}

// Creates an empty string with capacity for `len` units and a NUL.
pub(crate) fn with_space<C: FaultUnit, A: Allocator>(
    alloc: A,
    len: usize,
) -> Result<UString<C, A>, OutOfMemory>
    ensures units { IfOk result (λ s. s.units ≡ []) }
    ensures space { IfOk result (λ s. len + 1 ≤ s.capacity) }
{
    let Some(space) = len.checked_add(1) else {
        return Err(OutOfMemory);
    };
    UString::with_capacity(alloc, space)
}

// Returns a copy of the units, with capacity for a NUL.
fn copy_of_ustr<C: FaultUnit, A: Allocator>(
    alloc: A,
    text: UStr<'_, C>,
) -> Result<Vec<C, A>, OutOfMemory>
    ensures units { IfOk result (λ v. v.items ≡ units_seen text.entry) }
    ensures space { IfOk result (λ v. length v.items + 1 ≤ vec_capacity v) }
{
    let mut string = with_space(alloc, text.len())?;
    string.push(text)?;
    Ok(string.into_vec())
}

// Returns the units of a text, with capacity for a NUL.
fn copy_of_str<C: FaultUnit, A: Allocator>(alloc: A, text: &str) -> Result<Vec<C, A>, OutOfMemory>
    ensures units { IfOk result (λ v. map C.number v.items ≡ encode C.form (chars text.now)) }
    ensures space { IfOk result (λ v. length v.items + 1 ≤ vec_capacity v) }
{
    let mut string = with_space(alloc, C::text_len(text))?;
    string.push_str(text)?;
    Ok(string.into_vec())
}

// Returns the characters as 32-bit units, with capacity for a NUL.
fn copy_of_chars<A: Allocator>(alloc: A, chars: &[char]) -> Result<Vec<u32, A>, OutOfMemory>
    ensures units { IfOk result (λ v. v.items ≡ chars.now) }
    ensures space { IfOk result (λ v. length v.items + 1 ≤ vec_capacity v) }
{
    let mut units = with_space(alloc, chars.len())?.into_vec();
    for c in chars {
        units.push_reserved(u32::from(*c));
    }
    Ok(units)
}

impl<C: FaultUnit, A: Allocator> UCString<C, A> {
    /// The unit that ends a C string.
    pub const NUL_TERMINATOR: C = C::NUL;

    /// Makes a C string of a vector's units. A NUL at their end is taken as the terminator, and nothing is allocated.
    /// Otherwise a NUL is appended.
    ///
    /// # Errors
    ///
    /// The offset of the first NUL, in units, if it is not the last unit; or out of memory, if the vector has no NUL
    /// and no spare capacity, and the allocation fails. Both errors hold the vector, with its units and its capacity.
    ///
    /// # Example
    ///
    /// ```
    /// let units = [0x48, 0x69].to_vec(rt.alloc())?;
    /// let name = U16CString::from_vec(units)?;
    /// assert!(rt; name.as_ucstr().as_slice_with_nul() == [0x48, 0x69, 0].as_slice());
    /// ```
    pub fn from_vec(units: Vec<C, A>) -> Result<Self, UCStringError<C, A>>
        ensures made { IfOk result (λ s. EndsAsGiven (map C.number units.items) (map C.number s.units)) }
        ensures ok { IfOk result (λ s. HasNoInnerNul (map C.number units.items)) }
        ensures space { IfOk result (λ s. s.capacity ≡ max (vec_capacity units) (length s.units)) }
        ensures rejected { IfErr result (RejectsInnerNul C.number units) }
    {
        match first_nul(units.as_slice()) {
            None => end(units),
            Some(offset) if offset + 1 == units.len() => Ok(UCString {
                string: UString::from_vec(units),
            }),
            Some(offset) => Err(ContainsNul::new(offset, Some(units)).into()),
        }
    }

    /// Makes a C string of a vector's units, checking only the last one. A NUL there is taken as the terminator.
    /// Otherwise a NUL is appended.
    ///
    /// # Requires
    ///
    /// No unit before the last one is a NUL.
    ///
    /// # Errors
    ///
    /// Out of memory, if a NUL must be appended, the vector has no spare capacity, and the allocation fails. The error
    /// holds the vector, with its units and its capacity.
    pub fn from_vec_unchecked(units: Vec<C, A>) -> Result<Self, UCStringError<C, A>>
        requires { HasNoInnerNul (map C.number units.items) }
        ensures made { IfOk result (λ s. EndsAsGiven (map C.number units.items) (map C.number s.units)) }
        ensures space { IfOk result (λ s. s.capacity ≡ max (vec_capacity units) (length s.units)) }
        ensures rejected { IfErr result (IsOutOfSpace C.number units) }
    {
        match units.last() {
            Some(last) if last.code() == 0 => Ok(UCString {
                string: UString::from_vec(units),
            }),
            _ => end(units),
        }
    }

    /// Makes a C string of a vector's units up to and including the first NUL, without allocating. If there is none,
    /// takes all units and appends a NUL.
    ///
    /// # Errors
    ///
    /// Out of memory, if the vector has no NUL and no spare capacity, and the allocation fails. The error holds the
    /// vector, with its units and its capacity.
    ///
    /// # Example
    ///
    /// ```
    /// let buffer = [0x48, 0x69, 0, 0x21, 0].to_vec(rt.alloc())?;
    /// let name = U16CString::from_vec_truncate(buffer)?;
    /// assert!(rt; name.as_ucstr().as_slice() == [0x48, 0x69].as_slice());
    /// ```
    pub fn from_vec_truncate(units: Vec<C, A>) -> Result<Self, UCStringError<C, A>>
        ensures made { IfOk result (λ s. EndsAtFirst (map C.number units.items) (map C.number s.units)) }
        ensures space { IfOk result (λ s. s.capacity ≡ max (vec_capacity units) (length s.units)) }
        ensures rejected { IfErr result (IsOutOfSpace C.number units) }
    {
        let Some(offset) = first_nul(units.as_slice()) else {
            return end(units);
        };
        let mut cut = units;
        cut.truncate(offset + 1);
        Ok(UCString {
            string: UString::from_vec(cut),
        })
    }

    /// Creates an empty C string, which has only its NUL.
    ///
    /// # Errors
    ///
    /// Out of memory, if the allocation fails. The error holds no vector.
    pub fn new(alloc: A) -> Result<Self, UCStringError<C, A>>
        ensures made { IfOk result (λ s. map C.number s.units ≡ 0 ∷ []) }
        ensures rejected { IfErr result IsAllocationFailure }
    {
        end(with_space(alloc, 0)?.into_vec())
    }

    /// Makes a C string of a copy of a view's units. A NUL at their end is taken as the terminator. Otherwise a NUL is
    /// appended.
    ///
    /// # Errors
    ///
    /// Out of memory, without a vector, if the allocation for the copy fails; or the offset of the first NUL, in units,
    /// if it is not the last unit, with the copy.
    ///
    /// # Example
    ///
    /// ```
    /// let view = U16Str::from_slice(&[0x48, 0xd83d]);
    /// let name = U16CString::from_ustr(rt.alloc(), view)?;
    /// assert!(rt; name.as_ucstr().as_slice_with_nul() == [0x48, 0xd83d, 0].as_slice());
    /// ```
    pub fn from_ustr(alloc: A, text: UStr<'_, C>) -> Result<Self, UCStringError<C, A>>
        ensures made { IfOk result (λ s. EndsAsGiven (map C.number (units_seen text.entry)) (map C.number s.units)) }
        ensures ok { IfOk result (λ s. HasNoInnerNul (map C.number (units_seen text.entry))) }
        ensures rejected { IfErr result (RejectsInnerNulOfCopy C.number (map C.number (units_seen text.entry))) }
    {
        UCString::from_vec(copy_of_ustr(alloc, text)?)
    }

    /// Makes a C string of a copy of a view's units, checking only the last one. A NUL there is taken as the
    /// terminator. Otherwise a NUL is appended.
    ///
    /// # Requires
    ///
    /// No unit before the last one is a NUL.
    ///
    /// # Errors
    ///
    /// Out of memory, if the allocation for the copy fails. The error holds no vector.
    pub fn from_ustr_unchecked(alloc: A, text: UStr<'_, C>) -> Result<Self, UCStringError<C, A>>
        requires { HasNoInnerNul (map C.number (units_seen text)) }
        ensures made { IfOk result (λ s. EndsAsGiven (map C.number (units_seen text.entry)) (map C.number s.units)) }
        ensures rejected { IfErr result IsAllocationFailure }
    {
        UCString::from_vec_unchecked(copy_of_ustr(alloc, text)?)
    }

    /// Makes a C string of a copy of a view's units up to the first NUL, or of all of them if there is none, and
    /// appends a NUL.
    ///
    /// # Errors
    ///
    /// Out of memory, if the allocation for the copy fails. The error holds no vector.
    ///
    /// # Example
    ///
    /// ```
    /// let buffer = U16Str::from_slice(&[0x48, 0xd83d, 0, 0x21]);
    /// let name = U16CString::from_ustr_truncate(rt.alloc(), buffer)?;
    /// assert!(rt; name.as_ucstr().as_slice_with_nul() == [0x48, 0xd83d, 0].as_slice());
    /// ```
    pub fn from_ustr_truncate(alloc: A, text: UStr<'_, C>) -> Result<Self, UCStringError<C, A>>
        ensures made { IfOk result (λ s. EndsAtFirst (map C.number (units_seen text.entry)) (map C.number s.units)) }
        ensures rejected { IfErr result IsAllocationFailure }
    {
        match first_nul(text.as_slice()) {
            Some(offset) => end(copy_of_ustr(alloc, text.slice(..offset))?),
            None => end(copy_of_ustr(alloc, text)?),
        }
    }

    /// Makes a C string of the units of a text. A NUL at their end is taken as the terminator. Otherwise a NUL is
    /// appended.
    ///
    /// # Errors
    ///
    /// Out of memory, without a vector, if the allocation for the units fails; or the offset of the first NUL, in
    /// units, if it is not the last unit, with the vector of the units.
    ///
    /// # Example
    ///
    /// ```
    /// let name = U16CString::from_str(rt.alloc(), "é😀")?;
    /// assert!(rt; name.as_ucstr().as_slice_with_nul() == [0xe9, 0xd83d, 0xde00, 0].as_slice());
    /// assert!(rt; U16CString::from_str(rt.alloc(), "Hi\0there").is_err());
    /// ```
    pub fn from_str(alloc: A, text: &str) -> Result<Self, UCStringError<C, A>>
        ensures made { IfOk result (λ s. EndsAsGiven (encode C.form (chars text.now)) (map C.number s.units)) }
        ensures read_back { IfOk result (λ s. HasNoNul (encode C.form (chars text.now)) → utf8 (text_chars C.form (map C.number (contents s.units))) ≡ text.now) }
        ensures ok { IfOk result (λ s. HasNoInnerNul (encode C.form (chars text.now))) }
        ensures rejected { IfErr result (RejectsInnerNulOfCopy C.number (encode C.form (chars text.now))) }
    {
        UCString::from_vec(copy_of_str(alloc, text)?)
    }

    /// Makes a C string of the units of a text, checking only the last one. A NUL there is taken as the terminator.
    /// Otherwise a NUL is appended.
    ///
    /// # Requires
    ///
    /// No unit of the text before the last one is a NUL.
    ///
    /// # Errors
    ///
    /// Out of memory, if the allocation for the units fails. The error holds no vector.
    pub fn from_str_unchecked(alloc: A, text: &str) -> Result<Self, UCStringError<C, A>>
        requires { HasNoInnerNul (encode C.form (chars text.now)) }
        ensures made { IfOk result (λ s. EndsAsGiven (encode C.form (chars text.now)) (map C.number s.units)) }
        ensures rejected { IfErr result IsAllocationFailure }
    {
        UCString::from_vec_unchecked(copy_of_str(alloc, text)?)
    }

    /// Makes a C string of the units of a text up to and including the first NUL. If there is none, takes all units and
    /// appends a NUL. It encodes the whole text before it truncates, and the capacity for it is retained.
    ///
    /// # Errors
    ///
    /// Out of memory, if the allocation for the whole text fails. The error holds no vector.
    ///
    /// # Example
    ///
    /// ```
    /// let name = U16CString::from_str_truncate(rt.alloc(), "é\0Hi\0")?;
    /// assert!(rt; name.as_ucstr().as_slice_with_nul() == [0xe9, 0].as_slice());
    /// let name = U16CString::from_str_truncate(rt.alloc(), "😀")?;
    /// assert!(rt; name.as_ucstr().as_slice_with_nul() == [0xd83d, 0xde00, 0].as_slice());
    /// ```
    pub fn from_str_truncate(alloc: A, text: &str) -> Result<Self, UCStringError<C, A>>
        ensures made { IfOk result (λ s. EndsAtFirst (encode C.form (chars text.now)) (map C.number s.units)) }
        ensures rejected { IfErr result IsAllocationFailure }
    {
        UCString::from_vec_truncate(copy_of_str(alloc, text)?)
    }

    /// Makes a C string of the units of a text and a NUL. The text must not contain a NUL itself. The Rust crate has a
    /// macro for this, which converts a literal when the program is compiled. This function converts it at run time.
    ///
    /// # Errors
    ///
    /// Out of memory, without a vector, if the allocation for the units fails; or the offset of the first NUL, in
    /// units, if there is any, even at the end, with the vector of the units.
    ///
    /// # Example
    ///
    /// ```
    /// let name = U16CString::from_str_literal(rt.alloc(), "é😀")?;
    /// assert!(rt; name.as_ucstr().as_slice_with_nul() == [0xe9, 0xd83d, 0xde00, 0].as_slice());
    /// assert!(rt; U16CString::from_str_literal(rt.alloc(), "Hi\0").is_err());
    /// ```
    pub fn from_str_literal(alloc: A, text: &str) -> Result<Self, UCStringError<C, A>>
        ensures made { IfOk result (λ s. map C.number s.units ≡ encode C.form (chars text.now) ++ 0 ∷ []) }
        ensures read_back { IfOk result (λ s. utf8 (text_chars C.form (map C.number (contents s.units))) ≡ text.now) }
        ensures ok { IfOk result (λ s. HasNoNul (encode C.form (chars text.now))) }
        ensures rejected { IfErr result (RejectsNulOfCopy C.number (encode C.form (chars text.now))) }
    {
        let units = copy_of_str(alloc, text)?;
        match first_nul(units.as_slice()) {
            None => end(units),
            Some(offset) => Err(ContainsNul::new(offset, Some(units)).into()),
        }
    }

    /// Returns a view of the C string.
    ///
    /// # Example
    ///
    /// ```
    /// let name = U16CString::from_str(rt.alloc(), "Заголовок")?;
    /// let text = name.as_ucstr().to_string(rt.alloc())?;
    /// assert!(rt; text.as_str() == "Заголовок");
    /// ```
    pub fn as_ucstr(&self) -> UCStr<'_, C>
        ensures { units_with_nul result ≡ self.now.units }
    {
        UCStr::from_slice_unchecked(self.string.as_slice())
    }

    /// Returns the vector of the contents, without the NUL. It does not allocate.
    pub fn into_vec(self) -> Vec<C, A>
        ensures units { result.items ≡ contents self.units }
        ensures no_nul { HasNoNul (map C.number result.items) }
        ensures capacity { vec_capacity result ≡ self.capacity }
    {
        let mut units = self.into_vec_with_nul();
        let len = units.len() - 1;
        units.truncate(len);
        units
    }

    /// Returns the vector of the contents and the NUL, without allocating.
    ///
    /// # Example
    ///
    /// ```
    /// let name = U16CString::from_str(rt.alloc(), "Hi")?;
    /// let units = name.into_vec_with_nul();
    /// assert!(rt; units.as_slice() == [0x48, 0x69, 0].as_slice());
    /// ```
    pub fn into_vec_with_nul(self) -> Vec<C, A>
        ensures units { result.items ≡ self.units }
        ensures c_string { IsCString (map C.number result.items) }
        ensures capacity { vec_capacity result ≡ self.capacity }
    {
        let UCString { string } = self;
        string.into_vec()
    }

    /// Returns the contents, without the NUL, as a string of units. It does not allocate.
    ///
    /// # Example
    ///
    /// ```
    /// let name = U16CString::from_str(rt.alloc(), "Hi")?;
    /// assert!(rt; name.into_ustring().len() == 2);
    /// ```
    pub fn into_ustring(self) -> UString<C, A>
        ensures units { result.units ≡ contents self.units }
        ensures no_nul { HasNoNul (map C.number result.units) }
        ensures capacity { result.capacity ≡ self.capacity }
    {
        UString::from_vec(self.into_vec())
    }

    /// Returns the contents and the NUL as a string of units, without allocating.
    pub fn into_ustring_with_nul(self) -> UString<C, A>
        ensures units { result.units ≡ self.units }
        ensures c_string { IsCString (map C.number result.units) }
        ensures capacity { result.capacity ≡ self.capacity }
    {
        let UCString { string } = self;
        string
    }

    /// Returns a copy of the C string, with a copy of the allocator.
    ///
    /// # Errors
    ///
    /// [`OutOfMemory`] if the allocation fails or the allocator cannot be copied.
    pub fn try_clone(&self) -> Result<Self, OutOfMemory>
    where
        A: Clone,
        ensures { IfOk result (λ s. s.units ≡ self.now.units) }
    {
        Ok(UCString {
            string: self.string.try_clone()?,
        })
    }
}

impl<A: Allocator> UCString<u32, A> {
    /// Makes a C string of characters as 32-bit units. A NUL at their end is taken as the terminator. Otherwise a NUL
    /// is appended.
    ///
    /// # Errors
    ///
    /// Out of memory, without a vector, if the allocation for the units fails; or the offset of the first NUL, in
    /// units, if it is not the last character, with the vector of the units.
    pub fn from_chars(alloc: A, chars: &[char]) -> Result<Self, UCStringError<u32, A>>
        ensures made { IfOk result (λ s. EndsAsGiven chars.now s.units) }
        ensures ok { IfOk result (λ s. HasNoInnerNul chars.now) }
        ensures rejected { IfErr result (RejectsInnerNulOfCopy (λ u. u) chars.now) }
    {
        UCString::from_vec(copy_of_chars(alloc, chars)?)
    }

    /// Makes a C string of characters as 32-bit units, checking only the last one. A NUL there is taken as the
    /// terminator. Otherwise a NUL is appended.
    ///
    /// # Requires
    ///
    /// No character before the last one is a NUL.
    ///
    /// # Errors
    ///
    /// Out of memory, if the allocation for the units fails. The error holds no vector.
    pub fn from_chars_unchecked(alloc: A, chars: &[char]) -> Result<Self, UCStringError<u32, A>>
        requires { HasNoInnerNul chars.now }
        ensures made { IfOk result (λ s. EndsAsGiven chars.now s.units) }
        ensures rejected { IfErr result IsAllocationFailure }
    {
        UCString::from_vec_unchecked(copy_of_chars(alloc, chars)?)
    }

    /// Makes a C string of characters as 32-bit units, up to and including the first NUL. If there is none, takes all
    /// characters and appends a NUL. It copies all characters before it truncates, and the capacity for them is
    /// retained.
    ///
    /// # Errors
    ///
    /// Out of memory, if the allocation for all characters fails. The error holds no vector.
    pub fn from_chars_truncate(alloc: A, chars: &[char]) -> Result<Self, UCStringError<u32, A>>
        ensures made { IfOk result (λ s. EndsAtFirst chars.now s.units) }
        ensures rejected { IfErr result IsAllocationFailure }
    {
        UCString::from_vec_truncate(copy_of_chars(alloc, chars)?)
    }
}
