//! Conversion of views to UTF-8.
ghost use Rattle.std.specs.Prelude.{◌≡◌, ◌<◌, length, [], map, IsOk, IfOk, IfErr, IfSome, IfNone, OnOk, None, string_bytes};
ghost use Rattle.wide_forms.specs.EncodingForm.{Utf16, Utf32};
ghost use Rattle.wide_forms.specs.Items.{items, chars, IsWellFormed, IsFirstFault};
ghost use Rattle.wide_forms.specs.Lossy.{lossy, lossy_by};
ghost use Rattle.wide_forms.specs.Utf8.{utf8};
ghost use Rattle.wide_utferror.specs.UtfError.{index_of, item_of, unit_of, vec_of};
ghost use Rattle.wide_ustr.specs.View.{units_seen};

use crate::view::UStr;
use std::alloc::Allocator;
use wide_error::OutOfMemory;
use wide_forms::Policy;
use wide_from_units::{lossy_utf8_string, utf8_string};
use wide_unit::{Unit, check, find_fault};
use wide_utferror::{Utf16ConvertError, Utf32ConvertError, UtfError};

impl<C: Unit> UStr<'_, C> {
    /// Encodes the text of the view as a UTF-8 string, with one U+FFFD for each unit that belongs to no character
    /// (Unicode Standard, section 3.9).
    ///
    /// If the text is well formed, it reads the units three times, vectorized. It allocates once, for as many bytes as
    /// the text has, or not at all if there are no units.
    ///
    /// # Errors
    ///
    /// [`OutOfMemory`] if the allocation fails. It never fails if there are no units.
    ///
    /// # Example
    ///
    /// ```
    /// let name = U16Str::from_slice(&[0x64, 0xe9, 0x6a, 0xe0, 0xdc00]);
    /// let text = name.to_string_lossy(rt.alloc())?;
    /// assert!(rt; text.as_str() == "déjà\u{fffd}");
    /// ```
    pub fn to_string_lossy<A: Allocator>(self, alloc: A) -> Result<String<A>, OutOfMemory>
        ensures text { IfOk result (λ text. string_bytes text ≡ utf8 (lossy (items C.form (map C.number (units_seen self.entry))))) }
        ensures succeeds { units_seen self.entry ≡ [] → IsOk result }
    {
        self.to_string_lossy_with(alloc, Policy::Each)
    }

    /// Encodes the text of the view as a UTF-8 string. The [`Policy`] determines what replaces the units that belong to
    /// no character.
    ///
    /// If the text is well formed, it reads the units three times, vectorized. It allocates once, for as many bytes as
    /// the text has, or not at all if the text is empty.
    ///
    /// # Errors
    ///
    /// [`OutOfMemory`] if the allocation fails. It never fails if there are no units.
    ///
    /// # Example
    ///
    /// ```
    /// let units = U16Str::from_slice(&[0x48, 0xdc00, 0xdc00, 0x69]);
    /// let text = units.to_string_lossy_with(rt.alloc(), Policy::Run)?;
    /// assert!(rt; text.as_str() == "H\u{fffd}i");
    /// let text = units.to_string_lossy_with(rt.alloc(), Policy::Skip)?;
    /// assert!(rt; text.as_str() == "Hi");
    /// ```
    pub fn to_string_lossy_with<A: Allocator>(
        self,
        alloc: A,
        policy: Policy,
    ) -> Result<String<A>, OutOfMemory>
        ensures text { IfOk result (λ text. string_bytes text ≡ utf8 (lossy_by policy (items C.form (map C.number (units_seen self.entry))))) }
        ensures succeeds { units_seen self.entry ≡ [] → IsOk result }
    {
        match find_fault(self.units) {
            None => Ok(utf8_string(alloc, self.units)?),
            Some(_fault) => Ok(lossy_utf8_string(alloc, self.units, policy)?),
        }
    }
}

impl UStr<'_, u16> {
    ghost use Rattle.wide_utferror.specs.Converted.{utf16_fault};

    /// Encodes the text of the view as a UTF-8 string, if it is well formed (Unicode Standard, D85).
    ///
    /// It reads the units at most three times, vectorized, and allocates once, for as many bytes as the text has, or
    /// not at all if there are no units.
    ///
    /// # Errors
    ///
    /// The first fault, if the text is ill-formed, with its index in units, its item number in characters, and no
    /// vector. It is found before anything is allocated. Otherwise out of memory, if the allocation fails.
    ///
    /// # Example
    ///
    /// ```
    /// let text = U16Str::from_slice(&[0x48, 0xd83d, 0xde00]).to_string(rt.alloc())?;
    /// assert!(rt; text.as_str() == "H😀");
    /// let fault = U16Str::from_slice(&[0x48, 0xd83d]).to_string(rt.alloc());
    /// assert!(rt; matches!(&fault, Err(Utf16ConvertError::Utf16(fault)) if fault.index() == 1));
    /// ```
    pub fn to_string<A: Allocator>(self, alloc: A) -> Result<String<A>, Utf16ConvertError>
        ensures text { IfOk result (λ text. string_bytes text ≡ utf8 (chars Utf16 (units_seen self.entry))) }
        ensures well_formed { OnOk result (IsWellFormed Utf16 (units_seen self.entry)) }
        ensures fault { IfErr result (λ e. IfSome (utf16_fault e) (λ fault. IsFirstFault Utf16 (units_seen self.entry) (index_of fault) (item_of fault) (unit_of fault))) }
        ensures within { IfErr result (λ e. IfSome (utf16_fault e) (λ fault. index_of fault < length (units_seen self.entry))) }
        ensures no_vector { IfErr result (λ e. IfSome (utf16_fault e) (λ fault. vec_of fault ≡ None)) }
        ensures no_memory { IfErr result (λ e. IfNone (utf16_fault e) (IsWellFormed Utf16 (units_seen self.entry))) }
        ensures succeeds { units_seen self.entry ≡ [] → IsOk result }
    {
        match check(self.units) {
            Ok(()) => Ok(utf8_string(alloc, self.units)?),
            Err(fault) => Err(Utf16ConvertError::Utf16(UtfError::new(fault, None))),
        }
    }
}

impl UStr<'_, u32> {
    ghost use Rattle.wide_utferror.specs.Converted.{utf32_fault};

    /// Encodes the text of the view as a UTF-8 string, if it is well formed (Unicode Standard, D85).
    ///
    /// It reads the units at most three times, vectorized, and allocates once, for as many bytes as the text has, or
    /// not at all if there are no units.
    ///
    /// # Errors
    ///
    /// The first fault, if the text is ill-formed, with its index in units, its item number in characters, and no
    /// vector. It is found before anything is allocated. Otherwise out of memory, if the allocation fails.
    ///
    /// # Example
    ///
    /// ```
    /// let text = U32Str::from_slice(&[0x48, 0x1f600]).to_string(rt.alloc())?;
    /// assert!(rt; text.as_str() == "H😀");
    /// let fault = U32Str::from_slice(&[0x48, 0x110000]).to_string(rt.alloc());
    /// assert!(rt; matches!(&fault, Err(Utf32ConvertError::Utf32(fault)) if fault.index() == 1));
    /// ```
    pub fn to_string<A: Allocator>(self, alloc: A) -> Result<String<A>, Utf32ConvertError>
        ensures text { IfOk result (λ text. string_bytes text ≡ utf8 (chars Utf32 (units_seen self.entry))) }
        ensures well_formed { OnOk result (IsWellFormed Utf32 (units_seen self.entry)) }
        ensures fault { IfErr result (λ e. IfSome (utf32_fault e) (λ fault. IsFirstFault Utf32 (units_seen self.entry) (index_of fault) (item_of fault) (unit_of fault))) }
        ensures within { IfErr result (λ e. IfSome (utf32_fault e) (λ fault. index_of fault < length (units_seen self.entry))) }
        ensures no_vector { IfErr result (λ e. IfSome (utf32_fault e) (λ fault. vec_of fault ≡ None)) }
        ensures no_memory { IfErr result (λ e. IfNone (utf32_fault e) (IsWellFormed Utf32 (units_seen self.entry))) }
        ensures succeeds { units_seen self.entry ≡ [] → IsOk result }
    {
        match check(self.units) {
            Ok(()) => Ok(utf8_string(alloc, self.units)?),
            Err(fault) => Err(Utf32ConvertError::Utf32(UtfError::new(fault, None))),
        }
    }
}
