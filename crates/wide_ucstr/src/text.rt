//! Conversion of C strings to UTF-8.
ghost use Rattle.std.specs.Prelude.{◌≡◌, ◌<◌, [], length, map, IsOk, IfOk, IfErr, IfSome, IfNone, OnOk, None, string_bytes};
ghost use Rattle.wide_forms.specs.EncodingForm.{Utf16, Utf32};
ghost use Rattle.wide_forms.specs.Items.{items, chars, IsWellFormed, IsFirstFault};
ghost use Rattle.wide_forms.specs.Lossy.{lossy, lossy_by};
ghost use Rattle.wide_forms.specs.Utf8.{utf8};
ghost use Rattle.wide_utferror.specs.UtfError.{index_of, item_of, unit_of, vec_of};
ghost use Rattle.wide_ucstr.specs.View.{contents_seen};

use crate::view::UCStr;
use std::alloc::Allocator;
use wide_error::OutOfMemory;
use wide_forms::Policy;
use wide_utferror::{FaultUnit, Utf16ConvertError, Utf32ConvertError};

impl<C: FaultUnit> UCStr<'_, C> {
    /// Encodes the contents, without the NUL, as a UTF-8 string, with one U+FFFD for each unit that belongs to no
    /// character (Unicode Standard, section 3.9).
    ///
    /// If the contents are well formed, it reads the units three times. It allocates once, for as many bytes as the
    /// text has, or not at all if there are no contents.
    ///
    /// # Errors
    ///
    /// [`OutOfMemory`] if the allocation fails. It never fails if there are no contents.
    pub fn to_string_lossy<A: Allocator>(self, alloc: A) -> Result<String<A>, OutOfMemory>
        ensures text { IfOk result (λ text. string_bytes text ≡ utf8 (lossy (items C.form (map C.number (contents_seen self.entry))))) }
        ensures succeeds { contents_seen self.entry ≡ [] → IsOk result }
    {
        self.as_ustr().to_string_lossy(alloc)
    }

    /// Encodes the contents, without the NUL, as a UTF-8 string. The [`Policy`] determines what replaces the units that
    /// belong to no character.
    ///
    /// It allocates once, for as many bytes as the text has, or not at all if there are no contents.
    ///
    /// # Errors
    ///
    /// [`OutOfMemory`] if the allocation fails. It never fails if there are no contents.
    pub fn to_string_lossy_with<A: Allocator>(
        self,
        alloc: A,
        policy: Policy,
    ) -> Result<String<A>, OutOfMemory>
        ensures text { IfOk result (λ text. string_bytes text ≡ utf8 (lossy_by policy (items C.form (map C.number (contents_seen self.entry))))) }
        ensures succeeds { contents_seen self.entry ≡ [] → IsOk result }
    {
        self.as_ustr().to_string_lossy_with(alloc, policy)
    }
}

impl UCStr<'_, u16> {
    ghost use Rattle.wide_utferror.specs.Converted.{utf16_fault};

    /// Encodes the contents, without the NUL, as a UTF-8 string, if they are well formed (Unicode Standard, D85).
    ///
    /// It reads the units at most three times, and allocates once, for as many bytes as the text has, or not at all if
    /// there are no contents.
    ///
    /// # Errors
    ///
    /// The first fault, if the contents are ill-formed, with its index in units, its item number in characters, and no
    /// vector. It is found before anything is allocated. Otherwise out of memory, if the allocation fails.
    pub fn to_string<A: Allocator>(self, alloc: A) -> Result<String<A>, Utf16ConvertError>
        ensures text { IfOk result (λ text. string_bytes text ≡ utf8 (chars Utf16 (contents_seen self.entry))) }
        ensures well_formed { OnOk result (IsWellFormed Utf16 (contents_seen self.entry)) }
        ensures fault { IfErr result (λ e. IfSome (utf16_fault e) (λ fault. IsFirstFault Utf16 (contents_seen self.entry) (index_of fault) (item_of fault) (unit_of fault))) }
        ensures within { IfErr result (λ e. IfSome (utf16_fault e) (λ fault. index_of fault < length (contents_seen self.entry))) }
        ensures no_vector { IfErr result (λ e. IfSome (utf16_fault e) (λ fault. vec_of fault ≡ None)) }
        ensures no_memory { IfErr result (λ e. IfNone (utf16_fault e) (IsWellFormed Utf16 (contents_seen self.entry))) }
        ensures succeeds { contents_seen self.entry ≡ [] → IsOk result }
    {
        self.as_ustr().to_string(alloc)
    }
}

impl UCStr<'_, u32> {
    ghost use Rattle.wide_utferror.specs.Converted.{utf32_fault};

    /// Encodes the contents, without the NUL, as a UTF-8 string, if they are well formed (Unicode Standard, D85).
    ///
    /// It reads the units at most three times, and allocates once, for as many bytes as the text has, or not at all if
    /// there are no contents.
    ///
    /// # Errors
    ///
    /// The first fault, if the contents are ill-formed, with its index in units, its item number in characters, and no
    /// vector. It is found before anything is allocated. Otherwise out of memory, if the allocation fails.
    pub fn to_string<A: Allocator>(self, alloc: A) -> Result<String<A>, Utf32ConvertError>
        ensures text { IfOk result (λ text. string_bytes text ≡ utf8 (chars Utf32 (contents_seen self.entry))) }
        ensures well_formed { OnOk result (IsWellFormed Utf32 (contents_seen self.entry)) }
        ensures fault { IfErr result (λ e. IfSome (utf32_fault e) (λ fault. IsFirstFault Utf32 (contents_seen self.entry) (index_of fault) (item_of fault) (unit_of fault))) }
        ensures within { IfErr result (λ e. IfSome (utf32_fault e) (λ fault. index_of fault < length (contents_seen self.entry))) }
        ensures no_vector { IfErr result (λ e. IfSome (utf32_fault e) (λ fault. vec_of fault ≡ None)) }
        ensures no_memory { IfErr result (λ e. IfNone (utf32_fault e) (IsWellFormed Utf32 (contents_seen self.entry))) }
        ensures succeeds { contents_seen self.entry ≡ [] → IsOk result }
    {
        self.as_ustr().to_string(alloc)
    }
}
