//! Copies of views as well-formed text.
ghost use Rattle.std.specs.Prelude.{◌≡◌, ◌<◌, [], length, IsOk, IfOk, IfErr, IfSome, OnOk};
ghost use Rattle.wide_forms.specs.EncodingForm.{Utf16, Utf32};
ghost use Rattle.wide_forms.specs.Items.{IsWellFormed};
ghost use Rattle.wide_ustr.specs.View.{units_seen};
ghost use Rattle.wide_ucstr.specs.View.{contents_seen};
ghost use Rattle.wide_utferror.specs.UtfError.{index_of};
ghost use Rattle.wide_utferror.specs.Converted.{utf16_fault, utf32_fault};
ghost use Rattle.wide_utfstring.specs.Faults.{IsFaultOfCopy};

use crate::UtfString;
use std::alloc::Allocator;
use wide_ucstr::{U16CStr, U32CStr};
use wide_ustr::{U16Str, U32Str};
use wide_ustring::UStrInUstring;
use wide_utferror::{Utf16ConvertError, Utf32ConvertError};

impl<A: Allocator> UtfString<u16, A> {
    /// Copies a view's units into a new string, if they are well formed (Unicode Standard, D85). Allocates once, before
    /// the units are checked, or not at all if there are none.
    ///
    /// # Errors
    ///
    /// An out-of-memory error if the allocation fails, whether the units are well formed or not. Otherwise the first
    /// fault, if the units are ill-formed: its index is counted in units, its item number in characters, and the error
    /// holds the vector of the copy.
    pub fn from_ustr(alloc: A, view: U16Str<'_>) -> Result<Self, Utf16ConvertError<A>>
        ensures units { IfOk result (λ s. s.units ≡ units_seen view.entry) }
        ensures ok { OnOk result (IsWellFormed Utf16 (units_seen view.entry)) }
        ensures fault { IfErr result (λ e. IfSome (utf16_fault e) (IsFaultOfCopy Utf16 (units_seen view.entry))) }
        ensures within { IfErr result (λ e. IfSome (utf16_fault e) (λ fault. index_of fault < length (units_seen view.entry))) }
        ensures succeeds { units_seen view.entry ≡ [] → IsOk result }
    {
        Ok(UtfString::from_ustring(view.to_ustring(alloc)?)?)
    }

    /// Copies the contents of a C string, without its NUL, into a new string, if they are well formed (Unicode
    /// Standard, D85). Allocates once, before the contents are checked, or not at all if they are empty.
    ///
    /// # Errors
    ///
    /// An out-of-memory error if the allocation fails, whether the contents are well formed or not. Otherwise the first
    /// fault, if the contents are ill-formed: its index is counted in units, its item number in characters, and the
    /// error holds the vector of the copy.
    pub fn from_ucstr(alloc: A, view: U16CStr<'_>) -> Result<Self, Utf16ConvertError<A>>
        ensures units { IfOk result (λ s. s.units ≡ contents_seen view.entry) }
        ensures ok { OnOk result (IsWellFormed Utf16 (contents_seen view.entry)) }
        ensures fault { IfErr result (λ e. IfSome (utf16_fault e) (IsFaultOfCopy Utf16 (contents_seen view.entry))) }
        ensures within { IfErr result (λ e. IfSome (utf16_fault e) (λ fault. index_of fault < length (contents_seen view.entry))) }
        ensures succeeds { contents_seen view.entry ≡ [] → IsOk result }
    {
        UtfString::<u16, A>::from_ustr(alloc, view.as_ustr())
    }
}

impl<A: Allocator> UtfString<u32, A> {
    /// Copies a view's units into a new string, if they are well formed (Unicode Standard, D85). Allocates once, before
    /// the units are checked, or not at all if there are none.
    ///
    /// # Errors
    ///
    /// An out-of-memory error if the allocation fails, whether the units are well formed or not. Otherwise the first
    /// fault, if the units are ill-formed: its index is counted in units, its item number in characters, and the error
    /// holds the vector of the copy.
    pub fn from_ustr(alloc: A, view: U32Str<'_>) -> Result<Self, Utf32ConvertError<A>>
        ensures units { IfOk result (λ s. s.units ≡ units_seen view.entry) }
        ensures ok { OnOk result (IsWellFormed Utf32 (units_seen view.entry)) }
        ensures fault { IfErr result (λ e. IfSome (utf32_fault e) (IsFaultOfCopy Utf32 (units_seen view.entry))) }
        ensures within { IfErr result (λ e. IfSome (utf32_fault e) (λ fault. index_of fault < length (units_seen view.entry))) }
        ensures succeeds { units_seen view.entry ≡ [] → IsOk result }
    {
        Ok(UtfString::from_ustring(view.to_ustring(alloc)?)?)
    }

    /// Copies the contents of a C string, without its NUL, into a new string, if they are well formed (Unicode
    /// Standard, D85). Allocates once, before the contents are checked, or not at all if they are empty.
    ///
    /// # Errors
    ///
    /// An out-of-memory error if the allocation fails, whether the contents are well formed or not. Otherwise the first
    /// fault, if the contents are ill-formed: its index is counted in units, its item number in characters, and the
    /// error holds the vector of the copy.
    pub fn from_ucstr(alloc: A, view: U32CStr<'_>) -> Result<Self, Utf32ConvertError<A>>
        ensures units { IfOk result (λ s. s.units ≡ contents_seen view.entry) }
        ensures ok { OnOk result (IsWellFormed Utf32 (contents_seen view.entry)) }
        ensures fault { IfErr result (λ e. IfSome (utf32_fault e) (IsFaultOfCopy Utf32 (contents_seen view.entry))) }
        ensures within { IfErr result (λ e. IfSome (utf32_fault e) (λ fault. index_of fault < length (contents_seen view.entry))) }
        ensures succeeds { contents_seen view.entry ≡ [] → IsOk result }
    {
        UtfString::<u32, A>::from_ustr(alloc, view.as_ustr())
    }
}
