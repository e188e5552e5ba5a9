//! Converts text to wide strings and back.
ghost use Rattle.std.specs.Prelude.{◌≡◌, IfOk, IfSome, OnOk, string_bytes};
ghost use Rattle.std.specs.Str.{chars};
ghost use Rattle.widestring.specs.EncodingForm.{Utf16, Utf32, encode};
ghost use Rattle.widestring.specs.Items.{IsWellFormed, chars as text_chars};
ghost use Rattle.widestring.specs.Nul.{HasNoNul};
ghost use Rattle.widestring.specs.UnitView.{units_seen};
ghost use Rattle.widestring.specs.Utf8.{utf8};

use std::alloc::Global;
use widestring::error::{OutOfMemory, Utf16ConvertError, Utf32ConvertError};
use widestring::{U16CString, U16Str, U16String, U32CString, U32String, Utf16String, Utf32String};

/// Returns the text, by way of UTF-16 that may be ill-formed.
pub fn through_utf16(alloc: Global, text: &str) -> Result<String, Utf16ConvertError>
    ensures { IfOk result (λ same. string_bytes same ≡ text.now) }
{
    let string = U16String::from_str(alloc, text)?;
    string.as_ustr().to_string(alloc)
}

/// Returns the text, by way of UTF-32 that may be ill-formed.
pub fn through_utf32(alloc: Global, text: &str) -> Result<String, Utf32ConvertError>
    ensures { IfOk result (λ same. string_bytes same ≡ text.now) }
{
    let string = U32String::from_str(alloc, text)?;
    string.as_ustr().to_string(alloc)
}

/// Returns the text, by way of well-formed UTF-16.
pub fn through_text16(alloc: Global, text: &str) -> Result<String, OutOfMemory>
    ensures { IfOk result (λ same. string_bytes same ≡ text.now) }
{
    let string = Utf16String::from_str(alloc, text)?;
    string.as_utfstr().to_string(alloc)
}

/// Returns the text, by way of well-formed UTF-32.
pub fn through_text32(alloc: Global, text: &str) -> Result<String, OutOfMemory>
    ensures { IfOk result (λ same. string_bytes same ≡ text.now) }
{
    let string = Utf32String::from_str(alloc, text)?;
    string.as_utfstr().to_string(alloc)
}

/// Returns the text, by way of a C string of UTF-16, or `None` if an allocation fails or the text contains a NUL.
pub fn through_c_string16(alloc: Global, text: &str) -> Option<String>
    ensures { IfSome result (λ same. string_bytes same ≡ text.now) }
{
    let string = U16CString::from_str_literal(alloc, text).ok()?;
    string.as_ucstr().to_string(alloc).ok()
}

/// Returns the text, by way of a C string of UTF-32, or `None` if an allocation fails or the text contains a NUL.
pub fn through_c_string32(alloc: Global, text: &str) -> Option<String>
    ensures { IfSome result (λ same. string_bytes same ≡ text.now) }
{
    let string = U32CString::from_str_literal(alloc, text).ok()?;
    string.as_ucstr().to_string(alloc).ok()
}

/// Returns a text without a NUL, by way of a C string of UTF-16, or `None` if an allocation fails.
///
/// # Requires
///
/// The text contains no NUL.
pub fn through_c_string_of_text(alloc: Global, text: &str) -> Option<String>
    requires { HasNoNul (encode Utf16 (chars text.now)) }
    ensures { IfSome result (λ same. string_bytes same ≡ text.now) }
{
    let string = U16CString::from_str(alloc, text).ok()?;
    string.as_ucstr().to_string(alloc).ok()
}

/// Encodes any text in UTF-16 and in UTF-32.
pub fn encoded(alloc: Global, text: &str) -> Result<(U16String, U32String), OutOfMemory>
    ensures units16 { IfOk result (λ strings. strings.0.units ≡ encode Utf16 (chars text.now)) }
    ensures units32 { IfOk result (λ strings. strings.1.units ≡ encode Utf32 (chars text.now)) }
{
    let first = U16String::from_str(alloc, text)?;
    Ok((first, U32String::from_str(alloc, text)?))
}

/// Encodes well-formed units in UTF-8, and rejects all others.
pub fn encoded_in_utf8(alloc: Global, units: U16Str<'_>) -> Result<String, Utf16ConvertError>
    ensures text { IfOk result (λ text. string_bytes text ≡ utf8 (text_chars Utf16 (units_seen units.entry))) }
    ensures well_formed { OnOk result (IsWellFormed Utf16 (units_seen units.entry)) }
{
    units.to_string(alloc)
}
