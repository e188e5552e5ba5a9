//! Calls of a view of well-formed text that make an owned string.
ghost use Rattle.std.specs.Prelude.{◌≡◌, [], List, map, IsOk, IfOk};
ghost use Rattle.std.specs.Char.{to_ascii_lowercase, to_ascii_uppercase};
ghost use Rattle.std.specs.List.{repeat, flat_map};
ghost use Rattle.std.specs.Char.Unicode.ToLowercase.{to_lowercase};
ghost use Rattle.std.specs.Char.Unicode.ToUppercase.{to_uppercase};
ghost use Rattle.wide_forms.specs.Offsets.{text_of};

use crate::UtfString;
use crate::case::{Case, in_case};
use std::alloc::Allocator;
use wide_error::OutOfMemory;
use wide_ustring::UStrInUstring;
use wide_utferror::FaultUnit;
use wide_utfstr::UtfStr;

/// Calls of a view of well-formed text that make an owned string. They are in a trait because the view's crate does not
/// know owned strings.
///
/// # Example
///
/// ```
/// use widestring::utfstring::UtfStrInUtfstring;
///
/// let text = Utf16Str::from_slice(&[0xd83d, 0xde00, 0x20])?.repeat(rt.alloc(), 2)?;
/// assert!(rt; text.as_utfstr().eq_str("😀 😀 "));
/// ```
pub trait UtfStrInUtfstring<C: FaultUnit> {
    // The units of the view.
    ghost text: { Self → List C };

    /// Copies the view's text into a new string. Allocates once, or not at all if the text is empty.
    ///
    /// # Errors
    ///
    /// [`OutOfMemory`] if the allocation fails. It never fails if the text is empty.
    ///
    /// # Example
    ///
    /// ```
    /// use widestring::utfstring::UtfStrInUtfstring;
    ///
    /// let mut text = Utf16Str::from_slice(&[0x48, 0x69])?.to_utfstring(rt.alloc())?;
    /// text.push('!')?;
    /// assert!(rt; text.as_utfstr().eq_str("Hi!"));
    /// ```
    fn to_utfstring<A: Allocator>(self, alloc: A) -> Result<UtfString<C, A>, OutOfMemory>
        ensures units { IfOk result (λ s. s.units ≡ text self) }
        ensures succeeds { text self ≡ [] → IsOk result };

    /// Repeats the view's text `count` times in a new string.
    ///
    /// # Errors
    ///
    /// [`OutOfMemory`] if the allocation fails, or if the new length in units exceeds `usize::MAX`. It never fails if
    /// `count` is 0 or the text is empty.
    ///
    /// # Example
    ///
    /// ```
    /// use widestring::utfstring::UtfStrInUtfstring;
    ///
    /// let text = Utf16Str::from_slice(&[0xd83d, 0xde00])?;
    /// let twice = text.repeat(rt.alloc(), 2)?;
    /// assert!(rt; twice.as_utfstr().eq_str("😀😀"));
    /// ```
    fn repeat<A: Allocator>(self, alloc: A, count: usize) -> Result<UtfString<C, A>, OutOfMemory>
        ensures units { IfOk result (λ s. s.units ≡ repeat count (text self)) }
        ensures succeeds { count ≡ 0 → IsOk result }
        ensures empty { text self ≡ [] → IsOk result };

    /// Converts the text to lower case in a new string. Each character becomes its full lowercase mapping, up to three
    /// characters (Unicode Standard, section 3.13, rule R2), as [`char::to_lowercase`] returns it. Neither context nor
    /// language matters, so a capital sigma at the end of a word becomes U+03C3, as within a word.
    ///
    /// # Errors
    ///
    /// [`OutOfMemory`] if an allocation fails. It allocates first for as many units as the text has, and again only if
    /// the text grows beyond them. It never fails if the text is empty.
    ///
    /// # Example
    ///
    /// ```
    /// use widestring::utfstring::UtfStrInUtfstring;
    ///
    /// let title = Utf16String::from_str(rt.alloc(), "ЗАГОЛОВОК Σ")?;
    /// let text = title.as_utfstr().to_lowercase(rt.alloc())?;
    /// assert!(rt; text.as_utfstr().eq_str("заголовок σ"));
    /// ```
    fn to_lowercase<A: Allocator>(self, alloc: A) -> Result<UtfString<C, A>, OutOfMemory>
        ensures text { IfOk result (λ s. text_of C.form C.number s.units ≡ flat_map to_lowercase (text_of C.form C.number (text self))) }
        ensures empty { text self ≡ [] → IsOk result };

    /// Converts the text to upper case in a new string. Each character becomes its full uppercase mapping, up to three
    /// characters (Unicode Standard, section 3.13, rule R1), as [`char::to_uppercase`] returns it. Neither context nor
    /// language matters.
    ///
    /// # Errors
    ///
    /// [`OutOfMemory`] if an allocation fails. It allocates first for as many units as the text has, and again only if
    /// the text grows beyond them. It never fails if the text is empty.
    ///
    /// # Example
    ///
    /// ```
    /// use widestring::utfstring::UtfStrInUtfstring;
    ///
    /// let street = Utf16String::from_str(rt.alloc(), "Straße")?;
    /// let text = street.as_utfstr().to_uppercase(rt.alloc())?;
    /// assert!(rt; text.as_utfstr().eq_str("STRASSE"));
    /// ```
    fn to_uppercase<A: Allocator>(self, alloc: A) -> Result<UtfString<C, A>, OutOfMemory>
        ensures text { IfOk result (λ s. text_of C.form C.number s.units ≡ flat_map to_uppercase (text_of C.form C.number (text self))) }
        ensures empty { text self ≡ [] → IsOk result };

    /// Copies the view's text into a new string, and writes each upper-case ASCII letter in lower case. Allocates once,
    /// or not at all if the text is empty.
    ///
    /// # Errors
    ///
    /// [`OutOfMemory`] if the allocation fails. It never fails if the text is empty.
    ///
    /// # Example
    ///
    /// ```
    /// use widestring::utfstring::UtfStrInUtfstring;
    ///
    /// let text = Utf16String::from_str(rt.alloc(), "C:\\Temp")?;
    /// let text = text.as_utfstr().to_ascii_lowercase(rt.alloc())?;
    /// assert!(rt; text.as_utfstr().eq_str("c:\\temp"));
    /// ```
    fn to_ascii_lowercase<A: Allocator>(self, alloc: A) -> Result<UtfString<C, A>, OutOfMemory>
        ensures text { IfOk result (λ s. text_of C.form C.number s.units ≡ map to_ascii_lowercase (text_of C.form C.number (text self))) }
        ensures units { IfOk result (λ s. map C.number s.units ≡ map to_ascii_lowercase (map C.number (text self))) }
        ensures succeeds { text self ≡ [] → IsOk result };

    /// Copies the view's text into a new string, and writes each lower-case ASCII letter in upper case. Allocates once,
    /// or not at all if the text is empty.
    ///
    /// # Errors
    ///
    /// [`OutOfMemory`] if the allocation fails. It never fails if the text is empty.
    ///
    /// # Example
    ///
    /// ```
    /// use widestring::utfstring::UtfStrInUtfstring;
    ///
    /// let text = Utf16String::from_str(rt.alloc(), "Größe")?;
    /// let text = text.as_utfstr().to_ascii_uppercase(rt.alloc())?;
    /// assert!(rt; text.as_utfstr().eq_str("GRößE"));
    /// ```
    fn to_ascii_uppercase<A: Allocator>(self, alloc: A) -> Result<UtfString<C, A>, OutOfMemory>
        ensures text { IfOk result (λ s. text_of C.form C.number s.units ≡ map to_ascii_uppercase (text_of C.form C.number (text self))) }
        ensures units { IfOk result (λ s. map C.number s.units ≡ map to_ascii_uppercase (map C.number (text self))) }
        ensures succeeds { text self ≡ [] → IsOk result };
}

impl<C: FaultUnit> UtfStrInUtfstring<C> for UtfStr<'_, C> {
    ghost use Rattle.wide_utfstr.specs.View.{units_seen};

    ghost text = { units_seen };

    fn to_utfstring<A: Allocator>(self, alloc: A) -> Result<UtfString<C, A>, OutOfMemory> {
        let string = self.as_ustr().to_ustring(alloc)?;
        Ok(UtfString::from_ustring_unchecked(string))
    }

    fn repeat<A: Allocator>(self, alloc: A, count: usize) -> Result<UtfString<C, A>, OutOfMemory> {
        let string = self.as_ustr().repeat(alloc, count)?;
        Ok(UtfString::from_ustring_unchecked(string))
    }

    fn to_lowercase<A: Allocator>(self, alloc: A) -> Result<UtfString<C, A>, OutOfMemory> {
        in_case(self, Case::Lower, alloc)
    }

    fn to_uppercase<A: Allocator>(self, alloc: A) -> Result<UtfString<C, A>, OutOfMemory> {
        in_case(self, Case::Upper, alloc)
    }

    fn to_ascii_lowercase<A: Allocator>(self, alloc: A) -> Result<UtfString<C, A>, OutOfMemory> {
        let mut string = self.to_utfstring(alloc)?;
        string.make_ascii_lowercase();
        Ok(string)
    }

    fn to_ascii_uppercase<A: Allocator>(self, alloc: A) -> Result<UtfString<C, A>, OutOfMemory> {
        let mut string = self.to_utfstring(alloc)?;
        string.make_ascii_uppercase();
        Ok(string)
    }
}
