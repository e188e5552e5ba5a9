//! Owned strings that are made of WTF-8.
ghost use Rattle.std.specs.Prelude.{◌≡◌, ℕ, List, [], IsOk, IfOk, IfErr};
ghost use Rattle.wide_schemes.specs.Wtf8.{wtf8};
ghost use Rattle.wide_wtf8.specs.Faults.{IsErrorOf};

use crate::fault::FromWtf8Error;
use crate::reading::from_wtf8;
use std::alloc::Allocator;
use wide_ustring::U16String;

/// A call that makes an owned string of 16-bit units of WTF-8. It is in a trait because the string's crate does not
/// know WTF-8. The Rust crate has no such call.
///
/// # Example
///
/// ```
/// use widestring::wtf8::{FromWtf8, ToWtf8};
///
/// let name = U16Str::from_slice(&[0x43, 0x3a, 0xd800]);
/// let text = name.to_wtf8(rt.alloc())?;
/// let read = U16String::from_wtf8(rt.alloc(), text.as_slice())?;
/// assert!(rt; read.as_ustr() == name);
/// ```
pub trait FromWtf8<A: Allocator>: Sized {
    // The units of the string.
    ghost units_of: { Self → List ℕ };

    /// Makes a string of the units of a text in WTF-8. It allocates once, for just as many units as the text has, and
    /// not at all if the text is empty. It reads the bytes twice, the first time for the number of units.
    ///
    /// # Errors
    ///
    /// [`FromWtf8Error::Fault`] with the first fault if the bytes are not WTF-8, and [`FromWtf8Error::OutOfMemory`] if
    /// they are and the allocation fails. It never fails if there are no bytes.
    ///
    /// # Example
    ///
    /// ```
    /// use widestring::wtf8::FromWtf8;
    ///
    /// let string = U16String::from_wtf8(rt.alloc(), &[0x41, 0xed, 0xa0, 0xbd])?;
    /// assert!(rt; string.as_slice() == [0x41, 0xd83d].as_slice());
    /// ```
    fn from_wtf8(alloc: A, bytes: &[u8]) -> Result<Self, FromWtf8Error>
        ensures text { IfOk result (λ string. wtf8 (units_of string) ≡ bytes.now) }
        ensures error { IfErr result (λ error. IsErrorOf bytes.now error) }
        ensures succeeds { bytes.now ≡ [] → IsOk result };
}

impl<A: Allocator> FromWtf8<A> for U16String<A> {
    ghost units_of = { λ string. string.units };

    fn from_wtf8(alloc: A, bytes: &[u8]) -> Result<Self, FromWtf8Error> {
        from_wtf8(alloc, bytes)
    }
}
