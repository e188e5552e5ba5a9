//! Errors of ill-formed units.

ghost use Rattle.std.specs.Prelude.{◌≡◌, ℕ, Option};
ghost use Rattle.wide_utferror.specs.UtfError.{index_of, item_of, unit_of, vec_of};

use std::alloc::{Allocator, Global};
use std::error::Error;
use std::fmt;
use wide_error::{DecodeUtf16Error, DecodeUtf32Error};
use wide_unit::{FirstFault, Unit};

/// A unit for which a decoder can report a fault: `u16` as a [`DecodeUtf16Error`], `u32` as a [`DecodeUtf32Error`].
///
/// The Rust crate has no such trait.
///
/// # Example
///
/// ```
/// use widestring::error::FaultUnit;
///
/// assert!(rt; 0xd83du16.fault().unpaired_surrogate() == 0xd83d);
/// assert!(rt; 0x11_0000u32.fault().invalid_code_point() == 0x11_0000);
/// ```
pub trait FaultUnit: Unit {
    /// The type of the fault.
    type Fault: Copy;

    // The number of the unit that a fault holds.
    ghost reported: { Self.Fault → ℕ };

    /// Returns the fault for this unit.
    fn fault(self) -> Self::Fault
        ensures { reported result ≡ Self.number self };
}

impl FaultUnit for u16 {
    type Fault = DecodeUtf16Error;

    ghost reported = { λ unit. unit };

    #[inline]
    fn fault(self) -> DecodeUtf16Error {
        DecodeUtf16Error::new(self)
    }
}

impl FaultUnit for u32 {
    type Fault = DecodeUtf32Error;

    ghost reported = { λ code. code };

    #[inline]
    fn fault(self) -> DecodeUtf32Error {
        DecodeUtf32Error::new(self)
    }
}

/// The error of ill-formed units (Unicode Standard, D84), with their first fault.
///
/// The error of a constructor of an owned type holds the vector that was passed in, or its copy. The error for a view
/// holds none.
///
/// # Example
///
/// ```
/// let units = [0x48, 0x69, 0xd83d].to_vec(rt.alloc())?;
/// let fault = Utf16String::from_vec(units).err();
/// let units = fault.and_then(|fault| fault.into_vec());
/// assert!(rt; units.map(|units| units.len()) == Some(3));
/// ```
#[derive(Drop)]
pub struct UtfError<C, A: Allocator = Global> {
    index: usize,
    item: usize,
    unit: C,
    vec: Option<Vec<C, A>>,
}

/// The error of ill-formed UTF-16.
pub type Utf16Error<A = Global> = UtfError<u16, A>;

/// The error of ill-formed UTF-32.
pub type Utf32Error<A = Global> = UtfError<u32, A>;

impl<C: FaultUnit, A: Allocator> UtfError<C, A> {
    /// Creates the error for a first fault, with the vector to return.
    pub fn new(fault: FirstFault<C>, vec: Option<Vec<C, A>>) -> Self
        ensures index { index_of result ≡ fault.index }
        ensures item { item_of result ≡ fault.item }
        ensures unit { unit_of result ≡ fault.unit }
        ensures vec { vec_of result ≡ vec }
    {
        UtfError {
            index: fault.index,
            item: fault.item,
            unit: fault.unit,
            vec,
        }
    }

    /// Returns the index of the first fault: the number of units before it.
    ///
    /// # Example
    ///
    /// ```
    /// let fault = Utf16Str::from_slice(&[0x48, 0xd83d, 0xde00, 0xd83d]).err();
    /// assert!(rt; fault.map(|fault| fault.index()) == Some(3));
    /// ```
    pub fn index(&self) -> usize
        ensures { result ≡ index_of self.now }
    {
        self.index
    }

    /// Returns the item number of the first fault: the number of characters before it.
    ///
    /// # Example
    ///
    /// ```
    /// let fault = Utf16Str::from_slice(&[0x48, 0xd83d, 0xde00, 0xd83d]).err();
    /// assert!(rt; fault.map(|fault| fault.item()) == Some(2));
    /// ```
    pub fn item(&self) -> usize
        ensures { result ≡ item_of self.now }
    {
        self.item
    }

    /// Returns the first fault itself.
    ///
    /// # Example
    ///
    /// ```
    /// let fault = Utf16Str::from_slice(&[0x48, 0xdc00]).err();
    /// assert!(rt; fault.map(|fault| fault.cause()) == Some(DecodeUtf16Error::new(0xdc00)));
    /// ```
    pub fn cause(&self) -> C::Fault
        ensures { C.reported result ≡ C.number (unit_of self.now) }
    {
        self.unit.fault()
    }

    /// Returns the vector that was passed in, or the copy that was made of the units, or `None` if the call was for a
    /// view.
    ///
    /// # Example
    ///
    /// ```
    /// let units = [0xe9, 0xd83d].to_vec(rt.alloc())?;
    /// let Err(fault) = Utf16String::from_vec(units) else {
    ///     panic!(rt; "an unpaired surrogate is at index 1")
    /// };
    /// let units = fault.into_vec();
    /// assert!(rt; units.is_some_and(|units| units.as_slice() == [0xe9, 0xd83d].as_slice()));
    /// ```
    pub fn into_vec(self) -> Option<Vec<C, A>>
        ensures { result ≡ vec_of self }
    {
        self.vec
    }
}

impl<A: Allocator> fmt::Display for UtfError<u16, A> {
    ghost use Rattle.std.specs.Prelude.{Some};
    ghost use Rattle.wide_error.specs.Texts.{utf16_error_text};

    ghost output = { λ e. Some (utf16_error_text (index_of e) (item_of e) (unit_of e)) };

    fn fmt<W: fmt::Write>(&self, f: &mut fmt::Formatter<W>) -> fmt::Result {
        write!(
            f,
            "unpaired UTF-16 surrogate {:x} at index {} (item {})",
            self.unit, self.index, self.item
        )
    }
}

impl<A: Allocator> fmt::Display for UtfError<u32, A> {
    ghost use Rattle.std.specs.Prelude.{Some};
    ghost use Rattle.wide_error.specs.Texts.{utf32_error_text};

    ghost output = { λ e. Some (utf32_error_text (index_of e) (item_of e) (unit_of e)) };

    fn fmt<W: fmt::Write>(&self, f: &mut fmt::Formatter<W>) -> fmt::Result {
        write!(
            f,
            "invalid UTF-32 value {:x} at index {} (item {})",
            self.unit, self.index, self.item
        )
    }
}

impl<C: FaultUnit + fmt::Debug, A: Allocator> fmt::Debug for UtfError<C, A> {
    fn fmt<W: fmt::Write>(&self, f: &mut fmt::Formatter<W>) -> fmt::Result {
        write!(
            f,
            "UtfError {{ index: {}, item: {}, unit: {:?} }}",
            self.index, self.item, self.unit
        )
    }
}

impl<A: Allocator + Drop> Error for UtfError<u16, A> {}

impl<A: Allocator + Drop> Error for UtfError<u32, A> {}
