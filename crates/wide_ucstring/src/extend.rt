//! Strings of units that are collected from C strings, or extended by them, without their NULs.
//!
//! The items are appended in order, each as a whole or not at all. If the allocation for an item fails, the string
//! holds the items before it; that item and the rest of the iterator are dropped. Memory is reserved item by item.
ghost use Rattle.std.specs.Prelude.{◌≤◌, map};
ghost use Rattle.std.specs.Iterator.{IsFiniteIterable};
ghost use Rattle.wide_ustring.specs.Extended.{Adds, Collects};
ghost use Rattle.wide_ucstr.specs.CString.{contents};
ghost use Rattle.wide_ucstr.specs.View.{contents_seen};

use crate::UCString;
use std::alloc::Allocator;
use wide_error::OutOfMemory;
use wide_ucstr::UCStr;
use wide_ustring::UString;
use wide_ustring::extend::{Appendable, Growing, extend, from_iter};
use wide_utferror::FaultUnit;

/// The marker for the impls of `Appendable` for C strings, which append their contents, without their NULs, to a
/// string.
///
/// # Example
///
/// ```
/// use widestring::ustring::extend::Appendable;
///
/// let mut text = U16String::from_str(rt.alloc(), "Hi")?;
/// U16CStr::from_slice(&[0x21, 0])?.push_to(&mut text)?;
/// assert!(rt; text.as_slice() == [0x48, 0x69, 0x21].as_slice());
/// ```
pub struct OfCStrings;

impl<C: FaultUnit, A: Allocator> Appendable<UString<C, A>, OfCStrings> for UCStr<'_, C> {
    ghost text = { λ s. map C.number (contents_seen s) };

    fn push_to(self, string: &mut UString<C, A>) -> Result<(), OutOfMemory> {
        string.push(self.as_ustr())
    }
}

impl<C: FaultUnit, A: Allocator, B: Allocator> Appendable<UString<C, A>, OfCStrings>
    for UCString<C, B> {
    ghost text = { λ s. map C.number (contents s.units) };

    fn push_to(self, string: &mut UString<C, A>) -> Result<(), OutOfMemory> {
        string.push(self.as_ucstr().as_ustr())
    }
}

/// Calls of a string of units that take owned C strings. They are in a trait because the string's crate does not know C
/// strings.
///
/// # Example
///
/// ```
/// use widestring::ucstring::UStringInUcstring;
///
/// let mut path = U16String::from_str(rt.alloc(), "C:")?;
/// path.extend_ucstrings([U16CString::from_str(rt.alloc(), "\\temp")?])?;
/// assert!(rt; path.as_ustr().chars_lossy().eq("C:\\temp".chars()));
/// ```
pub trait UStringInUcstring<C: FaultUnit, A: Allocator>: Growing + Sized {
    /// Appends the contents of the C strings, without their NULs.
    ///
    /// # Requires
    ///
    /// The iterator can be advanced, and it ends.
    ///
    /// # Errors
    ///
    /// [`OutOfMemory`] if the allocation for an item fails. The string then holds the items before it.
    fn extend_ucstrings<B: Allocator, U: IntoIterator<Item = UCString<C, B>>>(
        &mut self,
        items: U,
    ) -> Result<(), OutOfMemory>
        requires { IsFiniteIterable U.into_iter_gives U.IntoIter.can_next U.IntoIter.remaining items }
        ensures added { Adds result U.into_iter_gives U.IntoIter.next_gives (λ s. map C.number (contents s.units)) items Self.seen self.old self.new }
        ensures capacity { (Self.seen self.old).capacity ≤ (Self.seen self.new).capacity };

    /// Concatenates the contents of the C strings, without their NULs, into a new string.
    ///
    /// # Requires
    ///
    /// The iterator can be advanced, and it ends.
    ///
    /// # Errors
    ///
    /// The allocation for an item failed. The error is the string of the items before it.
    fn from_iter_ucstrings<B: Allocator, U: IntoIterator<Item = UCString<C, B>>>(
        alloc: A,
        items: U,
    ) -> Result<Self, Self>
        requires { IsFiniteIterable U.into_iter_gives U.IntoIter.can_next U.IntoIter.remaining items }
        ensures { Collects result U.into_iter_gives U.IntoIter.next_gives (λ s. map C.number (contents s.units)) items Self.seen };
}

impl<C: FaultUnit, A: Allocator> UStringInUcstring<C, A> for UString<C, A> {
    fn extend_ucstrings<B: Allocator, U: IntoIterator<Item = UCString<C, B>>>(
        &mut self,
        items: U,
    ) -> Result<(), OutOfMemory> {
        extend(self, items)
    }

    fn from_iter_ucstrings<B: Allocator, U: IntoIterator<Item = UCString<C, B>>>(
        alloc: A,
        items: U,
    ) -> Result<Self, Self> {
        from_iter(UString::new(alloc), items)
    }
}

/// Calls of a string of units that take views of C strings. They are in a trait because the string's crate does not
/// know C strings. It is separate from [`UStringInUcstring`], and has the type of the iterator that yields the views as
/// a parameter.
///
/// # Example
///
/// ```
/// use widestring::ucstring::UStringOverUcstrs;
///
/// let mut text = U16String::new(rt.alloc());
/// let word = U16CStr::from_slice(&[0x48, 0x69, 0])?;
/// text.extend_ucstrs([word, word])?;
/// assert!(rt; text.as_slice() == [0x48, 0x69, 0x48, 0x69].as_slice());
/// ```
pub trait UStringOverUcstrs<
    'a,
    C: FaultUnit + 'a,
    A: Allocator,
    U: IntoIterator<Item = UCStr<'a, C>>,
>: Growing
    + Sized {
    /// Appends the contents of the C strings that are viewed, without their NULs.
    ///
    /// # Requires
    ///
    /// The iterator can be advanced, and it ends.
    ///
    /// # Errors
    ///
    /// [`OutOfMemory`] if the allocation for an item fails. The string then holds the items before it.
    fn extend_ucstrs(&mut self, items: U) -> Result<(), OutOfMemory>
        requires { IsFiniteIterable U.into_iter_gives U.IntoIter.can_next U.IntoIter.remaining items }
        ensures added { Adds result U.into_iter_gives U.IntoIter.next_gives (λ s. map C.number (contents_seen s)) items Self.seen self.old self.new }
        ensures capacity { (Self.seen self.old).capacity ≤ (Self.seen self.new).capacity };

    /// Concatenates the contents of the C strings that are viewed, without their NULs, into a new string.
    ///
    /// # Requires
    ///
    /// The iterator can be advanced, and it ends.
    ///
    /// # Errors
    ///
    /// The allocation for an item failed. The error is the string of the items before it.
    fn from_iter_ucstrs(alloc: A, items: U) -> Result<Self, Self>
        requires { IsFiniteIterable U.into_iter_gives U.IntoIter.can_next U.IntoIter.remaining items }
        ensures { Collects result U.into_iter_gives U.IntoIter.next_gives (λ s. map C.number (contents_seen s)) items Self.seen };
}

impl<'a, C: FaultUnit + 'a, A: Allocator, U: IntoIterator<Item = UCStr<'a, C>>> UStringOverUcstrs<
    'a,
    C,
    A,
    U,
> for UString<C, A> {
    fn extend_ucstrs(&mut self, items: U) -> Result<(), OutOfMemory> {
        extend(self, items)
    }

    fn from_iter_ucstrs(alloc: A, items: U) -> Result<Self, Self> {
        from_iter(UString::new(alloc), items)
    }
}
