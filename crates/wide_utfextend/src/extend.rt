//! Strings of units that are collected from views and strings of well-formed text, or extended by them.
//!
//! The items are appended in order, each as a whole or not at all. If the allocation for an item fails, the string
//! holds the items before it; that item and the rest of the iterator are dropped. Memory is reserved item by item.
ghost use Rattle.std.specs.Prelude.{◌≤◌, map};
ghost use Rattle.std.specs.Iterator.{IsFiniteIterable};
ghost use Rattle.wide_ustring.specs.Extended.{Adds, Collects};
ghost use Rattle.wide_utfstr.specs.View.{units_seen};

use std::alloc::Allocator;
use wide_error::OutOfMemory;
use wide_ustring::UString;
use wide_ustring::extend::{Appendable, Growing, extend, from_iter};
use wide_utferror::FaultUnit;
use wide_utfstr::UtfStr;
use wide_utfstring::UtfString;

/// The marker for the impls of `Appendable` for well-formed text, which append its units to a string of any units.
///
/// # Example
///
/// ```
/// use widestring::ustring::extend::Appendable;
/// use widestring::utfstring::OfText;
///
/// let mut string = U16String::new(rt.alloc());
/// let text = Utf16Str::from_slice(&[0x48, 0x69])?;
/// <Utf16Str as Appendable<U16String, OfText>>::push_to(text, &mut string)?;
/// assert!(rt; string.as_slice() == [0x48, 0x69].as_slice());
/// ```
pub struct OfText;

impl<C: FaultUnit, A: Allocator> Appendable<UString<C, A>, OfText> for UtfStr<'_, C> {
    ghost text = { λ s. map C.number (units_seen s) };

    fn push_to(self, string: &mut UString<C, A>) -> Result<(), OutOfMemory> {
        string.push(self.as_ustr())
    }
}

impl<C: FaultUnit, A: Allocator, B: Allocator> Appendable<UString<C, A>, OfText>
    for UtfString<C, B> {
    ghost text = { λ s. map C.number s.units };

    fn push_to(self, string: &mut UString<C, A>) -> Result<(), OutOfMemory> {
        string.push(self.as_ustr())
    }
}

/// Calls of a string of units that take views of well-formed text. They are in a trait because the string's crate does
/// not know such views. The trait has the type of the iterator that yields the views as a parameter.
///
/// # Example
///
/// ```
/// use widestring::utfstring::UStringOverUtfstrs;
///
/// let text = Utf16Str::from_slice(&[0x48, 0x69, 0xd, 0xa, 0xd83d, 0xde00])?;
/// let mut string = U16String::new(rt.alloc());
/// string.extend_utfstrs(text.lines())?;
/// assert!(rt; string.as_slice() == [0x48, 0x69, 0xd83d, 0xde00].as_slice());
/// ```
pub trait UStringOverUtfstrs<
    'a,
    C: FaultUnit + 'a,
    A: Allocator,
    U: IntoIterator<Item = UtfStr<'a, C>>,
>: Growing
    + Sized {
    /// Appends the units of the views.
    ///
    /// # Requires
    ///
    /// The iterator can be advanced, and it ends.
    ///
    /// # Errors
    ///
    /// [`OutOfMemory`] if the allocation for an item fails. The string then holds the items before it.
    fn extend_utfstrs(&mut self, items: U) -> Result<(), OutOfMemory>
        requires { IsFiniteIterable U.into_iter_gives U.IntoIter.can_next U.IntoIter.remaining items }
        ensures added { Adds result U.into_iter_gives U.IntoIter.next_gives (λ s. map C.number (units_seen s)) items Self.seen self.old self.new }
        ensures capacity { (Self.seen self.old).capacity ≤ (Self.seen self.new).capacity };

    /// Concatenates the units of the views into a new string.
    ///
    /// # Requires
    ///
    /// The iterator can be advanced, and it ends.
    ///
    /// # Errors
    ///
    /// The allocation for an item failed. The error is the string of the items before it.
    fn from_iter_utfstrs(alloc: A, items: U) -> Result<Self, Self>
        requires { IsFiniteIterable U.into_iter_gives U.IntoIter.can_next U.IntoIter.remaining items }
        ensures { Collects result U.into_iter_gives U.IntoIter.next_gives (λ s. map C.number (units_seen s)) items Self.seen };
}

/// Calls of a string of units that take strings of well-formed text. They are in a trait because the string's crate
/// does not know such strings. It is separate from [`UStringOverUtfstrs`], which takes views.
///
/// # Example
///
/// ```
/// use widestring::utfstring::UStringInUtfstring;
///
/// let text = Utf16String::from_str(rt.alloc(), "é😀")?;
/// let mut string = U16String::from_str(rt.alloc(), "Hi")?;
/// string.extend_utfstrings([text])?;
/// assert!(rt; string.as_slice() == [0x48, 0x69, 0xe9, 0xd83d, 0xde00].as_slice());
/// ```
pub trait UStringInUtfstring<C: FaultUnit, A: Allocator>: Growing + Sized {
    /// Appends the units of the strings.
    ///
    /// # Requires
    ///
    /// The iterator can be advanced, and it ends.
    ///
    /// # Errors
    ///
    /// [`OutOfMemory`] if the allocation for an item fails. The string then holds the items before it.
    fn extend_utfstrings<B: Allocator, U: IntoIterator<Item = UtfString<C, B>>>(
        &mut self,
        items: U,
    ) -> Result<(), OutOfMemory>
        requires { IsFiniteIterable U.into_iter_gives U.IntoIter.can_next U.IntoIter.remaining items }
        ensures added { Adds result U.into_iter_gives U.IntoIter.next_gives (λ s. map C.number s.units) items Self.seen self.old self.new }
        ensures capacity { (Self.seen self.old).capacity ≤ (Self.seen self.new).capacity };

    /// Concatenates the units of the strings into a new string.
    ///
    /// # Requires
    ///
    /// The iterator can be advanced, and it ends.
    ///
    /// # Errors
    ///
    /// The allocation for an item failed. The error is the string of the items before it.
    fn from_iter_utfstrings<B: Allocator, U: IntoIterator<Item = UtfString<C, B>>>(
        alloc: A,
        items: U,
    ) -> Result<Self, Self>
        requires { IsFiniteIterable U.into_iter_gives U.IntoIter.can_next U.IntoIter.remaining items }
        ensures { Collects result U.into_iter_gives U.IntoIter.next_gives (λ s. map C.number s.units) items Self.seen };
}

impl<'a, C: FaultUnit + 'a, A: Allocator, U: IntoIterator<Item = UtfStr<'a, C>>> UStringOverUtfstrs<
    'a,
    C,
    A,
    U,
> for UString<C, A> {
    fn extend_utfstrs(&mut self, items: U) -> Result<(), OutOfMemory> {
        extend(self, items)
    }

    fn from_iter_utfstrs(alloc: A, items: U) -> Result<Self, Self> {
        from_iter(UString::new(alloc), items)
    }
}

impl<C: FaultUnit, A: Allocator> UStringInUtfstring<C, A> for UString<C, A> {
    fn extend_utfstrings<B: Allocator, U: IntoIterator<Item = UtfString<C, B>>>(
        &mut self,
        items: U,
    ) -> Result<(), OutOfMemory> {
        extend(self, items)
    }

    fn from_iter_utfstrings<B: Allocator, U: IntoIterator<Item = UtfString<C, B>>>(
        alloc: A,
        items: U,
    ) -> Result<Self, Self> {
        from_iter(UString::new(alloc), items)
    }
}
