//! Units that are borrowed or owned.
ghost use Rattle.std.specs.Prelude.{◌≡◌, ◌≤◌, [], map, Ok, IfOk, IsOk};
ghost use Rattle.std.specs.Iterator.{IsFiniteIterable};
ghost use Rattle.wide_forms.specs.Texts.{debug_output};
ghost use Rattle.wide_ustr.specs.View.{units_seen};
ghost use Rattle.wide_ustring.specs.CowUnits.{cow_units, IfOwned};
ghost use Rattle.wide_ustring.specs.Extended.{Adds, Collects, numbered};

use crate::extend::{Appendable, Whole, extend, from_iter};
use crate::ustring::UString;
use crate::view::UStrInUstring;
use std::alloc::{Allocator, Global};
use std::fmt;
use wide_error::OutOfMemory;
use wide_ustr::UStr;
use wide_utferror::FaultUnit;

/// Units of any values that are borrowed, or owned if they had to be made. It corresponds to `Cow<'_, U16Str>` and
/// `Cow<'_, U32Str>` in the Rust crate.
///
/// Compare two of them through their views, by [`CowUStr::as_ustr`]. `{:?}` prints the text between quotes, as
/// [`char::escape_debug`] escapes it; a unit that belongs to no character is printed as `\<H>`, where `H` is its number
/// in upper-case hexadecimal, without leading zeros.
///
/// # Example
///
/// ```
/// let cow = CowU16Str::Borrowed(U16Str::from_slice(&[0x48, 0xd83d]));
/// let mut string = cow.into_owned(rt.alloc())?;
/// string.truncate(1);
/// assert!(rt; string.as_slice() == [0x48].as_slice());
/// ```
#[derive(Drop)]
pub enum CowUStr<'a, C, A: Allocator = Global> {
    /// A view of units that something else owns.
    Borrowed(UStr<'a, C>),
    /// A string that this value owns.
    Owned(UString<C, A>),
}

/// 16-bit units that are borrowed or owned.
pub type CowU16Str<'a, A = Global> = CowUStr<'a, u16, A>;

/// 32-bit units that are borrowed or owned.
pub type CowU32Str<'a, A = Global> = CowUStr<'a, u32, A>;

impl<'a, C: FaultUnit, A: Allocator> CowUStr<'a, C, A> {
    /// Returns a view of the units, without allocating.
    pub fn as_ustr(&self) -> UStr<'_, C>
        ensures { units_seen result ≡ cow_units self.now }
    {
        match self {
            CowUStr::Borrowed(view) => *view,
            CowUStr::Owned(string) => string.as_ustr(),
        }
    }

    /// Returns the units as an owned string. An owned string is returned as it is, with its capacity, without
    /// allocating. Borrowed units are copied: this allocates once, or not at all if there are none.
    ///
    /// # Errors
    ///
    /// [`OutOfMemory`] if the allocation for the copy fails.
    pub fn into_owned(self, alloc: A) -> Result<UString<C, A>, OutOfMemory>
        ensures units { IfOk result (λ s. s.units ≡ cow_units self.entry) }
        ensures owned { IfOwned self.entry (λ s. result ≡ Ok s) }
        ensures succeeds { cow_units self.entry ≡ [] → IsOk result }
    {
        match self {
            CowUStr::Borrowed(view) => view.to_ustring(alloc),
            CowUStr::Owned(string) => Ok(string),
        }
    }
}

impl<C: FaultUnit, A: Allocator> fmt::Debug for CowUStr<'_, C, A> {
    ghost debug_output = { λ s. debug_output C.form (map C.number (cow_units s)) };

    fn fmt<W: fmt::Write>(&self, f: &mut fmt::Formatter<W>) -> fmt::Result {
        fmt::Debug::fmt(&self.as_ustr(), f)
    }
}

impl<C: FaultUnit, A: Allocator, B: Allocator> Appendable<UString<C, A>, Whole>
    for CowUStr<'_, C, B> {
    ghost text = { λ s. map C.number (cow_units s) };

    fn push_to(self, string: &mut UString<C, A>) -> Result<(), OutOfMemory> {
        string.push(self.as_ustr())
    }
}

impl<C: FaultUnit, A: Allocator> UString<C, A> {
    /// Appends the units of an iterator's items, borrowed or owned.
    ///
    /// # Requires
    ///
    /// The iterator can be advanced, and it ends.
    ///
    /// # Errors
    ///
    /// [`OutOfMemory`] if the allocation for an item fails. The string then holds the items before it.
    pub fn extend_cows<'a, B: Allocator, U: IntoIterator<Item = CowUStr<'a, C, B>>>(
        &mut self,
        items: U,
    ) -> Result<(), OutOfMemory>
    where
        C: 'a,
        requires { IsFiniteIterable U.into_iter_gives U.IntoIter.can_next U.IntoIter.remaining items }
        ensures added { Adds result U.into_iter_gives U.IntoIter.next_gives (λ s. map C.number (cow_units s)) items (numbered C.number) self.old self.new }
        ensures capacity { self.old.capacity ≤ self.new.capacity }
    {
        extend(self, items)
    }

    /// Concatenates the units of an iterator's items, borrowed or owned, into a new string.
    ///
    /// # Requires
    ///
    /// The iterator can be advanced, and it ends.
    ///
    /// # Errors
    ///
    /// The allocation for an item failed. The error is the string of the items before it.
    pub fn from_iter_cows<'a, B: Allocator, U: IntoIterator<Item = CowUStr<'a, C, B>>>(
        alloc: A,
        items: U,
    ) -> Result<Self, Self>
    where
        C: 'a,
        requires { IsFiniteIterable U.into_iter_gives U.IntoIter.can_next U.IntoIter.remaining items }
        ensures { Collects result U.into_iter_gives U.IntoIter.next_gives (λ s. map C.number (cow_units s)) items (numbered C.number) }
    {
        from_iter(UString::new(alloc), items)
    }
}
