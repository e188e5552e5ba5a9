//! Well-formed text that is borrowed or owned.
ghost use Rattle.std.specs.Prelude.{◌≡◌, ◌≤◌, [], map, Ok, IfOk, IsOk};
ghost use Rattle.std.specs.Iterator.{IsFiniteIterable};
ghost use Rattle.wide_ustring.specs.Extended.{Adds, Collects, numbered};
ghost use Rattle.wide_utfstr.specs.View.{units_seen};
ghost use Rattle.wide_utfstring.specs.CowText.{cow_units};

use crate::UtfString;
use crate::view::UtfStrInUtfstring;
use std::alloc::{Allocator, Global};
use wide_error::OutOfMemory;
use wide_ustring::extend::{Appendable, Whole, extend, from_iter};
use wide_utferror::FaultUnit;
use wide_utfstr::UtfStr;

/// Well-formed text that is borrowed, or owned if it had to be made. It corresponds to `Cow<Utf16Str>` and
/// `Cow<Utf32Str>` in the Rust crate.
///
/// Compare two of them through their views, by [`CowUtfStr::as_utfstr`]. `{}` prints the characters. `{:?}` prints them
/// between quotes, as [`char::escape_debug`] escapes them.
///
/// # Example
///
/// ```
/// let cow = Utf16String::from_slice_lossy(rt.alloc(), &[0x48, 0x69, 0xdc00])?;
/// let mut text = cow.into_owned(rt.alloc())?;
/// text.push('!')?;
/// assert!(rt; text.as_utfstr().eq_str("Hi\u{fffd}!"));
/// ```
#[derive(Drop)]
pub enum CowUtfStr<'a, C: FaultUnit, A: Allocator = Global> {
    /// A view of units that something else owns.
    Borrowed(UtfStr<'a, C>),
    /// A string that this value owns.
    Owned(UtfString<C, A>),
}

/// UTF-16 that is borrowed or owned.
pub type CowUtf16Str<'a, A = Global> = CowUtfStr<'a, u16, A>;

/// UTF-32 that is borrowed or owned.
pub type CowUtf32Str<'a, A = Global> = CowUtfStr<'a, u32, A>;

impl<'a, C: FaultUnit, A: Allocator> CowUtfStr<'a, C, A> {
    ghost use Rattle.wide_utfstring.specs.CowText.{IfOwned};

    /// Returns a view of the text, without allocating.
    pub fn as_utfstr(&self) -> UtfStr<'_, C>
        ensures { units_seen result ≡ cow_units self.now }
    {
        match self {
            CowUtfStr::Borrowed(view) => *view,
            CowUtfStr::Owned(string) => string.as_utfstr(),
        }
    }

    /// Returns the text as an owned string. An owned string is returned as it is, with its capacity, without
    /// allocating. Borrowed text is copied: this allocates once, or not at all if the text is empty.
    ///
    /// # Errors
    ///
    /// [`OutOfMemory`] if the allocation for the copy fails.
    pub fn into_owned(self, alloc: A) -> Result<UtfString<C, A>, OutOfMemory>
        ensures units { IfOk result (λ s. s.units ≡ cow_units self.entry) }
        ensures owned { IfOwned self.entry (λ s. result ≡ Ok s) }
        ensures succeeds { cow_units self.entry ≡ [] → IsOk result }
    {
        match self {
            CowUtfStr::Borrowed(view) => view.to_utfstring(alloc),
            CowUtfStr::Owned(string) => Ok(string),
        }
    }
}

impl<C: FaultUnit, A: Allocator, B: Allocator> Appendable<UtfString<C, A>, Whole>
    for CowUtfStr<'_, C, B> {
    ghost text = { λ s. map C.number (cow_units s) };

    fn push_to(self, string: &mut UtfString<C, A>) -> Result<(), OutOfMemory> {
        string.push_utfstr(self.as_utfstr())
    }
}

impl<C: FaultUnit, A: Allocator> UtfString<C, A> {
    /// Appends the texts of an iterator's items.
    ///
    /// # Requires
    ///
    /// The iterator can be advanced, and it ends.
    ///
    /// # Errors
    ///
    /// [`OutOfMemory`] if the allocation for an item fails. The string then holds the items before it.
    pub fn extend_cows<'a, B: Allocator, U: IntoIterator<Item = CowUtfStr<'a, C, B>>>(
        &mut self,
        items: U,
    ) -> Result<(), OutOfMemory>
    where
        C: 'a,
        requires { IsFiniteIterable U.into_iter_gives U.IntoIter.can_next U.IntoIter.remaining items }
        ensures added { Adds result U.into_iter_gives U.IntoIter.next_gives (λ s. map C.number (cow_units s)) items (numbered C.number) self.old self.new }
        ensures capacity { self.old.capacity ≤ self.new.capacity }
    {
        extend(self, items)
    }

    /// Concatenates the texts of an iterator's items.
    ///
    /// # Requires
    ///
    /// The iterator can be advanced, and it ends.
    ///
    /// # Errors
    ///
    /// The allocation for an item failed. The error is the string of the items before it.
    pub fn from_iter_cows<'a, B: Allocator, U: IntoIterator<Item = CowUtfStr<'a, C, B>>>(
        alloc: A,
        items: U,
    ) -> Result<Self, Self>
    where
        C: 'a,
        requires { IsFiniteIterable U.into_iter_gives U.IntoIter.can_next U.IntoIter.remaining items }
        ensures { Collects result U.into_iter_gives U.IntoIter.next_gives (λ s. map C.number (cow_units s)) items (numbered C.number) }
    {
        from_iter(UtfString::new(alloc), items)
    }
}
