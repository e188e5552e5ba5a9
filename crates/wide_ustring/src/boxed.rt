//! Units in an allocation of exactly their length, which does not grow.
ghost use Rattle.std.specs.Prelude.{◌≡◌, ◌<◌, ◌≤◌, length, map, IsOk, IfOk, IfErr};
ghost use Rattle.std.specs.Iterator.{IsFiniteIterable};
ghost use Rattle.wide_forms.specs.Texts.{debug_output};
ghost use Rattle.wide_ustr.specs.View.{units_seen};
ghost use Rattle.wide_ustring.specs.Extended.{Adds, Collects, numbered};
ghost use Rattle.wide_ustring.specs.Units.{ustring_len};

use crate::extend::{Appendable, Whole, extend, from_iter};
use crate::ustring::UString;
use std::alloc::{Allocator, Global};
use std::fmt;
use std::marker::Model;
use wide_error::OutOfMemory;
use wide_ustr::UStr;
use wide_utferror::FaultUnit;

/// Units of any values in an allocation of exactly their length, which does not grow. It corresponds to `Box<U16Str>`
/// and `Box<U32Str>` in the Rust crate.
///
/// Compare two of them through their views, by [`BoxedUStr::as_ustr`]. `{:?}` prints the text between quotes, as
/// [`char::escape_debug`] escapes it; a unit that belongs to no character is printed as `\<H>`, where `H` is its number
/// in upper-case hexadecimal, without leading zeros.
///
/// # Example
///
/// ```
/// let string = U16String::from_str(rt.alloc(), "Hi")?;
/// let boxed = string.into_boxed_ustr()?;
/// assert!(rt; boxed.as_ustr().len() == 2);
/// assert!(rt; boxed.into_ustring().capacity() == 2);
/// ```
#[derive(Drop)]
pub struct BoxedUStr<C, A: Allocator = Global> {
    // A string without spare capacity. It is no `BoxedSlice` of std, which would retain its vector's spare capacity,
    // and whose contracts say nothing about it.
    string: UString<C, A>,
}

/// 16-bit units in an allocation of exactly their length.
pub type BoxedU16Str<A = Global> = BoxedUStr<u16, A>;

/// 32-bit units in an allocation of exactly their length.
pub type BoxedU32Str<A = Global> = BoxedUStr<u32, A>;

impl<C, A: Allocator> Model for BoxedUStr<C, A> {
    ghost use Rattle.std.specs.Prelude.{◌≡◌, List, length};
    ghost use Rattle.std.specs.Coded.{coded_list};

    ghost Value = { List C };

    ghost coded = { coded_list C.code };

    ghost view = { λ s. s.string.units };

    ghost invariant = { λ s. s.string.capacity ≡ length s.string.units };
}

impl<C: FaultUnit, A: Allocator> BoxedUStr<C, A> {
    /// Returns a view of the units, without allocating.
    pub fn as_ustr(&self) -> UStr<'_, C>
        ensures { units_seen result ≡ self.now }
    {
        self.string.as_ustr()
    }

    /// Returns the units as a string in the same allocation, whose capacity is its length. It does not allocate.
    pub fn into_ustring(self) -> UString<C, A>
        ensures units { result.units ≡ self }
        ensures capacity { result.capacity ≡ length self }
    {
        let BoxedUStr { string } = self;
        string
    }
}

impl<C: FaultUnit, A: Allocator> UString<C, A> {
    /// Returns the units in an allocation of exactly their length. It shrinks the string's allocation; it does not ask
    /// for memory if the string has no spare capacity.
    ///
    /// # Errors
    ///
    /// The string, with its units, if the allocation could not be shrunk to the length. It still has spare capacity,
    /// and no more capacity than before. That is all that std's contract says of a vector that shrinks.
    pub fn into_boxed_ustr(mut self) -> Result<BoxedUStr<C, A>, Self>
        ensures units { IfOk result (λ boxed. boxed ≡ self.units) }
        ensures failed { IfErr result (λ s. s.units ≡ self.units) }
        ensures space { IfErr result (λ s. s.capacity ≤ self.capacity) }
        ensures spare { IfErr result (λ s. ustring_len s < s.capacity) }
        ensures succeeds { self.capacity ≤ ustring_len self → IsOk result }
    {
        match self.shrink_to_fit() {
            Ok(()) if self.capacity() == self.len() => Ok(BoxedUStr { string: self }),
            _ => Err(self),
        }
    }

    /// Appends the units of an iterator over boxed units.
    ///
    /// # Requires
    ///
    /// The iterator can be advanced, and it ends.
    ///
    /// # Errors
    ///
    /// [`OutOfMemory`] if the allocation for an item fails. The string then holds the items before it.
    pub fn extend_boxed<B: Allocator, U: IntoIterator<Item = BoxedUStr<C, B>>>(
        &mut self,
        items: U,
    ) -> Result<(), OutOfMemory>
        requires { IsFiniteIterable U.into_iter_gives U.IntoIter.can_next U.IntoIter.remaining items }
        ensures added { Adds result U.into_iter_gives U.IntoIter.next_gives (map C.number) items (numbered C.number) self.old self.new }
        ensures capacity { self.old.capacity ≤ self.new.capacity }
    {
        extend(self, items)
    }

    /// Concatenates the units of an iterator over boxed units into a new string.
    ///
    /// # Requires
    ///
    /// The iterator can be advanced, and it ends.
    ///
    /// # Errors
    ///
    /// The allocation for an item failed. The error is the string of the items before it.
    pub fn from_iter_boxed<B: Allocator, U: IntoIterator<Item = BoxedUStr<C, B>>>(
        alloc: A,
        items: U,
    ) -> Result<Self, Self>
        requires { IsFiniteIterable U.into_iter_gives U.IntoIter.can_next U.IntoIter.remaining items }
        ensures { Collects result U.into_iter_gives U.IntoIter.next_gives (map C.number) items (numbered C.number) }
    {
        from_iter(UString::new(alloc), items)
    }
}

impl<C: FaultUnit, A: Allocator> fmt::Debug for BoxedUStr<C, A> {
    ghost debug_output = { λ s. debug_output C.form (map C.number s) };

    fn fmt<W: fmt::Write>(&self, f: &mut fmt::Formatter<W>) -> fmt::Result {
        fmt::Debug::fmt(&self.as_ustr(), f)
    }
}

impl<C: FaultUnit, A: Allocator, B: Allocator> Appendable<UString<C, A>, Whole>
    for BoxedUStr<C, B> {
    ghost text = { map C.number };

    fn push_to(self, string: &mut UString<C, A>) -> Result<(), OutOfMemory> {
        string.push(self.as_ustr())
    }
}
