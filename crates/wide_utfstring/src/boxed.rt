//! Well-formed text in an allocation of exactly its length.
ghost use Rattle.std.specs.Prelude.{◌≡◌, ◌<◌, ◌≤◌, length, map, IsOk, IfOk, IfErr};
ghost use Rattle.std.specs.Iterator.{IsFiniteIterable};
ghost use Rattle.wide_ustring.specs.Extended.{Adds, Collects, numbered};
ghost use Rattle.wide_ustring.specs.Units.{ustring_len};
ghost use Rattle.wide_utfstr.specs.View.{units_seen};

use crate::UtfString;
use std::alloc::{Allocator, Global};
use std::marker::Model;
use wide_error::OutOfMemory;
use wide_ustring::BoxedUStr;
use wide_ustring::extend::{Appendable, Whole, extend, from_iter};
use wide_utferror::FaultUnit;
use wide_utfstr::UtfStr;

/// Well-formed text (Unicode Standard, D85) in an allocation of exactly its length, which does not grow. It corresponds
/// to `Box<Utf16Str>` and `Box<Utf32Str>` in the Rust crate.
///
/// Compare two of them through their views, by [`BoxedUtfStr::as_utfstr`]. `{}` prints the characters. `{:?}` prints
/// them between quotes, as [`char::escape_debug`] escapes them.
///
/// # Example
///
/// ```
/// let text = Utf16String::from_str(rt.alloc(), "H😀")?;
/// let boxed = text.into_boxed_utfstr()?;
/// assert!(rt; boxed.as_utfstr().char_count() == 2);
/// assert!(rt; boxed.into_utfstring().capacity() == 3);
/// ```
#[derive(Drop)]
pub struct BoxedUtfStr<C: FaultUnit, A: Allocator = Global> {
    units: BoxedUStr<C, A>,
}

/// UTF-16 in an allocation of exactly its length.
pub type BoxedUtf16Str<A = Global> = BoxedUtfStr<u16, A>;

/// UTF-32 in an allocation of exactly its length.
pub type BoxedUtf32Str<A = Global> = BoxedUtfStr<u32, A>;

impl<C: FaultUnit, A: Allocator> Model for BoxedUtfStr<C, A> {
    ghost use Rattle.std.specs.Prelude.{List, map};
    ghost use Rattle.std.specs.Coded.{coded_list};
    ghost use Rattle.wide_forms.specs.Items.{IsWellFormed};

    ghost Value = { List C };

    ghost coded = { coded_list C.code };

    ghost view = { λ s. s.units };

    ghost invariant = { λ s. IsWellFormed C.form (map C.number s.units) };
}

impl<C: FaultUnit, A: Allocator> BoxedUtfStr<C, A> {
    /// Returns a view of the text, without allocating.
    pub fn as_utfstr(&self) -> UtfStr<'_, C>
        ensures { units_seen result ≡ self.now }
    {
        UtfStr::from_slice_unchecked(self.units.as_ustr().as_slice())
    }

    /// Returns the text as a string in the same allocation, whose capacity is its length. It does not allocate.
    pub fn into_utfstring(self) -> UtfString<C, A>
        ensures units { result.units ≡ self }
        ensures capacity { result.capacity ≡ length self }
    {
        let BoxedUtfStr { units } = self;
        UtfString {
            string: units.into_ustring(),
        }
    }
}

impl<C: FaultUnit, A: Allocator, B: Allocator> Appendable<UtfString<C, A>, Whole>
    for BoxedUtfStr<C, B> {
    ghost text = { λ s. map C.number s };

    fn push_to(self, string: &mut UtfString<C, A>) -> Result<(), OutOfMemory> {
        string.push_utfstr(self.as_utfstr())
    }
}

impl<C: FaultUnit, A: Allocator> UtfString<C, A> {
    /// Returns the text in an allocation of exactly its length. It shrinks the string's allocation; it does not ask for
    /// memory if the string has no spare capacity.
    ///
    /// # Errors
    ///
    /// The string, with its units, if the allocation could not be shrunk. It still has spare capacity, and no more
    /// capacity than before.
    pub fn into_boxed_utfstr(self) -> Result<BoxedUtfStr<C, A>, Self>
        ensures units { IfOk result (λ boxed. boxed ≡ self.units) }
        ensures failed { IfErr result (λ s. s.units ≡ self.units) }
        ensures space { IfErr result (λ s. s.capacity ≤ self.capacity) }
        ensures spare { IfErr result (λ s. ustring_len s < s.capacity) }
        ensures succeeds { self.capacity ≤ ustring_len self → IsOk result }
    {
        let UtfString { string } = self;
        match string.into_boxed_ustr() {
            Ok(units) => Ok(BoxedUtfStr { units }),
            Err(string) => Err(UtfString { string }),
        }
    }

    /// Appends the texts of an iterator over boxed texts.
    ///
    /// # Requires
    ///
    /// The iterator can be advanced, and it ends.
    ///
    /// # Errors
    ///
    /// [`OutOfMemory`] if the allocation for an item fails. The string then holds the items before it.
    pub fn extend_boxed<B: Allocator, U: IntoIterator<Item = BoxedUtfStr<C, B>>>(
        &mut self,
        items: U,
    ) -> Result<(), OutOfMemory>
        requires { IsFiniteIterable U.into_iter_gives U.IntoIter.can_next U.IntoIter.remaining items }
        ensures added { Adds result U.into_iter_gives U.IntoIter.next_gives (λ s. map C.number s) items (numbered C.number) self.old self.new }
        ensures capacity { self.old.capacity ≤ self.new.capacity }
    {
        extend(self, items)
    }

    /// Concatenates the texts of an iterator over boxed texts into a new string.
    ///
    /// # Requires
    ///
    /// The iterator can be advanced, and it ends.
    ///
    /// # Errors
    ///
    /// The allocation for an item failed. The error is the string of the items before it.
    pub fn from_iter_boxed<B: Allocator, U: IntoIterator<Item = BoxedUtfStr<C, B>>>(
        alloc: A,
        items: U,
    ) -> Result<Self, Self>
        requires { IsFiniteIterable U.into_iter_gives U.IntoIter.can_next U.IntoIter.remaining items }
        ensures { Collects result U.into_iter_gives U.IntoIter.next_gives (λ s. map C.number s) items (numbered C.number) }
    {
        from_iter(UtfString::new(alloc), items)
    }
}
