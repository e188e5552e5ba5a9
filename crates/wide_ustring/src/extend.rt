//! Strings that are collected from the items of an iterator, or extended by them.
//!
//! The items are appended in order, each as a whole or not at all. If the allocation for an item fails, the string
//! holds the items before it; that item and the rest of the iterator are dropped. Memory is reserved item by item.
ghost use Rattle.std.specs.Prelude.{◌≡◌, ◌<◌, ◌≤◌, ◌+◌, ◌++◌, ℕ, List, [], length, map, OnOk, OnErr, string_bytes};
ghost use Rattle.std.specs.Iterator.{IsFiniteIterable};
ghost use Rattle.std.specs.Str.{chars};
ghost use Rattle.wide_forms.specs.EncodingForm.{code_units, encode};
ghost use Rattle.wide_ustr.specs.View.{units_seen};
ghost use Rattle.wide_ustring.specs.Extended.{Adds, Collects, numbered};
ghost use Rattle.wide_ustring.specs.Units.{Units};

use crate::UString;
use std::alloc::Allocator;
use wide_error::OutOfMemory;
use wide_ustr::UStr;
use wide_utferror::FaultUnit;

/// A string that can grow at its end. The Rust crate has no such trait. Dependent crates implement it for their
/// strings.
///
/// # Example
///
/// ```
/// use widestring::ustring::extend::extend;
///
/// let mut path = Utf16String::from_str(rt.alloc(), "C:")?;
/// extend(&mut path, ["\\temp", "\\é"])?;
/// assert!(rt; path.as_utfstr().eq_str("C:\\temp\\é"));
/// ```
pub trait Growing {
    // The numbers of the string's units, and how many units it can hold without allocating.
    ghost seen: { Self → Units ℕ };
}

impl<C: FaultUnit, A: Allocator> Growing for UString<C, A> {
    ghost seen = { numbered C.number };
}

/// An item whose units can be appended to a string: a character, a text, a view or a string. The Rust crate has no such
/// trait. Dependent crates implement it for their types.
///
/// A crate that implements the trait for a view and a string of two other crates needs a type of its own in the impl,
/// by Rust's orphan rule, and passes it as the marker `M`. Any other impl passes [`Whole`].
///
/// # Example
///
/// ```
/// use widestring::ustring::extend::Appendable;
///
/// let mut string = U16String::new(rt.alloc());
/// '😀'.push_to(&mut string)?;
/// "!".push_to(&mut string)?;
/// assert!(rt; string.as_slice() == [0xd83d, 0xde00, 0x21].as_slice());
/// ```
pub trait Appendable<S: Growing, M> {
    // The numbers of the item's units.
    ghost text: { Self → List ℕ };

    /// Appends the item's units to a string.
    ///
    /// # Errors
    ///
    /// [`OutOfMemory`] if the allocation fails; the string is unchanged. It never fails if the spare capacity suffices.
    fn push_to(self, string: &mut S) -> Result<(), OutOfMemory>
        ensures ok { OnOk result ((S.seen string.new).units ≡ (S.seen string.old).units ++ text self) }
        ensures err { OnErr result (string.new ≡ string.old) }
        ensures full { OnErr result ((S.seen string.old).capacity < length (S.seen string.old).units + length (text self)) }
        ensures capacity { (S.seen string.old).capacity ≤ (S.seen string.new).capacity };
}

/// The marker for impls of [`Appendable`] in the crate of their string, which need no marker of their own.
///
/// # Example
///
/// ```
/// use widestring::ustring::extend::{Appendable, Whole};
///
/// let mut string = U16String::new(rt.alloc());
/// <char as Appendable<U16String, Whole>>::push_to('é', &mut string)?;
/// assert!(rt; string.as_slice() == [0xe9].as_slice());
/// ```
pub struct Whole;

impl<C: FaultUnit, A: Allocator> Appendable<UString<C, A>, Whole> for char {
    ghost text = { code_units C.form };

    fn push_to(self, string: &mut UString<C, A>) -> Result<(), OutOfMemory> {
        string.push_char(self)
    }
}

impl<C: FaultUnit, A: Allocator> Appendable<UString<C, A>, Whole> for &char {
    ghost text = { λ c. code_units C.form c.now };

    fn push_to(self, string: &mut UString<C, A>) -> Result<(), OutOfMemory> {
        string.push_char(*self)
    }
}

impl<C: FaultUnit, A: Allocator> Appendable<UString<C, A>, Whole> for UStr<'_, C> {
    ghost text = { λ s. map C.number (units_seen s) };

    fn push_to(self, string: &mut UString<C, A>) -> Result<(), OutOfMemory> {
        string.push(self)
    }
}

impl<C: FaultUnit, A: Allocator> Appendable<UString<C, A>, Whole> for &str {
    ghost text = { λ t. encode C.form (chars t.now) };

    fn push_to(self, string: &mut UString<C, A>) -> Result<(), OutOfMemory> {
        string.push_str(self)
    }
}

impl<C: FaultUnit, A: Allocator, B: Allocator> Appendable<UString<C, A>, Whole> for UString<C, B> {
    ghost text = { λ s. map C.number s.units };

    fn push_to(self, string: &mut UString<C, A>) -> Result<(), OutOfMemory> {
        string.push_slice(self.as_slice())
    }
}

impl<C: FaultUnit, A: Allocator, B: Allocator> Appendable<UString<C, A>, Whole> for String<B> {
    ghost text = { λ s. encode C.form (chars (string_bytes s)) };

    fn push_to(self, string: &mut UString<C, A>) -> Result<(), OutOfMemory> {
        string.push_str(self.as_str())
    }
}

/// Appends the units of an iterator's items to a string, one item after another. The `extend_*` calls of all strings
/// call this function.
///
/// # Requires
///
/// The iterator can be advanced, and it ends.
///
/// # Errors
///
/// [`OutOfMemory`] if the allocation for an item fails. The string then holds the items before it.
pub fn extend<S: Growing, M, P: Appendable<S, M>, U: IntoIterator<Item = P>>(
    string: &mut S,
    pieces: U,
) -> Result<(), OutOfMemory>
    requires { IsFiniteIterable U.into_iter_gives U.IntoIter.can_next U.IntoIter.remaining pieces }
    ensures added { Adds result U.into_iter_gives U.IntoIter.next_gives P.text pieces S.seen string.old string.new }
    ensures capacity { (S.seen string.old).capacity ≤ (S.seen string.new).capacity }
{
    for piece in pieces {
        piece.push_to(string)?;
    }
    Ok(())
}

/// Appends the units of an iterator's items to an empty string, and returns it. The `from_iter_*` calls of all strings
/// call this function.
///
/// # Requires
///
/// The string is empty. The iterator can be advanced, and it ends.
///
/// # Errors
///
/// The allocation for an item failed. The error is the string of the items before it.
pub fn from_iter<S: Growing, M, P: Appendable<S, M>, U: IntoIterator<Item = P>>(
    empty: S,
    pieces: U,
) -> Result<S, S>
    requires empty { (S.seen empty).units ≡ [] }
    requires finite { IsFiniteIterable U.into_iter_gives U.IntoIter.can_next U.IntoIter.remaining pieces }
    ensures { Collects result U.into_iter_gives U.IntoIter.next_gives P.text pieces S.seen }
{
    let mut string = empty;
    match extend(&mut string, pieces) {
        Ok(()) => Ok(string),
        Err(_error) => Err(string),
    }
}

impl<C: FaultUnit, A: Allocator> UString<C, A> {
    /// Appends the units of an iterator's characters.
    ///
    /// # Requires
    ///
    /// The iterator can be advanced, and it ends.
    ///
    /// # Errors
    ///
    /// [`OutOfMemory`] if the allocation for an item fails. The string then holds the items before it.
    pub fn extend_chars<U: IntoIterator<Item = char>>(
        &mut self,
        items: U,
    ) -> Result<(), OutOfMemory>
        requires { IsFiniteIterable U.into_iter_gives U.IntoIter.can_next U.IntoIter.remaining items }
        ensures added { Adds result U.into_iter_gives U.IntoIter.next_gives (code_units C.form) items (numbered C.number) self.old self.new }
        ensures capacity { self.old.capacity ≤ self.new.capacity }
    {
        extend(self, items)
    }

    /// Appends the units of the characters that an iterator's items refer to.
    ///
    /// # Requires
    ///
    /// The iterator can be advanced, and it ends.
    ///
    /// # Errors
    ///
    /// [`OutOfMemory`] if the allocation for an item fails. The string then holds the items before it.
    pub fn extend_char_refs<'a, U: IntoIterator<Item = &'a char>>(
        &mut self,
        items: U,
    ) -> Result<(), OutOfMemory>
        requires { IsFiniteIterable U.into_iter_gives U.IntoIter.can_next U.IntoIter.remaining items }
        ensures added { Adds result U.into_iter_gives U.IntoIter.next_gives (λ c. code_units C.form c.now) items (numbered C.number) self.old self.new }
        ensures capacity { self.old.capacity ≤ self.new.capacity }
    {
        extend(self, items)
    }

    /// Appends the units of an iterator over views.
    ///
    /// # Requires
    ///
    /// The iterator can be advanced, and it ends.
    ///
    /// # Errors
    ///
    /// [`OutOfMemory`] if the allocation for an item fails. The string then holds the items before it.
    ///
    /// # Example
    ///
    /// ```
    /// let path = U16Str::from_slice(&[0x5c, 0x61, 0x5c, 0xd83d]);
    /// let mut name = U16String::from_str(rt.alloc(), "-")?;
    /// name.extend_ustrs(path.split_char('\\'))?;
    /// assert!(rt; name.as_slice() == [0x2d, 0x61, 0xd83d].as_slice());
    /// ```
    pub fn extend_ustrs<'a, U: IntoIterator<Item = UStr<'a, C>>>(
        &mut self,
        items: U,
    ) -> Result<(), OutOfMemory>
    where
        C: 'a,
        requires { IsFiniteIterable U.into_iter_gives U.IntoIter.can_next U.IntoIter.remaining items }
        ensures added { Adds result U.into_iter_gives U.IntoIter.next_gives (λ s. map C.number (units_seen s)) items (numbered C.number) self.old self.new }
        ensures capacity { self.old.capacity ≤ self.new.capacity }
    {
        extend(self, items)
    }

    /// Appends the units of the texts of an iterator over `&str`.
    ///
    /// # Requires
    ///
    /// The iterator can be advanced, and it ends.
    ///
    /// # Errors
    ///
    /// [`OutOfMemory`] if the allocation for an item fails. The string then holds the items before it.
    pub fn extend_strs<'a, U: IntoIterator<Item = &'a str>>(
        &mut self,
        items: U,
    ) -> Result<(), OutOfMemory>
        requires { IsFiniteIterable U.into_iter_gives U.IntoIter.can_next U.IntoIter.remaining items }
        ensures added { Adds result U.into_iter_gives U.IntoIter.next_gives (λ t. encode C.form (chars t.now)) items (numbered C.number) self.old self.new }
        ensures capacity { self.old.capacity ≤ self.new.capacity }
    {
        extend(self, items)
    }

    /// Appends the units of an iterator over owned strings.
    ///
    /// # Requires
    ///
    /// The iterator can be advanced, and it ends.
    ///
    /// # Errors
    ///
    /// [`OutOfMemory`] if the allocation for an item fails. The string then holds the items before it.
    pub fn extend_ustrings<B: Allocator, U: IntoIterator<Item = UString<C, B>>>(
        &mut self,
        items: U,
    ) -> Result<(), OutOfMemory>
        requires { IsFiniteIterable U.into_iter_gives U.IntoIter.can_next U.IntoIter.remaining items }
        ensures added { Adds result U.into_iter_gives U.IntoIter.next_gives (λ s. map C.number s.units) items (numbered C.number) self.old self.new }
        ensures capacity { self.old.capacity ≤ self.new.capacity }
    {
        extend(self, items)
    }

    /// Appends the units of the texts of an iterator over `String`.
    ///
    /// # Requires
    ///
    /// The iterator can be advanced, and it ends.
    ///
    /// # Errors
    ///
    /// [`OutOfMemory`] if the allocation for an item fails. The string then holds the items before it.
    pub fn extend_strings<B: Allocator, U: IntoIterator<Item = String<B>>>(
        &mut self,
        items: U,
    ) -> Result<(), OutOfMemory>
        requires { IsFiniteIterable U.into_iter_gives U.IntoIter.can_next U.IntoIter.remaining items }
        ensures added { Adds result U.into_iter_gives U.IntoIter.next_gives (λ s. encode C.form (chars (string_bytes s))) items (numbered C.number) self.old self.new }
        ensures capacity { self.old.capacity ≤ self.new.capacity }
    {
        extend(self, items)
    }
}

impl<C: FaultUnit, A: Allocator> UString<C, A> {
    /// Collects the units of an iterator's characters into a new string.
    ///
    /// # Requires
    ///
    /// The iterator can be advanced, and it ends.
    ///
    /// # Errors
    ///
    /// The allocation for an item failed. The error is the string of the items before it.
    pub fn from_iter_chars<U: IntoIterator<Item = char>>(alloc: A, items: U) -> Result<Self, Self>
        requires { IsFiniteIterable U.into_iter_gives U.IntoIter.can_next U.IntoIter.remaining items }
        ensures { Collects result U.into_iter_gives U.IntoIter.next_gives (code_units C.form) items (numbered C.number) }
    {
        from_iter(UString::new(alloc), items)
    }

    /// Collects the units of the characters that an iterator's items refer to into a new string.
    ///
    /// # Requires
    ///
    /// The iterator can be advanced, and it ends.
    ///
    /// # Errors
    ///
    /// The allocation for an item failed. The error is the string of the items before it.
    pub fn from_iter_char_refs<'a, U: IntoIterator<Item = &'a char>>(
        alloc: A,
        items: U,
    ) -> Result<Self, Self>
        requires { IsFiniteIterable U.into_iter_gives U.IntoIter.can_next U.IntoIter.remaining items }
        ensures { Collects result U.into_iter_gives U.IntoIter.next_gives (λ c. code_units C.form c.now) items (numbered C.number) }
    {
        from_iter(UString::new(alloc), items)
    }

    /// Concatenates the units of an iterator over views into a new string.
    ///
    /// # Requires
    ///
    /// The iterator can be advanced, and it ends.
    ///
    /// # Errors
    ///
    /// The allocation for an item failed. The error is the string of the items before it.
    ///
    /// # Example
    ///
    /// ```
    /// let words = [
    ///     U16Str::from_slice(&[0x48, 0x69]),
    ///     U16Str::from_slice(&[0xd83d]),
    /// ];
    /// let joined = U16String::from_iter_ustrs(rt.alloc(), words)?;
    /// assert!(rt; joined.as_slice() == [0x48, 0x69, 0xd83d].as_slice());
    /// ```
    pub fn from_iter_ustrs<'a, U: IntoIterator<Item = UStr<'a, C>>>(
        alloc: A,
        items: U,
    ) -> Result<Self, Self>
    where
        C: 'a,
        requires { IsFiniteIterable U.into_iter_gives U.IntoIter.can_next U.IntoIter.remaining items }
        ensures { Collects result U.into_iter_gives U.IntoIter.next_gives (λ s. map C.number (units_seen s)) items (numbered C.number) }
    {
        from_iter(UString::new(alloc), items)
    }

    /// Concatenates the units of the texts of an iterator over `&str` into a new string.
    ///
    /// # Requires
    ///
    /// The iterator can be advanced, and it ends.
    ///
    /// # Errors
    ///
    /// The allocation for an item failed. The error is the string of the items before it.
    pub fn from_iter_strs<'a, U: IntoIterator<Item = &'a str>>(
        alloc: A,
        items: U,
    ) -> Result<Self, Self>
        requires { IsFiniteIterable U.into_iter_gives U.IntoIter.can_next U.IntoIter.remaining items }
        ensures { Collects result U.into_iter_gives U.IntoIter.next_gives (λ t. encode C.form (chars t.now)) items (numbered C.number) }
    {
        from_iter(UString::new(alloc), items)
    }

    /// Concatenates the units of an iterator over owned strings into a new string.
    ///
    /// # Requires
    ///
    /// The iterator can be advanced, and it ends.
    ///
    /// # Errors
    ///
    /// The allocation for an item failed. The error is the string of the items before it.
    pub fn from_iter_ustrings<B: Allocator, U: IntoIterator<Item = UString<C, B>>>(
        alloc: A,
        items: U,
    ) -> Result<Self, Self>
        requires { IsFiniteIterable U.into_iter_gives U.IntoIter.can_next U.IntoIter.remaining items }
        ensures { Collects result U.into_iter_gives U.IntoIter.next_gives (λ s. map C.number s.units) items (numbered C.number) }
    {
        from_iter(UString::new(alloc), items)
    }

    /// Concatenates the units of the texts of an iterator over `String` into a new string.
    ///
    /// # Requires
    ///
    /// The iterator can be advanced, and it ends.
    ///
    /// # Errors
    ///
    /// The allocation for an item failed. The error is the string of the items before it.
    pub fn from_iter_strings<B: Allocator, U: IntoIterator<Item = String<B>>>(
        alloc: A,
        items: U,
    ) -> Result<Self, Self>
        requires { IsFiniteIterable U.into_iter_gives U.IntoIter.can_next U.IntoIter.remaining items }
        ensures { Collects result U.into_iter_gives U.IntoIter.next_gives (λ s. encode C.form (chars (string_bytes s))) items (numbered C.number) }
    {
        from_iter(UString::new(alloc), items)
    }
}
