//! Strings that are collected from the items of an iterator, or extended by them.
//!
//! The items are appended in order, each as a whole or not at all. If the allocation for an item fails, the string
//! holds the items before it; that item and the rest of the iterator are dropped. Memory is reserved item by item.
ghost use Rattle.std.specs.Prelude.{◌≤◌, map, string_bytes};
ghost use Rattle.std.specs.Iterator.{IsFiniteIterable};
ghost use Rattle.std.specs.Str.{chars};
ghost use Rattle.wide_forms.specs.EncodingForm.{code_units, encode};
ghost use Rattle.wide_ustring.specs.Extended.{Adds, Collects, numbered};
ghost use Rattle.wide_utfstr.specs.View.{units_seen};

use crate::UtfString;
use std::alloc::Allocator;
use wide_error::OutOfMemory;
use wide_ustring::extend::{Appendable, Growing, Whole, extend, from_iter};
use wide_utferror::FaultUnit;
use wide_utfstr::UtfStr;

impl<C: FaultUnit, A: Allocator> Growing for UtfString<C, A> {
    ghost seen = { numbered C.number };
}

impl<C: FaultUnit, A: Allocator> Appendable<UtfString<C, A>, Whole> for char {
    ghost text = { code_units C.form };

    fn push_to(self, string: &mut UtfString<C, A>) -> Result<(), OutOfMemory> {
        string.push(self)
    }
}

impl<C: FaultUnit, A: Allocator> Appendable<UtfString<C, A>, Whole> for &char {
    ghost text = { λ c. code_units C.form c.now };

    fn push_to(self, string: &mut UtfString<C, A>) -> Result<(), OutOfMemory> {
        string.push(*self)
    }
}

impl<C: FaultUnit, A: Allocator> Appendable<UtfString<C, A>, Whole> for &str {
    ghost text = { λ t. encode C.form (chars t.now) };

    fn push_to(self, string: &mut UtfString<C, A>) -> Result<(), OutOfMemory> {
        string.push_str(self)
    }
}

impl<C: FaultUnit, A: Allocator, B: Allocator> Appendable<UtfString<C, A>, Whole> for String<B> {
    ghost text = { λ s. encode C.form (chars (string_bytes s)) };

    fn push_to(self, string: &mut UtfString<C, A>) -> Result<(), OutOfMemory> {
        string.push_str(self.as_str())
    }
}

impl<C: FaultUnit, A: Allocator> Appendable<UtfString<C, A>, Whole> for UtfStr<'_, C> {
    ghost text = { λ s. map C.number (units_seen s) };

    fn push_to(self, string: &mut UtfString<C, A>) -> Result<(), OutOfMemory> {
        string.push_utfstr(self)
    }
}

impl<C: FaultUnit, A: Allocator, B: Allocator> Appendable<UtfString<C, A>, Whole>
    for UtfString<C, B> {
    ghost text = { λ s. map C.number s.units };

    fn push_to(self, string: &mut UtfString<C, A>) -> Result<(), OutOfMemory> {
        string.push_utfstr(self.as_utfstr())
    }
}

impl<C: FaultUnit, A: Allocator> UtfString<C, A> {
    /// Appends the characters of an iterator.
    ///
    /// # Requires
    ///
    /// The iterator can be advanced, and it ends.
    ///
    /// # Errors
    ///
    /// [`OutOfMemory`] if the allocation for an item fails. The string then holds the items before it.
    ///
    /// # Example
    ///
    /// ```
    /// let mut text = Utf16String::from_str(rt.alloc(), "Hi")?;
    /// text.extend_chars(['é', '😀'])?;
    /// assert!(rt; text.as_slice() == [0x48, 0x69, 0xe9, 0xd83d, 0xde00].as_slice());
    /// ```
    pub fn extend_chars<U: IntoIterator<Item = char>>(
        &mut self,
        items: U,
    ) -> Result<(), OutOfMemory>
        requires { IsFiniteIterable U.into_iter_gives U.IntoIter.can_next U.IntoIter.remaining items }
        ensures added { Adds result U.into_iter_gives U.IntoIter.next_gives (code_units C.form) items (numbered C.number) self.old self.new }
        ensures capacity { self.old.capacity ≤ self.new.capacity }
    {
        extend(self, items)
    }

    /// Appends the characters that an iterator's items refer to.
    ///
    /// # Requires
    ///
    /// The iterator can be advanced, and it ends.
    ///
    /// # Errors
    ///
    /// [`OutOfMemory`] if the allocation for an item fails. The string then holds the items before it.
    pub fn extend_char_refs<'a, U: IntoIterator<Item = &'a char>>(
        &mut self,
        items: U,
    ) -> Result<(), OutOfMemory>
        requires { IsFiniteIterable U.into_iter_gives U.IntoIter.can_next U.IntoIter.remaining items }
        ensures added { Adds result U.into_iter_gives U.IntoIter.next_gives (λ c. code_units C.form c.now) items (numbered C.number) self.old self.new }
        ensures capacity { self.old.capacity ≤ self.new.capacity }
    {
        extend(self, items)
    }

    /// Appends the texts of an iterator over `&str`.
    ///
    /// # Requires
    ///
    /// The iterator can be advanced, and it ends.
    ///
    /// # Errors
    ///
    /// [`OutOfMemory`] if the allocation for an item fails. The string then holds the items before it.
    ///
    /// # Example
    ///
    /// ```
    /// let mut path = Utf16String::from_str(rt.alloc(), "C:")?;
    /// path.extend_strs(["\\temp", "\\é"])?;
    /// assert!(rt; path.as_utfstr().eq_str("C:\\temp\\é"));
    /// ```
    pub fn extend_strs<'a, U: IntoIterator<Item = &'a str>>(
        &mut self,
        items: U,
    ) -> Result<(), OutOfMemory>
        requires { IsFiniteIterable U.into_iter_gives U.IntoIter.can_next U.IntoIter.remaining items }
        ensures added { Adds result U.into_iter_gives U.IntoIter.next_gives (λ t. encode C.form (chars t.now)) items (numbered C.number) self.old self.new }
        ensures capacity { self.old.capacity ≤ self.new.capacity }
    {
        extend(self, items)
    }

    /// Appends the texts of an iterator over `String`.
    ///
    /// # Requires
    ///
    /// The iterator can be advanced, and it ends.
    ///
    /// # Errors
    ///
    /// [`OutOfMemory`] if the allocation for an item fails. The string then holds the items before it.
    pub fn extend_strings<B: Allocator, U: IntoIterator<Item = String<B>>>(
        &mut self,
        items: U,
    ) -> Result<(), OutOfMemory>
        requires { IsFiniteIterable U.into_iter_gives U.IntoIter.can_next U.IntoIter.remaining items }
        ensures added { Adds result U.into_iter_gives U.IntoIter.next_gives (λ s. encode C.form (chars (string_bytes s))) items (numbered C.number) self.old self.new }
        ensures capacity { self.old.capacity ≤ self.new.capacity }
    {
        extend(self, items)
    }

    /// Appends the texts of an iterator over views.
    ///
    /// # Requires
    ///
    /// The iterator can be advanced, and it ends.
    ///
    /// # Errors
    ///
    /// [`OutOfMemory`] if the allocation for an item fails. The string then holds the items before it.
    ///
    /// # Example
    ///
    /// ```
    /// let row = Utf16Str::from_slice(&[0xe9, 0x3b, 0xd83d, 0xde00, 0x3b])?;
    /// let mut text = Utf16String::from_str(rt.alloc(), "Hi")?;
    /// text.extend_utfstrs(row.split_char(';'))?;
    /// assert!(rt; text.as_utfstr().eq_str("Hié😀"));
    /// ```
    pub fn extend_utfstrs<'a, U: IntoIterator<Item = UtfStr<'a, C>>>(
        &mut self,
        items: U,
    ) -> Result<(), OutOfMemory>
    where
        C: 'a,
        requires { IsFiniteIterable U.into_iter_gives U.IntoIter.can_next U.IntoIter.remaining items }
        ensures added { Adds result U.into_iter_gives U.IntoIter.next_gives (λ s. map C.number (units_seen s)) items (numbered C.number) self.old self.new }
        ensures capacity { self.old.capacity ≤ self.new.capacity }
    {
        extend(self, items)
    }

    /// Appends the texts of an iterator over owned strings.
    ///
    /// # Requires
    ///
    /// The iterator can be advanced, and it ends.
    ///
    /// # Errors
    ///
    /// [`OutOfMemory`] if the allocation for an item fails. The string then holds the items before it.
    pub fn extend_utfstrings<B: Allocator, U: IntoIterator<Item = UtfString<C, B>>>(
        &mut self,
        items: U,
    ) -> Result<(), OutOfMemory>
        requires { IsFiniteIterable U.into_iter_gives U.IntoIter.can_next U.IntoIter.remaining items }
        ensures added { Adds result U.into_iter_gives U.IntoIter.next_gives (λ s. map C.number s.units) items (numbered C.number) self.old self.new }
        ensures capacity { self.old.capacity ≤ self.new.capacity }
    {
        extend(self, items)
    }
}

impl<C: FaultUnit, A: Allocator> UtfString<C, A> {
    /// Collects the characters of an iterator into a new string.
    ///
    /// # Requires
    ///
    /// The iterator can be advanced, and it ends.
    ///
    /// # Errors
    ///
    /// The allocation for an item failed. The error is the string of the items before it.
    ///
    /// # Example
    ///
    /// ```
    /// let text = Utf16Str::from_slice(&[0x48, 0xd83d, 0xde00])?;
    /// let wide = Utf32String::from_iter_chars(rt.alloc(), text.chars())?;
    /// assert!(rt; wide.as_slice() == [0x48, 0x1f600].as_slice());
    /// ```
    pub fn from_iter_chars<U: IntoIterator<Item = char>>(alloc: A, items: U) -> Result<Self, Self>
        requires { IsFiniteIterable U.into_iter_gives U.IntoIter.can_next U.IntoIter.remaining items }
        ensures { Collects result U.into_iter_gives U.IntoIter.next_gives (code_units C.form) items (numbered C.number) }
    {
        from_iter(UtfString::new(alloc), items)
    }

    /// Collects the characters that an iterator's items refer to into a new string.
    ///
    /// # Requires
    ///
    /// The iterator can be advanced, and it ends.
    ///
    /// # Errors
    ///
    /// The allocation for an item failed. The error is the string of the items before it.
    pub fn from_iter_char_refs<'a, U: IntoIterator<Item = &'a char>>(
        alloc: A,
        items: U,
    ) -> Result<Self, Self>
        requires { IsFiniteIterable U.into_iter_gives U.IntoIter.can_next U.IntoIter.remaining items }
        ensures { Collects result U.into_iter_gives U.IntoIter.next_gives (λ c. code_units C.form c.now) items (numbered C.number) }
    {
        from_iter(UtfString::new(alloc), items)
    }

    /// Concatenates the texts of an iterator over `&str` into a new string.
    ///
    /// # Requires
    ///
    /// The iterator can be advanced, and it ends.
    ///
    /// # Errors
    ///
    /// The allocation for an item failed. The error is the string of the items before it.
    ///
    /// # Example
    ///
    /// ```
    /// let words = ["é", "", "😀"];
    /// let text = Utf16String::from_iter_strs(rt.alloc(), words)?;
    /// assert!(rt; text.as_slice() == [0xe9, 0xd83d, 0xde00].as_slice());
    /// ```
    pub fn from_iter_strs<'a, U: IntoIterator<Item = &'a str>>(
        alloc: A,
        items: U,
    ) -> Result<Self, Self>
        requires { IsFiniteIterable U.into_iter_gives U.IntoIter.can_next U.IntoIter.remaining items }
        ensures { Collects result U.into_iter_gives U.IntoIter.next_gives (λ t. encode C.form (chars t.now)) items (numbered C.number) }
    {
        from_iter(UtfString::new(alloc), items)
    }

    /// Concatenates the texts of an iterator over `String` into a new string.
    ///
    /// # Requires
    ///
    /// The iterator can be advanced, and it ends.
    ///
    /// # Errors
    ///
    /// The allocation for an item failed. The error is the string of the items before it.
    pub fn from_iter_strings<B: Allocator, U: IntoIterator<Item = String<B>>>(
        alloc: A,
        items: U,
    ) -> Result<Self, Self>
        requires { IsFiniteIterable U.into_iter_gives U.IntoIter.can_next U.IntoIter.remaining items }
        ensures { Collects result U.into_iter_gives U.IntoIter.next_gives (λ s. encode C.form (chars (string_bytes s))) items (numbered C.number) }
    {
        from_iter(UtfString::new(alloc), items)
    }

    /// Concatenates the texts of an iterator over views into a new string.
    ///
    /// # Requires
    ///
    /// The iterator can be advanced, and it ends.
    ///
    /// # Errors
    ///
    /// The allocation for an item failed. The error is the string of the items before it.
    ///
    /// # Example
    ///
    /// ```
    /// let line = Utf16Str::from_slice(&[0x20, 0xe9, 0x3000, 0x9, 0xd83d, 0xde00])?;
    /// let words = line.split_whitespace();
    /// let text = Utf16String::from_iter_utfstrs(rt.alloc(), words)?;
    /// assert!(rt; text.as_utfstr().eq_str("é😀"));
    /// ```
    pub fn from_iter_utfstrs<'a, U: IntoIterator<Item = UtfStr<'a, C>>>(
        alloc: A,
        items: U,
    ) -> Result<Self, Self>
    where
        C: 'a,
        requires { IsFiniteIterable U.into_iter_gives U.IntoIter.can_next U.IntoIter.remaining items }
        ensures { Collects result U.into_iter_gives U.IntoIter.next_gives (λ s. map C.number (units_seen s)) items (numbered C.number) }
    {
        from_iter(UtfString::new(alloc), items)
    }

    /// Concatenates the texts of an iterator over owned strings into a new string.
    ///
    /// # Requires
    ///
    /// The iterator can be advanced, and it ends.
    ///
    /// # Errors
    ///
    /// The allocation for an item failed. The error is the string of the items before it.
    pub fn from_iter_utfstrings<B: Allocator, U: IntoIterator<Item = UtfString<C, B>>>(
        alloc: A,
        items: U,
    ) -> Result<Self, Self>
        requires { IsFiniteIterable U.into_iter_gives U.IntoIter.can_next U.IntoIter.remaining items }
        ensures { Collects result U.into_iter_gives U.IntoIter.next_gives (λ s. map C.number s.units) items (numbered C.number) }
    {
        from_iter(UtfString::new(alloc), items)
    }
}
