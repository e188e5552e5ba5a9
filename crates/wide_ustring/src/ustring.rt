//! Owned strings of units that may be ill-formed.
ghost use Rattle.std.specs.Prelude.{◌≡◌, ◌==◌, ◌+◌, ◌-◌, ◌<◌, ◌≤◌, ◌↔◌, ◌⊎◌, ◌++◌, ◌∷◌, [], min, max, length, map, take, drop, slice_range, IsOk, IfOk, OnOk, OnErr, IsNone, IfSome, vec_capacity};
ghost use Rattle.std.specs.Borrow.{sem};
ghost use Rattle.std.specs.Iterator.Runs.{YieldsInOrder, YieldsInReverse};
ghost use Rattle.std.specs.List.{splice};
ghost use Rattle.std.specs.List.Retain.{IsFiltered};
ghost use Rattle.std.specs.Str.{chars};
ghost use Rattle.std.specs.Range.Bound.{start_index, end_index};
ghost use Rattle.wide_forms.specs.EncodingForm.{code_units, encode};
ghost use Rattle.wide_forms.specs.Items.{chars as text_chars, IsWellFormed};
ghost use Rattle.wide_forms.specs.Utf8.{utf8};
ghost use Rattle.wide_forms.specs.Range.{IsWithin, IsInRange, part_of, part_replaced};
ghost use Rattle.wide_ustr.specs.View.{units_seen};
ghost use Rattle.wide_unit.specs.Unit.{item_of};
ghost use Rattle.wide_ustring.specs.Units.{ustring_len, HasSpaceFor};
ghost use Rattle.wide_ustring.specs.Drain.{DrainGives, DrainGivesBack, DrainStays, drain_rest, drain_leaves, drain_capacity, drain_lender};
ghost use Rattle.wide_ustring.specs.Lends.{lends_units};
ghost use Rattle.wide_ustring.specs.Taken.{item_code, TakesFirst, TakesLast};

use crate::space::{copy_char, cut, push_char, push_str, replace, replace_char, replace_str};
use crate::{Drain, UStrInUstring};
use std::alloc::{Allocator, Global};
use std::marker::Model;
use std::ops::RangeBounds;
use std::slice;
use wide_error::OutOfMemory;
use wide_unit::{Unit, split_first, split_last};
use wide_ustr::UStr;
use wide_utferror::FaultUnit;

/// An owned string of units of 16 or 32 bits, of any values: its text may be well formed or not.
///
/// Offsets and lengths are counted in units. A call that returns [`OutOfMemory`] leaves the string unchanged, except
/// those that extend it by an iterator: after these it has the items before the one whose allocation failed. If an
/// allocation fails,
/// `from_iter_*` return the string of the items before the failure, and `into_boxed_ustr` returns the string.
///
/// `{:?}` prints the text between quotes, as [`char::escape_debug`] escapes it. A unit that belongs to no character is
/// printed as `\<H>`, where `H` is its number in upper-case hexadecimal, without leading zeros.
///
/// # Example
///
/// ```
/// let mut name = U16String::from_str(rt.alloc(), "C:\\temp")?;
/// name.push_slice(&[0x5c, 0xd800])?;
/// assert!(rt; name.len() == 9);
/// assert!(rt; name.as_ustr().get(7..) == Some(U16Str::from_slice(&[0x5c, 0xd800])));
/// ```
#[derive(Drop)]
pub struct UString<C, A: Allocator = Global> {
    pub(crate) units: Vec<C, A>,
}

/// An owned string of 16-bit units.
pub type U16String<A = Global> = UString<u16, A>;

/// An owned string of 32-bit units.
pub type U32String<A = Global> = UString<u32, A>;

/// An owned string of wide units.
pub type WideString<A = Global> = U32String<A>;

impl<C, A: Allocator> Model for UString<C, A> {
    ghost use Rattle.std.specs.Prelude.{vec_capacity};
    ghost use Rattle.wide_ustring.specs.Units.{Units, units_code};

    ghost Value = { Units C };

    ghost coded = { units_code C.code };

    ghost view = { λ s. record { units = s.units.items; capacity = vec_capacity s.units } };
}

// Returns the number of a character, or of a unit that belongs to none.
fn code_of<C: Unit>(item: Result<char, C>) -> u32
    ensures { result ≡ item_code (item_of C.number item) }
{
    match item {
        Ok(c) => u32::from(c),
        Err(unit) => unit.code(),
    }
}

// Returns the character that begins at an offset, from which on the units are well formed, and the offset after it.
fn char_at<C: Unit>(units: &[C], at: usize) -> (char, usize)
    requires below { at < length units.now }
    requires well_formed { IsWellFormed C.form (map C.number (drop at units.now)) }
    ensures units { map C.number (slice_range units.now at result.1) ≡ code_units C.form result.0 }
    ensures first { text_chars C.form (map C.number (drop at units.now)) ≡ result.0 ∷ text_chars C.form (map C.number (drop result.1 units.now)) }
    ensures rest { IsWellFormed C.form (map C.number (drop result.1 units.now)) }
    ensures after { at < result.1 }
    ensures near { result.1 ≤ at + 2 }
    ensures within { result.1 ≤ length units.now }
{
    let Some((item, rest)) = split_first(&units[at..]) else {
        unreachable!()
    };
    let Ok(c) = item else { unreachable!() };
    (c, units.len() - rest.len())
}

impl<C: FaultUnit, A: Allocator> UString<C, A> {
    /// Creates an empty string, without allocating.
    pub fn new(alloc: A) -> Self
        ensures units { result.units ≡ [] }
        ensures capacity { result.capacity ≡ 0 }
    {
        UString {
            units: Vec::new(alloc),
        }
    }

    /// Creates an empty string with capacity for at least `capacity` units.
    ///
    /// # Errors
    ///
    /// [`OutOfMemory`] if the allocation fails. It never fails if `capacity` is 0.
    ///
    /// # Example
    ///
    /// ```
    /// let mut string = U16String::with_capacity(rt.alloc(), 4)?;
    /// assert!(rt; string.is_empty());
    /// assert!(rt; string.capacity() >= 4);
    /// assert!(rt; string.push_str("Hi😀").is_ok());
    /// ```
    pub fn with_capacity(alloc: A, capacity: usize) -> Result<Self, OutOfMemory>
        ensures units { IfOk result (λ s. s.units ≡ []) }
        ensures space { IfOk result (λ s. capacity ≤ s.capacity) }
        ensures succeeds { capacity ≡ 0 → IsOk result }
    {
        let mut units = Vec::new(alloc);
        units.reserve_exact(capacity)?;
        Ok(UString { units })
    }

    /// Makes a string of a vector's units, without copying or allocating.
    pub fn from_vec(units: Vec<C, A>) -> Self
        ensures units { result.units ≡ units.items }
        ensures capacity { result.capacity ≡ vec_capacity units }
    {
        UString { units }
    }

    /// Returns the vector of the units, without allocating.
    pub fn into_vec(self) -> Vec<C, A>
        ensures units { result.items ≡ self.units }
        ensures capacity { vec_capacity result ≡ self.capacity }
    {
        let UString { units } = self;
        units
    }

    /// Encodes the text of a `&str` as a new string.
    ///
    /// # Errors
    ///
    /// [`OutOfMemory`] if the allocation fails. It never fails if the text is empty.
    ///
    /// # Example
    ///
    /// ```
    /// let string = U16String::from_str(rt.alloc(), "é😀")?;
    /// assert!(rt; string.as_slice() == [0xe9, 0xd83d, 0xde00].as_slice());
    /// let string = U32String::from_str(rt.alloc(), "é😀")?;
    /// assert!(rt; string.as_slice() == [0xe9, 0x1f600].as_slice());
    /// ```
    pub fn from_str(alloc: A, text: &str) -> Result<Self, OutOfMemory>
        ensures units { IfOk result (λ s. map C.number s.units ≡ encode C.form (chars text.now)) }
        ensures read_back { IfOk result (λ s. utf8 (text_chars C.form (map C.number s.units)) ≡ text.now) }
        ensures succeeds { chars text.now ≡ [] → IsOk result }
    {
        let mut units = Vec::new(alloc);
        push_str(&mut units, text)?;
        Ok(UString { units })
    }

    /// Returns a view of the units.
    ///
    /// # Example
    ///
    /// ```
    /// let string = U16String::from_str(rt.alloc(), "Заголовок")?;
    /// assert!(rt; string.as_ustr().find_char('г') == Some(2));
    /// ```
    pub fn as_ustr(&self) -> UStr<'_, C>
        ensures { units_seen result ≡ self.now.units }
    {
        UStr::from_slice(self.units.as_slice())
    }

    /// Returns the units as a slice.
    pub fn as_slice(&self) -> &[C]
        ensures { result.now ≡ self.now.units }
    {
        self.units.as_slice()
    }

    /// Returns a reference to the vector of the units.
    pub fn as_vec(&self) -> &Vec<C, A>
        ensures units { result.now.items ≡ self.now.units }
        ensures capacity { vec_capacity result.now ≡ self.now.capacity }
    {
        &self.units
    }

    /// Returns the units as a mutable slice. Their number cannot change.
    pub fn as_mut_slice(&mut self) -> &mut [C]
        ensures* writes_back { sem 𝓛 (lends_units C.row A.row A.Allocator self.entry result) }
        ensures value { result.now ≡ self.old.units }
    {
        self.units.as_mut_slice()
    }

    /// Returns the length in units.
    pub fn len(&self) -> usize
        ensures { result ≡ ustring_len self.now }
    {
        self.units.len()
    }

    /// Returns whether the string is empty.
    pub fn is_empty(&self) -> bool
        ensures { result ≡ (ustring_len self.now == 0) }
    {
        self.units.is_empty()
    }

    /// Returns how many units the string can hold without allocating.
    ///
    /// # Example
    ///
    /// ```
    /// let mut string = U16String::new(rt.alloc());
    /// assert!(rt; string.capacity() == 0);
    /// string.push_str("Hi😀")?;
    /// assert!(rt; string.capacity() >= 4);
    /// ```
    pub fn capacity(&self) -> usize
        ensures value { result ≡ self.now.capacity }
        ensures holds { ustring_len self.now ≤ result }
    {
        self.units.capacity()
    }

    /// Reserves capacity for at least `more` additional units.
    ///
    /// # Errors
    ///
    /// [`OutOfMemory`] if the allocation fails; the string is unchanged. It never fails if the string already has this
    /// capacity.
    ///
    /// # Example
    ///
    /// ```
    /// let mut string = U16String::from_str(rt.alloc(), "Hi")?;
    /// string.reserve(8)?;
    /// assert!(rt; string.capacity() >= 10);
    /// assert!(rt; string.as_slice() == [0x48, 0x69].as_slice());
    /// ```
    pub fn reserve(&mut self, more: usize) -> Result<(), OutOfMemory>
        ensures units { self.new.units ≡ self.old.units }
        ensures space { OnOk result (HasSpaceFor self.new more) }
        ensures err { OnErr result (self.new ≡ self.old) }
        ensures succeeds { HasSpaceFor self.old more → IsOk result }
        ensures capacity { self.old.capacity ≤ self.new.capacity }
    {
        self.units.reserve(more)?;
        Ok(())
    }

    /// Reserves capacity for `more` additional units. If it allocates, the new capacity is exactly the length plus
    /// `more`, unlike [`UString::reserve`], which may reserve more.
    ///
    /// # Errors
    ///
    /// [`OutOfMemory`] if the allocation fails; the string is unchanged. It never fails if the string already has this
    /// capacity.
    pub fn reserve_exact(&mut self, more: usize) -> Result<(), OutOfMemory>
        ensures units { self.new.units ≡ self.old.units }
        ensures space { OnOk result (self.new.capacity ≡ max self.old.capacity (ustring_len self.old + more)) }
        ensures err { OnErr result (self.new ≡ self.old) }
        ensures succeeds { HasSpaceFor self.old more → IsOk result }
    {
        self.units.reserve_exact(more)?;
        Ok(())
    }

    /// Reduces the capacity, but to no less than the length and no less than `least` units.
    ///
    /// # Errors
    ///
    /// [`OutOfMemory`] if the capacity is greater than both and could not be reduced; the string is unchanged.
    pub fn shrink_to(&mut self, least: usize) -> Result<(), OutOfMemory>
        ensures units { self.new.units ≡ self.old.units }
        ensures ok { OnOk result ((self.new.capacity < self.old.capacity) ⊎ (self.old.capacity ≤ max least (ustring_len self.old))) }
        ensures keeps { min least self.old.capacity ≤ self.new.capacity }
        ensures smaller { self.new.capacity ≤ self.old.capacity }
        ensures err { OnErr result (self.new ≡ self.old) }
        ensures frees { self.old.units ≡ [] → least ≡ 0 → self.new.capacity ≡ 0 }
        ensures succeeds { self.old.capacity ≤ max least (ustring_len self.old) → IsOk result }
    {
        let before = self.units.capacity();
        self.units.shrink_to(least);
        if before == self.units.capacity() && before > least.max(self.units.len()) {
            return Err(OutOfMemory);
        }
        Ok(())
    }

    /// Reduces the capacity, but to no less than the length in units.
    ///
    /// # Errors
    ///
    /// [`OutOfMemory`] if the capacity is greater than the length and could not be reduced; the string is unchanged.
    ///
    /// # Example
    ///
    /// ```
    /// let mut string = U16String::with_capacity(rt.alloc(), 64)?;
    /// string.push_str("Hi")?;
    /// let before = string.capacity();
    /// string.shrink_to_fit()?;
    /// assert!(rt; string.capacity() < before);
    /// assert!(rt; string.as_slice() == [0x48, 0x69].as_slice());
    /// ```
    pub fn shrink_to_fit(&mut self) -> Result<(), OutOfMemory>
        ensures units { self.new.units ≡ self.old.units }
        ensures ok { OnOk result ((self.new.capacity < self.old.capacity) ⊎ (self.old.capacity ≤ ustring_len self.old)) }
        ensures smaller { self.new.capacity ≤ self.old.capacity }
        ensures err { OnErr result (self.new ≡ self.old) }
        ensures frees { self.old.units ≡ [] → self.new.capacity ≡ 0 }
        ensures succeeds { self.old.capacity ≤ ustring_len self.old → IsOk result }
    {
        self.shrink_to(0)
    }

    /// Appends the units of a slice.
    ///
    /// # Errors
    ///
    /// [`OutOfMemory`] if the allocation fails; the string is unchanged. It never fails if the spare capacity suffices.
    pub fn push_slice(&mut self, more: &[C]) -> Result<(), OutOfMemory>
        ensures ok { OnOk result (self.new.units ≡ self.old.units ++ more.now) }
        ensures err { OnErr result (self.new ≡ self.old) }
        ensures succeeds { HasSpaceFor self.old (length more.now) → IsOk result }
        ensures capacity { self.old.capacity ≤ self.new.capacity }
    {
        self.units.reserve(more.len())?;
        self.units.extend_from_slice(more)?;
        Ok(())
    }

    /// Appends the units of a view.
    ///
    /// # Errors
    ///
    /// [`OutOfMemory`] if the allocation fails; the string is unchanged. It never fails if the spare capacity suffices.
    ///
    /// # Example
    ///
    /// ```
    /// let mut string = U16String::from_str(rt.alloc(), "Hi")?;
    /// string.push(U16Str::from_slice(&[0x21, 0xd83d]))?;
    /// assert!(rt; string.as_slice() == [0x48, 0x69, 0x21, 0xd83d].as_slice());
    /// ```
    pub fn push(&mut self, more: UStr<'_, C>) -> Result<(), OutOfMemory>
        ensures ok { OnOk result (self.new.units ≡ self.old.units ++ units_seen more.entry) }
        ensures err { OnErr result (self.new ≡ self.old) }
        ensures succeeds { HasSpaceFor self.old (length (units_seen more.entry)) → IsOk result }
        ensures capacity { self.old.capacity ≤ self.new.capacity }
    {
        self.push_slice(more.as_slice())
    }

    /// Removes all units. The capacity is unchanged.
    ///
    /// # Example
    ///
    /// ```
    /// let mut string = U16String::from_str(rt.alloc(), "Hi")?;
    /// let capacity = string.capacity();
    /// string.clear();
    /// assert!(rt; string.is_empty());
    /// assert!(rt; string.capacity() == capacity);
    /// ```
    pub fn clear(&mut self)
        ensures units { self.new.units ≡ [] }
        ensures capacity { self.new.capacity ≡ self.old.capacity }
    {
        self.units.clear();
    }

    /// Shortens the string to `len` units. It does nothing if the string is not longer. The capacity is unchanged.
    ///
    /// # Example
    ///
    /// ```
    /// let mut string = U16String::from_str(rt.alloc(), "H😀")?;
    /// string.truncate(2);
    /// assert!(rt; string.as_slice() == [0x48, 0xd83d].as_slice());
    /// ```
    pub fn truncate(&mut self, len: usize)
        ensures units { self.new.units ≡ take len self.old.units }
        ensures capacity { self.new.capacity ≡ self.old.capacity }
    {
        self.units.truncate(len);
    }

    /// Inserts the units of a view at an offset in units.
    ///
    /// # Requires
    ///
    /// The offset is at most the length.
    ///
    /// # Errors
    ///
    /// [`OutOfMemory`] if the allocation fails; the string is unchanged. It never fails if the spare capacity suffices.
    pub fn insert_ustr(&mut self, at: usize, more: UStr<'_, C>) -> Result<(), OutOfMemory>
        requires { at ≤ ustring_len self.old }
        ensures ok { OnOk result (self.new.units ≡ splice self.old.units at at (units_seen more.entry)) }
        ensures err { OnErr result (self.new ≡ self.old) }
        ensures succeeds { HasSpaceFor self.old (length (units_seen more.entry)) → IsOk result }
        ensures capacity { self.old.capacity ≤ self.new.capacity }
    {
        replace(&mut self.units, at, at, more.as_slice())
    }

    /// Replaces the units of a range by the units of a view. The ends of the range are offsets in units.
    ///
    /// Each call moves all units after the range, so replacing each occurrence of a needle by this call in a loop is
    /// quadratic. `replace` of a view makes a new string, and [`UString::replace_with`] replaces by as many units in place.
    ///
    /// # Requires
    ///
    /// The range starts at or before its end and lies within the string. It is not an inclusive range that was iterated
    /// to its end.
    ///
    /// # Errors
    ///
    /// [`OutOfMemory`] if the allocation fails; the string is unchanged. It never fails if the new length is at most
    /// the capacity.
    pub fn replace_range<R: RangeBounds<usize>>(
        &mut self,
        range: R,
        with: UStr<'_, C>,
    ) -> Result<(), OutOfMemory>
        requires bounds { R.has_bounds range }
        requires in_range { IsInRange self.old.units (R.start_bound range) (R.end_bound range) }
        ensures ok { OnOk result (self.new.units ≡ part_replaced self.old.units (R.start_bound range) (R.end_bound range) (units_seen with.entry)) }
        ensures err { OnErr result (self.new ≡ self.old) }
        ensures succeeds { ustring_len self.old + length (units_seen with.entry) ≤ self.old.capacity + (end_index (R.end_bound range) (ustring_len self.old) - start_index (R.start_bound range)) → IsOk result }
        ensures capacity { self.old.capacity ≤ self.new.capacity }
    {
        let len = self.units.len();
        let offsets = slice::range(range, ..len);
        replace(&mut self.units, offsets.start, offsets.end, with.as_slice())
    }

    /// Retains the units for which the closure returns true. It calls the closure once for each unit, in order.
    ///
    /// # Requires
    ///
    /// The closure can be called any number of times.
    ///
    /// # Example
    ///
    /// ```
    /// let mut string = U16String::from_vec([0x48, 0, 0xd83d, 0].to_vec(rt.alloc())?);
    /// string.retain(|unit| unit != 0);
    /// assert!(rt; string.as_slice() == [0x48, 0xd83d].as_slice());
    /// ```
    pub fn retain<F: FnMut(C) -> bool>(&mut self, mut keep: F)
        requires { F.IsAlwaysCallable keep }
        ensures filtered { IsFiltered F.step keep self.old.units self.new.units }
        ensures capacity { self.new.capacity ≡ self.old.capacity }
    {
        let units = &mut self.units;
        let mut retained = 0;
        for at in 0..units.len() {
            let unit = units[at];
            // The unit is written in either case, since a branch by the closure's result is often predicted wrong. One
            // that is not retained is overwritten by the next unit or removed by `truncate`.
            units[retained] = unit;
            retained += usize::from(keep(unit));
        }
        units.truncate(retained);
    }

    /// Retains the characters for which the closure returns true, in well-formed units. It calls the closure once for
    /// each character, in order. The Rust crate has no such call. `UtfString::retain` calls it; [`UString::retain`]
    /// calls its closure for units.
    ///
    /// # Requires
    ///
    /// The closure can be called any number of times, and the units are well formed.
    pub fn retain_chars<F: FnMut(char) -> bool>(&mut self, mut keep: F)
        requires callable { F.IsAlwaysCallable keep }
        requires well_formed { IsWellFormed C.form (map C.number self.old.units) }
        ensures filtered { IsFiltered F.step keep (text_chars C.form (map C.number self.old.units)) (text_chars C.form (map C.number self.new.units)) }
        ensures well_formed { IsWellFormed C.form (map C.number self.new.units) }
        ensures capacity { self.new.capacity ≡ self.old.capacity }
    {
        let units = &mut self.units;
        let len = units.len();
        let mut retained = 0;
        let mut at = 0;
        while at < len {
            let first = units[at];
            if let Some(c) = first.as_scalar() {
                // The unit is written in either case, since a branch by the closure's result is often predicted wrong.
                // One that is not retained is overwritten by a later character or removed by `truncate`.
                units[retained] = first;
                retained += usize::from(keep(c));
                at += 1;
            } else {
                let (c, next) = char_at(units.as_slice(), at);
                let wanted = keep(c);
                if wanted {
                    copy_char(units, at, next, retained);
                    retained += next - at;
                }
                at = next;
            }
        }
        units.truncate(retained);
    }

    /// Removes the units of a range and returns an iterator over them, from both ends. The ends of the range are
    /// offsets in units. The units are removed when the [`Drain`] is dropped, all of them, even if they were not read
    /// to the end.
    ///
    /// # Requires
    ///
    /// The range starts at or before its end and lies within the string. It is not an inclusive range that was iterated
    /// to its end.
    pub fn drain<R: RangeBounds<usize>>(&mut self, range: R) -> Drain<'_, C, A>
        requires bounds { R.has_bounds range }
        requires in_range { IsInRange self.old.units (R.start_bound range) (R.end_bound range) }
        ensures rest { drain_rest result ≡ part_of self.old.units (R.start_bound range) (R.end_bound range) }
        ensures runs { YieldsInOrder (DrainGives {C = C} {A = A}) drain_rest }
        ensures runs_back { YieldsInReverse (DrainGivesBack {C = C} {A = A}) drain_rest }
        ensures lender { drain_lender result ≡ self.entry.ghost_name }
        ensures leaves { drain_leaves result ≡ part_replaced self.old.units (R.start_bound range) (R.end_bound range) [] }
        ensures capacity { drain_capacity result ≡ self.old.capacity }
        ensures stays { DrainStays result }
    {
        let len = self.units.len();
        let offsets = slice::range(range, ..len);
        Drain {
            string: self,
            start: offsets.start,
            front: offsets.start,
            back: offsets.end,
            end: offsets.end,
        }
    }

    /// Appends the units of a character.
    ///
    /// # Errors
    ///
    /// [`OutOfMemory`] if the allocation fails; the string is unchanged. It never fails if the spare capacity suffices.
    ///
    /// # Example
    ///
    /// ```
    /// let mut string = U16String::new(rt.alloc());
    /// string.push_char('😀')?;
    /// assert!(rt; string.as_slice() == [0xd83d, 0xde00].as_slice());
    /// ```
    pub fn push_char(&mut self, c: char) -> Result<(), OutOfMemory>
        ensures ok { OnOk result (map C.number self.new.units ≡ map C.number self.old.units ++ code_units C.form c) }
        ensures err { OnErr result (self.new ≡ self.old) }
        ensures succeeds { HasSpaceFor self.old (length (code_units C.form c)) → IsOk result }
        ensures capacity { self.old.capacity ≤ self.new.capacity }
    {
        self.units.reserve(C::char_len(c))?;
        push_char(&mut self.units, c);
        Ok(())
    }

    /// Appends the units of the text of a `&str`.
    ///
    /// # Errors
    ///
    /// [`OutOfMemory`] if the allocation fails; the string is unchanged. It never fails if the spare capacity suffices.
    ///
    /// # Example
    ///
    /// ```
    /// let mut path = U16String::from_str(rt.alloc(), "C:")?;
    /// path.push_str("\\temp")?;
    /// let text = path.as_ustr().to_string(rt.alloc())?;
    /// assert!(rt; text.as_str() == "C:\\temp");
    /// ```
    pub fn push_str(&mut self, text: &str) -> Result<(), OutOfMemory>
        ensures ok { OnOk result (map C.number self.new.units ≡ map C.number self.old.units ++ encode C.form (chars text.now)) }
        ensures err { OnErr result (self.new ≡ self.old) }
        ensures succeeds { HasSpaceFor self.old (length (encode C.form (chars text.now))) → IsOk result }
        ensures capacity { self.old.capacity ≤ self.new.capacity }
    {
        push_str(&mut self.units, text)
    }

    /// Appends the units of the text of a `&str`, like [`UString::push_str`]. It corresponds to `fmt::Write::write_str`
    /// in the Rust crate, but returns [`OutOfMemory`] in place of `fmt::Error`.
    ///
    /// # Errors
    ///
    /// [`OutOfMemory`] if the allocation fails; the string is unchanged. It never fails if the spare capacity suffices.
    pub fn write_str(&mut self, text: &str) -> Result<(), OutOfMemory>
        ensures ok { OnOk result (map C.number self.new.units ≡ map C.number self.old.units ++ encode C.form (chars text.now)) }
        ensures err { OnErr result (self.new ≡ self.old) }
        ensures succeeds { HasSpaceFor self.old (length (encode C.form (chars text.now))) → IsOk result }
        ensures capacity { self.old.capacity ≤ self.new.capacity }
    {
        self.push_str(text)
    }

    /// Appends the units of a character, like [`UString::push_char`]. It corresponds to `fmt::Write::write_char` in the
    /// Rust crate, but returns [`OutOfMemory`] in place of `fmt::Error`.
    ///
    /// # Errors
    ///
    /// [`OutOfMemory`] if the allocation fails; the string is unchanged. It never fails if the spare capacity suffices.
    pub fn write_char(&mut self, c: char) -> Result<(), OutOfMemory>
        ensures ok { OnOk result (map C.number self.new.units ≡ map C.number self.old.units ++ code_units C.form c) }
        ensures err { OnErr result (self.new ≡ self.old) }
        ensures succeeds { HasSpaceFor self.old (length (code_units C.form c)) → IsOk result }
        ensures capacity { self.old.capacity ≤ self.new.capacity }
    {
        self.push_char(c)
    }

    /// Inserts the units of a character at an offset in units.
    ///
    /// # Requires
    ///
    /// The offset is at most the length.
    ///
    /// # Errors
    ///
    /// [`OutOfMemory`] if the allocation fails; the string is unchanged. It never fails if the spare capacity suffices.
    pub fn insert_char(&mut self, at: usize, c: char) -> Result<(), OutOfMemory>
        requires { at ≤ ustring_len self.old }
        ensures ok { OnOk result (map C.number self.new.units ≡ splice (map C.number self.old.units) at at (code_units C.form c)) }
        ensures err { OnErr result (self.new ≡ self.old) }
        ensures succeeds { HasSpaceFor self.old (length (code_units C.form c)) → IsOk result }
        ensures capacity { self.old.capacity ≤ self.new.capacity }
    {
        replace_char(&mut self.units, at, at, c)
    }

    /// Replaces the units from `from` up to `to`, offsets in units, by the units of the text of a `&str`. The Rust
    /// crate has no such call: [`UString::replace_range`] takes a view, and making a view of a `&str` would allocate.
    ///
    /// # Requires
    ///
    /// `from` is at most `to`, and `to` is at most the length.
    ///
    /// # Errors
    ///
    /// [`OutOfMemory`] if the allocation fails; the string is unchanged. It never fails if the new length is at most
    /// the capacity.
    pub fn splice_str(&mut self, from: usize, to: usize, text: &str) -> Result<(), OutOfMemory>
        requires { IsWithin from to (ustring_len self.old) }
        ensures ok { OnOk result (map C.number self.new.units ≡ splice (map C.number self.old.units) from to (encode C.form (chars text.now))) }
        ensures err { OnErr result (self.new ≡ self.old) }
        ensures succeeds { ustring_len self.old + length (encode C.form (chars text.now)) ≤ self.old.capacity + (to - from) → IsOk result }
        ensures capacity { self.old.capacity ≤ self.new.capacity }
    {
        replace_str(&mut self.units, from, to, text)
    }

    /// Splits the string in two at an offset in units. The string keeps the units before the offset. The units from the
    /// offset on are returned as a new string, with a copy of the allocator. Allocates once, or not at all if the
    /// offset is the length.
    ///
    /// # Requires
    ///
    /// The offset is at most the length.
    ///
    /// # Errors
    ///
    /// [`OutOfMemory`] if the allocation fails or the allocator cannot be copied; the string is unchanged.
    ///
    /// # Example
    ///
    /// ```
    /// let mut string = U16String::from_vec([0x48, 0xd83d, 0xde00].to_vec(rt.alloc())?);
    /// let rest = string.split_off(2)?;
    /// assert!(rt; string.as_slice() == [0x48, 0xd83d].as_slice());
    /// assert!(rt; rest.as_slice() == [0xde00].as_slice());
    /// ```
    pub fn split_off(&mut self, at: usize) -> Result<Self, OutOfMemory>
    where
        A: Clone,
        requires { at ≤ ustring_len self.old }
        ensures rest { IfOk result (λ rest. rest.units ≡ drop at self.old.units) }
        ensures ok { OnOk result (self.new.units ≡ take at self.old.units) }
        ensures err { OnErr result (self.new ≡ self.old) }
        ensures capacity { self.new.capacity ≡ self.old.capacity }
        ensures succeeds { ((alloc : A) → A.is_infallible alloc) → at ≡ ustring_len self.old → IsOk result }
    {
        let alloc = self.units.allocator().clone()?;
        let rest = UStr::from_slice(&self.units.as_slice()[at..]).to_ustring(alloc)?;
        self.units.truncate(at);
        Ok(rest)
    }

    /// Removes the last character, or the last unit if it belongs to no character, and returns its number. In UTF-16
    /// the character may be a surrogate pair. Returns `None` if the string is empty.
    ///
    /// # Example
    ///
    /// ```
    /// let mut string = U16String::from_vec([0xd83d, 0xde00, 0xd83d].to_vec(rt.alloc())?);
    /// assert!(rt; string.pop_char() == Some(0xd83d));
    /// assert!(rt; string.pop_char() == Some(0x1f600));
    /// assert!(rt; string.pop_char().is_none());
    /// ```
    pub fn pop_char(&mut self) -> Option<u32>
        ensures none { IsNone result ↔ (self.old.units ≡ []) }
        ensures taken { IfSome result (TakesLast C.form (map C.number self.old.units) (map C.number self.new.units)) }
        ensures prefix { self.new.units ≡ take (ustring_len self.new) self.old.units }
        ensures capacity { self.new.capacity ≡ self.old.capacity }
    {
        let (rest, item) = split_last(self.units.as_slice())?;
        let len = rest.len();
        self.units.truncate(len);
        Some(code_of(item))
    }

    /// Removes the character that begins at an offset in units, or the unit there if it begins no character, and
    /// returns its number. In UTF-16 the character may be a surrogate pair.
    ///
    /// # Requires
    ///
    /// The offset is less than the length.
    pub fn remove_char(&mut self, at: usize) -> u32
        requires { at < ustring_len self.old }
        ensures prefix { take at self.new.units ≡ take at self.old.units }
        ensures taken { TakesFirst C.form (map C.number (drop at self.old.units)) (map C.number (drop at self.new.units)) result }
        ensures capacity { self.new.capacity ≡ self.old.capacity }
    {
        let beyond = &self.units.as_slice()[at..];
        let Some((item, rest)) = split_first(beyond) else {
            unreachable!()
        };
        let end = at + (beyond.len() - rest.len());
        cut(&mut self.units, at, end);
        code_of(item)
    }

    /// Returns a copy of the string, with a copy of the allocator. Allocates once, or not at all if there are no units.
    ///
    /// # Errors
    ///
    /// [`OutOfMemory`] if the allocation fails or the allocator cannot be copied.
    ///
    /// # Example
    ///
    /// ```
    /// let string = U16String::from_str(rt.alloc(), "Hi")?;
    /// let mut copy = string.try_clone()?;
    /// copy.truncate(1);
    /// assert!(rt; copy.as_slice() == [0x48].as_slice());
    /// assert!(rt; string.as_slice() == [0x48, 0x69].as_slice());
    /// ```
    pub fn try_clone(&self) -> Result<Self, OutOfMemory>
    where
        A: Clone,
        ensures copy { IfOk result (λ s. s.units ≡ self.now.units) }
        ensures succeeds { ((alloc : A) → A.is_infallible alloc) → self.now.units ≡ [] → IsOk result }
    {
        let alloc = self.units.allocator().clone()?;
        self.as_ustr().to_ustring(alloc)
    }
}

impl<A: Allocator> UString<u32, A> {
    /// Encodes characters as a new string of 32-bit units, one unit for each.
    ///
    /// # Errors
    ///
    /// [`OutOfMemory`] if the allocation fails. It never fails if there are no characters.
    pub fn from_chars(alloc: A, chars: &[char]) -> Result<Self, OutOfMemory>
        ensures units { IfOk result (λ s. s.units ≡ chars.now) }
        ensures succeeds { chars.now ≡ [] → IsOk result }
    {
        let mut units = Vec::with_capacity(alloc, chars.len())?;
        for c in chars {
            units.push_reserved(u32::from(*c));
        }
        Ok(UString { units })
    }
}
