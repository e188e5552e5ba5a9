//! Items that strings are extended by and made of. They are separated by commas, and each is a list of units.
use std::alloc::Global;
use widestring::error::{FaultUnit, OutOfMemory};
use widestring::ucstr::UCStr;
use widestring::ucstring::UCString;
use widestring::ustr::UStr;
use widestring::ustring::{BoxedUStr, CowUStr, UString};
use widestring::utfstr::UtfStr;
use widestring::utfstring::{BoxedUtfStr, CowUtfStr, UtfString};
use widestring_replay::made::{c_string, text_of};
use widestring_replay::parse::{self, FromHex, Memory, NoAnswer};
use widestring_replay::show::ReportedUnit;
use widestring_testing::Heap;

/// A string of any units, whose requests are counted.
pub type Units<'a, C> = UString<C, &'a Heap>;

/// A string of well-formed text, whose requests are counted.
pub type Text<'a, C> = UtfString<C, &'a Heap>;

/// How a call takes items.
#[derive(Clone, Copy)]
pub enum How {
    /// The call extends a string by the items.
    Extend,
    /// The call makes a string of the items, which replaces another.
    Make,
}

/// Returns how a call takes items, and of which kind they are, by its name.
pub fn items_called(name: &str) -> Option<(How, &str)> {
    if let Some(kind) = name.strip_prefix("extend_") {
        return Some((How::Extend, kind));
    }
    let kind = name.strip_prefix("from_iter_")?;
    Some((How::Make, kind))
}

// Appends units.
fn push_units<C: Copy>(vec: &mut Vec<C, &Heap>, units: &[C]) -> Result<(), NoAnswer> {
    match vec.extend_from_slice(units) {
        Ok(()) => Ok(()),
        Err(_) => Err(NoAnswer::OutOfMemory),
    }
}

/// Returns the vector of units, on the counted heap, with this spare capacity.
pub fn vec_on<'a, C: Copy>(
    heap: &'a Heap,
    units: &[C],
    spare: usize,
) -> Result<Vec<C, &'a Heap>, NoAnswer> {
    let mut copy = Vec::with_capacity(heap, units.len().saturating_add(spare))?;
    match push_units(&mut copy, units) {
        Ok(()) => Ok(copy),
        Err(error) => Err(error),
    }
}

/// Returns the vector of a list, on the counted heap, with this spare capacity.
pub fn counted<'a, C: Copy + FromHex + Drop>(
    memory: Memory<'a>,
    list: &str,
    spare: usize,
) -> Result<Vec<C, &'a Heap>, NoAnswer> {
    match parse::list(memory.alloc, list) {
        Ok(units) => vec_on(memory.heap, &units, spare),
        Err(error) => Err(error),
    }
}

/// Returns the text of a list of units.
pub fn text<C: FaultUnit + FromHex>(alloc: Global, list: &str) -> Result<String, NoAnswer> {
    match parse::list::<C>(alloc, list) {
        Ok(units) => text_of(alloc, &units),
        Err(error) => Err(error),
    }
}

/// Returns the character of a text that has exactly one.
pub fn only_char(text: &str) -> Result<char, NoAnswer> {
    match text.chars().next() {
        Some(c) if c.len_utf8() == text.len() => Ok(c),
        _ => Err(NoAnswer::Unparsed),
    }
}

/// Returns the text of units, which must be well formed.
pub fn utfstring<C: FaultUnit + FromHex>(
    alloc: Global,
    list: &str,
) -> Result<UtfString<C>, NoAnswer> {
    match parse::list(alloc, list) {
        Ok(units) => well_formed(units),
        Err(error) => Err(error),
    }
}

fn well_formed<C: FaultUnit>(units: Vec<C>) -> Result<UtfString<C>, NoAnswer> {
    match UtfString::from_vec(units) {
        Ok(string) => Ok(string),
        Err(_) => Err(NoAnswer::Unparsed),
    }
}

/// What a list of units stands for as an item.
pub trait Item<C>: Sized {
    /// Parses a list.
    fn of(alloc: Global, list: &str) -> Result<Self, NoAnswer>;
}

impl<C: FaultUnit + FromHex> Item<C> for char {
    fn of(alloc: Global, list: &str) -> Result<char, NoAnswer> {
        match text::<C>(alloc, list) {
            Ok(text) => only_char(&text),
            Err(error) => Err(error),
        }
    }
}

impl<C: FaultUnit + FromHex> Item<C> for String {
    fn of(alloc: Global, list: &str) -> Result<String, NoAnswer> {
        text::<C>(alloc, list)
    }
}

impl<C: FaultUnit + FromHex> Item<C> for UString<C> {
    fn of(alloc: Global, list: &str) -> Result<UString<C>, NoAnswer> {
        match parse::list(alloc, list) {
            Ok(units) => Ok(UString::from_vec(units)),
            Err(error) => Err(error),
        }
    }
}

impl<C: FaultUnit + FromHex> Item<C> for BoxedUStr<C> {
    fn of(alloc: Global, list: &str) -> Result<BoxedUStr<C>, NoAnswer> {
        match parse::list(alloc, list) {
            Ok(units) => boxed_units(units),
            Err(error) => Err(error),
        }
    }
}

fn boxed_units<C: FaultUnit>(units: Vec<C>) -> Result<BoxedUStr<C>, NoAnswer> {
    match UString::from_vec(units).into_boxed_ustr() {
        Ok(boxed) => Ok(boxed),
        Err(_) => Err(NoAnswer::OutOfMemory),
    }
}

impl<C: FaultUnit + FromHex> Item<C> for UCString<C> {
    fn of(alloc: Global, list: &str) -> Result<UCString<C>, NoAnswer> {
        match parse::list(alloc, list) {
            Ok(units) => c_string(units),
            Err(error) => Err(error),
        }
    }
}

impl<C: FaultUnit + FromHex> Item<C> for UtfString<C> {
    fn of(alloc: Global, list: &str) -> Result<UtfString<C>, NoAnswer> {
        utfstring(alloc, list)
    }
}

impl<C: FaultUnit + FromHex> Item<C> for BoxedUtfStr<C> {
    fn of(alloc: Global, list: &str) -> Result<BoxedUtfStr<C>, NoAnswer> {
        match utfstring(alloc, list) {
            Ok(text) => boxed_text(text),
            Err(error) => Err(error),
        }
    }
}

fn boxed_text<C: FaultUnit>(text: UtfString<C>) -> Result<BoxedUtfStr<C>, NoAnswer> {
    match text.into_boxed_utfstr() {
        Ok(boxed) => Ok(boxed),
        Err(_) => Err(NoAnswer::OutOfMemory),
    }
}

// Appends an item.
fn push<T: Drop>(items: &mut Vec<T>, item: T) -> Result<(), NoAnswer> {
    match items.push(item) {
        Ok(()) => Ok(()),
        Err(_) => Err(NoAnswer::OutOfMemory),
    }
}

// Parses an item, and appends it.
fn push_item<C, T: Item<C> + Drop>(
    alloc: Global,
    items: &mut Vec<T>,
    list: &str,
) -> Result<(), NoAnswer> {
    match T::of(alloc, list) {
        Ok(item) => push(items, item),
        Err(error) => Err(error),
    }
}

// Parses items, and appends them.
fn push_items<C, T: Item<C> + Drop>(
    alloc: Global,
    items: &mut Vec<T>,
    lists: &str,
) -> Result<(), NoAnswer> {
    for list in lists.split(',') {
        push_item(alloc, items, list)?;
    }
    Ok(())
}

/// Parses items.
pub fn items<C, T: Item<C> + Drop>(alloc: Global, lists: &str) -> Result<Vec<T>, NoAnswer> {
    let mut items = Vec::new(alloc);
    match push_items(alloc, &mut items, lists) {
        Ok(()) => Ok(items),
        Err(error) => Err(error),
    }
}

/// An item that borrows from an owned one.
pub trait View<'a, T>: Sized {
    /// Returns the view of an owned item. A `Cow` owns its units at an odd index.
    fn of(owner: &'a T, index: usize) -> Result<Self, OutOfMemory>;
}

impl<'a> View<'a, String> for &'a str {
    fn of(owner: &'a String, _index: usize) -> Result<&'a str, OutOfMemory> {
        Ok(owner.as_str())
    }
}

impl<'a, C: FaultUnit> View<'a, UString<C>> for UStr<'a, C> {
    // The view of an empty string is the default one.
    fn of(owner: &'a UString<C>, _index: usize) -> Result<UStr<'a, C>, OutOfMemory> {
        if owner.is_empty() {
            return Ok(UStr::default());
        }
        Ok(owner.as_ustr())
    }
}

impl<'a, C: FaultUnit> View<'a, UString<C>> for CowUStr<'a, C> {
    fn of(owner: &'a UString<C>, index: usize) -> Result<CowUStr<'a, C>, OutOfMemory> {
        if index % 2 == 0 {
            return Ok(CowUStr::Borrowed(owner.as_ustr()));
        }
        Ok(CowUStr::Owned(owner.try_clone()?))
    }
}

impl<'a, C: FaultUnit> View<'a, UCString<C>> for UCStr<'a, C> {
    fn of(owner: &'a UCString<C>, _index: usize) -> Result<UCStr<'a, C>, OutOfMemory> {
        Ok(owner.as_ucstr())
    }
}

impl<'a, C: FaultUnit> View<'a, UtfString<C>> for UtfStr<'a, C> {
    fn of(owner: &'a UtfString<C>, _index: usize) -> Result<UtfStr<'a, C>, OutOfMemory> {
        Ok(owner.as_utfstr())
    }
}

impl<'a, C: FaultUnit> View<'a, UtfString<C>> for CowUtfStr<'a, C> {
    fn of(owner: &'a UtfString<C>, index: usize) -> Result<CowUtfStr<'a, C>, OutOfMemory> {
        if index % 2 == 0 {
            return Ok(CowUtfStr::Borrowed(owner.as_utfstr()));
        }
        Ok(CowUtfStr::Owned(owner.try_clone()?))
    }
}

// Appends the view of an owned item.
fn push_view<'a, T, V: View<'a, T> + Drop>(
    views: &mut Vec<V>,
    owner: &'a T,
    index: usize,
) -> Result<(), NoAnswer> {
    match V::of(owner, index) {
        Ok(view) => push(views, view),
        Err(OutOfMemory) => Err(NoAnswer::OutOfMemory),
    }
}

// Appends views of owned items.
fn push_views<'a, T, V: View<'a, T> + Drop>(
    views: &mut Vec<V>,
    owners: &'a [T],
) -> Result<(), NoAnswer> {
    for (index, owner) in owners.iter().enumerate() {
        push_view(views, owner, index)?;
    }
    Ok(())
}

/// Returns views of owned items.
pub fn views<'a, T, V: View<'a, T> + Drop>(
    alloc: Global,
    owners: &'a [T],
) -> Result<Vec<V>, NoAnswer> {
    let mut views = Vec::new(alloc);
    match push_views(&mut views, owners) {
        Ok(()) => Ok(views),
        Err(error) => Err(error),
    }
}

// Returns the units after those of an item, if they begin with it, and the length of the item.
fn after_item<'a, C: ReportedUnit>(
    alloc: Global,
    units: &'a [C],
    item: &str,
) -> Result<(Option<&'a [C]>, usize), NoAnswer> {
    match parse::list::<C>(alloc, item) {
        Ok(item) => Ok((units.strip_prefix(item.as_slice()), item.len())),
        Err(error) => Err(error),
    }
}

// Returns whether `before` is followed by the first of the items, each whole, and as many as the capacity allows, but
// not all.
fn are_whole_items<C: ReportedUnit>(
    alloc: Global,
    before: &[C],
    (after, capacity): (&[C], usize),
    items: &str,
) -> Result<bool, NoAnswer> {
    let Some(mut rest) = after.strip_prefix(before) else {
        return Ok(false);
    };
    for item in items.split(',') {
        match after_item(alloc, rest, item)? {
            (Some(more), _) => rest = more,
            (None, len) => {
                return Ok(rest.is_empty() && after.len().saturating_add(len) > capacity);
            }
        }
    }
    Ok(false)
}

/// Returns whether a call whose request failed left units and capacity unchanged or, if it takes items, added the items
/// that the capacity allows.
pub fn is_kept<C: ReportedUnit>(
    alloc: Global,
    call: &str,
    before: (&[C], usize),
    after: (&[C], usize),
) -> Result<bool, NoAnswer> {
    let (name, items) = parse::word(call);
    match items_called(name) {
        Some((How::Extend, _)) => are_whole_items(alloc, before.0, after, items),
        Some((How::Make, _)) => are_whole_items(alloc, &[], after, items),
        None => Ok((before.0 == after.0) & (before.1 == after.1)),
    }
}
