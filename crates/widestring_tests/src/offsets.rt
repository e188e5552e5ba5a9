//! Tests of vectorized reads of views: each kind of character and of fault, at each offset of texts of each length, at
//! both widths. The standard library makes the expected results.
use crate::all_hold::case_holds;
use std::alloc::{AllocError, Global};
use std::char;
use std::process::Abort;
use widestring::error::FaultUnit;
use widestring::ustr::UStr;
use widestring::utfstr::UtfStr;
use widestring::utfstring::UtfString;
use widestring::{Policy, U16Str, U32Str};

// Units as the standard library reads them.
trait ReadUnit: FaultUnit {
    // Appends the characters, and `None` for each fault.
    fn read(chars: &mut Vec<Option<char>>, units: &[Self]) -> Result<(), AllocError>;

    // Returns the view's text if it is well formed.
    fn to_text(alloc: Global, units: &[Self]) -> Option<String>;
}

impl ReadUnit for u16 {
    fn read(chars: &mut Vec<Option<char>>, units: &[u16]) -> Result<(), AllocError> {
        for decoded in char::decode_utf16(units.iter().copied()) {
            chars.push(decoded.ok())?;
        }
        Ok(())
    }

    fn to_text(alloc: Global, units: &[u16]) -> Option<String> {
        U16Str::from_slice(units).to_string(alloc).ok()
    }
}

impl ReadUnit for u32 {
    fn read(chars: &mut Vec<Option<char>>, units: &[u32]) -> Result<(), AllocError> {
        for unit in units {
            chars.push(char::from_u32(*unit))?;
        }
        Ok(())
    }

    fn to_text(alloc: Global, units: &[u32]) -> Option<String> {
        U32Str::from_slice(units).to_string(alloc).ok()
    }
}

// What is put at an offset, cut off at the end of the text: a character of each length in UTF-8, and faults. Half a
// pair is also a fault.
static KINDS16: [&[u16]; 8] = [
    &[0x7a],
    &[0xdf],
    &[0x8a9e],
    &[0xd83d, 0xde00],
    &[0xd83d],
    &[0xde00],
    &[0xde00, 0xd83d],
    &[0xd83d, 0xd83d, 0xde00, 0xde00],
];

static KINDS32: [&[u32]; 8] = [
    &[0x7a],
    &[0xdf],
    &[0x8a9e],
    &[0x1_f600],
    &[0xd83d],
    &[0xde00],
    &[0x11_0000],
    &[0xd83d, 0xde00, 0xffff_ffff],
];

// A text of letters, each of which is one unit, with units of one kind at some offsets.
#[derive(Drop)]
struct Case<'a, C> {
    letter: char,
    // All units, the units that are put at the offsets, and the offsets.
    units: &'a [C],
    kind: &'a [C],
    offsets: &'a [usize],
}

// Appends a letter as often.
fn push_letters(text: &mut String, letter: char, count: usize) -> Result<(), AllocError> {
    for _ in 0..count {
        text.push(letter)?;
    }
    Ok(())
}

// Appends the text of characters and faults under a policy.
fn push_by(text: &mut String, chars: &[Option<char>], policy: Policy) -> Result<(), AllocError> {
    let mut after_fault = false;
    for read in chars {
        let is_silent = policy == Policy::Skip || policy == Policy::Run && after_fault;
        after_fault = read.is_none();
        if !(after_fault && is_silent) {
            text.push(read.unwrap_or('\u{fffd}'))?;
        }
    }
    Ok(())
}

// Returns whether this text was made.
fn is_made<E: Drop>(made: Result<String, E>, text: &str) -> bool {
    match made {
        Ok(made) => made.as_str() == text,
        Err(_) => false,
    }
}

// Returns whether a view is equal neither to a text nor to what is left of it without its last two characters.
fn differs<C: ReadUnit>(view: UtfStr<'_, C>, text: &mut String) -> bool {
    let differs = !view.eq_str(text);
    let _last = text.pop();
    differs & (text.pop().is_none() || !view.eq_str(text))
}

impl<C: ReadUnit> Case<'_, C> {
    // Appends the whole text, with `middle` at each offset.
    fn push_whole(&self, text: &mut String, middle: &str) -> Result<(), AllocError> {
        let mut end = 0usize;
        for offset in self.offsets {
            push_letters(text, self.letter, offset.saturating_sub(end))?;
            text.push_str(middle)?;
            end = offset.saturating_add(self.kind.len());
        }
        push_letters(text, self.letter, self.units.len().saturating_sub(end))
    }

    // Makes the whole text under a policy, if the kind is these characters and faults.
    fn make(
        &self,
        text: &mut String,
        middle: &mut String,
        chars: &[Option<char>],
        policy: Policy,
    ) -> Result<(), AllocError> {
        push_by(middle, chars, policy)?;
        self.push_whole(text, middle)
    }

    // Returns whether the lossy text is this one under a policy.
    fn is_lossy(&self, alloc: Global, policy: Policy, text: &str) -> bool {
        let view = UStr::from_slice(self.units);
        let well = is_made(view.to_string_lossy_with(alloc, policy), text);
        match UtfString::from_slice_lossy_with(alloc, self.units, policy) {
            Ok(made) => well & made.as_utfstr().eq_str(text),
            Err(_) => false,
        }
    }

    // Returns the offset of a character, if what is at each offset is one character or nothing.
    fn offset_of(&self, index: usize) -> usize {
        let mut offset = index;
        for start in self.offsets {
            if offset > *start {
                offset = offset.saturating_add(self.kind.len()).saturating_sub(1);
            }
        }
        offset
    }

    // Returns whether the index is one of the offsets, or the one before or after it.
    fn is_near(&self, index: usize) -> bool {
        let mut is_near = false;
        for offset in self.offsets {
            is_near |= index.abs_diff(*offset) < 2;
        }
        is_near
    }

    // Returns whether each character begins at the right offset, the text ends at the right one, and no character
    // follows.
    fn has_offsets(&self, view: UtfStr<'_, C>) -> bool {
        let more = self
            .kind
            .len()
            .saturating_sub(1)
            .saturating_mul(self.offsets.len());
        let count = self.units.len().saturating_sub(more);
        let mut well = view.char_count() == count;
        for index in 0..count {
            // A search takes as many steps as there are units before its result. So in short texts only the characters
            // around the offsets and at the end are searched.
            let is_last = index.saturating_add(2) > count;
            if is_last || self.units.len() >= 70 || self.is_near(index) {
                well &= view.unit_offset(index) == Some(self.offset_of(index));
            }
        }
        well &= view.unit_offset(count) == Some(self.units.len());
        well & view.unit_offset(count.saturating_add(1)).is_none()
    }

    // Returns whether well-formed units are equal to this text, and not to a text of one character more or less.
    fn is_text(&self, alloc: Global, view: UtfStr<'_, C>, text: &str) -> bool {
        let mut other = String::new(alloc);
        view.eq_str(text)
            && self.has_offsets(view)
            && is_made(view.to_string(alloc), text)
            && other.push_str(text).is_ok()
            && other.push('x').is_ok()
            && differs(view, &mut other)
    }

    // Returns whether the calls that convert no faults return this text, or, if the units have a fault, fail.
    fn is_whole(&self, alloc: Global, text: &str, is_faulty: bool) -> bool {
        let well = match C::to_text(alloc, self.units) {
            Some(made) => !is_faulty && made.as_str() == text,
            None => is_faulty,
        };
        match UtfStr::from_slice(self.units) {
            Ok(view) => well && !is_faulty && self.is_text(alloc, view, text),
            Err(_) => well && is_faulty,
        }
    }

    // Returns whether the calls that read lossy text agree with the standard library's result under a policy.
    fn holds_by(&self, alloc: Global, chars: &[Option<char>], policy: Policy) -> bool {
        let (mut text, mut middle) = (String::new(alloc), String::new(alloc));
        self.make(&mut text, &mut middle, chars, policy).is_ok()
            && self.is_lossy(alloc, policy, &text)
    }

    // Returns whether the calls that write U+FFFD for each fault, and those that convert no faults, agree with the
    // standard library.
    fn holds_by_each(&self, alloc: Global, chars: &[Option<char>]) -> bool {
        let (mut text, mut middle) = (String::new(alloc), String::new(alloc));
        let view = UStr::from_slice(self.units);
        self.make(&mut text, &mut middle, chars, Policy::Each)
            .is_ok()
            && is_made(view.to_string_lossy(alloc), &text)
            && self.is_whole(alloc, &text, chars.contains(&None))
    }

    // Returns whether each call agrees with the standard library's results for the kind and for letters.
    fn holds(&self, alloc: Global) -> bool {
        let mut chars = Vec::new(alloc);
        C::read(&mut chars, self.kind).is_ok()
            && self.holds_by(alloc, &chars, Policy::Run)
            && self.holds_by(alloc, &chars, Policy::Skip)
            && self.holds_by(alloc, &chars, Policy::Each)
            && self.holds_by_each(alloc, &chars)
    }
}

// Puts a kind at each of the offsets, cut off at the end, and returns how many of its units the last one has.
fn put<C: ReadUnit>(units: &mut [C], offsets: &[usize], kind: &[C]) -> usize {
    let mut fits = 0;
    for offset in offsets {
        fits = kind.len().min(units.len().saturating_sub(*offset));
        for (unit, other) in units.iter_mut().skip(*offset).zip(kind.iter()) {
            *unit = *other;
        }
    }
    fits
}

// A letter as a unit, and as the character.
type Letter<C> = (C, char);

// Returns whether all calls agree for a text of letters with a kind at each of the offsets, cut off at the end of the
// text.
fn holds_with<C: ReadUnit>(
    alloc: Global,
    letter: Letter<C>,
    len: usize,
    offsets: &[usize],
    kind: &[C],
) -> bool {
    let mut units = Vec::new(alloc);
    if units.resize(len, letter.0).is_err() {
        return false;
    }
    let fits = put(&mut units, offsets, kind);
    let case = Case {
        letter: letter.1,
        units: &units,
        kind: kind.get(..fits).unwrap_or(kind),
        offsets,
    };
    case.holds(alloc)
}

// Returns whether all calls agree for texts of this length, with each kind at each offset.
fn hold_at_len<C: ReadUnit>(alloc: Global, letter: Letter<C>, len: usize, kinds: &[&[C]]) -> bool {
    let mut well = true;
    for offset in 0..=len {
        for kind in kinds {
            well &= holds_with(alloc, letter, len, &[offset], kind);
        }
    }
    well
}

// Asserts that all calls agree for texts of each length with each kind, and with a pair among the first of many letters
// and one more block of 256 units after it.
fn assert_agreement<C: ReadUnit>(
    rt: &impl Abort,
    alloc: Global,
    letter: Letter<C>,
    kinds: &[&[C]],
    pair: &[C],
) {
    for len in 0..=70 {
        case_holds(rt, len, hold_at_len(alloc, letter, len, kinds));
    }
    for offset in 250..260 {
        let far = [offset, offset + 256];
        case_holds(rt, offset, holds_with(alloc, letter, 600, &far, pair));
    }
}

#[test]
fn units_of_16_bits(rt: HostRuntime) {
    let pair = [0xd83d, 0xde00];
    assert_agreement(&rt, rt.alloc(), (0x61, 'a'), &KINDS16, &pair);
    assert_agreement(&rt, rt.alloc(), (0x3042, 'あ'), &KINDS16, &pair);
}

#[test]
fn units_of_32_bits(rt: HostRuntime) {
    let pair = [0x1_f600];
    assert_agreement(&rt, rt.alloc(), (0x61, 'a'), &KINDS32, &pair);
    assert_agreement(&rt, rt.alloc(), (0x3042, 'あ'), &KINDS32, &pair);
}
