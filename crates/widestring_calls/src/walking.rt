//! Walks over characters and lines, boundaries, validation.
ghost use Rattle.std.specs.Iterator.{IsFinite};

use crate::input::{Call, Input, named_in, number_of};
use widestring::Policy;
use widestring::error::{FaultUnit, OutOfMemory};
use widestring::utfstr::UtfStr;

/// A call that reads the characters or the lines.
#[derive(Clone, Copy)]
pub enum Walking {
    Chars,
    CharsRev,
    CharIndices,
    CharsLossy,
    CharsLossyRev,
    CharsLossyWith,
    TextChars,
    TextCharsRev,
    Lines,
    LinesLossy,
    FromSlice,
    CharCount,
    UnitOffset,
    FloorCharBoundary,
    Trim,
}

static CALLS: [(&str, Walking); 15] = [
    ("chars", Walking::Chars),
    ("chars_rev", Walking::CharsRev),
    ("char_indices", Walking::CharIndices),
    ("chars_lossy", Walking::CharsLossy),
    ("chars_lossy_rev", Walking::CharsLossyRev),
    ("chars_lossy_with", Walking::CharsLossyWith),
    ("text_chars", Walking::TextChars),
    ("text_chars_rev", Walking::TextCharsRev),
    ("lines", Walking::Lines),
    ("lines_lossy", Walking::LinesLossy),
    ("from_slice", Walking::FromSlice),
    ("char_count", Walking::CharCount),
    ("unit_offset", Walking::UnitOffset),
    ("floor_char_boundary", Walking::FloorCharBoundary),
    ("trim", Walking::Trim),
];

// Returns the characters as one number.
fn sum_of<I: Iterator<Item = char>>(chars: I) -> u64
    requires { I.can_next chars × IsFinite (I.remaining chars) }
{
    chars.fold(
        0u64,
        |sum, c| sum.wrapping_mul(3).wrapping_add(u64::from(c as u32)),
    )
}

// Returns the items as one number.
fn items_of<C: FaultUnit>(input: &Input<'_, C>, is_reversed: bool) -> u64 {
    let mut sum = 0u64;
    let mut items = input.units.chars();
    for _ in 0..input.units.len() {
        let item = if is_reversed {
            items.next_back()
        } else {
            items.next()
        };
        match item {
            Some(Ok(c)) => sum = sum.wrapping_mul(3).wrapping_add(u64::from(c as u32)),
            Some(Err(_)) => sum = sum.wrapping_add(1),
            None => return sum,
        }
    }
    sum
}

fn indices_of<C: FaultUnit>(input: &Input<'_, C>) -> u64 {
    let mut sum = 0u64;
    for (at, c) in input.text.char_indices() {
        sum = sum
            .wrapping_mul(3)
            .wrapping_add(at as u64 ^ u64::from(c as u32));
    }
    sum
}

fn lines_of<C: FaultUnit>(input: &Input<'_, C>, is_lossy: bool) -> u64 {
    let mut sum = 0u64;
    if is_lossy {
        for line in input.units.lines_lossy() {
            sum = sum.wrapping_mul(3).wrapping_add(line.len() as u64);
        }
    } else {
        for line in input.text.lines() {
            sum = sum.wrapping_mul(3).wrapping_add(line.len() as u64);
        }
    }
    sum
}

impl Call for Walking {
    fn named(name: &str) -> Option<Walking> {
        named_in(&CALLS, name)
    }

    fn make<C: FaultUnit + Ord>(self, input: &Input<'_, C>) -> Result<u64, OutOfMemory> {
        let (units, text) = (input.units, input.text);
        Ok(match self {
            Walking::Chars => items_of(input, false),
            Walking::CharsRev => items_of(input, true),
            Walking::CharIndices => indices_of(input),
            Walking::CharsLossy => sum_of(units.chars_lossy()),
            Walking::CharsLossyRev => sum_of(units.chars_lossy().rev()),
            Walking::CharsLossyWith => sum_of(units.chars_lossy_with(Policy::Run)),
            Walking::TextChars => sum_of(text.chars()),
            Walking::TextCharsRev => sum_of(text.chars().rev()),
            Walking::Lines => lines_of(input, false),
            Walking::LinesLossy => lines_of(input, true),
            Walking::FromSlice => match UtfStr::from_slice(units.as_slice()) {
                Ok(text) => text.len() as u64,
                Err(fault) => fault.index() as u64,
            },
            Walking::CharCount => text.char_count() as u64,
            Walking::UnitOffset => number_of(text.unit_offset(text.len() / 2)),
            Walking::FloorCharBoundary => text.floor_char_boundary(text.len() / 2) as u64,
            Walking::Trim => text.trim().len() as u64,
        })
    }
}
