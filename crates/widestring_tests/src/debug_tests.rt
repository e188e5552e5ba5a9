//! Tests that debug text escapes each character and each fault as a loop over them does, by [`char::escape_debug`]. The
//! contracts say what is printed for ASCII only.
use crate::all_hold::case_holds;
use crate::coded::{Coded, push_numbers};
use crate::print_loops::{Items, LossyChars, PolicyChars};
use crate::random::Random;
use std::alloc::{AllocError, Global};
use std::fmt;
use std::fmt::Write;
use std::process::Abort;
use std::test::Fail;
use widestring::Policy;
use widestring::ustr::UStr;

// How many units are printed at once.
const BLOCK: usize = 256;

// The longest of the texts made at random.
const LONGEST: usize = 400;

// Beyond this number few characters are assigned.
const ASSIGNED: u32 = 0x3_0000;

// The way in which units are printed.
#[derive(Clone, Copy)]
enum Way {
    View,
    Lossy,
    Under(Policy),
}

const WAYS: [Way; 5] = [
    Way::View,
    Way::Lossy,
    Way::Under(Policy::Each),
    Way::Under(Policy::Run),
    Way::Under(Policy::Skip),
];

// A sink that holds the hash FNV-1a of all bytes.
#[derive(Drop)]
struct Digest(u64);

impl fmt::Write for Digest {
    fn write_str(&mut self, s: &str) -> fmt::Result {
        for byte in s.as_bytes() {
            self.0 = (self.0 ^ u64::from(*byte)).wrapping_mul(0x100_0000_01b3);
        }
        Ok(())
    }
}

// Returns the hash of a value's debug text.
fn hash_of(value: &impl fmt::Debug) -> Option<u64> {
    let mut sink = Digest(0xcbf2_9ce4_8422_2325);
    match write!(sink, "{value:?}") {
        Ok(()) => Some(sink.0),
        Err(_) => None,
    }
}

// Returns the hash of what the library prints of units in this way.
fn printed<C: Coded>(way: Way, units: &[C]) -> Option<u64> {
    let view = UStr::from_slice(units);
    match way {
        Way::View => hash_of(&view),
        Way::Lossy => hash_of(&view.chars_lossy()),
        Way::Under(policy) => hash_of(&view.chars_lossy_with(policy)),
    }
}

// Returns the hash of what the loop prints.
fn expected<C: Coded>(way: Way, units: &[C]) -> Option<u64> {
    match way {
        Way::View => hash_of(&Items(units)),
        Way::Lossy => hash_of(&LossyChars(units)),
        Way::Under(policy) => hash_of(&PolicyChars(units, policy)),
    }
}

// Returns whether units print in each way what the loop of that way prints.
fn prints_each<C: Coded>(units: &[C]) -> bool {
    WAYS.iter().all(|way| printed::<C>(*way, units) == expected::<C>(*way, units))
}

// Returns whether a block of units, of which `last` is the last number, prints in each way what its loop prints.
// Well-formed units print the same in each way, so one loop is enough. Where nearly all characters are escaped, by up
// to ten writes each, the ways take turns.
fn prints_block<C: Coded>(units: &[C], last: u32) -> bool {
    if UStr::from_slice(units).chars().any(|item| item.is_err()) {
        return prints_each::<C>(units);
    }
    let text = expected::<C>(Way::View, units);
    if last < ASSIGNED {
        WAYS.iter().all(|way| printed::<C>(*way, units) == text)
    } else {
        let way = WAYS[last as usize / BLOCK % WAYS.len()];
        printed::<C>(way, units) == text
    }
}

// Asserts that each block of units prints what the loop prints, of all numbers below `end`.
fn assert_blocks<C: Coded>(
    rt: &impl Abort,
    units: &mut Vec<C>,
    end: u32,
) -> Result<(), AllocError> {
    for number in 0..end {
        C::push(units, number)?;
        if units.len() >= BLOCK || number + 1 == end {
            case_holds(
                rt,
                number as usize,
                prints_block::<C>(units.as_slice(), number),
            );
            units.clear();
        }
    }
    Ok(())
}

// Asserts that texts made at random print what the loop prints, one of each length.
fn assert_lengths<C: Coded>(
    rt: &impl Abort,
    units: &mut Vec<C>,
    random: &mut Random,
) -> Result<(), AllocError> {
    for length in 0..=LONGEST {
        units.clear();
        push_numbers::<C>(units, random, length)?;
        units.truncate(length);
        case_holds(rt, length, prints_each::<C>(units.as_slice()));
    }
    Ok(())
}

#[test]
fn characters_of_one_16_bit_unit(rt: HostRuntime) -> Result<(), Fail> {
    let mut units = Vec::new(rt.alloc());
    Ok(assert_blocks::<u16>(&rt, &mut units, 0x1_0000)?)
}

#[test]
fn all_characters(rt: HostRuntime) -> Result<(), Fail> {
    let mut units = Vec::new(rt.alloc());
    Ok(assert_blocks::<u32>(&rt, &mut units, 0x11_0010)?)
}

#[test]
fn texts_of_each_length(rt: HostRuntime) -> Result<(), Fail> {
    let (mut narrow, mut wide) = (Vec::new(rt.alloc()), Vec::new(rt.alloc()));
    assert_lengths::<u16>(&rt, &mut narrow, &mut Random::new(1))?;
    Ok(assert_lengths::<u32>(&rt, &mut wide, &mut Random::new(1))?)
}
