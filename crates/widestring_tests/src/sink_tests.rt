//! Tests of what a sink holds at an error, if it takes a write whole or not at all: printing passes each character to
//! the sink as a write of its own, in the same writes as a loop over the characters, so the sink holds every character
//! before the failed write.
use crate::all_hold::case_holds;
use crate::coded::{Coded, push_numbers};
use crate::print_loops::{Items, Lossy, LossyChars, PolicyChars, Skipping};
use crate::random::Random;
use std::alloc::{AllocError, Global};
use std::fmt;
use std::fmt::Write;
use std::process::Abort;
use std::test::Fail;
use widestring::Policy;
use widestring::ustr::UStr;

// How many bytes a sink has space for at most.
const SPACE: usize = 600;

// How many numbers a text is made of, so that it does not fit.
const NUMBERS: usize = 700;

// How many bytes a sink takes in all, and in one write.
#[derive(Clone, Copy, PartialEq)]
struct Limits {
    space: usize,
    longest: usize,
}

// A sink that takes a write whole, or fails and takes nothing.
#[derive(PartialEq, Drop)]
struct WholeSink {
    bytes: Vec<u8>,
    calls: usize,
    limits: Limits,
}

impl WholeSink {
    fn new(alloc: Global, limits: Limits) -> WholeSink {
        WholeSink {
            bytes: Vec::new(alloc),
            calls: 0,
            limits,
        }
    }
}

impl fmt::Write for WholeSink {
    fn write_str(&mut self, s: &str) -> fmt::Result {
        self.calls = self.calls.saturating_add(1);
        let space = self.limits.space.saturating_sub(self.bytes.len());
        if s.len() > self.limits.longest || s.len() > space {
            return Err(fmt::Error);
        }
        match self.bytes.extend_from_slice(s.as_bytes()) {
            Ok(()) => Ok(()),
            Err(_) => Err(fmt::Error),
        }
    }
}

// Returns whether two values print in the same writes up to the one that fails, and fail alike.
fn display_alike(
    alloc: Global,
    limits: Limits,
    one: &impl fmt::Display,
    other: &impl fmt::Display,
) -> bool {
    let mut first = WholeSink::new(alloc, limits);
    let mut second = WholeSink::new(alloc, limits);
    let ended = write!(first, "{one}");
    ended == write!(second, "{other}") && first == second
}

// Returns whether the debug texts of two values are in the same writes up to the one that fails, and fail alike.
fn debug_alike(
    alloc: Global,
    limits: Limits,
    one: &impl fmt::Debug,
    other: &impl fmt::Debug,
) -> bool {
    let mut first = WholeSink::new(alloc, limits);
    let mut second = WholeSink::new(alloc, limits);
    let ended = write!(first, "{one:?}");
    ended == write!(second, "{other:?}") && first == second
}

// Returns whether all that is printed of units goes to a sink of these limits as the loops print it.
fn prints_alike<C: Coded>(alloc: Global, limits: Limits, policy: Policy, units: &[C]) -> bool {
    let view = UStr::from_slice(units);
    display_alike(alloc, limits, &view.display(), &Lossy(units))
        && display_alike(alloc, limits, &view.display_skipping(), &Skipping(units))
        && debug_alike(alloc, limits, &view, &Items(units))
        && debug_alike(alloc, limits, &view.chars_lossy(), &LossyChars(units))
        && debug_alike(
            alloc,
            limits,
            &view.chars_lossy_with(policy),
            &PolicyChars(units, policy),
        )
}

// Asserts that units print alike to sinks of each space, and to those that take writes of some bytes.
fn assert_alike<C: Coded>(rt: &impl Abort, alloc: Global, policy: Policy, units: &[C]) {
    for space in 0..=SPACE {
        let longest = usize::MAX;
        let limits = Limits { space, longest };
        case_holds(rt, space, prints_alike::<C>(alloc, limits, policy, units));
    }
    for longest in 0..8 {
        let space = usize::MAX;
        let limits = Limits { space, longest };
        case_holds(rt, longest, prints_alike::<C>(alloc, limits, policy, units));
    }
}

// Asserts that a text made at random prints alike to all sinks.
fn assert_text_alike<C: Coded>(
    rt: &impl Abort,
    alloc: Global,
    seed: u64,
    policy: Policy,
) -> Result<(), AllocError> {
    let mut units = Vec::new(alloc);
    push_numbers::<C>(&mut units, &mut Random::new(seed), NUMBERS)?;
    assert_alike::<C>(rt, alloc, policy, units.as_slice());
    Ok(())
}

#[test]
fn sinks_of_16_bit_units(rt: HostRuntime) -> Result<(), Fail> {
    assert_text_alike::<u16>(&rt, rt.alloc(), 1, Policy::Each)?;
    Ok(assert_text_alike::<u16>(&rt, rt.alloc(), 2, Policy::Skip)?)
}

#[test]
fn sinks_of_32_bit_units(rt: HostRuntime) -> Result<(), Fail> {
    Ok(assert_text_alike::<u32>(&rt, rt.alloc(), 3, Policy::Run)?)
}
