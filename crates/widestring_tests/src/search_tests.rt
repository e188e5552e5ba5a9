//! Tests of searches at both widths: for needles that repeat themselves, in texts that nearly do, where so many units
//! are compared in vain that the two-way search takes over, and for two units of which the first also occurs alone. The
//! expected offsets are those of a loop over all windows.
use crate::all_hold::{all_hold, case_holds};
use crate::random::Random;
use std::alloc::{AllocError, Global};
use widestring::search::{find, rfind};
use widestring::unit::Unit;

// Returns the offsets of the first and of the last window that is the needle.
fn ends(units: &[u16], needle: &[u16]) -> (Option<usize>, Option<usize>) {
    let (mut first, mut last) = (None, None);
    for (offset, window) in units.windows(needle.len().max(1)).enumerate() {
        if window == needle {
            first = first.or(Some(offset));
            last = Some(offset);
        }
    }
    (first, last)
}

// Returns whether the searches find the needle first and last at these offsets.
fn are_ends<C: Unit>(units: &[C], needle: &[C], ends: (Option<usize>, Option<usize>)) -> bool {
    find(units, needle) == ends.0 && rfind(units, needle) == ends.1
}

// Returns units of 16 bits as units of 32 bits.
fn widened(alloc: Global, units: &[u16]) -> Result<Vec<u32>, AllocError> {
    units.iter().map(|unit| u32::from(*unit)).collect(alloc)
}

// Returns whether the searches find the needle where the loop does, at both widths.
fn is_found(alloc: Global, units: &[u16], needle: &[u16]) -> bool {
    let ends = ends(units, needle);
    match (widened(alloc, units), widened(alloc, needle)) {
        (Ok(wide), Ok(sought)) => are_ends(units, needle, ends) && are_ends(&wide, &sought, ends),
        _ => false,
    }
}

// Changes a unit of a word to the other letter.
fn change(random: &mut Random, units: &mut [u16]) {
    let at = random.below(units.len().max(1));
    if let Some(unit) = units.get_mut(at) {
        *unit ^= 3;
    }
}

// Returns the unit at an index in a word over and over.
fn unit_of(word: &[u16], index: usize) -> u16 {
    let at = index.checked_rem(word.len()).unwrap_or(0);
    word.get(at).copied().unwrap_or(1)
}

// Makes a list of `len` units that is a word over and over, of which `changes` are changed to the other letter.
fn repeat(
    random: &mut Random,
    units: &mut Vec<u16>,
    word: &[u16],
    len: usize,
    changes: usize,
) -> Result<(), AllocError> {
    for index in 0..len {
        units.push(unit_of(word, index))?;
    }
    for _ in 0..changes {
        change(random, units);
    }
    Ok(())
}

// Puts a needle at an offset.
fn put(units: &mut [u16], needle: &[u16], at: usize) {
    for (offset, unit) in needle.iter().enumerate() {
        if let Some(put) = units.get_mut(at.saturating_add(offset)) {
            *put = *unit;
        }
    }
}

// Makes a needle of a word over and over, and a text of this word, in which the needle is put at an offset.
fn repeat_both(units: &mut Vec<u16>, needle: &mut Vec<u16>, seed: u64) -> Result<(), AllocError> {
    let mut random = Random::new(seed);
    let mut word = [1; 4];
    let last = random.below(4);
    for unit in word.iter_mut().take(last.saturating_add(1)) {
        *unit = if random.below(3) == 0 { 2 } else { 1 };
    }
    let word = &word[..=last];
    let len = random.below(300).saturating_add(20);
    let changes = random.below(3);
    repeat(&mut random, needle, word, len, changes)?;
    let changes = random.below(9);
    repeat(&mut random, units, word, 3000, changes)?;
    if random.below(4) > 0 {
        put(units, needle, random.below(2600));
    }
    Ok(())
}

// Returns whether a needle of a word over and over is found in a text of this word.
fn is_found_in_words(alloc: Global, seed: u64) -> bool {
    let (mut units, mut needle) = (Vec::new(alloc), Vec::new(alloc));
    repeat_both(&mut units, &mut needle, seed).is_ok() && is_found(alloc, &units, &needle)
}

#[test]
fn words_over_and_over(rt: HostRuntime) {
    for seed in 0..60 {
        case_holds(&rt, seed, is_found_in_words(rt.alloc(), seed as u64));
    }
}

// Appends equal units.
fn push_equals(units: &mut Vec<u16>, count: usize) -> Result<(), AllocError> {
    Ok(units.resize(units.len().saturating_add(count), 1)?)
}

// Makes a needle of equal units but one in the middle.
fn push_needle(needle: &mut Vec<u16>, side: usize) -> Result<(), AllocError> {
    push_equals(needle, side)?;
    needle.push(2)?;
    push_equals(needle, side)
}

// Appends `front`, equal units, `back` and equal units again.
fn push_between(
    units: &mut Vec<u16>,
    front: &[u16],
    back: &[u16],
    side: usize,
) -> Result<(), AllocError> {
    units.extend_from_slice(front)?;
    push_equals(units, 9000)?;
    units.extend_from_slice(back)?;
    push_equals(units, side)
}

// Returns whether the searches agree with the loop for a needle of equal units but one in the middle, in the units
// `front`, equal units, `back` and equal units again.
fn is_found_in_equals(alloc: Global, side: usize, front: &[u16], back: &[u16]) -> bool {
    let (mut units, mut needle) = (Vec::new(alloc), Vec::new(alloc));
    push_needle(&mut needle, side).is_ok()
        && push_between(&mut units, front, back, side).is_ok()
        && is_found(alloc, &units, &needle)
}

static EQUALS: [(usize, &[u16], &[u16]); 6] = [
    (250, &[], &[]),
    (250, &[1, 2], &[]),
    (250, &[], &[2]),
    (250, &[2], &[2, 1, 2]),
    (31, &[2, 1], &[2, 2]),
    (31, &[], &[2]),
];

#[test]
fn one_unit_among_equals(rt: HostRuntime) {
    for number in 0..EQUALS.len() {
        let (side, front, back) = EQUALS[number];
        case_holds(
            &rt,
            number,
            is_found_in_equals(rt.alloc(), side, front, back),
        );
    }
}

// Appends units that no needle of these tests has.
fn push_others(random: &mut Random, units: &mut Vec<u16>, count: usize) -> Result<(), AllocError> {
    for _ in 0..count {
        let other = u16::try_from(random.below(9)).unwrap_or(0);
        units.push(other.saturating_add(3))?;
    }
    Ok(())
}

// Appends 600 units that the needle has, `others` units that it does not have, in two of three cases the needle, up to
// 9,000 other units again, and 600 units that the needle has.
fn push_around(
    random: &mut Random,
    units: &mut Vec<u16>,
    needle: &[u16],
    others: usize,
) -> Result<(), AllocError> {
    push_equals(units, 600)?;
    push_others(random, units, others)?;
    if random.below(3) > 0 {
        units.extend_from_slice(needle)?;
    }
    let count = random.below(9000);
    push_others(random, units, count)?;
    push_equals(units, 600)
}

// Returns whether the searches agree with the loop for a needle of equal units but one in the middle, in a text whose
// first and last units alone are equal to those, with `others` different units before the needle. For most needles the
// two-way search takes over among the first units, and stops in the different ones or finds the needle before.
fn is_found_among_others(alloc: Global, seed: u64, others: usize) -> bool {
    let mut random = Random::new(seed);
    let side = random.below(30).saturating_add(2);
    let (mut units, mut needle) = (Vec::new(alloc), Vec::new(alloc));
    push_needle(&mut needle, side).is_ok()
        && push_around(&mut random, &mut units, &needle, others).is_ok()
        && is_found(alloc, &units, &needle)
}

#[test]
fn equals_around_others(rt: HostRuntime) {
    for seed in 0..20 {
        let cases = [
            is_found_among_others(rt.alloc(), seed, 9000),
            is_found_among_others(rt.alloc(), seed, 3000),
            is_found_among_others(rt.alloc(), seed, 300),
        ];
        all_hold(&rt, &cases);
    }
}

// Appends units of which two are at an offset, if both fit a text of this length. The first of them is at each multiple
// of `step` too.
fn push_after(units: &mut Vec<u16>, len: usize, step: usize, at: usize) -> Result<(), AllocError> {
    for index in 0..len {
        units.push(if index == at.saturating_add(1) {
            2
        } else if index == at || index.checked_rem(step) == Some(0) {
            1
        } else {
            3
        })?;
    }
    Ok(())
}

// Returns whether the searches agree with the loop where two units are at an offset, if both fit a text of this length.
// The first of them is at each multiple of `step` too.
fn is_found_after(alloc: Global, len: usize, step: usize, at: usize) -> bool {
    let mut units = Vec::new(alloc);
    push_after(&mut units, len, step, at).is_ok() && is_found(alloc, &units, &[1, 2])
}

static STEPS: [(usize, [usize; 6]); 5] = [
    (1, [255, 256, 1279, 1280, 5375, 5376]),
    (100, [1323, 1324, 5495, 5496, 9595, 9596]),
    (511, [510, 511, 1534, 1535, 2299, 2300]),
    (512, [511, 512, 767, 768, 1279, 1280]),
    (5000, [0, 254, 257, 11_997, 11_998, 11_999]),
];

// Returns whether the searches agree with the loop for a text of 12,000 units, where two units are at one of the
// offsets, and the first of them is at each multiple of `step` too.
fn are_found_after(alloc: Global, step: usize, offsets: &[usize]) -> bool {
    let mut well = true;
    for at in offsets {
        well &= is_found_after(alloc, 12_000, step, *at);
    }
    well
}

// The needle of two units occurs at one offset alone, and its first unit at many other offsets. A search goes from one
// first unit to the next, then looks for both at up to 4,096 offsets, then for the first one again. The offsets are
// around the ends of such stretches, near the ends of the text, or far from both.
#[test]
fn two_units_after_the_first_alone(rt: HostRuntime) {
    for row in 0..STEPS.len() {
        let (step, offsets) = STEPS[row];
        case_holds(&rt, step, are_found_after(rt.alloc(), step, &offsets));
    }
    for len in 255..260usize {
        let is_last_but_one = is_found_after(rt.alloc(), len, 7, len.saturating_sub(2));
        let is_last = is_found_after(rt.alloc(), len, 7, len.saturating_sub(1));
        case_holds(&rt, len, is_last_but_one && is_last);
    }
}

// Appends units of which two are at an offset, if both fit a text of this length, and neither of them occurs elsewhere.
fn push_alone(units: &mut Vec<u16>, len: usize, at: usize) -> Result<(), AllocError> {
    for index in 0..len {
        units.push(if index == at {
            1
        } else if index == at.saturating_add(1) {
            2
        } else {
            3
        })?;
    }
    Ok(())
}

// Returns whether the searches agree with the loop where two units are at an offset, if both fit a text of this length,
// and neither of them occurs elsewhere.
fn is_found_alone(alloc: Global, len: usize, at: usize) -> bool {
    let mut units = Vec::new(alloc);
    push_alone(&mut units, len, at).is_ok() && is_found(alloc, &units, &[1, 2])
}

// Returns whether the searches agree with the loop for a text of this length, at offsets near its end and at its
// beginning.
fn are_found_alone(alloc: Global, len: usize) -> bool {
    let mut well = true;
    for back in [0, 1, 2, 3, 8, 16, 17, len] {
        well &= is_found_alone(alloc, len, len.saturating_sub(back));
    }
    well
}

static LENGTHS: [usize; 19] = [
    0, 1, 2, 7, 8, 9, 15, 16, 17, 31, 33, 64, 255, 256, 257, 258, 259, 2048, 5000,
];

#[test]
fn two_units_that_stand_nowhere_else(rt: HostRuntime) {
    for index in 0..LENGTHS.len() {
        let len = LENGTHS[index];
        case_holds(&rt, len, are_found_alone(rt.alloc(), len));
    }
}
