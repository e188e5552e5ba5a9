//! Tests of comparisons, of texts that differ in one unit, and of letters in the other case, in buffers that fit exactly,
//! are too short or too long. The standard library writes ASCII letters in the other case.
use crate::buffer_cases::{all_hold, put};
use crate::case::{
    wide_utf16_to_ascii_lowercase, wide_utf16_to_ascii_uppercase, wide_utf32_to_ascii_lowercase,
    wide_utf32_to_ascii_uppercase,
};
use crate::compare::{
    wide_utf16_compare_code_points, wide_utf16_eq_ignore_ascii_case,
    wide_utf32_compare_code_points, wide_utf32_eq_ignore_ascii_case,
};
use std::cmp::Ordering;

// Units at and beside the ends of the alphabets, and units past ASCII, whose low byte may be that of a letter.
static KINDS: [u16; 18] = [
    0x40, 0x41, 0x4b, 0x5a, 0x5b, 0x60, 0x61, 0x6b, 0x7a, 0x7b, 0, 0x7f, 0xc4, 0xe4, 0x141, 0x4161,
    0xd83d, 0xde00,
];

fn kind(at: usize) -> u16 {
    KINDS[at % 18]
}

fn lowercase(unit: u16) -> u16 {
    if unit < 0x80 {
        u16::from((unit as u8).to_ascii_lowercase())
    } else {
        unit
    }
}

fn uppercase(unit: u16) -> u16 {
    if unit < 0x80 {
        u16::from((unit as u8).to_ascii_uppercase())
    } else {
        unit
    }
}

// Returns whether a buffer of this capacity has the text in lower case, or in upper case, if it fits, and is unchanged
// after it. The units of the text are the kinds one after another.
fn is_changed16(len: usize, capacity: usize, is_lower: bool) -> bool {
    let (mut units, mut buffer) = ([0; 160], [0xaaaa; 160]);
    for at in 0..160 {
        units[at] = kind(at);
    }
    let (text, _) = units.split_at(len.min(160));
    let (put, _) = buffer.split_at_mut(capacity.min(160));
    let returned = if is_lower {
        wide_utf16_to_ascii_lowercase(text, put)
    } else {
        wide_utf16_to_ascii_uppercase(text, put)
    };
    let mut well = returned == len;
    for at in 0..160 {
        let changed = if is_lower {
            lowercase(kind(at))
        } else {
            uppercase(kind(at))
        };
        let is_put = at < len && len <= capacity;
        well &= buffer[at] == if is_put { changed } else { 0xaaaa };
    }
    well
}

fn is_changed32(len: usize, capacity: usize, is_lower: bool) -> bool {
    let (mut units, mut buffer) = ([0; 160], [0xaaaa_aaaa; 160]);
    for at in 0..160 {
        units[at] = u32::from(kind(at));
    }
    let (text, _) = units.split_at(len.min(160));
    let (put, _) = buffer.split_at_mut(capacity.min(160));
    let returned = if is_lower {
        wide_utf32_to_ascii_lowercase(text, put)
    } else {
        wide_utf32_to_ascii_uppercase(text, put)
    };
    let mut well = returned == len;
    for at in 0..160 {
        let changed = if is_lower {
            lowercase(kind(at))
        } else {
            uppercase(kind(at))
        };
        let is_put = at < len && len <= capacity;
        well &= buffer[at]
            == if is_put {
                u32::from(changed)
            } else {
                0xaaaa_aaaa
            };
    }
    well
}

#[test]
fn writes_units_of_the_other_case(rt: HostRuntime) {
    for len in 0..150usize {
        for is_lower in [false, true] {
            let cases = [
                is_changed16(len, len, is_lower),
                is_changed16(len, len.saturating_sub(1), is_lower),
                is_changed16(len, len + 5, is_lower),
                is_changed32(len, len, is_lower),
                is_changed32(len, len.saturating_sub(1), is_lower),
                is_changed32(len, len + 5, is_lower),
            ];
            all_hold(&rt, &cases);
        }
    }
}

// Kinds in the order of their code points: letters, surrogates that belong to no pair, and surrogate pairs.
static ORDERED16: [&[u16]; 9] = [
    &[0x6a],
    &[0x6b],
    &[0xd7ff],
    &[0xd83d],
    &[0xde00],
    &[0xe000],
    &[0xffff],
    &[0xd83d, 0xde00],
    &[0xd83d, 0xde01],
];

// Kinds in the order of their code points: letters, surrogates, and numbers past U+FFFF and past U+10FFFF.
static ORDERED32: [&[u32]; 9] = [
    &[0x6a],
    &[0x6b],
    &[0xd7ff],
    &[0xd83d],
    &[0xde00],
    &[0xe000],
    &[0x1_0000],
    &[0x11_0000],
    &[0xffff_ffff],
];

// Compares two texts of letters, each with a kind at an offset.
fn order16(at: usize, left: &[u16], right: &[u16]) -> i32 {
    let (mut units, mut other) = ([0x6b; 80], [0x6b; 80]);
    put(&mut units, at, left);
    put(&mut other, at, right);
    let len = at.saturating_add(left.len()).saturating_add(3).min(80);
    let other_len = at.saturating_add(right.len()).saturating_add(3).min(80);
    wide_utf16_compare_code_points(&units[..len], &other[..other_len])
}

fn order32(at: usize, left: &[u32], right: &[u32]) -> i32 {
    let (mut units, mut other) = ([0x6b; 80], [0x6b; 80]);
    put(&mut units, at, left);
    put(&mut other, at, right);
    wide_utf32_compare_code_points(&units, &other)
}

// Returns whether each two kinds at an offset of a text are in their order.
fn are_ordered(at: usize) -> bool {
    let mut well = true;
    for left in 0..9usize {
        for right in 0..9usize {
            let sign = match left.cmp(&right) {
                Ordering::Less => -1,
                Ordering::Equal => 0,
                Ordering::Greater => 1,
            };
            well &= order16(at, ORDERED16[left], ORDERED16[right]) == sign;
            well &= order32(at, ORDERED32[left], ORDERED32[right]) == sign;
        }
    }
    well
}

#[test]
fn orders_units_of_texts_by_code_points(rt: HostRuntime) {
    for at in 0..75 {
        assert!(rt; are_ordered(at), "kinds at {at}");
    }
    let cases = [
        wide_utf16_compare_code_points(&[], &[]) == 0,
        wide_utf16_compare_code_points(&[0x61], &[]) == 1,
        wide_utf16_compare_code_points(&[0xd83d], &[0xd83d, 0xde00]) == -1,
        wide_utf32_compare_code_points(&[], &[]) == 0,
        wide_utf32_compare_code_points(&[0x61], &[0x61, 0]) == -1,
    ];
    all_hold(&rt, &cases);
}

// Returns whether letters are the same as those with a unit at an offset exactly if the unit is the letter in either
// case.
fn is_same_letter(at: usize, unit: u16) -> bool {
    let (mut units, mut wide) = ([0x6b; 80], [0x6b; 80]);
    put(&mut units, at, &[unit]);
    put(&mut wide, at, &[u32::from(unit)]);
    let is_same = u32::from(unit == 0x6b || unit == 0x4b);
    (wide_utf16_eq_ignore_ascii_case(&units, &[0x4b; 80]) == is_same)
        & (wide_utf32_eq_ignore_ascii_case(&wide, &[0x4b; 80]) == is_same)
}

#[test]
fn compares_units_of_either_case(rt: HostRuntime) {
    for at in 0..80 {
        for unit in KINDS {
            assert!(rt; is_same_letter(at, unit), "{unit:x} at {at}");
        }
    }
    let cases = [
        wide_utf16_eq_ignore_ascii_case(&[], &[]) == 1,
        wide_utf16_eq_ignore_ascii_case(&[0x61], &[0x61, 0x61]) == 0,
        wide_utf16_eq_ignore_ascii_case(&[0xc4], &[0xe4]) == 0,
        wide_utf32_eq_ignore_ascii_case(&[], &[]) == 1,
        wide_utf32_eq_ignore_ascii_case(&[0x61, 0x61], &[0x61]) == 0,
        wide_utf32_eq_ignore_ascii_case(&[0x40], &[0x60]) == 0,
    ];
    all_hold(&rt, &cases);
}
