//! The examples of `widestring::unit`.
use crate::holds;
use std::cmp::Ordering;
use std::test::Fail;
use widestring::U16Str;
use widestring::unit::{
    AnyUnits, FirstFault, Policy, Unit, ascii_lowercase, ascii_uppercase, check, cmp_code_points,
    common_prefix, common_prefix_ignore_ascii_case, first_nul, length_as_utf16, length_as_utf32,
    order_of_units,
};

fn example_of_unit() -> Result<bool, Fail> {
    let mut holds = u16::encode_char('😀') == (0xd83d, Some(0xde00));
    holds &= 0xd83du16.is_high() && 0xde00u16.is_low();
    holds &= 0xd83du16.pair_scalar(0xde00) == Some('😀');
    Ok(holds)
}

fn example_of_unit_char_len() -> Result<bool, Fail> {
    let mut holds = u16::char_len('😀') == 2;
    holds &= u32::char_len('😀') == 1;
    Ok(holds)
}

fn example_of_policy() -> Result<bool, Fail> {
    let view = U16Str::from_slice(&[0x48, 0xd83d, 0xd83d, 0x69]);
    let each = view.chars_lossy_with(Policy::Each);
    let mut holds = each.eq("H\u{fffd}\u{fffd}i".chars());
    holds &= view.chars_lossy_with(Policy::Run).eq("H\u{fffd}i".chars());
    holds &= view.chars_lossy_with(Policy::Skip).eq("Hi".chars());
    Ok(holds)
}

fn example_of_anyunits() -> Result<bool, Fail> {
    let units = u16::as_any(&[0xd83d, 0xde00]);
    Ok(matches!(units, AnyUnits::U16([0xd83d, 0xde00])))
}

fn example_of_firstfault() -> Result<bool, Fail> {
    let Err(fault) = check(&[0xd83du16, 0xde00, 0xd83d]) else {
        return Ok(false);
    };
    let FirstFault { index, item, unit } = fault;
    Ok((index, item, unit) == (2, 1, 0xd83d))
}

fn example_of_lossyprogress() -> Result<bool, Fail> {
    let mut text = [0; 3];
    let progress = u16::lossy_prefix(&[0x48, 0xd83d, 0xd83d], Policy::Run, false, &mut text);
    let mut holds = (progress.read, progress.written) == (3, 2);
    holds &= progress.after_fault;
    Ok(holds)
}

fn example_of_first_nul() -> Result<bool, Fail> {
    let buffer = [0x48u16, 0x69, 0, 0];
    let mut holds = first_nul(&buffer) == Some(2);
    holds &= first_nul(&[0x48u16, 0x69]).is_none();
    Ok(holds)
}

fn example_of_common_prefix() -> Result<bool, Fail> {
    let shared = common_prefix(&[0x61u16, 0x62, 0x63], &[0x61, 0x62, 0x64, 0x65]);
    Ok(shared == 2)
}

fn example_of_cmp_code_points() -> Result<bool, Fail> {
    let (emoji, letter) = ([0x61u16, 0xd83d, 0xde00], [0x61u16, 0xff21]);
    let mut holds = order_of_units(&emoji, &letter) == Ordering::Less;
    holds &= cmp_code_points(&emoji, &letter) == Ordering::Greater;
    holds &= cmp_code_points(&emoji[..2], &letter) == Ordering::Less;
    Ok(holds)
}

fn example_of_length_as_utf16() -> Result<bool, Fail> {
    Ok(length_as_utf16("a😀") == 3)
}

fn example_of_length_as_utf32() -> Result<bool, Fail> {
    Ok(length_as_utf32("a😀") == 2)
}

fn example_of_ascii_lowercase() -> Result<bool, Fail> {
    let mut holds = ascii_lowercase(0x4b) == 0x6b;
    holds &= ascii_lowercase(0xc4) == 0xc4;
    Ok(holds)
}

fn example_of_ascii_uppercase() -> Result<bool, Fail> {
    let mut holds = ascii_uppercase(0x6b) == 0x4b;
    holds &= ascii_uppercase(0xe4) == 0xe4;
    Ok(holds)
}

fn example_of_common_prefix_ignore_ascii_case() -> Result<bool, Fail> {
    let shared = common_prefix_ignore_ascii_case(&[0x4bu16, 0xe4], &[0x6b, 0xc4]);
    Ok(shared == 1)
}

// Returns whether the examples of this module hold.
pub(crate) fn hold(rt: &HostRuntime) -> bool {
    let mut all = holds(rt, "Unit", example_of_unit());
    all &= holds(rt, "Unit::char_len", example_of_unit_char_len());
    all &= holds(rt, "Policy", example_of_policy());
    all &= holds(rt, "AnyUnits", example_of_anyunits());
    all &= holds(rt, "FirstFault", example_of_firstfault());
    all &= holds(rt, "LossyProgress", example_of_lossyprogress());
    all &= holds(rt, "first_nul", example_of_first_nul());
    all &= holds(rt, "common_prefix", example_of_common_prefix());
    all &= holds(rt, "cmp_code_points", example_of_cmp_code_points());
    all &= holds(rt, "length_as_utf16", example_of_length_as_utf16());
    all &= holds(rt, "length_as_utf32", example_of_length_as_utf32());
    all &= holds(rt, "ascii_lowercase", example_of_ascii_lowercase());
    all &= part_2_holds(rt);
    all
}

fn part_2_holds(rt: &HostRuntime) -> bool {
    let mut all = holds(rt, "ascii_uppercase", example_of_ascii_uppercase());
    all &= holds(
        rt,
        "common_prefix_ignore_ascii_case",
        example_of_common_prefix_ignore_ascii_case(),
    );
    all
}
