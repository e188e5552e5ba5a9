//! Tests of the searches: each is called once on units that have what it searches for, and once on units that do not.
use crate::buffer_cases::all_hold;
use crate::search::{
    wide_utf16_find, wide_utf16_find_ignore_ascii_case, wide_utf16_find_unit,
    wide_utf16_first_fault, wide_utf16_first_fault_item, wide_utf16_first_nul, wide_utf16_rfind,
    wide_utf32_find, wide_utf32_find_ignore_ascii_case, wide_utf32_find_unit,
    wide_utf32_first_fault, wide_utf32_first_fault_item, wide_utf32_first_nul, wide_utf32_rfind,
};

fn finds_of16(units: &[u16; 72]) -> [bool; 19] {
    [
        wide_utf16_first_fault(units) == 70,
        wide_utf16_first_fault(&units[..70]) == 70,
        wide_utf16_first_fault_item(units) == 70,
        wide_utf16_first_fault_item(&units[..70]) == usize::MAX,
        wide_utf16_first_fault_item(&[0xd83d, 0xde00, 0x61, 0xde00]) == 2,
        wide_utf16_first_nul(units) == 69,
        wide_utf16_first_nul(&units[..69]) == 69,
        wide_utf16_find_unit(units, 0xd83d) == 70,
        wide_utf16_find_unit(units, 0x62) == 72,
        wide_utf16_find(units, &[0x61, 0]) == 68,
        wide_utf16_find(units, &[0, 0]) == usize::MAX,
        wide_utf16_find(units, &[]) == 0,
        wide_utf16_rfind(units, &[0x61, 0x61]) == 67,
        wide_utf16_rfind(units, &[0xd83d]) == 70,
        wide_utf16_rfind(units, &[0, 0]) == usize::MAX,
        wide_utf16_rfind(units, &[]) == 72,
        wide_utf16_find_ignore_ascii_case(units, &[0x41, 0]) == 68,
        wide_utf16_find_ignore_ascii_case(units, &[0xc1]) == usize::MAX,
        wide_utf16_find_ignore_ascii_case(units, &[]) == 0,
    ]
}

fn finds_of32(wide: &[u32; 72]) -> [bool; 18] {
    [
        wide_utf32_first_fault(wide) == 70,
        wide_utf32_first_fault(&wide[..70]) == 70,
        wide_utf32_first_fault_item(wide) == 70,
        wide_utf32_first_fault_item(&wide[..70]) == usize::MAX,
        wide_utf32_first_nul(wide) == 69,
        wide_utf32_first_nul(&wide[..69]) == 69,
        wide_utf32_find_unit(wide, 0xd83d) == 70,
        wide_utf32_find_unit(wide, 0x62) == 72,
        wide_utf32_find(wide, &[0x61, 0]) == 68,
        wide_utf32_find(wide, &[0, 0]) == usize::MAX,
        wide_utf32_find(wide, &[]) == 0,
        wide_utf32_rfind(wide, &[0x61, 0x61]) == 67,
        wide_utf32_rfind(wide, &[0xd83d]) == 70,
        wide_utf32_rfind(wide, &[0, 0]) == usize::MAX,
        wide_utf32_rfind(wide, &[]) == 72,
        wide_utf32_find_ignore_ascii_case(wide, &[0x41, 0]) == 68,
        wide_utf32_find_ignore_ascii_case(wide, &[0xc1]) == usize::MAX,
        wide_utf32_find_ignore_ascii_case(wide, &[]) == 0,
    ]
}

#[test]
fn finds_units_of_a_text(rt: HostRuntime) {
    let mut units = [0x61u16; 72];
    units[69] = 0;
    units[70] = 0xd83d;
    all_hold(&rt, &finds_of16(&units));
    let mut wide = [0x61u32; 72];
    wide[69] = 0;
    wide[70] = 0xd83d;
    all_hold(&rt, &finds_of32(&wide));
}
