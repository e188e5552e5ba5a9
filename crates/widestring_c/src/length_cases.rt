//! Tests of the version, and of lengths and counts for a text with characters of each length, and for a text that ends
//! in a fault.
use crate::buffer_cases::all_hold;
use crate::lengths::{
    wide_utf8_char_count, wide_utf8_utf16_length, wide_utf8_utf32_length, wide_utf16_char_count,
    wide_utf16_utf8_length, wide_utf16_utf32_length, wide_utf32_char_count, wide_utf32_utf8_length,
    wide_utf32_utf16_length,
};
use crate::version::wide_version;

// A text with characters of each length among letters, in UTF-16, UTF-32 and UTF-8.
fn units() -> [u16; 79] {
    let mut units = [0x61; 79];
    units[70..74].copy_from_slice(&[0xdf, 0x8a9e, 0xd83d, 0xde00]);
    units
}

fn wide() -> [u32; 78] {
    let mut wide = [0x61; 78];
    wide[70..73].copy_from_slice(&[0xdf, 0x8a9e, 0x1_f600]);
    wide
}

fn text() -> [u8; 85] {
    let mut text = [0x61; 85];
    text[70..79].copy_from_slice("ß語😀".as_bytes());
    text
}

#[test]
fn counts_units_of_a_text(rt: HostRuntime) {
    let units = units();
    let wide = wide();
    let text = text();
    let cases = [
        wide_utf16_utf8_length(&units) == 84,
        wide_utf32_utf8_length(&wide) == 84,
        wide_utf8_utf16_length(&text) == 80,
        wide_utf8_utf32_length(&text) == 79,
        wide_utf16_utf32_length(&units) == 78,
        wide_utf32_utf16_length(&wide) == 79,
        wide_utf16_char_count(&units) == 78,
        wide_utf32_char_count(&wide) == 78,
        wide_utf8_char_count(&text) == 79,
        wide_utf16_utf8_length(&[]) == 0,
        wide_utf32_utf8_length(&[]) == 0,
        wide_utf8_utf16_length(&[]) == 0,
        wide_utf8_utf32_length(&[]) == 0,
        wide_utf16_utf32_length(&[]) == 0,
        wide_utf32_utf16_length(&[]) == 0,
        wide_version() == 0x00_0200,
    ];
    all_hold(&rt, &cases);
}

#[test]
fn counts_no_units_of_a_fault(rt: HostRuntime) {
    let mut units = units();
    let mut wide = wide();
    let mut text = text();
    units[78] = 0xde00;
    wide[77] = 0xde00;
    text[84] = 0xf0;
    let cases = [
        wide_utf16_utf8_length(&units) == usize::MAX,
        wide_utf32_utf8_length(&wide) == usize::MAX,
        wide_utf8_utf16_length(&text) == usize::MAX,
        wide_utf8_utf32_length(&text) == usize::MAX,
        wide_utf16_utf32_length(&units) == usize::MAX,
        wide_utf32_utf16_length(&wide) == usize::MAX,
        wide_utf16_char_count(&units) == usize::MAX,
        wide_utf32_char_count(&wide) == usize::MAX,
        wide_utf8_char_count(&text) == usize::MAX,
    ];
    all_hold(&rt, &cases);
}
