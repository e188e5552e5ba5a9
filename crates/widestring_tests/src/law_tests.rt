//! Tests of the laws, which make the calls that the laws are about.
use crate::all_hold::all_hold;
use std::cmp::Ordering;
use std::hash::{DefaultHasher, Hash, Hasher};
use std::test::Fail;
use widestring::bytes::BoM;
use widestring::{U16CStr, U16Str, U32CStr, U32Str, bytes, ucstr, unit, ustr};

#[test]
fn of_units() {
    unit::laws::one_segmentation();
    unit::laws::segmentations_by_form();
    unit::laws::neighbours_matter();
    unit::laws::joined_items();
    unit::laws::units_of_utf32();
    unit::laws::lossy_text();
    unit::laws::encoded_characters();
    unit::laws::boundaries();
    unit::laws::first_faults();
    unit::laws::offsets_of_characters();
    unit::laws::spliced_text();
    unit::laws::encodings_of_edits();
    unit::laws::filtered_text();
    unit::laws::equal_characters();
    unit::laws::utf8_of_characters();
    unit::laws::code_points_of_text();
    unit::laws::worked_items();
    unit::laws::worked_lossy();
    unit::laws::worked_fault();
    unit::laws::order_agrees();
    unit::laws::lines_of_units();
    ucstr::laws::contents_and_nul();
    ucstr::laws::order_of_contents();
    bytes::laws::worked_units();
    bytes::laws::bytes_of_their_units(BoM::Big, &[0xd8, 0x3d, 0x41]);
    bytes::laws::units_of_their_bytes(BoM::Little, &[0xd83d, 0]);
}

fn hash_of(value: &impl Hash) -> u64 {
    let mut hasher = DefaultHasher::new();
    value.hash(&mut hasher);
    hasher.finish()
}

#[test]
fn of_order_and_hash(rt: HostRuntime) -> Result<(), Fail> {
    let (less, more) = (U16Str::from_slice(&[0xd800]), U16Str::from_slice(&[0xe000]));
    let wide = U32Str::from_slice(&[0x11_0000]);
    let (short, longer) = (U16CStr::default(), U16CStr::from_slice(&[1, 0])?);
    let wide_c_string = U32CStr::default();
    let mut state = DefaultHasher::new();
    ustr::laws::hash_of_units(less, &mut state);
    let mut c_state = DefaultHasher::new();
    ucstr::laws::hash_of_units(longer, &mut c_state);
    let cases = [
        ustr::laws::comparisons_of_units16(less, more) == (false, Ordering::Less),
        ustr::laws::comparisons_of_units32(wide, wide) == (true, Ordering::Equal),
        ucstr::laws::comparisons_of_units16(longer, short) == (false, Ordering::Greater),
        ucstr::laws::comparisons_of_units32(wide_c_string, wide_c_string)
            == (true, Ordering::Equal),
        state.finish() == hash_of(&less),
        c_state.finish() == hash_of(&longer),
    ];
    all_hold(&rt, &cases);
    Ok(())
}
