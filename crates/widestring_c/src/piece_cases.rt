//! Tests of conversions of as much as fits, and of a stream in pieces.
use crate::buffer_cases::all_hold;
use crate::parts::{wide_utf8_to_utf16_part, wide_utf16_to_utf8_part};
use crate::state::WideConverter;
use crate::streams::{wide_convert_push, wide_convert_start};

// A state that holds nothing that a call left.
fn unstarted() -> WideConverter {
    let unread = [0; 4];
    WideConverter {
        read: 0,
        kept: 0,
        bytes: 0,
        items: 0,
        faults: 0,
        fault_offset: 0,
        fault_item: 0,
        fault_unit: 0,
        end: 0,
        from: 9,
        to: 9,
        policy: 9,
        layout: 9,
        keeps: 0,
        after_high: 0,
        after_fault: 0,
        bom: 0,
        bom_length: 0,
        unread,
    }
}

#[test]
fn converts_what_fits(rt: HostRuntime) {
    // A letter, a pair, half of one, and a letter.
    let units = [0x61, 0xd83d, 0xde00, 0xdc00, 0x62];
    let mut short = [0; 4];
    let mut read_short = 9;
    let written_short = wide_utf16_to_utf8_part(&units, &mut short, &mut read_short);
    let mut long = [0; 9];
    let mut read_long = 9;
    let written_long = wide_utf16_to_utf8_part(&units, &mut long, &mut read_long);
    let mut pair = [0; 2];
    let mut read_pair = 9;
    let written_pair = wide_utf8_to_utf16_part("😀é".as_bytes(), &mut pair, &mut read_pair);
    let cases = [
        (written_short, read_short) == (1, 1),
        short == [0x61, 0, 0, 0],
        (written_long, read_long) == (5, 3),
        long == [0x61, 0xf0, 0x9f, 0x98, 0x80, 0, 0, 0, 0],
        (written_pair, read_pair) == (2, 4),
        pair == [0xd83d, 0xde00],
    ];
    all_hold(&rt, &cases);
}

#[test]
fn converts_a_stream_in_pieces(rt: HostRuntime) {
    let mut state = unstarted();
    let mut text = [0; 16];
    let unheld = wide_convert_push(&mut state, b"a", 1, &mut text);
    let invalid = wide_convert_start(&mut state, 3, 8, 0, 0);
    // UTF-16 with a BOM to UTF-8, up to each fault.
    let started = wide_convert_start(&mut state, 3, 0, 3, 0);
    let first = wide_convert_push(&mut state, b"\xfe\xff\0a\xd8", 0, &mut text);
    let kept = state.kept;
    let second = wide_convert_push(&mut state, b"\0\0b", 1, &mut text);
    let (end, fault) = (
        state.end,
        (state.fault_offset, state.fault_item, state.fault_unit),
    );
    let cases = [
        unheld == usize::MAX,
        invalid == 0,
        started == 1,
        first == 1,
        kept == 1,
        second == 0,
        end == 2,
        fault == (4, 1, 0xd800),
    ];
    all_hold(&rt, &cases);
}
