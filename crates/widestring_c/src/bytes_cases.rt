//! Tests of UTF-16 in bytes of both byte orders: each kind of character and of fault, at each offset of short texts and
//! around the ends of chunks. They convert the bytes as a whole, and as a caller reads a stream. The standard library
//! makes the expected results.
use crate::buffer_cases::{
    Case, Fit, KINDS16, Targets, Way, all_hold, first_failure, none_fails, put,
};
use crate::bytes::{
    wide_utf16_bytes_complete, wide_utf16_bytes_end_in_fault, wide_utf16_bytes_first_fault,
    wide_utf16_bytes_order, wide_utf16_bytes_to_utf8, wide_utf16_bytes_to_utf8_lossy_with,
};

// Groups of cases: the least and the greatest length of texts in units, and the first and the last offset at which a
// kind is put. Short texts have all offsets, longer ones those around the ends of chunks of 1024 units. Texts of 18 and
// 64 units end as those of 1026 and 2101 units do.
static LENGTHS: [(usize, usize, usize, usize); 7] = [
    (0, 0, 0, 0),
    (1, 1, 0, 1),
    (5, 5, 0, 5),
    (18, 18, 12, 18),
    (64, 64, 6, 13),
    (1026, 1026, 1020, 1026),
    (2101, 2101, 2043, 2050),
];

// Chunk sizes of streams, and the greatest length of a text that is read in chunks of the size, in bytes. A stream of
// letters in chunks of 1, 2, 3 or 7 bytes is in its first state again after 42 bytes. So texts with 1008 or 2037 fewer
// letters before a fault reach the same calls.
static SIZES: [(usize, usize); 5] = [(1, 129), (2, 129), (3, 129), (7, 129), (1000, usize::MAX)];

// Writes the bytes of units in the byte order with this number, and an odd byte after them. Returns how many there are.
fn put_bytes(units: &[u16], order: u32, bytes: &mut [u8]) -> usize {
    let mut at = 0;
    for unit in units {
        let pair = if order == 0 {
            unit.to_le_bytes()
        } else {
            unit.to_be_bytes()
        };
        at = put(bytes, at, &pair);
    }
    put(bytes, at, &[0xd8])
}

// Returns the offset of the first fault, or the number of units if there is none.
fn first_fault_of(case: &Case) -> usize {
    let mut offset = case.before;
    for item in case.items {
        match item {
            Some(c) => offset = offset.saturating_add(c.len_utf16()),
            None => return offset,
        }
    }
    offset.saturating_add(case.after)
}

// Returns the rest of a text after the text of a chunk of bytes, or `None` if it does not start with that. A chunk has
// at most 1003 bytes, the greatest size plus the bytes left over, and its text at most half as many again, so the
// buffer suffices.
fn beyond<'a>(
    text: &'a [u8],
    chunk: &[u8],
    order: u32,
    policy: u32,
    after_fault: u32,
) -> Option<&'a [u8]> {
    let mut space = [0; 2048];
    let size = chunk.len().saturating_mul(2).min(space.len());
    let len = wide_utf16_bytes_to_utf8_lossy_with(
        chunk,
        order,
        policy,
        after_fault,
        &mut space[..size],
    );
    if len > size {
        return None;
    }
    text.strip_prefix(&space[..len])
}

// Returns whether bytes read in chunks of a size, as a caller reads a stream, give this text.
fn streams(bytes: &[u8], order: u32, policy: u32, size: usize, text: &[u8]) -> bool {
    // `held` are the bytes that were not converted yet. The first `come` of them have been read.
    let (mut rest, mut held, mut after_fault) = (text, bytes, 0);
    let mut come: usize = 0;
    for chunk in bytes.chunks(size.max(1)) {
        come = come.saturating_add(chunk.len()).min(held.len());
        let certain = wide_utf16_bytes_complete(&held[..come], order).min(come);
        let (put, uncertain) = held.split_at(certain);
        match beyond(rest, put, order, policy, after_fault) {
            Some(text) => rest = text,
            None => return false,
        }
        after_fault = wide_utf16_bytes_end_in_fault(put, order, after_fault);
        held = uncertain;
        come -= certain;
    }
    match beyond(rest, held, order, policy, after_fault) {
        Some(text) => text.is_empty(),
        None => false,
    }
}

fn put_text(bytes: &[u8], order: u32, way: Way, text: &mut [u8]) -> usize {
    match way {
        Way::Strict | Way::Lossy => wide_utf16_bytes_to_utf8(bytes, order, text),
        Way::By(number) => {
            let policy = number.unwrap_or(3);
            wide_utf16_bytes_to_utf8_lossy_with(bytes, order, policy, 0, text)
        }
    }
}

// Returns whether the call gives the expected result for bytes: the wanted text, or the error if `is_put` is false.
fn gives(
    targets: &mut Targets,
    bytes: &[u8],
    order: u32,
    way: Way,
    fit: Fit,
    is_put: bool,
) -> bool {
    let returned = put_text(bytes, order, way, targets.bytes.buffer(fit));
    targets.bytes.is_filled(fit, returned, is_put)
}

// Returns whether streams of bytes in chunks of each size give a text.
fn streams_each(bytes: &[u8], order: u32, policy: u32, text: &[u8]) -> bool {
    let mut well = true;
    for (size, most) in SIZES.iter() {
        well &= bytes.len() > *most || streams(bytes, order, policy, *size, text);
    }
    well
}

// Returns whether each call gives the expected result for bytes with an odd byte after them, and for the bytes without
// it.
fn both_give(targets: &mut Targets, odd: &[u8], order: u32, case: &Case, fit: Fit) -> bool {
    let even = &odd[..odd.len().saturating_sub(1)];
    let is_text = case.is_text();
    let mut well = true;
    for way in case.ways {
        let is_put = way.is_put(is_text);
        // The strict call rejects half a unit.
        let is_odd_put = is_put && !matches!(way, Way::Strict);
        // There is no lossy call on bytes without a policy.
        if !matches!(way, Way::Lossy) {
            well &= gives(targets, even, order, *way, fit, is_put);
            well &= gives(targets, odd, order, *way, fit, is_odd_put);
        }
    }
    well
}

// Returns whether streams of the bytes, with an odd byte after them and without it, give the expected result by the
// policy of a call.
fn both_stream(odd: &[u8], order: u32, way: Way, text: &[u8]) -> bool {
    match way {
        Way::By(Some(policy)) => {
            let even = &odd[..odd.len().saturating_sub(1)];
            streams_each(even, order, policy, text) & streams_each(odd, order, policy, text)
        }
        _ => true,
    }
}

// Returns whether streams of the bytes give the expected result by the policy of each call.
fn all_stream(odd: &[u8], order: u32, case: &Case, text: &[u8]) -> bool {
    let mut well = true;
    for way in case.ways {
        well &= both_stream(odd, order, *way, text);
    }
    well
}

// Returns whether the calls report the right first fault and last fault of bytes with an odd byte after them.
fn reports_faults(odd: &[u8], order: u32, case: &Case) -> bool {
    let ends = case.after == 0 && case.items.last() == Some(&None);
    let is_last = wide_utf16_bytes_end_in_fault(odd, order, 0) == u32::from(ends);
    is_last & (wide_utf16_bytes_first_fault(odd, order) == first_fault_of(case))
}

// Returns whether all calls give the expected results for the bytes of these units in the byte order with this number,
// with and without an odd byte after them.
pub(crate) fn holds_in(
    targets: &mut Targets,
    units: &[u16],
    order: u32,
    case: &Case,
    fit: Fit,
) -> bool {
    // The longest text has 2101 units.
    let mut bytes = [0; 4203];
    let len = put_bytes(units, order, &mut bytes).min(4203);
    let odd = &bytes[..len];
    let is_read = !fit.is_exact()
        || (all_stream(odd, order, case, targets.bytes.wanted())
            && reports_faults(odd, order, case));
    is_read && both_give(targets, odd, order, case, fit)
}

#[test]
fn little_endian(rt: HostRuntime) {
    let failing = first_failure(rt.alloc(), 'a', &KINDS16, &LENGTHS, Some(0));
    none_fails(&rt, 'a', failing);
}

#[test]
fn big_endian(rt: HostRuntime) {
    let failing = first_failure(rt.alloc(), 'a', &KINDS16, &LENGTHS, Some(1));
    none_fails(&rt, 'a', failing);
}

#[test]
fn marks_and_flags(rt: HostRuntime) {
    let half: &[u8] = &[0x3d, 0xd8];
    let mut space = [0xaa; 8];
    let cases = [
        wide_utf16_bytes_order(&[0xff, 0xfe, 0x61]) == 0,
        wide_utf16_bytes_order(&[0xfe, 0xff]) == 1,
        wide_utf16_bytes_order(&[0xef, 0xbb, 0xbf]) == 2,
        wide_utf16_bytes_order(&[]) == 2,
        wide_utf16_bytes_complete(&[0x61, 0, 0x3d, 0xd8, 0], 0) == 2,
        wide_utf16_bytes_complete(&[0x61, 0, 0x3d, 0xd8, 0, 0xde], 0) == 6,
        wide_utf16_bytes_complete(&[0x61, 0, 0x3d, 0xd8, 0], 1) == 4,
        wide_utf16_bytes_complete(&[0x61, 0, 0, 0], 0) == 4,
        wide_utf16_bytes_complete(&[], 1) == 0,
        wide_utf16_bytes_complete(half, 2) == 0,
        wide_utf16_bytes_end_in_fault(&[], 0, 7) == 1,
        wide_utf16_bytes_end_in_fault(half, 0, 0) == 1,
        wide_utf16_bytes_end_in_fault(&[0x61, 0], 0, 1) == 0,
        wide_utf16_bytes_end_in_fault(half, 2, 1) == 0,
        wide_utf16_bytes_first_fault(half, 3) == usize::MAX,
        wide_utf16_bytes_to_utf8(&[], 2, &mut space) == usize::MAX,
        wide_utf16_bytes_to_utf8_lossy_with(half, 0, 3, 0, &mut space) == usize::MAX,
        wide_utf16_bytes_to_utf8_lossy_with(half, 2, 0, 0, &mut space) == usize::MAX,
        wide_utf16_bytes_to_utf8_lossy_with(half, 0, 1, 1, &mut space) == 0,
        space == [0xaa; 8],
        wide_utf16_bytes_to_utf8_lossy_with(half, 0, 0, 1, &mut space) == 3,
        space == [0xef, 0xbf, 0xbd, 0xaa, 0xaa, 0xaa, 0xaa, 0xaa],
    ];
    all_hold(&rt, &cases);
}
