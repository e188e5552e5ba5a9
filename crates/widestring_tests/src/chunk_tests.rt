//! Tests of `transcode` with texts split in many ways, with faults, pairs, BOMs and zero units around the ends of the
//! chunks that it reads. The expected result is what the standard library's decoder makes of the whole file.
use crate::all_hold::{all_hold, case_holds};
use std::alloc::{AllocError, Global};
use widestring::Policy;
use widestring::bytes::{FromWrite, Mode, transcode, transcode_with};
use widestring::error::TranscodeError;
use widestring_testing::SlowSource;

// The greatest number of bytes that `transcode` takes at once.
const PIECE: usize = 4096;

// A text of UTF-16 in a file.
#[derive(Clone, Copy)]
struct File<'a> {
    units: &'a [u16],
    is_big: bool,
    has_mark: bool,
    is_odd: bool,
}

impl File<'_> {
    fn push_unit(self, bytes: &mut Vec<u8>, unit: u16) -> Result<(), AllocError> {
        let pair = if self.is_big {
            unit.to_be_bytes()
        } else {
            unit.to_le_bytes()
        };
        Ok(bytes.extend_from_slice(&pair)?)
    }

    fn push_bytes(self, bytes: &mut Vec<u8>) -> Result<(), AllocError> {
        if self.has_mark {
            self.push_unit(bytes, 0xfeff)?;
        }
        for unit in self.units {
            self.push_unit(bytes, *unit)?;
        }
        if self.is_odd {
            bytes.push(b'x')?;
        }
        Ok(())
    }

    // Returns the units without a last zero, if the file has whole units.
    fn read_units(&self) -> &[u16] {
        match self.units {
            [prefix @ .., 0] if !self.is_odd => prefix,
            units => units,
        }
    }
}

// What happens at a fault.
#[derive(Clone, Copy, PartialEq, Eq)]
enum Run {
    // By `transcode`: the run ends.
    Strict,
    // By `transcode`: U+FFFD is written.
    Lossy,
    // By `transcode_with`: what the policy says.
    With(Policy),
}

impl Run {
    // Returns whether U+FFFD is written for a fault.
    fn marks(self, after_fault: bool) -> bool {
        match self {
            Run::With(Policy::Run) => !after_fault,
            Run::With(Policy::Skip) | Run::Strict => false,
            Run::With(Policy::Each) | Run::Lossy => true,
        }
    }
}

// Appends the text of units, up to the first fault if the run then ends.
fn push_text(text: &mut String, units: &[u16], run: Run) -> Result<(), AllocError> {
    let mut after_fault = false;
    for read in char::decode_utf16(units.iter().copied()) {
        let is_fault = read.is_err();
        if is_fault && run == Run::Strict {
            break;
        }
        if !is_fault || run.marks(after_fault) {
            text.push(read.unwrap_or('\u{fffd}'))?;
        }
        after_fault = is_fault;
    }
    Ok(())
}

// Returns the first fault of units as an error, if there is one.
fn check(units: &[u16]) -> Result<(), TranscodeError> {
    let (mut index, mut item) = (0usize, 0usize);
    for read in char::decode_utf16(units.iter().copied()) {
        match read {
            Ok(c) => {
                index = index.saturating_add(c.len_utf16());
                item = item.saturating_add(1);
            }
            Err(fault) => {
                let unit = fault.unpaired_surrogate();
                return Err(TranscodeError::Utf16 { index, item, unit });
            }
        }
    }
    Ok(())
}

// Returns how the run of a file ends.
fn ending(file: File<'_>, run: Run) -> Result<(), TranscodeError> {
    if run == Run::Strict {
        check(file.read_units())?;
    }
    if file.is_odd {
        return Err(TranscodeError::OddLength);
    }
    Ok(())
}

// Returns whether bytes become this text and the run ends like this, with a source that gives `step` bytes in a call.
fn is_transcoded(
    alloc: Global,
    bytes: &[u8],
    step: usize,
    run: Run,
    text: &str,
    ending: Result<(), TranscodeError>,
) -> bool {
    let mut source = SlowSource::new(bytes, step);
    let mut sink = FromWrite::new(Vec::new(alloc));
    let answer = match run {
        Run::Strict => transcode(&mut source, &mut sink, Mode::Strict),
        Run::Lossy => transcode(&mut source, &mut sink, Mode::Lossy),
        Run::With(policy) => transcode_with(&mut source, &mut sink, policy),
    };
    (answer == ending) & (sink.into_inner().as_slice() == text.as_bytes())
}

// Returns whether the file becomes what the decoder makes of it, with a source that gives `step` bytes in a call.
fn becomes_it(alloc: Global, file: File<'_>, step: usize, run: Run) -> bool {
    let (mut bytes, mut text) = (Vec::new(alloc), String::new(alloc));
    file.push_bytes(&mut bytes).is_ok()
        && push_text(&mut text, file.read_units(), run).is_ok()
        && is_transcoded(alloc, &bytes, step, run, &text, ending(file, run))
}

static INSERTS: [&[u16]; 8] = [
    &[0xd83d, 0xde00],
    &[0xd800],
    &[0xdc00],
    &[0xdfff, 0xdbff, 0xdc00, 0xd800],
    &[0],
    &[0, 0, 0],
    &[0xfeff, 0xfffe],
    &[0xd800, 0],
];

static STEPS: [usize; 6] = [1, 2, 3, 4095, 4096, 0];

// Returns a unit at this index: mostly ASCII, and blocks of other characters.
fn unit_at(index: usize) -> u16 {
    let pair = [0xd83d, 0xde00];
    match index / 32 % 8 {
        0 => 0xe9,
        1 => 0x4e16,
        2 => pair[index % 2],
        _ => 0x61,
    }
}

// Appends `offset` units, then `insert`, then some more units.
fn push_around(units: &mut Vec<u16>, offset: usize, insert: &[u16]) -> Result<(), AllocError> {
    for index in 0..offset {
        units.push(unit_at(index))?;
    }
    units.extend_from_slice(insert)?;
    Ok(units.resize(units.len().saturating_add(offset % 3), 0x4e16)?)
}

// Makes a file of units. `kind` selects the byte order, a BOM and half a unit at the end.
fn file_of(units: &[u16], kind: usize) -> File<'_> {
    File {
        units,
        is_big: kind % 2 == 1,
        has_mark: kind % 2 == 1 || kind / 2 % 2 == 1,
        is_odd: kind / 4 % 2 == 1,
    }
}

// Returns whether files of each kind become what they should. Each is split in one way.
fn is_well_in_kinds(alloc: Global, units: &[u16], offset: usize) -> bool {
    let mut well = true;
    for kind in 0..8 {
        let file = file_of(units, kind);
        let step = STEPS[(offset % 6 + kind) % 6];
        well &= becomes_it(alloc, file, step, Run::Strict);
        well &= becomes_it(alloc, file, step, Run::Lossy);
    }
    well
}

// Returns whether files with the insert at this offset become what they should.
fn is_well_at(alloc: Global, offset: usize, insert: &[u16]) -> bool {
    let mut units = Vec::new(alloc);
    push_around(&mut units, offset, insert).is_ok() && is_well_in_kinds(alloc, &units, offset)
}

// Returns whether files with each of the inserts at this offset become what they should.
fn are_well_at(alloc: Global, offset: usize) -> bool {
    let mut well = true;
    for index in 0..INSERTS.len() {
        well &= is_well_at(alloc, offset, INSERTS[index]);
    }
    well
}

// A chunk has 2,048 units, and one less after a BOM.
static ENDS: [usize; 6] = [2043, 2045, 2046, 2047, 2048, 4094];

#[test]
fn ends_of_pieces(rt: HostRuntime) {
    for index in 0..ENDS.len() {
        case_holds(&rt, ENDS[index], are_well_at(rt.alloc(), ENDS[index]));
    }
}

// Appends letters, this many high surrogates, and more units.
fn push_faults(
    units: &mut Vec<u16>,
    letters: usize,
    faults: usize,
    more: &[u16],
) -> Result<(), AllocError> {
    units.resize(letters, 0x61)?;
    units.resize(letters.saturating_add(faults), 0xd800)?;
    Ok(units.extend_from_slice(more)?)
}

// Returns whether units become what they should under each policy, with sources of several steps.
fn is_well_in_steps(alloc: Global, units: &[u16]) -> bool {
    let file = file_of(units, 0);
    let mut well = true;
    for step in [1, 3, PIECE, 0] {
        well &= becomes_it(alloc, file, step, Run::With(Policy::Each));
        well &= becomes_it(alloc, file, step, Run::With(Policy::Run));
        well &= becomes_it(alloc, file, step, Run::With(Policy::Skip));
    }
    well
}

// Returns whether letters, high surrogates and more units become what they should.
fn is_well_after(alloc: Global, letters: usize, faults: usize, more: &[u16]) -> bool {
    let mut units = Vec::new(alloc);
    push_faults(&mut units, letters, faults, more).is_ok() && is_well_in_steps(alloc, &units)
}

// What follows a run of faults: nothing, a letter, and more runs around U+FFFD and zero units.
static AFTER: [&[u16]; 4] = [&[], &[0x61], &[0xfffd, 0xdc00, 0xd800], &[0, 0xd800, 0]];

// Returns whether letters and high surrogates become what they should, whatever follows them.
fn are_well_after(alloc: Global, letters: usize, faults: usize) -> bool {
    let mut well = true;
    for index in 0..AFTER.len() {
        well &= is_well_after(alloc, letters, faults, AFTER[index]);
    }
    well
}

// Numbers of letters, and of high surrogates after them.
static CASES: [(usize, usize); 6] = [
    (2045, 3),
    (2046, 3),
    (2047, 3),
    (2048, 1),
    (0, 5000),
    (4095, 4),
];

#[test]
fn rows_of_faults(rt: HostRuntime) {
    for index in 0..CASES.len() {
        let (letters, faults) = CASES[index];
        case_holds(&rt, letters, are_well_after(rt.alloc(), letters, faults));
    }
}

// Returns whether a file of a BOM, letters and these units becomes what it should.
fn is_well_after_mark(alloc: Global, letters: usize, pair: &[u16], step: usize) -> bool {
    let mut units = Vec::new(alloc);
    push_faults(&mut units, letters, 0, pair).is_ok()
        && becomes_it(alloc, file_of(&units, 2), step, Run::Strict)
}

#[test]
fn pairs_across_pieces(rt: HostRuntime) {
    let pair = [0xd83d, 0xde00];
    let cases = [
        is_well_after_mark(rt.alloc(), 2047, &[], PIECE - 1),
        is_well_after_mark(rt.alloc(), 2046, &pair, PIECE),
        is_well_after_mark(rt.alloc(), 2046, &pair, 1),
    ];
    all_hold(&rt, &cases);
}

// Returns whether a fault is returned before the source is called again, which would fail.
fn is_returned_at_once(alloc: Global, step: usize, calls: usize) -> bool {
    let bytes = b"a\x00\x00\x00\x00\xdc";
    let mut source = SlowSource::failing_at(bytes, step, calls.saturating_add(1));
    let mut sink = FromWrite::new(Vec::new(alloc));
    let fault = TranscodeError::Utf16 {
        index: 2,
        item: 2,
        unit: 0xdc00,
    };
    let mut well = transcode(&mut source, &mut sink, Mode::Strict) == Err(fault);
    well &= source.calls == calls;
    well & (sink.into_inner().as_slice() == b"a\x00".as_slice())
}

#[test]
fn faults_are_returned_at_once(rt: HostRuntime) {
    let cases = [
        is_returned_at_once(rt.alloc(), 1, 6),
        is_returned_at_once(rt.alloc(), 2, 3),
        is_returned_at_once(rt.alloc(), 4, 2),
        is_returned_at_once(rt.alloc(), PIECE, 1),
    ];
    all_hold(&rt, &cases);
}
