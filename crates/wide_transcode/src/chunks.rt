//! Transcodes UTF-16 bytes to UTF-8 bytes chunk by chunk, in a known byte order (Unicode Standard, section 3.9, D91,
//! D92). It reads chunks of at most 4096 bytes into arrays on the stack. The encoder of each chunk is vectorized.

ghost use Rattle.std.specs.Prelude.{◌≡◌, ◌≤◌, ◌-◌, ◌++◌, ℕ, List, Some, false, length, take, drop};
ghost use Rattle.std.specs.Io.KnownBytes.{Appends, Consumes};
ghost use Rattle.wide_transcode.specs.Encoded.{IsPending};
ghost use Rattle.wide_transcode.specs.Chunks.{Finishes, FinishesUnder, IsFaultAt, ReportsAfter, Starts, WantsSpace, transcoded_after, units_after};
ghost use Rattle.wide_transcode.specs.Run.{AtEnd, Ends, Moves, fails_to_read, fails_to_write};

use crate::chunk_encoding::encode_chunk;
use crate::lossy::encode_end;
use wide_bytes::{BoM, ByteSink, ByteSource, fill_units, put_all, take_after, unit_in};
use wide_error::TranscodeError;
use wide_forms::Policy;

// The length of a chunk in bytes.
pub(crate) const CHUNK_BYTES: usize = 4096;

// How many units a chunk has.
const CHUNK_UNITS: usize = CHUNK_BYTES / 2;

// The length of the buffer for the text of a chunk, in bytes: three for each unit, and some that the encoder may
// overwrite.
const TEXT_CAPACITY: usize = 3 * CHUNK_UNITS + 64;

// 2^64: the index of a unit does not fit into a `usize` from here on.
const INDEX_LIMIT: u128 = 0x1_0000_0000_0000_0000;

// Moves the bytes from `from` up to `to` to the beginning.
pub(crate) fn move_to_start(chunk: &mut [u8], from: usize, to: usize)
    requires ordered { from ≤ to }
    requires within { to ≤ length chunk.old }
    ensures { take (to - from) chunk.new ≡ drop from (take to chunk.old) }
{
    chunk.copy_within(from..to, 0);
}

// Returns the error for a fault at the unit index `offset` and the item number `item`, or `OutOfMemory` if the index
// does not fit into a `usize`.
fn fault_at(offset: u128, item: u128, unit: u16) -> TranscodeError
    requires { item ≤ offset }
    ensures { IsFaultAt result offset item unit }
{
    if offset < INDEX_LIMIT {
        TranscodeError::Utf16 {
            index: offset as usize,
            item: item as usize,
            unit,
        }
    } else {
        TranscodeError::OutOfMemory
    }
}

// Returns the result of a strict run at the end of the input, after `offset` units, which are `item` characters. `rest`
// are the bytes that were not encoded.
fn finish_strict(order: BoM, rest: &[u8], offset: u128, item: u128) -> Result<(), TranscodeError>
    requires pending { IsPending order rest.now }
    requires few { item ≤ offset }
    ensures { Finishes result order rest.now offset item }
{
    if rest.len() == 1 {
        return Err(TranscodeError::OddLength);
    }
    // A whole unit that was not encoded is a zero unit, which is dropped, or a high surrogate, which no unit follows.
    if rest.len() >= 2 {
        let unit = unit_in(order, rest[0], rest[1]);
        if unit != 0 {
            return Err(fault_at(offset, item, unit));
        }
    }
    Ok(())
}

// A position in the units of the input, after the BOM.
#[derive(Clone, Copy, Debug)]
struct Position {
    // How many units are before the position.
    offset: u128,
    // How many characters are before the position, in a strict run. Under a policy nothing reads it.
    item: u128,
    // Whether the last item before the position is a fault. It is false in a strict run.
    after_fault: bool,
}

// Returns the result at the end of the input. `rest` are the bytes that were not encoded. Under a policy their lossy
// text is written.
fn finish<K: ByteSink>(
    order: BoM,
    sink: &mut K,
    rest: &[u8],
    out: &mut [u8],
    policy: Option<Policy>,
    position: Position,
) -> Result<(), TranscodeError>
    requires sink_unfailed { K.has_failed sink.old ≡ false }
    requires pending { IsPending order rest.now }
    requires space { 3 ≤ length out.old }
    requires few { position.item ≤ position.offset }
    ensures run { (last : List ℕ) × Appends (K.held sink.old) (K.held sink.new) last × FinishesUnder result order policy position.after_fault rest.now position.offset position.item last }
    ensures sink_failed { K.has_failed sink.new ≡ fails_to_write result }
{
    let Some(policy) = policy else {
        return finish_strict(order, rest, position.offset, position.item);
    };
    let len = encode_end(order, rest, out, policy, position.after_fault);
    put_all(sink, &out[..len])?;
    if rest.len() % 2 == 1 {
        Err(TranscodeError::OddLength)
    } else {
        Ok(())
    }
}

/// Takes bytes into the beginning of the chunk until there are at least two, or the input ends. Returns how many were
/// taken.
///
/// # Requires
///
/// The source has neither failed nor ended. The chunk has at least two bytes.
///
/// # Errors
///
/// [`TranscodeError::Read`] if the source fails.
pub(crate) fn take_start<S: ByteSource>(
    source: &mut S,
    chunk: &mut [u8],
) -> Result<usize, TranscodeError>
    requires valid { S.has_failed source.old ≡ false }
    requires open { S.has_ended source.old ≡ false }
    requires space { 2 ≤ length chunk.old }
    ensures { (bytes : List ℕ) × Consumes (S.left source.old) (S.left source.new) bytes × Starts result bytes chunk.new (S.left source.new) (S.has_failed source.new) (S.has_ended source.new) }
{
    let mut pending = 0;
    'takes: while pending < 2 {
        match take_after(source, chunk, pending) {
            Ok(0) => return Ok(pending),
            Ok(n) => pending += n,
            Err(_) => return Err(TranscodeError::Read),
        }
    }
    Ok(pending)
}

// Transcodes chunk by chunk: all text under a policy, and in a strict run, which has no policy, the characters before
// the first fault. `chunk` begins with `start` bytes of the input, those read after the BOM. `spare` is space for the
// units of lossy text, and unused in a strict run.
fn transcode_chunks<S: ByteSource, K: ByteSink>(
    order: BoM,
    source: &mut S,
    sink: &mut K,
    chunk: &mut [u8],
    start: usize,
    spare: &mut [u16],
    policy: Option<Policy>,
) -> Result<(), TranscodeError>
    requires source_unfailed { S.has_failed source.old ≡ false }
    requires source_open { S.has_ended source.old ≡ false }
    requires sink_unfailed { K.has_failed sink.old ≡ false }
    requires long { 4 ≤ length chunk.old }
    requires short { length chunk.old ≤ 4096 }
    requires within { start ≤ length chunk.old }
    requires spare { (lossy : Policy) → policy ≡ Some lossy → 2048 ≤ length spare.old }
    ensures run { (bytes written : List ℕ)
        × Moves (S.left source.old) (S.left source.new) (K.held sink.old) (K.held sink.new) bytes written
        × Ends result (S.has_ended source.new) (λ more. transcoded_after order policy (take start chunk.old ++ more)) bytes written
        × WantsSpace result (units_after order (take start chunk.old ++ bytes))
        × ReportsAfter result (S.has_ended source.new) order policy (take start chunk.old ++ bytes) }
    ensures at_end { AtEnd result (S.left source.new) }
    ensures source_failed { S.has_failed source.new ≡ fails_to_read result }
    ensures sink_failed { K.has_failed sink.new ≡ fails_to_write result }
{
    let mut units = [0u16; CHUNK_UNITS];
    let mut out = [0u8; TEXT_CAPACITY];
    let mut pending = start;
    let mut position = Position {
        offset: 0,
        item: 0,
        after_fault: false,
    };
    'chunks: loop {
        fill_units(order, &chunk[..pending], &mut units);
        let bytes = &chunk[..pending];
        let filled = &units[..pending / 2];
        let after_fault = position.after_fault;
        let step = encode_chunk(order, bytes, filled, &mut out, spare, policy, after_fault);
        put_all(sink, &out[..step.written])?;
        position.offset += (step.read / 2) as u128;
        position.item += step.characters as u128;
        position.after_fault = step.after_fault;
        if let Some(unit) = step.fault {
            return Err(fault_at(position.offset, position.item, unit));
        }
        // Past as many units as a `usize` can index, a later fault could not be reported.
        if INDEX_LIMIT < position.offset {
            return Err(TranscodeError::OutOfMemory);
        }
        move_to_start(chunk, step.read, pending);
        pending -= step.read;
        match take_after(source, chunk, pending) {
            Ok(0) => return finish(order, sink, &chunk[..pending], &mut out, policy, position),
            Ok(n) => pending += n,
            Err(_) => return Err(TranscodeError::Read),
        }
    }
}

/// Transcodes the first `start` bytes of the chunk, which follow the BOM, and then the bytes of the source: under the
/// policy, and strictly without a policy.
///
/// # Requires
///
/// The source has neither failed nor ended, and the sink has not failed. The chunk has at least 4 and at most 4096
/// bytes, and `start` is at most its length.
///
/// # Errors
///
/// The errors of [`transcode`](crate::transcode), or under a policy those of [`transcode_with`](crate::transcode_with).
pub(crate) fn transcode_after<S: ByteSource, K: ByteSink>(
    order: BoM,
    source: &mut S,
    sink: &mut K,
    chunk: &mut [u8],
    start: usize,
    policy: Option<Policy>,
) -> Result<(), TranscodeError>
    requires source_unfailed { S.has_failed source.old ≡ false }
    requires source_open { S.has_ended source.old ≡ false }
    requires sink_unfailed { K.has_failed sink.old ≡ false }
    requires long { 4 ≤ length chunk.old }
    requires short { length chunk.old ≤ 4096 }
    requires within { start ≤ length chunk.old }
    ensures run { (bytes written : List ℕ)
        × Moves (S.left source.old) (S.left source.new) (K.held sink.old) (K.held sink.new) bytes written
        × Ends result (S.has_ended source.new) (λ more. transcoded_after order policy (take start chunk.old ++ more)) bytes written
        × WantsSpace result (units_after order (take start chunk.old ++ bytes))
        × ReportsAfter result (S.has_ended source.new) order policy (take start chunk.old ++ bytes) }
    ensures at_end { AtEnd result (S.left source.new) }
    ensures source_failed { S.has_failed source.new ≡ fails_to_read result }
    ensures sink_failed { K.has_failed sink.new ≡ fails_to_write result }
{
    // Only lossy text needs spare units, and they cost time to clear.
    if policy.is_none() {
        return transcode_chunks(order, source, sink, chunk, start, &mut [], policy);
    }
    let mut spare = [0u16; CHUNK_UNITS];
    transcode_chunks(order, source, sink, chunk, start, &mut spare, policy)
}
