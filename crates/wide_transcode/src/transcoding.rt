//! Transcodes UTF-16 bytes to UTF-8 bytes (Unicode Standard, section 3.9, D91 and D92, and section 3.10, D98).

ghost use Rattle.std.specs.Prelude.{◌≡◌, ℕ, List, false};
ghost use Rattle.wide_bytes.specs.Bytes.{units_of_bytes};
ghost use Rattle.wide_transcode.specs.Chunks.{WantsSpace};
ghost use Rattle.wide_transcode.specs.Run.{AtEnd, Ends, Moves, ReportsAtOnce, fails_to_read, fails_to_write};
ghost use Rattle.wide_transcode.specs.Transcoded.{transcoded, transcoded_by, transcoded_under};

use crate::chunks::{CHUNK_BYTES, move_to_start, take_start, transcode_after};
use crate::mode::Mode;
use wide_bytes::{BoM, ByteSink, ByteSource, byte_order, without_bom};
use wide_error::TranscodeError;
use wide_forms::Policy;

// Transcodes under the policy, and strictly without a policy.
fn transcode_under<S: ByteSource, K: ByteSink>(
    source: &mut S,
    sink: &mut K,
    policy: Option<Policy>,
) -> Result<(), TranscodeError>
    requires source_unfailed { S.has_failed source.old ≡ false }
    requires source_open { S.has_ended source.old ≡ false }
    requires sink_unfailed { K.has_failed sink.old ≡ false }
    ensures run { (bytes written : List ℕ)
        × Moves (S.left source.old) (S.left source.new) (K.held sink.old) (K.held sink.new) bytes written
        × Ends result (S.has_ended source.new) (transcoded_under policy) bytes written
        × WantsSpace result (units_of_bytes bytes)
        × ReportsAtOnce result (S.has_ended source.new) (transcoded_under policy) bytes }
    ensures at_end { AtEnd result (S.left source.new) }
    ensures source_failed { S.has_failed source.new ≡ fails_to_read result }
    ensures sink_failed { K.has_failed sink.new ≡ fails_to_write result }
{
    let mut chunk = [0u8; CHUNK_BYTES];
    let pending = take_start(source, &mut chunk)?;
    if pending < 2 {
        return if pending == 0 {
            Ok(())
        } else {
            Err(TranscodeError::OddLength)
        };
    }
    let bom = byte_order(&chunk[..pending]);
    let order = bom.unwrap_or(BoM::Little);
    let len = without_bom(&chunk[..pending]).len();
    move_to_start(&mut chunk, pending - len, pending);
    transcode_after(order, source, sink, &mut chunk, len, policy)
}

/// Reads UTF-16 bytes from the source to its end, and writes their text as UTF-8 into the sink (Unicode Standard, D91,
/// D92 and D98).
///
/// A BOM at the beginning gives the byte order and is dropped; without one the order is little-endian. If the number of
/// bytes is even, one zero unit at the end is dropped. Both are the rules of the Rust crate for files. In
/// [`Mode::Strict`] the characters before the first fault are written. In [`Mode::Lossy`] all characters are written,
/// with U+FFFD in place of each fault.
///
/// The source is read in chunks of at most 4,096 bytes, and nothing is allocated. A fault is reported before the next
/// read, as soon as the whole units that were read prove it. The text of a chunk is written before the next chunk is
/// read, except for a high surrogate that a low one may still follow, and for a zero unit that may be the last: these
/// wait for the next chunk.
///
/// A read or write that failed is not repeated, and the sink is not flushed.
///
/// # Requires
///
/// The source has neither failed nor ended, and the sink has not failed.
///
/// # Errors
///
/// - [`TranscodeError::Utf16`]: in [`Mode::Strict`], the first fault. Its index is counted in units and its item number
///   in characters, both after the BOM. The text before it was written. It takes precedence over `OddLength`.
/// - [`TranscodeError::OddLength`]: the number of bytes is odd. The text of the whole units was written.
/// - [`TranscodeError::Read`]: the source failed in this call. The text of the bytes that were read was written, as if
///   they were all the input, except that [`Mode::Lossy`] writes no U+FFFD for a high surrogate at their end, because a
///   low one might have followed.
/// - [`TranscodeError::Write`]: the sink failed in this call. A prefix of the text of the bytes that were read was
///   written.
/// - [`TranscodeError::OutOfMemory`]: there are more units than an index can count. A prefix of the text was written.
///
/// After a fault or a failed write, the rest of the chunk that was read has been taken from the source and is lost.
///
/// # Example
///
/// ```
/// let mut source = FromRead::new(b"\xff\xfe\x3d\xd8\x00\xde".as_slice());
/// let mut sink = FromWrite::new(Vec::new(rt.alloc()));
/// transcode(&mut source, &mut sink, Mode::Strict)?;
/// assert!(rt; sink.into_inner().as_slice() == "😀".as_bytes());
/// ```
pub fn transcode<S: ByteSource, K: ByteSink>(
    source: &mut S,
    sink: &mut K,
    mode: Mode,
) -> Result<(), TranscodeError>
    requires source_unfailed { S.has_failed source.old ≡ false }
    requires source_open { S.has_ended source.old ≡ false }
    requires sink_unfailed { K.has_failed sink.old ≡ false }

    // The bytes that were read and written, how the call ended, and that a fault is reported before another read.
    ensures run { (bytes written : List ℕ)
        × Moves (S.left source.old) (S.left source.new) (K.held sink.old) (K.held sink.new) bytes written
        × Ends result (S.has_ended source.new) (transcoded mode) bytes written
        × WantsSpace result (units_of_bytes bytes)
        × ReportsAtOnce result (S.has_ended source.new) (transcoded mode) bytes }
    ensures at_end { AtEnd result (S.left source.new) }

    // A device failed exactly if its failure is the error that is returned.
    ensures source_failed { S.has_failed source.new ≡ fails_to_read result }
    ensures sink_failed { K.has_failed sink.new ≡ fails_to_write result }
{
    match mode {
        Mode::Strict => transcode_under(source, sink, None),
        Mode::Lossy => transcode_with(source, sink, Policy::Each),
    }
}

/// Reads UTF-16 bytes from the source to its end, and writes their lossy text under the policy as UTF-8 into the sink
/// (Unicode Standard, D91, D92 and D98). All the text is written, and no fault is an error. A run of faults counts as
/// one run, even if it spans chunks or calls of the source.
///
/// A BOM at the beginning gives the byte order and is dropped; without one the order is little-endian. If the number of
/// bytes is even, one zero unit at the end is dropped. The source is read in chunks of at most 4,096 bytes, and nothing
/// is allocated. The text of a chunk is written before the next chunk is read, except for a high surrogate that a low
/// one may still follow, and for a zero unit that may be the last: these wait for the next chunk. A read or write that
/// failed is not repeated, and the sink is not flushed.
///
/// # Requires
///
/// The source has neither failed nor ended, and the sink has not failed.
///
/// # Errors
///
/// - [`TranscodeError::OddLength`]: the number of bytes is odd. The text of the whole units was written.
/// - [`TranscodeError::Read`]: the source failed in this call. The text of the bytes that were read was written, as if
///   they were all the input, except that no U+FFFD is written for a high surrogate at their end, because a low one
///   might have followed.
/// - [`TranscodeError::Write`]: the sink failed in this call. A prefix of the text of the bytes that were read was
///   written.
/// - [`TranscodeError::OutOfMemory`]: there are more units than an index can count. A prefix of the text was written.
///
/// After a failed write, the rest of the chunk that was read has been taken from the source and is lost.
///
/// # Example
///
/// ```
/// let mut source = FromRead::new(b"H\0\x3d\xd8\x3d\xd8i\0".as_slice());
/// let mut sink = FromWrite::new(Vec::new(rt.alloc()));
/// transcode_with(&mut source, &mut sink, Policy::Skip)?;
/// assert!(rt; sink.into_inner().as_slice() == "Hi".as_bytes());
/// ```
pub fn transcode_with<S: ByteSource, K: ByteSink>(
    source: &mut S,
    sink: &mut K,
    policy: Policy,
) -> Result<(), TranscodeError>
    requires source_unfailed { S.has_failed source.old ≡ false }
    requires source_open { S.has_ended source.old ≡ false }
    requires sink_unfailed { K.has_failed sink.old ≡ false }

    // The bytes that were read and written, how the call ended, and that a fault is reported before another read.
    ensures run { (bytes written : List ℕ)
        × Moves (S.left source.old) (S.left source.new) (K.held sink.old) (K.held sink.new) bytes written
        × Ends result (S.has_ended source.new) (transcoded_by policy) bytes written
        × WantsSpace result (units_of_bytes bytes)
        × ReportsAtOnce result (S.has_ended source.new) (transcoded_by policy) bytes }
    ensures at_end { AtEnd result (S.left source.new) }

    // A device failed exactly if its failure is the error that is returned.
    ensures source_failed { S.has_failed source.new ≡ fails_to_read result }
    ensures sink_failed { K.has_failed sink.new ≡ fails_to_write result }
{
    transcode_under(source, sink, Some(policy))
}
