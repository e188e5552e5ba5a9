//! Converts a text from a source to a sink, chunk by chunk.

ghost use Rattle.std.specs.Prelude.{◌≡◌, ◌≤◌, ◌<◌, ℕ, List, false, true, length};
ghost use Rattle.std.specs.Io.KnownBytes.{Appends};
ghost use Rattle.wide_schemes.specs.Layouts.{needs_text};
ghost use Rattle.wide_transcode.specs.Run.{Moves};
ghost use Rattle.wide_convert.specs.Steps.{IsReading};
ghost use Rattle.wide_convert.specs.Converted.{EndsConverted};
ghost use Rattle.wide_convert.specs.Streams.{EndsStream, IsEndOfText, IsReadUp, PutsText, fails_to_read, fails_to_write};

use crate::converter::{ProgressEnd, feed, put_bom};
use crate::error::ConvertError;
use crate::reading::Reading;
use wide_bytes::{ByteSink, ByteSource, put_all};
use wide_forms::Policy;
use wide_schemes::{Layout, Scheme, keeps_halves, layout_to};

// The length of a chunk in bytes.
const CHUNK_BYTES: usize = 4096;

// The length of the space for text, in bytes: that of most chunks, even if each of their bytes is a fault.
const TEXT_BYTES: usize = 4 * CHUNK_BYTES + 128;

// 2^64 + 1: each round but the last one takes a byte or puts one.
const MOST_ROUNDS: u128 = 0x1_0000_0000_0000_0001;

// Puts a text into the sink. The only error is `Write`.
fn put_converted<K: ByteSink>(sink: &mut K, text: &[u8]) -> Result<(), ConvertError>
    requires { K.has_failed sink.old ≡ false }
    ensures { (written : List ℕ) × Appends (K.held sink.old) (K.held sink.new) written × PutsText result (K.has_failed sink.new) written text.now }
{
    match put_all(sink, text) {
        Ok(()) => Ok(()),
        Err(_error) => Err(ConvertError::Write),
    }
}

// Returns the result at the end of the text.
fn end_of_text(kept: usize) -> Result<(), ConvertError>
    ensures { IsEndOfText result kept }
{
    if kept > 0 {
        Err(ConvertError::PartOfUnit)
    } else {
        Ok(())
    }
}

// Reads a text from the source to its end, and writes it in a layout into the sink. `chunk` and `out` are space for what
// is read and for what is written.
fn stream<S: ByteSource, K: ByteSink>(
    source: &mut S,
    sink: &mut K,
    reading: &mut Reading,
    to: Layout,
    chunk: &mut [u8],
    out: &mut [u8],
) -> Result<(), ConvertError>
    requires source_unfailed { S.has_failed source.old ≡ false }
    requires source_open { S.has_ended source.old ≡ false }
    requires sink_unfailed { K.has_failed sink.old ≡ false }
    requires ready { IsReading reading.old }
    requires text { needs_text to ≡ true → reading.old.keeps ≡ false }
    requires chunk { 0 < length chunk.old }
    requires space { 8 ≤ length out.old }
    ensures run { (bytes written : List ℕ)
        × Moves (S.left source.old) (S.left source.new) (K.held sink.old) (K.held sink.new) bytes written
        × EndsStream reading.old reading.new to result (S.has_ended source.new) bytes written }
    ensures ready { IsReading reading.new }
    ensures at_end { IsReadUp result (S.left source.new) }
    ensures source_failed { S.has_failed source.new ≡ fails_to_read result }
    ensures sink_failed { K.has_failed sink.new ≡ fails_to_write result }
{
    let mut from = 0;
    let mut end = 0;
    let mut is_last = false;
    'pieces: for _ in 0..MOST_ROUNDS {
        let progress = feed(reading, to, &chunk[from..end], is_last, out);
        put_converted(sink, &out[..progress.written])?;
        from += progress.read;
        if let ProgressEnd::Fault(fault) = progress.end {
            return Err(ConvertError::Fault(fault));
        }
        if let ProgressEnd::NoSpace = progress.end {
            continue;
        }
        if is_last {
            return end_of_text(reading.unread_len);
        }
        from = 0;
        match source.take(chunk) {
            Ok(len) => {
                end = len;
                is_last = len == 0;
            }
            Err(_error) => return Err(ConvertError::Read),
        }
    }
    Err(ConvertError::TooLong)
}

/// Reads the bytes of a text in one encoding scheme from the source to its end, and writes the text in another scheme
/// into the sink (Unicode Standard, section 3.10).
///
/// Under a policy all characters are written, and for faults what the policy has. Without one, the characters before
/// the first fault are written, and the fault is an error. If `bom` is true, a BOM is written before the text. A BOM that
/// is read is dropped in [`Scheme::Utf16`] and [`Scheme::Utf32`], and is a character elsewhere. Surrogates that belong to
/// no pair are faults, except from UTF-16 to WTF-8 and from WTF-8 to UTF-16 or WTF-8, where no unit is lost.
///
/// Returns how many faults were replaced, at most 2^64 - 1. The source is read in chunks of at most 4,096 bytes, and
/// nothing is allocated. All of a chunk is converted before the next read, except for the beginning of a character or of
/// a unit, so a fault is reported before the next read if the bytes that were read prove it. A read or write that failed
/// is not repeated, and the sink is not flushed.
///
/// # Requires
///
/// The source has neither failed nor ended, and the sink has not failed.
///
/// # Errors
///
/// - [`ConvertError::Fault`]: the first fault, if there is no policy. The text before it was written.
/// - [`ConvertError::PartOfUnit`]: the bytes after the whole units of UTF-16 or UTF-32 are part of a unit. The text of
///   the units was written.
/// - [`ConvertError::Read`]: the source failed in this call. The text of the bytes that were read was written, but for
///   the beginning of a character or of a unit at their end.
/// - [`ConvertError::Write`]: the sink failed in this call. A prefix of the text of the bytes that were read was
///   written.
/// - [`ConvertError::TooLong`]: 2^64 bytes or more were read and written. A prefix of the text was written.
///
/// After a fault or a failed write, the rest of the chunk that was read has been taken from the source and is lost.
///
/// # Example
///
/// ```
/// let mut source = FromRead::new("né".as_bytes());
/// let mut sink = FromWrite::new(Vec::new(rt.alloc()));
/// let (from, to) = (Scheme::Utf8, Scheme::Utf16Be);
/// let faults = convert(&mut source, &mut sink, from, to, None, true)?;
/// assert!(rt; faults == 0 && sink.into_inner().as_slice() == b"\xfe\xff\0n\0\xe9".as_slice());
/// ```
pub fn convert<S: ByteSource, K: ByteSink>(
    source: &mut S,
    sink: &mut K,
    from: Scheme,
    to: Scheme,
    policy: Option<Policy>,
    bom: bool,
) -> Result<u64, ConvertError>
    requires source_unfailed { S.has_failed source.old ≡ false }
    requires source_open { S.has_ended source.old ≡ false }
    requires sink_unfailed { K.has_failed sink.old ≡ false }

    // The bytes that were read and written, and how the call ended.
    ensures run { (bytes written : List ℕ)
        × Moves (S.left source.old) (S.left source.new) (K.held sink.old) (K.held sink.new) bytes written
        × EndsConverted from to policy bom result (S.has_ended source.new) bytes written }
    ensures at_end { IsReadUp result (S.left source.new) }

    // A device failed exactly if its failure is the error that is returned.
    ensures source_failed { S.has_failed source.new ≡ fails_to_read result }
    ensures sink_failed { K.has_failed sink.new ≡ fails_to_write result }
{
    let mut reading = Reading::new(from, keeps_halves(from, to), policy);
    let mut chunk = [0u8; CHUNK_BYTES];
    let mut text = [0u8; TEXT_BYTES];
    let layout = layout_to(to);
    let len = put_bom(layout, bom, &mut text);
    put_converted(sink, &text[..len])?;
    stream(source, sink, &mut reading, layout, &mut chunk, &mut text)?;
    Ok(reading.position.faults)
}
