//! Reads a text to its end, and says where its faults are and what it has.

ghost use Rattle.std.specs.Prelude.{◌≡◌, ◌<◌, false, is_err, IfOk};
ghost use Rattle.wideconv_command.specs.Inputs.{has_taken_end, source_of};

use crate::input::Input;
use crate::tally::Tally;
use crate::text::{TextError, open_text};
use std::fmt;
use std::fmt::{InlineText, Write};
use wide_bytes::{ByteSink, ByteSource, put_all};
use wide_convert::{ConvertError, Converter, Position, ProgressEnd};
use wide_schemes::Scheme;

// The capacity for a line without the name of the text, in bytes. The longest has 21 numbers of 20 digits.
const LINE_LEN: usize = 1024;

// The length of a chunk in bytes.
const CHUNK_BYTES: usize = 4096;

// The length of the space for text, in bytes: that of a chunk, whatever its scheme.
const TEXT_BYTES: usize = 4 * CHUNK_BYTES;

// 2^64 + 1: each round but the last one takes a byte or passes one.
const MOST_ROUNDS: u128 = 0x1_0000_0000_0000_0001;

/// What a text has.
#[derive(Clone, Copy)]
pub struct Examined {
    /// How many units, without those of a BOM that its scheme drops.
    pub units: u64,
    /// How many characters.
    pub characters: u64,
    /// How many faults, of which part of a unit at the end is one.
    pub faults: u64,
    /// Its lines, and its characters by plane.
    pub tally: Tally,
}

// Returns the length in bytes of a unit.
fn unit_len(scheme: Scheme) -> u64
    ensures { 0 < result }
{
    match scheme {
        Scheme::Utf8 | Scheme::Wtf8 => 1,
        Scheme::Utf16 | Scheme::Utf16Le | Scheme::Utf16Be => 2,
        Scheme::Utf32 | Scheme::Utf32Le | Scheme::Utf32Be => 4,
    }
}

// Returns what a text has of which the converter has read all.
fn summary(scheme: Scheme, converter: &Converter, tally: Tally) -> Examined {
    let Position {
        bytes,
        items,
        faults,
    } = converter.position();
    let bom = converter.parts().0.bom as u64;
    Examined {
        units: bytes.saturating_sub(bom) / unit_len(scheme),
        characters: items.saturating_sub(faults),
        faults: faults.saturating_add((converter.kept_len() > 0) as u64),
        tally,
    }
}

// A fault, and where it is: how many bytes precede it, and its line and column.
#[derive(Clone, Copy)]
struct Found {
    offset: u64,
    lines: u64,
    column: u64,
    // The ill-formed unit, or `None` if part of a unit is left.
    unit: Option<u32>,
}

impl fmt::Display for Found {
    fn fmt<W: fmt::Write>(&self, f: &mut fmt::Formatter<W>) -> fmt::Result {
        let line = self.lines.saturating_add(1);
        let column = self.column.saturating_add(1);
        write!(f, ": byte {}, line {line}, column {column}: ", self.offset)?;
        match self.unit {
            Some(unit) => write!(f, "ill-formed unit {unit:x}"),
            None => f.write_str("part of a unit"),
        }
    }
}

/// Writes the name of a text and what is found in it as a line.
///
/// # Errors
///
/// If the sink fails.
pub fn put_line<K: ByteSink, T: fmt::Display>(
    sink: &mut K,
    name: &str,
    found: &T,
) -> Result<(), TextError>
    requires { K.has_failed sink.old ≡ false }
    ensures { K.has_failed sink.new ≡ is_err result }
{
    let mut line = InlineText::<LINE_LEN>::new();
    let _is_made = writeln!(line, "{found}");
    let named = put_all(sink, name.as_bytes());
    if named.is_ok() && put_all(sink, line.as_str().as_bytes()).is_ok() {
        return Ok(());
    }
    Err(TextError::Stopped(ConvertError::Write))
}

impl fmt::Display for Examined {
    fn fmt<W: fmt::Write>(&self, f: &mut fmt::Formatter<W>) -> fmt::Result {
        let (units, characters) = (self.units, self.characters);
        write!(f, ": units {units}, characters {characters}, ")?;
        write!(f, "lines {}, faults {}", self.tally.lines, self.faults)?;
        for (plane, count) in self.tally.planes.iter().enumerate() {
            if *count > 0 {
                write!(f, ", plane {plane}: {count}")?;
            }
        }
        Ok(())
    }
}

/// How many faults a text has.
#[derive(Clone, Copy)]
pub struct Total(pub u64);

impl fmt::Display for Total {
    fn fmt<W: fmt::Write>(&self, f: &mut fmt::Formatter<W>) -> fmt::Result {
        write!(f, ": faults {}", self.0)
    }
}

// What is known of a text of which a part was read.
#[derive(Clone, Copy)]
struct Examiner<'a> {
    // The name of the text.
    name: &'a str,
    // Whether each fault is reported.
    reports: bool,
    // How many bytes precede those that the converter reads.
    passed: usize,
    // What reads the text.
    converter: Converter,
    // What precedes the place that was reached.
    tally: Tally,
}

impl Examiner<'_> {
    // Reports a fault before so many bytes, or part of a unit if there is no fault, and passes it.
    fn pass_fault<K: ByteSink>(
        &mut self,
        sink: &mut K,
        bytes: u64,
        unit: Option<u32>,
    ) -> Result<(), TextError>
        requires { K.has_failed sink.old ≡ false }
        ensures { K.has_failed sink.new ≡ is_err result }
    {
        let found = Found {
            offset: bytes.saturating_add(self.passed as u64),
            lines: self.tally.lines,
            column: self.tally.column,
            unit,
        };
        self.tally.pass_fault();
        if self.reports {
            put_line(sink, self.name, &found)
        } else {
            Ok(())
        }
    }

    // Reads a piece of the text, and passes its characters and faults.
    fn pass_piece<K: ByteSink>(
        &mut self,
        sink: &mut K,
        piece: &[u8],
        is_last: bool,
        out: &mut [u8],
    ) -> Result<(), TextError>
        requires { K.has_failed sink.old ≡ false }
        ensures { K.has_failed sink.new ≡ is_err result }
    {
        let mut read = 0;
        for _ in 0..MOST_ROUNDS {
            let rest = &piece[read..];
            let progress = if is_last {
                self.converter.push_last(rest, out)
            } else {
                self.converter.push(rest, out)
            };
            self.tally.pass_text(&out[..progress.written]);
            read += progress.read;
            match progress.end {
                ProgressEnd::Fault(fault) => {
                    self.pass_fault(sink, fault.offset, Some(fault.unit))?;
                }
                ProgressEnd::NoSpace => {}
                ProgressEnd::NeedsInput => break,
            }
        }
        Ok(())
    }
}

// Returns the form in which the characters of a text are counted: WTF-8 keeps its surrogates.
fn counted_in(scheme: Scheme) -> Scheme {
    if scheme == Scheme::Wtf8 {
        Scheme::Wtf8
    } else {
        Scheme::Utf8
    }
}

// Reads a text to its end.
fn examine_all<S: ByteSource, K: ByteSink>(
    source: &mut Input<S>,
    sink: &mut K,
    examiner: &mut Examiner<'_>,
) -> Result<(), TextError>
    requires source_unfailed { S.has_failed (source_of source.old) ≡ false }
    requires source_open { has_taken_end source.old ≡ false }
    requires sink_unfailed { K.has_failed sink.old ≡ false }
    ensures { IfOk result (λ done. K.has_failed sink.new ≡ false) }
{
    let mut chunk = [0u8; CHUNK_BYTES];
    let mut out = [0u8; TEXT_BYTES];
    for _ in 0..MOST_ROUNDS {
        let Ok(len) = source.take(&mut chunk) else {
            return Err(TextError::Stopped(ConvertError::Read));
        };
        examiner.pass_piece(sink, &chunk[..len], len == 0, &mut out)?;
        if len == 0 {
            break;
        }
    }
    let kept = examiner.converter.kept_len();
    if kept > 0 {
        let bytes = examiner.converter.position().bytes;
        examiner.pass_fault(sink, bytes, None)?;
    }
    Ok(())
}

/// Reads a text from the source to its end, and returns what it has. If `reports` is true, the sink gets a line for each
/// fault, with its offset in bytes, its line and its column, from 1, in characters and faults.
///
/// # Errors
///
/// Why the text was not read to its end.
pub fn examine<S: ByteSource, K: ByteSink>(
    source: &mut Input<S>,
    sink: &mut K,
    from: Option<Scheme>,
    name: &str,
    reports: bool,
) -> Result<Examined, TextError>
    requires source_unfailed { S.has_failed (source_of source.old) ≡ false }
    requires source_open { has_taken_end source.old ≡ false }
    requires sink_unfailed { K.has_failed sink.old ≡ false }
    ensures { IfOk result (λ examined. K.has_failed sink.new ≡ false) }
{
    let (scheme, passed) = open_text(source, from)?;
    let mut examiner = Examiner {
        name,
        reports,
        passed,
        converter: Converter::new(scheme, counted_in(scheme), None, false),
        tally: Tally::new(),
    };
    examine_all(source, sink, &mut examiner)?;
    Ok(summary(scheme, &examiner.converter, examiner.tally))
}
