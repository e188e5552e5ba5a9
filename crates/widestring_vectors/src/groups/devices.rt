//! Runs of `transcode`, `transcode_with` and `convert` between devices that are slow, move random numbers of bytes, or
//! fail. The list is the bytes of the source, and a question has three words, separated by colons.
//!
//! - `s` and `l` for the modes of `transcode`, strict and lossy; `e`, `r` and `k` for the policies of `transcode_with`; a
//!   conversion (`schemes.rt`) for `convert`.
//! - How many bytes the source gives in a call, random numbers of them for 0, a comma, and after how many bytes it
//!   fails, or a `-`.
//! - How many bytes the sink takes in a call, a comma, after how many bytes it fails, or a `-`, and an `x` if it fails
//!   by an error or a `z` if it fails by taking none.
//!
//! The answer has what was written, and as a second field `ok`, and after it for `convert` the number of faults; `odd`
//! for part of a unit; `read`; `write`; or the index, for `convert` the offset in bytes, the item number and the unit of
//! the fault. It is a `?` if the flags of the devices contradict it.
ghost use Rattle.std.specs.Prelude.{◌≡◌, IfOk, false};

use crate::groups::schemes::{self, Conversion};
use std::alloc::Global;
use widestring::Policy;
use widestring::bytes::{ByteSink, ByteSource, Mode, transcode, transcode_with};
use widestring::convert::{ConvertError, TextFault, convert};
use widestring::error::TranscodeError;
use widestring_replay::parse::{self, NoAnswer};
use widestring_replay::show::Answer;
use widestring_testing::{SlowSink, SlowSource};

// Parses a step, and an optional number of bytes.
fn pace(word: &str) -> Result<(usize, Option<usize>), NoAnswer> {
    let Some((step, bytes)) = word.split_once(',') else {
        return Err(NoAnswer::Unparsed);
    };
    let bytes = if bytes == "-" {
        None
    } else {
        Some(parse::value(bytes)?)
    };
    Ok((parse::value(step)?, bytes))
}

// Parses a source.
fn source<'a>(word: &str, bytes: &'a [u8]) -> Result<SlowSource<'a>, NoAnswer>
    ensures failed { IfOk result (λ s. s.failed ≡ false) }
    ensures ended { IfOk result (λ s. s.ended ≡ false) }
{
    match pace(word)? {
        (step, None) => Ok(SlowSource::new(bytes, step)),
        (step, Some(given)) => match bytes.get(..given) {
            Some(prefix) => Ok(SlowSource::failing_after(prefix, step)),
            None => Err(NoAnswer::Unparsed),
        },
    }
}

// Parses a sink.
fn sink(alloc: Global, word: &str) -> Result<SlowSink, NoAnswer>
    ensures { IfOk result (λ s. s.failed ≡ false) }
{
    let Some((word, how)) = word.split_at_checked(word.len().saturating_sub(1)) else {
        return Err(NoAnswer::Unparsed);
    };
    let (step, space) = pace(word)?;
    match how {
        "x" => Ok(SlowSink::new(alloc, step, space, false)),
        "z" => Ok(SlowSink::new(alloc, step, space, true)),
        _ => Err(NoAnswer::Unparsed),
    }
}

// How a run ended.
#[derive(Clone, Copy, PartialEq, Eq)]
enum Ending {
    // All was read, and so many faults were replaced, where they are counted.
    Whole(Option<u64>),
    // All was read, and part of a unit is left.
    Part,
    // There is a fault.
    Fault(TextFault),
    // A device failed.
    Read,
    Write,
    // The text is too long for the numbers of an error.
    TooLong,
}

fn of_transcoding(ended: Result<(), TranscodeError>) -> Ending {
    match ended {
        Ok(()) => Ending::Whole(None),
        Err(TranscodeError::OddLength) => Ending::Part,
        Err(TranscodeError::Read) => Ending::Read,
        Err(TranscodeError::Write) => Ending::Write,
        Err(TranscodeError::Utf16 { index, item, unit }) => Ending::Fault(TextFault {
            offset: index as u64,
            item: item as u64,
            unit: u32::from(unit),
        }),
        Err(TranscodeError::OutOfMemory) => Ending::TooLong,
    }
}

fn of_conversion(ended: Result<u64, ConvertError>) -> Ending {
    match ended {
        Ok(faults) => Ending::Whole(Some(faults)),
        Err(ConvertError::PartOfUnit) => Ending::Part,
        Err(ConvertError::Read) => Ending::Read,
        Err(ConvertError::Write) => Ending::Write,
        Err(ConvertError::Fault(fault)) => Ending::Fault(fault),
        Err(ConvertError::TooLong) => Ending::TooLong,
    }
}

fn show(answer: &mut Answer, ending: Ending) {
    match ending {
        Ending::Whole(None) => answer.word("ok"),
        Ending::Whole(Some(faults)) => {
            answer.word("ok");
            answer.count(Some(faults as usize));
        }
        Ending::Part => answer.word("odd"),
        Ending::Read => answer.word("read"),
        Ending::Write => answer.word("write"),
        Ending::Fault(fault) => {
            answer.reported_fault(fault.offset as usize, fault.item as usize, fault.unit)
        }
        Ending::TooLong => answer.fail(NoAnswer::OutOfMemory),
    }
}

// Returns whether a device has failed only if its error is the result, and the source has ended if everything was read.
fn is_flagged(ending: Ending, source: &SlowSource<'_>, sink: &SlowSink) -> bool {
    let mut well = source.failed() == (ending == Ending::Read);
    well &= sink.failed() == (ending == Ending::Write);
    match ending {
        Ending::Whole(_) | Ending::Part => well & source.ended() & source.bytes.is_empty(),
        _ => well,
    }
}

// The calls.
#[derive(Clone, Copy)]
enum Call {
    Transcode(Mode),
    TranscodeWith(Policy),
    Convert(Conversion),
}

static CALLS: [(&str, Call); 5] = [
    ("s", Call::Transcode(Mode::Strict)),
    ("l", Call::Transcode(Mode::Lossy)),
    ("e", Call::TranscodeWith(Policy::Each)),
    ("r", Call::TranscodeWith(Policy::Run)),
    ("k", Call::TranscodeWith(Policy::Skip)),
];

// Makes a run.
fn moved(call: Call, source: &mut SlowSource<'_>, sink: &mut SlowSink) -> Ending
    requires source_unfailed { source.old.failed ≡ false }
    requires source_open { source.old.ended ≡ false }
    requires sink_unfailed { sink.old.failed ≡ false }
{
    match call {
        Call::Transcode(mode) => of_transcoding(transcode(source, sink, mode)),
        Call::TranscodeWith(policy) => of_transcoding(transcode_with(source, sink, policy)),
        Call::Convert(
            Conversion {
                from,
                to,
                policy,
                bom,
            },
        ) => of_conversion(convert(source, sink, from, to, policy, bom)),
    }
}

// Makes a run, and adds the bytes that it wrote, and how it ended.
fn run_into(answer: &mut Answer, call: Call, mut source: SlowSource<'_>, mut sink: SlowSink)
    requires source_unfailed { source.failed ≡ false }
    requires source_open { source.ended ≡ false }
    requires sink_unfailed { sink.failed ≡ false }
{
    let ending = moved(call, &mut source, &mut sink);
    if is_flagged(ending, &source, &sink) {
        answer.bytes(&sink.bytes);
        answer.part();
        show(answer, ending);
    } else {
        answer.word("?");
    }
}

// Makes a run from a source into a sink of this word.
fn run_from(alloc: Global, answer: &mut Answer, call: Call, source: SlowSource<'_>, to: &str)
    requires failed { source.failed ≡ false }
    requires ended { source.ended ≡ false }
{
    match sink(alloc, to) {
        Ok(sink) => run_into(answer, call, source, sink),
        Err(error) => answer.fail(error),
    }
}

// Parses a call, and the words of its source and of its sink.
fn parse_run(question: &str) -> Result<(Call, &str, &str), NoAnswer> {
    let (call, devices) = parse::parts(question)?;
    let (from, to) = parse::parts(devices)?;
    let call = match schemes::parse_conversion(call) {
        Ok(conversion) => Call::Convert(conversion),
        Err(_) => parse::named(&CALLS, call)?,
    };
    Ok((call, from, to))
}

// Makes the run of a call.
fn run_call(
    alloc: Global,
    answer: &mut Answer,
    bytes: &[u8],
    (call, from, to): (Call, &str, &str),
) {
    match source(from, bytes) {
        Ok(source) => run_from(alloc, answer, call, source, to),
        Err(error) => answer.fail(error),
    }
}

/// Adds what a run writes, and how it ends.
pub fn run(alloc: Global, answer: &mut Answer, bytes: &[u8], question: &str) {
    match parse_run(question) {
        Ok(call) => run_call(alloc, answer, bytes, call),
        Err(error) => answer.fail(error),
    }
}
