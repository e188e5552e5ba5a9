//! Conversions piece by piece. The list is the bytes of a text, and a question is a conversion (`schemes.rt`), a colon,
//! how many bytes a piece has at most, pseudo-random numbers of them for 0, a comma, and for how many bytes there is
//! space in a call, from 8 to 64, pseudo-random numbers of them for 0.
//!
//! The answer has what was written; as a second field how the text ended: `ok`, `part` for part of a unit, or the
//! offset, the item number and the unit of the fault; and as a third field how many bytes, items and faults were
//! passed.
use crate::groups::schemes::{self, Conversion};
use std::alloc::Global;
use widestring::convert::{Converter, ProgressEnd, TextFault};
use widestring_replay::parse::{self, NoAnswer};
use widestring_replay::show::Answer;
use widestring_testing::{next_seed, step_by};

// The most space for text in a call, in bytes, and the least.
const SPACE: usize = 64;

const LEAST_SPACE: usize = 8;

// How pieces and space are chosen: by these numbers, or pseudo-random ones if they are 0.
#[derive(Clone, Copy)]
struct Pace {
    step: usize,
    space: usize,
}

// How a run stands.
#[derive(Clone, Copy)]
enum Stage {
    // More calls follow.
    Going,
    // All of the text was converted.
    Done,
    // The conversion stopped.
    Stopped(TextFault),
}

// Converts the next piece, and returns how many bytes were read, and how the run stands.
fn push_piece(
    converter: &mut Converter,
    rest: &[u8],
    pace: Pace,
    seed: u32,
    text: &mut Vec<u8>,
) -> Result<(usize, Stage), NoAnswer> {
    let mut space = [0xaa; SPACE];
    let room = step_by(pace.space, seed).clamp(LEAST_SPACE, SPACE);
    let (piece, beyond) = rest.split_at(step_by(pace.step, next_seed(seed)).min(rest.len()));
    let is_last = beyond.is_empty();
    let progress = if is_last {
        converter.push_last(piece, &mut space[..room])
    } else {
        converter.push(piece, &mut space[..room])
    };
    text.extend_from_slice(&space[..progress.written])?;
    let stage = match progress.end {
        ProgressEnd::Fault(fault) => Stage::Stopped(fault),
        ProgressEnd::NeedsInput if is_last => Stage::Done,
        ProgressEnd::NeedsInput | ProgressEnd::NoSpace => Stage::Going,
    };
    Ok((progress.read, stage))
}

// Adds how a run ended.
fn show(answer: &mut Answer, converter: &Converter, stage: Stage) {
    answer.part();
    match stage {
        Stage::Done if converter.kept_len() == 0 => answer.word("ok"),
        Stage::Done => answer.word("part"),
        Stage::Stopped(fault) => {
            answer.reported_fault(fault.offset as usize, fault.item as usize, fault.unit);
        }
        Stage::Going => answer.word("?"),
    }
    let position = converter.position();
    answer.part();
    answer.count(Some(position.bytes as usize));
    answer.count(Some(position.items as usize));
    answer.count(Some(position.faults as usize));
}

// Converts a text, and adds what was written, and how it ended.
fn converted(
    alloc: Global,
    answer: &mut Answer,
    bytes: &[u8],
    conversion: Conversion,
    pace: Pace,
) -> Result<(), NoAnswer> {
    let Conversion {
        from,
        to,
        policy,
        bom,
    } = conversion;
    let mut converter = Converter::new(from, to, policy, bom);
    let mut text = Vec::new(alloc);
    let mut rest = bytes;
    let mut stage = Stage::Going;
    let mut seed = u32::try_from(bytes.len()).unwrap_or(u32::MAX);
    // Each call reads a byte or writes one, except where a piece has none.
    for _ in 0..(bytes.len() as u64).saturating_mul(64).saturating_add(64) {
        seed = next_seed(seed);
        let (read, next) = push_piece(&mut converter, rest, pace, seed, &mut text)?;
        (_, rest) = rest.split_at(read.min(rest.len()));
        stage = next;
        if !matches!(stage, Stage::Going) {
            break;
        }
    }
    answer.bytes(&text);
    show(answer, &converter, stage);
    Ok(())
}

// Parses the numbers of a run, and makes it.
fn asked(alloc: Global, answer: &mut Answer, bytes: &[u8], question: &str) -> Result<(), NoAnswer> {
    let (conversion, pace) = parse::parts(question)?;
    let Some((step, space)) = pace.split_once(',') else {
        return Err(NoAnswer::Unparsed);
    };
    let pace = Pace {
        step: parse::value(step)?,
        space: parse::value(space)?,
    };
    converted(
        alloc,
        answer,
        bytes,
        schemes::parse_conversion(conversion)?,
        pace,
    )
}

/// Adds what a conversion piece by piece writes, and how it ends.
pub fn run(alloc: Global, answer: &mut Answer, bytes: &[u8], question: &str) {
    if let Err(error) = asked(alloc, answer, bytes, question) {
        answer.fail(error);
    }
}
