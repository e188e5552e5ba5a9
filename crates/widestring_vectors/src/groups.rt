//! The groups of cases, and the calls of the library that each makes.

mod answers;
mod bytes;
mod compare;
mod conversions;
mod devices;
mod encode;
mod files;
mod from_slice;
mod hints;
mod items;
mod lossy;
mod names;
mod offsets;
mod pieces;
mod policies;
mod prints;
mod schemes;
mod texts;
mod units;
mod views;
mod walks;
mod width;
mod wtf8;

use std::alloc::Global;
use widestring::Policy;
use widestring::iter::End;
use widestring_replay::Suite;
use widestring_replay::parse::{self, Memory, NoAnswer};
use widestring_replay::show::Answer;
use width::Width;

/// Decoders, encoders, views with their iterators, conversions and devices.
pub struct ViewSuite;

// The groups whose lists are characters.
#[derive(Clone, Copy)]
enum OfChars {
    Utf8,
    Utf16,
    Utf32,
    Utf8Hints,
    Utf16Hints,
}

static OF_CHARS: [(&str, OfChars); 5] = [
    ("encode8", OfChars::Utf8),
    ("encode16", OfChars::Utf16),
    ("encode32", OfChars::Utf32),
    ("hints_encode8", OfChars::Utf8Hints),
    ("hints_encode16", OfChars::Utf16Hints),
];

// What is asked of lists of bytes.
#[derive(Clone, Copy)]
enum OfBytes {
    Files,
    Transcode,
    Pieces,
    Wtf8,
    Include,
}

static OF_BYTES: [(&str, OfBytes); 5] = [
    ("files", OfBytes::Files),
    ("transcode", OfBytes::Transcode),
    ("convert", OfBytes::Transcode),
    ("pieces", OfBytes::Pieces),
    ("wtf8", OfBytes::Wtf8),
];

// The decoders of units, whose questions are words of calls.
#[derive(Clone, Copy)]
enum Decoder {
    Strict,
    Lossy,
    LossyHints,
    Under(Policy),
}

// The groups whose lists are units, without the width that ends their names.
#[derive(Clone, Copy)]
enum OfUnits {
    Offsets,
    FromSlice,
    Hints,
    Texts,
    Views,
    Walks,
    Prints,
    Compare,
    Units,
    Bytes,
    LossyText,
    ToString,
    Decoded(Decoder),
}

static OF_UNITS: [(&str, OfUnits); 18] = [
    ("items", OfUnits::Decoded(Decoder::Strict)),
    ("lossy", OfUnits::Decoded(Decoder::Lossy)),
    ("hints_lossy", OfUnits::Decoded(Decoder::LossyHints)),
    ("each", OfUnits::Decoded(Decoder::Under(Policy::Each))),
    ("run", OfUnits::Decoded(Decoder::Under(Policy::Run))),
    ("skip", OfUnits::Decoded(Decoder::Under(Policy::Skip))),
    ("offsets", OfUnits::Offsets),
    ("from_slice", OfUnits::FromSlice),
    ("hints", OfUnits::Hints),
    ("texts", OfUnits::Texts),
    ("views", OfUnits::Views),
    ("walks", OfUnits::Walks),
    ("prints", OfUnits::Prints),
    ("compare", OfUnits::Compare),
    ("units", OfUnits::Units),
    ("bytes", OfUnits::Bytes),
    ("lossy_text", OfUnits::LossyText),
    ("to_string", OfUnits::ToString),
];

impl Suite for ViewSuite {
    fn groups() -> &'static [&'static str] {
        &names::GROUPS
    }

    fn faults() -> &'static [(&'static str, &'static str)] {
        &names::FAULTS
    }

    fn answer(memory: Memory<'_>, answer: &mut Answer, group: &str, list: &str, question: &str) {
        if let Ok(group) = parse::named(&OF_CHARS, group) {
            return of_chars(memory.alloc, answer, group, list, question);
        }
        if let Ok(group) = parse::named(&OF_BYTES, group) {
            return of_bytes(memory, answer, group, list, question);
        }
        if group == "wtf8_of16" {
            return wtf8_of(memory, answer, list, question);
        }
        if (group == "to_string16") & (question == "i") {
            return of_bytes(memory, answer, OfBytes::Include, list, question);
        }
        of_units(memory, answer, group, list, question);
    }
}

fn wtf8_of(memory: Memory<'_>, answer: &mut Answer, list: &str, question: &str) {
    match parse::list::<u16>(memory.alloc, list) {
        Ok(units) => wtf8::of_units(memory, answer, &units, question),
        Err(error) => answer.fail(error),
    }
}

fn of_chars(alloc: Global, answer: &mut Answer, group: OfChars, list: &str, question: &str) {
    match parse::list::<char>(alloc, list) {
        Ok(chars) => with_chars(alloc, answer, group, &chars, question),
        Err(error) => answer.fail(error),
    }
}

fn with_chars(alloc: Global, answer: &mut Answer, group: OfChars, chars: &[char], question: &str) {
    match group {
        OfChars::Utf8 => encode::utf8(answer, chars, question),
        OfChars::Utf16 => encode::utf16(answer, chars, question),
        OfChars::Utf32 => encode::utf32(alloc, answer, chars, question),
        OfChars::Utf8Hints => hints::of_utf8_encoder(answer, chars, question),
        OfChars::Utf16Hints => hints::of_utf16_encoder(answer, chars, question),
    }
}

fn of_bytes(memory: Memory<'_>, answer: &mut Answer, group: OfBytes, list: &str, question: &str) {
    match parse::list::<u8>(memory.alloc, list) {
        Ok(bytes) => with_bytes(memory, answer, group, &bytes, question),
        Err(error) => answer.fail(error),
    }
}

fn with_bytes(
    memory: Memory<'_>,
    answer: &mut Answer,
    group: OfBytes,
    bytes: &[u8],
    question: &str,
) {
    match group {
        OfBytes::Files => files::of_bytes(memory, answer, bytes, question),
        OfBytes::Transcode => devices::run(memory.alloc, answer, bytes, question),
        OfBytes::Pieces => pieces::run(memory.alloc, answer, bytes, question),
        OfBytes::Wtf8 => wtf8::of_bytes(memory, answer, bytes, question),
        OfBytes::Include => conversions::file(memory, answer, bytes),
    }
}

// Adds the answer of a group whose lists are units, of the width that the group's name ends with.
fn of_units(memory: Memory<'_>, answer: &mut Answer, group: &str, list: &str, question: &str) {
    if let Some(name) = group.strip_suffix("16") {
        return of_width::<u16>(memory, answer, name, list, question);
    }
    match group.strip_suffix("32") {
        Some(name) => of_width::<u32>(memory, answer, name, list, question),
        None => answer.fail(NoAnswer::Unparsed),
    }
}

fn of_width<C: Width>(
    memory: Memory<'_>,
    answer: &mut Answer,
    name: &str,
    list: &str,
    question: &str,
) {
    match (
        parse::named(&OF_UNITS, name),
        parse::list::<C>(memory.alloc, list),
    ) {
        (Ok(group), Ok(units)) => with_units(memory, answer, group, &units, question),
        (Err(error), _) | (_, Err(error)) => answer.fail(error),
    }
}

fn with_units<C: Width>(
    memory: Memory<'_>,
    answer: &mut Answer,
    group: OfUnits,
    units: &[C],
    question: &str,
) {
    let alloc = memory.alloc;
    match group {
        OfUnits::Offsets => offsets::offsets(alloc, answer, units, question),
        OfUnits::FromSlice => from_slice::checked(answer, units, question),
        OfUnits::Hints => C::hints(alloc, answer, units, question),
        OfUnits::Texts => texts::text(alloc, answer, units, question),
        OfUnits::Views => views::view(answer, units, question),
        OfUnits::Walks => walks::walk(alloc, answer, units, question),
        OfUnits::Prints => prints::printed(alloc, answer, units, question),
        OfUnits::Compare => compare::compared(alloc, answer, units, question),
        OfUnits::Units => units::asked(alloc, answer, units, question),
        OfUnits::Bytes => C::bytes(memory, answer, units, question),
        OfUnits::LossyText => conversions::lossy(memory, answer, units, question),
        OfUnits::ToString => C::text(memory, answer, units, question),
        OfUnits::Decoded(decoder) => decoded(memory, answer, decoder, units, question),
    }
}

fn decoded<C: Width>(
    memory: Memory<'_>,
    answer: &mut Answer,
    decoder: Decoder,
    units: &[C],
    calls: &str,
) {
    match parse::calls(memory.alloc, calls) {
        Ok(calls) => with_calls(memory, answer, decoder, units, &calls),
        Err(error) => answer.fail(error),
    }
}

fn with_calls<C: Width>(
    memory: Memory<'_>,
    answer: &mut Answer,
    decoder: Decoder,
    units: &[C],
    calls: &[End],
) {
    match decoder {
        Decoder::Strict => C::items(memory, answer, units, calls),
        Decoder::Lossy => C::lossy(answer, units, calls),
        Decoder::LossyHints => C::lossy_hints(answer, units, calls),
        Decoder::Under(policy) => C::under(memory, answer, units, calls, policy),
    }
}
