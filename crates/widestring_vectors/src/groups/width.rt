//! What the library has under different names for units of 16 bits and of 32 bits, or at one width only.
//!
//! The functions take units and not views of them: the bound of a view is the trait `Unit`, and an impl for one width
//! whose signatures name a view would need a manual proof.
use crate::groups::{bytes, conversions, hints, items, lossy, policies, prints, walks};
use std::alloc::Global;
use std::hash::Hash;
use widestring::iter::End;
use widestring::{Policy, U16CStr, U32CStr, Utf16Str, Utf16String, Utf32Str, Utf32String};
use widestring_replay::made::as_text;
use widestring_replay::parse::{FromHex, Memory, NoAnswer};
use widestring_replay::show::{Answer, ReportedUnit};

/// A width of units.
pub trait Width: ReportedUnit + FromHex + Ord + Hash + 'static {
    /// Adds the bounds of decoders.
    fn hints(alloc: Global, answer: &mut Answer, units: &[Self], question: &str);

    /// Adds units as bytes.
    fn bytes(memory: Memory<'_>, answer: &mut Answer, units: &[Self], question: &str);

    /// Adds the text of units in UTF-8.
    fn text(memory: Memory<'_>, answer: &mut Answer, units: &[Self], question: &str);

    /// Adds what a decoder returns for calls.
    fn items(memory: Memory<'_>, answer: &mut Answer, units: &[Self], calls: &[End]);

    /// Adds what a lossy decoder returns for calls.
    fn lossy(answer: &mut Answer, units: &[Self], calls: &[End]);

    /// Adds the bounds of a lossy decoder between calls.
    fn lossy_hints(answer: &mut Answer, units: &[Self], calls: &[End]);

    /// Adds what a lossy decoder under a policy returns for calls.
    fn under(
        memory: Memory<'_>,
        answer: &mut Answer,
        units: &[Self],
        calls: &[End],
        policy: Policy,
    );

    /// Adds the units of the empty C string, with its NUL.
    fn no_contents(answer: &mut Answer);

    /// Returns whether the text of units is equal to one of the other width, asked from both sides.
    fn eq_other(units: &[Self], other: &str, alloc: Global) -> Result<[bool; 2], NoAnswer>;

    /// Returns whether the text of units is these characters, at the width that has the call.
    fn eq_chars(units: &[Self], chars: &[char]) -> Result<bool, NoAnswer>;

    /// Returns the character with this index in the text of units, at the width that has the call.
    fn char_at(units: &[Self], index: usize) -> Result<char, NoAnswer>;

    /// Adds the units of a text, at the width that has the call.
    fn code_units(answer: &mut Answer, units: &[Self], steps: &[Option<End>]);

    /// Adds the units of the encoder to the other width.
    fn encode_other(answer: &mut Answer, units: &[Self], steps: &[Option<End>]);

    /// Adds the text of the error of ill-formed units, and of its cause.
    fn print_fault(alloc: Global, answer: &mut Answer, units: &[Self]);

    /// Adds the lengths of the iterators that have one, at first and after a call from the back.
    fn lengths(answer: &mut Answer, units: &[Self]);
}

fn eq_both16(text: Utf16Str<'_>, other: Utf32Str<'_>) -> [bool; 2] {
    [text.eq_utf32(other), other.eq_utf16(text)]
}

fn eq_both32(text: Utf32Str<'_>, other: Utf16Str<'_>) -> [bool; 2] {
    [text.eq_utf16(other), other.eq_utf32(text)]
}

impl Width for u16 {
    fn hints(alloc: Global, answer: &mut Answer, units: &[u16], question: &str) {
        hints::utf16(alloc, answer, units, question);
    }

    fn bytes(memory: Memory<'_>, answer: &mut Answer, units: &[u16], question: &str) {
        bytes::of_units16(memory, answer, units, question);
    }

    fn text(memory: Memory<'_>, answer: &mut Answer, units: &[u16], question: &str) {
        conversions::text16(memory, answer, units, question);
    }

    fn items(memory: Memory<'_>, answer: &mut Answer, units: &[u16], calls: &[End]) {
        items::utf16(memory, answer, units, calls);
    }

    fn lossy(answer: &mut Answer, units: &[u16], calls: &[End]) {
        lossy::utf16(answer, units, calls);
    }

    fn lossy_hints(answer: &mut Answer, units: &[u16], calls: &[End]) {
        hints::lossy_utf16(answer, units, calls);
    }

    fn under(
        memory: Memory<'_>,
        answer: &mut Answer,
        units: &[u16],
        calls: &[End],
        policy: Policy,
    ) {
        policies::utf16(memory, answer, units, calls, policy);
    }

    fn no_contents(answer: &mut Answer) {
        answer.units(U16CStr::default().as_slice_with_nul());
    }

    fn eq_other(units: &[u16], other: &str, alloc: Global) -> Result<[bool; 2], NoAnswer> {
        match (as_text(units), Utf32String::from_str(alloc, other)) {
            (Ok(text), Ok(other)) => Ok(eq_both16(text, other.as_utfstr())),
            (Ok(_), Err(_)) => Err(NoAnswer::OutOfMemory),
            (Err(error), _) => Err(error),
        }
    }

    fn eq_chars(_units: &[u16], _chars: &[char]) -> Result<bool, NoAnswer> {
        Err(NoAnswer::Unparsed)
    }

    fn char_at(_units: &[u16], _index: usize) -> Result<char, NoAnswer> {
        Err(NoAnswer::Unparsed)
    }

    fn code_units(answer: &mut Answer, units: &[u16], steps: &[Option<End>]) {
        match as_text(units) {
            Ok(text) => walks::code_units(answer, text, steps),
            Err(error) => answer.fail(error),
        }
    }

    fn encode_other(answer: &mut Answer, units: &[u16], steps: &[Option<End>]) {
        match as_text(units) {
            Ok(text) => walks::utf32(answer, text, steps),
            Err(error) => answer.fail(error),
        }
    }

    fn print_fault(alloc: Global, answer: &mut Answer, units: &[u16]) {
        match Utf16Str::from_slice(units) {
            Ok(_) => answer.fail(NoAnswer::Unparsed),
            Err(fault) => {
                prints::print(alloc, answer, &fault);
                answer.part();
                prints::print(alloc, answer, &fault.cause());
            }
        }
    }

    fn lengths(answer: &mut Answer, units: &[u16]) {
        walks::lengths16(answer, units);
    }
}

impl Width for u32 {
    fn hints(alloc: Global, answer: &mut Answer, units: &[u32], question: &str) {
        hints::utf32(alloc, answer, units, question);
    }

    fn bytes(memory: Memory<'_>, answer: &mut Answer, units: &[u32], question: &str) {
        bytes::of_units32(memory, answer, units, question);
    }

    fn text(memory: Memory<'_>, answer: &mut Answer, units: &[u32], question: &str) {
        conversions::text32(memory, answer, units, question);
    }

    fn items(memory: Memory<'_>, answer: &mut Answer, units: &[u32], calls: &[End]) {
        items::utf32(memory, answer, units, calls);
    }

    fn lossy(answer: &mut Answer, units: &[u32], calls: &[End]) {
        lossy::utf32(answer, units, calls);
    }

    fn lossy_hints(answer: &mut Answer, units: &[u32], calls: &[End]) {
        hints::lossy_utf32(answer, units, calls);
    }

    fn under(
        memory: Memory<'_>,
        answer: &mut Answer,
        units: &[u32],
        calls: &[End],
        policy: Policy,
    ) {
        policies::utf32(memory, answer, units, calls, policy);
    }

    fn no_contents(answer: &mut Answer) {
        answer.units(U32CStr::default().as_slice_with_nul());
    }

    fn eq_other(units: &[u32], other: &str, alloc: Global) -> Result<[bool; 2], NoAnswer> {
        match (as_text(units), Utf16String::from_str(alloc, other)) {
            (Ok(text), Ok(other)) => Ok(eq_both32(text, other.as_utfstr())),
            (Ok(_), Err(_)) => Err(NoAnswer::OutOfMemory),
            (Err(error), _) => Err(error),
        }
    }

    fn eq_chars(units: &[u32], chars: &[char]) -> Result<bool, NoAnswer> {
        let text: Utf32Str<'_> = as_text(units)?;
        Ok(text.eq_chars(chars))
    }

    fn char_at(units: &[u32], index: usize) -> Result<char, NoAnswer> {
        let text: Utf32Str<'_> = as_text(units)?;
        if index < text.len() {
            Ok(text.char_at(index))
        } else {
            Err(NoAnswer::Unparsed)
        }
    }

    fn code_units(answer: &mut Answer, _units: &[u32], _steps: &[Option<End>]) {
        answer.fail(NoAnswer::Unparsed);
    }

    fn encode_other(answer: &mut Answer, units: &[u32], steps: &[Option<End>]) {
        match as_text(units) {
            Ok(text) => walks::utf16(answer, text, steps),
            Err(error) => answer.fail(error),
        }
    }

    fn print_fault(alloc: Global, answer: &mut Answer, units: &[u32]) {
        match Utf32Str::from_slice(units) {
            Ok(_) => answer.fail(NoAnswer::Unparsed),
            Err(fault) => {
                prints::print(alloc, answer, &fault);
                answer.part();
                prints::print(alloc, answer, &fault.cause());
            }
        }
    }

    fn lengths(answer: &mut Answer, units: &[u32]) {
        walks::lengths32(answer, units);
    }
}
