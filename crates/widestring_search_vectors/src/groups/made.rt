//! New strings in an answer. Each has its units there, and before them a `?` if the call made another number of
//! requests for memory than one, or than none for no units.
use widestring::error::OutOfMemory;
use widestring::ucstring::UCString;
use widestring::ustring::UString;
use widestring::utfstring::UtfString;
use widestring_replay::parse::{Memory, NoAnswer};
use widestring_replay::show::{Answer, ReportedUnit};
use widestring_testing::Heap;

fn add<C: ReportedUnit>(
    memory: Memory<'_>,
    answer: &mut Answer,
    left: u64,
    units: &[C],
    is_made: bool,
) {
    if memory.requests_since(left) != u64::from(is_made) {
        answer.word("?");
    }
    answer.units(units);
}

/// Adds a string of units that was made since `left` requests were still to be granted.
pub fn units<C: ReportedUnit>(
    memory: Memory<'_>,
    answer: &mut Answer,
    left: u64,
    made: Result<UString<C, &Heap>, OutOfMemory>,
) {
    match made {
        Ok(string) => add(memory, answer, left, string.as_slice(), !string.is_empty()),
        Err(_) => answer.fail(NoAnswer::OutOfMemory),
    }
}

/// Adds a string of text that was made since `left` requests were still to be granted.
pub fn text<C: ReportedUnit>(
    memory: Memory<'_>,
    answer: &mut Answer,
    left: u64,
    made: Result<UtfString<C, &Heap>, OutOfMemory>,
) {
    match made {
        Ok(string) => add(memory, answer, left, string.as_slice(), !string.is_empty()),
        Err(_) => answer.fail(NoAnswer::OutOfMemory),
    }
}

/// Adds the contents of a C string that was made since `left` requests were still to be granted. It has at least its
/// NUL, so it makes one request.
pub fn contents<C: ReportedUnit>(
    memory: Memory<'_>,
    answer: &mut Answer,
    left: u64,
    made: Result<UCString<C, &Heap>, OutOfMemory>,
) {
    match made {
        Ok(string) => add(memory, answer, left, string.as_ucstr().as_slice(), true),
        Err(_) => answer.fail(NoAnswer::OutOfMemory),
    }
}
