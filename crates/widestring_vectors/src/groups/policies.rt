//! The characters of a lossy decoder under a policy, from both ends, and of the call that reads them at once. A
//! question is a word of calls. The call makes one request, and none if there are no calls. The answer has a `?` if it
//! does not, if the two differ, or if the decoder reports bounds.
ghost use Rattle.std.specs.Iterator.{IsFinite};

use widestring::iter::{End, read_lossy_ends16, read_lossy_ends32};
use widestring::{Policy, decode_utf16_lossy_with, decode_utf32_lossy_with};
use widestring_replay::asked;
use widestring_replay::parse::{Memory, NoAnswer};
use widestring_replay::show::Answer;

// Adds what a decoder returns for each call, and a `?` if something is wrong.
fn compared<D: DoubleEndedIterator<Item = char>>(
    answer: &mut Answer,
    requests_are_right: bool,
    mut decoder: D,
    calls: &[End],
    given: &[Option<char>],
)
where
    requires front { (d : D) → D.can_next d }
    requires back { (d : D) → D.can_next_back d }
    requires finite { (d : D) → IsFinite (D.remaining d) }
{
    let mut is_right = requests_are_right;
    is_right &= decoder.size_hint() == (0, None);
    is_right &= given.len() == calls.len();
    for (end, read) in calls.iter().zip(given) {
        let c = asked!(decoder, end);
        is_right &= *read == c;
        answer.character(c);
    }
    if !is_right {
        answer.word("?");
    }
}

// Returns whether calls made as many requests as they may since `left` requests were still to be granted.
fn requests_are_right(memory: Memory<'_>, left: u64, calls: &[End]) -> bool {
    memory.requests_since(left) == u64::from(!calls.is_empty())
}

/// Adds what a lossy decoder of UTF-16 returns for each call.
pub fn utf16(
    memory: Memory<'_>,
    answer: &mut Answer,
    units: &[u16],
    calls: &[End],
    policy: Policy,
) {
    let left = memory.heap.left();
    match read_lossy_ends16(memory.heap, units, policy, calls) {
        Ok(given) => compared(
            answer,
            requests_are_right(memory, left, calls),
            decode_utf16_lossy_with(units.iter().copied(), policy),
            calls,
            &given,
        ),
        Err(_) => answer.fail(NoAnswer::OutOfMemory),
    }
}

/// Adds what a lossy decoder of UTF-32 returns for each call.
pub fn utf32(
    memory: Memory<'_>,
    answer: &mut Answer,
    units: &[u32],
    calls: &[End],
    policy: Policy,
) {
    let left = memory.heap.left();
    match read_lossy_ends32(memory.heap, units, policy, calls) {
        Ok(given) => compared(
            answer,
            requests_are_right(memory, left, calls),
            decode_utf32_lossy_with(units.iter().copied(), policy),
            calls,
            &given,
        ),
        Err(_) => answer.fail(NoAnswer::OutOfMemory),
    }
}
