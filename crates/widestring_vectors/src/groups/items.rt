//! The items of a decoder, from both ends. A question is a word of calls. They make one request, and none if there are
//! no calls; else the answer has a `?`.
use widestring::error::{DecodeUtf16Error, DecodeUtf32Error};
use widestring::iter::{End, read_ends16, read_ends32};
use widestring_replay::parse::{Memory, NoAnswer};
use widestring_replay::show::Answer;

// Adds what a decoder returned for each call, and before it a `?` if it made another number of requests.
macro_rules! add_items {
    ($answer:expr, $requests:expr, $items:expr, $unit:ty) => {{
        if $requests != u64::from(!$items.is_empty()) {
            $answer.word("?");
        }
        for item in $items {
            $answer.item::<$unit>(*item);
        }
    }};
}

fn add_items16(
    answer: &mut Answer,
    requests: u64,
    items: &[Option<Result<char, DecodeUtf16Error>>],
) {
    add_items!(answer, requests, items, u16)
}

fn add_items32(
    answer: &mut Answer,
    requests: u64,
    items: &[Option<Result<char, DecodeUtf32Error>>],
) {
    add_items!(answer, requests, items, u32)
}

/// Adds what a decoder of UTF-16 returns for each call.
pub fn utf16(memory: Memory<'_>, answer: &mut Answer, units: &[u16], calls: &[End]) {
    let left = memory.heap.left();
    match read_ends16(memory.heap, units, calls) {
        Ok(items) => add_items16(answer, memory.requests_since(left), &items),
        Err(_) => answer.fail(NoAnswer::OutOfMemory),
    }
}

/// Adds what a decoder of UTF-32 returns for each call.
pub fn utf32(memory: Memory<'_>, answer: &mut Answer, units: &[u32], calls: &[End]) {
    let left = memory.heap.left();
    match read_ends32(memory.heap, units, calls) {
        Ok(items) => add_items32(answer, memory.requests_since(left), &items),
        Err(_) => answer.fail(NoAnswer::OutOfMemory),
    }
}
