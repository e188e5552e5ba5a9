//! Encoders. To UTF-8 and UTF-16 a question is empty, and the answer has everything that comes from the front. To
//! UTF-32 a question is a word of calls.
use std::alloc::Global;
use widestring::iter::{End, encode_utf8, encode_utf16, encode_utf32};
use widestring_replay::asked;
use widestring_replay::parse::{self, NoAnswer};
use widestring_replay::show::Answer;

/// Adds all bytes of an encoder to UTF-8.
pub fn utf8(answer: &mut Answer, chars: &[char], question: &str) {
    if !question.is_empty() {
        answer.fail(NoAnswer::Unparsed);
    }
    for byte in encode_utf8(chars.iter().copied()) {
        answer.number(Some(u32::from(byte)));
    }
}

/// Adds all units of an encoder to UTF-16.
pub fn utf16(answer: &mut Answer, chars: &[char], question: &str) {
    if !question.is_empty() {
        answer.fail(NoAnswer::Unparsed);
    }
    for unit in encode_utf16(chars.iter().copied()) {
        answer.number(Some(u32::from(unit)));
    }
}

fn of_calls(answer: &mut Answer, chars: &[char], calls: &[End]) {
    let mut encoder = encode_utf32(chars.iter().copied());
    for end in calls {
        answer.number(asked!(encoder, end));
    }
}

/// Adds what an encoder to UTF-32 returns for each call.
pub fn utf32(alloc: Global, answer: &mut Answer, chars: &[char], word: &str) {
    match parse::calls(alloc, word) {
        Ok(calls) => of_calls(answer, chars, &calls),
        Err(error) => answer.fail(error),
    }
}
