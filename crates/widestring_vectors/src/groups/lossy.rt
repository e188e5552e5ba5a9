//! The characters of a lossy decoder, from both ends. A question is a word of calls.
use widestring::iter::{End, decode_utf16_lossy, decode_utf32_lossy};
use widestring_replay::asked;
use widestring_replay::show::Answer;

/// Adds what a lossy decoder of UTF-16 returns for each call.
pub fn utf16(answer: &mut Answer, units: &[u16], calls: &[End]) {
    let mut decoder = decode_utf16_lossy(units.iter().copied());
    for end in calls {
        answer.character(asked!(decoder, end));
    }
}

/// Adds what a lossy decoder of UTF-32 returns for each call.
pub fn utf32(answer: &mut Answer, units: &[u32], calls: &[End]) {
    let mut decoder = decode_utf32_lossy(units.iter().copied());
    for end in calls {
        answer.character(asked!(decoder, end));
    }
}
