//! The offset of a character in UTF-16, from the known offset of another one.
//!
//! Each unit that is passed is counted once, and characters that are passed unread are not counted.
ghost use Rattle.std.specs.Prelude.{◌≡◌, ◌+◌, ◌-◌, ◌*◌, ◌<◌, ◌≤◌, length};
ghost use Rattle.wide_forms.specs.EncodingForm.{Utf16};
ghost use Rattle.wide_forms.specs.Items.{chars};
ghost use Rattle.wide_utfstr.specs.View.{units_seen};
ghost use Rattle.wide_steps.specs.Counted.{counted, AddsAtMost};
ghost use Rattle.wide_offset_index.specs.Marks.{offset};
ghost use Rattle.wide_offset_index.specs.Passed.{AddsPassed};

use wide_steps::{Steps, tick};
use wide_utfstr::Utf16Str;

// Returns how many units the character at an offset has. The next one begins one unit further on, or two.
fn len_after(text: Utf16Str<'_>, _index: usize, at: usize) -> usize
    requires within { _index < length (chars Utf16 (units_seen text)) }
    requires at { at ≡ offset (chars Utf16 (units_seen text)) _index }
    ensures { offset (chars Utf16 (units_seen text.entry)) (_index + 1) ≡ at + result }
{
    // This call reads no unit. Its contract gives the proof that the units are well formed.
    let _units = text.len();
    if text.is_char_boundary(at + 1) {
        return 1;
    }
    2
}

// Returns how many units the character before an offset has. It begins one unit before, or two.
fn len_before(text: Utf16Str<'_>, _index: usize, at: usize) -> usize
    requires some { 0 < _index }
    requires within { _index ≤ length (chars Utf16 (units_seen text)) }
    requires at { at ≡ offset (chars Utf16 (units_seen text)) _index }
    ensures { offset (chars Utf16 (units_seen text.entry)) (_index - 1) + result ≡ at }
{
    // This call reads no unit. Its contract gives the proof that the units are well formed.
    let _units = text.len();
    if text.is_char_boundary(at - 1) {
        return 1;
    }
    2
}

/// Returns the offset of the character at index `to`, from the offset `start` of the character at index `from`. It
/// reads the units between both offsets, and counts them.
///
/// # Requires
///
/// `from` is at most `to`, which is at most the number of characters, and `start` is the offset of `from`.
pub fn pass_on(text: Utf16Str<'_>, from: usize, start: usize, to: usize, steps: &mut Steps) -> usize
    requires forward { from ≤ to }
    requires within { to ≤ length (chars Utf16 (units_seen text)) }
    requires start { start ≡ offset (chars Utf16 (units_seen text)) from }
    ensures offset { result ≡ offset (chars Utf16 (units_seen text.entry)) to }
    ensures steps { counted steps.new + start ≡ counted steps.old + result }
{
    // This call reads no unit. Its contract gives the proof that the units are well formed.
    let _units = text.len();
    let mut at = start;
    for number in from..to {
        let len = len_after(text, number, at);
        tick(steps, len);
        at += len;
    }
    at
}

// Returns the offset of the character at index `to`, from the offset `start` of a later character, the one at index
// `from`.
pub(crate) fn pass_back(
    text: Utf16Str<'_>,
    from: usize,
    start: usize,
    to: usize,
    steps: &mut Steps,
) -> usize
    requires back { to ≤ from }
    requires within { from ≤ length (chars Utf16 (units_seen text)) }
    requires start { start ≡ offset (chars Utf16 (units_seen text)) from }
    ensures offset { result ≡ offset (chars Utf16 (units_seen text.entry)) to }
    ensures steps { counted steps.new + result ≡ counted steps.old + start }
{
    // This call reads no unit. Its contract gives the proof that the units are well formed.
    let _units = text.len();
    let mut at = start;
    for passed in 0..from - to {
        let len = len_before(text, from - passed, at);
        tick(steps, len);
        at -= len;
    }
    at
}

// Returns the offset of the character at index `to`, given the index and the offset of an earlier character and of a
// later one. It reads from the nearer of these two. If the characters between them have one unit each, it reads none.
pub(crate) fn between(
    text: Utf16Str<'_>,
    low: (usize, usize),
    high: (usize, usize),
    to: usize,
    steps: &mut Steps,
) -> usize
    requires after { low.0 ≤ to }
    requires before { to ≤ high.0 }
    requires within { high.0 ≤ length (chars Utf16 (units_seen text)) }
    requires low { low.1 ≡ offset (chars Utf16 (units_seen text)) low.0 }
    requires high { high.1 ≡ offset (chars Utf16 (units_seen text)) high.0 }
    ensures offset { result ≡ offset (chars Utf16 (units_seen text.entry)) to }
    ensures passes { AddsPassed (chars Utf16 (units_seen text.entry)) steps.old steps.new low.0 high.0 to }
    ensures on { AddsAtMost steps.old steps.new (2 * (to - low.0)) }
    ensures back { AddsAtMost steps.old steps.new (2 * (high.0 - to)) }
{
    // This call reads no unit. Its contract gives the proof that the units are well formed.
    let _units = text.len();
    let passed = to - low.0;
    let left = high.0 - to;
    if high.1 - low.1 == high.0 - low.0 {
        low.1 + passed
    } else if passed <= left {
        pass_on(text, low.0, low.1, to, steps)
    } else {
        pass_back(text, high.0, high.1, to, steps)
    }
}
