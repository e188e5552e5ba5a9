//! Converts a prefix of UTF-8 to UTF-16 or UTF-32 (Unicode Standard, section 3.9, D90 to D92, Table 3-6). Each step
//! reads sixteen bytes or more, and the bytes at its start select a method: for ASCII, for a run of characters of four
//! or of three bytes, or for a mixture of characters of one to three bytes. A character of four bytes outside a run,
//! and the last few bytes, are converted one character at a time.

ghost use Rattle.std.specs.Prelude.{◌≡◌, ◌++◌, ◌+◌, ◌*◌, ◌<◌, ◌≤◌, length, map, take, drop};
ghost use Rattle.std.specs.Char.{IsScalar};
ghost use Rattle.std.specs.Str.{IsUtf8, chars as str_chars};
ghost use Rattle.std.specs.Str.Pattern.{StartsWithChar};
ghost use Rattle.wide_forms.specs.EncodingForm.{encode};
ghost use Rattle.wide_from_utf8.specs.Decoded.{IsDecoded};

use crate::from_utf8_ascii::{
    are_eight_ascii, low_len, put_ascii_blocks, put_bytes, put_eight_bytes,
};
use crate::from_utf8_mixed::put_mixed;
use crate::from_utf8_runs::{are_fours, are_threes, put_fours, put_threes};
use wide_forms::Progress;
use wide_unit::{Unit, char_of, put_char};

// Returns the first character of text, by its leading byte (Unicode Standard, Table 3-6), and its length in bytes.
#[inline(always)]
fn first_char(text: &[u8]) -> (char, usize)
    requires text { IsUtf8 text.now }
    requires some { 0 < length text.now }
    ensures first { StartsWithChar text.now result.0 result.1 }
    ensures scalar { IsScalar result.0 }
{
    let first = text[0] as u32;
    if first < 0x80 {
        return (char_of(first), 1);
    }
    let second = text[1] as u32 % 0x40;
    if first < 0xe0 {
        return (char_of(first % 0x20 * 0x40 + second), 2);
    }
    let third = text[2] as u32 % 0x40;
    if first < 0xf0 {
        return (char_of(first % 0x10 * 0x1000 + second * 0x40 + third), 3);
    }
    let fourth = text[3] as u32 % 0x40;
    let code = first % 8 * 0x4_0000 + second * 0x1000 + third * 0x40 + fourth;
    (char_of(code), 4)
}

// Writes the units of the first character of text, and returns its length in bytes and in units.
#[inline(always)]
fn put_first<C: Unit>(text: &[u8], units: &mut [C], at: usize) -> Progress
    requires text { IsUtf8 text.now }
    requires some { 0 < length text.now }
    requires space { at + 2 ≤ length units.old }
    ensures read { result.read ≤ length text.now }
    ensures some { 0 < result.read }
    ensures few { result.written ≤ 2 * result.read }
    ensures space { at + result.written ≤ length units.new }
    ensures units { IsDecoded C.form text.now result.read (map C.number (take at units.old)) (map C.number (take (at + result.written) units.new)) }
{
    let (c, len) = first_char(text);
    let beyond = put_char(units, at, c);
    Progress {
        read: len,
        written: beyond - at,
    }
}

// Writes the units of some characters at the beginning of text. Returns how many bytes were read and how many units
// were written.
#[inline(always)]
fn put_block<C: Unit>(text: &[u8], units: &mut [C], at: usize) -> Progress
    requires text { IsUtf8 text.now }
    requires whole { 18 ≤ length text.now }
    requires space { at + 16 ≤ length units.old }
    ensures read { result.read ≤ length text.now }
    ensures some { 0 < result.read }
    ensures few { result.written ≤ 2 * result.read }
    ensures space { at + result.written ≤ length units.new }
    ensures units { IsDecoded C.form text.now result.read (map C.number (take at units.old)) (map C.number (take (at + result.written) units.new)) }
{
    if low_len(text, 0x80) == 16 {
        put_bytes(text, units, at);
        let more = 16 + put_ascii_blocks(&text[16..], units, at + 16);
        return Progress {
            read: more,
            written: more,
        };
    }
    if text[0] >= 0xf0 {
        if are_fours(text) {
            return Progress {
                read: 16,
                written: put_fours(text, units, at) - at,
            };
        }
        return put_first(text, units, at);
    }
    // Two runs of fifteen bytes. Each check reads one byte more.
    if text.len() >= 31 && are_threes(text) && are_threes(&text[15..]) {
        put_threes(text, units, at);
        put_threes(&text[15..], units, at + 5);
        return Progress {
            read: 30,
            written: 10,
        };
    }
    put_mixed(text, units, at)
}

/// Decodes a prefix of text in UTF-8 (Unicode Standard, D92) to the encoding form of `C` (D90, D91) at the beginning of
/// `units`. Returns how many bytes were read and how many units were written. It reads all the text if `units` has
/// space for all its units, and at least one character if it has two units. The units after those written may be
/// overwritten.
///
/// # Requires
///
/// The text is well-formed UTF-8.
pub fn from_utf8_prefix<C: Unit>(text: &[u8], units: &mut [C]) -> Progress
    requires text { IsUtf8 text.now }
    ensures read { result.read ≤ length text.now }
    ensures some { 0 < length text.now → 2 ≤ length units.old → 0 < result.read }
    ensures whole { length (encode C.form (str_chars text.now)) ≤ length units.old → result.read ≡ length text.now }
    ensures written { result.written ≤ length units.new }
    ensures units { encode C.form (str_chars text.now) ≡ map C.number (take result.written units.new) ++ encode C.form (str_chars (drop result.read text.now)) }
    ensures rest { IsUtf8 (drop result.read text.now) }
{
    let mut read = 0;
    let mut written = 0;
    // A step looks at two bytes after the sixteen: the rest of a character that begins in them.
    'sixteens: while text.len() - read >= 18 && units.len() - written >= 16 {
        let step = put_block(&text[read..], units, written);
        read += step.read;
        written += step.written;
    }
    // Here fewer than eighteen bytes are left, or there is space for fewer than sixteen units. In the latter case the
    // rest of the text may be long.
    'eights: while text.len() - read >= 8
        && units.len() - written >= 8
        && are_eight_ascii(&text[read..])
    {
        put_eight_bytes(&text[read..], units, written);
        read += 8;
        written += 8;
    }
    'ones: while read < text.len() {
        let (c, len) = first_char(&text[read..]);
        if units.len() - written < C::char_len(c) {
            return Progress { read, written };
        }
        written = put_char(units, written, c);
        read += len;
    }
    Progress { read, written }
}
