//! Decodes any bytes as lossy text, character by character and fault by fault. It follows the Unicode Standard, section
//! 3.9, Table 3-7 and "U+FFFD Substitution of Maximal Subparts". Scalar code, except for ASCII, which it reads sixteen
//! bytes at a time.

ghost use Rattle.std.specs.Prelude.{◌≡◌, ◌+◌, ◌<◌, ◌≤◌, ℕ, ◌&&◌, [], IfNone, IfSome, length, map, slice_index, take, drop};
ghost use Rattle.std.specs.Int.{is_in_range};
ghost use Rattle.std.specs.Str.Lossy.{second_byte_max, second_byte_min};
ghost use Rattle.wide_forms.specs.Segmentation.{Char, Fault};
ghost use Rattle.wide_conversions.specs.Utf8Items.{BeginsWith, IsLossyPrefix};

use wide_forms::{LossyProgress, Policy, replacement};
use wide_from_utf8::{low_len, put_bytes};
use wide_unit::{Unit, char_of, put_char};

// After this many bytes without a fault, the caller goes on with the vectorized conversion.
const VALID: usize = 64;

// Returns the byte at an offset, or zero after the end. Zero continues no character.
#[inline(always)]
fn byte_at(text: &[u8], at: usize) -> u8
    ensures { result ≡ slice_index text.now at }
{
    if at < text.len() { text[at] } else { 0 }
}

// Returns whether two bytes can begin a character of several bytes (Unicode Standard, Table 3-7).
#[inline(always)]
fn may_follow(first: u8, second: u8) -> bool
    ensures { result ≡ (is_in_range 0xC2 0xF4 first && is_in_range (second_byte_min first) (second_byte_max first) second) }
{
    let (least, greatest) = match first {
        0xe0 => (0xa0, 0xbf),
        0xed => (0x80, 0x9f),
        0xf0 => (0x90, 0xbf),
        0xf4 => (0x80, 0x8f),
        _ => (0x80, 0xbf),
    };
    0xc2 <= first && first <= 0xf4 && least <= second && second <= greatest
}

// Returns the first character of some bytes, or `None` if they begin with a fault, an ill-formed sequence (Unicode
// Standard, section 3.9, "U+FFFD Substitution of Maximal Subparts"). Also returns the length of the character or the
// fault in bytes.
#[inline(always)]
fn first_item(text: &[u8]) -> (Option<char>, usize)
    requires { 0 < length text.now }
    ensures within { result.1 ≤ length text.now }
    ensures some { 0 < result.1 }
    ensures character { IfSome result.0 (λ c. BeginsWith text.now (Char c) result.1) }
    ensures part { IfNone result.0 (BeginsWith text.now (Fault (slice_index text.now 0)) result.1) }
{
    let first = text[0] as u32;
    if first < 0x80 {
        return (Some(char_of(first)), 1);
    }
    let second = byte_at(text, 1);
    if !may_follow(text[0], second) {
        return (None, 1);
    }
    let second = second as u32 % 0x40;
    if first < 0xe0 {
        return (Some(char_of(first % 0x20 * 0x40 + second)), 2);
    }
    let third = byte_at(text, 2);
    if third / 0x40 != 2 {
        return (None, 2);
    }
    let third = third as u32 % 0x40;
    if first < 0xf0 {
        return (
            Some(char_of(first % 0x10 * 0x1000 + second * 0x40 + third)),
            3,
        );
    }
    let fourth = byte_at(text, 3);
    if fourth / 0x40 != 2 {
        return (None, 3);
    }
    let code = first % 8 * 0x4_0000 + second * 0x1000 + third * 0x40 + fourth as u32 % 0x40;
    (Some(char_of(code)), 4)
}

// Writes the lossy text of up to sixteen ASCII characters at the beginning of some bytes, or else of the first item.
// Returns how many bytes were read, how many units were written, and whether a fault was read last.
#[inline(always)]
fn put_prefix<C: Unit>(
    text: &[u8],
    policy: Policy,
    after_fault: bool,
    units: &mut [C],
    at: usize,
) -> LossyProgress
    requires some { 0 < length text.now }
    requires space { at + 16 ≤ length units.old }
    ensures read { result.read ≤ length text.now }
    ensures some { 0 < result.read }
    ensures space { at + result.written ≤ length units.new }
    ensures units { IsLossyPrefix C.form policy text.now result.read after_fault result.after_fault (map C.number (take at units.old)) (map C.number (take (at + result.written) units.new)) }
{
    if text.len() >= 16 {
        let ascii = low_len(text, 0x80);
        if ascii > 0 {
            put_bytes(text, units, at);
            return LossyProgress {
                read: ascii,
                written: ascii,
                after_fault: false,
            };
        }
    }
    let (item, len) = first_item(text);
    if let Some(c) = item {
        let beyond = put_char(units, at, c);
        return LossyProgress {
            read: len,
            written: beyond - at,
            after_fault: false,
        };
    }
    let Some(c) = replacement(policy, after_fault) else {
        return LossyProgress {
            read: len,
            written: 0,
            after_fault: true,
        };
    };
    let beyond = put_char(units, at, c);
    LossyProgress {
        read: len,
        written: beyond - at,
        after_fault: true,
    }
}

/// Decodes a prefix of any bytes as lossy text under a policy (Unicode Standard, section 3.9, "U+FFFD Substitution of
/// Maximal Subparts"), and writes it in the encoding form of `C` (D90, D91) at the beginning of `units`. `after_fault`
/// says whether a fault directly precedes the bytes. Returns how many bytes were read, how many units were written, and
/// whether a fault was read last. It reads at least one byte if there is any. It stops after a run of bytes without a
/// fault, which `from_utf8_prefix` decodes faster. The units after those written may be overwritten.
///
/// # Requires
///
/// `units` has at least 16 units.
pub fn from_utf8_lossy_prefix<C: Unit>(
    text: &[u8],
    policy: Policy,
    after_fault: bool,
    units: &mut [C],
) -> LossyProgress
    requires { 16 ≤ length units.old }
    ensures read { result.read ≤ length text.now }
    ensures some { 0 < length text.now → 0 < result.read }
    ensures written { result.written ≤ length units.new }
    ensures units { IsLossyPrefix C.form policy text.now result.read after_fault result.after_fault [] (map C.number (take result.written units.new)) }
{
    let mut read = 0;
    let mut written = 0;
    let mut after_fault = after_fault;
    let mut valid = 0;
    'items: while read < text.len() && units.len() - written >= 16 && valid < VALID {
        let step = put_prefix(&text[read..], policy, after_fault, units, written);
        read += step.read;
        written += step.written;
        after_fault = step.after_fault;
        valid = if after_fault { 0 } else { valid + step.read };
    }
    LossyProgress {
        read,
        written,
        after_fault,
    }
}
