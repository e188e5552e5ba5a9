//! Finds the first ill-formed sequence in UTF-8 (Unicode Standard, section 3.9, D92, D93b and Table 3-7). Each byte is
//! checked against the three bytes before it, in loops that the compiler vectorizes.

ghost use Rattle.std.specs.Prelude.{◌≡◌, ◌↔◌, ◌+◌, ◌-◌, ◌<◌, ◌≤◌, ℕ, IsTrue, length, slice_index, take};
ghost use Rattle.std.specs.Str.{IsUtf8};
ghost use Rattle.std.specs.Str.Lossy.{utf8_valid_len};
ghost use Rattle.wide_conversions.specs.ChunkEnds.{EndsAs};
ghost use Rattle.wide_conversions.specs.Following.{CanFollow, IsWholeUpTo};

use std::str;

// How many bytes are checked in one step. They are in a block of 67: the three bytes before them, then the 64.
const BLOCK: usize = 64;

// Returns how many rules of Table 3-7 a byte breaks after `third`, `second` and `first`, of which `first` directly
// precedes it. The rules, in order: it is a trailing byte exactly if one is due; it is not C0 or C1; it is at most F4;
// it is not below A0 after E0, nor from A0 on after ED, nor below 90 after F0, nor from 90 on after F4. All are checked
// without branches, so that the compiler can vectorize a loop of calls.
#[inline(always)]
fn broken_rules(third: u8, second: u8, first: u8, byte: u8) -> u8
    ensures { result ≡ 0 → CanFollow third second first byte }
{
    let due = u8::from(0xf0 <= third) + u8::from(0xe0 <= second) + u8::from(0xc0 <= first);
    let trails = u8::from(byte / 0x40 == 2);
    let below_a0 = u8::from(byte < 0xa0);
    let below_90 = u8::from(byte < 0x90);
    u8::from(due != trails)
        + u8::from(byte / 2 == 0x60)
        + u8::from(0xf5 <= byte)
        + u8::from(u8::from(first == 0xe0) + below_a0 == 2)
        + u8::from(below_a0 < u8::from(first == 0xed))
        + u8::from(u8::from(first == 0xf0) + below_90 == 2)
        + u8::from(below_90 < u8::from(first == 0xf4))
}

// Returns whether all 67 bytes of a block are ASCII.
#[inline(always)]
fn is_ascii(block: &[u8]) -> bool
    requires { length block.now ≡ 67 }
    ensures { IsTrue result → (k : ℕ) → k < 67 → slice_index block.now k < 0x80 }
{
    let mut bits = 0;
    for k in 0..67 {
        bits |= block[k];
    }
    bits < 0x80
}

// Returns whether all of 128 bytes are ASCII.
#[inline(always)]
fn are_ascii(bytes: &[u8]) -> bool
    requires { length bytes.now ≡ 128 }
    ensures { IsTrue result → (k : ℕ) → k < 128 → slice_index bytes.now k < 0x80 }
{
    let mut bits = 0;
    for k in 0..128 {
        bits |= bytes[k];
    }
    bits < 0x80
}

// Returns the length of a prefix that is ASCII, in bytes, a multiple of 128. It ends before the first block of 128
// bytes that is not all ASCII or not complete. 128 bytes are whole vectors, of whatever width, with no byte left over.
#[inline(always)]
fn ascii_len(text: &[u8]) -> usize
    ensures within { result ≤ length text.now }
    ensures ascii { (k : ℕ) → k < result → slice_index text.now k < 0x80 }
{
    let mut len = 0;
    'runs: while text.len() - len >= 128 && are_ascii(&text[len..len + 128]) {
        len += 128;
    }
    len
}

// Returns whether each of the last 64 bytes of a block may follow the three bytes before it (Unicode Standard, Table
// 3-7), without a test for ASCII first.
#[inline(always)]
fn can_follow_by_rules(block: &[u8]) -> bool
    requires { length block.now ≡ 67 }
    ensures { IsTrue result → (k : ℕ) → k < 64 → CanFollow (slice_index block.now k) (slice_index block.now (k + 1)) (slice_index block.now (k + 2)) (slice_index block.now (k + 3)) }
{
    let mut broken = 0;
    for k in 0..64 {
        broken |= broken_rules(block[k], block[k + 1], block[k + 2], block[k + 3]);
    }
    broken == 0
}

// Returns whether each of the last 64 bytes of a block may follow the three bytes before it. The block need not be well
// formed: it may begin or end within a character. ASCII is tested first, because that is faster.
#[inline(always)]
fn can_follow(block: &[u8]) -> bool
    requires { length block.now ≡ 67 }
    ensures { IsTrue result → (k : ℕ) → k < 64 → CanFollow (slice_index block.now k) (slice_index block.now (k + 1)) (slice_index block.now (k + 2)) (slice_index block.now (k + 3)) }
{
    is_ascii(block) || can_follow_by_rules(block)
}

// Returns the length of a run of bytes after the first three of `text`, each of which may follow the three bytes before
// it: 64 bytes, and if these and the first three are ASCII, the chunks of 128 ASCII bytes that follow them. Returns 0
// if one of the 64 bytes may not follow.
#[inline(always)]
fn followed_len(text: &[u8]) -> usize
    requires { 67 ≤ length text.now }
    ensures within { result + 3 ≤ length text.now }
    ensures follow { (k : ℕ) → k < result → CanFollow (slice_index text.now k) (slice_index text.now (k + 1)) (slice_index text.now (k + 2)) (slice_index text.now (k + 3)) }
{
    if is_ascii(&text[..BLOCK + 3]) {
        return BLOCK + ascii_len(&text[BLOCK + 3..]);
    }
    if can_follow_by_rules(&text[..BLOCK + 3]) {
        BLOCK
    } else {
        0
    }
}

// Returns the offset of the last character before `end` if that character is incomplete at `end`, and otherwise `end`.
#[inline(always)]
fn whole_len(text: &[u8], end: usize) -> usize
    requires some { 3 ≤ end }
    requires within { end ≤ length text.now }
    ensures { IsWholeUpTo text.now end result }
{
    if 0xc0 <= text[end - 1] {
        end - 1
    } else if 0xe0 <= text[end - 2] {
        end - 2
    } else if 0xf0 <= text[end - 3] {
        end - 3
    } else {
        end
    }
}

// Returns the length in bytes of a well-formed prefix: all characters that are complete in the blocks before the first
// block with a byte that cannot follow those before it. It is 0 for fewer than 64 bytes. The caller checks the rest.
fn checked_len(text: &[u8]) -> usize
    ensures within { result ≤ length text.now }
    ensures text { IsUtf8 (take result text.now) }
{
    if text.len() < BLOCK {
        return 0;
    }
    // Three NULs precede the first block, so that it is checked as the beginning of a text.
    let mut first = [0; BLOCK + 3];
    first[3..].copy_from_slice(&text[..BLOCK]);
    if !can_follow(&first) {
        return 0;
    }
    let mut end = BLOCK;
    'chunks: while text.len() - end >= BLOCK {
        let more = followed_len(&text[end - 3..]);
        if more == 0 {
            return whole_len(text, end);
        }
        end += more;
    }
    whole_len(text, end)
}

/// The longest well-formed prefix of some bytes (Unicode Standard, D92), and how the bytes end after it.
#[derive(Clone, Copy, Debug, PartialEq, Eq)]
pub struct Utf8Chunk {
    /// The length of the prefix in bytes.
    pub valid: usize,
    /// What follows the prefix.
    pub end: Utf8End,
}

/// What follows the longest well-formed prefix of some bytes.
#[derive(Clone, Copy, Debug, PartialEq, Eq)]
pub enum Utf8End {
    /// Nothing: all bytes are well formed.
    Complete,
    /// A fault of this length in bytes, an ill-formed sequence that one U+FFFD replaces (Unicode Standard, D93b, as
    /// std's `Utf8Chunks`). It remains a fault whatever follows the bytes.
    IllFormed(usize),
    /// A sequence of this length in bytes, up to the end of the bytes, which is the beginning of a character (Unicode
    /// Standard, Table 3-7). It is a fault if the text ends here, and a character if the right bytes follow.
    Incomplete(usize),
}

/// Returns the longest prefix that is well-formed UTF-8 (Unicode Standard, D92), and what follows it: nothing, a fault
/// (D93b), or the beginning of a character that the bytes do not complete (Table 3-7). The check is vectorized.
pub fn first_utf8_chunk(text: &[u8]) -> Utf8Chunk
    ensures len { result.valid ≡ utf8_valid_len text.now }
    ensures prefix { IsUtf8 (take result.valid text.now) }
    ensures end { EndsAs text.now result.valid result.end }
{
    let checked = checked_len(text);
    // Std checks the rest, from the end of the last character that is complete in the checked blocks. It stops at the
    // first fault, or reads at most 66 bytes at the end: fewer than a block, and up to three bytes before them.
    match str::from_utf8(&text[checked..]) {
        Ok(_text) => Utf8Chunk {
            valid: text.len(),
            end: Utf8End::Complete,
        },
        Err(fault) => {
            let valid = checked + fault.valid_up_to();
            let end = match fault.error_len() {
                Some(len) => Utf8End::IllFormed(len),
                None => Utf8End::Incomplete(text.len() - valid),
            };
            Utf8Chunk { valid, end }
        }
    }
}

/// Returns whether bytes are well-formed UTF-8 (Unicode Standard, D92). The check is vectorized.
pub fn is_utf8(text: &[u8]) -> bool
    ensures { IsTrue result ↔ IsUtf8 text.now }
{
    matches!(first_utf8_chunk(text).end, Utf8End::Complete)
}
