//! Converts prefixes of well-formed UTF-16 or UTF-32 to UTF-8 (Unicode Standard, section 3.9, D90 to D92). Vectorized:
//! sixteen units in one step. UTF-32 below 0x1_0000 is encoded as UTF-16, by look-up tables of shuffles. For other
//! UTF-32, SIMD lanes compute the bytes and the length of each scalar value.

ghost use Rattle.std.specs.Prelude.{◌≡◌, ◌++◌, ◌+◌, ◌*◌, ◌<◌, ◌≤◌, ℕ, drop, length, map, slice_index, take};
ghost use Rattle.std.specs.Char.{IsScalar};
ghost use Rattle.std.specs.List.{All};
ghost use Rattle.wide_forms.specs.EncodingForm.{Utf16, Utf32};
ghost use Rattle.wide_forms.specs.Items.{IsWellFormed, chars};
ghost use Rattle.wide_forms.specs.Utf8.{utf8, utf8_bytes};
ghost use Rattle.wide_from_units.specs.Scalars.{IsScalarLen, IsScalarWord};

use wide_forms::Progress;
use wide_unit::{AnyUnits, Unit};
use wide_utf16_to_utf8::{
    put_ascii, put_three_bytes, put_two_bytes, put_u32_le, utf16_to_utf8_until_fault,
};

// Encodes a prefix of 16-bit units: as many as certainly fit into `text`, at three bytes for each. Returns how many
// units were read and how many bytes were written.
fn utf16_to_utf8_prefix(units: &[u16], text: &mut [u8]) -> Progress
    requires well_formed { IsWellFormed Utf16 units.now }
    requires space { 64 ≤ length text.old }
    ensures read { result.read ≤ length units.now }
    ensures some { 0 < length units.now → 0 < result.read }
    ensures written { result.written ≤ length text.new }
    ensures text { utf8 (chars Utf16 units.now) ≡ take result.written text.new ++ utf8 (chars Utf16 (drop result.read units.now)) }
    ensures rest { IsWellFormed Utf16 (drop result.read units.now) }
{
    // The conversion may overwrite four bytes after the text.
    let fitting = (text.len() - 4) / 3;
    let count = if units.len() < fitting {
        units.len()
    } else {
        fitting
    };
    let step = utf16_to_utf8_until_fault(&units[..count], text, 0);
    Progress {
        read: step.read,
        written: step.written,
    }
}

// Returns the bitwise or of sixteen units. No unit is greater than it.
#[inline(always)]
fn bits_of(block: &[u32]) -> u32
    requires { length block.now ≡ 16 }
    ensures { (k : ℕ) → k < 16 → slice_index block.now k ≤ result }
{
    let mut bits = 0;
    for k in 0..16 {
        bits |= block[k];
    }
    bits
}

// Converts sixteen units below 0x1_0000 to 16 bits each.
#[inline(always)]
fn narrow(block: &[u32], units: &mut [u16])
    requires whole { length block.now ≡ 16 }
    requires space { length units.old ≡ 16 }
    requires narrow { (k : ℕ) → k < 16 → slice_index block.now k < 0x1_0000 }
    ensures { units.new ≡ block.now }
{
    for k in 0..16 {
        units[k] = block[k] as u16;
    }
}

// Returns the UTF-8 of a scalar value as a number, low byte first. It computes the bytes for each length and selects
// one result, so that the compiler can vectorize a loop of calls.
#[inline(always)]
fn word_of(code: u32) -> u32
    ensures { IsScalarWord code result }
{
    // Six bits for each byte, the highest six bits in the lowest byte.
    let parts = code / 0x4_0000
        + code / 0x1000 % 0x40 * 0x100
        + code / 0x40 % 0x40 * 0x1_0000
        + code % 0x40 * 0x100_0000;
    let two = 0x80c0 + parts / 0x1_0000;
    let three = 0x80_80e0 + parts / 0x100;
    let four = 0x8080_80f0 + parts;
    let short = if code < 0x80 { code } else { two };
    let plain = if code < 0x800 { short } else { three };
    if code < 0x1_0000 { plain } else { four }
}

// Returns the length of a scalar value in UTF-8 bytes.
#[inline(always)]
fn len_of(code: u32) -> u32
    ensures { IsScalarLen code result }
{
    1 + u32::from(0x80 <= code) + u32::from(0x800 <= code) + u32::from(0x1_0000 <= code)
}

// Writes a scalar value as UTF-8, and returns the offset in bytes after it.
#[inline(always)]
fn put_scalar(out: &mut [u8], at: usize, code: u32) -> usize
    requires space { at + 4 ≤ length out.old }
    requires below { code < 0x11_0000 }
    ensures text { take result out.new ≡ take at out.old ++ utf8_bytes code }
    ensures high { result ≤ at + 4 }
{
    put_u32_le(out, at, word_of(code));
    at + len_of(code) as usize
}

// Stores the UTF-8 of each of sixteen scalar values as a number, low byte first.
#[inline(always)]
fn words_of(block: &[u32], words: &mut [u32])
    requires whole { length block.now ≡ 16 }
    requires space { length words.old ≡ 16 }
    ensures { (k : ℕ) → k < 16 → IsScalarWord (slice_index block.now k) (slice_index words.new k) }
{
    for k in 0..16 {
        words[k] = word_of(block[k]);
    }
}

// Stores the length of each of sixteen scalar values in UTF-8 bytes.
#[inline(always)]
fn lens_of(block: &[u32], lens: &mut [u32])
    requires whole { length block.now ≡ 16 }
    requires space { length lens.old ≡ 16 }
    ensures { (k : ℕ) → k < 16 → IsScalarLen (slice_index block.now k) (slice_index lens.new k) }
{
    for k in 0..16 {
        lens[k] = len_of(block[k]);
    }
}

// Computes the UTF-8 of sixteen scalar values as numbers, and its lengths. It is a separate function, so that the
// compiler vectorizes the loops over both arrays.
#[inline(never)]
fn lanes_of(block: &[u32], words: &mut [u32], lens: &mut [u32])
    requires whole { length block.now ≡ 16 }
    requires space { length words.old ≡ 16 }
    requires offsets { length lens.old ≡ 16 }
    ensures words { (k : ℕ) → k < 16 → IsScalarWord (slice_index block.now k) (slice_index words.new k) }
    ensures lens { (k : ℕ) → k < 16 → IsScalarLen (slice_index block.now k) (slice_index lens.new k) }
{
    words_of(block, words);
    lens_of(block, lens);
}

// Writes sixteen scalar values as UTF-8, and returns the offset in bytes after them. Up to three bytes after them may
// be overwritten.
#[inline(always)]
fn put_scalars(block: &[u32], out: &mut [u8], at: usize) -> usize
    requires whole { length block.now ≡ 16 }
    requires space { at + 64 ≤ length out.old }
    requires scalars { All IsScalar block.now }
    ensures text { take result out.new ≡ take at out.old ++ utf8 block.now }
    ensures high { result ≤ at + 64 }
{
    let mut words = [0u32; 16];
    let mut lens = [0u32; 16];
    lanes_of(block, &mut words, &mut lens);
    let mut written = at;
    for k in 0..16 {
        put_u32_le(out, written, words[k]);
        written += lens[k] as usize;
    }
    written
}

// Writes sixteen scalar values below 0x1_0000, none of them greater than `bits`, as UTF-8. Returns the offset in bytes
// after them. Up to twelve bytes after them may be overwritten. It is a separate function because the compiler would
// otherwise fill the array in several stores, for which the vector loads have to wait.
#[inline(never)]
fn put_units(block: &[u32], bits: u32, out: &mut [u8], at: usize) -> usize
    requires whole { length block.now ≡ 16 }
    requires space { at + 64 ≤ length out.old }
    requires scalars { All IsScalar block.now }
    requires bits { (k : ℕ) → k < 16 → slice_index block.now k ≤ bits }
    requires below { bits < 0x1_0000 }
    ensures text { take result out.new ≡ take at out.old ++ utf8 block.now }
    ensures high { result ≤ at + 64 }
{
    let mut units = [0u16; 16];
    narrow(block, &mut units);
    if bits < 0x800 {
        put_two_bytes(&units, out, at)
    } else {
        put_three_bytes(&units, out, at)
    }
}

// Writes sixteen scalar values as UTF-8, and returns the offset in bytes after them. It encodes them as UTF-16 units if
// all are below 0x1_0000. Up to twelve bytes after the text may be overwritten.
#[inline(always)]
fn put_block(block: &[u32], out: &mut [u8], at: usize) -> usize
    requires whole { length block.now ≡ 16 }
    requires space { at + 64 ≤ length out.old }
    requires scalars { All IsScalar block.now }
    ensures text { take result out.new ≡ take at out.old ++ utf8 block.now }
    ensures high { result ≤ at + 64 }
{
    let bits = bits_of(block);
    if bits < 0x80 {
        let mut units = [0u16; 16];
        narrow(block, &mut units);
        put_ascii(&units, out, at);
        at + 16
    } else if bits < 0x1_0000 {
        put_units(block, bits, out, at)
    } else {
        put_scalars(block, out, at)
    }
}

// Encodes a prefix of 32-bit units: sixteen in one step, and one by one if fewer than sixteen units or fewer than 64
// bytes of space are left. Returns how many units were read and how many bytes were written.
fn utf32_to_utf8_prefix(units: &[u32], text: &mut [u8]) -> Progress
    requires well_formed { IsWellFormed Utf32 units.now }
    requires space { 64 ≤ length text.old }
    ensures read { result.read ≤ length units.now }
    ensures some { 0 < length units.now → 0 < result.read }
    ensures written { result.written ≤ length text.new }
    ensures text { utf8 (chars Utf32 units.now) ≡ take result.written text.new ++ utf8 (chars Utf32 (drop result.read units.now)) }
    ensures rest { IsWellFormed Utf32 (drop result.read units.now) }
{
    let mut read = 0;
    let mut written = 0;
    'sixteens: while units.len() - read >= 16 && text.len() - written >= 64 {
        written = put_block(&units[read..read + 16], text, written);
        read += 16;
    }
    'ones: while read < units.len() && text.len() - written >= 4 {
        written = put_scalar(text, written, units[read]);
        read += 1;
    }
    Progress { read, written }
}

/// Encodes a prefix of well-formed units as UTF-8 (Unicode Standard, D92) at the beginning of `text`, and returns how
/// many units were read and how many bytes were written. It reads at least one unit if there is any. The bytes after
/// those written may be overwritten.
///
/// # Requires
///
/// The units are well formed. `text` has at least 64 bytes.
pub fn to_utf8_prefix<C: Unit>(units: &[C], text: &mut [u8]) -> Progress
    requires well_formed { IsWellFormed C.form (map C.number units.now) }
    requires space { 64 ≤ length text.old }
    ensures read { result.read ≤ length units.now }
    ensures some { 0 < length units.now → 0 < result.read }
    ensures written { result.written ≤ length text.new }
    ensures text { utf8 (chars C.form (map C.number units.now)) ≡ take result.written text.new ++ utf8 (chars C.form (map C.number (drop result.read units.now))) }
    ensures rest { IsWellFormed C.form (map C.number (drop result.read units.now)) }
{
    match C::as_any(units) {
        AnyUnits::U16(units) => utf16_to_utf8_prefix(units, text),
        AnyUnits::U32(units) => utf32_to_utf8_prefix(units, text),
    }
}
