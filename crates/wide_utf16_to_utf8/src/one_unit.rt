//! Converts UTF-16 to UTF-8 (Unicode Standard, section 3.9, D91 and D92), one character in one step. Scalar code: the
//! vectorized conversion uses it for the units that remain, and for units that are not paired.

ghost use Rattle.std.specs.Prelude.{◌≡◌, ◌+◌, ◌*◌, ◌-◌, ◌/◌, ◌%◌, ◌≤◌, ◌<◌, ◌++◌, ◌∷◌, [], length, take, drop};
ghost use Rattle.wide_forms.specs.Utf8.{utf8_bytes};
ghost use Rattle.wide_utf16_to_utf8.specs.Encoded.{EncodedUnits, StopsBefore, high_word, low_word};

use wide_forms::StrictProgress;

/// Writes a unit that is a character as UTF-8 at the offset `at`, and returns the offset in bytes after it.
///
/// # Requires
///
/// `out` has at least 3 bytes from `at` on.
#[inline(always)]
pub fn put_unit(out: &mut [u8], at: usize, unit: u16) -> usize
    requires { at + 3 ≤ length out.old }
    ensures text { take result out.new ≡ take at out.old ++ utf8_bytes unit }
    ensures low { at < result }
    ensures high { result ≤ at + 3 }
{
    if unit < 0x80 {
        out[at] = unit as u8;
        at + 1
    } else if unit < 0x800 {
        out[at] = (0b1100_0000 + unit / 0x40) as u8;
        out[at + 1] = (0b1000_0000 + unit % 0x40) as u8;
        at + 2
    } else {
        out[at] = (0b1110_0000 + unit / 0x1000) as u8;
        out[at + 1] = (0b1000_0000 + unit / 0x40 % 0x40) as u8;
        out[at + 2] = (0b1000_0000 + unit % 0x40) as u8;
        at + 3
    }
}

/// Writes the four bytes of a number at the offset `at`, low byte first.
///
/// # Requires
///
/// `out` has at least 4 bytes from `at` on.
#[inline(always)]
pub fn put_u32_le(out: &mut [u8], at: usize, word: u32)
    requires { at + 4 ≤ length out.old }
    ensures { take (at + 4) out.new ≡ take at out.old ++ (word % 0x100) ∷ (word / 0x100 % 0x100) ∷ (word / 0x10000 % 0x100) ∷ (word / 0x1000000) ∷ [] }
{
    // `copy_from_slice` would check whether the two slices overlap.
    out[at] = (word % 0x100) as u8;
    out[at + 1] = (word / 0x100 % 0x100) as u8;
    out[at + 2] = (word / 0x10000 % 0x100) as u8;
    out[at + 3] = (word / 0x1000000) as u8;
}

/// Joins two 16-bit numbers into one of 32 bits: `lead` is the lower half, and `back` the upper half.
#[inline(always)]
pub(crate) fn join(lead: u16, back: u16) -> u32
    ensures { result ≡ lead + back * 0x10000 }
{
    u32::from(lead) + u32::from(back) * 0x10000
}

/// Returns the first two UTF-8 bytes of a surrogate pair, low byte first. They depend on the high surrogate only.
#[inline(always)]
pub(crate) fn high_word_of(high: u16) -> u16
    ensures { result ≡ high_word high }
{
    // The scalar value divided by 0x400.
    let top = high % 0x400 + 0x40;
    0x80f0 + top / 0x100 + top / 4 % 0x40 * 0x100
}

/// Returns the last two UTF-8 bytes of a surrogate pair, low byte first.
#[inline(always)]
pub(crate) fn low_word_of(high: u16, low: u16) -> u16
    ensures { result ≡ low_word high low }
{
    0x8080 + high % 4 * 0x10 + low / 0x40 % 0x10 + low % 0x40 * 0x100
}

/// Writes the character of a surrogate pair as UTF-8 at the offset `at`, and returns the offset in bytes after it.
///
/// # Requires
///
/// `high` is a high surrogate and `low` a low one. `out` has at least 4 bytes from `at` on.
#[inline(always)]
pub(crate) fn put_pair(out: &mut [u8], at: usize, high: u16, low: u16) -> usize
    requires space { at + 4 ≤ length out.old }
    requires from_high { 0xd800 ≤ high }
    requires to_high { high < 0xdc00 }
    requires from_low { 0xdc00 ≤ low }
    requires to_low { low < 0xe000 }
    ensures text { take result out.new ≡ take at out.old ++ utf8_bytes (0x10000 + ((high - 0xd800) * 0x400 + (low - 0xdc00))) }
    ensures high { result ≡ at + 4 }
{
    put_u32_le(out, at, join(high_word_of(high), low_word_of(high, low)));
    at + 4
}

/// Encodes the units as UTF-8 after the first `at` bytes of `out`. It stops before the first unpaired surrogate or at
/// the end. A high surrogate that is the last unit is not read, and is not reported as a fault. `read` counts units,
/// and `written` is an offset in bytes.
///
/// # Requires
///
/// `out` has at least `at + 3 * units.len() + 4` bytes.
pub(crate) fn encode_plain(units: &[u16], out: &mut [u8], at: usize) -> StrictProgress
    requires { at + 3 * length units.now + 4 ≤ length out.old }
    ensures read { result.read ≤ length units.now }
    ensures written { result.written ≤ at + 3 * result.read }
    ensures text { EncodedUnits (take result.read units.now) (take at out.old) (take result.written out.new) }
    ensures stop { StopsBefore (drop result.read units.now) result.fault }
{
    let mut read = 0;
    let mut written = at;
    'units: while read < units.len() {
        let unit = units[read];
        if unit < 0xd800 || 0xe000 <= unit {
            written = put_unit(out, written, unit);
            read += 1;
        } else {
            if 0xdc00 <= unit {
                return StrictProgress {
                    read,
                    written,
                    fault: Some(unit),
                };
            }
            if units.len() - read == 1 {
                break;
            }
            let low = units[read + 1];
            if low < 0xdc00 || 0xe000 <= low {
                return StrictProgress {
                    read,
                    written,
                    fault: Some(unit),
                };
            }
            written = put_pair(out, written, unit, low);
            read += 2;
        }
    }
    StrictProgress {
        read,
        written,
        fault: None,
    }
}
