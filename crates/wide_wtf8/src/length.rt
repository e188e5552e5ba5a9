//! Computes the length of units in WTF-8. Vectorized by the compiler: each unit adds a number of bytes that depends on
//! this unit and the next one only.
ghost use Rattle.std.specs.Prelude.{◌≡◌, ◌+◌, ◌*◌, ◌<◌, ◌≤◌, ◌&&◌, length, take};
ghost use Rattle.wide_forms.specs.Searches.{is_high, is_low};
ghost use Rattle.wide_schemes.specs.Wtf8.{wtf8};
ghost use Rattle.wide_wtf8.specs.Lengths.{more_of, more_of_first};

use wide_forms::{is_high_surrogate, is_low_surrogate};
use wide_from_units::byte_len;

// How many units are counted before the count is added to the length, so that a counter of 16 bits cannot overflow.
const BLOCK: usize = 4096;

// Returns whether two units are a surrogate pair.
#[inline(always)]
pub(crate) fn is_pair(high: u16, low: u16) -> bool
    ensures { result ≡ (is_high high && is_low low) }
{
    is_high_surrogate(high) & is_low_surrogate(low)
}

// Returns how many bytes more than one a unit has before another one.
#[inline(always)]
fn more_of(unit: u16, next: u16) -> u16
    ensures more { result ≡ more_of unit next }
    ensures few { result ≤ 2 }
{
    let apart = !is_pair(unit, next);
    u16::from(0x80 <= unit && apart) + u16::from(0x800 <= unit && apart)
}

// Returns how many bytes more than one the first `count` units have, summed.
fn more_bytes(units: &[u16], count: usize) -> usize
    requires within { count < length units.now }
    requires few { count ≤ 4096 }
    ensures more { result ≡ more_of_first count units.now }
    ensures most { result ≤ 2 * count }
{
    let mut more = 0u16;
    for k in 0..count {
        more += more_of(units[k], units[k + 1]);
    }
    usize::from(more)
}

/// Returns the length of the text of units in WTF-8, in bytes. It reads the units once, vectorized.
///
/// # Example
///
/// ```
/// use widestring::wtf8::wtf8_len;
///
/// assert!(rt; wtf8_len(&[0x48, 0x69, 0xd83d, 0xde00, 0xd83d]) == 9);
/// ```
pub fn wtf8_len(units: &[u16]) -> usize
    ensures { result ≡ length (wtf8 units.now) }
{
    if units.is_empty() {
        return 0;
    }
    // A slice has less than 2 ^ 63 bytes, so three bytes for each unit can be counted.
    let _bytes = byte_len(units);
    let last = units.len() - 1;
    let mut len = units.len();
    let mut at = 0;
    'counted: while last - at > BLOCK {
        len += more_bytes(&units[at..], BLOCK);
        at += BLOCK;
    }
    len += more_bytes(&units[at..], last - at);
    len + usize::from(more_of(units[last], 0))
}
