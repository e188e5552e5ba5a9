//! Computes the length of well-formed UTF-16 or UTF-32 in UTF-8 bytes (Unicode Standard, section 3.9, Table 3-6).
//! Vectorized by the compiler: each unit adds a number of bytes that depends on this unit only.

ghost use Rattle.std.specs.Prelude.{◌≡◌, ℕ, ◌+◌, ◌*◌, ◌-◌, ◌^◌, ◌≤◌, length, map, min};
ghost use Rattle.std.specs.List.{sum_by};
ghost use Rattle.wide_forms.specs.Items.{IsWellFormed, chars};
ghost use Rattle.wide_forms.specs.Utf8.{utf8};
ghost use Rattle.wide_from_units.specs.Lengths.{more_of_16, more_of_32};

use wide_forms::SURROGATE_TOP;
use wide_unit::{AnyUnits, Unit};

// How many units are counted before the count is added to the length, so that a counter of 16 bits cannot overflow.
const BLOCK: usize = 4096;

// A unit whose UTF-8 may be longer than a byte.
trait Weighed: Copy {
    ghost use Rattle.std.specs.Prelude.{ℕ};

    // How many bytes more than one the unit has in UTF-8.
    ghost more: { Self → ℕ };

    // Returns how many bytes more than one each unit has in UTF-8, summed over the units.
    fn more_bytes(units: &[Self]) -> usize
        requires { length units.now ≤ 4096 }
        ensures { result ≡ sum_by more units.now };
}

impl Weighed for u16 {
    ghost more = { more_of_16 };

    // The counter has the width of a unit, so the compiler vectorizes the loop. Each surrogate of a pair is half of
    // four bytes, and so one byte more.
    #[inline(always)]
    fn more_bytes(units: &[u16]) -> usize {
        let mut more = 0u16;
        for unit in units {
            more += u16::from(0x80 <= *unit)
                + u16::from(0x800 <= *unit && *unit / 0x800 != SURROGATE_TOP);
        }
        usize::from(more)
    }
}

impl Weighed for u32 {
    ghost more = { more_of_32 };

    #[inline(always)]
    fn more_bytes(units: &[u32]) -> usize {
        let mut more = 0u32;
        for unit in units {
            more += u32::from(0x80 <= *unit)
                + u32::from(0x800 <= *unit)
                + u32::from(0x1_0000 <= *unit);
        }
        more as usize
    }
}

// Returns the length of the units in UTF-8 bytes, or `usize::MAX` if it is greater.
fn len_of<C: Weighed>(units: &[C]) -> usize
    ensures { result ≡ min (length units.now + sum_by C.more units.now) (2 ^ 64 - 1) }
{
    let mut len = units.len();
    let mut at = 0;
    'counted: while units.len() - at > BLOCK {
        len = len.saturating_add(C::more_bytes(&units[at..at + BLOCK]));
        at += BLOCK;
    }
    len.saturating_add(C::more_bytes(&units[at..]))
}

/// Returns the length of well-formed units in UTF-8 bytes (Unicode Standard, D92), or `usize::MAX` if it is greater. It
/// is vectorized.
///
/// # Requires
///
/// The units are well formed.
pub fn utf8_len<C: Unit>(units: &[C]) -> usize
    requires { IsWellFormed C.form (map C.number units.now) }
    ensures { result ≡ min (length (utf8 (chars C.form (map C.number units.now)))) (2 ^ 64 - 1) }
{
    match C::as_any(units) {
        AnyUnits::U16(units) => len_of(units),
        AnyUnits::U32(units) => len_of(units),
    }
}
