//! Counts the characters of well-formed UTF-16.
ghost use Rattle.std.specs.Prelude.{◌≡◌, ◌<◌, ◌^◌, length};
ghost use Rattle.std.specs.List.{count_by};
ghost use Rattle.wide_forms.specs.Searches.{is_low};
ghost use Rattle.wide_forms.specs.EncodingForm.{Utf16};
ghost use Rattle.wide_forms.specs.Items.{IsWellFormed, chars};

use wide_forms::is_low_surrogate;

// Returns the number of low surrogates among fewer than 65,536 units. The counter has the width of a unit, so the
// compiler vectorizes the loop.
#[inline(always)]
fn count_low_of(units: &[u16]) -> u16
    requires { length units.now < 2 ^ 16 }
    ensures { result ≡ count_by is_low units.now }
{
    let mut count = 0;
    for unit in units {
        count += u16::from(is_low_surrogate(*unit));
    }
    count
}

// Returns the number of low surrogates.
fn count_low(units: &[u16]) -> usize
    ensures { result ≡ count_by is_low units.now }
{
    let (blocks, rest) = units.as_chunks::<4096>();
    let mut count = 0;
    for block in blocks {
        count += usize::from(count_low_of(block));
    }
    count + usize::from(count_low_of(rest))
}

/// Returns the number of characters. Each has exactly one unit that is not a low surrogate.
///
/// # Requires
///
/// The units are well formed.
pub fn char_count(units: &[u16]) -> usize
    requires { IsWellFormed Utf16 units.now }
    ensures { result ≡ length (chars Utf16 units.now) }
{
    units.len() - count_low(units)
}
