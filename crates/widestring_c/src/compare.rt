//! Comparisons of units: without regard to the case of ASCII letters, and by code points.
ghost use Rattle.std.specs.Prelude.{◌≡◌, ◌≤◌, ◌↔◌};
ghost use Rattle.std.specs.Ordering.{nat_cmp};
ghost use Rattle.std.specs.Cmp.Lexicographic.{slice_cmp};
ghost use Rattle.wide_forms.specs.EncodingForm.{Utf16};
ghost use Rattle.wide_unit.specs.CodePoints.{code_points};
ghost use Rattle.wide_search.specs.Lowercased.{lowercased};
ghost use Rattle.widestring_c.specs.Compared.{sign_of};

use std::cmp::Ordering;
use wide_ascii::eq_ignore_ascii_case;
use wide_unit::cmp_code_points;

// Returns the sign of an order, as C functions return it.
fn sign_of(order: Ordering) -> i32
    ensures { result ≡ sign_of order }
{
    match order {
        Ordering::Less => -1,
        Ordering::Equal => 0,
        Ordering::Greater => 1,
    }
}

/// Returns 1 if two slices of UTF-16 are the same without regard to the case of ASCII letters, and otherwise 0.
#[unsafe(no_mangle)]
pub extern "C" fn wide_utf16_eq_ignore_ascii_case(units: &[u16], other: &[u16]) -> u32
    ensures same { (result ≡ 1) ↔ (lowercased units.now ≡ lowercased other.now) }
    ensures flag { result ≤ 1 }
{
    u32::from(eq_ignore_ascii_case(units, other))
}

/// Returns 1 if two slices of UTF-32 are the same without regard to the case of ASCII letters, and otherwise 0.
#[unsafe(no_mangle)]
pub extern "C" fn wide_utf32_eq_ignore_ascii_case(units: &[u32], other: &[u32]) -> u32
    ensures same { (result ≡ 1) ↔ (lowercased units.now ≡ lowercased other.now) }
    ensures flag { result ≤ 1 }
{
    u32::from(eq_ignore_ascii_case(units, other))
}

/// Compares two slices of UTF-16 by their code points, of which an unpaired surrogate is one (Unicode Standard, D10 and
/// D71). Returns -1, 0 or 1.
#[unsafe(no_mangle)]
pub extern "C" fn wide_utf16_compare_code_points(units: &[u16], other: &[u16]) -> i32
    ensures { result ≡ sign_of (slice_cmp nat_cmp (code_points Utf16 units.now) (code_points Utf16 other.now)) }
{
    sign_of(cmp_code_points(units, other))
}

/// Compares two slices of UTF-32 by their code points. A unit that is no scalar value counts by its number. Returns -1,
/// 0 or 1.
#[unsafe(no_mangle)]
pub extern "C" fn wide_utf32_compare_code_points(units: &[u32], other: &[u32]) -> i32
    ensures { result ≡ sign_of (slice_cmp nat_cmp units.now other.now) }
{
    sign_of(cmp_code_points(units, other))
}
