//! Units without regard to the case of ASCII letters: the number of a unit in either case, and what two slices have in
//! common.
ghost use Rattle.std.specs.Prelude.{◌≡◌, map};
ghost use Rattle.std.specs.Char.{to_ascii_lowercase, to_ascii_uppercase};
ghost use Rattle.wide_unit.specs.CommonPrefix.{IsCommonPrefix};

use crate::unit::Unit;

/// Returns the number of a unit in lower case if the unit is an upper-case ASCII letter, and otherwise the number
/// itself. The Rust crate has no such call.
///
/// # Example
///
/// ```
/// assert!(rt; ascii_lowercase(0x4b) == 0x6b);
/// assert!(rt; ascii_lowercase(0xc4) == 0xc4);
/// ```
#[inline]
pub fn ascii_lowercase(code: u32) -> u32
    ensures { result ≡ to_ascii_lowercase code }
{
    if 0x41 <= code && code <= 0x5a {
        code + 32
    } else {
        code
    }
}

/// Returns the number of a unit in upper case if the unit is a lower-case ASCII letter, and otherwise the number
/// itself. The Rust crate has no such call.
///
/// # Example
///
/// ```
/// assert!(rt; ascii_uppercase(0x6b) == 0x4b);
/// assert!(rt; ascii_uppercase(0xe4) == 0xe4);
/// ```
#[inline]
pub fn ascii_uppercase(code: u32) -> u32
    ensures { result ≡ to_ascii_uppercase code }
{
    if 0x61 <= code && code <= 0x7a {
        code - 32
    } else {
        code
    }
}

/// Returns how many units at the beginning of two slices are the same without regard to the case of ASCII letters: up
/// to the first difference, or to the end of the shorter slice. The Rust crate has no such call.
///
/// # Example
///
/// ```
/// let shared = common_prefix_ignore_ascii_case(&[0x4bu16, 0xe4], &[0x6b, 0xc4]);
/// assert!(rt; shared == 1);
/// ```
pub fn common_prefix_ignore_ascii_case<C: Unit>(left: &[C], right: &[C]) -> usize
    ensures { IsCommonPrefix (map to_ascii_lowercase (map C.number left.now)) (map to_ascii_lowercase (map C.number right.now)) result }
{
    let len = left.len().min(right.len());
    let mut shared = 0;
    while shared < len
        && ascii_lowercase(left[shared].code()) == ascii_lowercase(right[shared].code())
    {
        shared += 1;
    }
    shared
}
