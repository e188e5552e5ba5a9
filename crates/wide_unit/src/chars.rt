//! Makes characters of scalar values, and writes characters as units (Unicode Standard, section 3.9, D76, D90 and D91).
ghost use Rattle.std.specs.Prelude.{◌≡◌, ◌++◌, ◌+◌, ◌≤◌, length, map, take};
ghost use Rattle.std.specs.Char.{IsScalar};
ghost use Rattle.wide_forms.specs.EncodingForm.{code_units};

use crate::unit::Unit;

/// Returns the character of a scalar value, without a check.
///
/// # Requires
///
/// `code` is a scalar value.
#[inline(always)]
pub fn char_of(code: u32) -> char
    requires { IsScalar code }
    ensures { result ≡ code }
{
    unsafe { char::from_u32_unchecked(code) }
}

/// Writes the units of a character, and returns the index after them.
///
/// # Requires
///
/// `units` has space for the character from `at` on.
#[inline(always)]
pub fn put_char<C: Unit>(units: &mut [C], at: usize, c: char) -> usize
    requires { at + length (code_units C.form c) ≤ length units.old }
    ensures units { map C.number (take result units.new) ≡ map C.number (take at units.old) ++ code_units C.form c }
    ensures offset { result ≡ at + length (code_units C.form c) }
    ensures high { result ≤ at + 2 }
{
    let (first, second) = C::encode_char(c);
    units[at] = first;
    match second {
        Some(second) => {
            units[at + 1] = second;
            at + 2
        }
        None => at + 1,
    }
}
