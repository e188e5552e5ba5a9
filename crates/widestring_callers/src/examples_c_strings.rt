//! C strings made of concrete units: where a NUL may be, and the index of one that may not.
ghost use Rattle.std.specs.Prelude.{◌≡◌, ◌∷◌, [], Some, true, false, IfSome, IsSome};
ghost use Rattle.std.specs.Str.{chars};

use std::alloc::Global;
use widestring::error::{NulError, UCStringError};
use widestring::{U16CStr, U16CString};

/// Rejects units with a NUL before the last one, and returns its index.
pub fn inner_nul_of_a_view() -> Option<usize>
    ensures { result ≡ Some 1 }
{
    match U16CStr::from_slice(&[0x61, 0, 0x62, 0]) {
        Err(NulError::ContainsNul(found)) => Some(found.nul_position()),
        _ => None,
    }
}

/// Takes the last NUL of a vector as the terminator.
///
/// # Requires
///
/// The units are 61 and 0.
pub fn terminated_vector(units: Vec<u16>) -> bool
    requires { units.items ≡ 0x61 ∷ 0 ∷ [] }
    ensures { result ≡ true }
{
    U16CString::from_vec(units).is_ok()
}

/// Rejects a literal that ends in a NUL.
///
/// # Requires
///
/// The text is `a` and a NUL.
pub fn literal_with_a_nul(alloc: Global, text: &str) -> bool
    requires { chars text.now ≡ 0x61 ∷ 0 ∷ [] }
    ensures { result ≡ false }
{
    U16CString::from_str_literal(alloc, text).is_ok()
}

/// Rejects a vector with a NUL before the last unit, and returns its index and the vector.
///
/// # Requires
///
/// The units are 61, 0 and 62.
pub fn inner_nul_of_a_vector(units: Vec<u16>) -> Option<(usize, Option<Vec<u16>>)>
    requires { units.items ≡ 0x61 ∷ 0 ∷ 0x62 ∷ [] }
    ensures handed_back { IfSome result (λ reported. (reported.0 ≡ 1) × IfSome reported.1 (λ vec. vec.items ≡ 0x61 ∷ 0 ∷ 0x62 ∷ [])) }
    ensures some { IsSome result }
{
    match U16CString::from_vec(units) {
        Err(UCStringError::ContainsNul(found)) => Some((found.nul_position(), found.into_vec())),
        _ => None,
    }
}
