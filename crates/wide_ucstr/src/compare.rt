//! Comparison of C strings with views of any units.
ghost use Rattle.std.specs.Prelude.{◌≡◌, ◌↔◌, ℕ, List, map, IsTrue};
ghost use Rattle.std.specs.Ordering.{nat_cmp};
ghost use Rattle.std.specs.Cmp.Lexicographic.{slice_cmp};
ghost use Rattle.wide_ustr.specs.View.{units_seen};
ghost use Rattle.wide_ucstr.specs.View.{contents_seen};

use crate::view::UCStr;
use std::cmp::Ordering;
use wide_unit::{order_of_units, same_units};
use wide_ustr::UStr;
use wide_utferror::FaultUnit;

impl<C: FaultUnit> UCStr<'_, C> {
    /// Returns whether the contents, without the NUL, are the view's units. It stops at the first units that differ.
    pub fn eq_ustr(self, other: UStr<'_, C>) -> bool
        ensures { IsTrue result ↔ (contents_seen self.entry ≡ units_seen other.entry) }
    {
        same_units(self.as_slice(), other.as_slice())
    }

    /// Compares the contents, without the NUL, with the view's units, lexicographically by the units' numbers. It stops
    /// at the first that differ.
    pub fn cmp_ustr(self, other: UStr<'_, C>) -> Ordering
        ensures { result ≡ slice_cmp nat_cmp (map C.number (contents_seen self.entry)) (map C.number (units_seen other.entry)) }
    {
        order_of_units(self.as_slice(), other.as_slice())
    }
}

/// Comparison of a view of units of the type `C` with a C string of the type `S`. It is in a trait because the view's
/// crate does not know C strings.
///
/// # Example
///
/// ```
/// use widestring::ucstr::UStrInUcstr;
///
/// let name = U16CStr::from_slice(&[0x48, 0x69, 0])?;
/// assert!(rt; U16Str::from_slice(&[0x48, 0x69]).eq_ucstr(name));
/// ```
pub trait UStrInUcstr<C, S> {
    // The units of the view.
    ghost text: { Self → List C };

    // The units of the C string before its NUL.
    ghost contents: { S → List C };

    // The number of a unit.
    ghost number: { C → ℕ };

    /// Returns whether the units are the contents of the C string, without its NUL. It stops at the first units that
    /// differ.
    fn eq_ucstr(self, other: S) -> bool
        ensures { IsTrue result ↔ (text self ≡ contents other) };

    /// Compares the units with the contents of the C string, without its NUL, lexicographically by the units' numbers.
    /// It stops at the first units that differ.
    fn cmp_ucstr(self, other: S) -> Ordering
        ensures { result ≡ slice_cmp nat_cmp (map number (text self)) (map number (contents other)) };
}

impl<'a, C: FaultUnit> UStrInUcstr<C, UCStr<'a, C>> for UStr<'_, C> {
    ghost text = { units_seen };

    ghost contents = { contents_seen };

    ghost number = { C.number };

    fn eq_ucstr(self, other: UCStr<'a, C>) -> bool {
        same_units(self.as_slice(), other.as_slice())
    }

    fn cmp_ucstr(self, other: UCStr<'a, C>) -> Ordering {
        order_of_units(self.as_slice(), other.as_slice())
    }
}
