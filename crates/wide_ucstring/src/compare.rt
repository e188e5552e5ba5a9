//! Equality, order and hash of owned C strings, by their units with the NUL. Equality and order are the same as those
//! of the contents.
ghost use Rattle.std.specs.Cmp.{on_equiv, on_per, on_po, on_total};
ghost use Rattle.std.specs.Cmp.Lexicographic.{pointwise, slice_cmp, slice_partial_cmp, lists_equiv, lists_per, lists_po, lists_total, lists_agrees, lists_ties};
ghost use Rattle.std.specs.Hash as fed;
ghost use Rattle.std.specs.Hash.{on_Alike, items_Alike};

use crate::ucstring::UCString;
use std::alloc::Allocator;
use std::cmp::Ordering;
use std::hash::{Hash, Hasher};
use wide_utferror::FaultUnit;

impl<C: FaultUnit + PartialEq, A: Allocator> PartialEq for UCString<C, A> {
    ghost eq = { λ x y. pointwise C.eq x.units y.units };

    ghost laws = { on_per (λ x. x.units) (lists_per C.laws) };

    /// Returns whether both have the same units.
    fn eq(&self, other: &Self) -> bool {
        self.string == other.string
    }
}

impl<C: FaultUnit + Eq, A: Allocator> Eq for UCString<C, A> {
    ghost laws = { on_equiv (λ x. x.units) (lists_equiv C.Eq.laws) };
}

impl<C: FaultUnit + PartialOrd, A: Allocator> PartialOrd for UCString<C, A> {
    ghost partial_cmp = { λ x y. slice_partial_cmp C.partial_cmp x.units y.units };

    ghost laws = { on_po (λ x. x.units) (lists_po C.PartialOrd.laws) };

    /// Compares the units lexicographically.
    fn partial_cmp(&self, other: &Self) -> Option<Ordering> {
        self.string.partial_cmp(&other.string)
    }
}

impl<C: FaultUnit + Ord, A: Allocator> Ord for UCString<C, A> {
    ghost cmp = { λ x y. slice_cmp C.cmp x.units y.units };

    ghost total = { on_total (λ x. x.units) (lists_total C.total) };

    ghost matches_partial_cmp = { λ x y. lists_agrees C.matches_partial_cmp x.units y.units };

    ghost matches_eq = { λ x y. lists_ties C.cmp C.matches_eq x.units y.units };

    /// Compares the units lexicographically.
    fn cmp(&self, other: &Self) -> Ordering {
        self.string.cmp(&other.string)
    }
}

impl<C: FaultUnit + Hash, A: Allocator> Hash for UCString<C, A> {
    ghost hash_input = { λ s. fed.slice C.hash_input s.units };

    ghost respects_eq = { (on_Alike (λ s. s.units) (items_Alike (record { fed = C.respects_eq }))).fed };

    /// Hashes the units, with the NUL, as a slice.
    fn hash<H: Hasher>(&self, state: &mut H) {
        self.string.hash(state);
    }
}
