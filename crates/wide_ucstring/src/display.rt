//! `Debug` of an owned C string.
ghost use Rattle.std.specs.Prelude.{map};
ghost use Rattle.wide_forms.specs.Texts.{debug_output};

use crate::ucstring::UCString;
use std::alloc::Allocator;
use std::fmt;
use wide_utferror::FaultUnit;

impl<C: FaultUnit, A: Allocator> fmt::Debug for UCString<C, A> {
    ghost debug_output = { λ s. debug_output C.form (map C.number s.units) };

    fn fmt<W: fmt::Write>(&self, f: &mut fmt::Formatter<W>) -> fmt::Result {
        fmt::Debug::fmt(&self.as_ucstr(), f)
    }
}
