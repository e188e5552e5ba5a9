//! `Debug` of an owned string.
ghost use Rattle.std.specs.Prelude.{map};
ghost use Rattle.wide_forms.specs.Texts.{debug_output};

use crate::UString;
use std::alloc::Allocator;
use std::fmt;
use wide_unit::Unit;
use wide_ustr::UStr;

impl<C: Unit, A: Allocator> fmt::Debug for UString<C, A> {
    ghost debug_output = { λ s. debug_output C.form (map C.number s.units) };

    fn fmt<W: fmt::Write>(&self, f: &mut fmt::Formatter<W>) -> fmt::Result {
        fmt::Debug::fmt(&UStr::from_slice(self.units.as_slice()), f)
    }
}
