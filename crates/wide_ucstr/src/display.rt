//! `Debug` of a view of a C string.
ghost use Rattle.std.specs.Prelude.{map};
ghost use Rattle.wide_forms.specs.Texts.{debug_output};

use crate::view::UCStr;
use std::fmt;
use wide_unit::Unit;
use wide_ustr::UStr;

impl<C: Unit> fmt::Debug for UCStr<'_, C> {
    ghost use Rattle.wide_ucstr.specs.View.{units_with_nul};

    ghost debug_output = { λ view. debug_output C.form (map C.number (units_with_nul view)) };

    fn fmt<W: fmt::Write>(&self, f: &mut fmt::Formatter<W>) -> fmt::Result {
        fmt::Debug::fmt(&UStr::from_slice(self.units), f)
    }
}
