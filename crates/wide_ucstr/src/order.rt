//! Order of the contents of C strings by their code points.
ghost use Rattle.std.specs.Prelude.{◌≡◌, map};
ghost use Rattle.std.specs.Cmp.Lexicographic.{slice_cmp};
ghost use Rattle.std.specs.Ordering.{nat_cmp};
ghost use Rattle.wide_unit.specs.CodePoints.{code_points};
ghost use Rattle.wide_ucstr.specs.View.{contents_seen};

use crate::view::UCStr;
use std::cmp::Ordering;
use wide_utferror::FaultUnit;

impl<C: FaultUnit> UCStr<'_, C> {
    /// Compares the contents of two C strings by the code points of their characters, as UTF-8 and UTF-32 are ordered. A
    /// unit that belongs to no character counts by its number: an unpaired surrogate is a code point too. `<` and `cmp`
    /// compare units, which in UTF-16 puts characters past U+FFFF, whose first unit is a surrogate, before U+E000 to
    /// U+FFFF.
    ///
    /// # Example
    ///
    /// ```
    /// use std::cmp::Ordering;
    ///
    /// let emoji = U16CStr::from_slice(&[0x61, 0xd83d, 0xde00, 0])?;
    /// let letter = U16CStr::from_slice(&[0x61, 0xff21, 0])?;
    /// assert!(rt; emoji < letter);
    /// assert!(rt; emoji.cmp_code_points(letter) == Ordering::Greater);
    /// ```
    pub fn cmp_code_points(self, other: UCStr<'_, C>) -> Ordering
        ensures { result ≡ slice_cmp nat_cmp (code_points C.form (map C.number (contents_seen self.entry))) (code_points C.form (map C.number (contents_seen other.entry))) }
    {
        self.as_ustr().cmp_code_points(other.as_ustr())
    }
}
