//! Order of units by their code points.
ghost use Rattle.std.specs.Prelude.{◌≡◌};
ghost use Rattle.std.specs.Cmp.Lexicographic.{slice_cmp};
ghost use Rattle.std.specs.Ordering.{nat_cmp};
ghost use Rattle.wide_unit.specs.CodePoints.{code_points};
ghost use Rattle.wide_ustr.specs.View.{numbers_seen};

use crate::view::UStr;
use std::cmp::Ordering;
use wide_unit::Unit;

impl<C: Unit> UStr<'_, C> {
    /// Compares two views by the code points of their characters, as UTF-8 and UTF-32 are ordered. A unit that belongs to
    /// no character counts by its number: an unpaired surrogate is a code point too. `<` and `cmp` compare units, which
    /// in UTF-16 puts characters past U+FFFF, whose first unit is a surrogate, before U+E000 to U+FFFF.
    ///
    /// # Example
    ///
    /// ```
    /// use std::cmp::Ordering;
    ///
    /// let emoji = U16Str::from_slice(&[0x61, 0xd83d, 0xde00]);
    /// let letter = U16Str::from_slice(&[0x61, 0xff21]);
    /// assert!(rt; emoji < letter);
    /// assert!(rt; emoji.cmp_code_points(letter) == Ordering::Greater);
    /// ```
    pub fn cmp_code_points(self, other: UStr<'_, C>) -> Ordering
        ensures { result ≡ slice_cmp nat_cmp (code_points C.form (numbers_seen C.number self.entry)) (code_points C.form (numbers_seen C.number other.entry)) }
    {
        wide_unit::cmp_code_points(self.as_slice(), other.as_slice())
    }
}
