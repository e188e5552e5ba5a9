//! The character boundaries around an offset.
ghost use Rattle.std.specs.Prelude.{map};
ghost use Rattle.wide_utfstr.specs.Boundaries.{IsFloorBoundary, IsCeilBoundary};
ghost use Rattle.wide_utfstr.specs.View.{units_seen};

use crate::view::UtfStr;
use wide_unit::Unit;

impl<C: Unit> UtfStr<'_, C> {
    /// Returns the last character boundary at or before an offset in units. That is the offset itself, or the one
    /// before it if it is within a surrogate pair (Unicode Standard, D75), or the end if it is past the end. It reads
    /// at most one unit.
    ///
    /// # Example
    ///
    /// ```
    /// let text = Utf16Str::from_slice(&[0x61, 0xd83d, 0xde00])?;
    /// assert!(rt; text.floor_char_boundary(2) == 1);
    /// assert!(rt; text.floor_char_boundary(9) == 3);
    /// ```
    pub fn floor_char_boundary(self, offset: usize) -> usize
        ensures { IsFloorBoundary C.form (map C.number (units_seen self.entry)) offset result }
    {
        if offset >= self.len() {
            self.len()
        } else if self.is_char_boundary(offset) {
            offset
        } else {
            offset - 1
        }
    }

    /// Returns the first character boundary at or after an offset in units. That is the offset itself, or the one after
    /// it if it is within a surrogate pair (Unicode Standard, D75), or the end if it is past the end. It reads at most
    /// one unit.
    ///
    /// # Example
    ///
    /// ```
    /// let text = Utf16Str::from_slice(&[0x61, 0xd83d, 0xde00])?;
    /// assert!(rt; text.ceil_char_boundary(2) == 3);
    /// ```
    pub fn ceil_char_boundary(self, offset: usize) -> usize
        ensures { IsCeilBoundary C.form (map C.number (units_seen self.entry)) offset result }
    {
        if offset >= self.len() {
            self.len()
        } else if self.is_char_boundary(offset) {
            offset
        } else {
            offset + 1
        }
    }
}
