//! Finds the first NUL in a slice of units.
ghost use Rattle.std.specs.Prelude.{map, MatchOption};
ghost use Rattle.wide_unit.specs.Nul.{HasNoNul, IsFirstNul};

use crate::first::first_of;
use crate::unit::Unit;

/// Returns the index of the first NUL, the unit whose number is 0, or `None` if there is none.
///
/// The search reads blocks of sixteen units, or of eight in UTF-32, up to the block with the NUL.
///
/// # Example
///
/// ```
/// let buffer = [0x48u16, 0x69, 0, 0];
/// assert!(rt; first_nul(&buffer) == Some(2));
/// assert!(rt; first_nul(&[0x48u16, 0x69]).is_none());
/// ```
pub fn first_nul<C: Unit>(units: &[C]) -> Option<usize>
    ensures { MatchOption result (HasNoNul (map C.number units.now)) (IsFirstNul (map C.number units.now)) }
{
    first_of(units, 0)
}
