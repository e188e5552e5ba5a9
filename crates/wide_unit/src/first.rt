//! Finds the first unit of a given number.
ghost use Rattle.std.specs.Prelude.{◌≡◌, ◌≢◌, ◌<◌, length, map, take, slice_index, IfNone, IfSome};
ghost use Rattle.std.specs.List.{All};

use crate::unit::Unit;

/// Returns the index of the first unit whose number is `number`, or `None` if there is none.
///
/// The search reads blocks of sixteen units, or of eight in UTF-32, so it may read units after the one it finds. The
/// Rust crate has no such call.
pub fn first_of<C: Unit>(units: &[C], number: u32) -> Option<usize>
    ensures none { IfNone result (All (λ u. C.number u ≢ number) units.now) }
    ensures before { IfSome result (λ offset. All (λ u. C.number u ≢ number) (take offset units.now)) }
    ensures within { IfSome result (λ offset. offset < length units.now) }
    ensures at { IfSome result (λ offset. slice_index (map C.number units.now) offset ≡ number) }
{
    let offset = C::offset_of(number, units);
    if offset < units.len() {
        return Some(offset);
    }
    None
}
