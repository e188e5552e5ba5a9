//! Splits the first or the last item off a slice of units.
ghost use Rattle.std.specs.Prelude.{◌≡◌, ◌+◌, ◌<◌, ◌++◌, ◌∷◌, ◌↔◌, [], length, map, take, drop, IsNone, IfNone, IfSome};
ghost use Rattle.wide_forms.specs.Segmentation.{item_units};
ghost use Rattle.wide_forms.specs.Items.{items};
ghost use Rattle.wide_unit.specs.Unit.{item_of};

use crate::unit::Unit;

/// Returns the first item of the units, and the units after it. The item is a character, or `Err` with a unit that
/// belongs to no character (Unicode Standard, D84a and D85a). Returns `None` if there are no units. It reads at most
/// two units.
#[inline]
pub fn split_first<C: Unit>(units: &[C]) -> Option<(Result<char, C>, &[C])>
    ensures none { IsNone result ↔ (units.now ≡ []) }
    ensures no_items { IfNone result (items C.form (map C.number units.now) ≡ []) }
    ensures some { IfSome result (λ r. items C.form (map C.number units.now) ≡ item_of C.number r.0 ∷ items C.form (map C.number r.1.now)) }
    ensures rest { IfSome result (λ r. r.1.now ≡ drop (length (item_units C.form (item_of C.number r.0))) units.now) }
    ensures length { IfSome result (λ r. length r.1.now + length (item_units C.form (item_of C.number r.0)) ≡ length units.now) }
    ensures shorter { IfSome result (λ r. length r.1.now < length units.now) }
{
    match units {
        [] => None,
        [first, rest @ ..] => {
            if let Some(c) = first.as_scalar() {
                return Some((Ok(c), rest));
            }
            if let [second, tail @ ..] = rest {
                if let Some(c) = first.pair_scalar(*second) {
                    return Some((Ok(c), tail));
                }
            }
            Some((Err(*first), rest))
        }
    }
}

/// Returns the last item of the units, and the units before it. The item is a character, or `Err` with a unit that
/// belongs to no character (Unicode Standard, D84a and D85a). Returns `None` if there are no units. It reads at most
/// two units.
#[inline]
pub fn split_last<C: Unit>(units: &[C]) -> Option<(&[C], Result<char, C>)>
    ensures none { IsNone result ↔ (units.now ≡ []) }
    ensures no_items { IfNone result (items C.form (map C.number units.now) ≡ []) }
    ensures some { IfSome result (λ r. items C.form (map C.number units.now) ≡ items C.form (map C.number r.0.now) ++ item_of C.number r.1 ∷ []) }
    ensures rest { IfSome result (λ r. r.0.now ≡ take (length r.0.now) units.now) }
    ensures length { IfSome result (λ r. length r.0.now + length (item_units C.form (item_of C.number r.1)) ≡ length units.now) }
    ensures shorter { IfSome result (λ r. length r.0.now < length units.now) }
{
    match units {
        [] => None,
        [prefix @ .., last] => {
            if let Some(c) = last.as_scalar() {
                return Some((prefix, Ok(c)));
            }
            if let [head @ .., first] = prefix {
                if let Some(c) = first.pair_scalar(*last) {
                    return Some((head, Ok(c)));
                }
            }
            Some((prefix, Err(*last)))
        }
    }
}
