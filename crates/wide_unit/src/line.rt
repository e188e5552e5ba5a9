//! Splits the first line off a slice of units.
ghost use Rattle.std.specs.Prelude.{◌≡◌, ◌-◌, ◌<◌, ◌↔◌, [], length, map, take, drop, IsNone, IfNone, IfSome};
ghost use Rattle.wide_forms.specs.Items.{items};
ghost use Rattle.wide_forms.specs.Lines.{lines_of, IsFirstLine};

use crate::first::first_of;
use crate::unit::Unit;

/// Returns the first line of the units, and the units after it. A line feed (U+000A) ends the line, together with one
/// carriage return (U+000D) directly before it; neither belongs to the line. If there is no line feed, all units are
/// the line, including a carriage return at the end. Returns `None` if there are no units.
///
/// Both results are slices of the units. The search reads blocks of sixteen units, or of eight in UTF-32, up to the
/// block with the line feed. In both forms a line feed is one unit, and no other character has this unit, so it is
/// found without decoding. The Rust crate has no such call.
pub fn split_line<C: Unit>(units: &[C]) -> Option<(&[C], &[C])>
    ensures none { IsNone result ↔ (units.now ≡ []) }
    ensures no_lines { IfNone result (lines_of (items C.form (map C.number units.now)) ≡ []) }
    ensures first { IfSome result (λ r. IsFirstLine C.form (map C.number units.now) (map C.number r.0.now) (map C.number r.1.now)) }
    ensures line { IfSome result (λ r. r.0.now ≡ take (length r.0.now) units.now) }
    ensures rest { IfSome result (λ r. r.1.now ≡ drop (length units.now - length r.1.now) units.now) }
    ensures shorter { IfSome result (λ r. length r.1.now < length units.now) }
{
    if units.is_empty() {
        return None;
    }
    let Some(offset) = first_of(units, 0xA) else {
        let (line, rest) = units.split_at(units.len());
        return Some((line, rest));
    };
    let (_, rest) = units.split_at(offset + 1);
    if let [line @ .., last] = &units[..offset] {
        if last.code() == 0xD {
            return Some((line, rest));
        }
    }
    Some((&units[..offset], rest))
}
