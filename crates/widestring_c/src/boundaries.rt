//! Finds the nearest offset before another one at which a text may be cut.
ghost use Rattle.std.specs.Prelude.{◌≡◌, ◌<◌, ◌≤◌, ℕ, length};
ghost use Rattle.wide_forms.specs.EncodingForm.{Utf16};
ghost use Rattle.wide_forms.specs.Items.{IsBoundary};

use wide_forms::{is_high_surrogate, is_low_surrogate};

/// Returns the greatest offset in UTF-16 that is not beyond `offset`, nor beyond the end, and that splits no surrogate
/// pair: `offset` itself, or one unit before it within a pair, or the length if `offset` is greater. It reads at most
/// two units. Each ill-formed unit may be cut off on both sides.
#[unsafe(no_mangle)]
pub extern "C" fn wide_utf16_floor_char_boundary(units: &[u16], offset: usize) -> usize
    ensures boundary { IsBoundary Utf16 units.now result }
    ensures before { result ≤ offset }
    ensures within { result ≤ length units.now }
    ensures greatest { (k : ℕ) → result < k → k ≤ offset → ¬ (IsBoundary Utf16 units.now k) }
{
    if offset >= units.len() {
        return units.len();
    }
    if offset > 0 && is_high_surrogate(units[offset - 1]) && is_low_surrogate(units[offset]) {
        offset - 1
    } else {
        offset
    }
}
