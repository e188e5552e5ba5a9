//! Checks ranges of indices.
ghost use Rattle.std.specs.Prelude.{◌≡◌, ◌↔◌, IsSome, IfSome};
ghost use Rattle.std.specs.Range.Bound.{start_index, end_index};
ghost use Rattle.wide_forms.specs.Range.{IsWithin};

use std::ops::{Bound, Range, RangeBounds};

/// Returns the range of indices that `range` means in a list of `len` elements. Returns `None` if the range starts
/// after its end, ends after the list, or has a bound greater than `usize::MAX`. It does not allocate.
///
/// A range that is returned always starts at or before its end, and lies within the list. The contract says which range
/// it is if `range` has bounds: all ranges have, except an inclusive range that was iterated to its end.
pub fn range_check<R: RangeBounds<usize>>(range: R, len: usize) -> Option<Range<usize>>
    ensures within { IfSome result (λ part. IsWithin part.start part.end len) }
    ensures some { R.has_bounds range → IsSome result ↔ IsWithin (start_index (R.start_bound range)) (end_index (R.end_bound range) len) len }
    ensures start { R.has_bounds range → IfSome result (λ part. part.start ≡ start_index (R.start_bound range)) }
    ensures end { R.has_bounds range → IfSome result (λ part. part.end ≡ end_index (R.end_bound range) len) }
{
    let start = match range.start_bound() {
        Bound::Included(n) => *n,
        Bound::Excluded(n) => n.checked_add(1)?,
        Bound::Unbounded => 0,
    };
    let end = match range.end_bound() {
        Bound::Included(n) => n.checked_add(1)?,
        Bound::Excluded(n) => *n,
        Bound::Unbounded => len,
    };
    if start <= end && end <= len {
        Some(start..end)
    } else {
        None
    }
}
