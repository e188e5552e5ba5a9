//! Bounds on how many items an encoder yields.
ghost use Rattle.std.specs.Prelude.{◌≡◌};
ghost use Rattle.wide_iter.specs.Hints.{upper_times};

/// Returns the size hint of an encoder, from the hint of its source of characters, the greatest number of items of a
/// character, and the number of pending items: at least one item for each character, and at most `most` for each, if
/// that number does not overflow.
pub(crate) fn encoded_hint(
    source: (usize, Option<usize>),
    most: usize,
    pending: usize,
) -> (usize, Option<usize>)
    ensures lower { result.0 ≡ source.0 }
    ensures upper { result.1 ≡ upper_times source.1 most pending }
{
    let upper = match source.1 {
        Some(upper) => match upper.checked_mul(most) {
            Some(all) => all.checked_add(pending),
            None => None,
        },
        None => None,
    };
    (source.0, upper)
}
