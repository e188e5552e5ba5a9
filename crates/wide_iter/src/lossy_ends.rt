//! Decodes slices as lossy text by a list of calls, from both ends.
ghost use Rattle.std.specs.Prelude.{◌≡◌, [], IfOk, IsOk};
ghost use Rattle.wide_forms.specs.EncodingForm.{Utf16, Utf32};
ghost use Rattle.wide_forms.specs.Items.{items};
ghost use Rattle.wide_forms.specs.Lossy.{lossy_by};
ghost use Rattle.wide_iter.specs.Answers.{answers};

use crate::ends::End;
use crate::lossy_decoders::{decode_utf16_lossy_with, decode_utf32_lossy_with};
use std::alloc::Allocator;
use wide_error::OutOfMemory;
use wide_forms::Policy;

/// Returns what a lossy decoder of the 16-bit `units` returns, under a policy, for the calls of `ends`, one result for
/// each call, in order (Unicode Standard, D91 and D93b). Allocates once, or not at all if there are no calls.
///
/// # Errors
///
/// [`OutOfMemory`] if the allocation fails. It never fails if there are no calls.
pub fn read_lossy_ends16<A: Allocator>(
    alloc: A,
    units: &[u16],
    policy: Policy,
    ends: &[End],
) -> Result<Vec<Option<char>, A>, OutOfMemory>
    ensures answers { IfOk result (λ v. v.items ≡ answers (lossy_by policy (items Utf16 units.now)) ends.now) }
    ensures succeeds { ends.now ≡ [] → IsOk result }
{
    let mut given = Vec::with_capacity(alloc, ends.len())?;
    let mut decoder = decode_utf16_lossy_with(units.iter().copied(), policy);
    for end in ends {
        let answer = match end {
            End::Front => decoder.next(),
            End::Back => decoder.next_back(),
        };
        given.push(answer)?;
    }
    Ok(given)
}

/// Returns what a lossy decoder of the 32-bit `units` returns, under a policy, for the calls of `ends`, one result for
/// each call, in order (Unicode Standard, D90 and D93b). Allocates once, or not at all if there are no calls.
///
/// # Errors
///
/// [`OutOfMemory`] if the allocation fails. It never fails if there are no calls.
pub fn read_lossy_ends32<A: Allocator>(
    alloc: A,
    units: &[u32],
    policy: Policy,
    ends: &[End],
) -> Result<Vec<Option<char>, A>, OutOfMemory>
    ensures answers { IfOk result (λ v. v.items ≡ answers (lossy_by policy (items Utf32 units.now)) ends.now) }
    ensures succeeds { ends.now ≡ [] → IsOk result }
{
    let mut given = Vec::with_capacity(alloc, ends.len())?;
    let mut decoder = decode_utf32_lossy_with(units.iter().copied(), policy);
    for end in ends {
        let answer = match end {
            End::Front => decoder.next(),
            End::Back => decoder.next_back(),
        };
        given.push(answer)?;
    }
    Ok(given)
}
