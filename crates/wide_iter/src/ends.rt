//! Decodes slices by a list of calls, from both ends.
ghost use Rattle.std.specs.Prelude.{◌≡◌, [], map, IfOk, IsOk};
ghost use Rattle.std.specs.Option.{option_map};
ghost use Rattle.wide_forms.specs.EncodingForm.{Utf16, Utf32};
ghost use Rattle.wide_forms.specs.Items.{items};
ghost use Rattle.wide_unit.specs.Unit.{reported_item};
ghost use Rattle.wide_iter.specs.Answers.{answers};

use crate::decode16::decode_utf16;
use crate::decode32::decode_utf32;
use std::alloc::Allocator;
use wide_error::{DecodeUtf16Error, DecodeUtf32Error, OutOfMemory};

/// The end of a list from which an item is read.
///
/// # Example
///
/// ```
/// let units = [0x48, 0xd83d, 0xde00];
/// let chars = read_ends16(rt.alloc(), &units, &[End::Back, End::Front, End::Back])?;
/// assert!(rt; chars.as_slice() == [Some(Ok('😀')), Some(Ok('H')), None].as_slice());
/// ```
#[derive(Clone, Copy, Debug, PartialEq, Eq)]
pub enum End {
    /// The first item that is left.
    Front,
    /// The last item that is left.
    Back,
}

/// Returns what a decoder of the 16-bit `units` returns for the calls of `ends`, one result for each call, in order
/// (Unicode Standard, D91). Allocates once, or not at all if there are no calls.
///
/// # Errors
///
/// [`OutOfMemory`] if the allocation fails. It never fails if there are no calls.
pub fn read_ends16<A: Allocator>(
    alloc: A,
    units: &[u16],
    ends: &[End],
) -> Result<Vec<Option<Result<char, DecodeUtf16Error>>, A>, OutOfMemory>
    ensures answers { IfOk result (λ v. map (option_map reported_item) v.items ≡ answers (items Utf16 units.now) ends.now) }
    ensures succeeds { ends.now ≡ [] → IsOk result }
{
    let mut given = Vec::with_capacity(alloc, ends.len())?;
    let mut decoder = decode_utf16(units.iter().copied());
    for end in ends {
        let answer = match end {
            End::Front => decoder.next(),
            End::Back => decoder.next_back(),
        };
        given.push(answer)?;
    }
    Ok(given)
}

/// Returns what a decoder of the 32-bit `units` returns for the calls of `ends`, one result for each call, in order
/// (Unicode Standard, D90). Allocates once, or not at all if there are no calls.
///
/// # Errors
///
/// [`OutOfMemory`] if the allocation fails. It never fails if there are no calls.
pub fn read_ends32<A: Allocator>(
    alloc: A,
    units: &[u32],
    ends: &[End],
) -> Result<Vec<Option<Result<char, DecodeUtf32Error>>, A>, OutOfMemory>
    ensures answers { IfOk result (λ v. map (option_map reported_item) v.items ≡ answers (items Utf32 units.now) ends.now) }
    ensures succeeds { ends.now ≡ [] → IsOk result }
{
    let mut answered = Vec::with_capacity(alloc, ends.len())?;
    let mut decoder = decode_utf32(units.iter().copied());
    for end in ends {
        let answer = match end {
            End::Front => decoder.next(),
            End::Back => decoder.next_back(),
        };
        answered.push(answer)?;
    }
    Ok(answered)
}
