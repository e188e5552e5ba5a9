//! What a call is made on, and the loop that makes it.

use std::alloc::Global;
use widestring::error::{FaultUnit, OutOfMemory};
use widestring::ustr::UStr;
use widestring::utfstr::UtfStr;

/// What a call is made on: units, the same as well-formed text, or no text if they aren't, as UTF-8, lossily, and as
/// little-endian bytes; and a needle.
#[derive(Drop)]
pub struct Input<'a, C: FaultUnit> {
    pub alloc: Global,
    pub units: UStr<'a, C>,
    pub text: UtfStr<'a, C>,
    pub utf8: &'a str,
    pub bytes: &'a [u8],
    pub needle: UStr<'a, C>,
}

/// The calls of a group.
pub trait Call: Copy {
    /// Returns the call of a name.
    fn named(name: &str) -> Option<Self>;

    /// Makes the call, and returns a number that depends on what it returned.
    fn make<C: FaultUnit + Ord>(self, input: &Input<'_, C>) -> Result<u64, OutOfMemory>;
}

/// Returns the call of a name in a table.
pub fn named_in<K: Copy>(calls: &[(&str, K)], name: &str) -> Option<K> {
    for (known, call) in calls {
        if *known == name {
            return Some(*call);
        }
    }
    None
}

/// Returns the number of an offset, if there is one.
pub fn number_of(offset: Option<usize>) -> u64 {
    match offset {
        Some(at) => at as u64,
        None => u64::MAX,
    }
}

/// Returns the length of what an edit left, unless it failed.
pub fn length_after(edit: Result<(), OutOfMemory>, len: usize) -> Result<u64, OutOfMemory> {
    match edit {
        Ok(()) => Ok(len as u64),
        Err(OutOfMemory) => Err(OutOfMemory),
    }
}

/// Returns the units of bytes.
pub fn units16(alloc: Global, bytes: &[u8]) -> Result<Vec<u16>, OutOfMemory> {
    let (pairs, _) = bytes.as_chunks::<2>();
    let mut units = Vec::with_capacity(alloc, pairs.len())?;
    for pair in pairs {
        units.push(u16::from_le_bytes(*pair))?;
    }
    Ok(units)
}

/// Returns the units of bytes.
pub fn units32(alloc: Global, bytes: &[u8]) -> Result<Vec<u32>, OutOfMemory> {
    let (groups, _) = bytes.as_chunks::<4>();
    let mut units = Vec::with_capacity(alloc, groups.len())?;
    for group in groups {
        units.push(u32::from_le_bytes(*group))?;
    }
    Ok(units)
}

/// Makes a call `rounds` times, by turns on two copies of the units, so that no result can be taken from the call
/// before.
pub fn repeat<'a, K: Call, C: FaultUnit + Ord>(
    call: K,
    rounds: u64,
    alloc: Global,
    units: &'a [C],
    needle: &'a [C],
) -> Result<u64, OutOfMemory> {
    let mut copy = Vec::new(alloc);
    copy.extend_from_slice(units)?;
    let utf8 = UStr::from_slice(units).to_string_lossy(alloc)?;
    let bytes = UStr::from_slice(units).to_le_bytes(alloc)?;
    let needle = UStr::from_slice(needle);
    let first = Input {
        alloc,
        units: UStr::from_slice(units),
        text: UtfStr::from_slice(units).unwrap_or_default(),
        utf8: &utf8,
        bytes: &bytes,
        needle,
    };
    let second = Input {
        alloc,
        units: UStr::from_slice(&copy),
        text: UtfStr::from_slice(&copy).unwrap_or_default(),
        utf8: &utf8,
        bytes: &bytes,
        needle,
    };
    let mut sum = 0u64;
    for round in 0..rounds {
        let input = if round % 2 == 0 { &first } else { &second };
        sum = sum.wrapping_mul(3).wrapping_add(call.make(input)?);
    }
    Ok(sum)
}
