//! Numbers in bytes, little endian.

ghost use Rattle.std.specs.Prelude.{◌≡◌, ◌+◌, ◌↔◌, ◌≤◌, IfSome, IsSome, drop, length, take};
ghost use Rattle.std.specs.Int.{from_le_bytes, w16, w32};

/// Returns the unit at an offset in bytes.
pub fn unit_at(bytes: &[u8], at: usize) -> Option<u16>
    ensures found { IsSome result ↔ (at + 2 ≤ length bytes.now) }
    ensures value { IfSome result (λ unit. unit ≡ from_le_bytes w16 (take 2 (drop at bytes.now))) }
{
    Some(u16::from_le_bytes(*bytes.get(at..)?.first_chunk::<2>()?))
}

/// Returns the number of 32 bits at an offset in bytes.
pub fn size_at(bytes: &[u8], at: usize) -> Option<u32>
    ensures found { IsSome result ↔ (at + 4 ≤ length bytes.now) }
    ensures value { IfSome result (λ size. size ≡ from_le_bytes w32 (take 4 (drop at bytes.now))) }
{
    Some(u32::from_le_bytes(*bytes.get(at..)?.first_chunk::<4>()?))
}

/// Returns so many bytes from an offset on, if there are so many.
pub fn part_of(bytes: &[u8], at: usize, len: usize) -> Option<&[u8]>
    ensures found { IsSome result ↔ (at + len ≤ length bytes.now) }
    ensures part { IfSome result (λ part. part.now ≡ take len (drop at bytes.now)) }
{
    let rest = bytes.get(at..)?;
    rest.get(..len)
}
