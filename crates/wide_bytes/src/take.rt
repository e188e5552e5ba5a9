//! Takes bytes from a source into a buffer, after those that it already has.

ghost use Rattle.std.specs.Prelude.{◌≡◌, ◌<◌, ◌≤◌, ◌+◌, ◌-◌, ◌||◌, false, length, take, drop, IfOk, OnErr};
ghost use Rattle.std.specs.Io.KnownBytes.{Consumes, IsAtEnd, Keeps};
ghost use Rattle.wide_bytes.specs.Devices.{take_fails, take_ends};

use super::devices::ByteSource;
use std::io;

/// Takes bytes from the source once, into `bytes` after its first `filled` bytes, and returns how many were taken.
///
/// # Requires
///
/// The source has neither failed nor ended, and `filled` is less than the length of `bytes`.
///
/// # Errors
///
/// The error of [`ByteSource::take`]. If the contract of the source specifies its bytes, none of them is lost then.
pub fn take_after<S: ByteSource>(
    source: &mut S,
    bytes: &mut [u8],
    filled: usize,
) -> io::Result<usize>
    requires valid { S.has_failed source.old ≡ false }
    requires open { S.has_ended source.old ≡ false }
    requires within { filled < length bytes.old }
    ensures prefix { take filled bytes.new ≡ take filled bytes.old }
    ensures fits { IfOk result (λ n. filled + n ≤ length bytes.new) }
    ensures given { IfOk result (λ n. Consumes (S.left source.old) (S.left source.new) (take n (drop filled bytes.new))) }
    ensures end { IfOk result (λ n. n ≡ 0 → IsAtEnd (S.left source.new)) }
    ensures kept { OnErr result (Keeps (S.left source.old) (S.left source.new)) }
    ensures failed { S.has_failed source.new ≡ (S.has_failed source.old || take_fails result) }
    ensures ended { S.has_ended source.new ≡ (S.has_ended source.old || take_ends result (length bytes.old - filled)) }
{
    source.take(&mut bytes[filled..])
}
