//! A source over memory.
ghost use Rattle.std.specs.Prelude.{◌≡◌, Some, false};

use crate::devices::{next_seed, step_by};
use std::io;
use wide_bytes::ByteSource;

/// A source over memory that gives at most `step` bytes in a call, or a pseudo-random number of them if `step` is 0.
///
/// It fails at call number `fails_at`, from 1. With `ends_in_fault` it also fails at the call after its last byte.
#[derive(Drop)]
pub struct SlowSource<'a> {
    /// The bytes still to come.
    pub bytes: &'a [u8],
    /// How many bytes a call gives at most.
    pub step: usize,
    /// The number of the call that fails, from 1, or 0 for none.
    pub fails_at: usize,
    /// Whether it fails at its end.
    pub ends_in_fault: bool,
    /// How many calls there were.
    pub calls: usize,
    /// The last pseudo-random number.
    pub seed: u32,
    /// Whether a call failed.
    pub failed: bool,
    /// Whether it has reported its end.
    pub ended: bool,
}

impl<'a> SlowSource<'a> {
    /// Creates a source of these bytes that does not fail.
    pub fn new(bytes: &'a [u8], step: usize) -> SlowSource<'a>
        ensures failed { result.failed ≡ false }
        ensures ended { result.ended ≡ false }
    {
        SlowSource {
            bytes,
            step,
            fails_at: 0,
            ends_in_fault: false,
            calls: 0,
            seed: 1,
            failed: false,
            ended: false,
        }
    }

    /// Creates a source of these bytes that fails at the call with this number, from 1.
    pub fn failing_at(bytes: &'a [u8], step: usize, fails_at: usize) -> SlowSource<'a>
        ensures failed { result.failed ≡ false }
        ensures ended { result.ended ≡ false }
    {
        let mut source = SlowSource::new(bytes, step);
        source.fails_at = fails_at;
        source
    }

    /// Creates a source of these bytes that fails after them.
    pub fn failing_after(bytes: &'a [u8], step: usize) -> SlowSource<'a>
        ensures failed { result.failed ≡ false }
        ensures ended { result.ended ≡ false }
    {
        let mut source = SlowSource::new(bytes, step);
        source.ends_in_fault = true;
        source
    }
}

impl ByteSource for SlowSource<'_> {
    ghost left = { λ s. Some s.bytes.now };

    ghost has_failed = { λ s. s.failed };

    ghost has_ended = { λ s. s.ended };

    fn take(&mut self, buf: &mut [u8]) -> io::Result<usize> {
        self.calls = self.calls.saturating_add(1);
        if self.calls == self.fails_at || self.ends_in_fault && self.bytes.is_empty() {
            self.failed = true;
            return Err(io::Error::other("a fault"));
        }
        self.seed = next_seed(self.seed);
        let most = step_by(self.step, self.seed).max(1);
        let n = most.min(buf.len()).min(self.bytes.len());
        buf[..n].copy_from_slice(&self.bytes[..n]);
        self.bytes = &self.bytes[n..];
        if n == 0 && !buf.is_empty() {
            self.ended = true;
        }
        Ok(n)
    }

    fn failed(&self) -> bool {
        self.failed
    }

    fn ended(&self) -> bool {
        self.ended
    }
}
