//! A sink over memory.
ghost use Rattle.std.specs.Prelude.{◌≡◌, Some, false};

use crate::devices::{next_seed, step_by};
use std::alloc::Global;
use std::io;
use wide_bytes::ByteSink;

/// A sink over memory that takes at most `step` bytes in a call, or a pseudo-random number of them if `step` is 0.
///
/// Once it has as many bytes as `space` allows, it fails at each call: by an error, or by taking none.
#[derive(Drop)]
pub struct SlowSink {
    /// The bytes that it took.
    pub bytes: Vec<u8>,
    /// How many bytes a call takes at most.
    pub step: usize,
    /// How many bytes it takes before it fails. `None` means no limit.
    pub space: Option<usize>,
    /// Whether it fails by taking no bytes.
    pub takes_none: bool,
    /// How many calls there were.
    pub calls: usize,
    /// The last pseudo-random number.
    pub seed: u32,
    /// Whether a call failed.
    pub failed: bool,
}

impl SlowSink {
    /// Creates a sink that has taken nothing.
    pub fn new(alloc: Global, step: usize, space: Option<usize>, takes_none: bool) -> SlowSink
        ensures failed { result.failed ≡ false }
    {
        SlowSink {
            bytes: Vec::new(alloc),
            step,
            space,
            takes_none,
            calls: 0,
            seed: 1,
            failed: false,
        }
    }

    // Returns how many more bytes it takes.
    fn space_left(&self) -> usize {
        match self.space {
            Some(space) => space.saturating_sub(self.bytes.len()),
            None => usize::MAX,
        }
    }
}

impl ByteSink for SlowSink {
    ghost held = { λ s. Some s.bytes.items };

    ghost has_failed = { λ s. s.failed };

    fn put(&mut self, bytes: &[u8]) -> io::Result<usize> {
        self.calls = self.calls.saturating_add(1);
        let space = self.space_left();
        if space == 0 {
            if !self.takes_none {
                self.failed = true;
                return Err(io::Error::other("a fault"));
            }
            if !bytes.is_empty() {
                self.failed = true;
            }
            return Ok(0);
        }
        self.seed = next_seed(self.seed);
        let most = step_by(self.step, self.seed).max(1);
        let n = most.min(bytes.len()).min(space);
        if self.bytes.extend_from_slice(&bytes[..n]).is_err() {
            self.failed = true;
            return Err(io::Error::other("out of memory"));
        }
        Ok(n)
    }

    fn failed(&self) -> bool {
        self.failed
    }
}
