//! A source whose beginning can be looked at, and that remembers why it failed.

ghost use Rattle.std.specs.Prelude.{◌≡◌, false, true, [], IfOk, IfErr, drop};
ghost use Rattle.std.specs.Io.KnownBytes.{Keeps};
ghost use Rattle.wideconv_command.specs.Inputs.{has_taken_end, head_of, left_by, source_of};

use std::io;
use wide_bytes::{ByteSource, take_after};

// How many bytes of the beginning can be looked at.
const HEAD_LEN: usize = 1024;

// How many bytes decide which scheme a BOM belongs to.
const BOM_LEN: usize = 4;

/// A source whose beginning can be looked at before it is taken.
#[derive(Drop)]
pub struct Input<S> {
    // What gives the bytes.
    source: S,
    // The bytes that were looked at.
    head: [u8; HEAD_LEN],
    // Where those begin that were not taken.
    from: usize,
    // Where they end.
    end: usize,
    // Whether the end was taken.
    ended: bool,
    // The number of the system's error at which the source failed, or 0.
    code: i32,
}

impl<S: ByteSource> Input<S> {
    /// Creates a source of the same bytes.
    pub fn new(source: S) -> Input<S>
        ensures source { source_of result ≡ source }
        ensures head { head_of result ≡ [] }
        ensures ended { has_taken_end result ≡ false }
    {
        Input {
            source,
            head: [0; HEAD_LEN],
            from: 0,
            end: 0,
            ended: false,
            code: 0,
        }
    }

    /// Returns the bytes that were looked at and not taken.
    #[tactic(auto, using(std::proofs::lemmas::List::take_min, std::proofs::lemmas::List::drop_min))]
    pub fn head(&self) -> &[u8]
        ensures { result.now ≡ head_of self.now }
    {
        let looked = &self.head[..self.end.min(self.head.len())];
        &looked[self.from.min(looked.len())..]
    }

    /// Reads until the bytes are there that decide which scheme a BOM belongs to, or none are left, unless some of them
    /// were taken. They are still to be taken.
    ///
    /// # Requires
    ///
    /// The source has neither failed nor ended.
    ///
    /// # Errors
    ///
    /// If the source fails.
    pub fn look(&mut self) -> io::Result<()>
        requires source_unfailed { S.has_failed (source_of self.old) ≡ false }
        ensures left { Keeps (left_by S.has_ended S.left self.old) (left_by S.has_ended S.left self.new) }
        ensures failed { IfOk result (λ looked. S.has_failed (source_of self.new) ≡ false) }
        ensures error { IfErr result (λ error. S.has_failed (source_of self.new) ≡ true) }
        ensures ended { has_taken_end self.new ≡ has_taken_end self.old }
    {
        for _ in 0..BOM_LEN {
            let end = self.end.min(self.head.len());
            if self.from > 0 || end >= BOM_LEN || self.source.ended() {
                break;
            }
            match take_after(&mut self.source, &mut self.head, end) {
                Ok(len) => self.end = end + len,
                Err(error) => {
                    self.code = error.raw_os_error().unwrap_or(0);
                    return Err(error);
                }
            }
        }
        Ok(())
    }

    /// Passes this many of the bytes that were looked at, or all of them if there are fewer.
    pub fn skip(&mut self, len: usize)
        ensures head { head_of self.new ≡ drop len (head_of self.old) }
        ensures source { source_of self.new ≡ source_of self.old }
        ensures ended { has_taken_end self.new ≡ has_taken_end self.old }
    {
        self.from = self.from.saturating_add(len);
    }

    /// Returns the number of the system's error at which the source failed, or 0 if it has none.
    pub fn code(&self) -> i32 {
        self.code
    }
}

impl<S: ByteSource> ByteSource for Input<S> {
    ghost use Rattle.wideconv_command.specs.Inputs.{has_taken_end, head_of, left_by, source_of};

    ghost left = { λ input. left_by S.has_ended S.left input };

    ghost has_failed = { λ input. S.has_failed (source_of input) };

    ghost has_ended = { λ input. has_taken_end input };

    fn take(&mut self, buf: &mut [u8]) -> io::Result<usize> {
        let rest = self.head();
        if !rest.is_empty() {
            let len = buf.len().min(rest.len());
            buf[..len].copy_from_slice(&rest[..len]);
            self.skip(len);
            return Ok(len);
        }
        if self.source.ended() {
            self.ended = !buf.is_empty();
            return Ok(0);
        }
        let result = self.source.take(buf);
        if let Err(error) = &result {
            self.code = error.raw_os_error().unwrap_or(0);
        }
        self.ended = self.source.ended();
        result
    }

    fn failed(&self) -> bool {
        self.source.failed()
    }

    fn ended(&self) -> bool {
        self.ended
    }
}
