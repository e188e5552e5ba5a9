//! A sink that remembers why it failed, and tells how much was written.

ghost use Rattle.std.specs.Prelude.{◌≡◌};
ghost use Rattle.wideconv_command.specs.Outputs.{sink_of};

use std::fmt::{InlineText, Write};
use std::io;
use wide_bytes::{ByteSink, put_all};

// After how many bytes the progress is told again.
const STEP: u64 = 32 * MEGABYTE;

const MEGABYTE: u64 = 1_000_000;

// The capacity for a line of progress, in bytes.
const LINE_LEN: usize = 64;

/// A sink that remembers why it failed, and tells how much was written.
#[derive(Drop)]
pub struct Output<K, P> {
    // What takes the bytes.
    sink: K,
    // The number of the system's error at which the sink failed, or 0.
    code: i32,
    // Where the progress is told, if it is.
    progress: Option<P>,
    // How many bytes were written.
    bytes: u64,
    // How many bytes had been written when the progress was last told.
    told: u64,
}

impl<K: ByteSink, P: ByteSink> Output<K, P> {
    /// Creates a sink that puts its bytes into another one, and tells its progress if there is a sink for that.
    pub fn new(sink: K, progress: Option<P>) -> Output<K, P>
        ensures { sink_of result ≡ sink }
    {
        Output {
            sink,
            code: 0,
            progress,
            bytes: 0,
            told: 0,
        }
    }

    /// Returns the number of the system's error at which the sink failed, or 0 if it has none.
    pub fn code(&self) -> i32 {
        self.code
    }

    /// Returns the sink.
    pub fn into_inner(self) -> K
    where
        P: Drop,
        ensures { result ≡ sink_of self }
    {
        self.sink
    }

    /// Takes the sink for the progress, which is told no more.
    pub fn take_progress(&mut self) -> Option<P>
        ensures { sink_of self.new ≡ sink_of self.old }
    {
        self.progress.take()
    }

    // Writes a line in place of the last one.
    fn put_progress(&mut self, line: &str)
        ensures { sink_of self.new ≡ sink_of self.old }
    {
        if let Some(progress) = &mut self.progress {
            if !progress.failed() {
                let _ = put_all(progress, line.as_bytes());
            }
        }
    }

    // Counts bytes that were written, and tells the progress from time to time.
    fn count(&mut self, len: usize)
        ensures { sink_of self.new ≡ sink_of self.old }
    {
        self.bytes = self.bytes.saturating_add(len as u64);
        if self.bytes.saturating_sub(self.told) < STEP {
            return;
        }
        self.told = self.bytes;
        let mut line = InlineText::<LINE_LEN>::new();
        let _is_made = write!(line, "\rwideconv: {} MB written", self.bytes / MEGABYTE);
        self.put_progress(line.as_str());
    }

    /// Erases the line of progress.
    pub fn end_progress(&mut self)
        ensures { sink_of self.new ≡ sink_of self.old }
    {
        if self.told > 0 {
            self.put_progress("\r\x1b[K");
        }
    }
}

impl<K: ByteSink, P: ByteSink> ByteSink for Output<K, P> {
    ghost use Rattle.wideconv_command.specs.Outputs.{sink_of};

    ghost held = { λ output. K.held (sink_of output) };

    ghost has_failed = { λ output. K.has_failed (sink_of output) };

    fn put(&mut self, bytes: &[u8]) -> io::Result<usize> {
        let result = self.sink.put(bytes);
        match &result {
            Ok(len) => self.count(*len),
            Err(error) => self.code = error.raw_os_error().unwrap_or(0),
        }
        result
    }

    fn failed(&self) -> bool {
        self.sink.failed()
    }
}
