//! Runs a program's command over devices in memory.
ghost use Rattle.std.specs.Prelude.{◌≡◌, false};

use std::alloc::{AllocError, Global};
use wide_bytes::{ByteSink, ByteSource};
use widestring_testing::{SlowSink, SlowSource};

/// The programs of the repository that have the subcommand `utf8`.
#[derive(Clone, Copy, Drop)]
pub enum Program {
    /// `widetext`, with all subcommands.
    Whole,
    /// `widetext_utf8`, with only that subcommand.
    Utf8Alone,
}

/// Runs a program's command, and returns its exit status.
///
/// # Requires
///
/// No device has failed, and the source has not ended.
pub fn command<S: ByteSource, K: ByteSink, F: ByteSink>(
    alloc: Global,
    program: Program,
    words: &[String],
    source: &mut S,
    sink: &mut K,
    faults: &mut F,
) -> u8
    requires source_unfailed { S.has_failed source.old ≡ false }
    requires source_open { S.has_ended source.old ≡ false }
    requires sink_unfailed { K.has_failed sink.old ≡ false }
    requires faults_unfailed { F.has_failed faults.old ≡ false }
{
    match program {
        Program::Whole => widetext_command::command(alloc, words, source, sink, faults),
        Program::Utf8Alone => widetext_base::command(words, source, sink, faults),
    }
}

/// A run that has ended: its exit status, and its devices.
#[derive(Drop)]
pub struct Ended<'a> {
    pub status: u8,
    pub source: SlowSource<'a>,
    pub sink: SlowSink,
    pub said: SlowSink,
}

impl Ended<'_> {
    /// Returns whether it ended with this status, wrote this text, and wrote this message to the fault stream.
    pub fn is(&self, status: u8, text: &[u8], said: &[u8]) -> bool {
        let mut well = self.status == status;
        well &= self.sink.bytes.as_slice() == text;
        well &= self.said.bytes.as_slice() == said;
        well
    }

    /// Returns whether it failed with this message, and wrote no more than a prefix of this text.
    pub fn has_failed(&self, line: &[u8], text: &[u8]) -> bool {
        let mut well = self.status == 1;
        well &= self.said.bytes.as_slice() == line;
        well &= text.starts_with(self.sink.bytes.as_slice());
        well
    }
}

/// Returns the arguments as the program gets them.
///
/// # Errors
///
/// [`AllocError`] if an allocation fails.
pub fn strings(alloc: Global, words: &[&str]) -> Result<Vec<String>, AllocError> {
    let mut all = Vec::new(alloc);
    for word in words {
        all.push(String::from_str(alloc, word)?)?;
    }
    Ok(all)
}

/// Creates a sink without a limit that takes at most this many bytes in a call.
pub fn whole(alloc: Global, step: usize) -> SlowSink
    ensures failed { result.failed ≡ false }
{
    SlowSink::new(alloc, step, None, false)
}

/// Runs a program's command over these devices.
///
/// # Requires
///
/// No device has failed, and the source has not ended.
///
/// # Errors
///
/// [`AllocError`] if the arguments can't be allocated.
pub fn run<'a>(
    alloc: Global,
    program: Program,
    words: &[&str],
    mut source: SlowSource<'a>,
    mut sink: SlowSink,
    mut said: SlowSink,
) -> Result<Ended<'a>, AllocError>
    requires source_unfailed { source.failed ≡ false }
    requires source_open { source.ended ≡ false }
    requires sink_unfailed { sink.failed ≡ false }
    requires said_valid { said.failed ≡ false }
{
    let words = strings(alloc, words)?;
    let status = command(alloc, program, &words, &mut source, &mut sink, &mut said);
    Ok(Ended {
        status,
        source,
        sink,
        said,
    })
}
