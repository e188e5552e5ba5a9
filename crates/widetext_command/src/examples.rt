//! Runs of the program with a known subcommand: what the output holds afterwards.
ghost use Rattle.std.specs.Prelude.{◌≡◌, false};
ghost use Rattle.widetext_requests.specs.Command.{AsksForEnds, AsksForEdits, WritesEnds, WritesEdits};

use crate::program::command;
use std::alloc::Global;
use wide_bytes::{ByteSink, ByteSource};

/// Writes the lines of the subcommand `ends`. At status 0 it wrote exactly these, and after an allocation failure
/// nothing.
///
/// # Requires
///
/// The arguments are those of `ends`. No device has failed, and `source` has not ended.
pub fn answered<S: ByteSource, K: ByteSink, F: ByteSink>(
    alloc: Global,
    words: &[String],
    source: &mut S,
    sink: &mut K,
    faults: &mut F,
) -> u8
    requires ends { AsksForEnds words.now }
    requires source_unfailed { S.has_failed source.old ≡ false }
    requires source_open { S.has_ended source.old ≡ false }
    requires sink_unfailed { K.has_failed sink.old ≡ false }
    requires faults_unfailed { F.has_failed faults.old ≡ false }
    ensures written { result ≡ 0 → WritesEnds words.now (K.held sink.old) (K.held sink.new) }
    ensures failed { result ≡ 1 → K.has_failed sink.new ≡ false → sink.new ≡ sink.old }
    ensures unread { source.new ≡ source.old }
{
    command(alloc, words, source, sink, faults)
}

/// Writes the lines of the subcommand `edit`. At status 0 it wrote exactly these, and after an allocation failure
/// nothing.
///
/// # Requires
///
/// The arguments are those of `edit`. No device has failed, and `source` has not ended.
pub fn edited<S: ByteSource, K: ByteSink, F: ByteSink>(
    alloc: Global,
    words: &[String],
    source: &mut S,
    sink: &mut K,
    faults: &mut F,
) -> u8
    requires edit { AsksForEdits words.now }
    requires source_unfailed { S.has_failed source.old ≡ false }
    requires source_open { S.has_ended source.old ≡ false }
    requires sink_unfailed { K.has_failed sink.old ≡ false }
    requires faults_unfailed { F.has_failed faults.old ≡ false }
    ensures written { result ≡ 0 → WritesEdits words.now (K.held sink.old) (K.held sink.new) }
    ensures failed { result ≡ 1 → K.has_failed sink.new ≡ false → sink.new ≡ sink.old }
    ensures unread { source.new ≡ source.old }
{
    command(alloc, words, source, sink, faults)
}
