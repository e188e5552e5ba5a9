//! The program `widetext`, over any devices.

ghost use Rattle.std.specs.Prelude.{◌≡◌, ◌≢◌, ◌≤◌, Option, IfErr, OnOk, OnErr, false, true};
ghost use Rattle.wide_forms.specs.declared.policy.Policy.{Policy};
ghost use Rattle.wide_error.specs.Texts.{transcode_error_text};
ghost use Rattle.widetext_base.specs.Command.{AsksForUtf8, AsksForNoUtf8, Says, Utf8Run};
ghost use Rattle.widetext_requests.specs.Command.{AsksForEnds, AsksForEdits, IsAskedBy, IsEdited, IsEditedInPart, IsOfTypes, IsWritten, IsWrittenInPart, WritesEnds, WritesEndsInPart, WritesEdits, WritesEditsInPart, IsUnknown, failure_of};
ghost use Rattle.widetext_requests.specs.declared.arguments.Request.{Request};

use crate::edit_lines::edit_lines;
use std::alloc::Global;
use wide_bytes::{ByteSink, ByteSource, put_all};
use wide_error::TranscodeError;
use widetext_base::{USAGE, end, parse_utf8, usage_error, write_utf8};
use widetext_requests::{EditArgument, Request, edits_of, parse_arguments, write_results};

// Writes the replies to the edits of a text, and the resulting text. It makes all lines before it writes any.
fn write_edits<K: ByteSink>(
    alloc: Global,
    sink: &mut K,
    text: &str,
    words: &[EditArgument<'_>],
) -> Result<(), TranscodeError>
    requires { K.has_failed sink.old ≡ false }
    ensures written { OnOk result (IsEdited text.now words.now (K.held sink.old) (K.held sink.new)) }
    ensures valid { OnOk result (K.has_failed sink.new ≡ false) }
    ensures failed { OnErr result (K.has_failed sink.new ≡ false → sink.new ≡ sink.old) }
    ensures begun { OnErr result (K.has_failed sink.new ≡ true → IsEditedInPart text.now words.now (K.held sink.old) (K.held sink.new)) }
    ensures failure { IfErr result (λ error. error ≡ failure_of (K.has_failed sink.new)) }
{
    let edits = edits_of(alloc, words)?;
    put_all(sink, edit_lines(alloc, text, &edits)?.as_bytes())
}

// Writes the lines of a request. It makes all lines before it writes any.
fn write_lines<K: ByteSink>(
    alloc: Global,
    sink: &mut K,
    request: &Request<'_>,
) -> Result<(), TranscodeError>
    requires { K.has_failed sink.old ≡ false }
    ensures written { OnOk result (IsWritten (K.held sink.old) (K.held sink.new) request.now) }
    ensures valid { OnOk result (K.has_failed sink.new ≡ false) }
    ensures failed { OnErr result (K.has_failed sink.new ≡ false → sink.new ≡ sink.old) }
    ensures begun { OnErr result (K.has_failed sink.new ≡ true → IsWrittenInPart (K.held sink.old) (K.held sink.new) request.now) }
    ensures failure { IfErr result (λ error. error ≡ failure_of (K.has_failed sink.new)) }
{
    match request {
        Request::Ends { units, ends } => write_results(alloc, sink, units, ends),
        Request::Edit { text, edits } => write_edits(alloc, sink, text, edits),
    }
}

/// Runs the program with the arguments after its name, and returns the exit status: 0 after success, 1 after an error,
/// whose message is a line on `faults`, and 2 after a usage error, with the usage message on `faults` and nothing on
/// `sink`.
///
/// It reads all arguments before it does anything else. A failing write to `faults` changes nothing else. `sink` is not
/// flushed.
///
/// # Requires
///
/// No device has failed, and `source` has not ended.
pub fn command<S: ByteSource, K: ByteSink, F: ByteSink>(
    alloc: Global,
    words: &[String],
    source: &mut S,
    sink: &mut K,
    faults: &mut F,
) -> u8
    requires source_unfailed { S.has_failed source.old ≡ false }
    requires source_open { S.has_ended source.old ≡ false }
    requires sink_unfailed { K.has_failed sink.old ≡ false }
    requires faults_unfailed { F.has_failed faults.old ≡ false }

    // The subcommand `utf8`, with or without an option: the status is that of one run of `transcode`, or of
    // `transcode_with` under the policy.
    ensures utf8 { (policy : Option Policy) → AsksForUtf8 policy words.now → Utf8Run policy (S.left source.old) (S.left source.new) (K.held sink.old) (K.held sink.new) (S.has_ended source.new) (S.has_failed source.new) (K.has_failed sink.new) (F.held faults.old) (F.held faults.new) result }

    // A successful run writes nothing to the fault stream.
    ensures quiet { result ≡ 0 → faults.new ≡ faults.old }

    // The subcommand `ends`: at status 0 the sink got the lines for the units and the calls that the arguments name,
    // and nothing else.
    ensures ends { AsksForEnds words.now → result ≡ 0 → WritesEnds words.now (K.held sink.old) (K.held sink.new) }

    // The subcommand `edit`: at status 0 the sink got the lines of the edits of the text that the arguments name, and
    // nothing else.
    ensures edit { AsksForEdits words.now → result ≡ 0 → WritesEdits words.now (K.held sink.old) (K.held sink.new) }

    // The subcommand `ends`: if the sink fails, it got a prefix of the lines for the units and the calls.
    ensures ends_begun { AsksForEnds words.now → K.has_failed sink.new ≡ true → WritesEndsInPart words.now (K.held sink.old) (K.held sink.new) }

    // The subcommand `edit`: if the sink fails, it got a prefix of the lines of the edits.
    ensures edit_begun { AsksForEdits words.now → K.has_failed sink.new ≡ true → WritesEditsInPart words.now (K.held sink.old) (K.held sink.new) }

    // If the sink fails, the status is 1.
    ensures sink_failed { K.has_failed sink.new ≡ true → result ≡ 1 }

    // The subcommands other than `utf8` read nothing.
    ensures reads { AsksForNoUtf8 words.now → source.new ≡ source.old }

    // Arguments that name no subcommand are a usage error.
    ensures unknown { IsUnknown words.now → result ≡ 2 }

    // After a usage error nothing was written to the sink.
    ensures wrong { result ≡ 2 → sink.new ≡ sink.old }

    // Arguments that ask for a request are not a usage error.
    ensures asked { (request : Request) → IsOfTypes request → IsAskedBy words.now request → result ≢ 2 }

    // The subcommands other than `utf8` make all output before they write any: after an error nothing is written,
    // unless the output itself failed.
    ensures whole { AsksForNoUtf8 words.now → result ≡ 1 → K.has_failed sink.new ≡ false → sink.new ≡ sink.old }

    // The subcommands other than `utf8`: the message of an error says that the output failed, or else that memory ran
    // out.
    ensures failure { AsksForNoUtf8 words.now → result ≡ 1 → Says (F.held faults.old) (F.held faults.new) (transcode_error_text (failure_of (K.has_failed sink.new))) }

    // After a usage error the fault stream got the usage message, or a prefix of it.
    ensures usage { result ≡ 2 → Says (F.held faults.old) (F.held faults.new) USAGE.now }

    // The status is at most 2.
    ensures statuses { result ≤ 2 }
{
    if let Some(policy) = parse_utf8(words) {
        return write_utf8(source, sink, faults, policy);
    }
    match parse_arguments(alloc, words) {
        Ok(Some(request)) => end(faults, write_lines(alloc, sink, &request)),
        Ok(None) => usage_error(faults),
        Err(_) => end(faults, Err(TranscodeError::OutOfMemory)),
    }
}
