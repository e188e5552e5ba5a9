//! The subcommand `utf8`.

ghost use Rattle.std.specs.Prelude.{◌≡◌, ◌≤◌, Option, Some, false};
ghost use Rattle.wide_forms.specs.declared.policy.Policy.{Policy};
ghost use Rattle.widetext_base.specs.Command.{AsksForUtf8, AsksForNoUtf8, IsOption, Says, Utf8Run};

use crate::messages::{USAGE, end, usage_error};
use wide_bytes::{ByteSink, ByteSource};
use wide_forms::Policy;
use wide_transcode::{Mode, transcode, transcode_with};

// Returns the policy that an option for lossy text names.
fn parse_policy(option: &str) -> Option<Policy>
    ensures named { (policy : Policy) → IsOption policy option.now → result ≡ Some policy }
    ensures names { (policy : Policy) → result ≡ Some policy → IsOption policy option.now }
{
    match option {
        "--lossy" | "--lossy=each" => Some(Policy::Each),
        "--lossy=run" => Some(Policy::Run),
        "--lossy=skip" => Some(Policy::Skip),
        _ => None,
    }
}

/// Returns what the arguments ask `utf8` for: `Some(Some(policy))` for lossy text, `Some(None)` for text up to the
/// first fault, and `None` if they are not those of `utf8`.
pub fn parse_utf8(words: &[String]) -> Option<Option<Policy>>
    ensures utf8 { (policy : Option Policy) → AsksForUtf8 policy words.now → result ≡ Some policy }
    ensures utf8_alone { (policy : Option Policy) → result ≡ Some policy → AsksForUtf8 policy words.now }
{
    match words {
        [word] if word.as_str() == "utf8" => Some(None),
        [word, option] if word.as_str() == "utf8" => match parse_policy(option.as_str()) {
            Some(policy) => Some(Some(policy)),
            None => None,
        },
        _ => None,
    }
}

/// Writes the text of `source` in UTF-8 to `sink`, and returns the exit status. With a policy the text is lossy,
/// without one it ends at the first fault. An error is written as a line to `faults`.
///
/// # Requires
///
/// No device has failed, and `source` has not ended. `faults` may have failed.
pub fn write_utf8<S: ByteSource, K: ByteSink, F: ByteSink>(
    source: &mut S,
    sink: &mut K,
    faults: &mut F,
    policy: Option<Policy>,
) -> u8
    requires source_unfailed { S.has_failed source.old ≡ false }
    requires source_open { S.has_ended source.old ≡ false }
    requires sink_unfailed { K.has_failed sink.old ≡ false }
    ensures run { Utf8Run policy (S.left source.old) (S.left source.new) (K.held sink.old) (K.held sink.new) (S.has_ended source.new) (S.has_failed source.new) (K.has_failed sink.new) (F.held faults.old) (F.held faults.new) result }
    ensures quiet { result ≡ 0 → faults.new ≡ faults.old }
    ensures statuses { result ≤ 1 }
{
    let answer = match policy {
        None => transcode(source, sink, Mode::Strict),
        Some(policy) => transcode_with(source, sink, policy),
    };
    end(faults, answer)
}

/// Runs the program with the arguments after its name, of which it only knows `utf8`, and returns the exit status: 0
/// after success, 1 after an error, whose message is a line on `faults`, and 2 after a usage error, with the usage
/// message on `faults` and nothing on `sink`.
///
/// It reads all arguments before it does anything else. A failing write to `faults` changes nothing else. `sink` is not
/// flushed.
///
/// # Requires
///
/// No device has failed, and `source` has not ended.
pub fn command<S: ByteSource, K: ByteSink, F: ByteSink>(
    words: &[String],
    source: &mut S,
    sink: &mut K,
    faults: &mut F,
) -> u8
    requires source_unfailed { S.has_failed source.old ≡ false }
    requires source_open { S.has_ended source.old ≡ false }
    requires sink_unfailed { K.has_failed sink.old ≡ false }
    requires faults_unfailed { F.has_failed faults.old ≡ false }

    // The subcommand `utf8`, with or without an option: the status is that of one run of `transcode`, or of
    // `transcode_with` under the policy.
    ensures utf8 { (policy : Option Policy) → AsksForUtf8 policy words.now → Utf8Run policy (S.left source.old) (S.left source.new) (K.held sink.old) (K.held sink.new) (S.has_ended source.new) (S.has_failed source.new) (K.has_failed sink.new) (F.held faults.old) (F.held faults.new) result }

    // A successful run writes nothing to the fault stream.
    ensures quiet { result ≡ 0 → faults.new ≡ faults.old }

    // With arguments that are not those of `utf8` nothing is read.
    ensures reads { AsksForNoUtf8 words.now → source.new ≡ source.old }

    // Arguments that are not those of `utf8` are a usage error.
    ensures unknown { AsksForNoUtf8 words.now → result ≡ 2 }

    // After a usage error nothing was written to the sink.
    ensures wrong { result ≡ 2 → sink.new ≡ sink.old }

    // After a usage error the fault stream got the usage message, or a prefix of it.
    ensures usage { result ≡ 2 → Says (F.held faults.old) (F.held faults.new) USAGE.now }

    // The status is at most 2.
    ensures statuses { result ≤ 2 }
{
    match parse_utf8(words) {
        Some(policy) => write_utf8(source, sink, faults, policy),
        None => usage_error(faults),
    }
}
