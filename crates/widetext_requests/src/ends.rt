//! The output of the subcommand `ends`.
ghost use Rattle.std.specs.Prelude.{◌≡◌, ◌++◌, IfErr, OnOk, OnErr, false, true, map, string_bytes};
ghost use Rattle.std.specs.List.{flat_map};
ghost use Rattle.std.specs.Io.KnownBytes.{Appends};
ghost use Rattle.std.specs.Option.{option_map};
ghost use Rattle.wide_unit.specs.Unit.{reported_item};
ghost use Rattle.widetext_base.specs.Command.{AppendsPrefix};
ghost use Rattle.widetext_requests.specs.Command.{failure_of};
ghost use Rattle.widetext_requests.specs.Lines.{answer_line, ends_lines};

use std::alloc::{AllocError, Global};
use std::fmt::Write;
use wide_bytes::{ByteSink, put_all};
use wide_error::{DecodeUtf16Error, TranscodeError};
use wide_iter::{End, read_ends16};

// Appends a line for an item of a decoder.
fn push_answer(
    lines: &mut String,
    answer: &Option<Result<char, DecodeUtf16Error>>,
) -> Result<(), AllocError>
    ensures { OnOk result (string_bytes lines.new ≡ string_bytes lines.old ++ answer_line (option_map reported_item answer.now)) }
{
    match answer {
        Some(Ok(c)) => writeln!(lines, "U+{:04X}", u32::from(*c)),
        Some(Err(fault)) => writeln!(lines, "fault {:x}", fault.unpaired_surrogate()),
        None => writeln!(lines, "none"),
    }
}

// Appends a line for each item of a decoder.
fn push_answers(
    lines: &mut String,
    answers: &[Option<Result<char, DecodeUtf16Error>>],
) -> Result<(), AllocError>
    ensures { OnOk result (string_bytes lines.new ≡ string_bytes lines.old ++ flat_map answer_line (map (option_map reported_item) answers.now)) }
{
    for answer in answers {
        push_answer(lines, answer)?;
    }
    Ok(())
}

/// Writes one line for each item that a decoder of the units returns at the ends. It makes all lines before it writes
/// any.
///
/// # Requires
///
/// The sink has not failed.
///
/// # Errors
///
/// [`TranscodeError::OutOfMemory`] if an allocation fails; the sink is as before. [`TranscodeError::Write`] if the sink
/// fails; it got a prefix of the lines.
pub fn write_results<K: ByteSink>(
    alloc: Global,
    sink: &mut K,
    units: &[u16],
    ends: &[End],
) -> Result<(), TranscodeError>
    requires { K.has_failed sink.old ≡ false }
    ensures written { OnOk result (Appends (K.held sink.old) (K.held sink.new) (ends_lines units.now ends.now)) }
    ensures valid { OnOk result (K.has_failed sink.new ≡ false) }
    ensures failed { OnErr result (K.has_failed sink.new ≡ false → sink.new ≡ sink.old) }
    ensures begun { OnErr result (K.has_failed sink.new ≡ true → AppendsPrefix (K.held sink.old) (K.held sink.new) (ends_lines units.now ends.now)) }
    ensures failure { IfErr result (λ error. error ≡ failure_of (K.has_failed sink.new)) }
{
    let answers = read_ends16(alloc, units, ends)?;
    let mut lines = String::new(alloc);
    push_answers(&mut lines, &answers)?;
    put_all(sink, lines.as_bytes())
}
