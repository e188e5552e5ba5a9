//! Converts one text.

ghost use Rattle.std.specs.Prelude.{◌≡◌, ℕ, List, Some, None, Ok, false, IfOk};
ghost use Rattle.wide_schemes.specs.declared.scheme.Scheme.{Scheme};
ghost use Rattle.wide_transcode.specs.Run.{Moves};
ghost use Rattle.wideconv_command.specs.Inputs.{has_taken_end, left_by, source_of};
ghost use Rattle.wideconv_command.specs.Texts.{ConvertsByBom, EndsText, OpensByBom, error_behind};

use crate::input::Input;
use std::fmt;
use wide_bytes::{ByteSink, ByteSource};
use wide_convert::{ConvertError, TextFault, convert};
use wide_files::{looks_like, name_of, scheme_by_bom};
use wide_forms::Policy;
use wide_schemes::Scheme;

/// Why a text was not converted to its end.
#[derive(Clone, Copy)]
pub enum TextError {
    /// It has no BOM, and nothing says which scheme it has. It looks like this one, or like no form of Unicode.
    NoBom(Option<Scheme>),
    /// The conversion stopped.
    Stopped(ConvertError),
}

impl fmt::Display for TextError {
    fn fmt<W: fmt::Write>(&self, f: &mut fmt::Formatter<W>) -> fmt::Result {
        match self {
            TextError::NoBom(scheme) => {
                let form = match scheme {
                    Some(scheme) => name_of(*scheme),
                    None => "no form of Unicode",
                };
                write!(f, "no BOM, so -f FORM is needed; it looks like {form}")
            }
            TextError::Stopped(error) => fmt::Display::fmt(error, f),
        }
    }
}

/// How texts are converted.
#[derive(Clone, Copy)]
pub struct Conversion {
    /// The scheme of the texts, or `None` if their BOM decides.
    pub from: Option<Scheme>,
    /// The scheme that is written.
    pub to: Scheme,
    /// What is written for faults, or `None` if the first one is an error.
    pub policy: Option<Policy>,
    /// Whether a BOM is written before the text.
    pub bom: bool,
}

// Returns the error with the offset in a text of which so many bytes were passed.
fn moved_by(error: ConvertError, passed: usize) -> ConvertError
    ensures { result ≡ error_behind passed error }
{
    match error {
        ConvertError::Fault(fault) => ConvertError::Fault(TextFault {
            offset: fault.offset.saturating_add(passed as u64),
            ..fault
        }),
        error => error,
    }
}

/// Returns the scheme of a text and, if its BOM was passed, the length of that in bytes.
///
/// # Errors
///
/// If the text has no BOM, or the source fails.
pub fn open_text<S: ByteSource>(
    source: &mut Input<S>,
    from: Option<Scheme>,
) -> Result<(Scheme, usize), TextError>
    requires source_unfailed { S.has_failed (source_of source.old) ≡ false }
    requires source_open { has_taken_end source.old ≡ false }
    ensures unfailed { IfOk result (λ opened. S.has_failed (source_of source.new) ≡ false) }
    ensures open { has_taken_end source.new ≡ false }
    ensures found { from ≡ None → IfOk result (OpensByBom (left_by S.has_ended S.left source.old) (left_by S.has_ended S.left source.new)) }
    ensures known { (scheme : Scheme) → from ≡ Some scheme → (result ≡ Ok (scheme, 0)) × (source.new ≡ source.old) }
{
    if let Some(scheme) = from {
        return Ok((scheme, 0));
    }
    if source.look().is_err() {
        return Err(TextError::Stopped(ConvertError::Read));
    }
    let head = source.head();
    let Some(found) = scheme_by_bom(head) else {
        return Err(TextError::NoBom(looks_like(head)));
    };
    source.skip(found.1);
    Ok(found)
}

/// Converts a text from the source to its end into the sink, and returns how many faults were replaced.
///
/// # Errors
///
/// Why the text was not converted to its end.
pub fn convert_text<S: ByteSource, K: ByteSink>(
    source: &mut Input<S>,
    sink: &mut K,
    conversion: Conversion,
) -> Result<u64, TextError>
    requires source_unfailed { S.has_failed (source_of source.old) ≡ false }
    requires source_open { has_taken_end source.old ≡ false }
    requires sink_unfailed { K.has_failed sink.old ≡ false }

    // With a scheme that is named, it is a run of `convert`.
    ensures named { (scheme : Scheme) → conversion.from ≡ Some scheme → (bytes written : List ℕ)
        × Moves (left_by S.has_ended S.left source.old) (left_by S.has_ended S.left source.new) (K.held sink.old) (K.held sink.new) bytes written
        × EndsText scheme conversion 0 result (has_taken_end source.new) bytes written }

    // Without a name, it is a run of `convert` behind the BOM, from the scheme that this indicates.
    ensures by_bom { conversion.from ≡ None → IfOk result (ConvertsByBom conversion (left_by S.has_ended S.left source.old) (left_by S.has_ended S.left source.new) (K.held sink.old) (K.held sink.new) (has_taken_end source.new)) }
{
    let Conversion {
        from,
        to,
        policy,
        bom,
    } = conversion;
    let (from, passed) = open_text(source, from)?;
    match convert(source, sink, from, to, policy, bom) {
        Ok(faults) => Ok(faults),
        Err(error) => Err(TextError::Stopped(moved_by(error, passed))),
    }
}
