//! Concrete ill-formed units: where the first fault is, and what replaces it.
ghost use Rattle.std.specs.Prelude.{◌≡◌, ◌∷◌, [], Some, IfOk, string_bytes};
ghost use Rattle.widestring.specs.Utf8.{utf8};

use std::alloc::Global;
use widestring::error::{OutOfMemory, Utf16ConvertError};
use widestring::unit::laws;
use widestring::{U16Str, Utf16Str};

/// Finds the high surrogate after a pair: two units and one character precede it.
pub fn fault_after_a_pair() -> Option<(usize, usize, u16)>
    ensures { result ≡ Some (2, 1, 0xD800) }
{
    laws::worked_fault();
    laws::first_faults();
    let fault = Utf16Str::from_slice(&[0xD83D, 0xDE00, 0xD800]).err()?;
    Some((
        fault.index(),
        fault.item(),
        fault.cause().unpaired_surrogate(),
    ))
}

/// Rejects a pair and a high surrogate for the fault, never for an allocation failure.
pub fn no_text_of_a_fault(alloc: Global) -> Option<(usize, usize)>
    ensures { result ≡ Some (2, 1) }
{
    laws::worked_fault();
    laws::first_faults();
    let units = U16Str::from_slice(&[0xD83D, 0xDE00, 0xD800]);
    match units.to_string(alloc) {
        Ok(_) => None,
        Err(Utf16ConvertError::OutOfMemory) => None,
        Err(Utf16ConvertError::Utf16(fault)) => Some((fault.index(), fault.item())),
    }
}

/// Writes U+FFFD in UTF-8 for each of two high surrogates after a pair.
pub fn lossy_text_of_two_faults(alloc: Global) -> Result<String, OutOfMemory>
    ensures { IfOk result (λ text. string_bytes text ≡ utf8 (0x1_F600 ∷ 0xFFFD ∷ 0xFFFD ∷ [])) }
{
    laws::worked_lossy();
    U16Str::from_slice(&[0xD83D, 0xDE00, 0xD800, 0xD801]).to_string_lossy(alloc)
}
