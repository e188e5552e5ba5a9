//! What a caller does with units that may be ill-formed.
ghost use Rattle.std.specs.Prelude.{IsTrue, IsNone, IfSome, ◌↔◌};
ghost use Rattle.widestring.specs.EncodingForm.{Utf16, Utf32};
ghost use Rattle.widestring.specs.Items.{IsWellFormed, IsFirstFault};

use widestring::{Utf16Str, Utf32Str};

/// Returns the first ill-formed unit, if there is one.
pub fn faulty_unit(units: &[u16]) -> Option<u16> {
    match Utf16Str::from_slice(units) {
        Ok(_) => None,
        Err(fault) => Some(units[fault.index()]),
    }
}

/// Returns the units before the first fault.
pub fn valid_part(units: &[u32]) -> &[u32] {
    match Utf32Str::from_slice(units) {
        Ok(_) => units,
        Err(fault) => &units[..fault.index()],
    }
}

/// Returns the first fault, for a message: how many units and how many characters precede it, and its unit.
pub fn first_fault(units: &[u16]) -> Option<(usize, usize, u16)>
    ensures fault { IfSome result (λ fault. IsFirstFault Utf16 units.now fault.0 fault.1 fault.2) }
    ensures none { IsNone result ↔ IsWellFormed Utf16 units.now }
{
    let fault = Utf16Str::from_slice(units).err()?;
    let unit = fault.cause().unpaired_surrogate();
    Some((fault.index(), fault.item(), unit))
}

/// Returns whether the units are well-formed UTF-16.
pub fn is_text(units: &[u16]) -> bool
    ensures { IsTrue result ↔ IsWellFormed Utf16 units.now }
{
    Utf16Str::from_slice(units).is_ok()
}

/// Returns whether the units are well-formed UTF-32.
pub fn is_wide_text(units: &[u32]) -> bool
    ensures { IsTrue result ↔ IsWellFormed Utf32 units.now }
{
    match Utf32Str::from_slice(units) {
        Ok(_) => true,
        Err(_) => false,
    }
}
