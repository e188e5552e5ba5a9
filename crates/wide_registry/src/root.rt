//! The roots of a registry.

ghost use Rattle.std.specs.Prelude.{◌≡◌, ◌==◌};
ghost use Rattle.std.specs.List.{before_first};

use crate::line::split_before;
use crate::string::BACKSLASH;

// The names that regedit and reg know, of which both lengths are in use.
static ROOTS: [&str; 12] = [
    "HKEY_LOCAL_MACHINE",
    "HKEY_CURRENT_USER",
    "HKEY_CLASSES_ROOT",
    "HKEY_USERS",
    "HKEY_CURRENT_CONFIG",
    "HKEY_PERFORMANCE_DATA",
    "HKEY_DYN_DATA",
    "HKLM",
    "HKCU",
    "HKCR",
    "HKU",
    "HKCC",
];

// Returns the lower case of an ASCII letter, and other units as they are.
fn lower(unit: u16) -> u16 {
    match u8::try_from(unit) {
        Ok(byte) => u16::from(byte.to_ascii_lowercase()),
        Err(_) => unit,
    }
}

// Returns whether units are an ASCII text in letters of either case.
fn is_in_any_case(units: &[u16], text: &str) -> bool {
    let lowered = text.as_bytes().iter().map(|byte| lower(u16::from(*byte)));
    units.iter().map(|unit| lower(*unit)).eq(lowered)
}

// Returns what stands for the root of a key: its name before the first backslash.
pub fn root_of(key: &[u16]) -> &[u16]
    ensures { result.now ≡ before_first (λ unit. unit == BACKSLASH) key.now }
{
    split_before(key, BACKSLASH).0
}

/// Returns whether a key is below one of the roots `HKEY_LOCAL_MACHINE`, `HKEY_CURRENT_USER`, `HKEY_CLASSES_ROOT`,
/// `HKEY_USERS`, `HKEY_CURRENT_CONFIG`, `HKEY_PERFORMANCE_DATA` and `HKEY_DYN_DATA`, or the short forms `HKLM`, `HKCU`,
/// `HKCR`, `HKU` and `HKCC`, in letters of either case.
pub fn has_known_root(key: &[u16]) -> bool {
    let root = root_of(key);
    ROOTS.iter().any(|known| is_in_any_case(root, known))
}
