//! Searches for the first fault, the first NUL, a unit, or a needle.
ghost use Rattle.std.specs.Prelude.{◌≡◌, ◌<◌, ◌≤◌, ◌-◌, ◌^◌, ◌∷◌, [], ◌↔◌, ℕ, length};
ghost use Rattle.wide_forms.specs.EncodingForm.{Utf16, Utf32};
ghost use Rattle.wide_forms.specs.Items.{IsFirstFault, IsWellFormed};
ghost use Rattle.wide_unit.specs.Nul.{HasNoNul, IsFirstNul};
ghost use Rattle.wide_search.specs.Lowercased.{lowercased};
ghost use Rattle.wide_search.specs.Occurrences.{IsFirstAt, IsLastAt, OccursNowhere};

use wide_search::{find, find_ignore_ascii_case, find_unit, rfind};
use wide_unit::{check, find_fault, first_nul};

/// Returns the offset of the first fault of UTF-16 (Unicode Standard, D91), or the length if the units are well formed.
#[unsafe(no_mangle)]
pub extern "C" fn wide_utf16_first_fault(units: &[u16]) -> usize
    ensures well_formed { (result ≡ length units.now) ↔ IsWellFormed Utf16 units.now }
    ensures fault { result < length units.now → (item unit : ℕ) × IsFirstFault Utf16 units.now result item unit }
    ensures within { result ≤ length units.now }
{
    match find_fault(units) {
        None => units.len(),
        Some((index, _unit)) => index,
    }
}

/// Returns the offset of the first fault of UTF-32 (Unicode Standard, D90), or the length if the units are well formed.
#[unsafe(no_mangle)]
pub extern "C" fn wide_utf32_first_fault(units: &[u32]) -> usize
    ensures well_formed { (result ≡ length units.now) ↔ IsWellFormed Utf32 units.now }
    ensures fault { result < length units.now → (item unit : ℕ) × IsFirstFault Utf32 units.now result item unit }
    ensures within { result ≤ length units.now }
{
    match find_fault(units) {
        None => units.len(),
        Some((index, _unit)) => index,
    }
}

/// Returns how many characters precede the first fault of UTF-16 (Unicode Standard, D91), or `usize::MAX` if the units
/// are well formed.
#[unsafe(no_mangle)]
pub extern "C" fn wide_utf16_first_fault_item(units: &[u16]) -> usize
    ensures well_formed { IsWellFormed Utf16 units.now → result ≡ 2 ^ 64 - 1 }
    ensures fault { (IsWellFormed Utf16 units.now → ⊥) → (index unit : ℕ) × IsFirstFault Utf16 units.now index result unit }
{
    match check(units) {
        Ok(()) => usize::MAX,
        Err(fault) => fault.item,
    }
}

/// Returns how many characters, each one unit, precede the first fault of UTF-32 (Unicode Standard, D90), or
/// `usize::MAX` if the units are well formed.
#[unsafe(no_mangle)]
pub extern "C" fn wide_utf32_first_fault_item(units: &[u32]) -> usize
    ensures well_formed { IsWellFormed Utf32 units.now → result ≡ 2 ^ 64 - 1 }
    ensures fault { (IsWellFormed Utf32 units.now → ⊥) → (index unit : ℕ) × IsFirstFault Utf32 units.now index result unit }
{
    match check(units) {
        Ok(()) => usize::MAX,
        Err(fault) => fault.item,
    }
}

/// Returns the offset of the first NUL of UTF-16, or the length if there is none.
#[unsafe(no_mangle)]
pub extern "C" fn wide_utf16_first_nul(units: &[u16]) -> usize
    ensures none { (result ≡ length units.now) ↔ HasNoNul units.now }
    ensures first { result < length units.now → IsFirstNul units.now result }
    ensures within { result ≤ length units.now }
{
    first_nul(units).unwrap_or(units.len())
}

/// Returns the offset of the first NUL of UTF-32, or the length if there is none.
#[unsafe(no_mangle)]
pub extern "C" fn wide_utf32_first_nul(units: &[u32]) -> usize
    ensures none { (result ≡ length units.now) ↔ HasNoNul units.now }
    ensures first { result < length units.now → IsFirstNul units.now result }
    ensures within { result ≤ length units.now }
{
    first_nul(units).unwrap_or(units.len())
}

/// Returns the offset of the first unit of UTF-16 that equals `unit`, or the length if there is none.
#[unsafe(no_mangle)]
pub extern "C" fn wide_utf16_find_unit(units: &[u16], unit: u16) -> usize
    ensures first { result < length units.now → IsFirstAt (unit ∷ []) units.now result }
    ensures none { result ≡ length units.now → OccursNowhere (unit ∷ []) units.now }
    ensures within { result ≤ length units.now }
{
    find_unit(units, unit).unwrap_or(units.len())
}

/// Returns the offset of the first occurrence of the needle in UTF-16, or `usize::MAX` if it does not occur. An empty
/// needle occurs at offset 0.
#[unsafe(no_mangle)]
pub extern "C" fn wide_utf16_find(units: &[u16], part: &[u16]) -> usize
    ensures first { result < 2 ^ 64 - 1 → IsFirstAt part.now units.now result }
    ensures none { result ≡ 2 ^ 64 - 1 → OccursNowhere part.now units.now }
{
    find(units, part).unwrap_or(usize::MAX)
}

/// Returns the offset of the last occurrence of the needle in UTF-16, or `usize::MAX` if it does not occur. An empty
/// needle occurs at the end.
#[unsafe(no_mangle)]
pub extern "C" fn wide_utf16_rfind(units: &[u16], part: &[u16]) -> usize
    ensures last { result < 2 ^ 64 - 1 → IsLastAt part.now units.now result }
    ensures none { result ≡ 2 ^ 64 - 1 → OccursNowhere part.now units.now }
{
    rfind(units, part).unwrap_or(usize::MAX)
}

/// Returns the offset of the first occurrence of the needle in UTF-16 without regard to the case of ASCII letters, or
/// `usize::MAX` if it does not occur. An empty needle occurs at offset 0.
#[unsafe(no_mangle)]
pub extern "C" fn wide_utf16_find_ignore_ascii_case(units: &[u16], part: &[u16]) -> usize
    ensures first { result < 2 ^ 64 - 1 → IsFirstAt (lowercased part.now) (lowercased units.now) result }
    ensures none { result ≡ 2 ^ 64 - 1 → OccursNowhere (lowercased part.now) (lowercased units.now) }
{
    find_ignore_ascii_case(units, part).unwrap_or(usize::MAX)
}

/// Returns the offset of the first unit of UTF-32 that equals `unit`, or the length if there is none.
#[unsafe(no_mangle)]
pub extern "C" fn wide_utf32_find_unit(units: &[u32], unit: u32) -> usize
    ensures first { result < length units.now → IsFirstAt (unit ∷ []) units.now result }
    ensures none { result ≡ length units.now → OccursNowhere (unit ∷ []) units.now }
    ensures within { result ≤ length units.now }
{
    find_unit(units, unit).unwrap_or(units.len())
}

/// Returns the offset of the first occurrence of the needle in UTF-32, or `usize::MAX` if it does not occur. An empty
/// needle occurs at offset 0.
#[unsafe(no_mangle)]
pub extern "C" fn wide_utf32_find(units: &[u32], part: &[u32]) -> usize
    ensures first { result < 2 ^ 64 - 1 → IsFirstAt part.now units.now result }
    ensures none { result ≡ 2 ^ 64 - 1 → OccursNowhere part.now units.now }
{
    find(units, part).unwrap_or(usize::MAX)
}

/// Returns the offset of the last occurrence of the needle in UTF-32, or `usize::MAX` if it does not occur. An empty
/// needle occurs at the end.
#[unsafe(no_mangle)]
pub extern "C" fn wide_utf32_rfind(units: &[u32], part: &[u32]) -> usize
    ensures last { result < 2 ^ 64 - 1 → IsLastAt part.now units.now result }
    ensures none { result ≡ 2 ^ 64 - 1 → OccursNowhere part.now units.now }
{
    rfind(units, part).unwrap_or(usize::MAX)
}

/// Returns the offset of the first occurrence of the needle in UTF-32 without regard to the case of ASCII letters, or
/// `usize::MAX` if it does not occur. An empty needle occurs at offset 0.
#[unsafe(no_mangle)]
pub extern "C" fn wide_utf32_find_ignore_ascii_case(units: &[u32], part: &[u32]) -> usize
    ensures first { result < 2 ^ 64 - 1 → IsFirstAt (lowercased part.now) (lowercased units.now) result }
    ensures none { result ≡ 2 ^ 64 - 1 → OccursNowhere (lowercased part.now) (lowercased units.now) }
{
    find_ignore_ascii_case(units, part).unwrap_or(usize::MAX)
}
