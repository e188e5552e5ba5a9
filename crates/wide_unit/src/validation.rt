//! Checks whether units are well formed.
ghost use Rattle.std.specs.Prelude.{ℕ, ◌<◌, ◌≤◌, ◌↔◌, length, map, take, IsNone, IfSome, IsOk, OnOk, IfErr};
ghost use Rattle.wide_forms.specs.Items.{IsWellFormed, IsFirstFault, BeginsWithChars};
ghost use Rattle.wide_forms.specs.Offsets.{text_before};

use crate::split::split_first;
use crate::unit::Unit;

// Returns the units after those at the beginning that encode a character each.
#[inline(always)]
fn after_scalars<C: Unit>(units: &[C]) -> &[C]
    ensures within { length result.now ≤ length units.now }
    ensures text { BeginsWithChars C.form (map C.number units.now) (map C.number result.now) }
{
    &units[C::leading_scalars(units)..]
}

// Returns the units after the blocks at the beginning that contain surrogate pairs and no fault.
#[inline(always)]
fn after_pairs<C: Unit>(units: &[C]) -> &[C]
    ensures within { length result.now ≤ length units.now }
    ensures text { BeginsWithChars C.form (map C.number units.now) (map C.number result.now) }
{
    &units[C::leading_pairs(units)..]
}

// Returns the units after those at the beginning that the vectorized checks pass. All of these belong to characters.
#[inline(always)]
fn after_blocks<C: Unit>(units: &[C]) -> &[C]
    ensures within { length result.now ≤ length units.now }
    ensures text { BeginsWithChars C.form (map C.number units.now) (map C.number result.now) }
{
    after_pairs(after_scalars(units))
}

/// The first fault of ill-formed units (Unicode Standard, D84).
///
/// # Example
///
/// ```
/// let Err(fault) = check(&[0xd83du16, 0xde00, 0xd83d]) else {
///     panic!(rt; "an unpaired surrogate is at index 2")
/// };
/// let FirstFault { index, item, unit } = fault;
/// assert!(rt; (index, item, unit) == (2, 1, 0xd83d));
/// ```
#[derive(Clone, Copy, Debug, PartialEq, Eq)]
pub struct FirstFault<C> {
    /// The fault's index: the number of units before it.
    pub index: usize,
    /// The fault's item number: the number of characters before it.
    pub item: usize,
    /// The unit that is the fault.
    pub unit: C,
}

/// Returns the index of the first fault (Unicode Standard, D84), in units, and its unit, or `None` if the units are
/// well formed (D85). Units that are no surrogates, and surrogate pairs, are checked in vectorized steps, and the rest
/// item by item.
#[inline(always)]
pub fn find_fault<C: Unit>(units: &[C]) -> Option<(usize, C)>
    ensures some { IfSome result (λ fault. IsFirstFault C.form (map C.number units.now) fault.0 (text_before C.form C.number units.now fault.0) (C.number fault.1)) }
    ensures within { IfSome result (λ fault. fault.0 < length units.now) }
    ensures none { IsNone result ↔ IsWellFormed C.form (map C.number units.now) }
{
    let mut rest = after_blocks(units);
    while let Some((item, tail)) = split_first(rest) {
        if let Err(unit) = item {
            return Some((units.len() - rest.len(), unit));
        }
        rest = tail;
    }
    None
}

/// Returns how many units precede the first fault, or their total number if they are well formed (Unicode Standard,
/// D85).
pub fn valid_len<C: Unit>(units: &[C]) -> usize
    ensures within { result ≤ length units.now }
    ensures valid { IsWellFormed C.form (map C.number (take result units.now)) }
    ensures fault { result < length units.now → (item unit : ℕ) × IsFirstFault C.form (map C.number units.now) result item unit }
{
    match find_fault(units) {
        Some((index, _unit)) => index,
        None => units.len(),
    }
}

/// Checks whether the units are well formed (Unicode Standard, D85). It reads them once. If there is a fault, it reads
/// the units before it again to count their characters.
///
/// # Errors
///
/// The first fault. Its index is counted in units, its item number in characters.
pub fn check<C: Unit>(units: &[C]) -> Result<(), FirstFault<C>>
    ensures ok { OnOk result (IsWellFormed C.form (map C.number units.now)) }
    ensures err { IfErr result (λ fault. IsFirstFault C.form (map C.number units.now) fault.index fault.item (C.number fault.unit)) }
    ensures within { IfErr result (λ fault. fault.index < length units.now) }
    ensures well_formed { IsOk result ↔ IsWellFormed C.form (map C.number units.now) }
{
    let Some(found) = find_fault(units) else {
        return Ok(());
    };
    let item = C::char_count(&units[..found.0]);
    Err(FirstFault {
        index: found.0,
        item,
        unit: found.1,
    })
}
