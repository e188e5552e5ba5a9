//! Converts any units of UTF-16 to UTF-32 and back, into a buffer of the caller, and replaces ill-formed units.
ghost use Rattle.std.specs.Prelude.{◌≡◌, ◌*◌, ◌<◌, ◌≤◌, ◌-◌, ◌^◌, IfNone, IfSome, length, map, take, drop};
ghost use Rattle.wide_forms.specs.EncodingForm.{Utf16, Utf32, encode};
ghost use Rattle.wide_forms.specs.Items.{items};
ghost use Rattle.wide_forms.specs.Lossy.{lossy, lossy_by};
ghost use Rattle.widestring_c.specs.Buffers.{Wrote, WroteUnits};
ghost use Rattle.widestring_c.specs.Policies.{policy_of};

use crate::between::{FEW, MANY, put_recoded};
use crate::policies::policy_of;
use wide_forms::Policy;
use wide_from_units::lossy_prefix;
use wide_unit::Unit;

// Converts any units to units of another width at the start of the buffer, and replaces faults by the policy. Returns
// how many units the result has. `spare` and `chunk` are scratch arrays.
fn put_lossy_between<C: Unit, D: Unit>(
    units: &[C],
    policy: Policy,
    space: &mut [D],
    spare: &mut [C],
    chunk: &mut [D],
) -> usize
    requires units { 4 * length units.now < 2 ^ 64 - 1 }
    requires space { length space.old < 2 ^ 64 - 1 }
    requires spare { 2 ≤ length spare.old }
    requires chunk { 16 ≤ length chunk.old }
    ensures { WroteUnits D.number (encode D.form (lossy_by policy (items C.form (map C.number units.now)))) space.old result space.new }
{
    let mut at = 0;
    let mut rest = units;
    let mut is_after = false;
    'prefixes: while !rest.is_empty() {
        let prefix = lossy_prefix(rest, policy, is_after, spare);
        at = put_recoded(prefix.text, space, at, chunk);
        is_after = prefix.after_fault;
        rest = prefix.rest;
    }
    at
}

// Converts any UTF-16 to lossy UTF-32 at the start of the buffer, through arrays whose sizes fit the input.
fn put_lossy_scalars(units: &[u16], policy: Policy, scalars: &mut [u32]) -> usize
    ensures { Wrote (lossy_by policy (items Utf16 units.now)) scalars.old result scalars.new }
{
    if units.len() <= FEW {
        put_lossy_between(units, policy, scalars, &mut [0; FEW], &mut [0; FEW])
    } else {
        put_lossy_between(units, policy, scalars, &mut [0; MANY], &mut [0; MANY])
    }
}

// Converts any UTF-32 to lossy UTF-16 at the start of the buffer, through arrays whose sizes fit the input.
fn put_lossy_pairs(scalars: &[u32], policy: Policy, units: &mut [u16]) -> usize
    ensures { Wrote (encode Utf16 (lossy_by policy (items Utf32 scalars.now))) units.old result units.new }
{
    if scalars.len() <= FEW {
        put_lossy_between(scalars, policy, units, &mut [0; FEW], &mut [0; FEW])
    } else {
        put_lossy_between(scalars, policy, units, &mut [0; MANY], &mut [0; MANY])
    }
}

/// Converts any UTF-16 to UTF-32, and writes U+FFFD for each ill-formed unit. Returns how many units the result has. If
/// `scalars` is at least that long, the result is at its start, and the units after the result are unchanged.
#[unsafe(no_mangle)]
pub extern "C" fn wide_utf16_to_utf32_lossy(units: &[u16], scalars: &mut [u32]) -> usize
    ensures len { result ≡ length (lossy (items Utf16 units.now)) }
    ensures no_fault { result < 2 ^ 64 - 1 }
    ensures scalars { result ≤ length scalars.old → take result scalars.new ≡ lossy (items Utf16 units.now) }
    ensures beyond { drop result scalars.new ≡ drop result scalars.old }
{
    put_lossy_scalars(units, Policy::Each, scalars)
}

/// Converts any UTF-32 to UTF-16, and writes U+FFFD for each unit that is not a scalar value. Returns how many units
/// the result has. If `units` is at least that long, the result is at its start, and the units after the result are
/// unchanged.
#[unsafe(no_mangle)]
pub extern "C" fn wide_utf32_to_utf16_lossy(scalars: &[u32], units: &mut [u16]) -> usize
    ensures len { result ≡ length (encode Utf16 (lossy (items Utf32 scalars.now))) }
    ensures no_fault { result < 2 ^ 64 - 1 }
    ensures units { result ≤ length units.old → take result units.new ≡ encode Utf16 (lossy (items Utf32 scalars.now)) }
    ensures beyond { drop result units.new ≡ drop result units.old }
{
    put_lossy_pairs(scalars, Policy::Each, units)
}

/// Converts any UTF-16 to UTF-32, and replaces ill-formed units by the policy, whose number `widestring.h` defines.
///
/// Returns how many units the result has. If `scalars` is at least that long, the result is at its start, and the units
/// after the result are unchanged. For any other policy it returns `usize::MAX` and leaves `scalars` unchanged.
#[unsafe(no_mangle)]
pub extern "C" fn wide_utf16_to_utf32_lossy_with(
    units: &[u16],
    policy: u32,
    scalars: &mut [u32],
) -> usize
    ensures len { IfSome (policy_of policy) (λ p. result ≡ length (lossy_by p (items Utf16 units.now))) }
    ensures no_fault { IfSome (policy_of policy) (λ p. result < 2 ^ 64 - 1) }
    ensures scalars { IfSome (policy_of policy) (λ p. result ≤ length scalars.old → take result scalars.new ≡ lossy_by p (items Utf16 units.now)) }
    ensures other { IfNone (policy_of policy) (result ≡ 2 ^ 64 - 1) }
    ensures unchanged { IfNone (policy_of policy) (scalars.new ≡ scalars.old) }
    ensures beyond { drop result scalars.new ≡ drop result scalars.old }
{
    match policy_of(policy) {
        Some(policy) => put_lossy_scalars(units, policy, scalars),
        None => usize::MAX,
    }
}

/// Converts any UTF-32 to UTF-16, and replaces units that are not scalar values by the policy, whose number
/// `widestring.h` defines.
///
/// Returns how many units the result has. If `units` is at least that long, the result is at its start, and the units
/// after the result are unchanged. For any other policy it returns `usize::MAX` and leaves `units` unchanged.
#[unsafe(no_mangle)]
pub extern "C" fn wide_utf32_to_utf16_lossy_with(
    scalars: &[u32],
    policy: u32,
    units: &mut [u16],
) -> usize
    ensures len { IfSome (policy_of policy) (λ p. result ≡ length (encode Utf16 (lossy_by p (items Utf32 scalars.now)))) }
    ensures no_fault { IfSome (policy_of policy) (λ p. result < 2 ^ 64 - 1) }
    ensures units { IfSome (policy_of policy) (λ p. result ≤ length units.old → take result units.new ≡ encode Utf16 (lossy_by p (items Utf32 scalars.now))) }
    ensures other { IfNone (policy_of policy) (result ≡ 2 ^ 64 - 1) }
    ensures unchanged { IfNone (policy_of policy) (units.new ≡ units.old) }
    ensures beyond { drop result units.new ≡ drop result units.old }
{
    match policy_of(policy) {
        Some(policy) => put_lossy_pairs(scalars, policy, units),
        None => usize::MAX,
    }
}
