//! Lossy text of units of either width, prefix by prefix: what lossy text in UTF-8, in a string or in a buffer of the
//! caller is made of. It follows the Unicode Standard, section 3.9, "U+FFFD Substitution of Maximal Subparts". Checking
//! units is vectorized, and so is repairing UTF-16.

ghost use Rattle.std.specs.Prelude.{◌≡◌, ◌++◌, ◌+◌, ◌<◌, ◌≤◌, false, length, map};
ghost use Rattle.wide_forms.specs.Items.{IsWellFormed, chars, items};
ghost use Rattle.wide_forms.specs.Lossy.{ends_in_fault, lossy_after};

use wide_forms::Policy;
use wide_unit::{Unit, valid_len};

// Fewer well-formed units than this are not passed on as they are, but copied with the units that are repaired: that
// takes less time than a search for the next fault.
const FEW: usize = 64;

/// The lossy text of a prefix of some units, and the units after the prefix.
#[derive(Clone, Copy)]
pub struct LossyPrefix<'t, 'u, C> {
    /// The lossy text of the prefix, as well-formed units.
    pub text: &'t [C],
    /// The units after the prefix.
    pub rest: &'u [C],
    /// Whether a fault directly precedes the units after the prefix.
    pub after_fault: bool,
}

/// Returns whether a fault was read last, if `len` units or bytes that belong to characters were read after the state
/// `after_fault`: that state if `len` is 0, and otherwise false.
#[inline(always)]
pub fn is_after_fault(after_fault: bool, len: usize) -> bool
    ensures same { len ≡ 0 → result ≡ after_fault }
    ensures other { 1 ≤ len → result ≡ false }
{
    after_fault && len == 0
}

/// Makes the lossy text of a prefix of the units under a policy (Unicode Standard, section 3.9, "U+FFFD Substitution of
/// Maximal Subparts"), as well-formed units. `after_fault` says whether a fault directly precedes the units. It reads
/// at least one unit if there is any.
///
/// If many well-formed units precede the first fault, or the end, these are the prefix and the text, which is not
/// copied. Otherwise the text is written into `spare`, and the prefix has at most as many units as that.
///
/// # Requires
///
/// `spare` has at least two units.
pub fn lossy_prefix<'u: 'm, 'm, C: Unit>(
    units: &'u [C],
    policy: Policy,
    after_fault: bool,
    spare: &'m mut [C],
) -> LossyPrefix<'m, 'u, C>
    requires { 2 ≤ length spare.old }
    ensures well_formed { IsWellFormed C.form (map C.number result.text.now) }
    ensures text { lossy_after policy after_fault (items C.form (map C.number units.now)) ≡ chars C.form (map C.number result.text.now) ++ lossy_after policy result.after_fault (items C.form (map C.number result.rest.now)) }
    ensures state { ends_in_fault after_fault (items C.form (map C.number units.now)) ≡ ends_in_fault result.after_fault (items C.form (map C.number result.rest.now)) }
    ensures shorter { 0 < length units.now → length result.rest.now < length units.now }
    ensures few { length result.text.now + length result.rest.now ≤ length units.now }
{
    if units.len() >= FEW {
        let valid = valid_len(units);
        if valid >= FEW {
            let (text, rest) = units.split_at(valid);
            return LossyPrefix {
                text,
                rest,
                after_fault: false,
            };
        }
    }
    let progress = C::lossy_prefix(units, policy, after_fault, spare);
    let (_prefix, rest) = units.split_at(progress.read);
    LossyPrefix {
        text: &spare[..progress.written],
        rest,
        after_fault: progress.after_fault,
    }
}
