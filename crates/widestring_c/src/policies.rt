//! Policies, which C programs pass as numbers.
ghost use Rattle.std.specs.Prelude.{◌≡◌};
ghost use Rattle.widestring_c.specs.Policies.{policy_of};

use wide_forms::Policy;

// Returns the policy with this number, or `None` if there is none.
pub(crate) fn policy_of(number: u32) -> Option<Policy>
    ensures { result ≡ policy_of number }
{
    match number {
        0 => Some(Policy::Each),
        1 => Some(Policy::Run),
        2 => Some(Policy::Skip),
        _ => None,
    }
}
