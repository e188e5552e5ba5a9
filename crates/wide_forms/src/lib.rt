//! What code units of UTF-16 and UTF-32 mean. `specs/` has the definitions of the Unicode Standard, chapter 3, that the
//! whole library uses: encoding forms, the unique segmentation of a list of units into characters and faults, and
//! well-formed units. `specs/Laws/` has what follows from them.
#![tactic(auto)]

mod policy;
mod progress;
mod surrogates;

pub use policy::{Policy, or_replacement, replacement};
pub use progress::{LossyProgress, Progress, StrictProgress};
pub use surrogates::{
    HIGH_TOP, LOW_TOP, SURROGATE_TOP, is_high_surrogate, is_low_surrogate, is_no_scalar,
    is_surrogate,
};
