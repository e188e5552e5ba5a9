//! Steps that contracts count, to state how long a call takes at most. The program does nothing with them at run time.
//!
//! The crate `widestring` re-exports [`Steps`] alone.
#![tactic(auto)]

mod counting;
mod ticking;

pub use counting::Steps;
pub use ticking::tick;
