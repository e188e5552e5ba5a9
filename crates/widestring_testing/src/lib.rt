//! Test support: an allocator that fails on request, and devices that are slow or fail.
#![tactic(auto)]

mod devices;
pub mod limited;
mod sink;
mod source;

pub use devices::{next_seed, step_by};
pub use limited::Limited;
pub use sink::SlowSink;
pub use source::SlowSource;
use std::alloc::Global;

/// The heap, which grants as many requests as a test allows and then fails.
pub type Heap = Limited<Global>;
