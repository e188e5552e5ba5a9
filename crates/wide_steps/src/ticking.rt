//! Steps that are counted.
ghost use Rattle.std.specs.Prelude.{◌≡◌, ◌+◌};
ghost use Rattle.wide_steps.specs.Counted.{counted};

use crate::counting::Steps;

/// Adds steps to the counter: units that are read or may be read, or index entries that are moved.
pub fn tick(steps: &mut Steps, more: usize)
    ensures { counted steps.new ≡ counted steps.old + more }
{
    *steps = Steps::with(steps, &more);
}
