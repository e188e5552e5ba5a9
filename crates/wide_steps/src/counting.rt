//! A ghost counter of steps, for contracts only.
ghost use Rattle.std.specs.Prelude.{◌≡◌, ℕ, ◌+◌};

use std::marker::Model;

/// The number of code units that were read, and of index entries that were moved, without an upper bound. Only
/// contracts can see it. It takes no bytes, and the program does nothing with it at run time.
///
/// # Example
///
/// ```
/// let text = Utf16String::from_str(rt.alloc(), "a😀b")?;
/// let Ok(marked) = Marked16::new(rt.alloc(), text) else {
///     return Err(OutOfMemory.into());
/// };
/// let mut steps = Steps::new();
/// assert!(rt; marked.unit_offset(2, &mut steps) == Some(3));
/// ```
#[derive(Drop)]
pub struct Steps {
    ghost count: { ℕ },
}

impl Model for Steps {
    ghost use Rattle.std.specs.Borrow.{ftrue};

    ghost also_owns = { λ _. ftrue };
}

impl Steps {
    ghost use Rattle.wide_steps.specs.Counted.{counted};

    /// Creates a counter of zero steps.
    pub fn new() -> Self
        ensures { counted result ≡ 0 }
    {
        Steps {}
    }

    // Returns the counter `_before` with `_more` steps added.
    pub(crate) fn with(_before: &Steps, _more: &usize) -> Self
        ensures { counted result ≡ counted _before.now + _more.now }
    {
        Steps {}
    }
}
