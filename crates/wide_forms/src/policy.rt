//! What lossy text contains for code units that belong to no character (Unicode Standard, section 3.9, "U+FFFD
//! Substitution of Maximal Subparts").
ghost use Rattle.std.specs.Prelude.{◌≡◌};
ghost use Rattle.wide_forms.specs.Lossy.{or_replacement, replacement};

/// What lossy text contains for faults, the units that belong to no character.
///
/// A U+FFFD of the text itself is a character, and is retained under each policy.
///
/// # Example
///
/// ```
/// let view = U16Str::from_slice(&[0x48, 0xd83d, 0xd83d, 0x69]);
/// let each = view.chars_lossy_with(Policy::Each);
/// assert!(rt; each.eq("H\u{fffd}\u{fffd}i".chars()));
/// assert!(rt; view.chars_lossy_with(Policy::Run).eq("H\u{fffd}i".chars()));
/// assert!(rt; view.chars_lossy_with(Policy::Skip).eq("Hi".chars()));
/// ```
#[derive(Clone, Copy, Debug, PartialEq, Eq)]
pub enum Policy {
    /// U+FFFD for each fault.
    Each,
    /// One U+FFFD for each longest run of adjacent faults.
    Run,
    /// Nothing.
    Skip,
}

/// Returns what lossy text under a policy has for a fault: U+FFFD, or nothing. If `after_fault` is true, another fault
/// directly precedes it.
#[inline(always)]
pub fn replacement(policy: Policy, after_fault: bool) -> Option<char>
    ensures { result ≡ replacement policy after_fault }
{
    let is_written = match policy {
        Policy::Each => true,
        Policy::Run => !after_fault,
        Policy::Skip => false,
    };
    if is_written {
        Some(char::REPLACEMENT_CHARACTER)
    } else {
        None
    }
}

/// Returns the character of an item, or U+FFFD if the item is a fault.
#[inline(always)]
pub fn or_replacement<E: Drop>(item: Result<char, E>) -> char
    ensures { result ≡ or_replacement item }
{
    item.unwrap_or(char::REPLACEMENT_CHARACTER)
}
