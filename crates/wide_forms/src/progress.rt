//! How far a conversion came: what conversions of a prefix return, in whatever direction.

/// How far a conversion of well-formed text came.
#[derive(Clone, Copy, Debug, PartialEq, Eq)]
pub struct Progress {
    /// How many elements were read: units, or bytes of UTF-8.
    pub read: usize,
    /// How many elements were written: units, or bytes of UTF-8.
    pub written: usize,
}

/// How far writing lossy text came.
///
/// # Example
///
/// ```
/// use widestring::unit::Unit;
///
/// let mut text = [0; 3];
/// let progress = u16::lossy_prefix(&[0x48, 0xd83d, 0xd83d], Policy::Run, false, &mut text);
/// assert!(rt; (progress.read, progress.written) == (3, 2));
/// assert!(rt; progress.after_fault);
/// ```
#[derive(Clone, Copy, Debug, PartialEq, Eq)]
pub struct LossyProgress {
    /// How many elements were read: units, or bytes of UTF-8.
    pub read: usize,
    /// How many units were written.
    pub written: usize,
    /// Whether a fault directly precedes what was not read.
    pub after_fault: bool,
}

/// How far a conversion of 16-bit units came that stops at a fault.
#[derive(Clone, Copy, Debug, PartialEq, Eq)]
pub struct StrictProgress {
    /// How many units were read.
    pub read: usize,
    /// The offset after the text that was written, in bytes.
    pub written: usize,
    /// The fault at which it stopped, or `None` if it stopped at no fault.
    pub fault: Option<u16>,
}
