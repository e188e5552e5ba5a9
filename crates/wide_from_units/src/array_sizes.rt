//! The sizes of the arrays on the stack in which UTF-8 is made before it is copied to where it belongs: three bytes for
//! each unit, and four more that the conversion may overwrite. An array is filled with zeros first, so a small one
//! takes less time for few units.

/// The most units whose text is made in an array of `SMALL` bytes.
pub const SMALL_UNITS: usize = 32;

/// The size of the array for at most `SMALL_UNITS` units, in bytes.
pub const SMALL: usize = 3 * SMALL_UNITS + 4;

/// The most units whose text is made in an array of `MIDDLE` bytes.
pub const MIDDLE_UNITS: usize = 256;

/// The size of the array for at most `MIDDLE_UNITS` units, in bytes.
pub const MIDDLE: usize = 3 * MIDDLE_UNITS + 4;

/// The size of the array for more than `MIDDLE_UNITS` units, in bytes. Their text is made in chunks of at most 1,032
/// units.
pub const LARGE: usize = 3 * 1032 + 4;

/// The size of the array for repaired units, in units.
pub const SPARE: usize = 256;
