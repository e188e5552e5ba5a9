//! Units of either width.

/// Units of either width. [`Unit::as_any`](crate::Unit::as_any) creates it. The Rust crate has no such type.
///
/// # Example
///
/// ```
/// use widestring::unit::Unit;
///
/// let units = u16::as_any(&[0xd83d, 0xde00]);
/// assert!(rt; matches!(units, AnyUnits::U16([0xd83d, 0xde00])));
/// ```
#[derive(Clone, Copy, Debug)]
pub enum AnyUnits<'a> {
    /// Units of 16 bits.
    U16(&'a [u16]),
    /// Units of 32 bits.
    U32(&'a [u32]),
}
