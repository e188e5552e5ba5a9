//! Whether a unit is a surrogate, and of which kind (Unicode Standard, section 3.8, D72 and D74), or no scalar value
//! (section 3.9, D76). The test of a 16-bit unit is one comparison of its upper bits, which the compiler vectorizes in
//! a loop.
ghost use Rattle.std.specs.Prelude.{◌≡◌};
ghost use Rattle.wide_forms.specs.Searches.{is_high, is_low, is_no_scalar, is_surrogate};

/// The upper six bits of a high surrogate, D800 to DBFF.
pub const HIGH_TOP: u16 = 0xd800 / 0x400;

/// The upper six bits of a low surrogate, DC00 to DFFF.
pub const LOW_TOP: u16 = 0xdc00 / 0x400;

/// The upper five bits of a surrogate of either kind, D800 to DFFF.
pub const SURROGATE_TOP: u16 = 0xd800 / 0x800;

/// Returns whether the unit is a high surrogate, D800 to DBFF.
#[inline(always)]
pub fn is_high_surrogate(unit: u16) -> bool
    ensures { result ≡ is_high unit }
{
    unit / 0x400 == HIGH_TOP
}

/// Returns whether the unit is a low surrogate, DC00 to DFFF.
#[inline(always)]
pub fn is_low_surrogate(unit: u16) -> bool
    ensures { result ≡ is_low unit }
{
    unit / 0x400 == LOW_TOP
}

/// Returns whether the unit is a surrogate of either kind, D800 to DFFF.
#[inline(always)]
pub fn is_surrogate(unit: u16) -> bool
    ensures { result ≡ is_surrogate unit }
{
    unit / 0x800 == SURROGATE_TOP
}

/// Returns whether the unit is no Unicode scalar value: whether it is a surrogate, or greater than 10FFFF.
#[inline(always)]
pub fn is_no_scalar(unit: u32) -> bool
    ensures { result ≡ is_no_scalar unit }
{
    (0xd800 <= unit && unit <= 0xdfff) || 0x10_ffff < unit
}
