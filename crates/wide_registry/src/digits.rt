//! Hexadecimal digits.

ghost use Rattle.std.specs.Prelude.{◌≡◌, ◌<◌, ◌≤◌, ◌^◌, ◌↔◌, IfSome, IsSome, length};
ghost use Rattle.std.specs.Char.{digit_value};
ghost use Rattle.wide_registry.specs.Digits.{IsHex, number};

// The most digits of a number.
const MOST_DIGITS: usize = 8;

// Returns the value of a hexadecimal digit.
fn digit(unit: u16) -> Option<u32>
    ensures some { IsSome result ↔ (digit_value unit < 16) }
    ensures value { IfSome result (λ digit. digit ≡ digit_value unit) }
{
    char::from_u32(u32::from(unit))?.to_digit(16)
}

// Returns the number of one to eight hexadecimal digits, or `None` if there are fewer, more or others.
pub fn number_of(digits: &[u16]) -> Option<u32>
    ensures some { IsSome result ↔ ((0 < length digits.now) × (length digits.now ≤ 8) × IsHex digits.now) }
    ensures value { IfSome result (λ value. value ≡ number digits.now) }
    ensures bound { IfSome result (λ value. value < 16 ^ length digits.now) }
{
    if digits.is_empty() || digits.len() > MOST_DIGITS {
        return None;
    }
    let mut value: u32 = 0;
    for unit in digits {
        value = value * 16 + digit(*unit)?;
    }
    Some(value)
}

/// Returns the byte of one or two hexadecimal digits, or `None` if there are none, more or others.
pub fn byte_of(digits: &[u16]) -> Option<u8>
    ensures some { IsSome result ↔ ((0 < length digits.now) × (length digits.now ≤ 2) × IsHex digits.now) }
    ensures value { IfSome result (λ value. value ≡ number digits.now) }
{
    if digits.len() > 2 {
        return None;
    }
    u8::try_from(number_of(digits)?).ok()
}
