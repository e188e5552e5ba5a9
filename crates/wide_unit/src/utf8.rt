//! Reads code points, and counts characters and UTF-16 units, from UTF-8 bytes.
ghost use Rattle.std.specs.Prelude.{◌≡◌, ◌<◌, ◌≤◌, ◌+◌, ◌*◌, ◌^◌, ◌%◌, length};
ghost use Rattle.std.specs.Option.{option_map};
ghost use Rattle.std.specs.Str.{chars};
ghost use Rattle.wide_forms.specs.EncodingForm.{Utf16, Utf32, encode};
ghost use Rattle.wide_forms.specs.CodePoint.{code_point_at};
ghost use Rattle.wide_unit.specs.LeadingByte.{begins, units_begun};
ghost use Rattle.std.specs.List.{sum_by};

// Appends the lowest six bits of one more byte to the bits of a code point.
#[inline]
fn with_byte(bits: u32, byte: u8) -> u32
    requires { bits < 2 ^ 26 }
    ensures { result ≡ bits * 2 ^ 6 + byte % 2 ^ 6 }
{
    bits * 0x40 + u32::from(byte % 0x40)
}

/// Returns the code point at the beginning of the bytes, and the bytes after it, by the layout of UTF-8 (Unicode
/// Standard, D92, Table 3-6). It does not check that the bytes are well formed.
///
/// The first byte determines how many bytes follow it: none below 80, one from C0 to DF, two from E0 to EF, and
/// otherwise three. The highest bits of the first byte and the two highest bits of each other byte are ignored. So for
/// the bytes of a text, it returns the first character and the rest. For other bytes, it can return a number that is no
/// character. It returns `None` if there are no bytes, or too few after the first.
#[inline]
pub fn next_code_point(bytes: &[u8]) -> Option<(u32, &[u8])>
    ensures { option_map (λ r. (r.0, r.1.now)) result ≡ code_point_at bytes.now }
{
    let (first, rest) = bytes.split_first()?;
    if *first < 0x80 {
        return Some((u32::from(*first), rest));
    }
    if 0xC0 <= *first && *first <= 0xDF {
        let (second, rest) = rest.split_first()?;
        return Some((with_byte(u32::from(*first % 0x20), *second), rest));
    }
    let (second, rest) = rest.split_first()?;
    let (third, rest) = rest.split_first()?;
    if 0xE0 <= *first && *first <= 0xEF {
        let bits = with_byte(u32::from(*first % 0x10), *second);
        return Some((with_byte(bits, *third), rest));
    }
    let (fourth, rest) = rest.split_first()?;
    let bits = with_byte(u32::from(*first % 0x8), *second);
    Some((with_byte(with_byte(bits, *third), *fourth), rest))
}

// Returns the number of UTF-16 units of the character that begins with this byte, or 0 for a continuation byte.
#[inline(always)]
fn units_begun(byte: u8) -> u8
    ensures value { result ≡ units_begun byte }
    ensures bound { result ≤ 2 }
{
    u8::from(byte < 0x80 || 0xC0 <= byte) + u8::from(0xF0 <= byte)
}

// How many bytes are counted in one step.
const BLOCK: usize = 64;

// What is counted in a text, byte by byte. The counter has the width of a byte, so the compiler vectorizes the loop.
trait Count {
    ghost use Rattle.std.specs.Prelude.{ℕ};

    // How many characters or units begin at a byte.
    ghost begun: { ℕ → ℕ };

    // Returns how many characters or units begin at some bytes.
    fn count(bytes: &[u8]) -> u8
        requires { length bytes.now ≤ 64 }
        ensures value { result ≡ sum_by begun bytes.now }
        ensures bound { result ≤ 2 * length bytes.now };
}

// Counts units of UTF-16.
struct Units;

impl Count for Units {
    ghost begun = { units_begun };

    #[inline(always)]
    fn count(bytes: &[u8]) -> u8 {
        let mut units = 0;
        for byte in bytes {
            units += units_begun(*byte);
        }
        units
    }
}

// Counts characters.
struct Characters;

impl Count for Characters {
    ghost begun = { λ byte. begins (units_begun byte) };

    #[inline(always)]
    fn count(bytes: &[u8]) -> u8 {
        let mut characters = 0;
        for byte in bytes {
            characters += u8::from(units_begun(*byte) != 0);
        }
        characters
    }
}

// Returns how many characters or units begin at all the bytes.
fn count_all<T: Count>(bytes: &[u8]) -> usize
    ensures { result ≡ sum_by T.begun bytes.now }
{
    let mut count = 0;
    let mut at = 0;
    'counted: while bytes.len() - at > BLOCK {
        count += usize::from(T::count(&bytes[at..at + BLOCK]));
        at += BLOCK;
    }
    count + usize::from(T::count(&bytes[at..]))
}

/// Returns the length of a text in units of UTF-16 (Unicode Standard, D91).
///
/// It reads the bytes once, in vectorized steps, and does not allocate.
///
/// # Example
///
/// ```
/// assert!(rt; length_as_utf16("a😀") == 3);
/// ```
pub fn length_as_utf16(text: &str) -> usize
    ensures { result ≡ length (encode Utf16 (chars text.now)) }
{
    count_all::<Units>(text.as_bytes())
}

/// Returns the length of a text in units of UTF-32, which is its number of characters (Unicode Standard, D90).
///
/// It reads the bytes once, in vectorized steps, and does not allocate.
///
/// # Example
///
/// ```
/// assert!(rt; length_as_utf32("a😀") == 2);
/// ```
pub fn length_as_utf32(text: &str) -> usize
    ensures units { result ≡ length (encode Utf32 (chars text.now)) }
    ensures characters { result ≡ length (chars text.now) }
{
    count_all::<Characters>(text.as_bytes())
}
