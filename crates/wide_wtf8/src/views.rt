//! Calls of views of 16-bit units for their text in WTF-8.
ghost use Rattle.std.specs.Prelude.{◌≡◌, ℕ, List, ◌<◌, [], length, take, IsOk, IfOk, IfSome, IfNone};
ghost use Rattle.wide_schemes.specs.Wtf8.{wtf8};

use crate::encoding::{to_wtf8, write_wtf8};
use crate::length::wtf8_len;
use std::alloc::Allocator;
use wide_error::OutOfMemory;
use wide_ucstr::UCStr;
use wide_ustr::UStr;
use wide_utfstr::UtfStr;

/// Calls of a view of 16-bit units for its text in WTF-8, in which nothing is lost: well-formed parts are UTF-8
/// (Unicode Standard, D92), and a surrogate that belongs to no pair has the three bytes of its code point. So the text
/// of a well-formed view is UTF-8. The NUL of a C string is left out. The Rust crate has no such calls.
///
/// # Example
///
/// ```
/// use widestring::wtf8::ToWtf8;
///
/// let name = U16Str::from_slice(&[0x43, 0x3a, 0xd800]);
/// let text = name.to_wtf8(rt.alloc())?;
/// assert!(rt; text.as_slice() == [0x43, 0x3a, 0xed, 0xa0, 0x80].as_slice());
/// ```
pub trait ToWtf8: Copy {
    // The units of the view, without the NUL of a C string.
    ghost units_seen: { Self → List ℕ };

    /// Returns the length of the text in bytes. It reads the units once, vectorized.
    ///
    /// # Example
    ///
    /// ```
    /// use widestring::wtf8::ToWtf8;
    ///
    /// let text = Utf16Str::from_slice(&[0x48, 0x69, 0xd83d, 0xde00])?;
    /// assert!(rt; text.wtf8_len() == 6);
    /// ```
    fn wtf8_len(self) -> usize
        ensures { result ≡ length (wtf8 (units_seen self)) };

    /// Writes the text at the beginning of `out`, and returns its length in bytes, or `None` if `out` is shorter than
    /// the text. Bytes of `out` after the text may be overwritten, and any byte if `None` is returned.
    ///
    /// # Example
    ///
    /// ```
    /// use widestring::wtf8::ToWtf8;
    ///
    /// let mut out = [0; 4];
    /// let name = U16CStr::from_slice(&[0x41, 0xd800, 0])?;
    /// assert!(rt; name.write_wtf8(&mut out) == Some(4));
    /// assert!(rt; out.as_slice() == [0x41, 0xed, 0xa0, 0x80].as_slice());
    /// ```
    fn write_wtf8(self, out: &mut [u8]) -> Option<usize>
        ensures text { IfSome result (λ len. take len out.new ≡ wtf8 (units_seen self)) }
        ensures len { IfSome result (λ len. len ≡ length (wtf8 (units_seen self))) }
        ensures none { IfNone result (length out.old < length (wtf8 (units_seen self))) };

    /// Returns the text in a new vector. It allocates once, for just as many bytes as the text has, and not at all if
    /// there are no units.
    ///
    /// # Errors
    ///
    /// [`OutOfMemory`] if the allocation fails. It never fails if there are no units.
    ///
    /// # Example
    ///
    /// ```
    /// use widestring::wtf8::ToWtf8;
    ///
    /// let text = U16String::from_str(rt.alloc(), "é😀")?;
    /// let text = text.as_ustr().to_wtf8(rt.alloc())?;
    /// assert!(rt; text.as_slice() == "é😀".as_bytes());
    /// ```
    fn to_wtf8<A: Allocator>(self, alloc: A) -> Result<Vec<u8, A>, OutOfMemory>
        ensures text { IfOk result (λ text. text.items ≡ wtf8 (units_seen self)) }
        ensures succeeds { units_seen self ≡ [] → IsOk result };
}

impl ToWtf8 for UStr<'_, u16> {
    ghost use Rattle.wide_ustr.specs.View.{units_seen};

    ghost units_seen = { units_seen };

    fn wtf8_len(self) -> usize {
        wtf8_len(self.as_slice())
    }

    fn write_wtf8(self, out: &mut [u8]) -> Option<usize> {
        write_wtf8(self.as_slice(), out)
    }

    fn to_wtf8<A: Allocator>(self, alloc: A) -> Result<Vec<u8, A>, OutOfMemory> {
        to_wtf8(alloc, self.as_slice())
    }
}

impl ToWtf8 for UCStr<'_, u16> {
    ghost use Rattle.wide_ucstr.specs.View.{contents_seen};

    ghost units_seen = { λ view. contents_seen view };

    fn wtf8_len(self) -> usize {
        wtf8_len(self.as_slice())
    }

    fn write_wtf8(self, out: &mut [u8]) -> Option<usize> {
        write_wtf8(self.as_slice(), out)
    }

    fn to_wtf8<A: Allocator>(self, alloc: A) -> Result<Vec<u8, A>, OutOfMemory> {
        to_wtf8(alloc, self.as_slice())
    }
}

impl ToWtf8 for UtfStr<'_, u16> {
    ghost use Rattle.wide_utfstr.specs.View.{units_seen};

    ghost units_seen = { λ view. units_seen view };

    fn wtf8_len(self) -> usize {
        wtf8_len(self.as_slice())
    }

    fn write_wtf8(self, out: &mut [u8]) -> Option<usize> {
        write_wtf8(self.as_slice(), out)
    }

    fn to_wtf8<A: Allocator>(self, alloc: A) -> Result<Vec<u8, A>, OutOfMemory> {
        to_wtf8(alloc, self.as_slice())
    }
}
