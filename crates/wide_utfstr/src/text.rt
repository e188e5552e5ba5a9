//! Conversion of well-formed views to UTF-8.
ghost use Rattle.std.specs.Prelude.{◌≡◌, [], IsOk, IfOk, string_bytes};
ghost use Rattle.wide_forms.specs.Utf8.{utf8};
ghost use Rattle.wide_utfstr.specs.View.{units_seen, text_seen};

use crate::view::UtfStr;
use std::alloc::Allocator;
use wide_error::OutOfMemory;
use wide_from_units::utf8_string;
use wide_unit::Unit;

impl<C: Unit> UtfStr<'_, C> {
    /// Encodes the text of the view as a UTF-8 string.
    ///
    /// It reads the units twice, vectorized, and allocates once, for as many bytes as the text has, or not at all if
    /// there are no units.
    ///
    /// # Errors
    ///
    /// [`OutOfMemory`] if the allocation fails. It never fails if there are no units.
    ///
    /// # Example
    ///
    /// ```
    /// let text = Utf16Str::from_slice(&[0xe9, 0xd83d, 0xde00])?;
    /// let text = text.to_string(rt.alloc())?;
    /// assert!(rt; text.as_str() == "é😀");
    /// ```
    pub fn to_string<A: Allocator>(self, alloc: A) -> Result<String<A>, OutOfMemory>
        ensures text { IfOk result (λ text. string_bytes text ≡ utf8 (text_seen self.entry)) }
        ensures succeeds { units_seen self.entry ≡ [] → IsOk result }
    {
        Ok(utf8_string(alloc, self.as_slice())?)
    }
}
