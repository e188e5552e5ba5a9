//! Comparison of well-formed text with text of other types.
ghost use Rattle.std.specs.Prelude.{◌≡◌, ◌↔◌, IsTrue};
ghost use Rattle.std.specs.Str.{chars as str_chars};
ghost use Rattle.wide_utfstr.specs.View.{text_seen};

use crate::view::{Utf16Str, Utf32Str, UtfStr};
use wide_forms::Progress;
use wide_from_units::{between_forms_prefix, to_utf8_prefix};
use wide_unit::Unit;

// The most bytes, or scalar values, that are compared in one step.
const CHUNK: usize = 256;

// Returns whether two texts have the same characters. In UTF-32 the units are the characters.
fn same_text(narrow: Utf16Str<'_>, wide: Utf32Str<'_>) -> bool
    ensures { IsTrue result ↔ (text_seen narrow.entry ≡ text_seen wide.entry) }
{
    let mut chunk = [0; CHUNK];
    let mut units = narrow.as_slice();
    let mut scalars = wide.as_slice();
    'chunks: while !units.is_empty() {
        let Progress { read, written } = between_forms_prefix(units, &mut chunk);
        let Some(rest) = scalars.strip_prefix(&chunk[..written]) else {
            return false;
        };
        (_, units) = units.split_at(read);
        scalars = rest;
    }
    scalars.is_empty()
}

impl<C: Unit> UtfStr<'_, C> {
    /// Returns whether the view has the same characters as the `str`. It reads both once, chunk by chunk, until two
    /// chunks differ.
    ///
    /// # Example
    ///
    /// ```
    /// let text = Utf16Str::from_slice(&[0x64, 0xe9, 0x6a, 0xe0])?;
    /// assert!(rt; text.eq_str("déjà"));
    /// assert!(rt; !text.eq_str("de\u{301}ja\u{300}"));
    /// ```
    pub fn eq_str(self, text: &str) -> bool
        ensures { IsTrue result ↔ (text_seen self.entry ≡ str_chars text.now) }
    {
        let mut chunk = [0; CHUNK];
        let mut ours = self.as_slice();
        let mut theirs = text.as_bytes();
        'chunks: while !ours.is_empty() {
            let Progress { read, written } = to_utf8_prefix(ours, &mut chunk);
            let Some(rest) = theirs.strip_prefix(&chunk[..written]) else {
                return false;
            };
            (_, ours) = ours.split_at(read);
            theirs = rest;
        }
        theirs.is_empty()
    }
}

impl UtfStr<'_, u16> {
    /// Returns whether the view has the same characters as the UTF-32 text. It reads both once, chunk by chunk, until
    /// two chunks differ.
    pub fn eq_utf32(self, other: Utf32Str<'_>) -> bool
        ensures { IsTrue result ↔ (text_seen self.entry ≡ text_seen other.entry) }
    {
        same_text(self, other)
    }
}

impl UtfStr<'_, u32> {
    /// Returns whether the view has the same characters as the UTF-16 text. It reads both once, chunk by chunk, until
    /// two chunks differ.
    pub fn eq_utf16(self, other: Utf16Str<'_>) -> bool
        ensures { IsTrue result ↔ (text_seen self.entry ≡ text_seen other.entry) }
    {
        same_text(other, self)
    }

    /// Returns whether the view has the same characters as the slice. It reads both once, until two characters differ.
    pub fn eq_chars(self, chars: &[char]) -> bool
        ensures { IsTrue result ↔ (text_seen self.entry ≡ chars.now) }
    {
        let mut ours = self.chars();
        for c in chars {
            if ours.next() != Some(*c) {
                return false;
            }
        }
        ours.next().is_none()
    }
}
