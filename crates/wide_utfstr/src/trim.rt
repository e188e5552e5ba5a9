//! Removal of White_Space at the ends of well-formed text.
ghost use Rattle.wide_utfstr.specs.View.{units_seen, text_seen};
ghost use Rattle.wide_utfstr.specs.Trim.{IsTrimmedStart, IsTrimmedEnd, IsTrimmed, IsBackOf, IsPrefixOf, IsMiddleOf};

use crate::view::UtfStr;
use wide_unit::Unit;

impl<C: Unit> UtfStr<'_, C> {
    /// Returns a view of the text after its longest prefix of White_Space characters (Unicode Character Database). It
    /// is empty if all characters are White_Space. It reads that prefix and one more character.
    ///
    /// # Example
    ///
    /// ```
    /// let text = Utf16Str::from_slice(&[0x3000, 0x20, 0xe9, 0x20])?;
    /// let rest = text.trim_start();
    /// assert!(rt; rest.eq_str("é "));
    /// ```
    pub fn trim_start(self) -> Self
        ensures trimmed { IsTrimmedStart (text_seen self.entry) (text_seen result) }
        ensures part { IsBackOf (units_seen self.entry) (units_seen result) }
    {
        let mut rest = self;
        while let Some((c, others)) = rest.split_first_char() {
            if !c.is_whitespace() {
                return rest;
            }
            rest = others;
        }
        rest
    }

    /// Returns a view of the text before its longest suffix of White_Space characters (Unicode Character Database). It
    /// is empty if all characters are White_Space. It reads that suffix and one more character.
    ///
    /// # Example
    ///
    /// ```
    /// let text = Utf16Str::from_slice(&[0x20, 0xd83d, 0xde00, 0xd, 0xa])?;
    /// let line = text.trim_end();
    /// assert!(rt; line.eq_str(" 😀"));
    /// ```
    pub fn trim_end(self) -> Self
        ensures trimmed { IsTrimmedEnd (text_seen self.entry) (text_seen result) }
        ensures part { IsPrefixOf (units_seen self.entry) (units_seen result) }
    {
        let mut rest = self;
        while let Some((others, c)) = rest.split_last_char() {
            if !c.is_whitespace() {
                return rest;
            }
            rest = others;
        }
        rest
    }

    /// Returns a view of the text without its longest prefix and its longest suffix of White_Space characters (Unicode
    /// Character Database). It is empty if all characters are White_Space.
    ///
    /// # Example
    ///
    /// ```
    /// let text = Utf16Str::from_slice(&[0x3000, 0x48, 0x69, 0x20, 0xa])?;
    /// assert!(rt; text.trim().eq_str("Hi"));
    /// ```
    pub fn trim(self) -> Self
        ensures trimmed { IsTrimmed (text_seen self.entry) (text_seen result) }
        ensures part { IsMiddleOf (units_seen self.entry) (units_seen result) }
    {
        self.trim_start().trim_end()
    }
}
