//! Order of well-formed text by the code points of its characters.
ghost use Rattle.std.specs.Prelude.{◌≡◌};
ghost use Rattle.std.specs.Cmp.Lexicographic.{slice_cmp};
ghost use Rattle.std.specs.Ordering.{nat_cmp};
ghost use Rattle.std.specs.Str.{chars as str_chars};
ghost use Rattle.wide_utfstr.specs.View.{text_seen};

use crate::view::UtfStr;
use std::cmp::Ordering;
use wide_unit::Unit;

impl<C: Unit> UtfStr<'_, C> {
    /// Compares two texts by the code points of their characters, as UTF-8 and UTF-32 are ordered. `<` and `cmp`
    /// compare units, which in UTF-16 puts characters past U+FFFF, whose first unit is a surrogate, before U+E000 to
    /// U+FFFF.
    ///
    /// The prefix that both texts share is passed in SIMD lanes. Of what follows it, at most two characters of each are
    /// decoded.
    ///
    /// # Example
    ///
    /// ```
    /// use std::cmp::Ordering;
    ///
    /// let emoji = Utf16Str::from_slice(&[0x61, 0xd83d, 0xde00])?;
    /// let letter = Utf16Str::from_slice(&[0x61, 0xff21])?;
    /// assert!(rt; emoji < letter);
    /// assert!(rt; emoji.cmp_code_points(letter) == Ordering::Greater);
    /// ```
    pub fn cmp_code_points(self, other: UtfStr<'_, C>) -> Ordering
        ensures { result ≡ slice_cmp nat_cmp (text_seen self.entry) (text_seen other.entry) }
    {
        wide_unit::cmp_code_points(self.as_slice(), other.as_slice())
    }

    /// Compares the text with a `&str` by the code points of their characters, as two `&str` are compared. It reads both
    /// once, up to the first difference, and does not allocate.
    ///
    /// # Example
    ///
    /// ```
    /// use std::cmp::Ordering;
    ///
    /// let text = Utf16Str::from_slice(&[0x61, 0xd83d, 0xde00])?;
    /// assert!(rt; text.cmp_str("a😀") == Ordering::Equal);
    /// assert!(rt; text.cmp_str("aＡ") == Ordering::Greater);
    /// assert!(rt; text.cmp_str("a😀!") == Ordering::Less);
    /// ```
    pub fn cmp_str(self, text: &str) -> Ordering
        ensures { result ≡ slice_cmp nat_cmp (text_seen self.entry) (str_chars text.now) }
    {
        let mut theirs = text.chars();
        for c in self.chars() {
            match theirs.next() {
                None => return Ordering::Greater,
                Some(d) => {
                    if c != d {
                        return c.cmp(&d);
                    }
                }
            }
        }
        match theirs.next() {
            None => Ordering::Equal,
            Some(_) => Ordering::Less,
        }
    }
}
