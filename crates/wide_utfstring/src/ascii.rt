//! ASCII letters of well-formed strings in the other case, in place.
ghost use Rattle.std.specs.Prelude.{◌≡◌, map};
ghost use Rattle.std.specs.Char.{to_ascii_lowercase, to_ascii_uppercase};
ghost use Rattle.wide_forms.specs.Offsets.{text_of};

use crate::utfstring::UtfString;
use std::alloc::Allocator;
use wide_utferror::FaultUnit;

impl<C: FaultUnit, A: Allocator> UtfString<C, A> {
    /// Writes each upper-case ASCII letter in lower case. Every other character is unchanged, and so is the capacity.
    ///
    /// # Example
    ///
    /// ```
    /// let mut text = Utf16String::from_str(rt.alloc(), "C:\\Temp")?;
    /// text.make_ascii_lowercase();
    /// assert!(rt; text.as_utfstr().eq_str("c:\\temp"));
    /// ```
    pub fn make_ascii_lowercase(&mut self)
        ensures text { text_of C.form C.number self.new.units ≡ map to_ascii_lowercase (text_of C.form C.number self.old.units) }
        ensures units { map C.number self.new.units ≡ map to_ascii_lowercase (map C.number self.old.units) }
        ensures capacity { self.new.capacity ≡ self.old.capacity }
    {
        self.string.make_ascii_lowercase();
    }

    /// Writes each lower-case ASCII letter in upper case. Every other character is unchanged, and so is the capacity.
    ///
    /// # Example
    ///
    /// ```
    /// let mut text = Utf16String::from_str(rt.alloc(), "Größe")?;
    /// text.make_ascii_uppercase();
    /// assert!(rt; text.as_utfstr().eq_str("GRößE"));
    /// ```
    pub fn make_ascii_uppercase(&mut self)
        ensures text { text_of C.form C.number self.new.units ≡ map to_ascii_uppercase (text_of C.form C.number self.old.units) }
        ensures units { map C.number self.new.units ≡ map to_ascii_uppercase (map C.number self.old.units) }
        ensures capacity { self.new.capacity ≡ self.old.capacity }
    {
        self.string.make_ascii_uppercase();
    }
}
