//! ASCII letters of strings in the other case, in place.
ghost use Rattle.std.specs.Prelude.{◌≡◌, map};
ghost use Rattle.std.specs.Char.{to_ascii_lowercase, to_ascii_uppercase};

use crate::ustring::UString;
use std::alloc::Allocator;
use wide_utferror::FaultUnit;

impl<C: FaultUnit, A: Allocator> UString<C, A> {
    /// Writes each upper-case ASCII letter in lower case. Every other unit is unchanged, and so is the capacity.
    ///
    /// # Example
    ///
    /// ```
    /// let mut text = U16String::from_str(rt.alloc(), "C:\\Temp")?;
    /// text.make_ascii_lowercase();
    /// assert!(rt; text.as_ustr().chars_lossy().eq("c:\\temp".chars()));
    /// ```
    pub fn make_ascii_lowercase(&mut self)
        ensures units { map C.number self.new.units ≡ map to_ascii_lowercase (map C.number self.old.units) }
        ensures capacity { self.new.capacity ≡ self.old.capacity }
    {
        wide_ascii::make_ascii_lowercase(self.units.as_mut_slice());
    }

    /// Writes each lower-case ASCII letter in upper case. Every other unit is unchanged, and so is the capacity.
    ///
    /// # Example
    ///
    /// ```
    /// let mut text = U16String::from_str(rt.alloc(), "Größe")?;
    /// text.make_ascii_uppercase();
    /// assert!(rt; text.as_ustr().chars_lossy().eq("GRößE".chars()));
    /// ```
    pub fn make_ascii_uppercase(&mut self)
        ensures units { map C.number self.new.units ≡ map to_ascii_uppercase (map C.number self.old.units) }
        ensures capacity { self.new.capacity ≡ self.old.capacity }
    {
        wide_ascii::make_ascii_uppercase(self.units.as_mut_slice());
    }
}
