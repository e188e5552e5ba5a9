//! ASCII letters of C strings in the other case, in place.
ghost use Rattle.std.specs.Prelude.{◌≡◌, map};
ghost use Rattle.std.specs.Char.{to_ascii_lowercase, to_ascii_uppercase};
ghost use Rattle.wide_ucstr.specs.CString.{contents};

use crate::ucstring::UCString;
use std::alloc::Allocator;
use wide_utferror::FaultUnit;

impl<C: FaultUnit, A: Allocator> UCString<C, A> {
    /// Writes each upper-case ASCII letter in lower case. Every other unit is unchanged, and so is the capacity.
    ///
    /// # Example
    ///
    /// ```
    /// let mut text = U16CString::from_str(rt.alloc(), "C:\\Temp")?;
    /// text.make_ascii_lowercase();
    /// assert!(rt; text.as_ucstr().chars_lossy().eq("c:\\temp".chars()));
    /// ```
    pub fn make_ascii_lowercase(&mut self)
        ensures units { map C.number self.new.units ≡ map to_ascii_lowercase (map C.number self.old.units) }
        ensures contents { map C.number (contents self.new.units) ≡ map to_ascii_lowercase (map C.number (contents self.old.units)) }
        ensures capacity { self.new.capacity ≡ self.old.capacity }
    {
        self.string.make_ascii_lowercase();
    }

    /// Writes each lower-case ASCII letter in upper case. Every other unit is unchanged, and so is the capacity.
    ///
    /// # Example
    ///
    /// ```
    /// let mut text = U16CString::from_str(rt.alloc(), "Größe")?;
    /// text.make_ascii_uppercase();
    /// assert!(rt; text.as_ucstr().chars_lossy().eq("GRößE".chars()));
    /// ```
    pub fn make_ascii_uppercase(&mut self)
        ensures units { map C.number self.new.units ≡ map to_ascii_uppercase (map C.number self.old.units) }
        ensures contents { map C.number (contents self.new.units) ≡ map to_ascii_uppercase (map C.number (contents self.old.units)) }
        ensures capacity { self.new.capacity ≡ self.old.capacity }
    {
        self.string.make_ascii_uppercase();
    }
}
