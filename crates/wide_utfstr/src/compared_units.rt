//! Comparison of well-formed text with units that may be ill-formed.
ghost use Rattle.std.specs.Prelude.{◌≡◌, ◌↔◌, List, IsTrue};
ghost use Rattle.wide_ustr.specs.View.{units_seen as ustr_units};
ghost use Rattle.wide_ucstr.specs.View.{contents_seen};
ghost use Rattle.wide_utfstr.specs.View.{units_seen};

use crate::view::UtfStr;
use wide_ucstr::UCStr;
use wide_unit::same_units;
use wide_ustr::UStr;
use wide_utferror::FaultUnit;

impl<C: FaultUnit> UtfStr<'_, C> {
    /// Returns whether both views have the same units. It stops at the first units that differ.
    pub fn eq_ustr(self, other: UStr<'_, C>) -> bool
        ensures { IsTrue result ↔ (units_seen self.entry ≡ ustr_units other.entry) }
    {
        same_units(self.as_slice(), other.as_slice())
    }

    /// Returns whether the units are the contents of the C string, without its NUL. It stops at the first units that
    /// differ.
    pub fn eq_ucstr(self, other: UCStr<'_, C>) -> bool
        ensures { IsTrue result ↔ (units_seen self.entry ≡ contents_seen other.entry) }
    {
        same_units(self.as_slice(), other.as_slice())
    }
}

/// Comparison of a view of units of the type `C` with well-formed text of the type `T`. It is in a trait because the
/// view's crate does not know well-formed text.
///
/// # Example
///
/// ```
/// use widestring::utfstr::UStrInUtfstr;
///
/// let text = Utf16Str::from_slice(&[0x48, 0x69])?;
/// assert!(rt; U16Str::from_slice(&[0x48, 0x69]).eq_utfstr(text));
/// assert!(rt; !U16Str::from_slice(&[0x48, 0xd83d]).eq_utfstr(text));
/// ```
pub trait UStrInUtfstr<C, T> {
    // The units of the view.
    ghost units: { Self → List C };

    // The units of the text.
    ghost text: { T → List C };

    /// Returns whether the view has the units of the text. It stops at the first units that differ.
    fn eq_utfstr(self, other: T) -> bool
        ensures { IsTrue result ↔ (units self ≡ text other) };
}

impl<'a, C: FaultUnit> UStrInUtfstr<C, UtfStr<'a, C>> for UStr<'_, C> {
    ghost units = { ustr_units };

    ghost text = { units_seen };

    fn eq_utfstr(self, other: UtfStr<'a, C>) -> bool {
        same_units(self.as_slice(), other.as_slice())
    }
}

/// Comparison of a view of a C string, of units of the type `C`, with well-formed text of the type `T`. It is in a
/// trait because the view's crate does not know well-formed text.
///
/// # Example
///
/// ```
/// use widestring::utfstr::UCStrInUtfstr;
///
/// let name = U16CStr::from_slice(&[0x48, 0x69, 0])?;
/// assert!(rt; name.eq_utfstr(Utf16Str::from_slice(&[0x48, 0x69])?));
/// ```
pub trait UCStrInUtfstr<C, T> {
    // The units before the NUL.
    ghost contents: { Self → List C };

    // The units of the text.
    ghost text: { T → List C };

    /// Returns whether the contents, without the NUL, are the units of the text. It stops at the first units that
    /// differ.
    fn eq_utfstr(self, other: T) -> bool
        ensures { IsTrue result ↔ (contents self ≡ text other) };
}

impl<'a, C: FaultUnit> UCStrInUtfstr<C, UtfStr<'a, C>> for UCStr<'_, C> {
    ghost contents = { contents_seen };

    ghost text = { units_seen };

    fn eq_utfstr(self, other: UtfStr<'a, C>) -> bool {
        same_units(self.as_slice(), other.as_slice())
    }
}
