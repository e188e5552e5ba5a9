//! C strings that are borrowed or owned.
ghost use Rattle.std.specs.Prelude.{◌≡◌, map, Ok, IfOk};
ghost use Rattle.wide_forms.specs.Texts.{debug_output};
ghost use Rattle.wide_ucstr.specs.View.{units_with_nul};
ghost use Rattle.wide_ucstring.specs.CowCString.{cow_units_with_nul, IfOwned};

use crate::ucstring::UCString;
use std::alloc::{Allocator, Global};
use std::fmt;
use wide_error::OutOfMemory;
use wide_ucstr::UCStr;
use wide_ustring::UStrInUstring;
use wide_utferror::FaultUnit;

/// A C string that is borrowed, or owned if it had to be made. It corresponds to `Cow<'_, U16CStr>` and `Cow<'_,
/// U32CStr>` in the Rust crate.
///
/// Compare two of them through their views, by [`CowUCStr::as_ucstr`]. `{:?}` prints the units with the NUL between
/// quotes, as [`char::escape_debug`] escapes them; a unit that belongs to no character is printed as `\<H>`, where `H`
/// is its number in upper-case hexadecimal, without leading zeros.
///
/// # Example
///
/// ```
/// let view = U16CStr::from_slice(&[0x48, 0x69, 0])?;
/// let name: CowU16CStr<'_> = CowU16CStr::Borrowed(view);
/// let owned = name.into_owned(rt.alloc())?;
/// assert!(rt; owned.as_ucstr() == view);
/// ```
#[derive(Drop)]
pub enum CowUCStr<'a, C: FaultUnit, A: Allocator = Global> {
    /// A view of units that something else owns.
    Borrowed(UCStr<'a, C>),
    /// A C string that this value owns.
    Owned(UCString<C, A>),
}

/// A C string of 16-bit units that is borrowed or owned.
pub type CowU16CStr<'a, A = Global> = CowUCStr<'a, u16, A>;

/// A C string of 32-bit units that is borrowed or owned.
pub type CowU32CStr<'a, A = Global> = CowUCStr<'a, u32, A>;

impl<'a, C: FaultUnit, A: Allocator> CowUCStr<'a, C, A> {
    /// Returns a view of the C string, without allocating.
    pub fn as_ucstr(&self) -> UCStr<'_, C>
        ensures { units_with_nul result ≡ cow_units_with_nul self.now }
    {
        match self {
            CowUCStr::Borrowed(view) => *view,
            CowUCStr::Owned(string) => string.as_ucstr(),
        }
    }

    /// Returns the C string as an owned one. An owned C string is returned as it is, with its capacity, without
    /// allocating. A borrowed one is copied with its NUL, which allocates once.
    ///
    /// # Errors
    ///
    /// [`OutOfMemory`] if the allocation for the copy fails.
    pub fn into_owned(self, alloc: A) -> Result<UCString<C, A>, OutOfMemory>
        ensures units { IfOk result (λ s. s.units ≡ cow_units_with_nul self.entry) }
        ensures owned { IfOwned self.entry (λ s. result ≡ Ok s) }
    {
        match self {
            CowUCStr::Borrowed(view) => {
                let string = view.as_ustr_with_nul().to_ustring(alloc)?;
                Ok(UCString { string })
            }
            CowUCStr::Owned(string) => Ok(string),
        }
    }
}

impl<C: FaultUnit, A: Allocator> fmt::Debug for CowUCStr<'_, C, A> {
    ghost debug_output = { λ s. debug_output C.form (map C.number (cow_units_with_nul s)) };

    fn fmt<W: fmt::Write>(&self, f: &mut fmt::Formatter<W>) -> fmt::Result {
        fmt::Debug::fmt(&self.as_ucstr(), f)
    }
}
