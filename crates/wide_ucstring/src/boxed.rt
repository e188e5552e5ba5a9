//! C strings in an allocation of exactly their length, which does not grow.
ghost use Rattle.std.specs.Prelude.{◌≡◌, ◌<◌, ◌≤◌, length, map, IsOk, IfOk, IfErr};
ghost use Rattle.wide_forms.specs.Texts.{debug_output};
ghost use Rattle.wide_ustring.specs.Units.{ustring_len};
ghost use Rattle.wide_ucstr.specs.View.{units_with_nul};

use crate::ucstring::UCString;
use std::alloc::{Allocator, Global};
use std::fmt;
use std::marker::Model;
use wide_ucstr::UCStr;
use wide_ustring::BoxedUStr;
use wide_utferror::FaultUnit;

/// A C string in an allocation of exactly its length, which does not grow. It corresponds to `Box<U16CStr>` and
/// `Box<U32CStr>` in the Rust crate. Its type guarantees that the last unit is a NUL, and the only one.
///
/// Compare two of them through their views, by [`BoxedUCStr::as_ucstr`]. `{:?}` prints the units with the NUL between
/// quotes, as [`char::escape_debug`] escapes them; a unit that belongs to no character is printed as `\<H>`, where `H`
/// is its number in upper-case hexadecimal, without leading zeros.
///
/// # Example
///
/// ```
/// let name = U16CString::from_str(rt.alloc(), "Hi")?;
/// let Ok(boxed) = name.into_boxed_ucstr() else {
///     return Err(OutOfMemory.into());
/// };
/// assert!(rt; boxed.as_ucstr().as_slice_with_nul() == [0x48, 0x69, 0].as_slice());
/// ```
#[derive(Drop)]
pub struct BoxedUCStr<C: FaultUnit, A: Allocator = Global> {
    units: BoxedUStr<C, A>,
}

/// A C string of 16-bit units in an allocation of exactly its length.
pub type BoxedU16CStr<A = Global> = BoxedUCStr<u16, A>;

/// A C string of 32-bit units in an allocation of exactly its length.
pub type BoxedU32CStr<A = Global> = BoxedUCStr<u32, A>;

impl<C: FaultUnit, A: Allocator> Model for BoxedUCStr<C, A> {
    ghost use Rattle.std.specs.Prelude.{List, map};
    ghost use Rattle.std.specs.Coded.{coded_list};
    ghost use Rattle.wide_ucstr.specs.CString.{IsCString};

    ghost Value = { List C };

    ghost coded = { coded_list C.code };

    ghost view = { λ s. s.units };

    ghost invariant = { λ s. IsCString (map C.number s.units) };
}

impl<C: FaultUnit, A: Allocator> BoxedUCStr<C, A> {
    /// Returns a view of the C string, without allocating.
    pub fn as_ucstr(&self) -> UCStr<'_, C>
        ensures { units_with_nul result ≡ self.now }
    {
        UCStr::from_slice_unchecked(self.units.as_ustr().as_slice())
    }

    /// Returns the C string in the same allocation, whose capacity is its length with the NUL. It does not allocate.
    pub fn into_ucstring(self) -> UCString<C, A>
        ensures units { result.units ≡ self }
        ensures capacity { result.capacity ≡ length self }
    {
        let BoxedUCStr { units } = self;
        UCString {
            string: units.into_ustring(),
        }
    }
}

impl<C: FaultUnit, A: Allocator> UCString<C, A> {
    /// Returns the C string, with its NUL, in an allocation of exactly its length. It shrinks the string's allocation;
    /// it does not ask for memory if the string has no spare capacity.
    ///
    /// # Errors
    ///
    /// The C string, with its units, if the allocation could not be shrunk to the length. It still has spare capacity,
    /// and no more capacity than before.
    pub fn into_boxed_ucstr(self) -> Result<BoxedUCStr<C, A>, Self>
        ensures units { IfOk result (λ boxed. boxed ≡ self.units) }
        ensures failed { IfErr result (λ s. s.units ≡ self.units) }
        ensures space { IfErr result (λ s. s.capacity ≤ self.capacity) }
        ensures spare { IfErr result (λ s. ustring_len s < s.capacity) }
        ensures succeeds { self.capacity ≤ ustring_len self → IsOk result }
    {
        let UCString { string } = self;
        match string.into_boxed_ustr() {
            Ok(units) => Ok(BoxedUCStr { units }),
            Err(string) => Err(UCString { string }),
        }
    }
}

impl<C: FaultUnit, A: Allocator> fmt::Debug for BoxedUCStr<C, A> {
    ghost debug_output = { λ s. debug_output C.form (map C.number s) };

    fn fmt<W: fmt::Write>(&self, f: &mut fmt::Formatter<W>) -> fmt::Result {
        fmt::Debug::fmt(&self.as_ucstr(), f)
    }
}
