//! Occurrences of a needle that are replaced in place, by text of as many units as the needle has.
ghost use Rattle.std.specs.Prelude.{◌≡◌, length, map};
ghost use Rattle.wide_search.specs.Cut.{substrings};
ghost use Rattle.wide_search.specs.Substrings.{joined_with};
ghost use Rattle.wide_ustring.specs.Units.{ustring_len};
ghost use Rattle.wide_utfstr.specs.View.{units_seen, numbers_seen};

use crate::utfstring::UtfString;
use std::alloc::Allocator;
use wide_utferror::FaultUnit;
use wide_utfstr::UtfStr;

impl<C: FaultUnit, A: Allocator> UtfString<C, A> {
    /// Replaces each occurrence of the needle by text of as many units, in place. Each occurrence is the first one after
    /// the one before, so occurrences do not overlap. An empty needle replaces nothing. It does not allocate, and no
    /// other unit moves. The Rust crate has no such call.
    ///
    /// # Requires
    ///
    /// `with` has as many units as the needle. For other lengths `replace` of the view makes a new string.
    ///
    /// # Example
    ///
    /// ```
    /// let mut text = Utf16String::from_str(rt.alloc(), "a😀b😀")?;
    /// let smile = Utf16Str::from_slice(&[0xd83d, 0xde00])?;
    /// text.replace_with(smile, Utf16Str::from_slice(&[0xd83d, 0xde01])?);
    /// assert!(rt; text.as_utfstr().eq_str("a😁b😁"));
    /// ```
    pub fn replace_with(&mut self, needle: UtfStr<'_, C>, with: UtfStr<'_, C>)
        requires { length (units_seen with) ≡ length (units_seen needle) }
        ensures units { map C.number self.new.units ≡ joined_with (numbers_seen C.number with.entry) (substrings (numbers_seen C.number needle.entry) (map C.number self.old.units)) }
        ensures len { ustring_len self.new ≡ ustring_len self.old }
        ensures capacity { self.new.capacity ≡ self.old.capacity }
    {
        self.string.replace_with(needle.as_ustr(), with.as_ustr());
    }
}
