//! Occurrences of a needle that are replaced in place, by as many units as the needle has.
ghost use Rattle.std.specs.Prelude.{◌≡◌, ◌+◌, ◌≤◌, ◌++◌, length, map, take, drop};
ghost use Rattle.wide_search.specs.Cut.{substrings};
ghost use Rattle.wide_search.specs.Substrings.{joined_with};
ghost use Rattle.wide_ustr.specs.View.{units_seen, numbers_seen};
ghost use Rattle.wide_ustring.specs.Units.{ustring_len};

use crate::ustring::UString;
use std::alloc::Allocator;
use wide_search::find_from;
use wide_unit::Unit;
use wide_ustr::UStr;
use wide_utferror::FaultUnit;

// Writes units over those from an offset on.
fn put<C: Copy>(units: &mut [C], at: usize, with: &[C])
    requires { at + length with.now ≤ length units.old }
    ensures prefix { take (at + length with.now) units.new ≡ take at units.old ++ with.now }
    ensures beyond { drop (at + length with.now) units.new ≡ drop (at + length with.now) units.old }
    ensures len { length units.new ≡ length units.old }
{
    units[at..at + with.len()].copy_from_slice(with);
}

// Writes other units over each occurrence of the needle, each of which is the first one after the one before.
fn overwrite<C: Unit>(units: &mut [C], needle: &[C], with: &[C])
    requires { length with.now ≡ length needle.now }
    ensures units { map C.number units.new ≡ joined_with (map C.number with.now) (substrings (map C.number needle.now) (map C.number units.old)) }
    ensures len { length units.new ≡ length units.old }
{
    if needle.is_empty() {
        return;
    }
    let mut at = 0;
    while let Some(found) = find_from(units, needle, at) {
        put(units, found, with);
        at = found + needle.len();
    }
}

impl<C: FaultUnit, A: Allocator> UString<C, A> {
    /// Replaces each occurrence of the needle by units of the same number, in place. Each occurrence is the first one
    /// after the one before, so occurrences do not overlap. An empty needle replaces nothing. It does not allocate, and
    /// no other unit moves. The Rust crate has no such call.
    ///
    /// # Requires
    ///
    /// `with` has as many units as the needle. For other lengths `replace` of the view makes a new string.
    ///
    /// # Example
    ///
    /// ```
    /// let mut path = U16String::from_str(rt.alloc(), "C:/temp/é")?;
    /// let backslash = U16Str::from_slice(&[0x5c]);
    /// path.replace_with(U16Str::from_slice(&[0x2f]), backslash);
    /// assert!(rt; path.as_ustr().chars_lossy().eq("C:\\temp\\é".chars()));
    /// ```
    pub fn replace_with(&mut self, needle: UStr<'_, C>, with: UStr<'_, C>)
        requires { length (units_seen with) ≡ length (units_seen needle) }
        ensures units { map C.number self.new.units ≡ joined_with (numbers_seen C.number with.entry) (substrings (numbers_seen C.number needle.entry) (map C.number self.old.units)) }
        ensures len { ustring_len self.new ≡ ustring_len self.old }
        ensures capacity { self.new.capacity ≡ self.old.capacity }
    {
        overwrite(
            self.units.as_mut_slice(),
            needle.as_slice(),
            with.as_slice(),
        );
    }
}
