//! Occurrences that are replaced in views of well-formed text.
ghost use Rattle.std.specs.Prelude.{◌≡◌, [], map, IsOk, IfOk};
ghost use Rattle.wide_search.specs.Cut.{substrings};
ghost use Rattle.wide_search.specs.Substrings.{joined_with};
ghost use Rattle.wide_replace.specs.Replaced.{joined_first};

use crate::replaced::replaced_first;
use std::alloc::Allocator;
use wide_error::OutOfMemory;
use wide_ustr::NeedleView;
use wide_utferror::FaultUnit;
use wide_utfstr::UtfStr;
use wide_utfstring::UtfString;

/// Calls of a view of well-formed text that make a string with occurrences of a needle replaced. The needle is a text
/// or a character. They are in a trait because the view's crate does not know owned strings. The Rust crate has no such
/// calls.
///
/// # Example
///
/// ```
/// use widestring::replace::UtfStrReplace;
///
/// let text = Utf16Str::from_slice(&[0x61, 0x2c, 0x62])?;
/// let comma = Utf16Str::from_slice(&[0x2c])?;
/// let nothing = Utf16Str::from_slice(&[])?;
/// let text = text.replace(rt.alloc(), comma, nothing)?;
/// assert!(rt; text.as_utfstr().eq_str("ab"));
/// ```
pub trait UtfStrReplace<C: FaultUnit, P>: NeedleView<P> {
    /// Replaces each occurrence of the needle, in a new string. Each occurrence is the first one after the one before,
    /// so occurrences do not overlap. If the needle does not occur, or is empty, the string is a copy.
    ///
    /// It searches twice, the first time for the length of the result, and allocates once, for just that length, or not
    /// at all if the result is empty.
    ///
    /// # Errors
    ///
    /// [`OutOfMemory`] if the allocation fails, or if the length of the result exceeds `usize::MAX`. It never fails if
    /// the result is empty.
    ///
    /// # Example
    ///
    /// ```
    /// use widestring::replace::UtfStrReplace;
    ///
    /// let text = Utf16String::from_str(rt.alloc(), "a😀b😀")?;
    /// let with = Utf16String::from_str(rt.alloc(), ":)")?;
    /// let text = text.as_utfstr().replace(rt.alloc(), '😀', with.as_utfstr())?;
    /// assert!(rt; text.as_utfstr().eq_str("a:)b:)"));
    /// ```
    fn replace<A: Allocator>(
        self,
        alloc: A,
        needle: P,
        with: Self,
    ) -> Result<UtfString<C, A>, OutOfMemory>
        ensures units { IfOk result (λ s. map C.number s.units ≡ joined_with (Self.numbers_seen with) (substrings (Self.needle_numbers needle) (Self.numbers_seen self))) }
        ensures succeeds { joined_with (Self.numbers_seen with) (substrings (Self.needle_numbers needle) (Self.numbers_seen self)) ≡ [] → IsOk result };

    /// Replaces the first `count` occurrences of the needle, in a new string. Each occurrence is the first one after
    /// the one before, so occurrences do not overlap. If `count` is 0, or the needle does not occur or is empty, the
    /// string is a copy. It searches twice, the first time for the length of the result, and allocates once, for just
    /// that length, or not at all if the result is empty.
    ///
    /// # Errors
    ///
    /// [`OutOfMemory`] if the allocation fails, or if the length of the result exceeds `usize::MAX`. It never fails if
    /// the result is empty.
    ///
    /// # Example
    ///
    /// ```
    /// use widestring::replace::UtfStrReplace;
    ///
    /// let path = Utf16String::from_str(rt.alloc(), "C:/temp/é")?;
    /// let with = Utf16String::from_str(rt.alloc(), "\\")?;
    /// let path = path
    ///     .as_utfstr()
    ///     .replacen(rt.alloc(), '/', with.as_utfstr(), 1)?;
    /// assert!(rt; path.as_utfstr().eq_str("C:\\temp/é"));
    /// ```
    fn replacen<A: Allocator>(
        self,
        alloc: A,
        needle: P,
        with: Self,
        count: usize,
    ) -> Result<UtfString<C, A>, OutOfMemory>
        ensures units { IfOk result (λ s. map C.number s.units ≡ joined_first count (Self.numbers_seen with) (Self.needle_numbers needle) (substrings (Self.needle_numbers needle) (Self.numbers_seen self))) }
        ensures succeeds { joined_first count (Self.numbers_seen with) (Self.needle_numbers needle) (substrings (Self.needle_numbers needle) (Self.numbers_seen self)) ≡ [] → IsOk result };
}

impl<'p, C: FaultUnit> UtfStrReplace<C, UtfStr<'p, C>> for UtfStr<'_, C> {
    fn replace<A: Allocator>(
        self,
        alloc: A,
        needle: UtfStr<'p, C>,
        with: Self,
    ) -> Result<UtfString<C, A>, OutOfMemory> {
        self.replacen(alloc, needle, with, self.len())
    }

    fn replacen<A: Allocator>(
        self,
        alloc: A,
        needle: UtfStr<'p, C>,
        with: Self,
        count: usize,
    ) -> Result<UtfString<C, A>, OutOfMemory> {
        replaced_first(alloc, self, needle, with, count)
    }
}

impl<C: FaultUnit> UtfStrReplace<C, char> for UtfStr<'_, C> {
    fn replace<A: Allocator>(
        self,
        alloc: A,
        needle: char,
        with: Self,
    ) -> Result<UtfString<C, A>, OutOfMemory> {
        self.replacen(alloc, needle, with, self.len())
    }

    fn replacen<A: Allocator>(
        self,
        alloc: A,
        needle: char,
        with: Self,
        count: usize,
    ) -> Result<UtfString<C, A>, OutOfMemory> {
        replaced_first(alloc, self, needle, with, count)
    }
}
