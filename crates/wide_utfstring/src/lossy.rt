//! Well-formed text made from any units, with what a policy writes for faults (Unicode Standard, section 3.9, "U+FFFD
//! Substitution of Maximal Subparts").
ghost use Rattle.std.specs.Prelude.{◌≡◌, ◌≤◌, [], length, map, take, IsOk, IfOk, OnOk, vec_capacity, vec_len};
ghost use Rattle.wide_forms.specs.EncodingForm.{encode};
ghost use Rattle.wide_forms.specs.Items.{items, IsWellFormed};
ghost use Rattle.wide_forms.specs.Lossy.{lossy_by};
ghost use Rattle.wide_ustr.specs.View.{units_seen as ustr_units};
ghost use Rattle.wide_ucstr.specs.View.{contents_seen};
ghost use Rattle.wide_utfstring.specs.CowText.{IsLossyOf, IsLossyBy};

use crate::{CowUtfStr, UtfString};
use std::alloc::Allocator;
use wide_error::OutOfMemory;
use wide_forms::Policy;
use wide_ucstr::UCStr;
use wide_unit::find_fault;
use wide_ustr::UStr;
use wide_ustring::UString;
use wide_utferror::FaultUnit;
use wide_utfstr::UtfStr;

impl<C: FaultUnit, A: Allocator> UtfString<C, A> {
    /// Makes well-formed text of any units. Each unit that belongs to no character is replaced by one U+FFFD (Unicode
    /// Standard, section 3.9, "U+FFFD Substitution of Maximal Subparts"). If the units are well formed (D85), returns a
    /// view of the units themselves, without allocating. Otherwise returns a string with as many units, and allocates
    /// once.
    ///
    /// # Errors
    ///
    /// [`OutOfMemory`] if the allocation fails. It never fails if the units are well formed.
    ///
    /// # Example
    ///
    /// ```
    /// let text = Utf16String::from_slice_lossy(rt.alloc(), &[0x48, 0xd83d, 0x69])?;
    /// assert!(rt; text.as_utfstr().eq_str("H\u{fffd}i"));
    /// ```
    pub fn from_slice_lossy<'a>(
        alloc: A,
        units: &'a [C],
    ) -> Result<CowUtfStr<'a, C, A>, OutOfMemory>
        ensures text { IfOk result (IsLossyOf C.form C.number units.now) }
        ensures succeeds { IsWellFormed C.form (map C.number units.now) → IsOk result }
    {
        UtfString::from_slice_lossy_with(alloc, units, Policy::Each)
    }

    /// Makes well-formed text of any units. The [`Policy`] determines what replaces the units that belong to no
    /// character. If the units are well formed (Unicode Standard, D85), returns a view of the units themselves, without
    /// allocating. Otherwise returns a string with capacity for as many units as there are, and allocates once.
    ///
    /// # Errors
    ///
    /// [`OutOfMemory`] if the allocation fails. It never fails if the units are well formed.
    ///
    /// # Example
    ///
    /// ```
    /// let units = [0x48, 0xdc00, 0xdc00, 0x69];
    /// let text = Utf16String::from_slice_lossy_with(rt.alloc(), &units, Policy::Run)?;
    /// assert!(rt; text.as_utfstr().eq_str("H\u{fffd}i"));
    /// ```
    pub fn from_slice_lossy_with<'a>(
        alloc: A,
        units: &'a [C],
        policy: Policy,
    ) -> Result<CowUtfStr<'a, C, A>, OutOfMemory>
        ensures text { IfOk result (IsLossyBy policy C.form C.number units.now) }
        ensures succeeds { IsWellFormed C.form (map C.number units.now) → IsOk result }
    {
        match find_fault(units) {
            None => Ok(CowUtfStr::Borrowed(UtfStr::from_slice_unchecked(units))),
            Some((index, _unit)) => {
                let string = UtfString::lossy_copy(alloc, units, index, policy)?;
                Ok(CowUtfStr::Owned(string))
            }
        }
    }

    // Copies units to an empty vector, and fills it with NUL up to a length.
    fn fill(text: &mut Vec<C, A>, prefix: &[C], len: usize) -> Result<(), OutOfMemory>
        requires empty { text.old.items ≡ [] }
        requires within { length prefix.now ≤ len }
        ensures prefix { OnOk result (take (length prefix.now) text.new.items ≡ prefix.now) }
        ensures length { OnOk result (length text.new.items ≡ len) }
        ensures len { OnOk result (vec_len text.new ≡ len) }
        ensures capacity { OnOk result (len ≤ vec_capacity text.new) }
    {
        text.reserve_exact(len)?;
        text.extend_from_slice(prefix)?;
        text.resize(len, C::NUL)?;
        Ok(())
    }

    // Returns the lossy text of units of which the first `index` are well formed. It is never longer than the units, so
    // the capacity that is allocated first suffices.
    fn lossy_copy(alloc: A, units: &[C], index: usize, policy: Policy) -> Result<Self, OutOfMemory>
        requires within { index ≤ length units.now }
        requires prefix { IsWellFormed C.form (map C.number (take index units.now)) }
        ensures made { IfOk result (λ s. map C.number s.units ≡ encode C.form (lossy_by policy (items C.form (map C.number units.now)))) }
        ensures capacity { IfOk result (λ s. length units.now ≤ s.capacity) }
    {
        let (prefix, rest) = units.split_at(index);
        let mut text = Vec::new(alloc);
        UtfString::fill(&mut text, prefix, units.len())?;
        let progress = C::lossy_prefix(rest, policy, false, &mut text[index..]);
        text.truncate(index + progress.written);
        Ok(UtfString {
            string: UString::from_vec(text),
        })
    }

    /// Makes well-formed text of the units of a view. Each unit that belongs to no character is replaced by one U+FFFD
    /// (Unicode Standard, section 3.9, "U+FFFD Substitution of Maximal Subparts"). If the units are well formed,
    /// returns a view of them, without allocating. Otherwise returns a string with as many units, and allocates once.
    ///
    /// # Errors
    ///
    /// [`OutOfMemory`] if the allocation fails. It never fails if the units are well formed.
    ///
    /// # Example
    ///
    /// ```
    /// let view = U16Str::from_slice(&[0x48, 0xd83d, 0xde00]);
    /// let text = Utf16String::from_ustr_lossy(rt.alloc(), view)?;
    /// assert!(rt; text.as_utfstr().eq_str("H😀"));
    /// assert!(rt; matches!(&text, CowUtf16Str::Borrowed(_)));
    /// ```
    pub fn from_ustr_lossy<'a>(
        alloc: A,
        view: UStr<'a, C>,
    ) -> Result<CowUtfStr<'a, C, A>, OutOfMemory>
        ensures text { IfOk result (IsLossyOf C.form C.number (ustr_units view.entry)) }
        ensures succeeds { IsWellFormed C.form (map C.number (ustr_units view.entry)) → IsOk result }
    {
        UtfString::from_slice_lossy(alloc, view.as_slice())
    }

    /// Makes well-formed text of the units of a view. The [`Policy`] determines what replaces the units that belong to
    /// no character. If the units are well formed, returns a view of them, without allocating. Otherwise returns a
    /// string with capacity for as many units as there are, and allocates once.
    ///
    /// # Errors
    ///
    /// [`OutOfMemory`] if the allocation fails. It never fails if the units are well formed.
    ///
    /// # Example
    ///
    /// ```
    /// let view = U16Str::from_slice(&[0x48, 0xdc00, 0xdc00, 0x69]);
    /// let text = Utf16String::from_ustr_lossy_with(rt.alloc(), view, Policy::Run)?;
    /// assert!(rt; text.as_utfstr().eq_str("H\u{fffd}i"));
    /// let text = Utf16String::from_ustr_lossy_with(rt.alloc(), view, Policy::Skip)?;
    /// assert!(rt; text.as_utfstr().eq_str("Hi"));
    /// ```
    pub fn from_ustr_lossy_with<'a>(
        alloc: A,
        view: UStr<'a, C>,
        policy: Policy,
    ) -> Result<CowUtfStr<'a, C, A>, OutOfMemory>
        ensures text { IfOk result (IsLossyBy policy C.form C.number (ustr_units view.entry)) }
        ensures succeeds { IsWellFormed C.form (map C.number (ustr_units view.entry)) → IsOk result }
    {
        UtfString::from_slice_lossy_with(alloc, view.as_slice(), policy)
    }

    /// Makes well-formed text of the contents of a C string, without its NUL. Each unit that belongs to no character is
    /// replaced by one U+FFFD (Unicode Standard, section 3.9, "U+FFFD Substitution of Maximal Subparts"). If the
    /// contents are well formed, returns a view of them, without allocating. Otherwise returns a string with as many
    /// units, and allocates once.
    ///
    /// # Errors
    ///
    /// [`OutOfMemory`] if the allocation fails. It never fails if the contents are well formed.
    pub fn from_ucstr_lossy<'a>(
        alloc: A,
        view: UCStr<'a, C>,
    ) -> Result<CowUtfStr<'a, C, A>, OutOfMemory>
        ensures text { IfOk result (IsLossyOf C.form C.number (contents_seen view.entry)) }
        ensures succeeds { IsWellFormed C.form (map C.number (contents_seen view.entry)) → IsOk result }
    {
        UtfString::from_slice_lossy(alloc, view.as_slice())
    }

    /// Makes well-formed text of the contents of a C string, without its NUL. The [`Policy`] determines what replaces
    /// the units that belong to no character. If the contents are well formed, returns a view of them, without
    /// allocating. Otherwise returns a string with capacity for as many units as the contents have, and allocates once.
    ///
    /// # Errors
    ///
    /// [`OutOfMemory`] if the allocation fails. It never fails if the contents are well formed.
    pub fn from_ucstr_lossy_with<'a>(
        alloc: A,
        view: UCStr<'a, C>,
        policy: Policy,
    ) -> Result<CowUtfStr<'a, C, A>, OutOfMemory>
        ensures text { IfOk result (IsLossyBy policy C.form C.number (contents_seen view.entry)) }
        ensures succeeds { IsWellFormed C.form (map C.number (contents_seen view.entry)) → IsOk result }
    {
        UtfString::from_slice_lossy_with(alloc, view.as_slice(), policy)
    }
}
