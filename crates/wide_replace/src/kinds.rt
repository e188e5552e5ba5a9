//! What is known of each kind of view and of string in which occurrences are replaced.
ghost use Rattle.std.specs.Prelude.{◌≡◌, ◌≤◌, ◌∷◌, [], length, IsOk, IfOk, IfNone, IfSome};
ghost use Rattle.wide_search.specs.Cut.{substrings};

use std::alloc::Allocator;
use wide_error::OutOfMemory;
use wide_ustr::{NeedleView, UStr};
use wide_ustring::UString;
use wide_ustring::extend::Growing;
use wide_utferror::FaultUnit;
use wide_utfstr::UtfStr;
use wide_utfstring::UtfString;

// A view whose length in units is known, and that of a needle.
pub(crate) trait Replaceable<P>: NeedleView<P> {
    fn units_len(self) -> usize
        ensures { result ≡ length (Self.numbers_seen self) };

    fn needle_len(needle: P) -> usize
        ensures { result ≡ length (Self.needle_numbers needle) };
}

// Splits a view at the first occurrence of a needle, into what is before it and what is after it.
pub(crate) fn cut<P: Copy, V: NeedleView<P>>(view: V, needle: P) -> Option<(V, V)>
    ensures none { IfNone result (substrings (V.needle_numbers needle) (V.numbers_seen view) ≡ V.numbers_seen view ∷ []) }
    ensures some { IfSome result (λ r. substrings (V.needle_numbers needle) (V.numbers_seen view) ≡ V.numbers_seen r.0 ∷ substrings (V.needle_numbers needle) (V.numbers_seen r.1)) }
{
    view.cut_first(needle)
}

// A string that is made with capacity for what will be appended.
pub(crate) trait Reserved<A>: Growing {
    fn with_space(alloc: A, capacity: usize) -> Result<Self, OutOfMemory>
        ensures units { IfOk result (λ s. (Self.seen s).units ≡ []) }
        ensures space { IfOk result (λ s. capacity ≤ (Self.seen s).capacity) }
        ensures succeeds { capacity ≡ 0 → IsOk result };
}

impl<C: FaultUnit, A: Allocator> Reserved<A> for UString<C, A> {
    fn with_space(alloc: A, capacity: usize) -> Result<Self, OutOfMemory> {
        UString::with_capacity(alloc, capacity)
    }
}

impl<'p, C: FaultUnit> Replaceable<UStr<'p, C>> for UStr<'_, C> {
    fn units_len(self) -> usize {
        self.len()
    }

    fn needle_len(needle: UStr<'p, C>) -> usize {
        needle.len()
    }
}

impl<C: FaultUnit, A: Allocator> Reserved<A> for UtfString<C, A> {
    fn with_space(alloc: A, capacity: usize) -> Result<Self, OutOfMemory> {
        UtfString::with_capacity(alloc, capacity)
    }
}

impl<'p, C: FaultUnit> Replaceable<UtfStr<'p, C>> for UtfStr<'_, C> {
    fn units_len(self) -> usize {
        self.len()
    }

    fn needle_len(needle: UtfStr<'p, C>) -> usize {
        needle.len()
    }
}

impl<C: FaultUnit> Replaceable<char> for UtfStr<'_, C> {
    fn units_len(self) -> usize {
        self.len()
    }

    fn needle_len(needle: char) -> usize {
        C::char_len(needle)
    }
}
