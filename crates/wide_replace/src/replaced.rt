//! Replaces occurrences of a needle in a view of any kind.
ghost use Rattle.std.specs.Prelude.{◌≡◌, ◌++◌, ◌-◌, ◌+◌, ◌*◌, ◌^◌, ◌<◌, ◌≤◌, [], ℕ, length, min, IsOk, IfOk, OnOk, OnErr, IfSome, IfNone};
ghost use Rattle.wide_search.specs.Cut.{substrings};
ghost use Rattle.wide_replace.specs.Replaced.{joined_first};

use crate::kinds::{Replaceable, Reserved, cut};
use std::alloc::Allocator;
use wide_error::OutOfMemory;
use wide_ustr::NeedleView;
use wide_ustring::extend::{Appendable, Growing};

// Returns how many occurrences of the needle are replaced: all that the view is split at, but at most `most`.
fn count_cuts<P: Copy, V: NeedleView<P>>(view: V, needle: P, most: usize) -> usize
    ensures { result ≡ min most (length (substrings (V.needle_numbers needle) (V.numbers_seen view)) - 1) }
{
    let mut rest = view;
    let mut found = 0;
    while found < most {
        let Some((_, after)) = cut(rest, needle) else {
            return found;
        };
        rest = after;
        found += 1;
    }
    found
}

// Appends a view to a string, with `with` in place of the first `most` occurrences of the needle. It never fails if the
// spare capacity suffices.
fn push_replaced<S: Growing, M, P: Copy, V: NeedleView<P> + Appendable<S, M>>(
    string: &mut S,
    view: V,
    needle: P,
    with: V,
    most: usize,
) -> Result<(), OutOfMemory>
    requires { (v : V) → V.numbers_seen v ≡ V.text v }
    ensures units { OnOk result ((S.seen string.new).units ≡ (S.seen string.old).units ++ joined_first most (V.numbers_seen with) (V.needle_numbers needle) (substrings (V.needle_numbers needle) (V.numbers_seen view))) }
    ensures full { OnErr result ((S.seen string.old).capacity < length ((S.seen string.old).units ++ joined_first most (V.numbers_seen with) (V.needle_numbers needle) (substrings (V.needle_numbers needle) (V.numbers_seen view)))) }
{
    let mut rest = view;
    let mut left = most;
    while left > 0 {
        let Some((before, after)) = cut(rest, needle) else {
            return rest.push_to(string);
        };
        before.push_to(string)?;
        with.push_to(string)?;
        rest = after;
        left -= 1;
    }
    rest.push_to(string)
}

// Returns the length of a text after `count` substrings of one length were replaced by as many of another, or `None`
// if it exceeds `usize::MAX`.
fn replaced_len(len: usize, count: usize, needle: usize, with: usize) -> Option<usize>
    requires { count * needle ≤ len }
    ensures some { IfSome result (λ n. n + count * needle ≡ len + count * with) }
    ensures none { IfNone result (2 ^ 64 + count * needle ≤ len + count * with) }
{
    let rest = len - count * needle;
    rest.checked_add(count.checked_mul(with)?)
}

// Makes a string of the units of a view, with `with` in place of the first `most` occurrences of the needle.
pub(crate) fn replaced_first<
    A: Allocator,
    S: Reserved<A> + Drop,
    M,
    P: Copy,
    V: Replaceable<P> + Appendable<S, M>,
>(alloc: A, view: V, needle: P, with: V, most: usize) -> Result<S, OutOfMemory>
    requires { (v : V) → V.numbers_seen v ≡ V.text v }
    ensures units { IfOk result (λ s. (S.seen s).units ≡ joined_first most (V.numbers_seen with) (V.needle_numbers needle) (substrings (V.needle_numbers needle) (V.numbers_seen view))) }
    ensures succeeds { joined_first most (V.numbers_seen with) (V.needle_numbers needle) (substrings (V.needle_numbers needle) (V.numbers_seen view)) ≡ [] → IsOk result }
{
    let found = count_cuts(view, needle, most);
    let Some(len) = replaced_len(
        view.units_len(),
        found,
        V::needle_len(needle),
        with.units_len(),
    ) else {
        return Err(OutOfMemory);
    };
    let mut string = S::with_space(alloc, len)?;
    push_replaced(&mut string, view, needle, with, most)?;
    Ok(string)
}
