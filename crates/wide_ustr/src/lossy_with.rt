//! Iterators over the characters of a view, from both ends, with faults replaced as a policy says.
ghost use Rattle.std.specs.Prelude.{◌≡◌, ◌≤◌, ◌<◌, length, map, None, IfSome};
ghost use Rattle.std.specs.Iterator.{YieldsFirst, YieldsLast, at_most, UpTo};
ghost use Rattle.std.specs.Iterator.SizeHint.{IsWithinCount};
ghost use Rattle.wide_forms.specs.Items.{items};
ghost use Rattle.wide_ustr.specs.LossyWith.{BeginsPastFaults, EndsBeforeFaults};

use std::iter::FusedIterator;
use wide_forms::{Policy, replacement};
use wide_unit::{Unit, split_first, split_last};

/// Returns the units after the longest run of faults at the beginning.
pub fn after_faults<C: Unit>(units: &[C]) -> &[C]
    ensures run { BeginsPastFaults (items C.form (map C.number units.now)) (items C.form (map C.number result.now)) }
    ensures within { length result.now ≤ length units.now }
{
    let mut rest = units;
    while let Some((Err(_), tail)) = split_first(rest) {
        rest = tail;
    }
    rest
}

// Returns the units before the longest run of faults at the end.
fn before_faults<C: Unit>(units: &[C]) -> &[C]
    ensures run { EndsBeforeFaults (items C.form (map C.number units.now)) (items C.form (map C.number result.now)) }
    ensures within { length result.now ≤ length units.now }
{
    let mut rest = units;
    while let Some((prefix, Err(_))) = split_last(rest) {
        rest = prefix;
    }
    rest
}

/// An iterator over the characters of a view, with the units that belong to none replaced as a policy says. Made by
/// [`UStr::chars_lossy_with`](crate::UStr::chars_lossy_with).
///
/// Under a policy that yields nothing for a fault directly after another, such as [`Policy::Run`], the call that
/// reaches a run of faults, at either end, reads the whole run. Under the other policies each call reads one fault. It
/// continues to return `None` after its end, and does not allocate.
///
/// # Example
///
/// ```
/// let units = U16Str::from_slice(&[0x48, 0xdc00, 0xdc00]);
/// let mut characters = units.chars_lossy_with(Policy::Run);
/// assert!(rt; characters.next_back() == Some('\u{fffd}'));
/// assert!(rt; characters.next_back() == Some('H'));
/// ```
#[derive(Clone, Drop)]
pub struct CharsLossyWith<'a, C> {
    pub(crate) rest: &'a [C],
    pub(crate) policy: Policy,
}

impl<C: Unit> CharsLossyWith<'_, C> {
    ghost use Rattle.wide_ustr.specs.LossyWith.{characters_left, lossy_with_rest, policy_of};

    // Returns the first character, after the faults before it.
    fn first_character(&mut self) -> Option<char>
        ensures first { YieldsFirst (characters_left C.form C.number) self.old result self.new }
        ensures fewer { IfSome result (λ _. length (lossy_with_rest self.new) < length (lossy_with_rest self.old)) }
        ensures policy { policy_of self.new ≡ policy_of self.old }
    {
        while let Some((item, rest)) = split_first(self.rest) {
            self.rest = rest;
            if let Ok(c) = item {
                return Some(c);
            }
        }
        None
    }

    // Returns the last character, before the faults after it.
    fn last_character(&mut self) -> Option<char>
        ensures last { YieldsLast (characters_left C.form C.number) self.old result self.new }
        ensures fewer { IfSome result (λ _. length (lossy_with_rest self.new) < length (lossy_with_rest self.old)) }
        ensures policy { policy_of self.new ≡ policy_of self.old }
    {
        while let Some((rest, item)) = split_last(self.rest) {
            self.rest = rest;
            if let Ok(c) = item {
                return Some(c);
            }
        }
        None
    }
}

impl<C: Unit> Iterator for CharsLossyWith<'_, C> {
    ghost use Rattle.wide_ustr.specs.LossyWith.{lossy_with_left, lossy_with_rest};

    type Item = char;

    ghost next_gives = { YieldsFirst (lossy_with_left C.form C.number) };

    ghost remaining = { λ s. at_most (length (lossy_with_rest s)) };

    fn next(&mut self) -> Option<char> {
        let (item, rest) = split_first(self.rest)?;
        self.rest = rest;
        if let Ok(first) = item {
            return Some(first);
        }
        let Some(c) = replacement(self.policy, false) else {
            return self.first_character();
        };
        // If the rest of the run yields nothing, it is read now: a later call could not distinguish it from a new run.
        if replacement(self.policy, true).is_none() {
            self.rest = after_faults(rest);
        }
        Some(c)
    }

    /// Returns no bounds, since the number of characters for a run of faults is unknown before the run is read.
    fn size_hint(&self) -> (usize, Option<usize>)
        ensures lower { IsWithinCount result.0 (at_most (length (lossy_with_rest self.now))) }
        ensures upper { IfSome result.1 (UpTo (at_most (length (lossy_with_rest self.now)))) }
        ensures value { result ≡ (0, None) }
    {
        (0, None)
    }
}

impl<C: Unit> DoubleEndedIterator for CharsLossyWith<'_, C> {
    ghost use Rattle.wide_ustr.specs.LossyWith.{lossy_with_left};

    ghost next_back_gives = { YieldsLast (lossy_with_left C.form C.number) };

    fn next_back(&mut self) -> Option<char> {
        let (rest, item) = split_last(self.rest)?;
        self.rest = rest;
        if let Ok(last) = item {
            return Some(last);
        }
        let Some(c) = replacement(self.policy, false) else {
            return self.last_character();
        };
        // If the rest of the run yields nothing, it is read now.
        if replacement(self.policy, true).is_none() {
            self.rest = before_faults(rest);
        }
        Some(c)
    }
}

impl<C: Unit> FusedIterator for CharsLossyWith<'_, C> {}
