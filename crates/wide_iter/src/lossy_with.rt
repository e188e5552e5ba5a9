//! Makes the items of a decoder lossy under a policy.
ghost use Rattle.std.specs.Prelude.{◌≡◌, true, false, IfNone, IfSome, None};
ghost use Rattle.std.specs.Iterator.{MakesProgress, UpTo};
ghost use Rattle.std.specs.Iterator.SizeHint.{IsWithinCount};
ghost use Rattle.wide_iter.specs.Source.{has_ended, inner_of, source_count, CanAsk};
ghost use Rattle.wide_iter.specs.LossyWith.{CanAskAll, TakesFirstCharacter, TakesLastCharacter, LossyFirst, LossyLast, lossy_source, policy_of, IsUnread, lossy_with_count};

use crate::source::Source;
use wide_forms::{Policy, replacement};

/// An iterator over the characters that a decoder yields, with what a policy yields in place of each fault.
///
/// It iterates from both ends if the decoder does. It is fused, does not call the decoder again after its end, and does
/// not allocate.
#[derive(Debug, Drop)]
pub(crate) struct LossyWith<D> {
    items: Source<D>,
    policy: Policy,
    // The lookahead at each end: a character that was read after, or before, a run of faults.
    front: Option<char>,
    back: Option<char>,
}

impl<D> LossyWith<D> {
    // Creates an iterator over the lossy characters of what `items` yields.
    pub(crate) fn new(items: D, policy: Policy) -> LossyWith<D>
        ensures items { inner_of (lossy_source result) ≡ items }
        ensures policy { policy_of result ≡ policy }
        ensures new { IsUnread result }
    {
        LossyWith {
            items: Source {
                inner: items,
                ended: false,
            },
            policy,
            front: None,
            back: None,
        }
    }
}

// Returns the first character that is left, and skips the faults before it.
fn first_character<E: Drop, D: Iterator<Item = Result<char, E>>>(
    items: &mut Source<D>,
) -> Option<char>
    requires { CanAskAll D.can_next D.remaining items.old }
    ensures takes { TakesFirstCharacter D.next_gives items.old result items.new }
    ensures goes { MakesProgress (CanAsk D.can_next) (source_count D.remaining) items.old result items.new }
    ensures ends { IfNone result (has_ended items.new ≡ true) }
{
    while let Some(item) = items.next() {
        if let Ok(c) = item {
            return Some(c);
        }
    }
    None
}

// Returns the last character that is left, and skips the faults after it.
fn last_character<E: Drop, D: DoubleEndedIterator<Item = Result<char, E>>>(
    items: &mut Source<D>,
) -> Option<char>
    requires { CanAskAll D.can_next_back D.remaining items.old }
    ensures takes { TakesLastCharacter D.next_back_gives items.old result items.new }
    ensures goes { MakesProgress (CanAsk D.can_next_back) (source_count D.remaining) items.old result items.new }
    ensures ends { IfNone result (has_ended items.new ≡ true) }
{
    while let Some(item) = items.next_back() {
        if let Ok(c) = item {
            return Some(c);
        }
    }
    None
}

impl<E: Drop, D: Iterator<Item = Result<char, E>>> Iterator for LossyWith<D> {
    type Item = char;

    ghost can_next = { λ s. CanAskAll D.can_next D.remaining (lossy_source s) };

    ghost next_gives = { LossyFirst D.next_gives };

    ghost remaining = { lossy_with_count D.remaining };

    fn next(&mut self) -> Option<char> {
        if let Some(c) = self.front.take() {
            return Some(c);
        }
        match self.items.next() {
            Some(Ok(first)) => Some(first),
            Some(Err(_)) => match replacement(self.policy, false) {
                Some(c) => {
                    // If the rest of the run yields nothing, it is read now: a later call could not distinguish it
                    // from a new run.
                    if replacement(self.policy, true).is_none() {
                        self.front = first_character(&mut self.items);
                    }
                    Some(c)
                }
                None => match first_character(&mut self.items) {
                    Some(c) => Some(c),
                    // The decoder has ended: at most the lookahead at the back is left.
                    None => self.back.take(),
                },
            },
            None => self.back.take(),
        }
    }

    /// Returns no bounds: how many characters a run of faults yields is unknown before it is read.
    fn size_hint(&self) -> (usize, Option<usize>)
        ensures lower { IsWithinCount result.0 (lossy_with_count D.remaining self.now) }
        ensures upper { IfSome result.1 (UpTo (lossy_with_count D.remaining self.now)) }
        ensures value { result ≡ (0, None) }
    {
        (0, None)
    }
}

impl<E: Drop, D: DoubleEndedIterator<Item = Result<char, E>>> DoubleEndedIterator for LossyWith<D> {
    ghost can_next_back = { λ s. CanAskAll D.can_next_back D.remaining (lossy_source s) };

    ghost next_back_gives = { LossyLast D.next_back_gives };

    fn next_back(&mut self) -> Option<char> {
        if let Some(c) = self.back.take() {
            return Some(c);
        }
        match self.items.next_back() {
            Some(Ok(last)) => Some(last),
            Some(Err(_)) => match replacement(self.policy, false) {
                Some(c) => {
                    // If the rest of the run yields nothing, it is read now: a later call could not distinguish it
                    // from a new run.
                    if replacement(self.policy, true).is_none() {
                        self.back = last_character(&mut self.items);
                    }
                    Some(c)
                }
                None => match last_character(&mut self.items) {
                    Some(c) => Some(c),
                    // The decoder has ended: at most the lookahead at the front is left.
                    None => self.front.take(),
                },
            },
            None => self.front.take(),
        }
    }
}
