//! A fused source.
ghost use Rattle.std.specs.Prelude.{◌≡◌, IfSome};
ghost use Rattle.std.specs.Iterator.{IsFinite, MakesProgress, UpTo, size};
ghost use Rattle.std.specs.Iterator.SizeHint.{IsWithinCount};
ghost use Rattle.wide_iter.specs.Source.{CanAsk, source_count, source_steps};

/// A source that is not called again after it returned `None`.
#[derive(Debug, Drop)]
pub(crate) struct Source<I> {
    pub(crate) inner: I,
    pub(crate) ended: bool,
}

impl<I: Iterator> Source<I> {
    // Returns the next item.
    pub(crate) fn next(&mut self) -> Option<I::Item>
        requires { CanAsk I.can_next self.old }
        ensures steps { source_steps I.next_gives self.old result self.new }
        ensures goes { MakesProgress (CanAsk I.can_next) (source_count I.remaining) self.old result self.new }
    {
        if self.ended {
            return None;
        }
        let item = self.inner.next();
        self.ended = item.is_none();
        item
    }

    // Returns the bounds of the source. The lower one is 0 after the source has ended, whatever the source itself
    // returns.
    pub(crate) fn size_hint(&self) -> (usize, Option<usize>)
        ensures lower { IsWithinCount result.0 (source_count I.remaining self.now) }
        ensures upper { IfSome result.1 (UpTo (source_count I.remaining self.now)) }
    {
        let (lower, upper) = self.inner.size_hint();
        (if self.ended { 0 } else { lower }, upper)
    }
}

impl<I: DoubleEndedIterator> Source<I> {
    // Returns the last item.
    pub(crate) fn next_back(&mut self) -> Option<I::Item>
        requires { CanAsk I.can_next_back self.old }
        ensures steps { source_steps I.next_back_gives self.old result self.new }
        ensures goes { MakesProgress (CanAsk I.can_next_back) (source_count I.remaining) self.old result self.new }
    {
        if self.ended {
            return None;
        }
        let item = self.inner.next_back();
        self.ended = item.is_none();
        item
    }
}

impl<I: ExactSizeIterator> Source<I> {
    // Returns the number of items that are left.
    pub(crate) fn len(&self) -> usize
        ensures finite { IsFinite (source_count I.remaining self.now) }
        ensures value { result ≡ size (source_count I.remaining self.now) }
    {
        if self.ended { 0 } else { self.inner.len() }
    }
}
