//! A source of units that is written by hand, as an application would write one.
ghost use Rattle.std.specs.Iterator.{YieldsFirst, item_count};
ghost use Rattle.widestring_tests.specs.Front.{prefix_rest};

/// The units of a slice, from the front.
#[derive(Clone, Copy, Debug)]
pub struct Front<'a> {
    /// The units that are left.
    pub rest: &'a [u16],
}

impl Iterator for Front<'_> {
    type Item = u16;

    ghost next_gives = { YieldsFirst prefix_rest };

    ghost remaining = { item_count prefix_rest };

    fn next(&mut self) -> Option<u16> {
        let (first, others) = self.rest.split_first()?;
        self.rest = others;
        Some(*first)
    }
}
