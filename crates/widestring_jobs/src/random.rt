//! Pseudo-random numbers. The same seed makes the same ones (Marsaglia's xorshift).
ghost use Rattle.std.specs.Prelude.{◌<◌, length};

#[derive(Drop)]
pub struct Random {
    state: u64,
}

impl Random {
    // The odd factor spreads seeds that are close to each other.
    pub fn new(seed: u64) -> Random {
        Random {
            state: seed.wrapping_add(1).wrapping_mul(0x9e37_79b9_7f4a_7c15) | 1,
        }
    }

    fn next(&mut self) -> u64 {
        self.state ^= self.state << 13;
        self.state ^= self.state >> 7;
        self.state ^= self.state << 17;
        self.state
    }

    pub fn below(&mut self, count: usize) -> usize
        requires { 0 < count }
        ensures { result < count }
    {
        (self.next() >> 16) as usize % count
    }

    pub fn pick<T: Copy>(&mut self, items: &[T]) -> T
        requires { 0 < length items.now }
    {
        items[self.below(items.len())]
    }

    // Returns a character of a block of `count`, from the first on.
    pub fn char_of(&mut self, first: u32, count: usize) -> char
        requires { 0 < count }
    {
        let number = first.wrapping_add(u32::try_from(self.below(count)).unwrap_or(0));
        char::from_u32(number).unwrap_or('a')
    }
}
