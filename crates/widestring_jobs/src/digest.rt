//! A digest of all results of a job, eight bytes in one step, so that it takes little of the time.

const FACTOR: u64 = 0x9e37_79b9_7f4a_7c15;

#[derive(Drop)]
pub struct Digest {
    state: u64,
}

impl Digest {
    pub fn new() -> Digest {
        Digest { state: 0 }
    }

    pub fn value(&self) -> u64 {
        self.state
    }

    pub fn number(&mut self, number: u64) {
        let mixed = (self.state ^ number).wrapping_mul(FACTOR);
        self.state = mixed ^ (mixed >> 32);
    }

    pub fn offset(&mut self, offset: Option<usize>) {
        match offset {
            Some(at) => self.number(at as u64),
            None => self.number(u64::MAX),
        }
    }

    pub fn bytes(&mut self, bytes: &[u8]) {
        self.number(bytes.len() as u64);
        let (words, rest) = bytes.as_chunks::<8>();
        for word in words {
            self.number(u64::from_le_bytes(*word));
        }
        for byte in rest {
            self.number(u64::from(*byte));
        }
    }

    pub fn text(&mut self, text: &str) {
        self.bytes(text.as_bytes());
    }

    pub fn units(&mut self, units: &[u16]) {
        self.number(units.len() as u64);
        let (words, rest) = units.as_chunks::<4>();
        for [a, b, c, d] in words {
            let low = u64::from(*a) | (u64::from(*b) << 16);
            let high = u64::from(*c) | (u64::from(*d) << 16);
            self.number(low | (high << 32));
        }
        for unit in rest {
            self.number(u64::from(*unit));
        }
    }

    pub fn wide_units(&mut self, units: &[u32]) {
        self.number(units.len() as u64);
        let (words, rest) = units.as_chunks::<2>();
        for [a, b] in words {
            self.number(u64::from(*a) | (u64::from(*b) << 32));
        }
        for unit in rest {
            self.number(u64::from(*unit));
        }
    }
}
