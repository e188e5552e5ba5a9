//! Counts what a text has, and where in it one is.

/// How many planes there are (Unicode Standard, section 2.8).
pub const PLANES: usize = 17;

/// What precedes a place in a text. Each number stays at 2^64 - 1 if it would be greater.
#[derive(Clone, Copy)]
pub struct Tally {
    /// How many line feeds precede it.
    pub lines: u64,
    /// How many items, characters and faults, precede it after the last line feed.
    pub column: u64,
    /// How many characters of each plane precede it.
    pub planes: [u64; PLANES],
}

// Returns the plane of a character by the first two of its bytes in UTF-8 or WTF-8 (Unicode Standard, table 3-6).
fn plane_of(first: u8, second: u8) -> usize {
    if first < 0xf0 {
        0
    } else {
        (first & 7) as usize * 4 + (second / 16 & 3) as usize
    }
}

impl Tally {
    /// Returns the tally of the beginning.
    pub fn new() -> Tally {
        Tally {
            lines: 0,
            column: 0,
            planes: [0; PLANES],
        }
    }

    /// Passes a fault.
    pub fn pass_fault(&mut self) {
        self.column = self.column.saturating_add(1);
    }

    // Passes the character that begins with these bytes.
    fn pass_char(&mut self, first: u8, second: u8) {
        if first == b'\n' {
            self.lines = self.lines.saturating_add(1);
            self.column = 0;
        } else {
            self.column = self.column.saturating_add(1);
        }
        let plane = plane_of(first, second);
        if plane < PLANES {
            self.planes[plane] = self.planes[plane].saturating_add(1);
        }
    }

    /// Passes the characters of a text in UTF-8 or WTF-8.
    pub fn pass_text(&mut self, text: &[u8]) {
        for (index, first) in text.iter().enumerate() {
            // The other bytes of a character are 10xxxxxx.
            if first & 0xc0 != 0x80 {
                let second = text.get(index + 1).copied().unwrap_or(0);
                self.pass_char(*first, second);
            }
        }
    }
}
