//! Sets of characters that a search looks for.

ghost use Rattle.std.specs.Prelude.{◌≡◌, ◌∷◌, [], ℕ, Bool};
ghost use Rattle.std.specs.Char.{is_whitespace, is_ascii_whitespace};
ghost use Rattle.wide_search.specs.Sets.{is_among};

/// A set of characters: those that a call looks for, removes, or splits at. A list of characters is one, and so is a
/// type of your own that says which characters it contains.
///
/// The Rust crate has no such trait. No call of a set allocates or fails.
///
/// # Example
///
/// ```
/// use widestring::search::CharSet;
///
/// let signs: &[char] = &['=', ':'];
/// assert!(rt; signs.contains_char(':'));
/// assert!(rt; !'='.contains_char(':'));
/// ```
pub trait CharSet: Copy {
    // Whether a scalar value is in the set.
    ghost has: { Self → ℕ → Bool };

    /// Returns whether the character is in the set.
    fn contains_char(self, c: char) -> bool
        ensures { result ≡ has self c };
}

/// The characters with the property White_Space (Unicode Character Database), those of [`char::is_whitespace`].
///
/// # Example
///
/// ```
/// use widestring::search::WhiteSpace;
///
/// let line = Utf16Str::from_slice(&[0xe9, 0x3000, 0x61])?;
/// assert!(rt; line.find_any(WhiteSpace) == Some(1));
/// ```
#[derive(Clone, Copy, Debug)]
pub struct WhiteSpace;

impl CharSet for WhiteSpace {
    ghost has = { λ _. is_whitespace };

    fn contains_char(self, c: char) -> bool {
        c.is_whitespace()
    }
}

/// The white space of ASCII, as [`char::is_ascii_whitespace`] has it: space, tab, line feed, form feed and carriage
/// return.
///
/// # Example
///
/// ```
/// use widestring::search::AsciiWhiteSpace;
///
/// let line = Utf16Str::from_slice(&[0xe9, 0x3000, 0x20])?;
/// assert!(rt; line.find_any(AsciiWhiteSpace) == Some(2));
/// ```
#[derive(Clone, Copy, Debug)]
pub struct AsciiWhiteSpace;

impl CharSet for AsciiWhiteSpace {
    ghost has = { λ _. is_ascii_whitespace };

    fn contains_char(self, c: char) -> bool {
        c.is_ascii_whitespace()
    }
}

impl CharSet for char {
    ghost has = { λ one. is_among (one ∷ []) };

    fn contains_char(self, c: char) -> bool {
        self == c
    }
}

impl CharSet for &[char] {
    ghost has = { λ some. is_among some.now };

    fn contains_char(self, c: char) -> bool {
        let mut left = self;
        while let [other, rest @ ..] = left {
            if *other == c {
                return true;
            }
            left = rest;
        }
        false
    }
}
