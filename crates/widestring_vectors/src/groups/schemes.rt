//! Conversions between encoding schemes, as the groups of devices and of pieces name them: the scheme that is read, a
//! `>`, the scheme that is written, a comma, and `s` for a strict conversion, or `e`, `r` or `k` for one under a policy.
//! An `m` after that asks for a BOM. The schemes are `8`, `w8` for WTF-8, `16le`, `16be`, `16`, `32le`, `32be` and `32`.
use widestring::Policy;
use widestring::convert::Scheme;
use widestring_replay::parse::{self, NoAnswer};

/// A conversion.
#[derive(Clone, Copy)]
pub struct Conversion {
    /// The scheme that is read.
    pub from: Scheme,
    /// The scheme that is written.
    pub to: Scheme,
    /// What is written for a fault, or `None` if the conversion stops there.
    pub policy: Option<Policy>,
    /// Whether a BOM is written.
    pub bom: bool,
}

static SCHEMES: [(&str, Scheme); 8] = [
    ("8", Scheme::Utf8),
    ("w8", Scheme::Wtf8),
    ("16le", Scheme::Utf16Le),
    ("16be", Scheme::Utf16Be),
    ("16", Scheme::Utf16),
    ("32le", Scheme::Utf32Le),
    ("32be", Scheme::Utf32Be),
    ("32", Scheme::Utf32),
];

static POLICIES: [(&str, Option<Policy>); 4] = [
    ("s", None),
    ("e", Some(Policy::Each)),
    ("r", Some(Policy::Run)),
    ("k", Some(Policy::Skip)),
];

// Splits a word at the first one of this character.
fn halves(word: &str, at: char) -> Result<(&str, &str), NoAnswer> {
    match word.split_once(at) {
        Some(halves) => Ok(halves),
        None => Err(NoAnswer::Unparsed),
    }
}

/// Parses a conversion.
pub fn parse_conversion(word: &str) -> Result<Conversion, NoAnswer> {
    let (schemes, how) = halves(word, ',')?;
    let (from, to) = halves(schemes, '>')?;
    let policy = how.strip_suffix('m');
    Ok(Conversion {
        from: parse::named(&SCHEMES, from)?,
        to: parse::named(&SCHEMES, to)?,
        policy: parse::named(&POLICIES, policy.unwrap_or(how))?,
        bom: policy.is_some(),
    })
}
