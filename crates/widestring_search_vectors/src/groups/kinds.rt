//! The views of the questions whose first word is the letter of a view: `u` for units, `t` for their text, and `c` for
//! the contents of a C string, whose NUL is the last unit of the list.
use widestring_replay::parse::{self, NoAnswer};

/// The views.
#[derive(Clone, Copy)]
pub enum Kind {
    Units,
    Text,
    Contents,
}

static KINDS: [(&str, Kind); 3] = [("u", Kind::Units), ("t", Kind::Text), ("c", Kind::Contents)];

/// Splits a question into its view and what follows the space after it.
pub fn parsed(question: &str) -> Result<(Kind, &str), NoAnswer> {
    let (kind, rest) = parse::word(question);
    Ok((parse::named(&KINDS, kind)?, rest))
}
