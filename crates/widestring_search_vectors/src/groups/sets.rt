//! Characters of a set in units, in text and in the contents of C strings: the substrings between them, and views
//! without them at their ends. A question is the letter of a view, as in `kinds.rt`, a space, and a set: `s`, a space
//! and the characters of a list; `c`, a space and one character; `w` for White_Space; or `a` for the white space of
//! ASCII: `u s 2C 3B`, `t c 1F600`, `c w`.
//!
//! - Of `sets*` the answer has the offset of the first character of the set, or a `-`; as the next field how many
//!   substrings are between the characters of the set, and as further fields the units of each.
//! - Of `trims*` it has three fields: the units after the longest prefix of such characters, those before the longest
//!   suffix, and those without both. With a `-` for the set these are the calls that take none, for White_Space.
//! - Of `words*` the set is `w` or `a`. The answer has how many substrings between such characters are not empty, and
//!   as further fields the units of each.
use crate::groups::kinds::{self, Kind};
use crate::groups::parts::substrings;
use widestring::search::{AsciiWhiteSpace, CharSet, WhiteSpace};
use widestring::ucstr::UCStr;
use widestring::ustr::UStr;
use widestring::utfstr::UtfStr;
use widestring_replay::made::{as_contents, as_text};
use widestring_replay::parse::{self, Memory, NoAnswer};
use widestring_replay::show::{Answer, ReportedUnit};

/// The calls that a question is about.
#[derive(Clone, Copy)]
pub enum SetCalls {
    Substrings,
    Trims,
    Words,
}

// The sets.
#[derive(Clone, Copy)]
enum Set {
    List,
    One,
    White,
    AsciiWhite,
    Unsaid,
}

static SETS: [(&str, Set); 5] = [
    ("s", Set::List),
    ("c", Set::One),
    ("w", Set::White),
    ("a", Set::AsciiWhite),
    ("-", Set::Unsaid),
];

// A parsed question: the view, the set, and its characters.
type Parts<'q> = (Kind, Set, &'q str);

// Adds where a view has the first character of a set, and the substrings between all of them.
macro_rules! between {
    ($answer:expr, $view:expr, $set:expr) => {{
        $answer.count($view.find_any($set));
        $answer.part();
        substrings!($answer, $view.split_any($set));
    }};
}

// Adds the units of three views, each of them a field.
macro_rules! three {
    ($answer:expr, $first:expr, $second:expr, $third:expr) => {{
        $answer.units($first.as_slice());
        $answer.part();
        $answer.units($second.as_slice());
        $answer.part();
        $answer.units($third.as_slice());
    }};
}

// A view of units, of a C string or of text: what it returns for sets of characters.
trait SetView: Copy {
    fn between<S: CharSet>(self, answer: &mut Answer, set: S);

    fn trimmed<S: CharSet>(self, answer: &mut Answer, set: S);

    fn trimmed_of_white_space(self, answer: &mut Answer);

    fn words(self, answer: &mut Answer);

    fn ascii_words(self, answer: &mut Answer);
}

impl<C: ReportedUnit> SetView for UStr<'_, C> {
    fn between<S: CharSet>(self, answer: &mut Answer, set: S) {
        between!(answer, self, set);
    }

    fn trimmed<S: CharSet>(self, answer: &mut Answer, set: S) {
        three!(
            answer,
            self.trim_start_matches(set),
            self.trim_end_matches(set),
            self.trim_matches(set)
        );
    }

    fn trimmed_of_white_space(self, answer: &mut Answer) {
        three!(answer, self.trim_start(), self.trim_end(), self.trim());
    }

    fn words(self, answer: &mut Answer) {
        substrings!(answer, self.split_whitespace());
    }

    fn ascii_words(self, answer: &mut Answer) {
        substrings!(answer, self.split_ascii_whitespace());
    }
}

impl<C: ReportedUnit> SetView for UCStr<'_, C> {
    fn between<S: CharSet>(self, answer: &mut Answer, set: S) {
        between!(answer, self, set);
    }

    fn trimmed<S: CharSet>(self, answer: &mut Answer, set: S) {
        three!(
            answer,
            self.trim_start_matches(set),
            self.trim_end_matches(set),
            self.trim_matches(set)
        );
    }

    fn trimmed_of_white_space(self, answer: &mut Answer) {
        three!(answer, self.trim_start(), self.trim_end(), self.trim());
    }

    fn words(self, answer: &mut Answer) {
        substrings!(answer, self.split_whitespace());
    }

    fn ascii_words(self, answer: &mut Answer) {
        substrings!(answer, self.split_ascii_whitespace());
    }
}

impl<C: ReportedUnit> SetView for UtfStr<'_, C> {
    fn between<S: CharSet>(self, answer: &mut Answer, set: S) {
        between!(answer, self, set);
    }

    fn trimmed<S: CharSet>(self, answer: &mut Answer, set: S) {
        three!(
            answer,
            self.trim_start_matches(set),
            self.trim_end_matches(set),
            self.trim_matches(set)
        );
    }

    fn trimmed_of_white_space(self, answer: &mut Answer) {
        three!(answer, self.trim_start(), self.trim_end(), self.trim());
    }

    fn words(self, answer: &mut Answer) {
        substrings!(answer, self.split_whitespace());
    }

    fn ascii_words(self, answer: &mut Answer) {
        substrings!(answer, self.split_ascii_whitespace());
    }
}

fn of_set<V: SetView, S: CharSet>(answer: &mut Answer, calls: SetCalls, view: V, set: S) {
    match calls {
        SetCalls::Substrings => view.between(answer, set),
        SetCalls::Trims => view.trimmed(answer, set),
        SetCalls::Words => answer.fail(NoAnswer::Unparsed),
    }
}

fn of_white_space<V: SetView>(answer: &mut Answer, calls: SetCalls, view: V) {
    match calls {
        SetCalls::Words => view.words(answer),
        _ => of_set(answer, calls, view, WhiteSpace),
    }
}

fn of_ascii_white_space<V: SetView>(answer: &mut Answer, calls: SetCalls, view: V) {
    match calls {
        SetCalls::Words => view.ascii_words(answer),
        _ => of_set(answer, calls, view, AsciiWhiteSpace),
    }
}

fn of_no_set<V: SetView>(answer: &mut Answer, calls: SetCalls, view: V) {
    match calls {
        SetCalls::Trims => view.trimmed_of_white_space(answer),
        _ => answer.fail(NoAnswer::Unparsed),
    }
}

fn of_char<V: SetView>(answer: &mut Answer, calls: SetCalls, view: V, c: Result<char, NoAnswer>) {
    match c {
        Ok(c) => of_set(answer, calls, view, c),
        Err(error) => answer.fail(error),
    }
}

fn of_view<V: SetView>(answer: &mut Answer, calls: SetCalls, view: V, set: Set, chars: &[char]) {
    match set {
        Set::List => of_set(answer, calls, view, chars),
        Set::One => of_char(answer, calls, view, one(chars)),
        Set::White => of_white_space(answer, calls, view),
        Set::AsciiWhite => of_ascii_white_space(answer, calls, view),
        Set::Unsaid => of_no_set(answer, calls, view),
    }
}

fn one(chars: &[char]) -> Result<char, NoAnswer> {
    match chars {
        [c] => Ok(*c),
        _ => Err(NoAnswer::Unparsed),
    }
}

fn of_kind<C: ReportedUnit>(
    answer: &mut Answer,
    calls: SetCalls,
    units: &[C],
    (kind, set): (Kind, Set),
    chars: &[char],
) {
    match kind {
        Kind::Units => of_view(answer, calls, UStr::from_slice(units), set, chars),
        Kind::Text => match as_text(units) {
            Ok(text) => of_view(answer, calls, text, set, chars),
            Err(error) => answer.fail(error),
        },
        Kind::Contents => match as_contents(units) {
            Ok(view) => of_view(answer, calls, view, set, chars),
            Err(error) => answer.fail(error),
        },
    }
}

fn parsed(question: &str) -> Result<Parts<'_>, NoAnswer> {
    let (kind, rest) = kinds::parsed(question)?;
    let (set, chars) = parse::word(rest);
    Ok((kind, parse::named(&SETS, set)?, chars))
}

fn with_parts<C: ReportedUnit>(
    memory: Memory<'_>,
    answer: &mut Answer,
    calls: SetCalls,
    units: &[C],
    (kind, set, chars): Parts<'_>,
) {
    match parse::list::<char>(memory.alloc, chars) {
        Ok(chars) => of_kind(answer, calls, units, (kind, set), &chars),
        Err(error) => answer.fail(error),
    }
}

/// Adds the answer to a question about a set of characters in units of either width.
pub fn asked<C: ReportedUnit>(
    memory: Memory<'_>,
    answer: &mut Answer,
    calls: SetCalls,
    units: &[C],
    question: &str,
) {
    match parsed(question) {
        Ok(parts) => with_parts(memory, answer, calls, units, parts),
        Err(error) => answer.fail(error),
    }
}
