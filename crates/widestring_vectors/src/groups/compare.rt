//! Comparisons of two lists of units. A question is a word for the two types, a space and the units of the other list.
//!
//! - `units`, `contents` and `text` compare two views of one type: whether they are equal, their order, and whether
//!   their hashes are equal. `contents` then does the same for two C strings as a second field. `unit_string` and
//!   `string` compare two owned strings, of which the first has spare capacity. For owned strings the answer also has
//!   whether the first has the same hash as its view.
//! - `mixed` asks whether text is equal to the other units, to the C string of them, and to their text at the other
//!   width, each from both sides. `str` asks whether the text is equal to the text of the other units as a `str`, and
//!   `chars` whether it has its characters.
use crate::groups::width::Width;
use std::alloc::Global;
use std::hash::{DefaultHasher, Hash, Hasher};
use widestring::ucstring::UCString;
use widestring::ustr::UStr;
use widestring::ustring::UString;
use widestring::utfstr::{UCStrInUtfstr, UStrInUtfstr, UtfStr};
use widestring::utfstring::UtfString;
use widestring_replay::made::{as_text, c_string_of, text_of};
use widestring_replay::parse::{self, NoAnswer};
use widestring_replay::show::Answer;

// What is compared.
#[derive(Clone, Copy)]
enum Kind {
    Units,
    UnitStrings,
    Contents,
    Texts,
    Strings,
    Mixed,
    Str,
    Chars,
}

static KINDS: [(&str, Kind); 8] = [
    ("units", Kind::Units),
    ("unit_string", Kind::UnitStrings),
    ("contents", Kind::Contents),
    ("text", Kind::Texts),
    ("string", Kind::Strings),
    ("mixed", Kind::Mixed),
    ("str", Kind::Str),
    ("chars", Kind::Chars),
];

fn hash_of(value: &impl Hash) -> u64 {
    let mut hasher = DefaultHasher::new();
    value.hash(&mut hasher);
    hasher.finish()
}

// Adds how one value compares with another.
fn compare<T: Ord + Hash>(answer: &mut Answer, left: &T, right: &T) {
    answer.decided(left == right);
    answer.order(left.cmp(right));
    answer.decided(hash_of(left) == hash_of(right));
}

// Adds how two strings compare, and whether the first has the hash of its view.
fn of_strings<T: Ord + Hash>(answer: &mut Answer, left: &T, right: &T, hash_of_view: u64) {
    compare(answer, left, right);
    answer.decided(hash_of(left) == hash_of_view);
}

fn of_c_strings<C: Width>(answer: &mut Answer, left: &UCString<C>, right: &UCString<C>) {
    compare(answer, &left.as_ucstr(), &right.as_ucstr());
    answer.part();
    compare(answer, left, right);
    answer.decided(hash_of(left) == hash_of(&left.as_ucstr()));
}

fn contents<C: Width>(alloc: Global, answer: &mut Answer, list: &[C], other: &[C]) {
    match c_string_of(alloc, list) {
        Ok(left) => to_contents(alloc, answer, &left, other),
        Err(error) => answer.fail(error),
    }
}

fn to_contents<C: Width>(alloc: Global, answer: &mut Answer, left: &UCString<C>, other: &[C]) {
    match c_string_of(alloc, other) {
        Ok(right) => of_c_strings(answer, left, &right),
        Err(error) => answer.fail(error),
    }
}

// Returns the string of units, with capacity to spare.
fn spacious<C: Width>(alloc: Global, units: &[C]) -> Result<UString<C>, NoAnswer> {
    let mut string = UString::with_capacity(alloc, units.len().saturating_add(10))?;
    string.push_slice(units)?;
    Ok(string)
}

fn unit_strings<C: Width>(alloc: Global, answer: &mut Answer, list: &[C], other: &[C]) {
    match spacious(alloc, list) {
        Ok(left) => to_units(alloc, answer, &left, other),
        Err(error) => answer.fail(error),
    }
}

fn to_units<C: Width>(alloc: Global, answer: &mut Answer, left: &UString<C>, other: &[C]) {
    match Vec::from_slice(alloc, other) {
        Ok(right) => of_strings(
            answer,
            left,
            &UString::from_vec(right),
            hash_of(&left.as_ustr()),
        ),
        Err(_) => answer.fail(NoAnswer::OutOfMemory),
    }
}

// Returns the string of a text, with capacity to spare.
fn spacious_text<C: Width>(alloc: Global, text: UtfStr<'_, C>) -> Result<UtfString<C>, NoAnswer> {
    let mut string = UtfString::with_capacity(alloc, text.len().saturating_add(10))?;
    string.push_utfstr(text)?;
    Ok(string)
}

// Returns the string of a text, which grows as it is made.
fn grown_text<C: Width>(alloc: Global, text: UtfStr<'_, C>) -> Result<UtfString<C>, NoAnswer> {
    let mut string = UtfString::new(alloc);
    string.push_utfstr(text)?;
    Ok(string)
}

fn strings<C: Width>(
    alloc: Global,
    answer: &mut Answer,
    list: UtfStr<'_, C>,
    other: UtfStr<'_, C>,
) {
    match spacious_text(alloc, list) {
        Ok(left) => to_text(alloc, answer, &left, other),
        Err(error) => answer.fail(error),
    }
}

fn to_text<C: Width>(
    alloc: Global,
    answer: &mut Answer,
    left: &UtfString<C>,
    other: UtfStr<'_, C>,
) {
    match grown_text(alloc, other) {
        Ok(right) => of_strings(answer, left, &right, hash_of(&left.as_utfstr())),
        Err(error) => answer.fail(error),
    }
}

// Adds whether a text is equal to the contents of a C string of units, if there is one.
fn with_contents<C: Width>(answer: &mut Answer, alloc: Global, list: UtfStr<'_, C>, other: &[C]) {
    match c_string_of(alloc, other) {
        Ok(string) => {
            answer.decided(list.eq_ucstr(string.as_ucstr()));
            answer.decided(string.as_ucstr().eq_utfstr(list));
        }
        Err(_) => {}
    }
}

// Adds what was asked from both sides.
fn add_both(answer: &mut Answer, asked: Result<[bool; 2], NoAnswer>) {
    match asked {
        Ok(both) => {
            answer.decided(both[0]);
            answer.decided(both[1]);
        }
        Err(error) => answer.fail(error),
    }
}

// Adds whether a text is equal to the text of units at the other width, asked from both sides.
fn with_other_width<C: Width>(
    alloc: Global,
    answer: &mut Answer,
    list: UtfStr<'_, C>,
    other: &[C],
) {
    match text_of(alloc, other) {
        Ok(theirs) => add_both(answer, C::eq_other(list.as_slice(), &theirs, alloc)),
        Err(error) => answer.fail(error),
    }
}

// Adds whether a text is equal to units, to the contents of the C string of them, and to their text at
// the other width.
fn mixed<C: Width>(alloc: Global, answer: &mut Answer, list: UtfStr<'_, C>, other: &[C]) {
    let view = UStr::from_slice(other);
    answer.decided(list.eq_ustr(view));
    answer.decided(view.eq_utfstr(list));
    answer.part();
    with_contents(answer, alloc, list, other);
    answer.part();
    if as_text(other).is_ok() {
        with_other_width(alloc, answer, list, other);
    }
}

fn with_str<C: Width>(alloc: Global, answer: &mut Answer, list: UtfStr<'_, C>, other: &[C]) {
    match text_of(alloc, other) {
        Ok(theirs) => answer.decided(list.eq_str(&theirs)),
        Err(error) => answer.fail(error),
    }
}

fn characters<C: Width>(alloc: Global, units: &[C]) -> Result<Vec<char>, NoAnswer> {
    let mut chars = Vec::new(alloc);
    for c in UStr::from_slice(units).chars_lossy() {
        chars.push(c)?;
    }
    Ok(chars)
}

fn is_chars<C: Width>(answer: &mut Answer, list: &[C], chars: &[char]) {
    match C::eq_chars(list, chars) {
        Ok(holds) => answer.decided(holds),
        Err(error) => answer.fail(error),
    }
}

fn eq_chars<C: Width>(alloc: Global, answer: &mut Answer, list: &[C], other: &[C]) {
    match characters(alloc, other) {
        Ok(chars) => is_chars(answer, list, &chars),
        Err(error) => answer.fail(error),
    }
}

fn of_texts<C: Width>(
    alloc: Global,
    answer: &mut Answer,
    kind: Kind,
    list: UtfStr<'_, C>,
    other: &[C],
) {
    match (kind, as_text(other)) {
        (Kind::Texts, Ok(other)) => compare(answer, &list, &other),
        (Kind::Strings, Ok(other)) => strings(alloc, answer, list, other),
        (Kind::Mixed, _) => mixed(alloc, answer, list, other),
        (Kind::Str, _) => with_str(alloc, answer, list, other),
        _ => answer.fail(NoAnswer::Unparsed),
    }
}

fn of_lists<C: Width>(alloc: Global, answer: &mut Answer, kind: Kind, list: &[C], other: &[C]) {
    match kind {
        Kind::Units => compare(answer, &UStr::from_slice(list), &UStr::from_slice(other)),
        Kind::UnitStrings => unit_strings(alloc, answer, list, other),
        Kind::Contents => contents(alloc, answer, list, other),
        Kind::Chars => eq_chars(alloc, answer, list, other),
        _ => match as_text(list) {
            Ok(list) => of_texts(alloc, answer, kind, list, other),
            Err(error) => answer.fail(error),
        },
    }
}

/// Adds the answer to a question about two lists of units.
pub fn compared<C: Width>(alloc: Global, answer: &mut Answer, list: &[C], question: &str) {
    let (word, more) = parse::word(question);
    match (parse::named(&KINDS, word), parse::list::<C>(alloc, more)) {
        (Ok(kind), Ok(other)) => of_lists(alloc, answer, kind, list, &other),
        (Err(error), _) | (_, Err(error)) => answer.fail(error),
    }
}
