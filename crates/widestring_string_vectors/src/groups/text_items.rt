//! Strings of text that are extended by items, and made of them.
use crate::groups::outcomes::collected;
use crate::groups::pieces::{How, Text, items, views};
use widestring::utfstring::{BoxedUtfStr, UtfString};
use widestring_replay::parse::{self, Memory};
use widestring_replay::show::{Answer, ReportedUnit};

fn by_chars<'a, C: ReportedUnit>(
    memory: Memory<'a>,
    string: &mut Text<'a, C>,
    answer: &mut Answer,
    how: How,
    lists: &str,
) {
    match items::<C, char>(memory.alloc, lists) {
        Ok(items) => match how {
            How::Extend => answer.done(string.extend_chars(items)),
            How::Make => collected(
                string,
                answer,
                UtfString::from_iter_chars(memory.heap, items),
            ),
        },
        Err(error) => answer.fail(error),
    }
}

fn by_char_refs<'a, C: ReportedUnit>(
    memory: Memory<'a>,
    string: &mut Text<'a, C>,
    answer: &mut Answer,
    how: How,
    lists: &str,
) {
    match items::<C, char>(memory.alloc, lists) {
        Ok(items) => match how {
            How::Extend => answer.done(string.extend_char_refs(&items)),
            How::Make => collected(
                string,
                answer,
                UtfString::from_iter_char_refs(memory.heap, &items),
            ),
        },
        Err(error) => answer.fail(error),
    }
}

fn by_strs<'a, C: ReportedUnit>(
    memory: Memory<'a>,
    string: &mut Text<'a, C>,
    answer: &mut Answer,
    how: How,
    lists: &str,
) {
    match items::<C, String>(memory.alloc, lists) {
        Ok(owners) => of_strs(memory, string, answer, how, &owners),
        Err(error) => answer.fail(error),
    }
}

fn of_strs<'a, C: ReportedUnit>(
    memory: Memory<'a>,
    string: &mut Text<'a, C>,
    answer: &mut Answer,
    how: How,
    owners: &[String],
) {
    match views(memory.alloc, owners) {
        Ok(items) => match how {
            How::Extend => answer.done(string.extend_strs(items)),
            How::Make => collected(
                string,
                answer,
                UtfString::from_iter_strs(memory.heap, items),
            ),
        },
        Err(error) => answer.fail(error),
    }
}

fn by_strings<'a, C: ReportedUnit>(
    memory: Memory<'a>,
    string: &mut Text<'a, C>,
    answer: &mut Answer,
    how: How,
    lists: &str,
) {
    match items::<C, String>(memory.alloc, lists) {
        Ok(items) => match how {
            How::Extend => answer.done(string.extend_strings(items)),
            How::Make => collected(
                string,
                answer,
                UtfString::from_iter_strings(memory.heap, items),
            ),
        },
        Err(error) => answer.fail(error),
    }
}

fn by_utfstrs<'a, C: ReportedUnit>(
    memory: Memory<'a>,
    string: &mut Text<'a, C>,
    answer: &mut Answer,
    how: How,
    lists: &str,
) {
    match items::<C, UtfString<C>>(memory.alloc, lists) {
        Ok(owners) => of_utfstrs(memory, string, answer, how, &owners),
        Err(error) => answer.fail(error),
    }
}

fn of_utfstrs<'a, C: ReportedUnit>(
    memory: Memory<'a>,
    string: &mut Text<'a, C>,
    answer: &mut Answer,
    how: How,
    owners: &[UtfString<C>],
) {
    match views(memory.alloc, owners) {
        Ok(items) => match how {
            How::Extend => answer.done(string.extend_utfstrs(items)),
            How::Make => collected(
                string,
                answer,
                UtfString::from_iter_utfstrs(memory.heap, items),
            ),
        },
        Err(error) => answer.fail(error),
    }
}

fn by_utfstrings<'a, C: ReportedUnit>(
    memory: Memory<'a>,
    string: &mut Text<'a, C>,
    answer: &mut Answer,
    how: How,
    lists: &str,
) {
    match items::<C, UtfString<C>>(memory.alloc, lists) {
        Ok(items) => match how {
            How::Extend => answer.done(string.extend_utfstrings(items)),
            How::Make => collected(
                string,
                answer,
                UtfString::from_iter_utfstrings(memory.heap, items),
            ),
        },
        Err(error) => answer.fail(error),
    }
}

fn by_boxed<'a, C: ReportedUnit>(
    memory: Memory<'a>,
    string: &mut Text<'a, C>,
    answer: &mut Answer,
    how: How,
    lists: &str,
) {
    match items::<C, BoxedUtfStr<C>>(memory.alloc, lists) {
        Ok(items) => match how {
            How::Extend => answer.done(string.extend_boxed(items)),
            How::Make => collected(
                string,
                answer,
                UtfString::from_iter_boxed(memory.heap, items),
            ),
        },
        Err(error) => answer.fail(error),
    }
}

fn by_cows<'a, C: ReportedUnit>(
    memory: Memory<'a>,
    string: &mut Text<'a, C>,
    answer: &mut Answer,
    how: How,
    lists: &str,
) {
    match items::<C, UtfString<C>>(memory.alloc, lists) {
        Ok(owners) => of_cows(memory, string, answer, how, &owners),
        Err(error) => answer.fail(error),
    }
}

fn of_cows<'a, C: ReportedUnit>(
    memory: Memory<'a>,
    string: &mut Text<'a, C>,
    answer: &mut Answer,
    how: How,
    owners: &[UtfString<C>],
) {
    match views(memory.alloc, owners) {
        Ok(items) => match how {
            How::Extend => answer.done(string.extend_cows(items)),
            How::Make => collected(
                string,
                answer,
                UtfString::from_iter_cows(memory.heap, items),
            ),
        },
        Err(error) => answer.fail(error),
    }
}

// The kinds of items.
#[derive(Clone, Copy)]
enum Kind {
    Chars,
    CharRefs,
    Strs,
    Strings,
    Utfstrs,
    Utfstrings,
    Boxed,
    Cows,
}

static KINDS: [(&str, Kind); 8] = [
    ("chars", Kind::Chars),
    ("char_refs", Kind::CharRefs),
    ("strs", Kind::Strs),
    ("strings", Kind::Strings),
    ("utfstrs", Kind::Utfstrs),
    ("utfstrings", Kind::Utfstrings),
    ("boxed", Kind::Boxed),
    ("cows", Kind::Cows),
];

/// Makes a call that takes items, of a kind.
pub fn by_items<'a, C: ReportedUnit>(
    memory: Memory<'a>,
    string: &mut Text<'a, C>,
    answer: &mut Answer,
    how: How,
    kind: &str,
    lists: &str,
) {
    match parse::named(&KINDS, kind) {
        Ok(Kind::Chars) => by_chars(memory, string, answer, how, lists),
        Ok(Kind::CharRefs) => by_char_refs(memory, string, answer, how, lists),
        Ok(Kind::Strs) => by_strs(memory, string, answer, how, lists),
        Ok(Kind::Strings) => by_strings(memory, string, answer, how, lists),
        Ok(Kind::Utfstrs) => by_utfstrs(memory, string, answer, how, lists),
        Ok(Kind::Utfstrings) => by_utfstrings(memory, string, answer, how, lists),
        Ok(Kind::Boxed) => by_boxed(memory, string, answer, how, lists),
        Ok(Kind::Cows) => by_cows(memory, string, answer, how, lists),
        Err(error) => answer.fail(error),
    }
}
