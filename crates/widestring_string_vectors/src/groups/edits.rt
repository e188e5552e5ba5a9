//! Lists of edits of a text, whose offsets count characters. The list is the text's characters, and a question has
//! edits separated by `/`, each a letter and its arguments:
//!
//! - `c`, `s`: `Push`, `PushStr`, with a character, or characters.
//! - `p`, `l`: `Pop`, `Clear`.
//! - `i`, `j`: `Insert`, `InsertStr`, with an offset, a colon, and a character or characters.
//! - `t`, `r`, `o`: `Truncate`, `Remove`, `SplitOff`, with an offset.
//! - `k`: `Retain`, with characters.
//! - `d`, `x`: `Drain`, `Replace`, with two offsets separated by a colon, and for `x` another colon and characters.
//!
//! The answer has a field for each reply: `d` for done, the character that was removed or a `-`, an `s` and the
//! characters that were removed, or `p` and `r` for a bad offset and a bad range. Then come the units of UTF-16 and of
//! UTF-32, and the offset index. Each kind of string makes the edits in one call, two kinds make them together in one
//! call, and a string with an offset index makes them one by one beside a string in UTF-32. The answer is a `?` if two
//! of them differ. A question may also be empty.
use std::alloc::{AllocError, Global};
use widestring::edit::{Edit, Marked16, Reply, Steps, TextEdit, run, run_both};
use widestring::error::OutOfMemory;
use widestring::utfstring::UtfString;
use widestring::{Utf16String, Utf32String};
use widestring_replay::parse::{self, NoAnswer};
use widestring_replay::show::{Answer, ReportedUnit};

// A parsed edit: its letter, and all arguments that a letter may have: offsets, and characters, also as a text.
#[derive(Drop)]
struct Written {
    kind: u8,
    first: usize,
    second: usize,
    text: String,
    chars: Vec<char>,
}

// Returns the arguments of an edit: two offsets, which are 0 if it does not have them, and characters.
fn parts_of(kind: u8, more: &str) -> Result<(usize, usize, &str), NoAnswer> {
    match kind {
        b'c' | b's' | b'k' => Ok((0, 0, more)),
        b'p' | b'l' => {
            parse::no_question(more)?;
            Ok((0, 0, ""))
        }
        b't' | b'r' | b'o' => Ok((parse::value(more)?, 0, "")),
        _ => parts_after_offset(kind, more),
    }
}

// Returns the arguments of an edit with a colon after its first offset.
fn parts_after_offset(kind: u8, more: &str) -> Result<(usize, usize, &str), NoAnswer> {
    let (first, rest) = parse::parts(more)?;
    let first = parse::value(first)?;
    match kind {
        b'i' | b'j' => Ok((first, 0, rest)),
        b'd' => Ok((first, parse::value(rest)?, "")),
        b'x' => {
            let (second, chars) = parse::parts(rest)?;
            Ok((first, parse::value(second)?, chars))
        }
        _ => Err(NoAnswer::Unparsed),
    }
}

// Appends characters.
fn push_chars(text: &mut String, chars: &[char]) -> Result<(), AllocError> {
    for c in chars {
        text.push(*c)?;
    }
    Ok(())
}

fn text_of(alloc: Global, chars: &[char]) -> Result<String, NoAnswer> {
    let mut text = String::new(alloc);
    match push_chars(&mut text, chars) {
        Ok(()) => Ok(text),
        Err(_) => Err(NoAnswer::OutOfMemory),
    }
}

// The letter of an edit, and its arguments: two offsets, and characters, which are not parsed.
type Parts<'q> = (u8, usize, usize, &'q str);

// Splits an edit into its letter and its arguments.
fn split_edit(word: &str) -> Result<Parts<'_>, NoAnswer> {
    let (kind, more) = parse::kind(word)?;
    let (first, second, chars) = parts_of(kind, more)?;
    Ok((kind, first, second, chars))
}

fn with_chars(
    alloc: Global,
    (kind, first, second, _): Parts<'_>,
    chars: Vec<char>,
) -> Result<Written, NoAnswer> {
    match text_of(alloc, &chars) {
        Ok(text) => Ok(Written {
            kind,
            first,
            second,
            text,
            chars,
        }),
        Err(error) => Err(error),
    }
}

fn parse_edit(alloc: Global, word: &str) -> Result<Written, NoAnswer> {
    let parts = split_edit(word)?;
    match parse::list::<char>(alloc, parts.3) {
        Ok(chars) => with_chars(alloc, parts, chars),
        Err(error) => Err(error),
    }
}

impl Written {
    fn only_char(&self) -> Result<char, NoAnswer> {
        match self.chars.as_slice() {
            [c] => Ok(*c),
            _ => Err(NoAnswer::Unparsed),
        }
    }

    fn edit(&self) -> Result<Edit<'_>, NoAnswer> {
        let position = self.first;
        Ok(match self.kind {
            b'c' => Edit::Push(self.only_char()?),
            b's' => Edit::PushStr(self.text.as_str()),
            b'p' => Edit::Pop,
            b'l' => Edit::Clear,
            b'k' => Edit::Retain(self.chars.as_slice()),
            b't' => Edit::Truncate(position),
            b'i' => Edit::Insert(position, self.only_char()?),
            b'j' => Edit::InsertStr(position, self.text.as_str()),
            b'r' => Edit::Remove(position),
            b'o' => Edit::SplitOff(position),
            b'd' => Edit::Drain(position, self.second),
            _ => Edit::Replace(position, self.second, self.text.as_str()),
        })
    }
}

// A text in which edits were made, and their replies.
#[derive(Drop)]
struct Edited<T> {
    text: T,
    replies: Vec<Reply>,
}

// Makes all edits in one call. Their replies come after one that was there before, which is then removed.
fn run_after_one<T: TextEdit>(
    alloc: Global,
    text: &mut T,
    edits: &[Edit<'_>],
    replies: &mut Vec<Reply>,
) -> Result<(), NoAnswer> {
    replies.push(Reply::NoChar)?;
    if run(alloc, text, edits, replies).is_err() {
        return Err(NoAnswer::OutOfMemory);
    }
    if replies.first() != Some(&Reply::NoChar) {
        return Err(NoAnswer::Unparsed);
    }
    replies.remove(0);
    Ok(())
}

// Makes all edits of a text in one call.
fn edit_text<T: TextEdit + Drop>(
    alloc: Global,
    mut text: T,
    edits: &[Edit<'_>],
) -> Result<Edited<T>, NoAnswer> {
    let mut replies = Vec::new(alloc);
    match run_after_one(alloc, &mut text, edits, &mut replies) {
        Ok(()) => Ok(Edited { text, replies }),
        Err(error) => Err(error),
    }
}

// Makes all edits of a text in one call, if there is one.
fn edit_all<T: TextEdit + Drop>(
    alloc: Global,
    text: Result<T, OutOfMemory>,
    edits: &[Edit<'_>],
) -> Result<Edited<T>, NoAnswer> {
    match text {
        Ok(text) => edit_text(alloc, text, edits),
        Err(OutOfMemory) => Err(NoAnswer::OutOfMemory),
    }
}

// Makes edits of two texts in one call, and appends the replies of each.
fn run_together<T: TextEdit, U: TextEdit>(
    alloc: Global,
    first: &mut T,
    second: &mut U,
    edits: &[Edit<'_>],
    ours: &mut Vec<Reply>,
    theirs: &mut Vec<Reply>,
) -> Result<(), NoAnswer> {
    match run_both(alloc, first, second, edits, ours, theirs) {
        Ok(()) => Ok(()),
        Err(_) => Err(NoAnswer::OutOfMemory),
    }
}

// Makes each edit of two texts in a call of its own, and appends the replies of each.
fn run_one_by_one<T: TextEdit, U: TextEdit>(
    alloc: Global,
    first: &mut T,
    second: &mut U,
    edits: &[Edit<'_>],
    ours: &mut Vec<Reply>,
    theirs: &mut Vec<Reply>,
) -> Result<(), NoAnswer> {
    for edit in edits.chunks(1) {
        run_together(alloc, first, second, edit, ours, theirs)?;
    }
    Ok(())
}

// Returns whether two texts make these replies to edits in one call.
fn reply_together<T: TextEdit, U: TextEdit>(
    alloc: Global,
    first: &mut T,
    second: &mut U,
    edits: &[Edit<'_>],
    replies: &[Reply],
) -> Result<bool, NoAnswer> {
    let mut ours = Vec::new(alloc);
    let mut theirs = Vec::new(alloc);
    match run_together(alloc, first, second, edits, &mut ours, &mut theirs) {
        Ok(()) => Ok((ours.as_slice() == replies) & (theirs.as_slice() == replies)),
        Err(error) => Err(error),
    }
}

// Returns whether two texts make these replies to edits in calls of their own.
fn reply_one_by_one<T: TextEdit, U: TextEdit>(
    alloc: Global,
    first: &mut T,
    second: &mut U,
    edits: &[Edit<'_>],
    replies: &[Reply],
) -> Result<bool, NoAnswer> {
    let mut ours = Vec::new(alloc);
    let mut theirs = Vec::new(alloc);
    match run_one_by_one(alloc, first, second, edits, &mut ours, &mut theirs) {
        Ok(()) => Ok((ours.as_slice() == replies) & (theirs.as_slice() == replies)),
        Err(error) => Err(error),
    }
}

fn with_index(alloc: Global, text: Utf16String) -> Result<Marked16, NoAnswer> {
    match Marked16::new(alloc, text) {
        Ok(marked) => Ok(marked),
        Err(_) => Err(NoAnswer::OutOfMemory),
    }
}

fn marked(alloc: Global, text: &str) -> Result<Marked16, NoAnswer> {
    match Utf16String::from_str(alloc, text) {
        Ok(text) => with_index(alloc, text),
        Err(OutOfMemory) => Err(NoAnswer::OutOfMemory),
    }
}

fn show(answer: &mut Answer, reply: &Reply) {
    match reply {
        Reply::Done => answer.word("d"),
        Reply::Char(c) => answer.character(Some(*c)),
        Reply::NoChar => answer.character(None),
        Reply::Chars(chars) => {
            answer.word("s");
            for c in chars {
                answer.character(Some(*c));
            }
        }
        Reply::BadPlace => answer.word("p"),
        Reply::BadRange => answer.word("r"),
    }
}

// Returns whether the offset index of a string finds each character, the end and no character past it, at the offsets
// that std's lengths give.
fn has_offsets(marked: &Marked16, wide: &Utf32String) -> bool {
    let mut steps = Steps::new();
    let mut index = 0usize;
    let mut units = 0usize;
    let mut well = true;
    for c in wide.as_utfstr().chars() {
        well &= marked.unit_offset(index, &mut steps) == Some(units);
        index = index.saturating_add(1);
        units = units.saturating_add(c.len_utf16());
    }
    well &= marked.unit_offset(index, &mut steps) == Some(units);
    well & marked
        .unit_offset(index.saturating_add(1), &mut steps)
        .is_none()
}

// Adds the replies, what they leave and the offset index, whose marks these are.
fn agreed(
    answer: &mut Answer,
    replies: &[Reply],
    marked: Marked16,
    wide: &Utf32String,
    marks: &[usize],
) {
    for reply in replies {
        show(answer, reply);
        answer.part();
    }
    answer.units(marked.into_utfstring().as_slice());
    answer.part();
    answer.units(wide.as_slice());
    answer.part();
    for mark in marks {
        answer.number(u32::try_from(*mark).ok());
    }
}

// Adds what strings leave that agree.
fn left(
    alloc: Global,
    answer: &mut Answer,
    replies: &[Reply],
    marked: Marked16,
    wide: &Utf32String,
) {
    match Vec::from_slice(alloc, marked.marks()) {
        Ok(marks) => agreed(answer, replies, marked, wide, &marks),
        Err(_) => answer.fail(NoAnswer::OutOfMemory),
    }
}

// Returns whether a text has these units.
fn is_text<C: ReportedUnit>(text: &UtfString<C>, units: &[C]) -> bool {
    text.as_slice() == units
}

// Returns whether two strings of both widths reply and become the same when all edits are made in one call.
fn agree_together(
    alloc: Global,
    first: &mut Utf16String,
    second: &mut Utf32String,
    edits: &[Edit<'_>],
    narrow: &Edited<Utf16String>,
    wide: &Edited<Utf32String>,
) -> Result<bool, NoAnswer> {
    let mut same = reply_together(alloc, first, second, edits, &narrow.replies)?;
    same &= is_text(&narrow.text, first.as_slice());
    Ok(same & is_text(&wide.text, second.as_slice()))
}

// Returns whether a string and one in UTF-32 of a text reply and become the same when all edits are made in one call.
fn agree_with_wide(
    alloc: Global,
    text: &str,
    first: &mut Utf16String,
    edits: &[Edit<'_>],
    narrow: &Edited<Utf16String>,
    wide: &Edited<Utf32String>,
) -> Result<bool, NoAnswer> {
    match Utf32String::from_str(alloc, text) {
        Ok(mut second) => agree_together(alloc, first, &mut second, edits, narrow, wide),
        Err(OutOfMemory) => Err(NoAnswer::OutOfMemory),
    }
}

// Returns whether strings of both widths reply and become the same when all edits are made in one call.
fn agree_in_one_call(
    alloc: Global,
    text: &str,
    edits: &[Edit<'_>],
    narrow: &Edited<Utf16String>,
    wide: &Edited<Utf32String>,
) -> Result<bool, NoAnswer> {
    match Utf16String::from_str(alloc, text) {
        Ok(mut first) => agree_with_wide(alloc, text, &mut first, edits, narrow, wide),
        Err(OutOfMemory) => Err(NoAnswer::OutOfMemory),
    }
}

// Returns whether a string with an offset index and one in UTF-32 reply and become the same, and the index is right.
fn agree_with_marks(
    alloc: Global,
    first: &mut Marked16,
    second: &mut Utf32String,
    edits: &[Edit<'_>],
    narrow: &Edited<Utf16String>,
    wide: &Edited<Utf32String>,
) -> Result<bool, NoAnswer> {
    let mut same = reply_one_by_one(alloc, first, second, edits, &narrow.replies)?;
    same &= is_text(&narrow.text, first.as_utfstr().as_slice());
    same &= is_text(&wide.text, second.as_slice());
    Ok(same & has_offsets(first, second))
}

// Edits a string with an offset index one by one beside one in UTF-32, and adds what they leave. Adds a `?` if they do
// not reply the same, or become another text.
fn beside(
    alloc: Global,
    answer: &mut Answer,
    mut first: Marked16,
    second: &mut Utf32String,
    edits: &[Edit<'_>],
    narrow: &Edited<Utf16String>,
    wide: &Edited<Utf32String>,
) {
    match agree_with_marks(alloc, &mut first, second, edits, narrow, wide) {
        Ok(true) => left(alloc, answer, &narrow.replies, first, second),
        Ok(false) => answer.word("?"),
        Err(error) => answer.fail(error),
    }
}

// Edits a string of a text with an offset index beside one in UTF-32, and adds what they leave.
fn beside_wide(
    alloc: Global,
    answer: &mut Answer,
    text: &str,
    second: &mut Utf32String,
    edits: &[Edit<'_>],
    narrow: &Edited<Utf16String>,
    wide: &Edited<Utf32String>,
) {
    match marked(alloc, text) {
        Ok(first) => beside(alloc, answer, first, second, edits, narrow, wide),
        Err(error) => answer.fail(error),
    }
}

// Edits strings of a text, one of them with an offset index, and adds what they leave.
fn with_marks(
    alloc: Global,
    answer: &mut Answer,
    text: &str,
    edits: &[Edit<'_>],
    narrow: &Edited<Utf16String>,
    wide: &Edited<Utf32String>,
) {
    match Utf32String::from_str(alloc, text) {
        Ok(mut second) => beside_wide(alloc, answer, text, &mut second, edits, narrow, wide),
        Err(OutOfMemory) => answer.fail(NoAnswer::OutOfMemory),
    }
}

// Adds what edits reply and leave if strings of both widths reply and become the same in each way, and else a `?`.
fn compared(
    alloc: Global,
    answer: &mut Answer,
    text: &str,
    edits: &[Edit<'_>],
    narrow: &Edited<Utf16String>,
    wide: &Edited<Utf32String>,
) {
    if narrow.replies != wide.replies {
        answer.word("?");
        return;
    }
    match agree_in_one_call(alloc, text, edits, narrow, wide) {
        Ok(true) => with_marks(alloc, answer, text, edits, narrow, wide),
        Ok(false) => answer.word("?"),
        Err(error) => answer.fail(error),
    }
}

// Adds what edits of a text reply and leave, given what they make of it in UTF-16.
fn with_narrow(
    alloc: Global,
    answer: &mut Answer,
    text: &str,
    edits: &[Edit<'_>],
    narrow: &Edited<Utf16String>,
) {
    match edit_all(alloc, Utf32String::from_str(alloc, text), edits) {
        Ok(wide) => compared(alloc, answer, text, edits, narrow, &wide),
        Err(error) => answer.fail(error),
    }
}

// Adds what edits of a text reply and leave.
fn of_text(alloc: Global, answer: &mut Answer, text: &str, edits: &[Edit<'_>]) {
    match edit_all(alloc, Utf16String::from_str(alloc, text), edits) {
        Ok(narrow) => with_narrow(alloc, answer, text, edits, &narrow),
        Err(error) => answer.fail(error),
    }
}

// Parses an edit, and appends it.
fn push_parsed(alloc: Global, words: &mut Vec<Written>, word: &str) -> Result<(), NoAnswer> {
    match words.push(parse_edit(alloc, word)?) {
        Ok(()) => Ok(()),
        Err(_) => Err(NoAnswer::OutOfMemory),
    }
}

// Parses edits, separated by `/`, and appends them.
fn push_all_parsed(
    alloc: Global,
    words: &mut Vec<Written>,
    question: &str,
) -> Result<(), NoAnswer> {
    if question.is_empty() {
        return Ok(());
    }
    for word in question.split('/') {
        push_parsed(alloc, words, word)?;
    }
    Ok(())
}

// Parses edits.
fn parse_edits(alloc: Global, question: &str) -> Result<Vec<Written>, NoAnswer> {
    let mut words = Vec::new(alloc);
    match push_all_parsed(alloc, &mut words, question) {
        Ok(()) => Ok(words),
        Err(error) => Err(error),
    }
}

// Appends the edits that are written.
fn push_edits<'a>(edits: &mut Vec<Edit<'a>>, words: &'a [Written]) -> Result<(), NoAnswer> {
    for word in words {
        edits.push(word.edit()?)?;
    }
    Ok(())
}

// Returns the edits that are written.
fn edits_of(alloc: Global, words: &[Written]) -> Result<Vec<Edit<'_>>, NoAnswer> {
    let mut edits = Vec::new(alloc);
    match push_edits(&mut edits, words) {
        Ok(()) => Ok(edits),
        Err(error) => Err(error),
    }
}

// Parses the characters of a text.
fn parse_text(alloc: Global, list: &str) -> Result<String, NoAnswer> {
    match parse::list::<char>(alloc, list) {
        Ok(chars) => text_of(alloc, &chars),
        Err(error) => Err(error),
    }
}

// Adds what edits of the text of a list reply and leave.
fn of_list(alloc: Global, answer: &mut Answer, list: &str, edits: &[Edit<'_>]) {
    match parse_text(alloc, list) {
        Ok(text) => of_text(alloc, answer, &text, edits),
        Err(error) => answer.fail(error),
    }
}

// Adds what edits reply and leave that are written.
fn of_written(alloc: Global, answer: &mut Answer, list: &str, words: &[Written]) {
    match edits_of(alloc, words) {
        Ok(edits) => of_list(alloc, answer, list, &edits),
        Err(error) => answer.fail(error),
    }
}

/// Adds what edits reply, and what they leave.
pub fn replies(alloc: Global, answer: &mut Answer, list: &str, question: &str) {
    match parse_edits(alloc, question) {
        Ok(words) => of_written(alloc, answer, list, &words),
        Err(error) => answer.fail(error),
    }
}
