//! Makes edits, at indices of characters, of a text with an offset index, and of two texts in lockstep.

use crate::digest::Digest;
use crate::random::Random;
use crate::texts::Words;
use std::alloc::Global;
use widestring::edit::{Edit, Marked16, Reply, run, run_both};
use widestring::error::OutOfMemory;
use widestring::{Utf16String, Utf32String};

const CHARS: usize = 100_000;

const EDITS: usize = 300;

const KEPT: &[char] = &[
    'a', 'b', 'c', 'd', 'e', 'f', 'g', 'h', 'i', 'j', 'k', 'l', 'm', 'n', 'o', 'p', 'q', 'r', 's',
];

// Appends characters of which each third is beyond U+FFFF.
fn push_awkward(words: &mut Words, count: usize, units: &mut Vec<u16>) -> Result<(), OutOfMemory> {
    for _ in 0..count {
        words.push_ascii(units, "ab")?;
        let low = words.random.below(64).saturating_add(0xde00);
        units.push(0xd83d)?;
        units.push(u16::try_from(low).unwrap_or(0xde00))?;
    }
    Ok(())
}

// Appends words, or characters of which each third is beyond U+FFFF.
fn push_text(words: &mut Words, is_awkward: bool, units: &mut Vec<u16>) -> Result<(), OutOfMemory> {
    let count = words.size(CHARS);
    units.reserve(count.saturating_mul(2))?;
    if is_awkward {
        push_awkward(words, count / 3, units)
    } else {
        words.push_many(units, count)
    }
}

// Returns a text of words, or of characters of which each third is beyond U+FFFF.
fn text(words: &mut Words, is_awkward: bool) -> Result<Utf16String, OutOfMemory> {
    let mut units = Vec::new(words.alloc);
    push_text(words, is_awkward, &mut units)?;
    match Utf16String::from_vec(units) {
        Ok(text) => Ok(text),
        Err(_ill_formed) => Ok(Utf16String::new(words.alloc)),
    }
}

// Returns one of the words.
fn word_of<'a>(random: &mut Random, texts: &'a [String]) -> &'a str {
    match texts.get(random.below(texts.len().max(1))) {
        Some(word) => word.as_str(),
        None => "",
    }
}

// Returns about how many characters a text of `count` has after an edit of a kind.
fn count_after(kind: usize, count: usize, near_end: usize) -> usize {
    match kind {
        2 | 22..28 => count.saturating_sub(1),
        3 | 4 => near_end,
        28..32 => count.saturating_sub(10),
        _ => count,
    }
}

// Returns an edit of a text of about `count` characters, which it updates. The indices of an awkward one are near the
// beginning.
fn edit<'a>(
    random: &mut Random,
    texts: &'a [String],
    count: &mut usize,
    is_awkward: bool,
) -> Edit<'a> {
    let limit = if is_awkward {
        200
    } else {
        count.saturating_sub(20)
    };
    let at = random.below(limit.max(1));
    let end = at.saturating_add(random.below(10));
    let word = word_of(random, texts);
    let near_end = count.saturating_sub(random.below(20));
    let letter = random.char_of(0x61, 26);
    let kind = random.below(40);
    *count = count_after(kind, *count, near_end);
    match kind {
        0 => Edit::Push(letter),
        1 => Edit::PushStr(word),
        2 => Edit::Pop,
        3 => Edit::Truncate(near_end),
        4 => Edit::SplitOff(near_end),
        5..14 => Edit::Insert(at, letter),
        14..22 => Edit::InsertStr(at, word),
        22..28 => Edit::Remove(at),
        28..32 => Edit::Drain(at, end),
        _ => Edit::Replace(at, end, word),
    }
}

// Appends edits of a text of `count` characters, of all kinds but `Retain` and `Clear`.
fn push_edits<'a>(
    random: &mut Random,
    texts: &'a [String],
    count: usize,
    is_awkward: bool,
    list: &mut Vec<Edit<'a>>,
) -> Result<(), OutOfMemory> {
    let mut count = count;
    for _ in 0..EDITS {
        list.push(edit(random, texts, &mut count, is_awkward))?;
    }
    Ok(())
}

fn add_chars(chars: &[char], digest: &mut Digest) {
    digest.number(chars.len() as u64);
    for c in chars {
        digest.number(u64::from(*c as u32));
    }
}

fn add_reply(reply: &Reply, digest: &mut Digest) {
    let number = match reply {
        Reply::Done => 1,
        Reply::Char(c) => u64::from(*c as u32),
        Reply::NoChar => 2,
        Reply::Chars(chars) => return add_chars(chars.as_slice(), digest),
        Reply::BadPlace => 3,
        Reply::BadRange => 4,
    };
    digest.number(number);
}

fn add_replies(replies: &[Reply], digest: &mut Digest) {
    for reply in replies {
        add_reply(reply, digest);
    }
}

fn add_marked(marked: &Marked16, digest: &mut Digest) {
    for mark in marked.marks() {
        digest.number(*mark as u64);
    }
    digest.units(marked.as_utfstr().as_slice());
}

// Makes edits of a text, and adds what it contains then.
fn make(
    alloc: Global,
    marked: &mut Marked16,
    list: &[Edit<'_>],
    replies: &mut Vec<Reply>,
    digest: &mut Digest,
) -> Result<(), OutOfMemory> {
    match run(alloc, marked, list, replies) {
        Ok(()) => {
            add_marked(marked, digest);
            Ok(())
        }
        Err(_stopped) => Err(OutOfMemory),
    }
}

// Makes edits of a text, and then a `Retain` and a `Clear`.
fn make_all(
    alloc: Global,
    marked: &mut Marked16,
    list: &[Edit<'_>],
    replies: &mut Vec<Reply>,
    digest: &mut Digest,
) -> Result<(), OutOfMemory> {
    make(alloc, marked, list, replies, digest)?;
    make(alloc, marked, &[Edit::Retain(KEPT)], replies, digest)?;
    make(alloc, marked, &[Edit::Clear], replies, digest)
}

// Returns a text with an offset index.
fn marked_text(words: &mut Words, is_awkward: bool) -> Result<Marked16, OutOfMemory> {
    match Marked16::new(words.alloc, text(words, is_awkward)?) {
        Ok(marked) => Ok(marked),
        Err(_error) => Err(OutOfMemory),
    }
}

// Edits a text with an offset index.
fn edit_marked(
    words: &mut Words,
    is_awkward: bool,
    digest: &mut Digest,
) -> Result<(), OutOfMemory> {
    let alloc = words.alloc;
    let count = words.size(CHARS);
    let mut marked = marked_text(words, is_awkward)?;
    let mut list = Vec::new(alloc);
    push_edits(
        &mut words.random,
        &words.texts,
        count,
        is_awkward,
        &mut list,
    )?;
    let mut replies = Vec::new(alloc);
    let made = make_all(alloc, &mut marked, &list, &mut replies, digest);
    add_replies(&replies, digest);
    made
}

// Makes edits of two texts in lockstep, and adds what they contain then, and the replies.
fn make_both(
    alloc: Global,
    narrow: &mut Utf16String,
    wide: &mut Utf32String,
    list: &[Edit<'_>],
    digest: &mut Digest,
) -> Result<(), OutOfMemory> {
    let mut replies = Vec::new(alloc);
    let mut wide_replies = Vec::new(alloc);
    let made = run_both(alloc, narrow, wide, list, &mut replies, &mut wide_replies);
    digest.units(narrow.as_slice());
    digest.wide_units(wide.as_slice());
    add_replies(&replies, digest);
    add_replies(&wide_replies, digest);
    match made {
        Ok(()) => Ok(()),
        Err(_stopped) => Err(OutOfMemory),
    }
}

// Returns a copy of a text in UTF-32.
fn wide_copy(alloc: Global, text: &Utf16String) -> Result<Utf32String, OutOfMemory> {
    Utf32String::from_str(alloc, &text.as_utfstr().to_string(alloc)?)
}

// Edits a text in UTF-16 and its copy in UTF-32 in lockstep.
fn edit_both(words: &mut Words, is_awkward: bool, digest: &mut Digest) -> Result<(), OutOfMemory> {
    let alloc = words.alloc;
    let count = words.size(CHARS);
    let mut narrow = text(words, is_awkward)?;
    let mut wide = wide_copy(alloc, &narrow)?;
    let mut list = Vec::new(alloc);
    push_edits(
        &mut words.random,
        &words.texts,
        count,
        is_awkward,
        &mut list,
    )?;
    make_both(alloc, &mut narrow, &mut wide, &list, digest)
}

/// Edits `rounds` texts of each kind, each fourth an awkward one.
pub fn run_edits(words: &mut Words, rounds: u64, digest: &mut Digest) -> Result<(), OutOfMemory> {
    for round in 0..rounds {
        edit_marked(words, round % 4 == 3, digest)?;
        edit_both(words, round % 4 == 3, digest)?;
    }
    Ok(())
}
