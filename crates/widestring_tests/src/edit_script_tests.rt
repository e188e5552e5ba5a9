//! Random scripts of edits, of strings in UTF-16 and in UTF-32 and of a plain list of characters.
use crate::all_hold::case_holds;
use crate::plain::edit_list;
use crate::random::Random;
use std::alloc::Global;
use widestring::edit::{Edit, Marked16, Reply, Steps, TextEdit, run, run_both};
use widestring::error::FaultUnit;
use widestring::utfstring::{UtfStrInUtfstring, UtfString};
use widestring::{Utf16String, Utf32String};

// Returns whether units of UTF-16 are std's encoding of the characters.
fn is_utf16(list: &[char], units: &[u16]) -> bool {
    let mut rest = units;
    for c in list {
        match rest.strip_prefix(c.encode_utf16(&mut [0; 2])) {
            Some(beyond) => rest = beyond,
            None => return false,
        }
    }
    rest.is_empty()
}

// Returns whether units of UTF-32 are the characters' numbers in std.
fn is_utf32(list: &[char], units: &[u32]) -> bool {
    units.len() == list.len() && list.iter().zip(units).all(|(c, unit)| *c as u32 == *unit)
}

// Returns whether the entries of the offset index are the offsets of every sixty-fourth character, by std's lengths.
fn are_marks(list: &[char], marks: &[usize]) -> bool {
    let mut units = 0usize;
    let mut rest = marks.iter();
    for (offset, c) in list.iter().enumerate() {
        units = units.saturating_add(c.len_utf16());
        if offset % 64 == 63 && rest.next() != Some(&units) {
            return false;
        }
    }
    rest.next().is_none()
}

// Returns whether both strings hold the characters, and report the right numbers of characters and units.
pub fn hold(list: &[char], first: &Utf16String, second: &Utf32String) -> bool {
    is_utf16(list, first.as_slice())
        & is_utf32(list, second.as_slice())
        & (TextEdit::char_count(first) == list.len())
        & (TextEdit::char_count(second) == list.len())
        & (first.unit_count() == first.len())
        & (second.unit_count() == second.len())
}

// Returns whether both strings hold the characters. The first has an offset index, which must find the end, the middle
// and nothing past the end.
pub fn hold_marked(list: &[char], first: &Marked16, second: &Utf32String) -> bool {
    let units = first.as_utfstr();
    let mut well = is_utf16(list, units.as_slice()) & is_utf32(list, second.as_slice());
    well &= are_marks(list, first.marks());
    well &= TextEdit::char_count(first) == list.len();
    well &= first.unit_count() == units.len();
    let mut steps = Steps::new();
    for index in [0, list.len() / 2, list.len(), list.len().saturating_add(1)] {
        well &= first.unit_offset(index, &mut steps) == units.unit_offset(index);
    }
    well
}

// Returns whether both strings reply so to an edit, which it makes. One of them has an offset index.
fn reply_so(
    alloc: Global,
    first: &mut Marked16,
    second: &mut Utf32String,
    edit: Edit<'_>,
    wanted: &Reply,
) -> bool {
    let (mut replies, mut same) = (Vec::new(alloc), Vec::new(alloc));
    let ran = run_both(alloc, first, second, &[edit], &mut replies, &mut same);
    let well = match (replies.as_slice(), same.as_slice()) {
        ([reply], [same]) => (reply == wanted) & (same == wanted),
        _ => false,
    };
    well & ran.is_ok()
}

// A script of one to eight edits, its replies and the characters that it leaves.
#[derive(Drop)]
struct Script {
    edits: Vec<Edit<'static>>,
    replies: Vec<Reply>,
    list: Vec<char>,
}

impl Script {
    fn new(alloc: Global) -> Script {
        Script {
            edits: Vec::new(alloc),
            replies: Vec::new(alloc),
            list: Vec::new(alloc),
        }
    }

    // Adds an edit, and returns whether both strings reply to it as the list does, and then hold the same characters.
    fn step(
        &mut self,
        alloc: Global,
        first: &mut Marked16,
        second: &mut Utf32String,
        edit: Edit<'static>,
    ) -> bool {
        let Ok(wanted) = edit_list(alloc, &mut self.list, edit) else {
            return false;
        };
        let well = reply_so(alloc, first, second, edit, &wanted)
            && hold_marked(self.list.as_slice(), first, second);
        well & self.edits.push(edit).is_ok() & self.replies.push(wanted).is_ok()
    }

    // Makes a script of the characters of both strings. Returns false if an edit has different effects on the strings
    // and on the list.
    fn make(
        &mut self,
        alloc: Global,
        random: &mut Random,
        first: &mut Marked16,
        second: &mut Utf32String,
    ) -> bool {
        for _ in 0..=random.below(8) {
            let edit = random.edit(self.list.len());
            if !self.step(alloc, first, second, edit) {
                return false;
            }
        }
        true
    }
}

// Returns a string of the text with an offset index.
fn marked(alloc: Global, text: &str) -> Option<Marked16> {
    Marked16::new(alloc, Utf16String::from_str(alloc, text).ok()?).ok()
}

// Makes a script for a text, edit by edit.
fn is_made(alloc: Global, random: &mut Random, text: &str, script: &mut Script) -> bool {
    match (marked(alloc, text), Utf32String::from_str(alloc, text)) {
        (Some(mut first), Ok(mut second)) => {
            script.list.extend(text.chars()).is_ok()
                && script.make(alloc, random, &mut first, &mut second)
        }
        _ => false,
    }
}

// Makes all edits of a script in one call, and returns whether the replies are those of the script.
fn is_run<C: FaultUnit>(alloc: Global, string: &mut UtfString<C>, script: &Script) -> bool {
    let mut replies = Vec::new(alloc);
    run(alloc, string, script.edits.as_slice(), &mut replies).is_ok()
        && replies.as_slice() == script.replies.as_slice()
}

// Returns whether a script has the same effect on strings of the text in one call.
fn is_run_whole(alloc: Global, text: &str, script: &Script) -> bool {
    match (
        Utf16String::from_str(alloc, text),
        Utf32String::from_str(alloc, text),
    ) {
        (Ok(mut first), Ok(mut second)) => {
            is_run(alloc, &mut first, script)
                && is_run(alloc, &mut second, script)
                && hold(script.list.as_slice(), &first, &second)
        }
        _ => false,
    }
}

// Returns whether a random script has the same effect on the strings and on the list, edit by edit and in one call.
fn agrees(alloc: Global, seed: u64) -> bool {
    let mut random = Random::new(seed);
    let mut script = Script::new(alloc);
    match random.text(alloc) {
        Ok(text) => {
            is_made(alloc, &mut random, text.as_str(), &mut script)
                && is_run_whole(alloc, text.as_str(), &script)
        }
        Err(_) => false,
    }
}

#[test]
fn random_scripts(rt: HostRuntime) {
    for seed in 0..20_000 {
        case_holds(&rt, seed, agrees(rt.alloc(), seed as u64));
    }
}

// Returns whether the index of a text is that of a new one.
fn has_new_index(alloc: Global, text: &Marked16) -> bool {
    let Ok(copy) = text.as_utfstr().to_utfstring(alloc) else {
        return false;
    };
    match Marked16::new(alloc, copy) {
        Ok(new) => text.marks() == new.marks(),
        Err(_error) => false,
    }
}

// Makes an edit of a string with an offset index, and returns whether the index is then that of a new one of its text.
fn keeps_index(alloc: Global, text: &mut Marked16, edit: Edit<'_>) -> bool {
    let Ok(space) = text.prepare(alloc, edit) else {
        return false;
    };
    let _reply = text.apply(edit, space);
    has_new_index(alloc, text)
}

// Returns whether twenty small edits of a text each leave the index of the text.
fn keeps_it_each_time(alloc: Global, random: &mut Random, text: &mut Marked16) -> bool {
    for _ in 0..20 {
        let edit = random.small_edit(TextEdit::char_count(text));
        if !keeps_index(alloc, text, edit) {
            return false;
        }
    }
    true
}

// Returns whether twenty small edits of a long text each leave the index of the text.
fn keep_index(alloc: Global, seed: u64) -> bool {
    let mut random = Random::new(seed);
    let Ok(text) = random.long_text(alloc) else {
        return false;
    };
    match marked(alloc, text.as_str()) {
        Some(mut text) => keeps_it_each_time(alloc, &mut random, &mut text),
        None => false,
    }
}

#[test]
fn small_edits_of_long_texts(rt: HostRuntime) {
    for seed in 0..120 {
        case_holds(&rt, seed, keep_index(rt.alloc(), seed as u64));
    }
}
