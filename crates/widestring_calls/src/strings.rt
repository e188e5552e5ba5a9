//! Edits of strings, each of a copy of the text.

use crate::input::{Call, Input, length_after, named_in};
use widestring::error::{FaultUnit, OutOfMemory};
use widestring::unit::Unit;
use widestring::ustring::{UStrInUstring, UString};
use widestring::utfstring::UtfString;

/// A call that edits a copy of the text, mostly in its middle.
#[derive(Clone, Copy)]
pub enum Strings {
    TryClone,
    PushStr,
    PushChars,
    InsertUstr,
    InsertChar,
    ReplaceRange,
    RemoveChar,
    Retain,
    RetainChars,
    PopChars,
    Drain,
    SplitOff,
}

static CALLS: [(&str, Strings); 12] = [
    ("try_clone", Strings::TryClone),
    ("push_str", Strings::PushStr),
    ("push_char", Strings::PushChars),
    ("insert_ustr", Strings::InsertUstr),
    ("insert_char", Strings::InsertChar),
    ("replace_range", Strings::ReplaceRange),
    ("remove_char", Strings::RemoveChar),
    ("retain", Strings::Retain),
    ("retain_chars", Strings::RetainChars),
    ("pop_char", Strings::PopChars),
    ("drain", Strings::Drain),
    ("split_off", Strings::SplitOff),
];

// Appends the characters of a text one by one.
fn push_chars<C: FaultUnit>(
    string: &mut UString<C>,
    input: &Input<'_, C>,
) -> Result<(), OutOfMemory> {
    for c in input.units.chars_lossy() {
        string.push_char(c)?;
    }
    Ok(())
}

// Removes the characters from the back one by one.
fn pop_chars<C: FaultUnit>(string: &mut UString<C>) -> u64 {
    let mut sum = 0u64;
    for _ in 0..string.len() {
        if let Some(number) = string.pop_char() {
            sum = sum.wrapping_mul(3).wrapping_add(u64::from(number));
        }
    }
    sum
}

fn copied<C: FaultUnit>(string: &mut UString<C>) -> Result<(), OutOfMemory> {
    *string = string.try_clone()?;
    Ok(())
}

// Removes the character at an offset, if there is one, and returns it, or else the length.
fn without_char<C: FaultUnit>(string: &mut UString<C>, at: usize) -> u64 {
    if at < string.len() {
        u64::from(string.remove_char(at))
    } else {
        string.len() as u64
    }
}

fn retained<C: FaultUnit>(string: &mut UString<C>) -> u64 {
    string.retain(|unit| unit.code() != 0x65);
    string.len() as u64
}

fn retained_chars<C: FaultUnit>(input: &Input<'_, C>) -> Result<u64, OutOfMemory> {
    let mut text: UtfString<C> = UtfString::from_str(input.alloc, input.utf8)?;
    text.retain(|c| c != 'e');
    Ok(text.len() as u64)
}

// Cuts off the second half, and returns its length.
fn split_off<C: FaultUnit>(string: &mut UString<C>) -> Result<u64, OutOfMemory> {
    match string.split_off(string.len() / 2) {
        Ok(rest) => Ok(rest.len() as u64),
        Err(OutOfMemory) => Err(OutOfMemory),
    }
}

impl Call for Strings {
    fn named(name: &str) -> Option<Strings> {
        named_in(&CALLS, name)
    }

    fn make<C: FaultUnit + Ord>(self, input: &Input<'_, C>) -> Result<u64, OutOfMemory> {
        let mut string = input.units.to_ustring(input.alloc)?;
        let middle = string.len() / 2;
        match self {
            Strings::TryClone => length_after(copied(&mut string), string.len()),
            Strings::PushStr => length_after(string.push_str(input.utf8), string.len()),
            Strings::PushChars => length_after(push_chars(&mut string, input), string.len()),
            Strings::InsertUstr => length_after(
                string.insert_ustr(middle, input.needle),
                string.len(),
            ),
            Strings::InsertChar => length_after(string.insert_char(middle, 'x'), string.len()),
            Strings::ReplaceRange => length_after(
                string.replace_range(middle..middle, input.needle),
                string.len(),
            ),
            Strings::RemoveChar => Ok(without_char(&mut string, middle)),
            Strings::Retain => Ok(retained(&mut string)),
            Strings::RetainChars => retained_chars(input),
            Strings::PopChars => Ok(pop_chars(&mut string)),
            Strings::Drain => Ok(string.drain(middle..).len() as u64),
            Strings::SplitOff => split_off(&mut string),
        }
    }
}
