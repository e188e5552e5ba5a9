//! Conversion of text to lower case and upper case.
ghost use Rattle.std.specs.Prelude.{◌≡◌, ◌++◌, [], option_to_list, IsOk, IfOk, OnOk};
ghost use Rattle.std.specs.Char.Iter.{case_mapping_chars};
ghost use Rattle.std.specs.List.{flat_map};
ghost use Rattle.wide_forms.specs.Offsets.{text_of};
ghost use Rattle.wide_utfstr.specs.View.{units_seen, text_seen};
ghost use Rattle.wide_utfstring.specs.Case.{mapping};

use crate::UtfString;
use std::alloc::Allocator;
use std::char::ToLowercase;
use wide_error::OutOfMemory;
use wide_utferror::FaultUnit;
use wide_utfstr::UtfStr;

// The case to convert to.
#[derive(Clone, Copy)]
pub(crate) enum Case {
    Lower,
    Upper,
}

// Returns the full case mapping of a character. The standard library has one type for both cases.
fn mapped(c: char, case: Case) -> ToLowercase
    ensures { case_mapping_chars result ≡ mapping case c }
{
    match case {
        Case::Lower => c.to_lowercase(),
        Case::Upper => c.to_uppercase(),
    }
}

// Appends a character, if there is one.
fn push_letter<C: FaultUnit, A: Allocator>(
    string: &mut UtfString<C, A>,
    letter: Option<char>,
) -> Result<(), OutOfMemory>
    ensures { OnOk result (text_of C.form C.number string.new.units ≡ text_of C.form C.number string.old.units ++ option_to_list letter) }
{
    match letter {
        Some(c) => string.push(c),
        None => Ok(()),
    }
}

// Appends the characters of a mapping, of which there are at most three.
fn push_letters<C: FaultUnit, A: Allocator>(
    string: &mut UtfString<C, A>,
    mut letters: ToLowercase,
) -> Result<(), OutOfMemory>
    ensures { OnOk result (text_of C.form C.number string.new.units ≡ text_of C.form C.number string.old.units ++ case_mapping_chars letters) }
{
    let first = letters.next();
    let second = letters.next();
    let third = letters.next();
    push_letter(string, first)?;
    push_letter(string, second)?;
    push_letter(string, third)
}

// Converts text to a case. It allocates once for as many units as the text has, since most characters keep their
// length, and again only if the text grows beyond them.
pub(crate) fn in_case<C: FaultUnit, A: Allocator>(
    text: UtfStr<'_, C>,
    case: Case,
    alloc: A,
) -> Result<UtfString<C, A>, OutOfMemory>
    ensures text { IfOk result (λ s. text_of C.form C.number s.units ≡ flat_map (mapping case) (text_seen text.entry)) }
    ensures empty { units_seen text.entry ≡ [] → IsOk result }
{
    let mut string = UtfString::with_capacity(alloc, text.len())?;
    for c in text.chars() {
        push_letters(&mut string, mapped(c, case))?;
    }
    Ok(string)
}
