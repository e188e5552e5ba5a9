//! The string of a script, and the calls that are made of it.

ghost use Rattle.std.specs.Prelude.{◌≡◌};
ghost use Rattle.widestring.specs.EncodingForm.{Utf16};
ghost use Rattle.widestring.specs.Items.{IsWellFormed};

use crate::calls::{Call, call_of};
use crate::strings::{
    code_point_at, edit_both, index_of, is_well_formed, offset_from, slice, to_well_formed,
};
use crate::words::Damage;
use std::alloc::Global;
use widestring::edit::Edit;
use widestring::error::OutOfMemory;
use widestring::{U16String, Utf16Str, Utf16String, Utf32String};

// Makes an edit of the string if it is well formed, and returns the reply and what both encodings hold afterwards.
fn edit(alloc: Global, string: &mut U16String, edit: Edit<'_>) -> Result<String, OutOfMemory>
    ensures { ¬ (IsWellFormed Utf16 string.old.units) → string.new.units ≡ string.old.units }
{
    let text = match Utf16Str::from_slice(string.as_slice()) {
        Ok(text) => text.to_string(alloc)?,
        Err(fault) => {
            let (unit, at) = (fault.cause().unpaired_surrogate(), fault.index());
            return Ok(format!(in alloc; "not well formed, fault {unit:04X} at unit {at}")?);
        }
    };
    let mut narrow = Utf16String::from_str(alloc, &text)?;
    let mut wide = Utf32String::from_str(alloc, &text)?;
    let mut replies = Vec::new(alloc);
    if edit_both(alloc, &mut narrow, &mut wide, edit, &mut replies).is_err() {
        return Err(OutOfMemory);
    }
    let reported = format!(in alloc; "{:?} {narrow:?} {wide:?}", replies.as_slice())?;
    *string = narrow.into_ustring();
    Ok(reported)
}

/// A string of any units, of which calls are made.
#[derive(Drop)]
pub struct Session {
    alloc: Global,
    string: U16String,
}

impl Session {
    /// Returns a session with an empty string.
    pub fn new(alloc: Global) -> Session {
        Session {
            alloc,
            string: U16String::new(alloc),
        }
    }

    // Makes a call that only reads, and returns its result.
    fn ask(&self, call: &Call) -> Result<String, OutOfMemory> {
        let (alloc, units) = (self.alloc, self.string.as_ustr());
        let len = units.len();
        Ok(match call {
            Call::Length => format!(in alloc; "{len}")?,
            Call::IsWellFormed => format!(in alloc; "{}", is_well_formed(units.as_slice()))?,
            Call::ToWellFormed => format!(in alloc;
                "{:?}",
                to_well_formed(alloc, units.as_slice())?
            )?,
            Call::CodePointAt(at) => {
                let at = usize::try_from(*at).unwrap_or(usize::MAX);
                match code_point_at(units.as_slice(), at) {
                    Some(point) => format!(in alloc; "U+{point:04X}")?,
                    None => String::from_str(alloc, "undefined")?,
                }
            }
            Call::Slice(from, to) => {
                let part = slice(units, offset_from(*from, len), offset_from(*to, len));
                format!(in alloc; "{part:?}")?
            }
            Call::IndexOf(needle, from) => {
                let from = usize::try_from(*from).unwrap_or(0);
                match index_of(units, needle.as_ustr(), from) {
                    Some(at) => format!(in alloc; "{at}")?,
                    None => String::from_str(alloc, "-1")?,
                }
            }
            _ => String::new(alloc),
        })
    }

    // Makes a call, and returns its result.
    fn make(&mut self, call: Call) -> Result<String, OutOfMemory> {
        let alloc = self.alloc;
        match call {
            Call::String(string) => {
                let result = format!(in alloc; "{string:?}")?;
                self.string = string;
                Ok(result)
            }
            Call::Insert(at, text) => {
                edit(alloc, &mut self.string, Edit::InsertStr(at, text.as_str()))
            }
            Call::Remove(at) => edit(alloc, &mut self.string, Edit::Remove(at)),
            Call::Replace(from, to, text) => edit(
                alloc,
                &mut self.string,
                Edit::Replace(from, to, text.as_str()),
            ),
            call => self.ask(&call),
        }
    }

    /// Makes the call in a line, and returns its result as a script's console prints it. If the line is no call, what is
    /// wrong in it is returned, and the string stays as it is.
    ///
    /// # Errors
    ///
    /// If an allocation fails. The string stays as it is.
    pub fn answer(&mut self, line: &str) -> Result<Result<String, Damage>, OutOfMemory> {
        match call_of(self.alloc, line)? {
            Ok(call) => Ok(Ok(self.make(call)?)),
            Err(damage) => Ok(Err(damage)),
        }
    }
}
