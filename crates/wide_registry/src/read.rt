//! What a part says, and what is damaged in it.

ghost use Rattle.std.specs.Prelude.{◌≡◌, ◌<◌, ◌≤◌, ◌-◌, [], ◌∷◌, IfOk, IfSome, drop, MatchOption, OnOk, false, true, length, nat_lt, vec_len};
ghost use Rattle.wide_forms.specs.EncodingForm.{Utf16};
ghost use Rattle.wide_forms.specs.Items.{IsWellFormed};
ghost use Rattle.wide_registry.specs.Entries.{Begins, EndsInBytes, EndsInData, HasGoodEscapes, IsEscaped, is_comment, is_data, is_header, is_read, is_value, says_nothing};

use crate::bytes::{AT, OPENING, SEMICOLON, note_bytes};
use crate::damage::Kind;
use crate::digits::number_of;
use crate::entry::{Data, Entry, Key, Value, assignment_of, header_of, typed_bytes};
use crate::line::{
    after, first_line, is_blank, last_units, split_before, without_blanks, without_end,
    without_last_blanks,
};
use crate::notes::Notes;
use crate::root::{has_known_root, root_of};
use crate::string::{QUOTE, closing_quote, note_escapes};
use wide_error::OutOfMemory;
use wide_unit::find_fault;

const CLOSING: u16 = b']' as u16;

const NUMBER_SIGN: u16 = b'#' as u16;

// Where a part is: whether it is the first one, and whether a key is above it.
#[derive(Clone, Copy)]
pub struct Context {
    pub is_first: bool,
    pub has_key: bool,
}

// Returns whether a line has nothing or a comment, without the blanks at its beginning.
fn is_comment(line: &[u16]) -> bool
    ensures { result ≡ is_comment line.now }
{
    matches!(line, [] | [SEMICOLON | NUMBER_SIGN, ..])
}

// Returns whether only blanks and a comment follow data.
fn is_over(behind: &[u16]) -> bool {
    matches!(without_blanks(behind), [] | [SEMICOLON, ..])
}

// Returns what is between brackets, if it does not begin with a blank. The last bracket of a line is the second one.
fn path_of(key: &[u16]) -> Option<&[u16]> {
    let at = key.iter().rposition(|unit| *unit == CLOSING)?;
    let (path, _) = key.split_at(at);
    match path {
        [first, ..] if is_blank(*first) => None,
        _ => Some(path),
    }
}

// Reads a key. `key` is what follows its bracket, before the last `left` units of the part.
fn read_key<'a>(
    notes: &mut Notes<'a>,
    key: &'a [u16],
    left: usize,
) -> Result<Option<Key<'a>>, OutOfMemory>
    ensures same { notes.new.len ≡ notes.old.len }
    ensures kept { OnOk result (vec_len notes.old.damages ≤ vec_len notes.new.damages) }
    ensures noted { IfOk result (λ key. MatchOption key (vec_len notes.old.damages < vec_len notes.new.damages) (λ key. nat_lt 0 (length key.path.now) ≡ false → vec_len notes.old.damages < vec_len notes.new.damages)) }
{
    let from_key = left.saturating_add(key.len());
    let from_bracket = from_key.saturating_add(1);
    let Some(path) = path_of(key) else {
        notes.push(from_bracket, Kind::NoKey)?;
        return Ok(None);
    };
    let (path, is_deleted) = match after(path, "-") {
        Some(path) => (path, true),
        None => (path, false),
    };
    if path.is_empty() {
        notes.push(from_bracket, Kind::NoKey)?;
    } else if !has_known_root(path) {
        let from_root = from_key.saturating_sub(usize::from(is_deleted));
        notes.push(from_root, Kind::UnknownRoot(root_of(path)))?;
    }
    Ok(Some(Key { path, is_deleted }))
}

// Reads a string. `text` is what follows its quote, all that is left of the part.
fn read_string<'a>(notes: &mut Notes<'a>, text: &'a [u16]) -> Result<Data<'a>, OutOfMemory>
    ensures same { notes.new.len ≡ notes.old.len }
    ensures kept { OnOk result (vec_len notes.old.damages ≤ vec_len notes.new.damages) }
    ensures noted { IfOk result (λ found. is_data found ≡ false → vec_len notes.old.damages < vec_len notes.new.damages) }
    ensures digits { IfOk result (λ found. EndsInData text.now found) }
    ensures escapes { IfOk result (λ found. vec_len notes.new.damages ≤ vec_len notes.old.damages → HasGoodEscapes found) }
{
    let Some(at) = closing_quote(text) else {
        let line = first_line(text);
        let left = text.len().saturating_sub(line.units.len());
        notes.push(text.len(), Kind::NoStringEnd)?;
        note_escapes(notes, line.units, left)?;
        return Ok(Data::Damaged);
    };
    let (string, behind) = text.split_at(at);
    note_escapes(notes, string, behind.len())?;
    let behind = last_units(behind, behind.len().saturating_sub(1));
    let line = first_line(behind);
    if is_over(line.units) {
        return Ok(Data::Text(string));
    }
    let left = behind.len().saturating_sub(line.units.len());
    let from_more = left.saturating_add(without_blanks(line.units).len());
    notes.push(from_more, Kind::BehindString)?;
    Ok(Data::Damaged)
}

// Reads a number. `digits` is what follows the colon in its line.
fn read_number(digits: &[u16]) -> Option<u32> {
    let digits = without_last_blanks(split_before(digits, SEMICOLON).0);
    number_of(without_blanks(digits))
}

// Reads what follows `=` in its line, before the last `left` units of the part.
fn read_data<'a>(
    notes: &mut Notes<'a>,
    part: &'a [u16],
    data: &'a [u16],
    left: usize,
) -> Result<Data<'a>, OutOfMemory>
    ensures same { notes.new.len ≡ notes.old.len }
    ensures kept { OnOk result (vec_len notes.old.damages ≤ vec_len notes.new.damages) }
    ensures noted { IfOk result (λ found. is_data found ≡ false → vec_len notes.old.damages < vec_len notes.new.damages) }
    ensures digits { IfOk result (λ found. EndsInData part.now found) }
    ensures escapes { IfOk result (λ found. vec_len notes.new.damages ≤ vec_len notes.old.damages → HasGoodEscapes found) }
{
    if let Some(string) = after(data, "\"") {
        return read_string(notes, last_units(part, left.saturating_add(string.len())));
    }
    if let Some((kind, digits)) = typed_bytes(data) {
        let digits = last_units(part, left.saturating_add(digits.len()));
        note_bytes(notes, digits)?;
        return Ok(Data::Bytes(kind, digits));
    }
    let from_data = left.saturating_add(data.len());
    if let Some(digits) = after(data, "dword:") {
        let Some(number) = read_number(digits) else {
            notes.push(from_data, Kind::NoNumber)?;
            return Ok(Data::Damaged);
        };
        return Ok(Data::Number(number));
    }
    match after(data, "-") {
        Some(behind) if is_over(behind) => Ok(Data::Deleted),
        _ => {
            notes.push(from_data, Kind::NoData)?;
            Ok(Data::Damaged)
        }
    }
}

// Reads a value. `line` is its first line, before the last `left` units of the part.
fn read_value<'a>(
    notes: &mut Notes<'a>,
    part: &'a [u16],
    line: &'a [u16],
    left: usize,
) -> Result<Option<Value<'a>>, OutOfMemory>
    ensures same { notes.new.len ≡ notes.old.len }
    ensures kept { OnOk result (vec_len notes.old.damages ≤ vec_len notes.new.damages) }
    ensures noted { IfOk result (λ value. MatchOption value (vec_len notes.old.damages < vec_len notes.new.damages) (λ value. is_data value.data ≡ false → vec_len notes.old.damages < vec_len notes.new.damages)) }
    ensures digits { IfOk result (λ value. IfSome value (λ value. EndsInData part.now value.data)) }
    ensures escapes { IfOk result (λ value. IfSome value (λ value. vec_len notes.new.damages ≤ vec_len notes.old.damages → HasGoodEscapes value.data)) }
{
    let from_line = left.saturating_add(line.len());
    let Some(found) = assignment_of(line) else {
        notes.push(from_line, Kind::NoName)?;
        return Ok(None);
    };
    if let Some(name) = found.name {
        let behind = from_line.saturating_sub(name.len()).saturating_sub(1);
        note_escapes(notes, name, behind)?;
    }
    let data = read_data(notes, part, found.data, left)?;
    Ok(Some(Value {
        name: found.name,
        data,
    }))
}

// Reads the first line of a part, and the lines that belong to it.
fn read_entry<'a>(
    notes: &mut Notes<'a>,
    part: &'a [u16],
    context: Context,
) -> Result<Entry<'a>, OutOfMemory>
    ensures same { notes.new.len ≡ notes.old.len }
    ensures kept { OnOk result (vec_len notes.old.damages ≤ vec_len notes.new.damages) }
    ensures noted { IfOk result (λ entry. is_read entry ≡ false → says_nothing part.now ≡ false → vec_len notes.old.damages < vec_len notes.new.damages) }
    ensures digits { IfOk result (λ entry. EndsInBytes part.now entry) }
    ensures escapes { IfOk result (λ entry. vec_len notes.new.damages ≤ vec_len notes.old.damages → IsEscaped entry) }
    ensures begins { IfOk result (λ entry. Begins part.now entry) }
    ensures header { context.is_first ≡ true → IfOk result (λ entry. is_header entry ≡ false → vec_len notes.old.damages < vec_len notes.new.damages) }
    ensures headers { context.is_first ≡ false → IfOk result (λ entry. is_header entry ≡ false) }
    ensures under_key { context.has_key ≡ false → IfOk result (λ entry. is_value entry ≡ true → vec_len notes.old.damages < vec_len notes.new.damages) }
{
    let units = first_line(part).units;
    let left = part.len().saturating_sub(units.len());
    if context.is_first {
        if let Some(header) = header_of(units) {
            return Ok(Entry::Header(header));
        }
        notes.push(part.len(), Kind::NoHeader)?;
    }
    let line = without_blanks(units);
    let from_line = left.saturating_add(line.len());
    if is_comment(line) {
        return Ok(Entry::Nothing);
    }
    match line {
        [OPENING, key @ ..] => match read_key(notes, key, left)? {
            Some(key) => Ok(Entry::Key(key)),
            None => Ok(Entry::Nothing),
        },
        [AT | QUOTE, ..] => {
            if !context.has_key {
                notes.push(from_line, Kind::NoKeyAbove)?;
            }
            match read_value(notes, part, line, left)? {
                Some(value) => Ok(Entry::Value(value)),
                None => Ok(Entry::Nothing),
            }
        }
        _ => {
            notes.push(from_line, Kind::NoEntry)?;
            Ok(Entry::Nothing)
        }
    }
}

// Notes each surrogate that belongs to no pair.
fn note_faults(notes: &mut Notes<'_>, part: &[u16]) -> Result<(), OutOfMemory>
    ensures same { notes.new.len ≡ notes.old.len }
    ensures kept { OnOk result (vec_len notes.old.damages ≤ vec_len notes.new.damages) }
    ensures whole { OnOk result (vec_len notes.new.damages ≤ vec_len notes.old.damages → IsWellFormed Utf16 part.now) }
{
    let mut rest = part;
    while let Some((index, unit)) = find_fault(rest) {
        let left = rest.len() - index;
        notes.push(left, Kind::Fault(unit))?;
        rest = last_units(rest, left - 1);
    }
    Ok(())
}

// Notes each NUL.
fn note_nuls(notes: &mut Notes<'_>, part: &[u16]) -> Result<(), OutOfMemory>
    ensures same { notes.new.len ≡ notes.old.len }
    ensures kept { OnOk result (vec_len notes.old.damages ≤ vec_len notes.new.damages) }
{
    let mut rest = part;
    while let [_, behind @ ..] = split_before(rest, 0).1 {
        notes.push(behind.len().saturating_add(1), Kind::Nul)?;
        rest = behind;
    }
    Ok(())
}

// Reads a part, and notes what is damaged in it.
pub fn read_part<'a>(
    notes: &mut Notes<'a>,
    part: &'a [u16],
    context: Context,
) -> Result<Entry<'a>, OutOfMemory>
    ensures same { notes.new.len ≡ notes.old.len }
    ensures kept { OnOk result (vec_len notes.old.damages ≤ vec_len notes.new.damages) }
    ensures noted { IfOk result (λ entry. is_read entry ≡ false → says_nothing part.now ≡ false → vec_len notes.old.damages < vec_len notes.new.damages) }
    ensures digits { IfOk result (λ entry. EndsInBytes part.now entry) }
    ensures escapes { IfOk result (λ entry. vec_len notes.new.damages ≤ vec_len notes.old.damages → IsEscaped entry) }
    ensures begins { IfOk result (λ entry. Begins part.now entry) }
    ensures well_formed { OnOk result (vec_len notes.new.damages ≤ vec_len notes.old.damages → IsWellFormed Utf16 part.now) }
    ensures line_end { OnOk result (vec_len notes.new.damages ≤ vec_len notes.old.damages → drop (length part.now - 2) part.now ≡ 0xd ∷ 0xa ∷ []) }
    ensures header { context.is_first ≡ true → IfOk result (λ entry. is_header entry ≡ false → vec_len notes.old.damages < vec_len notes.new.damages) }
    ensures headers { context.is_first ≡ false → IfOk result (λ entry. is_header entry ≡ false) }
    ensures under_key { context.has_key ≡ false → IfOk result (λ entry. is_value entry ≡ true → vec_len notes.old.damages < vec_len notes.new.damages) }
{
    let entry = read_entry(notes, part, context)?;
    let end = part.len().saturating_sub(without_end(part).len());
    notes.push_end(last_units(part, end), 0)?;
    note_faults(notes, part)?;
    note_nuls(notes, part)?;
    Ok(entry)
}
