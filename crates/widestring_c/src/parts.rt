//! Converts as much of a text as fits into a buffer of the caller, up to a fault.
ghost use Rattle.std.specs.Prelude.{◌≡◌, ◌*◌, ◌<◌, ◌≤◌, ◌-◌, ◌^◌, IfNone, IfSome, length, map, take, drop};
ghost use Rattle.wide_forms.specs.EncodingForm.{Utf16, Utf32, code_units};
ghost use Rattle.wide_forms.specs.Items.{items};
ghost use Rattle.wide_forms.specs.Utf8.{utf8_bytes};
ghost use Rattle.wide_conversions.specs.Utf8Items.{utf8_items};
ghost use Rattle.widestring_c.specs.Parts.{BeginWithNoChar, BeginsWithChar, Converts, IsPart};

use crate::between::put_recoded;
use crate::caller_buffer::put_items;
use crate::from_utf8::put_text;
use crate::to_utf8::put_chunks;
use wide_conversions::first_utf8_chunk;
use wide_forms::Progress;
use wide_from_units::array_sizes::LARGE;
use wide_unit::{Unit, char_of, next_code_point, put_char, split_first, valid_len};

// The size, in units, of the array through which units are converted.
const CHUNK_UNITS: usize = 48 * 16;

// While there is space for so many elements, runs of characters are converted that certainly fit. The rest is converted
// character by character.
const RUN: usize = 64;

// Converts characters to UTF-8, one after another, at the start of the buffer, as many as fit.
fn put_utf8_characters<C: Unit>(units: &[C], text: &mut [u8]) -> Progress
    ensures part { IsPart (items C.form) (code_units C.form) utf8_bytes (map C.number units.now) result.read (take result.written text.new) (length text.new - result.written) }
    ensures within { result.written ≤ length text.new }
    ensures beyond { drop result.written text.new ≡ drop result.written text.old }
{
    let mut read = 0;
    let mut written = 0;
    'characters: while let Some((item, _)) = split_first(units.split_at(read).1) {
        let Ok(c) = item else {
            break 'characters;
        };
        if c.len_utf8() > text.len() - written {
            break 'characters;
        }
        let mut bytes = [0; 4];
        written = put_items(text, written, c.encode_utf8(&mut bytes).as_bytes());
        read += C::char_len(c);
    }
    Progress { read, written }
}

// Converts runs of characters to UTF-8 at the start of the buffer while there is much space.
fn put_utf8_runs<C: Unit>(units: &[C], text: &mut [u8], chunk: &mut [u8]) -> Progress
    requires { 64 ≤ length chunk.old }
    ensures converts { Converts (items C.form) (code_units C.form) utf8_bytes (map C.number units.now) result.read (take result.written text.new) }
    ensures within { result.written ≤ length text.new }
    ensures beyond { drop result.written text.new ≡ drop result.written text.old }
{
    let mut read = 0;
    let mut written = 0;
    'runs: while text.len() - written >= RUN {
        let (_, rest) = units.split_at(read);
        // A unit has at most four bytes.
        let (window, _) = rest.split_at(rest.len().min((text.len() - written) / 4));
        let valid = valid_len(window);
        if valid == 0 {
            break 'runs;
        }
        written = put_chunks(window.split_at(valid).0, text, written, chunk);
        read += valid;
    }
    Progress { read, written }
}

// Converts as many characters to UTF-8 as fit, and stores how many units they have.
fn put_utf8_part<C: Unit>(units: &[C], text: &mut [u8], read: &mut usize) -> usize
    ensures part { IsPart (items C.form) (code_units C.form) utf8_bytes (map C.number units.now) read.new (take result text.new) (length text.new - result) }
    ensures within { result ≤ length text.new }
    ensures beyond { drop result text.new ≡ drop result text.old }
{
    let runs = put_utf8_runs(units, text, &mut [0; LARGE]);
    let (_, tail) = units.split_at(runs.read);
    let last = put_utf8_characters(tail, text.split_at_mut(runs.written).1);
    *read = runs.read + last.read;
    runs.written + last.written
}

/// Converts UTF-16 (Unicode Standard, D91) to UTF-8 (D92), as many characters as fit into `text`, up to the first
/// ill-formed unit. Stores how many units were read, and returns how many bytes were written. The bytes after these are
/// unchanged.
#[unsafe(no_mangle)]
pub extern "C" fn wide_utf16_to_utf8_part(units: &[u16], text: &mut [u8], read: &mut usize) -> usize
    ensures part { IsPart (items Utf16) (code_units Utf16) utf8_bytes units.now read.new (take result text.new) (length text.new - result) }
    ensures within { result ≤ length text.new }
    ensures beyond { drop result text.new ≡ drop result text.old }
{
    put_utf8_part(units, text, read)
}

/// Converts UTF-32 (Unicode Standard, D90) to UTF-8 (D92), as many characters as fit into `text`, up to the first unit
/// that is no scalar value. Stores how many units were read, and returns how many bytes were written. The bytes after
/// these are unchanged.
#[unsafe(no_mangle)]
pub extern "C" fn wide_utf32_to_utf8_part(units: &[u32], text: &mut [u8], read: &mut usize) -> usize
    ensures part { IsPart (items Utf32) (code_units Utf32) utf8_bytes units.now read.new (take result text.new) (length text.new - result) }
    ensures within { result ≤ length text.new }
    ensures beyond { drop result text.new ≡ drop result text.old }
{
    put_utf8_part(units, text, read)
}

// Converts characters to units of another width, one after another, at the start of the buffer, as many as fit.
fn put_unit_characters<C: Unit, D: Unit>(units: &[C], out: &mut [D], chunk: &mut [D]) -> Progress
    requires space { length out.old < 2 ^ 64 - 1 }
    requires chunk { 2 ≤ length chunk.old }
    ensures part { IsPart (items C.form) (code_units C.form) (code_units D.form) (map C.number units.now) result.read (map D.number (take result.written out.new)) (length out.new - result.written) }
    ensures within { result.written ≤ length out.new }
    ensures beyond { drop result.written out.new ≡ drop result.written out.old }
{
    let mut read = 0;
    let mut written = 0;
    'characters: while let Some((item, _)) = split_first(units.split_at(read).1) {
        let Ok(c) = item else {
            break 'characters;
        };
        let len = put_char(chunk, 0, c);
        if len > out.len() - written {
            break 'characters;
        }
        written = put_items(out, written, &chunk[..len]);
        read += C::char_len(c);
    }
    Progress { read, written }
}

// Converts runs of characters to units of another width at the start of the buffer while there is much space.
fn put_unit_runs<C: Unit, D: Unit>(units: &[C], out: &mut [D], chunk: &mut [D]) -> Progress
    requires space { length out.old < 2 ^ 64 - 1 }
    requires chunk { 16 ≤ length chunk.old }
    ensures converts { Converts (items C.form) (code_units C.form) (code_units D.form) (map C.number units.now) result.read (map D.number (take result.written out.new)) }
    ensures within { result.written ≤ length out.new }
    ensures beyond { drop result.written out.new ≡ drop result.written out.old }
{
    let mut read = 0;
    let mut written = 0;
    'runs: while out.len() - written >= RUN {
        let (_, rest) = units.split_at(read);
        // A unit becomes at most two units of the other width.
        let (window, _) = rest.split_at(rest.len().min((out.len() - written) / 2));
        let valid = valid_len(window);
        if valid == 0 {
            break 'runs;
        }
        written = put_recoded(window.split_at(valid).0, out, written, chunk);
        read += valid;
    }
    Progress { read, written }
}

// Converts as many characters to units of another width as fit, and stores how many units were read.
fn put_unit_part<C: Unit, D: Unit>(
    units: &[C],
    out: &mut [D],
    read: &mut usize,
    chunk: &mut [D],
) -> usize
    requires space { length out.old < 2 ^ 64 - 1 }
    requires chunk { 16 ≤ length chunk.old }
    ensures part { IsPart (items C.form) (code_units C.form) (code_units D.form) (map C.number units.now) read.new (map D.number (take result out.new)) (length out.new - result) }
    ensures within { result ≤ length out.new }
    ensures beyond { drop result out.new ≡ drop result out.old }
{
    let runs = put_unit_runs(units, out, chunk);
    let (_, tail) = units.split_at(runs.read);
    let last = put_unit_characters(tail, out.split_at_mut(runs.written).1, chunk);
    *read = runs.read + last.read;
    runs.written + last.written
}

/// Converts UTF-16 (Unicode Standard, D91) to UTF-32 (D90), as many characters as fit into `scalars`, up to the first
/// ill-formed unit. Stores how many units were read, and returns how many were written. The units after these are
/// unchanged.
#[unsafe(no_mangle)]
pub extern "C" fn wide_utf16_to_utf32_part(
    units: &[u16],
    scalars: &mut [u32],
    read: &mut usize,
) -> usize
    ensures part { IsPart (items Utf16) (code_units Utf16) (code_units Utf32) units.now read.new (take result scalars.new) (length scalars.new - result) }
    ensures within { result ≤ length scalars.new }
    ensures beyond { drop result scalars.new ≡ drop result scalars.old }
{
    put_unit_part(units, scalars, read, &mut [0; CHUNK_UNITS])
}

/// Converts UTF-32 (Unicode Standard, D90) to UTF-16 (D91), as many characters as fit into `units`, up to the first
/// unit that is no scalar value. Stores how many units were read, and returns how many were written. The units after
/// these are unchanged.
#[unsafe(no_mangle)]
pub extern "C" fn wide_utf32_to_utf16_part(
    scalars: &[u32],
    units: &mut [u16],
    read: &mut usize,
) -> usize
    ensures part { IsPart (items Utf32) (code_units Utf32) (code_units Utf16) scalars.now read.new (take result units.new) (length units.new - result) }
    ensures within { result ≤ length units.new }
    ensures beyond { drop result units.new ≡ drop result units.old }
{
    put_unit_part(scalars, units, read, &mut [0; CHUNK_UNITS])
}

// Returns the character at the beginning of some bytes, or `None` if they are empty or begin with a fault.
fn first_char(text: &[u8]) -> Option<char>
    ensures some { IfSome result (λ c. BeginsWithChar text.now c) }
    ensures none { IfNone result (BeginWithNoChar (utf8_items text.now)) }
{
    let (window, _) = text.split_at(text.len().min(4));
    let valid = first_utf8_chunk(window).valid;
    if valid == 0 {
        return None;
    }
    match next_code_point(window.split_at(valid).0) {
        Some((code, _)) => Some(char_of(code)),
        None => None,
    }
}

// Converts characters of UTF-8 to units, one after another, at the start of the buffer, as many as fit.
fn put_decoded_characters<D: Unit>(text: &[u8], units: &mut [D], chunk: &mut [D]) -> Progress
    requires space { length units.old < 2 ^ 64 - 1 }
    requires chunk { 2 ≤ length chunk.old }
    ensures part { IsPart utf8_items utf8_bytes (code_units D.form) text.now result.read (map D.number (take result.written units.new)) (length units.new - result.written) }
    ensures within { result.written ≤ length units.new }
    ensures beyond { drop result.written units.new ≡ drop result.written units.old }
{
    let mut read = 0;
    let mut written = 0;
    'characters: while let Some(c) = first_char(text.split_at(read).1) {
        let len = put_char(chunk, 0, c);
        if len > units.len() - written {
            break 'characters;
        }
        written = put_items(units, written, &chunk[..len]);
        read += c.len_utf8();
    }
    Progress { read, written }
}

// Converts runs of characters of UTF-8 to units at the start of the buffer while there is much space.
fn put_decoded_runs<D: Unit>(text: &[u8], units: &mut [D], chunk: &mut [D]) -> Progress
    requires space { length units.old < 2 ^ 64 - 1 }
    requires chunk { 2 ≤ length chunk.old }
    ensures converts { Converts utf8_items utf8_bytes (code_units D.form) text.now result.read (map D.number (take result.written units.new)) }
    ensures within { result.written ≤ length units.new }
    ensures beyond { drop result.written units.new ≡ drop result.written units.old }
{
    let mut read = 0;
    let mut written = 0;
    'runs: while units.len() - written >= RUN {
        let (_, rest) = text.split_at(read);
        // A byte becomes at most one unit.
        let (window, _) = rest.split_at(rest.len().min(units.len() - written));
        let valid = first_utf8_chunk(window).valid;
        if valid == 0 {
            break 'runs;
        }
        written = put_text(window.split_at(valid).0, units, written, chunk);
        read += valid;
    }
    Progress { read, written }
}

// Converts as many characters of UTF-8 to units as fit, and stores how many bytes were read.
fn put_decoded_part<D: Unit>(
    text: &[u8],
    units: &mut [D],
    read: &mut usize,
    chunk: &mut [D],
) -> usize
    requires space { length units.old < 2 ^ 64 - 1 }
    requires chunk { 2 ≤ length chunk.old }
    ensures part { IsPart utf8_items utf8_bytes (code_units D.form) text.now read.new (map D.number (take result units.new)) (length units.new - result) }
    ensures within { result ≤ length units.new }
    ensures beyond { drop result units.new ≡ drop result units.old }
{
    let runs = put_decoded_runs(text, units, chunk);
    let (_, tail) = text.split_at(runs.read);
    let last = put_decoded_characters(tail, units.split_at_mut(runs.written).1, chunk);
    *read = runs.read + last.read;
    runs.written + last.written
}

/// Converts UTF-8 (Unicode Standard, D92) to UTF-16 (D91), as many characters as fit into `units`, up to the first
/// ill-formed sequence. Stores how many bytes were read, and returns how many units were written. The units after these
/// are unchanged.
#[unsafe(no_mangle)]
pub extern "C" fn wide_utf8_to_utf16_part(text: &[u8], units: &mut [u16], read: &mut usize) -> usize
    ensures part { IsPart utf8_items utf8_bytes (code_units Utf16) text.now read.new (take result units.new) (length units.new - result) }
    ensures within { result ≤ length units.new }
    ensures beyond { drop result units.new ≡ drop result units.old }
{
    put_decoded_part(text, units, read, &mut [0; CHUNK_UNITS])
}

/// Converts UTF-8 (Unicode Standard, D92) to UTF-32 (D90), as many characters as fit into `scalars`, up to the first
/// ill-formed sequence. Stores how many bytes were read, and returns how many units were written. The units after these
/// are unchanged.
#[unsafe(no_mangle)]
pub extern "C" fn wide_utf8_to_utf32_part(
    text: &[u8],
    scalars: &mut [u32],
    read: &mut usize,
) -> usize
    ensures part { IsPart utf8_items utf8_bytes (code_units Utf32) text.now read.new (take result scalars.new) (length scalars.new - result) }
    ensures within { result ≤ length scalars.new }
    ensures beyond { drop result scalars.new ≡ drop result scalars.old }
{
    put_decoded_part(text, scalars, read, &mut [0; CHUNK_UNITS])
}
