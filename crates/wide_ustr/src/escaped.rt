//! Writes a character to a formatter, as it is or as `{:?}` escapes it.
ghost use Rattle.std.specs.Prelude.{◌∷◌, ◌<◌, ℕ, List, [], encode_utf8, encode_utf8_all, IsTrue};
ghost use Rattle.std.specs.Char.Escape.{IsEscapeDebug};
ghost use Rattle.std.specs.Fmt.{WritesStyledOnOk};

use std::fmt;
use wide_unit::write_escape;

// Returns whether a character past ASCII is in one of the blocks below, whose characters std prints unchanged: Latin,
// spacing modifiers, Greek and Cyrillic, general punctuation, arrows and mathematical operators, CJK punctuation, kana,
// CJK ideographs, Hangul syllables, fullwidth forms, pictographs. The second arm rejects the rest below U+2010 early,
// since scripts with many combining marks are there.
#[inline(always)]
fn is_in_unescaped_block(code: u32) -> bool
    ensures { IsTrue result → 0x7F < code }
{
    match code {
        0xA1..=0xAC | 0xAE..=0x2FF | 0x3A3..=0x482 | 0x48A..=0x52F => true,
        0..=0x200F => false,
        0x4E00..=0x9FFF | 0xAC00..=0xD7A3 | 0x3400..=0x4DBF => true,
        0x3041..=0x3096 | 0x309B..=0x30FF | 0x3001..=0x3029 | 0xFF01..=0xFF9D => true,
        0x2010..=0x2027 | 0x2030..=0x205E | 0x2190..=0x2426 | 0x1F300..=0x1F64F => true,
        _ => false,
    }
}

// Returns whether `{:?}` prints a character unchanged, for ASCII and the most frequent other characters. If it returns
// false for another character, std's tables decide.
#[inline(always)]
fn is_unescaped(c: char) -> bool
    ensures { IsTrue result → IsEscapeDebug c (c ∷ []) }
{
    let code = c as u32;
    if code < 0x80 {
        0x20 <= code && code < 0x7F && c != '"' && c != '\'' && c != '\\'
    } else {
        is_in_unescaped_block(code)
    }
}

// Writes a character in one write, as the formatter's `write_char` does. The formatter's call first tests whether the
// bytes are UTF-8, and is not always inlined.
#[inline(always)]
pub(crate) fn write_char<W: fmt::Write>(f: &mut fmt::Formatter<W>, c: char) -> fmt::Result
    ensures { WritesStyledOnOk W.write_str_gives f.old result (encode_utf8 c) f.new }
{
    let mut bytes = [0; 4];
    f.write_str(c.encode_utf8(&mut bytes))
}

// Writes a character as `{:?}` escapes it: each character of the escape by a write of its own. A look-up in std's
// tables takes some hundred nanoseconds, so there is at most one, and none for the most frequent characters.
#[inline(always)]
pub(crate) fn write_debug_char<W: fmt::Write>(f: &mut fmt::Formatter<W>, c: char) -> fmt::Result
    ensures { (xs : List ℕ) × IsEscapeDebug c xs × WritesStyledOnOk W.write_str_gives f.old result (encode_utf8_all xs) f.new }
{
    if is_unescaped(c) {
        write_char(f, c)
    } else {
        write_escape(f, c.escape_debug())
    }
}
