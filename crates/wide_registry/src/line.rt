//! Lines, and what they begin and end with.

ghost use Rattle.std.specs.Prelude.{◌≡◌, ◌<◌, ◌≤◌, ◌+◌, ◌-◌, ◌++◌, ◌==◌, IfSome, drop, length, min, not, position, take};
ghost use Rattle.std.specs.Bool.{OnTrue};
ghost use Rattle.std.specs.List.{before_first};
ghost use Rattle.wide_registry.specs.Lines.{is_blank, is_line_end, line_end, behind_line, without_blanks};

pub const RETURN: u16 = b'\r' as u16;

pub const FEED: u16 = b'\n' as u16;

pub const SPACE: u16 = b' ' as u16;

pub const TAB: u16 = b'\t' as u16;

// U+FEFF. Samba writes it before each line and before each line end of a file.
pub const MARK: u16 = 0xfeff;

/// The first line of a text.
#[derive(Clone, Copy)]
pub struct Line<'a> {
    /// The line without its end.
    pub units: &'a [u16],
    /// Its end: CR LF, or one of both, or nothing at the end of the text.
    pub end: &'a [u16],
    /// What is behind it.
    pub rest: &'a [u16],
}

// Returns the offset of the first line end.
fn offset_of_end(text: &[u16]) -> Option<usize>
    ensures { result ≡ position is_line_end text.now }
{
    text.iter()
        .position(|unit| *unit == RETURN || *unit == FEED)
}

/// Returns the first line of a text. A carriage return alone ends a line too.
pub fn first_line(text: &[u16]) -> Line<'_>
    ensures line { result.units.now ≡ before_first is_line_end text.now }
    ensures end { result.end.now ≡ line_end (result.end.now ++ result.rest.now) }
    ensures parts { text.now ≡ result.units.now ++ result.end.now ++ result.rest.now }
    ensures lengths { length result.units.now + length result.end.now + length result.rest.now ≡ length text.now }
    ensures rest { result.rest.now ≡ behind_line text.now }
    ensures ended { 0 < length result.rest.now → 0 < length result.end.now }
    ensures progress { 0 < length text.now → length result.rest.now < length text.now }
{
    let len = match offset_of_end(text) {
        Some(offset) => offset,
        None => text.len(),
    };
    let (units, behind) = text.split_at(len);
    let (end, rest) = behind.split_at(end_len(behind));
    Line { units, end, rest }
}

// Returns the length of the line end that a text begins with, if there is a text.
fn end_len(text: &[u16]) -> usize
    ensures within { result ≤ length text.now }
    ensures some { 0 < length text.now → 0 < result }
    ensures end { take result text.now ≡ line_end text.now }
{
    match text {
        [RETURN, FEED, ..] => 2,
        [_, ..] => 1,
        [] => 0,
    }
}

// Returns whether a unit is a blank: a space, a tab, or U+FEFF.
pub fn is_blank(unit: u16) -> bool
    ensures { result ≡ is_blank unit }
{
    matches!(unit, SPACE | TAB | MARK)
}

// Returns the offset of the first unit that is no blank.
fn offset_of_other(line: &[u16]) -> Option<usize>
    ensures { result ≡ position (λ unit. not (is_blank unit)) line.now }
{
    line.iter().position(|unit| !is_blank(*unit))
}

// Returns a line without the blanks at its beginning.
pub fn without_blanks(line: &[u16]) -> &[u16]
    ensures blanks { result.now ≡ without_blanks line.now }
    ensures within { length result.now ≤ length line.now }
{
    match offset_of_other(line) {
        Some(offset) => line.split_at(offset).1,
        None => &[],
    }
}

// Returns a line without the blanks at its end.
pub fn without_last_blanks(line: &[u16]) -> &[u16]
    ensures front { result.now ≡ take (length result.now) line.now }
    ensures within { length result.now ≤ length line.now }
{
    match line.iter().rposition(|unit| !is_blank(*unit)) {
        Some(at) => line.split_at(at + 1).0,
        None => &[],
    }
}

// Returns units without the U+FEFF at their end.
pub fn without_last_marks(units: &[u16]) -> &[u16]
    ensures front { result.now ≡ take (length result.now) units.now }
    ensures within { length result.now ≤ length units.now }
{
    match units.iter().rposition(|unit| *unit != MARK) {
        Some(at) => units.split_at(at + 1).0,
        None => &[],
    }
}

/// Returns units without the U+FEFF at their beginning and at their end.
pub fn without_marks(units: &[u16]) -> &[u16]
    ensures { length result.now ≤ length units.now }
{
    match units.iter().position(|unit| *unit != MARK) {
        Some(at) => without_last_marks(units.split_at(at).1),
        None => &[],
    }
}

// Returns the offset of the first unit of this number.
fn offset_of(units: &[u16], unit: u16) -> Option<usize>
    ensures { result ≡ position (λ other. other == unit) units.now }
{
    units.iter().position(|other| *other == unit)
}

// Returns what is before the first unit of this number, and what is from it on; or all, and nothing.
pub fn split_before(units: &[u16], unit: u16) -> (&[u16], &[u16])
    ensures before { result.0.now ≡ before_first (λ other. other == unit) units.now }
    ensures parts { units.now ≡ result.0.now ++ result.1.now }
    ensures lengths { length result.0.now + length result.1.now ≡ length units.now }
{
    match offset_of(units, unit) {
        Some(offset) => units.split_at(offset),
        None => units.split_at(units.len()),
    }
}

// Returns the units after an ASCII text, if they begin with it.
pub fn after<'a>(units: &'a [u16], text: &str) -> Option<&'a [u16]>
    ensures parts { IfSome result (λ rest. units.now ≡ text.now ++ rest.now) }
    ensures within { IfSome result (λ rest. length rest.now ≤ length units.now) }
{
    let mut rest = units;
    for byte in text.as_bytes() {
        match rest {
            [unit, others @ ..] if *unit == u16::from(*byte) => rest = others,
            _ => return None,
        }
    }
    Some(rest)
}

// Returns whether units are an ASCII text.
pub fn is_text(units: &[u16], text: &str) -> bool
    ensures { OnTrue result (units.now ≡ text.now) }
{
    after(units, text).is_some_and(|rest| rest.is_empty())
}

// Returns the last units of a text, at most so many.
pub fn last_units(text: &[u16], len: usize) -> &[u16]
    ensures units { result.now ≡ drop (length text.now - len) text.now }
    ensures len { length result.now ≡ min len (length text.now) }
{
    text.split_at(text.len().saturating_sub(len)).1
}

/// Returns a part without its last line end.
pub fn without_end(part: &[u16]) -> &[u16]
    ensures front { result.now ≡ take (length result.now) part.now }
    ensures within { length result.now ≤ length part.now }
    ensures end { length part.now ≤ length result.now + 2 }
{
    match part {
        [units @ .., RETURN, FEED] => units,
        [units @ .., RETURN | FEED] => units,
        _ => part,
    }
}
