//! Lines of times.

ghost use Rattle.std.specs.Prelude.{◌≡◌, ◌+◌, ◌-◌, ◌*◌, ◌<◌, ◌≤◌, ◌^◌, ◌↔◌, ◌⊎◌, ℕ, IfErr, IfNone, IfOk, IfSome, IsSome, IsTrue, OnErr, drop, length, min, slice_get};
ghost use Rattle.wide_subtitles.specs.Times.{BeginsTime, HasArrow, HasTime, IsFault, IsLineEnd, IsNumber, IsTimesLine, blanks_of, digits_of, is_blank, is_digit, is_usual, number};
ghost use Rattle.wide_subtitles.specs.declared.time.Time.{Time};
ghost use Rattle.wide_subtitles.specs.declared.times.Times.{Times};

use crate::time::Time;

const SPACE: u16 = b' ' as u16;

const TAB: u16 = b'\t' as u16;

const COLON: u16 = b':' as u16;

const COMMA: u16 = b',' as u16;

const POINT: u16 = b'.' as u16;

const MINUS: u16 = b'-' as u16;

const GREATER: u16 = b'>' as u16;

/// The times of a line, and where they are in it, in units.
#[derive(Clone, Copy, Debug, PartialEq, Eq)]
pub struct Times {
    /// When the subtitle appears.
    pub begin: Time,
    /// When it disappears.
    pub end: Time,
    /// Where the first time begins.
    pub first: usize,
    /// Where it ends.
    pub first_end: usize,
    /// Where the second time begins.
    pub second: usize,
    /// Where it ends.
    pub second_end: usize,
}

// Returns whether a unit is a space or a tab.
fn is_blank(unit: u16) -> bool
    ensures { result ≡ is_blank unit }
{
    unit == SPACE || unit == TAB
}

/// Returns whether a unit is a decimal digit.
pub fn is_digit(unit: u16) -> bool
    ensures { result ≡ is_digit unit }
{
    (0x30..=0x39).contains(&unit)
}

// Returns how many blanks units begin with.
fn blanks_len(units: &[u16]) -> usize
    ensures { result ≡ length (blanks_of units.now) }
{
    units.iter().take_while(|unit| is_blank(**unit)).count()
}

/// Returns how many digits units begin with.
pub fn digits_len(units: &[u16]) -> usize
    ensures { result ≡ length (digits_of units.now) }
{
    units.iter().take_while(|unit| is_digit(**unit)).count()
}

// Returns the offset of the first unit from `at` on that is no blank.
fn after_blanks(units: &[u16], at: usize) -> usize
    requires { at ≤ length units.now }
    ensures end { result ≡ at + length (blanks_of (drop at units.now)) }
    ensures within { result ≤ length units.now }
{
    at + blanks_len(&units[at..])
}

// Returns the number that decimal digits are, or 2^32 - 1 if it is greater.
fn value_of(digits: &[u16]) -> u32
    ensures { result ≡ min (number digits.now) (2 ^ 32 - 1) }
{
    let mut value: u32 = 0;
    for digit in digits {
        let digit = u32::from(digit.saturating_sub(0x30));
        value = value.saturating_mul(10).saturating_add(digit);
    }
    value
}

// A number that is read, and where it ends.
#[derive(Clone, Copy)]
struct Number {
    value: u32,
    len: usize,
    end: usize,
}

// Reads a number of at least one digit and at most so many, below a limit. Digits are read as far as they go.
fn number_at(units: &[u16], at: usize, most: usize, limit: u32) -> Option<Number>
    requires { at ≤ length units.now }
    ensures some { IsSome result ↔ IsNumber (digits_of (drop at units.now)) most limit }
    ensures value { IfSome result (λ read. read.value ≡ number (digits_of (drop at units.now))) }
    ensures len { IfSome result (λ read. read.len ≡ length (digits_of (drop at units.now))) }
    ensures end { IfSome result (λ read. read.end ≡ at + length (digits_of (drop at units.now))) }
    ensures within { IfSome result (λ read. read.end ≤ length units.now) }
{
    let len = digits_len(&units[at..]);
    let end = at + len;
    let value = value_of(&units[at..end]);
    if len == 0 || len > most || value >= limit {
        return None;
    }
    Some(Number { value, len, end })
}

// Reads a unit, and returns the offset after it.
fn after_unit(units: &[u16], at: usize, unit: u16) -> Option<usize>
    ensures some { IsSome result ↔ (slice_get units.now at ≡ Some unit) }
    ensures end { IfSome result (λ end. end ≡ at + 1) }
    ensures within { IfSome result (λ end. end ≤ length units.now) }
{
    if at < units.len() && units[at] == unit {
        Some(at + 1)
    } else {
        None
    }
}

// Returns the milliseconds of one to three digits after a comma or a point.
fn thousandths(number: Number) -> u64
    requires some { 0 < number.len }
    requires short { number.len ≤ 3 }
    requires below { number.value < 1000 }
    ensures value { result ≡ number.value * 10 ^ (3 - number.len) }
    ensures below { result < 1000000 }
{
    let value = u64::from(number.value);
    match number.len {
        1 => value * 100,
        2 => value * 10,
        _ => value,
    }
}

// Reads a comma or a point, and returns the offset after it.
fn after_point(units: &[u16], at: usize) -> Option<usize>
    ensures some { IsSome result ↔ ((slice_get units.now at ≡ Some 44) ⊎ (slice_get units.now at ≡ Some 46)) }
    ensures end { IfSome result (λ end. end ≡ at + 1) }
    ensures within { IfSome result (λ end. end ≤ length units.now) }
{
    match after_unit(units, at, COMMA) {
        Some(end) => Some(end),
        None => after_unit(units, at, POINT),
    }
}

// Reads a colon, and a number of at most two digits below 60 behind it.
fn sixtieths_at(units: &[u16], at: usize) -> Option<Number>
    ensures some { IsSome result ↔ ((slice_get units.now at ≡ Some 58) × IsNumber (digits_of (drop (at + 1) units.now)) 2 60) }
    ensures value { IfSome result (λ read. read.value ≡ number (digits_of (drop (at + 1) units.now))) }
    ensures len { IfSome result (λ read. read.len ≡ length (digits_of (drop (at + 1) units.now))) }
    ensures end { IfSome result (λ read. read.end ≡ at + 1 + length (digits_of (drop (at + 1) units.now))) }
    ensures within { IfSome result (λ read. read.end ≤ length units.now) }
{
    number_at(units, after_unit(units, at, COLON)?, 2, 60)
}

// Returns whether a time of these parts is written as in `00:00:01,000`.
fn is_usual(
    is_negative: bool,
    hours: Number,
    minutes: Number,
    seconds: Number,
    point: u16,
    rest: Number,
) -> bool
    ensures { result ≡ is_usual is_negative hours.len minutes.len seconds.len point rest.len }
{
    let are_two = hours.len >= 2 && minutes.len == 2 && seconds.len == 2;
    !is_negative && are_two && point == COMMA && rest.len == 3
}

// Reads a time, and returns it with the offset of its end.
fn time_at(units: &[u16], at: usize) -> Option<(Time, usize)>
    requires { at ≤ length units.now }
    ensures some { IfSome result (λ read. HasTime units.now at read.1 read.0) }
    ensures none { IfNone result ((end : ℕ) (time : Time) → ¬ (HasTime units.now at end time)) }
    ensures within { IfSome result (λ read. read.1 ≤ length units.now) }
{
    let negative = after_unit(units, at, MINUS);
    let hours = number_at(units, negative.unwrap_or(at), units.len(), u32::MAX)?;
    let minutes = sixtieths_at(units, hours.end)?;
    let seconds = sixtieths_at(units, minutes.end)?;
    let rest = number_at(units, after_point(units, seconds.end)?, 3, 1000)?;
    let before = u64::from(hours.value) * 3_600_000 + u64::from(minutes.value) * 60_000;
    let size = before + u64::from(seconds.value) * 1000 + thousandths(rest);
    let is_negative = negative.is_some();
    let point = units[seconds.end];
    let time = Time {
        size,
        is_negative,
        is_usual: is_usual(is_negative, hours, minutes, seconds, point, rest),
    };
    Some((time, rest.end))
}

/// Returns whether a time stands at the beginning of units, but for blanks.
pub fn begins_time(units: &[u16]) -> bool
    ensures { IsTrue result ↔ BeginsTime units.now }
{
    time_at(units, after_blanks(units, 0)).is_some()
}

// Reads the arrow between two times, and returns the offset after it and the blanks behind it.
fn after_arrow(units: &[u16], at: usize) -> Option<usize>
    requires { at ≤ length units.now }
    ensures some { IfSome result (λ end. HasArrow units.now at end) }
    ensures none { IfNone result ((end : ℕ) → ¬ (HasArrow units.now at end)) }
    ensures within { IfSome result (λ end. end ≤ length units.now) }
{
    let first = after_unit(units, after_blanks(units, at), MINUS)?;
    let second = after_unit(units, first, MINUS)?;
    let end = after_unit(units, second, GREATER)?;
    Some(after_blanks(units, end))
}

// Returns whether a time may end at an offset: at the end of the line, or before a blank.
fn is_end(units: &[u16], at: usize) -> bool
    ensures { IsTrue result ↔ IsLineEnd (drop at units.now) }
{
    match units.get(at) {
        Some(unit) => is_blank(*unit),
        None => true,
    }
}

/// Parses a line of times: two with `-->` between them, and what stands behind a blank after them. Blanks may stand
/// before each and around the arrow. A time has hours of one digit or more, minutes and seconds of one or two, below 60,
/// and one to three digits of a second after a comma or a point; a minus before it makes it negative.
///
/// # Errors
///
/// The unit at which it is no line of times.
pub fn times_of(units: &[u16]) -> Result<Times, usize>
    ensures line { IfOk result (λ times. IsTimesLine units.now times) }
    ensures no_line { OnErr result ((times : Times) → ¬ (IsTimesLine units.now times)) }
    ensures fault { IfErr result (λ unit. IsFault units.now unit) }
    ensures unit { IfErr result (λ unit. unit ≤ length units.now) }
    ensures ordered { IfOk result (λ times. (times.first_end ≤ times.second_end) × (times.second_end ≤ length units.now)) }
{
    let first = after_blanks(units, 0);
    let Some((begin, first_end)) = time_at(units, first) else {
        return Err(first);
    };
    let Some(second) = after_arrow(units, first_end) else {
        return Err(first_end);
    };
    let Some((end, second_end)) = time_at(units, second) else {
        return Err(second);
    };
    if !is_end(units, second_end) {
        return Err(second_end);
    }
    Ok(Times {
        begin,
        end,
        first,
        first_end,
        second,
        second_end,
    })
}
