//! What a line is by itself.

ghost use Rattle.std.specs.Prelude.{◌≡◌, ◌≤◌, ◌↔◌, ℕ, IfSome, IsTrue, Some, length, not, reverse};
ghost use Rattle.std.specs.List.{AllPass, before_first, find, take_while};
ghost use Rattle.wide_subtitles.specs.Kinds.{IsDamaged, IsNumberLine, begins_arrow, begins_clock, ends_in_dash, has_part, is_colon, is_dash, is_head, is_padding, is_white, seems_times, times_in};
ghost use Rattle.wide_subtitles.specs.Times.{IsFault, IsTimesLine, begins_with, is_digit};
ghost use Rattle.wide_subtitles.specs.declared.kinds.Kind.TheVariants.{Blank, Broken, Number, Text};
ghost use Rattle.wide_subtitles.specs.declared.times.Times.{Times};

use crate::times::{Times, begins_time, digits_len, is_digit, times_of};

/// What a line is.
#[derive(Clone, Copy, Debug, PartialEq, Eq)]
pub enum Kind {
    /// Nothing but white space, which separates subtitles.
    Blank,
    /// A number, with blanks before and after it.
    Number,
    /// Times.
    Times(Times),
    /// What was meant for times and is none at this unit.
    Broken(usize),
    /// Text.
    Text,
}

// Returns whether a unit is a space, a tab, or another control that nothing shows.
fn is_white(unit: u16) -> bool
    ensures { result ≡ is_white unit }
{
    matches!(unit, 9 | 0xb | 0xc | 0x20)
}

// Returns whether a unit is white space, or one of a wide or hidden kind, which some writers leave beside a number.
fn is_padding(unit: u16) -> bool
    ensures { result ≡ is_padding unit }
{
    is_white(unit)
        || matches!(
            unit,
            0xa0 | 0x200e | 0x200f | 0x202a..=0x202e | 0x3000 | 0xfeff
        )
}

// Returns how much padding units begin with.
fn padding_len(units: &[u16]) -> usize
    ensures { result ≡ length (take_while is_padding units.now) }
{
    units.iter().take_while(|unit| is_padding(**unit)).count()
}

// Returns whether all units are white space.
fn is_blank(units: &[u16]) -> bool
    ensures { IsTrue result ↔ AllPass is_white units.now }
{
    units.iter().all(|unit| is_white(*unit))
}

// Returns whether all units are padding.
fn is_only_padding(units: &[u16]) -> bool
    ensures { IsTrue result ↔ AllPass is_padding units.now }
{
    units.iter().all(|unit| is_padding(*unit))
}

// Returns whether units are a number, with padding before and behind it.
fn is_number(units: &[u16]) -> bool
    ensures { IsTrue result ↔ IsNumberLine units.now }
{
    let rest = &units[padding_len(units)..];
    let digits = digits_len(rest);
    digits > 0 && is_only_padding(&rest[digits..])
}

// Returns whether units begin with `-->`.
fn begins_arrow(units: &[u16]) -> bool
    ensures { result ≡ begins_arrow units.now }
{
    matches!(units, [0x2d, 0x2d, 0x3e, ..])
}

// Returns whether units have an arrow.
fn has_arrow(units: &[u16]) -> bool
    ensures { result ≡ has_part begins_arrow units.now }
{
    let mut rest = units;
    while let [_, tail @ ..] = rest {
        if begins_arrow(rest) {
            return true;
        }
        rest = tail;
    }
    false
}

// Returns whether a unit is a hyphen or a dash.
fn is_dash(unit: u16) -> bool
    ensures { result ≡ is_dash unit }
{
    matches!(unit, 0x2d | 0x2010..=0x2015 | 0x2212)
}

// Returns how many colons units begin with.
fn colons_len(units: &[u16]) -> usize
    ensures { result ≡ length (take_while is_colon units.now) }
{
    units.iter().take_while(|unit| **unit == 0x3a).count()
}

// Returns whether units begin with a digit.
fn begins_digit(units: &[u16]) -> bool
    ensures { result ≡ begins_with is_digit units.now }
{
    match units {
        [unit, ..] => is_digit(*unit),
        [] => false,
    }
}

// Returns whether units begin with two digits around a colon or more, as the hours and the minutes of a time do.
fn begins_clock(units: &[u16]) -> bool
    ensures { result ≡ begins_clock units.now }
{
    let [unit, rest @ ..] = units else {
        return false;
    };
    // Colons are counted behind a digit alone, and so once each.
    if !is_digit(*unit) {
        return false;
    }
    let colons = colons_len(rest);
    colons > 0 && begins_digit(&rest[colons..])
}

// Returns whether two digits stand around a colon or more somewhere in units.
fn has_clock(units: &[u16]) -> bool
    ensures { result ≡ has_part begins_clock units.now }
{
    let mut rest = units;
    while let [_, tail @ ..] = rest {
        if begins_clock(rest) {
            return true;
        }
        rest = tail;
    }
    false
}

// Returns the last unit that is no padding.
fn last_shown(units: &[u16]) -> Option<u16>
    ensures { result ≡ find (λ unit. not (is_padding unit)) (reverse units.now) }
{
    units.iter().rev().copied().find(|unit| !is_padding(*unit))
}

// Returns whether units end in a dash, but for padding.
fn ends_in_dash(units: &[u16]) -> bool
    ensures { result ≡ ends_in_dash units.now }
{
    match last_shown(units) {
        Some(unit) => is_dash(unit),
        None => false,
    }
}

// Returns how many units stand before the first `>`.
fn head_of(units: &[u16]) -> usize
    ensures { result ≡ length (before_first is_head units.now) }
{
    units.iter().take_while(|unit| **unit != 0x3e).count()
}

// Returns whether units have two times with something like an arrow between them, whatever is wrong with them: the head
// of an arrow behind a dash, and digits around a colon on both sides.
fn seems_times(units: &[u16]) -> bool
    ensures { result ≡ seems_times units.now }
{
    let (before, behind) = units.split_at(head_of(units));
    ends_in_dash(before) && has_clock(before) && has_clock(behind)
}

// Returns whether units were meant for times: a time stands at their beginning and they have an arrow, or they seem to
// be two times.
fn is_damaged(units: &[u16]) -> bool
    ensures { IsTrue result ↔ IsDamaged units.now }
{
    (begins_time(units) && has_arrow(units)) || seems_times(units)
}

/// Returns what a line is.
pub fn kind_of(units: &[u16]) -> Kind
    ensures times { (times : Times) → (times_in result ≡ Some times) ↔ IsTimesLine units.now times }
    ensures blank { (result ≡ Blank) ↔ AllPass is_white units.now }
    ensures number { (result ≡ Number) ↔ IsNumberLine units.now }
    ensures broken { (unit : ℕ) → result ≡ Broken unit → unit ≤ length units.now }
    ensures fault { (unit : ℕ) → result ≡ Broken unit → IsFault units.now unit }
    ensures damaged { (unit : ℕ) → result ≡ Broken unit → IsDamaged units.now }
    ensures broken_or_text { result ≡ Text → ¬ (IsDamaged units.now) }
    ensures ordered { IfSome (times_in result) (λ times. (times.first_end ≤ times.second_end) × (times.second_end ≤ length units.now)) }
{
    if is_blank(units) {
        return Kind::Blank;
    }
    if is_number(units) {
        return Kind::Number;
    }
    match times_of(units) {
        Ok(times) => Kind::Times(times),
        Err(unit) if is_damaged(units) => Kind::Broken(unit),
        Err(_) => Kind::Text,
    }
}
