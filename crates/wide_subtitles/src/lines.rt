//! Lines, which end in a line feed, a carriage return or both.

ghost use Rattle.std.specs.Prelude.{◌≡◌, ◌++◌, ◌<◌, ◌≤◌, ◌↔◌, IfSome, IsSome, drop, length, take};
ghost use Rattle.std.specs.List.{All};
ghost use Rattle.wide_subtitles.specs.Lines.{IsAtEnd, IsEnd, IsInside, IsLine};

const RETURN: u16 = b'\r' as u16;

const FEED: u16 = b'\n' as u16;

/// A line, and the units that end it: a line feed, a carriage return, both in the other order, or none at the end.
#[derive(Clone, Copy)]
pub struct Line<'a> {
    /// The units before the end.
    pub text: &'a [u16],
    /// The units of the end.
    pub end: &'a [u16],
}

// Returns how many units there are before the first that ends a line.
fn text_len(units: &[u16]) -> usize
    ensures within { result ≤ length units.now }
    ensures inside { All IsInside (take result units.now) }
    ensures first { IsAtEnd (drop result units.now) }
{
    units
        .iter()
        .position(|unit| *unit == RETURN || *unit == FEED)
        .unwrap_or(units.len())
}

// Returns how many units at the beginning end a line.
fn end_len(units: &[u16]) -> usize
    requires { IsAtEnd units.now }
    ensures within { result ≤ length units.now }
    ensures end { IsEnd (take result units.now) (drop result units.now) }
{
    match units {
        [RETURN, FEED, ..] => 2,
        [RETURN | FEED, ..] => 1,
        _ => 0,
    }
}

/// Splits a text into its first line and what follows it, or returns `None` if there are no units.
pub fn first_line(units: &[u16]) -> Option<(Line<'_>, &[u16])>
    ensures some { IsSome result ↔ (0 < length units.now) }
    ensures line { IfSome result (λ parts. IsLine parts.0.text.now parts.0.end.now parts.1.now) }
    ensures parts { IfSome result (λ parts. units.now ≡ parts.0.text.now ++ (parts.0.end.now ++ parts.1.now)) }
{
    if units.is_empty() {
        return None;
    }
    let (text, rest) = units.split_at(text_len(units));
    let (end, rest) = rest.split_at(end_len(rest));
    Some((Line { text, end }, rest))
}
