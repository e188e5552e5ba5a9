//! Lines and units of a place.

use wide_files::Place;

const RETURN: u16 = b'\r' as u16;

const FEED: u16 = b'\n' as u16;

// Returns the place behind units that begin at a place. CR LF, and one of both alone, end a line.
pub fn place_after(place: Place, units: &[u16]) -> Place {
    let Place { mut line, mut unit } = place;
    let mut rest = units;
    'units: while let [first, others @ ..] = rest {
        let ends = match rest {
            [RETURN, FEED, ..] => false,
            _ => *first == RETURN || *first == FEED,
        };
        if ends {
            line = line.saturating_add(1);
            unit = 0;
        } else {
            unit = unit.saturating_add(1);
        }
        rest = others;
    }
    Place { line, unit }
}
