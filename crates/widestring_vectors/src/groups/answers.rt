//! Lists of units in an answer.
use widestring::unit::Unit;
use widestring_replay::show::Answer;

/// Adds lists of units, each of them a field.
pub fn fields<C: Unit>(answer: &mut Answer, fields: &[&[C]]) {
    if let [first, rest @ ..] = fields {
        answer.units(*first);
        for units in rest {
            answer.part();
            answer.units(*units);
        }
    }
}
