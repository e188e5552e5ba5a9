//! The laws of conversions piece by piece. Each law is a function that does nothing, and its contract is the law.
ghost use Rattle.wide_convert.specs.Statements.{FaultIsOfWhole, PiecesAreWhole, UnitsBecomeWtf8, Wtf8BecomesUnits};

/// States that a converter writes of a text in pieces what the text as a whole becomes in the other scheme, whatever the
/// lengths of the pieces and of the space are, and that it counts the faults of the whole text.
pub fn pieces_are_whole()
    ensures { PiecesAreWhole }
{}

/// States that the fault at which a converter stops is the first one of the whole text: it has the same offset in bytes,
/// item number and unit, whatever the pieces are, and the text before it was written.
pub fn fault_is_of_whole()
    ensures { FaultIsOfWhole }
{}

/// States that UTF-16 becomes WTF-8 and WTF-8 becomes UTF-16 without a fault, and that every unit survives, even if it
/// is a surrogate that belongs to no pair.
pub fn units_survive()
    ensures wtf8 { UnitsBecomeWtf8 }
    ensures units { Wtf8BecomesUnits }
{}
