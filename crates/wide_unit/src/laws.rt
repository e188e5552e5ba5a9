//! The laws of segmentation and encoding. Each law is a function that does nothing, and its contract is the law.
ghost use Rattle.std.specs.Prelude.{◌≡◌, ◌∷◌, []};
ghost use Rattle.wide_forms.specs.EncodingForm.{Utf16, Utf32};
ghost use Rattle.wide_forms.specs.Segmentation.{Char, Fault};
ghost use Rattle.wide_forms.specs.Items.{items, IsFirstFault};
ghost use Rattle.wide_forms.specs.Lossy.{lossy};
ghost use Rattle.wide_forms.specs.Statements.{SegmentationExists, SegmentationIsUnique, SegmentationIsLiteral16, SegmentationIsLiteral32, LooseSegmentationsDiffer, ItemsJoinAfter, ItemsJoinBefore, EncodingIsWellFormed, EncodingDecodes, WellFormedIsEncoded, BoundariesAreSeen, FirstFaultsAreAfterText, FirstFaultsAreCounted, WellFormedOrFaulty, OffsetsAreLengths, BoundariesAreOffsets, CutsAreWellFormed, PartsAreWellFormed, SplicesAreWellFormed, EncodingsAreCut, OffsetsGrow, EncodingsAreSpliced, FiltersAreWellFormed, EqualCharacters, Utf8IsStds, Units32AreItems, Items32Join, Items32Count, Items16Count, LossyIsScalars, LossyKeepsWellFormed, LossyIsWellFormed, LossyOnceIsEnough, LossyKeepsLength, LossyKeepsPrefix, EachIsLossy, CharactersPartLossy, RunsGiveOne, SkipGivesNone, RunsGoOn, LossyAfterNone, LossyGoesOn, PoliciesGiveScalars, PoliciesKeepWellFormed, PoliciesTwice, PoliciesNeverLengthen, CodePointOfText, CodePointOfNone, OrderAgreesWithEquality, NoUnitsNoLines, UnendedIsOneLine, FeedEndsLine};

/// States that each list of code units has exactly one segmentation (Unicode Standard, D84a and D85a).
pub fn one_segmentation()
    ensures exists { SegmentationExists }
    ensures unique { SegmentationIsUnique }
{}

/// States that a segmentation of code units is what the Standard says of each form. In UTF-16 its faults are
/// surrogates, and no fault that is a high surrogate directly precedes one that is a low surrogate. In UTF-32 its
/// faults are no scalar values.
pub fn segmentations_by_form()
    ensures utf16 { SegmentationIsLiteral16 }
    ensures utf32 { SegmentationIsLiteral32 }
{}

/// States that the clause on adjacent faults is necessary: without it a surrogate pair has two segmentations.
pub fn neighbours_matter()
    ensures { LooseSegmentationsDiffer }
{}

/// States that the items of concatenated lists are the concatenated items, if one of the lists is well formed.
pub fn joined_items()
    ensures after { ItemsJoinAfter }
    ensures before { ItemsJoinBefore }
{}

/// States that in UTF-32 each unit is an item, whatever its neighbours: a character if it is a scalar value, and
/// otherwise a fault.
pub fn units_of_utf32()
    ensures items { Units32AreItems }
    ensures joined { Items32Join }
    ensures count { Items32Count }
{}

/// States that in UTF-16 an item is one unit or two: `n` units, well formed or not, are at least `n / 2` items, rounded
/// up.
pub fn items_of_utf16()
    ensures { Items16Count }
{}

/// States that lossy text, with U+FFFD for each fault, consists of scalar values, and that the lossy text of
/// well-formed units encodes to these units (Unicode Standard, section 3.9, "U+FFFD Substitution of Maximal Subparts").
/// The encoding of lossy text is well formed, is its own lossy text, is as long in units as the original, and begins
/// with the units before the first fault.
pub fn lossy_text()
    ensures scalars { LossyIsScalars }
    ensures keeps { LossyKeepsWellFormed }
    ensures well_formed { LossyIsWellFormed }
    ensures once { LossyOnceIsEnough }
    ensures length { LossyKeepsLength }
    ensures prefix { LossyKeepsPrefix }
{}

/// States what lossy text is under a policy. The texts before and after a character are independent of each other. A
/// run of faults yields one U+FFFD or none. The lossy text of concatenated lists is that of the first, and that of the
/// second after it. It consists of scalar values. The lossy text of well-formed units encodes to these units. Lossy
/// text of lossy text is the same text. It is never longer in units than the original.
pub fn lossy_text_by_policy()
    ensures each { EachIsLossy }
    ensures parts { CharactersPartLossy }
    ensures one { RunsGiveOne }
    ensures none { SkipGivesNone }
    ensures on { RunsGoOn }
    ensures after_none { LossyAfterNone }
    ensures beyond { LossyGoesOn }
    ensures scalars { PoliciesGiveScalars }
    ensures keeps { PoliciesKeepWellFormed }
    ensures twice { PoliciesTwice }
    ensures length { PoliciesNeverLengthen }
{}

/// States that the encoding of characters is well formed and decodes to them, and that well-formed units are the
/// encoding of their characters.
pub fn encoded_characters()
    ensures well_formed { EncodingIsWellFormed }
    ensures decodes { EncodingDecodes }
    ensures encoded { WellFormedIsEncoded }
{}

/// States that in well-formed units an offset is a character boundary exactly if it is the beginning or the end, or if
/// the unit at it is no low surrogate.
pub fn boundaries()
    ensures { BoundariesAreSeen }
{}

/// States that only characters precede the first fault, that its index is their length in units, and that its item
/// number is their number. Units have no first fault exactly if they are well formed.
pub fn first_faults()
    ensures after_text { FirstFaultsAreAfterText }
    ensures counted { FirstFaultsAreCounted }
    ensures none { WellFormedOrFaulty }
{}

/// States that in well-formed units each character begins at exactly one offset, the length in units of the characters
/// before it, and that each boundary is such an offset, or the end.
pub fn offsets_of_characters()
    ensures lengths { OffsetsAreLengths }
    ensures boundaries { BoundariesAreOffsets }
{}

/// States that splitting or splicing well-formed units at boundaries, with well-formed units, yields well-formed units,
/// and that their characters are split and spliced correspondingly.
pub fn spliced_text()
    ensures cuts { CutsAreWellFormed }
    ensures parts { PartsAreWellFormed }
    ensures splices { SplicesAreWellFormed }
{}

/// States that splitting or splicing characters splits or splices their units, at the offsets at which the units of the
/// characters before end, and that these offsets grow with the characters. It holds for any list of numbers.
pub fn encodings_of_edits()
    ensures cut { EncodingsAreCut }
    ensures grow { OffsetsGrow }
    ensures spliced { EncodingsAreSpliced }
{}

/// States that characters that are selected from those of well-formed units, as by a filter, encode to well-formed
/// units, which decode to these characters.
pub fn filtered_text()
    ensures { FiltersAreWellFormed }
{}

/// States that well-formed units are equal exactly if their characters are.
pub fn equal_characters()
    ensures { EqualCharacters }
{}

/// States that units compare as equal in the order of [`order_of_units`](crate::order_of_units) exactly if they are
/// equal.
pub fn order_agrees()
    ensures { OrderAgreesWithEquality }
{}

/// States that no units have no lines, that units without a line feed have one line, and that each line feed ends a
/// line, without a carriage return at its end. So no line follows a line feed at the end.
pub fn lines_of_units()
    ensures empty { NoUnitsNoLines }
    ensures unended { UnendedIsOneLine }
    ensures ended { FeedEndsLine }
{}

/// States that the UTF-8 bytes of Table 3-6 are those that the standard library writes.
pub fn utf8_of_characters()
    ensures { Utf8IsStds }
{}

/// States that the code point at the beginning of the bytes of a text is its first character, and the bytes after it
/// are those of the rest. An empty text has no code point.
pub fn code_points_of_text()
    ensures text { CodePointOfText }
    ensures empty { CodePointOfNone }
{}

/// States worked examples: the items of a surrogate pair, of a pair in the wrong order, of no units, and of 32-bit
/// units that look like a pair.
pub fn worked_items()
    ensures pair { items Utf16 (0xD83D ∷ 0xDE00 ∷ []) ≡ Char 0x1_F600 ∷ [] }
    ensures reversed { items Utf16 (0xDE00 ∷ 0xD83D ∷ []) ≡ Fault 0xDE00 ∷ Fault 0xD83D ∷ [] }
    ensures empty { items Utf16 [] ≡ [] }
    ensures utf32 { items Utf32 (0xD800 ∷ 0xDC00 ∷ 0x11_0000 ∷ 0x10_FFFF ∷ []) ≡ Fault 0xD800 ∷ Fault 0xDC00 ∷ Fault 0x11_0000 ∷ Char 0x10_FFFF ∷ [] }
{}

/// States worked examples: a run of faults yields a U+FFFD for each.
pub fn worked_lossy()
    ensures utf16 { lossy (items Utf16 (0xD83D ∷ 0xDE00 ∷ 0xD800 ∷ 0xD801 ∷ [])) ≡ 0x1_F600 ∷ 0xFFFD ∷ 0xFFFD ∷ [] }
    ensures utf32 { lossy (items Utf32 (0xD800 ∷ 0xDC00 ∷ 0x41 ∷ [])) ≡ 0xFFFD ∷ 0xFFFD ∷ 0x41 ∷ [] }
{}

/// States a worked example: the index of a first fault counts units, and its item number counts characters. A pair
/// before it is two units and one item.
pub fn worked_fault()
    ensures { IsFirstFault Utf16 (0xD83D ∷ 0xDE00 ∷ 0xD800 ∷ []) 2 1 0xD800 }
{}
