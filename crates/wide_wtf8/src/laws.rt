//! The laws of WTF-8. Each law is a function that does nothing, and its contract is the law. Two of them are laws of the
//! slices that they are given, so that a caller's proof needs no instance of a law of all lists.
ghost use Rattle.std.specs.Prelude.{◌≡◌, ◌↔◌};
ghost use Rattle.std.specs.Str.{IsUtf8};
ghost use Rattle.wide_forms.specs.EncodingForm.{Utf16};
ghost use Rattle.wide_forms.specs.Items.{IsWellFormed};
ghost use Rattle.wide_schemes.specs.Wtf8.{wtf8};
ghost use Rattle.wide_wtf8.specs.Statements.{CodePointsAreOfUnits, FirstFaultIsAfterText, FirstFaultIsAtOneIndex, HalvesJoin, LongestPrefixEndsAtFault, TextHasNoFault, TextIsOfCodePoints, TextIsOfItems, TextIsOfOneList, TextsJoin, WellFormedHasUtf8, WellFormedIsUtf8};

/// States that units have a text of their own: different units have different texts.
pub fn one_list_of_units()
    ensures { TextIsOfOneList }
{}

/// States that units are the same if their texts are.
pub fn same_units(units: &[u16], others: &[u16])
    ensures { wtf8 units.now ≡ wtf8 others.now → units.now ≡ others.now }
{}

/// States that the text of units is UTF-8 exactly if the units are well formed, and that it is then the UTF-8 of their
/// characters (Unicode Standard, D85 and D92).
pub fn text_of_well_formed()
    ensures utf8 { WellFormedIsUtf8 }
    ensures characters { WellFormedHasUtf8 }
{}

/// States that the text of these units is UTF-8 exactly if they are well formed.
pub fn text_is_utf8(units: &[u16])
    ensures { IsUtf8 (wtf8 units.now) ↔ IsWellFormed Utf16 units.now }
{}

/// States both round trips. The items of the text of units are their code points, whose units are the units. Bytes that
/// are WTF-8 are the text of the units of their items.
pub fn round_trips()
    ensures items { TextIsOfCodePoints }
    ensures units { CodePointsAreOfUnits }
    ensures bytes { TextIsOfItems }
{}

/// States that bytes are WTF-8 exactly if no fault is among their items. Otherwise the bytes before the first fault are
/// WTF-8, and no longer prefix is, so the first fault is at one index.
pub fn faults_of_bytes()
    ensures none { TextHasNoFault }
    ensures before { FirstFaultIsAfterText }
    ensures longest { LongestPrefixEndsAtFault }
    ensures unique { FirstFaultIsAtOneIndex }
{}

/// States that the text of concatenated units is the concatenated texts, unless they are split within a surrogate pair.
/// Then the text is that of the units before the pair, the four bytes of the pair's character, and the text of the
/// units after the pair.
pub fn joined_texts()
    ensures apart { TextsJoin }
    ensures halves { HalvesJoin }
{}
