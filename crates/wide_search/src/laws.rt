//! The laws of occurrences and of the substrings between them. Each law is a function that does nothing, and its
//! contract is the law.

ghost use Rattle.std.specs.Prelude.{◌≡◌, ◌∷◌, [], ℕ};
ghost use Rattle.wide_forms.specs.EncodingForm.{Utf16};
ghost use Rattle.wide_forms.specs.Items.{items};
ghost use Rattle.wide_forms.specs.Segmentation.{Char, Fault};
ghost use Rattle.wide_search.specs.Cut.{substrings};
ghost use Rattle.wide_search.specs.Occurrences.{BeginsWith, EndsWith, IsFirstFrom};
ghost use Rattle.wide_search.specs.Statements.{FirstIsUnique, LastIsUnique, SubstringsExist, SubstringsAreUnique, SubstringsJoin, WholeAtNoNeedle, NeedlesAreBetweenCharacters, NeedlesAreOfCharacters, FirstIsOfCharacters, LastIsOfCharacters};

/// States that a needle has at most one first occurrence in a list, and at most one last one.
pub fn one_offset<T>()
    ensures first { FirstIsUnique T }
    ensures last { LastIsUnique T }
{}

/// States that splitting a list at a separator that is not empty yields exactly one list of substrings, and that
/// joining them with the separator yields the list. Splitting at an empty separator yields the list itself as the only
/// substring.
pub fn one_list_of_substrings()
    ensures some { SubstringsExist }
    ensures unique { SubstringsAreUnique }
    ensures joined { SubstringsJoin }
    ensures empty { WholeAtNoNeedle }
{}

/// States that a well-formed needle that is not empty occurs in any units only between two items, or at an end. Its
/// offset and the offset after it are boundaries, since no character begins with a low surrogate, and none ends with a
/// high one (Unicode Standard, D75 and D85). In well-formed units its characters occur at such an offset exactly if its
/// units do, and its first occurrence in the units is its first one among the characters.
pub fn needles_in_text()
    ensures between { NeedlesAreBetweenCharacters }
    ensures characters { NeedlesAreOfCharacters }
    ensures first { FirstIsOfCharacters }
    ensures last { LastIsOfCharacters }
{}

/// States worked examples: the substrings of a list that is split at a needle that overlaps itself, at half of a
/// surrogate pair, at a unit that occurs twice, the second time at the end, and at itself.
pub fn worked_substrings()
    ensures overlapping { substrings (0x61 ∷ 0x61 ∷ []) (0x61 ∷ 0x61 ∷ 0x61 ∷ []) ≡ [] ∷ (0x61 ∷ []) ∷ [] }
    ensures half { substrings (0xDE00 ∷ []) (0xD83D ∷ 0xDE00 ∷ []) ≡ (0xD83D ∷ []) ∷ [] ∷ [] }
    ensures fields { substrings (0x3B ∷ []) (0x61 ∷ 0x3B ∷ 0x62 ∷ 0x3B ∷ []) ≡ (0x61 ∷ []) ∷ (0x62 ∷ []) ∷ [] ∷ [] }
    ensures alone { substrings (0x3B ∷ []) (0x3B ∷ []) ≡ [] ∷ [] ∷ [] }
{}

/// States a worked example, from which what is found of a set of characters can be computed: the items of a line with
/// spaces of ASCII and others, and a surrogate that belongs to no pair.
pub fn worked_line()
    ensures { items Utf16 (0x20 ∷ 0xD800 ∷ 0x3000 ∷ 0x61 ∷ 0x20 ∷ []) ≡ Char 0x20 ∷ Fault 0xD800 ∷ Char 0x3000 ∷ Char 0x61 ∷ Char 0x20 ∷ [] }
{}

/// States worked examples: UTF-16 and UTF-32 that begin and end with an emoji, and the first backslash in units from an
/// offset on, where one is before that offset too.
pub fn worked_occurrences()
    ensures begins { BeginsWith {A = ℕ} (0xD83D ∷ 0xDE00 ∷ []) (0xD83D ∷ 0xDE00 ∷ 0x21 ∷ []) }
    ensures begins32 { BeginsWith {A = ℕ} (0x1_F600 ∷ []) (0x1_F600 ∷ 0x21 ∷ []) }
    ensures ends { EndsWith {A = ℕ} (0xD83D ∷ 0xDE00 ∷ []) (0x21 ∷ 0xD83D ∷ 0xDE00 ∷ []) }
    ensures ends32 { EndsWith {A = ℕ} (0x1_F600 ∷ []) (0x21 ∷ 0x1_F600 ∷ []) }
    ensures from { IsFirstFrom {A = ℕ} (0x5C ∷ []) (0x61 ∷ 0x5C ∷ 0x62 ∷ 0x5C ∷ []) 2 3 }
{}
