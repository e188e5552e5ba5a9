//! What decoders of concrete units return for calls from both ends.
ghost use Rattle.std.specs.Prelude.{◌≡◌, ◌∷◌, [], Some, None, IfOk, map};
ghost use Rattle.std.specs.Option.{option_map};
ghost use Rattle.widestring.specs.Segmentation.{Char, Fault};
ghost use Rattle.widestring.specs.Unit.{reported_item};

use std::alloc::Global;
use widestring::Policy;
use widestring::error::{DecodeUtf16Error, DecodeUtf32Error, OutOfMemory};
use widestring::iter::{End, read_ends16, read_ends32, read_lossy_ends16, read_lossy_ends32};
use widestring::unit::laws;

/// Reads one U+FFFD for a run of two faults, and nothing after it from either end.
pub fn one_replacement_of_a_run(alloc: Global) -> Result<Vec<Option<char>>, OutOfMemory>
    ensures { IfOk result (λ answers. answers.items ≡ Some 0xFFFD ∷ None ∷ None ∷ []) }
{
    laws::worked_items();
    let calls = [End::Front, End::Back, End::Front];
    read_lossy_ends16(alloc, &[0xDE00, 0xD83D], Policy::Run, &calls)
}

/// Reads a U+FFFD of the text after the one that replaces a fault.
pub fn replacement_of_the_text(alloc: Global) -> Result<Vec<Option<char>>, OutOfMemory>
    ensures { IfOk result (λ answers. answers.items ≡ Some 0xFFFD ∷ Some 0xFFFD ∷ None ∷ []) }
{
    laws::units_of_utf32();
    let calls = [End::Front, End::Front, End::Front];
    read_lossy_ends32(alloc, &[0xD800, 0xFFFD], Policy::Run, &calls)
}

/// Reads a pair as one character from the back, and nothing before it.
pub fn pair_from_the_back(
    alloc: Global,
) -> Result<Vec<Option<Result<char, DecodeUtf16Error>>>, OutOfMemory>
    ensures { IfOk result (λ answers. map (option_map reported_item) answers.items ≡ Some (Char 0x1_F600) ∷ None ∷ []) }
{
    laws::worked_items();
    read_ends16(alloc, &[0xD83D, 0xDE00], &[End::Back, End::Back])
}

/// Reads two surrogates in UTF-32 as two faults, though in UTF-16 they would be a pair.
pub fn surrogates_of_utf32(
    alloc: Global,
) -> Result<Vec<Option<Result<char, DecodeUtf32Error>>>, OutOfMemory>
    ensures { IfOk result (λ answers. map (option_map reported_item) answers.items ≡ Some (Fault 0xD800) ∷ Some (Fault 0xDC00) ∷ []) }
{
    laws::worked_items();
    laws::units_of_utf32();
    read_ends32(alloc, &[0xD800, 0xDC00], &[End::Front, End::Front])
}

/// Reads two surrogates in the wrong order as two faults, one from each end.
pub fn faults_from_both_ends(
    alloc: Global,
) -> Result<Vec<Option<Result<char, DecodeUtf16Error>>>, OutOfMemory>
    ensures { IfOk result (λ answers. map (option_map reported_item) answers.items ≡ Some (Fault 0xDE00) ∷ Some (Fault 0xD83D) ∷ None ∷ []) }
{
    laws::worked_items();
    read_ends16(
        alloc,
        &[0xDE00, 0xD83D],
        &[End::Front, End::Back, End::Front],
    )
}
