//! What concrete units and texts print.
ghost use Rattle.std.specs.Prelude.{◌≡◌, ◌∷◌, [], true, IfOk, string_bytes};
ghost use Rattle.std.specs.Char.{is_ascii};
ghost use Rattle.std.specs.List.{flat_map, list_all};
ghost use Rattle.widestring.specs.EncodingForm.{Utf16};
ghost use Rattle.widestring.specs.Items.{items};
ghost use Rattle.widestring.specs.Texts.{debug_text, escape_debug, is_plain, skipping_text};
ghost use Rattle.widestring.specs.UnitView.{units_seen};
ghost use Rattle.widestring.specs.Utf8.{utf8};
ghost use Rattle.widestring.specs.View.{text_seen};

use std::alloc::{AllocError, Global};
use widestring::unit::laws;
use widestring::{U16Str, Utf16Str};

/// Prints a pair, and leaves out the replacement characters of the two high surrogates after it.
pub fn printed_without_faults(alloc: Global) -> Result<String, AllocError>
    ensures { IfOk result (λ text. string_bytes text ≡ utf8 (0x1_F600 ∷ [])) }
{
    laws::worked_lossy();
    let units = U16Str::from_slice(&[0xD83D, 0xDE00, 0xD800, 0xD801]);
    format!(in alloc; "{}", units.display_skipping())
}

/// Prints the lossy text of any units without U+FFFD, also without those in the units.
pub fn printed_without_replacements(alloc: Global, units: U16Str<'_>) -> Result<String, AllocError>
    ensures { IfOk result (λ text. string_bytes text ≡ skipping_text Utf16 (units_seen units.entry)) }
{
    format!(in alloc; "{}", units.display_skipping())
}

/// Prints the escapes of a text, and ignores the width.
///
/// # Requires
///
/// All characters of the text are ASCII.
pub fn printed_escapes(alloc: Global, text: Utf16Str<'_>) -> Result<String, AllocError>
    requires { list_all is_ascii (text_seen text) ≡ true }
    ensures { IfOk result (λ line. string_bytes line ≡ utf8 (flat_map escape_debug (text_seen text.entry))) }
{
    format!(in alloc; "{:8}", text.escape_debug())
}

/// Prints units whose characters are ASCII between quotes, with escapes, and units that belong to no character as
/// numbers.
///
/// # Requires
///
/// All characters of the units are ASCII.
pub fn printed_between_quotes(alloc: Global, units: U16Str<'_>) -> Result<String, AllocError>
    requires { list_all is_plain (items Utf16 (units_seen units)) ≡ true }
    ensures { IfOk result (λ line. string_bytes line ≡ debug_text Utf16 (units_seen units.entry)) }
{
    format!(in alloc; "{:?}", units)
}
