//! Laws of streams of UTF-16 in bytes: how the text of a stream follows from its chunks. Each law is a function that
//! does nothing, and its contract states the law.
ghost use Rattle.std.specs.Prelude.{◌≡◌, ◌↔◌, ◌%◌, ◌++◌, length};
ghost use Rattle.wide_forms.specs.EncodingForm.{Utf16};
ghost use Rattle.wide_forms.specs.Laws.Items.{IsCut};
ghost use Rattle.wide_bytes.specs.Bytes.{units_in};
ghost use Rattle.widestring_c.specs.Bytes.{IsWellFormedIn, bytes_end_in_fault, bytes_text, text_in};

use wide_bytes::BoM;
use wide_forms::Policy;

/// States that the lossy text of a stream is that of a prefix followed by that of the rest. The prefix ends between two
/// units and does not split a surrogate pair. The rest is converted with the flag that says whether the last unit of
/// the prefix is ill-formed. The flag after the rest is the flag after the whole stream.
pub fn text_of_a_stream(order: BoM, policy: Policy, after_fault: bool, prefix: &[u8], back: &[u8])
    requires whole { length prefix.now % 2 ≡ 0 }
    requires cut { IsCut Utf16 (units_in order prefix.now) (units_in order back.now) }
    ensures text { bytes_text order policy after_fault (prefix.now ++ back.now) ≡ bytes_text order policy after_fault prefix.now ++ bytes_text order policy (bytes_end_in_fault order after_fault prefix.now) back.now }
    ensures last { bytes_end_in_fault order after_fault (prefix.now ++ back.now) ≡ bytes_end_in_fault order (bytes_end_in_fault order after_fault prefix.now) back.now }
{}

/// States that a stream is well formed if and only if a prefix and the rest are both well formed. The prefix ends
/// between two units and does not split a surrogate pair. The text of the stream is then the text of the prefix
/// followed by that of the rest. So a strict reader may convert a stream chunk by chunk (Unicode Standard, D91, D96 and
/// D97).
pub fn strict_text_of_a_stream(order: BoM, prefix: &[u8], back: &[u8])
    requires whole { length prefix.now % 2 ≡ 0 }
    requires cut { IsCut Utf16 (units_in order prefix.now) (units_in order back.now) }
    ensures well_formed { IsWellFormedIn order (prefix.now ++ back.now) ↔ (IsWellFormedIn order prefix.now × IsWellFormedIn order back.now) }
    ensures text { text_in order (prefix.now ++ back.now) ≡ text_in order prefix.now ++ text_in order back.now }
{}
