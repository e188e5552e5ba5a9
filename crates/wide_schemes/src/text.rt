//! Decodes well-formed UTF-8 as units of 16 bits, as far as there is space.

ghost use Rattle.std.specs.Prelude.{◌≡◌, ◌-◌, ◌<◌, ◌≤◌, length, take, drop};
ghost use Rattle.std.specs.Str.{IsUtf8};
ghost use Rattle.wide_schemes.specs.Decoded.{IsTextPrefix};

use wide_forms::Progress;
use wide_from_utf8::from_utf8_prefix;

/// Decodes the beginning of some text, and writes its units at the beginning of `units`. It stops before the end only if
/// fewer than two units of space are left. Returns how many bytes were read and how many units were written. The units
/// after these may be overwritten.
pub(crate) fn decode_text(text: &[u8], units: &mut [u16]) -> Progress
    requires { IsUtf8 text.now }
    ensures read { result.read ≤ length text.now }
    ensures written { result.written ≤ length units.new }
    ensures text { IsTextPrefix text.now result.read (take result.written units.new) }
    ensures space { result.read < length text.now → length units.new - result.written < 2 }
{
    let mut read = 0;
    let mut written = 0;
    while read < text.len() && units.len() - written >= 2 {
        let step = from_utf8_prefix(&text[read..], &mut units[written..]);
        read += step.read;
        written += step.written;
    }
    Progress { read, written }
}
