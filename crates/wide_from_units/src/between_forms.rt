//! Converts between well-formed UTF-16 and UTF-32 (Unicode Standard, section 3.9, D90 and D91). Vectorized by the
//! compiler: sixteen units in one step if each is a character below 0x1_0000. Other units are converted character by
//! character.

ghost use Rattle.std.specs.Prelude.{◌≡◌, ◌++◌, ◌+◌, ◌*◌, ◌<◌, ◌≤◌, ℕ, IsTrue, drop, length, map, slice_index, take};
ghost use Rattle.wide_forms.specs.EncodingForm.{encode};
ghost use Rattle.wide_forms.specs.Items.{IsWellFormed, chars};

use wide_forms::{Progress, SURROGATE_TOP, or_replacement};
use wide_unit::{Unit, char_of, put_char, split_first};

// Returns whether each of sixteen units is a character below 0x1_0000.
#[inline(always)]
fn are_plain<C: Unit>(block: &[C]) -> bool
    requires { length block.now ≡ 16 }
    ensures below { IsTrue result → (k : ℕ) → k < 16 → slice_index (map C.number block.now) k < 0x1_0000 }
    ensures characters { IsTrue result → (k : ℕ) → k < 16 → 0xd800 ≤ slice_index (map C.number block.now) k → 0xe000 ≤ slice_index (map C.number block.now) k }
{
    let mut plain = true;
    for k in 0..16 {
        let code = block[k].code();
        plain &= code / 0x800 != u32::from(SURROGATE_TOP);
        plain &= code < 0x1_0000;
    }
    plain
}

// Stores sixteen units, each of which is a character below 0x1_0000, as one unit each.
#[inline(always)]
fn put_plain<C: Unit, D: Unit>(block: &[C], out: &mut [D], at: usize)
    requires whole { length block.now ≡ 16 }
    requires space { at + 16 ≤ length out.old }
    requires below { (k : ℕ) → k < 16 → slice_index (map C.number block.now) k < 0x1_0000 }
    requires characters { (k : ℕ) → k < 16 → 0xd800 ≤ slice_index (map C.number block.now) k → 0xe000 ≤ slice_index (map C.number block.now) k }
    ensures { map D.number (take (at + 16) out.new) ≡ map D.number (take at out.old) ++ map C.number block.now }
{
    // A local array cannot overlap the block, so the compiler vectorizes this loop.
    let mut own = [D::NUL; 16];
    for k in 0..16 {
        let (unit, _) = D::encode_char(char_of(block[k].code()));
        own[k] = unit;
    }
    out[at..at + 16].copy_from_slice(&own);
}

// Converts the first characters of the units one by one and writes them after the first `at` units of `out`, up to
// sixteen units. Returns how many units were read, and the index after those written.
fn put_ones<C: Unit, D: Unit>(units: &[C], out: &mut [D], at: usize) -> Progress
    requires well_formed { IsWellFormed C.form (map C.number units.now) }
    requires space { at + 16 ≤ length out.old }
    ensures read { result.read ≤ length units.now }
    ensures some { 0 < length units.now → 0 < result.read }
    ensures few { result.written ≤ at + 2 * result.read }
    ensures written { result.written ≤ length out.new }
    ensures units { map D.number (take at out.old) ++ encode D.form (chars C.form (map C.number units.now)) ≡ map D.number (take result.written out.new) ++ encode D.form (chars C.form (map C.number (drop result.read units.now))) }
    ensures rest { IsWellFormed C.form (map C.number (drop result.read units.now)) }
{
    let mut rest = units;
    let mut written = at;
    'ones: while written - at < 15 {
        let Some((item, others)) = split_first(rest) else {
            break 'ones;
        };
        // Each item is a character, since the units are well formed. The replacement is for units that another thread
        // changes meanwhile: the program must not panic.
        let c = or_replacement(item);
        written = put_char(out, written, c);
        rest = others;
    }
    Progress {
        read: units.len() - rest.len(),
        written,
    }
}

/// Converts a prefix of well-formed units of one encoding form to another (Unicode Standard, D90, D91), at the
/// beginning of `out`. Returns how many units were read and how many were written. It reads at least one unit if there
/// is any. The units after those written may be overwritten.
///
/// # Requires
///
/// The units are well formed. `out` has at least 16 units.
pub fn between_forms_prefix<C: Unit, D: Unit>(units: &[C], out: &mut [D]) -> Progress
    requires well_formed { IsWellFormed C.form (map C.number units.now) }
    requires space { 16 ≤ length out.old }
    ensures read { result.read ≤ length units.now }
    ensures some { 0 < length units.now → 0 < result.read }
    ensures written { result.written ≤ length out.new }
    ensures units { encode D.form (chars C.form (map C.number units.now)) ≡ map D.number (take result.written out.new) ++ encode D.form (chars C.form (map C.number (drop result.read units.now))) }
    ensures rest { IsWellFormed C.form (map C.number (drop result.read units.now)) }
{
    let mut read = 0;
    let mut written = 0;
    'prefixes: while read < units.len() && out.len() - written >= 16 {
        if units.len() - read >= 16 && are_plain(&units[read..read + 16]) {
            put_plain(&units[read..read + 16], out, written);
            read += 16;
            written += 16;
        } else {
            let step = put_ones(&units[read..], out, written);
            read += step.read;
            written = step.written;
        }
    }
    Progress { read, written }
}
