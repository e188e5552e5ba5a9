//! Counts the ill-formed sequences of a text.
ghost use Rattle.std.specs.Prelude.{◌≡◌, ◌<◌, ◌≤◌, IfNone, IfSome, drop, length, map, suc};
ghost use Rattle.wide_forms.specs.EncodingForm.{Utf16, Utf32};
ghost use Rattle.wide_forms.specs.Items.{items};
ghost use Rattle.wide_conversions.specs.Utf8Items.{utf8_items};
ghost use Rattle.wide_convert.specs.Texts.{faults_in};

use wide_conversions::{Utf8End, first_utf8_chunk};
use wide_unit::{Unit, find_fault};

// Returns how many units belong to no character.
fn count_faults<C: Unit>(units: &[C]) -> usize
    ensures count { result ≡ faults_in (items C.form (map C.number units.now)) }
    ensures few { result ≤ length units.now }
{
    let mut count = 0;
    let mut rest = units;
    'faults: while let Some((index, _unit)) = find_fault(rest) {
        count += 1;
        (_, rest) = rest.split_at(index + 1);
    }
    count
}

/// Returns how many units of UTF-16 belong to no character (Unicode Standard, D84 and D91).
#[unsafe(no_mangle)]
pub extern "C" fn wide_utf16_fault_count(units: &[u16]) -> usize
    ensures count { result ≡ faults_in (items Utf16 units.now) }
    ensures few { result ≤ length units.now }
{
    count_faults(units)
}

/// Returns how many units of UTF-32 are no scalar value (Unicode Standard, D84 and D90).
#[unsafe(no_mangle)]
pub extern "C" fn wide_utf32_fault_count(units: &[u32]) -> usize
    ensures count { result ≡ faults_in (items Utf32 units.now) }
    ensures few { result ≤ length units.now }
{
    count_faults(units)
}

// Returns the offset after the first ill-formed sequence of some bytes, or `None` if they are well formed.
fn after_first_part(text: &[u8]) -> Option<usize>
    ensures some { IfSome result (λ n. 0 < n) }
    ensures within { IfSome result (λ n. n ≤ length text.now) }
    ensures count { IfSome result (λ n. faults_in (utf8_items text.now) ≡ suc (faults_in (utf8_items (drop n text.now)))) }
    ensures none { IfNone result (faults_in (utf8_items text.now) ≡ 0) }
{
    let chunk = first_utf8_chunk(text);
    match chunk.end {
        Utf8End::Complete => None,
        Utf8End::IllFormed(len) => Some(chunk.valid + len),
        Utf8End::Incomplete(len) => Some(chunk.valid + len),
    }
}

/// Returns how many maximal subparts of ill-formed sequences of UTF-8 the bytes have (Unicode Standard, section 3.9,
/// "U+FFFD Substitution of Maximal Subparts"). The lossy conversions write so many U+FFFD for them.
#[unsafe(no_mangle)]
pub extern "C" fn wide_utf8_fault_count(text: &[u8]) -> usize
    ensures count { result ≡ faults_in (utf8_items text.now) }
    ensures few { result ≤ length text.now }
{
    let mut count = 0;
    let mut rest = text;
    'faults: while let Some(len) = after_first_part(rest) {
        count += 1;
        (_, rest) = rest.split_at(len);
    }
    count
}
