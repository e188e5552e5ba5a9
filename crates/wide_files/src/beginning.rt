//! Which form a text has, by its BOM, and which one it looks like.

ghost use Rattle.std.specs.Prelude.{◌≡◌};
ghost use Rattle.wide_files.specs.Boms.{bom_in, bom_len, scheme_by_bom};

use wide_schemes::Scheme;

/// Returns the scheme that a BOM at the beginning of a text indicates (Unicode Standard, section 23.8), and how many
/// bytes have to be passed since the scheme keeps its BOM. `FF FE 00 00` is the BOM of UTF-32.
pub fn scheme_by_bom(bytes: &[u8]) -> Option<(Scheme, usize)>
    ensures { result ≡ scheme_by_bom bytes.now }
{
    match bytes {
        [0xef, 0xbb, 0xbf, ..] => Some((Scheme::Utf8, 3)),
        [0xff, 0xfe, 0, 0, ..] | [0, 0, 0xfe, 0xff, ..] => Some((Scheme::Utf32, 0)),
        [0xff, 0xfe, ..] | [0xfe, 0xff, ..] => Some((Scheme::Utf16, 0)),
        _ => None,
    }
}

// Returns U+FEFF in a scheme whose order of bytes is known.
fn bom_in(scheme: Scheme) -> &'static [u8]
    ensures { result.now ≡ bom_in scheme }
{
    match scheme {
        Scheme::Utf8 | Scheme::Wtf8 => &[0xef, 0xbb, 0xbf],
        Scheme::Utf16Le => &[0xff, 0xfe],
        Scheme::Utf16Be => &[0xfe, 0xff],
        Scheme::Utf32Le => &[0xff, 0xfe, 0, 0],
        Scheme::Utf32Be => &[0, 0, 0xfe, 0xff],
        Scheme::Utf16 | Scheme::Utf32 => &[],
    }
}

/// Returns the length in bytes of the BOM with which a text in a scheme begins, or 0. That of UTF-16 and UTF-32 says in
/// which order their units are, and is read with them.
pub fn bom_len(bytes: &[u8], scheme: Scheme) -> usize
    ensures { result ≡ bom_len scheme bytes.now }
{
    let bom = bom_in(scheme);
    if bytes.starts_with(bom) { bom.len() } else { 0 }
}

// How many bytes of a text are looked at for units of 16 and of 32 bits.
const LOOKED_AT: usize = 1024;

// Returns how many bytes are zero of those at the offsets that leave this remainder when they are divided by four.
fn zeros(bytes: &[u8], remainder: usize) -> usize {
    bytes
        .iter()
        .skip(remainder)
        .step_by(4)
        .filter(|byte| **byte == 0)
        .count()
}

// Returns whether a unit is of a kind that fills texts: letters of alphabets, kana, ideographs, syllables of Hangul, and
// the signs and ends of lines between them. With its bytes in the other order such a unit mostly is none.
fn is_frequent(unit: u16) -> bool {
    matches!(unit, 9 | 10 | 13 | 0x20..=0x7e | 0xa0..=0x6ff | 0xe00..=0xe7f | 0x2010..=0x203a | 0x3000..=0x30ff)
        || matches!(unit, 0x4e00..=0x9fff | 0xac00..=0xdfff | 0xff00..=0xff5e)
}

// Returns the scheme of UTF-16 in which more than half of the units are frequent ones, and more than in the other one.
// Units of zero say nothing.
fn likely_utf16(bytes: &[u8]) -> Option<Scheme> {
    let (mut all, mut little, mut big) = (0usize, 0usize, 0usize);
    for pair in bytes.as_chunks::<2>().0 {
        all = all.saturating_add(usize::from(*pair != [0, 0]));
        little = little.saturating_add(usize::from(is_frequent(u16::from_le_bytes(*pair))));
        big = big.saturating_add(usize::from(is_frequent(u16::from_be_bytes(*pair))));
    }
    if little > big && little > all / 2 {
        Some(Scheme::Utf16Le)
    } else if big > little && big > all / 2 {
        Some(Scheme::Utf16Be)
    } else {
        None
    }
}

// Returns how many sequences of bytes are ill-formed UTF-8, without the beginning of one at the end.
fn fault_count(bytes: &[u8]) -> usize {
    let mut count: usize = 0;
    let mut rest = bytes;
    for _ in 0..bytes.len() {
        let Err(error) = str::from_utf8(rest) else {
            break;
        };
        let Some(len) = error.error_len() else {
            break;
        };
        count = count.saturating_add(1);
        let read = error.valid_up_to().saturating_add(len);
        rest = rest.get(read..).unwrap_or_default();
    }
    count
}

// Returns whether bytes are UTF-8, or damaged UTF-8: with at least two characters beyond ASCII for each ill-formed
// sequence. In a code page each such character is ill formed, or nearly each.
fn is_likely_utf8(bytes: &[u8]) -> bool {
    let faults = fault_count(bytes);
    let leads = bytes.iter().filter(|byte| **byte >= 0xc2).count();
    faults == 0 || leads / 3 >= faults
}

/// Returns the scheme that a text without a BOM looks like, or `None` if it looks like no form of Unicode. Its first 1,024
/// bytes decide between units of 16 and of 32 bits: most have zero bytes, at offsets that tell which ones they are. Other
/// text is UTF-8 if nearly all of it is well formed.
pub fn looks_like(bytes: &[u8]) -> Option<Scheme> {
    let beginning = &bytes[..bytes.len().min(LOOKED_AT)];
    let few = beginning.len() / 8;
    let (first, second) = (zeros(beginning, 0), zeros(beginning, 1));
    let (third, fourth) = (zeros(beginning, 2), zeros(beginning, 3));
    if third > few && fourth > few {
        return Some(Scheme::Utf32Le);
    }
    if first > few && second > few {
        return Some(Scheme::Utf32Be);
    }
    let (even, odd) = (first.saturating_add(third), second.saturating_add(fourth));
    let has_many = even > few || odd > few;
    if !has_many && is_likely_utf8(bytes) {
        return Some(Scheme::Utf8);
    }
    if even == 0 && odd == 0 {
        return None;
    }
    likely_utf16(beginning)
}
