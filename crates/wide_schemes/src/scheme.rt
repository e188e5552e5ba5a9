//! The encoding schemes, and how the beginning of bytes determines the layout of a text.

ghost use Rattle.std.specs.Prelude.{◌≡◌, ◌≤◌, if◌then◌else◌, is_some, unwrap_or};
ghost use Rattle.wide_bytes.specs.declared.order.BoM.TheVariants.{Little};
ghost use Rattle.wide_schemes.specs.Schemes.{bom32_of, bom_len, keeps_halves, layout_from, layout_to, start_len};

use crate::layout::Layout;
use wide_bytes::{BoM, byte_order};

/// An encoding scheme: how a text is stored as bytes (Unicode Standard, section 3.10, D95 to D101), or WTF-8.
///
/// # Example
///
/// ```
/// use widestring::convert::{Scheme, convert};
///
/// let mut source = FromRead::new(b"\xfe\xff\0H\0i".as_slice());
/// let mut sink = FromWrite::new(Vec::new(rt.alloc()));
/// let (from, to) = (Scheme::Utf16, Scheme::Utf32Le);
/// convert(&mut source, &mut sink, from, to, None, false)?;
/// assert!(rt; sink.into_inner().as_slice() == b"H\0\0\0i\0\0\0".as_slice());
/// ```
#[derive(Clone, Copy, Debug, PartialEq, Eq)]
pub enum Scheme {
    /// UTF-8 (D95). U+FEFF at the beginning is a character.
    Utf8,
    /// WTF-8: UTF-8 in which a surrogate that belongs to no pair has the three bytes of its code point.
    Wtf8,
    /// UTF-16LE (D97). U+FEFF at the beginning is a character.
    Utf16Le,
    /// UTF-16BE (D96). U+FEFF at the beginning is a character.
    Utf16Be,
    /// UTF-16 (D98). It is read in the order of its BOM, or little-endian without one, and written little-endian.
    Utf16,
    /// UTF-32LE (D100). U+FEFF at the beginning is a character.
    Utf32Le,
    /// UTF-32BE (D99). U+FEFF at the beginning is a character.
    Utf32Be,
    /// UTF-32 (D101). It is read in the order of its BOM, or little-endian without one, and written little-endian.
    Utf32,
}

/// Returns how many bytes at the beginning determine the layout: those of a BOM, or none if the scheme has none.
pub fn start_len(scheme: Scheme) -> usize
    ensures len { result ≡ start_len scheme }
    ensures few { result ≤ 4 }
{
    match scheme {
        Scheme::Utf16 => 2,
        Scheme::Utf32 => 4,
        _ => 0,
    }
}

// Returns the order that the BOM of UTF-32 indicates (Unicode Standard, D101), or `None` if there is no BOM.
fn byte_order_32(bytes: &[u8]) -> Option<BoM>
    ensures { result ≡ bom32_of bytes.now }
{
    match bytes {
        [0xff, 0xfe, 0, 0, ..] => Some(BoM::Little),
        [0, 0, 0xfe, 0xff, ..] => Some(BoM::Big),
        _ => None,
    }
}

// Returns the order of a BOM, or little-endian without one, and the length of the BOM in bytes, which is `len`, or 0
// without one.
fn order_and_len(bom: Option<BoM>, len: usize) -> (BoM, usize)
    ensures order { result.0 ≡ unwrap_or bom Little }
    ensures len { result.1 ≡ (if is_some bom then len else 0) }
{
    match bom {
        Some(order) => (order, len),
        None => (BoM::Little, 0),
    }
}

/// Returns the layout of bytes in a scheme, and the length in bytes of the BOM at their beginning, which is 0 if the
/// scheme has no BOM or the bytes begin with none.
pub fn layout_from(scheme: Scheme, bytes: &[u8]) -> (Layout, usize)
    ensures layout { result.0 ≡ layout_from scheme bytes.now }
    ensures bom { result.1 ≡ bom_len scheme bytes.now }
{
    match scheme {
        Scheme::Utf8 => (Layout::Utf8, 0),
        Scheme::Wtf8 => (Layout::Wtf8, 0),
        Scheme::Utf16Le => (Layout::Utf16(BoM::Little), 0),
        Scheme::Utf16Be => (Layout::Utf16(BoM::Big), 0),
        Scheme::Utf32Le => (Layout::Utf32(BoM::Little), 0),
        Scheme::Utf32Be => (Layout::Utf32(BoM::Big), 0),
        Scheme::Utf16 => {
            let (order, len) = order_and_len(byte_order(bytes), 2);
            (Layout::Utf16(order), len)
        }
        Scheme::Utf32 => {
            let (order, len) = order_and_len(byte_order_32(bytes), 4);
            (Layout::Utf32(order), len)
        }
    }
}

/// Returns the layout in which a scheme is written.
pub fn layout_to(scheme: Scheme) -> Layout
    ensures { result ≡ layout_to scheme }
{
    match scheme {
        Scheme::Utf8 => Layout::Utf8,
        Scheme::Wtf8 => Layout::Wtf8,
        Scheme::Utf16Le | Scheme::Utf16 => Layout::Utf16(BoM::Little),
        Scheme::Utf16Be => Layout::Utf16(BoM::Big),
        Scheme::Utf32Le | Scheme::Utf32 => Layout::Utf32(BoM::Little),
        Scheme::Utf32Be => Layout::Utf32(BoM::Big),
    }
}

/// Returns whether a conversion keeps surrogates that belong to no pair: from WTF-8 to WTF-8 or UTF-16, and from UTF-16
/// to WTF-8. Otherwise they are faults.
pub fn keeps_halves(from: Scheme, to: Scheme) -> bool
    ensures { result ≡ keeps_halves from to }
{
    match (layout_to(from), layout_to(to)) {
        (Layout::Wtf8, Layout::Wtf8 | Layout::Utf16(_)) => true,
        (Layout::Utf16(_), Layout::Wtf8) => true,
        _ => false,
    }
}
