//! How code points are laid out as bytes.

use wide_bytes::BoM;

/// How code points are laid out as bytes: an encoding scheme of the Unicode Standard (section 3.10) whose byte order is
/// known, or WTF-8.
///
/// # Example
///
/// ```
/// use widestring::bytes::BoM;
/// use widestring::convert::{Converter, Layout, Scheme};
///
/// let mut text = [0; 16];
/// let mut converter = Converter::new(Scheme::Utf16, Scheme::Utf8, None, false);
/// let _progress = converter.push(b"\xfe\xff\0a", &mut text);
/// assert!(rt; converter.parts().0.layout == Some(Layout::Utf16(BoM::Big)));
/// ```
#[derive(Clone, Copy, Debug, PartialEq, Eq)]
pub enum Layout {
    /// UTF-8 (D95).
    Utf8,
    /// WTF-8: UTF-8 in which a surrogate that belongs to no pair has the three bytes of its code point.
    Wtf8,
    /// UTF-16 in this byte order (D96 and D97).
    Utf16(BoM),
    /// UTF-32 in this byte order (D99 and D100).
    Utf32(BoM),
}
