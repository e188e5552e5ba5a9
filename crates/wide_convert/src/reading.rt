//! What is known of a text that is being read.

ghost use Rattle.std.specs.Prelude.{◌≡◌, ◌+◌, ◌-◌, ◌≤◌, ◌++◌, ◌↔◌, IsTrue, drop, length};
ghost use Rattle.wide_convert.specs.Steps.{IsReading, IsUnread, SameButUnread, unread_of};

use crate::position::{Position, position_fits};
use wide_forms::Policy;
use wide_schemes::{Layout, Scheme, start_len};

/// What is known of a text that is being read: what [`Converter`](crate::Converter) keeps from one input to the next.
///
/// # Example
///
/// ```
/// use widestring::convert::{Converter, Scheme};
///
/// let mut text = [0; 16];
/// let mut converter = Converter::new(Scheme::Utf8, Scheme::Utf16Le, None, false);
/// let _progress = converter.push(b"a\xc3", &mut text);
/// let (reading, to, bom) = converter.parts();
/// assert!(rt; reading.unread_len == 1 && reading.unread[0] == 0xc3);
/// assert!(rt; Converter::from_parts(reading, to, bom).is_some());
/// ```
#[derive(Clone, Copy)]
pub struct Reading {
    /// The scheme of its bytes.
    pub scheme: Scheme,
    /// Whether surrogates that belong to no pair are characters.
    pub keeps: bool,
    /// What is written for faults, or `None` if reading stops at each.
    pub policy: Option<Policy>,
    /// The layout of its bytes, or `None` until those that determine it were read.
    pub layout: Option<Layout>,
    /// Whether the last character is the first half of a pair. It is false if surrogates are not kept.
    pub after_high: bool,
    /// Whether the last item is a fault.
    pub after_fault: bool,
    /// Bytes that were read and that belong to no item so far, and others after them.
    pub unread: [u8; 4],
    /// How many of these bytes there are.
    pub unread_len: usize,
    /// The length in bytes of the BOM that was passed. It is 0 before that, and without one.
    pub bom: usize,
    /// What was passed.
    pub position: Position,
}

impl Reading {
    // Returns what is known of a text of which nothing was read.
    pub(crate) fn new(scheme: Scheme, keeps: bool, policy: Option<Policy>) -> Reading
        ensures ready { IsReading result }
        ensures unread { IsUnread scheme keeps policy result }
    {
        Reading {
            scheme,
            keeps,
            policy,
            layout: None,
            after_high: false,
            after_fault: false,
            unread: [0; 4],
            unread_len: 0,
            bom: 0,
            position: Position::start(),
        }
    }
}

// Returns whether a text may be in such a state while it is read.
pub(crate) fn is_reading(reading: &Reading) -> bool
    ensures { IsTrue result ↔ IsReading reading.now }
{
    let Position {
        bytes,
        items,
        faults,
    } = reading.position;
    position_fits(bytes, items, faults);
    if reading.unread_len > 4 || reading.after_high && !reading.keeps {
        return false;
    }
    match reading.layout {
        None => {
            !reading.after_high
                && reading.unread_len <= start_len(reading.scheme)
                && reading.bom == 0
        }
        Some(_layout) => true,
    }
}

// Keeps these bytes after those that are kept.
pub(crate) fn append_unread(reading: &mut Reading, bytes: &[u8])
    requires { reading.old.unread_len + length bytes.now ≤ 4 }
    ensures unread { unread_of reading.new ≡ unread_of reading.old ++ bytes.now }
    ensures len { reading.new.unread_len ≡ reading.old.unread_len + length bytes.now }
    ensures same { SameButUnread reading.old reading.new }
{
    let kept = reading.unread_len;
    let all = kept + bytes.len();
    reading.unread[kept..all].copy_from_slice(bytes);
    reading.unread_len = all;
}

// Drops the first bytes of those that are kept.
pub(crate) fn drop_unread(reading: &mut Reading, len: usize)
    requires within { len ≤ reading.old.unread_len }
    requires few { reading.old.unread_len ≤ 4 }
    ensures unread { unread_of reading.new ≡ drop len (unread_of reading.old) }
    ensures len { reading.new.unread_len ≡ reading.old.unread_len - len }
    ensures same { SameButUnread reading.old reading.new }
{
    let kept = reading.unread_len;
    reading.unread.copy_within(len..kept, 0);
    reading.unread_len = kept - len;
}
