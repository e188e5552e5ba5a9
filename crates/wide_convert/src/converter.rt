//! Converts a text from one encoding scheme to another, piece by piece.

ghost use Rattle.std.specs.Prelude.{◌≡◌, ◌+◌, ◌-◌, ◌*◌, ◌<◌, ◌≤◌, ◌⊎◌, ℕ, List, [], IfNone, IfSome, false, true, length, take, drop};
ghost use Rattle.wide_forms.specs.EncodingForm.{Utf16};
ghost use Rattle.wide_forms.specs.Items.{IsWellFormed};
ghost use Rattle.wide_unit.specs.CodePoints.{code_points};
ghost use Rattle.wide_schemes.specs.Layouts.{encoded, needs_text};
ghost use Rattle.wide_convert.specs.Converting.{Converting, Feeds, IsConverting, Pushes, bom_bytes, bom_left, fault_before, kept_len, items_of, position_of, text_of};
ghost use Rattle.wide_convert.specs.Statements.{IsNew};
ghost use Rattle.wide_convert.specs.Texts.{text_by};
ghost use Rattle.wide_forms.specs.Segmentation.{Item};
ghost use Rattle.wide_schemes.specs.Schemes.{items_from, keeps_halves, layout_to};
ghost use Rattle.wide_convert.specs.Steps.{IsReading, SameKind};

use crate::position::Position;
use crate::reading::{Reading, is_reading};
use crate::steps::{StepEnd, read_step};
use std::marker::Model;
use wide_forms::Policy;
use wide_schemes::{Layout, Scheme, encode, keeps_halves, layout_to};

// How many units are decoded before they are encoded.
const PIVOT_UNITS: usize = 1024;

// How many bytes of space a step needs: two units have at most so many.
const LEAST_SPACE: usize = 8;

// How many bytes the encoder may overwrite after a text.
const BEYOND_TEXT: usize = 64;

// The most units that are encoded aside, where the encoder would overwrite too much.
const UNITS_ASIDE: usize = 18;

// Returns how many units may be decoded where there is space for so many bytes.
fn pivot_len(space: usize) -> usize
    requires { 8 ≤ space }
    ensures some { 2 ≤ result }
    ensures few { result ≤ 1024 }
    ensures fits { 4 * result ≤ space }
    ensures aside { (result ≤ 18) ⊎ (4 * result + 64 ≤ space) }
{
    if space < BEYOND_TEXT + LEAST_SPACE {
        space / 4
    } else {
        ((space - BEYOND_TEXT) / 4).min(PIVOT_UNITS)
    }
}

// Writes units in a layout at the beginning of `out`, and returns the length in bytes. Only those bytes are overwritten
// if there is little space.
fn put_text(layout: Layout, units: &[u16], out: &mut [u8]) -> usize
    requires fits { 4 * length units.now ≤ length out.old }
    requires aside { (length units.now ≤ 18) ⊎ (4 * length units.now + 64 ≤ length out.old) }
    requires well_formed { needs_text layout ≡ true → IsWellFormed Utf16 units.now }
    ensures text { take result out.new ≡ encoded layout (code_points Utf16 units.now) }
    ensures within { result ≤ length out.new }
    ensures some { 0 < length units.now → 0 < result }
{
    if 4 * units.len() + BEYOND_TEXT <= out.len() {
        return encode(layout, units, out);
    }
    let mut aside = [0u8; 4 * UNITS_ASIDE + BEYOND_TEXT];
    let len = encode(layout, units, &mut aside);
    out[..len].copy_from_slice(&aside[..len]);
    len
}

/// A fault at which a conversion stopped.
///
/// # Example
///
/// ```
/// use widestring::convert::{Converter, ProgressEnd, Scheme, TextFault};
///
/// let mut text = [0; 8];
/// let mut converter = Converter::new(Scheme::Utf8, Scheme::Utf16Le, None, false);
/// let progress = converter.push(b"a\xffb", &mut text);
/// let fault = TextFault {
///     offset: 1,
///     item: 1,
///     unit: 0xff,
/// };
/// assert!(rt; progress.end == ProgressEnd::Fault(fault) && progress.read == 2);
/// ```
#[derive(Clone, Copy, Debug, PartialEq, Eq)]
pub struct TextFault {
    /// How many bytes precede it, those of a BOM included.
    pub offset: u64,
    /// How many items, characters and faults, precede it, without a BOM.
    pub item: u64,
    /// The ill-formed unit, or, if units are bytes, the first byte or the surrogate.
    pub unit: u32,
}

/// Why a converter stopped.
///
/// # Example
///
/// ```
/// use widestring::convert::{Converter, ProgressEnd, Scheme};
///
/// let mut text = [0; 8];
/// let mut converter = Converter::new(Scheme::Utf16Be, Scheme::Utf8, None, false);
/// assert!(rt; converter.push(b"\0a\0b\0c", &mut text).end == ProgressEnd::NoSpace);
/// assert!(rt; converter.push(b"\0b", &mut []).end == ProgressEnd::NoSpace);
/// ```
#[derive(Clone, Copy, Debug, PartialEq, Eq)]
pub enum ProgressEnd {
    /// All input was read.
    NeedsInput,
    /// Fewer than eight bytes of space are left.
    NoSpace,
    /// A fault was read, for which there is no policy. The converter goes on after it.
    Fault(TextFault),
}

/// How far a converter came.
///
/// # Example
///
/// ```
/// use widestring::convert::{Converter, Scheme};
///
/// let mut text = [0; 16];
/// let mut converter = Converter::new(Scheme::Utf8, Scheme::Utf16Le, None, false);
/// let progress = converter.push("né".as_bytes(), &mut text);
/// assert!(rt; progress.read == 3 && progress.written == 4);
/// assert!(rt; text.starts_with(b"n\0\xe9\0"));
/// ```
#[derive(Clone, Copy, Debug, PartialEq, Eq)]
pub struct ConvertProgress {
    /// How many bytes of the input were read.
    pub read: usize,
    /// How many bytes were written.
    pub written: usize,
    /// Why it stopped.
    pub end: ProgressEnd,
}

/// A conversion of a text from one encoding scheme to another, piece by piece. It has a constant size and allocates
/// nothing. What it writes of a text does not depend on the pieces: `laws` states this.
///
/// # Example
///
/// ```
/// use widestring::convert::{Converter, Scheme};
///
/// let mut text = [0; 16];
/// let mut converter = Converter::new(Scheme::Utf16, Scheme::Utf8, None, false);
/// // The BOM says that the bytes are big-endian. The second piece begins within a pair.
/// let first = converter.push(b"\xfe\xff\xd8\x3d\xde", &mut text);
/// let last = converter.push_last(b"\0", &mut text[first.written..]);
/// let len = first.written + last.written;
/// assert!(rt; len == 4 && text.starts_with("😀".as_bytes()) && converter.kept_len() == 0);
/// ```
#[derive(Clone, Copy)]
pub struct Converter {
    // What is known of the text.
    reading: Reading,
    // The layout that is written.
    to: Layout,
    // Whether a BOM has to be written.
    bom: bool,
}

// Returns the fault that was just passed, and has so many bytes.
fn fault_before(position: Position, unit: u32, len: usize) -> TextFault
    ensures { result ≡ fault_before position unit len }
{
    TextFault {
        offset: position.bytes.saturating_sub(len as u64),
        item: position.items.saturating_sub(1),
        unit,
    }
}

/// Reads input, and writes the text of what was read in the layout.
pub(crate) fn feed(
    reading: &mut Reading,
    to: Layout,
    input: &[u8],
    is_last: bool,
    out: &mut [u8],
) -> ConvertProgress
    requires ready { IsReading reading.old }
    requires text { needs_text to ≡ true → reading.old.keeps ≡ false }
    ensures read { result.read ≤ length input.now }
    ensures written { result.written ≤ length out.new }
    ensures ready { IsReading reading.new }
    ensures same { SameKind reading.old reading.new }
    ensures fed { Feeds reading.old reading.new to input.now is_last result.read (take result.written out.new) (length out.new - result.written) result.end }
{
    let mut pivot = [0u16; PIVOT_UNITS];
    let mut read = 0;
    let mut written = 0;
    while out.len() - written >= LEAST_SPACE {
        let space = pivot_len(out.len() - written);
        let step = read_step(reading, &input[read..], is_last, &mut pivot[..space]);
        read += step.read;
        written += put_text(to, &pivot[..step.written], &mut out[written..]);
        if let StepEnd::NeedsInput = step.end {
            return ConvertProgress {
                read,
                written,
                end: ProgressEnd::NeedsInput,
            };
        }
        if let StepEnd::Fault { unit, len } = step.end {
            return ConvertProgress {
                read,
                written,
                end: ProgressEnd::Fault(fault_before(reading.position, unit, len)),
            };
        }
    }
    ConvertProgress {
        read,
        written,
        end: ProgressEnd::NoSpace,
    }
}

/// Writes a BOM at the beginning of `out`, or nothing if `bom` is false, and returns how many bytes were written.
pub(crate) fn put_bom(to: Layout, bom: bool, out: &mut [u8]) -> usize
    requires { 8 ≤ length out.old }
    ensures text { take result out.new ≡ bom_bytes to bom }
    ensures within { result ≤ length out.new }
{
    if bom { put_text(to, &[0xfeff], out) } else { 0 }
}

// Returns whether a layout has bytes for scalar values alone.
fn needs_text(layout: Layout) -> bool
    ensures { result ≡ needs_text layout }
{
    matches!(layout, Layout::Utf32(_))
}

impl Model for Converter {
    ghost Value = { Converting };

    ghost view = { λ c. record { reading = c.reading; to = c.to; bom = c.bom } };

    ghost inverse = { λ v. record { reading = v.reading; to = v.to; bom = v.bom } };

    ghost invariant = { λ c. IsConverting (record { reading = c.reading; to = c.to; bom = c.bom }) };
}

impl Converter {
    /// Creates a converter of a text that begins with the next input, from one scheme to another.
    ///
    /// With a policy, faults are replaced by what the policy has for them. Without one, the converter stops at each. If
    /// `bom` is true, a BOM is written before the text (Unicode Standard, section 23.8).
    pub fn new(from: Scheme, to: Scheme, policy: Option<Policy>, bom: bool) -> Converter
        ensures new { IsNew from to policy bom result }
        ensures items { (more : List ℕ) → items_of result more ≡ items_from from (keeps_halves from to) more }
        ensures text { (is : List Item) → text_of result is ≡ encoded (layout_to to) (text_by policy false is) }
        ensures bom { bom_left result ≡ bom_bytes (layout_to to) bom }
        ensures position { position_of result ≡ record { bytes = 0; items = 0; faults = 0 } }
    {
        Converter {
            reading: Reading::new(from, keeps_halves(from, to), policy),
            to: layout_to(to),
            bom,
        }
    }

    /// Returns what the converter keeps: what is known of the text, the layout that is written, and whether a BOM has to
    /// be written before it. [`Converter::from_parts`] makes the same converter of these.
    pub fn parts(&self) -> (Reading, Layout, bool)
        ensures { result ≡ (self.now.reading, self.now.to, self.now.bom) }
    {
        (self.reading, self.to, self.bom)
    }

    /// Returns the converter that keeps this, or `None` if no converter does.
    pub fn from_parts(reading: Reading, to: Layout, bom: bool) -> Option<Converter>
        ensures some { IfSome result (λ c. c ≡ record { reading = reading; to = to; bom = bom }) }
        ensures none { IfNone result (¬ (IsConverting (record { reading = reading; to = to; bom = bom }))) }
    {
        if !is_reading(&reading) || reading.keeps && needs_text(to) {
            return None;
        }
        Some(Converter { reading, to, bom })
    }

    /// Returns how much of the text was read: the position after the items that were passed.
    pub fn position(&self) -> Position
        ensures { result ≡ position_of self.now }
    {
        self.reading.position
    }

    // Reads input, after which others follow unless it is the last, and writes the text of what was read after a BOM.
    fn run(&mut self, input: &[u8], is_last: bool, output: &mut [u8]) -> ConvertProgress
        ensures read { result.read ≤ length input.now }
        ensures written { result.written ≤ length output.new }
        ensures pushes { Pushes self.old self.new input.now is_last result.read (take result.written output.new) (length output.new - result.written) result.end }
    {
        let to = self.to;
        if output.len() < LEAST_SPACE {
            return ConvertProgress {
                read: 0,
                written: 0,
                end: ProgressEnd::NoSpace,
            };
        }
        let start = put_bom(to, self.bom, output);
        let rest = &mut output[start..];
        let progress = feed(&mut self.reading, to, input, is_last, rest);
        self.bom = false;
        ConvertProgress {
            written: start + progress.written,
            ..progress
        }
    }

    /// Reads the next bytes of the text, and writes the text of the characters that these complete at the beginning of
    /// `output`. Bytes of a character that is not complete are kept. It stops at the end of the input, at a fault if
    /// there is no policy, and where fewer than eight bytes of space are left. The bytes after those written may be
    /// overwritten.
    ///
    /// # Example
    ///
    /// ```
    /// use widestring::convert::{Converter, ProgressEnd, Scheme};
    ///
    /// let mut text = [0; 16];
    /// let mut converter = Converter::new(Scheme::Utf16Le, Scheme::Utf8, None, false);
    /// let first = converter.push(b"a\0b", &mut text);
    /// assert!(rt; first.written == 1 && first.end == ProgressEnd::NeedsInput);
    /// let more = converter.push(b"\0", &mut text[1..]);
    /// assert!(rt; more.written == 1 && text.starts_with(b"ab"));
    /// ```
    pub fn push(&mut self, input: &[u8], output: &mut [u8]) -> ConvertProgress
        ensures read { result.read ≤ length input.now }
        ensures written { result.written ≤ length output.new }
        ensures pushes { Pushes self.old self.new input.now false result.read (take result.written output.new) (length output.new - result.written) result.end }
    {
        self.run(input, false, output)
    }

    /// Reads the next bytes of the text, which are the last ones. It does what [`Converter::push`] does, except that
    /// nothing remains that a character may still be made of: bytes that are kept are a fault, or part of a unit.
    ///
    /// # Example
    ///
    /// ```
    /// use widestring::Policy;
    /// use widestring::convert::{Converter, Scheme};
    ///
    /// let mut text = [0; 16];
    /// let mut converter = Converter::new(Scheme::Utf16Le, Scheme::Utf8, Some(Policy::Each), false);
    /// // Half of a pair, and half of a unit.
    /// let progress = converter.push_last(b"\x3d\xd8a", &mut text);
    /// assert!(rt; progress.written == 3 && text.starts_with("\u{fffd}".as_bytes()));
    /// assert!(rt; converter.kept_len() == 1);
    /// ```
    pub fn push_last(&mut self, input: &[u8], output: &mut [u8]) -> ConvertProgress
        ensures read { result.read ≤ length input.now }
        ensures written { result.written ≤ length output.new }
        ensures pushes { Pushes self.old self.new input.now true result.read (take result.written output.new) (length output.new - result.written) result.end }
    {
        self.run(input, true, output)
    }

    /// Ends the text, of which no bytes follow.
    ///
    /// # Example
    ///
    /// ```
    /// use widestring::convert::{Converter, ProgressEnd, Scheme};
    ///
    /// let mut text = [0; 16];
    /// let mut converter = Converter::new(Scheme::Utf8, Scheme::Utf16Le, None, false);
    /// // The first byte of a character, which may go on.
    /// assert!(rt; converter.push(b"\xc3", &mut text).end == ProgressEnd::NeedsInput);
    /// assert!(rt; matches!(converter.finish(&mut text).end, ProgressEnd::Fault(_)));
    /// ```
    pub fn finish(&mut self, output: &mut [u8]) -> ConvertProgress
        ensures written { result.written ≤ length output.new }
        ensures pushes { Pushes self.old self.new [] true result.read (take result.written output.new) (length output.new - result.written) result.end }
    {
        self.run(&[], true, output)
    }

    /// Returns how many bytes are kept: at most four, the beginning of a text, of a unit or of a character. Once the text
    /// was ended they are part of a unit.
    pub fn kept_len(&self) -> usize
        ensures len { result ≡ kept_len self.now }
        ensures few { result ≤ 4 }
    {
        self.reading.unread_len
    }
}
