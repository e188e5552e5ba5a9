//! Decodes a window of a text: bytes of which the first are the next ones.

ghost use Rattle.std.specs.Prelude.{◌≡◌, ◌-◌, ◌<◌, ◌≤◌, ℕ, None, false, length, take, drop};
ghost use Rattle.wide_convert.specs.Readings.{PassesFault, PassesText, PassesWindow, SameText, end_after_fault, replacement_by};
ghost use Rattle.wide_forms.specs.EncodingForm.{Utf16};
ghost use Rattle.wide_unit.specs.CodePoints.{code_points};
ghost use Rattle.wide_schemes.specs.Layouts.{StopsBefore, encoded};

use crate::counts::item_count;
use crate::reading::Reading;
use wide_forms::{Policy, replacement};
use wide_schemes::{DecodeStop, Decoding, Layout, decode};

// Why decoding a window ended.
#[derive(Clone, Copy)]
pub(crate) enum WindowEnd {
    // Something was read, and more may be.
    More,
    // All bytes were read.
    AtEnd,
    // Fewer than two units of space are left.
    NoSpace,
    // The bytes that are left are the beginning of a unit or of a character.
    Incomplete,
    // A fault was read, for which there is no policy.
    Fault {
        // Its unit, as `DecodeStop` has it.
        unit: u32,
        // How many bytes it has.
        len: usize,
    },
}

// How far decoding a window came.
#[derive(Clone, Copy)]
pub(crate) struct WindowStep {
    // How many bytes were read.
    pub(crate) read: usize,
    // How many units were written.
    pub(crate) written: usize,
    // Why it ended.
    pub(crate) end: WindowEnd,
}

// Returns whether a fault was the last item, where so many characters follow.
fn is_after_fault(after_fault: bool, len: usize) -> bool
    ensures same { len ≡ 0 → result ≡ after_fault }
    ensures other { 0 < len → result ≡ false }
{
    after_fault && len == 0
}

// Decodes the characters at the beginning of a window.
fn pass_text(
    reading: &mut Reading,
    layout: Layout,
    bytes: &[u8],
    is_last: bool,
    units: &mut [u16],
) -> Decoding
    requires { reading.old.keeps ≡ false → reading.old.after_high ≡ false }
    ensures read { result.read ≤ length bytes.now }
    ensures written { result.written ≤ length units.new }
    ensures same { SameText reading.old reading.new }
    ensures passes { PassesText layout reading.old reading.new bytes.now is_last result.read (take result.written units.new) }
    ensures spans { result.read ≡ length (encoded layout (code_points Utf16 (take result.written units.new))) }
    ensures state { reading.new.keeps ≡ false → reading.new.after_high ≡ false }
    ensures stop { StopsBefore layout reading.old.keeps reading.new.after_high (drop result.read bytes.now) is_last (length units.new - result.written) result.stop }
{
    let step = decode(
        layout,
        reading.keeps,
        reading.after_high,
        bytes,
        is_last,
        units,
    );
    let items = item_count(&units[..step.written], reading.keeps);
    reading.after_high = step.after_high;
    reading.after_fault = is_after_fault(reading.after_fault, items);
    reading.position = reading.position.after(step.read, items, 0);
    step
}

// Returns what is written for a fault, or `None` for nothing. Without a policy nothing is.
fn replacement_by(policy: Option<Policy>, after_fault: bool) -> Option<char>
    ensures { result ≡ replacement_by policy after_fault }
{
    match policy {
        Some(policy) => replacement(policy, after_fault),
        None => None,
    }
}

// Returns why decoding ends after a fault: without a policy because of it.
fn end_after_fault(policy: Option<Policy>, unit: u32, len: usize) -> WindowEnd
    ensures { result ≡ end_after_fault policy unit len }
{
    match policy {
        Some(_policy) => WindowEnd::More,
        None => WindowEnd::Fault { unit, len },
    }
}

// Passes a fault of `len` bytes, and writes what the policy has for it after the first `written` units. If there is no
// space for that, it passes nothing.
fn pass_fault(
    reading: &mut Reading,
    unit: u32,
    len: usize,
    units: &mut [u16],
    written: usize,
) -> WindowStep
    requires { written ≤ length units.old }
    ensures same { SameText reading.old reading.new }
    ensures high { reading.new.after_high ≡ reading.old.after_high }
    ensures written { result.written ≤ length units.new }
    ensures step { PassesFault reading.old reading.new unit len result.read (take written units.old) (take result.written units.new) (length units.new - written) result.end }
{
    let end = end_after_fault(reading.policy, unit, len);
    let mut after = written;
    if let Some(character) = replacement_by(reading.policy, reading.after_fault) {
        if written == units.len() {
            return WindowStep {
                read: 0,
                written,
                end: WindowEnd::NoSpace,
            };
        }
        units[written] = character as u16;
        after = written + 1;
    }
    reading.after_fault = true;
    reading.position = reading.position.after(len, 1, 1);
    WindowStep {
        read: len,
        written: after,
        end,
    }
}

// Decodes the items at the beginning of a window: characters, and at most one fault after them.
pub(crate) fn decode_window(
    reading: &mut Reading,
    layout: Layout,
    bytes: &[u8],
    is_last: bool,
    units: &mut [u16],
) -> WindowStep
    requires { reading.old.keeps ≡ false → reading.old.after_high ≡ false }
    ensures read { result.read ≤ length bytes.now }
    ensures written { result.written ≤ length units.new }
    ensures same { SameText reading.old reading.new }
    ensures state { reading.new.keeps ≡ false → reading.new.after_high ≡ false }
    ensures passes { PassesWindow layout reading.old reading.new bytes.now is_last result.read (take result.written units.new) (length units.new - result.written) result.end }
{
    let step = pass_text(reading, layout, bytes, is_last, units);
    let end = match step.stop {
        DecodeStop::AtEnd => WindowEnd::AtEnd,
        DecodeStop::NoSpace => WindowEnd::NoSpace,
        DecodeStop::Incomplete => WindowEnd::Incomplete,
        DecodeStop::Fault { unit, len } => {
            let fault = pass_fault(reading, unit, len, units, step.written);
            return WindowStep {
                read: step.read + fault.read,
                ..fault
            };
        }
    };
    WindowStep {
        read: step.read,
        written: step.written,
        end,
    }
}
