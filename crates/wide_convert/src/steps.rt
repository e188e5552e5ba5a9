//! Reads a text step by step: bytes of any number at a time, of which those that are no item so far are kept.

ghost use Rattle.std.specs.Prelude.{◌≡◌, ◌+◌, ◌-◌, ◌<◌, ◌≤◌, ◌++◌, ℕ, List, [], IsTrue, None, Some, false, true, length, min, take, drop};
ghost use Rattle.wide_convert.specs.Steps.{IsReading, SameKind, Steps, end_within, unread_of};
ghost use Rattle.wide_convert.specs.declared.window.WindowEnd.TheVariants.{AtEnd, Incomplete};
ghost use Rattle.wide_convert.specs.declared.steps.StepEnd.TheVariants.{NeedsInput};

use crate::reading::{Reading, append_unread, drop_unread};
use crate::window::{WindowEnd, decode_window};
use wide_schemes::{Layout, layout_from, start_len};

// The greatest number of bytes that are decoded together with those that were kept.
const MORE_BYTES: usize = 4;

// Why a step ended.
#[derive(Clone, Copy)]
pub(crate) enum StepEnd {
    // Something was read, and more may be.
    More,
    // All input was read.
    NeedsInput,
    // Fewer than two units of space are left.
    NoSpace,
    // A fault was read, for which there is no policy.
    Fault {
        // Its unit, as `DecodeStop` has it.
        unit: u32,
        // How many bytes it has.
        len: usize,
    },
}

// How far a step came.
#[derive(Clone, Copy)]
pub(crate) struct Step {
    // How many bytes of the input were read.
    pub(crate) read: usize,
    // How many units were written.
    pub(crate) written: usize,
    // Why it ended.
    pub(crate) end: StepEnd,
}

// Returns whether the layout is not determined: fewer than `len` bytes are known, and others may follow.
fn needs_more(known: usize, len: usize, is_last: bool) -> bool
    ensures more { IsTrue result → (known < len) × (is_last ≡ false) }
    ensures enough { result ≡ false → is_last ≡ false → len ≤ known }
{
    known < len && !is_last
}

// Reads the bytes that determine the layout, as far as the input has them, and drops a BOM.
fn open(reading: &mut Reading, input: &[u8], is_last: bool) -> Step
    requires ready { IsReading reading.old }
    requires closed { reading.old.layout ≡ None }
    ensures read { result.read ≤ length input.now }
    ensures written { result.written ≡ 0 }
    ensures ready { IsReading reading.new }
    ensures same { SameKind reading.old reading.new }
    ensures steps { (room : ℕ) → Steps reading.old reading.new input.now is_last result.read [] room result.end }
{
    let len = start_len(reading.scheme);
    let read = (len - reading.unread_len).min(input.len());
    append_unread(reading, &input[..read]);
    if needs_more(reading.unread_len, len, is_last) {
        return Step {
            read,
            written: 0,
            end: StepEnd::NeedsInput,
        };
    }
    let (layout, bom) = layout_from(reading.scheme, &reading.unread[..reading.unread_len]);
    drop_unread(reading, bom);
    reading.layout = Some(layout);
    reading.bom = bom;
    reading.position = reading.position.after(bom, 0, 0);
    Step {
        read,
        written: 0,
        end: StepEnd::More,
    }
}

// Returns whether the text ends with a window, where `beyond` bytes of the input follow the window.
fn is_last_window(is_last: bool, beyond: usize) -> bool
    ensures last { IsTrue result → (is_last ≡ true) × (beyond ≡ 0) }
    ensures other { result ≡ false → is_last ≡ true → 0 < beyond }
{
    is_last && beyond == 0
}

// Returns why a step ended, where a window did, before the input did.
fn end_within(end: WindowEnd) -> StepEnd
    ensures { result ≡ end_within end }
{
    match end {
        WindowEnd::More | WindowEnd::AtEnd | WindowEnd::Incomplete => StepEnd::More,
        WindowEnd::NoSpace => StepEnd::NoSpace,
        WindowEnd::Fault { unit, len } => StepEnd::Fault { unit, len },
    }
}

// Returns whether decoding ended at the beginning of a unit or of a character.
fn is_incomplete(end: WindowEnd) -> bool
    ensures some { IsTrue result → end ≡ Incomplete }
    ensures none { result ≡ false → ¬ (end ≡ Incomplete) }
{
    matches!(end, WindowEnd::Incomplete)
}

// Stores the bytes that are kept, and the next ones of the input, at most four. Returns how many these are.
fn fill_window(reading: &Reading, input: &[u8], bytes: &mut [u8]) -> usize
    requires ready { IsReading reading.now }
    requires space { 8 ≤ length bytes.old }
    ensures more { result ≡ min (length input.now) 4 }
    ensures bytes { take (reading.now.unread_len + result) bytes.new ≡ unread_of reading.now ++ take result input.now }
    ensures long { length bytes.new ≡ length bytes.old }
{
    let kept = reading.unread_len;
    let more = input.len().min(MORE_BYTES);
    bytes[..kept].copy_from_slice(&reading.unread[..kept]);
    bytes[kept..kept + more].copy_from_slice(&input[..more]);
    more
}

// Decodes the bytes that are kept, with the next ones of the input.
fn decode_unread(
    reading: &mut Reading,
    layout: Layout,
    input: &[u8],
    is_last: bool,
    units: &mut [u16],
) -> Step
    requires ready { IsReading reading.old }
    requires known { reading.old.layout ≡ Some layout }
    requires some { 0 < reading.old.unread_len }
    ensures read { result.read ≤ length input.now }
    ensures written { result.written ≤ length units.new }
    ensures ready { IsReading reading.new }
    ensures same { SameKind reading.old reading.new }
    ensures steps { Steps reading.old reading.new input.now is_last result.read (take result.written units.new) (length units.new - result.written) result.end }
{
    let mut bytes = [0u8; 8];
    let kept = reading.unread_len;
    let more = fill_window(reading, input, &mut bytes);
    let is_last = is_last_window(is_last, input.len() - more);
    let step = decode_window(reading, layout, &bytes[..kept + more], is_last, units);
    if step.read < kept {
        drop_unread(reading, step.read);
        if is_incomplete(step.end) {
            append_unread(reading, input);
            return Step {
                read: input.len(),
                written: step.written,
                end: StepEnd::NeedsInput,
            };
        }
        return Step {
            read: 0,
            written: step.written,
            end: end_within(step.end),
        };
    }
    drop_unread(reading, kept);
    Step {
        read: step.read - kept,
        written: step.written,
        end: end_within(step.end),
    }
}

// How many bytes of input are decoded at once, where there is space for so many units: not many more than fit, so that
// bytes that do not fit are not read again and again, and at least eight.
fn window_len(input: usize, space: usize) -> usize
    ensures within { result ≤ input }
    ensures some { result < input → 8 ≤ result }
{
    space.saturating_mul(2).saturating_add(8).min(input)
}

// Returns why a step ended, where a window did that `beyond` bytes of the input follow.
fn end_at(end: WindowEnd, beyond: usize) -> StepEnd
    ensures whole { beyond ≡ 0 → end ≡ AtEnd → result ≡ NeedsInput }
    ensures other { (beyond ≡ 0 → end ≡ AtEnd → ⊥) → result ≡ end_within end }
{
    match end {
        WindowEnd::AtEnd if beyond == 0 => StepEnd::NeedsInput,
        _ => end_within(end),
    }
}

// Returns whether the last bytes of the input are the beginning of a unit or of a character, where `beyond` bytes of the
// input follow the window.
fn is_kept(end: WindowEnd, beyond: usize) -> bool
    ensures some { IsTrue result → (beyond ≡ 0) × (end ≡ Incomplete) }
    ensures none { result ≡ false → beyond ≡ 0 → ¬ (end ≡ Incomplete) }
{
    beyond == 0 && is_incomplete(end)
}

// Decodes input, where no bytes are kept.
fn decode_input(
    reading: &mut Reading,
    layout: Layout,
    input: &[u8],
    is_last: bool,
    units: &mut [u16],
) -> Step
    requires ready { IsReading reading.old }
    requires known { reading.old.layout ≡ Some layout }
    requires none { reading.old.unread_len ≡ 0 }
    ensures read { result.read ≤ length input.now }
    ensures written { result.written ≤ length units.new }
    ensures ready { IsReading reading.new }
    ensures same { SameKind reading.old reading.new }
    ensures steps { Steps reading.old reading.new input.now is_last result.read (take result.written units.new) (length units.new - result.written) result.end }
{
    let len = window_len(input.len(), units.len());
    let beyond = input.len() - len;
    let is_last = is_last_window(is_last, beyond);
    let step = decode_window(reading, layout, &input[..len], is_last, units);
    if is_kept(step.end, beyond) {
        append_unread(reading, &input[step.read..]);
        return Step {
            read: input.len(),
            written: step.written,
            end: StepEnd::NeedsInput,
        };
    }
    Step {
        read: step.read,
        written: step.written,
        end: end_at(step.end, beyond),
    }
}

// Reads the next bytes of a text: those that determine the layout, or some that are characters, and at most one fault.
pub(crate) fn read_step(
    reading: &mut Reading,
    input: &[u8],
    is_last: bool,
    units: &mut [u16],
) -> Step
    requires { IsReading reading.old }
    ensures read { result.read ≤ length input.now }
    ensures written { result.written ≤ length units.new }
    ensures ready { IsReading reading.new }
    ensures same { SameKind reading.old reading.new }
    ensures steps { Steps reading.old reading.new input.now is_last result.read (take result.written units.new) (length units.new - result.written) result.end }
{
    match reading.layout {
        None => open(reading, input, is_last),
        Some(layout) => {
            if reading.unread_len > 0 {
                decode_unread(reading, layout, input, is_last, units)
            } else {
                decode_input(reading, layout, input, is_last, units)
            }
        }
    }
}
