//! The state of a conversion piece by piece, in memory of the caller: the numbers in it, and the converter that it
//! holds.
ghost use Rattle.std.specs.Prelude.{◌≡◌, IfNone, IfSome, Some};
ghost use Rattle.std.specs.Option.{option_map};
ghost use Rattle.wide_schemes.specs.Schemes.{layout_to};
ghost use Rattle.widestring_c.specs.Bytes.{is_set};
ghost use Rattle.widestring_c.specs.Converters.{Holds, HoldsNone, IsEnd, Says, layout_named, scheme_named, strictness_named};

use crate::bytes::is_set;
use crate::policies::policy_of;
use wide_bytes::BoM;
use wide_convert::{Converter, Position, ProgressEnd, Reading, TextFault};
use wide_forms::Policy;
use wide_schemes::{Layout, Scheme, layout_to};

/// The state of a conversion piece by piece, and how far the last piece came. `wide_convert_start` writes it, and
/// `wide_convert_push` reads and writes it. C programs read the members before `from`.
#[repr(C)]
#[derive(Clone, Copy)]
pub struct WideConverter {
    /// How many bytes of the last input were read.
    pub read: usize,
    /// How many bytes at the end belong to no item so far.
    pub kept: usize,
    /// How many bytes of the text were passed.
    pub bytes: u64,
    /// How many items of the text were passed: characters and faults.
    pub items: u64,
    /// How many of these items are faults.
    pub faults: u64,
    /// How many bytes of the text precede the fault at which the conversion stopped.
    pub fault_offset: u64,
    /// How many items of the text precede that fault.
    pub fault_item: u64,
    /// The unit that is that fault, or its first byte.
    pub fault_unit: u32,
    /// Why the conversion stopped.
    pub end: u32,
    /// The number of the scheme that is read.
    pub from: u32,
    /// The number of the scheme that is written.
    pub to: u32,
    /// The number of the policy.
    pub policy: u32,
    /// The number of a scheme that is read in the layout of the text, or 8 if the layout is not known.
    pub layout: u32,
    /// Whether surrogates that belong to no pair are characters.
    pub keeps: u32,
    /// Whether the last character is the first half of a pair.
    pub after_high: u32,
    /// Whether the last item is a fault.
    pub after_fault: u32,
    /// Whether a BOM has to be written.
    pub bom: u32,
    /// The length in bytes of the BOM that was passed.
    pub bom_length: usize,
    /// The bytes that belong to no item so far, and others after them.
    pub unread: [u8; 4],
}

// The number for a layout that is not known.
const UNKNOWN: u32 = 8;

// The number for no policy.
const STRICT: u32 = 3;

// Returns the scheme with this number, or `None` if there is none.
pub(crate) fn scheme_named(number: u32) -> Option<Scheme>
    ensures { result ≡ scheme_named number }
{
    match number {
        0 => Some(Scheme::Utf8),
        1 => Some(Scheme::Utf16Le),
        2 => Some(Scheme::Utf16Be),
        3 => Some(Scheme::Utf16),
        4 => Some(Scheme::Utf32Le),
        5 => Some(Scheme::Utf32Be),
        6 => Some(Scheme::Utf32),
        7 => Some(Scheme::Wtf8),
        _ => None,
    }
}

// Returns the number of a scheme.
pub(crate) fn number_of_scheme(scheme: Scheme) -> u32
    ensures { scheme_named result ≡ Some scheme }
{
    match scheme {
        Scheme::Utf8 => 0,
        Scheme::Utf16Le => 1,
        Scheme::Utf16Be => 2,
        Scheme::Utf16 => 3,
        Scheme::Utf32Le => 4,
        Scheme::Utf32Be => 5,
        Scheme::Utf32 => 6,
        Scheme::Wtf8 => 7,
    }
}

// Returns the policy with this number, where `Some(None)` is none, or `None` if the number is invalid.
pub(crate) fn strictness_named(number: u32) -> Option<Option<Policy>>
    ensures { result ≡ strictness_named number }
{
    if number == STRICT {
        return Some(None);
    }
    match policy_of(number) {
        Some(policy) => Some(Some(policy)),
        None => None,
    }
}

// Returns the number of a policy, or of none.
pub(crate) fn number_of_policy(policy: Option<Policy>) -> u32
    ensures { strictness_named result ≡ Some policy }
{
    match policy {
        Some(Policy::Each) => 0,
        Some(Policy::Run) => 1,
        Some(Policy::Skip) => 2,
        None => STRICT,
    }
}

// Returns the layout in which the scheme with this number is written, or `None` if the number is invalid.
fn layout_to_named(number: u32) -> Option<Layout>
    ensures { result ≡ option_map layout_to (scheme_named number) }
{
    match scheme_named(number) {
        Some(scheme) => Some(layout_to(scheme)),
        None => None,
    }
}

// Returns the number of a scheme that is written in this layout.
fn number_of_layout(layout: Layout) -> u32
    ensures to { option_map layout_to (scheme_named result) ≡ Some layout }
    ensures known { layout_named result ≡ Some (Some layout) }
{
    match layout {
        Layout::Utf8 => 0,
        Layout::Utf16(BoM::Little) => 1,
        Layout::Utf16(BoM::Big) => 2,
        Layout::Utf32(BoM::Little) => 4,
        Layout::Utf32(BoM::Big) => 5,
        Layout::Wtf8 => 7,
    }
}

// Returns the layout with this number, where `Some(None)` is one that is not known, or `None` if the number is invalid.
fn layout_named(number: u32) -> Option<Option<Layout>>
    ensures { result ≡ layout_named number }
{
    if number == UNKNOWN {
        return Some(None);
    }
    match layout_to_named(number) {
        Some(layout) => Some(Some(layout)),
        None => None,
    }
}

// Returns the number of a layout, or of one that is not known.
fn number_of_known(layout: Option<Layout>) -> u32
    ensures { layout_named result ≡ Some layout }
{
    match layout {
        Some(layout) => number_of_layout(layout),
        None => UNKNOWN,
    }
}

// Returns the number for a flag.
fn number_of_flag(flag: bool) -> u32
    ensures { is_set result ≡ flag }
{
    u32::from(flag)
}

// Returns the converter that a state holds, or `None` if it holds none.
pub(crate) fn converter_in(state: &WideConverter) -> Option<Converter>
    ensures some { IfSome result (λ c. Holds state.now c) }
    ensures none { IfNone result (HoldsNone state.now) }
{
    let (Some(scheme), Some(to)) = (scheme_named(state.from), layout_to_named(state.to)) else {
        return None;
    };
    let Some(policy) = strictness_named(state.policy) else {
        return None;
    };
    let Some(layout) = layout_named(state.layout) else {
        return None;
    };
    let unread = state.unread;
    let reading = Reading {
        scheme,
        keeps: is_set(state.keeps),
        policy,
        layout,
        after_high: is_set(state.after_high),
        after_fault: is_set(state.after_fault),
        unread,
        unread_len: state.kept,
        bom: state.bom_length,
        position: Position {
            bytes: state.bytes,
            items: state.items,
            faults: state.faults,
        },
    };
    Converter::from_parts(reading, to, is_set(state.bom))
}

// Returns the number of why a converter stopped, and the fault at which it stopped, which is 0 throughout for none.
fn end_of(end: ProgressEnd) -> (u32, TextFault)
    ensures { IsEnd result.0 result.1 end }
{
    let none = TextFault {
        offset: 0,
        item: 0,
        unit: 0,
    };
    match end {
        ProgressEnd::NeedsInput => (0, none),
        ProgressEnd::NoSpace => (1, none),
        ProgressEnd::Fault(fault) => (2, fault),
    }
}

// Returns a state that holds a converter, and says how far it came.
pub(crate) fn state_of(converter: Converter, read: usize, end: ProgressEnd) -> WideConverter
    ensures holds { Holds result converter }
    ensures read { result.read ≡ read }
    ensures end { Says result end }
{
    let (reading, to, bom) = converter.parts();
    let (end, fault) = end_of(end);
    let unread = reading.unread;
    WideConverter {
        read,
        kept: reading.unread_len,
        bytes: reading.position.bytes,
        items: reading.position.items,
        faults: reading.position.faults,
        fault_offset: fault.offset,
        fault_item: fault.item,
        fault_unit: fault.unit,
        end,
        from: number_of_scheme(reading.scheme),
        to: number_of_layout(to),
        policy: number_of_policy(reading.policy),
        layout: number_of_known(reading.layout),
        keeps: number_of_flag(reading.keeps),
        after_high: number_of_flag(reading.after_high),
        after_fault: number_of_flag(reading.after_fault),
        bom: number_of_flag(bom),
        bom_length: reading.bom,
        unread,
    }
}
