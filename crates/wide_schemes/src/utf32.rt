//! Decodes a chunk of UTF-32. Vectorized: the units of a block are made, checked and converted in SIMD lanes.

ghost use Rattle.std.specs.Prelude.{◌≡◌, ◌≤◌, ◌<◌, ◌+◌, ◌-◌, ◌*◌, ◌/◌, ℕ, Bool, false, IfSome, IsNone, slice_index, length, drop, take};
ghost use Rattle.std.specs.Char.{IsScalar};
ghost use Rattle.std.specs.List.{All};
ghost use Rattle.wide_forms.specs.EncodingForm.{Utf16, Utf32 as Utf32Form, encode};
ghost use Rattle.wide_forms.specs.Items.{IsWellFormed};
ghost use Rattle.wide_unit.specs.CodePoints.{code_points};
ghost use Rattle.wide_bytes.specs.declared.order.BoM.{BoM};
ghost use Rattle.wide_bytes.specs.declared.order.BoM.TheVariants.{Big, Little};
ghost use Rattle.wide_schemes.specs.Decoded.{BeginsWithNoScalar, IsScalarPart};
ghost use Rattle.wide_schemes.specs.Layouts.{Decodes, StopsBefore, encoded, unit32_at, unit32_in, units32_in};
ghost use Rattle.wide_schemes.specs.declared.layout.Layout.TheVariants.{Utf32};

use crate::progress::{DecodeStop, Decoding};
use std::simd::prelude::*;
use wide_bytes::BoM;
use wide_forms::Progress;
use wide_from_units::between_forms_prefix;
use wide_unit::{Unit, char_of, put_char};

// How many units are decoded in one step.
const BLOCK_UNITS: usize = 64;

// Returns the code unit of four bytes (Unicode Standard, D99 and D100).
#[inline(always)]
fn unit32_in(order: BoM, first: u8, second: u8, third: u8, fourth: u8) -> u32
    ensures { result ≡ unit32_in order first second third fourth }
{
    let (first, second) = (u32::from(first), u32::from(second));
    let (third, fourth) = (u32::from(third), u32::from(fourth));
    match order {
        BoM::Little => first + 0x100 * second + 0x1_0000 * third + 0x100_0000 * fourth,
        BoM::Big => 0x100_0000 * first + 0x1_0000 * second + 0x100 * third + fourth,
    }
}

// Returns the unit at an index in units.
#[inline(always)]
fn unit32_at(order: BoM, bytes: &[u8], k: usize) -> u32
    requires { 4 * k + 4 ≤ length bytes.now }
    ensures { result ≡ unit32_at order bytes.now k }
{
    let at = 4 * k;
    unit32_in(
        order,
        bytes[at],
        bytes[at + 1],
        bytes[at + 2],
        bytes[at + 3],
    )
}

// Stores little-endian units, whose bytes are copied unchanged.
fn fill_little_32(bytes: &[u8], units: &mut [u32])
    requires { length bytes.now / 4 ≤ length units.old }
    ensures long { length units.new ≡ length units.old }
    ensures units { (k : ℕ) → k < length bytes.now / 4 → slice_index units.new k ≡ unit32_at Little bytes.now k }
{
    for k in 0..bytes.len() / 4 {
        units[k] = unit32_at(BoM::Little, bytes, k);
    }
}

// Returns four big-endian units.
#[inline(always)]
fn big_lanes_32(bytes: &[u8]) -> u32x4
    requires { 16 ≤ length bytes.now }
    ensures { (k : ℕ) → k < 4 → slice_index result k ≡ unit32_at Big bytes.now k }
{
    let fours = u8x16::from_slice(bytes);
    let swapped = fours.swizzle([3, 2, 1, 0, 7, 6, 5, 4, 11, 10, 9, 8, 15, 14, 13, 12]);
    u32x4::from_le_bytes(swapped)
}

// Stores big-endian units, four in one step and the last ones one by one.
fn fill_big_32(bytes: &[u8], units: &mut [u32])
    requires { length bytes.now / 4 ≤ length units.old }
    ensures long { length units.new ≡ length units.old }
    ensures units { (k : ℕ) → k < length bytes.now / 4 → slice_index units.new k ≡ unit32_at Big bytes.now k }
{
    let count = bytes.len() / 4;
    let mut done = 0;
    'fours: while count - done >= 4 {
        big_lanes_32(&bytes[4 * done..]).copy_to_slice(&mut units[done..done + 4]);
        done += 4;
    }
    'ones: while done < count {
        units[done] = unit32_at(BoM::Big, bytes, done);
        done += 1;
    }
}

/// Stores the code units of the whole fours of bytes (Unicode Standard, D99 and D100) at the beginning of `units`. The
/// units after them may be overwritten.
///
/// # Requires
///
/// `units` is at least a quarter as long as `bytes`, rounded down.
pub fn fill_units_32(order: BoM, bytes: &[u8], units: &mut [u32])
    requires { length bytes.now / 4 ≤ length units.old }
    ensures long { length units.new ≡ length units.old }
    ensures units { take (length bytes.now / 4) units.new ≡ units32_in order bytes.now }
{
    match order {
        BoM::Little => fill_little_32(bytes, units),
        BoM::Big => fill_big_32(bytes, units),
    }
}

// Writes scalar values as units of 16 bits at the beginning of `units`. It stops before the end only if fewer than two
// units of space are left. Returns how many scalar values were read and how many units were written.
fn put_scalars(codes: &[u32], units: &mut [u16]) -> Progress
    requires { All IsScalar codes.now }
    ensures read { result.read ≤ length codes.now }
    ensures written { result.written ≤ length units.new }
    ensures text { take result.written units.new ≡ encode Utf16 (take result.read codes.now) }
    ensures space { result.read < length codes.now → length units.new - result.written < 2 }
{
    let mut read = 0;
    let mut written = 0;
    'prefixes: while read < codes.len() && units.len() - written >= 16 {
        let step = between_forms_prefix(&codes[read..], &mut units[written..]);
        read += step.read;
        written += step.written;
    }
    'ones: while read < codes.len() && units.len() - written >= 2 {
        written = put_char(units, written, char_of(codes[read]));
        read += 1;
    }
    Progress { read, written }
}

// How far decoding a block of units came.
#[derive(Clone, Copy)]
struct BlockStep {
    // How many bytes were read.
    read: usize,
    // How many units were written.
    written: usize,
    // The unit after those that were read, if it was reached and is no scalar value.
    fault: Option<u32>,
}

// Decodes the first units of some bytes, at most as many as `block` has. It reads at least one unit, unless the first
// one is no scalar value. The block is overwritten.
fn decode_block(order: BoM, bytes: &[u8], block: &mut [u32], units: &mut [u16]) -> BlockStep
    requires block { 0 < length block.old }
    requires some { 4 ≤ length bytes.now }
    requires space { 2 ≤ length units.old }
    ensures written { result.written ≤ length units.new }
    ensures some { IsNone result.fault → 0 < result.read }
    ensures part { IsScalarPart order bytes.now result.read (take result.written units.new) }
    ensures fault { IfSome result.fault (λ u. BeginsWithNoScalar order (drop result.read bytes.now) u) }
{
    // Each scalar value has at least one unit of 16 bits, so there is no space for more of them.
    let count = (bytes.len() / 4).min(block.len()).min(units.len());
    fill_units_32(order, &bytes[..4 * count], block);
    let codes = &block[..count];
    let valid = u32::leading_scalars(codes);
    let step = put_scalars(&codes[..valid], units);
    let fault = if step.read == valid && valid < count {
        Some(codes[valid])
    } else {
        None
    };
    BlockStep {
        read: 4 * step.read,
        written: step.written,
        fault,
    }
}

// Returns why decoding stopped before these bytes, which begin with no fault that was reached.
fn stop_before(rest: &[u8]) -> DecodeStop
    ensures { (order : BoM) (last : Bool) (room : ℕ) → (4 ≤ length rest.now → room < 2) → StopsBefore (Utf32 order) false false rest.now last room result }
{
    match rest.len() {
        0 => DecodeStop::AtEnd,
        1..=3 => DecodeStop::Incomplete,
        _ => DecodeStop::NoSpace,
    }
}

/// Decodes a chunk of UTF-32 (Unicode Standard, D99 and D100), up to a fault, part of a unit or the end, and writes
/// units of 16 bits at the beginning of `units`. A fault is a unit that is no scalar value, and has four bytes. Part of
/// a unit at the end is incomplete, whether or not `is_last` says that no bytes follow the chunk. The units after those
/// written may be overwritten.
pub fn decode_utf32(order: BoM, bytes: &[u8], is_last: bool, units: &mut [u16]) -> Decoding
    ensures read { result.read ≤ length bytes.now }
    ensures written { result.written ≤ length units.new }
    ensures bytes { take result.read bytes.now ≡ encoded (Utf32 order) (code_points Utf16 (take result.written units.new)) }
    ensures items { Decodes (Utf32 order) false false bytes.now is_last result.read (take result.written units.new) false }
    ensures state { result.after_high ≡ false }
    ensures well_formed { IsWellFormed Utf16 (take result.written units.new) }
    ensures stop { StopsBefore (Utf32 order) false false (drop result.read bytes.now) is_last (length units.new - result.written) result.stop }
{
    let mut block = [0u32; BLOCK_UNITS];
    let mut read = 0;
    let mut written = 0;
    while bytes.len() - read >= 4 && units.len() - written >= 2 {
        let step = decode_block(order, &bytes[read..], &mut block, &mut units[written..]);
        read += step.read;
        written += step.written;
        if let Some(unit) = step.fault {
            return Decoding {
                read,
                written,
                after_high: false,
                stop: DecodeStop::Fault { unit, len: 4 },
            };
        }
    }
    Decoding {
        read,
        written,
        after_high: false,
        stop: stop_before(&bytes[read..]),
    }
}
