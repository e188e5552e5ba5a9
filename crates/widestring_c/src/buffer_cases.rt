//! Tests of conversions into buffers that fit exactly, are too short or too long: each kind of character and of fault,
//! at each offset of texts of each length. The standard library makes the expected result for a kind. The letters
//! before and after it convert to themselves.
use crate::between::{wide_utf16_to_utf32, wide_utf32_to_utf16};
use crate::bytes_cases::holds_in;
use crate::from_utf8::{
    wide_utf8_first_fault, wide_utf8_to_utf16, wide_utf8_to_utf16_lossy,
    wide_utf8_to_utf16_lossy_with, wide_utf8_to_utf32, wide_utf8_to_utf32_lossy,
    wide_utf8_to_utf32_lossy_with,
};
use crate::repair::{wide_utf16_repair, wide_utf32_repair};
use crate::to_utf8::{
    wide_utf16_to_utf8, wide_utf16_to_utf8_lossy, wide_utf16_to_utf8_lossy_with,
    wide_utf32_to_utf8, wide_utf32_to_utf8_lossy, wide_utf32_to_utf8_lossy_with,
};
use std::alloc::{AllocError, Global};
use std::process::Abort;
use std::simd::prelude::*;
use std::{char, str};
use wide_forms::Policy;

// How many letters there are to take from, and how many units a buffer has, a multiple of 64.
const LETTERS: usize = 2101;

const SIZE: usize = 2432;

// Groups of cases: the least and the greatest length of texts, and the first and the last offset at which a kind is
// put. They are all lengths of a few blocks, those around the ends of blocks of 64 bytes, and those around the end of a
// chunk of 256 units.
static LENGTHS: [(usize, usize, usize, usize); 3] = [
    (0, 70, 0, 70),
    (127, 131, 60, 131),
    (255, 258, 250, 258),
];

// What is put at an offset of UTF-16, cut off at the end of the text: a character of each length in UTF-8, and faults.
// Half a pair is also a fault.
pub(crate) static KINDS16: [&[u16]; 8] = [
    &[0x7a],
    &[0xdf],
    &[0x8a9e],
    &[0xd83d, 0xde00],
    &[0xd83d],
    &[0xde00],
    &[0xd83d, 0xd83d, 0xde00, 0xde00],
    &[0xde00, 0xd83d, 0xd83d],
];

// What is put at an offset of UTF-32, cut off at the end of the text: a character of each length in UTF-8, surrogates,
// and numbers above 10FFFF.
static KINDS32: [&[u32]; 8] = [
    &[0x7a],
    &[0xdf],
    &[0x8a9e],
    &[0x1_f600],
    &[0xd83d],
    &[0xde00],
    &[0x11_0000],
    &[0xd83d, 0xde00, 0xffff_ffff],
];

// What is put at an offset of UTF-8, cut off at the end of the text: characters of each length, ill-formed sequences of
// one to three bytes, a surrogate, and a value above U+10FFFF.
static KINDS8: [&[u8]; 12] = [
    &[0x7a],
    &[0xc3, 0x9f],
    &[0xe8, 0xaa, 0x9e],
    &[0xf0, 0x9f, 0x98, 0x80],
    &[0xff],
    &[0xc1, 0x81],
    &[0xc3],
    &[0xe8, 0xaa],
    &[0xf0, 0x9f, 0x98],
    &[0xed, 0xa0, 0x80],
    &[0xf4, 0x90, 0x80, 0x80],
    &[0xff, 0xef, 0xbf, 0xbd, 0xe8, 0xaa, 0xff],
];

// How a conversion is called: the strict one, the one that writes U+FFFD for each fault, and the one with the number of
// a policy, or, for `None`, with a number that is not a policy.
#[derive(Clone, Copy)]
pub(crate) enum Way {
    Strict,
    Lossy,
    By(Option<u32>),
}

impl Way {
    // Returns whether the call returns a text. `is_text` says whether the units are well formed.
    pub(crate) fn is_put(self, is_text: bool) -> bool {
        match self {
            Way::Strict => is_text,
            Way::Lossy => true,
            Way::By(number) => number.is_some(),
        }
    }
}

// The calls that are compared with the lossy text under the policy `Each`.
static CALLS_OF_EACH: [Way; 4] = [Way::By(Some(0)), Way::Strict, Way::Lossy, Way::By(None)];

// The calls that are compared with the lossy text under the policy `Run`.
static CALLS_OF_RUN: [Way; 1] = [Way::By(Some(1))];

// The calls that are compared with the lossy text under the policy `Skip`.
static CALLS_OF_SKIP: [Way; 1] = [Way::By(Some(2))];

// How long a buffer is: it fits exactly, is one element shorter, or five elements longer.
#[derive(Clone, Copy)]
pub(crate) enum Fit {
    Exact,
    Short,
    Long,
}

impl Fit {
    pub(crate) fn is_exact(self) -> bool {
        matches!(self, Fit::Exact)
    }
}

// The characters of a kind, `None` for each fault. A kind has at most eight.
#[derive(Drop)]
pub(crate) struct Items {
    all: [Option<char>; 8],
    len: usize,
}

impl Items {
    fn none() -> Items {
        Items {
            all: [None; 8],
            len: 0,
        }
    }

    fn read(&self) -> &[Option<char>] {
        self.all.as_slice().get(..self.len).unwrap_or_default()
    }

    fn push(&mut self, item: Option<char>) {
        if self.len < 8 {
            self.all[self.len] = item;
            self.len += 1;
        }
    }
}

// Units of a width: the letters in it, a decoder that adds `None` for each fault, and a comparison of two blocks of 64
// units.
pub(crate) trait Form: Copy {
    fn letters(targets: &Targets) -> &[Self];

    fn decode(units: &[Self], items: &mut Items);

    fn are_same(left: &[Self], right: &[Self]) -> bool;
}

impl Form for u8 {
    fn letters(targets: &Targets) -> &[u8] {
        &targets.bytes.letters
    }

    fn decode(units: &[u8], items: &mut Items) {
        for chunk in units.utf8_chunks() {
            for c in chunk.valid().chars() {
                items.push(Some(c));
            }
            if !chunk.invalid().is_empty() {
                items.push(None);
            }
        }
    }

    fn are_same(left: &[u8], right: &[u8]) -> bool {
        left.len() >= 64
            && right.len() >= 64
            && u8x64::from_slice(left)
                .simd_eq(u8x64::from_slice(right))
                .all()
    }
}

impl Form for u16 {
    fn letters(targets: &Targets) -> &[u16] {
        &targets.units.letters
    }

    fn decode(units: &[u16], items: &mut Items) {
        for decoded in char::decode_utf16(units.iter().copied()) {
            items.push(decoded.ok());
        }
    }

    fn are_same(left: &[u16], right: &[u16]) -> bool {
        left.len() >= 64
            && right.len() >= 64
            && u16x64::from_slice(left)
                .simd_eq(u16x64::from_slice(right))
                .all()
    }
}

impl Form for u32 {
    fn letters(targets: &Targets) -> &[u32] {
        &targets.scalars.letters
    }

    fn decode(units: &[u32], items: &mut Items) {
        for unit in units {
            items.push(char::from_u32(*unit));
        }
    }

    fn are_same(left: &[u32], right: &[u32]) -> bool {
        left.len() >= 64
            && right.len() >= 64
            && u32x64::from_slice(left)
                .simd_eq(u32x64::from_slice(right))
                .all()
    }
}

// Returns whether two slices of whole blocks are equal. A comparison by `==` would call a function for each unit.
fn are_all_same<T: Form>(left: &[T], right: &[T]) -> bool {
    let mut are_same = left.len() == right.len() && left.len() >= 64;
    for block in 0..left.len() / 64 {
        let start = block.saturating_mul(64);
        let left = left.get(start..).unwrap_or_default();
        are_same &= T::are_same(left, right.get(start..).unwrap_or_default());
    }
    are_same
}

// Copies units to an offset if they fit, and returns the offset after them.
pub(crate) fn put<T: Copy>(buffer: &mut [T], at: usize, units: &[T]) -> usize {
    if at <= buffer.len() && units.len() <= buffer.len() - at {
        buffer[at..at + units.len()].copy_from_slice(units);
    }
    at.saturating_add(units.len())
}

// Returns units again and again.
fn repeated<T: Copy>(alloc: Global, units: &[T]) -> Result<Vec<T>, AllocError> {
    let mut all = Vec::new(alloc);
    for _ in 0..LETTERS {
        all.extend_from_slice(units)?;
    }
    Ok(all)
}

// A buffer to convert into, the expected result and its length, and what the buffer holds before the call; also the
// letters of the texts, and how many units one has.
#[derive(Drop)]
pub(crate) struct Target<T> {
    letters: Vec<T>,
    width: usize,
    buffer: Vec<T>,
    wanted: Vec<T>,
    len: usize,
    fillers: Vec<T>,
}

impl<T: Form> Target<T> {
    fn new(alloc: Global, letter: &[T], filler: T) -> Result<Target<T>, AllocError> {
        Ok(Target {
            letters: repeated(alloc, letter)?,
            width: letter.len(),
            buffer: vec![in alloc; filler; SIZE]?,
            wanted: vec![in alloc; filler; SIZE]?,
            len: 0,
            fillers: vec![in alloc; filler; SIZE]?,
        })
    }

    // Adds units to the expected result.
    fn append(&mut self, units: &[T]) {
        self.len = put(&mut self.wanted, self.len, units);
    }

    // Adds letters to the expected result.
    fn append_letters(&mut self, count: usize) {
        let letters = self
            .letters
            .as_slice()
            .get(..count.saturating_mul(self.width));
        self.len = put(&mut self.wanted, self.len, letters.unwrap_or_default());
    }

    // Begins a new expected result with letters.
    fn begin(&mut self, before: usize) {
        self.len = 0;
        self.append_letters(before);
    }

    // Ends the expected result with letters. What the buffer holds before a call follows it.
    fn end(&mut self, after: usize) {
        self.append_letters(after);
        let fillers = self.fillers.as_slice().get(..192);
        put(&mut self.wanted, self.len, fillers.unwrap_or_default());
    }

    pub(crate) fn wanted(&self) -> &[T] {
        self.wanted.as_slice().get(..self.len).unwrap_or_default()
    }

    fn capacity(&self, fit: Fit) -> usize {
        match fit {
            Fit::Exact => self.len,
            Fit::Short => self.len.saturating_sub(1),
            Fit::Long => self.len.saturating_add(5),
        }
    }

    // Returns the end of whole blocks of 64 units, the last of which is after the capacity.
    fn last_block(&self) -> usize {
        self.len.saturating_add(133) / 64 * 64
    }

    // Returns a buffer for a call.
    pub(crate) fn buffer(&mut self, fit: Fit) -> &mut [T] {
        let end = self.last_block();
        put(
            &mut self.buffer,
            0,
            self.fillers.as_slice().get(..end).unwrap_or_default(),
        );
        let capacity = self.capacity(fit).min(self.buffer.len());
        &mut self.buffer[..capacity]
    }

    // Returns whether a call with this buffer returned the length of the text and wrote it to the start if it fits, or,
    // if `is_put` is false, returned `usize::MAX` and wrote nothing. All elements after the result must be unchanged.
    pub(crate) fn is_filled(&self, fit: Fit, returned: usize, is_put: bool) -> bool {
        let capacity = self.capacity(fit);
        let len = if is_put { self.len } else { usize::MAX };
        let is_put_so = if !is_put {
            self.has(&self.fillers, 0, self.last_block())
        } else if capacity < self.len {
            // If the text does not fit, only the units after the capacity are compared.
            self.has(&self.fillers, capacity, capacity.saturating_add(64))
        } else {
            self.has(&self.wanted, 0, self.last_block())
        };
        (capacity <= SIZE) & (returned == len) & is_put_so
    }

    // Returns whether the buffer has these units from one offset to another.
    fn has(&self, units: &[T], first: usize, end: usize) -> bool {
        let buffer = self.buffer.as_slice().get(first..end);
        are_all_same(
            buffer.unwrap_or_default(),
            units.get(first..end).unwrap_or_default(),
        )
    }
}

// A buffer for each form.
#[derive(Drop)]
pub(crate) struct Targets {
    pub(crate) bytes: Target<u8>,
    units: Target<u16>,
    scalars: Target<u32>,
}

impl Targets {
    fn new(alloc: Global, letter: char) -> Result<Targets, AllocError> {
        Ok(Targets {
            bytes: Target::new(alloc, letter.encode_utf8(&mut [0; 4]).as_bytes(), 0xaa)?,
            units: Target::new(alloc, letter.encode_utf16(&mut [0; 2]), 0xaaaa)?,
            scalars: Target::new(alloc, &[u32::from(letter)], 0xaaaa_aaaa)?,
        })
    }

    // Sets the expected results for a case by a policy. Without faults the text is the same by each policy, so it is
    // made once.
    fn want_once(&mut self, case: &Case, policy: Policy) {
        if case.is_each() | !case.is_text() {
            self.want(case, policy);
        }
    }

    // Adds a character to the expected results.
    fn append(&mut self, c: char) {
        self.bytes.append(c.encode_utf8(&mut [0; 4]).as_bytes());
        self.units.append(c.encode_utf16(&mut [0; 2]));
        self.scalars.append(&[u32::from(c)]);
    }

    // Sets the expected results for a case by a policy.
    fn want(&mut self, case: &Case, policy: Policy) {
        self.bytes.begin(case.before);
        self.units.begin(case.before);
        self.scalars.begin(case.before);
        let mut after = false;
        for item in case.items {
            let is_marked = (policy == Policy::Each) | ((policy == Policy::Run) & !after);
            after = item.is_none();
            let mark = if is_marked { Some('\u{fffd}') } else { None };
            if let Some(c) = item.or(mark) {
                self.append(c);
            }
        }
        self.bytes.end(case.after);
        self.units.end(case.after);
        self.scalars.end(case.after);
    }
}

// A text, and the calls to make of it. The text is `before` letters, the items, each a character or `None` for a fault,
// and `after` letters.
#[derive(Clone, Copy)]
pub(crate) struct Case<'a> {
    pub(crate) before: usize,
    pub(crate) items: &'a [Option<char>],
    pub(crate) after: usize,
    pub(crate) ways: &'a [Way],
}

impl<'a> Case<'a> {
    pub(crate) fn is_text(&self) -> bool {
        !self.items.contains(&None)
    }

    // Returns whether the calls are those of the policy that writes U+FFFD for each fault.
    fn is_each(&self) -> bool {
        self.ways.len() > 1
    }
}

// Units whose conversions are called.
pub(crate) trait Called: Form {
    // Returns whether each function gives the expected result for these units, or, if `order` is a number, for their
    // bytes in the byte order with this number.
    fn holds(
        alloc: Global,
        targets: &mut Targets,
        units: &[Self],
        case: &Case,
        fit: Fit,
        order: Option<u32>,
    ) -> bool;
}

impl Called for u16 {
    fn holds(
        _alloc: Global,
        targets: &mut Targets,
        units: &[u16],
        case: &Case,
        fit: Fit,
        order: Option<u32>,
    ) -> bool {
        match order {
            None => holds16(targets, units, case, fit),
            Some(order) => holds_in(targets, units, order, case, fit),
        }
    }
}

fn holds16(targets: &mut Targets, units: &[u16], case: &Case, fit: Fit) -> bool {
    let is_text = case.is_text();
    let mut well = true;
    for way in case.ways {
        let returned = put_text16(units, *way, targets.bytes.buffer(fit));
        well &= targets.bytes.is_filled(fit, returned, way.is_put(is_text));
    }
    well && (!case.is_each() || is_recoded16(targets, units, fit, is_text))
}

fn put_text16(units: &[u16], way: Way, text: &mut [u8]) -> usize {
    match way {
        Way::Strict => wide_utf16_to_utf8(units, text),
        Way::Lossy => wide_utf16_to_utf8_lossy(units, text),
        Way::By(number) => wide_utf16_to_utf8_lossy_with(units, number.unwrap_or(3), text),
    }
}

fn is_recoded16(targets: &mut Targets, units: &[u16], fit: Fit, is_text: bool) -> bool {
    let len = wide_utf16_to_utf32(units, targets.scalars.buffer(fit));
    let is_recoded = targets.scalars.is_filled(fit, len, is_text);
    let len = wide_utf16_repair(units, targets.units.buffer(fit));
    is_recoded & targets.units.is_filled(fit, len, true) & (targets.units.len == units.len())
}

impl Called for u32 {
    fn holds(
        _alloc: Global,
        targets: &mut Targets,
        units: &[u32],
        case: &Case,
        fit: Fit,
        _order: Option<u32>,
    ) -> bool {
        let is_text = case.is_text();
        let mut well = true;
        for way in case.ways {
            let returned = put_text32(units, *way, targets.bytes.buffer(fit));
            well &= targets.bytes.is_filled(fit, returned, way.is_put(is_text));
        }
        well && (!case.is_each() || is_recoded32(targets, units, fit, is_text))
    }
}

fn put_text32(units: &[u32], way: Way, text: &mut [u8]) -> usize {
    match way {
        Way::Strict => wide_utf32_to_utf8(units, text),
        Way::Lossy => wide_utf32_to_utf8_lossy(units, text),
        Way::By(number) => wide_utf32_to_utf8_lossy_with(units, number.unwrap_or(4), text),
    }
}

fn is_recoded32(targets: &mut Targets, units: &[u32], fit: Fit, is_text: bool) -> bool {
    let len = wide_utf32_to_utf16(units, targets.units.buffer(fit));
    let is_recoded = targets.units.is_filled(fit, len, is_text);
    let len = wide_utf32_repair(units, targets.scalars.buffer(fit));
    is_recoded & targets.scalars.is_filled(fit, len, true) & (targets.scalars.len == units.len())
}

impl Called for u8 {
    fn holds(
        alloc: Global,
        targets: &mut Targets,
        units: &[u8],
        case: &Case,
        fit: Fit,
        _order: Option<u32>,
    ) -> bool {
        let is_text = case.is_text();
        let mut well = true;
        for way in case.ways {
            let is_put = way.is_put(is_text);
            let returned = put_units(units, *way, targets.units.buffer(fit));
            well &= targets.units.is_filled(fit, returned, is_put);
            let returned = put_scalars(units, *way, targets.scalars.buffer(fit));
            well &= targets.scalars.is_filled(fit, returned, is_put);
        }
        let is_read = !case.is_each() | !fit.is_exact();
        well && (is_read || is_read_so(alloc, units, targets.bytes.wanted(), is_text))
    }
}

fn put_units(bytes: &[u8], way: Way, units: &mut [u16]) -> usize {
    match way {
        Way::Strict => wide_utf8_to_utf16(bytes, units),
        Way::Lossy => wide_utf8_to_utf16_lossy(bytes, units),
        Way::By(number) => wide_utf8_to_utf16_lossy_with(bytes, number.unwrap_or(3), units),
    }
}

fn put_scalars(bytes: &[u8], way: Way, scalars: &mut [u32]) -> usize {
    match way {
        Way::Strict => wide_utf8_to_utf32(bytes, scalars),
        Way::Lossy => wide_utf8_to_utf32_lossy(bytes, scalars),
        Way::By(number) => {
            wide_utf8_to_utf32_lossy_with(bytes, number.unwrap_or(u32::MAX), scalars)
        }
    }
}

// Returns whether the standard library reads the bytes in the same way, and reports the same first fault.
fn is_read_so(alloc: Global, bytes: &[u8], wanted: &[u8], is_text: bool) -> bool {
    let fault = match str::from_utf8(bytes) {
        Ok(_text) => bytes.len(),
        Err(fault) => fault.valid_up_to(),
    };
    let is_lossy = match String::from_utf8_lossy(alloc, bytes) {
        Ok(lossy) => lossy.as_bytes() == wanted,
        Err(_error) => false,
    };
    let is_whole = is_text == (fault == bytes.len());
    is_lossy & is_whole & (wide_utf8_first_fault(bytes) == fault)
}

// Returns whether the calls of a case hold by its policy, with each buffer.
fn holds_by<T: Called>(
    alloc: Global,
    targets: &mut Targets,
    text: &[T],
    case: &Case,
    policy: Policy,
    order: Option<u32>,
) -> bool {
    targets.want_once(case, policy);
    let is_exact = T::holds(alloc, targets, text, case, Fit::Exact, order);
    let is_short = T::holds(alloc, targets, text, case, Fit::Short, order);
    is_exact & is_short & T::holds(alloc, targets, text, case, Fit::Long, order)
}

// Returns whether the calls hold by each policy for a text with a middle between letters.
fn holds_with<T: Called>(
    alloc: Global,
    targets: &mut Targets,
    text: &[T],
    before: usize,
    middle: &[T],
    order: Option<u32>,
) -> bool {
    let mut items = Items::none();
    T::decode(middle, &mut items);
    let mut case = Case {
        before,
        items: items.read(),
        after: text
            .len()
            .saturating_sub(before.saturating_add(middle.len())),
        ways: &CALLS_OF_EACH,
    };
    let by_each = holds_by(alloc, targets, text, &case, Policy::Each, order);
    case.ways = &CALLS_OF_RUN;
    let by_run = holds_by(alloc, targets, text, &case, Policy::Run, order);
    case.ways = &CALLS_OF_SKIP;
    by_each & by_run & holds_by(alloc, targets, text, &case, Policy::Skip, order)
}

// Returns whether the calls hold for each kind at an offset of letters, cut off at the end of the text. Afterwards
// `text` has letters alone again.
fn holds_at<T: Called>(
    alloc: Global,
    targets: &mut Targets,
    text: &mut [T],
    kinds: &[&[T]],
    len: usize,
    offset: usize,
    order: Option<u32>,
) -> bool {
    let space = len.saturating_sub(offset);
    let mut well = len <= text.len();
    // At the end of the text nothing fits, and all kinds give the same text.
    let count = if space == 0 { 1 } else { kinds.len() };
    for kind in kinds.iter().take(count) {
        let middle = kind.get(..space).unwrap_or(*kind);
        put(text, offset, middle);
        let units = text.get(..len).unwrap_or_default();
        well &= holds_with(alloc, targets, units, offset, middle, order);
        let letters = T::letters(targets).get(..middle.len());
        put(text, offset, letters.unwrap_or_default());
    }
    well
}

// Returns the first length for which the calls do not hold.
fn first_failing<T: Called>(
    alloc: Global,
    targets: &mut Targets,
    text: &mut [T],
    kinds: &[&[T]],
    lengths: &[(usize, usize, usize, usize)],
    order: Option<u32>,
) -> Option<usize> {
    for (least, greatest, first, last) in lengths {
        for len in *least..=*greatest {
            for offset in *first..=len.min(*last) {
                if !holds_at(alloc, targets, text, kinds, len, offset, order) {
                    return Some(len);
                }
            }
        }
    }
    None
}

// Returns the first length for which the calls do not hold for a text of these letters.
pub(crate) fn first_failure<T: Called>(
    alloc: Global,
    letter: char,
    kinds: &[&[T]],
    lengths: &[(usize, usize, usize, usize)],
    order: Option<u32>,
) -> Result<Option<usize>, AllocError> {
    let mut targets = Targets::new(alloc, letter)?;
    let mut text = T::letters(&targets).to_vec(alloc)?;
    Ok(first_failing(alloc, &mut targets, &mut text, kinds, lengths, order))
}

// Fails if a length failed, and prints it and the letter of the texts.
pub(crate) fn none_fails(
    rt: &impl Abort,
    letter: char,
    failing: Result<Option<usize>, AllocError>,
) {
    assert_eq!(rt; failing, Ok(None), "among {letter}");
}

// Fails if a case is false, and prints the index of the first one.
pub(crate) fn all_hold(rt: &impl Abort, cases: &[bool]) {
    for (offset, holds) in cases.iter().enumerate() {
        assert!(rt; *holds, "row {offset} does not hold");
    }
}

#[test]
fn units_of_16_bits(rt: HostRuntime) {
    for letter in ['a', '\u{3042}'] {
        let failing = first_failure(rt.alloc(), letter, &KINDS16, &LENGTHS, None);
        none_fails(&rt, letter, failing);
    }
}

#[test]
fn units_of_32_bits(rt: HostRuntime) {
    for letter in ['a', '\u{3042}'] {
        let failing = first_failure(rt.alloc(), letter, &KINDS32, &LENGTHS, None);
        none_fails(&rt, letter, failing);
    }
}

#[test]
fn bytes(rt: HostRuntime) {
    let failing = first_failure(rt.alloc(), 'a', &KINDS8, &LENGTHS, None);
    none_fails(&rt, 'a', failing);
}
