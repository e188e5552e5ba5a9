//! What the iterators of a view return for steps: `F` and `B` are calls from the front and from the back, and at a `C`
//! a copy of the iterator continues. A question is a word for the iterator, a space and its steps. A step that an
//! encoder does not have is a `?`.
//!
//! `chars`, `lossy`, `each`, `run` and `skip` are the characters of the units, strictly, lossily and lossily under a
//! policy; `indices` and `lossy_indices` have each character's index, with the offset that the iterator reports after
//! each item. A `c_` before these words asks the C string of the units. For the units' text there are `t_chars`,
//! `t_indices`, `t_units`, which are its units, and `utf8` and `other`, its encoders to UTF-8 and to the other width.
//! The second field of the answer has the bounds that the iterator returns in the end. `lines` asks for the bounds of
//! the lines, and `lengths` for the length of each iterator that has one, at first and after a call from the back.
ghost use Rattle.std.specs.Iterator.{IsFinite};

use crate::groups::width::Width;
use std::alloc::Global;
use widestring::iter::{End, decode_utf32, decode_utf32_lossy, encode_utf32};
use widestring::ucstr::UCStr;
use widestring::ustr::{CharIndices, CharIndicesLossy, Chars, CharsLossy, CharsLossyWith, UStr};
use widestring::utfstr::{CharIndices as TextIndices, Chars as TextChars, CodeUnits, UtfStr};
use widestring::{Policy, U32Str, Utf16Str, Utf32Str};
use widestring_replay::asked;
use widestring_replay::made::{as_contents, as_text};
use widestring_replay::parse::{self, NoAnswer};
use widestring_replay::show::{Answer, ReportedUnit};

// An iterator whose items are shown in an answer.
trait Shown: DoubleEndedIterator + Clone {
    // Adds an item that it has just returned.
    fn show(&self, answer: &mut Answer, item: Option<Self::Item>);
}

impl<C: ReportedUnit> Shown for Chars<'_, C> {
    fn show(&self, answer: &mut Answer, item: Option<Result<char, C::Fault>>) {
        answer.item::<C>(item);
    }
}

impl<C: ReportedUnit> Shown for CharsLossy<'_, C> {
    fn show(&self, answer: &mut Answer, item: Option<char>) {
        answer.character(item);
    }
}

impl<C: ReportedUnit> Shown for CharsLossyWith<'_, C> {
    fn show(&self, answer: &mut Answer, item: Option<char>) {
        answer.character(item);
    }
}

impl<C: ReportedUnit> Shown for CharIndices<'_, C> {
    fn show(&self, answer: &mut Answer, item: Option<(usize, Result<char, C::Fault>)>) {
        answer.position::<C>(item, self.offset());
    }
}

impl<C: ReportedUnit> Shown for CharIndicesLossy<'_, C> {
    fn show(&self, answer: &mut Answer, item: Option<(usize, char)>) {
        answer.position::<C>(item.map(|(index, c)| (index, Ok(c))), self.offset());
    }
}

impl<C: ReportedUnit> Shown for TextChars<'_, C> {
    fn show(&self, answer: &mut Answer, item: Option<char>) {
        answer.character(item);
    }
}

impl<C: ReportedUnit> Shown for TextIndices<'_, C> {
    fn show(&self, answer: &mut Answer, item: Option<(usize, char)>) {
        answer.position::<C>(item.map(|(index, c)| (index, Ok(c))), self.offset());
    }
}

impl Shown for CodeUnits<'_> {
    fn show(&self, answer: &mut Answer, item: Option<u16>) {
        answer.unit(item);
    }
}

// Makes steps with an iterator, adds each item, and then the bounds.
fn walked<I: Shown>(answer: &mut Answer, mut iterator: I, steps: &[Option<End>])
where
    requires front { (i : I) → I.can_next i }
    requires back { (i : I) → I.can_next_back i }
    requires finite { (i : I) → IsFinite (I.remaining i) }
{
    for step in steps {
        match step {
            Some(end) => {
                let item = asked!(iterator, end);
                iterator.show(answer, item);
            }
            None => match iterator.clone() {
                Ok(copy) => iterator = copy,
                Err(_) => return answer.fail(NoAnswer::OutOfMemory),
            },
        }
    }
    answer.part();
    answer.bounds(iterator.size_hint());
}

/// Adds the units of a text.
pub fn code_units(answer: &mut Answer, text: Utf16Str<'_>, steps: &[Option<End>]) {
    walked(answer, text.code_units(), steps);
}

// Adds what an encoder returns for calls from the front, and then its bounds. It has no copy.
fn encoded<I: Iterator>(answer: &mut Answer, mut encoder: I, steps: &[Option<End>])
where
    I::Item: Into<u32>,
    requires front { (i : I) → I.can_next i }
    requires finite { (i : I) → IsFinite (I.remaining i) }
{
    for step in steps {
        match step {
            Some(End::Front) => answer.number(encoder.next().map(|number| number.into())),
            _ => answer.word("?"),
        }
    }
    answer.part();
    answer.bounds(encoder.size_hint());
}

/// Adds the units of a text in UTF-16.
pub fn utf16(answer: &mut Answer, text: Utf32Str<'_>, steps: &[Option<End>]) {
    encoded(answer, text.encode_utf16(), steps);
}

/// Adds the units of a text in UTF-32, from both ends.
pub fn utf32(answer: &mut Answer, text: Utf16Str<'_>, steps: &[Option<End>]) {
    let mut encoder = text.encode_utf32();
    for step in steps {
        match step {
            Some(end) => answer.number(asked!(encoder, end)),
            None => answer.word("?"),
        }
    }
    answer.part();
    answer.bounds(encoder.size_hint());
}

// Adds the length of an iterator, at first and after a call from the back.
fn lengths<I: ExactSizeIterator + DoubleEndedIterator>(answer: &mut Answer, mut iterator: I)
where
    I::Item: Drop,
    requires { I.can_next_back iterator }
{
    answer.count(Some(iterator.len()));
    let _last = iterator.next_back();
    answer.count(Some(iterator.len()));
}

/// Adds the lengths of the iterator over the text of 16-bit units that has one.
pub fn lengths16(answer: &mut Answer, units: &[u16]) {
    match as_text(units) {
        Ok(text) => lengths(answer, text.code_units()),
        Err(error) => answer.fail(error),
    }
}

fn lengths_of_text(answer: &mut Answer, text: Utf32Str<'_>) {
    answer.part();
    lengths(answer, text.chars());
    lengths(answer, text.char_indices());
    lengths(answer, encode_utf32(text.chars()));
}

fn lengths_of_view(answer: &mut Answer, view: U32Str<'_>) {
    lengths(answer, view.chars());
    lengths(answer, view.chars_lossy());
    lengths(answer, view.char_indices());
    lengths(answer, view.char_indices_lossy());
}

fn lengths_of_decoders(answer: &mut Answer, units: &[u32]) {
    lengths(answer, decode_utf32(units.iter().copied()));
    lengths(answer, decode_utf32_lossy(units.iter().copied()));
}

/// Adds the lengths of the iterators over 32-bit units, and over their text if they are well formed.
pub fn lengths32(answer: &mut Answer, units: &[u32]) {
    lengths_of_view(answer, U32Str::from_slice(units));
    lengths_of_decoders(answer, units);
    if let Ok(text) = as_text(units) {
        lengths_of_text(answer, text);
    }
}

// Adds the bounds of the lines of units, alone and with their offsets.
fn line_bounds<C: ReportedUnit>(answer: &mut Answer, view: UStr<'_, C>) {
    answer.bounds(view.lines_lossy().size_hint());
    answer.bounds(view.line_indices_lossy().size_hint());
}

// The iterators over the characters of a view of units.
#[derive(Clone, Copy)]
enum Kind {
    Chars,
    Lossy,
    Under(Policy),
    Indices,
    LossyIndices,
}

static KINDS: [(&str, Kind); 7] = [
    ("chars", Kind::Chars),
    ("lossy", Kind::Lossy),
    ("each", Kind::Under(Policy::Each)),
    ("run", Kind::Under(Policy::Run)),
    ("skip", Kind::Under(Policy::Skip)),
    ("indices", Kind::Indices),
    ("lossy_indices", Kind::LossyIndices),
];

fn of_units<C: ReportedUnit>(
    answer: &mut Answer,
    view: UStr<'_, C>,
    kind: Kind,
    steps: &[Option<End>],
) {
    match kind {
        Kind::Chars => walked(answer, view.chars(), steps),
        Kind::Lossy => walked(answer, view.chars_lossy(), steps),
        Kind::Under(policy) => walked(answer, view.chars_lossy_with(policy), steps),
        Kind::Indices => walked(answer, view.char_indices(), steps),
        Kind::LossyIndices => walked(answer, view.char_indices_lossy(), steps),
    }
}

fn of_contents<C: ReportedUnit>(
    answer: &mut Answer,
    view: UCStr<'_, C>,
    kind: Kind,
    steps: &[Option<End>],
) {
    match kind {
        Kind::Chars => walked(answer, view.chars(), steps),
        Kind::Lossy => walked(answer, view.chars_lossy(), steps),
        Kind::Under(policy) => walked(answer, view.chars_lossy_with(policy), steps),
        Kind::Indices => walked(answer, view.char_indices(), steps),
        Kind::LossyIndices => walked(answer, view.char_indices_lossy(), steps),
    }
}

// The iterators of a text.
#[derive(Clone, Copy)]
enum OfText {
    Chars,
    Indices,
    Units,
    Utf8,
    Other,
}

static OF_TEXT: [(&str, OfText); 5] = [
    ("t_chars", OfText::Chars),
    ("t_indices", OfText::Indices),
    ("t_units", OfText::Units),
    ("utf8", OfText::Utf8),
    ("other", OfText::Other),
];

fn of_text<C: Width>(
    answer: &mut Answer,
    text: UtfStr<'_, C>,
    kind: OfText,
    steps: &[Option<End>],
) {
    match kind {
        OfText::Chars => walked(answer, text.chars(), steps),
        OfText::Indices => walked(answer, text.char_indices(), steps),
        OfText::Units => C::code_units(answer, text.as_slice(), steps),
        OfText::Utf8 => encoded(answer, text.encode_utf8(), steps),
        OfText::Other => C::encode_other(answer, text.as_slice(), steps),
    }
}

// The bounds and lengths that are asked without steps.
#[derive(Clone, Copy)]
enum Whole {
    Lengths,
    Lines,
}

static WHOLE: [(&str, Whole); 2] = [("lengths", Whole::Lengths), ("lines", Whole::Lines)];

fn of_whole<C: Width>(answer: &mut Answer, units: &[C], whole: Whole) {
    match whole {
        Whole::Lengths => C::lengths(answer, units),
        Whole::Lines => line_bounds(answer, UStr::from_slice(units)),
    }
}

fn with_units<C: Width>(answer: &mut Answer, units: &[C], word: &str, steps: &[Option<End>]) {
    match parse::named(&KINDS, word) {
        Ok(kind) => of_units(answer, UStr::from_slice(units), kind, steps),
        Err(error) => answer.fail(error),
    }
}

fn with_contents<C: Width>(answer: &mut Answer, units: &[C], word: &str, steps: &[Option<End>]) {
    match (as_contents(units), parse::named(&KINDS, word)) {
        (Ok(view), Ok(kind)) => of_contents(answer, view, kind, steps),
        (Err(error), _) | (_, Err(error)) => answer.fail(error),
    }
}

fn with_text<C: Width>(answer: &mut Answer, units: &[C], kind: OfText, steps: &[Option<End>]) {
    match as_text(units) {
        Ok(text) => of_text(answer, text, kind, steps),
        Err(error) => answer.fail(error),
    }
}

fn of_steps<C: Width>(answer: &mut Answer, units: &[C], word: &str, steps: &[Option<End>]) {
    if let Ok(kind) = parse::named(&OF_TEXT, word) {
        return with_text(answer, units, kind, steps);
    }
    match word.strip_prefix("c_") {
        Some(word) => with_contents(answer, units, word, steps),
        None => with_units(answer, units, word, steps),
    }
}

fn with_steps<C: Width>(alloc: Global, answer: &mut Answer, units: &[C], word: &str, steps: &str) {
    match parse::steps(alloc, steps) {
        Ok(steps) => of_steps(answer, units, word, &steps),
        Err(error) => answer.fail(error),
    }
}

/// Adds what an iterator of a view returns.
pub fn walk<C: Width>(alloc: Global, answer: &mut Answer, units: &[C], question: &str) {
    let (word, steps) = parse::word(question);
    match parse::named(&WHOLE, word) {
        Ok(whole) => of_whole(answer, units, whole),
        Err(_) => with_steps(alloc, answer, units, word, steps),
    }
}
