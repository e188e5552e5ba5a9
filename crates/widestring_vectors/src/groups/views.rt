//! Views of units (`u`), of the text of the units (`t`) and of the C string of the units (`c`), and their subslices. A
//! question is the letter of the view, a word for the call, and its arguments, separated by spaces.
//!
//! - `whole` is the length, whether it is empty, and the units; for a C string also the units with the NUL.
//! - `part` and a range is what `get`, `slice` and `get_unchecked` return for it, or a `-`, and `split` and an offset
//!   the two views that it splits the view into.
//! - `made` for text is the text that is made of a view and of a C string, checked and not checked, or the first fault
//!   and a `-`, as the error returns no vector; for a C string it is what is made of its units unchecked, and a copy of
//!   the view.
//! - `empty` is the length of the empty view, and `nul` the NUL.
//! - For text, `count` is its number of characters, `offset` and an index the offset of a character, `boundary` and an
//!   offset whether it is a boundary, and `at` and an index a character.
use crate::groups::answers;
use crate::groups::width::Width;
use std::ops::Bound;
use widestring::error::UtfError;
use widestring::ucstr::UCStr;
use widestring::ustr::UStr;
use widestring::utfstr::UtfStr;
use widestring_replay::made::{as_contents, as_text};
use widestring_replay::parse::{self, NoAnswer};
use widestring_replay::show::Answer;

// Adds what the three calls for a subslice of a view return.
macro_rules! part_of {
    ($answer:expr, $view:expr, $range:expr) => {{
        match $view.get($range) {
            None => $answer.word("-"),
            Some(part) => answers::fields(
                $answer,
                &[
                    part.as_slice(),
                    $view.slice($range).as_slice(),
                    $view.get_unchecked($range).as_slice(),
                ],
            ),
        }
    }};
}

// Adds the two views that a view is split into, if it can be split at an offset; else a `-`.
macro_rules! halves {
    ($answer:expr, $view:expr, $can_split:expr, $mid:expr) => {
        if $can_split {
            let (prefix, back) = $view.split_at($mid);
            answers::fields($answer, &[prefix.as_slice(), back.as_slice()]);
        } else {
            $answer.word("-");
        }
    };
}

// The views.
#[derive(Clone, Copy)]
enum Kind {
    Units,
    Text,
    Contents,
}

static KINDS: [(&str, Kind); 3] = [("u", Kind::Units), ("t", Kind::Text), ("c", Kind::Contents)];

// The ends of a range.
type Ends = (Bound<usize>, Bound<usize>);

// The calls, with their arguments.
#[derive(Clone, Copy)]
enum Call {
    Whole,
    Subslice(Ends),
    Split(usize),
    Made,
    Empty,
    Nul,
    Count,
    Offset(usize),
    Boundary(usize),
    At(usize),
}

// The calls by their names, each with arguments that those of the question replace.
static CALLS: [(&str, Call); 10] = [
    ("whole", Call::Whole),
    ("part", Call::Subslice((Bound::Unbounded, Bound::Unbounded))),
    ("split", Call::Split(0)),
    ("made", Call::Made),
    ("empty", Call::Empty),
    ("nul", Call::Nul),
    ("count", Call::Count),
    ("offset", Call::Offset(0)),
    ("boundary", Call::Boundary(0)),
    ("at", Call::At(0)),
];

// Adds a length, whether it is 0, and units.
fn whole<C: Width>(answer: &mut Answer, length: usize, is_empty: bool, fields: &[&[C]]) {
    answer.count(Some(length));
    answer.decided(is_empty);
    answers::fields(answer, fields);
}

fn part_of_units<C: Width>(answer: &mut Answer, view: UStr<'_, C>, range: Ends) {
    part_of!(answer, view, range)
}

fn part_of_contents<C: Width>(answer: &mut Answer, view: UCStr<'_, C>, range: Ends) {
    part_of!(answer, view, range)
}

fn part_of_text<C: Width>(answer: &mut Answer, text: UtfStr<'_, C>, range: Ends) {
    part_of!(answer, text, range)
}

fn split_units<C: Width>(answer: &mut Answer, view: UStr<'_, C>, mid: usize) {
    halves!(answer, view, mid <= view.len(), mid)
}

fn split_contents<C: Width>(answer: &mut Answer, view: UCStr<'_, C>, mid: usize) {
    halves!(answer, view, mid <= view.len(), mid)
}

fn split_text<C: Width>(answer: &mut Answer, text: UtfStr<'_, C>, mid: usize) {
    halves!(answer, text, text.is_char_boundary(mid), mid)
}

// Adds the first fault, and the units that the error returns.
fn rejected<C: Width>(answer: &mut Answer, fault: UtfError<C>) {
    answer.first_fault(&fault);
    answer.part();
    answer.handed_back(fault.into_vec());
}

// Adds the text of the units before a NUL at the end, checked and not checked, and nothing for units that are not a C
// string.
fn made_of_contents<C: Width>(answer: &mut Answer, units: &[C]) {
    match as_contents(units) {
        Ok(view) => text_of_contents(answer, view),
        Err(_) => {}
    }
}

fn text_of_contents<C: Width>(answer: &mut Answer, view: UCStr<'_, C>) {
    match UtfStr::from_ucstr(view) {
        Ok(text) => answers::fields(
            answer,
            &[
                text.as_slice(),
                UtfStr::from_ucstr_unchecked(view).as_slice(),
            ],
        ),
        Err(fault) => rejected(answer, fault),
    }
}

fn of_units<C: Width>(answer: &mut Answer, view: UStr<'_, C>, call: Call) {
    match call {
        Call::Whole => whole(answer, view.len(), view.is_empty(), &[view.as_slice()]),
        Call::Subslice(range) => part_of_units(answer, view, range),
        Call::Split(mid) => split_units(answer, view, mid),
        Call::Empty => answer.count(Some(UStr::<C>::default().len())),
        Call::Made => made_of_contents(answer, view.as_slice()),
        _ => answer.fail(NoAnswer::Unparsed),
    }
}

fn whole_contents<C: Width>(answer: &mut Answer, view: UCStr<'_, C>) {
    let fields = [
        view.as_slice(),
        view.as_ustr().as_slice(),
        view.as_slice_with_nul(),
        view.as_ustr_with_nul().as_slice(),
    ];
    whole(answer, view.len(), view.is_empty(), &fields);
}

// Adds the contents of a C string that is made of units unchecked, and those of a copy.
fn made_again<C: Width>(answer: &mut Answer, view: UCStr<'_, C>) {
    let made = UCStr::from_slice_unchecked(view.as_slice_with_nul());
    match view.clone() {
        Ok(copy) => answers::fields(answer, &[made.as_slice(), copy.as_slice()]),
        Err(_) => answer.fail(NoAnswer::OutOfMemory),
    }
}

fn of_contents<C: Width>(answer: &mut Answer, view: UCStr<'_, C>, call: Call) {
    match call {
        Call::Whole => whole_contents(answer, view),
        Call::Subslice(range) => part_of_contents(answer, view, range),
        Call::Split(mid) => split_contents(answer, view, mid),
        Call::Made => made_again(answer, view),
        Call::Empty => C::no_contents(answer),
        Call::Nul => answer.unit(Some(UCStr::<C>::NUL_TERMINATOR)),
        _ => answer.fail(NoAnswer::Unparsed),
    }
}

// Adds the text that is made of a view, checked, and then of units and of a view, not checked.
fn made_of_text<C: Width>(answer: &mut Answer, text: UtfStr<'_, C>) {
    match UtfStr::from_ustr(text.as_ustr()) {
        Ok(made) => answers::fields(
            answer,
            &[
                made.as_slice(),
                UtfStr::from_slice_unchecked(text.as_slice()).as_slice(),
                UtfStr::from_ustr_unchecked(text.as_ustr()).as_slice(),
            ],
        ),
        Err(_) => answer.fail(NoAnswer::Unparsed),
    }
}

fn at<C: Width>(answer: &mut Answer, text: UtfStr<'_, C>, index: usize) {
    match C::char_at(text.as_slice(), index) {
        Ok(c) => answer.character(Some(c)),
        Err(error) => answer.fail(error),
    }
}

fn whole_text<C: Width>(answer: &mut Answer, text: UtfStr<'_, C>) {
    let fields = [text.as_slice(), text.as_ustr().as_slice()];
    whole(answer, text.len(), text.is_empty(), &fields);
}

fn of_text<C: Width>(answer: &mut Answer, text: UtfStr<'_, C>, call: Call) {
    match call {
        Call::Whole => whole_text(answer, text),
        Call::Subslice(range) => part_of_text(answer, text, range),
        Call::Split(mid) => split_text(answer, text, mid),
        Call::Made => made_of_text(answer, text),
        Call::Empty => answer.count(Some(UtfStr::<C>::default().len())),
        Call::Count => answer.count(Some(text.char_count())),
        Call::Offset(index) => answer.count(text.unit_offset(index)),
        Call::Boundary(offset) => answer.decided(text.is_char_boundary(offset)),
        Call::At(index) => at(answer, text, index),
        Call::Nul => answer.fail(NoAnswer::Unparsed),
    }
}

// Adds the fault of ill-formed units, if the question is what is made of them.
fn of_ill_formed<C: Width>(answer: &mut Answer, view: UStr<'_, C>, call: Call) {
    match (call, UtfStr::from_ustr(view)) {
        (Call::Made, Err(fault)) => rejected(answer, fault),
        _ => answer.fail(NoAnswer::Unparsed),
    }
}

// Makes a call of a view of this kind.
fn of_kind<C: Width>(answer: &mut Answer, units: &[C], kind: Kind, call: Call) {
    let view = UStr::from_slice(units);
    match (kind, as_text(units), as_contents(units)) {
        (Kind::Units, _, _) => of_units(answer, view, call),
        (Kind::Text, Ok(text), _) => of_text(answer, text, call),
        (Kind::Text, Err(_), _) => of_ill_formed(answer, view, call),
        (Kind::Contents, _, Ok(contents)) => of_contents(answer, contents, call),
        (Kind::Contents, _, Err(error)) => answer.fail(error),
    }
}

// Parses a question: a kind of view, and a call with its arguments.
fn parse_call(question: &str) -> Result<(Kind, Call), NoAnswer> {
    let (kind, rest) = parse::word(question);
    let (word, more) = parse::word(rest);
    let kind = parse::named(&KINDS, kind)?;
    let call = match parse::named(&CALLS, word)? {
        Call::Subslice(_) => Call::Subslice(parse::range(more)?),
        Call::Split(_) => Call::Split(parse::value(more)?),
        Call::Offset(_) => Call::Offset(parse::value(more)?),
        Call::Boundary(_) => Call::Boundary(parse::value(more)?),
        Call::At(_) => Call::At(parse::value(more)?),
        call => call,
    };
    Ok((kind, call))
}

/// Adds the answer to a question about a view.
pub fn view<C: Width>(answer: &mut Answer, units: &[C], question: &str) {
    match parse_call(question) {
        Ok((kind, call)) => of_kind(answer, units, kind, call),
        Err(error) => answer.fail(error),
    }
}
