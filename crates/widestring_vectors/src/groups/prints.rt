//! What views, strings, iterators and errors print. A question is a word for the value, and for iterators a space and
//! the calls that are made before.
//!
//! The answer has the characters of the text, a `;` and those of the debug text. If a type only has debug text, the
//! first field is empty. Each is also printed with a width and fills and by `{:#?}`, which change nothing, and into
//! sinks that fail at one of their writes: the printing must end there, with only the text before it. The answer is a
//! `?` if one of these differs.
//!
//! - For units, `debug` is the view; `display` and `skipping` are the values that print its text; `chars`, `lossy`,
//!   `each`, `run` and `skip` are its characters; `string` is the string of them, `box` the boxed string, and `cow` the
//!   view as a borrowed string; `mended` is what lossy text prints, `fault` the error of ill-formed units, `rejected`
//!   that of units that are not a C string, and `escape` what characters print as escapes.
//! - For a C string there are `c_debug`, `c_display`, `c_skipping`, `c_string`, `c_box` and `c_cow`; for text
//!   `t_debug`, `t_string`, `t_box`, `t_chars`, the three escapes `escape_debug`, `escape_default` and
//!   `escape_unicode`, and `drain` for the characters of a range, which follows the calls.
ghost use Rattle.std.specs.Iterator.{IsFinite};

use crate::groups::width::Width;
use std::alloc::Global;
use std::fmt::{self, Debug, Display, Write};
use std::ops::Bound;
use widestring::Policy;
use widestring::error::{ContainsNul, NulError};
use widestring::iter::End;
use widestring::ucstr::UCStr;
use widestring::ucstring::{CowUCStr, UCString};
use widestring::unit::write_escape;
use widestring::ustr::UStr;
use widestring::ustring::{CowUStr, UStrInUstring, UString};
use widestring::utfstr::UtfStr;
use widestring::utfstring::{UtfStrInUtfstring, UtfString};
use widestring_replay::asked;
use widestring_replay::made::{as_contents, as_text};
use widestring_replay::parse::{self, NoAnswer};
use widestring_replay::show::Answer;

// A sink that takes a known text and nothing else, counts the writes and fails at one of them.
#[derive(Drop)]
struct Sink<'a> {
    // What is still to come of the text.
    rest: &'a str,
    writes: usize,
    fails_at: usize,
    is_wrong: bool,
}

impl<'a> Sink<'a> {
    fn new(text: &'a str, fails_at: usize) -> Sink<'a> {
        Sink {
            rest: text,
            writes: 0,
            fails_at,
            is_wrong: false,
        }
    }

    // Returns whether it took the whole text.
    fn is_full(&self) -> bool {
        self.rest.is_empty() & !self.is_wrong
    }
}

impl Write for Sink<'_> {
    fn write_str(&mut self, s: &str) -> fmt::Result {
        let number = self.writes;
        self.writes = number.saturating_add(1);
        if number == self.fails_at {
            return Err(fmt::Error);
        }
        match self.rest.strip_prefix(s) {
            Some(rest) => self.rest = rest,
            None => self.is_wrong = true,
        }
        Ok(())
    }
}

// A value whose text is its debug text.
#[derive(Drop)]
struct Debugged<'a, T>(&'a T);

impl<T: Debug> Display for Debugged<'_, T> {
    fn fmt<W: Write>(&self, f: &mut fmt::Formatter<W>) -> fmt::Result {
        Debug::fmt(self.0, f)
    }
}

// A character that prints its escape.
#[derive(Drop)]
struct Escaped(char);

impl Display for Escaped {
    fn fmt<W: Write>(&self, f: &mut fmt::Formatter<W>) -> fmt::Result {
        write_escape(f, self.0.escape_debug())
    }
}

// Returns whether printing into a sink that fails at a write ends at this write, with what comes before it in the text.
// Returns `None` if everything was printed before.
fn is_cut(value: &impl Display, whole: &str, fails_at: usize) -> Option<bool> {
    let mut sink = Sink::new(whole, fails_at);
    if write!(sink, "{value}").is_err() {
        Some(!sink.is_wrong & (sink.writes == fails_at.saturating_add(1)))
    } else if sink.is_full() & (sink.writes <= fails_at) {
        None
    } else {
        Some(false)
    }
}

// Returns whether each failing write ends the printing.
fn ends_at_failures(value: &impl Display, whole: &str) -> bool {
    for fails_at in 0..1000 {
        match is_cut(value, whole, fails_at) {
            None => return true,
            Some(true) => {}
            Some(false) => return false,
        }
    }
    false
}

// Returns whether a width and fills change nothing.
fn is_unpadded(value: &impl Display, whole: &str) -> bool {
    let mut filled = Sink::new(whole, usize::MAX);
    let mut wide = Sink::new(whole, usize::MAX);
    let mut zeros = Sink::new(whole, usize::MAX);
    let written = write!(filled, "{value:_>40}").is_ok()
        & write!(wide, "{value:>8}").is_ok()
        & write!(zeros, "{value:08}").is_ok();
    written & filled.is_full() & wide.is_full() & zeros.is_full()
}

// Returns whether a width and a fill change nothing in debug text, and `{:#?}` prints it on one line too.
fn is_debug_unpadded(value: &impl Debug, whole: &str) -> bool {
    let mut filled = Sink::new(whole, usize::MAX);
    let mut alternate = Sink::new(whole, usize::MAX);
    let written = write!(filled, "{value:_>40?}").is_ok() & write!(alternate, "{value:#?}").is_ok();
    written & filled.is_full() & alternate.is_full()
}

// Adds the text that a value prints, or a `?` if it prints another under a width or in part.
fn add_text(answer: &mut Answer, value: &impl Display, text: &str) {
    if is_unpadded(value, text) && ends_at_failures(value, text) {
        answer.text(text);
    } else {
        answer.word("?");
    }
}

/// Adds what a value prints, unless there is no answer.
pub fn print(alloc: Global, answer: &mut Answer, value: &impl Display) {
    if answer.has_failed() {
        return;
    }
    match format!(in alloc; "{value}") {
        Ok(text) => add_text(answer, value, &text),
        Err(_) => answer.fail(NoAnswer::OutOfMemory),
    }
}

// Adds the debug text that a value prints, and before it a `?` if it prints another under a width.
fn add_debug(alloc: Global, answer: &mut Answer, value: &impl Debug, text: &str) {
    if !is_debug_unpadded(value, text) {
        answer.word("?");
    }
    print(alloc, answer, &Debugged(value));
}

// Adds a `;` and the debug text of a value.
fn debug(alloc: Global, answer: &mut Answer, value: &impl Debug) {
    answer.part();
    match format!(in alloc; "{value:?}") {
        Ok(text) => add_debug(alloc, answer, value, &text),
        Err(_) => answer.fail(NoAnswer::OutOfMemory),
    }
}

// Adds the text and the debug text of a value.
fn both<T: Display + Debug>(alloc: Global, answer: &mut Answer, value: &T) {
    print(alloc, answer, value);
    if !answer.has_failed() {
        debug(alloc, answer, value);
    }
}

// What is printed of a view of units, or of its C string.
#[derive(Clone, Copy)]
enum Subject {
    Debug,
    Display,
    Skipping,
    Chars,
    Lossy,
    Under(Policy),
    Cow,
    Owned,
    Box,
    Mended,
}

static OF_UNITS: [(&str, Subject); 12] = [
    ("debug", Subject::Debug),
    ("display", Subject::Display),
    ("skipping", Subject::Skipping),
    ("chars", Subject::Chars),
    ("lossy", Subject::Lossy),
    ("each", Subject::Under(Policy::Each)),
    ("run", Subject::Under(Policy::Run)),
    ("skip", Subject::Under(Policy::Skip)),
    ("cow", Subject::Cow),
    ("string", Subject::Owned),
    ("box", Subject::Box),
    ("mended", Subject::Mended),
];

static OF_CONTENTS: [(&str, Subject); 6] = [
    ("c_debug", Subject::Debug),
    ("c_display", Subject::Display),
    ("c_skipping", Subject::Skipping),
    ("c_cow", Subject::Cow),
    ("c_string", Subject::Owned),
    ("c_box", Subject::Box),
];

// How a text is escaped.
#[derive(Clone, Copy)]
enum Escape {
    Debug,
    Default,
    Unicode,
}

// What is printed of a text.
#[derive(Clone, Copy)]
enum Text {
    View,
    Owned,
    Box,
    Chars,
    Drain,
    Escapes(Escape),
}

static OF_TEXT: [(&str, Text); 8] = [
    ("t_debug", Text::View),
    ("t_string", Text::Owned),
    ("t_box", Text::Box),
    ("t_chars", Text::Chars),
    ("drain", Text::Drain),
    ("escape_debug", Text::Escapes(Escape::Debug)),
    ("escape_default", Text::Escapes(Escape::Default)),
    ("escape_unicode", Text::Escapes(Escape::Unicode)),
];

// What is printed of errors and of characters.
#[derive(Clone, Copy)]
enum Reported {
    Fault,
    Rejected,
    Escape,
}

static REPORTED: [(&str, Reported); 3] = [
    ("fault", Reported::Fault),
    ("rejected", Reported::Rejected),
    ("escape", Reported::Escape),
];

fn of_units<C: Width>(alloc: Global, answer: &mut Answer, view: UStr<'_, C>, subject: Subject) {
    match subject {
        Subject::Debug => debug(alloc, answer, &view),
        Subject::Display => both(alloc, answer, &view.display()),
        Subject::Skipping => both(alloc, answer, &view.display_skipping()),
        Subject::Chars => debug(alloc, answer, &view.chars()),
        Subject::Lossy => debug(alloc, answer, &view.chars_lossy()),
        Subject::Under(policy) => debug(alloc, answer, &view.chars_lossy_with(policy)),
        Subject::Cow => borrowed(alloc, answer, view),
        Subject::Owned => string(alloc, answer, view),
        Subject::Box => to_box(alloc, answer, view),
        Subject::Mended => mended(alloc, answer, view),
    }
}

fn borrowed<C: Width>(alloc: Global, answer: &mut Answer, view: UStr<'_, C>) {
    let borrowed: CowUStr<'_, C> = CowUStr::Borrowed(view);
    debug(alloc, answer, &borrowed);
}

fn string<C: Width>(alloc: Global, answer: &mut Answer, view: UStr<'_, C>) {
    match view.to_ustring(alloc) {
        Ok(string) => debug(alloc, answer, &string),
        Err(_) => answer.fail(NoAnswer::OutOfMemory),
    }
}

fn to_box<C: Width>(alloc: Global, answer: &mut Answer, view: UStr<'_, C>) {
    match view.to_ustring(alloc) {
        Ok(string) => boxed(alloc, answer, string),
        Err(_) => answer.fail(NoAnswer::OutOfMemory),
    }
}

fn boxed<C: Width>(alloc: Global, answer: &mut Answer, string: UString<C>) {
    match string.into_boxed_ustr() {
        Ok(boxed) => debug(alloc, answer, &boxed),
        Err(_) => answer.fail(NoAnswer::OutOfMemory),
    }
}

fn mended<C: Width>(alloc: Global, answer: &mut Answer, view: UStr<'_, C>) {
    match UtfString::from_ustr_lossy(alloc, view) {
        Ok(string) => both(alloc, answer, &string),
        Err(_) => answer.fail(NoAnswer::OutOfMemory),
    }
}

// Adds the texts of errors, or escapes.
fn of_error<C: Width>(alloc: Global, answer: &mut Answer, units: &[C], reported: Reported) {
    match reported {
        Reported::Fault => C::print_fault(alloc, answer, units),
        Reported::Rejected => rejected(alloc, answer, units),
        Reported::Escape => escapes(alloc, answer, units),
    }
}

fn rejected<C: Width>(alloc: Global, answer: &mut Answer, units: &[C]) {
    match UCStr::from_slice(units) {
        Ok(_) => answer.fail(NoAnswer::Unparsed),
        Err(NulError::ContainsNul(fault)) => inner_nul(alloc, answer, fault),
        Err(fault) => print(alloc, answer, &fault),
    }
}

fn inner_nul<C: Width>(alloc: Global, answer: &mut Answer, fault: ContainsNul<C>) {
    print(alloc, answer, &fault);
    answer.part();
    print(alloc, answer, &NulError::ContainsNul(fault));
}

fn add_escapes<C: Width>(alloc: Global, answer: &mut Answer, text: UtfStr<'_, C>) {
    for c in text.chars() {
        print(alloc, answer, &Escaped(c));
    }
}

fn escapes<C: Width>(alloc: Global, answer: &mut Answer, units: &[C]) {
    match as_text(units) {
        Ok(text) => add_escapes(alloc, answer, text),
        Err(error) => answer.fail(error),
    }
}

fn of_contents<C: Width>(alloc: Global, answer: &mut Answer, view: UCStr<'_, C>, subject: Subject) {
    match subject {
        Subject::Debug => debug(alloc, answer, &view),
        Subject::Display => both(alloc, answer, &view.display()),
        Subject::Skipping => both(alloc, answer, &view.display_skipping()),
        Subject::Cow => borrowed_contents(alloc, answer, view),
        Subject::Owned => owned_contents(alloc, answer, view),
        Subject::Box => to_boxed_contents(alloc, answer, view),
        _ => answer.fail(NoAnswer::Unparsed),
    }
}

fn borrowed_contents<C: Width>(alloc: Global, answer: &mut Answer, view: UCStr<'_, C>) {
    let borrowed: CowUCStr<'_, C> = CowUCStr::Borrowed(view);
    debug(alloc, answer, &borrowed);
}

fn owned_contents<C: Width>(alloc: Global, answer: &mut Answer, view: UCStr<'_, C>) {
    match UCString::from_ustr(alloc, view.as_ustr()) {
        Ok(string) => debug(alloc, answer, &string),
        Err(_) => answer.fail(NoAnswer::OutOfMemory),
    }
}

fn to_boxed_contents<C: Width>(alloc: Global, answer: &mut Answer, view: UCStr<'_, C>) {
    match UCString::from_ustr(alloc, view.as_ustr()) {
        Ok(string) => boxed_contents(alloc, answer, string),
        Err(_) => answer.fail(NoAnswer::OutOfMemory),
    }
}

fn boxed_contents<C: Width>(alloc: Global, answer: &mut Answer, string: UCString<C>) {
    match string.into_boxed_ucstr() {
        Ok(boxed) => debug(alloc, answer, &boxed),
        Err(_) => answer.fail(NoAnswer::OutOfMemory),
    }
}

fn of_text<C: Width>(
    alloc: Global,
    answer: &mut Answer,
    text: UtfStr<'_, C>,
    subject: Text,
    more: &str,
) {
    match subject {
        Text::View => both(alloc, answer, &text),
        Text::Owned => owned_text(alloc, answer, text),
        Text::Box => to_boxed_text(alloc, answer, text),
        Text::Chars => called_chars(alloc, answer, text, more),
        Text::Drain => drain(alloc, answer, text, more),
        Text::Escapes(escape) => of_escapes(alloc, answer, text, escape, more),
    }
}

fn owned_text<C: Width>(alloc: Global, answer: &mut Answer, text: UtfStr<'_, C>) {
    match text.to_utfstring(alloc) {
        Ok(string) => both(alloc, answer, &string),
        Err(_) => answer.fail(NoAnswer::OutOfMemory),
    }
}

fn to_boxed_text<C: Width>(alloc: Global, answer: &mut Answer, text: UtfStr<'_, C>) {
    match text.to_utfstring(alloc) {
        Ok(string) => boxed_text(alloc, answer, string),
        Err(_) => answer.fail(NoAnswer::OutOfMemory),
    }
}

fn boxed_text<C: Width>(alloc: Global, answer: &mut Answer, string: UtfString<C>) {
    match string.into_boxed_utfstr() {
        Ok(boxed) => both(alloc, answer, &boxed),
        Err(_) => answer.fail(NoAnswer::OutOfMemory),
    }
}

// Adds what an iterator prints after it returned some items.
fn after_calls<I: DoubleEndedIterator + Display + Debug>(
    alloc: Global,
    answer: &mut Answer,
    mut iterator: I,
    calls: &[End],
)
where
    I::Item: Drop,
    requires front { (i : I) → I.can_next i }
    requires back { (i : I) → I.can_next_back i }
    requires finite { (i : I) → IsFinite (I.remaining i) }
{
    for end in calls {
        let _item = asked!(iterator, end);
    }
    both(alloc, answer, &iterator);
}

fn called_chars<C: Width>(alloc: Global, answer: &mut Answer, text: UtfStr<'_, C>, calls: &str) {
    match parse::calls(alloc, calls) {
        Ok(calls) => after_calls(alloc, answer, text.chars(), &calls),
        Err(error) => answer.fail(error),
    }
}

fn drain<C: Width>(alloc: Global, answer: &mut Answer, text: UtfStr<'_, C>, more: &str) {
    let (calls, range) = parse::word(more);
    match (parse::range(range), parse::calls(alloc, calls)) {
        (Ok(range), Ok(calls)) => to_drain(alloc, answer, text, &calls, range),
        (Err(error), _) | (_, Err(error)) => answer.fail(error),
    }
}

fn to_drain<C: Width>(
    alloc: Global,
    answer: &mut Answer,
    text: UtfStr<'_, C>,
    calls: &[End],
    range: (Bound<usize>, Bound<usize>),
) {
    match text.to_utfstring(alloc) {
        Ok(mut string) => drained(alloc, answer, &mut string, calls, range),
        Err(_) => answer.fail(NoAnswer::OutOfMemory),
    }
}

// Adds what a drain prints after it returned some characters.
fn drained<C: Width>(
    alloc: Global,
    answer: &mut Answer,
    string: &mut UtfString<C>,
    calls: &[End],
    range: (Bound<usize>, Bound<usize>),
) {
    if string.as_utfstr().get(range).is_none() {
        return answer.fail(NoAnswer::Unparsed);
    }
    after_calls(alloc, answer, string.drain(range), calls);
}

// Adds what an iterator prints after it returned some items from the front.
fn called<I: Iterator + Display + Debug>(
    alloc: Global,
    answer: &mut Answer,
    mut iterator: I,
    calls: usize,
)
where
    I::Item: Drop,
    requires can_next { (i : I) → I.can_next i }
    requires finite { (i : I) → IsFinite (I.remaining i) }
{
    for _call in 0..calls {
        let _c = iterator.next();
    }
    both(alloc, answer, &iterator);
}

// Adds what the escapes of a text print after they returned some characters from the front.
fn called_escapes<C: Width>(
    alloc: Global,
    answer: &mut Answer,
    text: UtfStr<'_, C>,
    escape: Escape,
    calls: usize,
) {
    match escape {
        Escape::Debug => called(alloc, answer, text.escape_debug(), calls),
        Escape::Default => called(alloc, answer, text.escape_default(), calls),
        Escape::Unicode => called(alloc, answer, text.escape_unicode(), calls),
    }
}

fn of_escapes<C: Width>(
    alloc: Global,
    answer: &mut Answer,
    text: UtfStr<'_, C>,
    escape: Escape,
    calls: &str,
) {
    match parse::prefix_calls(calls) {
        Ok(calls) => called_escapes(alloc, answer, text, escape, calls),
        Err(error) => answer.fail(error),
    }
}

fn with_contents<C: Width>(alloc: Global, answer: &mut Answer, units: &[C], subject: Subject) {
    match as_contents(units) {
        Ok(view) => of_contents(alloc, answer, view, subject),
        Err(error) => answer.fail(error),
    }
}

fn with_text<C: Width>(alloc: Global, answer: &mut Answer, units: &[C], subject: Text, more: &str) {
    match as_text(units) {
        Ok(text) => of_text(alloc, answer, text, subject, more),
        Err(error) => answer.fail(error),
    }
}

fn with_error<C: Width>(alloc: Global, answer: &mut Answer, units: &[C], word: &str) {
    match parse::named(&REPORTED, word) {
        Ok(reported) => of_error(alloc, answer, units, reported),
        Err(error) => answer.fail(error),
    }
}

/// Adds what a value prints.
pub fn printed<C: Width>(alloc: Global, answer: &mut Answer, units: &[C], question: &str) {
    let (word, more) = parse::word(question);
    if let Ok(subject) = parse::named(&OF_UNITS, word) {
        return of_units(alloc, answer, UStr::from_slice(units), subject);
    }
    if let Ok(subject) = parse::named(&OF_CONTENTS, word) {
        return with_contents(alloc, answer, units, subject);
    }
    match parse::named(&OF_TEXT, word) {
        Ok(subject) => with_text(alloc, answer, units, subject, more),
        Err(_) => with_error(alloc, answer, units, word),
    }
}
