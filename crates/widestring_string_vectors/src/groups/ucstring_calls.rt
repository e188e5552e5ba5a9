//! Calls of a C string, by name. `repeat` has the number of times after a space, and `boxed` the spare capacity of the
//! C string. The answer is the units that the call returns, and after a `#` the number of its requests.
use crate::groups::{outcomes, pieces, ustring_calls};
use widestring::error::OutOfMemory;
use widestring::ucstr::UCStr;
use widestring::ucstring::{CowUCStr, UCStrInUcstring, UCString};
use widestring_replay::parse::{self, Memory, NoAnswer};
use widestring_replay::show::{Answer, ReportedUnit};
use widestring_testing::Heap;

type CString<'a, C> = UCString<C, &'a Heap>;

// The calls.
#[derive(Clone, Copy)]
enum Call {
    Boxed,
    Keep,
    Take(Take),
    Copy(Copied),
}

// The calls that return the units of a C string, in what they make of it.
#[derive(Clone, Copy)]
enum Take {
    IntoVec,
    IntoVecWithNul,
    IntoUstring,
    IntoUstringWithNul,
}

// The calls that make a string of a C string.
#[derive(Clone, Copy)]
enum Copied {
    ToUcstring,
    TryClone,
    Repeat,
    IntoOwned,
    ToUstring,
}

static CALLS: [(&str, Call); 11] = [
    ("boxed", Call::Boxed),
    ("keep", Call::Keep),
    ("into_vec", Call::Take(Take::IntoVec)),
    ("into_vec_with_nul", Call::Take(Take::IntoVecWithNul)),
    ("into_ustring", Call::Take(Take::IntoUstring)),
    (
        "into_ustring_with_nul",
        Call::Take(Take::IntoUstringWithNul),
    ),
    ("to_ucstring", Call::Copy(Copied::ToUcstring)),
    ("try_clone", Call::Copy(Copied::TryClone)),
    ("repeat", Call::Copy(Copied::Repeat)),
    ("into_owned", Call::Copy(Copied::IntoOwned)),
    ("to_ustring", Call::Copy(Copied::ToUstring)),
];

// Adds the units of a C string that a call made.
fn shown<C: ReportedUnit>(answer: &mut Answer, made: Result<CString<'_, C>, OutOfMemory>) {
    match made {
        Ok(made) => answer.units(made.as_ucstr().as_slice_with_nul()),
        Err(OutOfMemory) => answer.fail(NoAnswer::OutOfMemory),
    }
}

// Copies a C string, and adds the copy.
fn copy<'a, C: ReportedUnit>(
    heap: &'a Heap,
    answer: &mut Answer,
    string: &CString<'a, C>,
    call: Copied,
    times: usize,
) {
    let view = string.as_ucstr();
    match call {
        Copied::ToUcstring => shown(answer, view.to_ucstring(heap)),
        Copied::TryClone => shown(answer, string.try_clone()),
        Copied::Repeat => shown(answer, view.repeat(heap, times)),
        Copied::IntoOwned => shown(answer, owned(heap, view)),
        Copied::ToUstring => ustring_calls::shown(answer, view.to_ustring(heap)),
    }
}

// Makes an owned C string of a borrowed one.
fn owned<'a, C: ReportedUnit>(
    heap: &'a Heap,
    view: UCStr<'_, C>,
) -> Result<CString<'a, C>, OutOfMemory> {
    CowUCStr::Borrowed(view).into_owned(heap)
}

// Makes an owned C string of an owned one.
fn kept<'a, C: ReportedUnit>(
    heap: &'a Heap,
    string: CString<'a, C>,
) -> Result<CString<'a, C>, OutOfMemory> {
    let owned: CowUCStr<'a, C, &'a Heap> = CowUCStr::Owned(string);
    owned.into_owned(heap)
}

// Makes a call that consumes a C string, and adds what it returns.
fn taken<C: ReportedUnit>(answer: &mut Answer, string: CString<'_, C>, call: Take) {
    match call {
        Take::IntoVec => answer.units(&string.into_vec()),
        Take::IntoVecWithNul => answer.units(&string.into_vec_with_nul()),
        Take::IntoUstring => answer.units(string.into_ustring().as_slice()),
        Take::IntoUstringWithNul => answer.units(string.into_ustring_with_nul().as_slice()),
    }
}

// Adds the units of a C string that was in a box. If the allocation of the box fails, the C string must be returned
// unchanged.
fn boxed<'a, C: ReportedUnit>(
    answer: &mut Answer,
    string: CString<'a, C>,
    contents: &[C],
    capacity: usize,
) {
    match string.into_boxed_ucstr() {
        Ok(boxed) => answer.units(boxed.into_ucstring().as_ucstr().as_slice_with_nul()),
        Err(string) => handed_back(answer, string, contents, capacity),
    }
}

// Records the failure of a call that returned a C string, which must have these contents and this capacity.
fn handed_back<C: ReportedUnit>(
    answer: &mut Answer,
    string: CString<'_, C>,
    contents: &[C],
    capacity: usize,
) {
    let has_contents = string.as_ucstr().as_slice() == contents;
    let left = string.into_vec_with_nul().capacity();
    outcomes::handed_back(answer, has_contents & (left == capacity));
}

// Makes a call of a C string of these contents and this capacity, and adds what it returns.
fn make_call<'a, C: ReportedUnit>(
    heap: &'a Heap,
    answer: &mut Answer,
    string: CString<'a, C>,
    (contents, capacity): (&[C], usize),
    (call, number): (Call, usize),
) {
    match call {
        Call::Boxed => boxed(answer, string, contents, capacity),
        Call::Keep => shown(answer, kept(heap, string)),
        Call::Copy(call) => copy(heap, answer, &string, call, number),
        Call::Take(call) => taken(answer, string, call),
    }
}

// Makes a call of a C string, and adds what it returns and the number of its requests.
fn counted<'a, C: ReportedUnit>(
    memory: Memory<'a>,
    answer: &mut Answer,
    string: CString<'a, C>,
    before: (&[C], usize),
    call: (Call, usize),
) {
    let left = memory.heap.left();
    make_call(memory.heap, answer, string, before, call);
    answer.requests(memory.requests_since(left));
}

// Makes a call of the C string of a vector, whose units these are.
fn of_vec<'a, C: ReportedUnit>(
    memory: Memory<'a>,
    answer: &mut Answer,
    vec: Vec<C, &'a Heap>,
    contents: &[C],
    call: (Call, usize),
) {
    let capacity = vec.capacity();
    match UCString::from_vec(vec) {
        Ok(string) => counted(memory, answer, string, (contents, capacity), call),
        Err(_) => answer.fail(NoAnswer::Unparsed),
    }
}

// Makes a call of the C string of units.
fn of_units<C: ReportedUnit>(
    memory: Memory<'_>,
    answer: &mut Answer,
    contents: &[C],
    call: (Call, usize),
) {
    match pieces::vec_on(memory.heap, contents, call.1.saturating_add(1)) {
        Ok(vec) => of_vec(memory, answer, vec, contents, call),
        Err(error) => answer.fail(error),
    }
}

// Makes a call of the C string of a list.
fn of_list<C: ReportedUnit>(
    memory: Memory<'_>,
    answer: &mut Answer,
    list: &str,
    call: (Call, usize),
) {
    match parse::list::<C>(memory.alloc, list) {
        Ok(contents) => of_units(memory, answer, &contents, call),
        Err(error) => answer.fail(error),
    }
}

// Parses a call and its number, which is 0 if it does not have one.
fn parse_call(call: &str) -> Result<(Call, usize), NoAnswer> {
    let (name, number) = match call.split_once(' ') {
        Some((name, number)) => (name, parse::value::<usize>(number)?),
        None => (call, 0),
    };
    Ok((parse::named(&CALLS, name)?, number))
}

/// Adds what a call of the C string of this list returns.
pub fn called<C: ReportedUnit>(memory: Memory<'_>, answer: &mut Answer, list: &str, call: &str) {
    match parse_call(call) {
        Ok(call) => of_list::<C>(memory, answer, list, call),
        Err(error) => answer.fail(error),
    }
}
