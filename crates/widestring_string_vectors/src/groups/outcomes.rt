//! What comes of a call of the library: an error, a string that replaces another.
use widestring::error::OutOfMemory;
use widestring_replay::parse::NoAnswer;
use widestring_replay::show::Answer;
use widestring_testing::Heap;

/// Replaces a string by the one that a call made.
pub fn replaced<T: Drop>(string: &mut T, answer: &mut Answer, made: Result<T, OutOfMemory>) {
    match made {
        Ok(made) => *string = made,
        Err(OutOfMemory) => answer.fail(NoAnswer::OutOfMemory),
    }
}

/// Replaces a string by the string of items. If a request failed, replaces it by the string of the items before the
/// failure.
pub fn collected<T: Drop>(string: &mut T, answer: &mut Answer, made: Result<T, T>) {
    match made {
        Ok(made) => *string = made,
        Err(made) => {
            *string = made;
            answer.fail(NoAnswer::OutOfMemory);
        }
    }
}

/// Adds the field of a call whose request failed: a `?` if it did not leave the string as its contract says, and a `-`
/// if the string would be too long, with no request. Otherwise records the failure.
pub fn failed(heap: &Heap, answer: &mut Answer, is_kept: Result<bool, NoAnswer>) {
    match is_kept {
        Ok(false) => answer.word("?"),
        Ok(true) if heap.failed() == 0 => answer.word("-"),
        Ok(true) => answer.fail(NoAnswer::OutOfMemory),
        Err(error) => answer.fail(error),
    }
}

/// Records the failure of a call that handed a string back, which must be unchanged; else adds a `?`.
pub fn handed_back(answer: &mut Answer, is_unchanged: bool) {
    if is_unchanged {
        answer.fail(NoAnswer::OutOfMemory);
    } else {
        answer.word("?");
    }
}
