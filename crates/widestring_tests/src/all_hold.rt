//! What many tests share: assertions for cases, each of which needs only one proof, and comparisons of vectors.
use std::process::Abort;

// Fails if a case is false, and prints the index of the first one.
pub(crate) fn all_hold(rt: &impl Abort, cases: &[bool]) {
    for (index, holds) in cases.iter().enumerate() {
        assert!(rt; *holds, "case {index} does not hold");
    }
}

// Fails if this case is false, and prints its number: a seed, a length or an index.
pub(crate) fn case_holds(rt: &impl Abort, number: usize, holds: bool) {
    assert!(rt; holds, "case {number} does not hold");
}

// Returns whether these items were collected.
pub(crate) fn is_collected<T: PartialEq + Drop, E: Drop>(
    made: Result<Vec<T>, E>,
    expected: &[T],
) -> bool {
    match made {
        Ok(given) => given.as_slice() == expected,
        Err(_) => false,
    }
}
