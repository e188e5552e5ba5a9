//! Substrings in an answer.

// Adds how many substrings an iterator gives, and the units of each as a further field. It makes the iterator twice,
// since one that holds a unit of any width can't be copied by this macro.
macro_rules! substrings {
    ($answer:expr, $substrings:expr) => {{
        $answer.count(Some($substrings.count()));
        for substring in $substrings {
            $answer.part();
            $answer.units(substring.as_slice());
        }
    }};
}

pub(crate) use substrings;
