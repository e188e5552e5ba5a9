//! Searches in units of UTF-16 and UTF-32, well formed or not, for a slice of units, for one unit and for a character.
//! Offsets and lengths are counted in units. No call allocates or fails. The Rust crate has none of these calls. Calls
//! with a counterpart in `str` have the same name.
//!
//! A search proceeds through these files. `units.rt` and `chars.rt` have the public calls, over any needle
//! (`needle.rt`, compared by `comparisons.rt`) in `search.rt` from the front and in `search_back.rt` from the back, and
//! over one unit in `one.rt`.
//!
//! 1. Each search begins with a plain loop, which takes the least time if the needle is found soon. From the front it
//!    tries each offset at which the needle's first unit occurs, and from the back each offset.
//! 2. After some tries that fail, the search by two units follows; from the front only if the tries are close
//!    together. It looks, in SIMD lanes (`pairs.rt`), for offsets at which the needle's first and last unit both match,
//!    and compares there (W. Mula, "SIMD-friendly algorithms for substring searching"). `costs.rt` counts what that
//!    costs. Where both match nearly everywhere, it tries some offsets one by one. From the front, where both match
//!    nearly as often as the first alone, the plain loop follows again, unless the needle is long.
//! 3. If too many units are compared in vain, as they may be where the needle repeats itself, the two-way search
//!    follows (`two_way.rt`), from either side (`side.rt`), over the two parts of the needle (`factorization.rt`): it
//!    is linear in the worst case (M. Crochemore and D. Perrin, "Two-way string-matching"). Where the text no longer
//!    repeats itself, the plain loop follows from the front, and the search by two units from the back.
//!
//! A search without regard to the case of ASCII letters (`ignoring_case.rt`) begins with the second method: in SIMD
//! lanes, each unit is compared with a letter in lower case and in upper case (`either.rt`). The third method, which
//! reads each unit in lower case, follows it as it does from the back.
//!
//! `limits.rt` has the numbers by which one method follows another. They affect only how long a search takes.
//!
//! `specs/` defines occurrences and the substrings between them. The contracts of the functions in [`laws`] are the
//! laws of these definitions.
#![tactic(auto)]

mod blocks;
mod char_set;
mod chars;
mod comparisons;
mod costs;
mod either;
mod factorization;
mod ignoring_case;
pub mod laws;
mod limits;
mod needle;
mod one;
mod pairs;
mod search;
mod search_back;
mod sets;
mod side;
mod two_way;
mod units;

pub use char_set::{AsciiWhiteSpace, CharSet, WhiteSpace};
pub use chars::{ends_with_char, find_char, find_char_from, rfind_char, starts_with_char};
pub use ignoring_case::{
    ends_with_ignore_ascii_case, find_ignore_ascii_case, find_ignore_ascii_case_counted,
    starts_with_ignore_ascii_case,
};
pub use sets::{find_in_set, prefix_of_set, suffix_of_set};
pub use units::{
    ends_with, find, find_counted, find_from, find_unit, rfind, rfind_counted, rfind_unit,
    rsplit_once, split_once, starts_with, strip_prefix, strip_suffix,
};
