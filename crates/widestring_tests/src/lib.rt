//! Callers of the library, and the tests that can't be test vectors; those are in `widestring_vectors`,
//! `widestring_search_vectors` and `widestring_string_vectors`.
//!
//! The callers show what the contracts say at concrete types; each is proved. The tests are about sources that yield
//! more after their end or report wrong bounds, about devices, errors and laws, random edits and edits that an
//! allocation failure stops, conversions into too little space, what is printed and what a sink then holds, and the
//! code of docs/TOUR.md. Loops over texts compare results with the standard library.
#![tactic(auto)]

#[cfg(test)]
mod all_hold;
#[cfg(test)]
mod alternate_tests;
#[cfg(test)]
mod caller_tests;
#[cfg(test)]
mod callers;
#[cfg(test)]
mod capacity_tests;
#[cfg(test)]
mod chunk_tests;
#[cfg(test)]
mod coded;
#[cfg(test)]
mod debug_tests;
#[cfg(test)]
mod device_tests;
#[cfg(test)]
mod edit_failure_tests;
#[cfg(test)]
mod edit_script_tests;
#[cfg(test)]
mod encoders;
#[cfg(test)]
mod error_tests;
pub mod front;
#[cfg(test)]
mod law_tests;
#[cfg(test)]
mod offsets;
#[cfg(test)]
mod paths;
#[cfg(test)]
mod plain;
#[cfg(test)]
mod prefix_tests;
#[cfg(test)]
mod print_loops;
#[cfg(test)]
mod random;
#[cfg(test)]
mod resumed_source_tests;
#[cfg(test)]
mod search_tests;
#[cfg(test)]
mod sink_tests;
#[cfg(test)]
mod source_tests;
#[cfg(test)]
mod tour_string_tests;
#[cfg(test)]
mod tour_tests;
