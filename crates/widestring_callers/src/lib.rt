//! Ordinary callers of the library, as an application would write them: each is proved without a proof file.
//!
//! They show that what a call requires follows from the contracts of other calls: offsets that a call returned, offsets
//! of the ends, and offsets that the caller has compared. `CALLING.md` begins with some of them. The modules
//! `examples_*` state what a call returns, mostly at concrete units: each fails if the call's contract no longer
//! implies it.
#![tactic(auto)]

pub mod bytes;
pub mod compare;
pub mod edits;
pub mod examples_bytes;
pub mod examples_c_strings;
pub mod examples_characters;
pub mod examples_decoders;
pub mod examples_faults;
pub mod examples_ignoring_case;
pub mod examples_matches;
pub mod examples_printing;
pub mod examples_replaced;
pub mod examples_set_splits;
pub mod examples_sets;
pub mod examples_split;
pub mod examples_split_back;
pub mod examples_split_ends;
pub mod examples_strings;
pub mod examples_substrings;
pub mod examples_texts;
pub mod examples_texts_ignoring_case;
pub mod faults;
pub mod idioms;
pub mod lockstep;
pub mod offsets32;
pub mod schemes;
pub mod searches;
pub mod texts;
pub mod words;
