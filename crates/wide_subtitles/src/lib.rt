//! Subtitles in the format of `.srt` files: lines with their ends, what each line is, and times that are moved.
//!
//! A subtitle is a number, a line of times, and lines of text up to an empty one. [`first_line`] splits a text into lines,
//! [`kind_of`] says what a line is by itself, and [`Location::after`] what it is behind the lines before it.
#![tactic(auto)]

mod kinds;
mod lines;
mod location;
mod time;
mod times;

pub use kinds::{Kind, kind_of};
pub use lines::{Line, first_line};
pub use location::{Finding, Location, Step};
pub use time::{Moved, Time, move_time};
pub use times::{Times, times_of};
