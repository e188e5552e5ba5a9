//! Reads exports of a Windows registry: the text format `.reg`, as regedit reads it.
//!
//! [`Export`] reads a text part by part. A [`Part`] is a line with its line end, or all lines of a value that goes on.
//! Nothing is left out: the parts are the text. What a part means is its [`Entry`], and what regedit would not read in
//! it, or would read in another way than it looks, is a [`Damage`].
#![tactic(auto)]

mod bytes;
mod damage;
mod digits;
mod entry;
mod export;
mod line;
mod notes;
mod read;
mod root;
mod string;

pub use bytes::{ByteLine, bytes_of, split_piece};
pub use damage::{Damage, Kind};
pub use digits::byte_of;
pub use entry::{Data, Entry, Header, Key, Value};
pub use export::{Export, Part};
pub use line::{Line, first_line, without_end, without_marks};
pub use root::has_known_root;
pub use string::decoded;
