//! Views of units of 16 or 32 bits, which may be well formed or ill-formed.
#![tactic(auto)]

mod ascii;
mod bytes;
mod characters;
mod display;
mod escaped;
mod iter;
pub mod laws;
mod line_indices;
mod lines;
mod lossy_with;
mod matches;
mod offsets;
mod order;
mod search;
mod set_splits;
mod sets;
mod split;
mod split_back;
mod split_ends;
mod split_filled;
mod split_inclusive;
mod split_n;
mod split_terminator;
mod text;
mod view;

pub use display::{Display, DisplaySkipping};
pub use iter::{
    CharIndices, CharIndicesLossy, CharIndicesLossyUtf16, CharIndicesLossyUtf32, CharIndicesUtf16,
    CharIndicesUtf32, Chars, CharsLossy, CharsLossyUtf16, CharsLossyUtf32, CharsUtf16, CharsUtf32,
};
pub use line_indices::LineIndices;
pub use lines::{LineView, Lines};
pub use lossy_with::{CharsLossyWith, after_faults};
pub use matches::{MatchBackView, MatchIndices, MatchView, Matches};
pub use sets::AnyOf;
pub use split::{NeedleView, OneUnit, Split, SplitView};
pub use split_back::{BackView, RSplit, RSplitN};
pub use split_ends::DoubleEndedView;
pub use split_filled::SplitFilled;
pub use split_inclusive::{InclusiveBackView, InclusiveView, SplitInclusive};
pub use split_n::SplitN;
pub use split_terminator::SplitTerminator;
pub use view::{U16Str, U32Str, UStr, WideChar, WideStr};
