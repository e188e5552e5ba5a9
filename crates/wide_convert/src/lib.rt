//! Converts texts between the encoding schemes of Unicode and WTF-8, chunk by chunk, in constant memory (Unicode
//! Standard, section 3.10).
#![tactic(auto)]

mod converter;
mod counts;
mod devices;
mod error;
pub mod laws;
mod position;
mod reading;
mod steps;
mod window;

pub use converter::{ConvertProgress, Converter, ProgressEnd, TextFault};
pub use devices::convert;
pub use error::ConvertError;
pub use position::Position;
pub use reading::Reading;
