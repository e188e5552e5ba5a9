//! The program `wideconv`, over any devices: it converts texts between encoding schemes.
#![tactic(auto)]

mod examining;
mod files;
mod input;
mod messages;
mod output;
mod program;
mod request;
mod tally;
mod text;

pub use examining::{Examined, examine};
pub use input::Input;
pub use messages::{FAILED, SUCCESS, USAGE, WRONG_USAGE, report};
pub use output::Output;
pub use program::{command, run};
pub use request::{Asked, Refusal, Request, parse};
pub use tally::Tally;
pub use text::{Conversion, TextError, convert_text, open_text};
