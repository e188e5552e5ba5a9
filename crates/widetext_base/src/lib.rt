//! What the programs `widetext` and `widetext_utf8` share: the subcommand `utf8`, error messages, exit statuses and the
//! usage message.
#![tactic(auto)]

mod messages;
mod streams;
mod utf8;

pub use messages::{FAILED, SUCCESS, USAGE, WRONG_USAGE, end, report, usage_error};
pub use streams::{finish, gather};
pub use utf8::{command, parse_utf8, write_utf8};
