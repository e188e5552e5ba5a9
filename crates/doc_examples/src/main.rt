//! Runs the examples in the comments of the library's public items. `docs/examples` makes this crate from the sources.
#![tactic(auto)]

mod bytes;
mod convert;
mod edit;
mod error;
mod iter;
mod replace;
mod search;
mod ucstr;
mod ucstring;
mod unit;
mod ustr;
mod ustring;
mod utfstr;
mod utfstring;
mod wtf8;

use std::process::{ExitCode, Termination};
use std::test::Fail;

fn main(rt: HostRuntime) -> ExitCode {
    let mut all = bytes::hold(&rt);
    all &= convert::hold(&rt);
    all &= edit::hold(&rt);
    all &= error::hold(&rt);
    all &= iter::hold(&rt);
    all &= replace::hold(&rt);
    all &= search::hold(&rt);
    all &= ucstr::hold(&rt);
    all &= ucstring::hold(&rt);
    all &= unit::hold(&rt);
    all &= ustr::hold(&rt);
    all &= ustring::hold(&rt);
    all &= utfstr::hold(&rt);
    all &= utfstring::hold(&rt);
    all &= wtf8::hold(&rt);
    if all && println!(rt; "451 examples hold").is_ok() {
        return ExitCode::SUCCESS;
    }
    ExitCode::FAILURE
}

// Returns whether an example ended, and all that it asserts holds. Otherwise standard error says so.
fn holds(rt: &HostRuntime, name: &str, example: Result<bool, Fail>) -> bool {
    if let Ok(true) = example {
        return true;
    }
    let _ = eprintln!(rt; "the example of {name}");
    let _ = example.map(|_| ExitCode::FAILURE).report(rt);
    false
}
