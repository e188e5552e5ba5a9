//! Whether units are well formed. A question is empty, and the answer is `ok`, or the index, the item number and the
//! unit of the first fault.
use widestring::utfstr::UtfStr;
use widestring_replay::parse::NoAnswer;
use widestring_replay::show::{Answer, ReportedUnit};

/// Adds whether units of either width are well formed.
pub fn checked<C: ReportedUnit>(answer: &mut Answer, units: &[C], question: &str) {
    match UtfStr::from_slice(units) {
        _ if !question.is_empty() => answer.fail(NoAnswer::Unparsed),
        Ok(_) => answer.word("ok"),
        Err(error) => answer.first_fault(&error),
    }
}
