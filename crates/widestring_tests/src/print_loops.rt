//! Printing of units by loops over their characters, in which each character is a write of its own. Tests compare what
//! the library prints with them.
use std::fmt;
use widestring::Policy;
use widestring::unit::{Unit, split_first, write_escape};
use widestring::ustr::UStr;

// Units that print as `{}` of their lossy text.
#[derive(Drop)]
pub(crate) struct Lossy<'a, C>(pub(crate) &'a [C]);

impl<C: Unit> fmt::Display for Lossy<'_, C> {
    fn fmt<W: fmt::Write>(&self, f: &mut fmt::Formatter<W>) -> fmt::Result {
        for c in UStr::from_slice(self.0).chars_lossy() {
            f.write_char(c)?;
        }
        Ok(())
    }
}

// Units that print as `{}` of their lossy text without any U+FFFD.
#[derive(Drop)]
pub(crate) struct Skipping<'a, C>(pub(crate) &'a [C]);

impl<C: Unit> fmt::Display for Skipping<'_, C> {
    fn fmt<W: fmt::Write>(&self, f: &mut fmt::Formatter<W>) -> fmt::Result {
        for shown in UStr::from_slice(self.0).chars_lossy() {
            if shown != char::REPLACEMENT_CHARACTER {
                f.write_char(shown)?;
            }
        }
        Ok(())
    }
}

// Units that print as `{:?}` of a view, item by item.
#[derive(Drop)]
pub(crate) struct Items<'a, C>(pub(crate) &'a [C]);

impl<C: Unit> fmt::Debug for Items<'_, C> {
    fn fmt<W: fmt::Write>(&self, f: &mut fmt::Formatter<W>) -> fmt::Result {
        f.write_str("\"")?;
        let mut rest = self.0;
        while let Some((item, tail)) = split_first(rest) {
            match item {
                Ok(c) => write_escape(f, c.escape_debug())?,
                Err(unit) => write!(f, "\\<{:X}>", unit.code())?,
            }
            rest = tail;
        }
        f.write_str("\"")
    }
}

// Units that print as `{:?}` of an iterator over their lossy characters.
#[derive(Drop)]
pub(crate) struct LossyChars<'a, C>(pub(crate) &'a [C]);

impl<C: Unit> fmt::Debug for LossyChars<'_, C> {
    fn fmt<W: fmt::Write>(&self, f: &mut fmt::Formatter<W>) -> fmt::Result {
        f.write_str("\"")?;
        for c in UStr::from_slice(self.0).chars_lossy() {
            write_escape(f, c.escape_debug())?;
        }
        f.write_str("\"")
    }
}

// Units that print as `{:?}` of an iterator over their lossy characters under a policy.
#[derive(Drop)]
pub(crate) struct PolicyChars<'a, C>(pub(crate) &'a [C], pub(crate) Policy);

impl<C: Unit> fmt::Debug for PolicyChars<'_, C> {
    fn fmt<W: fmt::Write>(&self, f: &mut fmt::Formatter<W>) -> fmt::Result {
        f.write_str("\"")?;
        for c in UStr::from_slice(self.0).chars_lossy_with(self.1) {
            write_escape(f, c.escape_debug())?;
        }
        f.write_str("\"")
    }
}
