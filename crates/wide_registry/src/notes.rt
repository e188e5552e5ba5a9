//! The damages of a part while it is read.

ghost use Rattle.std.specs.Prelude.{◌≡◌, ◌≤◌, ◌+◌, ◌-◌, [], ◌∷◌, ◌++◌, All, OnOk, length, vec_len};

use crate::damage::{Damage, Kind};
use crate::line::{FEED, RETURN};
use std::alloc::Global;
use wide_error::OutOfMemory;

// The damages of a part of this length.
#[derive(Drop)]
pub struct Notes<'a> {
    pub len: usize,
    pub damages: Vec<Damage<'a>>,
    ghost within: { All (λ damage. damage.unit ≤ len) damages.items },
}

impl<'a> Notes<'a> {
    pub fn new(alloc: Global, part: &[u16]) -> Notes<'a>
        ensures part { result.len ≡ length part.now }
        ensures none { vec_len result.damages ≡ 0 }
    {
        Notes {
            len: part.len(),
            damages: Vec::new(alloc),
        }
    }

    // Adds a damage that is before the last `left` units of the part.
    pub fn push(&mut self, left: usize, kind: Kind<'a>) -> Result<(), OutOfMemory>
        ensures same { self.new.len ≡ self.old.len }
        ensures one_more { OnOk result (vec_len self.new.damages ≡ vec_len self.old.damages + 1) }
        ensures last { OnOk result (self.new.damages.items ≡ self.old.damages.items ++ record { unit = self.old.len - left; kind = kind.entry } ∷ []) }
    {
        let unit = self.len.saturating_sub(left);
        self.damages.push(Damage { unit, kind })?;
        Ok(())
    }

    // Notes a line end that is not CR LF. It is before the last `left` units of the part.
    pub fn push_end(&mut self, end: &[u16], left: usize) -> Result<(), OutOfMemory>
        ensures same { self.new.len ≡ self.old.len }
        ensures kept { OnOk result (vec_len self.old.damages ≤ vec_len self.new.damages) }
        ensures whole { OnOk result (vec_len self.new.damages ≤ vec_len self.old.damages → end.now ≡ 0xd ∷ 0xa ∷ []) }
    {
        let kind = match end {
            [RETURN, FEED] => return Ok(()),
            [RETURN] => Kind::Return,
            [FEED] => Kind::Feed,
            _ => Kind::NoLineEnd,
        };
        self.push(left.saturating_add(end.len()), kind)
    }
}
