//! Well-formed strings as texts that can be edited.
ghost use Rattle.std.specs.Prelude.{◌≡◌, ◌≤◌, map, IsOk, OnOk, IfOk};
ghost use Rattle.wide_forms.specs.Offsets.{text_of};
ghost use Rattle.wide_edit.specs.Step.{step, chars_in};
ghost use Rattle.wide_editable.specs.Edited.{CanHold, HasReplySpace};

use crate::lookup::{find, find_second, indices_of, string_facts};
use crate::memory::prepare_at;
use crate::operations::apply_at;
use crate::text_edit::TextEdit;
use std::alloc::Global;
use wide_edit::{Edit, Reply};
use wide_error::OutOfMemory;
use wide_utferror::FaultUnit;
use wide_utfstring::UtfString;

impl<C: FaultUnit> TextEdit for UtfString<C> {
    ghost use Rattle.wide_forms.specs.Offsets.{text_of};
    ghost use Rattle.wide_edit.specs.Step.{step};
    ghost use Rattle.wide_editable.specs.Edited.{CanHold};

    ghost text = { λ s. text_of C.form C.number s.units };

    ghost units = { λ s. map C.number s.units };

    ghost form = { C.form };

    ghost capacity = { λ s. s.capacity };

    ghost is_ready = { λ s edit. CanHold C.form s (step (text_of C.form C.number s.units) edit).0 };

    fn char_count(&self) -> usize {
        self.as_utfstr().char_count()
    }

    fn unit_count(&self) -> usize {
        string_facts(self);
        self.len()
    }

    fn prepare(&mut self, alloc: Global, edit: Edit<'_>) -> Result<Vec<char>, OutOfMemory>
        ensures ready { OnOk result (CanHold C.form self.new (step (text_of C.form C.number self.new.units) edit.entry).0) }
        ensures space { IfOk result (λ space. HasReplySpace (text_of C.form C.number self.new.units) edit.entry space) }
        ensures text { text_of C.form C.number self.new.units ≡ text_of C.form C.number self.old.units }
        ensures units { map C.number self.new.units ≡ map C.number self.old.units }
        ensures capacity { self.old.capacity ≤ self.new.capacity }
        ensures succeeds { CanHold C.form self.old (step (text_of C.form C.number self.old.units) edit.entry).0 → chars_in (step (text_of C.form C.number self.old.units) edit.entry).1 ≡ 0 → IsOk result }
    {
        let (first, second) = indices_of(edit);
        let start = find(self, first);
        let end = find_second(self, first, start, second);
        prepare_at(self, alloc, edit, start, end)
    }

    fn apply(&mut self, edit: Edit<'_>, space: Vec<char>) -> Reply {
        let (first, second) = indices_of(edit);
        let start = find(self, first);
        let end = find_second(self, first, start, second);
        apply_at(self, edit, start, end, space)
    }
}
