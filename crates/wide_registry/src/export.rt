//! Reads an export part by part.

ghost use Rattle.std.specs.Prelude.{◌≡◌, ◌<◌, ◌≤◌, ◌↔◌, ◌++◌, ◌-◌, [], ◌∷◌, All, IfOk, OnOk, drop, IfSome, IsNone, OnErr, OnSome, false, true, length, vec_len};

use crate::damage::Damage;
use crate::entry::{Entry, behind_part};
use crate::notes::Notes;
use crate::read::{Context, read_part};
use std::alloc::Global;
use wide_error::OutOfMemory;

/// A part of an export: a line, or all lines of a value.
#[derive(Drop)]
pub struct Part<'a> {
    /// Its units, with the line end.
    pub units: &'a [u16],
    /// What it says.
    pub entry: Entry<'a>,
    /// What is damaged in it, in order.
    pub damages: Vec<Damage<'a>>,
}

/// An export that is read. Each call of [`next`](Export::next) takes a part of its text.
#[derive(Clone, Copy)]
pub struct Export<'a> {
    /// The text that is left.
    pub rest: &'a [u16],
    /// Whether nothing has been read.
    pub is_first: bool,
    /// Whether a key is above the text that is left.
    pub has_key: bool,
}

impl<'a> Export<'a> {
    ghost use Rattle.wide_forms.specs.EncodingForm.{Utf16};
    ghost use Rattle.wide_forms.specs.Items.{IsWellFormed};
    ghost use Rattle.wide_registry.specs.Entries.{Begins, EndsInBytes, IsEscaped, first_words, is_header, is_read, is_value, key_after, says_nothing};
    ghost use Rattle.wide_registry.specs.Lines.{begins_value, behind_line};

    /// Returns an export of which nothing has been read. The text has no BOM.
    pub fn new(text: &'a [u16]) -> Export<'a>
        ensures rest { result.rest.now ≡ text.now }
        ensures first { result.is_first ≡ true }
        ensures no_key { result.has_key ≡ false }
    {
        Export {
            rest: text,
            is_first: true,
            has_key: false,
        }
    }

    /// Reads the next part, or returns `None` at the end of the text.
    ///
    /// # Errors
    ///
    /// If an allocation fails. Nothing has been read then.
    pub fn next(&mut self, alloc: Global) -> Result<Option<Part<'a>>, OutOfMemory>
        ensures end { IfOk result (λ part. IsNone part ↔ (self.old.rest.now ≡ [])) }
        ensures parts { IfOk result (λ part. IfSome part (λ part. self.old.rest.now ≡ part.units.now ++ self.new.rest.now)) }
        ensures progress { IfOk result (λ part. IfSome part (λ part. 0 < length part.units.now)) }
        ensures damages { IfOk result (λ part. IfSome part (λ part. All (λ damage. damage.unit ≤ length part.units.now) part.damages.items)) }

        // What is not read of a part is a damage, but for nothing and comments. Bytes are the end of their part.
        ensures noted { IfOk result (λ part. IfSome part (λ part. is_read part.entry ≡ false → says_nothing part.units.now ≡ false → 0 < vec_len part.damages)) }
        ensures digits { IfOk result (λ part. IfSome part (λ part. EndsInBytes part.units.now part.entry)) }

        ensures begins { IfOk result (λ part. IfSome part (λ part. Begins part.units.now part.entry)) }

        // The first part is the header, and a value has a key above it, or else there is a damage.
        ensures header { self.old.is_first ≡ true → IfOk result (λ part. IfSome part (λ part. is_header part.entry ≡ false → 0 < vec_len part.damages)) }
        ensures headers { self.old.is_first ≡ false → IfOk result (λ part. IfSome part (λ part. is_header part.entry ≡ false)) }
        ensures first { IfOk result (λ part. OnSome part (self.new.is_first ≡ false)) }
        ensures under_key { self.old.has_key ≡ false → IfOk result (λ part. IfSome part (λ part. is_value part.entry ≡ true → 0 < vec_len part.damages)) }
        ensures key { IfOk result (λ part. IfSome part (λ part. self.new.has_key ≡ key_after part.entry self.old.has_key)) }

        // A line that is no value is a part by itself.
        ensures one_line { OnOk result (begins_value (first_words self.old.rest.now) ≡ false → self.new.rest.now ≡ behind_line self.old.rest.now) }

        // A part without damages is well formed, has CR LF at its end, and a string in it only escapes that there are.
        ensures well_formed { IfOk result (λ part. IfSome part (λ part. vec_len part.damages ≡ 0 → IsWellFormed Utf16 part.units.now)) }
        ensures line_end { IfOk result (λ part. IfSome part (λ part. vec_len part.damages ≡ 0 → drop (length part.units.now - 2) part.units.now ≡ 0xd ∷ 0xa ∷ [])) }
        ensures escapes { IfOk result (λ part. IfSome part (λ part. vec_len part.damages ≡ 0 → IsEscaped part.entry)) }

        ensures err { OnErr result (self.new ≡ self.old) }
    {
        if self.rest.is_empty() {
            return Ok(None);
        }
        let len = self.rest.len() - behind_part(self.rest).len();
        let (units, rest) = self.rest.split_at(len);
        let context = Context {
            is_first: self.is_first,
            has_key: self.has_key,
        };
        let mut notes = Notes::new(alloc, units);
        let entry = read_part(&mut notes, units, context)?;
        let mut damages = notes.damages;
        damages.sort_by_key(|damage| damage.unit)?;
        self.rest = rest;
        self.is_first = false;
        if let Entry::Key(key) = entry {
            self.has_key = !key.is_deleted && !key.path.is_empty();
        }
        Ok(Some(Part {
            units,
            entry,
            damages,
        }))
    }
}
