//! The trait of texts that can be edited.
ghost use Rattle.std.specs.Prelude.{◌≡◌, ◌≤◌, ℕ, List, length, IfOk, OnOk};
ghost use Rattle.wide_forms.specs.EncodingForm.{EncodingForm, encode};
ghost use Rattle.wide_edit.specs.Step.{step, reply_data};
ghost use Rattle.wide_editable.specs.Edited.{HasReplySpace};

use std::alloc::Global;
use wide_edit::{Edit, Reply};
use wide_error::OutOfMemory;

/// A text that can be edited: a list of characters, stored as the code units of one encoding form.
///
/// # Example
///
/// ```
/// use widestring::edit::TextEdit;
///
/// let mut text = Utf16String::from_str(rt.alloc(), "Hi")?;
/// let edit = Edit::Push('😀');
/// let space = text.prepare(rt.alloc(), edit)?;
/// assert!(rt; text.apply(edit, space) == Reply::Done);
/// assert!(rt; (text.char_count(), text.unit_count()) == (3, 4));
/// ```
pub trait TextEdit {
    ghost use Rattle.wide_edit.specs.declared.edits.Edit.{Edit};

    // The characters of the text.
    ghost text: { Self → List ℕ };

    // The numbers of the text's code units.
    ghost units: { Self → List ℕ };

    // The encoding form of the units.
    ghost form: { EncodingForm };

    // How many units fit without allocating.
    ghost capacity: { Self → ℕ };

    // The text has all the capacity that the edit needs.
    ghost is_ready: { Self → Edit → Type 0 };

    /// Returns the number of characters.
    fn char_count(&self) -> usize
        ensures { result ≡ length (text self.now) };

    /// Returns the number of code units of the text. They are the encoding of its characters (Unicode Standard, D79).
    fn unit_count(&self) -> usize
        ensures count { result ≡ length (units self.now) }
        ensures encoded { units self.now ≡ encode form (text self.now) };

    /// Allocates all memory that an edit needs: capacity in the text, and a vector for the characters of its reply,
    /// which is returned. The text keeps its units, and its capacity does not shrink.
    ///
    /// `alloc` allocates that vector alone: the texts of this library grow by allocators of their own.
    ///
    /// To find an index of an edit, a [`Utf16String`](wide_utfstring::Utf16String) counts characters from the start of
    /// the text, here and again in [`TextEdit::apply`]. [`Marked16`](crate::Marked16) counts from the last entry of its
    /// index, fewer than 64 characters. In UTF-32 nothing is counted.
    ///
    /// # Errors
    ///
    /// [`OutOfMemory`] if an allocation fails. The text keeps its units, and its capacity does not shrink.
    fn prepare(&mut self, alloc: Global, edit: Edit<'_>) -> Result<Vec<char>, OutOfMemory>
        ensures ready { OnOk result (is_ready self.new edit.entry) }
        ensures space { IfOk result (λ space. HasReplySpace (text self.new) edit.entry space) }
        ensures text { text self.new ≡ text self.old }
        ensures units { units self.new ≡ units self.old }
        ensures capacity { capacity self.old ≤ capacity self.new };

    /// Makes an edit in memory that was allocated for it, so that no allocation can fail. The capacity does not shrink.
    ///
    /// The texts of this library put the characters of the reply into `space`, which [`Reply::Chars`] then holds. If
    /// the reply is another, they drop it.
    ///
    /// # Requires
    ///
    /// The text has the capacity that the edit needs, and the vector is empty and has capacity for the characters of
    /// the reply, as after [`TextEdit::prepare`] for this edit.
    fn apply(&mut self, edit: Edit<'_>, space: Vec<char>) -> Reply
        requires ready { is_ready self.old edit }
        requires space { HasReplySpace (text self.old) edit space }
        ensures text { text self.new ≡ (step (text self.old) edit.entry).0 }
        ensures reply { reply_data result ≡ (step (text self.old) edit.entry).1 }
        ensures capacity { capacity self.old ≤ capacity self.new };
}
