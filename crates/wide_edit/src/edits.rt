//! Edits and their replies.

use std::error::Error;
use std::fmt;
use wide_error::OutOfMemory;

/// An edit of a text.
///
/// Indices and ends of ranges count characters, that is Unicode scalar values (Unicode Standard, D76), from 0, in the
/// text as it is before the edit. An edit whose reply is [`Reply::BadPlace`] or [`Reply::BadRange`] is rejected and
/// changes nothing.
///
/// # Example
///
/// ```
/// let mut text = Utf16String::from_str(rt.alloc(), "a😀b")?;
/// let edits = [Edit::Remove(1), Edit::Insert(1, 'é'), Edit::PushStr("!")];
/// run(rt.alloc(), &mut text, &edits, &mut Vec::new(rt.alloc()))?;
/// assert!(rt; text.as_utfstr().eq_str("aéb!"));
/// ```
#[derive(Clone, Copy, Debug, PartialEq, Eq)]
pub enum Edit<'a> {
    /// Appends the character. The reply is [`Reply::Done`].
    Push(char),
    /// Appends the text. The reply is [`Reply::Done`].
    PushStr(&'a str),
    /// Removes the last character. The reply is [`Reply::Char`], or [`Reply::NoChar`] if the text is empty.
    Pop,
    /// Shortens the text to this many characters. It changes nothing if the text is not longer. The reply is
    /// [`Reply::Done`].
    Truncate(usize),
    /// Inserts the character at this index, or at the end if the index is the number of characters. The reply is
    /// [`Reply::Done`], or [`Reply::BadPlace`] if the index is past the end.
    Insert(usize, char),
    /// Inserts the text at this index, or at the end if the index is the number of characters. The reply is
    /// [`Reply::Done`], or [`Reply::BadPlace`] if the index is past the end.
    InsertStr(usize, &'a str),
    /// Removes the character at this index. The reply is [`Reply::Char`], or [`Reply::BadPlace`] if there is none.
    Remove(usize),
    /// Retains the characters that occur in the list, in order. The reply is [`Reply::Done`].
    Retain(&'a [char]),
    /// Removes the characters from the first index up to, but not including, the second. The reply is [`Reply::Chars`],
    /// or [`Reply::BadRange`] if the range starts after its end or ends past the end of the text.
    Drain(usize, usize),
    /// Replaces the characters from the first index up to, but not including, the second by the text. The reply is
    /// [`Reply::Done`], or [`Reply::BadRange`] if the range starts after its end or ends past the end of the text.
    Replace(usize, usize, &'a str),
    /// Removes the characters from this index on. The reply is [`Reply::Chars`], or [`Reply::BadPlace`] if the index is
    /// past the end.
    SplitOff(usize),
    /// Removes all characters. The reply is [`Reply::Done`].
    Clear,
}

/// The reply of an edit.
///
/// # Example
///
/// ```
/// let mut text = Utf16String::from_str(rt.alloc(), "a😀")?;
/// let edits = [Edit::Remove(1), Edit::Remove(7)];
/// let mut replies = Vec::new(rt.alloc());
/// run(rt.alloc(), &mut text, &edits, &mut replies)?;
/// assert!(rt; replies.as_slice() == [Reply::Char('😀'), Reply::BadPlace].as_slice());
/// ```
#[derive(Debug, PartialEq, Eq, Drop)]
pub enum Reply {
    /// The edit was made, and returns no characters.
    Done,
    /// The character that was removed.
    Char(char),
    /// There was no character to remove.
    NoChar,
    /// The characters that were removed, in order.
    Chars(Vec<char>),
    /// The index is past the end. Nothing has changed.
    BadPlace,
    /// The range starts after its end, or ends past the end of the text. Nothing has changed.
    BadRange,
}

/// An allocation failed after the first `done` edits of a list were made.
///
/// # Example
///
/// ```
/// let mut text = Utf16String::from_str(rt.alloc(), "Hi")?;
/// let edits = [Edit::Push('!'), Edit::PushStr("😀")];
/// let done = match run(rt.alloc(), &mut text, &edits, &mut Vec::new(rt.alloc())) {
///     Ok(()) => edits.len(),
///     Err(Stopped { done }) => done,
/// };
/// assert!(rt; done == 2);
/// ```
#[derive(Clone, Copy, Debug, PartialEq, Eq)]
pub struct Stopped {
    /// The number of edits that were made and have their replies. The next edit has changed nothing.
    pub done: usize,
}

impl fmt::Display for Stopped {
    ghost use Rattle.std.specs.Prelude.{Some};
    ghost use Rattle.wide_error.specs.Texts.{out_of_memory_text};

    ghost output = { λ _. Some out_of_memory_text };

    fn fmt<W: fmt::Write>(&self, f: &mut fmt::Formatter<W>) -> fmt::Result {
        fmt::Display::fmt(&OutOfMemory, f)
    }
}

impl Error for Stopped {}
