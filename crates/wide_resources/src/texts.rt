//! The texts in the contents of a resource.

ghost use Rattle.std.specs.Prelude.{◌≡◌, ◌<◌, ◌↔◌, ◌++◌, [], ◌∷◌, ◌⊎◌, if◌then◌else◌, nat_lt, IsTrue, OnErr, OnOk, length, vec_len};
ghost use Rattle.wide_resources.specs.Contents.{IsPadding};

use crate::cursor::Cursor;
use crate::dialogs::read_dialog;
use crate::menus::read_menu;
use crate::messages::read_messages;
use crate::strings::read_strings;
use crate::version::read_version;
use std::alloc::Global;
use std::fmt;
use wide_error::OutOfMemory;

/// The name of a resource or of its type.
#[derive(Clone, Copy, Debug, PartialEq, Eq, PartialOrd, Ord)]
pub enum Name<'a> {
    /// A number.
    Number(u16),
    /// A text, as the bytes of its units.
    Text(&'a [u8]),
}

/// The types of resources that have texts.
#[derive(Clone, Copy, Debug, PartialEq, Eq)]
pub enum TextKind {
    /// A menu.
    Menu,
    /// A dialog.
    Dialog,
    /// Sixteen strings.
    Strings,
    /// Messages.
    Messages,
    /// What version a file has.
    Version,
}

// The numbers of types.
static KINDS: [(u16, TextKind); 5] = [
    (4, TextKind::Menu),
    (5, TextKind::Dialog),
    (6, TextKind::Strings),
    (11, TextKind::Messages),
    (16, TextKind::Version),
];

/// Returns the type with this name, if it has texts.
pub fn kind_named(name: Name<'_>) -> Option<TextKind> {
    let Name::Number(number) = name else {
        return None;
    };
    for (known, kind) in &KINDS {
        if *known == number {
            return Some(*kind);
        }
    }
    None
}

/// How the bytes of a text are to be read.
#[derive(Clone, Copy, Debug, PartialEq, Eq)]
pub enum TextForm {
    /// As units of UTF-16, little endian.
    Units,
    /// As characters of a code page, which the resource does not name.
    CodePage,
    /// As UTF-8.
    Utf8,
}

/// A text in a resource.
#[derive(Clone, Copy, Debug, PartialEq, Eq)]
pub struct Text<'a> {
    /// The number of the text: of a string, a message, a menu's item or a dialog's control, or 0.
    pub id: u32,
    /// The name of the text, as the bytes of its units, if it has one.
    pub name: &'a [u8],
    /// The bytes of the text.
    pub bytes: &'a [u8],
    /// How they are to be read.
    pub form: TextForm,
}

impl<'a> Text<'a> {
    // Returns a text of units, which has no name.
    pub fn of_units(id: u32, bytes: &'a [u8]) -> Text<'a>
        ensures id { result.id ≡ id }
        ensures bytes { result.bytes.now ≡ bytes.now }
    {
        Text {
            id,
            name: &[],
            bytes,
            form: TextForm::Units,
        }
    }
}

/// What is wrong in the contents of a resource. Offsets are those of bytes in the contents.
#[derive(Clone, Copy, Debug, PartialEq, Eq)]
pub enum TextDamage {
    /// A string table has no such name.
    TableName(u16),
    /// A string table is named by a text.
    TableText,
    /// The contents end in this string, of which so many bytes are missing.
    String(usize, usize),
    /// From this byte on, so many follow the texts.
    Behind(usize, usize),
    /// The contents are cut off at this byte.
    Cut(usize),
    /// There is no such version of the format.
    Format(u16),
    /// More messages are named than the contents have.
    Messages,
    /// The block of messages at this byte has a first number that is greater than its last one.
    Block(usize, u32, u32),
    /// The message at this byte has flags that are not known.
    Flags(usize, u16),
    /// The message at this byte ends in half a unit.
    HalfUnit(usize),
    /// The value at this byte has another length than this one.
    ValueLength(usize, u16),
}

impl fmt::Display for TextDamage {
    fn fmt<W: fmt::Write>(&self, f: &mut fmt::Formatter<W>) -> fmt::Result {
        match self {
            TextDamage::TableName(name) => {
                write!(f, "a string table is named 1 to 4096, not {name}")
            }
            TextDamage::TableText => {
                f.write_str("a string table is named by a number, not by a text")
            }
            TextDamage::String(id, missing) => {
                write!(f, "ends in string {id}, bytes missing: {missing}")
            }
            TextDamage::Behind(at, count) => {
                write!(f, "bytes behind its texts, from its byte {at}: {count}")
            }
            TextDamage::Cut(at) => write!(f, "its contents are cut off at their byte {at}"),
            TextDamage::Format(version) => write!(f, "its format has no version {version}"),
            TextDamage::Messages => f.write_str("it has fewer messages than it says"),
            TextDamage::Block(at, low, high) => {
                write!(
                    f,
                    "the block at its byte {at} begins with message {low} and ends with {high}"
                )
            }
            TextDamage::Flags(at, flags) => {
                write!(
                    f,
                    "the message at its byte {at} has unknown flags {flags:04X}"
                )
            }
            TextDamage::HalfUnit(at) => {
                write!(f, "the message at its byte {at} ends in half a unit")
            }
            TextDamage::ValueLength(at, len) => {
                write!(
                    f,
                    "the value at its byte {at} does not have the length {len}"
                )
            }
        }
    }
}

// Returns whether bytes are nothing but the zeros that fill a number of 32 bits.
pub fn is_padding(bytes: &[u8]) -> bool
    ensures { IsTrue result ↔ IsPadding bytes.now }
{
    matches!(bytes, [] | [0] | [0, 0] | [0, 0, 0])
}

/// What is found in the contents of a resource: its texts, and what is wrong in it.
#[derive(Drop)]
pub struct Found<'a> {
    /// The texts.
    pub texts: Vec<Text<'a>>,
    /// What is wrong.
    pub damages: Vec<TextDamage>,
}

impl<'a> Found<'a> {
    /// Returns no texts.
    pub fn new(alloc: Global) -> Found<'a>
        ensures texts { vec_len result.texts ≡ 0 }
        ensures damages { vec_len result.damages ≡ 0 }
    {
        Found {
            texts: Vec::new(alloc),
            damages: Vec::new(alloc),
        }
    }

    // Adds a text, unless it is empty.
    pub fn add(&mut self, text: Text<'a>) -> Result<(), OutOfMemory>
        ensures texts { OnOk result (self.new.texts.items ≡ (if nat_lt 0 (length text.entry.bytes.now) then self.old.texts.items ++ text.entry ∷ [] else self.old.texts.items)) }
        ensures damages { self.new.damages.items ≡ self.old.damages.items }
    {
        if !text.bytes.is_empty() {
            self.texts.push(text)?;
        }
        Ok(())
    }

    // Adds something that is wrong.
    pub fn note(&mut self, damage: TextDamage) -> Result<(), OutOfMemory>
        ensures damages { OnOk result (self.new.damages.items ≡ self.old.damages.items ++ damage ∷ []) }
        ensures noted { OnOk result (0 < vec_len self.new.damages) }
        ensures texts { self.new.texts.items ≡ self.old.texts.items }
    {
        Ok(self.damages.push(damage)?)
    }

    // Notes bytes that are left, unless they are padding.
    pub fn note_rest(&mut self, cursor: Cursor<'_>) -> Result<(), OutOfMemory>
        ensures noted { OnOk result (IsPadding cursor.entry.rest.now ⊎ (0 < vec_len self.new.damages)) }
        ensures texts { self.new.texts.items ≡ self.old.texts.items }
    {
        if is_padding(cursor.rest) {
            Ok(())
        } else {
            self.note(TextDamage::Behind(cursor.at(), cursor.rest.len()))
        }
    }
}

/// Adds the texts of a resource of this type, and what is wrong in it. What can be read behind that is read.
///
/// # Errors
///
/// If an allocation fails.
pub fn read_texts<'a>(
    kind: TextKind,
    name: Name<'a>,
    contents: &'a [u8],
    found: &mut Found<'a>,
) -> Result<(), OutOfMemory> {
    match kind {
        TextKind::Menu => read_menu(contents, found),
        TextKind::Dialog => read_dialog(contents, found),
        TextKind::Strings => read_strings(name, contents, found),
        TextKind::Messages => read_messages(contents, found),
        TextKind::Version => read_version(contents, found),
    }
}
