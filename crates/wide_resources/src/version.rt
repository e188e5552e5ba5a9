//! Version information: a tree of nodes, in which strings have names.

ghost use Rattle.std.specs.Prelude.{◌≡◌, ◌<◌, ◌≤◌, ◌*◌, ◌⊎◌, All, IfSome, IsFalse, IsTrue, OnOk, drop, length, take, vec_len};
ghost use Rattle.std.specs.Int.{from_le_bytes, w16};
ghost use Rattle.wide_resources.specs.Contents.{IsPadding};

use crate::cursor::Cursor;
use crate::texts::{Found, Text, TextDamage, TextForm, is_padding};
use wide_error::OutOfMemory;

// The name of the node below which strings are, as the bytes of its units.
const STRINGS: &[u8] = b"S\0t\0r\0i\0n\0g\0F\0i\0l\0e\0I\0n\0f\0o\0";

// The length of a node's sizes in bytes.
const SIZES_LEN: usize = 6;

// Bytes with nodes one behind the other, and the offset of the first one in the contents.
#[derive(Clone, Copy)]
struct Nodes<'a> {
    at: usize,
    bytes: &'a [u8],
}

// A node: its length, whether bytes of it are missing, its name, and the length and the kind that its value has by its
// fields. The body is the value with the nodes behind it.
#[derive(Clone, Copy)]
struct Node<'a> {
    len: usize,
    is_cut: bool,
    name: &'a [u8],
    value_len: u16,
    is_text: bool,
    at: usize,
    body: Cursor<'a>,
}

// Reads the fields of a node, whatever its length is.
fn read_node(nodes: Nodes<'_>) -> Option<Node<'_>>
    ensures len { IfSome result (λ node. node.len ≡ from_le_bytes w16 (take 2 nodes.entry.bytes.now)) }
    ensures cut { IfSome result (λ node. IsFalse node.is_cut → node.len ≤ length nodes.entry.bytes.now) }
{
    let mut cursor = Cursor::new(nodes.bytes);
    let len = usize::from(cursor.unit()?);
    let value_len = cursor.unit()?;
    let is_text = cursor.unit()? == 1;
    let name = cursor.text()?;
    cursor.align();
    Some(Node {
        len,
        is_cut: len > nodes.bytes.len(),
        name,
        value_len,
        is_text,
        at: nodes.at,
        body: cursor,
    })
}

// Splits off the first node.
fn split_node(nodes: Nodes<'_>) -> Option<(Node<'_>, Nodes<'_>)> {
    let len = usize::from(Cursor::new(nodes.bytes).unit()?);
    let part = Nodes {
        at: nodes.at,
        bytes: &nodes.bytes[..len.min(nodes.bytes.len())],
    };
    let node = Node {
        is_cut: len > nodes.bytes.len(),
        ..read_node(part)?
    };
    let beyond = len.next_multiple_of(4);
    let rest = Nodes {
        at: nodes.at.saturating_add(beyond),
        bytes: nodes.bytes.get(beyond..).unwrap_or_default(),
    };
    if len < SIZES_LEN {
        return None;
    }
    Some((node, rest))
}

impl<'a> Node<'a> {
    // Returns the offset of its value in the contents.
    fn value_at(&self) -> usize {
        self.at.saturating_add(self.body.at())
    }

    // Returns the nodes behind a value of so many bytes, and notes a value that is longer than the node.
    fn children(&self, size: usize, found: &mut Found<'a>) -> Result<Nodes<'a>, OutOfMemory> {
        let mut cursor = self.body;
        let most = cursor.rest.len();
        let _value = cursor.take(size.min(most));
        cursor.align();
        if size > most {
            found.note(TextDamage::ValueLength(self.value_at(), self.value_len))?;
        }
        Ok(Nodes {
            at: self.at.saturating_add(cursor.at()),
            bytes: cursor.rest,
        })
    }

    // Returns the nodes behind its value, whose length is in units if it is a text.
    fn nodes(&self, found: &mut Found<'a>) -> Result<Nodes<'a>, OutOfMemory> {
        let len = usize::from(self.value_len);
        self.children(if self.is_text { 2 * len } else { len }, found)
    }
}

// Returns a text without the NUL at its end, and what follows that.
fn up_to_nul(bytes: &[u8]) -> &[u8]
    ensures { result.now ≡ take (length result.now) bytes.now }
{
    let units = bytes.as_chunks::<2>().0;
    let len = units.iter().position(|unit| *unit == [0, 0]);
    let len = len.unwrap_or(units.len()).saturating_mul(2);
    bytes.get(..len).unwrap_or(bytes)
}

// Returns whether a value may have this length: that of its text in units or, as some compilers write it, in bytes, with
// zeros behind it or without them. Nothing but zeros may be behind it.
fn may_have_len(value: &[u8], text: &[u8], len: u16) -> bool
    ensures least { IsTrue result → length text.now ≤ 2 * len }
    ensures most { IsTrue result → len ≤ length value.now }
    ensures behind { IsTrue result → All (λ byte. byte ≡ 0) (drop (length text.now) value.now) }
{
    let (len, least) = (usize::from(len), text.len());
    let behind = value.get(least..).unwrap_or_default();
    let are_zero = behind.iter().all(|byte| *byte == 0);
    let are_units = (least <= 2 * len) & (2 * len <= value.len());
    let are_bytes = (least <= len) & (len <= value.len()) & (len % 2 == 0);
    are_zero & (are_units | are_bytes)
}

// Adds a string. Its text ends at its NUL, whatever the length of its value is, since compilers differ in that.
fn add_string<'a>(string: &Node<'a>, found: &mut Found<'a>) -> Result<(), OutOfMemory> {
    let value = string.body.rest;
    let bytes = up_to_nul(value);
    found.add(Text {
        id: 0,
        name: string.name,
        bytes,
        form: TextForm::Units,
    })?;
    if may_have_len(value, bytes, string.value_len) {
        Ok(())
    } else {
        found.note(TextDamage::ValueLength(string.value_at(), string.value_len))
    }
}

// Adds the strings of a table. Returns whether all nodes were read.
fn read_table<'a>(nodes: Nodes<'a>, found: &mut Found<'a>) -> Result<bool, OutOfMemory> {
    let mut rest = nodes;
    for _ in 0..nodes.bytes.len() {
        if is_padding(rest.bytes) {
            break;
        }
        let Some((string, beyond)) = split_node(rest) else {
            return Ok(false);
        };
        if string.is_cut {
            return Ok(false);
        }
        rest = beyond;
        add_string(&string, found)?;
    }
    Ok(true)
}

// Adds the strings of the tables of one language each. Returns whether all nodes were read.
fn read_tables<'a>(nodes: Nodes<'a>, found: &mut Found<'a>) -> Result<bool, OutOfMemory> {
    let mut rest = nodes;
    let mut is_whole = true;
    for _ in 0..nodes.bytes.len() {
        if is_padding(rest.bytes) {
            break;
        }
        let Some((table, beyond)) = split_node(rest) else {
            return Ok(false);
        };
        rest = beyond;
        let strings = table.nodes(found)?;
        is_whole &= read_table(strings, found)? & !table.is_cut;
    }
    Ok(is_whole)
}

// Adds the strings below the nodes of the root. Returns whether all nodes were read.
fn read_root<'a>(nodes: Nodes<'a>, found: &mut Found<'a>) -> Result<bool, OutOfMemory> {
    let mut rest = nodes;
    let mut is_whole = true;
    for _ in 0..nodes.bytes.len() {
        if is_padding(rest.bytes) {
            break;
        }
        let Some((node, beyond)) = split_node(rest) else {
            return Ok(false);
        };
        rest = beyond;
        is_whole &= !node.is_cut;
        if node.name == STRINGS {
            let tables = node.nodes(found)?;
            is_whole &= read_tables(tables, found)?;
        }
    }
    Ok(is_whole)
}

/// Adds the strings of version information that are not empty, by their names. They are read up to the end of the contents,
/// also if the length of the whole is too small or too great.
pub fn read_version<'a>(contents: &'a [u8], found: &mut Found<'a>) -> Result<(), OutOfMemory>
    // The length of the whole is that of the contents, but for padding, or else there is a damage.
    ensures behind { OnOk result (IsPadding (drop (from_le_bytes w16 (take 2 contents.now)) contents.now) ⊎ (0 < vec_len found.new.damages)) }
    ensures cut { OnOk result ((from_le_bytes w16 (take 2 contents.now) ≤ length contents.now) ⊎ (0 < vec_len found.new.damages)) }
{
    let whole = Nodes {
        at: 0,
        bytes: contents,
    };
    let Some(root) = read_node(whole) else {
        return found.note(TextDamage::Cut(contents.len()));
    };
    // The value of the root is a structure, whatever its kind is.
    let nodes = root.children(usize::from(root.value_len), found)?;
    let is_whole = read_root(nodes, found)?;
    let behind = contents.get(root.len..).unwrap_or_default();
    if !is_padding(behind) {
        return found.note(TextDamage::Behind(root.len, behind.len()));
    }
    if root.is_cut | !is_whole {
        return found.note(TextDamage::Cut(contents.len()));
    }
    Ok(())
}
