//! Message tables: blocks of messages with consecutive numbers.

ghost use Rattle.std.specs.Prelude.{◌≡◌, ◌+◌, ◌<◌, ◌≤◌, ◌↔◌, IfOk, IfSome, IsNone, IsSome, OnOk, Some, drop, length, take, vec_len};
ghost use Rattle.std.specs.Int.{from_le_bytes, w16, w32};
ghost use Rattle.wide_resources.specs.declared.texts.TextForm.TheVariants.{CodePage, Units, Utf8};

use crate::cursor::Cursor;
use crate::numbers::{part_of, size_at, unit_at};
use crate::texts::{Found, Text, TextDamage, TextForm};
use wide_error::OutOfMemory;

// The length of a block's fields in bytes.
const BLOCK_LEN: usize = 12;

// The length of the fields before a message in bytes.
const FIELDS_LEN: usize = 4;

// Returns a text without the zeros that fill its last bytes.
fn without_end(bytes: &[u8], form: TextForm) -> &[u8]
    ensures { result.now ≡ take (length result.now) bytes.now }
{
    let zeros = bytes.iter().rev().take_while(|byte| **byte == 0).count();
    let len = bytes.len().saturating_sub(zeros);
    // The last character of a text in units may have a zero byte.
    let len = if form == TextForm::Units {
        len.next_multiple_of(2).min(bytes.len())
    } else {
        len
    };
    &bytes[..len.min(bytes.len())]
}

// A block: the numbers of its first and last message, and where the first one is.
#[derive(Clone, Copy)]
struct Block {
    low: u32,
    high: u32,
    at: usize,
}

// Reads the fields of a block.
fn block_at(contents: &[u8], at: usize) -> Option<Block>
    ensures low { IfSome result (λ block. block.low ≡ from_le_bytes w32 (take 4 (drop at contents.now))) }
    ensures high { IfSome result (λ block. block.high ≡ from_le_bytes w32 (take 4 (drop (at + 4) contents.now))) }
    ensures first { IfSome result (λ block. block.at ≡ from_le_bytes w32 (take 4 (drop (at + 8) contents.now))) }
    ensures found { IsSome result → at + 12 ≤ length contents.now }
{
    Some(Block {
        low: size_at(contents, at)?,
        high: size_at(contents, at.saturating_add(4))?,
        at: size_at(contents, at.saturating_add(8))? as usize,
    })
}

// A message: its bytes, its flags, and where the next one is.
#[derive(Clone, Copy)]
struct Message<'a> {
    bytes: &'a [u8],
    flags: u16,
    end: usize,
}

// Reads a message, which has at least its fields.
fn message_at(contents: &[u8], at: usize) -> Option<Message<'_>>
    ensures flags { IfSome result (λ message. message.flags ≡ from_le_bytes w16 (take 2 (drop (at + 2) contents.now))) }
    ensures end { IfSome result (λ message. message.end ≡ at + from_le_bytes w16 (take 2 (drop at contents.now))) }
    ensures within { IfSome result (λ message. message.end ≤ length contents.now) }
    ensures bytes { IfSome result (λ message. message.end ≡ at + 4 + length message.bytes.now) }
{
    let len = usize::from(unit_at(contents, at)?);
    let flags = unit_at(contents, at.saturating_add(2))?;
    let message = part_of(contents, at, len)?;
    Some(Message {
        bytes: message.get(FIELDS_LEN..)?,
        flags,
        end: at.saturating_add(len),
    })
}

// Returns the form of a message with these flags, if they are known.
fn form_of(flags: u16) -> Option<TextForm>
    ensures code_page { flags ≡ 0 → result ≡ Some CodePage }
    ensures units { flags ≡ 1 → result ≡ Some Units }
    ensures utf8 { flags ≡ 2 → result ≡ Some Utf8 }
    ensures none { IsNone result ↔ (3 ≤ flags) }
{
    match flags {
        0 => Some(TextForm::CodePage),
        1 => Some(TextForm::Units),
        2 => Some(TextForm::Utf8),
        _ => None,
    }
}

// Adds the text of the message at a byte.
fn add_message<'a>(
    message: &Message<'a>,
    at: usize,
    id: u32,
    found: &mut Found<'a>,
) -> Result<(), OutOfMemory>
    ensures text { message.now.flags < 3 → OnOk result (vec_len found.new.texts ≡ vec_len found.old.texts + 1) }
    ensures noted { 3 ≤ message.now.flags → OnOk result (0 < vec_len found.new.damages) }
{
    let Some(form) = form_of(message.flags) else {
        return found.note(TextDamage::Flags(at, message.flags));
    };
    let bytes = without_end(message.bytes, form);
    let has_half = form == TextForm::Units && bytes.len() % 2 == 1;
    found.texts.push(Text {
        id,
        name: &[],
        bytes,
        form,
    })?;
    if has_half {
        found.note(TextDamage::HalfUnit(at))
    } else {
        Ok(())
    }
}

// How far a table is read: how many more messages may be, where the last one ends, and what is wrong in a block.
#[derive(Clone, Copy)]
struct Progress {
    left: usize,
    end: usize,
    damage: Option<TextDamage>,
}

// Adds the messages of a block, as long as any more may be.
fn read_block<'a>(
    contents: &'a [u8],
    block: Block,
    before: Progress,
    found: &mut Found<'a>,
) -> Result<Progress, OutOfMemory> {
    let mut progress = before;
    let (mut at, mut id) = (block.at, block.low);
    for _ in 0..contents.len() {
        if progress.left == 0 {
            progress.damage = Some(TextDamage::Messages);
            break;
        }
        let Some(message) = message_at(contents, at) else {
            progress.damage = Some(TextDamage::Cut(at.min(contents.len())));
            break;
        };
        add_message(&message, at, id, found)?;
        progress.left = progress.left.saturating_sub(1);
        progress.end = progress.end.max(message.end);
        if id >= block.high {
            break;
        }
        at = message.end;
        id = id.saturating_add(1);
    }
    Ok(progress)
}

// Adds the messages of a block whose fields are at a byte, and notes what is wrong in it.
fn read_fields<'a>(
    contents: &'a [u8],
    at: usize,
    before: Progress,
    found: &mut Found<'a>,
) -> Result<Progress, OutOfMemory>
    ensures cut { length contents.now < at + 12 → IfOk result (λ progress. IsSome progress.damage) }
    ensures backwards { from_le_bytes w32 (take 4 (drop (at + 4) contents.now)) < from_le_bytes w32 (take 4 (drop at contents.now)) → IfOk result (λ progress. IsSome progress.damage) }
{
    let Some(block) = block_at(contents, at) else {
        let damage = TextDamage::Cut(at.min(contents.len()));
        return Ok(Progress {
            left: 0,
            damage: Some(damage),
            ..before
        });
    };
    if block.low > block.high {
        let damage = TextDamage::Block(at, block.low, block.high);
        return Ok(Progress {
            damage: Some(damage),
            ..before
        });
    }
    read_block(contents, block, before, found)
}

// Adds the messages of so many blocks, and returns where the last message ends.
fn read_blocks<'a>(
    contents: &'a [u8],
    count: u32,
    found: &mut Found<'a>,
) -> Result<usize, OutOfMemory> {
    let mut progress = Progress {
        left: contents.len() / FIELDS_LEN,
        end: 4,
        damage: None,
    };
    let mut at = 4usize;
    for _ in 0..count {
        progress.damage = None;
        progress.end = progress.end.max(at.saturating_add(BLOCK_LEN));
        progress = read_fields(contents, at, progress, found)?;
        if let Some(damage) = progress.damage {
            found.note(damage)?;
            if progress.left == 0 {
                break;
            }
        }
        at = at.saturating_add(BLOCK_LEN);
    }
    Ok(progress.end)
}

/// Adds the messages of a table. Those of two blocks may share bytes; all together are no more than the bytes could hold.
pub fn read_messages<'a>(contents: &'a [u8], found: &mut Found<'a>) -> Result<(), OutOfMemory>
    ensures cut { length contents.now < 4 → OnOk result (0 < vec_len found.new.damages) }
{
    let Some(count) = size_at(contents, 0) else {
        return found.note(TextDamage::Cut(contents.len()));
    };
    let end = read_blocks(contents, count, found)?;
    // What is damaged may leave bytes that are no others.
    if !found.damages.is_empty() {
        return Ok(());
    }
    let mut cursor = Cursor::new(contents);
    let _table = cursor.take(end);
    found.note_rest(cursor)
}
