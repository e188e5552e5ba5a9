//! Edits of a plain list of characters, which only use std's calls on vectors: the reference implementation for edits
//! of strings.
use std::alloc::{AllocError, Global};
use widestring::edit::{Edit, Reply};

fn insert(list: &mut Vec<char>, offset: usize, c: char) -> Result<Reply, AllocError> {
    if offset > list.len() {
        return Ok(Reply::BadPlace);
    }
    list.insert(offset, c)?;
    Ok(Reply::Done)
}

fn remove(list: &mut Vec<char>, offset: usize) -> Reply {
    if offset < list.len() {
        Reply::Char(list.remove(offset))
    } else {
        Reply::BadPlace
    }
}

fn split_off(list: &mut Vec<char>, offset: usize) -> Result<Reply, AllocError> {
    if offset > list.len() {
        return Ok(Reply::BadPlace);
    }
    Ok(Reply::Chars(list.split_off(offset)?))
}

fn drain(alloc: Global, list: &mut Vec<char>, from: usize, to: usize) -> Result<Reply, AllocError> {
    if from > to || to > list.len() {
        return Ok(Reply::BadRange);
    }
    Ok(Reply::Chars(list.drain(from..to).collect(alloc)?))
}

fn pop(list: &mut Vec<char>) -> Reply {
    match list.pop() {
        Some(c) => Reply::Char(c),
        None => Reply::NoChar,
    }
}

fn retain(list: &mut Vec<char>, keep: &[char]) -> Reply {
    list.retain(|c| keep.contains(c));
    Reply::Done
}

fn push(list: &mut Vec<char>, c: char) -> Result<Reply, AllocError> {
    list.push(c)?;
    Ok(Reply::Done)
}

fn extend(list: &mut Vec<char>, text: &str) -> Result<Reply, AllocError> {
    list.extend(text.chars())?;
    Ok(Reply::Done)
}

fn truncate(list: &mut Vec<char>, count: usize) -> Reply {
    list.truncate(count);
    Reply::Done
}

fn replace_in(
    list: &mut Vec<char>,
    from: usize,
    to: usize,
    text: &str,
    bad: Reply,
) -> Result<Reply, AllocError> {
    if from > to || to > list.len() {
        return Ok(bad);
    }
    drop(list.splice(from..to, text.chars())?);
    Ok(Reply::Done)
}

// Makes an edit of a list of characters, and returns its reply.
pub fn edit_list(alloc: Global, list: &mut Vec<char>, edit: Edit<'_>) -> Result<Reply, AllocError> {
    match edit {
        Edit::Push(c) => push(list, c),
        Edit::PushStr(text) => extend(list, text),
        Edit::Pop => Ok(pop(list)),
        Edit::Truncate(count) => Ok(truncate(list, count)),
        Edit::Retain(keep) => Ok(retain(list, keep)),
        Edit::Clear => Ok(truncate(list, 0)),
        Edit::Drain(from, to) => drain(alloc, list, from, to),
        Edit::Replace(from, to, text) => replace_in(list, from, to, text, Reply::BadRange),
        Edit::Insert(offset, c) => insert(list, offset, c),
        Edit::InsertStr(offset, text) => replace_in(list, offset, offset, text, Reply::BadPlace),
        Edit::Remove(offset) => Ok(remove(list, offset)),
        Edit::SplitOff(offset) => split_off(list, offset),
    }
}
