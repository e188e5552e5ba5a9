//! The types of resources: their names, and how many resources of each there are.

ghost use Rattle.std.specs.Prelude.{◌≤◌, IfOk, vec_len};

use crate::texts::Name;
use std::alloc::Global;
use wide_error::OutOfMemory;

// The numbers of types that Windows has, and their names.
static KINDS: [(u16, &str); 21] = [
    (1, "cursor"),
    (2, "bitmap"),
    (3, "icon"),
    (4, "menu"),
    (5, "dialog"),
    (6, "string table"),
    (7, "font directory"),
    (8, "font"),
    (9, "accelerators"),
    (10, "data"),
    (11, "message table"),
    (12, "cursor group"),
    (14, "icon group"),
    (16, "version"),
    (17, "dialog include"),
    (19, "plug and play"),
    (20, "VxD"),
    (21, "animated cursor"),
    (22, "animated icon"),
    (23, "HTML"),
    (24, "manifest"),
];

/// Returns the name of a type by its number, such as `icon`, or `None` if Windows has no such type.
pub fn kind_name(number: u16) -> Option<&'static str> {
    for (known, name) in &KINDS {
        if *known == number {
            return Some(*name);
        }
    }
    None
}

/// A type, and how many resources have it.
#[derive(Clone, Copy, Debug, PartialEq, Eq)]
pub struct KindCount<'a> {
    /// The type.
    pub kind: Name<'a>,
    /// How many.
    pub count: usize,
}

/// Returns each type once, with how often it is among these: numbers first, in order, and then texts by their bytes.
///
/// # Errors
///
/// If an allocation fails.
pub fn count_kinds<'a>(
    alloc: Global,
    kinds: &mut Vec<Name<'a>>,
) -> Result<Vec<KindCount<'a>>, OutOfMemory>
    ensures { IfOk result (λ counts. vec_len counts ≤ vec_len kinds.old) }
{
    kinds.sort()?;
    let mut counts: Vec<KindCount<'a>> = Vec::new(alloc);
    for kind in kinds.iter() {
        match counts.last_mut() {
            Some(last) if last.kind == *kind => last.count = last.count.saturating_add(1),
            _ => counts.push(KindCount {
                kind: *kind,
                count: 1,
            })?,
        }
    }
    Ok(counts)
}
