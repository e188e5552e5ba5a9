//! PE files: the tree of resources in their resource section. It has three levels, type, name and language.

use crate::numbers::{part_of, size_at, unit_at};
use crate::texts::Name;
use std::alloc::Global;
use std::fmt;
use wide_error::OutOfMemory;

// The length of a directory's fields before its entries, and of an entry, in bytes.
const DIRECTORY_LEN: usize = 16;

const ENTRY_LEN: usize = 8;

// How many entries a directory may have.
const MOST_ENTRIES: usize = 0x2_0000;

// The length of a section's header in bytes.
const SECTION_LEN: usize = 40;

// The bit of an entry's name that says it is a text, and of its offset that says a directory is there.
const HIGH_BIT: u32 = 0x8000_0000;

/// Why the resources of an executable can't be read.
#[derive(Clone, Copy, Debug, PartialEq, Eq)]
pub enum PeDamage {
    /// Its header is cut off.
    NoHeader,
    /// It is an executable of another kind.
    NoPe,
    /// Its resources are not where its header says.
    NoSection,
    /// The tree of resources is cut off at this byte of the section.
    Cut(usize),
    /// The tree has more entries than the section could hold.
    Entries,
}

impl fmt::Display for PeDamage {
    fn fmt<W: fmt::Write>(&self, f: &mut fmt::Formatter<W>) -> fmt::Result {
        match self {
            PeDamage::NoHeader => f.write_str("its header is cut off"),
            PeDamage::NoPe => f.write_str("an executable without a PE header, which is not read"),
            PeDamage::NoSection => f.write_str("its resources are not where its header says"),
            PeDamage::Cut(at) => {
                write!(
                    f,
                    "the tree of its resources is cut off at byte {at} of their section"
                )
            }
            PeDamage::Entries => f.write_str(
                "the tree of its resources has more entries than bytes",
            ),
        }
    }
}

/// The resource section of an executable.
#[derive(Clone, Copy, Debug)]
pub struct Executable<'a> {
    // The file, and its section of resources from its beginning to the end of the file.
    file: &'a [u8],
    section: &'a [u8],
    // The headers of all sections.
    headers: &'a [u8],
}

/// The resources of an executable, and what is wrong in their tree.
#[derive(Drop)]
pub struct Leaves<'a> {
    /// The resources.
    pub found: Vec<Leaf<'a>>,
    /// What is wrong.
    pub damages: Vec<PeDamage>,
    // How many more entries may be read.
    left: usize,
}

/// A resource of an executable.
#[derive(Clone, Copy, Debug, PartialEq, Eq)]
pub struct Leaf<'a> {
    /// Its type.
    pub kind: Name<'a>,
    /// Its name.
    pub name: Name<'a>,
    /// Its language.
    pub language: u16,
    /// The offset of its contents in the file.
    pub at: usize,
    /// Its contents.
    pub contents: &'a [u8],
}

// Returns the offset in the file of an address, by the headers of the sections.
fn offset_of(headers: &[u8], address: u32) -> Option<usize> {
    for header in headers.as_chunks::<SECTION_LEN>().0 {
        let virtual_address = size_at(header, 12)?;
        let len = size_at(header, 16)?;
        let start = size_at(header, 20)?;
        if let Some(within) = address.checked_sub(virtual_address) {
            if within < len {
                return Some(start as usize + within as usize);
            }
        }
    }
    None
}

// Returns the address of the resources, and the headers of the sections; or `None` for the address if there are no
// resources.
fn find_section(file: &[u8]) -> Result<Option<(u32, &[u8])>, PeDamage> {
    let start = size_at(file, 0x3c).ok_or(PeDamage::NoHeader)? as usize;
    if part_of(file, start, 4) != Some(b"PE\0\0".as_slice()) {
        return Err(PeDamage::NoPe);
    }
    let header = part_of(file, start + 4, 20).ok_or(PeDamage::NoHeader)?;
    let count = usize::from(unit_at(header, 2).unwrap_or(0));
    let optional_len = usize::from(unit_at(header, 16).unwrap_or(0));
    let optional_at = start + 24;
    let optional = part_of(file, optional_at, optional_len).ok_or(PeDamage::NoHeader)?;
    let headers_at = optional_at + optional_len;
    let headers = part_of(file, headers_at, count * SECTION_LEN).ok_or(PeDamage::NoHeader)?;
    // The second and third of the directories' fields are those of resources.
    let at = if unit_at(optional, 0) == Some(0x20b) {
        108
    } else {
        92
    };
    let directories = size_at(optional, at).unwrap_or(0);
    if directories < 3 {
        return Ok(None);
    }
    let address = size_at(optional, at + 20).unwrap_or(0);
    Ok(if address == 0 {
        None
    } else {
        Some((address, headers))
    })
}

/// Finds the resources of an executable, a file that begins with `MZ`, or returns `None` if it has none.
///
/// # Errors
///
/// Why they can't be read.
pub fn open_executable(file: &[u8]) -> Result<Option<Executable<'_>>, PeDamage> {
    let Some((address, headers)) = find_section(file)? else {
        return Ok(None);
    };
    let at = offset_of(headers, address).ok_or(PeDamage::NoSection)?;
    let section = file.get(at..).ok_or(PeDamage::NoSection)?;
    Ok(Some(Executable {
        file,
        section,
        headers,
    }))
}

impl Leaves<'_> {
    // Counts an entry that is read, unless too many were. Returns whether it may be read.
    fn count(&mut self) -> Result<bool, OutOfMemory> {
        if self.left == 0 {
            return Ok(false);
        }
        self.left -= 1;
        if self.left == 0 {
            self.damages.push(PeDamage::Entries)?;
        }
        Ok(self.left > 0)
    }
}

// An entry of a directory: its name, and what it leads to.
#[derive(Clone, Copy)]
struct Entry {
    name: u32,
    target: u32,
}

impl<'a> Executable<'a> {
    // Returns the entry of this index in a directory, or `None` behind the last one.
    fn entry(&self, directory: usize, index: usize) -> Result<Option<Entry>, PeDamage> {
        let cut = PeDamage::Cut(directory);
        let named = unit_at(self.section, directory.saturating_add(12)).ok_or(cut)?;
        let numbered = unit_at(self.section, directory.saturating_add(14)).ok_or(cut)?;
        if index >= usize::from(named) + usize::from(numbered) {
            return Ok(None);
        }
        let at = directory
            .saturating_add(DIRECTORY_LEN)
            .saturating_add(index.saturating_mul(ENTRY_LEN));
        let fields = part_of(self.section, at, ENTRY_LEN).ok_or(PeDamage::Cut(at))?;
        Ok(Some(Entry {
            name: size_at(fields, 0).unwrap_or(0),
            target: size_at(fields, 4).unwrap_or(0),
        }))
    }

    // Returns the name of an entry.
    fn name_of(&self, name: u32) -> Result<Name<'a>, PeDamage> {
        if name & HIGH_BIT == 0 {
            return Ok(Name::Number((name & 0xffff) as u16));
        }
        let at = (name & !HIGH_BIT) as usize;
        let len = unit_at(self.section, at).ok_or(PeDamage::Cut(at))?;
        let text = part_of(self.section, at.saturating_add(2), 2 * usize::from(len));
        Ok(Name::Text(text.ok_or(PeDamage::Cut(at))?))
    }

    // Returns the resource of three entries.
    fn leaf(&self, kind: u32, name: u32, language: Entry) -> Result<Leaf<'a>, PeDamage> {
        let at = language.target as usize;
        let fields = part_of(self.section, at, 16).ok_or(PeDamage::Cut(at))?;
        let address = size_at(fields, 0).unwrap_or(0);
        let len = size_at(fields, 4).unwrap_or(0) as usize;
        let start = offset_of(self.headers, address).ok_or(PeDamage::Cut(at))?;
        let contents = part_of(self.file, start, len).ok_or(PeDamage::Cut(at))?;
        Ok(Leaf {
            kind: self.name_of(kind)?,
            name: self.name_of(name)?,
            language: (language.name & 0xffff) as u16,
            at: start,
            contents,
        })
    }

    // Returns the entry of this index in a directory, or `None` behind the last one. Damage and too many entries end the
    // directory too.
    fn next_entry(
        &self,
        leaves: &mut Leaves<'a>,
        directory: usize,
        index: usize,
    ) -> Result<Option<Entry>, OutOfMemory> {
        match self.entry(directory, index) {
            Ok(Some(entry)) => Ok(if leaves.count()? { Some(entry) } else { None }),
            Ok(None) => Ok(None),
            Err(damage) => {
                leaves.damages.push(damage)?;
                Ok(None)
            }
        }
    }

    // Returns where the directory of an entry is.
    fn directory_of(
        &self,
        leaves: &mut Leaves<'a>,
        entry: Entry,
    ) -> Result<Option<usize>, OutOfMemory> {
        let at = (entry.target & !HIGH_BIT) as usize;
        if entry.target & HIGH_BIT == 0 {
            leaves.damages.push(PeDamage::Cut(at))?;
            return Ok(None);
        }
        Ok(Some(at))
    }

    // Adds the resources of a name, one for each language.
    fn read_languages(
        &self,
        leaves: &mut Leaves<'a>,
        kind: Entry,
        name: Entry,
    ) -> Result<(), OutOfMemory> {
        let Some(directory) = self.directory_of(leaves, name)? else {
            return Ok(());
        };
        for index in 0..MOST_ENTRIES {
            let Some(language) = self.next_entry(leaves, directory, index)? else {
                break;
            };
            match self.leaf(kind.name, name.name, language) {
                Ok(leaf) => leaves.found.push(leaf)?,
                Err(damage) => leaves.damages.push(damage)?,
            }
        }
        Ok(())
    }

    // Adds the resources of a type.
    fn read_names(&self, leaves: &mut Leaves<'a>, kind: Entry) -> Result<(), OutOfMemory> {
        let Some(directory) = self.directory_of(leaves, kind)? else {
            return Ok(());
        };
        for index in 0..MOST_ENTRIES {
            let Some(name) = self.next_entry(leaves, directory, index)? else {
                break;
            };
            self.read_languages(leaves, kind, name)?;
        }
        Ok(())
    }

    /// Returns all resources, and what is wrong in their tree. No more entries are read than the section could hold, so a
    /// tree that leads back into itself ends too.
    ///
    /// # Errors
    ///
    /// If an allocation fails.
    pub fn leaves(&self, alloc: Global) -> Result<Leaves<'a>, OutOfMemory> {
        let mut leaves = Leaves {
            found: Vec::new(alloc),
            damages: Vec::new(alloc),
            left: self.section.len() / ENTRY_LEN + 1,
        };
        for index in 0..MOST_ENTRIES {
            let Some(kind) = self.next_entry(&mut leaves, 0, index)? else {
                break;
            };
            self.read_names(&mut leaves, kind)?;
        }
        Ok(leaves)
    }
}
