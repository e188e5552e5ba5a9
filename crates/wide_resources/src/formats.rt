//! What a file is, by its beginning.

ghost use Rattle.std.specs.Prelude.{◌≡◌, ◌∷◌, [], take};
ghost use Rattle.wide_resources.specs.declared.formats.Format.TheVariants.{Executable, Resources};

use crate::numbers::{part_of, size_at, unit_at};
use crate::res::read_resource;

/// What a file is.
#[derive(Clone, Copy, Debug, PartialEq, Eq)]
pub enum Format {
    /// A `.res` file.
    Resources,
    /// An executable.
    Executable,
    /// A file of another form, and which one.
    Other(&'static str),
    /// None of these.
    Unknown,
}

// How many bytes of a text are looked at.
const LOOKED_AT: usize = 1024;

// What the empty resource begins with that a `.res` file begins with: its sizes, its type and its name.
const EMPTY: &[u8] = b"\0\0\0\0\x20\0\0\0\xff\xff\0\0\xff\xff\0\0";

// What files of other forms begin with.
static FORMATS: [(&[u8], &str); 2] = [
    (b"\x7fELF", "an ELF file"),
    (b"\x89PNG\r\n\x1a\n", "a PNG image"),
];

// Returns what a file is whose first bytes leave no doubt.
fn format_by_mark(file: &[u8]) -> Option<&'static str> {
    for (mark, what) in &FORMATS {
        if file.starts_with(*mark) {
            return Some(*what);
        }
    }
    None
}

// Passes a type or a name of 16-bit Windows: FF and a number, or a text in ASCII up to its NUL.
fn behind_old_name(bytes: &[u8]) -> Option<&[u8]> {
    if let [0xff, _, _, rest @ ..] = bytes {
        return Some(rest);
    }
    let len = bytes.iter().position(|byte| *byte == 0)?;
    let text = bytes.get(..len)?;
    let is_text = text.iter().all(|byte| (b' '..=b'~').contains(byte));
    if text.is_empty() || !is_text {
        return None;
    }
    bytes.get(len.saturating_add(1)..)
}

// Returns the contents of the first resource of a file of 16-bit Windows: behind its type, its name, its flags and its size.
fn old_contents(file: &[u8]) -> Option<&[u8]> {
    let fields = behind_old_name(behind_old_name(file)?)?;
    part_of(fields, 6, size_at(fields, 2)? as usize)
}

// Returns the headers of the sections of an object file, which are behind its own header.
fn sections_of_object(file: &[u8]) -> Option<&[u8]> {
    let is_machine = matches!(
        unit_at(file, 0)?,
        0x14c | 0x1c0 | 0x1c4 | 0x200 | 0x8664 | 0xaa64
    );
    let count = usize::from(unit_at(file, 2)?);
    let has_more = unit_at(file, 16)? > 0;
    if !is_machine | has_more | (count == 0) {
        return None;
    }
    part_of(file, 20, 40 * count)
}

// Passes a BOM, blanks and comments in braces.
fn behind_comments(file: &[u8]) -> &[u8] {
    let mut rest = file.strip_prefix(b"\xef\xbb\xbf").unwrap_or(file);
    for _ in 0..file.len() {
        rest = match rest {
            [b' ' | b'\t' | b'\r' | b'\n', more @ ..] => more,
            [b'{', ..] => match rest.iter().position(|byte| *byte == b'}') {
                Some(end) => rest.get(end.saturating_add(1)..).unwrap_or_default(),
                None => break,
            },
            _ => break,
        };
    }
    rest
}

// Returns whether a file looks like a text: it has a BOM of UTF-16, or no controls but those of a text.
fn is_text(file: &[u8]) -> bool {
    let bytes = &file[..file.len().min(LOOKED_AT)];
    let has_bom = bytes.starts_with(b"\xff\xfe") | bytes.starts_with(b"\xfe\xff");
    has_bom
        | bytes.iter().all(|byte| *byte >= b' '
            || matches!(*byte, b'\t' | b'\n' | b'\r' | 0xc | 0x1a))
}

// Returns what a file is that begins with no resource.
fn other_format(file: &[u8]) -> Format {
    if old_contents(file).is_some() {
        return Format::Other("a 16-bit resource file");
    }
    if sections_of_object(file).is_some() {
        return Format::Other("a COFF object file");
    }
    if behind_comments(file).starts_with(b"LazarusResources.Add") {
        return Format::Other("Lazarus' text form of resources");
    }
    if is_text(file) {
        return Format::Other("text, not a compiled resource");
    }
    Format::Unknown
}

/// Returns what a file is. A `.res` file begins with the empty resource, as far as it goes, or else with a resource that can
/// be read.
pub fn format_of(file: &[u8]) -> Format
    ensures executable { take 2 file.now ≡ 0x4d ∷ 0x5a ∷ [] → result ≡ Executable }
    ensures resources { take 16 file.now ≡ 0 ∷ 0 ∷ 0 ∷ 0 ∷ 0x20 ∷ 0 ∷ 0 ∷ 0 ∷ 0xff ∷ 0xff ∷ 0 ∷ 0 ∷ 0xff ∷ 0xff ∷ 0 ∷ 0 ∷ [] → result ≡ Resources }
{
    if file.starts_with(b"MZ") {
        return Format::Executable;
    }
    // A file that is shorter is cut off.
    if file.starts_with(EMPTY) || EMPTY.starts_with(file) {
        return Format::Resources;
    }
    if let Some(what) = format_by_mark(file) {
        return Format::Other(what);
    }
    if read_resource(file).is_ok() {
        return Format::Resources;
    }
    other_format(file)
}
