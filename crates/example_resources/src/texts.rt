//! Prints the texts of a file's resources.

use std::alloc::Global;
use std::fmt::{Display, Write};
use wide_files::{CodePage, Document, Form, Outcome, Quoted, Shown, ShownText};
use wide_resources::{
    Damage, Format, Found, Name, Part, Parts, Text, TextForm, TextKind, count_kinds, format_of,
    kind_name, kind_named, language_name, open_executable, read_texts,
};
use widestring::convert::Scheme;
use widestring::error::OutOfMemory;
use widestring::{U16Str, Utf16Str, Utf16String};

/// What is printed.
#[derive(Clone, Copy)]
pub struct Options {
    /// Whether ill-formed texts are printed with U+FFFD.
    pub is_lossy: bool,
    /// Whether languages are printed by their names.
    pub has_names: bool,
    /// Whether each resource of another type is noted.
    pub tells_skipped: bool,
}

// A resource that is read: its type, name, language and contents.
#[derive(Clone, Copy)]
struct Source<'a> {
    kind: Name<'a>,
    name: Name<'a>,
    language: u16,
    contents: &'a [u8],
}

/// A file whose texts are printed.
#[derive(Drop)]
pub struct Texts<'a> {
    alloc: Global,
    options: Options,
    // The number and the offset of the resource that is read.
    number: usize,
    at: usize,
    // The types of the resources without texts.
    skipped: Vec<Name<'a>>,
}

// Returns the text of bytes that are units. Its unpaired surrogates are in it as they are.
fn units_in(alloc: Global, bytes: &[u8]) -> Result<Document, OutOfMemory> {
    let mut units = Vec::new(alloc);
    for pair in bytes.as_chunks::<2>().0 {
        units.push(u16::from_le_bytes(*pair))?;
    }
    Ok(Document {
        units,
        bad: Vec::new(alloc),
    })
}

// Returns a text in units of UTF-16, and what of it is ill formed in UTF-8.
fn document_of(alloc: Global, bytes: &[u8], form: TextForm) -> Result<Document, OutOfMemory> {
    match form {
        TextForm::Units => units_in(alloc, bytes),
        TextForm::CodePage => Document::read(alloc, bytes, Form::Windows(CodePage::Windows1252)),
        TextForm::Utf8 => Document::read(alloc, bytes, Form::Unicode(Scheme::Utf8)),
    }
}

// Adds a type to a text: its number, with its name if it is known, or its text.
fn push_kind(alloc: Global, list: &mut String, kind: Name<'_>) -> Result<(), OutOfMemory> {
    match kind {
        Name::Number(number) => {
            write!(list, "type {number}")?;
            if let Some(name) = kind_name(number) {
                write!(list, " ({name})")?;
            }
        }
        Name::Text(bytes) => {
            let text = units_in(alloc, bytes)?;
            write!(list, "type {}", Quoted(U16Str::from_slice(&text.units)))?;
        }
    }
    Ok(())
}

// Returns the word before the texts of a type. Strings have none.
fn word_of(kind: TextKind) -> &'static str {
    match kind {
        TextKind::Menu => "menu ",
        TextKind::Dialog => "dialog ",
        TextKind::Strings => "",
        TextKind::Messages => "message ",
        TextKind::Version => "version ",
    }
}

impl<'a> Texts<'a> {
    /// Returns a file of which nothing was read.
    pub fn new(alloc: Global, options: Options) -> Texts<'a> {
        Texts {
            alloc,
            options,
            number: 0,
            at: 0,
            skipped: Vec::new(alloc),
        }
    }

    fn report<T: Display + Drop>(
        &self,
        outcome: &mut Outcome<'_>,
        what: T,
    ) -> Result<(), OutOfMemory> {
        let (number, at) = (self.number, self.at);
        Ok(outcome.report(format_args!("resource {number} at byte {at}: {what}"))?)
    }

    // Returns what a text is: of a menu, say, with the menu's name and the number of the item.
    fn words_of(
        &self,
        source: &Source<'a>,
        kind: TextKind,
        text: &Text<'a>,
    ) -> Result<String, OutOfMemory> {
        let mut words = String::new(self.alloc);
        words.push_str(word_of(kind))?;
        if let TextKind::Menu | TextKind::Dialog = kind {
            match source.name {
                Name::Number(number) => write!(words, "{number} ")?,
                Name::Text(bytes) => {
                    let name = units_in(self.alloc, bytes)?;
                    write!(words, "{} ", Shown(U16Str::from_slice(&name.units)))?;
                }
            }
        }
        if let TextKind::Version = kind {
            let name = units_in(self.alloc, text.name)?;
            write!(words, "{}", Shown(U16Str::from_slice(&name.units)))?;
        } else {
            write!(words, "{}", text.id)?;
        }
        Ok(words)
    }

    // Prints a text behind its file, its language and what it is.
    fn put_units(
        &self,
        outcome: &mut Outcome<'_>,
        language: u16,
        words: &str,
        units: U16Str<'_>,
    ) -> Result<(), OutOfMemory> {
        if !outcome.file.is_empty() {
            write!(outcome.output, "{}:", ShownText(outcome.file))?;
        }
        match language_name(language) {
            Some(name) if self.options.has_names => write!(outcome.output, "{name} ")?,
            _ => write!(outcome.output, "{language:04X} ")?,
        }
        Ok(writeln!(outcome.output, "{words}: {}", Quoted(units))?)
    }

    // Reports the faults of a text.
    fn report_faults(
        &self,
        outcome: &mut Outcome<'_>,
        words: &str,
        text: &Document,
    ) -> Result<(), OutOfMemory> {
        for fault in &text.bad {
            self.report(
                outcome,
                format_args!("{words}: {fault} at unit {}", fault.unit),
            )?;
        }
        for (unit, item) in U16Str::from_slice(&text.units).char_indices() {
            if let Err(fault) = item {
                let fault = fault.unpaired_surrogate();
                self.report(
                    outcome,
                    format_args!("{words}: fault {fault:04X} at unit {unit}"),
                )?;
            }
        }
        Ok(())
    }

    // Prints a text, or reports its faults.
    fn put_text(
        &self,
        outcome: &mut Outcome<'_>,
        source: &Source<'a>,
        kind: TextKind,
        text: &Text<'a>,
    ) -> Result<(), OutOfMemory> {
        let words = self.words_of(source, kind, text)?;
        let document = document_of(self.alloc, text.bytes, text.form)?;
        let units = U16Str::from_slice(&document.units);
        if document.bad.is_empty() && Utf16Str::from_ustr(units).is_ok() {
            return self.put_units(outcome, source.language, words.as_str(), units);
        }
        if self.options.is_lossy {
            let whole = Utf16String::from_ustr_lossy(self.alloc, units)?;
            let units = whole.as_utfstr().as_ustr();
            return self.put_units(outcome, source.language, words.as_str(), units);
        }
        if let TextKind::Strings = kind {
            let mut named = String::new(self.alloc);
            write!(named, "string {}", words.as_str())?;
            return self.report_faults(outcome, named.as_str(), &document);
        }
        self.report_faults(outcome, words.as_str(), &document)
    }

    // Counts a resource whose type has no texts.
    fn skip(&mut self, outcome: &mut Outcome<'_>, source: &Source<'a>) -> Result<(), OutOfMemory> {
        self.skipped.push(source.kind)?;
        if !self.options.tells_skipped {
            return Ok(());
        }
        let (number, at, len) = (self.number, self.at, source.contents.len());
        let mut kind = String::new(self.alloc);
        push_kind(self.alloc, &mut kind, source.kind)?;
        let what = format_args!("resource {number} at byte {at}: skipped, {kind}, bytes: {len}");
        Ok(outcome.note(what)?)
    }

    // Prints the texts of a resource, if its type has some.
    fn read_resource(
        &mut self,
        outcome: &mut Outcome<'_>,
        source: &Source<'a>,
    ) -> Result<(), OutOfMemory> {
        let Some(kind) = kind_named(source.kind) else {
            return self.skip(outcome, source);
        };
        let mut found = Found::new(self.alloc);
        read_texts(kind, source.name, source.contents, &mut found)?;
        for text in &found.texts {
            self.put_text(outcome, source, kind, text)?;
        }
        for damage in &found.damages {
            self.report(outcome, *damage)?;
        }
        Ok(())
    }

    // Reads a part of a `.res` file.
    fn read_part(&mut self, outcome: &mut Outcome<'_>, part: &Part<'a>) -> Result<(), OutOfMemory> {
        let resource = match &part.resource {
            Ok(resource) => resource,
            Err(damage) => {
                let unread = part.bytes.len();
                return self.report(outcome, format_args!("{damage}, bytes not read: {unread}"));
            }
        };
        if part.at == 0 && !resource.is_empty() {
            self.report(outcome, "is not the empty resource that a file begins with")?;
        }
        if resource.size() > part.bytes.len() {
            let missing = Damage::Missing(resource.size().saturating_sub(part.bytes.len()));
            self.report(outcome, missing)?;
        }
        // Files that are joined have one each.
        if resource.is_empty() {
            return Ok(());
        }
        let source = Source {
            kind: resource.kind,
            name: resource.name,
            language: resource.language,
            contents: resource.contents,
        };
        self.read_resource(outcome, &source)
    }

    // Reads the resources of a `.res` file.
    fn read_file(&mut self, outcome: &mut Outcome<'_>, bytes: &'a [u8]) -> Result<(), OutOfMemory> {
        for part in Parts::new(bytes) {
            self.number = self.number.saturating_add(1);
            self.at = part.at;
            self.read_part(outcome, &part)?;
        }
        self.note_skipped(outcome)
    }

    // Reads the resources of an executable.
    fn read_executable(
        &mut self,
        outcome: &mut Outcome<'_>,
        bytes: &'a [u8],
    ) -> Result<(), OutOfMemory> {
        let executable = match open_executable(bytes) {
            Ok(Some(executable)) => executable,
            Ok(None) => return Ok(()),
            Err(damage) => return Ok(outcome.report(damage)?),
        };
        let leaves = executable.leaves(self.alloc)?;
        for leaf in &leaves.found {
            self.number = self.number.saturating_add(1);
            self.at = leaf.at;
            let source = Source {
                kind: leaf.kind,
                name: leaf.name,
                language: leaf.language,
                contents: leaf.contents,
            };
            self.read_resource(outcome, &source)?;
        }
        for damage in &leaves.damages {
            outcome.report(*damage)?;
        }
        self.note_skipped(outcome)
    }

    // Notes how many resources of each type have no texts.
    fn note_skipped(&mut self, outcome: &mut Outcome<'_>) -> Result<(), OutOfMemory> {
        if self.skipped.is_empty() {
            return Ok(());
        }
        let mut list = String::new(self.alloc);
        for counted in &count_kinds(self.alloc, &mut self.skipped)? {
            let separator = if list.is_empty() { "" } else { ", " };
            write!(list, "{separator}{} of ", counted.count)?;
            push_kind(self.alloc, &mut list, counted.kind)?;
        }
        Ok(outcome.note(format_args!("skipped: {list}"))?)
    }

    /// Prints the texts of a file, and reports its damage.
    ///
    /// # Errors
    ///
    /// If an allocation fails.
    pub fn read(&mut self, bytes: &'a [u8], outcome: &mut Outcome<'_>) -> Result<(), OutOfMemory> {
        if bytes.is_empty() {
            return Ok(outcome.report("no resource")?);
        }
        match format_of(bytes) {
            Format::Resources => self.read_file(outcome, bytes),
            Format::Executable => self.read_executable(outcome, bytes),
            Format::Other(what) => {
                Ok(outcome.report(format_args!("{what}, which is not read"))?)
            }
            Format::Unknown => Ok(outcome.report(
                "no .res file: it does not begin with the empty resource",
            )?),
        }
    }
}
