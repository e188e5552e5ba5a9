//! Reads an export, and prints and reports what is in it.

use crate::json::{Json, put_key, put_value};
use crate::print::{put_bytes, put_line};
use crate::reports::Reports;
use crate::values::{Bytes, Kind, STRING, bytes_after, half_of, kind_of, text_of};
use std::alloc::Global;
use wide_files::{Form, Outcome};
use wide_registry::{Data, Entry, Export, Part, Value, bytes_of, decoded};
use widestring::error::OutOfMemory;

// A file while it is read: how it is printed, and what is known of it.
#[derive(Clone, Copy)]
pub struct Reader<'a> {
    pub alloc: Global,
    pub is_json: bool,
    pub form: Form,
    pub bytes: Bytes,
    // The path of the key to which values belong.
    pub key: Option<&'a [u16]>,
}

// The bytes of a value, and the text that they are.
#[derive(Drop)]
struct Found {
    bytes: Option<Vec<u8>>,
    text: Option<Vec<u16>>,
    // Half of a unit at the end of the text.
    half: Option<u8>,
}

impl<'a> Reader<'a> {
    // Returns the bytes of a value and their text, if data of this type are text.
    fn find(&self, number: u32, digits: &[u16]) -> Result<Found, OutOfMemory> {
        let mut found = Found {
            bytes: bytes_of(self.alloc, digits)?,
            text: None,
            half: None,
        };
        if kind_of(number) == Kind::Other {
            return Ok(found);
        }
        if let Some(bytes) = &found.bytes
            && !bytes.is_empty()
        {
            found.text = Some(text_of(self.alloc, bytes, self.bytes)?);
            found.half = half_of(bytes, self.bytes);
        }
        Ok(found)
    }

    // Prints a value as JSON.
    fn put_json(
        &self,
        output: &mut String,
        name: Option<&[u16]>,
        data: Json<'_>,
    ) -> Result<(), OutOfMemory> {
        put_value(self.alloc, output, self.key, name, data)
    }

    // Prints a value with bytes that are text, or several texts, as JSON.
    fn put_text(
        &self,
        output: &mut String,
        name: Option<&[u16]>,
        number: u32,
        text: &[u16],
    ) -> Result<(), OutOfMemory> {
        match kind_of(number) {
            Kind::Texts => self.put_json(output, name, Json::Texts(number, text)),
            _ => self.put_json(output, name, Json::Text(number, text)),
        }
    }

    // Prints a value with bytes. If half of a unit is left, its text is not all of it, so JSON has the bytes.
    fn read_bytes(
        &self,
        output: &mut String,
        part: &[u16],
        name: Option<&[u16]>,
        number: u32,
        digits: &[u16],
    ) -> Result<Option<u8>, OutOfMemory> {
        let found = self.find(number, digits)?;
        if !self.is_json {
            let text = found.text.as_ref().map(|text| text.as_slice());
            put_bytes(output, part, digits, text)?;
            return Ok(found.half);
        }
        let Some(bytes) = &found.bytes else {
            return Ok(None);
        };
        if kind_of(number) == Kind::Other || found.half.is_some() {
            self.put_json(output, name, Json::Bytes(number, bytes))?;
        } else {
            match &found.text {
                Some(text) => self.put_text(output, name, number, text)?,
                None => self.put_text(output, name, number, &[])?,
            }
        }
        Ok(found.half)
    }

    // Prints a value, and returns half of a unit that is left of its text.
    fn read_value(
        &self,
        output: &mut String,
        part: &[u16],
        value: Value<'_>,
    ) -> Result<Option<u8>, OutOfMemory> {
        let Value { name, data } = value;
        if let Data::Bytes(number, digits) = data {
            return self.read_bytes(output, part, name, number, digits);
        }
        if !self.is_json {
            put_line(output, part)?;
            return Ok(None);
        }
        match data {
            Data::Deleted => self.put_json(output, name, Json::Delete)?,
            Data::Number(number) => self.put_json(output, name, Json::Number(number))?,
            Data::Text(string) => {
                let text = decoded(self.alloc, string)?;
                self.put_json(output, name, Json::Text(STRING, &text))?;
            }
            Data::Bytes(..) | Data::Damaged => {}
        }
        Ok(None)
    }

    // Prints a part, and returns half of a unit that is left of its text.
    fn read_part(
        &mut self,
        output: &mut String,
        part: &Part<'a>,
    ) -> Result<Option<u8>, OutOfMemory> {
        match part.entry {
            Entry::Value(value) => return self.read_value(output, part.units, value),
            Entry::Header(header) => self.bytes = bytes_after(header, self.form),
            Entry::Key(key) => {
                self.key = if key.is_deleted || key.path.is_empty() {
                    None
                } else {
                    Some(key.path)
                };
                if self.is_json && !key.path.is_empty() {
                    put_key(output, key)?;
                }
            }
            Entry::Nothing => {}
        }
        if !self.is_json {
            put_line(output, part.units)?;
        }
        Ok(None)
    }

    // Reads a text, and prints and reports what is in it.
    pub fn read(
        &mut self,
        outcome: &mut Outcome<'_>,
        text: &'a [u16],
        reports: Reports<'_>,
    ) -> Result<(), OutOfMemory> {
        let mut reports = reports;
        let mut export = Export::new(text);
        if text.is_empty() {
            let place = reports.advance(outcome, 0)?;
            outcome.report_at(place, wide_registry::Kind::NoHeader)?;
        }
        'parts: while let Some(part) = export.next(self.alloc)? {
            let end = text.len().saturating_sub(export.rest.len());
            let start = end.saturating_sub(part.units.len());
            let place = reports.advance(outcome, start)?;
            for damage in &part.damages {
                reports.report(outcome, start, *damage)?;
            }
            if let Some(byte) = self.read_part(&mut outcome.output, &part)? {
                outcome.report_at(place, format_args!("half of a unit, {byte:02x}"))?;
            }
        }
        Ok(reports.finish(outcome)?)
    }
}
