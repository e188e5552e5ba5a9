//! The examples of `widestring::convert`.
use crate::holds;
use std::test::Fail;
use widestring::Policy;
use widestring::bytes::{BoM, FromRead, FromWrite};
use widestring::convert::{
    ConvertError, Converter, Layout, Position, ProgressEnd, Scheme, TextFault, convert,
};

fn example_of_layout() -> Result<bool, Fail> {
    let mut text = [0; 16];
    let mut converter = Converter::new(Scheme::Utf16, Scheme::Utf8, None, false);
    let _progress = converter.push(b"\xfe\xff\0a", &mut text);
    Ok(converter.parts().0.layout == Some(Layout::Utf16(BoM::Big)))
}

fn example_of_scheme(rt: &HostRuntime) -> Result<bool, Fail> {
    let mut source = FromRead::new(b"\xfe\xff\0H\0i".as_slice());
    let mut sink = FromWrite::new(Vec::new(rt.alloc()));
    let (from, to) = (Scheme::Utf16, Scheme::Utf32Le);
    convert(&mut source, &mut sink, from, to, None, false)?;
    Ok(sink.into_inner().as_slice() == b"H\0\0\0i\0\0\0".as_slice())
}

fn example_of_textfault() -> Result<bool, Fail> {
    let mut text = [0; 8];
    let mut converter = Converter::new(Scheme::Utf8, Scheme::Utf16Le, None, false);
    let progress = converter.push(b"a\xffb", &mut text);
    let fault = TextFault {
        offset: 1,
        item: 1,
        unit: 0xff,
    };
    Ok(progress.end == ProgressEnd::Fault(fault) && progress.read == 2)
}

fn example_of_progressend() -> Result<bool, Fail> {
    let mut text = [0; 8];
    let mut converter = Converter::new(Scheme::Utf16Be, Scheme::Utf8, None, false);
    let mut holds = converter.push(b"\0a\0b\0c", &mut text).end == ProgressEnd::NoSpace;
    holds &= converter.push(b"\0b", &mut []).end == ProgressEnd::NoSpace;
    Ok(holds)
}

fn example_of_convertprogress() -> Result<bool, Fail> {
    let mut text = [0; 16];
    let mut converter = Converter::new(Scheme::Utf8, Scheme::Utf16Le, None, false);
    let progress = converter.push("né".as_bytes(), &mut text);
    let mut holds = progress.read == 3 && progress.written == 4;
    holds &= text.starts_with(b"n\0\xe9\0");
    Ok(holds)
}

fn example_of_converter() -> Result<bool, Fail> {
    let mut text = [0; 16];
    let mut converter = Converter::new(Scheme::Utf16, Scheme::Utf8, None, false);
    // The BOM says that the bytes are big-endian. The second piece begins within a pair.
    let first = converter.push(b"\xfe\xff\xd8\x3d\xde", &mut text);
    let last = converter.push_last(b"\0", &mut text[first.written..]);
    let len = first.written + last.written;
    Ok(len == 4 && text.starts_with("😀".as_bytes()) && converter.kept_len() == 0)
}

fn example_of_converter_push() -> Result<bool, Fail> {
    let mut text = [0; 16];
    let mut converter = Converter::new(Scheme::Utf16Le, Scheme::Utf8, None, false);
    let first = converter.push(b"a\0b", &mut text);
    let mut holds = first.written == 1 && first.end == ProgressEnd::NeedsInput;
    let more = converter.push(b"\0", &mut text[1..]);
    holds &= more.written == 1 && text.starts_with(b"ab");
    Ok(holds)
}

fn example_of_converter_push_last() -> Result<bool, Fail> {
    let mut text = [0; 16];
    let mut converter = Converter::new(Scheme::Utf16Le, Scheme::Utf8, Some(Policy::Each), false);
    // Half of a pair, and half of a unit.
    let progress = converter.push_last(b"\x3d\xd8a", &mut text);
    let mut holds = progress.written == 3 && text.starts_with("\u{fffd}".as_bytes());
    holds &= converter.kept_len() == 1;
    Ok(holds)
}

fn example_of_converter_finish() -> Result<bool, Fail> {
    let mut text = [0; 16];
    let mut converter = Converter::new(Scheme::Utf8, Scheme::Utf16Le, None, false);
    // The first byte of a character, which may go on.
    let mut holds = converter.push(b"\xc3", &mut text).end == ProgressEnd::NeedsInput;
    holds &= matches!(converter.finish(&mut text).end, ProgressEnd::Fault(_));
    Ok(holds)
}

fn example_of_converterror(rt: &HostRuntime) -> Result<bool, Fail> {
    let mut source = FromRead::new(b"H\0\x3d\xd8i\0".as_slice());
    let mut sink = FromWrite::new(Vec::new(rt.alloc()));
    let (from, to) = (Scheme::Utf16Le, Scheme::Utf8);
    let error = convert(&mut source, &mut sink, from, to, None, false).err();
    Ok(matches!(error, Some(ConvertError::Fault(fault)) if fault.offset == 2))
}

fn example_of_position() -> Result<bool, Fail> {
    let mut text = [0; 16];
    let mut converter = Converter::new(Scheme::Utf8, Scheme::Utf16Le, Some(Policy::Each), false);
    let _progress = converter.push_last(b"a\xff\xffb", &mut text);
    let end = Position {
        bytes: 4,
        items: 4,
        faults: 2,
    };
    Ok(converter.position() == end)
}

fn example_of_reading() -> Result<bool, Fail> {
    let mut text = [0; 16];
    let mut converter = Converter::new(Scheme::Utf8, Scheme::Utf16Le, None, false);
    let _progress = converter.push(b"a\xc3", &mut text);
    let (reading, to, bom) = converter.parts();
    let mut holds = reading.unread_len == 1 && reading.unread[0] == 0xc3;
    holds &= Converter::from_parts(reading, to, bom).is_some();
    Ok(holds)
}

fn example_of_convert(rt: &HostRuntime) -> Result<bool, Fail> {
    let mut source = FromRead::new("né".as_bytes());
    let mut sink = FromWrite::new(Vec::new(rt.alloc()));
    let (from, to) = (Scheme::Utf8, Scheme::Utf16Be);
    let faults = convert(&mut source, &mut sink, from, to, None, true)?;
    Ok(faults == 0 && sink.into_inner().as_slice() == b"\xfe\xff\0n\0\xe9".as_slice())
}

// Returns whether the examples of this module hold.
pub(crate) fn hold(rt: &HostRuntime) -> bool {
    let mut all = holds(rt, "Layout", example_of_layout());
    all &= holds(rt, "Scheme", example_of_scheme(rt));
    all &= holds(rt, "TextFault", example_of_textfault());
    all &= holds(rt, "ProgressEnd", example_of_progressend());
    all &= holds(rt, "ConvertProgress", example_of_convertprogress());
    all &= holds(rt, "Converter", example_of_converter());
    all &= holds(rt, "Converter::push", example_of_converter_push());
    all &= holds(rt, "Converter::push_last", example_of_converter_push_last());
    all &= holds(rt, "Converter::finish", example_of_converter_finish());
    all &= holds(rt, "ConvertError", example_of_converterror(rt));
    all &= holds(rt, "Position", example_of_position());
    all &= holds(rt, "Reading", example_of_reading());
    all &= part_2_holds(rt);
    all
}

fn part_2_holds(rt: &HostRuntime) -> bool {
    let mut all = holds(rt, "convert", example_of_convert(rt));
    all
}
