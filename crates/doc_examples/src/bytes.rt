//! The examples of `widestring::bytes`.
use crate::holds;
use std::test::Fail;
use widestring::bytes::{
    BoM, ByteSink, ByteSource, FromRead, FromWrite, Mode, byte_order, include_utf16str, put_all,
    transcode, transcode_with, units_of_bytes, utf16_of_bytes,
};
use widestring::{Policy, U16Str};

fn example_of_bom() -> Result<bool, Fail> {
    let mut holds = byte_order(b"\xff\xfeH\0") == Some(BoM::Little);
    holds &= byte_order(b"\xfe\xff\0H") == Some(BoM::Big);
    Ok(holds)
}

fn example_of_mode(rt: &HostRuntime) -> Result<bool, Fail> {
    let mut source = FromRead::new(b"H\0\x3d\xd8i\0".as_slice());
    let mut sink = FromWrite::new(Vec::new(rt.alloc()));
    transcode(&mut source, &mut sink, Mode::Lossy)?;
    Ok(sink.into_inner().as_slice() == "H\u{fffd}i".as_bytes())
}

fn example_of_bytesource(rt: &HostRuntime) -> Result<bool, Fail> {
    let mut source = FromRead::new(b"H\0i\0".as_slice());
    let mut sink = FromWrite::new(Vec::new(rt.alloc()));
    transcode(&mut source, &mut sink, Mode::Strict)?;
    Ok(source.ended() && !source.failed())
}

fn example_of_bytesink(rt: &HostRuntime) -> Result<bool, Fail> {
    let mut sink = FromWrite::new(Vec::new(rt.alloc()));
    let mut holds = sink.put(b"\xff\xfe")? == 2;
    holds &= !sink.failed();
    Ok(holds)
}

fn example_of_fromread() -> Result<bool, Fail> {
    let mut source = FromRead::new(b"\xff\xfeH\0".as_slice());
    let mut bom = [0; 2];
    let mut holds = source.take(&mut bom)? == 2;
    holds &= source.into_inner() == "H\0".as_bytes();
    Ok(holds)
}

fn example_of_fromread_new(rt: &HostRuntime) -> Result<bool, Fail> {
    let mut source = FromRead::new(b"\xfe\xff\0H\0\xe9".as_slice());
    let mut sink = FromWrite::new(Vec::new(rt.alloc()));
    transcode(&mut source, &mut sink, Mode::Strict)?;
    Ok(sink.into_inner().as_slice() == "Hé".as_bytes())
}

fn example_of_fromwrite(rt: &HostRuntime) -> Result<bool, Fail> {
    let mut sink = FromWrite::new(Vec::new(rt.alloc()));
    sink.put("é".as_bytes())?;
    Ok(sink.into_inner().as_slice() == [0xc3, 0xa9].as_slice())
}

fn example_of_fromwrite_new(rt: &HostRuntime) -> Result<bool, Fail> {
    let mut source = FromRead::new(b"H\0i\0".as_slice());
    let mut sink = FromWrite::new("Name=".as_bytes().to_vec(rt.alloc())?);
    transcode(&mut source, &mut sink, Mode::Strict)?;
    Ok(sink.into_inner().as_slice() == "Name=Hi".as_bytes())
}

fn example_of_unitsofbytes() -> Result<bool, Fail> {
    let units = units_of_bytes(b"\xfe\xff\0H\0i\0\0");
    Ok(units.eq([0x48, 0x69]))
}

fn example_of_utf16ofbytes() -> Result<bool, Fail> {
    let file = utf16_of_bytes(b"H\0i");
    let mut holds = !file.has_bom && file.order == BoM::Little;
    holds &= file.units.eq([0x48]);
    holds &= file.half == Some(b'i');
    Ok(holds)
}

fn example_of_put_all(rt: &HostRuntime) -> Result<bool, Fail> {
    let mut sink = FromWrite::new(Vec::new(rt.alloc()));
    put_all(&mut sink, "Hé".as_bytes())?;
    Ok(sink.into_inner().as_slice() == "Hé".as_bytes())
}

fn example_of_utf16_of_bytes(rt: &HostRuntime) -> Result<bool, Fail> {
    let file = utf16_of_bytes(b"\xff\xfeH\0\x3d\xd8\x00\xde");
    let units: Vec<u16> = file.units.collect(rt.alloc())?;
    let text = U16Str::from_slice(&units).to_string(rt.alloc())?;
    Ok(text.as_str() == "H😀")
}

fn example_of_transcode(rt: &HostRuntime) -> Result<bool, Fail> {
    let mut source = FromRead::new(b"\xff\xfe\x3d\xd8\x00\xde".as_slice());
    let mut sink = FromWrite::new(Vec::new(rt.alloc()));
    transcode(&mut source, &mut sink, Mode::Strict)?;
    Ok(sink.into_inner().as_slice() == "😀".as_bytes())
}

fn example_of_transcode_with(rt: &HostRuntime) -> Result<bool, Fail> {
    let mut source = FromRead::new(b"H\0\x3d\xd8\x3d\xd8i\0".as_slice());
    let mut sink = FromWrite::new(Vec::new(rt.alloc()));
    transcode_with(&mut source, &mut sink, Policy::Skip)?;
    Ok(sink.into_inner().as_slice() == "Hi".as_bytes())
}

fn example_of_include_utf16str(rt: &HostRuntime) -> Result<bool, Fail> {
    let text = include_utf16str(rt.alloc(), b"\xff\xfeH\0\x3d\xd8\x00\xde")?;
    Ok(text.as_utfstr().eq_str("H😀"))
}

// Returns whether the examples of this module hold.
pub(crate) fn hold(rt: &HostRuntime) -> bool {
    let mut all = holds(rt, "BoM", example_of_bom());
    all &= holds(rt, "Mode", example_of_mode(rt));
    all &= holds(rt, "ByteSource", example_of_bytesource(rt));
    all &= holds(rt, "ByteSink", example_of_bytesink(rt));
    all &= holds(rt, "FromRead", example_of_fromread());
    all &= holds(rt, "FromRead::new", example_of_fromread_new(rt));
    all &= holds(rt, "FromWrite", example_of_fromwrite(rt));
    all &= holds(rt, "FromWrite::new", example_of_fromwrite_new(rt));
    all &= holds(rt, "UnitsOfBytes", example_of_unitsofbytes());
    all &= holds(rt, "Utf16OfBytes", example_of_utf16ofbytes());
    all &= holds(rt, "put_all", example_of_put_all(rt));
    all &= holds(rt, "utf16_of_bytes", example_of_utf16_of_bytes(rt));
    all &= part_2_holds(rt);
    all
}

fn part_2_holds(rt: &HostRuntime) -> bool {
    let mut all = holds(rt, "transcode", example_of_transcode(rt));
    all &= holds(rt, "transcode_with", example_of_transcode_with(rt));
    all &= holds(rt, "include_utf16str", example_of_include_utf16str(rt));
    all
}
