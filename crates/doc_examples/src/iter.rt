//! The examples of `widestring::iter`.
use crate::holds;
use std::test::Fail;
use widestring::Policy;
use widestring::error::{DecodeUtf16Error, DecodeUtf32Error};
use widestring::iter::{
    End, decode_utf16, decode_utf16_lossy, decode_utf16_lossy_with, decode_utf32,
    decode_utf32_lossy, decode_utf32_lossy_with, encode_utf8, encode_utf16, encode_utf32,
    read_ends16,
};

fn example_of_decodeutf16() -> Result<bool, Fail> {
    let mut decoder = decode_utf16([0x48, 0xd83d, 0xde00]);
    let mut holds = decoder.next_back() == Some(Ok('😀'));
    holds &= decoder.next() == Some(Ok('H'));
    holds &= decoder.next().is_none();
    Ok(holds)
}

fn example_of_decodeutf32() -> Result<bool, Fail> {
    let mut decoder = decode_utf32([0x1_f600, 0xd83d, 0xde00]);
    let mut holds = decoder.len() == 3;
    holds &= decoder.next() == Some(Ok('😀'));
    holds &= decoder.next() == Some(Err(DecodeUtf32Error::new(0xd83d)));
    Ok(holds)
}

fn example_of_decodeutf16lossy() -> Result<bool, Fail> {
    let mut decoder = decode_utf16_lossy([0xdc00, 0x48, 0xd83d]);
    let mut holds = decoder.next_back() == Some('\u{fffd}');
    holds &= decoder.next_back() == Some('H');
    Ok(holds)
}

fn example_of_decodeutf32lossy() -> Result<bool, Fail> {
    let mut decoder = decode_utf32_lossy([0x48, 0x11_0000]);
    let mut holds = decoder.next() == Some('H');
    holds &= decoder.next() == Some('\u{fffd}');
    Ok(holds)
}

fn example_of_decodeutf16lossywith() -> Result<bool, Fail> {
    let chars = decode_utf16_lossy_with([0x48, 0xd83d, 0xd83d, 0x69], Policy::Run);
    Ok(chars.eq(['H', '\u{fffd}', 'i']))
}

fn example_of_decodeutf32lossywith() -> Result<bool, Fail> {
    let chars = decode_utf32_lossy_with([0x48, 0xd83d, 0xde00, 0x69], Policy::Skip);
    Ok(chars.eq(['H', 'i']))
}

fn example_of_encodeutf8() -> Result<bool, Fail> {
    let mut bytes = encode_utf8(['é']);
    let mut holds = bytes.next() == Some(0xc3);
    holds &= bytes.next() == Some(0xa9);
    holds &= bytes.next().is_none();
    Ok(holds)
}

fn example_of_encodeutf16() -> Result<bool, Fail> {
    let mut units = encode_utf16("😀".chars());
    let mut holds = units.next() == Some(0xd83d);
    holds &= units.next() == Some(0xde00);
    holds &= units.next().is_none();
    Ok(holds)
}

fn example_of_encodeutf32() -> Result<bool, Fail> {
    let units = encode_utf32("é😀".chars());
    Ok(units.eq([0xe9, 0x1_f600]))
}

fn example_of_end(rt: &HostRuntime) -> Result<bool, Fail> {
    let units = [0x48, 0xd83d, 0xde00];
    let chars = read_ends16(rt.alloc(), &units, &[End::Back, End::Front, End::Back])?;
    Ok(chars.as_slice() == [Some(Ok('😀')), Some(Ok('H')), None].as_slice())
}

fn example_of_decode_utf16() -> Result<bool, Fail> {
    let mut decoder = decode_utf16([0xe9, 0xd83d, 0xde00, 0xdc00]);
    let mut holds = decoder.next() == Some(Ok('é'));
    holds &= decoder.next() == Some(Ok('😀'));
    holds &= decoder.next() == Some(Err(DecodeUtf16Error::new(0xdc00)));
    Ok(holds)
}

fn example_of_decode_utf16_lossy() -> Result<bool, Fail> {
    let chars = decode_utf16_lossy([0x48, 0xd83d, 0xd83d, 0xde00]);
    Ok(chars.eq(['H', '\u{fffd}', '😀']))
}

fn example_of_encode_utf8(rt: &HostRuntime) -> Result<bool, Fail> {
    let bytes: Vec<u8> = encode_utf8(['H', '😀']).collect(rt.alloc())?;
    Ok(bytes.as_slice() == "H😀".as_bytes())
}

fn example_of_encode_utf16(rt: &HostRuntime) -> Result<bool, Fail> {
    let units: Vec<u16> = encode_utf16("Hé😀".chars()).collect(rt.alloc())?;
    Ok(units.as_slice() == [0x48, 0xe9, 0xd83d, 0xde00].as_slice())
}

// Returns whether the examples of this module hold.
pub(crate) fn hold(rt: &HostRuntime) -> bool {
    let mut all = holds(rt, "DecodeUtf16", example_of_decodeutf16());
    all &= holds(rt, "DecodeUtf32", example_of_decodeutf32());
    all &= holds(rt, "DecodeUtf16Lossy", example_of_decodeutf16lossy());
    all &= holds(rt, "DecodeUtf32Lossy", example_of_decodeutf32lossy());
    all &= holds(
        rt,
        "DecodeUtf16LossyWith",
        example_of_decodeutf16lossywith(),
    );
    all &= holds(
        rt,
        "DecodeUtf32LossyWith",
        example_of_decodeutf32lossywith(),
    );
    all &= holds(rt, "EncodeUtf8", example_of_encodeutf8());
    all &= holds(rt, "EncodeUtf16", example_of_encodeutf16());
    all &= holds(rt, "EncodeUtf32", example_of_encodeutf32());
    all &= holds(rt, "End", example_of_end(rt));
    all &= holds(rt, "decode_utf16", example_of_decode_utf16());
    all &= holds(rt, "decode_utf16_lossy", example_of_decode_utf16_lossy());
    all &= part_2_holds(rt);
    all
}

fn part_2_holds(rt: &HostRuntime) -> bool {
    let mut all = holds(rt, "encode_utf8", example_of_encode_utf8(rt));
    all &= holds(rt, "encode_utf16", example_of_encode_utf16(rt));
    all
}
