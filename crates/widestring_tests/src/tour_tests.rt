//! The code of docs/TOUR.md that decodes and transcodes, and that on damaged text and on searches, word for word.
use std::test::Fail;
use widestring::bytes::{FromRead, FromWrite, Mode, transcode};
use widestring::error::DecodeUtf16Error;
use widestring::{Utf16Str, Utf16String, decode_utf16};

#[test]
fn decoding(rt: HostRuntime) {
    // `Hi`, an emoji, and an unpaired surrogate.
    let mut decoder = decode_utf16([0x48, 0x69, 0xd83d, 0xde00, 0xdc00]);
    assert_eq!(rt; decoder.next(), Some(Ok('H')));
    assert_eq!(rt;
        decoder.next_back(),
        Some(Err(DecodeUtf16Error::new(0xdc00)))
    );
    assert_eq!(rt; decoder.next_back(), Some(Ok('😀')));
    assert_eq!(rt; decoder.next_back(), Some(Ok('i')));
    assert_eq!(rt; decoder.next(), None);
}

#[test]
fn transcoding(rt: HostRuntime) -> Result<(), Fail> {
    let mut source = FromRead::new(b"\xff\xfe\x3d\xd8\x00\xde".as_slice());
    let mut sink = FromWrite::new(Vec::new(rt.alloc()));
    transcode(&mut source, &mut sink, Mode::Strict)?;
    assert_eq!(rt; sink.into_inner().as_slice(), "😀".as_bytes());
    Ok(())
}

#[test]
fn damaged(rt: HostRuntime) -> Result<(), Fail> {
    let units = [0x61, 0xd83d, 0xde00, 0xd800, 0xd, 0xa, 0x20, 0x62];
    let Err(fault) = Utf16Str::from_slice(&units) else {
        panic!(rt; "an unpaired surrogate is at index 3")
    };
    assert_eq!(rt; (fault.index(), fault.item()), (3, 2));
    let lossy = Utf16String::from_slice_lossy(rt.alloc(), &units)?;
    let mut lines = lossy.as_utfstr().lines();
    assert!(rt; lines.next().is_some_and(|line| line.eq_str("a😀\u{fffd}")));
    assert!(rt; lines.next().is_some_and(|line| line.trim().eq_str("b")));
    let mut repaired = lossy.into_owned(rt.alloc())?;
    repaired.retain(|c| c != '\u{fffd}');
    repaired.push_str("\r\n")?;
    let text = repaired.as_utfstr().to_string(rt.alloc())?;
    assert_eq!(rt; text.as_str(), "a😀\r\n b\r\n");
    Ok(())
}

#[test]
fn searched(rt: HostRuntime) -> Result<(), Fail> {
    let text = Utf16String::from_str(rt.alloc(), "name=😀;size=12;")?;
    let line = text.as_utfstr();
    let equals = Utf16Str::from_slice(&[0x3d])?;
    let Some((name, rest)) = line.split_once(equals) else {
        panic!(rt; "an equals sign is at index 4")
    };
    assert!(rt; name.eq_str("name"));
    let mut fields = rest.split_char(';');
    assert!(rt; fields.next().is_some_and(|field| field.eq_str("😀")));
    assert!(rt; fields.next().is_some_and(|field| field.eq_str("size=12")));
    assert_eq!(rt; line.rfind(equals), Some(12));
    assert_eq!(rt; line.floor_char_boundary(6), 5);
    Ok(())
}
