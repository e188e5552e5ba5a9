//! Tests that decoders and encoders remain at their end over a source that yields more after its end.
use crate::all_hold::all_hold;
use widestring::error::{DecodeUtf16Error, DecodeUtf32Error};
use widestring::{
    decode_utf16, decode_utf16_lossy, decode_utf32, decode_utf32_lossy, encode_utf8, encode_utf16,
    encode_utf32,
};

// A source that yields its item at each odd call.
#[derive(Drop)]
struct Resuming<T> {
    calls: u16,
    item: T,
}

impl<T: Copy> Iterator for Resuming<T> {
    type Item = T;

    fn next(&mut self) -> Option<T> {
        self.calls = self.calls.saturating_add(1);
        if self.calls % 2 == 0 {
            return None;
        }
        Some(self.item)
    }
}

fn again<T>(item: T) -> Resuming<T> {
    Resuming { calls: 0, item }
}

// Returns whether an iterator yields these items, and none at the two calls after them.
macro_rules! ends_after {
    ($iterator:expr, [$($item:expr),+]) => {{
        let mut iterator = $iterator;
        let given = true $(& (iterator.next() == Some($item)))+;
        given & iterator.next().is_none() & iterator.next().is_none()
    }};
}

// Each iterator has a function of its own, so that no proof holds two iterators.
fn utf16_ends() -> bool {
    let unpaired = Err(DecodeUtf16Error::new(0xd800));
    ends_after!(decode_utf16(again(0xd800)), [unpaired])
}

fn utf16_lossy_ends() -> bool {
    ends_after!(decode_utf16_lossy(again(0xd800)), ['\u{fffd}'])
}

fn utf32_ends() -> bool {
    let invalid = Err(DecodeUtf32Error::new(0xd800));
    ends_after!(decode_utf32(again(0xd800)), [invalid])
}

fn utf32_lossy_ends() -> bool {
    ends_after!(decode_utf32_lossy(again(0xd800)), ['\u{fffd}'])
}

fn encoder_to_utf8_ends() -> bool {
    ends_after!(encode_utf8(again('é')), [0xc3, 0xa9])
}

fn encoder_to_utf16_ends() -> bool {
    ends_after!(encode_utf16(again('é')), [0xe9])
}

fn encoder_to_utf32_ends() -> bool {
    ends_after!(encode_utf32(again('é')), [0xe9])
}

#[test]
fn stay_ended(rt: HostRuntime) {
    let cases = [
        utf16_ends(),
        utf16_lossy_ends(),
        utf32_ends(),
        utf32_lossy_ends(),
        encoder_to_utf8_ends(),
        encoder_to_utf16_ends(),
        encoder_to_utf32_ends(),
    ];
    all_hold(&rt, &cases);
}

#[test]
fn lengths_and_bounds_of_a_vector(rt: HostRuntime) -> Result<(), std::test::Fail> {
    let vec = [0x41, 0xd800, 0x1_f600].to_vec(rt.alloc())?;
    assert_eq!(rt; decode_utf32(vec).size_hint(), (3, Some(3)));
    Ok(())
}
