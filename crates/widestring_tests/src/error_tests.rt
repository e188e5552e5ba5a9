//! Tests of the contents and the text of errors that no test vector makes.
use crate::all_hold::all_hold;
use std::alloc::{AllocError, Global};
use std::fmt::Display;
use std::io;
use std::test::Fail;
use widestring::error::{
    ContainsNul, DecodeUtf16Error, DecodeUtf32Error, FirstFault, MissingNulTerminator, NulError,
    OutOfMemory, TranscodeError, UCStringError, Utf16Error, Utf32Error,
};

// Returns whether an error prints this text.
fn prints(alloc: Global, error: &impl Display, text: &str) -> bool {
    match error.to_string(alloc) {
        Ok(printed) => printed.as_str() == text,
        Err(_) => false,
    }
}

// Returns whether an error returned these units.
fn are_back<C: PartialEq + Drop>(vec: Option<Vec<C>>, units: &[C]) -> bool {
    match vec {
        Some(vec) => vec.as_slice() == units,
        None => false,
    }
}

#[test]
fn faults_of_units(rt: HostRuntime) -> Result<(), Fail> {
    let unpaired = DecodeUtf16Error::new(0xdc0a);
    let unpaired_copy: Result<_, _> = unpaired.clone();
    let invalid = DecodeUtf32Error::new(0x11_000a);
    let invalid_copy: Result<_, _> = invalid.clone();
    let fault = FirstFault {
        index: 3,
        item: 2,
        unit: 0xd800,
    };
    let kept = Utf16Error::new(fault, Some([0x41].to_vec(rt.alloc())?));
    let wide_fault = FirstFault {
        index: 1,
        item: 1,
        unit: 0x11_0000,
    };
    let wide: Utf32Error = Utf32Error::new(wide_fault, None);
    let cases = [
        unpaired.unpaired_surrogate() == 0xdc0a,
        unpaired_copy == Ok(unpaired) && unpaired != DecodeUtf16Error::new(0xdc0b),
        invalid.invalid_code_point() == 0x11_000a,
        invalid_copy == Ok(invalid) && invalid != DecodeUtf32Error::new(0xa),
        kept.index() == 3 && kept.item() == 2,
        kept.cause() == DecodeUtf16Error::new(0xd800),
        are_back(kept.into_vec(), &[0x41]),
        wide.index() == 1 && wide.cause() == DecodeUtf32Error::new(0x11_0000),
        wide.into_vec().is_none(),
    ];
    all_hold(&rt, &cases);
    Ok(())
}

#[test]
fn faults_of_c_strings(rt: HostRuntime) -> Result<(), Fail> {
    let alloc = rt.alloc();
    let nul: UCStringError<u16> = UCStringError::ContainsNul(ContainsNul::new(3, None));
    let memory: UCStringError<u32> = UCStringError::OutOfMemory(None);
    let missing = "missing terminating nul value";
    let no_nul: NulError<u16> = MissingNulTerminator.into();
    let text = "invalid nul value found at position 10";
    let inner = ContainsNul::new(10, Some([0x61u32, 0].to_vec(alloc)?));
    let is_printed = prints(alloc, &inner, text);
    let fault: NulError<u32> = inner.into();
    let cases = [
        prints(alloc, &nul, "invalid nul value found at position 3"),
        prints(alloc, &memory, "out of memory"),
        prints(alloc, &MissingNulTerminator, missing),
        prints(alloc, &no_nul, missing),
        no_nul.into_vec().is_none(),
        is_printed && prints(alloc, &fault, text),
        are_back(fault.into_vec(), &[0x61, 0]),
    ];
    all_hold(&rt, &cases);
    Ok(())
}

fn failed() -> Result<(), OutOfMemory> {
    Err(AllocError)?;
    Ok(())
}

fn failed_in_a_run() -> Result<(), TranscodeError> {
    failed()?;
    Ok(())
}

#[test]
fn faults_of_runs(rt: HostRuntime) {
    let alloc = rt.alloc();
    let unpaired = TranscodeError::Utf16 {
        index: 10,
        item: 9,
        unit: 0xd800,
    };
    let text = "unpaired UTF-16 surrogate d800 at index 10 (item 9)";
    let cases = [
        prints(alloc, &OutOfMemory, "out of memory"),
        prints(alloc, &unpaired, text),
        prints(alloc, &TranscodeError::OutOfMemory, "out of memory"),
        prints(
            alloc,
            &TranscodeError::OddLength,
            "file not encoded as UTF-16",
        ),
        prints(alloc, &TranscodeError::Read, "read fault"),
        prints(alloc, &TranscodeError::Write, "write fault"),
        failed() == Err(OutOfMemory),
        failed_in_a_run() == Err(TranscodeError::OutOfMemory),
        io::Error::from(OutOfMemory).kind() == io::ErrorKind::OutOfMemory,
    ];
    all_hold(&rt, &cases);
}
