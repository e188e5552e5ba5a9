//! The examples of `widestring::error`.
use crate::holds;
use std::test::Fail;
use widestring::bytes::{FromRead, FromWrite, Mode, include_utf16str, transcode};
use widestring::error::{
    DecodeUtf16Error, DecodeUtf32Error, FaultUnit, MissingNulTerminator, NulError, OutOfMemory,
    TranscodeError, UCStringError, Utf16BytesError, Utf16ConvertError, Utf32ConvertError,
};
use widestring::ustring::UStrInUstring;
use widestring::{
    U16CStr, U16CString, U16Str, U32Str, Utf16Str, Utf16String, Utf32Str, decode_utf16,
    decode_utf32,
};

fn example_of_decodeutf16error() -> Result<bool, Fail> {
    let mut decoder = decode_utf16([0xd83d, 0x48]);
    let mut holds = decoder.next() == Some(Err(DecodeUtf16Error::new(0xd83d)));
    holds &= decoder.next() == Some(Ok('H'));
    Ok(holds)
}

fn example_of_decodeutf16error_unpaired_surrogate() -> Result<bool, Fail> {
    let fault = Utf16Str::from_slice(&[0x48, 0x69, 0xd83d]).err();
    Ok(fault.map(|fault| fault.cause().unpaired_surrogate()) == Some(0xd83d))
}

fn example_of_decodeutf32error() -> Result<bool, Fail> {
    let mut decoder = decode_utf32([0x1_f600, 0x11_0000]);
    let mut holds = decoder.next() == Some(Ok('😀'));
    holds &= decoder.next() == Some(Err(DecodeUtf32Error::new(0x11_0000)));
    Ok(holds)
}

fn example_of_decodeutf32error_invalid_code_point() -> Result<bool, Fail> {
    let fault = Utf32Str::from_slice(&[0x48, 0x69, 0xd83d, 0xde00]).err();
    Ok(fault.map(|fault| fault.cause().invalid_code_point()) == Some(0xd83d))
}

fn example_of_outofmemory(rt: &HostRuntime) -> Result<bool, Fail> {
    let view = U16Str::from_slice(&[0x48, 0x69]);
    let repeated = view.repeat(rt.alloc(), usize::MAX);
    Ok(repeated.err() == Some(OutOfMemory))
}

fn example_of_transcodeerror(rt: &HostRuntime) -> Result<bool, Fail> {
    let mut source = FromRead::new(b"H\0i\0\x3d\xd8".as_slice());
    let mut sink = FromWrite::new(Vec::new(rt.alloc()));
    let fault = transcode(&mut source, &mut sink, Mode::Strict).err();
    let (index, item, unit) = (2, 2, 0xd83d);
    let mut holds = fault == Some(TranscodeError::Utf16 { index, item, unit });
    holds &= sink.into_inner().as_slice() == "Hi".as_bytes();
    Ok(holds)
}

fn example_of_missingnulterminator() -> Result<bool, Fail> {
    let missing = U16CStr::from_slice_truncate(&[0x48, 0x69]).err();
    Ok(missing == Some(MissingNulTerminator))
}

fn example_of_containsnul(rt: &HostRuntime) -> Result<bool, Fail> {
    let units = [0x43, 0, 0x3a].to_vec(rt.alloc())?;
    let Err(UCStringError::ContainsNul(fault)) = U16CString::from_vec(units) else {
        return Ok(false);
    };
    let units = fault.into_vec();
    Ok(units.map(|units| units.len()) == Some(3))
}

fn example_of_containsnul_nul_position() -> Result<bool, Fail> {
    let units = [0x48, 0x69, 0, 0x21, 0];
    let Err(NulError::ContainsNul(fault)) = U16CStr::from_slice(&units) else {
        return Ok(false);
    };
    Ok(fault.nul_position() == 2)
}

fn example_of_containsnul_into_vec(rt: &HostRuntime) -> Result<bool, Fail> {
    let units = [0x48, 0, 0xd83d].to_vec(rt.alloc())?;
    let Err(UCStringError::ContainsNul(fault)) = U16CString::from_vec(units) else {
        return Ok(false);
    };
    let units = fault.into_vec();
    Ok(units.is_some_and(|units| units.as_slice() == [0x48, 0, 0xd83d].as_slice()))
}

fn example_of_nulerror() -> Result<bool, Fail> {
    let open = U16CStr::from_slice(&[0x48, 0x69]);
    let mut holds = matches!(open, Err(NulError::MissingNulTerminator(_)));
    let parted = U16CStr::from_slice(&[0x48, 0, 0x69, 0]);
    holds &= matches!(parted, Err(NulError::ContainsNul(_)));
    Ok(holds)
}

fn example_of_ucstringerror(rt: &HostRuntime) -> Result<bool, Fail> {
    let made = U16CString::from_str(rt.alloc(), "Hi\0there");
    let Some(error) = made.err() else {
        return Ok(false);
    };
    let printed = error.to_string(rt.alloc())?;
    Ok(printed.as_str() == "invalid nul value found at position 2")
}

fn example_of_faultunit() -> Result<bool, Fail> {
    let mut holds = 0xd83du16.fault().unpaired_surrogate() == 0xd83d;
    holds &= 0x11_0000u32.fault().invalid_code_point() == 0x11_0000;
    Ok(holds)
}

fn example_of_utferror(rt: &HostRuntime) -> Result<bool, Fail> {
    let units = [0x48, 0x69, 0xd83d].to_vec(rt.alloc())?;
    let fault = Utf16String::from_vec(units).err();
    let units = fault.and_then(|fault| fault.into_vec());
    Ok(units.map(|units| units.len()) == Some(3))
}

fn example_of_utferror_index() -> Result<bool, Fail> {
    let fault = Utf16Str::from_slice(&[0x48, 0xd83d, 0xde00, 0xd83d]).err();
    Ok(fault.map(|fault| fault.index()) == Some(3))
}

fn example_of_utferror_item() -> Result<bool, Fail> {
    let fault = Utf16Str::from_slice(&[0x48, 0xd83d, 0xde00, 0xd83d]).err();
    Ok(fault.map(|fault| fault.item()) == Some(2))
}

fn example_of_utferror_cause() -> Result<bool, Fail> {
    let fault = Utf16Str::from_slice(&[0x48, 0xdc00]).err();
    Ok(fault.map(|fault| fault.cause()) == Some(DecodeUtf16Error::new(0xdc00)))
}

fn example_of_utferror_into_vec(rt: &HostRuntime) -> Result<bool, Fail> {
    let units = [0xe9, 0xd83d].to_vec(rt.alloc())?;
    let Err(fault) = Utf16String::from_vec(units) else {
        return Ok(false);
    };
    let units = fault.into_vec();
    Ok(units.is_some_and(|units| units.as_slice() == [0xe9, 0xd83d].as_slice()))
}

fn example_of_utf16converterror(rt: &HostRuntime) -> Result<bool, Fail> {
    let text = U16Str::from_slice(&[0x48, 0xdc00]).to_string(rt.alloc());
    let Err(Utf16ConvertError::Utf16(fault)) = text else {
        return Ok(false);
    };
    Ok(fault.index() == 1)
}

fn example_of_utf32converterror(rt: &HostRuntime) -> Result<bool, Fail> {
    let view = U32Str::from_slice(&[0xe9, 0xd83d, 0xde00]);
    let Err(Utf32ConvertError::Utf32(fault)) = view.to_string(rt.alloc()) else {
        return Ok(false);
    };
    let printed = fault.to_string(rt.alloc())?;
    Ok(printed.as_str() == "invalid UTF-32 value d83d at index 1 (item 1)")
}

fn example_of_utf16byteserror(rt: &HostRuntime) -> Result<bool, Fail> {
    let text = include_utf16str(rt.alloc(), b"\xff\xfeH\0i");
    Ok(matches!(text, Err(Utf16BytesError::OddLength)))
}

// Returns whether the examples of this module hold.
pub(crate) fn hold(rt: &HostRuntime) -> bool {
    let mut all = holds(rt, "DecodeUtf16Error", example_of_decodeutf16error());
    all &= holds(
        rt,
        "DecodeUtf16Error::unpaired_surrogate",
        example_of_decodeutf16error_unpaired_surrogate(),
    );
    all &= holds(rt, "DecodeUtf32Error", example_of_decodeutf32error());
    all &= holds(
        rt,
        "DecodeUtf32Error::invalid_code_point",
        example_of_decodeutf32error_invalid_code_point(),
    );
    all &= holds(rt, "OutOfMemory", example_of_outofmemory(rt));
    all &= holds(rt, "TranscodeError", example_of_transcodeerror(rt));
    all &= holds(
        rt,
        "MissingNulTerminator",
        example_of_missingnulterminator(),
    );
    all &= holds(rt, "ContainsNul", example_of_containsnul(rt));
    all &= holds(
        rt,
        "ContainsNul::nul_position",
        example_of_containsnul_nul_position(),
    );
    all &= holds(
        rt,
        "ContainsNul::into_vec",
        example_of_containsnul_into_vec(rt),
    );
    all &= holds(rt, "NulError", example_of_nulerror());
    all &= holds(rt, "UCStringError", example_of_ucstringerror(rt));
    all &= part_2_holds(rt);
    all
}

fn part_2_holds(rt: &HostRuntime) -> bool {
    let mut all = holds(rt, "FaultUnit", example_of_faultunit());
    all &= holds(rt, "UtfError", example_of_utferror(rt));
    all &= holds(rt, "UtfError::index", example_of_utferror_index());
    all &= holds(rt, "UtfError::item", example_of_utferror_item());
    all &= holds(rt, "UtfError::cause", example_of_utferror_cause());
    all &= holds(rt, "UtfError::into_vec", example_of_utferror_into_vec(rt));
    all &= holds(rt, "Utf16ConvertError", example_of_utf16converterror(rt));
    all &= holds(rt, "Utf32ConvertError", example_of_utf32converterror(rt));
    all &= holds(rt, "Utf16BytesError", example_of_utf16byteserror(rt));
    all
}
