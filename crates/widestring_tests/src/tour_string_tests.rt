//! The code of docs/TOUR.md on owned strings and on edits, word for word.
use std::test::Fail;
use widestring::edit::{Edit, Reply, run_both};
use widestring::error::UCStringError;
use widestring::{U16CStr, U16CString, U16String, Utf16String, Utf32String};

#[test]
fn editing(rt: HostRuntime) -> Result<(), Fail> {
    let units = [0x61, 0xd83d, 0xde00, 0x62].to_vec(rt.alloc())?;
    let mut string = U16String::from_vec(units);
    assert_eq!(rt; string.remove_char(1), 0x1_f600);
    string.push_str("é")?;
    assert_eq!(rt; string.as_slice(), [0x61, 0x62, 0xe9].as_slice());
    Ok(())
}

#[test]
fn c_strings(rt: HostRuntime) -> Result<(), Fail> {
    let units = [0x61, 0, 0x62].to_vec(rt.alloc())?;
    let Err(UCStringError::ContainsNul(fault)) = U16CString::from_vec(units) else {
        panic!(rt; "a NUL precedes the last unit")
    };
    assert_eq!(rt; fault.nul_position(), 1);
    let cut = U16CStr::from_slice_truncate(&[0x61, 0, 0x62])?;
    assert_eq!(rt; cut.as_slice(), [0x61].as_slice());
    Ok(())
}

#[test]
fn well_formed(rt: HostRuntime) -> Result<(), Fail> {
    let mut string = Utf16String::from_str(rt.alloc(), "a😀bé")?;
    assert_eq!(rt; string.as_utfstr().unit_offset(2), Some(3));
    assert_eq!(rt; string.pop(), Some('é'));
    string.retain(|c| c != 'a');
    assert_eq!(rt; string.as_slice(), [0xd83d, 0xde00, 0x62].as_slice());
    Ok(())
}

#[test]
fn edits_of_two_strings(rt: HostRuntime) -> Result<(), Fail> {
    let mut first = Utf16String::from_str(rt.alloc(), "a😀b")?;
    let mut second = Utf32String::from_str(rt.alloc(), "a😀b")?;
    let edits = [Edit::Remove(1), Edit::Insert(7, 'x'), Edit::PushStr("é!")];
    let mut replies = Vec::new(rt.alloc());
    let mut same_replies = Vec::new(rt.alloc());
    run_both(
        rt.alloc(),
        &mut first,
        &mut second,
        &edits,
        &mut replies,
        &mut same_replies,
    )?;
    assert_eq!(rt;
        replies.as_slice(),
        [Reply::Char('😀'), Reply::BadPlace, Reply::Done].as_slice()
    );
    assert_eq!(rt; first.as_slice(), [0x61, 0x62, 0xe9, 0x21].as_slice());
    assert_eq!(rt; second.as_slice(), [0x61, 0x62, 0xe9, 0x21].as_slice());
    Ok(())
}
