//! Each public name of the library, once, by its path through `widestring`. `docs/paths` makes this file from the
//! sources.
//!
//! A name that moves makes this file fail to check. What calls do is tested elsewhere.

pub use widestring::{
    Policy, U16CStr, U16CString, U16Str, U16String, U32CStr, U32CString, U32Str, U32String,
    Utf16Str, Utf16String, Utf32Str, Utf32String, WideCStr, WideCString, WideChar, WideStr,
    WideString, WideUtfStr, WideUtfString, decode_utf16, decode_utf16_lossy,
    decode_utf16_lossy_with, decode_utf32, decode_utf32_lossy, decode_utf32_lossy_with,
    encode_utf8, encode_utf16, encode_utf32,
};

pub mod bytes {
    pub use widestring::bytes::{
        BoM, ByteSink, ByteSource, FromRead, FromWrite, Mode, UnitsOfBytes, Utf16OfBytes,
        byte_order, include_utf16str, put_all, transcode, transcode_with, units_of_bytes,
        utf16_of_bytes,
    };
}

pub mod bytes_laws {
    pub use widestring::bytes::laws::{bytes_of_their_units, units_of_their_bytes, worked_units};
}

pub mod convert {
    pub use widestring::convert::{
        ConvertError, ConvertProgress, Converter, Layout, Position, ProgressEnd, Reading, Scheme,
        TextFault, convert,
    };
}

pub mod convert_laws {
    pub use widestring::convert::laws::{fault_is_of_whole, pieces_are_whole, units_survive};
}

pub mod edit {
    pub use widestring::edit::{Edit, Marked16, Reply, Steps, Stopped, TextEdit, run, run_both};
}

pub mod error {
    pub use widestring::error::{
        ContainsNul, DecodeUtf16Error, DecodeUtf32Error, FaultUnit, FirstFault,
        MissingNulTerminator, NulError, OutOfMemory, TranscodeError, UCStringError,
        Utf16BytesError, Utf16ConvertError, Utf16Error, Utf32ConvertError, Utf32Error, UtfError,
    };
}

pub mod iter {
    pub use widestring::iter::{
        DecodeUtf16, DecodeUtf16Lossy, DecodeUtf16LossyWith, DecodeUtf32, DecodeUtf32Lossy,
        DecodeUtf32LossyWith, EncodeUtf8, EncodeUtf16, EncodeUtf32, End, decode_utf16,
        decode_utf16_lossy, decode_utf16_lossy_with, decode_utf32, decode_utf32_lossy,
        decode_utf32_lossy_with, encode_utf8, encode_utf16, encode_utf32, read_ends16, read_ends32,
        read_lossy_ends16, read_lossy_ends32,
    };
}

pub mod replace {
    pub use widestring::replace::{UCStrReplace, UStrReplace, UtfStrReplace};
}

pub mod search {
    pub use widestring::search::{
        AsciiWhiteSpace, CharSet, WhiteSpace, ends_with, ends_with_char,
        ends_with_ignore_ascii_case, find, find_char, find_char_from, find_counted, find_from,
        find_ignore_ascii_case, find_ignore_ascii_case_counted, find_in_set, find_unit,
        prefix_of_set, rfind, rfind_char, rfind_counted, rfind_unit, rsplit_once, split_once,
        starts_with, starts_with_char, starts_with_ignore_ascii_case, strip_prefix, strip_suffix,
        suffix_of_set,
    };
}

pub mod search_laws {
    pub use widestring::search::laws::{
        needles_in_text, one_list_of_substrings, one_offset, worked_line, worked_occurrences,
        worked_substrings,
    };
}

pub mod ucstr {
    pub use widestring::ucstr::{
        CharIndices, CharIndicesLossy, CharIndicesLossyUtf16, CharIndicesLossyUtf32,
        CharIndicesUtf16, CharIndicesUtf32, Chars, CharsLossy, CharsLossyUtf16, CharsLossyUtf32,
        CharsLossyWith, CharsUtf16, CharsUtf32, Display, DisplaySkipping, Split, SplitView,
        U16CStr, U16StrInUcstr, U32CStr, U32StrInUcstr, UCStr, UStrInUcstr, WideCStr,
    };
}

pub mod ucstr_laws {
    pub use widestring::ucstr::laws::{
        comparisons_of_units16, comparisons_of_units32, contents_and_nul, hash_of_units,
        order_of_contents,
    };
}

pub mod ucstring {
    pub use widestring::ucstring::{
        BoxedU16CStr, BoxedU32CStr, BoxedUCStr, CowU16CStr, CowU32CStr, CowUCStr, OfCStrings,
        U16CStrInUcstring, U16CString, U16StringInUcstring, U16StringOverUcstrs, U32CStrInUcstring,
        U32CString, U32StringInUcstring, U32StringOverUcstrs, UCStrInUcstring, UCString,
        UStringInUcstring, UStringOverUcstrs, WideCString,
    };
}

pub mod unit {
    pub use widestring::unit::{
        AnyUnits, FirstFault, LossyProgress, Policy, Unit, ascii_lowercase, ascii_uppercase,
        char_of, check, cmp_code_points, common_prefix, common_prefix_ignore_ascii_case,
        find_fault, first_no_scalar, first_nul, first_of, first_surrogate, length_as_utf16,
        length_as_utf32, next_code_point, order_of_units, put_char, range_check, same_units,
        split_first, split_last, split_line, valid_len, write_escape,
    };
}

pub mod unit_laws {
    pub use widestring::unit::laws::{
        boundaries, code_points_of_text, encoded_characters, encodings_of_edits, equal_characters,
        filtered_text, first_faults, items_of_utf16, joined_items, lines_of_units, lossy_text,
        lossy_text_by_policy, neighbours_matter, offsets_of_characters, one_segmentation,
        order_agrees, segmentations_by_form, spliced_text, units_of_utf32, utf8_of_characters,
        worked_fault, worked_items, worked_lossy,
    };
}

pub mod ustr {
    pub use widestring::ustr::{
        AnyOf, BackView, CharIndices, CharIndicesLossy, CharIndicesLossyUtf16,
        CharIndicesLossyUtf32, CharIndicesUtf16, CharIndicesUtf32, Chars, CharsLossy,
        CharsLossyUtf16, CharsLossyUtf32, CharsLossyWith, CharsUtf16, CharsUtf32, Display,
        DisplaySkipping, DoubleEndedView, InclusiveBackView, InclusiveView, LineIndices, LineView,
        Lines, MatchBackView, MatchIndices, MatchView, Matches, NeedleView, OneUnit, RSplit,
        RSplitN, Split, SplitFilled, SplitInclusive, SplitN, SplitTerminator, SplitView, U16Str,
        U32Str, UStr, WideChar, WideStr, after_faults,
    };
}

pub mod ustr_laws {
    pub use widestring::ustr::laws::{
        comparisons_of_units16, comparisons_of_units32, hash_of_units,
    };
}

pub mod ustring {
    pub use widestring::ustring::{
        BoxedU16Str, BoxedU32Str, BoxedUStr, CowU16Str, CowU32Str, CowUStr, Drain, U16StrInUstring,
        U16String, U32StrInUstring, U32String, UStrInUstring, UString, WideString,
    };
}

pub mod ustring_extend {
    pub use widestring::ustring::extend::{Appendable, Growing, Whole, extend, from_iter};
}

pub mod utfstr {
    pub use widestring::utfstr::{
        CharIndices, CharIndicesUtf16, CharIndicesUtf32, Chars, CharsUtf16, CharsUtf32, CodeUnits,
        EscapeDebug, EscapeDefault, EscapeUnicode, FirstFault, LineIndices, Lines, Split,
        SplitView, U16CStrInUtfstr, U16StrInUtfstr, U32CStrInUtfstr, U32StrInUtfstr, UCStrInUtfstr,
        UStrInUtfstr, Utf16Str, Utf32Str, UtfStr, WideUtfStr, check,
    };
}

pub mod utfstring {
    pub use widestring::utfstring::{
        BoxedUtf16Str, BoxedUtf32Str, BoxedUtfStr, CowUtf16Str, CowUtf32Str, CowUtfStr, DrainUtf,
        DrainUtf16, DrainUtf32, OfText, U16StringInUtfstring, U16StringOverUtfstrs,
        U32StringInUtfstring, U32StringOverUtfstrs, UStringInUtfstring, UStringOverUtfstrs,
        Utf16StrInUtfstring, Utf16String, Utf32StrInUtfstring, Utf32String, UtfStrInUtfstring,
        UtfString, WideUtfString,
    };
}

pub mod wtf8 {
    pub use widestring::wtf8::{
        FromWtf8, FromWtf8Error, ToWtf8, Wtf8Fault, append_wtf8, check_wtf8, from_wtf8, to_wtf8,
        write_from_wtf8, write_wtf8, wtf8_len, wtf8_units_len,
    };
}

pub mod wtf8_laws {
    pub use widestring::wtf8::laws::{
        faults_of_bytes, joined_texts, one_list_of_units, round_trips, same_units, text_is_utf8,
        text_of_well_formed,
    };
}
