//! UTF-16 in bytes: byte order and BOM, devices that give and take bytes, transcoding from one to another, and files as
//! strings.

pub use wide_bytes::{
    BoM, ByteSink, ByteSource, FromRead, FromWrite, UnitsOfBytes, Utf16OfBytes, byte_order, laws,
    put_all, units_of_bytes, utf16_of_bytes,
};
pub use wide_include::include_utf16str;
pub use wide_transcode::{Mode, transcode, transcode_with};
