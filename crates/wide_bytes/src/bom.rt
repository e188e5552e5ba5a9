//! Drops the BOM of UTF-16 in bytes (Unicode Standard, section 23.8).

ghost use Rattle.std.specs.Prelude.{◌≡◌};
ghost use Rattle.wide_bytes.specs.Bytes.{without_bom};

use super::order::byte_order;

/// Returns the bytes after the BOM, or all bytes if there is none.
pub fn without_bom(bytes: &[u8]) -> &[u8]
    ensures { result.now ≡ without_bom bytes.now }
{
    if byte_order(bytes).is_some() {
        &bytes[2..]
    } else {
        bytes
    }
}
