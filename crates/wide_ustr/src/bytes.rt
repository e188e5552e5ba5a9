//! The bytes of views, little-endian or big-endian.
ghost use Rattle.std.specs.Prelude.{◌≡◌, ◌∷◌, ◌*◌, ◌+◌, ◌≤◌, [], drop, length, map, take, IfOk, IsOk};
ghost use Rattle.wide_forms.specs.UnitBytes.{unit_width, little_bytes_of, big_bytes_of, byte_order_mark};
ghost use Rattle.wide_ustr.specs.View.{units_seen};

use crate::view::UStr;
use std::alloc::{AllocError, Allocator};
use wide_error::OutOfMemory;
use wide_from_units::{byte_len, byte_width, put_be_bom, put_be_bytes, put_le_bom, put_le_bytes};
use wide_unit::Unit;

// Returns `len` bytes, in a single allocation.
fn zeros<A: Allocator>(alloc: A, len: usize) -> Result<Vec<u8, A>, AllocError>
    ensures long { IfOk result (λ bytes. length bytes.items ≡ len) }
    ensures succeeds { len ≡ 0 → IsOk result }
{
    let mut bytes = Vec::with_capacity(alloc, len)?;
    bytes.resize(len, 0)?;
    Ok(bytes)
}

impl<C: Unit> UStr<'_, C> {
    /// Returns the bytes of the units, little-endian, without a BOM (Unicode Standard, D97 and D100): two for a 16-bit
    /// unit, four for a 32-bit unit. The Rust crate has no such call.
    ///
    /// It allocates once, for as many bytes as there are, or not at all if there are no units.
    ///
    /// # Errors
    ///
    /// [`OutOfMemory`] if the allocation fails. It never fails if there are no units.
    ///
    /// # Example
    ///
    /// ```
    /// let bytes = U16Str::from_slice(&[0x48, 0x20ac]).to_le_bytes(rt.alloc())?;
    /// assert!(rt; bytes.as_slice() == [0x48, 0, 0xac, 0x20].as_slice());
    /// ```
    pub fn to_le_bytes<A: Allocator>(self, alloc: A) -> Result<Vec<u8, A>, OutOfMemory>
        ensures bytes { IfOk result (λ bytes. bytes.items ≡ little_bytes_of C.form (map C.number (units_seen self.entry))) }
        ensures succeeds { units_seen self.entry ≡ [] → IsOk result }
    {
        let mut bytes = zeros(alloc, byte_len(self.units))?;
        put_le_bytes(self.units, &mut bytes);
        Ok(bytes)
    }

    /// Returns the bytes of the units, big-endian, without a BOM (Unicode Standard, D96 and D99): two for a 16-bit
    /// unit, four for a 32-bit unit. The Rust crate has no such call.
    ///
    /// # Errors
    ///
    /// [`OutOfMemory`] if the allocation fails. It never fails if there are no units.
    ///
    /// # Example
    ///
    /// ```
    /// let bytes = U16Str::from_slice(&[0x417, 0xd83d]).to_be_bytes(rt.alloc())?;
    /// assert!(rt; bytes.as_slice() == [0x4, 0x17, 0xd8, 0x3d].as_slice());
    /// ```
    pub fn to_be_bytes<A: Allocator>(self, alloc: A) -> Result<Vec<u8, A>, OutOfMemory>
        ensures bytes { IfOk result (λ bytes. bytes.items ≡ big_bytes_of C.form (map C.number (units_seen self.entry))) }
        ensures succeeds { units_seen self.entry ≡ [] → IsOk result }
    {
        let mut bytes = zeros(alloc, byte_len(self.units))?;
        put_be_bytes(self.units, &mut bytes);
        Ok(bytes)
    }

    /// Returns a BOM and the bytes of the units, little-endian (Unicode Standard, D98 and D101). The BOM is `FF FE` for
    /// 16-bit units, and `FF FE 00 00` for 32-bit units. It is put there even if the units begin with a BOM. The Rust
    /// crate has no such call.
    ///
    /// # Errors
    ///
    /// [`OutOfMemory`] if the allocation fails.
    ///
    /// # Example
    ///
    /// ```
    /// let bytes = U16Str::from_slice(&[0x48, 0x69]).to_le_bytes_with_bom(rt.alloc())?;
    /// assert!(rt; bytes.as_slice() == [0xff, 0xfe, 0x48, 0, 0x69, 0].as_slice());
    /// ```
    pub fn to_le_bytes_with_bom<A: Allocator>(self, alloc: A) -> Result<Vec<u8, A>, OutOfMemory>
        ensures { IfOk result (λ bytes. bytes.items ≡ little_bytes_of C.form (byte_order_mark ∷ map C.number (units_seen self.entry))) }
    {
        let width = byte_width::<C>();
        let mut bytes = zeros(alloc, width + byte_len(self.units))?;
        put_le_bom::<C>(&mut bytes);
        put_le_bytes(self.units, &mut bytes[width..]);
        Ok(bytes)
    }

    /// Returns a BOM and the bytes of the units, big-endian (Unicode Standard, D98 and D101). The BOM is `FE FF` for
    /// 16-bit units, and `00 00 FE FF` for 32-bit units. It is put there even if the units begin with a BOM. The Rust
    /// crate has no such call.
    ///
    /// # Errors
    ///
    /// [`OutOfMemory`] if the allocation fails.
    ///
    /// # Example
    ///
    /// ```
    /// let bytes = U32Str::from_slice(&[0x1f600]).to_be_bytes_with_bom(rt.alloc())?;
    /// assert!(rt; bytes.as_slice() == [0, 0, 0xfe, 0xff, 0, 0x1, 0xf6, 0].as_slice());
    /// ```
    pub fn to_be_bytes_with_bom<A: Allocator>(self, alloc: A) -> Result<Vec<u8, A>, OutOfMemory>
        ensures { IfOk result (λ bytes. bytes.items ≡ big_bytes_of C.form (byte_order_mark ∷ map C.number (units_seen self.entry))) }
    {
        let width = byte_width::<C>();
        let mut bytes = zeros(alloc, width + byte_len(self.units))?;
        put_be_bom::<C>(&mut bytes);
        put_be_bytes(self.units, &mut bytes[width..]);
        Ok(bytes)
    }

    /// Writes the bytes of the units, little-endian and without a BOM (Unicode Standard, D97 and D100), at the start of
    /// `bytes`, and returns how many there are. The bytes after them are unchanged. The Rust crate has no such call.
    ///
    /// # Requires
    ///
    /// `bytes` has space for them: two bytes for each 16-bit unit, four for each 32-bit unit.
    ///
    /// # Example
    ///
    /// ```
    /// let view = U16Str::from_slice(&[0x48, 0x20ac]);
    /// let mut buffer = [0; 6];
    /// if view.len() <= buffer.len() / 2 {
    ///     let len = view.put_le_bytes(&mut buffer);
    ///     assert!(rt; len == 4);
    /// }
    /// assert!(rt; buffer.as_slice() == [0x48, 0, 0xac, 0x20, 0, 0].as_slice());
    /// ```
    pub fn put_le_bytes(self, bytes: &mut [u8]) -> usize
        requires { unit_width C.form * length (units_seen self) ≤ length bytes.old }
        ensures len { result ≡ unit_width C.form * length (units_seen self.entry) }
        ensures prefix { take result bytes.new ≡ little_bytes_of C.form (map C.number (units_seen self.entry)) }
        ensures beyond { drop result bytes.new ≡ drop result bytes.old }
    {
        put_le_bytes(self.units, bytes);
        byte_len(self.units)
    }

    /// Writes the bytes of the units, big-endian and without a BOM (Unicode Standard, D96 and D99), at the start of
    /// `bytes`, and returns how many there are. The bytes after them are unchanged. The Rust crate has no such call.
    ///
    /// # Requires
    ///
    /// `bytes` has space for them: two bytes for each 16-bit unit, four for each 32-bit unit.
    pub fn put_be_bytes(self, bytes: &mut [u8]) -> usize
        requires { unit_width C.form * length (units_seen self) ≤ length bytes.old }
        ensures len { result ≡ unit_width C.form * length (units_seen self.entry) }
        ensures prefix { take result bytes.new ≡ big_bytes_of C.form (map C.number (units_seen self.entry)) }
        ensures beyond { drop result bytes.new ≡ drop result bytes.old }
    {
        put_be_bytes(self.units, bytes);
        byte_len(self.units)
    }

    /// Writes a BOM and the bytes of the units, little-endian (Unicode Standard, D98 and D101), at the start of
    /// `bytes`, and returns how many bytes there are. The BOM is `FF FE` for 16-bit units, and `FF FE 00 00` for 32-bit
    /// units. The bytes after them are unchanged. The Rust crate has no such call.
    ///
    /// # Requires
    ///
    /// `bytes` has space for the BOM and the units: two bytes for each 16-bit unit, four for each 32-bit unit, and one
    /// unit more.
    pub fn put_le_bytes_with_bom(self, bytes: &mut [u8]) -> usize
        requires { unit_width C.form * (length (units_seen self) + 1) ≤ length bytes.old }
        ensures len { result ≡ unit_width C.form * (length (units_seen self.entry) + 1) }
        ensures prefix { take result bytes.new ≡ little_bytes_of C.form (byte_order_mark ∷ map C.number (units_seen self.entry)) }
        ensures beyond { drop result bytes.new ≡ drop result bytes.old }
    {
        let width = byte_width::<C>();
        let (mark, rest) = bytes.split_at_mut(width);
        put_le_bom::<C>(mark);
        put_le_bytes(self.units, rest);
        width + byte_len(self.units)
    }

    /// Writes a BOM and the bytes of the units, big-endian (Unicode Standard, D98 and D101), at the start of `bytes`,
    /// and returns how many bytes there are. The BOM is `FE FF` for 16-bit units, and `00 00 FE FF` for 32-bit units.
    /// The bytes after them are unchanged. The Rust crate has no such call.
    ///
    /// # Requires
    ///
    /// `bytes` has space for the BOM and the units: two bytes for each 16-bit unit, four for each 32-bit unit, and one
    /// unit more.
    pub fn put_be_bytes_with_bom(self, bytes: &mut [u8]) -> usize
        requires { unit_width C.form * (length (units_seen self) + 1) ≤ length bytes.old }
        ensures len { result ≡ unit_width C.form * (length (units_seen self.entry) + 1) }
        ensures prefix { take result bytes.new ≡ big_bytes_of C.form (byte_order_mark ∷ map C.number (units_seen self.entry)) }
        ensures beyond { drop result bytes.new ≡ drop result bytes.old }
    {
        let width = byte_width::<C>();
        let (mark, rest) = bytes.split_at_mut(width);
        put_be_bom::<C>(mark);
        put_be_bytes(self.units, rest);
        width + byte_len(self.units)
    }
}
