//! UTF-16 in bytes (Unicode Standard, section 3.10, D96 to D98): byte order and BOM, the code units of bytes, and
//! devices that give and take bytes. Byte swapping is vectorized.
#![tactic(auto)]

mod bom;
mod device_io;
mod devices;
pub mod laws;
mod order;
mod take;
mod units;
mod units_from_bytes;
mod whole;

pub use bom::without_bom;
pub use device_io::put_all;
pub use devices::{ByteSink, ByteSource, FromRead, FromWrite};
pub use order::{BoM, byte_order};
pub use take::take_after;
pub use units::{UnitsOfBytes, units_of_bytes};
pub use units_from_bytes::{fill_units, unit_in};
pub use whole::{Utf16OfBytes, utf16_of_bytes};
