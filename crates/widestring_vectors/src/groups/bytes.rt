//! Units as bytes. A question is `le` or `be`, the order of the bytes of a unit, and an `m` after it for a BOM before
//! them. The answer has three fields: the bytes in a vector, the bytes that are put into a buffer, and a `1` if the
//! buffer is unchanged after them.
ghost use Rattle.std.specs.Prelude.{◌*◌, ◌+◌, ◌≤◌, length};
ghost use Rattle.widestring.specs.UnitBytes.{unit_width};

use widestring::error::OutOfMemory;
use widestring::unit::Unit;
use widestring::ustr::UStr;
use widestring_replay::parse::{self, Memory, NoAnswer};
use widestring_replay::show::Answer;
use widestring_testing::Heap;

/// The order of the bytes of a unit, and whether a BOM precedes them.
#[derive(Clone, Copy)]
pub enum Order {
    /// Little endian.
    Little,
    /// Big endian.
    Big,
    /// Little endian after a BOM.
    LittleWithBom,
    /// Big endian after a BOM.
    BigWithBom,
}

static ORDERS: [(&str, Order); 4] = [
    ("le", Order::Little),
    ("be", Order::Big),
    ("lem", Order::LittleWithBom),
    ("bem", Order::BigWithBom),
];

fn granted<T>(made: Result<T, OutOfMemory>) -> Result<T, NoAnswer> {
    match made {
        Ok(value) => Ok(value),
        Err(_) => Err(NoAnswer::OutOfMemory),
    }
}

/// Returns the bytes of units in a vector.
pub fn made<'a, C: Unit>(
    heap: &'a Heap,
    view: UStr<'_, C>,
    order: Order,
) -> Result<Vec<u8, &'a Heap>, NoAnswer> {
    match order {
        Order::Little => granted(view.to_le_bytes(heap)),
        Order::Big => granted(view.to_be_bytes(heap)),
        Order::LittleWithBom => granted(view.to_le_bytes_with_bom(heap)),
        Order::BigWithBom => granted(view.to_be_bytes_with_bom(heap)),
    }
}

// Puts the bytes of units into a buffer, and returns how many there are.
fn put<C: Unit>(units: &[C], order: Order, buffer: &mut [u8; 404]) -> usize
    requires { unit_width C.form * (length units.now + 1) ≤ 404 }
{
    let view = UStr::from_slice(units);
    match order {
        Order::Little => view.put_le_bytes(buffer),
        Order::Big => view.put_be_bytes(buffer),
        Order::LittleWithBom => view.put_le_bytes_with_bom(buffer),
        Order::BigWithBom => view.put_be_bytes_with_bom(buffer),
    }
}

// Adds bytes, those that were put into a buffer, and whether the buffer is unchanged after them.
fn shown(answer: &mut Answer, made: &[u8], buffer: &[u8], count: usize) {
    let (put, beyond) = buffer.split_at(count.min(buffer.len()));
    answer.bytes(made);
    answer.part();
    answer.bytes(put);
    answer.part();
    answer.decided(beyond.iter().all(|byte| *byte == 0xaa));
}

// Adds the bytes of units in an order.
fn in_order<C: Unit>(memory: Memory<'_>, answer: &mut Answer, units: &[C], order: Order)
    requires { unit_width C.form * (length units.now + 1) ≤ 404 }
{
    let mut buffer = [0xaa; 404];
    let count = put(units, order, &mut buffer);
    match made(memory.heap, UStr::from_slice(units), order) {
        Ok(made) => shown(answer, &made, &buffer, count),
        Err(error) => answer.fail(error),
    }
}

fn of_units<C: Unit>(memory: Memory<'_>, answer: &mut Answer, units: &[C], question: &str)
    requires { unit_width C.form * (length units.now + 1) ≤ 404 }
{
    match parse::named(&ORDERS, question) {
        Ok(order) => in_order(memory, answer, units, order),
        Err(error) => answer.fail(error),
    }
}

/// Adds the bytes of 16-bit units.
pub fn of_units16(memory: Memory<'_>, answer: &mut Answer, units: &[u16], question: &str) {
    if units.len() <= 100 {
        of_units(memory, answer, units, question);
    } else {
        answer.fail(NoAnswer::Unparsed);
    }
}

/// Adds the bytes of 32-bit units.
pub fn of_units32(memory: Memory<'_>, answer: &mut Answer, units: &[u32], question: &str) {
    if units.len() <= 100 {
        of_units(memory, answer, units, question);
    } else {
        answer.fail(NoAnswer::Unparsed);
    }
}
