//! Edits of a vector of units, in place. Each edit allocates before it moves a unit.
ghost use Rattle.std.specs.Prelude.{◌≡◌, ◌+◌, ◌-◌, ◌<◌, ◌≤◌, ◌++◌, length, map, take, drop, slice_range, IsOk, OnOk, OnErr, vec_len, vec_capacity};
ghost use Rattle.std.specs.List.{splice, remove_range, copy_within};
ghost use Rattle.std.specs.Str.{chars};
ghost use Rattle.wide_forms.specs.EncodingForm.{code_units, encode};

use crate::moves::move_within;
use std::alloc::Allocator;
use wide_error::OutOfMemory;
use wide_from_utf8::from_utf8_prefix;
use wide_unit::Unit;

// Removes the units from `from` up to `to`, and moves each unit after them once. If `from` is `to`, no unit moves.
pub(crate) fn cut<C: Copy, A: Allocator>(units: &mut Vec<C, A>, from: usize, to: usize)
    requires forward { from ≤ to }
    requires within { to ≤ vec_len units.old }
    ensures units { units.new.items ≡ remove_range units.old.items from to }
    ensures capacity { vec_capacity units.new ≡ vec_capacity units.old }
{
    if from < to {
        let len = units.len();
        move_within(units.as_mut_slice(), to, len, from);
        units.truncate(len - (to - from));
    }
}

// Replaces the units from `from` up to `to` by a gap of `count` units, whose values are unspecified. Each unit from
// `to` on moves once at most, and none if `count` is `to - from`.
pub(crate) fn open<C: Unit, A: Allocator>(
    units: &mut Vec<C, A>,
    from: usize,
    to: usize,
    count: usize,
) -> Result<(), OutOfMemory>
    requires forward { from ≤ to }
    requires within { to ≤ vec_len units.old }
    ensures prefix { OnOk result (take from units.new.items ≡ take from units.old.items) }
    ensures rest { OnOk result (drop (from + count) units.new.items ≡ drop to units.old.items) }
    ensures len { OnOk result (vec_len units.new + (to - from) ≡ vec_len units.old + count) }
    ensures err { OnErr result ((units.new.items ≡ units.old.items) × (vec_capacity units.new ≡ vec_capacity units.old)) }
    ensures succeeds { vec_len units.old + count ≤ vec_capacity units.old + (to - from) → IsOk result }
    ensures capacity { vec_capacity units.old ≤ vec_capacity units.new }
{
    let removed = to - from;
    if count <= removed {
        cut(units, from + count, to);
        return Ok(());
    }
    let len = units.len();
    let more = count - removed;
    units.reserve(more)?;
    units.resize(len + more, C::NUL)?;
    move_within(units.as_mut_slice(), to, len, to + more);
    Ok(())
}

// Replaces the units from `from` up to `to` by other units. Each unit after them moves at most once.
pub(crate) fn replace<C: Unit, A: Allocator>(
    units: &mut Vec<C, A>,
    from: usize,
    to: usize,
    with: &[C],
) -> Result<(), OutOfMemory>
    requires forward { from ≤ to }
    requires within { to ≤ vec_len units.old }
    ensures ok { OnOk result (units.new.items ≡ splice units.old.items from to with.now) }
    ensures err { OnErr result ((units.new.items ≡ units.old.items) × (vec_capacity units.new ≡ vec_capacity units.old)) }
    ensures succeeds { vec_len units.old + length with.now ≤ vec_capacity units.old + (to - from) → IsOk result }
    ensures capacity { vec_capacity units.old ≤ vec_capacity units.new }
{
    open(units, from, to, with.len())?;
    units
        .slice_mut(from..from + with.len())
        .copy_from_slice(with);
    Ok(())
}

// Replaces the units from `from` up to `to` by the units of a character. Each unit after them moves at most once.
pub(crate) fn replace_char<C: Unit, A: Allocator>(
    units: &mut Vec<C, A>,
    from: usize,
    to: usize,
    c: char,
) -> Result<(), OutOfMemory>
    requires forward { from ≤ to }
    requires within { to ≤ vec_len units.old }
    ensures ok { OnOk result (map C.number units.new.items ≡ splice (map C.number units.old.items) from to (code_units C.form c)) }
    ensures err { OnErr result ((units.new.items ≡ units.old.items) × (vec_capacity units.new ≡ vec_capacity units.old)) }
    ensures succeeds { vec_len units.old + length (code_units C.form c) ≤ vec_capacity units.old + (to - from) → IsOk result }
    ensures capacity { vec_capacity units.old ≤ vec_capacity units.new }
{
    let (first, second) = C::encode_char(c);
    open(units, from, to, C::char_len(c))?;
    units[from] = first;
    if let Some(second) = second {
        units[from + 1] = second;
    }
    Ok(())
}

// Copies the units of a character, from `from` up to `to`, to an offset before them or to where they are.
pub(crate) fn copy_char<C: Copy, A: Allocator>(
    units: &mut Vec<C, A>,
    from: usize,
    to: usize,
    onto: usize,
)
    requires down { onto ≤ from }
    requires some { from < to }
    requires few { to ≤ from + 2 }
    requires within { to ≤ vec_len units.old }
    ensures units { units.new.items ≡ copy_within units.old.items from to onto }
    ensures capacity { vec_capacity units.new ≡ vec_capacity units.old }
{
    if onto < from {
        let first = units[from];
        let last = units[to - 1];
        units[onto] = first;
        // The only unit of a character is written twice, so that the length needs no test.
        units[onto + (to - 1 - from)] = last;
    }
}

// Appends the units of a character, in spare capacity.
pub(crate) fn push_char<C: Unit, A: Allocator>(units: &mut Vec<C, A>, c: char)
    requires { vec_len units.old + length (code_units C.form c) ≤ vec_capacity units.old }
    ensures units { map C.number units.new.items ≡ map C.number units.old.items ++ code_units C.form c }
    ensures len { vec_len units.new ≡ vec_len units.old + length (code_units C.form c) }
    ensures capacity { vec_capacity units.new ≡ vec_capacity units.old }
{
    let (first, second) = C::encode_char(c);
    units.push_reserved(first);
    if let Some(second) = second {
        units.push_reserved(second);
    }
}

// Writes the units of a text over as many units.
fn write_str<C: Unit>(units: &mut [C], text: &str)
    requires { length units.old ≡ length (encode C.form (chars text.now)) }
    ensures { map C.number units.new ≡ encode C.form (chars text.now) }
{
    from_utf8_prefix(text.as_bytes(), units);
}

// Appends the units of a text.
pub(crate) fn push_str<C: Unit, A: Allocator>(
    units: &mut Vec<C, A>,
    text: &str,
) -> Result<(), OutOfMemory>
    ensures ok { OnOk result (map C.number units.new.items ≡ map C.number units.old.items ++ encode C.form (chars text.now)) }
    ensures err { OnErr result ((units.new.items ≡ units.old.items) × (vec_capacity units.new ≡ vec_capacity units.old)) }
    ensures succeeds { vec_len units.old + length (encode C.form (chars text.now)) ≤ vec_capacity units.old → IsOk result }
    ensures capacity { vec_capacity units.old ≤ vec_capacity units.new }
{
    let len = units.len();
    let more = C::text_len(text);
    units.reserve(more)?;
    units.resize(len + more, C::NUL)?;
    write_str(units.slice_mut(len..), text);
    Ok(())
}

// Appends a copy of the units from `from` up to `to`.
pub(crate) fn push_within<C: Unit, A: Allocator>(
    units: &mut Vec<C, A>,
    from: usize,
    to: usize,
) -> Result<(), OutOfMemory>
    requires forward { from ≤ to }
    requires within { to ≤ vec_len units.old }
    ensures ok { OnOk result (units.new.items ≡ units.old.items ++ slice_range units.old.items from to) }
    ensures err { OnErr result ((units.new.items ≡ units.old.items) × (vec_capacity units.new ≡ vec_capacity units.old)) }
    ensures succeeds { vec_len units.old + (to - from) ≤ vec_capacity units.old → IsOk result }
    ensures capacity { vec_capacity units.old ≤ vec_capacity units.new }
{
    let len = units.len();
    let more = to - from;
    units.reserve(more)?;
    units.resize(len + more, C::NUL)?;
    move_within(units.as_mut_slice(), from, to, len);
    Ok(())
}

// Replaces the units from `from` up to `to` by the units of a text. They are written into a gap of their length. Each
// unit after them moves at most once.
pub(crate) fn replace_str<C: Unit, A: Allocator>(
    units: &mut Vec<C, A>,
    from: usize,
    to: usize,
    text: &str,
) -> Result<(), OutOfMemory>
    requires forward { from ≤ to }
    requires within { to ≤ vec_len units.old }
    ensures ok { OnOk result (map C.number units.new.items ≡ splice (map C.number units.old.items) from to (encode C.form (chars text.now))) }
    ensures err { OnErr result ((units.new.items ≡ units.old.items) × (vec_capacity units.new ≡ vec_capacity units.old)) }
    ensures succeeds { vec_len units.old + length (encode C.form (chars text.now)) ≤ vec_capacity units.old + (to - from) → IsOk result }
    ensures capacity { vec_capacity units.old ≤ vec_capacity units.new }
{
    let count = C::text_len(text);
    open(units, from, to, count)?;
    write_str(units.slice_mut(from..from + count), text);
    Ok(())
}
