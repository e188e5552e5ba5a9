//! Moves of elements within a slice.
//!
//! `copy_within` of std moves one element in one step, unless the compiler can tell that the distance is greater than a
//! vector. Here a whole block is read before any of it is written, so that the distance may be small.
ghost use Rattle.std.specs.Prelude.{◌≡◌, ◌+◌, ◌-◌, ◌≤◌, length};
ghost use Rattle.std.specs.List.{copy_within};

// How many elements a block has.
const BLOCK: usize = 32;

// Moves a block of elements from one index to another. The compiler vectorizes both loops, whose bounds are proved.
// `copy_from_slice` would need the size of an element, which is unknown for a generic `T: Copy`.
#[inline(always)]
fn move_block<T: Copy>(elements: &mut [T], from: usize, to: usize)
    requires from { from + 32 ≤ length elements.old }
    requires to { to + 32 ≤ length elements.old }
    ensures { elements.new ≡ copy_within elements.old from (from + 32) to }
{
    let mut block = [elements[from]; BLOCK];
    for k in 0..BLOCK {
        block[k] = elements[from + k];
    }
    for k in 0..BLOCK {
        elements[to + k] = block[k];
    }
}

// Moves elements to a greater index, the last block first.
fn move_up<T: Copy>(elements: &mut [T], from: usize, to: usize, count: usize)
    requires up { from ≤ to }
    requires within { to + count ≤ length elements.old }
    ensures { elements.new ≡ copy_within elements.old from (from + count) to }
{
    let mut left = count;
    while left >= BLOCK {
        left -= BLOCK;
        move_block(elements, from + left, to + left);
    }
    elements.copy_within(from..from + left, to);
}

// Moves elements to a smaller index, the first block first.
fn move_down<T: Copy>(elements: &mut [T], from: usize, to: usize, count: usize)
    requires down { to ≤ from }
    requires within { from + count ≤ length elements.old }
    ensures { elements.new ≡ copy_within elements.old from (from + count) to }
{
    let mut done = 0;
    while count - done >= BLOCK {
        move_block(elements, from + done, to + done);
        done += BLOCK;
    }
    elements.copy_within(from + done..from + count, to + done);
}

// Moves the elements from `from` up to `end` to the index `to`, as `copy_within` does.
pub(crate) fn move_within<T: Copy>(elements: &mut [T], from: usize, end: usize, to: usize)
    requires forward { from ≤ end }
    requires from { end ≤ length elements.old }
    requires to { to + (end - from) ≤ length elements.old }
    ensures { elements.new ≡ copy_within elements.old from end to }
{
    if from <= to {
        move_up(elements, from, to, end - from);
    } else {
        move_down(elements, from, to, end - from);
    }
}
