//! Copies elements into a buffer of the caller if they fit.
ghost use Rattle.std.specs.Prelude.{◌≡◌, ◌<◌, ◌≤◌, ◌+◌, ◌-◌, ◌^◌, ◌++◌, length, min, take, drop};

// Copies the items to the offset `at` of the buffer if they fit. Returns the offset after them, whether they fit or
// not, or `usize::MAX` if it is greater than that.
#[inline(always)]
pub(crate) fn put_items<T: Copy>(space: &mut [T], at: usize, items: &[T]) -> usize
    requires { length space.old < 2 ^ 64 - 1 }
    ensures offset { result ≡ min (at + length items.now) (2 ^ 64 - 1) }
    ensures items { result ≤ length space.old → take result space.new ≡ take at space.old ++ items.now }
    ensures space { length space.new ≡ length space.old }
    ensures beyond { drop result space.new ≡ drop result space.old }
{
    let end = at.saturating_add(items.len());
    if end <= space.len() {
        space[at..end].copy_from_slice(items);
    }
    end
}
