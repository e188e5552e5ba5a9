//! An allocator that runs out of memory on request, for tests of allocation failures.
use std::alloc::{AllocError, Allocator};
use std::cell::Cell;

// How many more requests are granted, and how many have failed.
#[derive(Drop)]
struct Ration {
    left: Cell<u64>,
    failed: Cell<u64>,
}

impl Ration {
    // Counts a request, and returns whether it fails.
    fn fails(&self) -> bool {
        let left = self.left.get();
        if left == 0 {
            self.failed.set(self.failed.get().saturating_add(1));
            return true;
        }
        self.left.set(left - 1);
        false
    }
}

/// An allocator that passes a limited number of requests on to another one. All further requests fail.
///
/// Strings and vectors borrow it, as `&Limited`, so that their clones count the same requests.
pub struct Limited<B: Allocator> {
    inner: B,
    ration: Ration,
}

impl<B: Allocator> Limited<B> {
    /// Creates an allocator that fails each request until [`Limited::set`] is called.
    pub fn new(inner: B) -> Self {
        Limited {
            inner,
            ration: Ration {
                left: Cell::new(0),
                failed: Cell::new(0),
            },
        }
    }

    /// Grants this many more requests, and resets the number of failed ones.
    pub fn set(&self, left: u64) {
        self.ration.left.set(left);
        self.ration.failed.set(0);
    }

    /// Returns how many more requests are granted.
    pub fn left(&self) -> u64 {
        self.ration.left.get()
    }

    /// Returns how many requests failed since the last [`Limited::set`].
    pub fn failed(&self) -> u64 {
        self.ration.failed.get()
    }

    /// Returns whether all granted requests were made, this many and at least one, and none failed.
    pub fn granted_all(&self, granted: u64) -> bool {
        granted > 0 && self.left() == 0 && self.failed() == 0
    }

    /// Returns whether all granted requests were made, and one more, which failed.
    pub fn failed_one(&self) -> bool {
        self.left() == 0 && self.failed() == 1
    }
}

impl<B: Allocator> Drop for Limited<B> {
    fn drop(self) {
        let Self {
            inner: _,
            ration: _,
        } = self;
    }
}

unsafe impl<B: Allocator> Allocator for Limited<B> {
    ghost dealloc_token = { λ heap ty ptr. B.dealloc_token heap.inner ty ptr };

    fn allocate(&self, size: usize, align: usize) -> Result<*mut u8, AllocError> {
        if self.ration.fails() {
            return Err(AllocError);
        }
        self.inner.allocate(size, align)
    }

    unsafe fn deallocate(&self, ptr: *mut u8, size: usize, align: usize) {
        unsafe { self.inner.deallocate(ptr, size, align) }
    }
}
