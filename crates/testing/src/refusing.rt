//! An allocator for tests that refuses one of the requests that it gets.
//!
//! A test calls a function with [`Refusing`] allocators that refuse the first request, the second
//! and so on, until a run ends without a refusal. So it sees what the function answers wherever a
//! growth is refused.

use std::alloc::{AllocError, Allocator};
use std::cell::Cell;

/// What is still to be refused.
#[derive(Clone, Copy)]
enum Plan {
    /// The request after so many others.
    After(u64),
    /// None: one was refused.
    Refused,
}

/// Passes each request on to another allocator, except one, which it refuses.
pub struct Refusing<B: Allocator> {
    inner: B,
    plan: Cell<Plan>,
}

impl<B: Allocator> Refusing<B> {
    /// An allocator that refuses the request of this number, counted from 0, and none after it.
    pub fn new(inner: B, refuse_at: u64) -> Refusing<B> {
        Refusing {
            inner,
            plan: Cell::new(Plan::After(refuse_at)),
        }
    }

    /// Whether the request was made that is refused.
    pub fn has_refused(&self) -> bool {
        match self.plan.get() {
            Plan::After(_) => false,
            Plan::Refused => true,
        }
    }
}

impl<B: Allocator> Drop for Refusing<B> {
    fn drop(self) {
        let Refusing { inner: _, plan: _ } = self;
    }
}

/// Counts a request, and says whether it is the one that is refused.
fn is_refused(plan: &Cell<Plan>) -> bool {
    match plan.get() {
        Plan::After(0) => {
            plan.set(Plan::Refused);
            true
        }
        Plan::After(others) => {
            plan.set(Plan::After(others - 1));
            false
        }
        Plan::Refused => false,
    }
}

unsafe impl<B: Allocator> Allocator for Refusing<B> {
    ghost dealloc_token = { λ heap ty ptr. B.dealloc_token heap.inner ty ptr };

    fn allocate(&self, size: usize, align: usize) -> Result<*mut u8, AllocError> {
        if is_refused(&self.plan) {
            return Err(AllocError);
        }
        self.inner.allocate(size, align)
    }

    unsafe fn deallocate(&self, ptr: *mut u8, size: usize, align: usize) {
        self.inner.deallocate(ptr, size, align);
    }
}
