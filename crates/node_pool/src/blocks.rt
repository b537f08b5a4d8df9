//! One value on the heap behind a raw pointer. The four methods of `Block` alone touch the pointer, and are proved by
//! hand; all else is safe code.
ghost use Rattle.std.specs.Prelude.{◌≡◌};
ghost use Rattle.std.specs.Borrow.{sem};
ghost use Rattle.std.specs.Box.Ownership.{box_owns};
ghost use denote.Struct.Lending.{lent_at};

use std::alloc::Allocator;
use std::marker::Model;

// It owns what a `Box` owns, and lends what a `Box` lends. `value` is what lies at `ptr`.
pub(crate) struct Block<T, A: Allocator> {
    ptr: *mut T,
    alloc: A,
    pub(crate) ghost value: { T },
}

impl<T, A: Allocator> Model for Block<T, A> {
    ghost also_owns = { λ b. box_owns (A.dealloc_token b.alloc) T.row b.ptr b.value };

    ghost also_shares = { λ b _ κ. lent_at T.row b.ptr b.value κ };
}

impl<T, A: Allocator> Block<T, A> {
    ghost use Rattle.node_pool.specs.Inner.Lends.{block_follows};

    // Takes over what the box owns. The value stays where it lies.
    pub(crate) fn of(b: Box<T, A>) -> Block<T, A>
    where
        T: Drop,
        ensures { result.value ≡ b.value }
    {
        let (ptr, alloc) = Box::into_raw_with_allocator(b);
        Block { ptr, alloc }
    }

    // Gives it back to a box.
    pub(crate) fn into_box(self) -> Box<T, A>
        ensures { result.value ≡ self.value }
    {
        let Block { ptr, alloc } = self;
        unsafe { Box::from_raw(alloc, ptr) }
    }

    // Reads at the pointer.
    #[inline]
    pub(crate) fn as_ref(&self) -> &T
        ensures { result.now ≡ self.now.value }
    {
        unsafe { &*self.ptr }
    }

    // Writes at the pointer: afterwards the block has the last value that was written.
    #[inline]
    pub(crate) fn as_mut(&mut self) -> &mut T
        ensures* writes_back { sem 𝓛 (block_follows T.row A.row A.Allocator self.entry result) }
        ensures value { result.now ≡ self.old.value }
    {
        unsafe { &mut *self.ptr }
    }
}

impl<T: Drop, A: Allocator> Drop for Block<T, A> {
    fn drop(self) {
        drop(self.into_box());
    }
}
