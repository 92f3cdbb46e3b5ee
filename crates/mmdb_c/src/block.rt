//! Owned heap values whose pointer a handle can store.
ghost use Rattle.std.specs.Prelude.{◌≡◌};

use std::alloc::Allocator;
use std::marker::Model;

/// Owns a value on the heap, as a `Box` does, but exposes its pointer.
pub(crate) struct Block<T, A: Allocator> {
    pub(crate) at: *mut T,
    pub(crate) alloc: A,
    pub(crate) ghost value: { T },
}

impl<T, A: Allocator> Model for Block<T, A> {
    ghost use Rattle.mmdb_c.specs.Owning.{block_owns};

    ghost also_owns = { λ o. block_owns (A.dealloc_token o.alloc) T.row o.at o.value };
}

impl<T: Drop, A: Allocator> Block<T, A> {
    /// Turns a box into a block.
    pub(crate) fn from_box(boxed: Box<T, A>) -> Block<T, A>
        ensures { result.value ≡ boxed.value }
    {
        let (at, alloc) = Box::into_raw_with_allocator(boxed);
        Block { at, alloc }
    }

    /// Turns the block into a box.
    pub(crate) fn into_box(self) -> Box<T, A>
        ensures { result.value ≡ self.value }
    {
        let Block { at, alloc } = self;
        unsafe { Box::from_raw(alloc, at) }
    }
}
