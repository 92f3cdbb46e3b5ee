//! Owners of allocations: the only raw pointers of the crate.
ghost use Rattle.std.specs.Prelude.{◌≡◌, Option, None, Some, IsSome, IfOk};
ghost use Rattle.std.specs.Coded.{coded_option};

use std::alloc::{AllocFailed, Allocator};
use std::marker::Model;

/// Owns a value in an allocation of its own, which is freed when the owner is dropped.
///
/// The block is allocated and freed as a `Box`'s. Until then no other pointer to it exists, so the value can be accessed through the
/// pointer as long as the owner is borrowed.
pub(crate) struct Owned<T, A: Allocator> {
    at: *mut T,
    alloc: A,
    pub(crate) ghost value: { T },
}

impl<T, A: Allocator> Model for Owned<T, A> {
    ghost use Rattle.ttree_node.specs.Block.{block_owns, block_lends};

    ghost also_owns = { λ o. block_owns (A.dealloc_token o.alloc) T.row o.at o.value };

    ghost also_shares = { λ o _ κ. block_lends T.row o.at o.value κ };
}

impl<T, A: Allocator> Owned<T, A> {
    ghost use Rattle.std.specs.Borrow.{sem};
    ghost use Rattle.ttree_node.specs.BlockLent.{owner_follows};

    /// Returns a shared reference to the value.
    #[inline]
    pub(crate) fn as_ref(&self) -> &T
        ensures { result.now ≡ self.now.value }
    {
        unsafe { &*self.at }
    }

    /// Returns a mutable reference to the value.
    #[inline]
    pub(crate) fn as_mut(&mut self) -> &mut T
        ensures* writes_back { sem 𝓛 (owner_follows T.row A.row A.Allocator self.entry result) }
        ensures value { result.now ≡ self.old.value }
    {
        unsafe { &mut *self.at }
    }

    /// Returns the same owner, as a `MaybeOwned`.
    pub(crate) fn into_maybe(self) -> MaybeOwned<T, A>
        ensures { result.value ≡ Some self.value }
    {
        let Owned { at, alloc } = self;
        MaybeOwned { at, alloc }
    }
}

impl<T: Drop, A: Allocator> Owned<T, A> {
    /// Moves a value into a new allocation. Fails with `AllocFailed`, which returns the value, if the allocation fails.
    pub(crate) fn new(alloc: A, value: T) -> Result<Owned<T, A>, AllocFailed<T>>
        ensures { IfOk result (λ o. o.value ≡ value) }
    {
        Ok(Owned::from_box(Box::new(alloc, value)?))
    }

    fn from_box(boxed: Box<T, A>) -> Owned<T, A>
        ensures { result.value ≡ boxed.value }
    {
        let (at, alloc) = Box::into_raw_with_allocator(boxed);
        Owned { at, alloc }
    }

    fn into_box(self) -> Box<T, A>
        ensures { result.value ≡ self.value }
    {
        let Owned { at, alloc } = self;
        unsafe { Box::from_raw(alloc, at) }
    }
}

impl<T: Drop, A: Allocator> Drop for Owned<T, A> {
    fn drop(self) {
        drop(self.into_box());
    }
}

/// The pointer of an `Owned`, or null if there is no value. No tag distinguishes the two, so callers that access or take the value must
/// know that it exists. Dropping a `MaybeOwned` frees nothing: take the value first.
#[derive(Drop)]
pub(crate) struct MaybeOwned<T, A: Allocator> {
    at: *mut T,
    alloc: A,
    pub(crate) ghost value: { Option T } by { coded_option T.code },
}

impl<T, A: Allocator> Model for MaybeOwned<T, A> {
    ghost use Rattle.ttree_node.specs.Block.{maybe_owns, maybe_lends};

    ghost also_owns = { λ o. maybe_owns (A.dealloc_token o.alloc) T.row o.at o.value };

    ghost also_shares = { λ o _ κ. maybe_lends T.row o.at o.value κ };
}

impl<T, A: Allocator> MaybeOwned<T, A> {
    ghost use Rattle.std.specs.Borrow.{sem};
    ghost use Rattle.ttree_node.specs.BlockLent.{maybe_follows};

    /// Returns a `MaybeOwned` without a value.
    pub(crate) fn none(alloc: A) -> MaybeOwned<T, A>
        ensures { result.value ≡ None }
    {
        let at = std::ptr::null_mut();
        MaybeOwned { at, alloc }
    }

    /// Returns the owner of the value, which must exist.
    pub(crate) fn into_owned(self) -> Owned<T, A>
        requires { IsSome self.value }
        ensures { Some result.value ≡ self.value }
    {
        let MaybeOwned { at, alloc } = self;
        Owned { at, alloc }
    }

    /// Returns a shared reference to the value, which must exist.
    #[inline]
    pub(crate) fn as_ref(&self) -> &T
        requires { IsSome self.now.value }
        ensures { Some result.now ≡ self.now.value }
    {
        unsafe { &*self.at }
    }

    /// Returns a mutable reference to the value, which must exist.
    #[inline]
    pub(crate) fn as_mut(&mut self) -> &mut T
        requires { IsSome self.old.value }
        ensures* writes_back { sem 𝓛 (maybe_follows T.row A.row A.Allocator self.entry result) }
        ensures value { Some result.now ≡ self.old.value }
    {
        unsafe { &mut *self.at }
    }
}
