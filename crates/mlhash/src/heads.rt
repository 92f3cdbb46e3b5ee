//! The heads of the buckets.
ghost use Rattle.std.specs.Prelude.{◌≡◌, ◌<◌, ◌-◌, [], ◌∷◌, ◌++◌, length, take, slice_index, slice_set};
ghost use Rattle.std.specs.Bool.{OnTrue, OnFalse};

use crate::node::NIL;
use std::alloc::Global;
use std::marker::Model;

/// The first node of each bucket's chain. The heads of the first 4 buckets are stored inline.
#[derive(Drop)]
pub(crate) struct Heads {
    first: [u32; 4],
    more: Vec<u32>,
}

impl Model for Heads {
    ghost use Rattle.std.specs.Prelude.{List, ℕ, ◌++◌, ◌≡◌, length};

    ghost Value = { List ℕ };

    ghost view = { λ h. h.first ++ h.more.items };

    ghost invariant = { λ h. length h.first ≡ 4 };
}

impl Heads {
    /// Returns the heads of four empty buckets.
    pub(crate) fn new(alloc: Global) -> Heads
        ensures { result ≡ NIL ∷ NIL ∷ NIL ∷ NIL ∷ [] }
    {
        Heads {
            first: [NIL; 4],
            more: Vec::new(alloc),
        }
    }

    /// Keeps the first four buckets, empty, and the capacity for more.
    pub(crate) fn clear(&mut self)
        ensures { self.new ≡ NIL ∷ NIL ∷ NIL ∷ NIL ∷ [] }
    {
        self.first = [NIL; 4];
        self.more.clear();
    }

    /// Returns the number of buckets.
    pub(crate) fn len(&self) -> usize
        ensures { result ≡ length self.now }
    {
        4 + self.more.len()
    }

    /// Returns the head of a bucket.
    pub(crate) fn get(&self, bucket: usize) -> u32
        requires { bucket < length self.now }
        ensures { result ≡ slice_index self.now bucket }
    {
        if bucket < 4 {
            self.first[bucket]
        } else {
            self.more[bucket - 4]
        }
    }

    /// Sets the head of a bucket.
    pub(crate) fn set(&mut self, bucket: usize, head: u32)
        requires { bucket < length self.old }
        ensures { self.new ≡ slice_set self.old bucket head }
    {
        if bucket < 4 {
            self.first[bucket] = head;
        } else {
            self.more[bucket - 4] = head;
        }
    }

    /// Reserves capacity for `buckets` buckets if the allocation succeeds. A failed allocation is ignored.
    pub(crate) fn reserve(&mut self, buckets: usize)
        ensures { self.new ≡ self.old }
    {
        let missing = buckets.saturating_sub(self.len());
        let _ = self.more.reserve(missing);
    }

    /// Frees capacity for more than twice as many buckets.
    pub(crate) fn trim(&mut self)
        ensures { self.new ≡ self.old }
    {
        let buckets = self.more.len();
        self.more.shrink_to(buckets.saturating_mul(2));
    }

    /// Appends an empty bucket if there is capacity for it, and returns whether it did.
    pub(crate) fn grow(&mut self) -> bool
        ensures grown { OnTrue result (self.new ≡ self.old ++ NIL ∷ []) }
        ensures full { OnFalse result (self.new ≡ self.old) }
    {
        if self.more.len() == self.more.capacity() {
            return false;
        }
        self.more.push_reserved(NIL);
        true
    }

    /// Removes the last bucket, which is not one of the first four.
    pub(crate) fn shrink(&mut self)
        requires { 4 < length self.old }
        ensures { self.new ≡ take (length self.old - 1) self.old }
    {
        let _ = self.more.pop();
    }
}
