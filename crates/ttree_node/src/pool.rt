//! A pool of free nodes.
ghost use Rattle.std.specs.Prelude.{◌≡◌, ◌+◌, ◌^◌, ◌<◌, ◌≤◌, min, max, OnOk, OnErr};
ghost use Rattle.ttree_node.specs.Tree.{Empty};

use crate::nodes::Subtree;
use std::alloc::{AllocError, Global};
use std::marker::Model;

/// The maximum number of free nodes.
const MAX_SPARES: usize = 1 << 32;

/// Free nodes, so that a later insertion does not allocate. The model is their number.
pub struct Spares {
    chain: Option<Subtree>,
    len: usize,
}

impl Model for Spares {
    ghost use Rattle.std.specs.Prelude.{ℕ};
    ghost use Rattle.ttree_node.specs.Tree.{tree_of, node_count};
    ghost use Rattle.ttree_node.specs.Spares.{IsPool};

    ghost Value = { ℕ };

    ghost view = { λ s. s.len };

    ghost invariant = { λ s. IsPool (tree_of s.chain) s.len };
}

impl Drop for Spares {
    /// Frees node by node, since the chain may be long.
    fn drop(mut self) {
        self.free_all();
        let Spares { chain: _, len: _ } = self;
    }
}

impl Spares {
    /// Returns an empty pool. Allocates nothing.
    pub fn new(_alloc: Global) -> Spares
        ensures { result ≡ 0 }
    {
        Spares {
            chain: None,
            len: 0,
        }
    }

    /// Returns the number of free nodes.
    pub fn len(&self) -> usize
        ensures { result ≡ self.now }
    {
        self.len
    }

    /// Allocates nodes until there are at least `n`. Fails with `AllocError` if an allocation fails, or if `n` exceeds 2^32 and the number
    /// of free nodes. After a failure there are fewer than `n` free nodes, but not fewer than before.
    pub fn reserve(&mut self, alloc: Global, n: usize) -> Result<(), AllocError>
        ensures ok { OnOk result (self.new ≡ max self.old n) }
        ensures err { OnErr result (self.new < n) }
        ensures not_fewer { self.old ≤ self.new }
        ensures not_more { self.new ≤ max self.old n }
    {
        let held = self.len();
        if n <= held {
            return Ok(());
        }
        if n > MAX_SPARES {
            return Err(AllocError);
        }
        self.put_all(Spares::allocated(alloc, n - held));
        if self.len() < n {
            return Err(AllocError);
        }
        Ok(())
    }

    /// Returns a pool of `n` new nodes, or of fewer if an allocation fails. The first node to be taken is the one that was allocated last.
    fn allocated(alloc: Global, n: usize) -> Spares
        requires { n ≤ 2 ^ 32 }
        ensures { result ≤ n }
    {
        let mut fresh = Spares::new(alloc);
        for _ in 0..n {
            let Ok(node) = Subtree::blank(alloc) else {
                return fresh;
            };
            fresh.put(node);
        }
        fresh
    }

    /// Adds all nodes of another pool. They will be taken in reverse order: a tree that takes few of many new nodes takes those at the lowest
    /// addresses, and the allocator can return the memory of the others to the system once they are freed.
    fn put_all(&mut self, mut other: Spares)
        requires { self.old + other ≤ 2 ^ 32 }
        ensures { self.new ≡ self.old + other }
    {
        while other.len() > 0 {
            self.put(other.take());
        }
    }

    /// Frees nodes until there are at most `n`: those that would be taken last.
    pub fn trim(&mut self, n: usize)
        ensures { self.new ≡ min self.old n }
    {
        self.is_few();
        if self.len() <= n {
            return;
        }
        let kept = self.split_first(n);
        self.free_all();
        self.put_all(kept);
    }

    /// Lemma: there are at most 2^32 free nodes. The call does nothing.
    fn is_few(&self)
        ensures { self.now ≤ 2 ^ 32 }
    {
        let _len = self.len;
    }

    /// Takes out `n` nodes, into another pool.
    fn split_first(&mut self, n: usize) -> Spares
        requires held { n ≤ self.old }
        requires few { n < 2 ^ 32 }
        ensures taken { result ≡ n }
        ensures left { self.new + n ≡ self.old }
    {
        let chain = None;
        let mut first = Spares { chain, len: 0 };
        while first.len() < n {
            first.put(self.take());
        }
        first
    }

    /// Frees all nodes.
    fn free_all(&mut self)
        ensures { self.new ≡ 0 }
    {
        while self.len() > 0 {
            drop(self.take());
        }
    }

    /// Adds a node without subtrees.
    pub(crate) fn put(&mut self, mut node: Subtree)
        requires no_left { node.left ≡ Empty }
        requires no_right { node.right ≡ Empty }
        requires fits { self.old < 2 ^ 32 }
        ensures { self.new ≡ self.old + 1 }
    {
        node.set_left(self.chain.take());
        self.chain = Some(node);
        self.len += 1;
    }

    /// Removes and returns a node, which has no subtrees.
    pub(crate) fn take(&mut self) -> Subtree
        requires { 0 < self.old }
        ensures no_left { result.left ≡ Empty }
        ensures no_right { result.right ≡ Empty }
        ensures one_less { self.new + 1 ≡ self.old }
    {
        let Some(mut node) = self.chain.take() else {
            unreachable!()
        };
        self.chain = node.take_left();
        self.len -= 1;
        node
    }
}
