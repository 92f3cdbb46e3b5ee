//! The multiset of hashes and references.
ghost use Rattle.std.specs.Prelude.{min};
ghost use Rattle.std.specs.Prelude.{◌≡◌, ◌+◌, ◌<◌, ◌≤◌, ◌↔◌, vec_len, vec_capacity, [], ◌∷◌, ◌++◌, length, Contains, IsPermutation, IsTrue, IsOk, OnOk, OnErr};
ghost use Rattle.std.specs.Bool.{OnTrue, OnFalse};
ghost use Rattle.mlhash.specs.Bag.{IsSmall, refs_of, all_refs, AppendsInSomeOrder};
ghost use Rattle.mlhash.specs.Table.{Stocks};

#[cfg(test)]
mod tests;

use crate::chains::{deal, find_by_hint};
use crate::directory::Directory;
use crate::heads::Heads;
use crate::matching::Matching;
use crate::node::{FREE, NIL, Node};
use crate::place::{Place, bucket_of, place_after, place_before};
use mm_value::RowRef;
use std::alloc::{AllocError, Global};
use std::marker::Model;

/// The maximum number of nodes: links are 32-bit indexes, and `NIL` is none.
const MAX_NODES: usize = NIL as usize;

/// A multiset of pairs of a hash and a reference, with capacity for more.
///
/// Implemented as a table of modified linear hashing (Lehman and Carey, VLDB 1986, with the address rule of Litwin, VLDB 1980): each bucket
/// has a chain of nodes, and each node has one entry. A look-up walks one chain. An insert splits at most one bucket, if there are more
/// than two entries per bucket. A removal merges at most one, if there is less than half an entry per bucket. Nodes of removed entries stay
/// in the table's free list. A table has at most 2^32 - 1 entries.
///
/// A chain is as long as there are entries of one hash. A removal need not walk it: for each slot of a reference, a directory names the
/// node that last received an entry of it.
#[derive(Drop)]
pub struct HashRefs {
    heads: Heads,
    nodes: Vec<Node>,
    directory: Directory,
    len: usize,
    place: Place,
    free: u32,
}

impl Model for HashRefs {
    ghost use Rattle.mlhash.specs.Bag.{Bag};
    ghost use Rattle.std.specs.Prelude.{◌-◌, min, vec_capacity};

    ghost Value = { Bag };

    ghost use Rattle.mlhash.specs.Table.{entries, IsTable};

    ghost view = { λ t. record {
      entries = entries t.nodes.items;
      spare = min (vec_capacity t.nodes) 4294967295 - t.len;
    } };

    ghost invariant = { λ t. IsTable t.heads t.nodes.items t.len t.place t.free };
}

/// Returns the head of a nonempty chain of free nodes: `free`, or one new node if `free` is `NIL`.
fn stock(nodes: &mut Vec<Node>, free: u32) -> u32
    requires { free ≡ NIL → (vec_len nodes.old < vec_capacity nodes.old) × (vec_len nodes.old < NIL) }
    ensures capacity { vec_capacity nodes.new ≡ vec_capacity nodes.old }
    ensures nodes { Stocks nodes.old.items free nodes.new.items result }
{
    if free != NIL {
        return free;
    }
    let fresh = nodes.len() as u32;
    nodes.push_reserved(Node {
        hash: 0,
        reference: FREE,
        next: NIL,
    });
    fresh
}

impl HashRefs {
    /// Returns an empty multiset. Allocates nothing.
    pub fn new(alloc: Global) -> HashRefs
        ensures entries { result.entries ≡ [] }
        ensures spare { result.spare ≡ 0 }
    {
        HashRefs {
            heads: Heads::new(alloc),
            nodes: Vec::new(alloc),
            directory: Directory::new(alloc),
            len: 0,
            place: Place { level: 0, split: 0 },
            free: NIL,
        }
    }

    /// Returns the number of pairs, counted with multiplicity.
    pub fn len(&self) -> usize
        ensures { result ≡ length self.now.entries }
    {
        self.len
    }

    /// Returns the capacity for more pairs.
    pub fn spare(&self) -> usize
        ensures { result ≡ self.now.spare }
    {
        self.nodes.capacity().min(MAX_NODES) - self.len
    }

    /// Reserves capacity for `n` more pairs. If the table must grow, also tries to allocate the bucket heads for all splits within the new
    /// capacity, and one directory place per pair of capacity.
    ///
    /// Returns `AllocError` if the nodes cannot be allocated, or if there would be more than 2^32 - 1 of them. Succeeds even if bucket
    /// heads (inserts then skip splits) or directory places (removals then walk chains) cannot be allocated.
    pub fn reserve(&mut self, _alloc: Global, n: usize) -> Result<(), AllocError>
        ensures ok { OnOk result (n ≤ self.new.spare) }
        ensures met { n ≤ self.old.spare → IsOk result }
        ensures entries { self.new.entries ≡ self.old.entries }
        ensures spare { self.old.spare ≤ self.new.spare }
    {
        if n <= self.spare() {
            return Ok(());
        }
        if n > MAX_NODES - self.len {
            return Err(AllocError);
        }
        let entries = self.len + n;
        self.nodes
            .reserve(entries.saturating_sub(self.nodes.len()))?;
        let room = self.nodes.capacity().min(MAX_NODES);
        self.heads.reserve(room.div_ceil(2));
        self.directory.reserve(room);
        Ok(())
    }

    /// Inserts a pair. Requires capacity for it, and a reference below slot 2^32 - 1, which marks free nodes.
    pub fn insert(&mut self, hash: u64, reference: RowRef)
        requires room { 0 < self.old.spare }
        requires small { IsSmall reference }
        ensures entries { IsPermutation self.new.entries ((hash, reference) ∷ self.old.entries) }
        ensures spare { self.new.spare + 1 ≡ self.old.spare }
    {
        self.put(hash, reference);
        self.split_if_crowded();
    }

    /// Removes one such pair. Returns `false`, and changes nothing, if there is none.
    ///
    /// The time does not depend on how many pairs share the hash if the pair is the last one inserted for its reference, and the
    /// reference's slot was below the capacity for pairs both at that insert and at the last `reserve`. Otherwise the call walks the chain
    /// of the hash.
    pub fn remove(&mut self, hash: u64, reference: RowRef) -> bool
        ensures found { IsTrue result ↔ Contains self.old.entries (hash, reference) }
        ensures entries { OnTrue result (IsPermutation self.old.entries ((hash, reference) ∷ self.new.entries)) }
        ensures spare { OnTrue result (self.new.spare ≡ self.old.spare + 1) }
        ensures none { OnFalse result (self.new ≡ self.old) }
    {
        if !self.take(hash, reference) {
            return false;
        }
        self.merge_if_sparse();
        true
    }

    /// Frees capacity if there is capacity for more than two and a half times as many pairs, so that a few insertions and removals do not
    /// reallocate. Capacity for `n` more pairs remains, as far as there was that much. Cannot fail: if the allocation of a smaller block
    /// fails, the larger one stays.
    pub fn trim(&mut self, n: usize)
        ensures entries { self.new.entries ≡ self.old.entries }
        ensures fewer { self.new.spare ≤ self.old.spare }
        ensures kept { min self.old.spare n ≤ self.new.spare }
    {
        let kept = self.len.saturating_add(self.len / 4).saturating_add(n);
        if self.nodes.capacity() / 2 <= kept {
            return;
        }
        self.nodes.shrink_to(kept);
        self.heads.trim();
        self.directory.trim(kept);
    }

    /// Removes all pairs. Their nodes become capacity for more, so nothing is freed.
    pub fn clear(&mut self)
        ensures entries { self.new.entries ≡ [] }
        ensures spare { self.new.spare ≡ self.old.spare + length self.old.entries }
    {
        self.heads.clear();
        self.nodes.clear();
        self.len = 0;
        self.place = Place { level: 0, split: 0 };
        self.free = NIL;
    }

    /// Returns an iterator over the references of a hash, with multiplicity, in no specified order. Allocates nothing.
    pub fn matching(&self, hash: u64) -> Matching<'_>
        ensures { IsPermutation result (refs_of hash self.now.entries) }
    {
        let head = self.heads.get(bucket_of(self.place, hash));
        Matching::along(&self.nodes, head, hash)
    }

    /// Appends the references of a hash, with multiplicity, in no specified order. Returns `AllocError` if an allocation fails; then `out`
    /// is unchanged.
    pub fn matches(
        &self,
        _alloc: Global,
        hash: u64,
        out: &mut Vec<RowRef>,
    ) -> Result<(), AllocError>
        ensures ok { OnOk result (AppendsInSomeOrder out.old.items out.new.items (refs_of hash self.now.entries)) }
        ensures err { OnErr result (out.new.items ≡ out.old.items) }
    {
        let kept = out.len();
        for reference in self.matching(hash) {
            if out.push(reference).is_err() {
                out.truncate(kept);
                return Err(AllocError);
            }
        }
        Ok(())
    }

    /// Appends all references, with multiplicity, in no specified order. Returns `AllocError` if an allocation fails; then `out` is
    /// unchanged. Makes one pass over the table's nodes, including free ones.
    pub fn copy_all(&self, _alloc: Global, out: &mut Vec<RowRef>) -> Result<(), AllocError>
        ensures ok { OnOk result (AppendsInSomeOrder out.old.items out.new.items (all_refs self.now.entries)) }
        ensures err { OnErr result (out.new.items ≡ out.old.items) }
    {
        out.reserve(self.len)?;
        for node in &self.nodes {
            if node.is_live() {
                out.push_reserved(node.reference);
            }
        }
        Ok(())
    }

    /// Prepends a pair to its bucket's chain.
    fn put(&mut self, hash: u64, reference: RowRef)
        requires room { 0 < self.old.spare }
        requires small { IsSmall reference }
        ensures entries { IsPermutation self.new.entries ((hash, reference) ∷ self.old.entries) }
        ensures spare { self.new.spare + 1 ≡ self.old.spare }
    {
        let at = stock(&mut self.nodes, self.free);
        let bucket = bucket_of(self.place, hash);
        let node = &mut self.nodes[at as usize];
        self.free = node.next;
        *node = Node {
            hash,
            reference,
            next: self.heads.get(bucket),
        };
        self.heads.set(bucket, at);
        self.directory.note(reference, at);
        self.len += 1;
    }

    /// Removes a pair from its bucket's chain: the pair of the chain's first node replaces it, and the first node is freed. Returns whether
    /// the pair was there.
    fn take(&mut self, hash: u64, reference: RowRef) -> bool
        ensures found { IsTrue result ↔ Contains self.old.entries (hash, reference) }
        ensures entries { OnTrue result (IsPermutation self.old.entries ((hash, reference) ∷ self.new.entries)) }
        ensures spare { OnTrue result (self.new.spare ≡ self.old.spare + 1) }
        ensures none { OnFalse result (self.new ≡ self.old) }
    {
        let bucket = bucket_of(self.place, hash);
        let head = self.heads.get(bucket);
        let at = find_by_hint(&self.nodes, &self.directory, head, hash, reference);
        if at == NIL {
            return false;
        }
        let first = self.nodes[head as usize];
        let next = self.nodes[at as usize].next;
        self.nodes[at as usize] = Node {
            hash: first.hash,
            reference: first.reference,
            next,
        };
        self.nodes[head as usize] = Node {
            hash: 0,
            reference: FREE,
            next: self.free,
        };
        self.heads.set(bucket, first.next);
        self.directory.note_move(first.reference, head, at);
        self.free = head;
        self.len -= 1;
        true
    }

    /// Splits the next bucket if there are more than two entries per bucket and capacity for another bucket head.
    fn split_if_crowded(&mut self)
        ensures { self.new ≡ self.old }
    {
        if self.len <= 2 * self.heads.len() || !self.heads.grow() {
            return;
        }
        let split = self.place.split;
        let mask = (8 << self.place.level) - 1;
        let from = self.heads.get(split);
        let (staying, leaving) = deal(self.nodes.as_mut_slice(), from, mask, split as u64, NIL);
        let last = self.heads.len() - 1;
        self.heads.set(split, staying);
        self.heads.set(last, leaving);
        self.place = place_after(self.place);
    }

    /// Merges the last bucket into the one that it was split from, if there is less than half an entry per bucket and there are more than
    /// four buckets.
    fn merge_if_sparse(&mut self)
        ensures { self.new ≡ self.old }
    {
        let buckets = self.heads.len();
        if 2 * self.len >= buckets || buckets == 4 {
            return;
        }
        let place = place_before(self.place);
        let from = self.heads.get(buckets - 1);
        let onto = self.heads.get(place.split);
        let (staying, _) = deal(self.nodes.as_mut_slice(), from, 0, 0, onto);
        self.heads.shrink();
        self.heads.set(place.split, staying);
        self.place = place;
    }
}
