//! Chain nodes.
ghost use Rattle.std.specs.Prelude.{◌≡◌, ◌↔◌, IsTrue};

use mm_value::RowRef;

/// The null link: the end of a chain.
pub(crate) const NIL: u32 = u32::MAX;

/// The reference of a free node. No entry has it.
pub(crate) const FREE: RowRef = RowRef { slot: u32::MAX };

/// A node of a chain: one entry, or a free place. An entry takes the 16 bytes of its node, 4 in the directory, and half of a bucket head of
/// 4.
#[derive(Clone, Copy, Drop)]
pub(crate) struct Node {
    /// The hash of the entry.
    pub(crate) hash: u64,
    /// The reference of the entry, or `FREE` if there is no entry.
    pub(crate) reference: RowRef,
    /// The next node of the chain.
    pub(crate) next: u32,
}

impl Node {
    ghost use Rattle.mlhash.specs.Pairs.{is_live, pair_of};

    /// Returns whether the node holds an entry.
    pub(crate) fn is_live(&self) -> bool
        ensures { result ≡ is_live self.now }
    {
        self.reference.slot < FREE.slot
    }

    /// Returns whether the entry has this hash and reference.
    pub(crate) fn has(&self, hash: u64, reference: RowRef) -> bool
        ensures { IsTrue result ↔ (pair_of self.now ≡ (hash, reference)) }
    {
        self.hash == hash && self.reference == reference
    }
}
