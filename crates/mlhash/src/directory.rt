//! Hints about which node contains an entry.
ghost use Rattle.std.specs.Prelude.{◌≡◌, ◌≢◌, ℕ, [], ◌++◌, replicate, slice_index_or, slice_set, take};

use crate::node::NIL;
use mm_value::RowRef;
use std::alloc::Global;
use std::marker::Model;

/// For each slot of a table, the node that last received an entry with a reference to it, or `NIL`.
///
/// All values are hints. The node may have been freed since, or contain another entry, so callers check the node. In return, nothing has to
/// keep the hints complete: a reference whose slot is past the end has no hint.
#[derive(Drop)]
pub(crate) struct Directory {
    nodes: Vec<u32>,
}

impl Model for Directory {
    ghost use Rattle.std.specs.Prelude.{List, ℕ};

    ghost Value = { List ℕ };

    ghost view = { λ d. d.nodes.items };
}

impl Directory {
    /// Returns a directory without hints. Allocates nothing.
    pub(crate) fn new(alloc: Global) -> Directory
        ensures { result ≡ [] }
    {
        Directory {
            nodes: Vec::new(alloc),
        }
    }

    /// Grows to `places` places if the allocation succeeds. A failed allocation is ignored.
    pub(crate) fn reserve(&mut self, places: usize)
        ensures { (more : ℕ) × (self.new ≡ self.old ++ replicate more NIL) }
    {
        if places > self.nodes.len() {
            let _ = self.nodes.resize(places, NIL);
        }
    }

    /// Drops the hints for slots from `places` on, and frees their memory.
    pub(crate) fn trim(&mut self, places: usize)
        ensures { self.new ≡ take places self.old }
    {
        self.nodes.truncate(places);
        self.nodes.shrink_to(places);
    }

    /// Returns the node to check first for an entry of this reference, or `NIL` if there is no hint.
    pub(crate) fn hint(&self, reference: RowRef) -> u32
        ensures { result ≡ slice_index_or self.now reference.slot NIL }
    {
        let index = reference.slot as usize;
        if index < self.nodes.len() {
            self.nodes[index]
        } else {
            NIL
        }
    }

    /// Records that this node received an entry of the reference, if the reference has a place.
    pub(crate) fn note(&mut self, reference: RowRef, node: u32)
        ensures { self.new ≡ slice_set self.old reference.slot node }
    {
        let index = reference.slot as usize;
        if index < self.nodes.len() {
            self.nodes[index] = node;
        }
    }

    /// Records that the entry of the reference moved from one node to another. Writes nothing if both nodes are the same.
    pub(crate) fn note_move(&mut self, reference: RowRef, from: u32, to: u32)
        ensures moved { from ≢ to → self.new ≡ slice_set self.old reference.slot to }
        ensures stayed { from ≡ to → self.new ≡ self.old }
    {
        if from != to {
            self.note(reference, to);
        }
    }
}
